//! The audit of whole logs: what each tablet accepts, where it ends, and whether the tablets agree.
#![tactic(auto)]

mod audit;
mod cases;
mod commits;
mod held;
mod judge;
mod judgement;
mod look;
mod run;
mod tablets;
mod tally;

pub use audit::{AgreeFail, Audit, End, EndState, Ends};
pub use judgement::agree;

#[cfg(test)]
mod tests {
    use super::*;
    use std::alloc::{AllocError, Global};
    use xc_base::Key;
    use xc_logs::LogSet;
    use xc_record::{
        AgreeKind, Break, Header, HybridTime, Kind, Logs, Op, Ops, Record, Records, Subs, Tablet,
        Tablets, valid,
    };

    #[derive(Clone, Copy)]
    enum Step {
        Write,
        // Of a transaction and one of its subtransactions, or 0.
        Intent(u32, u8),
        // Of a transaction, with its commit.
        Apply(u32, u64),
        // The same without a subtransaction.
        Without(u32, u64, u8),
        Abort(u32),
        Safe(u64),
        Split,
    }

    use Step::{Abort, Apply, Intent, Safe, Split, Without, Write};

    fn ops(alloc: Global, key: &[u8]) -> Result<Option<Ops>, AllocError> {
        let Ok(key) = Key::new(key) else {
            return Ok(None);
        };
        let mut ops = Ops::new(alloc);
        ops.push(Op { key, value: None })?;
        Ok(Some(ops))
    }

    fn apply(txn: u32, commit: u64, without: Subs) -> Option<Kind> {
        match HybridTime::new(commit) {
            Some(commit) => Some(Kind::Apply {
                txn,
                commit,
                without,
            }),
            None => None,
        }
    }

    fn one_sub(sub: u8) -> Subs {
        let mut subs = Subs::new();
        if 1 <= sub && sub <= 64 {
            subs.insert(sub);
        }
        subs
    }

    fn kind(alloc: Global, key: &[u8], step: Step) -> Result<Option<Kind>, AllocError> {
        Ok(match step {
            Write => match ops(alloc, key)? {
                Some(ops) => Some(Kind::Write { ops }),
                None => None,
            },
            Intent(txn, sub) => match ops(alloc, key)? {
                Some(ops) => Some(Kind::Intent { txn, sub, ops }),
                None => None,
            },
            Apply(txn, commit) => apply(txn, commit, Subs::new()),
            Without(txn, commit, sub) => apply(txn, commit, one_sub(sub)),
            Abort(txn) => Some(Kind::Abort { txn }),
            Safe(value) => match HybridTime::new(value) {
                Some(value) => Some(Kind::Safe { value }),
                None => None,
            },
            Split => Some(Kind::Split {
                at: 32_768,
                left: 1,
                right: 2,
            }),
        })
    }

    // The records of one tablet among the steps.
    fn records(
        alloc: Global,
        id: u32,
        key: &[u8],
        steps: &[(u32, u64, Step)],
    ) -> Result<Records, AllocError> {
        let mut items = Vec::new(alloc);
        for (tablet, time, step) in steps {
            if *tablet == id {
                if let (Some(time), Some(kind)) = (
                    HybridTime::new(*time),
                    kind(alloc, key, *step)?,
                ) {
                    items.push(Record { time, kind })?;
                }
            }
        }
        Ok(Records::from_vec(items))
    }

    fn header(id: u32, lo: u16, hi: u16, parent: Option<u32>) -> Header {
        Header { id, lo, hi, parent }
    }

    // The tablets, each with the key of its operations.
    fn logs_of(
        alloc: Global,
        tablets: &[(Header, &[u8])],
        steps: &[(u32, u64, Step)],
    ) -> Result<Tablets, AllocError> {
        let mut items = Vec::new(alloc);
        for (header, key) in tablets {
            items.push(Tablet {
                header: *header,
                records: records(alloc, header.id, key, steps)?,
            })?;
        }
        Ok(Tablets::from_vec(items))
    }

    // The audit of logs with these tablets, each with the key of its operations. None where they aren't valid.
    fn judged_of(
        alloc: Global,
        tablets: &[(Header, &[u8])],
        steps: &[(u32, u64, Step)],
    ) -> Result<Option<Audit>, AgreeFail> {
        let logs = Logs {
            tablets: logs_of(alloc, tablets, steps)?,
        };
        if !valid(&logs) {
            return Ok(None);
        }
        Ok(Some(agree(alloc, &LogSet::new(logs))?))
    }

    // The same of two roots, whose operations are at the keys aaa and zzz.
    fn judged(alloc: Global, steps: &[(u32, u64, Step)]) -> Result<Option<Audit>, AgreeFail> {
        let tablets = [
            (header(0, 0, 32_767, None), b"aaa".as_slice()),
            (header(1, 32_768, 65_535, None), b"zzz".as_slice()),
        ];
        judged_of(alloc, &tablets, steps)
    }

    // The same of a root that splits, whose operations are at a key of the right child's range.
    fn judged_split(alloc: Global, steps: &[(u32, u64, Step)]) -> Result<Option<Audit>, AgreeFail> {
        let tablets = [
            (header(0, 0, 65_535, None), b"zzz".as_slice()),
            (header(1, 0, 32_767, Some(0)), b"aaa".as_slice()),
            (header(2, 32_768, 65_535, Some(0)), b"zzz".as_slice()),
        ];
        judged_of(alloc, &tablets, steps)
    }

    fn end(accepted: u64, floor: u64, state: EndState) -> End {
        End {
            accepted,
            floor,
            state,
        }
    }

    fn open(accepted: u64, floor: u64) -> End {
        end(accepted, floor, EndState::Open)
    }

    // Whether the answer is an audit with these ends and so many commits.
    fn agrees(answer: Result<Option<Audit>, AgreeFail>, ends: &[End], commits: u64) -> bool {
        match answer {
            Ok(Some(audit)) => audit.ends.as_slice() == ends && audit.commits == commits,
            Ok(None) | Err(_) => false,
        }
    }

    // Whether the answer is this case of disagreement.
    fn disagrees(
        answer: Result<Option<Audit>, AgreeFail>,
        txn: u32,
        tablet: u32,
        kind: AgreeKind,
    ) -> bool {
        match answer {
            Ok(_) => false,
            Err(fail) => fail == AgreeFail::Disagree { txn, tablet, kind },
        }
    }

    #[test]
    fn each_kind_alone(rt: HostRuntime) {
        let alloc = rt.alloc();
        let differs = judged(alloc, &[(0, 20, Apply(7, 15)), (1, 25, Apply(7, 16))]);
        assert!(rt; disagrees(differs, 7, 1, AgreeKind::CommitDiffers));
        let undoes = judged(alloc, &[(0, 20, Without(7, 15, 1)), (1, 25, Apply(7, 15))]);
        assert!(rt; disagrees(undoes, 7, 1, AgreeKind::RollbackDiffers));
        let another = judged(
            alloc,
            &[(0, 20, Without(7, 15, 1)), (1, 25, Without(7, 15, 2))],
        );
        assert!(rt; disagrees(another, 7, 1, AgreeKind::RollbackDiffers));
        let late = judged(alloc, &[(0, 20, Apply(7, 15)), (1, 15, Intent(7, 0))]);
        assert!(rt; disagrees(late, 7, 1, AgreeKind::LateIntent));
        let aborted = judged(alloc, &[(0, 20, Apply(7, 15)), (1, 5, Abort(7))]);
        assert!(rt; disagrees(aborted, 7, 1, AgreeKind::Aborted));
        let straggles = [
            (0, 20, Apply(7, 15)),
            (1, 11, Intent(7, 0)),
            (1, 21, Safe(15)),
        ];
        assert!(rt; disagrees(judged(alloc, &straggles), 7, 1, AgreeKind::Straggler));
    }

    #[test]
    fn of_two_the_lesser_transaction_then_tablet_then_kind(rt: HostRuntime) {
        let alloc = rt.alloc();
        let transactions = [
            (0, 20, Apply(7, 15)),
            (0, 21, Apply(5, 15)),
            (1, 15, Intent(7, 0)),
            (1, 25, Abort(5)),
        ];
        assert!(rt; disagrees(judged(alloc, &transactions), 5, 1, AgreeKind::Aborted));
        let tablets = [
            (0, 20, Apply(7, 15)),
            (0, 21, Abort(7)),
            (1, 15, Intent(7, 0)),
        ];
        assert!(rt; disagrees(judged(alloc, &tablets), 7, 0, AgreeKind::Aborted));
        let kinds = [
            (0, 20, Apply(7, 15)),
            (1, 16, Abort(7)),
            (1, 17, Intent(7, 0)),
        ];
        assert!(rt; disagrees(judged(alloc, &kinds), 7, 1, AgreeKind::LateIntent));
        let applies = [(0, 20, Apply(7, 15)), (1, 16, Without(7, 16, 1))];
        assert!(rt; disagrees(judged(alloc, &applies), 7, 1, AgreeKind::CommitDiffers));
        let lists = [
            (0, 20, Apply(7, 15)),
            (1, 15, Intent(7, 0)),
            (1, 16, Without(7, 15, 1)),
        ];
        assert!(rt; disagrees(judged(alloc, &lists), 7, 1, AgreeKind::RollbackDiffers));
        let one_tablet = [(0, 20, Without(7, 15, 1)), (0, 21, Apply(7, 15))];
        assert!(rt; disagrees(judged(alloc, &one_tablet), 7, 0, AgreeKind::RollbackDiffers));
    }

    #[test]
    fn a_straggler_on_the_first_tablet_or_rolled_back(rt: HostRuntime) {
        let alloc = rt.alloc();
        let first = [
            (0, 11, Intent(7, 0)),
            (0, 21, Safe(15)),
            (1, 25, Apply(7, 15)),
        ];
        assert!(rt; disagrees(judged(alloc, &first), 7, 0, AgreeKind::Straggler));
        let rolled_back = [
            (0, 20, Without(7, 15, 1)),
            (1, 11, Intent(7, 1)),
            (1, 21, Safe(15)),
            (1, 25, Without(7, 15, 1)),
        ];
        assert!(rt; disagrees(judged(alloc, &rolled_back), 7, 1, AgreeKind::Straggler));
    }

    #[test]
    fn logs_that_agree_have_all_ends_and_the_commits(rt: HostRuntime) {
        let alloc = rt.alloc();
        let writes = [
            (0, 10, Write),
            (0, 11, Intent(7, 0)),
            (0, 20, Apply(7, 15)),
            (1, 12, Apply(9, 12)),
        ];
        assert!(rt; agrees(judged(alloc, &writes), &[open(3, 0), open(1, 0)], 3));
        let in_time = [
            (0, 20, Apply(7, 15)),
            (1, 11, Intent(7, 0)),
            (1, 21, Safe(14)),
            (1, 25, Apply(7, 15)),
        ];
        assert!(rt; agrees(judged(alloc, &in_time), &[open(1, 0), open(3, 14)], 1));
        let one_of_two = [
            (0, 10, Intent(7, 1)),
            (0, 11, Intent(7, 2)),
            (0, 20, Without(7, 15, 1)),
            (0, 21, Safe(20)),
            (1, 22, Without(7, 15, 1)),
        ];
        assert!(rt; agrees(judged(alloc, &one_of_two), &[open(4, 20), open(1, 0)], 1));
    }

    #[test]
    fn what_waits_at_a_split_waits_in_the_child_that_holds_it(rt: HostRuntime) {
        let alloc = rt.alloc();
        let in_time = [
            (0, 10, Intent(7, 1)),
            (0, 12, Safe(12)),
            (0, 20, Split),
            (1, 25, Safe(25)),
            (2, 25, Safe(15)),
            (2, 30, Without(7, 16, 1)),
        ];
        let split = end(3, 12, EndState::Split);
        assert!(rt;
            agrees(
                judged_split(alloc, &in_time),
                &[split, open(1, 25), open(2, 15)],
                1
            )
        );
        let late = [
            (0, 10, Intent(7, 0)),
            (0, 11, Intent(8, 0)),
            (0, 20, Split),
            (1, 25, Apply(8, 15)),
            (1, 26, Safe(26)),
            (2, 25, Safe(15)),
            (2, 30, Apply(7, 16)),
        ];
        assert!(rt; disagrees(judged_split(alloc, &late), 8, 2, AgreeKind::Straggler));
    }

    #[test]
    fn a_break_halts_a_log_and_leaves_its_children_unreached(rt: HostRuntime) {
        let alloc = rt.alloc();
        let halt = EndState::Halt {
            number: 2,
            kind: Break::TimeBack,
        };
        let child = [
            (0, 12, Safe(11)),
            (0, 20, Split),
            (1, 21, Write),
            (1, 21, Write),
        ];
        let split = end(2, 11, EndState::Split);
        assert!(rt;
            agrees(
                judged_split(alloc, &child),
                &[split, end(1, 11, halt), open(0, 11)],
                1
            )
        );
        let root = [(0, 10, Write), (0, 10, Split), (1, 21, Write)];
        let unreached = end(0, 0, EndState::Unreached);
        assert!(rt;
            agrees(
                judged_split(alloc, &root),
                &[end(1, 0, halt), unreached, unreached],
                1
            )
        );
    }
}
