// The audit.
ghost use Rattle.std.specs.Prelude.{◌≡◌, IfOk, IfErr, map};
ghost use Rattle.xc_agree.specs.Audit.{IsAudit, IsFail};
ghost use Rattle.xc_agree.specs.Runs.{end_from};

use crate::audit::{AgreeFail, Audit, End, EndState, Ends};
use crate::run::{Run, run_tablets};
use crate::tablets::first_case;
use crate::tally::note_commits;
use std::alloc::{AllocError, Global};
use xc_logs::LogSet;

fn end_of(run: &Run) -> End
    ensures { result ≡ end_from run.now }
{
    let state = if !run.reached {
        EndState::Unreached
    } else {
        match run.walk.halt {
            Some(halt) => EndState::Halt {
                number: halt.number as u64,
                kind: halt.kind,
            },
            None => {
                if run.walk.order.has_split() {
                    EndState::Split
                } else {
                    EndState::Open
                }
            }
        }
    };
    End {
        accepted: run.walk.accepted as u64,
        floor: run.walk.order.floor(),
        state,
    }
}

fn ends_of(alloc: Global, runs: &[Run]) -> Result<Ends, AllocError>
    ensures { IfOk result (λ ends. ends ≡ map end_from runs.now) }
{
    let mut ends = Vec::with_capacity(alloc, runs.len())?;
    for run in runs {
        ends.push(end_of(run))?;
    }
    Ok(Ends::from_vec(ends))
}

/// Judges whole logs: whether the tablets agree on every transaction that was applied, and if so how far each tablet's
/// log is accepted and how many writes and transactions commit.
///
/// For n records and m operations it takes time proportional to (n + m) log n, and a step more for each operation that
/// waits at a split, at each such split: at most 31 of them follow one another. Its memory is a few words for each
/// apply and, until both children were looked at, for each operation that waits at a split.
///
/// # Errors
///
/// `Disagree` exactly where the logs disagree, with the case of the least transaction, then of the least tablet, then
/// of the first kind. `NoMemory` where memory is refused, whatever the logs say.
pub fn agree(alloc: Global, logs: &LogSet) -> Result<Audit, AgreeFail>
    ensures audit { IfOk result (IsAudit logs.now) }
    ensures fail { IfErr result (IsFail logs.now) }
{
    let tablets = logs.tablets();
    let runs = run_tablets(alloc, tablets)?;
    let tally = note_commits(alloc, tablets, runs.as_slice())?;
    let first = first_case(alloc, tablets, runs.as_slice(), &tally.commits)?;
    if let Some(case) = first {
        return Err(AgreeFail::Disagree {
            txn: case.txn,
            tablet: case.tablet,
            kind: case.kind,
        });
    }
    Ok(Audit {
        ends: ends_of(alloc, runs.as_slice())?,
        commits: tally.count,
    })
}
