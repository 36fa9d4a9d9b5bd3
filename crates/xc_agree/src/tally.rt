// What commits by the accepted records.
ghost use Rattle.std.specs.Prelude.{◌≡◌, ◌+◌, ◌<◌, ◌^◌, [], ◌∷◌, ◌++◌, IfOk, OnOk, IsTrue, length};
ghost use Rattle.xc_record.specs.Accepted.{accepted_tablets_after};
ghost use Rattle.xc_record.specs.Valid.{is_valid};
ghost use Rattle.xc_agree.specs.Runs.{IsRuns};
ghost use Rattle.xc_agree.specs.Tally.{applies_in, writes, IsTally};
ghost use Rattle.xc_agree.specs.Cases.{of_tablets, all_records};

use crate::cases::accepted_part;
use crate::commits::{Commit, Commits};
use crate::run::Run;
use std::alloc::{AllocError, Global};
use xc_record::{Kind, Record, Tablet};

/// What commits by some records.
#[derive(Drop, Debug)]
pub(crate) struct Tally {
    pub(crate) commits: Commits,
    /// How many writes and transactions commit.
    pub(crate) count: u64,
}

// The applies among some records, in their order, and the number of the writes.
#[derive(Drop, Debug)]
struct Applies {
    items: Vec<Commit>,
    writes: u64,
}

impl Applies {
    fn add(&mut self, r: &Record) -> Result<(), AllocError>
        requires { self.old.writes < 2 ^ 63 }
        ensures items { OnOk result (self.new.items.items ≡ self.old.items.items ++ applies_in (r.now ∷ [])) }
        ensures writes { OnOk result (self.new.writes ≡ self.old.writes + writes (r.now ∷ [])) }
    {
        match &r.kind {
            Kind::Write { .. } => self.writes += 1,
            Kind::Apply {
                txn,
                commit,
                without,
            } => self.items.push(Commit {
                txn: *txn,
                time: commit.get(),
                without: without.copied(),
            })?,
            _ => {}
        }
        Ok(())
    }

    // With those of more records.
    fn add_all(&mut self, records: &[Record]) -> Result<(), AllocError>
        requires { self.old.writes + length records.now < 2 ^ 63 }
        ensures items { OnOk result (self.new.items.items ≡ self.old.items.items ++ applies_in records.now) }
        ensures writes { OnOk result (self.new.writes ≡ self.old.writes + writes records.now) }
    {
        for r in records {
            self.add(r)?;
        }
        Ok(())
    }
}

/// What commits by all accepted records.
pub(crate) fn note_commits(
    alloc: Global,
    tablets: &[Tablet],
    runs: &[Run],
) -> Result<Tally, AllocError>
    requires runs { IsRuns runs.now (accepted_tablets_after [] tablets.now) tablets.now }
    requires valid { IsTrue (is_valid (of_tablets tablets.now)) }
    ensures { IfOk result (λ t. IsTally t (all_records (accepted_tablets_after [] tablets.now))) }
{
    let mut applies = Applies {
        items: Vec::new(alloc),
        writes: 0,
    };
    for i in 0..tablets.len() {
        applies.add_all(accepted_part(&tablets[i], &runs[i]))?;
    }
    let Applies { items, writes } = applies;
    let commits = Commits::of_applies(items)?;
    let count = writes + commits.len() as u64;
    Ok(Tally { commits, count })
}
