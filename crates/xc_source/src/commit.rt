ghost use Rattle.std.specs.Prelude.{◌≡◌, ℕ, List, OnOk, OnErr};
ghost use Rattle.xc_source.specs.declared.commit.Commit.{Commit as Listed};
ghost use Rattle.xc_source.specs.Calls.{commits_and};

use crate::commits::Commits;
use crate::transaction::Transaction;
use std::alloc::AllocError;
use xc_record::Ops;

/// What the source committed at one time, as contracts see it: a put, or a transaction with what it wrote and didn't
/// roll back.
#[derive(Drop, Debug)]
pub struct Commit {
    /// The commit time.
    pub time: u64,
    /// The transaction's number, or 0 of a put.
    pub txn: u32,
    /// The operations in the order written.
    pub ops: Ops,
}

// Lists the transaction's commit, unless it wrote nothing. Its operations are written into the room first. After an
// error all is as before.
pub(crate) fn list(
    room: &mut Ops,
    commits: &mut Commits,
    time: u64,
    txn: u32,
    t: &Transaction,
) -> Result<(), AllocError>
    ensures ok { OnOk result (commits.new ≡ commits_and time txn t.now commits.old) }
    ensures err { OnErr result (commits.new ≡ commits.old) }
{
    if t.is_empty() {
        return Ok(());
    }
    t.kept_ops(room)?;
    commits.push(time, txn, room)
}

// Takes back that the transaction's commit was listed last.
pub(crate) fn unlist(commits: &mut Commits, t: &Transaction)
    ensures { (time txn : ℕ) (cs : List Listed) → commits.old ≡ commits_and time txn t.now cs → commits.new
        ≡ cs }
{
    if !t.is_empty() {
        commits.pop();
    }
}
