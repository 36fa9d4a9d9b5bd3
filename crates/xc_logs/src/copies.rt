// Copies of records, whose operations take memory of their own.
ghost use Rattle.std.specs.Prelude.{◌≡◌, ◌≤◌, IfOk};
ghost use Rattle.xc_logs.specs.Feed.{fetched};

use std::alloc::{AllocError, Global};
use xc_record::{Kind, Record, Records};

// The records from the number `from` on, at most `max` of them.
pub(crate) fn part(records: &[Record], from: u64, max: u64) -> &[Record]
    requires { 1 ≤ from }
    ensures { result.now ≡ fetched records.now from max }
{
    let count = records.len() as u64;
    let start = (from - 1).min(count);
    let some = max.min(count - start);
    &records[start as usize..(start + some) as usize]
}

pub(crate) fn copies(alloc: Global, records: &[Record]) -> Result<Records, AllocError>
    ensures { IfOk result (λ copy. copy ≡ records.now) }
{
    let mut items = Vec::with_capacity(alloc, records.len())?;
    for rec in records {
        items.push(copy_of(alloc, rec)?)?;
    }
    Ok(Records::from_vec(items))
}

fn copy_of(alloc: Global, rec: &Record) -> Result<Record, AllocError>
    ensures { IfOk result (λ copy. copy ≡ rec.now) }
{
    let kind = match &rec.kind {
        Kind::Write { ops } => Kind::Write {
            ops: ops.clone_in(alloc)?,
        },
        Kind::Intent { txn, sub, ops } => Kind::Intent {
            txn: *txn,
            sub: *sub,
            ops: ops.clone_in(alloc)?,
        },
        Kind::Apply {
            txn,
            commit,
            without,
        } => Kind::Apply {
            txn: *txn,
            commit: *commit,
            without: without.copied(),
        },
        Kind::Abort { txn } => Kind::Abort { txn: *txn },
        Kind::Safe { value } => Kind::Safe { value: *value },
        Kind::Split { at, left, right } => Kind::Split {
            at: *at,
            left: *left,
            right: *right,
        },
    };
    Ok(Record {
        time: rec.time,
        kind,
    })
}
