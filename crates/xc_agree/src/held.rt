// Operations that wait over a split.
ghost use Rattle.std.specs.Prelude.{◌≡◌, ℕ, IfOk, OnOk, ◌&&◌, ◌||◌, ◌==◌, List, true};
ghost use Rattle.xc_record.specs.Hash.{holds};
ghost use Rattle.xc_agree.specs.declared.commits.Commit.{Commit};
ghost use Rattle.xc_agree.specs.Seen.{since_at, since_in, is_in_slot};
ghost use Rattle.xc_agree.specs.Held.{is_held, writes_at, intends_kind, intends_since, is_start, is_since, InSlots};
ghost use Rattle.xc_agree.specs.Held.{StaysHeld};

use crate::commits::Commits;
use crate::look::{Look, Waiter};
use std::alloc::{AllocError, Global};
use xc_record::{Header, Kind, Ops, Record, hash_bytes};

/// An operation of a transaction that commits waits at a key of this hash.
#[derive(Clone, Copy, PartialEq, Eq, Debug)]
pub(crate) struct Held {
    pub(crate) txn: u32,
    /// The transaction's slot among those that commit.
    pub(crate) slot: usize,
    pub(crate) hash: u16,
}

fn keep(held: &mut Vec<Held>, stays: bool, x: Held) -> Result<(), AllocError>
    ensures held { OnOk result ((n h : ℕ)
        → is_held held.new.items n h ≡ (is_held held.old.items n h || (stays && (x.txn == n && x.hash == h)))) }
    ensures slots { OnOk result ((commits : List Commit) → (is_in_slot commits x.txn x.slot ≡ true)
        → InSlots commits held.old.items → InSlots commits held.new.items) }
{
    if stays {
        held.push(x)?;
    }
    Ok(())
}

fn stays(look: &Look, header: &Header, x: Held) -> bool
    ensures { result ≡ (holds header.now x.hash && is_start (since_at look.now x.slot)) }
{
    header.holds(x.hash) && look.starts(x.slot)
}

// What was held at a hash of the range and waits still.
fn hold_still(
    alloc: Global,
    look: &Look,
    header: &Header,
    held: &[Held],
) -> Result<Vec<Held>, AllocError>
    ensures { IfOk result (λ still. (commits : List Commit) → InSlots commits held.now
        → StaysHeld still.items commits look.now header.now held.now) }
{
    let mut still = Vec::new(alloc);
    for x in held {
        keep(&mut still, stays(look, header, *x), *x)?;
    }
    Ok(still)
}

fn hold_ops(held: &mut Vec<Held>, waiter: Waiter, ops: &Ops) -> Result<(), AllocError>
    ensures held { OnOk result ((n h : ℕ)
        → is_held held.new.items n h ≡ (is_held held.old.items n h || (waiter.txn == n && writes_at h ops.now))) }
    ensures slots { OnOk result ((commits : List Commit) → (is_in_slot commits waiter.txn waiter.slot ≡ true)
        → InSlots commits held.old.items → InSlots commits held.new.items) }
{
    for op in ops.iter() {
        held.push(Held {
            txn: waiter.txn,
            slot: waiter.slot,
            hash: hash_bytes(op.key_bytes()),
        })?;
    }
    Ok(())
}

// With what the record at the place holds, where its transaction waits since then.
fn hold_record(
    held: &mut Vec<Held>,
    look: &Look,
    commits: &Commits,
    near: &mut usize,
    place: usize,
    r: &Record,
) -> Result<(), AllocError>
    ensures held { OnOk result ((n h : ℕ)
        → is_held held.new.items n h
        ≡ (is_held held.old.items n h ||
        (is_since place (since_in commits.now look.now n) && intends_kind n h r.now.kind))) }
    ensures slots { OnOk result (InSlots commits.now held.old.items → InSlots commits.now held.new.items) }
{
    if let Kind::Intent { txn, ops, .. } = &r.kind {
        if let Some(slot) = commits.slot(*txn, *near) {
            *near = slot;
            if look.waits_since(slot, place) {
                let waiter = Waiter { txn: *txn, slot };
                hold_ops(held, waiter, ops)?;
            }
        }
    }
    Ok(())
}

/// What waits at the end of a tablet's records, at the hashes of its range.
pub(crate) fn hold(
    alloc: Global,
    look: &Look,
    commits: &Commits,
    header: &Header,
    held: &[Held],
    records: &[Record],
) -> Result<Vec<Held>, AllocError>
    ensures held { IfOk result (λ more. InSlots commits.now held.now → (n h : ℕ) → is_held more.items n h
        ≡ ((is_held held.now n h && (holds header.now h && is_start (since_in commits.now look.now n))) || intends_since
        n h (since_in commits.now look.now n) records.now)) }
    ensures slots { IfOk result (λ more. InSlots commits.now held.now → InSlots commits.now more.items) }
{
    let mut more = hold_still(alloc, look, header, held)?;
    let mut near = 0;
    for (i, r) in records.iter().enumerate() {
        hold_record(&mut more, look, commits, &mut near, i + 1, r)?;
    }
    Ok(more)
}
