ghost use Rattle.std.specs.Prelude.{◌≡◌, ◌<◌, ◌≤◌, ◌-◌, ◌==◌, true, length, option_map, IfSome};
ghost use Rattle.std.specs.Prelude.{OnOk, OnErr};
ghost use Rattle.std.specs.Prelude.{if◌then◌else◌, ℕ, List, None};
ghost use Rattle.std.specs.BTreeMap.{get};
ghost use Rattle.std.specs.Cmp.Lexicographic.{slice_cmp};
ghost use Rattle.std.specs.Ordering.{nat_cmp};
ghost use Rattle.xc_source.specs.Holders.{awaits, some_waits};
ghost use Rattle.xc_record.specs.declared.record.Op.{Op as OpOf};
ghost use Rattle.xc_source.specs.Machine.{Transaction as State, begun, kept_ops, is_live, commit_of};
ghost use Rattle.xc_source.specs.Waiting.{waits_on, taken, commit_on};
ghost use Rattle.xc_source.specs.Calls.{next_begun, undone_from, is_savepoint, written, aborted, committed};

use crate::write::Write;
use std::alloc::{AllocError, Global};
use std::collections::BTreeMap;
use std::marker::Model;
use xc_base::{Key, LAST_SUB};
use xc_record::{Header, HybridTime, Op, OpAt, Ops, Subs};

// So many writes of a transaction get room two at a time, since most transactions have few.
const FEW_WRITES: usize = 4;

/// How far a transaction came.
#[derive(Clone, Copy, PartialEq, Eq, Debug)]
pub enum Stage {
    /// It can be written to.
    Live,
    /// It committed at this time.
    Committed { commit: HybridTime },
    /// It was rolled back as a whole.
    Aborted,
}

/// A write of a transaction, as contracts see it.
#[derive(Clone, Copy, PartialEq, Eq, Debug)]
pub struct Provisional {
    /// The subtransaction, 1 to 64, or 0 where it belongs to none.
    pub sub: u8,
    /// What it writes.
    pub op: Op,
    /// Whether no apply or abort of the transaction took it yet.
    pub waits: bool,
}

// Makes room for two writes more where there are few and no room is left.
fn make_room(writes: &mut Vec<Write>) -> Result<(), AllocError>
    ensures { writes.new.items ≡ writes.old.items }
{
    if writes.len() < FEW_WRITES && writes.len() == writes.capacity() {
        return writes.reserve_exact(2);
    }
    Ok(())
}

// A begun transaction. Contracts see it as the definition's.
#[derive(Drop, Debug)]
pub(crate) struct Transaction {
    writes: Vec<Write>,
    current: u8,
    undone: Subs,
    stage: Stage,
}

impl Model for Transaction {
    ghost use Rattle.xc_source.specs.Machine.{Transaction};
    ghost use Rattle.xc_source.specs.Universe.{IsTransaction};

    ghost Value = { Transaction };

    ghost view = { λ t. record { writes = t.writes.items; current = t.current; undone = t.undone; stage = t.stage } };

    ghost invariant = { λ t. IsTransaction t.writes.items t.current t.stage };
}

impl Transaction {
    // A live transaction that wrote nothing yet.
    pub(crate) fn new(alloc: Global) -> Transaction
        ensures { result ≡ begun }
    {
        Transaction {
            writes: Vec::new(alloc),
            current: 0,
            undone: Subs::new(),
            stage: Stage::Live,
        }
    }

    pub(crate) fn stage(&self) -> Stage
        ensures { result ≡ self.now.stage }
    {
        self.stage
    }

    // The subtransaction of the next write, 0 to 64.
    pub(crate) fn current(&self) -> u8
        ensures value { result ≡ self.now.current }
        ensures most { self.now.current ≤ LAST_SUB }
    {
        self.current
    }

    // Begins the next subtransaction, and answers its number.
    pub(crate) fn begin_next(&mut self) -> u8
        requires { self.old.current < LAST_SUB }
        ensures next { self.new ≡ next_begun self.old }
        ensures number { result ≡ self.new.current }
    {
        self.current += 1;
        self.current
    }

    // Whether the subtransaction was begun and isn't rolled back.
    pub(crate) fn is_savepoint(&self, sub: u8) -> bool
        ensures { result ≡ is_savepoint sub self.now }
    {
        1 <= sub && sub <= self.current && !self.undone.contains(sub)
    }

    // Rolls the subtransactions from `sub` up to the current one back.
    #[tactic(auto, using(crate::proofs::UndoneLaws::with_all_more))]
    pub(crate) fn undo_from(&mut self, sub: u8)
        requires low { 1 ≤ sub }
        requires high { sub ≤ self.old.current }
        ensures { self.new ≡ undone_from sub self.old }
    {
        for n in sub..self.current + 1 {
            self.undone.insert(n);
        }
    }

    // Whether something of it waits on the tablet with this header.
    pub(crate) fn waits_on(&self, header: &Header) -> bool
        ensures { result ≡ waits_on header.now self.now }
    {
        self.writes.iter().any(|w| w.waits_on(header))
    }

    // Whether something of it waits.
    pub(crate) fn waits(&self) -> bool
        ensures { result ≡ some_waits self.now }
    {
        self.writes.iter().any(|w| w.waits())
    }

    // Whether it wrote nothing, rolled back or not.
    pub(crate) fn is_empty(&self) -> bool
        ensures { result ≡ (length self.now.writes == 0) }
    {
        self.writes.len() == 0
    }

    // Puts a write behind the others. After an error they are as before.
    pub(crate) fn push_write(&mut self, alloc: Global, op: &OpAt<'_>) -> Result<(), AllocError>
        requires { is_live self.old.stage ≡ true }
        ensures ok { OnOk result (self.new ≡ written op.now self.old) }
        ensures err { OnErr result (self.new ≡ self.old) }
    {
        make_room(&mut self.writes)?;
        let write = Write::new(alloc, self.current, op)?;
        match self.writes.push(write) {
            Ok(()) => Ok(()),
            Err(_) => Err(AllocError),
        }
    }

    // Takes the last write back.
    pub(crate) fn pop_write(&mut self)
        ensures { (op : OpOf) (t : State) → self.old ≡ written op t → self.new ≡ t }
    {
        let _ = self.writes.pop();
    }

    // Takes the keys of its waiting writes out of the holders.
    pub(crate) fn free(&self, holders: &mut BTreeMap<Key, u32>)
        ensures { (key : List ℕ) → get (slice_cmp nat_cmp) holders.new key
            ≡ (if awaits key self.now then None else get (slice_cmp nat_cmp) holders.old key) }
    {
        for write in &self.writes {
            if write.waits() {
                let _ = holders.remove(&write.key());
            }
        }
    }

    // It committed at this time.
    pub(crate) fn set_committed(&mut self, commit: HybridTime)
        requires { 0 < length self.old.writes → 2 ≤ commit }
        ensures { self.new ≡ committed commit self.old }
    {
        self.stage = Stage::Committed { commit };
    }

    // It is rolled back as a whole, and nothing of it waits.
    #[tactic(auto, using(crate::proofs::MapLaws::set_mapped, crate::proofs::MapLaws::get_mapped))]
    pub(crate) fn set_aborted(&mut self)
        ensures { self.new ≡ aborted self.old }
    {
        for i in 0..self.writes.len() {
            self.writes[i].end();
        }
        self.stage = Stage::Aborted;
    }

    // What waits of it on the tablet with this header is taken.
    #[tactic(auto, using(crate::proofs::MapLaws::set_mapped, crate::proofs::MapLaws::get_mapped))]
    pub(crate) fn take(&mut self, header: &Header)
        ensures { self.new ≡ taken header.now self.old }
    {
        for i in 0..self.writes.len() {
            self.writes[i].take(header);
        }
    }

    // Fills the room with its operations that weren't rolled back, in the order written.
    pub(crate) fn kept_ops(&self, room: &mut Ops) -> Result<(), AllocError>
        ensures { OnOk result (room.new ≡ kept_ops self.now) }
    {
        room.clear();
        for write in &self.writes {
            if !self.undone.contains(write.sub()) {
                room.push_at(&write.op())?;
            }
        }
        Ok(())
    }

    // The subtransactions that were rolled back.
    pub(crate) fn undone(&self) -> Subs
        ensures { result ≡ self.now.undone }
    {
        self.undone.copied()
    }

    // The greatest safe value at which it doesn't show yet, where it is committed and waits on the tablet with this
    // header.
    #[tactic(auto, using(crate::proofs::WaitingLaws::waits_on_wrote))]
    pub(crate) fn bound(&self, header: &Header) -> Option<u64>
        ensures value { result ≡ option_map (λ commit. commit - 1) (commit_on header.now self.now) }
        ensures time { IfSome result (λ value. 1 ≤ value) }
    {
        if !self.waits_on(header) {
            return None;
        }
        match self.stage {
            Stage::Committed { commit } => Some(commit.get() - 1),
            _ => None,
        }
    }

    // When it committed, if it did.
    pub(crate) fn commit_time(&self) -> Option<HybridTime>
        ensures { result ≡ commit_of self.now.stage }
    {
        match self.stage {
            Stage::Committed { commit } => Some(commit),
            _ => None,
        }
    }
}
