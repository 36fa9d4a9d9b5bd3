// One look through a tablet's accepted records for cases of disagreement.
ghost use Rattle.std.specs.Prelude.{◌≡◌, ℕ, ◌+◌, ◌<◌, ◌^◌, Option, Some, None, List, OnOk, IfOk, length, fold};
ghost use Rattle.std.specs.Prelude.{if◌then◌else◌, ◌==◌, slice_get, true, option_map};
ghost use Rattle.xc_record.specs.declared.record.AgreeKind.{AgreeKind};
ghost use Rattle.xc_record.specs.declared.record.AgreeKind.TheVariants.{Straggler};
ghost use Rattle.xc_record.specs.declared.record.Kind.TheVariants.{Intent, Apply, Abort, Safe};
ghost use Rattle.xc_agree.specs.declared.commits.Commit.{Commit};
ghost use Rattle.xc_record.specs.declared.record.Op.{Op};
ghost use Rattle.xc_record.specs.Agreement.{rank};
ghost use Rattle.xc_record.specs.Lists.{or_else};
ghost use Rattle.xc_agree.specs.Slots.{slot_of, time_of, without_of, undone_of};
ghost use Rattle.xc_agree.specs.Held.{is_start, is_since, InSlots};
ghost use Rattle.xc_agree.specs.Seen.{Takes, Began, IsEnd, waits_from, unseen, Seen, IsLeast, with_kind, see, waits_at};
ghost use Rattle.xc_agree.specs.Seen.{since_at, is_slot_of, pends_at, is_in_slot, AreInSlots, IsIdle, IsLook};
ghost use Rattle.xc_agree.specs.Seen.{IsLeastWith, KeepsPlace};

use crate::commits::{Commit, Commits};
use crate::held::Held;
use std::alloc::{AllocError, Global};
use xc_record::{AgreeKind, Header, Kind, Record, Subs};

/// The least transaction with a case, and its first kind.
#[derive(Clone, Copy, PartialEq, Eq, Debug)]
pub(crate) struct Found {
    pub(crate) txn: u32,
    pub(crate) kind: AgreeKind,
}

fn rank(kind: AgreeKind) -> u8
    ensures { result ≡ rank kind }
{
    match kind {
        AgreeKind::CommitDiffers => 0,
        AgreeKind::RollbackDiffers => 1,
        AgreeKind::LateIntent => 2,
        AgreeKind::Aborted => 3,
        AgreeKind::Straggler => 4,
    }
}

// The lesser of what was found and this case.
fn least(found: Option<Found>, txn: u32, kind: AgreeKind) -> Option<Found>
    ensures { (kinds : ℕ → Option AgreeKind) → IsLeast found kinds → IsLeast result (with_kind txn kind kinds) }
{
    match found {
        None => Some(Found { txn, kind }),
        Some(f) => {
            if f.txn < txn || f.txn == txn && rank(f.kind) <= rank(kind) {
                found
            } else {
                Some(Found { txn, kind })
            }
        }
    }
}

// The same where the case stands.
fn least_if(found: Option<Found>, stands: bool, txn: u32, kind: AgreeKind) -> Option<Found>
    ensures { IsLeastWith found stands txn kind result }
{
    if stands {
        least(found, txn, kind)
    } else {
        found
    }
}

/// A transaction that commits, and its slot among those that do.
#[derive(Clone, Copy, PartialEq, Eq, Debug)]
pub(crate) struct Waiter {
    pub(crate) txn: u32,
    pub(crate) slot: usize,
}

/// What a tablet's records so far say of all transactions that were applied.
#[derive(Drop, Debug)]
pub(crate) struct Look {
    // How many records there were.
    place: u32,
    // The place of the last safe record, or 0, and its value.
    safe: u32,
    floor: u64,
    // In each slot the place at which its transaction began to wait, where it waits; 0 for what waits from before the
    // first record.
    waiting: Vec<Option<u32>>,
    // What began to wait, some that waits no more among it.
    began: Vec<Waiter>,
    found: Option<Found>,
    // The slot that was looked up last.
    near: usize,
}

// Nothing waits in the slot any more.
fn stop(waiting: &mut Vec<Option<u32>>, slot: usize)
    ensures since { (i : ℕ)
        → waits_at waiting.new.items i ≡ (if i == slot then None else waits_at waiting.old.items i) }
    ensures len { length waiting.new.items ≡ length waiting.old.items }
{
    if let Some(since) = waiting.get_mut(slot) {
        *since = None;
    }
}

// Nothing waits in the slots of these any more.
fn stop_all(waiting: &mut Vec<Option<u32>>, waiters: &[Waiter])
    ensures since { (i : ℕ)
        → waits_at waiting.new.items i ≡ (if is_slot_of i waiters.now then None else waits_at waiting.old.items i) }
    ensures len { length waiting.new.items ≡ length waiting.old.items }
{
    for waiter in waiters {
        stop(waiting, waiter.slot);
    }
}

impl Look {
    /// A look for all tablets, one after the other, with a slot for each transaction that commits.
    pub(crate) fn new(alloc: Global, slots: usize) -> Result<Look, AllocError>
        ensures { IfOk result (λ look. (commits : List Commit) → (slots ≡ length commits) → IsIdle look commits) }
    {
        Ok(Look {
            place: 0,
            safe: 0,
            floor: 0,
            waiting: vec![in alloc; None; slots]?,
            began: Vec::new(alloc),
            found: None,
            near: 0,
        })
    }

    /// Before the first record of a tablet, where these operations are held from its parent's records.
    pub(crate) fn begin(&mut self, header: &Header, held: &[Held]) -> Result<(), AllocError>
        ensures place { OnOk result (self.new.place ≡ 0) }
        ensures begun { OnOk result ((commits : List Commit) → IsIdle self.old commits → InSlots commits held.now
            → IsLook self.new commits (λ n c. unseen (waits_from header.now held.now n))) }
    {
        self.place = 0;
        self.safe = 0;
        self.floor = 0;
        self.found = None;
        for x in held {
            if header.holds(x.hash) {
                self.wait(x.txn, x.slot, 0)?;
            }
        }
        Ok(())
    }

    /// What stands after the last record, where what waits may be a straggler.
    pub(crate) fn finish(&self, commits: &Commits) -> Option<Found>
        ensures { (seen : ℕ → ℕ → Seen) → IsLook self.now commits.now seen → IsEnd result commits.now seen }
    {
        let mut found = self.found;
        for waiter in self.began.as_slice() {
            found = self.straggler(commits, found, *waiter);
        }
        found
    }

    /// Forgets what waits, before the next tablet.
    pub(crate) fn clear(&mut self)
        ensures { (commits : List Commit) (seen : ℕ → ℕ → Seen) → IsLook self.old commits seen
            → IsIdle self.new commits }
    {
        stop_all(&mut self.waiting, self.began.as_slice());
        self.began.clear();
    }

    /// Whether the transaction in the slot waits from before the first record.
    pub(crate) fn starts(&self, slot: usize) -> bool
        ensures { result ≡ is_start (since_at self.now slot) }
    {
        match self.since(slot) {
            Some(place) => place == 0,
            None => false,
        }
    }

    // With the transaction where it pends.
    fn straggler(&self, commits: &Commits, found: Option<Found>, waiter: Waiter) -> Option<Found>
        ensures { (c : Commit) → (slice_get commits.now waiter.slot ≡ Some c)
            → IsLeastWith found (pends_at c.time self.now waiter.slot) waiter.txn Straggler result }
    {
        match commits.time(waiter.slot) {
            None => found,
            Some(commit) => {
                let pends = self.pends(waiter.slot, commit);
                least_if(found, pends, waiter.txn, AgreeKind::Straggler)
            }
        }
    }

    // The transaction in the slot waits, and waited at a safe record of value at or above its commit.
    fn pends(&self, slot: usize, commit: u64) -> bool
        ensures { result ≡ pends_at commit self.now slot }
    {
        match self.since(slot) {
            None => false,
            Some(since) => since < self.safe && commit <= self.floor,
        }
    }

    // The place at which the transaction in the slot began to wait, where it waits.
    fn since(&self, slot: usize) -> Option<u32>
        ensures { result ≡ since_at self.now slot }
    {
        match self.waiting.get(slot) {
            None => None,
            Some(since) => *since,
        }
    }

    /// Whether the transaction in the slot waits since the place or before.
    pub(crate) fn waits_since(&self, slot: usize, place: usize) -> bool
        ensures { result ≡ is_since place (since_at self.now slot) }
    {
        match self.since(slot) {
            None => false,
            Some(since) => since as usize <= place,
        }
    }

    // An operation of the transaction in the slot waits from this place on.
    fn wait(&mut self, txn: u32, slot: usize, place: u32) -> Result<(), AllocError>
        ensures since { OnOk result ((slot < length self.old.waiting.items) → (i : ℕ)
            → since_at self.new i
            ≡ (if i == slot then or_else (since_at self.old i) (Some place) else since_at self.old i)) }
        ensures kept { OnOk result (KeepsPlace self.old self.new) }
        ensures found { OnOk result (self.new.found ≡ self.old.found) }
        ensures began { OnOk result (Began self.old → Began self.new) }
        ensures waiters { OnOk result ((commits : List Commit) → (is_in_slot commits txn slot ≡ true)
            → AreInSlots commits self.old.began.items → AreInSlots commits self.new.began.items) }
    {
        if slot < self.waiting.len() && self.waiting[slot].is_none() {
            self.waiting[slot] = Some(place);
            self.began.push(Waiter { txn, slot })?;
        }
        Ok(())
    }

    // No operation of the transaction in the slot waits any more.
    fn settle(&mut self, txn: u32, slot: usize, commit: u64)
        ensures since { (i : ℕ) → since_at self.new i ≡ (if i == slot then None else since_at self.old i) }
        ensures kept { KeepsPlace self.old self.new }
        ensures found { IsLeastWith self.old.found (pends_at commit self.old slot) txn Straggler self.new.found }
        ensures began { Began self.old → Began self.new }
        ensures waiters { self.new.began ≡ self.old.began }
    {
        let pends = self.pends(slot, commit);
        self.found = least_if(self.found, pends, txn, AgreeKind::Straggler);
        stop(&mut self.waiting, slot);
    }

    // The slot of the transaction and its commit, if it has one.
    fn find<'a>(&mut self, commits: &'a Commits, txn: u32) -> Option<(usize, &'a Commit)>
        ensures slot { option_map (λ p. p.0) result ≡ slot_of commits.now txn }
        ensures time { option_map (λ p. p.1.now.time) result ≡ time_of commits.now txn }
        ensures undone { option_map (λ p. p.1.now.without) result ≡ without_of commits.now txn }
        ensures same { self.new ≡ record self.old { near = self.new.near } }
    {
        let slot = commits.slot(txn, self.near)?;
        self.near = slot;
        Some((slot, commits.at(slot)))
    }

    fn take_intent(&mut self, commits: &Commits, txn: u32, time: u64) -> Result<(), AllocError>
        requires { self.old.place + 1 < 2 ^ 32 }
        ensures place { OnOk result (self.new.place ≡ self.old.place + 1) }
        ensures taken { OnOk result ((sub : ℕ) (ops : List Op)
            → Takes self.old self.new commits.now time (Intent sub txn ops)) }
    {
        match self.find(commits, txn) {
            None => self.place += 1,
            Some((slot, commit)) => {
                self.found = least_if(self.found, commit.time <= time, txn, AgreeKind::LateIntent);
                self.wait(txn, slot, self.place + 1)?;
                self.place += 1;
            }
        }
        Ok(())
    }

    fn take_apply(&mut self, commits: &Commits, txn: u32, named: u64, without: &Subs)
        requires { self.old.place + 1 < 2 ^ 32 }
        ensures place { self.new.place ≡ self.old.place + 1 }
        ensures taken { (time : ℕ) → Takes self.old self.new commits.now time (Apply txn named without.now) }
    {
        match self.find(commits, txn) {
            None => self.place += 1,
            Some((slot, commit)) => {
                let differs = named != commit.time;
                let undoes = !without.is_same(&commit.without);
                let found = least_if(self.found, differs, txn, AgreeKind::CommitDiffers);
                self.found = least_if(found, undoes, txn, AgreeKind::RollbackDiffers);
                self.settle(txn, slot, commit.time);
                self.place += 1;
            }
        }
    }

    fn take_abort(&mut self, commits: &Commits, txn: u32)
        requires { self.old.place + 1 < 2 ^ 32 }
        ensures place { self.new.place ≡ self.old.place + 1 }
        ensures taken { (time : ℕ) → Takes self.old self.new commits.now time (Abort txn) }
    {
        match self.find(commits, txn) {
            None => self.place += 1,
            Some((slot, commit)) => {
                self.found = least(self.found, txn, AgreeKind::Aborted);
                self.settle(txn, slot, commit.time);
                self.place += 1;
            }
        }
    }

    fn take_safe(&mut self, value: u64)
        requires { self.old.place + 1 < 2 ^ 32 }
        ensures place { self.new.place ≡ self.old.place + 1 }
        ensures taken { (commits : List Commit) (time : ℕ) → Takes self.old self.new commits time (Safe value) }
    {
        self.place += 1;
        self.safe = self.place;
        self.floor = value;
    }

    fn take(&mut self, commits: &Commits, r: &Record) -> Result<(), AllocError>
        requires { self.old.place + 1 < 2 ^ 32 }
        ensures place { OnOk result (self.new.place ≡ self.old.place + 1) }
        ensures taken { OnOk result (Takes self.old self.new commits.now r.now.time r.now.kind) }
    {
        match &r.kind {
            Kind::Intent { txn, .. } => self.take_intent(commits, *txn, r.time.get())?,
            Kind::Apply {
                txn,
                commit,
                without,
            } => self.take_apply(commits, *txn, commit.get(), without),
            Kind::Abort { txn } => self.take_abort(commits, *txn),
            Kind::Safe { value } => self.take_safe(value.get()),
            Kind::Write { .. } | Kind::Split { .. } => self.place += 1,
        }
        Ok(())
    }

    /// Takes all records.
    pub(crate) fn take_all(
        &mut self,
        commits: &Commits,
        records: &[Record],
    ) -> Result<(), AllocError>
        requires { self.old.place + length records.now < 2 ^ 32 }
        ensures { OnOk result ((seen : ℕ → ℕ → Seen) → IsLook self.old commits.now seen
            → IsLook self.new commits.now (λ n c. fold (see n c (undone_of commits.now n)) (seen n c) records.now)) }
    {
        for r in records {
            self.take(commits, r)?;
        }
        Ok(())
    }
}
