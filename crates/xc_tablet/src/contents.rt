// What a target tablet keeps of the keys of its range: their versions, and the operations that wait.
ghost use Rattle.std.specs.Prelude.{◌≡◌, ◌≤◌, ◌<◌, ◌+◌, ◌^◌, ℕ, true, false, List, [], ◌∷◌, length, if◌then◌else◌};
ghost use Rattle.std.specs.Prelude.{None, Some, nat_le, OnOk};
ghost use Rattle.std.specs.List.{find, list_all};
ghost use Rattle.xc_record.specs.declared.record.Record.{Record};
ghost use Rattle.xc_record.specs.Hash.{hash_of, holds};
ghost use Rattle.xc_record.specs.Path.{Apply, Abort, record_events};
ghost use Rattle.xc_record.specs.Kept.{step, steps};
ghost use Rattle.xc_record.specs.Valid.{ops_in};
ghost use Rattle.xc_intents.specs.HeldOps.{is_sought};
ghost use Rattle.xc_tablet.specs.Contents.{in_hashes, has_key, kept_in, IsContents, Alike, Changes, put_events};
ghost use Rattle.xc_tablet.specs.Contents.{hold_events, LeavesAlike, all_held, keys_keep, all_keep};
ghost use Rattle.xc_tablet.specs.Room.{count_in, Adds, Settles, HasRoom};
ghost use Rattle.xc_base.specs.declared.limits.TheConstants.{MOST_RECORDS, RECORD_OPERATIONS};

use crate::room::{Room, is_apart, is_in};
use std::alloc::Global;
use xc_base::NoMemory;
use xc_intents::Intents;
use xc_record::{Header, Kind, OpAt, Ops, Record, Subs};
use xc_versions::Versions;

/// The versions and the operations that wait of the keys whose hashes are from `lo` to `hi`.
#[derive(Drop, Debug)]
pub(crate) struct Contents {
    /// The place of the next version: above those of all versions that were added.
    pub(crate) next: u64,
    /// The versions.
    pub(crate) versions: Versions,
    /// The operations that wait.
    pub(crate) held: Intents,
    /// The first hash.
    pub(crate) lo: u16,
    /// The last hash.
    pub(crate) hi: u16,
}

impl Contents {
    /// Nothing. It keeps the allocator for its growth.
    pub(crate) fn new(alloc: Global, lo: u16, hi: u16) -> Contents
        ensures is { IsContents result }
        ensures range { (result.lo ≡ lo) × (result.hi ≡ hi) }
        ensures empty { (result.versions.items ≡ []) × (result.held.held ≡ []) }
        ensures next { result.next ≡ 0 }
    {
        Contents {
            next: 0,
            versions: Versions::new(alloc),
            held: Intents::new(alloc),
            lo,
            hi,
        }
    }

    // Whether the operation of a source tablet with this header is of a key of the range.
    #[inline]
    fn has(&self, header: &Header, op: &OpAt<'_>) -> bool
        requires { holds header.now (hash_of op.now.key) ≡ true }
        ensures { result ≡ has_key self.now op.now.key }
    {
        is_in(header, self.lo, self.hi, op)
    }

    // Adds an operation of a write, if its key is in the range.
    fn put(&mut self, header: &Header, time: u64, op: &OpAt<'_>)
        requires is { IsContents self.old }
        requires keep { holds header.now (hash_of op.now.key) ≡ true }
        requires room { count_in self.old.lo self.old.hi (op.now ∷ []) ≤ self.old.versions.spare }
        requires next { self.old.next + 1 < 2 ^ 64 }
        ensures changes { Changes (put_events time (op.now ∷ [])) self.old self.new }
        ensures adds { Adds (count_in self.old.lo self.old.hi (op.now ∷ [])) 0 self.old self.new }
    {
        if self.has(header, op) {
            self.versions.add(op, time, 0, self.next);
            self.next += 1;
        }
    }

    // Adds the operations of a write.
    fn put_all(&mut self, header: &Header, time: u64, ops: &Ops)
        requires is { IsContents self.old }
        requires keep { all_held header.now ops.now ≡ true }
        requires room { count_in self.old.lo self.old.hi ops.now ≤ self.old.versions.spare }
        requires next { self.old.next + length ops.now < 2 ^ 64 }
        ensures changes { Changes (put_events time ops.now) self.old self.new }
        ensures adds { Adds (count_in self.old.lo self.old.hi ops.now) 0 self.old self.new }
    {
        for op in ops.iter() {
            self.put(header, time, &op);
        }
    }

    // Holds an operation of an intent, if its key is in the range.
    fn hold(&mut self, header: &Header, txn: u32, sub: u8, op: &OpAt<'_>)
        requires is { IsContents self.old }
        requires keep { holds header.now (hash_of op.now.key) ≡ true }
        requires room { count_in self.old.lo self.old.hi (op.now ∷ []) ≤ self.old.held.spare }
        ensures changes { (time : ℕ) → Changes (hold_events txn sub time (op.now ∷ [])) self.old self.new }
        ensures adds { Adds 0 (count_in self.old.lo self.old.hi (op.now ∷ [])) self.old self.new }
    {
        if self.has(header, op) {
            self.held.hold(txn, sub, op);
        }
    }

    // Holds the operations of an intent.
    fn hold_all(&mut self, header: &Header, txn: u32, sub: u8, ops: &Ops)
        requires is { IsContents self.old }
        requires keep { all_held header.now ops.now ≡ true }
        requires room { count_in self.old.lo self.old.hi ops.now ≤ self.old.held.spare }
        ensures changes { (time : ℕ) → Changes (hold_events txn sub time ops.now) self.old self.new }
        ensures adds { Adds 0 (count_in self.old.lo self.old.hi ops.now) self.old self.new }
    {
        for op in ops.iter() {
            self.hold(header, txn, sub, &op);
        }
    }

    // Takes out the next operation of the transaction that a walk looks for, and adds it, unless its subtransaction was
    // rolled back. Answers whether there was one.
    fn apply_next(&mut self, txn: u32, commit: u64, without: &Subs) -> bool
        requires is { IsContents self.old }
        requires room { length self.old.held.held ≤ self.old.versions.spare }
        requires next { self.old.next + length self.old.held.held < 2 ^ 64 }
        ensures left { (lo hi : ℕ) → self.old.held.sought ≡ Some (record { txn = txn; lo = lo; hi = hi })
            → LeavesAlike txn commit without.now lo hi self.old self.new }
        ensures sought { self.new.held.sought ≡ self.old.held.sought }
        ensures settles { Settles self.old self.new }
        ensures one { result ≡ true → length self.new.held.held < length self.old.held.held }
        ensures done { result ≡ false → find (is_sought self.new.held.sought) self.new.held.held ≡ None }
    {
        self.held.take_next();
        let Some(held) = self.held.taken() else {
            return false;
        };
        if without.contains(held.sub) {
            return true;
        }
        self.versions.add(&held.op, commit, txn, self.next);
        self.next += 1;
        true
    }

    // Adds what waits of the transaction at hashes from `lo` to `hi`, but for what was rolled back.
    fn apply(&mut self, txn: u32, commit: u64, without: &Subs, lo: u16, hi: u16)
        requires is { IsContents self.old }
        requires room { length self.old.held.held ≤ self.old.versions.spare }
        requires next { self.old.next + length self.old.held.held < 2 ^ 64 }
        ensures changes { Changes (λ k x. if in_hashes lo hi k then step (Apply txn commit without.now) x else x)
            self.old self.new }
        ensures settles { Settles self.old self.new }
    {
        if !self.held.begin(txn, lo, hi) {
            return;
        }
        while self.apply_next(txn, commit, without) {}
    }

    // Drops what waits of the transaction at hashes from `lo` to `hi`.
    fn abort(&mut self, txn: u32, lo: u16, hi: u16)
        requires is { IsContents self.old }
        ensures changes { Changes (λ k x. if in_hashes lo hi k then step (Abort txn) x else x) self.old self.new }
        ensures settles { Settles self.old self.new }
        ensures versions { self.new.versions ≡ self.old.versions }
    {
        self.held.forget(txn, lo, hi);
    }

    /// Takes in a record of the source tablet with this header. Where that has no key of the range, nothing changes.
    pub(crate) fn take(&mut self, header: &Header, item: &Record)
        requires is { IsContents self.old }
        requires keep { keys_keep header.now item.now.kind ≡ true }
        requires room { HasRoom (item.now ∷ []) self.old }
        requires next { self.old.next + length self.old.held.held + ops_in item.now.kind < 2 ^ 64 }
        ensures changes { Changes
            (λ k x. if holds header.now (hash_of k) then steps (record_events k item.now) x else x)
            self.old self.new }
        ensures room { (rs : List Record) → HasRoom (item.now ∷ rs) self.old → HasRoom rs self.new }
        ensures next { self.new.next + length self.new.held.held
            ≤ self.old.next + length self.old.held.held + ops_in item.now.kind }
    {
        if is_apart(header, self.lo, self.hi) {
            return;
        }
        match &item.kind {
            Kind::Write { ops } => self.put_all(header, item.time.get(), ops),
            Kind::Intent { txn, sub, ops } => self.hold_all(header, *txn, *sub, ops),
            Kind::Apply {
                txn,
                commit,
                without,
            } => self.apply(*txn, commit.get(), without, header.lo, header.hi),
            Kind::Abort { txn } => self.abort(*txn, header.lo, header.hi),
            Kind::Safe { .. } | Kind::Split { .. } => {}
        }
    }

    /// Makes room for the records of a source tablet with this header, of at most 64 operations each. `NoMemory` where
    /// memory is out; what is kept is as before then.
    pub(crate) fn make_room(&mut self, header: &Header, records: &[Record]) -> Result<(), NoMemory>
        requires keep { all_keep header.now records.now ≡ true }
        requires few { length records.now ≤ MOST_RECORDS }
        requires small { list_all (λ r. nat_le (ops_in r.kind) RECORD_OPERATIONS) records.now ≡ true }
        requires waits { length self.old.held.held ≤ 2 ^ 32 }
        ensures alike { Alike self.old self.new }
        ensures room { OnOk result (HasRoom records.now self.new) }
    {
        let room = Room::of(header, records, self.lo, self.hi);
        let versions = room.versions(self.held.len());
        if self.held.reserve(room.holds).is_err() {
            return Err(NoMemory);
        }
        if self.versions.reserve(versions).is_err() {
            return Err(NoMemory);
        }
        Ok(())
    }
}
