// The source universe.
ghost use Rattle.std.specs.Prelude.{◌≡◌, ◌≤◌, ◌<◌, ◌+◌, ◌^◌, true, None, IfOk, OnOk, OnErr, length, ◌∷◌, ◌++◌, [], map};
ghost use Rattle.xc_time.specs.Times.{last_time, IsTime};
ghost use Rattle.std.specs.Option.{option_map};
ghost use Rattle.std.specs.Prelude.{ℕ, List};
ghost use Rattle.xc_source.specs.Machine.{are_roots, start as new_machine, logs_of, transaction, record_count};
ghost use Rattle.std.specs.List.{enumerate_from};
ghost use Rattle.xc_source.specs.Waiting.{pending_at, pending_by, holder, tablets_of, open_tablets, pending};
ghost use Rattle.xc_source.specs.Waiting.{pending_of};
ghost use Rattle.xc_source.specs.Universe.{places_in};
ghost use Rattle.xc_source.specs.Calls.{Answers, begin, tick, not_live, no_room, not_open, savepoint, roll_back};
ghost use Rattle.xc_source.specs.Calls.{savepoint_refusal, roll_back_refusal, put, put_refusal, write, write_refusal};
ghost use Rattle.xc_source.specs.Calls.{put_after, write_after, to_transaction};
ghost use Rattle.xc_source.specs.Calls.{commit, commit_refusal, commit_after, commits_and};
ghost use Rattle.xc_source.specs.Calls.{apply, apply_refusal, applied, all_applied, is_committed, safe};
ghost use Rattle.xc_source.specs.Calls.{safe_refusal, safe_on, safe_value, with_safe, all_safe, finish};
ghost use Rattle.xc_source.specs.Calls.{finish_count, abort, abort_after, tablets_with, split, split_refusal};
ghost use Rattle.xc_source.specs.Calls.{bad_place};
ghost use Rattle.xc_record.specs.declared.record.Op.{Op as OpOf};

use crate::commit::{list, unlist};
use crate::commits::Commits;
use crate::fail::SourceFail;
use crate::finish::{Pair, log_apply, log_finish, take_all};
use crate::journal::Journal;
use crate::tablets::is_open;
use crate::transaction::{Stage, Transaction};
use crate::transactions::Transactions;
use std::alloc::{AllocError, Global};
use std::marker::Model;
use xc_base::{Key, LAST_SUB, MOST_RECORDS, MOST_TABLETS, NoMemory};
use xc_record::{Header, HybridTime, Kind, Logs, Op, OpAt, Ops};
use xc_time::LAST_TIME;

// Transactions are numbered from 1 to 2^32 - 1.
const MOST_TXNS: usize = (1 << 32) - 1;

/// A machine that makes the logs of a source. Contracts see it as the machine of the definition.
#[derive(Drop, Debug)]
pub struct SourceUniverse {
    alloc: Global,
    journal: Journal,
    commits: Commits,
    txns: Transactions,
    // where operations are written before they go into memory of their exact size
    room: Ops,
}

impl Model for SourceUniverse {
    ghost use Rattle.xc_source.specs.Machine.{Machine};
    ghost use Rattle.xc_source.specs.Universe.{IsUniverse};

    ghost Value = { Machine };

    ghost view = { λ u. record {
      time = u.journal.time;
      tablets = u.journal.tablets;
      commits = u.commits;
      txns = u.txns;
    } };

    ghost invariant = { λ u. IsUniverse u.journal.time u.txns };
}

// Puts a transaction and a tablet behind the others.
fn push_pair(pairs: &mut Vec<Pair>, txn: u32, id: u32) -> Result<(), AllocError>
    ensures { OnOk result (pairs.new.items ≡ pairs.old.items ++ (txn, id) ∷ []) }
{
    match pairs.push((txn, id)) {
        Ok(()) => Ok(()),
        Err(_) => Err(AllocError),
    }
}

// Puts a number behind the others.
fn push_number(numbers: &mut Vec<u32>, number: u32) -> Result<(), AllocError>
    ensures { OnOk result (numbers.new.items ≡ numbers.old.items ++ number ∷ []) }
{
    match numbers.push(number) {
        Ok(()) => Ok(()),
        Err(_) => Err(AllocError),
    }
}

// The operation alone, in memory of its exact size. It is written into the room first, and stays there.
fn one_op(alloc: Global, room: &mut Ops, op: Op) -> Result<Ops, AllocError>
    ensures ops { IfOk result (λ ops. ops ≡ op ∷ []) }
    ensures room { OnOk result (room.new ≡ op ∷ []) }
{
    room.clear();
    room.push(op)?;
    room.clone_in(alloc)
}

// The first of the operations, where it lies.
fn first(ops: &Ops) -> OpAt<'_>
    requires { 0 < length ops.now }
    ensures { (op : OpOf) (rest : List OpOf) → ops.now ≡ op ∷ rest → result ≡ op }
{
    ops.iter().next().unwrap()
}

impl SourceUniverse {
    /// A source with these tablets, which have no records yet, whose clock stands at `start`. `NoMemory` where memory
    /// is out.
    #[tactic(auto, using(crate::proofs::TabletLaws::roots_few))]
    pub fn new(alloc: Global, roots: &[Header], start: u64) -> Result<SourceUniverse, NoMemory>
        requires roots { are_roots roots.now ≡ true }
        requires start { start ≤ last_time }
        ensures { IfOk result (λ u. u ≡ new_machine roots.now start) }
    {
        Ok(SourceUniverse {
            alloc,
            journal: Journal::new(alloc, roots, start)?,
            commits: Commits::new(alloc),
            txns: Transactions::new(alloc),
            room: Ops::new(alloc),
        })
    }

    /// The logs that were made so far.
    pub fn logs(&self) -> &Logs
        ensures { result.now ≡ logs_of self.now }
    {
        self.journal.logs()
    }

    /// Gives the logs that were made, without taking memory.
    pub fn into_logs(self) -> Logs
        ensures { result ≡ logs_of self }
    {
        self.journal.into_logs()
    }

    /// How many records there are, on all tablets.
    pub fn record_count(&self) -> u64
        ensures { result ≡ record_count self.now }
    {
        self.journal.count() as u64
    }

    /// What committed so far, in the order of time: the puts, and the transactions that wrote at least once.
    pub fn committed(&self) -> &Commits
        ensures { result.now ≡ self.now.commits }
    {
        &self.commits
    }

    /// Moves the clock on to `to`. `Back` exactly where it stands later, which it names.
    pub fn tick(&mut self, to: u64) -> Result<(), SourceFail>
        requires { to ≤ last_time }
        ensures { Answers result self.old self.new (tick to self.old) }
    {
        let now = self.journal.now();
        if to < now {
            return Err(SourceFail::Back(now));
        }
        self.journal.advance(to);
        Ok(())
    }

    /// Begins a transaction, and answers its number: 1, 2 and so on. `Full` exactly where there are 2^32 - 1.
    pub fn begin(&mut self) -> Result<u32, SourceFail>
        ensures { Answers result self.old self.new (begin self.old) }
    {
        if self.txns.len() >= MOST_TXNS {
            return Err(SourceFail::Full);
        }
        self.txns.begin()?;
        Ok(self.txns.len() as u32)
    }

    // How far the transaction of this number came, if it was begun.
    fn stage(&self, txn: u32) -> Option<Stage>
        ensures { result ≡ option_map (λ t. t.stage) (transaction self.now txn) }
    {
        self.txns.stage(txn)
    }

    // Why nothing may be done with the transaction of this number, if it isn't live.
    fn not_live(&self, txn: u32) -> Option<SourceFail>
        ensures { result ≡ not_live self.now txn }
    {
        match self.stage(txn) {
            None => Some(SourceFail::Unknown(txn)),
            Some(Stage::Live) => None,
            Some(_) => Some(SourceFail::Ended(txn)),
        }
    }

    // Why there is no room for so many more records, or no time.
    fn no_room(&self, more: usize) -> Option<SourceFail>
        ensures { result ≡ no_room self.now more }
    {
        if more > MOST_RECORDS - self.journal.count() {
            return Some(SourceFail::Full);
        }
        if more as u64 > LAST_TIME - self.journal.now() {
            return Some(SourceFail::ClockEnd);
        }
        None
    }

    // Why nothing can be done with the tablet of this number, if it isn't open.
    fn not_open(&self, id: u32) -> Option<SourceFail>
        ensures { result ≡ not_open self.now id }
    {
        match self.journal.tablets().get(id as usize) {
            None => Some(SourceFail::NotOpen(id)),
            Some(tablet) => {
                if is_open(tablet) {
                    None
                } else {
                    Some(SourceFail::NotOpen(id))
                }
            }
        }
    }

    // Why no subtransaction of the transaction can begin.
    fn savepoint_refusal(&self, txn: u32) -> Option<SourceFail>
        ensures { result ≡ savepoint_refusal txn self.now }
    {
        if let Some(fail) = self.not_live(txn) {
            return Some(fail);
        }
        if self.txns.at(txn).current() >= LAST_SUB {
            return Some(SourceFail::Full);
        }
        None
    }

    /// Begins the next subtransaction of the transaction, and answers its number, first 1. `Unknown` exactly where it
    /// was never begun, else `Ended` exactly where it is committed or aborted, else `Full` exactly where it has 64.
    pub fn savepoint(&mut self, txn: u32) -> Result<u8, SourceFail>
        ensures { Answers result self.old self.new (savepoint txn self.old) }
    {
        if let Some(fail) = self.savepoint_refusal(txn) {
            return Err(fail);
        }
        Ok(self.txns.begin_next(txn))
    }

    // Why the subtransaction can't be rolled back.
    fn roll_back_refusal(&self, txn: u32, sub: u8) -> Option<SourceFail>
        ensures { result ≡ roll_back_refusal txn sub self.now }
    {
        if let Some(fail) = self.not_live(txn) {
            return Some(fail);
        }
        let t = self.txns.at(txn);
        if !t.is_savepoint(sub) {
            return Some(SourceFail::NoSavepoint(sub));
        }
        if t.current() >= LAST_SUB {
            return Some(SourceFail::Full);
        }
        None
    }

    /// Rolls the subtransaction and all later ones of the transaction back, begins the next one, and answers its
    /// number. `Unknown` and `Ended` as for a savepoint, else `NoSavepoint` exactly where `sub` is 0, was not begun or
    /// is rolled back, else `Full` exactly where the transaction has 64 subtransactions.
    pub fn roll_back(&mut self, txn: u32, sub: u8) -> Result<u8, SourceFail>
        ensures { Answers result self.old self.new (roll_back txn sub self.old) }
    {
        if let Some(fail) = self.roll_back_refusal(txn, sub) {
            return Err(fail);
        }
        Ok(self.txns.roll_back(txn, sub))
    }

    // The live transaction, not this one, that has a waiting write of the key.
    fn holder(&self, txn: u32, key: &Key) -> Option<u32>
        ensures { result ≡ holder self.now txn key.now }
    {
        match self.txns.holder(key) {
            None => None,
            Some(other) => { if other == txn { None } else { Some(other) } }
        }
    }

    // Why the operation can't be put.
    fn put_refusal(&self, op: &Op) -> Option<SourceFail>
        ensures { result ≡ put_refusal op.now self.now }
    {
        if let Some(other) = self.holder(0, &op.key) {
            return Some(SourceFail::Conflict(other));
        }
        self.no_room(1)
    }

    /// Logs a write on the open tablet of the key, and answers its log time, at which it commits. `Conflict` exactly
    /// where a live transaction has a waiting write of the key, else `Full` exactly where there are 2^20 records, else
    /// `ClockEnd` exactly where no time is left.
    pub fn put(&mut self, op: Op) -> Result<u64, SourceFail>
        ensures { Answers result self.old self.new (put op self.old) }
    {
        if let Some(fail) = self.put_refusal(&op) {
            return Err(fail);
        }
        Ok(self.put_now(op)?)
    }

    // Puts the operation where nothing is against it. After an error all is as before.
    fn put_now(&mut self, op: Op) -> Result<u64, AllocError>
        requires { put_refusal op self.old ≡ None }
        ensures ok { IfOk result (λ time. (time ≡ self.old.time + 1) × (self.new ≡ put_after op self.old)) }
        ensures err { OnErr result (self.new ≡ self.old) }
    {
        let id = self.journal.owner(&op.key);
        let ops = one_op(self.alloc, &mut self.room, op)?;
        let time = self.journal.now() + 1;
        self.commits.push(time, 0, &self.room)?;
        match self.journal.log(id, Kind::Write { ops }) {
            Ok(time) => Ok(time),
            Err(fail) => {
                self.commits.pop();
                Err(fail)
            }
        }
    }

    // Why the operation of the transaction can't be written.
    fn write_refusal(&self, txn: u32, op: &Op) -> Option<SourceFail>
        ensures { result ≡ write_refusal txn op.now self.now }
    {
        if let Some(fail) = self.not_live(txn) {
            return Some(fail);
        }
        if let Some(other) = self.holder(txn, &op.key) {
            return Some(SourceFail::Conflict(other));
        }
        self.no_room(1)
    }

    /// Logs an operation of the transaction on the open tablet of the key, where it waits, and answers its log time.
    /// `Unknown` and `Ended` as for a savepoint, else `Conflict` exactly where another live transaction has a waiting
    /// write of the key, else `Full` and `ClockEnd` as for a put.
    pub fn write(&mut self, txn: u32, op: Op) -> Result<u64, SourceFail>
        ensures { Answers result self.old self.new (write txn op self.old) }
    {
        if let Some(fail) = self.write_refusal(txn, &op) {
            return Err(fail);
        }
        Ok(self.write_now(txn, op)?)
    }

    // Writes the operation where nothing is against it. After an error all is as before.
    fn write_now(&mut self, txn: u32, op: Op) -> Result<u64, AllocError>
        requires { write_refusal txn op self.old ≡ None }
        ensures ok { IfOk result (λ time. (time ≡ self.old.time + 1)
            × (self.new ≡ to_transaction (write_after txn op self.old) self.old txn)) }
        ensures err { OnErr result (self.new ≡ self.old) }
    {
        let id = self.journal.owner(&op.key);
        let ops = one_op(self.alloc, &mut self.room, op)?;
        let sub = self.txns.at(txn).current();
        let time = self.journal.log(id, Kind::Intent { txn, sub, ops })?;
        if self.txns.write(txn, &first(&self.room)).is_err() {
            self.journal.unlog(id);
            return Err(AllocError);
        }
        Ok(time)
    }

    // Why the transaction can't be committed.
    fn commit_refusal(&self, txn: u32) -> Option<SourceFail>
        ensures { result ≡ commit_refusal txn self.now }
    {
        if let Some(fail) = self.not_live(txn) {
            return Some(fail);
        }
        if self.journal.now() >= LAST_TIME {
            return Some(SourceFail::ClockEnd);
        }
        None
    }

    /// Commits the transaction at the clock's next time, which it answers, and logs nothing. `Unknown` and `Ended` as
    /// for a savepoint, else `ClockEnd` exactly where no time is left.
    pub fn commit(&mut self, txn: u32) -> Result<u64, SourceFail>
        ensures { Answers result self.old self.new (commit txn self.old) }
    {
        if let Some(fail) = self.commit_refusal(txn) {
            return Err(fail);
        }
        Ok(self.commit_now(txn)?)
    }

    // Commits the transaction where nothing is against it. After an error all is as before.
    fn commit_now(&mut self, txn: u32) -> Result<u64, AllocError>
        requires { commit_refusal txn self.old ≡ None }
        ensures ok { IfOk result (λ time. (time ≡ self.old.time + 1)
            × (self.new ≡ to_transaction (commit_after txn self.old) self.old txn)) }
        ensures err { OnErr result (self.new ≡ self.old) }
    {
        let time = self.journal.now() + 1;
        let commit = HybridTime::new(time).unwrap();
        list(
            &mut self.room,
            &mut self.commits,
            time,
            txn,
            self.txns.at(txn),
        )?;
        if self.txns.commit(txn, commit).is_err() {
            unlist(&mut self.commits, self.txns.at(txn));
            return Err(AllocError);
        }
        let _ = self.journal.step();
        Ok(time)
    }

    // Why the transaction can't be applied on the tablet.
    fn apply_refusal(&self, txn: u32, id: u32) -> Option<SourceFail>
        ensures { result ≡ apply_refusal txn id self.now }
    {
        let Some(stage) = self.stage(txn) else {
            return Some(SourceFail::Unknown(txn));
        };
        if let Some(fail) = self.not_open(id) {
            return Some(fail);
        }
        let Stage::Committed { .. } = stage else {
            return Some(SourceFail::NotCommitted(txn));
        };
        let header = &self.journal.tablets()[id as usize].header;
        if !self.txns.at(txn).waits_on(header) {
            return Some(SourceFail::NotThere(id));
        }
        self.no_room(1)
    }

    /// Applies the committed transaction on the tablet, and answers the log time. `Unknown` as for a savepoint, else
    /// `NotOpen` exactly where there is no such tablet or it was split, else `NotCommitted` exactly where the
    /// transaction isn't, else `NotThere` exactly where nothing of it waits there, else `Full` and `ClockEnd` as for a
    /// put.
    pub fn apply(&mut self, txn: u32, id: u32) -> Result<u64, SourceFail>
        ensures { Answers result self.old self.new (apply txn id self.old) }
    {
        if let Some(fail) = self.apply_refusal(txn, id) {
            return Err(fail);
        }
        Ok(self.apply_now(txn, id)?)
    }

    // Applies the transaction where nothing is against it. After an error all is as before.
    fn apply_now(&mut self, txn: u32, id: u32) -> Result<u64, AllocError>
        requires committed { is_committed self.old txn ≡ true }
        requires tablet { id < length self.old.tablets }
        requires room { record_count self.old < MOST_RECORDS }
        requires time { self.old.time < last_time }
        ensures ok { IfOk result (λ time. (time ≡ self.old.time + 1) × (self.new ≡ applied txn id self.old)) }
        ensures err { OnErr result (self.new ≡ self.old) }
    {
        let header = self.journal.tablets()[id as usize].header;
        let time = log_apply(&mut self.journal, txn, self.txns.at(txn), id)?;
        self.txns.take(txn, &header);
        Ok(time)
    }

    // Why no safe record can be logged on the tablet.
    fn safe_refusal(&self, id: u32) -> Option<SourceFail>
        ensures { result ≡ safe_refusal id self.now }
    {
        if let Some(fail) = self.not_open(id) {
            return Some(fail);
        }
        self.no_room(1)
    }

    // The greatest time at which no committed transaction that waits on the tablet shows, up to the next log time.
    #[tactic(auto, unfolding(crate::specs::Waiting::commits_on))]
    fn safe_value(&mut self, header: &Header) -> u64
        requires { self.old.time < last_time }
        ensures value { result ≡ safe_on self.old header.now }
        ensures time { IsTime result }
        ensures same { self.new ≡ self.old }
    {
        let next = self.journal.now() + 1;
        match self.txns.first_bound(header) {
            None => next,
            Some(bound) => next.min(bound),
        }
    }

    /// Logs a safe record on the tablet, and answers its value: the lesser of its log time and, over the committed
    /// transactions that wait there, the least commit minus 1. `NotOpen` as for an apply, else `Full` and `ClockEnd` as
    /// for a put.
    pub fn safe(&mut self, id: u32) -> Result<u64, SourceFail>
        ensures { Answers result self.old self.new (safe id self.old) }
    {
        if let Some(fail) = self.safe_refusal(id) {
            return Err(fail);
        }
        Ok(self.safe_now(id)?)
    }

    // Logs a safe record where nothing is against it. After an error all is as before.
    fn safe_now(&mut self, id: u32) -> Result<u64, AllocError>
        requires tablet { id < length self.old.tablets }
        requires room { record_count self.old < MOST_RECORDS }
        requires time { self.old.time < last_time }
        ensures ok { IfOk result (λ value. (value ≡ safe_value self.old id) × (self.new ≡ with_safe id self.old)) }
        ensures err { OnErr result (self.new ≡ self.old) }
    {
        let header = self.journal.tablets()[id as usize].header;
        let low = self.safe_value(&header);
        let value = HybridTime::new(low).unwrap();
        let _ = self.journal.log(id as usize, Kind::Safe { value })?;
        Ok(low)
    }

    // Why the hash is no place to split the tablet at.
    fn bad_place(&self, id: u32, at: u16) -> Option<SourceFail>
        ensures { result ≡ bad_place self.now id at }
    {
        let Some(tablet) = self.journal.tablets().get(id as usize) else {
            return None;
        };
        let Header { lo, hi, .. } = tablet.header;
        if at <= lo || hi < at {
            return Some(SourceFail::BadPlace { lo, hi });
        }
        None
    }

    // Why the tablet can't be split at the hash.
    fn split_refusal(&self, id: u32, at: u16) -> Option<SourceFail>
        ensures { result ≡ split_refusal id at self.now }
    {
        if let Some(fail) = self.not_open(id) {
            return Some(fail);
        }
        if let Some(fail) = self.bad_place(id, at) {
            return Some(fail);
        }
        if self.journal.tablets().len() > MOST_TABLETS - 2 {
            return Some(SourceFail::Full);
        }
        self.no_room(1)
    }

    /// Splits the tablet at the hash, and answers the numbers of its children: the left one has the hashes below it.
    /// `NotOpen` as for an apply, else `BadPlace` exactly where the hash is at or below the first of the range or above
    /// the last, else `Full` exactly where there are 63 tablets or 2^20 records, else `ClockEnd` as for a put.
    pub fn split(&mut self, id: u32, at: u16) -> Result<(u32, u32), SourceFail>
        ensures { Answers result self.old self.new (split id at self.old) }
    {
        if let Some(fail) = self.split_refusal(id, at) {
            return Err(fail);
        }
        let left = self.journal.tablets().len() as u32;
        let header = self.journal.tablets()[id as usize].header;
        self.journal.split(id, at, header)?;
        Ok((left, left + 1))
    }

    // The numbers of the open tablets on which something of the transaction waits, rising.
    #[tactic(auto, unfolding(crate::specs::Waiting::tablets_of))]
    fn tablets_of(&self, t: &Transaction) -> Result<Vec<u32>, AllocError>
        ensures { IfOk result (λ ids. ids.items ≡ tablets_of self.now t.now) }
    {
        let mut ids = Vec::new(self.alloc);
        for (id, tablet) in self.journal.tablets().iter().enumerate() {
            if is_open(tablet) && t.waits_on(&tablet.header) {
                push_number(&mut ids, id as u32)?;
            }
        }
        Ok(ids)
    }

    // The numbers of the open tablets, rising.
    pub(crate) fn open_tablets(&self) -> Result<Vec<u32>, AllocError>
        ensures { IfOk result (λ ids. ids.items ≡ open_tablets self.now) }
    {
        let mut ids = Vec::with_capacity(self.alloc, self.journal.tablets().len())?;
        for (id, tablet) in self.journal.tablets().iter().enumerate() {
            if is_open(tablet) {
                push_number(&mut ids, id as u32)?;
            }
        }
        Ok(ids)
    }

    // The transaction with each open tablet on which something of it waits, behind the pairs.
    fn add_tablets(
        &self,
        txn: u32,
        t: &Transaction,
        pairs: &mut Vec<Pair>,
    ) -> Result<(), AllocError>
        ensures { OnOk result (pairs.new.items ≡ pairs.old.items ++ map (λ p. (txn, p.0)) (places_in self.now t.now)) }
    {
        for (id, tablet) in self.journal.tablets().iter().enumerate() {
            if is_open(tablet) && t.waits_on(&tablet.header) {
                push_pair(pairs, txn, id as u32)?;
            }
        }
        Ok(())
    }

    // What the transaction has waiting, if it is committed, behind the pairs.
    fn add_pending(
        &self,
        txn: u32,
        t: &Transaction,
        pairs: &mut Vec<Pair>,
    ) -> Result<(), AllocError>
        ensures { OnOk result (pairs.new.items ≡ pairs.old.items ++ pending_of self.now txn t.now) }
    {
        if t.commit_time().is_none() {
            return Ok(());
        }
        self.add_tablets(txn, t, pairs)?;
        Ok(())
    }

    // What the transaction of this number has waiting, if it is committed, behind the pairs.
    fn add_pending_at(&self, txn: u32, pairs: &mut Vec<Pair>) -> Result<(), AllocError>
        ensures { OnOk result (pairs.new.items ≡ pairs.old.items ++ pending_at self.now txn) }
    {
        if txn == 0 {
            return Ok(());
        }
        if txn as usize > self.txns.len() {
            return Ok(());
        }
        self.add_pending(txn, self.txns.at(txn), pairs)
    }

    // What committed transactions have waiting, found transaction by transaction of those of which something waits.
    fn pending_by(&self) -> Result<Vec<Pair>, AllocError>
        ensures { IfOk result (λ pairs. pairs.items ≡ pending_by self.now (enumerate_from 1 self.now.txns)) }
    {
        let numbers = self.txns.waiting()?;
        let mut pairs = Vec::with_capacity(self.alloc, numbers.len())?;
        for txn in numbers.iter() {
            self.add_pending_at(*txn, &mut pairs)?;
        }
        Ok(pairs)
    }

    // What committed transactions have waiting: the transaction and the tablet, in this order.
    #[tactic(auto, using(crate::proofs::PendingLaws::pending_whole))]
    pub(crate) fn pending(&self) -> Result<Vec<Pair>, AllocError>
        ensures { IfOk result (λ pairs. pairs.items ≡ pending self.now) }
    {
        self.pending_by()
    }

    // Applies what waits on the tablets and logs the safe records where nothing is against it. After an error all is as
    // before.
    fn finish_now(&mut self, pairs: &[Pair], ids: &[u32]) -> Result<(), AllocError>
        requires pairs { pairs.now ≡ pending self.old }
        requires ids { ids.now ≡ open_tablets self.old }
        requires room { record_count self.old + finish_count self.old ≤ MOST_RECORDS }
        requires time { self.old.time + finish_count self.old ≤ last_time }
        ensures ok { OnOk result (self.new ≡ all_safe (open_tablets self.old) (all_applied self.old)) }
        ensures err { OnErr result (self.new ≡ self.old) }
    {
        log_finish(self.alloc, &mut self.journal, &self.txns, pairs, ids)?;
        take_all(&mut self.txns, self.journal.tablets(), pairs);
        Ok(())
    }

    /// Applies all that committed transactions have waiting, by transaction and tablet, and then logs a safe record on
    /// each open tablet by number. `Full` exactly where there would be more than 2^20 records, else `ClockEnd` exactly
    /// where too few times are left.
    pub fn finish(&mut self) -> Result<(), SourceFail>
        ensures { Answers result self.old self.new (finish self.old) }
    {
        let pairs = self.pending()?;
        let ids = self.open_tablets()?;
        if let Some(fail) = self.no_room(pairs.len() + ids.len()) {
            return Err(fail);
        }
        Ok(self.finish_now(&pairs, &ids)?)
    }

    // The tablets on which something of the transaction of this number waits.
    fn tablets_with(&self, txn: u32) -> Result<Vec<u32>, AllocError>
        requires { not_live self.now txn ≡ None }
        ensures { IfOk result (λ ids. ids.items ≡ tablets_with self.now txn) }
    {
        self.tablets_of(self.txns.at(txn))
    }

    // Aborts the transaction, and logs that on each of the tablets, where nothing is against it. After an error all is
    // as before.
    fn abort_now(&mut self, txn: u32, ids: &[u32]) -> Result<(), AllocError>
        requires live { not_live self.old txn ≡ None }
        requires places { ids.now ≡ tablets_with self.old txn }
        requires room { record_count self.old + length ids.now ≤ MOST_RECORDS }
        requires time { self.old.time + length ids.now ≤ last_time }
        ensures ok { OnOk result (self.new ≡ to_transaction (abort_after txn self.old) self.old txn) }
        ensures err { OnErr result (self.new ≡ self.old) }
    {
        self.journal.log_aborts(txn, ids)?;
        self.txns.abort(txn);
        Ok(())
    }

    /// Aborts the transaction, and logs that on each tablet where it waits, by number. `Unknown` and `Ended` as for a
    /// savepoint, else `Full` exactly where there would be more than 2^20 records, else `ClockEnd` exactly where too
    /// few times are left.
    pub fn abort(&mut self, txn: u32) -> Result<(), SourceFail>
        ensures { Answers result self.old self.new (abort txn self.old) }
    {
        if let Some(fail) = self.not_live(txn) {
            return Err(fail);
        }
        let ids = self.tablets_with(txn)?;
        if let Some(fail) = self.no_room(ids.len()) {
            return Err(fail);
        }
        Ok(self.abort_now(txn, &ids)?)
    }
}
