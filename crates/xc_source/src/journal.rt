// The logs of a source and its clock, from which each record takes its time.
ghost use Rattle.std.specs.Prelude.{◌≡◌, ◌≤◌, ◌<◌, ◌+◌, ◌^◌, length, map, IfOk, OnOk, OnErr};
ghost use Rattle.xc_time.specs.Times.{last_time};
ghost use Rattle.xc_source.specs.Machine.{empty_tablet, records_in};
ghost use Rattle.xc_source.specs.Calls.{tablet_in};
ghost use Rattle.xc_record.specs.declared.record.Kind.TheVariants.{Abort, Safe};
ghost use Rattle.xc_source.specs.Universe.{logged_in, split_in, stepped, unlogged, unlogged_all, aborts_in};
ghost use Rattle.xc_source.specs.Finish.{safes_in};

use crate::tablets::{empty_tablets, owner, pop_record, push_record, split_tablets};
use std::alloc::{AllocError, Global};
use std::marker::Model;
use xc_base::{Key, MOST_RECORDS, MOST_TABLETS, NoMemory};
use xc_record::{Header, HybridTime, Kind, Logs, Record, Tablet, hash};
use xc_time::Clock;

// The logs, and the clock. Contracts see them as where the clock stands, and the tablets.
#[derive(Drop, Debug)]
pub(crate) struct Journal {
    alloc: Global,
    clock: Clock,
    logs: Logs,
    // how many records there are
    count: usize,
}

impl Model for Journal {
    ghost use Rattle.xc_source.specs.Universe.{Logged, IsJournal};

    ghost Value = { Logged };

    ghost view = { λ j. record { time = j.clock; tablets = j.logs.tablets } };

    ghost invariant = { λ j. IsJournal j.logs.tablets j.count };
}

impl Journal {
    // No records on tablets with these headers, and a clock that stands at `start`.
    pub(crate) fn new(alloc: Global, roots: &[Header], start: u64) -> Result<Journal, NoMemory>
        requires few { length roots.now ≤ MOST_TABLETS }
        requires start { start ≤ last_time }
        ensures { IfOk result (λ j. (j.time ≡ start) × (j.tablets ≡ map empty_tablet roots.now)) }
    {
        let tablets = empty_tablets(alloc, roots)?;
        Ok(Journal {
            alloc,
            clock: Clock::at(start),
            logs: Logs { tablets },
            count: 0,
        })
    }

    // Where the clock stands.
    pub(crate) fn now(&self) -> u64
        ensures now { result ≡ self.now.time }
        ensures within { self.now.time ≤ last_time }
    {
        self.clock.now()
    }

    // The logs so far.
    pub(crate) fn logs(&self) -> &Logs
        ensures { result.now.tablets ≡ self.now.tablets }
    {
        &self.logs
    }

    // Gives the logs, without taking memory.
    pub(crate) fn into_logs(self) -> Logs
        ensures { result.tablets ≡ self.tablets }
    {
        self.logs
    }

    // The tablets so far.
    pub(crate) fn tablets(&self) -> &[Tablet]
        ensures tablets { result.now ≡ self.now.tablets }
        ensures few { length self.now.tablets ≤ MOST_TABLETS }
    {
        self.logs.tablets.as_slice()
    }

    // The number of the open tablet that holds the key.
    pub(crate) fn owner(&self, key: &Key) -> usize
        ensures { result ≡ tablet_in key.now self.now.tablets }
    {
        owner(self.tablets(), hash(key))
    }

    // How many records there are.
    pub(crate) fn count(&self) -> usize
        ensures count { result ≡ records_in self.now.tablets }
        ensures most { result ≤ MOST_RECORDS }
    {
        self.count
    }

    // Moves the clock on to a time that isn't below where it stands.
    pub(crate) fn advance(&mut self, to: u64)
        requires within { to ≤ last_time }
        requires later { self.old.time ≤ to }
        ensures { self.new ≡ record self.old { time = to } }
    {
        let _ = self.clock.advance(to);
    }

    // Takes the clock's next time, and logs nothing.
    pub(crate) fn step(&mut self) -> HybridTime
        requires { self.old.time < last_time }
        ensures time { result ≡ self.old.time + 1 }
        ensures step { self.new ≡ stepped self.old }
    {
        self.clock.next().unwrap()
    }

    // Logs a record on the tablet at the clock's next time. After an error all is as before.
    pub(crate) fn log(&mut self, id: usize, kind: Kind) -> Result<u64, AllocError>
        requires room { records_in self.old.tablets < MOST_RECORDS }
        requires time { self.old.time < last_time }
        ensures ok { IfOk result (λ time. (time ≡ self.old.time + 1) × (self.new ≡ logged_in id kind self.old)) }
        ensures err { OnErr result (self.new ≡ self.old) }
    {
        let time = HybridTime::new(self.clock.now() + 1).unwrap();
        if id < self.logs.tablets.as_slice().len() {
            push_record(
                self.alloc,
                &mut self.logs.tablets,
                id,
                Record { time, kind },
            )?;
            self.count += 1;
        }
        Ok(self.step().get())
    }

    // Takes back what was logged last, which was a record of this tablet.
    pub(crate) fn unlog(&mut self, id: usize)
        requires { 1 ≤ self.old.time }
        ensures { self.new ≡ unlogged id self.old }
    {
        if id < self.logs.tablets.as_slice().len()
            && pop_record(self.alloc, &mut self.logs.tablets, id)
        {
            self.count -= 1;
        }
        self.clock = Clock::at(self.clock.now() - 1);
    }

    // Takes back what was logged last, a record on each of these tablets in turn.
    pub(crate) fn unlog_all(&mut self, ids: &[u32])
        requires { length ids.now ≤ self.old.time }
        ensures { self.new ≡ unlogged_all ids.now self.old }
    {
        let mut left = ids.len();
        while left > 0 {
            left -= 1;
            self.unlog(ids[left] as usize);
        }
    }

    // Logs an abort of the transaction on each of the tablets in turn. After an error all is as before.
    pub(crate) fn log_aborts(&mut self, txn: u32, ids: &[u32]) -> Result<(), AllocError>
        requires room { records_in self.old.tablets + length ids.now ≤ MOST_RECORDS }
        requires time { self.old.time + length ids.now ≤ last_time }
        ensures ok { OnOk result (self.new ≡ aborts_in txn ids.now self.old) }
        ensures err { OnErr result (self.new ≡ self.old) }
    {
        for (i, id) in ids.iter().enumerate() {
            if self.log_abort(txn, *id).is_err() {
                self.unlog_all(&ids[..i]);
                return Err(AllocError);
            }
        }
        Ok(())
    }

    // Logs an abort of the transaction on the tablet. After an error all is as before.
    fn log_abort(&mut self, txn: u32, id: u32) -> Result<u64, AllocError>
        requires room { records_in self.old.tablets < MOST_RECORDS }
        requires time { self.old.time < last_time }
        ensures ok { OnOk result (self.new ≡ logged_in id (Abort txn) self.old) }
        ensures count { OnOk result (records_in self.new.tablets ≤ records_in self.old.tablets + 1) }
        ensures err { OnErr result (self.new ≡ self.old) }
    {
        let time = self.log(id as usize, Kind::Abort { txn })?;
        Ok(time)
    }

    // Logs a safe record at its own time on each of the tablets in turn. After an error all is as before.
    pub(crate) fn log_safes(&mut self, ids: &[u32]) -> Result<(), AllocError>
        requires room { records_in self.old.tablets + length ids.now ≤ MOST_RECORDS }
        requires time { self.old.time + length ids.now ≤ last_time }
        ensures ok { OnOk result (self.new ≡ safes_in ids.now self.old) }
        ensures err { OnErr result (self.new ≡ self.old) }
    {
        for (i, id) in ids.iter().enumerate() {
            if self.log_safe(*id).is_err() {
                self.unlog_all(&ids[..i]);
                return Err(AllocError);
            }
        }
        Ok(())
    }

    // Logs a safe record at its own time on the tablet. After an error all is as before.
    fn log_safe(&mut self, id: u32) -> Result<u64, AllocError>
        requires room { records_in self.old.tablets < MOST_RECORDS }
        requires time { self.old.time < last_time }
        ensures ok { OnOk result (self.new ≡ logged_in id (Safe (self.old.time + 1)) self.old) }
        ensures count { OnOk result (records_in self.new.tablets ≤ records_in self.old.tablets + 1) }
        ensures err { OnErr result (self.new ≡ self.old) }
    {
        let value = HybridTime::new(self.clock.now() + 1).unwrap();
        let time = self.log(id as usize, Kind::Safe { value })?;
        Ok(time)
    }

    // Splits the tablet with this header at the hash, which lies in its range above the first. After an error all is as
    // before.
    pub(crate) fn split(&mut self, id: u32, at: u16, header: Header) -> Result<(), AllocError>
        requires tablet { id < length self.old.tablets }
        requires few { length self.old.tablets + 2 ≤ MOST_TABLETS }
        requires place { 0 < at }
        requires room { records_in self.old.tablets < MOST_RECORDS }
        requires time { self.old.time < last_time }
        ensures ok { OnOk result (self.new ≡ split_in id at header self.old) }
        ensures err { OnErr result (self.new ≡ self.old) }
    {
        let time = HybridTime::new(self.clock.now() + 1).unwrap();
        let left = self.tablets().len() as u32;
        let right = left + 1;
        let parent = Some(id);
        split_tablets(
            self.alloc,
            &mut self.logs.tablets,
            id as usize,
            Record {
                time,
                kind: Kind::Split { at, left, right },
            },
            Header {
                id: left,
                lo: header.lo,
                hi: at - 1,
                parent,
            },
            Header {
                id: right,
                lo: at,
                hi: header.hi,
                parent,
            },
        )?;
        self.count += 1;
        let _ = self.clock.next();
        Ok(())
    }
}
