// The target of a replication session.
ghost use Rattle.std.specs.Prelude.{◌≡◌, ◌<◌, ◌≤◌, ◌+◌, ℕ, true, drop, Option, None, Some, length, List};
ghost use Rattle.std.specs.Prelude.{IfOk, IfErr, IfSome};
ghost use Rattle.xc_record.specs.Bounds.{are_bounds};
ghost use Rattle.xc_record.specs.Headers.{are_headers};
ghost use Rattle.xc_record.specs.Valid.{is_valid, headers_of};
ghost use Rattle.xc_logs.specs.Feed.{IsFeed};
ghost use Rattle.xc_record.specs.declared.record.Logs.{Logs};
ghost use Rattle.xc_record.specs.Agreement.{disagreement};
ghost use Rattle.xc_record.specs.Rows.{row, rows};
ghost use Rattle.xc_record.specs.Session.{Session, IsSession, position, safe_now, start};
ghost use Rattle.xc_record.specs.Step.{drained};
ghost use Rattle.xc_target.specs.Target.{new_target, of_parts, IsTarget, FitsFeed};
ghost use Rattle.xc_target.specs.Stands.{StandsForSession};
ghost use Rattle.xc_target.specs.Answers.{Made, IsAcknowledged, IsRestarted, IsNotReadable, IsPruned, IsClosed};
ghost use Rattle.xc_target.specs.Answers.{Keeps, KeepsAlone, Fails, IsPolled, IsStopped, GaveFirst, MovesOn, halts};
ghost use Rattle.xc_target.specs.Answers.{IsDrainFail};

use crate::answers::{Closed, Halt, PruneFail, SessionLine, TargetFail};
use crate::draining::drain_tablet;
use crate::looks::{least_open, shown};
use crate::opening::{new_pollers, new_tablets, open_children};
use crate::scanning::rows_of_all;
use std::alloc::Global;
use std::marker::Model;
use xc_base::{Key, NoMemory, Value};
use xc_logs::Feed;
use xc_poller::{Parts, PollAnswer, Poller, Pollers, Targets};
use xc_record::Header;
use xc_retain::{NotReadable, Retention};
use xc_tablet::TargetTablet;
use xc_versions::Rows;

/// The target of a replication session: its tablets, and one poller for each source tablet. A source tablet is named by
/// its number; each call that takes one has the condition that there is one of this number.
#[derive(Drop, Debug)]
pub struct Target {
    tablets: Vec<TargetTablet>,
    pollers: Vec<Poller>,
    retention: Retention,
    closed: Option<u64>,
}

impl Model for Target {
    ghost use Rattle.xc_target.specs.Target.{TargetState, IsTarget};

    ghost Value = { TargetState };

    ghost view = { λ t. record {
      tablets = t.tablets.items;
      pollers = t.pollers.items;
      cutoff = t.retention;
      closed = t.closed;
    } };

    ghost invariant = { λ t. IsTarget (record {
      tablets = t.tablets.items;
      pollers = t.pollers.items;
      cutoff = t.retention;
      closed = t.closed;
    }) };
}

impl Target {
    /// A target for the source tablets with these headers, whose own tablets begin at these hashes. `NoMemory` where
    /// memory is out. It keeps the allocator for its growth.
    pub fn new(alloc: Global, headers: &[Header], bounds: &[u16]) -> Result<Target, NoMemory>
        requires headers { are_headers headers.now ≡ true }
        requires bounds { are_bounds bounds.now ≡ true }
        ensures new { IfOk result (λ t. t ≡ new_target headers.now bounds.now) }
        // It stands for the session that nothing was asked of yet, of all logs with these headers.
        ensures stands { IfOk result (λ t. (logs : Logs) → is_valid logs ≡ true
            → headers_of logs.tablets ≡ headers.now → StandsForSession logs (start logs) t) }
        ensures fits { IfOk result (λ t. (counts : List ℕ) (logs : Option Logs)
            → IsFeed headers.now counts logs → FitsFeed headers.now counts t) }
    {
        let tablets = new_tablets(alloc, headers, bounds)?;
        let pollers = new_pollers(alloc, headers)?;
        Ok(Target {
            tablets,
            pollers,
            retention: Retention::new(),
            closed: None,
        })
    }

    /// A target of the parts of a session, whose tablets share out all hashes. It takes no memory. It stands for the
    /// sessions, and fits the feeds, that a target with these tablets, pollers and times does.
    pub fn from_parts(parts: Parts) -> Target
        requires { IsTarget (of_parts parts) }
        ensures { result ≡ of_parts parts }
    {
        Target {
            tablets: parts.tablets.into_vec(),
            pollers: parts.pollers.into_vec(),
            retention: Retention::at(parts.cutoff),
            closed: parts.closed,
        }
    }

    /// What the session is made of, as `from_parts` takes it. It takes no memory.
    pub fn into_parts(self) -> Parts
        ensures parts { of_parts result ≡ self }
        ensures target { IsTarget (of_parts result) }
    {
        Parts {
            tablets: Targets::from_vec(self.tablets),
            pollers: Pollers::from_vec(self.pollers),
            cutoff: self.retention.cutoff(),
            closed: self.closed,
        }
    }

    /// Polls the source tablet: at most `n` of the records after its cursor go to every target tablet. It answers how
    /// many, or why there are none. When a poll closes a source tablet, its children are opened.
    ///
    /// `Closed` exactly where the session is; `ReadFault` only where the feed's count of faults rose. After an error
    /// the session is as before; where memory is out, some target tablets may be ahead.
    pub fn poll<F: Feed>(
        &mut self,
        alloc: Global,
        feed: &mut F,
        id: u32,
        n: u64,
    ) -> Result<PollAnswer, TargetFail>
        requires known { id < length self.old.pollers }
        requires some { 1 ≤ n }
        requires fits { FitsFeed (F.headers feed.old) (F.counts feed.old) self.old }
        ensures keeps { Keeps F.headers F.counts F.logs F.faults feed.old feed.new self.old self.new }
        ensures fails { Fails (F.faults feed.old) (F.faults feed.new) self.old self.new result }
        ensures step { IfSome (F.logs feed.old) (λ logs. (m : Session) → IsSession logs m
            → StandsForSession logs m self.old → IsPolled logs m id n self.new result) }

        // Whatever the feed tells, a poll that delivers moves on.
        ensures moves { IfOk result (MovesOn (F.counts feed.old) id self.old self.new) }
    {
        if let Some(t) = self.closed {
            return Err(TargetFail::Closed(t));
        }
        let poller = &mut self.pollers[id as usize];
        let polled = poller.poll(alloc, feed, n, &mut self.tablets);
        let after = *poller;
        let answer = polled?;
        let PollAnswer::Polled(count) = answer else {
            return Ok(answer);
        };
        if after.closed() {
            open_children(&mut self.pollers, self.tablets[0].headers(), &after);
        }
        Ok(PollAnswer::Polled(count))
    }

    /// A poll of the source tablet that is cut off: at most `n` of the records after its cursor go to the target
    /// tablets 0 to `last` alone. Its place stays, and its cursor goes back to the acknowledged place. It answers how
    /// many records it would have delivered, or why there are none. It fails as `poll` does.
    pub fn stopped_poll<F: Feed>(
        &mut self,
        alloc: Global,
        feed: &mut F,
        id: u32,
        n: u64,
        last: usize,
    ) -> Result<PollAnswer, TargetFail>
        requires known { id < length self.old.pollers }
        requires some { 1 ≤ n }
        requires last { last < length self.old.tablets }
        requires fits { FitsFeed (F.headers feed.old) (F.counts feed.old) self.old }
        ensures keeps { Keeps F.headers F.counts F.logs F.faults feed.old feed.new self.old self.new }
        ensures fails { Fails (F.faults feed.old) (F.faults feed.new) self.old self.new result }
        ensures step { IfSome (F.logs feed.old) (λ logs. (m : Session) → IsSession logs m
            → StandsForSession logs m self.old → IsStopped logs m id n self.new result) }

        // Whatever the feed tells, each of the tablets up to `last` gets the records, and no tablet past it.
        ensures given { IfOk result (GaveFirst id last self.old self.new) }
        ensures others { drop (last + 1) self.new.tablets ≡ drop (last + 1) self.old.tablets }
    {
        if let Some(t) = self.closed {
            return Err(TargetFail::Closed(t));
        }
        let poller = &mut self.pollers[id as usize];
        let stopped = poller.stopped_poll(alloc, feed, n, &mut self.tablets, last);
        stopped.map_err(TargetFail::from)
    }

    /// Polls each source tablet, 64 records at a time, until it is at its end, at a break of the order rules, or waits
    /// for a parent that doesn't close. It answers the breaks, by number of tablet.
    ///
    /// `Closed` exactly where the session is; `ReadFault` only where the feed's count of faults rose. After a read
    /// fault, or where memory is out, the polls made so far stand.
    pub fn drain<F: Feed>(&mut self, alloc: Global, feed: &mut F) -> Result<Vec<Halt>, TargetFail>
        requires fits { FitsFeed (F.headers feed.old) (F.counts feed.old) self.old }
        ensures keeps { Keeps F.headers F.counts F.logs F.faults feed.old feed.new self.old self.new }
        ensures fails { Fails (F.faults feed.old) (F.faults feed.new) self.old self.new result }
        ensures drained { IfSome (F.logs feed.old) (λ logs. (m : Session) → IsSession logs m
            → StandsForSession logs m self.old
            → IfOk result (λ found. (found.items ≡ halts logs) × Made logs m (drained logs m) self.new)) }
        ensures failed { IfSome (F.logs feed.old) (λ logs. (m : Session) → IsSession logs m
            → StandsForSession logs m self.old → IfErr result (IsDrainFail logs m self.new)) }
    {
        if let Some(t) = self.closed {
            return Err(TargetFail::Closed(t));
        }
        let mut halts = Vec::new(alloc);
        for id in 0..self.pollers.len() as u32 {
            if let Some(halt) = drain_tablet(self, alloc, feed, id)? {
                if halts.push(halt).is_err() {
                    return Err(TargetFail::NoMemory);
                }
            }
        }
        Ok(halts)
    }

    /// How many target tablets there are.
    #[inline]
    pub fn tablets(&self) -> usize
        ensures { result ≡ length self.now.tablets }
    {
        self.tablets.len()
    }

    /// How many source tablets there are.
    #[inline]
    pub fn sources(&self) -> usize
        ensures { result ≡ length self.now.pollers }
    {
        self.pollers.len()
    }

    /// All rows at the safe time, in byte order of keys. `NoMemory` where memory is out.
    pub fn scan(&self, alloc: Global) -> Result<Rows, NoMemory>
        ensures { (logs : Logs) (m : Session) → IsSession logs m → StandsForSession logs m self.now
            → disagreement logs ≡ None → IfOk result (λ found. found ≡ rows logs (safe_now logs m)) }
    {
        rows_of_all(alloc, &self.tablets, least_open(&self.pollers))
    }

    /// How many records of the source tablet were delivered, and where polls begin.
    pub fn session(&self, id: u32) -> SessionLine
        requires { id < length self.now.pollers }
        ensures { (logs : Logs) (m : Session) → StandsForSession logs m self.now
            → record { place = result.place; cursor = result.cursor; acknowledged = result.acknowledged }
            ≡ position m id }
    {
        let poller = &self.pollers[id as usize];
        SessionLine {
            place: poller.applied(),
            cursor: poller.cursor(),
            acknowledged: poller.acknowledged(),
        }
    }

    /// Before this hybrid time no history is kept.
    #[inline]
    pub fn cutoff(&self) -> u64
        ensures cutoff { result ≡ self.now.cutoff }
        ensures session { (logs : Logs) (m : Session) → StandsForSession logs m self.now → result ≡ m.cutoff }
    {
        self.retention.cutoff()
    }

    /// The hybrid time that the session was closed at, if it was.
    #[inline]
    pub fn closed(&self) -> Option<u64>
        ensures closed { result ≡ self.now.closed }
        ensures session { (logs : Logs) (m : Session) → StandsForSession logs m self.now → result ≡ m.closed }
    {
        self.closed
    }

    /// Polls of the source tablet begin at its cursor after a restart from now on. The cursor is answered.
    pub fn acknowledge(&mut self, id: u32) -> Result<u64, Closed>
        requires { id < length self.old.pollers }
        ensures step { (logs : Logs) (m : Session) → IsSession logs m → StandsForSession logs m self.old
            → IsAcknowledged logs m id self.new result }
        ensures keeps { KeepsAlone self.old self.new }
    {
        if let Some(t) = self.closed {
            return Err(Closed { t });
        }
        let poller = &mut self.pollers[id as usize];
        Ok(poller.acknowledge())
    }

    /// Polls of the source tablet begin at its acknowledged place, which is answered. What was delivered stays so.
    pub fn restart(&mut self, id: u32) -> Result<u64, Closed>
        requires { id < length self.old.pollers }
        ensures step { (logs : Logs) (m : Session) → IsSession logs m → StandsForSession logs m self.old
            → IsRestarted logs m id self.new result }
        ensures keeps { KeepsAlone self.old self.new }
    {
        if let Some(t) = self.closed {
            return Err(Closed { t });
        }
        let poller = &mut self.pollers[id as usize];
        Ok(poller.restart())
    }

    /// The safe time: up to it all that the source committed was delivered to every tablet.
    pub fn safe(&self) -> u64
        ensures { (logs : Logs) (m : Session) → IsSession logs m → StandsForSession logs m self.now
            → result ≡ safe_now logs m }
    {
        least_open(&self.pollers)
    }

    /// The value of the key at the safe time: None where it has none.
    pub fn read(&self, key: &Key) -> Option<Value>
        ensures { (logs : Logs) (m : Session) → IsSession logs m → StandsForSession logs m self.now
            → disagreement logs ≡ None
            → result ≡ row logs (safe_now logs m) key.now }
    {
        shown(&self.tablets, key, least_open(&self.pollers))
    }

    /// The value of the key at the hybrid time `u`: Ahead exactly where it is later than the safe time, else Pruned
    /// exactly where it is before the cutoff.
    pub fn read_at(&self, u: u64, key: &Key) -> Result<Option<Value>, NotReadable>
        ensures shows { (logs : Logs) (m : Session) → IsSession logs m → StandsForSession logs m self.now
            → disagreement logs ≡ None
            → IfOk result (λ value. (m.cutoff ≤ u)
            × ((u ≤ safe_now logs m) × (value ≡ row logs u key.now))) }
        ensures refuses { (logs : Logs) (m : Session) → IsSession logs m → StandsForSession logs m self.now
            → IfErr result (IsNotReadable logs m u) }
    {
        self.retention.readable(u, least_open(&self.pollers))?;
        Ok(shown(&self.tablets, key, u))
    }

    /// Lets go the history before the hybrid time `u`, and answers the cutoff: the greater of it and the old one.
    /// Closed exactly where the session is, else Ahead exactly where `u` is later than the safe time. An error changes
    /// nothing.
    pub fn prune(&mut self, u: u64) -> Result<u64, PruneFail>
        ensures step { (logs : Logs) (m : Session) → IsSession logs m → StandsForSession logs m self.old
            → IsPruned logs m u self.new result }
        ensures keeps { KeepsAlone self.old self.new }
    {
        if let Some(t) = self.closed {
            return Err(PruneFail::Closed(t));
        }
        let safe = least_open(&self.pollers);
        match self.retention.prune(u, safe, &mut self.tablets) {
            Ok(cutoff) => Ok(cutoff),
            Err(ahead) => Err(PruneFail::Ahead { safe: ahead.safe }),
        }
    }

    /// Restores each tablet to the safe time, which is answered, and closes the session at it. Reads go on at this
    /// time.
    pub fn failover(&mut self) -> Result<u64, Closed>
        ensures step { (logs : Logs) (m : Session) → IsSession logs m → StandsForSession logs m self.old
            → IsClosed logs m self.new result }
        ensures keeps { KeepsAlone self.old self.new }
    {
        if let Some(t) = self.closed {
            return Err(Closed { t });
        }
        let t = least_open(&self.pollers);
        Retention::restore(t, &mut self.tablets);
        self.closed = Some(t);
        Ok(t)
    }
}
