// A poller.
ghost use Rattle.std.specs.Prelude.{◌≡◌, ◌≤◌, ◌<◌, ◌+◌, ℕ, true, false, Some, None, List, length, take, drop};
ghost use Rattle.std.specs.Prelude.{Option, IfOk, IfSome, OnErr, IsErrOf};
ghost use Rattle.xc_record.specs.declared.record.Header.{Header as HeaderOf};
ghost use Rattle.xc_record.specs.declared.record.Logs.{Logs};
ghost use Rattle.xc_record.specs.Accepted.{AcceptedTablet, accepted_tablet};
ghost use Rattle.xc_record.specs.SafeTime.{is_closed_at};
ghost use Rattle.xc_record.specs.Session.{IsInOrder};
ghost use Rattle.xc_record.specs.Valid.{is_valid};
ghost use Rattle.xc_logs.specs.Feed.{IsFeed, SameFeed, CountsFault};
ghost use Rattle.xc_change.specs.Reader.{FitsFeed};
ghost use Rattle.xc_poller.specs.Poller.{position_of, is_closed, new_poller, opened, done, confirmed, restarted};
ghost use Rattle.xc_poller.specs.Poller.{StandsFor, HasNotBegun, KeepsFeeds, Rises};
ghost use Rattle.xc_poller.specs.Polled.{CanPollAll, Looked, IsStep, IsStepOf, PollCall, IsPolled, IsStopped};
ghost use Rattle.xc_poller.specs.Delivery.{CanGive, IsGiven, IsCutOff};

use crate::delivery::deliver_first;
use crate::raising::raised;
use crate::step::{Step, step_of};
use std::alloc::Global;
use std::marker::Model;
use xc_change::{Batch, NextFail, Reader};
use xc_logs::Feed;
use xc_order::Order;
use xc_record::{Header, PollAnswer};
use xc_tablet::TargetTablet;

/// A poller of one source tablet. It is open from the start where its tablet is a root; one of a child is opened once
/// the parent is closed: all its accepted records were applied, and the last one is a split.
#[derive(Clone, Copy, PartialEq, Eq, Debug)]
pub struct Poller {
    header: Header,
    reader: Reader,
    acknowledged: u64,
    applied: u64,
    floor: u64,
    is_open: bool,
}

impl Model for Poller {
    ghost use Rattle.xc_poller.specs.Poller.{PollerState, IsPoller};

    ghost Value = { PollerState };

    ghost view = { λ p. record {
      header = p.header;
      reader = p.reader;
      acknowledged = p.acknowledged;
      applied = p.applied;
      floor = p.floor;
      is_open = p.is_open;
    } };

    ghost invariant = { λ p. IsPoller (record {
      header = p.header;
      reader = p.reader;
      acknowledged = p.acknowledged;
      applied = p.applied;
      floor = p.floor;
      is_open = p.is_open;
    }) };

    ghost inverse = { λ p. record {
      header = p.header;
      reader = p.reader;
      acknowledged = p.acknowledged;
      applied = p.applied;
      floor = p.floor;
      is_open = p.is_open;
    } };
}

impl Poller {
    /// A poller of the tablet with this header, before its first record.
    pub fn new(header: Header) -> Poller
        ensures new { result ≡ new_poller header }
        // It fits every feed that has its tablet.
        ensures fits { (headers : List HeaderOf) (counts : List ℕ) (logs : Option Logs) → IsFeed headers counts logs
            → header.id < length headers → FitsFeed headers counts result.reader }
        // One of a root stands for all logs with its header.
        ensures stands { (logs : Logs) (b : AcceptedTablet) → header.parent ≡ None
            → accepted_tablet logs header.id ≡ Some b → b.header ≡ header → StandsFor logs result b }
    {
        Poller {
            header,
            reader: Reader::new(header.id, Order::root()),
            acknowledged: 0,
            applied: 0,
            floor: 0,
            is_open: header.parent.is_none(),
        }
    }

    /// The number of its tablet.
    #[inline]
    pub fn id(&self) -> u32
        ensures { result ≡ self.now.header.id }
    {
        self.header.id
    }

    /// How many records the next poll begins after.
    #[inline]
    pub fn cursor(&self) -> u64
        ensures { result ≡ self.now.reader.cursor }
    {
        self.reader.cursor()
    }

    /// The cursor that polls begin at again after a restart.
    #[inline]
    pub fn acknowledged(&self) -> u64
        ensures { result ≡ self.now.acknowledged }
    {
        self.acknowledged
    }

    /// How many records were delivered to every target tablet.
    #[inline]
    pub fn applied(&self) -> u64
        ensures applied { result ≡ self.now.applied }
        ensures order { IsInOrder (position_of self.now) }
    {
        self.applied
    }

    /// The last safe value there: of the last safe record among these, else the parent's final floor, else 0.
    #[inline]
    pub fn floor(&self) -> u64
        ensures { result ≡ self.now.floor }
    {
        self.floor
    }

    /// Whether it is of a root, or was opened.
    #[inline]
    pub fn is_open(&self) -> bool
        ensures is_open { result ≡ self.now.is_open }
        ensures waits { self.now.is_open ≡ false → HasNotBegun self.now }
    {
        self.is_open
    }

    /// Whether all accepted records were applied, and the last one is a split.
    pub fn closed(&self) -> bool
        ensures closed { result ≡ is_closed self.now }
        ensures ends { (logs : Logs) (b : AcceptedTablet) → StandsFor logs self.now b
            → result ≡ is_closed_at b self.now.applied }
    {
        self.reader.order().has_split() && self.applied == self.reader.checked()
    }

    /// Opens the poller of a child: its parent is closed. One that is open stays as it is.
    pub fn open(&mut self, parent: &Poller)
        requires parent { self.old.header.parent ≡ Some parent.now.header.id }
        requires closed { is_closed parent.now ≡ true }
        ensures opened { self.new ≡ opened parent.now self.old }
        ensures fits { (headers : List HeaderOf) (counts : List ℕ) (logs : Option Logs) → IsFeed headers counts logs
            → FitsFeed headers counts self.old.reader → FitsFeed headers counts self.new.reader }
        // Where the parent stands for logs, the poller does from now on.
        ensures stands { (logs : Logs) (above b : AcceptedTablet) → self.old.is_open ≡ false → is_valid logs ≡ true
            → StandsFor logs parent.now above → accepted_tablet logs self.old.header.id ≡ Some b
            → b.header ≡ self.old.header → StandsFor logs self.new b }
    {
        if self.is_open {
            return;
        }
        *self = Poller {
            header: self.header,
            reader: Reader::new(self.header.id, Order::child(parent.reader.order())),
            acknowledged: 0,
            applied: 0,
            floor: parent.floor,
            is_open: true,
        };
    }

    /// What comes after the cursor: at most `n` of the next records, which the caller delivers to every target tablet
    /// before it calls `done`. Only the reader looks further.
    ///
    /// After an error all is as before. `ReadFault` comes only where the feed's count of faults rose.
    pub fn next_batch<F: Feed>(
        &mut self,
        alloc: Global,
        feed: &mut F,
        n: u64,
    ) -> Result<Step, NextFail>
        requires fits { FitsFeed (F.headers feed.old) (F.counts feed.old) self.old.reader }
        requires some { 1 ≤ n }

        // Whatever the feed tells.
        ensures fits { FitsFeed (F.headers feed.new) (F.counts feed.new) self.new.reader }
        ensures looked { Looked self.old self.new }
        ensures step { IfOk result (IsStep (F.headers feed.old) (F.counts feed.old) n self.old self.new) }

        // Where it tells logs that the poller stands for.
        ensures stands { IfSome (F.logs feed.old) (λ logs. (b : AcceptedTablet) → StandsFor logs self.old b
            → StandsFor logs self.new b) }
        ensures step_of { IfSome (F.logs feed.old) (λ logs. (b : AcceptedTablet) → StandsFor logs self.old b
            → IfOk result (IsStepOf logs b n self.old)) }

        // A failure changes nothing, and has its cause in the feed.
        ensures failed { OnErr result (self.new ≡ self.old) }
        ensures fault { CountsFault (IsErrOf result NextFail.ReadFault) (F.faults feed.old) (F.faults feed.new) }

        // What each call of a feed keeps.
        ensures feed { SameFeed F.headers F.counts F.logs F.faults feed.old feed.new }
    {
        if !self.is_open {
            if let Some(parent) = self.header.parent {
                return Ok(Step::Waits { parent });
            }
        }
        let next = self.reader.next(alloc, feed, n)?;
        Ok(step_of(next))
    }

    /// Goes past a batch, which was delivered to every target tablet. It follows the cursor, and the reader found its
    /// records in order.
    pub fn done(&mut self, batch: &Batch)
        requires next { batch.now.from ≡ self.old.reader.cursor + 1 }
        requires checked { self.old.reader.cursor + length batch.now.records ≤ self.old.reader.checked }
        ensures done { self.new ≡ done batch.now.records self.old }
        ensures rises { Rises self.old self.new }
        ensures fits { KeepsFeeds self.old.reader self.new.reader }
        // Where the batch has accepted records of logs that the poller stands for, it stands for them as before.
        ensures stands { (logs : Logs) (b : AcceptedTablet) → StandsFor logs self.old b
            → batch.now.records ≡ take (length batch.now.records) (drop self.old.reader.cursor b.records)
            → StandsFor logs self.new b }
    {
        let records = batch.records.as_slice();
        let from = self.reader.cursor();
        let to = from + records.len() as u64;
        let known = (self.applied - from) as usize;
        self.floor = raised(self.floor, &records[known.min(records.len())..]);
        self.applied = self.applied.max(to);
        self.reader.move_to(to);
    }

    /// Polls begin at the cursor after a restart from now on. It is answered.
    pub fn acknowledge(&mut self) -> u64
        ensures answer { result ≡ self.old.reader.cursor }
        ensures confirmed { self.new ≡ confirmed self.old }
        ensures fits { KeepsFeeds self.old.reader self.new.reader }
        ensures stands { (logs : Logs) (b : AcceptedTablet) → StandsFor logs self.old b → StandsFor logs self.new b }
    {
        let cursor = self.reader.cursor();
        self.acknowledged = cursor;
        cursor
    }

    /// Goes back to the acknowledged place, which is answered. What was applied stays so.
    pub fn restart(&mut self) -> u64
        ensures answer { result ≡ self.old.acknowledged }
        ensures restarted { self.new ≡ restarted self.old }
        ensures fits { KeepsFeeds self.old.reader self.new.reader }
        ensures stands { (logs : Logs) (b : AcceptedTablet) → StandsFor logs self.old b → StandsFor logs self.new b }
    {
        let place = self.acknowledged;
        self.reader.move_to(place);
        place
    }

    /// Delivers what comes after the cursor to every target tablet: at most `n` of the next records. It answers how
    /// many, or why there are none: the parent isn't closed, the log ends, or the next record violates an order rule.
    ///
    /// After `ReadFault`, which comes only where the feed's count of faults rose, all is as before. Where memory is out
    /// the poller is as before, but its reader may have looked further, and some of the tablets may be ahead of it.
    pub fn poll<F: Feed>(
        &mut self,
        alloc: Global,
        feed: &mut F,
        n: u64,
        tablets: &mut [TargetTablet],
    ) -> Result<PollAnswer, NextFail>
        requires can { CanPollAll (F.headers feed.old) (F.counts feed.old) self.old tablets.old }
        requires some { 1 ≤ n }
        // What stands whether or not it is cut off.
        ensures call { PollCall F.headers F.counts F.logs F.faults n feed.old feed.new self.old self.new tablets.old
            tablets.new result }
        ensures polled { IsPolled (F.headers feed.old) (F.counts feed.old) n self.old self.new tablets.old tablets.new
            result }
        ensures rises { Rises self.old self.new }
    {
        // The check knows the poller's invariant in a function that reads a field.
        let _ = &self.header;
        let step = self.next_batch(alloc, feed, n)?;
        self.give(step, tablets)
    }

    /// A poll that is cut off: it delivers to the target tablets 0 to `last` alone. What was applied stays, and the
    /// poller goes back to its acknowledged place. Where there is nothing to deliver, nothing moves. It answers and
    /// fails as `poll` does.
    pub fn stopped_poll<F: Feed>(
        &mut self,
        alloc: Global,
        feed: &mut F,
        n: u64,
        tablets: &mut [TargetTablet],
        last: usize,
    ) -> Result<PollAnswer, NextFail>
        requires can { CanPollAll (F.headers feed.old) (F.counts feed.old) self.old tablets.old }
        requires some { 1 ≤ n }
        requires last { last < length tablets.old }
        // What stands whether or not it is cut off.
        ensures call { PollCall F.headers F.counts F.logs F.faults n feed.old feed.new self.old self.new tablets.old
            tablets.new result }
        ensures stopped { IsStopped (F.headers feed.old) (F.counts feed.old) n last self.old self.new tablets.old
            tablets.new result }
        ensures others { drop (last + 1) tablets.new ≡ drop (last + 1) tablets.old }
    {
        // The check knows the poller's invariant in a function that reads a field.
        let _ = &self.header;
        let step = self.next_batch(alloc, feed, n)?;
        self.cut_off(step, tablets, last)
    }

    // Delivers what the step gives to each tablet.
    fn give(&mut self, step: Step, tablets: &mut [TargetTablet]) -> Result<PollAnswer, NextFail>
        requires can { CanGive self.old tablets.old step }
        ensures given { IsGiven self.old self.new tablets.old tablets.new step result }
    {
        match step {
            Step::Batch(batch) => {
                let count = tablets.len();
                let records = batch.records.as_slice();
                deliver_first(tablets, count, self.header.id, batch.from, records)?;
                self.done(&batch);
                Ok(PollAnswer::Polled(batch.records.as_slice().len() as u64))
            }
            Step::Waits { parent } => Ok(PollAnswer::Waits { parent }),
            Step::AtEnd => Ok(PollAnswer::AtEnd),
            Step::Halted { number, kind } => Ok(PollAnswer::Halted { number, kind }),
        }
    }

    // Delivers what the step gives to the tablets 0 to `last`, and goes back to the acknowledged place.
    fn cut_off(
        &mut self,
        step: Step,
        tablets: &mut [TargetTablet],
        last: usize,
    ) -> Result<PollAnswer, NextFail>
        requires can { CanGive self.old tablets.old step }
        requires last { last < length tablets.old }
        ensures cut_off { IsCutOff last self.old self.new tablets.old tablets.new step result }
        ensures others { drop (last + 1) tablets.new ≡ drop (last + 1) tablets.old }
    {
        match step {
            Step::Batch(batch) => {
                let records = batch.records.as_slice();
                deliver_first(tablets, last + 1, self.header.id, batch.from, records)?;
                self.restart();
                Ok(PollAnswer::Polled(records.len() as u64))
            }
            Step::Waits { parent } => Ok(PollAnswer::Waits { parent }),
            Step::AtEnd => Ok(PollAnswer::AtEnd),
            Step::Halted { number, kind } => Ok(PollAnswer::Halted { number, kind }),
        }
    }
}
