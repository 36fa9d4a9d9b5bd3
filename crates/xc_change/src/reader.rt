ghost use Rattle.std.specs.Prelude.{◌≡◌, ◌≤◌, ◌+◌, ◌^◌, IfOk, OnErr, IfSome, IsErrOf, List, ℕ, length, option_map};
ghost use Rattle.xc_record.specs.Accepted.{halt_from};
ghost use Rattle.xc_order.specs.Walks.{halt_at};
ghost use Rattle.xc_change.specs.Taken.{looked, new_ones, unchecked, IsTaken, IsStopped};
ghost use Rattle.xc_record.specs.Accepted.{AcceptedTablet};
ghost use Rattle.xc_logs.specs.Feed.{SameFeed, CountsFault};
ghost use Rattle.xc_change.specs.Reader.{FitsFeed, IsNext, IsNextOf, ReadsLogs, Stays};
ghost use Rattle.xc_base.specs.declared.limits.TheConstants.{MOST_RECORDS};

use crate::batch::{Batch, Next, NextFail};
use std::alloc::Global;
use std::marker::Model;
use xc_logs::{Feed, FeedFail};
use xc_order::{Halt, Order, Walk, walk_records};
use xc_record::{Record, Records};

/// A reader of the changes of one source tablet. It finds once that a record is in order, and hands it out again after
/// a restart without looking at its order anew.
#[derive(Clone, Copy, PartialEq, Eq, Debug)]
pub struct Reader {
    id: u32,
    cursor: u64,
    checked: u64,
    order: Order,
}

impl Model for Reader {
    ghost use Rattle.std.specs.Prelude.{◌≤◌};
    ghost use Rattle.xc_change.specs.Reader.{ReaderState};

    ghost Value = { ReaderState };

    ghost view = { λ r. record { id = r.id; cursor = r.cursor; checked = r.checked; order = r.order } };

    ghost invariant = { λ r. r.cursor ≤ r.checked };

    ghost inverse = { λ r. record { id = r.id; cursor = r.cursor; checked = r.checked; order = r.order } };
}

impl Reader {
    /// A reader of the tablet of this number, before its first record: `order` is where the tablet begins.
    pub fn new(id: u32, order: Order) -> Reader
        ensures { result ≡ record { id = id; cursor = 0; checked = 0; order = order } }
    {
        Reader {
            id,
            cursor: 0,
            checked: 0,
            order,
        }
    }

    /// The number of its tablet.
    #[inline]
    pub fn id(&self) -> u32
        ensures { result ≡ self.now.id }
    {
        self.id
    }

    /// How many records the next batch begins after.
    #[inline]
    pub fn cursor(&self) -> u64
        ensures { result ≡ self.now.cursor }
    {
        self.cursor
    }

    /// How many records were found in order.
    #[inline]
    pub fn checked(&self) -> u64
        ensures { result ≡ self.now.checked }
    {
        self.checked
    }

    /// The order after these.
    #[inline]
    pub fn order(&self) -> &Order
        ensures { result.now ≡ self.now.order }
    {
        &self.order
    }

    /// Goes to another record: the next batch begins after this many, which were found in order.
    pub fn move_to(&mut self, place: u64)
        requires { place ≤ self.old.checked }
        ensures { self.new ≡ record self.old { cursor = place } }
    {
        self.cursor = place;
    }

    /// What comes after the cursor: at most `max` of the next records, as far as they are in order; the end of the log;
    /// or the first record that isn't in order. The cursor stays.
    ///
    /// After an error all is as before. `ReadFault` comes only where the feed's count of faults rose.
    pub fn next<F: Feed>(&mut self, alloc: Global, feed: &mut F, max: u64) -> Result<Next, NextFail>
        requires fits { FitsFeed (F.headers feed.old) (F.counts feed.old) self.old }
        requires some { 1 ≤ max }

        // Whatever the feed tells.
        ensures fits { FitsFeed (F.headers feed.new) (F.counts feed.new) self.new }
        ensures stays { Stays self.old self.new }
        ensures next { IfOk result (IsNext (F.headers feed.old) (F.counts feed.old) max self.old self.new) }

        // Where it tells logs whose first records the reader found in order.
        ensures logs { IfSome (F.logs feed.old) (λ logs. (b : AcceptedTablet) → ReadsLogs logs self.old b
            → ReadsLogs logs self.new b) }
        ensures next_of { IfSome (F.logs feed.old) (λ logs. (b : AcceptedTablet) → ReadsLogs logs self.old b
            → IfOk result (IsNextOf logs b max self.old)) }

        // A failure changes nothing, and has its cause in the feed.
        ensures failed { OnErr result (self.new ≡ self.old) }
        ensures fault { CountsFault (IsErrOf result NextFail.ReadFault) (F.faults feed.old) (F.faults feed.new) }

        // What each call of a feed keeps.
        ensures feed { SameFeed F.headers F.counts F.logs F.faults feed.old feed.new }
    {
        let from = self.cursor + 1;
        let records = feed.fetch(alloc, self.id, from, max)?;
        Ok(self.take(from, records))
    }

    // Hands out the records that follow the cursor, as far as they are in order.
    fn take(&mut self, from: u64, records: Records) -> Next
        requires from { from ≡ self.old.cursor + 1 }
        requires small { self.old.checked ≤ MOST_RECORDS }
        requires few { length records ≤ MOST_RECORDS }
        ensures looked { self.new ≡ looked self.old records }
        ensures taken { IsTaken self.old records result }
    {
        let known = self.checked - self.cursor;
        let walk = self.check(records.as_slice());
        let good = known as usize + walk.accepted;
        if good == 0 {
            return stopped(from, walk.halt);
        }
        let mut items = records.into_vec();
        items.truncate(good);
        Next::Batch(Batch {
            from,
            records: Records::from_vec(items),
        })
    }

    // Looks at the order of those of the records after the cursor that weren't found in order yet.
    fn check(&mut self, records: &[Record]) -> Walk
        requires small { self.old.checked ≤ MOST_RECORDS }
        requires few { length records.now ≤ MOST_RECORDS }
        ensures looked { self.new ≡ looked self.old records.now }
        ensures accepted { result.accepted ≡ length (new_ones self.old records.now) }
        ensures halt { option_map halt_at result.halt ≡ halt_from self.old.order 1 (unchecked self.old records.now) }
    {
        let known = (self.checked - self.cursor) as usize;
        let walk = walk_records(self.order, &records[known.min(records.len())..]);
        self.checked += walk.accepted as u64;
        self.order = walk.order;
        walk
    }
}

// What comes where no record is handed out.
fn stopped(from: u64, halt: Option<Halt>) -> Next
    ensures { IsStopped from (option_map halt_at halt) result }
{
    match halt {
        Some(halt) => Next::Halted {
            number: from,
            kind: halt.kind,
        },
        None => Next::AtEnd,
    }
}
