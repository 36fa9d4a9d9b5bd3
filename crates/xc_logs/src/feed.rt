ghost use Rattle.std.specs.Prelude.{◌≡◌, ◌≤◌, ◌<◌, List, ℕ, length, slice_index, Option, IfSome, IfOk, IsErrOf};
ghost use Rattle.xc_logs.specs.Feed.{fetched, fetched_count, KeepHeader, IsFeed, SameFeed, CountsFault};
ghost use Rattle.xc_record.specs.Accepted.{records};
ghost use Rattle.xc_record.specs.declared.record.Header.{Header};
ghost use Rattle.xc_record.specs.declared.record.Logs.{Logs};

use std::alloc::{AllocError, Global};
use xc_record::Records;

/// Why a fetch gave nothing.
#[derive(Clone, Copy, PartialEq, Eq, Debug)]
pub enum FeedFail {
    /// The feed failed, and counted it.
    Failed,
    /// Memory for the records was refused, which is no fault of the feed.
    NoMemory,
}

impl From<AllocError> for FeedFail {
    ghost use Rattle.xc_logs.specs.declared.feed.FeedFail.TheVariants as fail;

    ghost from_gives = { λ _ e. e ≡ fail.NoMemory };

    fn from(_error: AllocError) -> FeedFail {
        FeedFail::NoMemory
    }
}

/// What the records of the source's tablets are polled from.
pub trait Feed {
    /// The headers of its tablets.
    ghost headers: { Self → List Header };

    /// How many records each tablet has.
    ghost counts: { Self → List ℕ };

    /// The logs, where it tells them.
    ghost logs: { Self → Option Logs };

    /// How often it has failed. A count of 64 bits ends at its greatest number.
    ghost faults: { Self → ℕ };

    /// Gives the records of a tablet from the number `from` on, at most `max` of them: none exactly past the end. They
    /// are those of the logs, where these are told. `Failed` comes only where the count of faults rose, and with any
    /// other answer the count is as before.
    fn fetch(&mut self, alloc: Global, id: u32, from: u64, max: u64) -> Result<Records, FeedFail>
        requires tablet { id < length (headers self.old) }
        requires from_first { 1 ≤ from }
        requires some { 1 ≤ max }
        ensures count { IfOk result (λ given. length given
            ≡ fetched_count (slice_index (counts self.old) id) from max) }
        ensures keep { IfOk result (λ given. KeepHeader (headers self.old) (counts self.old) id from given) }
        ensures told { IfOk result (λ given. IfSome (logs self.old) (λ logs. given
            ≡ fetched (records logs id) from max)) }
        ensures feed { SameFeed headers counts logs faults self.old self.new }
        ensures fault { CountsFault (IsErrOf result FeedFail.Failed) (faults self.old) (faults self.new) };

    /// There are at most 64 headers, which fit, a tablet has at most 2^20 records, one with children has some, and the
    /// logs agree with both.
    ghost shape: { (feed : Self) → IsFeed (headers feed) (counts feed) (logs feed) };
}
