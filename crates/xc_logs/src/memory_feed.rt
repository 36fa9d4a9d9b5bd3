ghost use Rattle.std.specs.Prelude.{◌≡◌, Some};
ghost use Rattle.xc_logs.specs.Feed.{counts_of, IsFeed};
ghost use Rattle.xc_record.specs.Valid.{headers_of};

use crate::copies::{copies, part};
use crate::feed::{Feed, FeedFail};
use crate::log_set::LogSet;
use std::alloc::Global;
use xc_record::Records;

/// A feed of logs in memory, which tells them and never fails.
#[derive(Drop)]
pub struct MemoryFeed<'a> {
    logs: &'a LogSet,
    ghost shape: { IsFeed (headers_of logs.now.tablets) (counts_of logs.now) (Some logs.now) },
}

impl<'a> MemoryFeed<'a> {
    /// A feed of these logs.
    pub fn new(logs: &'a LogSet) -> MemoryFeed<'a>
        ensures { ⟦<MemoryFeed<'a> as Feed>⟧.logs result ≡ Some logs.now }
    {
        let _tablets = logs.tablets();
        MemoryFeed { logs }
    }
}

impl<'a> Feed for MemoryFeed<'a> {
    ghost headers = { λ f. headers_of f.logs.now.tablets };

    ghost counts = { λ f. counts_of f.logs.now };

    ghost logs = { λ f. Some f.logs.now };

    ghost faults = { λ _. 0 };

    fn fetch(&mut self, alloc: Global, id: u32, from: u64, max: u64) -> Result<Records, FeedFail> {
        let _tablets = self.logs.tablets();
        let given = copies(alloc, part(self.logs.records(id), from, max))?;
        Ok(given)
    }

    ghost shape = { λ f. f.shape };
}
