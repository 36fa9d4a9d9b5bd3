//! The logs of the source, held and asked, and the feed that records are polled from.
#![tactic(auto)]

mod copies;
mod feed;
mod log_set;
mod memory_feed;

pub use feed::{Feed, FeedFail};
pub use log_set::LogSet;
pub use memory_feed::MemoryFeed;

#[cfg(test)]
mod tests {
    use super::*;
    use std::alloc::{AllocError, Global};
    use xc_record::{Header, HybridTime, Kind, Logs, Record, Records, Tablet, Tablets, valid};

    fn tablet(alloc: Global, id: u32, lo: u16, hi: u16, parent: Option<u32>) -> Tablet {
        Tablet {
            header: Header { id, lo, hi, parent },
            records: Records::from_vec(Vec::new(alloc)),
        }
    }

    // A root that took an abort and was split into two children without records.
    fn split_tree(alloc: Global) -> Result<Option<LogSet>, AllocError> {
        let (Some(first), Some(second)) = (HybridTime::new(10), HybridTime::new(14)) else {
            return Ok(None);
        };
        let mut records = Vec::new(alloc);
        records.push(Record {
            time: first,
            kind: Kind::Abort { txn: 3 },
        })?;
        records.push(Record {
            time: second,
            kind: Kind::Split {
                at: 32768,
                left: 1,
                right: 2,
            },
        })?;
        let mut root = tablet(alloc, 0, 0, 65535, None);
        root.records = Records::from_vec(records);
        let mut tablets = Vec::new(alloc);
        tablets.push(root)?;
        tablets.push(tablet(alloc, 1, 0, 32767, Some(0)))?;
        tablets.push(tablet(alloc, 2, 32768, 65535, Some(0)))?;
        let logs = Logs {
            tablets: Tablets::from_vec(tablets),
        };
        if !valid(&logs) {
            return Ok(None);
        }
        Ok(Some(LogSet::new(logs)))
    }

    #[test]
    fn a_split_tree_is_asked_by_numbers(rt: HostRuntime) {
        let Ok(Some(logs)) = split_tree(rt.alloc()) else {
            panic!(rt; "the tree is valid");
        };
        assert!(rt; logs.count() == 3);
        assert!(rt; logs.children(0) == Some((1, 2)));
        assert!(rt; logs.children(1).is_none());
        assert!(rt; logs.root_of(40000) == 0);
        assert!(rt; logs.header(2).lo == 32768);
        let Ok(headers) = logs.headers(rt.alloc()) else {
            panic!(rt; "memory is left");
        };
        let last = headers.last().map(|header| header.lo);
        assert!(rt; headers.len() == 3 && last == Some(32768));
        assert!(rt; logs.len(0) == 2);
        for (id, number, want) in [
            (0, 0, None),
            (0, 1, Some(10)),
            (0, 2, Some(14)),
            (0, 3, None),
            (1, 1, None),
            (3, 1, None),
        ] {
            let time = logs.record(id, number).map(|rec| rec.time.get());
            assert!(rt; time == want, "{id} {number}");
        }
    }

    // How many records a fetch of the first tablet gives.
    fn given_count(alloc: Global, logs: &LogSet, from: u64, max: u64) -> Option<usize> {
        if logs.count() == 0 || from == 0 || max == 0 {
            return None;
        }
        let mut feed = MemoryFeed::new(logs);
        feed.fetch(alloc, 0, from, max)
            .ok()
            .map(|given| given.as_slice().len())
    }

    #[test]
    fn a_fetch_ends_where_the_log_ends(rt: HostRuntime) {
        let Ok(Some(logs)) = split_tree(rt.alloc()) else {
            panic!(rt; "the tree is valid");
        };
        for (from, max, want) in [
            (1, 9, 2),
            (1, 1, 1),
            (2, 9, 1),
            (3, 9, 0),
            (u64::MAX, u64::MAX, 0),
        ] {
            assert!(rt;
                given_count(rt.alloc(), &logs, from, max) == Some(want),
                "{from} {max}"
            );
        }
    }
}
