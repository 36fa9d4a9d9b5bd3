//! A poller of one source tablet, which delivers its records to the target tablets, and the parts of a session.
#![tactic(auto)]

mod delivery;
mod parts;
mod poller;
mod raising;
mod step;

pub use parts::{Parts, Pollers, Targets};
pub use poller::Poller;
pub use step::Step;
pub use xc_change::{Batch, NextFail};
pub use xc_record::PollAnswer;

#[cfg(test)]
mod tests {
    use super::*;
    use std::alloc::{AllocError, Global};
    use xc_logs::{LogSet, MemoryFeed};
    use xc_record::{Header, HybridTime, Kind, Logs, Record, Records, Tablet, Tablets, valid};

    const ROOT: Header = Header {
        id: 0,
        lo: 0,
        hi: 65535,
        parent: None,
    };

    // The log of a root with safe records of these values, each at the time of its value.
    fn safe_records(alloc: Global, values: &[u64]) -> Result<Logs, AllocError> {
        let mut records = Vec::new(alloc);
        for value in values {
            if let Some(time) = HybridTime::new(*value) {
                let kind = Kind::Safe { value: time };
                records.push(Record { time, kind })?;
            }
        }
        let mut tablets = Vec::new(alloc);
        tablets.push(Tablet {
            header: ROOT,
            records: Records::from_vec(records),
        })?;
        Ok(Logs {
            tablets: Tablets::from_vec(tablets),
        })
    }

    // What comes next: how many records, or the number of the break, or the end.
    fn come(step: &Result<Step, NextFail>) -> Option<(usize, u64)> {
        match step {
            Ok(Step::Batch(batch)) => Some((batch.records.as_slice().len(), 0)),
            Ok(Step::Halted { number, .. }) => Some((0, *number)),
            Ok(Step::AtEnd) => Some((0, 0)),
            Ok(Step::Waits { .. }) | Err(_) => None,
        }
    }

    #[test]
    fn a_poller_goes_past_batches_and_back_to_what_was_acknowledged(rt: HostRuntime) {
        let alloc = rt.alloc();
        let made = safe_records(alloc, &[10, 11, 11]);
        assert!(rt; made.is_ok());
        let Ok(logs) = made else { return };
        assert!(rt; valid(&logs));
        if !valid(&logs) {
            return;
        }
        let set = LogSet::new(logs);
        assert!(rt; set.count() == 1);
        if set.count() != 1 {
            return;
        }
        let mut feed = MemoryFeed::new(&set);
        let mut poller = Poller::new(ROOT);
        assert!(rt; poller.id() == 0 && poller.is_open() && !poller.closed());
        let first = poller.next_batch(alloc, &mut feed, 9);
        assert!(rt; come(&first) == Some((2, 0)));
        if let Ok(Step::Batch(batch)) = &first {
            poller.done(batch);
        }
        assert!(rt; poller.cursor() == 2 && poller.applied() == 2 && poller.floor() == 11);
        let second = poller.next_batch(alloc, &mut feed, 9);
        assert!(rt; come(&second) == Some((0, 3)));
        assert!(rt; poller.restart() == 0 && poller.cursor() == 0);
        assert!(rt; poller.applied() == 2 && poller.floor() == 11);
        assert!(rt; poller.acknowledge() == 0 && poller.acknowledged() == 0);
    }
}
