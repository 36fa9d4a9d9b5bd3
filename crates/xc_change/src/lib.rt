//! A reader of the changes of one source tablet: the records of a feed, as far as they are in order.
#![tactic(auto)]

mod batch;
mod reader;

pub use batch::{Batch, Next, NextFail};
pub use reader::Reader;

#[cfg(test)]
mod tests {
    use super::*;
    use std::alloc::{AllocError, Global};
    use xc_logs::{LogSet, MemoryFeed};
    use xc_order::{Break, Order};
    use xc_record::{Header, HybridTime, Kind, Logs, Record, Records, Tablet, Tablets, valid};

    // The log of a root with aborts at these times.
    fn aborts(alloc: Global, times: &[u64]) -> Result<Logs, AllocError> {
        let mut records = Vec::new(alloc);
        for time in times {
            if let Some(time) = HybridTime::new(*time) {
                let kind = Kind::Abort { txn: 3 };
                records.push(Record { time, kind })?;
            }
        }
        let header = Header {
            id: 0,
            lo: 0,
            hi: 65535,
            parent: None,
        };
        let mut tablets = Vec::new(alloc);
        tablets.push(Tablet {
            header,
            records: Records::from_vec(records),
        })?;
        Ok(Logs {
            tablets: Tablets::from_vec(tablets),
        })
    }

    // What comes next: how many records from which number, or the number of the break, or the end.
    fn come(next: Result<Next, NextFail>) -> Option<(u64, usize, Option<Break>)> {
        match next {
            Ok(Next::Batch(batch)) => Some((batch.from, batch.records.as_slice().len(), None)),
            Ok(Next::Halted { number, kind }) => Some((number, 0, Some(kind))),
            Ok(Next::AtEnd) => Some((0, 0, None)),
            Err(_) => None,
        }
    }

    #[test]
    fn a_reader_hands_out_what_is_in_order_and_again_after_a_restart(rt: HostRuntime) {
        let alloc = rt.alloc();
        for (times, last, answers) in [
            (
                [10, 11, 11],
                11,
                [(1, 2, None), (3, 0, Some(Break::TimeBack))],
            ),
            ([10, 11, 12], 12, [(1, 3, None), (0, 0, None)]),
        ] {
            let made = aborts(alloc, &times);
            assert!(rt; made.is_ok());
            let Ok(logs) = made else { continue };
            assert!(rt; valid(&logs));
            if !valid(&logs) {
                continue;
            }
            let set = LogSet::new(logs);
            assert!(rt; set.count() == 1);
            if set.count() != 1 {
                continue;
            }
            let mut feed = MemoryFeed::new(&set);
            let mut reader = Reader::new(0, Order::root());
            assert!(rt; come(reader.next(alloc, &mut feed, 1)) == Some((1, 1, None)));
            assert!(rt; reader.id() == 0 && reader.cursor() == 0 && reader.checked() == 1);
            assert!(rt; come(reader.next(alloc, &mut feed, 9)) == Some(answers[0]));
            let place = reader.checked();
            reader.move_to(place);
            assert!(rt; come(reader.next(alloc, &mut feed, 9)) == Some(answers[1]));
            reader.move_to(0);
            assert!(rt; come(reader.next(alloc, &mut feed, 9)) == Some(answers[0]));
            assert!(rt; reader.order().last() == last);
        }
    }
}
