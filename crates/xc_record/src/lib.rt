//! Records of the source's logs, and the definitions over them.
#![tactic(auto)]

mod bytes;
mod headers;
mod key_hash;
mod ops;
pub mod packed;
mod record;
mod session;
mod subs;
mod valid_logs;

pub use headers::{Next, children};
pub use key_hash::{hash, hash_bytes, hash_with};
pub use ops::{OpAt, Ops, OpsIter};
pub use record::{AgreeKind, Break, Header, Kind, Logs, Op, Record, Records, Tablet, Tablets};
pub use session::{Command, Line, Numbers, PollAnswer};
pub use subs::{Subs, SubsIter};
pub use valid_logs::{is_time, valid};
pub use xc_time::HybridTime;

#[cfg(test)]
mod tests {
    use super::*;
    use std::alloc::{AllocError, Global};
    use std::test::Fail;
    use xc_base::Key;

    #[test]
    fn keys_hash_to_known_numbers(rt: HostRuntime) {
        for (name, want) in [
            ("aaa", 30785),
            ("bbb", 31778),
            ("mmm", 42701),
            ("ttt", 49652),
            ("zzz", 55610),
        ] {
            let hashed = Key::new(name.as_bytes()).ok().map(|key| hash(&key));
            assert!(rt; hashed == Some(want), "{name}");
        }
    }

    #[test]
    fn operations_are_copied_one_by_one_and_all_at_once(rt: HostRuntime) -> Result<(), Fail> {
        let mut ops = Ops::new(rt.alloc());
        for name in ["aaa", "bbb"] {
            let key = Key::new(name.as_bytes())?;
            ops.push(Op { key, value: None })?;
        }
        let mut copy = ops.clone_in(rt.alloc())?;
        assert!(rt; copy == ops);
        for op in ops.iter() {
            copy.push_at(&op)?;
        }
        for _ in 0..4 {
            copy.append(&ops)?;
        }
        assert!(rt; copy.len() == 12 && copy.clone_in(rt.alloc())? == copy);
        assert!(rt; copy.op(1) == ops.op(1) && copy.op(2) == ops.op(0) && copy.op(11) == ops.op(1));
        Ok(())
    }

    // One tablet of this range, with one record at time 10.
    fn one_tablet(alloc: Global, header: Header, kind: Kind) -> Result<Option<Logs>, AllocError> {
        let Some(time) = HybridTime::new(10) else {
            return Ok(None);
        };
        let mut records = Vec::new(alloc);
        records.push(Record { time, kind })?;
        let mut tablets = Vec::new(alloc);
        tablets.push(Tablet {
            header,
            records: Records::from_vec(records),
        })?;
        Ok(Some(Logs {
            tablets: Tablets::from_vec(tablets),
        }))
    }

    #[test]
    fn one_tablet_is_valid_where_it_holds_all_and_has_no_child(rt: HostRuntime) {
        let split = Kind::Split {
            at: 32768,
            left: 1,
            right: 2,
        };
        for (lo, hi, kind, want) in [
            (0, 65535, Kind::Abort { txn: 3 }, true),
            (0, 65534, Kind::Abort { txn: 3 }, false),
            (1, 65535, Kind::Abort { txn: 3 }, false),
            (0, 65535, Kind::Abort { txn: 0 }, false),
            (0, 65535, split, false),
        ] {
            let header = Header {
                id: 0,
                lo,
                hi,
                parent: None,
            };
            if let Ok(Some(logs)) = one_tablet(rt.alloc(), header, kind) {
                assert!(rt; valid(&logs) == want, "{lo} {hi}");
            }
        }
    }
}
