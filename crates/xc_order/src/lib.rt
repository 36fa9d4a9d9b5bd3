//! The order rules of one tablet: which of its records are accepted.
#![tactic(auto)]

mod order;
mod walk;

pub use order::Order;
pub use walk::{Halt, Walk, walk_records};
pub use xc_record::Break;

#[cfg(test)]
mod tests {
    use super::*;
    use xc_record::{HybridTime, Kind, Record, Subs};

    fn apply(commit: u64) -> Option<Kind> {
        Some(Kind::Apply {
            txn: 7,
            commit: HybridTime::new(commit)?,
            without: Subs::new(),
        })
    }

    fn safe(value: u64) -> Option<Kind> {
        Some(Kind::Safe {
            value: HybridTime::new(value)?,
        })
    }

    // The break of a record, and the order after it.
    fn taken(mut order: Order, time: u64, kind: Option<Kind>) -> Option<(Option<Break>, Order)> {
        let rec = Record {
            time: HybridTime::new(time)?,
            kind: kind?,
        };
        let broken = order.take(&rec).err();
        Some((broken, order))
    }

    // A tablet that took a safe record of value 12 at time 13.
    fn at_floor_12() -> Option<Order> {
        Some(taken(Order::root(), 13, safe(12))?.1)
    }

    #[test]
    fn each_rule_is_judged_at_its_edge(rt: HostRuntime) {
        let Some(order) = at_floor_12() else {
            panic!(rt; "times");
        };
        assert!(rt; (order.floor(), order.last(), order.has_split()) == (12, 13, false));
        for (time, kind, want) in [
            (13, Some(Kind::Abort { txn: 7 }), Some(Break::TimeBack)),
            (14, Some(Kind::Abort { txn: 7 }), None),
            (13, apply(99), Some(Break::TimeBack)),
            (14, apply(15), Some(Break::CommitAhead)),
            (14, apply(14), None),
            (14, apply(13), None),
            (14, apply(12), Some(Break::CommitBelow)),
            (14, safe(11), Some(Break::SafeBack)),
            (14, safe(12), None),
            (14, safe(14), None),
            (14, safe(15), Some(Break::SafeAhead)),
        ] {
            let Some((broken, after)) = taken(order, time, kind) else {
                panic!(rt; "times");
            };
            assert!(rt; broken == want, "{time}");
            assert!(rt; broken.is_none() || after == order, "{time}");
        }
    }

    #[test]
    fn after_a_split_only_a_child_goes_on(rt: HostRuntime) {
        let split = Kind::Split {
            at: 32768,
            left: 1,
            right: 2,
        };
        let Some((None, order)) = taken(Order::root(), 14, Some(split)) else {
            panic!(rt; "a split is taken");
        };
        for (time, kind, want) in [
            (15, Some(Kind::Abort { txn: 7 }), Break::AfterSplit),
            (15, apply(16), Break::CommitAhead),
            (14, apply(16), Break::TimeBack),
        ] {
            let Some((broken, _)) = taken(order, time, kind) else {
                panic!(rt; "times");
            };
            assert!(rt; broken == Some(want), "{time}");
        }
        assert!(rt; order.has_split());
        let child = Order::child(&order);
        assert!(rt; (child.floor(), child.last(), child.has_split()) == (0, 14, false));
    }
}
