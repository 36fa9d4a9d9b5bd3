// How far the records of a tablet are accepted.
ghost use Rattle.std.specs.Prelude.{◌≡◌, fold, length, option_map};
ghost use Rattle.xc_record.specs.Order.{after, accepted_from};
ghost use Rattle.xc_record.specs.Accepted.{halt_from};
ghost use Rattle.xc_order.specs.Walks.{halt_at};

use crate::order::Order;
use xc_record::{Break, Record};

/// How far the records of a tablet are accepted.
#[derive(Clone, Copy, PartialEq, Eq, Debug)]
pub struct Walk {
    /// The order after the accepted records.
    pub order: Order,
    /// The number of accepted records.
    pub accepted: usize,
    /// The next record, where it violates an order rule.
    pub halt: Option<Halt>,
}

/// A record that violates an order rule of its tablet.
#[derive(Clone, Copy, PartialEq, Eq, Debug)]
pub struct Halt {
    /// Its number among the records, from 1.
    pub number: usize,
    /// The first rule that it violates.
    pub kind: Break,
}

/// Takes the records one after another, up to the first that violates an order rule.
pub fn walk_records(start: Order, records: &[Record]) -> Walk
    ensures accepted { result.accepted ≡ length (accepted_from start records.now) }
    ensures order { result.order ≡ fold after start (accepted_from start records.now) }
    ensures halt { option_map halt_at result.halt ≡ halt_from start 1 records.now }
{
    let mut order = start;
    for (i, r) in records.iter().enumerate() {
        if let Err(violated) = order.take(r) {
            return Walk {
                order,
                accepted: i,
                halt: Some(Halt {
                    number: i + 1,
                    kind: violated,
                }),
            };
        }
    }
    Walk {
        order,
        accepted: records.len(),
        halt: None,
    }
}
