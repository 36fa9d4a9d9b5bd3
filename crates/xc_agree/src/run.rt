// How far each tablet's records are accepted.
ghost use Rattle.std.specs.Prelude.{◌≡◌, None, IfOk, [], fold, length, option_map, if◌then◌else◌};
ghost use Rattle.xc_record.specs.Order.{after, accepted_from};
ghost use Rattle.xc_record.specs.Accepted.{halt_from, accepted_tablets_after};
ghost use Rattle.xc_order.specs.Walks.{halt_at};
ghost use Rattle.xc_agree.specs.Runs.{start_from, IsRuns};

use std::alloc::{AllocError, Global};
use xc_order::{Order, Walk, walk_records};
use xc_record::{Record, Tablet};

/// Where a tablet begins: whether it is reached, and after what.
#[derive(Clone, Copy, PartialEq, Eq, Debug)]
pub(crate) struct Start {
    pub(crate) reached: bool,
    pub(crate) order: Order,
}

/// How far one tablet's records are accepted, and whether the tablet is reached.
#[derive(Clone, Copy, PartialEq, Eq, Debug)]
pub(crate) struct Run {
    pub(crate) reached: bool,
    pub(crate) walk: Walk,
}

// A root begins anew, and a child where its parent ends.
fn start_of(runs: &[Run], parent: Option<u32>) -> Start
    ensures { result ≡ start_from runs.now parent }
{
    let root = Start {
        reached: true,
        order: Order::root(),
    };
    let Some(id) = parent else { return root };
    match runs.get(id as usize) {
        None => Start {
            reached: false,
            order: Order::root(),
        },
        Some(run) => {
            if run.walk.order.has_split() {
                Start {
                    reached: run.reached,
                    order: Order::child(&run.walk.order),
                }
            } else {
                Start {
                    reached: false,
                    order: run.walk.order,
                }
            }
        }
    }
}

fn run_of(start: Start, records: &[Record]) -> Run
    ensures reached { result.reached ≡ start.reached }
    ensures accepted { result.walk.accepted
        ≡ length (if start.reached then accepted_from start.order records.now else []) }
    ensures order { result.walk.order
        ≡ fold after start.order (if start.reached then accepted_from start.order records.now else []) }
    ensures halt { option_map halt_at result.walk.halt
        ≡ (if start.reached then halt_from start.order 1 records.now else None) }
{
    let walk = if start.reached {
        walk_records(start.order, records)
    } else {
        Walk {
            order: start.order,
            accepted: 0,
            halt: None,
        }
    };
    Run {
        reached: start.reached,
        walk,
    }
}

/// How far the records of each tablet are accepted.
pub(crate) fn run_tablets(alloc: Global, tablets: &[Tablet]) -> Result<Vec<Run>, AllocError>
    ensures { IfOk result (λ runs. IsRuns runs.items (accepted_tablets_after [] tablets.now) tablets.now) }
{
    let mut runs = Vec::with_capacity(alloc, tablets.len())?;
    for t in tablets {
        let start = start_of(runs.as_slice(), t.header.parent);
        runs.push(run_of(start, t.records.as_slice()))?;
    }
    Ok(runs)
}
