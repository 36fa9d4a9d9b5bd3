// What comes next of a poller.
ghost use Rattle.std.specs.Prelude.{◌≡◌};
ghost use Rattle.xc_poller.specs.Polled.{step_of};

use xc_change::{Batch, Next};
use xc_record::Break;

/// What comes after a poller's cursor.
#[derive(Drop, Debug)]
pub enum Step {
    /// The next accepted records, which were not delivered yet.
    Batch(Batch),
    /// The tablet is a child, and its parent, of this number, isn't closed.
    Waits { parent: u32 },
    /// The log ends at the cursor.
    AtEnd,
    /// The record after the cursor, of this number, violates an order rule.
    Halted { number: u64, kind: Break },
}

// What comes next of an open poller is what comes next of its reader.
pub(crate) fn step_of(next: Next) -> Step
    ensures { result ≡ step_of next }
{
    match next {
        Next::Batch(batch) => Step::Batch(batch),
        Next::AtEnd => Step::AtEnd,
        Next::Halted { number, kind } => Step::Halted { number, kind },
    }
}
