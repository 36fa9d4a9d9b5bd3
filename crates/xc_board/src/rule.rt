// The rule of a board, what a seat at it knows, and what each kind of step tells the seat.
ghost use Rattle.std.specs.Prelude.{◌≡◌};

use crate::tablet::{BoardTablet, BoardTablets};
use atomic_table::{Join, Play, Split, TableRule};
use std::collections::LinkedList;

/// What a seat knows. It exists in the proofs alone.
pub(crate) struct SeatView {
    /// Whether it is a seat's. The view that a join leaves isn't.
    pub(crate) live: bool,
    /// The tablets of the board.
    pub(crate) tablets: LinkedList<BoardTablet>,
    /// The last word of each tablet that the seat was told.
    pub(crate) known: LinkedList<u64>,
    /// The next word of the scan that is under way, or 0.
    pub(crate) next: usize,
    /// The least active value that this scan has loaded.
    pub(crate) bound: u64,
    /// The greatest watermark that the seat was told.
    pub(crate) seen: u64,
}

/// The rule of a board, which holds between any two steps.
pub(crate) struct Law;

impl TableRule<(), SeatView, BoardTablets> for Law {
    ghost use Rattle.xc_board.specs.Rule.{Holds, first_view};

    ghost holds = { Holds };

    ghost first = { first_view };
}

/// Raise, activate and retire: a tablet's word rose.
pub(crate) struct Raises;

impl Play<(), SeatView> for Raises {
    ghost use Rattle.xc_board.specs.Steps.{Raised};

    ghost then = { Raised };
}

/// Scan one word: the next tablet's word was loaded.
pub(crate) struct Scans;

impl Play<(), SeatView> for Scans {
    ghost use Rattle.xc_board.specs.Steps.{Scanned};

    ghost then = { Scanned };
}

/// Publish: the watermark rose to the bound of a scan that is through.
pub(crate) struct Publishes;

impl Play<(), SeatView> for Publishes {
    ghost use Rattle.xc_board.specs.Steps.{Published};

    ghost then = { Published };
}

/// Observe: the watermark was loaded.
pub(crate) struct Observes;

impl Play<(), SeatView> for Observes {
    ghost use Rattle.xc_board.specs.Steps.{Observed};

    ghost then = { Observed };
}

/// Split: a second seat has seen and knows the same.
pub(crate) struct Copies;

impl Split<SeatView> for Copies {
    ghost left = { λ v. v };

    ghost right = { λ v. v };
}

/// Join: one seat has what two had, and the other's view is spent.
pub(crate) struct Merges;

impl Join<SeatView> for Merges {
    ghost use Rattle.xc_board.specs.Steps.{merged, spent};

    ghost both = { merged };

    ghost spent = { spent };
}
