// What a board is told of each tablet when it is made.
ghost use Rattle.std.specs.Prelude.{◌≡◌, ◌<◌, ◌^◌, IfOk};
ghost use Rattle.xc_board.specs.Words.{word_of};

use std::alloc::Global;
use std::marker::Model;
use xc_base::NoMemory;

/// What the word of a tablet stands for. It changes in this order alone.
#[derive(Clone, Copy, Debug, PartialEq, Eq)]
pub enum WordState {
    /// A child whose parent isn't through: it counts with its parent's end.
    Waiting,
    /// An active tablet, which counts with this hybrid time, its last safe time.
    At(u64),
    /// A parent whose children are active: it doesn't count any more.
    Gone,
}

/// A tablet of a board. Tablets are numbered from 0, and a parent has a lower number than its children.
#[derive(Clone, Copy, Debug, PartialEq, Eq)]
pub struct BoardTablet {
    /// The number of the tablet that this one was split from, or None for a root.
    pub parent: Option<u32>,
    /// The state that it starts in.
    pub state: WordState,
    /// The greatest hybrid time that its word may show: the safe time at the end of its log. At most 2^62-1.
    pub ends: u64,
}

/// The tablets of a board, in order of their numbers. Contracts see the list.
#[derive(Drop)]
pub(crate) struct BoardTablets {
    items: Vec<BoardTablet>,
}

impl Model for BoardTablets {
    ghost use Rattle.std.specs.Prelude.{List};
    ghost use Rattle.xc_board.specs.declared.tablet.BoardTablet.{BoardTablet};

    ghost Value = { List BoardTablet };

    ghost view = { λ t. t.items.items };
}

impl BoardTablets {
    /// A copy of the tablets, or out of memory.
    pub(crate) fn copied(alloc: Global, tablets: &[BoardTablet]) -> Result<BoardTablets, NoMemory>
        ensures { IfOk result (λ t. t ≡ tablets.now) }
    {
        let mut items = Vec::new(alloc);
        items.extend_from_slice(tablets)?;
        Ok(BoardTablets { items })
    }

    /// The tablets as a slice.
    #[inline]
    pub(crate) fn as_slice(&self) -> &[BoardTablet]
        ensures { result.now ≡ self.now }
    {
        self.items.as_slice()
    }
}

/// The number that stands for a state in a word.
#[inline]
pub(crate) fn word(state: WordState) -> u64
    requires { word_of state < 2 ^ 64 }
    ensures { result ≡ word_of state }
{
    match state {
        WordState::Waiting => 0,
        WordState::At(t) => t + 1,
        WordState::Gone => u64::MAX,
    }
}
