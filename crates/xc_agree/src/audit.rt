// What an audit answers.
ghost use Rattle.std.specs.Prelude.{◌≡◌};

use std::alloc::AllocError;
use std::marker::Model;
use xc_record::{AgreeKind, Break};

/// What becomes of a tablet's log.
#[derive(Clone, Copy, PartialEq, Eq, Debug)]
pub enum EndState {
    /// All records are accepted, and none is a split.
    Open,
    /// All records are accepted, and the last one is a split.
    Split,
    /// The record of this number, from 1, breaks the order of its tablet and is not accepted.
    Halt { number: u64, kind: Break },
    /// A child whose parent's accepted records end in no split.
    Unreached,
}

/// How far a tablet's log is accepted.
#[derive(Clone, Copy, PartialEq, Eq, Debug)]
pub struct End {
    /// The number of accepted records.
    pub accepted: u64,
    /// The value of the last accepted safe record; where there is none, the parent's floor, or 0.
    pub floor: u64,
    pub state: EndState,
}

/// The ends of all tablets, in their order.
#[derive(Drop, Debug)]
pub struct Ends {
    items: Vec<End>,
}

impl Ends {
    pub fn from_vec(items: Vec<End>) -> Ends
        ensures { result ≡ items.items }
    {
        Ends { items }
    }

    pub fn as_slice(&self) -> &[End]
        ensures { result.now ≡ self.now }
    {
        self.items.as_slice()
    }
}

impl Model for Ends {
    ghost use Rattle.std.specs.Prelude.{List};
    ghost use Rattle.xc_agree.specs.declared.audit.End.{End};

    ghost Value = { List End };

    ghost view = { λ l. l.items.items };
}

/// What an audit of logs that agree says.
#[derive(Drop, Debug)]
pub struct Audit {
    pub ends: Ends,
    /// How many writes and transactions commit.
    pub commits: u64,
}

/// Why there is no audit.
#[derive(Clone, Copy, PartialEq, Eq, Debug)]
pub enum AgreeFail {
    /// The tablets disagree on the transaction: the case of the least transaction, then of the least tablet, then of
    /// the first kind.
    Disagree {
        txn: u32,
        tablet: u32,
        kind: AgreeKind,
    },
    /// There was too little memory, which says nothing of the logs.
    NoMemory,
}

impl From<AllocError> for AgreeFail {
    ghost use Rattle.xc_agree.specs.declared.audit.AgreeFail.TheVariants as fail;

    ghost from_gives = { λ _ e. e ≡ fail.NoMemory };

    fn from(_error: AllocError) -> AgreeFail {
        AgreeFail::NoMemory
    }
}
