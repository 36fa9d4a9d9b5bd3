// What a reader hands out.
ghost use Rattle.std.specs.Prelude.{◌≡◌};
ghost use Rattle.xc_change.specs.Reader.{fail_of};

use xc_base::NoMemory;
use xc_logs::FeedFail;
use xc_record::{Break, Records};

/// Records of one source tablet that follow one another.
#[derive(Drop, Debug)]
pub struct Batch {
    /// The number of the first one, from 1.
    pub from: u64,
    /// The records, one at least.
    pub records: Records,
}

/// What comes after a reader's cursor.
#[derive(Drop, Debug)]
pub enum Next {
    /// The next accepted records.
    Batch(Batch),
    /// The log ends at the cursor.
    AtEnd,
    /// The record after the cursor, of this number, violates an order rule.
    Halted { number: u64, kind: Break },
}

/// Why nothing was handed out. The reader is as before.
#[derive(Clone, Copy, PartialEq, Eq, Debug)]
pub enum NextFail {
    /// The feed failed, and counted it.
    ReadFault,
    /// Memory for the records was refused.
    NoMemory,
}

impl From<FeedFail> for NextFail {
    ghost from_gives = { λ fail e. e ≡ fail_of fail };

    fn from(fail: FeedFail) -> NextFail {
        match fail {
            FeedFail::Failed => NextFail::ReadFault,
            FeedFail::NoMemory => NextFail::NoMemory,
        }
    }
}

impl From<NoMemory> for NextFail {
    ghost use Rattle.xc_change.specs.declared.batch.NextFail.TheVariants as fail;

    ghost from_gives = { λ _ e. e ≡ fail.NoMemory };

    fn from(_error: NoMemory) -> NextFail {
        NextFail::NoMemory
    }
}
