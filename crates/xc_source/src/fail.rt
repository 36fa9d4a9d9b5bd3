ghost use Rattle.std.specs.Prelude.{◌≡◌};
ghost use Rattle.xc_source.specs.declared.fail.SourceFail.TheVariants.{NoMemory};

use std::alloc::AllocError;

/// Why a call of the source was refused. It left all as before.
#[derive(Clone, Copy, PartialEq, Eq, Debug)]
pub enum SourceFail {
    /// The transaction of this number was never begun.
    Unknown(u32),
    /// The transaction of this number is committed or aborted.
    Ended(u32),
    /// The live transaction of this number has a waiting write of the key.
    Conflict(u32),
    /// There is no tablet of this number, or it was split.
    NotOpen(u32),
    /// The transaction of this number is not committed.
    NotCommitted(u32),
    /// Nothing of the transaction waits on the tablet of this number.
    NotThere(u32),
    /// The tablet has the hashes from `lo` to `hi`, and can't be split at the hash that was given.
    BadPlace { lo: u16, hi: u16 },
    /// The subtransaction is 0, was not begun, or is rolled back.
    NoSavepoint(u8),
    /// A limit on records, tablets, transactions or subtransactions would be passed.
    Full,
    /// Too few times are left.
    ClockEnd,
    /// The clock stands at this time already, past the one that was given.
    Back(u64),
    /// Memory was out.
    NoMemory,
}

impl From<AllocError> for SourceFail {
    ghost from_gives = { λ _ e. e ≡ NoMemory };

    fn from(_: AllocError) -> SourceFail {
        SourceFail::NoMemory
    }
}
