// What a target answers.
ghost use Rattle.std.specs.Prelude.{◌≡◌};
ghost use Rattle.xc_target.specs.Answers.{fail_of};

use xc_poller::NextFail;
use xc_record::Break;

/// The session is closed, and the call changed nothing.
#[derive(Clone, Copy, PartialEq, Eq, Debug)]
pub struct Closed {
    /// The hybrid time that it was closed at.
    pub t: u64,
}

/// Why nothing was pruned. All is as before.
#[derive(Clone, Copy, PartialEq, Eq, Debug)]
pub enum PruneFail {
    /// The session was closed at this hybrid time.
    Closed(u64),
    /// The new cutoff is later than the safe time, which is named.
    Ahead { safe: u64 },
}

/// Why a poll didn't come to its end.
#[derive(Clone, Copy, PartialEq, Eq, Debug)]
pub enum TargetFail {
    /// The session was closed at this hybrid time. All is as before.
    Closed(u64),
    /// The feed failed, and counted it. All is as before.
    ReadFault,
    /// Memory was refused. The numbers of the session are as before; some target tablets may be ahead, as after a stop.
    NoMemory,
}

// A poller's failure, as the target tells it.
impl From<NextFail> for TargetFail {
    ghost from_gives = { λ fail e. e ≡ fail_of fail };

    fn from(fail: NextFail) -> TargetFail {
        match fail {
            NextFail::ReadFault => TargetFail::ReadFault,
            NextFail::NoMemory => TargetFail::NoMemory,
        }
    }
}

/// A source tablet whose log has a break of the order rules.
#[derive(Clone, Copy, PartialEq, Eq, Debug)]
pub struct Halt {
    /// The number of the tablet.
    pub id: u32,
    /// The number of the first record that isn't accepted, counted from 1.
    pub number: u64,
    /// The order rule that it breaks.
    pub kind: Break,
}

/// The numbers of one source tablet.
#[derive(Clone, Copy, PartialEq, Eq, Debug)]
pub struct SessionLine {
    /// How many of its records were delivered to every target tablet.
    pub place: u64,
    /// How many of its records the next poll begins after.
    pub cursor: u64,
    /// The cursor that polls begin at again after a restart.
    pub acknowledged: u64,
}
