// Why a script is refused.
ghost use Rattle.std.specs.Prelude.{◌≡◌};
ghost use Rattle.xc_script.specs.Kinds.{kind_name};
ghost use Rattle.xc_script.specs.declared.kind.Fail.TheVariants.{Bad, NoMemory};
ghost use Rattle.xc_script.specs.declared.kind.ScriptKind.TheVariants.{Form};

use crate::numbers::NoNumber;
use std::alloc::AllocError;

/// Why a line of a script is bad. The rules are looked at in this order.
#[derive(Clone, Copy, PartialEq, Eq, Debug)]
pub enum ScriptKind {
    /// The line has none of the forms, or stands in the wrong place.
    Form,
    /// A number is out of the range of its place.
    Number,
    /// A key is too long, or its word is none of a key.
    Key,
    /// The first of the bounds isn't 0, or one isn't above the one before, or there are more than 16.
    Target,
    /// The command is of a tablet that the source or the target doesn't have.
    UnknownTablet,
    /// It is line 65,537, the ninth scan or the 65th drain, or it has more than 16 watched keys.
    Limit,
    /// The text goes no further, and has no last line.
    NoEnd,
}

impl ScriptKind {
    /// The word for it in what is printed.
    pub fn name(self) -> &'static str
        ensures { result.now ≡ kind_name self }
    {
        match self {
            ScriptKind::Form => "form",
            ScriptKind::Number => "number",
            ScriptKind::Key => "key",
            ScriptKind::Target => "target",
            ScriptKind::UnknownTablet => "unknown-tablet",
            ScriptKind::Limit => "limit",
            ScriptKind::NoEnd => "no-end",
        }
    }
}

/// Why no script was read from a text.
#[derive(Clone, Copy, PartialEq, Eq, Debug)]
pub enum ScriptFail {
    /// The first bad line, counted from 1, and the first kind for which it is bad.
    Bad { line: u64, kind: ScriptKind },
    /// Memory ran out.
    NoMemory,
}

// Why a line was not taken.
#[derive(Clone, Copy, PartialEq, Eq, Debug)]
pub(crate) enum Fail {
    Bad(ScriptKind),
    NoMemory,
}

impl From<AllocError> for Fail {
    ghost from_gives = { λ _ e. e ≡ NoMemory };

    fn from(_error: AllocError) -> Fail {
        Fail::NoMemory
    }
}

impl From<NoNumber> for Fail {
    ghost from_gives = { λ _ e. e ≡ Bad Form };

    fn from(_word: NoNumber) -> Fail {
        Fail::Bad(ScriptKind::Form)
    }
}
