// Why a source script is refused.
ghost use Rattle.std.specs.Prelude.{◌≡◌};
ghost use Rattle.xc_source_script.specs.Kinds.{kind_name};
ghost use Rattle.xc_source_script.specs.declared.kind.Fail.TheVariants.{Bad, NoMemory};
ghost use Rattle.xc_source_script.specs.declared.kind.SourceKind.TheVariants.{Form};

use std::alloc::AllocError;
use xc_script::NoNumber;

/// Why a line of a source script is bad. The rules are looked at in this order.
#[derive(Clone, Copy, PartialEq, Eq, Debug)]
pub enum SourceKind {
    /// The line has none of the forms, or stands in the wrong place.
    Form,
    /// A number is out of the range of its place.
    Number,
    /// A key or a value is too long or too short, or its word is none of a name in a text of the version.
    Key,
    /// A root doesn't fit those before it or comes behind a command, or the roots don't share out all hashes where they
    /// end.
    Header,
    /// It is line 65,537.
    Limit,
    /// The text goes no further, and has no last line.
    NoEnd,
}

impl SourceKind {
    /// The word for it in what is printed.
    pub fn name(self) -> &'static str
        ensures { result.now ≡ kind_name self }
    {
        match self {
            SourceKind::Form => "form",
            SourceKind::Number => "number",
            SourceKind::Key => "key",
            SourceKind::Header => "header",
            SourceKind::Limit => "limit",
            SourceKind::NoEnd => "no-end",
        }
    }
}

/// Why no source script was read from a text.
#[derive(Clone, Copy, PartialEq, Eq, Debug)]
pub enum SourceScriptFail {
    /// The first bad line, counted from 1, and the first kind for which it is bad.
    Bad { line: u64, kind: SourceKind },
    /// Memory ran out.
    NoMemory,
}

// Why a line was not taken.
#[derive(Clone, Copy, PartialEq, Eq, Debug)]
pub(crate) enum Fail {
    Bad(SourceKind),
    NoMemory,
}

impl From<AllocError> for Fail {
    ghost from_gives = { λ _ e. e ≡ NoMemory };

    fn from(_error: AllocError) -> Fail {
        Fail::NoMemory
    }
}

impl From<NoNumber> for Fail {
    ghost from_gives = { λ _ e. e ≡ Bad Form };

    fn from(_word: NoNumber) -> Fail {
        Fail::Bad(SourceKind::Form)
    }
}
