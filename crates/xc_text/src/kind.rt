// Why a log text is refused.
ghost use Rattle.std.specs.Prelude.{◌≡◌};
ghost use Rattle.xc_text.specs.Kinds.{kind_name, after_numbers};
ghost use Rattle.xc_text.specs.declared.kind.Fail.TheVariants.{NoMemory};

use std::alloc::AllocError;

/// Why a line of a log text is bad. The rules are looked at in this order.
#[derive(Clone, Copy, PartialEq, Eq, Debug)]
pub enum LogKind {
    /// The line has none of the forms, or stands in the wrong place.
    Form,
    /// A number is out of the range of its place.
    Number,
    /// A key or a value is too long, too short, or has a byte outside the alphabet.
    Key,
    /// A header doesn't fit those before it, or the headers end too early.
    Header,
    /// The record's tablet has no header.
    UnknownTablet,
    /// A key hashes outside the tablet's range, or a split doesn't name the tablet's children.
    Range,
    /// The record's tablet was split before.
    AfterSplit,
    /// The record has too many operations, or the text too many records or operations.
    Limit,
    /// The text ends, and a tablet with children has no split.
    Orphan,
    /// The text goes no further, and has no last line.
    NoEnd,
}

impl LogKind {
    /// The word for it in what is printed.
    pub fn name(&self) -> &'static str
        ensures { result.now ≡ kind_name self.now }
    {
        match self {
            LogKind::Form => "form",
            LogKind::Number => "number",
            LogKind::Key => "key",
            LogKind::Header => "header",
            LogKind::UnknownTablet => "unknown-tablet",
            LogKind::Range => "range",
            LogKind::AfterSplit => "after-split",
            LogKind::Limit => "limit",
            LogKind::Orphan => "orphan",
            LogKind::NoEnd => "no-end",
        }
    }
}

/// Why no logs were read from a text.
#[derive(Clone, Copy, PartialEq, Eq, Debug)]
pub enum LogsFail {
    /// The first bad line, counted from 1, and the first kind for which it is bad.
    Bad { line: u64, kind: LogKind },
    /// Memory ran out.
    NoMemory,
}

// Why a line was not taken.
#[derive(Clone, Copy, PartialEq, Eq, Debug)]
pub(crate) enum Fail {
    Bad(LogKind),
    NoMemory,
}

// A bad key counts only where the numbers before it fit.
#[inline(always)]
pub(crate) fn after_numbers(fail: Fail, numbers_fit: bool) -> Fail
    ensures { result ≡ after_numbers numbers_fit fail }
{
    if !numbers_fit && fail == Fail::Bad(LogKind::Key) {
        return Fail::Bad(LogKind::Number);
    }
    fail
}

impl From<AllocError> for Fail {
    ghost from_gives = { λ _ e. e ≡ NoMemory };

    fn from(_error: AllocError) -> Fail {
        Fail::NoMemory
    }
}
