// The lines of a log text.
ghost use Rattle.std.specs.Prelude.{◌≡◌, true, false, IfOk, MatchResult, option_map, nat_lt, ◌&&◌};
ghost use Rattle.xc_record.specs.Valid.{is_time};
ghost use Rattle.std.specs.Option.{option_map_or};
ghost use Rattle.xc_base.specs.Words.{split_on};
ghost use Rattle.xc_text.specs.Kinds.{Answers, judge};
ghost use Rattle.xc_text.specs.Lines.{line_in, header_of, header_numbers_fit, parent_of, version_of, entry_of, number};
ghost use Rattle.xc_text.specs.Lines.{numbers_fit, names_fit};
ghost use Rattle.xc_text.specs.Spans.{DescribesLine};
ghost use Rattle.xc_text.specs.declared.kind.LogKind.TheVariants.{Form, Number};
ghost use Rattle.xc_text.specs.declared.kind.Fail.TheVariants.{Bad};
ghost use Rattle.xc_base.specs.declared.limits.TheConstants.{MOST_TABLETS};

use crate::cut::{Words, number};
use crate::kind::{Fail, LogKind, after_numbers};
use crate::line_ops::LineOps;
use crate::record_line::{hash_in, is_tablet, read_kind, tablet_in, time_in};
use std::alloc::Global;
use xc_record::{Header, Record, is_time};

/// How a text writes keys and values.
#[derive(Clone, Copy, PartialEq, Eq, Debug)]
pub enum Version {
    /// By their bytes, which are plain.
    One,
    /// By words for any bytes.
    Two,
}

// A line by itself.
#[derive(Drop, Debug)]
pub(crate) enum LogLine {
    First(Version),
    Tablet(Header),
    // A record of the tablet of this number.
    Entry(u32, Record),
    End,
}

fn read_version(mut words: Words<'_>) -> Result<LogLine, Fail>
    ensures { Answers (λ line. line) result (judge numbers_fit names_fit (version_of words.entry)) }
{
    match words.next() {
        Some(word) if word == b"1".as_slice() => {
            words.end()?;
            Ok(LogLine::First(Version::One))
        }
        Some(word) if word == b"2".as_slice() => {
            words.end()?;
            Ok(LogLine::First(Version::Two))
        }
        _ => Err(Fail::Bad(LogKind::Form)),
    }
}

// `root`, or `child` and the parent's number.
fn read_parent(mut words: Words<'_>) -> Result<Option<u64>, Fail>
    ensures { MatchResult result (λ parent. parent_of words.entry ≡ Some parent) (λ e. (e ≡ Bad Form)
        × (parent_of words.entry ≡ None)) }
{
    let Some(word) = words.next() else {
        return Err(Fail::Bad(LogKind::Form));
    };
    if word == b"root".as_slice() {
        words.end()?;
        return Ok(None);
    }
    if word == b"child".as_slice() {
        return Ok(Some(words.only_number()?));
    }
    Err(Fail::Bad(LogKind::Form))
}

fn parent_in(parent: Option<u64>) -> Result<Option<u32>, Fail>
    ensures { MatchResult result (λ id. (id ≡ parent)
        × (option_map_or (λ p. nat_lt p MOST_TABLETS) parent true ≡ true)) (λ e. (e ≡ Bad Number)
        × (option_map_or (λ p. nat_lt p MOST_TABLETS) parent true ≡ false)) }
{
    match parent {
        None => Ok(None),
        Some(id) => Ok(Some(tablet_in(id)?)),
    }
}

fn read_header(mut words: Words<'_>) -> Result<Header, Fail>
    ensures { Answers (λ header. header) result (judge header_numbers_fit (λ header. true) (header_of words.entry)) }
{
    let id = words.number()?;
    let lo = words.number()?;
    let hi = words.number()?;
    let parent = read_parent(words)?;
    Ok(Header {
        id: tablet_in(id)?,
        lo: hash_in(lo)?,
        hi: hash_in(hi)?,
        parent: parent_in(parent)?,
    })
}

#[inline(always)]
fn numbers_fit(id: u64, time: u64) -> bool
    ensures { result ≡ (nat_lt id MOST_TABLETS && is_time time) }
{
    is_tablet(id) && is_time(time)
}

#[inline(always)]
fn read_entry(
    alloc: Global,
    version: Version,
    read: &mut LineOps,
    id: u64,
    mut words: Words<'_>,
) -> Result<LogLine, Fail>
    ensures line { Answers (λ line. line) result (judge numbers_fit names_fit (entry_of version id words.entry)) }
    ensures span { IfOk result (λ line. DescribesLine read.new.span line) }
{
    let time = words.number()?;
    match read_kind(alloc, version, read, words) {
        Err(fail) => Err(after_numbers(fail, numbers_fit(id, time))),
        Ok(kind) => Ok(LogLine::Entry(
            tablet_in(id)?,
            Record {
                time: time_in(time)?,
                kind,
            },
        )),
    }
}

// The line that the bytes spell in a text of the version, without the byte that ends it. What was read before is
// replaced by the operations of a record's line.
#[tactic(auto, unfolding(crate::specs::Lines::line_in, crate::specs::Lines::line_of))]
#[inline(always)]
pub(crate) fn read_line(
    alloc: Global,
    version: Version,
    read: &mut LineOps,
    line: &[u8],
) -> Result<LogLine, Fail>
    ensures line { Answers (λ line. line) result (line_in version (split_on 32 line.now)) }
    ensures span { IfOk result (λ line. DescribesLine read.new.span line) }
{
    let mut words = Words::of(line);
    match words.quick_number() {
        Some(id) => read_entry(alloc, version, read, id, words),
        None => read_any_line(alloc, version, read, words),
    }
}

// The line of these words, whatever the first.
#[tactic(auto, unfolding(crate::specs::Lines::line_in, crate::specs::Lines::line_of))]
#[inline(never)]
fn read_any_line(
    alloc: Global,
    version: Version,
    read: &mut LineOps,
    mut words: Words<'_>,
) -> Result<LogLine, Fail>
    ensures line { Answers (λ line. line) result (line_in version words.entry) }
    ensures span { IfOk result (λ line. DescribesLine read.new.span line) }
{
    let Some(word) = words.next() else {
        return Err(Fail::Bad(LogKind::Form));
    };
    if word == b"xclog".as_slice() {
        return read_version(words);
    }
    if word == b"tablet".as_slice() {
        return Ok(LogLine::Tablet(read_header(words)?));
    }
    if word == b"end".as_slice() {
        words.end()?;
        return Ok(LogLine::End);
    }
    read_entry(alloc, version, read, number(word)?, words)
}
