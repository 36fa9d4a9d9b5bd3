// What a record's line says after its tablet and its time.
ghost use Rattle.std.specs.Prelude.{◌≡◌, ◌<◌, ◌&&◌, IfOk, option_map, nat_lt, nat_le};
ghost use Rattle.xc_record.specs.Valid.{is_time, is_txn};
ghost use Rattle.xc_record.specs.declared.record.Kind.TheVariants.{Write};
ghost use Rattle.xc_text.specs.Kinds.{Answers, IsInRange, judge};
ghost use Rattle.xc_text.specs.Lines.{kind_in, kind_numbers_fit, kind_names_fit, intent_of, apply_of, abort_of};
ghost use Rattle.xc_text.specs.Lines.{safe_of, split_of, ops_of};
ghost use Rattle.xc_text.specs.Spans.{Describes};

use crate::cut::Words;
use crate::kind::{Fail, LogKind, after_numbers};
use crate::line::Version;
use crate::line_ops::LineOps;
use crate::operations::read_ops;
use crate::verb::Verb;
use crate::without::read_without;
use std::alloc::Global;
use xc_base::{LAST_SUB, MOST_TABLETS};
use xc_record::Kind;
use xc_time::HybridTime;

#[inline(always)]
pub(crate) fn time_in(value: u64) -> Result<HybridTime, Fail>
    ensures { IsInRange is_time value result }
{
    match HybridTime::new(value) {
        Some(time) => Ok(time),
        None => Err(Fail::Bad(LogKind::Number)),
    }
}

#[inline(always)]
fn is_transaction(value: u64) -> bool
    ensures { result ≡ is_txn value }
{
    1 <= value && value < 4_294_967_296
}

#[inline(always)]
pub(crate) fn is_tablet(value: u64) -> bool
    ensures { result ≡ nat_lt value MOST_TABLETS }
{
    value < MOST_TABLETS as u64
}

#[inline(always)]
fn transaction_in(value: u64) -> Result<u32, Fail>
    ensures { IsInRange is_txn value result }
{
    if !is_transaction(value) {
        return Err(Fail::Bad(LogKind::Number));
    }
    Ok(value as u32)
}

#[inline(always)]
pub(crate) fn tablet_in(value: u64) -> Result<u32, Fail>
    ensures { IsInRange (λ id. nat_lt id MOST_TABLETS) value result }
{
    if !is_tablet(value) {
        return Err(Fail::Bad(LogKind::Number));
    }
    Ok(value as u32)
}

#[inline(always)]
pub(crate) fn hash_in(value: u64) -> Result<u16, Fail>
    ensures { IsInRange (λ hash. nat_lt hash 65536) value result }
{
    if value > 65_535 {
        return Err(Fail::Bad(LogKind::Number));
    }
    Ok(value as u16)
}

#[inline(always)]
fn is_sub(value: u64) -> bool
    ensures { result ≡ nat_le value LAST_SUB }
{
    value <= u64::from(LAST_SUB)
}

#[inline(always)]
fn sub_in(value: u64) -> Result<u8, Fail>
    ensures { IsInRange (λ sub. nat_le sub LAST_SUB) value result }
{
    if !is_sub(value) {
        return Err(Fail::Bad(LogKind::Number));
    }
    Ok(value as u8)
}

#[inline(always)]
fn read_write(
    alloc: Global,
    version: Version,
    read: &mut LineOps,
    mut words: Words<'_>,
) -> Result<Kind, Fail>
    ensures kind { Answers (λ kind. kind) result
        (judge kind_numbers_fit kind_names_fit (option_map Write (ops_of version words.entry))) }
    ensures span { IfOk result (λ kind. Describes read.new.span kind) }
{
    read_ops(version, read, &mut words)?;
    Ok(Kind::Write {
        ops: read.ops.clone_in(alloc)?,
    })
}

// The numbers of an intent, which are looked at before its names.
#[inline(always)]
fn numbers_fit(txn: u64, sub: u64) -> bool
    ensures { result ≡ (is_txn txn && nat_le sub LAST_SUB) }
{
    is_transaction(txn) && is_sub(sub)
}

#[inline(always)]
fn read_intent(
    alloc: Global,
    version: Version,
    read: &mut LineOps,
    mut words: Words<'_>,
) -> Result<Kind, Fail>
    ensures kind { Answers (λ kind. kind) result
        (judge kind_numbers_fit kind_names_fit (intent_of version words.entry)) }
    ensures span { IfOk result (λ kind. Describes read.new.span kind) }
{
    let txn = words.number()?;
    let sub = words.sub()?;
    match read_ops(version, read, &mut words) {
        Err(fail) => Err(after_numbers(fail, numbers_fit(txn, sub))),
        Ok(()) => Ok(Kind::Intent {
            txn: transaction_in(txn)?,
            sub: sub_in(sub)?,
            ops: read.ops.clone_in(alloc)?,
        }),
    }
}

#[inline(always)]
fn read_apply(mut words: Words<'_>) -> Result<Kind, Fail>
    ensures { Answers (λ kind. kind) result (judge kind_numbers_fit kind_names_fit (apply_of words.entry)) }
{
    let txn = words.number()?;
    let commit = words.number()?;
    let without = read_without(words)?;
    Ok(Kind::Apply {
        txn: transaction_in(txn)?,
        commit: time_in(commit)?,
        without,
    })
}

#[inline(always)]
fn read_abort(mut words: Words<'_>) -> Result<Kind, Fail>
    ensures { Answers (λ kind. kind) result (judge kind_numbers_fit kind_names_fit (abort_of words.entry)) }
{
    let txn = words.only_number()?;
    Ok(Kind::Abort {
        txn: transaction_in(txn)?,
    })
}

#[inline(always)]
fn read_safe(mut words: Words<'_>) -> Result<Kind, Fail>
    ensures { Answers (λ kind. kind) result (judge kind_numbers_fit kind_names_fit (safe_of words.entry)) }
{
    let value = words.only_number()?;
    Ok(Kind::Safe {
        value: time_in(value)?,
    })
}

fn read_split(mut words: Words<'_>) -> Result<Kind, Fail>
    ensures { Answers (λ kind. kind) result (judge kind_numbers_fit kind_names_fit (split_of words.entry)) }
{
    let place = words.number()?;
    let left = words.number()?;
    let right = words.number()?;
    words.end()?;
    Ok(Kind::Split {
        at: hash_in(place)?,
        left: tablet_in(left)?,
        right: tablet_in(right)?,
    })
}

// What the words say, from the verb on.
#[tactic(auto, unfolding(crate::specs::Lines::kind_in, crate::specs::Lines::kind_of))]
#[inline(always)]
pub(crate) fn read_kind(
    alloc: Global,
    version: Version,
    read: &mut LineOps,
    mut words: Words<'_>,
) -> Result<Kind, Fail>
    ensures kind { Answers (λ kind. kind) result (kind_in version words.entry) }
    ensures span { IfOk result (λ kind. Describes read.new.span kind) }
{
    match words.verb() {
        Some(Verb::Write) => read_write(alloc, version, read, words),
        Some(Verb::Intent) => read_intent(alloc, version, read, words),
        Some(Verb::Apply) => read_apply(words),
        Some(Verb::Abort) => read_abort(words),
        Some(Verb::Safe) => read_safe(words),
        Some(Verb::Split) => read_split(words),
        None => Err(Fail::Bad(LogKind::Form)),
    }
}
