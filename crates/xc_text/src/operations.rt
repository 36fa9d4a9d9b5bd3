// The operations of a record's line.
ghost use Rattle.std.specs.Prelude.{◌≡◌, ◌&&◌, true, false, is_some, MatchOption, IfOk, Some, None, if◌then◌else◌};
ghost use Rattle.std.specs.List.{list_all};
ghost use Rattle.std.specs.Option.{option_copied};
ghost use Rattle.xc_text.specs.Kinds.{Answers};
ghost use Rattle.xc_record.specs.Hash.{hash_of};
ghost use Rattle.xc_text.specs.Lines.{set_of, op_written, op_meant, op_of, op_is_named, ops_in, with_op, name_of};
ghost use Rattle.xc_text.specs.Spans.{IsSpan};
ghost use Rattle.xc_text.specs.OneOp.{op_in};
ghost use Rattle.xc_text.specs.Printed.{op_spelled};
ghost use Rattle.xc_text.specs.declared.line.Version.TheVariants.{One, Two};
ghost use Rattle.xc_text.specs.declared.kind.Fail.TheVariants.{Bad};

use crate::cut::{Words, cut};
use crate::kind::{Fail, LogKind};
use crate::line::Version;
use crate::line_ops::{LineOps, Span};
use xc_base::{Key, Value, is_key, is_plain, is_value, read_key, read_value};
use xc_record::{Op, Ops, hash, hash_bytes};

// The key and the value of `key=value`.
#[inline(always)]
fn set_parts(rest: &[u8]) -> Option<(&[u8], Option<&[u8]>)>
    ensures { MatchOption result (set_of rest.now ≡ None) (λ parts. set_of rest.now
        ≡ Some (record { key = parts.0.now; value = option_copied parts.1 })) }
{
    match cut(rest, b'=') {
        (key, Some(value)) => Some((key, Some(value))),
        (_, None) => None,
    }
}

// The key of an operation and its value, where it sets one.
#[inline(always)]
fn parts(word: &[u8]) -> Option<(&[u8], Option<&[u8]>)>
    ensures { MatchOption result (op_written word.now ≡ None) (λ parts. op_written word.now
        ≡ Some (record { key = parts.0.now; value = option_copied parts.1 })) }
{
    let (sign, rest) = word.split_first()?;
    match *sign {
        b'+' => set_parts(rest),
        b'-' => Some((rest, None)),
        _ => None,
    }
}

// Whether a key and a value are plain and well formed, so that they are their own words.
#[inline(always)]
fn are_plain(key: &[u8], value: Option<&[u8]>) -> bool
    ensures { result
        ≡ (op_is_named (record { key = key.now; value = option_copied value.entry }) && op_spelled One
        (record { key = key.now; value = option_copied value.entry })) }
{
    is_key(key)
        && is_plain(key)
        && match value {
            None => true,
            Some(value) => is_value(value) && is_plain(value),
        }
}

// Puts the operation last that the words of any key and value stand for, and gives the hash of its key.
fn put_words(ops: &mut Ops, key: &[u8], value: Option<&[u8]>) -> Result<u16, Fail>
    ensures put { Answers (λ _. ops.new) result
        (with_op Two ops.old (record { key = key.now; value = option_copied value.entry })) }
    ensures hash { IfOk result (λ hash. hash ≡ hash_of (name_of Two key.now)) }
{
    let Ok(key) = read_key(key) else {
        return Err(Fail::Bad(LogKind::Key));
    };
    let value = match value {
        None => None,
        Some(word) => match read_value(word) {
            Ok(value) => Some(value),
            Err(_) => return Err(Fail::Bad(LogKind::Key)),
        },
    };
    ops.push(Op { key, value })?;
    Ok(hash(&key))
}

// Puts the operation last that is written so, and gives the hash of its key.
fn put_op(version: Version, ops: &mut Ops, key: &[u8], value: Option<&[u8]>) -> Result<u16, Fail>
    ensures put { Answers (λ _. ops.new) result
        (with_op version ops.old (record { key = key.now; value = option_copied value.entry })) }
    ensures hash { IfOk result (λ hash. hash ≡ hash_of (name_of version key.now)) }
{
    if are_plain(key, value) {
        ops.push_bytes(key, value)?;
        return Ok(hash_bytes(key));
    }
    match version {
        Version::One => Err(Fail::Bad(LogKind::Key)),
        Version::Two => put_words(ops, key, value),
    }
}

// Whether each word that is left has the form of an operation.
fn all_have_form(words: &mut Words<'_>) -> bool
    ensures { result ≡ list_all (λ word. is_some (op_written word)) words.old }
{
    'words: while let Some(word) = words.next() {
        if parts(word).is_none() {
            return false;
        }
    }
    true
}

// Why operations are refused of which one isn't well named, and these words are left.
fn misnamed(words: &mut Words<'_>) -> Fail
    ensures { result
        ≡ Bad (if list_all (λ word. is_some (op_written word)) words.old then LogKind.Key else LogKind.Form) }
{
    if all_have_form(words) {
        Fail::Bad(LogKind::Key)
    } else {
        Fail::Bad(LogKind::Form)
    }
}

// Reads the operations that the words say, however many, in place of those that were read before.
#[inline(never)]
pub(crate) fn read_ops(
    version: Version,
    read: &mut LineOps,
    words: &mut Words<'_>,
) -> Result<(), Fail>
    ensures ops { Answers (λ _. read.new.ops) result (ops_in version words.old) }
    ensures span { IfOk result (λ _. IsSpan read.new.span read.new.ops) }
{
    read.ops.clear();
    let mut span = Span::none();
    'words: loop {
        if let Some(op) = words.plain_op() {
            read.ops.push_bytes(op.key, op.value)?;
            span = span.with(op.hash);
            continue;
        }
        let Some(word) = words.next() else {
            break;
        };
        let Some((key, value)) = parts(word) else {
            return Err(Fail::Bad(LogKind::Form));
        };
        match put_op(version, &mut read.ops, key, value) {
            Ok(hash) => span = span.with(hash),
            Err(Fail::Bad(_)) => return Err(misnamed(words)),
            Err(Fail::NoMemory) => return Err(Fail::NoMemory),
        }
    }
    if read.ops.is_empty() {
        return Err(Fail::Bad(LogKind::Form));
    }
    read.span = span;
    Ok(())
}

/// Why a word is no operation.
#[derive(Clone, Copy, PartialEq, Eq, Debug)]
pub enum OpFail {
    /// It is neither `+key=value` nor `-key`.
    Form,
    /// The key or the value is too long or too short, or its word is none of a name in a text of the version.
    Name,
}

/// The operation that a word spells in a text of the version: `+key=value` sets a key, `-key` removes it. `Form` comes
/// exactly where the word is neither, and `Name` exactly where it is, and the key or the value isn't well formed.
pub fn read_op(version: Version, word: &[u8]) -> Result<Op, OpFail>
    ensures { result ≡ op_in (op_of version word.now) }
{
    match parts(word) {
        None => Err(OpFail::Form),
        Some((key, value)) => named_op(version, key, value),
    }
}

// The operation that is written so.
#[tactic(auto, using(crate::proofs::OpsLaws::plain_op_in))]
fn named_op(version: Version, key: &[u8], value: Option<&[u8]>) -> Result<Op, OpFail>
    ensures { result
        ≡ op_in (Some (op_meant version (record { key = key.now; value = option_copied value.entry }))) }
{
    if are_plain(key, value) {
        return Ok(op_from(key, value));
    }
    match version {
        Version::One => Err(OpFail::Name),
        Version::Two => op_of_words(key, value),
    }
}

fn op_from(key: &[u8], value: Option<&[u8]>) -> Op
    requires { op_is_named (record { key = key.now; value = option_copied value }) ≡ true }
    ensures { result ≡ record { key = key.now; value = option_copied value.entry } }
{
    let key = Key::of(key);
    match value {
        None => Op { key, value: None },
        Some(value) => Op {
            key,
            value: Some(Value::of(value)),
        },
    }
}

// The operation that the words of any key and value stand for.
fn op_of_words(key: &[u8], value: Option<&[u8]>) -> Result<Op, OpFail>
    ensures { result ≡ op_in (Some (op_meant Two (record { key = key.now; value = option_copied value.entry }))) }
{
    let Ok(key) = read_key(key) else {
        return Err(OpFail::Name);
    };
    let value = match value {
        None => None,
        Some(word) => match read_value(word) {
            Ok(value) => Some(value),
            Err(_) => return Err(OpFail::Name),
        },
    };
    Ok(Op { key, value })
}
