// Operations of plain names, in which each byte is looked at once.
ghost use Rattle.std.specs.Prelude.{◌≡◌, ◌≤◌, ◌++◌, ◌∷◌, [], true, IfSome, length, take};
ghost use Rattle.std.specs.Option.{option_map_or, option_copied};
ghost use Rattle.xc_base.specs.Names.{is_plain, is_value};
ghost use Rattle.xc_record.specs.Hash.{hash_from, hash_of};
ghost use Rattle.xc_text.specs.Lines.{op_is_named};
ghost use Rattle.xc_text.specs.Printed.{op_by, op_spelled};
ghost use Rattle.xc_text.specs.declared.line.Version.TheVariants.{One};

use xc_base::{in_alphabet, is_key, is_value};
use xc_record::hash_with;

// An operation whose names are plain, so that they are their own words.
#[derive(Clone, Copy, Debug)]
pub(crate) struct PlainOp<'a> {
    pub(crate) key: &'a [u8],
    pub(crate) value: Option<&'a [u8]>,
    // of the key
    pub(crate) hash: u16,
}

// How many plain bytes stand at the front, and their hash.
#[inline(always)]
fn plain_front(bytes: &[u8]) -> (usize, u16)
    ensures within { result.0 ≤ length bytes.now }
    ensures plain { is_plain (take result.0 bytes.now) ≡ true }
    ensures hash { result.1 ≡ hash_from 0 (take result.0 bytes.now) }
{
    let mut hash = 0u16;
    for (i, byte) in bytes.iter().enumerate() {
        if !in_alphabet(*byte) {
            return (i, hash);
        }
        hash = hash_with(hash, *byte);
    }
    (bytes.len(), hash)
}

// What stands behind the first bytes and a space, or that nothing stands behind them. None where another byte does.
#[inline(always)]
fn behind(bytes: &[u8], len: usize) -> Option<Option<&[u8]>>
    requires { len ≤ length bytes.now }
    ensures { IfSome result (λ rest. bytes.now ≡ take len bytes.now ++ option_map_or (λ r. 32 ∷ r.now) rest []) }
{
    if len == bytes.len() {
        return Some(None);
    }
    if bytes[len] != b' ' {
        return None;
    }
    Some(Some(&bytes[len + 1..]))
}

// The plain value behind the first bytes and a `=`, and what stands behind the value.
#[inline(always)]
fn plain_value(bytes: &[u8], len: usize) -> Option<(&[u8], Option<&[u8]>)>
    requires { len ≤ length bytes.now }
    ensures cut { IfSome result (λ r. bytes.now
        ≡ take len bytes.now ++ 61 ∷ (r.0.now ++ option_map_or (λ rest. 32 ∷ rest.now) r.1 [])) }
    ensures value { IfSome result (λ r. is_value r.0.now ≡ true) }
    ensures plain { IfSome result (λ r. is_plain r.0.now ≡ true) }
{
    if len == bytes.len() || bytes[len] != b'=' {
        return None;
    }
    let bytes = &bytes[len + 1..];
    let (len, _) = plain_front(bytes);
    let rest = behind(bytes, len)?;
    let value = &bytes[..len];
    if !is_value(value) {
        return None;
    }
    Some((value, rest))
}

// The plain operation that bytes begin with, and what stands behind it and a space. None comes where the first word is
// no such operation.
#[tactic(auto, unfolding(xc_record::specs::Hash::hash_of))]
#[inline(always)]
pub(crate) fn plain_op(bytes: &[u8]) -> Option<(PlainOp<'_>, Option<&[u8]>)>
    ensures cut { IfSome result (λ r. bytes.now
        ≡ op_by r.0.key.now (option_copied r.0.value) ++ option_map_or (λ rest. 32 ∷ rest.now) r.1 []) }
    ensures named { IfSome result (λ r. op_is_named
        (record { key = r.0.key.now; value = option_copied r.0.value }) ≡ true) }
    ensures plain { IfSome result (λ r. op_spelled One
        (record { key = r.0.key.now; value = option_copied r.0.value }) ≡ true) }
    ensures hash { IfSome result (λ r. r.0.hash ≡ hash_of r.0.key.now) }
{
    let (sign, word) = bytes.split_first()?;
    let (len, hash) = plain_front(word);
    let key = &word[..len];
    if !is_key(key) {
        return None;
    }
    match *sign {
        b'+' => {
            let (value, rest) = plain_value(word, len)?;
            let value = Some(value);
            Some((PlainOp { key, value, hash }, rest))
        }
        b'-' => {
            let rest = behind(word, len)?;
            let value = None;
            Some((PlainOp { key, value, hash }, rest))
        }
        _ => None,
    }
}
