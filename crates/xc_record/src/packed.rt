//! The bytes that operations are packed into: for each its key, as a text, and then a 0, or a 1 and the value, as a
//! text. A text is its length and then its bytes. Texts, values and operations are read at the front of bytes and put
//! behind them.
ghost use Rattle.std.specs.Prelude.{◌≡◌, ◌<◌, ◌≤◌, ◌+◌, ◌++◌, ◌∷◌, length, true, vec_len, vec_capacity};
ghost use Rattle.xc_record.specs.declared.packed.TheConstants.{OP_BYTES};
ghost use Rattle.xc_record.specs.Packed.{HasText, HasValue, IsAt, IsPacked, text_of, after_text, value_of, after_value};
ghost use Rattle.xc_record.specs.Packed.{op_of, after_op, encode_op, is_op};
ghost use Rattle.std.specs.Option.{option_map_or, option_copied};
ghost use Rattle.xc_base.specs.Names.{is_key, is_value};

use xc_base::{KEY_BYTES, Key, VALUE_BYTES, Value};

/// The most bytes of an operation: its key and its value, their lengths, and whether there is a value.
pub const OP_BYTES: usize = KEY_BYTES + VALUE_BYTES + 3;

/// The text in front, without its length.
#[inline]
pub fn text(bytes: &[u8]) -> &[u8]
    requires { HasText bytes.now }
    ensures { result.now ≡ text_of bytes.now }
{
    &bytes[1..1 + bytes[0] as usize]
}

/// What is behind the text in front.
#[inline]
pub fn after_text(bytes: &[u8]) -> &[u8]
    requires { HasText bytes.now }
    ensures { result.now ≡ after_text bytes.now }
{
    &bytes[1 + bytes[0] as usize..]
}

/// The value in front, or None where there is a removal.
#[inline]
pub fn value(bytes: &[u8]) -> Option<Value>
    requires { HasValue bytes.now }
    ensures { result ≡ value_of bytes.now }
{
    if bytes[0] == 0 {
        None
    } else {
        Some(Value::of(text(&bytes[1..])))
    }
}

#[inline]
fn after_value(bytes: &[u8]) -> &[u8]
    requires { HasValue bytes.now }
    ensures { result.now ≡ after_value bytes.now }
{
    if bytes[0] == 0 {
        &bytes[1..]
    } else {
        after_text(&bytes[1..])
    }
}

/// What is behind the first operation.
#[inline]
pub fn after_op(bytes: &[u8]) -> &[u8]
    requires { IsAt bytes.now }
    ensures { result.now ≡ after_op bytes.now }
{
    after_value(after_text(bytes))
}

/// The bytes of the first operation.
#[inline]
pub fn op_bytes(bytes: &[u8]) -> &[u8]
    requires { IsAt bytes.now }
    ensures { result.now ≡ encode_op (op_of bytes.now) }
{
    &bytes[..bytes.len() - after_op(bytes).len()]
}

// Puts a text last, for which there is room.
#[inline]
fn put_text(bytes: &mut Vec<u8>, text: &[u8])
    requires short { length text.now < 256 }
    requires room { vec_len bytes.old + 1 + length text.now ≤ vec_capacity bytes.old }
    ensures items { bytes.new.items ≡ bytes.old.items ++ length text.now ∷ text.now }
    ensures len { vec_len bytes.new ≡ vec_len bytes.old + 1 + length text.now }
    ensures capacity { vec_capacity bytes.old ≤ vec_capacity bytes.new }
{
    bytes.push_reserved(text.len() as u8);
    let _ = bytes.extend_from_slice(text);
}

/// Puts the operation of a key and a value last, or of a key and None, given by their bytes. There is room for it.
#[inline]
pub fn put_parts(bytes: &mut Vec<u8>, key: &[u8], value: Option<&[u8]>)
    requires key { is_key key.now ≡ true }
    requires value { option_map_or is_value (option_copied value) true ≡ true }
    requires room { vec_len bytes.old + OP_BYTES ≤ vec_capacity bytes.old }
    ensures items { bytes.new.items
        ≡ bytes.old.items ++ encode_op (record { key = key.now; value = option_copied value.entry }) }
    ensures well { is_op (record { key = key.now; value = option_copied value.entry }) ≡ true }
    ensures len { vec_len bytes.new ≤ vec_len bytes.old + OP_BYTES }
    ensures capacity { vec_capacity bytes.old ≤ vec_capacity bytes.new }
{
    put_text(bytes, key);
    match value {
        None => bytes.push_reserved(0),
        Some(value) => {
            bytes.push_reserved(1);
            put_text(bytes, value);
        }
    }
}

/// Puts an operation last, for which there is room.
pub fn put_op(bytes: &mut Vec<u8>, key: &Key, value: &Option<Value>)
    requires room { vec_len bytes.old + OP_BYTES ≤ vec_capacity bytes.old }
    ensures items { bytes.new.items ≡ bytes.old.items ++ encode_op (record { key = key.now; value = value.now }) }
    ensures well { is_op (record { key = key.now; value = value.now }) ≡ true }
    ensures len { vec_len bytes.new ≤ vec_len bytes.old + OP_BYTES }
    ensures capacity { vec_capacity bytes.old ≤ vec_capacity bytes.new }
{
    match value {
        None => put_parts(bytes, key.bytes(), None),
        Some(value) => put_parts(bytes, key.bytes(), Some(value.bytes())),
    }
}
