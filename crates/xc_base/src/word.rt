// Words for keys and values of any bytes.
ghost use Rattle.std.specs.Prelude.{◌≡◌, ◌≤◌, ◌<◌, ◌+◌, ◌*◌, ◌++◌, ◌∷◌, true, length, take, drop, Some, None};
ghost use Rattle.std.specs.Prelude.{option_map, if◌then◌else◌, IfOk, MatchResult, OnOk, OnErr, vec_len, vec_capacity};
ghost use Rattle.std.specs.Result.{result_err};
ghost use Rattle.xc_base.specs.Names.{are_bytes, is_key, is_value};
ghost use Rattle.xc_base.specs.Escapes.{digit, is_digit, digit_value, escaped_byte, escaped, escape_value};
ghost use Rattle.xc_base.specs.Escapes.{begins_escape, begins_byte, wrong_place, unescaped, word_fault, EscapedIsRead};
ghost use Rattle.xc_base.specs.Escapes.{ReadIsEscaped};
ghost use Rattle.xc_base.specs.declared.name.BadName.TheVariants.{Byte};

use crate::bytes::Bytes;
use crate::limits::{KEY_BYTES, VALUE_BYTES};
use crate::name::{BadName, Key, Value, are_bytes, in_alphabet};
use crate::streams::NoMemory;

fn digit(value: u8) -> u8
    requires { value < 16 }
    ensures { result ≡ digit value }
{
    if value < 10 {
        value + b'0'
    } else {
        value - 10 + b'A'
    }
}

// The value of a digit.
fn digit_value(byte: u8) -> Option<u8>
    ensures { result ≡ (if is_digit byte then Some (digit_value byte) else None) }
{
    match byte {
        b'0'..=b'9' => Some(byte - b'0'),
        b'A'..=b'F' => Some(byte - b'A' + 10),
        _ => None,
    }
}

// The byte whose escape begins the word.
fn escape_value(word: &[u8]) -> Option<u8>
    ensures { result ≡ (if begins_escape word.now then Some (escape_value word.now) else None) }
{
    if word.len() < 3 || word[0] != b'%' {
        return None;
    }
    let high = digit_value(word[1])?;
    let low = digit_value(word[2])?;
    let byte = 16 * high + low;
    if in_alphabet(byte) { None } else { Some(byte) }
}

fn begins_byte(word: &[u8]) -> bool
    ensures { result ≡ begins_byte word.now }
{
    if word.is_empty() {
        return false;
    }
    if in_alphabet(word[0]) {
        return true;
    }
    escape_value(word).is_some()
}

// How many bytes the word stands for, or its first wrong place.
fn count(word: &[u8]) -> Result<usize, BadName>
    ensures { MatchResult result (λ n. (wrong_place word.now ≡ None)
        × (n ≡ length (unescaped word.now))) (λ e. option_map Byte (wrong_place word.now) ≡ Some e) }
{
    let mut digits = 0u8;
    let mut len = 0;
    for (at, byte) in word.iter().enumerate() {
        if !begins_byte(&word[at..]) {
            return Err(BadName::Byte(at));
        }
        if digits > 0 {
            digits -= 1;
            continue;
        }
        len += 1;
        if *byte == b'%' {
            digits = 2;
        }
    }
    Ok(len)
}

// Puts the word of a byte last, for which there is room.
fn put_escaped(items: &mut Vec<u8>, byte: u8)
    requires { vec_len items.old + 3 ≤ vec_capacity items.old }
    ensures items { items.new.items ≡ items.old.items ++ escaped_byte byte }
    ensures len { vec_len items.new ≤ vec_len items.old + 3 }
    ensures capacity { vec_capacity items.old ≤ vec_capacity items.new }
{
    let is_plain = in_alphabet(byte);
    if is_plain {
        items.push_reserved(byte);
        return;
    }
    items.push_reserved(b'%');
    items.push_reserved(digit(byte / 16));
    items.push_reserved(digit(byte % 16));
}

// Puts the word of the bytes last, for which there is room.
fn put_all_escaped(items: &mut Vec<u8>, bytes: &[u8])
    requires { vec_len items.old + 3 * length bytes.now ≤ vec_capacity items.old }
    ensures { items.new.items ≡ items.old.items ++ escaped bytes.now }
{
    for byte in bytes {
        put_escaped(items, *byte);
    }
}

/// Appends the word of these bytes: each byte of the alphabet as it is, and any other as `%` and two digits of
/// `0123456789ABCDEF`. After an error the bytes of `out` are as before.
pub fn escape(bytes: &[u8], out: &mut Bytes) -> Result<(), NoMemory>
    ensures ok { OnOk result (out.new ≡ out.old ++ escaped bytes.now) }
    ensures err { OnErr result (out.new ≡ out.old) }
{
    let Some(room) = bytes.len().checked_mul(3) else {
        return Err(NoMemory);
    };
    out.items.reserve(room)?;
    put_all_escaped(&mut out.items, bytes);
    Ok(())
}

// Puts the bytes of a word at the front of the buffer.
fn fill(word: &[u8], out: &mut [u8])
    requires room { length (unescaped word.now) ≤ length out.old }
    requires right { wrong_place word.now ≡ None }
    ensures { take (length (unescaped word.now)) out.new ≡ unescaped word.now }
{
    let mut digits = 0u8;
    let mut len = 0;
    for (at, byte) in word.iter().enumerate() {
        if digits > 0 {
            digits -= 1;
            continue;
        }
        match escape_value(&word[at..]) {
            None => out[len] = *byte,
            Some(value) => {
                out[len] = value;
                digits = 2;
            }
        }
        len += 1;
    }
}

/// The key that a word is of. `Byte` comes exactly where there is a place of the word at which neither a byte of the
/// alphabet nor the escape of another byte begins, with the first such place, and else `Length` exactly where the word
/// is of no bytes or of more than 32, with their number.
#[tactic(auto, using(crate::proofs::EscapeLaws::read_is_escaped))]
pub fn read_key(word: &[u8]) -> Result<Key, BadName>
    ensures key { IfOk result (λ key. key ≡ unescaped word.now) }
    ensures word { IfOk result (λ key. escaped key ≡ word.now) }
    ensures fault { result_err result ≡ word_fault 1 KEY_BYTES word.now }
{
    let len = count(word)?;
    if len > KEY_BYTES {
        return Err(BadName::Length(len));
    }
    let mut buffer = [0u8; KEY_BYTES];
    fill(word, &mut buffer);
    Key::any(&buffer[..len])
}

/// The value that a word is of. `Byte` comes as in [`read_key`], and else `Length` exactly where the word is of more
/// than 64 bytes, with their number.
#[tactic(auto, using(crate::proofs::EscapeLaws::read_is_escaped))]
pub fn read_value(word: &[u8]) -> Result<Value, BadName>
    ensures value { IfOk result (λ value. value ≡ unescaped word.now) }
    ensures word { IfOk result (λ value. escaped value ≡ word.now) }
    ensures fault { result_err result ≡ word_fault 0 VALUE_BYTES word.now }
{
    let len = count(word)?;
    if len > VALUE_BYTES {
        return Err(BadName::Length(len));
    }
    let mut buffer = [0u8; VALUE_BYTES];
    fill(word, &mut buffer);
    Value::any(&buffer[..len])
}

/// A word is read as the bytes that it is of, whichever they are, so it has one reading at most.
pub fn words_are_read_back()
    ensures { EscapedIsRead }
{}

/// A word that is read is that of the bytes that are read, so bytes have one word.
pub fn what_is_read_is_the_word()
    ensures { ReadIsEscaped }
{}
