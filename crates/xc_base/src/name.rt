// Keys and values. Their bytes lie inline, so that an operation takes no memory of its own.
ghost use Rattle.std.specs.Prelude.{◌≡◌, IsTrue, IfOk, true, not, length, bytes_eq, Some, refl};
ghost use Rattle.std.specs.Cmp.{partial_equiv_from_equiv};
ghost use Rattle.std.specs.Cmp.Lexicographic.{slice_cmp, nat_list_eq_equiv, nat_list_cmp_total, texts_ties, texts_po};
ghost use Rattle.std.specs.Ordering.{nat_cmp};
ghost use Rattle.std.specs.Result.{result_err};
ghost use Rattle.xc_base.specs.Names.{within, are_bytes, is_plain, is_key, is_value, in_alphabet, name_fault};
ghost use Rattle.xc_base.specs.Names.{key_fault, value_fault, length_fault};
ghost use Rattle.xc_base.specs.Escapes.{wrong_place, escaped, unescaped, word_fault};
ghost use Rattle.std.specs.List.{position_or_len, list_all};

use crate::limits::{KEY_BYTES, VALUE_BYTES};
use crate::words::order;
use std::cmp::Ordering;
use std::marker::Model;

/// A key: 1 to 32 bytes. Keys are ordered by their bytes.
#[derive(Clone, Copy, Debug)]
pub struct Key {
    len: u8,
    bytes: [u8; KEY_BYTES],
}

impl Model for Key {
    ghost use Rattle.std.specs.Prelude.{ℕ, List, take, length};
    ghost use Rattle.xc_base.specs.Padded.{padded, length-front, padded-front};
    ghost use Rattle.xc_base.specs.Names.{IsKeyIn};
    ghost use Rattle.xc_base.specs.declared.limits.TheConstants.{KEY_BYTES};

    ghost Value = { List ℕ };

    ghost view = { λ k. take k.len k.bytes };

    ghost invariant = { λ k. IsKeyIn k.len k.bytes };

    ghost inverse = { λ d. record { len = length d; bytes = padded KEY_BYTES d } };

    ghost inverse_ok = { λ k h i. record {
      len = length-front KEY_BYTES k.len k.bytes h.padded i;
      bytes = padded-front KEY_BYTES k.len k.bytes h.padded i;
    } };
}

/// Why bytes are no key or no value.
#[derive(Clone, Copy, PartialEq, Eq, Debug)]
pub enum BadName {
    /// The number of bytes, where it is out of the limits. Of bytes it is looked at first, of a word last.
    Length(usize),
    /// The place of the first byte outside the alphabet, counted from 0; of a word, the first place where neither a
    /// byte of the alphabet nor the escape of another byte begins.
    Byte(usize),
}

// Each byte of the alphabet stands at its own place, and a comma at every other place.
static ALPHABET: [u8; 256] = *b"\
    ,,,,,,,,,,,,,,,,,,,,,,,,,,,,,,,,\
    ,,,,,,,,,,,,,-./0123456789:,,,,,\
    ,ABCDEFGHIJKLMNOPQRSTUVWXYZ,,,,_\
    ,abcdefghijklmnopqrstuvwxyz,,,,,\
    ,,,,,,,,,,,,,,,,,,,,,,,,,,,,,,,,\
    ,,,,,,,,,,,,,,,,,,,,,,,,,,,,,,,,\
    ,,,,,,,,,,,,,,,,,,,,,,,,,,,,,,,,\
    ,,,,,,,,,,,,,,,,,,,,,,,,,,,,,,,,";

/// Whether a byte is plain: a letter, a digit or one of `_ . - / :`.
#[inline(always)]
pub fn in_alphabet(byte: u8) -> bool
    ensures { result ≡ in_alphabet byte }
{
    ALPHABET[byte as usize] != b','
}

// The place of the first byte outside the alphabet, or the length.
fn first_bad(bytes: &[u8]) -> usize
    ensures { result ≡ position_or_len (λ byte. not (in_alphabet byte)) bytes.now }
{
    for (i, byte) in bytes.iter().enumerate() {
        if !in_alphabet(*byte) {
            return i;
        }
    }
    bytes.len()
}

/// Whether all bytes are plain: each a letter, a digit or one of `_ . - / :`.
#[inline]
pub fn is_plain(bytes: &[u8]) -> bool
    ensures { result ≡ is_plain bytes.now }
{
    bytes.iter().all(|byte| in_alphabet(*byte))
}

// What a slice of bytes holds is bytes.
#[inline]
pub(crate) fn are_bytes(bytes: &[u8])
    ensures { are_bytes bytes.now ≡ true }
{
    let _bytes = bytes;
}

/// Whether bytes are a key, which their number alone decides.
#[inline]
pub fn is_key(bytes: &[u8]) -> bool
    ensures key { result ≡ is_key bytes.now }
    ensures length { result ≡ within 1 KEY_BYTES (length bytes.now) }
{
    are_bytes(bytes);
    !bytes.is_empty() && bytes.len() <= KEY_BYTES
}

/// Whether bytes are a value, which their number alone decides.
#[inline]
pub fn is_value(bytes: &[u8]) -> bool
    ensures value { result ≡ is_value bytes.now }
    ensures length { result ≡ within 0 VALUE_BYTES (length bytes.now) }
{
    are_bytes(bytes);
    bytes.len() <= VALUE_BYTES
}

// Whether bytes are plain and of a length within the limits, and else what is wrong with them.
fn check_name(bytes: &[u8], least: usize, most: usize) -> Result<(), BadName>
    ensures { result_err result ≡ name_fault least most bytes.now }
{
    if bytes.len() < least || most < bytes.len() {
        return Err(BadName::Length(bytes.len()));
    }
    let place = first_bad(bytes);
    if place < bytes.len() {
        return Err(BadName::Byte(place));
    }
    Ok(())
}

impl Key {
    /// The key of these plain bytes. `Length` comes exactly where there are none or more than 32, and else `Byte`
    /// exactly where a byte is outside the alphabet.
    pub fn new(bytes: &[u8]) -> Result<Key, BadName>
        ensures key { IfOk result (λ key. key ≡ bytes.now) }
        ensures fault { result_err result ≡ key_fault bytes.now }
    {
        check_name(bytes, 1, KEY_BYTES)?;
        Ok(Key::of(bytes))
    }

    /// The key of any bytes. `Length` comes exactly where [`Key::new`] answers it, and `Byte` never.
    pub fn any(bytes: &[u8]) -> Result<Key, BadName>
        ensures key { IfOk result (λ key. key ≡ bytes.now) }
        ensures fault { result_err result ≡ length_fault 1 KEY_BYTES bytes.now }
    {
        if !is_key(bytes) {
            return Err(BadName::Length(bytes.len()));
        }
        Ok(Key::of(bytes))
    }

    /// Whether all bytes are plain: each a letter, a digit or one of `_ . - / :`.
    pub fn plain(&self) -> bool
        ensures { result ≡ is_plain self.now }
    {
        is_plain(self.bytes())
    }

    /// The key of these bytes, where [`is_key`] says that they are one.
    pub fn of(bytes: &[u8]) -> Key
        requires { is_key bytes.now ≡ true }
        ensures { result ≡ bytes.now }
    {
        let mut buffer = [0u8; KEY_BYTES];
        buffer[..bytes.len()].copy_from_slice(bytes);
        Key {
            len: bytes.len() as u8,
            bytes: buffer,
        }
    }

    /// The bytes that it was made of.
    pub fn bytes(&self) -> &[u8]
        ensures bytes { result.now ≡ self.now }
        ensures key { IsTrue (is_key self.now) }
    {
        &self.bytes[..self.len as usize]
    }
}

impl PartialEq for Key {
    ghost eq = { bytes_eq };

    ghost laws = { partial_equiv_from_equiv nat_list_eq_equiv };

    #[inline]
    fn eq(&self, other: &Key) -> bool {
        self.len == other.len && self.bytes == other.bytes
    }
}

impl Eq for Key {
    ghost laws = { nat_list_eq_equiv };
}

impl PartialOrd for Key {
    ghost partial_cmp = { λ x y. Some (slice_cmp nat_cmp x y) };

    ghost laws = { texts_po };

    fn partial_cmp(&self, other: &Key) -> Option<Ordering> {
        Some(self.cmp(other))
    }
}

impl Ord for Key {
    ghost cmp = { slice_cmp nat_cmp };

    ghost total = { nat_list_cmp_total };

    ghost matches_partial_cmp = { λ x y. refl };

    ghost matches_eq = { texts_ties };

    // Zeros behind the shorter key don't tell it from one that has them, and then the length does.
    #[inline]
    fn cmp(&self, other: &Key) -> Ordering {
        match order(&self.bytes, &other.bytes) {
            Ordering::Equal => self.len.cmp(&other.len),
            unequal => unequal,
        }
    }
}

/// A value: 0 to 64 bytes.
#[derive(Clone, Copy, PartialEq, Eq, Debug)]
pub struct Value {
    len: u8,
    bytes: [u8; VALUE_BYTES],
}

impl Model for Value {
    ghost use Rattle.std.specs.Prelude.{ℕ, List, take, length};
    ghost use Rattle.xc_base.specs.Padded.{padded, length-front, padded-front};
    ghost use Rattle.xc_base.specs.Names.{IsValueIn};
    ghost use Rattle.xc_base.specs.declared.limits.TheConstants.{VALUE_BYTES};

    ghost Value = { List ℕ };

    ghost view = { λ k. take k.len k.bytes };

    ghost invariant = { λ k. IsValueIn k.len k.bytes };

    ghost inverse = { λ d. record { len = length d; bytes = padded VALUE_BYTES d } };

    ghost inverse_ok = { λ k h i. record {
      len = length-front VALUE_BYTES k.len k.bytes h.padded i;
      bytes = padded-front VALUE_BYTES k.len k.bytes h.padded i;
    } };
}

impl Value {
    /// The value of these plain bytes. `Length` comes exactly where there are more than 64, and else `Byte` exactly
    /// where a byte is outside the alphabet.
    pub fn new(bytes: &[u8]) -> Result<Value, BadName>
        ensures value { IfOk result (λ value. value ≡ bytes.now) }
        ensures fault { result_err result ≡ value_fault bytes.now }
    {
        check_name(bytes, 0, VALUE_BYTES)?;
        Ok(Value::of(bytes))
    }

    /// The value of any bytes. `Length` comes exactly where [`Value::new`] answers it, and `Byte` never.
    pub fn any(bytes: &[u8]) -> Result<Value, BadName>
        ensures value { IfOk result (λ value. value ≡ bytes.now) }
        ensures fault { result_err result ≡ length_fault 0 VALUE_BYTES bytes.now }
    {
        if !is_value(bytes) {
            return Err(BadName::Length(bytes.len()));
        }
        Ok(Value::of(bytes))
    }

    /// Whether all bytes are plain: each a letter, a digit or one of `_ . - / :`.
    pub fn plain(&self) -> bool
        ensures { result ≡ is_plain self.now }
    {
        is_plain(self.bytes())
    }

    /// The value of these bytes, where [`is_value`] says that they are one.
    pub fn of(bytes: &[u8]) -> Value
        requires { is_value bytes.now ≡ true }
        ensures { result ≡ bytes.now }
    {
        let mut buffer = [0u8; VALUE_BYTES];
        buffer[..bytes.len()].copy_from_slice(bytes);
        Value {
            len: bytes.len() as u8,
            bytes: buffer,
        }
    }

    /// The bytes that it was made of.
    pub fn bytes(&self) -> &[u8]
        ensures bytes { result.now ≡ self.now }
        ensures value { IsTrue (is_value self.now) }
    {
        &self.bytes[..self.len as usize]
    }
}
