// Bytes that are cut at a separator.
ghost use Rattle.std.specs.Prelude.{◌≡◌, ◌<◌, ◌==◌, [], ◌∷◌, length, is_some, IfSome, MatchOption, MatchResult};
ghost use Rattle.std.specs.Prelude.{count_by, take, slice_index, ◌+◌, ◌^◌, ◌≤◌, Some, None, true, false};
ghost use Rattle.std.specs.List.{position_or_len, before_first, after_first, list_any};
ghost use Rattle.std.specs.Option.{option_map_or, option_copied};
ghost use Rattle.xc_base.specs.Words.{split_on};
ghost use Rattle.xc_record.specs.Hash.{hash_of};
ghost use Rattle.xc_text.specs.Lines.{number, first_number, only_number, sub_of, is_over, op_is_named, kind_of};
ghost use Rattle.xc_text.specs.Verbs.{verb_word};
ghost use Rattle.xc_text.specs.declared.line.Version.{Version};
ghost use Rattle.xc_text.specs.Printed.{op_by, op_spelled};
ghost use Rattle.xc_text.specs.declared.line.Version.TheVariants.{One};
ghost use Rattle.std.specs.Str.{all_ascii_digits};
ghost use Rattle.std.specs.Str.Parse.{digits_value};
ghost use Rattle.xc_text.specs.declared.kind.LogKind.TheVariants.{Form};
ghost use Rattle.xc_text.specs.declared.kind.Fail.TheVariants.{Bad};

use crate::kind::{Fail, LogKind};
use crate::plain_op::{PlainOp, plain_op};
use crate::verb::{Verb, quick_verb};
use memchr::memchr;
use std::marker::Model;
use xc_base::{NumberFail, read_number};

// The place of the first byte that is the separator, or the length. Words are short, so it goes byte by byte.
#[inline(always)]
fn first_place(bytes: &[u8], separator: u8) -> usize
    ensures { result ≡ position_or_len (λ b. b == separator) bytes.now }
{
    for (i, byte) in bytes.iter().enumerate() {
        if *byte == separator {
            return i;
        }
    }
    bytes.len()
}

// What stands before the first separator, and what stands after it where there is one.
#[inline(always)]
pub(crate) fn cut(bytes: &[u8], separator: u8) -> (&[u8], Option<&[u8]>)
    ensures pieces { split_on separator bytes.now
        ≡ result.0.now ∷ option_map_or (λ rest. split_on separator rest.now) result.1 [] }
    ensures found { is_some result.1 ≡ list_any (λ b. b == separator) bytes.now }
    ensures before { result.0.now ≡ before_first (λ b. b == separator) bytes.now }
    ensures after { IfSome result.1 (λ rest. rest.now ≡ after_first (λ b. b == separator) bytes.now) }
{
    let place = first_place(bytes, separator);
    if place < bytes.len() {
        (&bytes[..place], Some(&bytes[place + 1..]))
    } else {
        (bytes, None)
    }
}

// The first line of a text without the byte that ends it, and what stands after that byte where there is one.
#[inline(always)]
pub(crate) fn cut_line(text: &[u8]) -> (&[u8], Option<&[u8]>)
    ensures pieces { split_on 10 text.now ≡ result.0.now ∷ option_map_or (λ rest. split_on 10 rest.now) result.1 [] }
    ensures shorter { IfSome result.1 (λ rest. length rest.now < length text.now) }
{
    match memchr(b'\n', text) {
        Some(end) => (&text[..end], Some(&text[end + 1..])),
        None => (text, None),
    }
}

// The words of a line that are left.
#[derive(Drop)]
pub(crate) struct Words<'a> {
    rest: Option<&'a [u8]>,
}

impl<'a> Model for Words<'a> {
    ghost use Rattle.std.specs.Prelude.{ℕ, List, []};
    ghost use Rattle.std.specs.Option.{option_map_or};
    ghost use Rattle.xc_base.specs.Words.{split_on};

    ghost Value = { List (List ℕ) };

    ghost view = { λ w. option_map_or (λ rest. split_on 32 rest.now) w.rest [] };
}

impl<'a> Words<'a> {
    #[inline(always)]
    pub(crate) fn of(line: &'a [u8]) -> Words<'a>
        ensures { result ≡ split_on 32 line.now }
    {
        Words { rest: Some(line) }
    }

    // The next word.
    #[inline(always)]
    pub(crate) fn next(&mut self) -> Option<&'a [u8]>
        ensures { MatchOption result ((self.old ≡ []) × (self.new ≡ [])) (λ word. self.old ≡ word.now ∷ self.new) }
    {
        let rest = self.rest?;
        let (word, after) = cut(rest, b' ');
        self.rest = after;
        Some(word)
    }

    // The next word, where it is an operation of plain names.
    #[inline(always)]
    pub(crate) fn plain_op(&mut self) -> Option<PlainOp<'a>>
        ensures cut { MatchOption result (self.new ≡ self.old)
            (λ op. self.old ≡ op_by op.key.now (option_copied op.value) ∷ self.new) }
        ensures named { IfSome result
            (λ op. op_is_named (record { key = op.key.now; value = option_copied op.value }) ≡ true) }
        ensures plain { IfSome result
            (λ op. op_spelled One (record { key = op.key.now; value = option_copied op.value }) ≡ true) }
        ensures hash { IfSome result (λ op. op.hash ≡ hash_of op.key.now) }
    {
        let (op, after) = plain_op(self.rest?)?;
        self.rest = after;
        Some(op)
    }

    // The verb that the next word is.
    #[tactic(auto, unfolding(crate::specs::Lines::kind_of))]
    #[inline(always)]
    pub(crate) fn verb(&mut self) -> Option<Verb>
        ensures { MatchOption result ((version : Version) → kind_of version self.old ≡ None)
            (λ verb. self.old ≡ verb_word verb ∷ self.new) }
    {
        let Some(rest) = self.rest else {
            return None;
        };
        match quick_verb(rest) {
            Some((verb, after)) => {
                self.rest = Some(after);
                Some(verb)
            }
            None => self.any_verb(),
        }
    }

    // The verb that the next word is, whatever stands behind it.
    #[tactic(auto, unfolding(crate::specs::Lines::kind_of))]
    #[inline(never)]
    fn any_verb(&mut self) -> Option<Verb>
        ensures { MatchOption result ((version : Version) → kind_of version self.old ≡ None)
            (λ verb. self.old ≡ verb_word verb ∷ self.new) }
    {
        let Some(word) = self.next() else {
            return None;
        };
        if word == b"write".as_slice() {
            Some(Verb::Write)
        } else if word == b"intent".as_slice() {
            Some(Verb::Intent)
        } else if word == b"apply".as_slice() {
            Some(Verb::Apply)
        } else if word == b"abort".as_slice() {
            Some(Verb::Abort)
        } else if word == b"safe".as_slice() {
            Some(Verb::Safe)
        } else if word == b"split".as_slice() {
            Some(Verb::Split)
        } else {
            None
        }
    }

    // The number that the next word spells, where it is found at once.
    #[inline(always)]
    pub(crate) fn quick_number(&mut self) -> Option<u64>
        ensures { MatchOption result (self.new ≡ self.old) (λ n. first_number self.old ≡ Some (n, self.new)) }
    {
        let (value, after) = short_number(self.rest?)?;
        self.rest = after;
        Some(value)
    }

    // The number that the next word spells.
    #[inline(always)]
    pub(crate) fn number(&mut self) -> Result<u64, Fail>
        ensures { MatchResult result (λ n. first_number self.old ≡ Some (n, self.new)) (λ e. (e ≡ Bad Form)
            × (first_number self.old ≡ None)) }
    {
        match self.quick_number() {
            Some(value) => Ok(value),
            None => self.any_number(),
        }
    }

    // The number that the next word spells, whatever the word.
    #[inline(never)]
    fn any_number(&mut self) -> Result<u64, Fail>
        ensures { MatchResult result (λ n. first_number self.old ≡ Some (n, self.new)) (λ e. (e ≡ Bad Form)
            × (first_number self.old ≡ None)) }
    {
        match self.next() {
            Some(word) => number(word),
            None => Err(Fail::Bad(LogKind::Form)),
        }
    }

    // The number that the only word left spells.
    #[inline(always)]
    pub(crate) fn only_number(&mut self) -> Result<u64, Fail>
        ensures { MatchResult result (λ n. only_number self.old ≡ Some n) (λ e. (e ≡ Bad Form)
            × (only_number self.old ≡ None)) }
    {
        let value = self.number()?;
        self.end()?;
        Ok(value)
    }

    // The number of the subtransaction that the next two words name, or 0 where the next word isn't `sub`.
    #[inline(always)]
    pub(crate) fn sub(&mut self) -> Result<u64, Fail>
        ensures { MatchResult result (λ n. sub_of self.old ≡ Some (n, self.new)) (λ e. (e ≡ Bad Form)
            × (sub_of self.old ≡ None)) }
    {
        match self.rest {
            Some([b's', ..]) => self.named_sub(),
            _ => Ok(0),
        }
    }

    // The same, whatever the next word.
    #[inline(never)]
    fn named_sub(&mut self) -> Result<u64, Fail>
        ensures { MatchResult result (λ n. sub_of self.old ≡ Some (n, self.new)) (λ e. (e ≡ Bad Form)
            × (sub_of self.old ≡ None)) }
    {
        let Some(rest) = self.rest else {
            return Ok(0);
        };
        let (word, after) = cut(rest, b' ');
        if word != b"sub".as_slice() {
            return Ok(0);
        }
        self.rest = after;
        let sub = self.number()?;
        if sub == 0 {
            return Ok(65);
        }
        Ok(sub)
    }

    // Whether no word is left.
    #[inline(always)]
    pub(crate) fn end(&self) -> Result<(), Fail>
        ensures { MatchResult result (λ _. is_over self.now ≡ true) (λ e. (e ≡ Bad Form) × (is_over self.now ≡ false)) }
    {
        match self.rest {
            None => Ok(()),
            Some(_) => Err(Fail::Bad(LogKind::Form)),
        }
    }
}

// The digits that bytes begin with, but for those behind the first 19: the number that they spell, and how many they
// are.
#[inline(always)]
fn leading_digits(bytes: &[u8]) -> (u64, usize)
    ensures within { result.1 ≤ length bytes.now }
    ensures digits { all_ascii_digits (take result.1 bytes.now) ≡ true }
    ensures spells { digits_value 10 (take result.1 bytes.now) ≡ result.0 }
    ensures fits { result.0 < 2 ^ 64 }
{
    let mut value = 0u64;
    let mut len = 0;
    while len < bytes.len() && len < 19 && bytes[len].is_ascii_digit() {
        value = 10 * value + u64::from(bytes[len] - b'0');
        len += 1;
    }
    (value, len)
}

// Whether so many digits at the front are one at least, and the first of several is no zero.
#[inline(always)]
fn is_plain(bytes: &[u8], len: usize) -> bool
    requires { len ≤ length bytes.now }
    ensures { result ≡ true → (0 < len) × (slice_index bytes.now 0 ≡ 48 → len ≤ 1) }
{
    len > 0 && (len == 1 || bytes[0] != b'0')
}

// The number that the first word spells, and what stands after the word. None comes where the word isn't digits, has a
// leading zero, or is longer than 19 digits.
#[inline(always)]
fn short_number(bytes: &[u8]) -> Option<(u64, Option<&[u8]>)>
    ensures { IfSome result (λ r. first_number (split_on 32 bytes.now)
        ≡ Some (r.0, option_map_or (λ rest. split_on 32 rest.now) r.1 [])) }
{
    let (value, len) = leading_digits(bytes);
    if !is_plain(bytes, len) {
        return None;
    }
    if len == bytes.len() {
        return Some((value, None));
    }
    if bytes[len] != b' ' {
        return None;
    }
    Some((value, Some(&bytes[len + 1..])))
}

// The number that a word spells. One past 64 bits gives the greatest of 64 bits, which is out of the range of every
// place.
#[tactic(auto, unfolding(crate::specs::Lines::number))]
pub(crate) fn number(word: &[u8]) -> Result<u64, Fail>
    ensures { MatchResult result (λ n. number word.now ≡ Some n) (λ e. (e ≡ Bad Form) × (number word.now ≡ None)) }
{
    match read_number(word, u64::MAX) {
        Ok(value) => Ok(value),
        Err(NumberFail::TooLarge) => Ok(u64::MAX),
        Err(NumberFail::Spelling) => Err(Fail::Bad(LogKind::Form)),
    }
}
