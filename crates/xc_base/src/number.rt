// Numbers in decimal, as the texts spell them.
ghost use Rattle.std.specs.Prelude.{◌≡◌, ◌≤◌, IsTrue, Some, None, length, if◌then◌else◌};
ghost use Rattle.std.specs.Str.{all_ascii_digits};
ghost use Rattle.std.specs.Str.Parse.{digits_value};
ghost use Rattle.xc_base.specs.Words.{number_within, within_most};

// Digits so many spell no number past 64 bits.
const SHORT: usize = 19;

/// Why a word is no number that is wanted.
#[derive(Clone, Copy, PartialEq, Eq, Debug)]
pub enum NumberFail {
    /// The word isn't `0`, nor digits without a leading zero.
    Spelling,
    /// The word spells a number, which is above the greatest that is wanted.
    TooLarge,
}

/// The number that a word spells in decimal, which is to be at most `max`. A word may have any length.
///
/// `Spelling` comes exactly where the word isn't `0` or digits without a leading zero, and `TooLarge` exactly where
/// it is, and spells a number above `max`.
pub fn read_number(word: &[u8], max: u64) -> Result<u64, NumberFail>
    ensures { result ≡ number_within max word.now }
{
    if word.is_empty() || (word[0] == b'0' && word.len() > 1) {
        return Err(NumberFail::Spelling);
    }
    if word.len() > SHORT {
        return long_within(word, max);
    }
    match short_value(word) {
        None => Err(NumberFail::Spelling),
        Some(value) if value <= max => Ok(value),
        Some(_) => Err(NumberFail::TooLarge),
    }
}

// The number that a short word of digits spells, and None where a byte is no digit.
fn short_value(word: &[u8]) -> Option<u64>
    requires { length word.now ≤ SHORT }
    ensures { result ≡ (if all_ascii_digits word.now then Some (digits_value 10 word.now) else None) }
{
    let mut value = 0u64;
    for byte in word {
        if !byte.is_ascii_digit() {
            return None;
        }
        value = 10 * value + u64::from(*byte - b'0');
    }
    Some(value)
}

// The number that a word of digits spells, within `max`.
fn long_within(word: &[u8], max: u64) -> Result<u64, NumberFail>
    ensures { result ≡ within_most max (if all_ascii_digits word.now then Some (digits_value 10 word.now) else None) }
{
    if !all_digits(word) {
        return Err(NumberFail::Spelling);
    }
    value_within(word, max)
}

fn all_digits(word: &[u8]) -> bool
    ensures { result ≡ all_ascii_digits word.now }
{
    for byte in word {
        if !byte.is_ascii_digit() {
            return false;
        }
    }
    true
}

// The number that digits spell. Digit by digit, since it may be past 64 bits.
fn value_within(digits: &[u8], max: u64) -> Result<u64, NumberFail>
    requires { IsTrue (all_ascii_digits digits.now) }
    ensures { result ≡ within_most max (Some (digits_value 10 digits.now)) }
{
    let mut value = 0u64;
    for byte in digits {
        let digit = u64::from(*byte - b'0');
        if max < digit || (max - digit) / 10 < value {
            return Err(NumberFail::TooLarge);
        }
        value = 10 * value + digit;
    }
    Ok(value)
}
