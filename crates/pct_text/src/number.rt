//! Numbers of 32 bits in decimal: numerals, which may have leading zeros, and numbers, which have none.

ghost use Rattle.std.specs.Prelude.{◌≡◌};
ghost use Rattle.std.specs.Option.{option_map};
ghost use Rattle.pct_model.specs.Names.{is_digit};
ghost use Rattle.pct_model.specs.Lines.{number_of};
ghost use Rattle.pct_model.specs.LineParsing.{numeral};
ghost use Rattle.pct_text.specs.FirstNumber.{split_number};
ghost use Rattle.pct_text.specs.Digits.{with_digit, value_from, numeral_in, with_next, number_in, split_number_in};

/// The most digits of a numeral.
const MAX_DIGITS: usize = 10;

/// Whether the byte is a decimal digit.
pub fn is_digit(byte: u8) -> bool
    ensures { result ≡ is_digit byte }
{
    b'0' <= byte && byte <= b'9'
}

// The value with one more digit.
#[inline(always)]
#[tactic(auto, unfolding(crate::specs::Digits::with_digit))]
fn with_digit(value: u32, digit: u8) -> Option<u32>
    ensures { result ≡ with_digit value digit }
{
    if !is_digit(digit) {
        return None;
    }
    let next = u64::from(value) * 10 + u64::from(digit - b'0');
    if next <= u64::from(u32::MAX) {
        Some(next as u32)
    } else {
        None
    }
}

#[tactic(auto, unfolding(crate::specs::Digits::value_from))]
fn value_of(word: &[u8]) -> Option<u32>
    ensures { result ≡ value_from 0 word.now }
{
    let mut value = 0;
    for digit in word {
        value = with_digit(value, *digit)?;
    }
    Some(value)
}

#[tactic(auto, unfolding(crate::specs::Digits::numeral_in))]
fn numeral_in(word: &[u8]) -> Option<u32>
    ensures { result ≡ numeral_in word.now }
{
    if !word.is_empty() && word.len() <= MAX_DIGITS {
        value_of(word)
    } else {
        None
    }
}

/// The value of a numeral: 1 to 10 decimal digits, leading zeros included, with a value of at most 4294967295. Of any
/// other word it is `None`.
#[tactic(auto, using(crate::proofs::Numerals::numeral_as_read))]
pub fn numeral(word: &[u8]) -> Option<u32>
    ensures { result ≡ numeral word.now }
{
    numeral_in(word)
}

// The value with one more digit, where no leading zero is allowed.
#[inline(always)]
#[tactic(auto, unfolding(crate::specs::Digits::with_next))]
fn with_next(value: u32, digit: u8) -> Option<u32>
    ensures { result ≡ with_next value digit }
{
    if value == 0 {
        None
    } else {
        with_digit(value, digit)
    }
}

#[tactic(auto, unfolding(crate::specs::Digits::number_in, crate::specs::Digits::number_from))]
fn number_in(word: &[u8]) -> Option<u32>
    ensures { result ≡ number_in word.now }
{
    let (first, rest) = word.split_first()?;
    let mut value = with_digit(0, *first)?;
    for digit in rest {
        value = with_next(value, *digit)?;
    }
    Some(value)
}

/// The number of 32 bits whose decimal text is exactly this word, so without leading zeros. Of any other word it is
/// `None`.
#[tactic(auto, using(crate::proofs::Numbers::number_as_read))]
pub fn number_of(word: &[u8]) -> Option<u32>
    ensures { result ≡ number_of word.now }
{
    number_in(word)
}

#[inline(always)]
#[tactic(auto, unfolding(crate::specs::Digits::split_number_in, crate::specs::Digits::number_until))]
fn split_number_in(bytes: &[u8]) -> Option<(u32, &[u8])>
    ensures { option_map (λ parts. (parts.0, parts.1.now)) result ≡ split_number_in bytes.now }
{
    let (first, rest) = bytes.split_first()?;
    let mut value = with_digit(0, *first)?;
    let mut rest = rest;
    while let Some((byte, after)) = rest.split_first() {
        if *byte == b' ' {
            return Some((value, after));
        }
        value = with_next(value, *byte)?;
        rest = after;
    }
    None
}

/// The number before the first space, and the bytes after that space. It is `None` where the bytes have no space, or
/// where the word before the first one is no number as `number_of` reads it.
#[inline(always)]
#[tactic(auto, using(crate::proofs::FirstNumbers::split_number_as_read))]
pub fn split_number(bytes: &[u8]) -> Option<(u32, &[u8])>
    ensures { option_map (λ parts. (parts.0, parts.1.now)) result ≡ split_number bytes.now }
{
    split_number_in(bytes)
}
