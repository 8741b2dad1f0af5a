//! Decimal texts of quantities.

ghost use Rattle.std.specs.Prelude.{◌≡◌, ◌+◌, ◌-◌, ◌*◌, ◌^◌, ◌<◌, ◌≤◌, ◌++◌, true, min, length};
ghost use Rattle.std.specs.List.{list_all, before_first, after_first};
ghost use Rattle.std.specs.Char.{is_ascii_digit};
ghost use Rattle.std.specs.Str.Parse.{digits_value, digits_value_after, without_leading_sign};
ghost use Rattle.fixed_units.specs.Decimals.{is_point, decimal_of};

use crate::quantities::Micro;
use thiserror::Error;

/// Why a text is no quantity.
#[derive(Clone, Copy, Debug, PartialEq, Eq, Error)]
pub enum Bad {
    /// The text is not a sign and digits with at most one point.
    #[error("the text is no number")]
    NotANumber,
    /// More than six digits follow the point.
    #[error("the number has more than six decimals")]
    TooManyDecimals,
    /// The magnitude is over 10,000,000.
    #[error("the number is out of range")]
    OutOfRange,
}

/// The greatest magnitude that a text may have, in millionths.
const GREATEST: u64 = 10_000_000_000_000;

/// The quantity that a decimal text states, exactly: a sign or none, then digits with at most one
/// point before, among or after them and at most six of them behind it, of a magnitude of at most
/// 10,000,000.
///
/// # Errors
///
/// The first fault of the text in the order of [`Bad`]'s variants.
#[inline(always)]
pub fn read_decimal(text: &[u8]) -> Result<Micro, Bad>
    ensures { result ≡ decimal_of text.now }
{
    let (whole, fraction) = parts(unsigned(text));
    if !are_digits(whole) || !are_digits(fraction) || whole.len() + fraction.len() == 0 {
        return Err(Bad::NotANumber);
    }
    if fraction.len() > 6 {
        return Err(Bad::TooManyDecimals);
    }
    let read = magnitude(whole, fraction);
    if read > GREATEST {
        return Err(Bad::OutOfRange);
    }
    Ok(Micro::of_magnitude(text.starts_with(b"-"), read))
}

/// The text without its sign.
fn unsigned(text: &[u8]) -> &[u8]
    ensures { result.now ≡ without_leading_sign text.now }
{
    match text {
        [b'+' | b'-', rest @ ..] => rest,
        _ => text,
    }
}

/// What stands before the first point and what stands after it.
fn parts(text: &[u8]) -> (&[u8], &[u8])
    ensures whole { result.0.now ≡ before_first is_point text.now }
    ensures fraction { result.1.now ≡ after_first is_point text.now }
{
    match memchr::memchr(b'.', text) {
        Some(point) => (&text[..point], &text[point + 1..]),
        None => (text, &text[text.len()..]),
    }
}

/// Whether each byte is a decimal digit.
pub(crate) fn are_digits(text: &[u8]) -> bool
    ensures { result ≡ list_all is_ascii_digit text.now }
{
    text.iter().all(u8::is_ascii_digit)
}

/// How many millionths the digits stand for, or any number over `GREATEST` where they stand for one.
fn magnitude(whole: &[u8], fraction: &[u8]) -> u64
    requires whole { list_all is_ascii_digit whole.now ≡ true }
    requires fraction { list_all is_ascii_digit fraction.now ≡ true }
    requires few { length fraction.now ≤ 6 }
    ensures { let exact = digits_value 10 (whole.now ++ fraction.now) * 10 ^ (6 - length fraction.now) in
        min (GREATEST + 1) result ≡ min (GREATEST + 1) exact }
{
    let digits = capped_value(capped_value(0, whole), fraction);
    digits * 10_u64.pow(6 - fraction.len() as u32)
}

/// The number that the digits write when they follow those of `before`, or `GREATEST + 1` where it is
/// more.
fn capped_value(before: u64, digits: &[u8]) -> u64
    requires digits { list_all is_ascii_digit digits.now ≡ true }
    requires small { before ≤ GREATEST + 1 }
    ensures { result ≡ min (GREATEST + 1) (digits_value_after 10 before digits.now) }
{
    let mut value = before;
    for digit in digits {
        value = (value * 10 + u64::from(*digit - b'0')).min(GREATEST + 1);
    }
    value
}
