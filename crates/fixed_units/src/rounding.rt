//! Division that rounds to the nearest whole number.

ghost use Rattle.std.specs.Prelude.{◌≡◌, ◌+◌, ◌*◌, ◌/◌, ◌^◌, ◌<◌, ◌≤◌, ℤ, pos, neg_ℤ, ◌≤ℤ◌, ◌<ℤ◌, unsigned_abs};
ghost use Rattle.fixed_units.specs.Rounding.{IsRounded, round};

/// Whole numbers up to it are numbers of floating point.
const GREATEST_EXACT: u64 = 1 << 53;

/// From this number of floating point on, 2^52, the next one is greater by 1: its fraction counts from it in ones.
const WHOLE_NUMBERS_BEGIN: f64 = 4_503_599_627_370_496.0;

/// The lowest bits of that fraction, which are all that is taken: a number below 2^31, whose product with twice a `den` of at most 2^31 is
/// below 2^63.
const LOW_BITS: u64 = (1 << 31) - 1;

/// The whole number nearest to `num / den`, of two equally near the one farther from zero. `num` is
/// at most 10^37 either way, and `den` is above 0.
pub fn div_half_away(num: i128, den: i128) -> i128
    requires positive { pos 0 <ℤ den }
    requires low { neg_ℤ (pos (10 ^ 37)) ≤ℤ num }
    requires high { num ≤ℤ pos (10 ^ 37) }
    ensures nearest { IsRounded num den result }
    ensures value { result ≡ round num den }
{
    let magnitude = magnitude(num, den);
    if num < 0 {
        -(magnitude as i128)
    } else {
        magnitude as i128
    }
}

/// The same number where `num` is at most 2^62 either way and `den` at most 2^31: by numbers of 64 bits.
#[inline(always)]
pub(crate) fn div_small(num: i64, den: i64) -> i64
    requires positive { pos 0 <ℤ den }
    requires narrow { den ≤ℤ pos (2 ^ 31) }
    requires low { neg_ℤ (pos (2 ^ 62)) ≤ℤ num }
    requires high { num ≤ℤ pos (2 ^ 62) }
    ensures { result ≡ round num den }
{
    let magnitude = small_magnitude(num.unsigned_abs(), den as u64);
    if num < 0 {
        -(magnitude as i64)
    } else {
        magnitude as i64
    }
}

/// The whole number nearest to a small quotient, of two equally near the greater one. A number near to it is tried first.
fn small_magnitude(num: u64, den: u64) -> u64
    requires positive { 0 < den }
    requires narrow { den ≤ 2 ^ 31 }
    requires small { num ≤ 2 ^ 62 }
    ensures value { result ≡ (2 * num + den) / (2 * den) }
    ensures within { result ≤ num }
{
    let tried = near_quotient(num, den);
    let twice = 2 * num + den;
    let whole = 2 * den;
    let back = tried * whole;
    if back <= twice && twice - back < whole {
        tried
    } else {
        twice / whole
    }
}

/// A number near to `num / den`, by one division of floating point, which processors do faster than one of whole numbers of 64 bits.
/// Nothing is promised of it but that it is below 2^31, so it must be tested: it is 0 for a `num` above 2^53 and for 0 / 0, and far off for
/// a quotient of 2^31 or more. Signed numbers of 64 bits are made doubles in one step, and both are small enough.
fn near_quotient(num: u64, den: u64) -> u64
    requires { den ≤ 2 ^ 31 }
    ensures { result < 2 ^ 31 }
{
    if num > GREATEST_EXACT {
        return 0;
    }
    let quotient = (num as i64) as f64 / (den as i64) as f64;
    let shifted = quotient + WHOLE_NUMBERS_BEGIN;
    if shifted != shifted {
        return 0;
    }
    shifted.to_bits() & LOW_BITS
}

/// How far that number is from zero.
fn magnitude(num: i128, den: i128) -> u128
    requires positive { pos 0 <ℤ den }
    requires low { neg_ℤ (pos (10 ^ 37)) ≤ℤ num }
    requires high { num ≤ℤ pos (10 ^ 37) }
    ensures value { result ≡ (2 * unsigned_abs num + unsigned_abs den) / (2 * unsigned_abs den) }
    ensures small { result ≤ 10 ^ 37 }
{
    round_up(num.unsigned_abs(), den.unsigned_abs())
}

/// The whole number nearest to `num / den`, of two equally near the greater one.
fn round_up(num: u128, den: u128) -> u128
    requires positive { 0 < den }
    requires small { num ≤ 10 ^ 37 }
    requires narrow { den < 2 ^ 127 }
    ensures { result ≡ (2 * num + den) / (2 * den) }
{
    (2 * num + den) / (2 * den)
}

/// No two numbers are nearest to one quotient.
pub fn rounding_is_unique()
    ensures { (n d q p : ℤ) → pos 0 <ℤ d → IsRounded n d q → IsRounded n d p → q ≡ p }
{}

/// Each quotient has a nearest whole number, which is what `round` computes.
pub fn round_is_rounded()
    ensures { (n d : ℤ) → pos 0 <ℤ d → IsRounded n d (round n d) }
{}
