//! The discharge of a stream by the midsection method: of each vertical, of all, and the share of each.

ghost use Rattle.std.specs.Prelude.{◌≡◌, ◌+◌, ◌^◌, ◌<◌, ◌≤◌, ◌*◌, length, take, drop, slice_get, All, Some, None, IfSome, pos, neg_ℤ, ◌+ℤ◌, ◌*ℤ◌, ◌≤ℤ◌, ◌<ℤ◌};
ghost use Rattle.fixed_units.specs.Quantities.{IsDischarge, IsWithin, most_millionths};
ghost use Rattle.fixed_units.specs.Rounding.{round};
ghost use Rattle.midsection.specs.Fractions.{half};
ghost use Rattle.midsection.specs.Midsection as midsection;
ghost use Rattle.midsection.specs.Midsection.{IsFlow, discharges, discharge_between, last_distance, next_distance, parts, share_at, share_of, told_share, width};
ghost use Rattle.midsection.specs.Notes.{most_verticals};
ghost use Rattle.midsection.specs.Verticals as verticals;
ghost use Rattle.midsection.specs.Verticals.{IsDistance, IsMean, IsVertical, most_depth, most_distance, most_velocity};

use crate::fractions::Fraction;
use crate::notes::Notes;
use crate::verticals::Vertical;
use fixed_units::{Micro, div_half_away};

/// So many millionths of a foot per second times millionths of a foot times millionths of a foot are a millionth of a cubic foot per second.
const PARTS: i128 = 1_000_000_000_000;

/// The greatest magnitude of a share, in hundredths of a percent.
const MOST_SHARE: u128 = 1_000_000_000_000_000;

/// The discharge of the vertical at a place, counted from 0: its velocity times its depth times its width, rounded once to a millionth of a
/// cubic foot per second, half away from zero (the midsection method). It takes no memory.
pub fn discharge(notes: &Notes, place: usize) -> Micro
    requires { place < length notes.now }
    ensures { slice_get (discharges notes.now) place ≡ Some result }
{
    discharge_among(notes.verticals(), place)
}

/// The discharge of the stream: the sum of the rounded discharges of the verticals, in millionths of a cubic foot per second. It takes no
/// memory.
pub fn total(notes: &Notes) -> Micro
    ensures value { result ≡ midsection.total notes.now }
    ensures range { IsDischarge result }
{
    // the proof learns here that the total is a discharge
    let _verticals = notes.verticals();
    notes.sum()
}

/// The share that the discharge of the vertical at a place is of the total, in hundredths of a percent, rounded half away from zero. `None`
/// exactly where the total is 0 or the share is above 10^15 either way. It takes no memory.
pub fn share(notes: &Notes, place: usize) -> Option<i64>
    requires { place < length notes.now }
    ensures { result ≡ share_at notes.now place }
{
    share_of(total(notes), discharge(notes, place))
}

/// The sum of the discharges of verticals.
pub(crate) fn sum_discharges(verticals: &[Vertical]) -> i64
    requires few { length verticals.now ≤ most_verticals }
    requires each { All IsVertical verticals.now }
    ensures { result ≡ midsection.total verticals.now }
{
    let mut sum = 0;
    for place in 0..verticals.len() {
        sum = plus(sum, discharge_among(verticals, place));
    }
    sum
}

/// A sum of discharges of verticals and one more.
fn plus(sum: i64, discharge: Micro) -> i64
    requires sum { IsWithin (neg_ℤ (pos (4 * 10 ^ 18))) (pos (4 * 10 ^ 18)) sum }
    requires discharge { IsFlow discharge }
    ensures { result ≡ sum +ℤ discharge }
{
    sum + discharge.get()
}

/// The discharge of the vertical at a place of these.
fn discharge_among(verticals: &[Vertical], place: usize) -> Micro
    requires place { place < length verticals.now }
    requires each { All IsVertical verticals.now }
    ensures value { slice_get (discharges verticals.now) place ≡ Some result }
    ensures range { IsFlow result }
{
    let before = distance_before(verticals, place);
    let after = distance_after(verticals, place);
    let vertical = &verticals[place];
    discharge_between(before, vertical, after)
}

/// The distance of the vertical before the one at a place, if there is one.
fn distance_before(verticals: &[Vertical], place: usize) -> Option<Micro>
    requires place { place < length verticals.now }
    requires each { All IsVertical verticals.now }
    ensures value { result ≡ last_distance None (take place verticals.now) }
    ensures range { IfSome result IsDistance }
{
    let previous = place.checked_sub(1)?;
    let vertical = &verticals[previous];
    Some(vertical.distance)
}

/// The distance of the vertical behind the one at a place, if there is one.
fn distance_after(verticals: &[Vertical], place: usize) -> Option<Micro>
    requires place { place < length verticals.now }
    requires each { All IsVertical verticals.now }
    ensures value { result ≡ next_distance (drop (place + 1) verticals.now) }
    ensures range { IfSome result IsDistance }
{
    Some(verticals.get(place + 1)?.distance)
}

/// The discharge of a vertical between its neighbours at these distances.
fn discharge_between(before: Option<Micro>, vertical: &Vertical, after: Option<Micro>) -> Micro
    requires vertical { IsVertical vertical.now }
    requires before { IfSome before IsDistance }
    requires after { IfSome after IsDistance }
    ensures value { result ≡ discharge_between before vertical.now after }
    ensures range { IsFlow result }
{
    let velocity = velocity(vertical);
    let width = twice_width(before, vertical.distance, after);
    divided(
        product(velocity.num, vertical.depth.get(), width),
        velocity.den,
    )
}

/// The mean velocity of a vertical.
fn velocity(vertical: &Vertical) -> Fraction
    requires { IsVertical vertical.now }
    ensures value { result ≡ verticals.velocity vertical.now }
    ensures range { IsMean result }
{
    vertical.velocity().unwrap_or(Fraction { num: 0, den: 1 })
}

/// Twice the width of a vertical at a distance, in millionths of a foot.
fn twice_width(before: Option<Micro>, distance: Micro, after: Option<Micro>) -> i64
    requires distance { IsDistance distance }
    requires before { IfSome before IsDistance }
    requires after { IfSome after IsDistance }
    ensures value { half result ≡ width before distance after }
    ensures low { neg_ℤ (pos most_distance) ≤ℤ result }
    ensures high { result ≤ℤ pos most_distance }
{
    after.unwrap_or(distance).get() - before.unwrap_or(distance).get()
}

/// The product of a velocity, a depth and a width.
fn product(velocity: i64, depth: i64, width: i64) -> i128
    requires slow { neg_ℤ (pos (4 * most_velocity)) ≤ℤ velocity }
    requires fast { velocity ≤ℤ pos (4 * most_velocity) }
    requires deep { IsWithin (pos 0) (pos most_depth) depth }
    requires low { neg_ℤ (pos most_distance) ≤ℤ width }
    requires high { width ≤ℤ pos most_distance }
    ensures value { result ≡ (velocity *ℤ depth) *ℤ width }
    ensures low { neg_ℤ (pos (4 * 10 ^ 28)) ≤ℤ result }
    ensures high { result ≤ℤ pos (4 * 10 ^ 28) }
{
    let fast = i128::from(velocity);
    let deep = i128::from(depth);
    let wide = i128::from(width);
    fast * deep * wide
}

/// A product of a velocity over `den`, a depth and twice a width, in millionths of a cubic foot per second.
fn divided(product: i128, den: i64) -> Micro
    requires some { pos 1 ≤ℤ den }
    requires few { den ≤ℤ pos 4 }
    requires low { neg_ℤ (pos (4 * 10 ^ 28)) ≤ℤ product }
    requires high { product ≤ℤ pos (4 * 10 ^ 28) }
    ensures value { result ≡ round product (((den *ℤ pos 1) *ℤ pos 2) *ℤ pos parts) }
    ensures range { IsFlow result }
{
    quantity(div_half_away(product, divisor(den)))
}

/// What such a product is divided by, which is twice the width's.
fn divisor(den: i64) -> i128
    requires some { pos 1 ≤ℤ den }
    requires few { den ≤ℤ pos 4 }
    ensures { result ≡ ((den *ℤ pos 1) *ℤ pos 2) *ℤ pos parts }
{
    i128::from(den) * (2 * PARTS)
}

/// A discharge of a vertical as a quantity.
fn quantity(millionths: i128) -> Micro
    requires { IsFlow millionths }
    ensures { result ≡ millionths }
{
    Micro::of_millionths(millionths as i64)
}

/// The share that a discharge is of a total.
fn share_of(total: Micro, discharge: Micro) -> Option<i64>
    requires { IsDischarge total }
    ensures { result ≡ share_of total discharge }
{
    if total.get() == 0 {
        return None;
    }
    told_share(rounded_share(total, discharge))
}

/// That share of a total that is not 0, rounded.
fn rounded_share(total: Micro, discharge: Micro) -> i128
    requires { pos 0 <ℤ total }
    ensures { result ≡ round (pos 10_000 *ℤ discharge) total }
{
    div_half_away(scaled(discharge), i128::from(total.get()))
}

/// A discharge in ten thousandths of a millionth.
fn scaled(discharge: Micro) -> i128
    ensures value { result ≡ pos 10_000 *ℤ discharge }
    ensures low { neg_ℤ (pos (10_000 * most_millionths)) ≤ℤ result }
    ensures high { result ≤ℤ pos (10_000 * most_millionths) }
{
    10_000 * i128::from(discharge.get())
}

/// A share, where it is not too great to be told.
fn told_share(share: i128) -> Option<i64>
    ensures { result ≡ told_share share }
{
    if MOST_SHARE < share.unsigned_abs() {
        None
    } else {
        Some(share as i64)
    }
}
