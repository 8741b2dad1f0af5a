//! How many readings of a slice stand before an instant: a part of the slice in which it belongs is found first, near where it
//! is expected, and searched then.

ghost use Rattle.std.specs.Prelude.{◌≡◌, ◌<◌, ◌≤◌, length, take, drop};
ghost use Rattle.readings.specs.Readings.{IsRising, before_instant, from_instant};

use crate::halves::Halves;
use fixed_units::{Reading, Second};

/// A slice of at most so many readings is searched as a whole, which takes no longer than a division and a look about.
const SHORT: usize = 1_000;

/// How many readings of a slice stand before an instant: searched about the place that it would have if they lay at even steps.
pub(crate) fn count_before(list: &[Reading], at: Second) -> usize
    requires { IsRising list.now }
    ensures within { result ≤ length list.now }
    ensures front { take result list.now ≡ before_instant at list.now }
    ensures back { drop result list.now ≡ from_instant at list.now }
{
    if list.len() <= SHORT {
        return rising::count_before(list, at);
    }
    let (from, to) = stretch_about(list, even_place(list, at), at);
    count_within(list, from, to, at)
}

/// How many readings of a slice stand before an instant: a front of eight, doubled until the instant belongs in it, is searched.
pub(crate) fn count_few_before(list: &[Reading], at: Second) -> usize
    requires { IsRising list.now }
    ensures within { result ≤ length list.now }
    ensures front { take result list.now ≡ before_instant at list.now }
    ensures back { drop result list.now ≡ from_instant at list.now }
{
    let mut end = 8;
    while end < list.len() && list[end].at.get() <= at.get() {
        end *= 2;
    }
    count_within(list, 0, end.min(list.len()), at)
}

/// How many readings of a slice stand before an instant, which likely belongs from one place to another: these are searched
/// if it does.
#[tactic(auto, using(crate::proofs::HalvesLemmas::front_right, crate::proofs::HalvesLemmas::back_right, crate::proofs::HalvesLemmas::front_left, crate::proofs::HalvesLemmas::back_left))]
fn count_within(list: &[Reading], from: usize, to: usize, at: Second) -> usize
    requires places { (from ≤ to) × (to ≤ length list.now) }
    requires rising { IsRising list.now }
    ensures within { result ≤ length list.now }
    ensures front { take result list.now ≡ before_instant at list.now }
    ensures back { drop result list.now ≡ from_instant at list.now }
{
    let (front, late) = list.split_at(to);
    let ends = Halves {
        left: front,
        right: late,
    };
    if ends.is_on_right(at) {
        return to + rising::count_before(late, at);
    }
    let (early, near) = front.split_at(from);
    let begins = Halves {
        left: early,
        right: near,
    };
    if begins.is_on_right(at) {
        from + rising::count_before(near, at)
    } else {
        rising::count_before(early, at)
    }
}

/// The place that an instant would have if the readings of a slice lay at even steps.
fn even_place(list: &[Reading], at: Second) -> usize
    ensures { result ≤ length list.now }
{
    let (Some(first), Some(last)) = (list.first(), list.last()) else {
        return 0;
    };
    let (first, last, at) = (first.at.get(), last.at.get(), at.get());
    if at <= first {
        return 0;
    }
    if last < at {
        return list.len();
    }
    let steps = (at - first) as u64;
    let place = steps.saturating_mul(list.len() as u64) / (last - first) as u64;
    (place as usize).min(list.len())
}

/// A stretch of a slice about a place in which an instant belongs, if the slice rises.
fn stretch_about(list: &[Reading], place: usize, at: Second) -> (usize, usize)
    requires { place ≤ length list.now }
    ensures { (result.0 ≤ result.1) × (result.1 ≤ length list.now) }
{
    let mut reach = 8;
    while reach < list.len() && !belongs(list, place, reach, at) {
        reach *= 4;
    }
    (
        place.saturating_sub(reach),
        list.len().min(place.saturating_add(reach)),
    )
}

/// Whether an instant belongs no farther than so many readings from a place, if the slice rises.
fn belongs(list: &[Reading], place: usize, reach: usize, at: Second) -> bool
    requires { (place ≤ length list.now) × (0 < reach) × (reach ≤ length list.now) }
{
    let from = place.saturating_sub(reach);
    let to = place + reach;
    (from == 0 || list[from].at <= at) && (list.len() <= to || at < list[to].at)
}
