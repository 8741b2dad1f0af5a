//! How far readings bear on the window of a day, and what stands within that reach: found by walks from the day outward. The bounds
//! are numbers of seconds, as they may lie where no instant is.

ghost use Rattle.std.specs.Prelude.{◌≡◌, ◌*◌, pos, ◌+ℤ◌, ◌-ℤ◌, List};
ghost use Rattle.fixed_units.specs.declared.readings.Reading.{Reading};
ghost use Rattle.readings.specs.Halves.{joined};
ghost use Rattle.readings.specs.Reach.{lead_from, follow_until};
ghost use Rattle.readings.specs.Readings.{IsRising, before_instant, from_instant};
ghost use Rattle.readings.specs.Window.{neighbour_before, neighbour_after};

use crate::halves::Halves;
use fixed_units::{Reading, Second};

/// The last used reading of those before a day, if it is near enough; `gap` is in minutes.
pub(crate) fn neighbour_before(early: &Halves<'_>, a: Second, gap: u32) -> Option<Reading>
    requires { IsRising (joined early.now) }
    ensures { (readings : List Reading) → IsRising readings → joined early.now ≡ before_instant a readings → result ≡ neighbour_before a (pos (60 * gap)) readings }
{
    early.last_used_from(reach_before(a, gap))
}

/// The first used reading of those behind a day, if it is near enough; `gap` is in minutes.
pub(crate) fn neighbour_after(late: &Halves<'_>, b: Second, gap: u32) -> Option<Reading>
    requires { IsRising (joined late.now) }
    ensures { (readings : List Reading) → IsRising readings → joined late.now ≡ from_instant b readings → result ≡ neighbour_after b (pos (60 * gap)) readings }
{
    late.first_used_before(reach_behind(b, gap))
}

/// From where on the readings before a day bear on its window: from its neighbour on, or as far as the gap, in minutes.
pub(crate) fn lead_from(neighbour: Option<Reading>, a: Second, gap: u32) -> i64
    ensures { result ≡ lead_from a (pos (60 * gap)) neighbour }
{
    match neighbour {
        Some(reading) => reading.at.get(),
        None => reach_before(a, gap),
    }
}

/// Before which the readings behind a day bear on its window: up to its neighbour, or as far as the gap, in minutes.
pub(crate) fn follow_until(neighbour: Option<Reading>, b: Second, gap: u32) -> i64
    ensures { result ≡ follow_until b (pos (60 * gap)) neighbour }
{
    match neighbour {
        Some(reading) => reading.at.get() + 1,
        None => reach_behind(b, gap),
    }
}

/// The first second that is at most so many minutes before a day.
fn reach_before(a: Second, gap: u32) -> i64
    ensures { result ≡ a -ℤ pos (60 * gap) }
{
    a.get() - 60 * i64::from(gap)
}

/// The first second that is more than so many minutes after a day.
fn reach_behind(b: Second, gap: u32) -> i64
    ensures { result ≡ (b +ℤ pos (60 * gap)) +ℤ pos 1 }
{
    b.get() + 60 * i64::from(gap) + 1
}

/// The readings of a slice before an instant, and those from it on: one binary search.
pub(crate) fn split_at_key(list: &[Reading], at: Second) -> (&[Reading], &[Reading])
    requires { IsRising list.now }
    ensures before { result.0.now ≡ before_instant at list.now }
    ensures from { result.1.now ≡ from_instant at list.now }
{
    list.split_at(rising::count_before(list, at))
}

/// The readings of a slice from a number of seconds on: found by a walk from the last one.
pub(crate) fn tail(list: &[Reading], number: i64) -> &[Reading]
    requires { IsRising list.now }
    ensures { result.now ≡ from_instant number list.now }
{
    let passed = list
        .iter()
        .rev()
        .take_while(|r| number <= r.at.get())
        .count();
    let (_early, late) = list.split_at(list.len() - passed);
    late
}

/// The readings of a slice before a number of seconds: found by a walk from the first one.
pub(crate) fn head(list: &[Reading], number: i64) -> &[Reading]
    requires { IsRising list.now }
    ensures { result.now ≡ before_instant number list.now }
{
    let passed = list.iter().take_while(|r| r.at.get() < number).count();
    let (early, _late) = list.split_at(passed);
    early
}
