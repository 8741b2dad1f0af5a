//! What is found among the standings of a site.

ghost use Rattle.std.specs.Prelude.{◌≡◌, ◌≤ℤ◌, find, option_map};
ghost use Rattle.approval.specs.Kept.{day_place, standing_at};
ghost use Rattle.approval.specs.Questions.{holds};
ghost use Rattle.approval.specs.Statuses.{approved_days, first_day_of};
ghost use Rattle.fixed_units.specs.Quantities.{IsDay};
ghost use Rattle.rising.specs.Lists.{IsRising, after, at, from};

use crate::days::DayStanding;
use crate::questions::Question;
use fixed_units::Day;
use rising::{count_before, place_in};

/// The standing of a day, by a binary search, or `None` where its record is being worked.
pub(crate) fn standing_on(list: &[DayStanding], day: Day) -> Option<&DayStanding>
    requires { IsRising day_place list.now }
    ensures { option_map (λ s. s.now) result ≡ at day_place day list.now }
{
    match place_in(list, day) {
        Some(place) => Some(&list[place]),
        None => None,
    }
}

/// The first of these days whose status answers the question with yes. Each is looked up among the standings.
pub(crate) fn first_of_days(
    list: &[DayStanding],
    days: &[Day],
    question: Question<'_>,
) -> Option<Day>
    requires { IsRising day_place list.now }
    ensures { result ≡ find (λ day. holds question.entry (standing_at list.now day).status) days.now }
{
    days.iter()
        .copied()
        .find(|day| question.holds(standing_on(list, *day)))
}

/// How many days are approved: each of them is among the standings.
pub(crate) fn count_approved(list: &[DayStanding]) -> u64
    requires { IsRising day_place list.now }
    ensures { result ≡ approved_days (λ day. (standing_at list.now day).status) }
{
    list.iter()
        .filter(|standing| standing.is_approved())
        .count() as u64
}

/// The first of the days from one to another whose status answers the question with yes. The standings are walked along with them.
pub(crate) fn first_in_span(
    list: &[DayStanding],
    from: Day,
    to: Day,
    question: Question<'_>,
) -> Option<Day>
    requires rising { IsRising day_place list.now }
    requires order { from ≤ℤ to }
    ensures { result ≡ first_day_of (λ day. holds question.entry (standing_at list.now day).status) from to }
{
    let mut rest = &list[count_before(list, from)..];
    for number in from.get()..to.get() + 1 {
        let day = day_of(number);
        let (standing, later) = parted(rest, day);
        if question.holds(standing) {
            return Some(day);
        }
        rest = later;
    }
    None
}

/// The standing of a day, of standings of which none is earlier, and the later ones.
fn parted(list: &[DayStanding], day: Day) -> (Option<&DayStanding>, &[DayStanding])
    requires rising { IsRising day_place list.now }
    requires from { list.now ≡ from day_place day list.now }
    ensures here { option_map (λ s. s.now) result.0 ≡ at day_place day list.now }
    ensures later { result.1.now ≡ after day_place day list.now }
{
    match list.split_first() {
        Some((first, later)) => {
            if first.day == day {
                (Some(first), later)
            } else {
                (None, list)
            }
        }
        None => (None, list),
    }
}

/// The day of a number of the calendar.
pub(crate) fn day_of(number: i32) -> Day
    requires { IsDay number }
    ensures { result ≡ number }
{
    let Some(day) = Day::new(number) else {
        unreachable!();
    };
    day
}
