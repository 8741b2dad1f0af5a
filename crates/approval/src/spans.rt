//! The days of a span among the standings of a site: they are put or taken out together, so that the later ones are moved once.

ghost use Rattle.std.specs.Prelude.{◌≡◌, ◌+◌, ◌≤◌, ◌≤ℤ◌, ◌++◌, vec_len, vec_capacity};
ghost use Rattle.approval.specs.Kept.{day_place, span_length, standings_from};
ghost use Rattle.fixed_units.specs.Quantities.{IsDay};
ghost use Rattle.rising.specs.Lists.{IsRising, after, before};

use crate::day_lists::day_of;
use crate::days::DayStanding;
use crate::status::Status;
use fixed_units::Day;
use rising::{count_before, count_to};

/// How many days there are from one to another.
pub(crate) fn span_length(from: Day, to: Day) -> usize
    requires { from ≤ℤ to }
    ensures { result ≡ span_length from to }
{
    (to.get() + 1 - from.get()) as usize
}

/// Takes out the standings of the days from one to another.
pub(crate) fn take_span(list: &mut Vec<DayStanding>, from: Day, to: Day)
    requires rising { IsRising day_place list.old.items }
    requires order { from ≤ℤ to }
    ensures items { list.new.items ≡ before day_place from list.old.items ++ after day_place to list.old.items }
    ensures capacity { vec_capacity list.new ≡ vec_capacity list.old }
{
    let first = count_before(list, from);
    let end = count_to(list, to);
    list.drain(first..end);
}

/// Puts the days from one to another, in place of those of them that stand there. There is room for them all, so no memory is taken.
pub(crate) fn put_span(list: &mut Vec<DayStanding>, from: Day, to: Day, status: &Status, edit: u64)
    requires rising { IsRising day_place list.old.items }
    requires order { from ≤ℤ to }
    requires room { vec_len list.old + span_length from to ≤ vec_capacity list.old }
    ensures items { list.new.items ≡ before day_place from list.old.items ++ (standings_from from (span_length from to) status.now edit ++ after day_place to list.old.items) }
    ensures capacity { vec_capacity list.new ≡ vec_capacity list.old }
{
    let first = count_before(list, from);
    take_span(list, from, to);
    let kept = list.len();
    push_span(list, from, to, status, edit);
    let count = list.len() - kept;
    list[first..].rotate_right(count);
}

/// Puts the days from one to another behind all others.
fn push_span(list: &mut Vec<DayStanding>, from: Day, to: Day, status: &Status, edit: u64)
    requires order { from ≤ℤ to }
    requires room { vec_len list.old + span_length from to ≤ vec_capacity list.old }
    ensures items { list.new.items ≡ list.old.items ++ standings_from from (span_length from to) status.now edit }
    ensures capacity { vec_capacity list.new ≡ vec_capacity list.old }
{
    for number in from.get()..to.get() + 1 {
        list.push_reserved(DayStanding {
            day: day_of(number),
            status: status.copy(),
            edit,
        });
    }
}
