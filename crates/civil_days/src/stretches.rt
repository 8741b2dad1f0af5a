//! Stretches of days at whose midnights a POSIX rule has one offset: at most a few in a year.

ghost use Rattle.std.specs.Prelude.{◌≡◌, ℤ, pos, ◌*ℤ◌, ◌≤ℤ◌, ◌<ℤ◌};
ghost use Rattle.jiff_tz.specs.PosixText.{tz_view};
ghost use Rattle.fixed_units.specs.Quantities.{first_day};
ghost use Rattle.civil_days.specs.Starts.{calendar_end};
ghost use Rattle.civil_days.specs.Seasons.{IsSeason, IsStretch};
ghost use Rattle.civil_days.specs.Years.{IsMovedNanos, IsOneSide};

use crate::seasons::{Season, offset_by, season_by};
use crate::years::{moment, year_of};
use fixed_units::LAST_DAY;
use jiff_tz::posix::TimeZone;

/// The day after the last one of the calendar: the last one ends where it begins.
pub(crate) const CALENDAR_END: i32 = LAST_DAY + 1;

const NANOS_PER_DAY: i64 = 86_400_000_000_000;

/// Days from a first one up to the next stretch's, at whose midnights the wall clock is so many seconds ahead of UTC.
#[derive(Clone, Copy, Debug)]
pub(crate) struct Stretch {
    pub first: i32,
    pub next: i32,
    pub offset: i32,
}

// The season of the year of a day.
fn season_of(rule: &TimeZone, day: i32) -> Season
    requires low { first_day ≤ℤ day }
    requires high { day ≤ℤ calendar_end }
    ensures season { IsSeason (tz_view rule.now) result }
    ensures from { result.first ≤ℤ day }
    ensures until { day <ℤ result.next }
    ensures most { result.next ≤ℤ pos 48_000 }
{
    let year = year_of(day);
    let std = rule.std_offset.seconds;
    match rule.dst {
        Some(dst) => season_by(
            year,
            std,
            dst.offset.seconds,
            moment(year, dst.rule.start),
            moment(year, dst.rule.end),
        ),
        None => season_by(year, std, std, 0, 0),
    }
}

// The first day behind a day that is not on the same side of a change, or one that is given, if that comes first.
fn next_at(day: i32, next: i32, change: i64) -> i32
    requires low { first_day ≤ℤ day }
    requires high { day ≤ℤ calendar_end }
    requires some { day <ℤ next }
    requires change { IsMovedNanos change }
    ensures some { day <ℤ result }
    ensures most { result ≤ℤ next }
    ensures same { (later : ℤ) → day ≤ℤ later → later <ℤ result
        → IsOneSide change (day *ℤ pos 86_400_000_000_000) (later *ℤ pos 86_400_000_000_000) }
{
    if change <= i64::from(day) * NANOS_PER_DAY {
        return next;
    }
    let changed = (change - 1).div_euclid(NANOS_PER_DAY) as i32 + 1;
    if changed < next { changed } else { next }
}

// The stretch that begins with a day.
pub(crate) fn stretch_from(rule: &TimeZone, day: i32) -> Stretch
    requires low { first_day ≤ℤ day }
    requires high { day ≤ℤ calendar_end }
    ensures first { result.first ≡ day }
    ensures stretch { IsStretch (tz_view rule.now) result }
{
    let season = season_of(rule, day);
    let start = next_at(day, season.next, season.start);
    let start_after = next_at(day, start, season.start_after);
    let end = next_at(day, start_after, season.end);
    let end_after = next_at(day, end, season.end_after);
    Stretch {
        first: day,
        next: end_after,
        offset: offset_by(season, day),
    }
}
