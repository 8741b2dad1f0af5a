//! The years of the calendar, and when the moments of a POSIX rule fall in them on the wall clock.

ghost use Rattle.std.specs.Prelude.{◌≡◌, ◌≤◌, ◌<◌, ℤ, pos, neg_ℤ, ◌+ℤ◌, ◌*ℤ◌, ◌≤ℤ◌, ◌<ℤ◌, true};
ghost use Rattle.jiff_core.specs.Calendar.{IsYear, IsBetween, IsWithin};
ghost use Rattle.jiff_core.specs.Date.{epoch_day};
ghost use Rattle.jiff_core.specs.Timestamp.{nanos_of_seconds};
ghost use Rattle.jiff_tz.specs.PosixDay.{is_rule_day};
ghost use Rattle.jiff_tz.specs.PosixRule.{clamp_to, first_nanosecond, last_nanosecond, nanos_per_day, rule_day, sunday_number, weekday_of_month};
ghost use Rattle.jiff_tz.specs.PosixText.{day_time_view};
ghost use Rattle.jiff_tz.specs.Year.{year_of_day};
ghost use Rattle.fixed_units.specs.Quantities.{first_day};
ghost use Rattle.civil_days.specs.Rule.{moment};
ghost use Rattle.civil_days.specs.Starts.{calendar_end};
ghost use Rattle.civil_days.specs.Years.{IsCalendarYear, IsYearNanos};

use jiff_core::civil::{Date, days_in_year, is_leap_year};
use jiff_tz::posix::{Day, DayTime};

const NANOS_PER_SECOND: i128 = 1_000_000_000;

const NANOS_PER_DAY: i128 = 86_400_000_000_000;

/// A year by its number, its first day and the first day of the next one.
#[derive(Clone, Copy, Debug)]
pub(crate) struct Year {
    pub number: i16,
    pub first: i32,
    pub next: i32,
    pub ghost is: { IsCalendarYear number first next },
}

// The year of a day.
pub(crate) fn year_of(day: i32) -> Year
    requires low { first_day ≤ℤ day }
    requires high { day ≤ℤ calendar_end }
    ensures number { result.number ≡ year_of_day day }
    ensures from { result.first ≤ℤ day }
    ensures until { day <ℤ result.next }
{
    match Date::from_unix_epoch_day(i64::from(day)) {
        Ok(date) => {
            let first = day - (i32::from(date.day_of_year()) - 1);
            Year {
                number: date.year,
                first,
                next: first + i32::from(days_in_year(date.year)),
            }
        }
        Err(_) => unreachable!(),
    }
}

// The weekday, from 0 for Sunday.
fn sunday_number(date: Date) -> u8
    ensures value { result ≡ sunday_number (epoch_day date) }
    ensures bound { result < 7 }
{
    (date.weekday().index() + 1) % 7
}

// The day of the weekday in the week of the month, where week 5 means the last.
fn weekday_of_month(year: i16, month: u8, week: u8, weekday: u8) -> i32
    requires year_in { IsYear year }
    requires month_in { (1 ≤ month) × (month ≤ 12) }
    requires week_in { (1 ≤ week) × (week ≤ 5) }
    requires weekday_in { weekday ≤ 6 }
    ensures { result ≡ weekday_of_month year month week weekday }
{
    if week == 5 {
        let last = Date::constrain(year, month, 31);
        let back = (sunday_number(last) + 7 - weekday) % 7;
        last.to_unix_epoch_day() - i32::from(back)
    } else {
        let first = Date::constrain(year, month, 1);
        let ahead = (weekday + 7 - sunday_number(first)) % 7;
        first.to_unix_epoch_day() + i32::from(ahead) + 7 * (i32::from(week) - 1)
    }
}

// The day that a rule names in the year, or nothing for day 365 of a year with no such day.
fn rule_day(year: Year, day: Day) -> Option<i32>
    requires { is_rule_day day ≡ true }
    ensures { result ≡ rule_day year.number day }
{
    match day {
        Day::JulianOne(number) => {
            let leap_day = if is_leap_year(year.number) && number >= 60 {
                1
            } else {
                0
            };
            Some(year.first + i32::from(number - 1 + leap_day))
        }
        Day::JulianZero(number) => {
            if number >= days_in_year(year.number) {
                return None;
            }
            Some(year.first + i32::from(number))
        }
        Day::WeekdayOfMonth {
            month,
            week,
            weekday,
        } => { Some(weekday_of_month(year.number, month, week, weekday)) }
    }
}

// The first nanosecond of the year.
fn first_nanosecond(year: Year) -> i128
    ensures value { result ≡ first_nanosecond year.number }
    ensures bound { IsYearNanos result }
{
    i128::from(year.first) * NANOS_PER_DAY
}

// The last nanosecond of the year.
fn last_nanosecond(year: Year) -> i128
    ensures value { result ≡ last_nanosecond year.number }
    ensures bound { IsYearNanos result }
    ensures order { first_nanosecond year.number ≤ℤ result }
{
    i128::from(year.next) * NANOS_PER_DAY - 1
}

// That many seconds from the midnight that begins a day, in nanoseconds.
fn nanosecond(day: i32, seconds: i32) -> i128
    requires { IsWithin 604_799 seconds }
    ensures { result ≡ day *ℤ nanos_per_day +ℤ nanos_of_seconds seconds }
{
    i128::from(day) * NANOS_PER_DAY + i128::from(seconds) * NANOS_PER_SECOND
}

// The number, or the nearer end of a range that it is not in.
fn clamp(low: i128, high: i128, number: i128) -> i128
    requires { low ≤ℤ high }
    ensures value { result ≡ clamp_to low high number }
    ensures bound { IsBetween low high result }
{
    if number < low {
        low
    } else if number > high {
        high
    } else {
        number
    }
}

// When a moment of a rule falls in the year, in nanoseconds on the wall clock.
pub(crate) fn moment(year: Year, at: DayTime) -> i64
    ensures value { result ≡ moment year.number (day_time_view at) }
    ensures bound { IsYearNanos result }
{
    let last = last_nanosecond(year);
    let Some(day) = rule_day(year, at.date) else {
        return last as i64;
    };
    clamp(first_nanosecond(year), last, nanosecond(day, at.time)) as i64
}
