//! The start of a day, asked of jiff.

ghost use Rattle.std.specs.Prelude.{◌≡◌, ◌≤◌, ◌↔◌, length, IsSome, IfSome};
ghost use Rattle.civil_days.specs.Starts.{day_start_of};
ghost use Rattle.fixed_units.specs.Quantities.{IsDay};
ghost use Rattle.jiff.specs.Words.{plain_zone};
ghost use Rattle.jiff_tz.specs.PosixReader.{read_whole};
ghost use Rattle.jiff_days.specs.Conversion.{IsMidnight, IsConverted};

use fixed_units::{Day, Second};
use jiff::civil::{Date, DateTime, Time};
use jiff::tz::TimeZone;
use jiff::{Error, Timestamp};

// The midnight with which a day begins.
fn midnight(day: Day) -> DateTime
    ensures midnight { IsMidnight day result }
    ensures day { IsDay day }
{
    match jiff_core::civil::Date::from_unix_epoch_day(i64::from(day.get())) {
        Ok(date) => Date::from_plain(date).to_datetime(Time::midnight()),
        Err(_) => unreachable!(),
    }
}

// The instant of a datetime by jiff's compatible conversion.
fn converted(zone: &TimeZone<'_>, at: DateTime) -> Result<Timestamp, Error>
    ensures { IsConverted (plain_zone zone.now) at result }
{
    zone.to_ambiguous_timestamp(at).compatible()
}

/// When a day begins, asked of jiff: its zone of the POSIX rule that the text is, and its compatible conversion of the day's
/// midnight there. It is `None` exactly where jiff reads no rule.
pub fn day_start_by_jiff(text: &str, day: Day) -> Option<Second>
    requires { length text.now ≤ 60 }
    ensures read { IsSome result ↔ IsSome (read_whole text.now) }
    ensures start { IfSome result (λ start. start ≡ day_start_of text.now day) }
{
    let Ok(zone) = TimeZone::posix(text) else {
        return None;
    };
    match converted(&zone, midnight(day)) {
        Ok(instant) => Second::new(instant.as_second()),
        Err(_) => unreachable!(),
    }
}
