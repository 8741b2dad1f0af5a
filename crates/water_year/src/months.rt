//! Dates as day numbers.

ghost use Rattle.std.specs.Prelude.{◌≡◌, ◌≤◌, pos};
ghost use Rattle.jiff_core.specs.Calendar.{days_from_civil, days_in_month};

use fixed_units::Day;
use jiff_core::civil::Date;

/// The day of a date of the years 1900 to 2099.
pub(crate) fn day_number(year: u16, month: u8, day: u8) -> Day
    requires first { 1900 ≤ year }
    requires last { year ≤ 2099 }
    requires month { 1 ≤ month }
    requires twelve { month ≤ 12 }
    requires day { 1 ≤ day }
    requires within { day ≤ days_in_month (pos year) month }
    ensures { result ≡ days_from_civil (pos year) month day }
{
    let date = Date::constrain(year as i16, month, day);
    match Day::new(date.to_unix_epoch_day()) {
        Some(day) => day,
        None => unreachable!(),
    }
}
