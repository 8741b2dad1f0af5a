//! Rows of daily values, and the first and the last day of a water year.

ghost use Rattle.std.specs.Prelude.{◌≡◌, ◌≤◌, ℤ, pos, ◌-ℤ◌};
ghost use Rattle.water_year.specs.Rows.{IsWaterYear, first_of, last_of};

use crate::months::day_number;
use fixed_units::{Day, Published};

/// What is known of the daily discharge of a day.
#[derive(Clone, Copy, Debug, PartialEq, Eq)]
pub enum RowState {
    /// The day awaits this edit.
    Pending(u64),
    /// The discharge, as it is published, in cubic feet per second.
    Value(Published),
    /// The day has none: it is missing.
    Absent,
}

/// The row of a day.
#[derive(Clone, Copy, Debug, PartialEq, Eq)]
pub struct DailyRow {
    /// The day.
    pub day: Day,
    /// What is known of its discharge.
    pub state: RowState,
    /// Whether the day is approved; all others are provisional.
    pub approved: bool,
    /// Whether the discharge is an estimate. Of a pending day it is not told.
    pub estimated: bool,
}

/// The first day of a water year, from 1901 to 2099: 1 October of the year before.
pub fn first_day(year: u16) -> Day
    requires { IsWaterYear year }
    ensures { result ≡ first_of year }
{
    day_number(year - 1, 10, 1)
}

/// The last day of a water year, from 1901 to 2099: 30 September.
pub fn last_day(year: u16) -> Day
    requires { IsWaterYear year }
    ensures { result ≡ last_of year }
{
    day_number(year, 9, 30)
}
