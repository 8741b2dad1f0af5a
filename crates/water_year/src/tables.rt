//! The table of a water year.

ghost use Rattle.std.specs.Prelude.{◌≡◌, ◌≤◌, All, filter, length, map, pos};
ghost use Rattle.std.specs.List.{list_all};
ghost use Rattle.water_year.specs.Rows.{AreRowsOf, IsSettled, IsWaterYear, is_approved, is_in, months_of};
ghost use Rattle.water_year.specs.Tables.{month_of, year_of};

use crate::months::day_number;
use crate::rows::DailyRow;
use crate::sums::Sums;
use fixed_units::RoundingArray;
use jiff_core::civil::days_in_month;

/// What is told of the days of a month, or of a whole year. Amounts are in millionths of a cubic foot per second (the total: of cubic
/// feet per second, over days), of published values.
#[derive(Clone, Copy, Debug, PartialEq, Eq)]
pub struct Month {
    /// How many days it has.
    pub days: u32,
    /// How many of them have no discharge.
    pub missing: u32,
    /// The sum over the days that have one.
    pub total: i64,
    /// The greatest of their discharges, 0 where there is none.
    pub most: i64,
    /// The least of them, 0 where there is none.
    pub least: i64,
}

/// The table of a water year.
#[derive(Clone, Copy, Debug, PartialEq, Eq)]
pub struct Year {
    /// The months from October to September.
    pub months: [Month; 12],
    /// The whole year.
    pub whole: Month,
    /// Whether every day of it is approved, the missing ones too.
    pub approved: bool,
}

/// The table of the water year of a number from 1901 to 2099, by a row of each of its days in order, none of them pending, with values of
/// at most six decimals and 10,000,000 cubic feet per second either way. Values are published already, so their array is not asked. It
/// takes no memory.
pub fn year_table(year: u16, rows: &[DailyRow], _array: &RoundingArray) -> Year
    requires year { IsWaterYear year }
    requires rows { AreRowsOf year rows.now }
    ensures { result ≡ year_of year rows.now }
{
    Year {
        months: month_tables(year, rows),
        whole: whole_table(rows),
        approved: are_approved(rows),
    }
}

/// What is told of the rows of each month of a water year.
fn month_tables(year: u16, rows: &[DailyRow]) -> [Month; 12]
    requires year { IsWaterYear year }
    requires few { length rows.now ≤ 1000 }
    requires settled { All IsSettled rows.now }
    ensures { result ≡ map (λ month. month_of (filter (is_in month) rows.now)) (months_of year) }
{
    let before = year - 1;
    [
        month_table(before, 10, rows),
        month_table(before, 11, rows),
        month_table(before, 12, rows),
        month_table(year, 1, rows),
        month_table(year, 2, rows),
        month_table(year, 3, rows),
        month_table(year, 4, rows),
        month_table(year, 5, rows),
        month_table(year, 6, rows),
        month_table(year, 7, rows),
        month_table(year, 8, rows),
        month_table(year, 9, rows),
    ]
}

/// Whether the day of each row is approved.
fn are_approved(rows: &[DailyRow]) -> bool
    ensures { result ≡ list_all is_approved rows.now }
{
    rows.iter().all(|row| row.approved)
}

/// What is told of the rows of a month.
fn month_table(year: u16, month: u8, rows: &[DailyRow]) -> Month
    requires first { 1900 ≤ year }
    requires last { year ≤ 2099 }
    requires month { 1 ≤ month }
    requires twelve { month ≤ 12 }
    requires few { length rows.now ≤ 1000 }
    requires settled { All IsSettled rows.now }
    ensures { result ≡ month_of (filter (is_in (pos year, month)) rows.now) }
{
    let first = day_number(year, month, 1);
    let last = day_number(year, month, days_in_month(year as i16, month));
    let mut sums = Sums::none();
    for row in rows {
        sums.add_from(first, last, row);
    }
    sums.month()
}

/// What is told of all rows.
fn whole_table(rows: &[DailyRow]) -> Month
    requires few { length rows.now ≤ 1000 }
    requires settled { All IsSettled rows.now }
    ensures { result ≡ month_of rows.now }
{
    let mut sums = Sums::none();
    for row in rows {
        sums.add(row);
    }
    sums.month()
}
