//! Rows are summed, one behind another.

ghost use Rattle.std.specs.Prelude.{◌≡◌, ◌≤◌, ◌<◌, ◌^◌, [], ◌∷◌, ◌++◌, List, ℤ, filter, unsigned_abs};
ghost use Rattle.fixed_units.specs.Quantities.{is_within, most_discharge};
ghost use Rattle.water_year.specs.Rows.{IsCounted, IsSettled, is_from, millionths_of};
ghost use Rattle.water_year.specs.Sums.{sums_of};
ghost use Rattle.water_year.specs.Tables.{greatest, least, month_of, sum_of};
ghost use Rattle.water_year.specs.declared.rows.DailyRow.{DailyRow};

use crate::rows::{DailyRow, RowState};
use crate::tables::Month;
use fixed_units::{Day, Published};

/// What is kept of rows while they are summed, in millionths.
#[derive(Clone, Copy)]
pub(crate) struct Sums {
    days: u32,
    missing: u32,
    total: i64,
    most: Option<i64>,
    least: Option<i64>,
}

impl Sums {
    /// The sums of no row.
    pub(crate) fn none() -> Sums
        ensures { result ≡ sums_of [] }
    {
        Sums {
            days: 0,
            missing: 0,
            total: 0,
            most: None,
            least: None,
        }
    }

    /// Takes in one row more, behind those before it.
    pub(crate) fn add(&mut self, row: &DailyRow)
        requires settled { IsSettled row.now }
        requires days { self.old.days < 2 ^ 31 }
        requires missing { self.old.missing ≤ self.old.days }
        requires total { unsigned_abs self.old.total ≤ 10 ^ 18 }
        ensures { (rows : List DailyRow) → self.old ≡ sums_of rows → self.new ≡ sums_of (rows ++ row.now ∷ []) }
    {
        self.days += 1;
        match row.state {
            RowState::Value(value) => self.add_value(millionths(value)),
            RowState::Absent => self.missing += 1,
            RowState::Pending(_) => {}
        }
    }

    /// Takes in one row more, where its day is one from the first to the last.
    pub(crate) fn add_from(&mut self, first: Day, last: Day, row: &DailyRow)
        requires settled { IsSettled row.now }
        requires days { self.old.days < 2 ^ 31 }
        requires missing { self.old.missing ≤ self.old.days }
        requires total { unsigned_abs self.old.total ≤ 10 ^ 18 }
        ensures { (rows : List DailyRow) → self.old ≡ sums_of (filter (is_from first last) rows) → self.new ≡ sums_of (filter (is_from first last) (rows ++ row.now ∷ [])) }
    {
        if is_within(first, last, row.day) {
            self.add(row);
        }
    }

    /// Takes in one value more.
    fn add_value(&mut self, value: i64)
        requires value { unsigned_abs value ≤ most_discharge }
        requires total { unsigned_abs self.old.total ≤ 10 ^ 18 }
        ensures { (values : List ℤ) → self.old.total ≡ sum_of values → self.old.most ≡ greatest values → self.old.least ≡ least values
            → self.new ≡ record { days = self.old.days; missing = self.old.missing; total = sum_of (values ++ value ∷ []); most = greatest (values ++ value ∷ []); least = least (values ++ value ∷ []) } }
    {
        self.total += value;
        self.most = raised(self.most, value);
        self.least = lowered(self.least, value);
    }

    /// What is told of the rows.
    pub(crate) fn month(&self) -> Month
        ensures { (rows : List DailyRow) → self.now ≡ sums_of rows → result ≡ month_of rows }
    {
        Month {
            days: self.days,
            missing: self.missing,
            total: self.total,
            most: self.most.unwrap_or(0),
            least: self.least.unwrap_or(0),
        }
    }
}

/// Whether a day is one from the first to the last.
fn is_within(first: Day, last: Day, day: Day) -> bool
    ensures { result ≡ is_within first last day }
{
    first.get() <= day.get() && day.get() <= last.get()
}

/// The millionths that a published value stands for.
fn millionths(value: Published) -> i64
    requires { IsCounted value }
    ensures value { result ≡ millionths_of value }
    ensures range { unsigned_abs result ≤ most_discharge }
{
    value.units * 10_i64.pow(6 - u32::from(value.places))
}

/// The greatest of numbers with one more behind them.
fn raised(most: Option<i64>, value: i64) -> Option<i64>
    ensures { (values : List ℤ) → most ≡ greatest values → result ≡ greatest (values ++ value ∷ []) }
{
    match most {
        Some(most) => Some(most.max(value)),
        None => Some(value),
    }
}

/// The least of numbers with one more behind them.
fn lowered(lowest: Option<i64>, value: i64) -> Option<i64>
    ensures { (values : List ℤ) → lowest ≡ least values → result ≡ least (values ++ value ∷ []) }
{
    match lowest {
        Some(lowest) => Some(lowest.min(value)),
        None => Some(value),
    }
}
