//! What holds of the table of every water year.

ghost use Rattle.std.specs.Prelude.{◌≡◌, ℕ, ◌+◌, List, All, count_by, length, map, ℤ, pos, ◌*ℤ◌, ◌<ℤ◌, ◌≤ℤ◌};
ghost use Rattle.fixed_units.specs.Published.{published};
ghost use Rattle.fixed_units.specs.RoundingArray.{IsRoundingArray};
ghost use Rattle.jiff_core.specs.Calendar.{days_in_month, days_in_year};
ghost use Rattle.fixed_units.specs.Quantities.{most_discharge};
ghost use Rattle.water_year.specs.Rows.{AreRowsOf, IsCounted, IsSettled, IsWaterYear, is_missing, months_of, values_of};
ghost use Rattle.water_year.specs.Tables.{sum_of, year_of};
ghost use Rattle.water_year.specs.declared.rows.DailyRow.{DailyRow};

/// Each month of a water year has its days by the calendar, and the year has 365 or 366; of settled rows each has a value or is missing,
/// so a month of which no day is missing has a value for each of its days.
pub fn a_month_has_its_days()
    ensures months { (year : ℕ) (rows : List DailyRow) → IsWaterYear year → AreRowsOf year rows
        → map (λ month. month.days) (year_of year rows).months ≡ map (λ month. days_in_month month.0 month.1) (months_of year) }
    ensures year { (year : ℕ) (rows : List DailyRow) → IsWaterYear year → AreRowsOf year rows → (year_of year rows).whole.days ≡ days_in_year (pos year) }
    ensures values { (rows : List DailyRow) → All IsSettled rows → length (values_of rows) + count_by is_missing rows ≡ length rows }
{}

/// The total of a water year is the sum of those of its months.
pub fn the_year_is_the_sum_of_its_months()
    ensures { (year : ℕ) (rows : List DailyRow) → IsWaterYear year → AreRowsOf year rows
        → sum_of (map (λ month. month.total) (year_of year rows).months) ≡ (year_of year rows).whole.total }
{}

/// The published value of a discharge of at most 10,000,000 cubic feet per second is one that a table counts.
pub fn published_discharges_are_counted()
    ensures { (array : List ℕ) (num den : ℤ) → IsRoundingArray array → pos 0 <ℤ den → pos 0 ≤ℤ num → num ≤ℤ (den *ℤ pos most_discharge)
        → IsCounted (published array num den) }
{}
