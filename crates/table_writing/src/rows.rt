//! What an office answers of days, as rows.

ghost use Rattle.std.specs.Prelude.{◌≡◌, [], ◌∷◌, All, is_some, true, IfOk};
ghost use Rattle.std.specs.List.{flat_map};
ghost use Rattle.daily_values.specs.Figures.{published_discharge};
ghost use Rattle.depend.specs.Compared.{days_within};
ghost use Rattle.fixed_units.specs.Quantities.{IsDay};
ghost use Rattle.fixed_units.specs.RoundingArray.{IsRoundingArray};
ghost use Rattle.history.specs.Accepted.{stations_at};
ghost use Rattle.office_inputs.specs.Stations.{station_of};
ghost use Rattle.table_writing.specs.Counted.{HasArray, IfFigures, IsCountedIn, IsCountedOrNone};
ghost use Rattle.table_writing.specs.Answers.{is_estimated, row_at, state_by, state_of};

use daily_values::{DayValue, Figures};
use devices::Disk;
use fixed_units::{Day, NoMemory, Site};
use office::{Answer, Office};
use std::alloc::Global;
use water_year::{DailyRow, RowState};

/// The row of each day from one to another, both included, of a site that is kept.
pub(crate) fn rows_from<D: Disk>(
    alloc: Global,
    office: &Office<D>,
    site: Site,
    from: Day,
    to: Day,
) -> Result<Vec<DailyRow>, NoMemory>
    requires kept { is_some (station_of (stations_at office.now.register.history.events) site) ≡ true }
    ensures rows { IfOk result (λ rows. rows.items ≡ flat_map (row_at office.now.register.history.events site) (days_within from to)) }
    ensures counted { HasArray office.now.register.history.events site → IfOk result (λ rows. All IsCountedOrNone rows.items) }
{
    let mut rows = Vec::new(alloc);
    rows.reserve_exact(usize::try_from(to.get() + 1 - from.get()).unwrap_or(0))?;
    for number in from.get()..to.get() + 1 {
        if rows.push(row_on(office, site, number)).is_err() {
            return Err(NoMemory);
        }
    }
    Ok(rows)
}

/// The row of the day of a number, of a site that is kept.
fn row_on<D: Disk>(office: &Office<D>, site: Site, number: i32) -> DailyRow
    requires kept { is_some (station_of (stations_at office.now.register.history.events) site) ≡ true }
    requires day { IsDay number }
    ensures row { row_at office.now.register.history.events site number ≡ result ∷ [] }
    ensures counted { HasArray office.now.register.history.events site → IsCountedOrNone result }
{
    let Some(day) = Day::new(number) else {
        unreachable!();
    };
    let approved = office.status(site, day).is_approved();
    match office.answer(site, day) {
        Answer::NoStation => unreachable!(),
        Answer::Pending(edit) => DailyRow {
            day,
            state: RowState::Pending(edit),
            approved,
            estimated: false,
        },
        Answer::Computed(value) => DailyRow {
            day,
            state: state_of(value),
            approved,
            estimated: is_estimated(value),
        },
    }
}

/// The published discharge of a day, the estimate first, where it has one.
fn state_of(value: &DayValue) -> RowState
    ensures state { result ≡ state_of value.now }
    ensures counted { IfFigures value.now (λ figures. IsRoundingArray figures.discharge_array → IsCountedIn result) }
{
    match value {
        DayValue::Empty => RowState::Absent,
        DayValue::Day(figures) => discharge_of(figures),
    }
}

/// The published discharge of a day with figures, where it has one.
fn discharge_of(figures: &Figures) -> RowState
    ensures state { result ≡ state_by (published_discharge figures.now) }
    ensures counted { IsRoundingArray figures.now.discharge_array → IsCountedIn result }
{
    // the proof learns here what the figures of a day keep to
    let _counts = figures.counts();
    match figures.discharge_text() {
        Some(discharge) => RowState::Value(discharge),
        None => RowState::Absent,
    }
}

/// Whether the discharge of a day is an estimate.
fn is_estimated(value: &DayValue) -> bool
    ensures { result ≡ is_estimated value.now }
{
    match value {
        DayValue::Empty => false,
        DayValue::Day(figures) => figures.estimate().is_some(),
    }
}
