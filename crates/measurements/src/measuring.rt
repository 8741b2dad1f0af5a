//! Percent departures of field measurements (the practice of Water-Supply Paper 2175).

ghost use Rattle.std.specs.Prelude.{◌≡◌, ◌*◌, pos, neg_ℤ, ◌+ℤ◌, ◌-ℤ◌, ◌*ℤ◌, ◌<ℤ◌, ◌≤ℤ◌, option_map, IfSome};
ghost use Rattle.edits.specs.Lawful.{IsPutMeasurement};
ghost use Rattle.fixed_units.specs.Quantities.{IsDischarge, IsMicro, IsStage, most_discharge};
ghost use Rattle.fixed_units.specs.Rounding.{round};
ghost use Rattle.measurements.specs.Departures.{departure_at, departure_by, departure_of, indicated_shift, percent_departure, rated_discharge, value_of};
ghost use Rattle.office_inputs.specs.Kept.{in_force};
ghost use Rattle.rating_tables.specs.Table as tables;
ghost use Rattle.rating_tables.specs.Table.{IsRating};

use crate::departures::Departure;
use edits::Measurement;
use fixed_units::{Micro, Site, div_half_away};
use office_inputs::{Inputs, Station};
use ratings::{Rated, Table};

/// What the field measurement of a number at a site says of the rating in force, or `None` exactly where no such measurement stands.
/// Datum corrections do not enter. It takes no memory.
pub fn departure(inputs: &Inputs, site: Site, number: u32) -> Option<Departure>
    ensures { result ≡ departure_at (in_force inputs.now) site number }
{
    station_departure(inputs.station(site)?, number)
}

/// The same of a station that was looked up.
pub fn station_departure(station: &Station, number: u32) -> Option<Departure>
    ensures { result ≡ departure_of number station.now.station }
{
    // the proof learns here that the station keeps to its ranges
    let _site = station.site();
    let measurement = station.measurement(number)?;
    let shift = station.shift(measurement.at, measurement.gage);
    Some(by_rating(measurement, shift, station.table_at(measurement.at)))
}

/// What a measurement says, by the shift at its gage height and the table in force at its instant.
fn by_rating(measurement: &Measurement, shift: Micro, table: Option<&Table>) -> Departure
    requires measurement { IsPutMeasurement measurement.now }
    requires stage { IsMicro (measurement.now.gage +ℤ shift) }
    requires rating { IfSome table (λ t. IsRating t.now) }
    ensures { result ≡ departure_by measurement.now shift (option_map (λ t. t.now) table.entry) }
{
    let grade = measurement.grade;
    let rated = rated_discharge(table, sum(measurement.gage, shift));
    let hundredths = percent_departure(measurement.discharge, &rated);
    let indicated = indicated_shift(measurement.discharge, measurement.gage, table);
    Departure {
        grade,
        rated,
        hundredths,
        indicated,
    }
}

/// The discharge of the table in force at a stage.
fn rated_discharge(table: Option<&Table>, stage: Micro) -> Option<Micro>
    requires { IfSome table (λ t. IsRating t.now) }
    ensures value { result ≡ rated_discharge (option_map (λ t. t.now) table.entry) stage }
    ensures range { IfSome result IsDischarge }
{
    discharge_at(table?, stage)
}

/// The discharge that a rating's table has for a stage.
fn discharge_at(table: &Table, stage: Micro) -> Option<Micro>
    requires { IsRating table.now }
    ensures value { result ≡ value_of (tables.rated table.now stage) }
    ensures range { IfSome result IsDischarge }
{
    match table.rate(stage) {
        Rated::Value(discharge) => Some(discharge),
        Rated::Below | Rated::Above => None,
    }
}

/// By how much a measured discharge departs from a rated one, in hundredths of a percent of that.
fn percent_departure(measured: Micro, rated: &Option<Micro>) -> Option<i64>
    requires measured { IsDischarge measured }
    requires rated { IfSome rated.now IsDischarge }
    ensures { result ≡ percent_departure measured rated.now }
{
    match rated {
        Some(rated) if rated.get() != 0 => Some(hundredths(measured, *rated)),
        _ => None,
    }
}

/// The same of a rated discharge that is not 0.
fn hundredths(measured: Micro, rated: Micro) -> i64
    requires measured { IsDischarge measured }
    requires rated { IsDischarge rated }
    requires some { pos 0 <ℤ rated }
    ensures { result ≡ round (pos 10_000 *ℤ (measured -ℤ rated)) rated }
{
    narrow(div_half_away(scaled(measured, rated), i128::from(rated.get())))
}

/// How much more one discharge is than another, in ten thousandths of a millionth.
fn scaled(measured: Micro, rated: Micro) -> i128
    requires measured { IsDischarge measured }
    requires rated { IsDischarge rated }
    ensures value { result ≡ pos 10_000 *ℤ (measured -ℤ rated) }
    ensures low { neg_ℤ (pos (10_000 * most_discharge)) ≤ℤ result }
    ensures high { result ≤ℤ pos (10_000 * most_discharge) }
{
    10_000 * (i128::from(measured.get()) - i128::from(rated.get()))
}

/// A number of at most 10,000 times the greatest discharge either way.
fn narrow(number: i128) -> i64
    requires low { neg_ℤ (pos (10_000 * most_discharge)) ≤ℤ number }
    requires high { number ≤ℤ pos (10_000 * most_discharge) }
    ensures { result ≡ number }
{
    number as i64
}

/// The shift that would bring the table in force to a measured discharge.
fn indicated_shift(measured: Micro, gage: Micro, table: Option<&Table>) -> Option<Micro>
    requires gage { IsStage gage }
    requires rating { IfSome table (λ t. IsRating t.now) }
    ensures { result ≡ indicated_shift measured gage (option_map (λ t. t.now) table.entry) }
{
    let stage = stage_of(table?, measured)?;
    Some(difference(stage, gage))
}

/// The stage that a rating's table has for a discharge.
fn stage_of(table: &Table, discharge: Micro) -> Option<Micro>
    requires { IsRating table.now }
    ensures value { result ≡ tables.stage_of table.now discharge }
    ensures range { IfSome result IsStage }
{
    table.stage_of(discharge)
}

/// A stage less another one.
fn difference(stage: Micro, other: Micro) -> Micro
    requires stage { IsStage stage }
    requires other { IsStage other }
    ensures { result ≡ stage -ℤ other }
{
    Micro::of_millionths(stage.get() - other.get())
}

/// A stage and a shift more.
fn sum(stage: Micro, shift: Micro) -> Micro
    requires { IsMicro (stage +ℤ shift) }
    ensures { result ≡ stage +ℤ shift }
{
    Micro::of_millionths(stage.get() + shift.get())
}
