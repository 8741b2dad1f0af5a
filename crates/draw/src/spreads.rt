//! How far rows reach: the least and the greatest of their numbers, the first and the last of their instants.

ghost use Rattle.std.specs.Prelude.{◌≡◌, ◌≤ℤ◌, IfSome};
ghost use Rattle.draw.specs.Spreads as spreads;
ghost use Rattle.draw.specs.Spreads.{ends_of, number_of, spanned, time_span, widened};

use crate::rows::Row;
use civil_days::StationZone;
use fixed_units::{Flag, Micro, Reading, Second};

/// Which numbers of rows.
#[derive(Clone, Copy)]
pub enum Quantity {
    /// Stages.
    Stage,
    /// Discharges.
    Discharge,
}

/// The number of a row, if it has one. That of an erroneous reading does not count.
fn number_of(quantity: Quantity, row: &Row) -> Option<Micro>
    ensures { result ≡ number_of quantity row.now }
{
    match quantity {
        Quantity::Stage => match row {
            Row::Reading(reading) => usable_stage(reading),
            Row::Day(row) => row.stage,
            Row::Measurement(row) => Some(row.stage),
        },
        Quantity::Discharge => match row {
            Row::Reading(_) => None,
            Row::Day(row) => row.discharge,
            Row::Measurement(row) => Some(row.discharge),
        },
    }
}

/// The stage of a reading that is not erroneous.
pub fn usable_stage(reading: &Reading) -> Option<Micro>
    ensures { result ≡ spreads.usable_stage reading.now }
{
    match reading.flag {
        Flag::Erroneous => None,
        Flag::Usable | Flag::Affected => Some(reading.raw),
    }
}

/// The least and the greatest of the numbers of rows, if there is any.
pub fn spread_of(quantity: Quantity, rows: &[Row]) -> Option<(Micro, Micro)>
    ensures value { result ≡ spreads.spread_of quantity rows.now }
    ensures ordered { IfSome result (λ ends. ends.0 ≤ℤ ends.1) }
{
    let mut spread = None;
    for row in rows {
        spread = widened(spread, number_of(quantity, row));
    }
    spread
}

/// The least and the greatest with one number more, if there is one.
fn widened(spread: Option<(Micro, Micro)>, number: Option<Micro>) -> Option<(Micro, Micro)>
    requires { IfSome spread (λ ends. ends.0 ≤ℤ ends.1) }
    ensures value { result ≡ widened spread number }
    ensures ordered { IfSome result (λ ends. ends.0 ≤ℤ ends.1) }
{
    let Some(number) = number else {
        return spread;
    };
    match spread {
        Some((least, greatest)) => Some((
            if number < least { number } else { least },
            if greatest < number { number } else { greatest },
        )),
        None => Some((number, number)),
    }
}

/// The first and the last instant of rows, if there is any.
pub fn time_span(zone: &StationZone, rows: &[Row]) -> Option<(Second, Second)>
    ensures { result ≡ time_span zone.now rows.now }
{
    let mut span = None;
    for row in rows {
        span = Some(spanned(span, ends_of(zone, row)));
    }
    span
}

/// The first and the last instant of a row.
fn ends_of(zone: &StationZone, row: &Row) -> (Second, Second)
    ensures { result ≡ ends_of zone.now row.now }
{
    match row {
        Row::Reading(reading) => (reading.at, reading.at),
        Row::Day(row) => zone.bounds(row.day),
        Row::Measurement(row) => (row.at, row.at),
    }
}

/// The first and the last instant with those of a row more.
fn spanned(span: Option<(Second, Second)>, ends: (Second, Second)) -> (Second, Second)
    ensures { result ≡ spanned span ends }
{
    match span {
        Some((first, last)) => (
            if ends.0 < first { ends.0 } else { first },
            if last < ends.1 { ends.1 } else { last },
        ),
        None => ends,
    }
}
