//! The unit value of a reading: datum corrections first, then the shift, then the rating (the practice of ADAPS, after
//! Water-Supply Paper 2175).

ghost use Rattle.std.specs.Prelude.{◌≡◌, ◌*◌, pos, neg_ℤ, ◌+ℤ◌, ◌≤ℤ◌, IfOk, Some};
ghost use Rattle.fixed_units.specs.Quantities.{IsStage, IsMicro, IsAmount, IsDischarge, most_amount};
ghost use Rattle.curves.specs.Corrections.{correction_by};
ghost use Rattle.curves.specs.Entries.{IsSeries, series_value};
ghost use Rattle.rating_tables.specs.Table.{IsRating};
ghost use Rattle.ratings.specs.Parts.{AreParts, part_at};
ghost use Rattle.unit_discharge.specs.Unit as units;
ghost use Rattle.unit_discharge.specs.Unit.{corrected_stage, discharge, discharge_by, IsCorrected};

use crate::unit_values::{Missing, Unit};
use curves::{Entry, value_of};
use fixed_units::{Flag, Micro, Reading, Second};
use ratings::{PeriodPart, Rated, part_at};

/// The unit value of a reading of a stage of at most 100,000 feet either way, by three correction sets and shifts whose
/// entries rise by instant and whose amounts are at most 1,000 feet either way, and by parts of rating periods, of which at
/// most one is in force at an instant. The correction is the sum of the three sets' values at the raw stage, the shift is
/// taken at the corrected stage, and the table in force is entered at the stage with its shift. It takes no memory.
#[inline(always)]
pub fn unit(
    first: &[Entry],
    second: &[Entry],
    third: &[Entry],
    shifts: &[Entry],
    periods: &[PeriodPart],
    reading: Reading,
) -> Unit
    requires first { IsSeries first.now }
    requires second { IsSeries second.now }
    requires third { IsSeries third.now }
    requires shifts { IsSeries shifts.now }
    requires periods { AreParts periods.now }
    requires stage { IsStage reading.raw }
    ensures at { result.at ≡ reading.at }
    ensures raw { result.raw ≡ reading.raw }
    ensures correction { result.correction ≡ correction_by first.now second.now third.now reading.at reading.raw }
    ensures stage { result.stage ≡ corrected_stage first.now second.now third.now reading }
    ensures shift { result.shift ≡ series_value shifts.now reading.at result.stage }
    ensures discharge { result.discharge ≡ discharge reading.flag (part_at reading.at periods.now) (result.stage +ℤ result.shift) }
    ensures unit { result ≡ units.unit first.now second.now third.now shifts.now periods.now reading }
    ensures range { IsCorrected result.stage }
    ensures discharge_range { IfOk result.discharge (λ q. IsDischarge q) }
{
    let correction = correction_of(first, second, third, reading.at, reading.raw);
    let stage = sum(reading.raw, correction);
    let shift = amount_of(shifts, reading.at, stage);
    Unit {
        at: reading.at,
        raw: reading.raw,
        correction: Micro::of_millionths(correction),
        stage,
        shift: Micro::of_millionths(shift),
        discharge: discharge_of(periods, reading.flag, reading.at, sum(stage, shift)),
    }
}

/// The correction of a raw stage in millionths of a foot.
#[inline(always)]
fn correction_of(first: &[Entry], second: &[Entry], third: &[Entry], at: Second, raw: Micro) -> i64
    requires first { IsSeries first.now }
    requires second { IsSeries second.now }
    requires third { IsSeries third.now }
    ensures value { result ≡ correction_by first.now second.now third.now at raw }
    ensures low { neg_ℤ (pos (3 * most_amount)) ≤ℤ result }
    ensures high { result ≤ℤ pos (3 * most_amount) }
{
    amount_of(first, at, raw) + amount_of(second, at, raw) + amount_of(third, at, raw)
}

/// The discharge of a reading whose stage with its shift is given, or the first reason why there is none.
fn discharge_of(
    periods: &[PeriodPart],
    flag: Flag,
    at: Second,
    stage: Micro,
) -> Result<Micro, Missing>
    requires { AreParts periods.now }
    ensures value { result ≡ discharge flag (part_at at periods.now) stage }
    ensures range { IfOk result (λ q. IsDischarge q) }
{
    match flag {
        Flag::Affected => Err(Missing::Affected),
        Flag::Usable | Flag::Erroneous => match part_at(periods, at) {
            Some(part) => rated(part, stage),
            None => Err(Missing::NoRating),
        },
    }
}

/// What the table of a part of a rating period says of a stage.
fn rated(part: &PeriodPart, stage: Micro) -> Result<Micro, Missing>
    requires { IsRating part.now.rows }
    ensures value { result ≡ discharge_by (Some part.now) stage }
    ensures range { IfOk result (λ q. IsDischarge q) }
{
    match part.table.table().rate(stage) {
        Rated::Value(discharge) => Ok(discharge),
        Rated::Below => Err(Missing::Below),
        Rated::Above => Err(Missing::Above),
    }
}

/// The amount in millionths of a foot that a series has at an instant and a stage.
#[inline(always)]
fn amount_of(entries: &[Entry], at: Second, stage: Micro) -> i64
    requires { IsSeries entries.now }
    ensures value { result ≡ series_value entries.now at stage }
    ensures range { IsAmount result }
{
    value_of(entries, at, stage).get()
}

/// A quantity and an amount in millionths more, where that is in range.
fn sum(from: Micro, amount: i64) -> Micro
    requires { IsMicro (from +ℤ amount) }
    ensures { result ≡ from +ℤ amount }
{
    Micro::of_millionths(from.get() + amount)
}
