//! Whether two edits are the same: by their values, however they were spelled.

ghost use Rattle.std.specs.Prelude.{◌≡◌, ◌↔◌, true};
ghost use Rattle.edits.specs.Same.{are_sent_alike, is_same, is_same_what, same_period};
ghost use Rattle.edits.specs.declared.content.What.TheVariants.{AddStation, SetStation, PutReadings, DropReadings, FlagReadings, PutCorrection, DropCorrection, PutShift, DropShift, AddRating, PutPeriod, DropPeriod, PutEstimate, DropEstimate, PutMeasurement, DropMeasurement, Review, Decide, SetEdition};

use crate::content::{Edit, What};
use crate::decisions::Decision;
use crate::estimates::Estimate;
use crate::measurements::Measurement;
use crate::names::Name;
use curves::{Entry, is_same_entry};
use fixed_units::{Day, Flag, Reading, RoundingArray, Second};
use ratings::{Period, SharedTable};
use readings::are_same;

impl Edit {
    /// Whether the edits are equal in every value: a zone by its text, readings by instant, stage and flag, a curve by its points,
    /// and a rating by its rows.
    pub fn is_same(&self, other: &Edit) -> bool
        ensures same { result ≡ is_same self.now other.now }
        ensures equal { result ≡ true ↔ self.now ≡ other.now }
    {
        are_sent_alike(self, other) && is_same_what(&self.what, &other.what)
    }
}

/// Whether both are sent by the same person, under the same reference, about the same site and with the same comment.
fn are_sent_alike(edit: &Edit, other: &Edit) -> bool
    ensures same { result ≡ are_sent_alike edit.now other.now }
    ensures equal { result ≡ true ↔ (edit.now.by ≡ other.now.by) × (edit.now.reference ≡ other.now.reference) × (edit.now.site ≡ other.now.site) × (edit.now.comment ≡ other.now.comment) }
{
    edit.by.as_slice() == other.by.as_slice()
        && edit.reference.as_slice() == other.reference.as_slice()
        && edit.site.is_at(other.site)
        && edit.comment.as_slice() == other.comment.as_slice()
}

/// Whether both change the same.
fn is_same_what(what: &What, other: &What) -> bool
    ensures same { result ≡ is_same_what what.now other.now }
    ensures equal { result ≡ true ↔ what.now ≡ other.now }
{
    match what {
        What::AddStation {
            name,
            zone,
            gap,
            stage_array,
            discharge_array,
        } => is_addition(other, name, zone, *gap, *stage_array, *discharge_array),
        What::SetStation {
            name,
            gap,
            stage_array,
            discharge_array,
        } => is_setting(other, name, *gap, *stage_array, *discharge_array),
        What::PutReadings { readings } => is_put(other, readings.as_slice()),
        What::DropReadings { from, to } => is_dropped_span(other, *from, *to),
        What::FlagReadings { from, to, flag } => is_flagged_span(other, *from, *to, *flag),
        What::PutCorrection {
            set,
            at,
            curve,
            prorate,
        } => is_put_correction(other, *set, &Entry::new(*at, *curve, *prorate)),
        What::DropCorrection { set, at } => is_dropped_correction(other, *set, *at),
        What::PutShift { at, curve, prorate } => {
            is_put_shift(other, &Entry::new(*at, *curve, *prorate))
        }
        What::DropShift { at } => is_dropped_shift(other, *at),
        What::AddRating { rating, table } => is_added_rating(other, *rating, table),
        What::PutPeriod { period } => is_put_period(other, period),
        What::DropPeriod { from } => is_dropped_period(other, *from),
        What::PutEstimate { estimate } => is_put_estimate(other, estimate),
        What::DropEstimate { day } => is_dropped_estimate(other, *day),
        What::PutMeasurement { measurement } => is_put_measurement(other, measurement),
        What::DropMeasurement { number } => is_dropped_measurement(other, *number),
        What::Review { from, to } => is_review(other, *from, *to),
        What::Decide { from, to, decision } => is_decision(other, *from, *to, *decision),
        What::SetEdition { day, least } => is_set_edition(other, *day, *least),
    }
}

/// Whether this adds the station of these parts.
fn is_addition(
    what: &What,
    name: &Name,
    zone: &Name,
    gap: u32,
    stage_array: RoundingArray,
    discharge_array: RoundingArray,
) -> bool
    ensures same { result ≡ is_same_what (AddStation name.now zone.now gap stage_array discharge_array) what.now }
    ensures equal { result ≡ true ↔ what.now ≡ AddStation name.now zone.now gap stage_array discharge_array }
{
    match what {
        What::AddStation {
            name: own_name,
            zone: own_zone,
            gap: own_gap,
            stage_array: own_stages,
            discharge_array: own_discharges,
        } => {
            name.as_slice() == own_name.as_slice()
                && zone.as_slice() == own_zone.as_slice()
                && gap == *own_gap
                && stage_array == *own_stages
                && discharge_array == *own_discharges
        }
        _ => false,
    }
}

/// Whether this sets these parts of a station.
fn is_setting(
    what: &What,
    name: &Name,
    gap: u32,
    stage_array: RoundingArray,
    discharge_array: RoundingArray,
) -> bool
    ensures same { result ≡ is_same_what (SetStation name.now gap stage_array discharge_array) what.now }
    ensures equal { result ≡ true ↔ what.now ≡ SetStation name.now gap stage_array discharge_array }
{
    match what {
        What::SetStation {
            name: own_name,
            gap: own_gap,
            stage_array: own_stages,
            discharge_array: own_discharges,
        } => {
            name.as_slice() == own_name.as_slice()
                && gap == *own_gap
                && stage_array == *own_stages
                && discharge_array == *own_discharges
        }
        _ => false,
    }
}

/// Whether this puts these readings.
fn is_put(what: &What, readings: &[Reading]) -> bool
    ensures same { result ≡ is_same_what (PutReadings readings.now) what.now }
    ensures equal { result ≡ true ↔ what.now ≡ PutReadings readings.now }
{
    match what {
        What::PutReadings { readings: own } => are_same(readings, own.as_slice()),
        _ => false,
    }
}

/// Whether this takes out the readings from an instant to another.
fn is_dropped_span(what: &What, from: Second, to: Second) -> bool
    ensures same { result ≡ is_same_what (DropReadings from to) what.now }
    ensures equal { result ≡ true ↔ what.now ≡ DropReadings from to }
{
    match what {
        What::DropReadings {
            from: own_from,
            to: own_to,
        } => from == *own_from && to == *own_to,
        _ => false,
    }
}

/// Whether this flags the readings from an instant to another.
fn is_flagged_span(what: &What, from: Second, to: Second, flag: Flag) -> bool
    ensures same { result ≡ is_same_what (FlagReadings from to flag) what.now }
    ensures equal { result ≡ true ↔ what.now ≡ FlagReadings from to flag }
{
    match what {
        What::FlagReadings {
            from: own_from,
            to: own_to,
            flag: own_flag,
        } => from == *own_from && to == *own_to && flag == *own_flag,
        _ => false,
    }
}

/// Whether this puts the entry into the correction set of a number.
fn is_put_correction(what: &What, set: u8, entry: &Entry) -> bool
    ensures same { result ≡ is_same_what (PutCorrection set entry.now.at entry.now.curve entry.now.prorate) what.now }
    ensures equal { result ≡ true ↔ what.now ≡ PutCorrection set entry.now.at entry.now.curve entry.now.prorate }
{
    match what {
        What::PutCorrection {
            set: own_set,
            at: own_at,
            curve: own_curve,
            prorate: own_prorate,
        } => {
            set == *own_set && is_same_entry(entry, &Entry::new(*own_at, *own_curve, *own_prorate))
        }
        _ => false,
    }
}

/// Whether this takes the entry at an instant out of the correction set of a number.
fn is_dropped_correction(what: &What, set: u8, at: Second) -> bool
    ensures same { result ≡ is_same_what (DropCorrection set at) what.now }
    ensures equal { result ≡ true ↔ what.now ≡ DropCorrection set at }
{
    match what {
        What::DropCorrection {
            set: own_set,
            at: own_at,
        } => set == *own_set && at == *own_at,
        _ => false,
    }
}

/// Whether this puts the entry into the shifts.
fn is_put_shift(what: &What, entry: &Entry) -> bool
    ensures same { result ≡ is_same_what (PutShift entry.now.at entry.now.curve entry.now.prorate) what.now }
    ensures equal { result ≡ true ↔ what.now ≡ PutShift entry.now.at entry.now.curve entry.now.prorate }
{
    match what {
        What::PutShift {
            at: own_at,
            curve: own_curve,
            prorate: own_prorate,
        } => is_same_entry(entry, &Entry::new(*own_at, *own_curve, *own_prorate)),
        _ => false,
    }
}

/// Whether this takes the entry at an instant out of the shifts.
fn is_dropped_shift(what: &What, at: Second) -> bool
    ensures same { result ≡ is_same_what (DropShift at) what.now }
    ensures equal { result ≡ true ↔ what.now ≡ DropShift at }
{
    match what {
        What::DropShift { at: own_at } => at == *own_at,
        _ => false,
    }
}

/// Whether this adds the rating of a number and a table.
fn is_added_rating(what: &What, rating: u32, table: &SharedTable) -> bool
    ensures same { result ≡ is_same_what (AddRating rating table.now) what.now }
    ensures equal { result ≡ true ↔ what.now ≡ AddRating rating table.now }
{
    match what {
        What::AddRating {
            rating: own_rating,
            table: own_table,
        } => rating == *own_rating && table.is_same(own_table),
        _ => false,
    }
}

/// Whether this puts the period.
fn is_put_period(what: &What, period: &Period) -> bool
    ensures same { result ≡ is_same_what (PutPeriod period.now) what.now }
    ensures equal { result ≡ true ↔ what.now ≡ PutPeriod period.now }
{
    match what {
        What::PutPeriod { period: own } => is_same_period(period, own),
        _ => false,
    }
}

/// Whether two periods are equal.
fn is_same_period(period: &Period, other: &Period) -> bool
    ensures same { result ≡ same_period period.now other.now }
    ensures equal { result ≡ true ↔ other.now ≡ period.now }
{
    period.from == other.from && period.until == other.until && period.rating == other.rating
}

/// Whether this takes out the period that begins at an instant.
fn is_dropped_period(what: &What, from: Second) -> bool
    ensures same { result ≡ is_same_what (DropPeriod from) what.now }
    ensures equal { result ≡ true ↔ what.now ≡ DropPeriod from }
{
    match what {
        What::DropPeriod { from: own_from } => from == *own_from,
        _ => false,
    }
}

/// Whether this puts the estimate.
fn is_put_estimate(what: &What, estimate: &Estimate) -> bool
    ensures same { result ≡ is_same_what (PutEstimate estimate.now) what.now }
    ensures equal { result ≡ true ↔ what.now ≡ PutEstimate estimate.now }
{
    match what {
        What::PutEstimate { estimate: own } => estimate.is_same(own),
        _ => false,
    }
}

/// Whether this takes out the estimate of a day.
fn is_dropped_estimate(what: &What, day: Day) -> bool
    ensures same { result ≡ is_same_what (DropEstimate day) what.now }
    ensures equal { result ≡ true ↔ what.now ≡ DropEstimate day }
{
    match what {
        What::DropEstimate { day: own_day } => day == *own_day,
        _ => false,
    }
}

/// Whether this puts the measurement.
fn is_put_measurement(what: &What, measurement: &Measurement) -> bool
    ensures same { result ≡ is_same_what (PutMeasurement measurement.now) what.now }
    ensures equal { result ≡ true ↔ what.now ≡ PutMeasurement measurement.now }
{
    match what {
        What::PutMeasurement { measurement: own } => measurement.is_same(own),
        _ => false,
    }
}

/// Whether this takes out the measurement of a number.
fn is_dropped_measurement(what: &What, number: u32) -> bool
    ensures same { result ≡ is_same_what (DropMeasurement number) what.now }
    ensures equal { result ≡ true ↔ what.now ≡ DropMeasurement number }
{
    match what {
        What::DropMeasurement { number: own_number } => number == *own_number,
        _ => false,
    }
}

/// Whether this reviews the days from one to another.
fn is_review(what: &What, from: Day, to: Day) -> bool
    ensures same { result ≡ is_same_what (Review from to) what.now }
    ensures equal { result ≡ true ↔ what.now ≡ Review from to }
{
    match what {
        What::Review {
            from: own_from,
            to: own_to,
        } => from == *own_from && to == *own_to,
        _ => false,
    }
}

/// Whether this decides so on the days from one to another.
fn is_decision(what: &What, from: Day, to: Day, decision: Decision) -> bool
    ensures same { result ≡ is_same_what (Decide from to decision) what.now }
    ensures equal { result ≡ true ↔ what.now ≡ Decide from to decision }
{
    match what {
        What::Decide {
            from: own_from,
            to: own_to,
            decision: own_decision,
        } => from == *own_from && to == *own_to && decision.number() == own_decision.number(),
        _ => false,
    }
}

/// Whether this sets the edition from a day on.
fn is_set_edition(what: &What, day: Day, least: Option<u32>) -> bool
    ensures same { result ≡ is_same_what (SetEdition day least) what.now }
    ensures equal { result ≡ true ↔ what.now ≡ SetEdition day least }
{
    match what {
        What::SetEdition {
            day: own_day,
            least: own_least,
        } => day == *own_day && least == *own_least,
        _ => false,
    }
}
