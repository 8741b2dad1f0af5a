//! How an edit is made: whether what it changes is lawful is tested here, whole and by its members.

ghost use Rattle.std.specs.Prelude.{◌≡◌, ◌↔◌, [], true, ◌≤◌, ◌&&◌, int_lt, length, IfOk, IfErr, IfSome, OnErr, All};
ghost use Rattle.civil_days.specs.Starts.{IsZone};
ghost use Rattle.editions.specs.Covers.{IsLeastCover};
ghost use Rattle.edits.specs.Faults.{AddsStation, IsEditFault};
ghost use Rattle.edits.specs.Lawful.{IsLawful, AreSettings, ArePutReadings, IsGap, IsMeasurementNumber, IsPutCurve, IsPutEstimate, IsPutMeasurement, IsPutPeriod, IsPutPoint, IsPutReading, IsRatingNumber, IsReadingSpan, IsReviewSpan, IsSetEdition, IsSetNumber, IsStationZone, most_readings};
ghost use Rattle.fixed_units.specs.Quantities.{IsDay, IsStamp, is_stage, is_stamp};
ghost use Rattle.rating_tables.specs.Table.{IsRating};
ghost use Rattle.readings.specs.Readings.{IsRising};

use crate::comments::Comment;
use crate::content::{Edit, What};
use crate::estimates::Estimate;
use crate::faults::EditFault;
use crate::measurements::Measurement;
use crate::names::{Name, is_name};
use crate::senders::{By, Ref};
use civil_days::{StationZone, ZoneFault};
use curves::Curve;
use editions::is_least_cover;
use fixed_units::{
    Day, MOST_GAP, MOST_RATING_NUMBER, Micro, NoMemory, Reading, RoundingArray, Second, Site,
    is_amount, is_discharge, is_stage, is_stamp,
};
use ratings::{Period, SharedTable};
use std::alloc::Global;

impl Edit {
    /// The edit of these parts, of which what it changes is known to be lawful, with an empty comment.
    pub fn of(by: By, reference: Ref, site: Site, what: What) -> Edit
        requires { IsLawful what }
        ensures parts { (result.by ≡ by) × (result.reference ≡ reference) × (result.site ≡ site) × (result.what ≡ what) }
        ensures comment { result.comment ≡ [] }
    {
        Edit {
            by,
            reference,
            site,
            comment: Comment::empty(),
            what,
        }
    }

    /// The edit of these parts, with an empty comment.
    ///
    /// # Errors
    ///
    /// [`EditFault::NotLawful`] exactly where what it changes is not lawful, and [`EditFault::NoMemory`] where there was no
    /// memory to test the zone of a new station, which is one then.
    pub fn new(
        alloc: Global,
        by: By,
        reference: Ref,
        site: Site,
        what: What,
    ) -> Result<Edit, EditFault>
        ensures parts { IfOk result (λ edit. (edit.by ≡ by) × (edit.reference ≡ reference) × (edit.site ≡ site) × (edit.what ≡ what)) }
        ensures comment { IfOk result (λ edit. edit.comment ≡ []) }
        ensures lawful { IfOk result (λ edit. IsLawful what) }
        ensures fault { IfErr result (IsEditFault what) }
    {
        match is_lawful(alloc, &what) {
            Ok(true) => Ok(Edit::of(by, reference, site, what)),
            Ok(false) => Err(EditFault::NotLawful),
            Err(NoMemory) => Err(EditFault::NoMemory),
        }
    }
}

/// Whether what an edit changes is lawful. `NoMemory` comes only where it is, and adds a station.
fn is_lawful(alloc: Global, what: &What) -> Result<bool, NoMemory>
    ensures told { IfOk result (λ lawful. lawful ≡ true ↔ IsLawful what.now) }
    ensures memory { OnErr result (AddsStation what.now × IsLawful what.now) }
{
    match what {
        What::AddStation {
            name,
            zone,
            gap,
            stage_array,
            discharge_array,
        } => is_added_station(alloc, name, zone, *gap, *stage_array, *discharge_array),
        What::SetStation {
            name,
            gap,
            stage_array,
            discharge_array,
        } => Ok(is_set_station(name, *gap, *stage_array, *discharge_array)),
        What::PutReadings { readings } => Ok(are_put_readings(readings.as_slice())),
        What::DropReadings { from, to } => Ok(is_reading_span(*from, *to)),
        What::FlagReadings { from, to, .. } => Ok(is_reading_span(*from, *to)),
        What::PutCorrection { set, at, curve, .. } => Ok(is_put_correction(*set, *at, curve)),
        What::DropCorrection { set, at } => Ok(is_set_number(*set) && is_stamp(at.get())),
        What::PutShift { at, curve, .. } => Ok(is_stamp(at.get()) && is_put_curve(curve)),
        What::DropShift { at } => Ok(is_stamp(at.get())),
        What::AddRating { rating, table } => Ok(is_added_rating(*rating, table)),
        What::PutPeriod { period } => Ok(is_put_period(period)),
        What::DropPeriod { from } => Ok(is_stamp(from.get())),
        What::PutEstimate { estimate } => Ok(is_put_estimate(estimate)),
        What::DropEstimate { day } => Ok(is_calendar_day(*day)),
        What::PutMeasurement { measurement } => Ok(is_put_measurement(measurement)),
        What::DropMeasurement { number } => Ok(is_measurement_number(*number)),
        What::Review { from, to } => Ok(is_review_span(*from, *to)),
        What::Decide { from, to, .. } => Ok(is_review_span(*from, *to)),
        What::SetEdition { day, least } => Ok(is_set_edition(*day, *least)),
    }
}

/// Whether a station of these parts may be added. `NoMemory` comes only where it may.
fn is_added_station(
    alloc: Global,
    name: &Name,
    zone: &Name,
    gap: u32,
    stage_array: RoundingArray,
    discharge_array: RoundingArray,
) -> Result<bool, NoMemory>
    ensures told { IfOk result (λ lawful. lawful ≡ true ↔ AreSettings name.now gap stage_array discharge_array × IsStationZone zone.now) }
    ensures memory { OnErr result (AreSettings name.now gap stage_array discharge_array × IsStationZone zone.now) }
{
    if !is_set_station(name, gap, stage_array, discharge_array) {
        return Ok(false);
    }
    is_zone(alloc, zone.as_slice())
}

/// Whether these parts of a station may be set.
fn is_set_station(
    name: &Name,
    gap: u32,
    stage_array: RoundingArray,
    discharge_array: RoundingArray,
) -> bool
    ensures { result ≡ true ↔ AreSettings name.now gap stage_array discharge_array }
{
    are_settings(
        name.as_slice(),
        gap,
        &stage_array.digits(),
        &discharge_array.digits(),
    )
}

/// Whether these can be set of a station: a name, a gap tolerance in minutes, and two rounding arrays in digits.
pub fn are_settings(name: &[u8], gap: u32, stage_array: &[u8], discharge_array: &[u8]) -> bool
    ensures { result ≡ true ↔ AreSettings name.now gap stage_array.now discharge_array.now }
{
    is_name(name)
        && is_gap(gap)
        && RoundingArray::read(stage_array).is_some()
        && RoundingArray::read(discharge_array).is_some()
}

/// Whether the number is a gap tolerance: 1 to 720 minutes.
pub fn is_gap(gap: u32) -> bool
    ensures { result ≡ true ↔ IsGap gap }
{
    (1..=MOST_GAP).contains(&gap)
}

/// Whether the text is a name, and the zone of a station. `NoMemory` comes only where it is.
pub fn is_zone(alloc: Global, text: &[u8]) -> Result<bool, NoMemory>
    ensures told { IfOk result (λ zone. zone ≡ true ↔ IsStationZone text.now) }
    ensures memory { OnErr result (IsStationZone text.now) }
{
    if !is_name(text) {
        return Ok(false);
    }
    let Ok(text) = str::from_utf8(text) else {
        return Ok(false);
    };
    match StationZone::read(alloc, text) {
        Ok(_) => Ok(true),
        Err(ZoneFault::BadZone) => Ok(false),
        Err(ZoneFault::NoMemory) => Err(NoMemory),
    }
}

/// Whether an edit may put these readings: one pass over them, without memory.
pub fn are_put_readings(readings: &[Reading]) -> bool
    ensures { result ≡ true ↔ ArePutReadings readings.now }
{
    is_reading_count(readings.len()) && are_rising_readings(readings)
}

/// Whether an edit may put so many readings: 1 to 100,000.
pub fn is_reading_count(count: usize) -> bool
    ensures { result ≡ true ↔ (1 ≤ count) × (count ≤ most_readings) }
{
    (1..=100_000).contains(&count)
}

/// Whether these readings rise by instant, and an edit may put each.
fn are_rising_readings(readings: &[Reading]) -> bool
    requires { 1 ≤ length readings.now }
    ensures { result ≡ true ↔ IsRising readings.now × All IsPutReading readings.now }
{
    is_put_reading(&readings[0]) && readings.is_sorted_by(is_put_behind)
}

/// Whether an edit may put this reading.
pub fn is_put_reading(reading: &Reading) -> bool
    ensures test { result ≡ (is_stamp reading.now.at && is_stage reading.now.raw) }
    ensures range { result ≡ true ↔ IsPutReading reading.now }
{
    is_stamp(reading.at.get()) && is_stage(reading.raw.get())
}

/// Whether an edit may put a reading behind another one, which is of an earlier instant.
fn is_put_behind(reading: &Reading, next: &Reading) -> bool
    ensures { result ≡ (int_lt reading.now.at next.now.at && (is_stamp next.now.at && is_stage next.now.raw)) }
{
    reading.at < next.at && is_put_reading(next)
}

/// Whether an edit may drop or flag the readings from an instant to another: a stamp and one that is not before it.
pub fn is_reading_span(from: Second, to: Second) -> bool
    ensures { result ≡ true ↔ IsReadingSpan from to }
{
    is_stamp(from.get()) && is_stamp(to.get()) && from <= to
}

/// Whether the number is that of a correction set: 1 to 3.
pub fn is_set_number(set: u8) -> bool
    ensures { result ≡ true ↔ IsSetNumber set }
{
    (1..=3).contains(&set)
}

/// Whether an edit may put a curve into the correction set of a number from an instant on.
fn is_put_correction(set: u8, at: Second, curve: &Curve) -> bool
    ensures { result ≡ true ↔ IsSetNumber set × IsStamp at × IsPutCurve curve.now }
{
    is_set_number(set) && is_stamp(at.get()) && is_put_curve(curve)
}

/// Whether an edit may put this curve.
pub fn is_put_curve(curve: &Curve) -> bool
    ensures { result ≡ true ↔ IsPutCurve curve.now }
{
    are_put_points(curve.points())
}

/// Whether each of these is a point of a curve that an edit may put.
fn are_put_points(points: &[(Micro, Micro)]) -> bool
    ensures { result ≡ true ↔ All IsPutPoint points.now }
{
    points.iter().all(is_put_point)
}

/// Whether an edit may put a curve with this point: a stage and an amount in range.
pub fn is_put_point(point: &(Micro, Micro)) -> bool
    ensures { result ≡ true ↔ IsPutPoint point.now }
{
    is_stage(point.0.get()) && is_amount(point.1.get())
}

/// Whether the number is that of a rating: 1 to 999,999.
pub fn is_rating_number(rating: u32) -> bool
    ensures { result ≡ true ↔ IsRatingNumber rating }
{
    (1..=MOST_RATING_NUMBER).contains(&rating)
}

/// Whether an edit may add the rating of a number and a table.
fn is_added_rating(rating: u32, table: &SharedTable) -> bool
    ensures { result ≡ true ↔ IsRatingNumber rating × IsRating table.now }
{
    is_rating_number(rating) && table.table().is_rating()
}

/// Whether an edit may put this period, which ends after it begins.
pub fn is_put_period(period: &Period) -> bool
    ensures { result ≡ true ↔ IsPutPeriod period.now }
{
    is_rating_number(period.rating) && is_stamp(period.from.get()) && is_stamp_or_none(period.until)
}

/// Whether an end, if there is one, is a stamp.
fn is_stamp_or_none(until: Option<Second>) -> bool
    ensures { result ≡ true ↔ IfSome until IsStamp }
{
    match until {
        Some(until) => is_stamp(until.get()),
        None => true,
    }
}

/// Whether an edit may put this estimate.
pub fn is_put_estimate(estimate: &Estimate) -> bool
    ensures { result ≡ true ↔ IsPutEstimate estimate.now }
{
    is_calendar_day(estimate.day) && is_discharge(estimate.discharge.get())
}

/// Whether the day is one of the calendar: each is.
fn is_calendar_day(day: Day) -> bool
    ensures always { result ≡ true }
    ensures range { IsDay day }
{
    let _number = day.get();
    true
}

/// Whether the number is that of a measurement: from 1.
pub fn is_measurement_number(number: u32) -> bool
    ensures { result ≡ true ↔ IsMeasurementNumber number }
{
    1 <= number
}

/// Whether an edit may review the days from one to another, or decide on them: at most 366, both included.
pub fn is_review_span(from: Day, to: Day) -> bool
    ensures { result ≡ true ↔ IsReviewSpan from to }
{
    from <= to && to.get() - from.get() < 366
}

/// Whether an edit may put this measurement.
pub fn is_put_measurement(measurement: &Measurement) -> bool
    ensures { result ≡ true ↔ IsPutMeasurement measurement.now }
{
    is_measurement_number(measurement.number)
        && is_stamp(measurement.at.get())
        && is_stage(measurement.gage.get())
        && is_discharge(measurement.discharge.get())
}

/// Whether an edit may set this edition from a day on.
pub fn is_set_edition(day: Day, least: Option<u32>) -> bool
    ensures { result ≡ true ↔ IsSetEdition day least }
{
    is_calendar_day(day) && is_least_cover_or_none(least)
}

/// Whether a least cover, if there is one, is in range.
fn is_least_cover_or_none(least: Option<u32>) -> bool
    ensures { result ≡ true ↔ IfSome least IsLeastCover }
{
    match least {
        Some(minutes) => is_least_cover(minutes),
        None => true,
    }
}
