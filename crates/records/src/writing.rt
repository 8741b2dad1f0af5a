//! The bytes of a record's parts, added to a vector.

ghost use Rattle.std.specs.Prelude.{◌≡◌, ◌<◌, ◌++◌, ◌∷◌, [], length, flat_map, OnOk, All};
ghost use Rattle.std.specs.Int.{w32, w64, to_le_bytes};
ghost use Rattle.edits.specs.Decisions.{decision_number};
ghost use Rattle.edits.specs.Lawful.{IsLawful};
ghost use Rattle.records.specs.Payloads.{short_text, comment_bytes, signed_number, site_number, flag_number, reading_bytes, mark_number, point_bytes, curve_bytes, entry_bytes, table_bytes, end_bytes, period_bytes, day_number, estimate_bytes, measurement_bytes, least_bytes, fields, edit_bytes, sheet_bytes, payload};
ghost use Rattle.records.specs.Sheets.{IsSheet, Record};

use crate::formats::Format;
use crate::number_writing::{put_day, put_micro, put_point, put_second, put_u32};
use crate::payloads::Record;
use curves::Curve;
use edits::{Comment, Decision, Edit, Estimate, Measurement, Name, What};
use fixed_units::{Day, Flag, Micro, NoMemory, Reading, RoundingArray, Second, Site, Text};
use ratings::{Period, SharedTable};

/// Adds the payload of a record in a format.
pub(crate) fn put_record(out: &mut Vec<u8>, piece: &Record, format: Format) -> Result<(), NoMemory>
    ensures { OnOk result (out.new.items ≡ out.old.items ++ payload format piece.now) }
{
    put_edit(out, piece.edit(), format)?;
    put_sheets(out, piece.sheets().as_slice())
}

/// Adds the bytes of an edit in a format.
fn put_edit(out: &mut Vec<u8>, edit: &Edit, format: Format) -> Result<(), NoMemory>
    ensures { OnOk result (out.new.items ≡ out.old.items ++ edit_bytes format edit.now) }
{
    out.push(edit.what.kind().number())?;
    put_short_text(out, edit.by.as_slice())?;
    put_short_text(out, edit.reference.as_slice())?;
    put_site(out, edit.site)?;
    put_comment(out, &edit.comment, format)?;
    put_fields(out, &edit.what)
}

/// Adds a comment, where the format has one.
fn put_comment(out: &mut Vec<u8>, comment: &Comment, format: Format) -> Result<(), NoMemory>
    ensures { OnOk result (out.new.items ≡ out.old.items ++ comment_bytes format comment.now) }
{
    match format {
        Format::First => Ok(()),
        Format::Second => put_short_text(out, comment.as_slice()),
    }
}

/// Adds a byte of length and the bytes of a text.
#[inline(always)]
fn put_short_text(out: &mut Vec<u8>, text: &[u8]) -> Result<(), NoMemory>
    requires short { length text.now < 256 }
    ensures { OnOk result (out.new.items ≡ out.old.items ++ short_text text.now) }
{
    out.push(text.len() as u8)?;
    out.extend_from_slice(text)?;
    Ok(())
}

/// Adds how many digits a site number has, and its value.
fn put_site(out: &mut Vec<u8>, site: Site) -> Result<(), NoMemory>
    ensures { OnOk result (out.new.items ≡ out.old.items ++ site_number site) }
{
    out.push(site.digits())?;
    out.extend_from_slice(&site.value().to_le_bytes())?;
    Ok(())
}

/// Adds the fields of a kind.
fn put_fields(out: &mut Vec<u8>, what: &What) -> Result<(), NoMemory>
    requires { IsLawful what.now }
    ensures { OnOk result (out.new.items ≡ out.old.items ++ fields what.now) }
{
    match what {
        What::AddStation {
            name,
            zone,
            gap,
            stage_array,
            discharge_array,
        } => put_addition(out, name, zone, *gap, *stage_array, *discharge_array),
        What::SetStation {
            name,
            gap,
            stage_array,
            discharge_array,
        } => put_setting(out, name, *gap, *stage_array, *discharge_array),
        What::PutReadings { readings } => put_readings(out, readings.as_slice()),
        What::DropReadings { from, to } => put_span(out, *from, *to),
        What::FlagReadings { from, to, flag } => put_flagged_span(out, *from, *to, *flag),
        What::PutCorrection {
            set,
            at,
            curve,
            prorate,
        } => put_correction(out, *set, *at, curve, *prorate),
        What::DropCorrection { set, at } => put_dropped_correction(out, *set, *at),
        What::PutShift { at, curve, prorate } => put_entry(out, *at, curve, *prorate),
        What::DropShift { at } => put_second(out, *at),
        What::AddRating { rating, table } => put_rating(out, *rating, table),
        What::PutPeriod { period } => put_period(out, period),
        What::DropPeriod { from } => put_second(out, *from),
        What::PutEstimate { estimate } => put_estimate(out, estimate),
        What::DropEstimate { day } => put_day(out, *day),
        What::PutMeasurement { measurement } => put_measurement(out, measurement),
        What::DropMeasurement { number } => put_u32(out, *number),
        What::Review { from, to } => put_days(out, *from, *to),
        What::Decide { from, to, decision } => put_decision(out, *from, *to, *decision),
        What::SetEdition { day, least } => put_edition(out, *day, *least),
    }
}

/// Adds a name, and the other fields of a station that is added.
fn put_addition(
    out: &mut Vec<u8>,
    name: &Name,
    zone: &Name,
    gap: u32,
    stage_array: RoundingArray,
    discharge_array: RoundingArray,
) -> Result<(), NoMemory>
    ensures { OnOk result (out.new.items ≡ out.old.items ++ (short_text name.now ++ short_text zone.now ++ to_le_bytes w32 gap ++ stage_array ++ discharge_array)) }
{
    put_short_text(out, name.as_slice())?;
    put_setting(out, zone, gap, stage_array, discharge_array)
}

/// Adds a name or a zone, a gap tolerance and two rounding arrays.
fn put_setting(
    out: &mut Vec<u8>,
    name: &Name,
    gap: u32,
    stage_array: RoundingArray,
    discharge_array: RoundingArray,
) -> Result<(), NoMemory>
    ensures { OnOk result (out.new.items ≡ out.old.items ++ short_text name.now ++ to_le_bytes w32 gap ++ stage_array ++ discharge_array) }
{
    put_short_text(out, name.as_slice())?;
    put_arrays(out, gap, stage_array, discharge_array)
}

/// Adds a gap tolerance and two rounding arrays.
fn put_arrays(
    out: &mut Vec<u8>,
    gap: u32,
    stage_array: RoundingArray,
    discharge_array: RoundingArray,
) -> Result<(), NoMemory>
    ensures { OnOk result (out.new.items ≡ out.old.items ++ to_le_bytes w32 gap ++ stage_array ++ discharge_array) }
{
    put_u32(out, gap)?;
    out.extend_from_slice(&stage_array.digits())?;
    out.extend_from_slice(&discharge_array.digits())?;
    Ok(())
}

/// Adds how many readings follow, and the readings.
fn put_readings(out: &mut Vec<u8>, readings: &[Reading]) -> Result<(), NoMemory>
    requires { length readings.now < 4_294_967_296 }
    ensures { OnOk result (out.new.items ≡ out.old.items ++ to_le_bytes w32 (length readings.now) ++ flat_map reading_bytes readings.now) }
{
    put_u32(out, readings.len() as u32)?;
    for reading in readings {
        put_reading(out, reading)?;
    }
    Ok(())
}

/// Adds the instant of a reading, its stage and its flag.
fn put_reading(out: &mut Vec<u8>, reading: &Reading) -> Result<(), NoMemory>
    ensures { OnOk result (out.new.items ≡ out.old.items ++ reading_bytes reading.now) }
{
    out.extend_from_slice(&bytes_of(reading))?;
    Ok(())
}

/// The seventeen bytes of a reading.
fn bytes_of(reading: &Reading) -> [u8; 17]
    ensures { result ≡ reading_bytes reading.now }
{
    let mut bytes = [0; 17];
    bytes[..8].copy_from_slice(&reading.at.get().to_le_bytes());
    bytes[8..16].copy_from_slice(&reading.raw.get().to_le_bytes());
    bytes[16] = flag_of(reading.flag);
    bytes
}

/// Adds the first instant of a span and its last.
fn put_span(out: &mut Vec<u8>, from: Second, to: Second) -> Result<(), NoMemory>
    ensures { OnOk result (out.new.items ≡ out.old.items ++ (signed_number from ++ signed_number to)) }
{
    put_second(out, from)?;
    put_second(out, to)
}

/// Adds the first instant of a span, its last and the flag of its readings.
fn put_flagged_span(out: &mut Vec<u8>, from: Second, to: Second, flag: Flag) -> Result<(), NoMemory>
    ensures { OnOk result (out.new.items ≡ out.old.items ++ (signed_number from ++ (signed_number to ++ flag_number flag ∷ []))) }
{
    put_span(out, from, to)?;
    out.push(flag_of(flag))?;
    Ok(())
}

/// Adds the instant of an entry, its curve, and whether it prorates.
fn put_entry(out: &mut Vec<u8>, at: Second, curve: &Curve, prorate: bool) -> Result<(), NoMemory>
    ensures { OnOk result (out.new.items ≡ out.old.items ++ entry_bytes at curve.now prorate) }
{
    put_second(out, at)?;
    put_points(out, curve.points())?;
    out.push(u8::from(prorate))?;
    Ok(())
}

/// Adds the number of a correction set, and an entry.
fn put_correction(
    out: &mut Vec<u8>,
    set: u8,
    at: Second,
    curve: &Curve,
    prorate: bool,
) -> Result<(), NoMemory>
    ensures { OnOk result (out.new.items ≡ out.old.items ++ set ∷ entry_bytes at curve.now prorate) }
{
    out.push(set)?;
    put_entry(out, at, curve, prorate)
}

/// Adds the number of a correction set, and the instant of an entry.
fn put_dropped_correction(out: &mut Vec<u8>, set: u8, at: Second) -> Result<(), NoMemory>
    ensures { OnOk result (out.new.items ≡ out.old.items ++ set ∷ signed_number at) }
{
    out.push(set)?;
    put_second(out, at)
}

/// Adds how many points a curve has, and the points.
fn put_points(out: &mut Vec<u8>, points: &[(Micro, Micro)]) -> Result<(), NoMemory>
    requires { length points.now < 256 }
    ensures { OnOk result (out.new.items ≡ out.old.items ++ curve_bytes points.now) }
{
    out.push(points.len() as u8)?;
    for point in points {
        put_point(out, point)?;
    }
    Ok(())
}

/// Adds the number of a rating, and its table.
fn put_rating(out: &mut Vec<u8>, rating: u32, table: &SharedTable) -> Result<(), NoMemory>
    requires { length table.now < 4_294_967_296 }
    ensures { OnOk result (out.new.items ≡ out.old.items ++ (to_le_bytes w32 rating ++ table_bytes table.now)) }
{
    put_u32(out, rating)?;
    put_rows(out, table.table().rows())
}

/// Adds how many rows a table has, and the rows.
fn put_rows(out: &mut Vec<u8>, rows: &[(Micro, Micro)]) -> Result<(), NoMemory>
    requires { length rows.now < 4_294_967_296 }
    ensures { OnOk result (out.new.items ≡ out.old.items ++ table_bytes rows.now) }
{
    put_u32(out, rows.len() as u32)?;
    for row in rows {
        put_point(out, row)?;
    }
    Ok(())
}

/// Adds the number of the rating that is in force in a period, and its start and end.
fn put_period(out: &mut Vec<u8>, period: &Period) -> Result<(), NoMemory>
    ensures { OnOk result (out.new.items ≡ out.old.items ++ period_bytes period.now) }
{
    put_u32(out, period.rating)?;
    put_second(out, period.from)?;
    put_end(out, period.until)
}

/// Adds whether a period ends, and its end where it does.
fn put_end(out: &mut Vec<u8>, until: Option<Second>) -> Result<(), NoMemory>
    ensures { OnOk result (out.new.items ≡ out.old.items ++ end_bytes until) }
{
    out.push(u8::from(until.is_some()))?;
    match until {
        Some(until) => put_second(out, until),
        None => Ok(()),
    }
}

/// Adds the day of an estimate, and its discharge.
fn put_estimate(out: &mut Vec<u8>, estimate: &Estimate) -> Result<(), NoMemory>
    ensures { OnOk result (out.new.items ≡ out.old.items ++ estimate_bytes estimate.now) }
{
    put_day(out, estimate.day)?;
    put_micro(out, estimate.discharge)
}

/// Adds the number of a measurement, its instant, its gage height, its discharge and its grade.
fn put_measurement(out: &mut Vec<u8>, measurement: &Measurement) -> Result<(), NoMemory>
    ensures { OnOk result (out.new.items ≡ out.old.items ++ measurement_bytes measurement.now) }
{
    put_u32(out, measurement.number)?;
    put_second(out, measurement.at)?;
    put_micro(out, measurement.gage)?;
    put_micro(out, measurement.discharge)?;
    out.push(measurement.grade.number())?;
    Ok(())
}

/// Adds the first of some days and the last.
fn put_days(out: &mut Vec<u8>, from: Day, to: Day) -> Result<(), NoMemory>
    ensures { OnOk result (out.new.items ≡ out.old.items ++ (day_number from ++ day_number to)) }
{
    put_day(out, from)?;
    put_day(out, to)
}

/// Adds the first of some days, the last, and what is decided on them.
fn put_decision(out: &mut Vec<u8>, from: Day, to: Day, decision: Decision) -> Result<(), NoMemory>
    ensures { OnOk result (out.new.items ≡ out.old.items ++ (day_number from ++ (day_number to ++ decision_number decision ∷ []))) }
{
    put_days(out, from, to)?;
    out.push(decision.number())?;
    Ok(())
}

/// Adds the day of an edition, and its least cover.
fn put_edition(out: &mut Vec<u8>, day: Day, least: Option<u32>) -> Result<(), NoMemory>
    ensures { OnOk result (out.new.items ≡ out.old.items ++ (day_number day ++ least_bytes least)) }
{
    put_day(out, day)?;
    put_least(out, least)
}

/// Adds whether there is a least cover, and its minutes where there is.
fn put_least(out: &mut Vec<u8>, least: Option<u32>) -> Result<(), NoMemory>
    ensures { OnOk result (out.new.items ≡ out.old.items ++ least_bytes least) }
{
    out.push(u8::from(least.is_some()))?;
    match least {
        Some(minutes) => put_u32(out, minutes),
        None => Ok(()),
    }
}

/// Adds the length and the bytes of each sheet.
fn put_sheets(out: &mut Vec<u8>, sheets: &[Text]) -> Result<(), NoMemory>
    requires { All IsSheet sheets.now }
    ensures { OnOk result (out.new.items ≡ out.old.items ++ flat_map sheet_bytes sheets.now) }
{
    for sheet in sheets {
        put_sheet(out, sheet.as_slice())?;
    }
    Ok(())
}

/// Adds the length and the bytes of a sheet.
fn put_sheet(out: &mut Vec<u8>, sheet: &[u8]) -> Result<(), NoMemory>
    requires { IsSheet sheet.now }
    ensures { OnOk result (out.new.items ≡ out.old.items ++ sheet_bytes sheet.now) }
{
    put_u32(out, sheet.len() as u32)?;
    out.extend_from_slice(sheet)?;
    Ok(())
}

/// The number of a flag.
fn flag_of(flag: Flag) -> u8
    ensures { result ≡ flag_number flag }
{
    match flag {
        Flag::Usable => 0,
        Flag::Erroneous => 1,
        Flag::Affected => 2,
    }
}
