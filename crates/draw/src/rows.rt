//! What a line behind the station's states: a reading, a day or a measurement, or why it is no row.

ghost use Rattle.std.specs.Prelude.{◌≡◌};
ghost use Rattle.draw.specs.Rows as rows;
ghost use Rattle.draw.specs.Rows.{date_in, discharge_in, estimate_in, flag_in, instant_in, mean_discharge_in, mean_stage_in, number_in, stage_in, status_in, texts, whole_in};

use civil_days::{read_day, read_instant};
use fixed_units::{Day, Flag, Micro, Reading, Second, is_discharge, is_stage, read_decimal};

/// What is wrong with a line.
#[derive(Clone, Copy)]
pub enum Why {
    /// Its first field is no kind of row.
    Kind,
    /// It has not as many fields as its kind.
    Fields,
    /// The first row is not the station's, or a further one is.
    Station,
    /// The site is none.
    Site,
    /// The name is too long, or has a control character.
    Name,
    /// The zone is none.
    Zone,
    /// The gap tolerance is none.
    Gap,
    /// The instant is none.
    Instant,
    /// The date is none.
    Date,
    /// The number is none.
    Number,
    /// The stage is none.
    Stage,
    /// The discharge is none.
    Discharge,
    /// The flag is none.
    Flag,
    /// The mark of an estimate is none.
    Estimated,
    /// The status of a day is none.
    Status,
    /// The instant or the date is not after that of the row of its kind before.
    Order,
    /// There was no memory.
    NoMemory,
}

/// How far a day's record is.
#[derive(Clone, Copy)]
pub enum Status {
    /// It is worked.
    Working,
    /// It is in review.
    Review,
    /// It is approved.
    Approved,
}

/// A day.
#[derive(Clone, Copy)]
pub struct DayRow {
    /// Its date.
    pub day: Day,
    /// Its mean stage, where there is one.
    pub stage: Option<Micro>,
    /// Its discharge, where there is one.
    pub discharge: Option<Micro>,
    /// Whether the discharge is an estimate.
    pub estimated: bool,
    /// How far its record is.
    pub status: Status,
}

/// A measurement.
#[derive(Clone, Copy)]
pub struct MeasurementRow {
    /// Its number.
    pub number: u32,
    /// When it was made.
    pub at: Second,
    /// The gage height.
    pub stage: Micro,
    /// The discharge.
    pub discharge: Micro,
}

/// A row.
#[derive(Clone, Copy)]
pub enum Row {
    /// A reading.
    Reading(Reading),
    /// A day.
    Day(DayRow),
    /// A measurement.
    Measurement(MeasurementRow),
}

/// What the fields of a line behind the station's state.
pub fn read_row(fields: &[&str]) -> Result<Row, Why>
    ensures { result ≡ rows.row_in (texts fields.now) }
{
    let [kind, values @ ..] = fields else {
        return Err(Why::Kind);
    };
    row_by(kind, values)
}

/// What the fields behind a kind state.
fn row_by(kind: &str, values: &[&str]) -> Result<Row, Why>
    ensures { result ≡ rows.row_by kind.now (texts values.now) }
{
    let kind = kind.as_bytes();
    if kind == b"reading".as_slice() {
        read_reading(values)
    } else if kind == b"day".as_slice() {
        read_day_row(values)
    } else if kind == b"measurement".as_slice() {
        read_measurement(values)
    } else if kind == b"station".as_slice() {
        Err(Why::Station)
    } else {
        Err(Why::Kind)
    }
}

/// The reading of these fields.
fn read_reading(fields: &[&str]) -> Result<Row, Why>
    ensures { result ≡ rows.reading_in (texts fields.now) }
{
    let [at, stage, flag] = fields else {
        return Err(Why::Fields);
    };
    reading_of(at, stage, flag)
}

/// The reading that three fields write.
fn reading_of(at: &str, stage: &str, flag: &str) -> Result<Row, Why>
    ensures { result ≡ rows.reading_from (instant_in at.now) (stage_in stage.now) (flag_in flag.now) }
{
    let at = instant_in(at)?;
    let raw = stage_in(stage)?;
    let flag = flag_in(flag)?;
    Ok(Row::Reading(Reading { at, raw, flag }))
}

/// The day of these fields.
fn read_day_row(fields: &[&str]) -> Result<Row, Why>
    ensures { result ≡ rows.day_in (texts fields.now) }
{
    let [date, stage, discharge, estimate, status] = fields else {
        return Err(Why::Fields);
    };
    day_of(date, stage, discharge, estimate, status)
}

/// The day that five fields write.
fn day_of(
    date: &str,
    stage: &str,
    discharge: &str,
    estimate: &str,
    status: &str,
) -> Result<Row, Why>
    ensures { result ≡ rows.day_from (date_in date.now) (mean_stage_in stage.now) (mean_discharge_in discharge.now) (estimate_in estimate.now) (status_in status.now) }
{
    let day = date_in(date)?;
    let stage = mean_stage_in(stage)?;
    let discharge = mean_discharge_in(discharge)?;
    let estimated = estimate_in(estimate)?;
    let status = status_in(status)?;
    Ok(Row::Day(DayRow {
        day,
        stage,
        discharge,
        estimated,
        status,
    }))
}

/// The measurement of these fields.
fn read_measurement(fields: &[&str]) -> Result<Row, Why>
    ensures { result ≡ rows.measurement_in (texts fields.now) }
{
    let [number, at, stage, discharge] = fields else {
        return Err(Why::Fields);
    };
    measurement_of(number, at, stage, discharge)
}

/// The measurement that four fields write.
fn measurement_of(number: &str, at: &str, stage: &str, discharge: &str) -> Result<Row, Why>
    ensures { result ≡ rows.measurement_from (number_in number.now) (instant_in at.now) (stage_in stage.now) (discharge_in discharge.now) }
{
    let number = number_in(number)?;
    let at = instant_in(at)?;
    let stage = stage_in(stage)?;
    let discharge = discharge_in(discharge)?;
    Ok(Row::Measurement(MeasurementRow {
        number,
        at,
        stage,
        discharge,
    }))
}

/// The instant that a field writes.
#[tactic(auto, unfolding(crate::specs::Rows::instant_in))]
fn instant_in(field: &str) -> Result<Second, Why>
    ensures { result ≡ instant_in field.now }
{
    read_instant(field.as_bytes()).ok_or(Why::Instant)
}

/// The date that a field writes.
#[tactic(auto, unfolding(crate::specs::Rows::date_in))]
fn date_in(field: &str) -> Result<Day, Why>
    ensures { result ≡ date_in field.now }
{
    read_day(field.as_bytes()).ok_or(Why::Date)
}

/// The number of a measurement that a field writes.
#[tactic(auto, unfolding(crate::specs::Rows::number_in))]
fn number_in(field: &str) -> Result<u32, Why>
    ensures { result ≡ number_in field.now }
{
    whole_in(field).ok_or(Why::Number)
}

/// The whole number from 0 to 999,999,999 that a field writes.
#[tactic(auto, unfolding(crate::specs::Rows::whole_in))]
pub fn whole_in(field: &str) -> Option<u32>
    ensures { result ≡ whole_in field.now }
{
    match read_decimal(field.as_bytes()) {
        Ok(number) => whole_of(number.get()),
        Err(_) => None,
    }
}

/// The whole number of so many millionths.
fn whole_of(millionths: i64) -> Option<u32>
    ensures { result ≡ rows.whole_of millionths }
{
    if (0..=999_999_999_000_000).contains(&millionths) && millionths.rem_euclid(1_000_000) == 0 {
        Some(millionths.div_euclid(1_000_000) as u32)
    } else {
        None
    }
}

/// The stage that a field writes.
#[tactic(auto, unfolding(crate::specs::Rows::stage_in))]
fn stage_in(field: &str) -> Result<Micro, Why>
    ensures { result ≡ stage_in field.now }
{
    match read_decimal(field.as_bytes()) {
        Ok(stage) if is_stage(stage.get()) => Ok(stage),
        _ => Err(Why::Stage),
    }
}

/// The discharge that a field writes.
#[tactic(auto, unfolding(crate::specs::Rows::discharge_in))]
fn discharge_in(field: &str) -> Result<Micro, Why>
    ensures { result ≡ discharge_in field.now }
{
    match read_decimal(field.as_bytes()) {
        Ok(discharge) if is_discharge(discharge.get()) => Ok(discharge),
        _ => Err(Why::Discharge),
    }
}

/// The mean stage in a field, which may be empty.
#[tactic(auto, unfolding(crate::specs::Rows::mean_stage_in))]
fn mean_stage_in(field: &str) -> Result<Option<Micro>, Why>
    ensures { result ≡ mean_stage_in field.now }
{
    if field.is_empty() {
        return Ok(None);
    }
    let stage = stage_in(field)?;
    Ok(Some(stage))
}

/// The mean discharge in a field, which may be empty.
#[tactic(auto, unfolding(crate::specs::Rows::mean_discharge_in))]
fn mean_discharge_in(field: &str) -> Result<Option<Micro>, Why>
    ensures { result ≡ mean_discharge_in field.now }
{
    if field.is_empty() {
        return Ok(None);
    }
    let discharge = discharge_in(field)?;
    Ok(Some(discharge))
}

/// The flag of a reading.
#[tactic(auto, unfolding(crate::specs::Rows::flag_in))]
fn flag_in(field: &str) -> Result<Flag, Why>
    ensures { result ≡ flag_in field.now }
{
    let field = field.as_bytes();
    if field == b"ok".as_slice() {
        Ok(Flag::Usable)
    } else if field == b"erroneous".as_slice() {
        Ok(Flag::Erroneous)
    } else if field == b"affected".as_slice() {
        Ok(Flag::Affected)
    } else {
        Err(Why::Flag)
    }
}

/// Whether a discharge is an estimate.
#[tactic(auto, unfolding(crate::specs::Rows::estimate_in))]
fn estimate_in(field: &str) -> Result<bool, Why>
    ensures { result ≡ estimate_in field.now }
{
    if field.is_empty() {
        Ok(false)
    } else if field.as_bytes() == b"e".as_slice() {
        Ok(true)
    } else {
        Err(Why::Estimated)
    }
}

/// The status of a day.
#[tactic(auto, unfolding(crate::specs::Rows::status_in))]
fn status_in(field: &str) -> Result<Status, Why>
    ensures { result ≡ status_in field.now }
{
    let field = field.as_bytes();
    if field == b"working".as_slice() {
        Ok(Status::Working)
    } else if field == b"review".as_slice() {
        Ok(Status::Review)
    } else if field == b"approved".as_slice() {
        Ok(Status::Approved)
    } else {
        Err(Why::Status)
    }
}
