//! The daily table: comma-separated lines, a line of names and a row for each day.

ghost use Rattle.std.specs.Prelude.{◌≡◌, ◌++◌, [], ℤ, map, OnOk, OnErr, IfOk};
ghost use Rattle.approval.specs.declared.status.Status.{Status};
ghost use Rattle.civil_days.specs.Texts.{day_text};
ghost use Rattle.csv.specs.Writing.{default_writer, row_text};
ghost use Rattle.http_api.specs.Columns.{AreTexts, IsBetweenRows, columns_row, given};
ghost use Rattle.http_api.specs.Tables.{answer_row, estimate_mark, mark, names, number_or_empty, published_or_empty, row_of, table_text};

use crate::days::{DayAnswer, DayReply};
use approval::Status;
use civil_days::write_day;
use csv::{Writer, WriterBuilder};
use daily_values::DayValue;
use fixed_units::{Day, NoMemory, Published, Text, write_published};
use std::alloc::Global;

/// What stands in the columns of a day's answer.
#[derive(Clone, Copy)]
struct Columns<'a> {
    /// What is answered.
    answer: &'a [u8],
    /// The edit that the day awaits.
    edit: Option<u64>,
    /// The published discharge.
    discharge: Option<Published>,
    /// The published mean stage.
    stage: Option<Published>,
    /// Whether the discharge is an estimate.
    estimated: bool,
}

/// The texts that the fields of a row are lent from, one row after another.
#[derive(Drop)]
struct RowTexts {
    day: Text,
    edit: Text,
    discharge: Text,
    stage: Text,
}

/// Adds the daily table of these days, one after another. After `NoMemory` the text is as before.
pub(crate) fn write_table(
    alloc: Global,
    days: &[DayReply<'_>],
    out: &mut Text,
) -> Result<(), NoMemory>
    ensures ok { OnOk result (out.new ≡ out.old ++ table_text (map row_of days.now)) }
    ensures err { OnErr result (out.new ≡ out.old) }
{
    let table = table_of(alloc, days)?;
    out.push_slice(table.as_slice())
}

/// The daily table of these days, one after another.
fn table_of(alloc: Global, days: &[DayReply<'_>]) -> Result<Vec<u8>, NoMemory>
    ensures { IfOk result (λ table. table.items ≡ table_text (map row_of days.now)) }
{
    let mut writer = line_writer(alloc);
    let mut texts = RowTexts::new(alloc);
    write_names(&mut writer)?;
    for day in days {
        write_row(day, &mut texts, &mut writer)?;
    }
    written(writer)
}

/// A writer of comma-separated lines, before the first one.
fn line_writer(alloc: Global) -> Writer<Vec<u8>>
    ensures empty { given result ≡ [] }
    ensures between { IsBetweenRows result }
{
    WriterBuilder::new().from_writer(Vec::new(alloc))
}

/// Writes the names of the columns.
fn write_names(writer: &mut Writer<Vec<u8>>) -> Result<(), NoMemory>
    requires { IsBetweenRows writer.old }
    ensures line { OnOk result (given writer.new ≡ given writer.old ++ row_text default_writer names) }
    ensures between { OnOk result (IsBetweenRows writer.new) }
{
    write_line(
        &[
            b"day",
            b"answer",
            b"edit",
            b"discharge",
            b"stage",
            b"mark",
            b"estimated",
        ],
        writer,
    )
}

/// Writes the row of a day, by way of the texts.
fn write_row(
    day: &DayReply<'_>,
    texts: &mut RowTexts,
    writer: &mut Writer<Vec<u8>>,
) -> Result<(), NoMemory>
    requires { IsBetweenRows writer.old }
    ensures line { OnOk result (given writer.new ≡ given writer.old ++ row_text default_writer (row_of day.now)) }
    ensures between { OnOk result (IsBetweenRows writer.new) }
{
    let columns = columns_of(&day.answer);
    texts.fill(day.day, &columns)?;
    write_fields(day, &columns, texts, writer)
}

/// Writes the line of a day with these columns, whose texts were made.
fn write_fields<'a>(
    day: &DayReply<'_>,
    columns: &Columns<'a>,
    texts: &'a RowTexts,
    writer: &mut Writer<Vec<u8>>,
) -> Result<(), NoMemory>
    requires texts { AreTexts day.now.day columns.now texts.now }
    requires between { IsBetweenRows writer.old }
    ensures line { OnOk result (given writer.new ≡ given writer.old ++ row_text default_writer (columns_row day.now.day columns.now day.now.status)) }
    ensures between { OnOk result (IsBetweenRows writer.new) }
{
    write_line(
        &[
            texts.day.as_slice(),
            columns.answer,
            texts.edit.as_slice(),
            texts.discharge.as_slice(),
            texts.stage.as_slice(),
            mark(&day.status),
            estimate_mark(columns.estimated),
        ],
        writer,
    )
}

/// Writes a line of these fields.
fn write_line(fields: &[&[u8]], writer: &mut Writer<Vec<u8>>) -> Result<(), NoMemory>
    requires { IsBetweenRows writer.old }
    ensures line { OnOk result (given writer.new ≡ given writer.old ++ row_text default_writer (map (λ field. field.now) fields.now)) }
    ensures between { OnOk result (IsBetweenRows writer.new) }
{
    match writer.write_fields(fields) {
        Ok(()) => Ok(()),
        // a vector takes each write that there is memory for
        Err(_) => Err(NoMemory),
    }
}

/// What was written.
fn written(writer: Writer<Vec<u8>>) -> Result<Vec<u8>, NoMemory>
    ensures { IfOk result (λ lines. lines.items ≡ given writer) }
{
    match writer.into_inner() {
        Ok(lines) => Ok(lines),
        Err(_) => Err(NoMemory),
    }
}

/// What the columns tell of an answer.
fn columns_of<'a>(answer: &DayAnswer<'_>) -> Columns<'a>
    ensures { (day : ℤ) (status : Status) → columns_row day result status ≡ answer_row day answer.now status }
{
    match answer {
        DayAnswer::Pending(edit) => Columns {
            answer: b"pending",
            edit: Some(*edit),
            discharge: None,
            stage: None,
            estimated: false,
        },
        DayAnswer::Computed(DayValue::Empty) => Columns {
            answer: b"empty",
            edit: None,
            discharge: None,
            stage: None,
            estimated: false,
        },
        DayAnswer::Computed(DayValue::Day(figures)) => Columns {
            answer: b"computed",
            edit: None,
            discharge: figures.discharge_text(),
            stage: figures.stage_text(),
            estimated: figures.estimate().is_some(),
        },
    }
}

impl RowTexts {
    /// The texts before the first row.
    fn new(alloc: Global) -> RowTexts {
        RowTexts {
            day: Text::new(alloc),
            edit: Text::new(alloc),
            discharge: Text::new(alloc),
            stage: Text::new(alloc),
        }
    }

    /// Makes the texts of a day and of what the columns tell of it. After `NoMemory` they may hold anything.
    fn fill(&mut self, day: Day, columns: &Columns<'_>) -> Result<(), NoMemory>
        ensures { OnOk result (AreTexts day columns.now self.new) }
    {
        set_day(day, &mut self.day)?;
        set_number(columns.edit, &mut self.edit)?;
        set_published(columns.discharge, &mut self.discharge)?;
        set_published(columns.stage, &mut self.stage)
    }
}

/// Makes the text of a day.
fn set_day(day: Day, text: &mut Text) -> Result<(), NoMemory>
    ensures { OnOk result (text.new ≡ day_text day) }
{
    text.truncate(0);
    write_day(day, text)
}

/// Makes the text of a number, which is empty where there is none.
fn set_number(number: Option<u64>, text: &mut Text) -> Result<(), NoMemory>
    ensures { OnOk result (text.new ≡ number_or_empty number) }
{
    text.truncate(0);
    match number {
        Some(number) => text.push_number(number),
        None => Ok(()),
    }
}

/// Makes the text of a published value, which is empty where there is none.
fn set_published(value: Option<Published>, text: &mut Text) -> Result<(), NoMemory>
    ensures { OnOk result (text.new ≡ published_or_empty value) }
{
    text.truncate(0);
    match value {
        Some(value) => write_published(value, text),
        None => Ok(()),
    }
}

/// How a day of this status is marked.
fn mark<'a>(status: &Status) -> &'a [u8]
    ensures { result.now ≡ mark status.now }
{
    match status {
        Status::Working | Status::InReview(_) => b"P",
        Status::Approved(_) => b"A",
    }
}

/// How an estimate is marked, and any other discharge.
fn estimate_mark<'a>(estimated: bool) -> &'a [u8]
    ensures { result.now ≡ estimate_mark estimated }
{
    if estimated { b"e" } else { b"" }
}
