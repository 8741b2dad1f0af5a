//! The usual form of a put of readings: its members each once and in order, as loggers and the programs before them send it. It is read
//! token by token straight into readings, without a tree. Of a body that is not so nothing is said: its tree decides.

ghost use Rattle.std.specs.Prelude.{◌≡◌, ◌<◌, ◌∷◌, ◌++◌, [], length, Ok, IfSome, codes};
ghost use Rattle.std.specs.Bool.{MatchBool, OnTrue};
ghost use Rattle.edit_bodies.specs.Bodies.{edit_of_value, parts};
ghost use Rattle.edit_bodies.specs.CompactForm.{StatesReview};
ghost use Rattle.edit_bodies.specs.Grammars.{day_of, last_day_of};
ghost use Rattle.edit_bodies.specs.Members.{member_text};
ghost use Rattle.edit_bodies.specs.UsualForm.{StatesPut, StatesReadings, TakesPut, row_json, row_texts};
ghost use Rattle.edits.specs.Lawful.{ArePutReadings, IsReviewSpan};
ghost use Rattle.json.specs.Token.{begin_array, begin_object, end_array, end_object, key, string as string_token};
ghost use Rattle.json.specs.Tree.{json_tokens};
ghost use Rattle.serde_json.specs.Data.{string};
ghost use Rattle.serde_json.specs.Read.{read};

use crate::members::Member;
use crate::reading_rows::{Row, may_follow, reading_of};
use civil_days::read_day;
use edits::{By, Edit, Ref, What, is_review_span};
use fixed_units::Day;
use json::{Reader, Scratch, Token};
use readings::ReadingList;
use site_texts::read_site;
use std::alloc::Global;

/// How a put mostly begins. A short one that begins so is tried too.
const BEGINNING: &str = r#"{"kind":"PutReadings""#;

/// From how many bytes on a body is tried, however it begins.
const LONG: usize = 512;

/// The strings of the members before the readings, which lie in the text or in the scratch.
#[derive(Clone, Copy, Drop)]
pub(crate) struct Sender<'a> {
    /// The initials of the person who makes the edit.
    pub(crate) by: &'a str,
    /// The reference under which it is sent.
    pub(crate) reference: &'a str,
    /// The site whose record it changes.
    pub(crate) site: &'a str,
}

/// The edit that a text is, where it is a put of the usual form. Of another text nothing is said.
pub(crate) fn usual_put(alloc: Global, text: &str, scratch: &mut Scratch) -> Option<Edit>
    ensures { IfSome result (λ edit. edit_of_value (read text.now) ≡ Ok (parts edit)) }
{
    // so that of other edits, which are short, the length and the beginning alone are compared
    if text.len() < LONG && !text.starts_with(BEGINNING) {
        return None;
    }
    let mut reader = Reader::new(text, scratch).ok()?;
    let (sender, readings) = put_in(alloc, &mut reader)?;
    put_of(&sender, readings)
}

/// The put of these strings and readings.
pub(crate) fn put_of(sender: &Sender<'_>, readings: ReadingList) -> Option<Edit>
    requires { ArePutReadings readings }
    ensures { IfSome result (StatesPut sender.now readings) }
{
    let by = By::new(sender.by.as_bytes())?;
    let reference = Ref::new(sender.reference.as_bytes())?;
    let site = read_site(sender.site.as_bytes())?;
    Some(Edit::of(by, reference, site, What::PutReadings { readings }))
}

/// The review of these strings.
pub(crate) fn review_of(sender: &Sender<'_>, from: &str, to: &str) -> Option<Edit>
    ensures { IfSome result (StatesReview sender.now from.now to.now) }
{
    let from = day_in(from)?;
    let to = last_day_in(to, from)?;
    let by = By::new(sender.by.as_bytes())?;
    let reference = Ref::new(sender.reference.as_bytes())?;
    let site = read_site(sender.site.as_bytes())?;
    Some(Edit::of(by, reference, site, What::Review { from, to }))
}

/// The day that a text writes.
fn day_in(text: &str) -> Option<Day>
    ensures { result ≡ day_of (string text.now) }
{
    read_day(text.as_bytes())
}

/// The last day of a span that begins at a day, which a text writes.
fn last_day_in(text: &str, from: Day) -> Option<Day>
    ensures value { result ≡ last_day_of from (string text.now) }
    ensures span { IfSome result (IsReviewSpan from) }
{
    let to = day_in(text)?;
    if is_review_span(from, to) {
        Some(to)
    } else {
        None
    }
}

/// The members of a whole text.
fn put_in<'a>(alloc: Global, reader: &mut Reader<'a>) -> Option<(Sender<'a>, ReadingList)>
    ensures tokens { IfSome result (λ put. TakesPut reader.old put.0 put.1) }
    ensures put { IfSome result (λ put. ArePutReadings put.1) }
{
    let sender = sender_in(reader)?;
    if !is_named(reader, Member::Readings) || !opens_array(reader) {
        return None;
    }
    let readings = readings_in(alloc, reader)?;
    if is_closed(reader) {
        Some((sender, readings))
    } else {
        None
    }
}

/// The strings of the members of a put before its readings.
fn sender_in<'a>(reader: &mut Reader<'a>) -> Option<Sender<'a>>
    ensures { IfSome result (λ sender. reader.old ≡ begin_object ∷ key (codes "kind") ∷ string_token (codes "PutReadings") ∷ key (codes "by") ∷ string_token sender.by.now ∷ key (codes "ref") ∷ string_token sender.reference.now ∷ key (codes "site") ∷ string_token sender.site.now ∷ reader.new) }
{
    if !opens_object(reader) || !is_put(reader) {
        return None;
    }
    Some(Sender {
        by: member(reader, Member::By)?,
        reference: member(reader, Member::Ref)?,
        site: member(reader, Member::Site)?,
    })
}

/// Whether the object closes, and nothing stands behind it.
fn is_closed(reader: &mut Reader<'_>) -> bool
    ensures { OnTrue result (reader.old ≡ end_object ∷ []) }
{
    closes_object(reader) && reader.next().is_none()
}

/// Whether the next member says that readings are put.
fn is_put(reader: &mut Reader<'_>) -> bool
    ensures { OnTrue result (reader.old ≡ key (codes "kind") ∷ string_token (codes "PutReadings") ∷ reader.new) }
{
    match member(reader, Member::Kind) {
        Some(kind) => kind == "PutReadings",
        None => false,
    }
}

/// The string that the next member has, if it is of that name.
fn member<'a>(reader: &mut Reader<'a>, member: Member) -> Option<&'a str>
    ensures { IfSome result (λ text. reader.old ≡ key (member_text member) ∷ string_token text.now ∷ reader.new) }
{
    if is_named(reader, member) {
        string(reader)
    } else {
        None
    }
}

/// Whether the next member is of that name.
fn is_named(reader: &mut Reader<'_>, member: Member) -> bool
    ensures { OnTrue result (reader.old ≡ key (member_text member) ∷ reader.new) }
{
    match reader.next() {
        Some(Token::Key(name)) => name == member.text(),
        _ => false,
    }
}

/// The readings that the rows behind an opening bracket state, if they may be put. No row is read behind one that may not follow.
fn readings_in(alloc: Global, reader: &mut Reader<'_>) -> Option<ReadingList>
    ensures rows { IfSome result (StatesReadings reader.old reader.new) }
    ensures put { IfSome result ArePutReadings }
{
    let mut readings = Vec::new(alloc);
    while !closes_array(reader) {
        let row = next_row(reader)?;
        let reading = reading_of(&row)?;
        if !may_follow(readings.as_slice(), &reading) {
            return None;
        }
        readings.push(reading).ok()?;
    }
    if readings.is_empty() {
        return None;
    }
    readings.shrink_to_fit();
    Some(ReadingList::from_vec(readings))
}

/// The next row, if it is one of two or three strings.
#[inline(always)]
fn next_row<'a>(reader: &mut Reader<'a>) -> Option<Row<'a>>
    ensures tokens { IfSome result (λ row. reader.old ≡ json_tokens (row_json (row_texts row)) ++ reader.new) }
    ensures shorter { IfSome result (λ row. length reader.new < length reader.old) }
{
    if !opens_array(reader) {
        return None;
    }
    let at = string(reader)?;
    let raw = string(reader)?;
    if closes_array(reader) {
        return Some(Row {
            at,
            raw,
            flag: None,
        });
    }
    let flag = string(reader)?;
    if !closes_array(reader) {
        return None;
    }
    Some(Row {
        at,
        raw,
        flag: Some(flag),
    })
}

/// The next string.
#[inline(always)]
fn string<'a>(reader: &mut Reader<'a>) -> Option<&'a str>
    ensures { IfSome result (λ text. reader.old ≡ string_token text.now ∷ reader.new) }
{
    match reader.next() {
        Some(Token::String(text)) => Some(text),
        _ => None,
    }
}

/// Whether an array opens.
#[inline(always)]
fn opens_array(reader: &mut Reader<'_>) -> bool
    ensures { OnTrue result (reader.old ≡ begin_array ∷ reader.new) }
{
    matches!(reader.next(), Some(Token::BeginArray))
}

/// Whether the array closes: only then something is read.
#[inline(always)]
fn closes_array(reader: &mut Reader<'_>) -> bool
    ensures { MatchBool result (reader.old ≡ end_array ∷ reader.new) (reader.new ≡ reader.old) }
{
    reader.take_end_array()
}

/// Whether an object opens.
fn opens_object(reader: &mut Reader<'_>) -> bool
    ensures { OnTrue result (reader.old ≡ begin_object ∷ reader.new) }
{
    matches!(reader.next(), Some(Token::BeginObject))
}

/// Whether the object closes.
fn closes_object(reader: &mut Reader<'_>) -> bool
    ensures { OnTrue result (reader.old ≡ end_object ∷ reader.new) }
{
    matches!(reader.next(), Some(Token::EndObject))
}
