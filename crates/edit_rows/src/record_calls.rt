//! Calls of `records`. A record is an edit, and behind ` | ` its sheets, each a word of hexadecimal digits. A call is of the first format, and
//! behind the word `second` of the second one.

use crate::edit_bytes::{push_digits, push_pieces};
use crate::edit_notation::edit_of;
use crate::edit_texts::{push_edit, push_word};
use fixed_units::{NoMemory, Text};
use records::laws::{
    formats_hold, keeps_grammar, none_begins_another, payload_of_one_record, sizes,
};
use records::{
    DecodeFault, Format, Record, SheetList, decode, encode, encode_and_close, record_len,
};
use row_lines::parted;
use std::alloc::Global;

/// Writes what comes of a call.
pub fn answer(alloc: Global, word: &str, rest: &str, came: &mut Text) -> Result<(), NoMemory> {
    if word != "second" {
        return answer_in(alloc, Format::First, word, rest, came);
    }
    let (word, rest) = parted(rest);
    answer_in(alloc, Format::Second, word, rest, came)
}

fn answer_in(
    alloc: Global,
    format: Format,
    word: &str,
    rest: &str,
    came: &mut Text,
) -> Result<(), NoMemory> {
    match word {
        "record" => record(alloc, format, rest, came),
        "closed" => closed(alloc, format, rest, came),
        "taken" => taken(alloc, format, rest, came),
        "payload" => payload(alloc, format, rest, came),
        "decoded" => decoded(alloc, format, rest, came),
        "shortest" => shortest(alloc, format, rest, came),
        "alike" => alike(alloc, format, rest, came),
        "rising" => rising(alloc, format, rest, came),
        _ => came.push_slice(b"no such call"),
    }
}

/// The record of a text, or `None` where the sheets are not those of the edit; `None` too, further out, where the text is not well
/// formed.
fn record_of(alloc: Global, text: &str) -> Option<Option<Record>> {
    match text.split_once(" | ") {
        Some((edit, sheets)) => recorded(alloc, edit, sheets_of(alloc, sheets)?),
        None => recorded(alloc, text, SheetList::new(alloc)),
    }
}

fn recorded(alloc: Global, text: &str, sheets: SheetList) -> Option<Option<Record>> {
    let edit = edit_of(alloc, text)?;
    Some(Record::new(edit, sheets))
}

fn sheets_of(alloc: Global, text: &str) -> Option<SheetList> {
    let mut sheets = SheetList::new(alloc);
    push_sheets(alloc, text, &mut sheets)?;
    Some(sheets)
}

fn push_sheets(alloc: Global, text: &str, sheets: &mut SheetList) -> Option<()> {
    for word in text.split(' ') {
        sheets.push(sheet_of(alloc, word)?).ok()?;
    }
    Some(())
}

fn sheet_of(alloc: Global, word: &str) -> Option<Text> {
    let mut sheet = Text::new(alloc);
    push_pieces(word, &mut sheet).ok()?;
    Some(sheet)
}

/// Says why there is no record.
fn push_none(found: Option<Option<Record>>, came: &mut Text) -> Result<(), NoMemory> {
    match found {
        Some(_) => came.push_slice(b"no record"),
        None => came.push_slice(b"not well formed"),
    }
}

/// `record RECORD`: the length of its payload, and its bytes.
fn record(alloc: Global, format: Format, text: &str, came: &mut Text) -> Result<(), NoMemory> {
    laws();
    match record_of(alloc, text) {
        Some(Some(piece)) => push_encoded(alloc, format, &piece, came),
        other => push_none(other, came),
    }
}

fn push_encoded(
    alloc: Global,
    format: Format,
    piece: &Record,
    came: &mut Text,
) -> Result<(), NoMemory> {
    if !format.holds(&piece.edit().comment) {
        return came.push_slice(b"not held");
    }
    keeps_grammar(piece, format);
    came.push_number(record_len(piece, format) as u64)?;
    came.push(b' ')?;
    let bytes = encode(alloc, piece, format)?;
    push_digits(bytes.as_slice(), came)
}

/// `closed RECORD`: its bytes with the closed gate behind them.
fn closed(alloc: Global, format: Format, text: &str, came: &mut Text) -> Result<(), NoMemory> {
    match record_of(alloc, text) {
        Some(Some(piece)) => push_closed(alloc, format, &piece, came),
        other => push_none(other, came),
    }
}

fn push_closed(
    alloc: Global,
    format: Format,
    piece: &Record,
    came: &mut Text,
) -> Result<(), NoMemory> {
    if !format.holds(&piece.edit().comment) {
        return came.push_slice(b"not held");
    }
    let bytes = encode_and_close(alloc, piece, format)?;
    push_digits(bytes.as_slice(), came)
}

/// `taken RECORD`: how many bytes it takes with the closed gate.
fn taken(alloc: Global, format: Format, text: &str, came: &mut Text) -> Result<(), NoMemory> {
    match record_of(alloc, text) {
        Some(Some(piece)) => push_taken(alloc, format, &piece, came),
        other => push_none(other, came),
    }
}

fn push_taken(
    alloc: Global,
    format: Format,
    piece: &Record,
    came: &mut Text,
) -> Result<(), NoMemory> {
    if !format.holds(&piece.edit().comment) {
        return came.push_slice(b"not held");
    }
    let bytes = encode_and_close(alloc, piece, format)?;
    came.push_number(bytes.len() as u64)
}

/// `payload BYTES`: the record whose payload it is.
fn payload(alloc: Global, format: Format, text: &str, came: &mut Text) -> Result<(), NoMemory> {
    let mut bytes = Text::new(alloc);
    push_pieces(text, &mut bytes)?;
    push_read(alloc, format, bytes.as_slice(), came)
}

fn push_read(alloc: Global, format: Format, bytes: &[u8], came: &mut Text) -> Result<(), NoMemory> {
    match decode(alloc, bytes, format) {
        Ok(piece) => push_record(&piece, came),
        Err(fault) => push_fault(fault, came),
    }
}

fn push_record(piece: &Record, came: &mut Text) -> Result<(), NoMemory> {
    push_edit(piece.edit(), came)?;
    if piece.sheets().is_empty() {
        return Ok(());
    }
    push_word(b"|", came)?;
    push_each(piece.sheets().as_slice(), came)
}

fn push_each(sheets: &[Text], came: &mut Text) -> Result<(), NoMemory> {
    for sheet in sheets {
        came.push(b' ')?;
        push_digits(sheet.as_slice(), came)?;
    }
    Ok(())
}

fn push_fault(fault: DecodeFault, came: &mut Text) -> Result<(), NoMemory> {
    match fault {
        DecodeFault::NotARecord => came.push_slice(b"no record"),
        DecodeFault::NoMemory => Err(NoMemory),
    }
}

/// `decoded BYTES`: whether they are the payload of a record.
fn decoded(alloc: Global, format: Format, text: &str, came: &mut Text) -> Result<(), NoMemory> {
    let mut bytes = Text::new(alloc);
    push_pieces(text, &mut bytes)?;
    push_found(alloc, format, bytes.as_slice(), came)
}

fn push_found(
    alloc: Global,
    format: Format,
    bytes: &[u8],
    came: &mut Text,
) -> Result<(), NoMemory> {
    match decode(alloc, bytes, format) {
        Ok(_) => came.push_slice(b"a record"),
        Err(fault) => push_fault(fault, came),
    }
}

/// `shortest BYTES`: the length of the shortest front of them that is not refused.
fn shortest(alloc: Global, format: Format, text: &str, came: &mut Text) -> Result<(), NoMemory> {
    let mut bytes = Text::new(alloc);
    push_pieces(text, &mut bytes)?;
    match shortest_of(alloc, format, bytes.as_slice()) {
        Some(len) => came.push_number(len as u64),
        None => came.push_slice(b"none"),
    }
}

fn shortest_of(alloc: Global, format: Format, bytes: &[u8]) -> Option<usize> {
    for len in 0..=bytes.len() {
        if !is_refused(alloc, format, bytes.get(..len)?) {
            return Some(len);
        }
    }
    None
}

fn is_refused(alloc: Global, format: Format, bytes: &[u8]) -> bool {
    matches!(decode(alloc, bytes, format), Err(DecodeFault::NotARecord))
}

/// `alike COUNT SHEET EDIT`: how many bytes the record of an edit takes with so many sheets alike, and whether it is read again.
fn alike(alloc: Global, format: Format, rest: &str, came: &mut Text) -> Result<(), NoMemory> {
    let (count, rest) = parted(rest);
    let (sheet, edit) = parted(rest);
    match record_with(alloc, count, sheet, edit) {
        Some(Some(piece)) => push_again(alloc, format, &piece, came),
        other => push_none(other, came),
    }
}

fn record_with(alloc: Global, count: &str, sheet: &str, edit: &str) -> Option<Option<Record>> {
    let mut sheets = SheetList::new(alloc);
    push_alike(alloc, count.parse().ok()?, sheet, &mut sheets)?;
    recorded(alloc, edit, sheets)
}

fn push_alike(alloc: Global, count: u32, sheet: &str, sheets: &mut SheetList) -> Option<()> {
    for _ in 0..count {
        sheets.push(sheet_of(alloc, sheet)?).ok()?;
    }
    Some(())
}

fn push_again(
    alloc: Global,
    format: Format,
    piece: &Record,
    came: &mut Text,
) -> Result<(), NoMemory> {
    if !format.holds(&piece.edit().comment) {
        return came.push_slice(b"not held");
    }
    let bytes = encode(alloc, piece, format)?;
    came.push_number(bytes.len() as u64)?;
    came.push_slice(again(alloc, format, bytes.as_slice(), piece))
}

/// Whether a record is read from the bytes behind the four of the length.
fn again(alloc: Global, format: Format, bytes: &[u8], piece: &Record) -> &'static [u8] {
    match decode(alloc, bytes.get(4..).unwrap_or_default(), format) {
        Ok(found) => same(&found, piece),
        Err(_) => b" not read",
    }
}

fn same(found: &Record, piece: &Record) -> &'static [u8] {
    if found.edit().is_same(piece.edit()) && are_same(found.sheets(), piece.sheets()) {
        b" read again"
    } else {
        b" read otherwise"
    }
}

fn are_same(sheets: &SheetList, others: &SheetList) -> bool {
    for place in 0..sheets.len() {
        if sheets.get(place) != others.get(place) {
            return false;
        }
    }
    sheets.len() == others.len()
}

/// `rising COUNT ZEROS FRONT`: whether a payload is a record's that goes on with a count and so many numbers from 0 on, of eight bytes each,
/// and so many zeros behind each.
fn rising(alloc: Global, format: Format, rest: &str, came: &mut Text) -> Result<(), NoMemory> {
    let (count, rest) = parted(rest);
    let (zeros, front) = parted(rest);
    match (count.parse(), zeros.parse()) {
        (Ok(count), Ok(zeros)) => rising_from(alloc, format, front, count, zeros, came),
        _ => came.push_slice(b"not well formed"),
    }
}

fn rising_from(
    alloc: Global,
    format: Format,
    front: &str,
    count: u32,
    zeros: u32,
    came: &mut Text,
) -> Result<(), NoMemory> {
    let mut bytes = Text::new(alloc);
    push_pieces(front, &mut bytes)?;
    bytes.push_slice(&count.to_le_bytes())?;
    push_rising(count, zeros, &mut bytes)?;
    push_found(alloc, format, bytes.as_slice(), came)
}

fn push_rising(count: u32, zeros: u32, bytes: &mut Text) -> Result<(), NoMemory> {
    for number in 0..count {
        bytes.push_slice(&i64::from(number).to_le_bytes())?;
        push_zeros(zeros, bytes)?;
    }
    Ok(())
}

fn push_zeros(count: u32, bytes: &mut Text) -> Result<(), NoMemory> {
    for _ in 0..count {
        bytes.push(0)?;
    }
    Ok(())
}

/// What is stated of all payloads, called as a caller may; it runs nothing.
fn laws() {
    payload_of_one_record();
    none_begins_another();
    formats_hold();
    sizes();
}
