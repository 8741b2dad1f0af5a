//! The compact form of the edits that come most: their members each once and in order, with no space and no escape, as programs write
//! JSON. It is read straight from its bytes, without tokens and without a tree, the plain bytes of a string in blocks. Of a body that is
//! not so nothing is said: its tokens or its tree decide.

ghost use Rattle.std.specs.Prelude.{◌≡◌, ◌≤◌, ◌<◌, ◌+◌, ◌∷◌, ◌++◌, [], true, take, length, codes, Ok, IfSome, OnSome};
ghost use Rattle.std.specs.Bool.{OnTrue};
ghost use Rattle.edit_bodies.specs.Bodies.{edit_of_value, parts};
ghost use Rattle.edit_bodies.specs.CompactForm.{AddsRow, SpellsReadings, row_spelled, sender_spelled};
ghost use Rattle.edit_bodies.specs.Grammars.{are_put, are_rising};
ghost use Rattle.edit_bodies.specs.UsualForm.{row_texts};
ghost use Rattle.edits.specs.Lawful.{ArePutReadings};
ghost use Rattle.json.specs.Print.{escape, escape_byte, quoted};
ghost use Rattle.serde_json.specs.Read.{read};

use crate::reading_rows::{Row, may_follow, reading_of};
use crate::usual_form::{Sender, put_of, review_of};
use edits::Edit;
use fixed_units::Reading;
use readings::ReadingList;
use std::alloc::Global;

/// How many bytes a row of a put has at least, but for very short stages.
const ROW_BYTES: usize = 32;

/// The edit that a text is, where it is a put or a review of the compact form. Of another text nothing is said.
pub(crate) fn compact_edit(alloc: Global, text: &str) -> Option<Edit>
    ensures { IfSome result (λ edit. edit_of_value (read text.now) ≡ Ok (parts edit)) }
{
    match behind(text, "{\"kind\":\"PutReadings\",\"by\":") {
        Some(rest) => put_behind(alloc, rest),
        None => review_behind(behind(text, "{\"kind\":\"Review\",\"by\":")?),
    }
}

/// The put whose text goes on so behind the name of its second member.
fn put_behind(alloc: Global, text: &str) -> Option<Edit>
    ensures { IfSome result (λ edit. edit_of_value (read (codes "{\"kind\":\"PutReadings\",\"by\":" ++ text.now)) ≡ Ok (parts edit)) }
{
    let (sender, rest) = sender_in(text)?;
    let (readings, rest) = readings_in(alloc, behind(rest, ",\"readings\":[")?)?;
    if is_closed(rest) {
        put_of(&sender, readings)
    } else {
        None
    }
}

/// The review whose text goes on so behind the name of its second member.
fn review_behind(text: &str) -> Option<Edit>
    ensures { IfSome result (λ edit. edit_of_value (read (codes "{\"kind\":\"Review\",\"by\":" ++ text.now)) ≡ Ok (parts edit)) }
{
    let (sender, rest) = sender_in(text)?;
    let (from, rest) = quoted_behind(rest, ",\"from\":")?;
    let (to, rest) = quoted_behind(rest, ",\"to\":")?;
    if is_closed(rest) {
        review_of(&sender, from, to)
    } else {
        None
    }
}

/// Whether the closing brace is all that is left.
fn is_closed(text: &str) -> bool
    ensures { OnTrue result (text.now ≡ 125 ∷ []) }
{
    text == "}"
}

/// The initials of the person who makes the edit, its reference and its site, and what is behind them.
fn sender_in<'a>(text: &'a str) -> Option<(Sender<'a>, &'a str)>
    ensures { IfSome result (λ found. text.now ≡ sender_spelled found.0 found.1.now) }
{
    let (by, rest) = quoted_in(text)?;
    let (reference, rest) = quoted_behind(rest, ",\"ref\":")?;
    let (site, rest) = quoted_behind(rest, ",\"site\":")?;
    let sender = Sender {
        by,
        reference,
        site,
    };
    Some((sender, rest))
}

/// The readings that the rows behind an opening bracket state, if they may be put, and what is behind the closing bracket.
fn readings_in<'a>(alloc: Global, text: &'a str) -> Option<(ReadingList, &'a str)>
    ensures rows { IfSome result (λ found. SpellsReadings text.now found.1.now found.0) }
    ensures put { IfSome result (λ found. ArePutReadings found.0) }
{
    let mut readings = Vec::with_capacity(alloc, text.len() / ROW_BYTES).ok()?;
    let mut rest = text;
    loop {
        let next = add_row(&mut readings, rest)?;
        match behind_byte(next, b',') {
            Some(more) => rest = more,
            None => {
                let end = behind_byte(next, b']')?;
                readings.shrink_to_fit();
                return Some((ReadingList::from_vec(readings), end));
            }
        }
    }
}

/// Adds the reading of the row at the front, where it may be put behind the others, and gives what is behind the row.
#[inline(always)]
fn add_row<'a>(readings: &mut Vec<Reading>, text: &'a str) -> Option<&'a str>
    requires { are_rising readings.old.items ≡ true }
    ensures row { IfSome result (λ rest. AddsRow text.now rest.now readings.old.items readings.new.items) }
    ensures put { OnSome result (are_put readings.new.items ≡ true) }
    ensures shorter { IfSome result (λ rest. length rest.now < length text.now) }
{
    let (row, rest) = row_in(text)?;
    let reading = reading_of(&row)?;
    if !may_follow(readings.as_slice(), &reading) {
        return None;
    }
    readings.push(reading).ok()?;
    Some(rest)
}

/// The row at the front, if it is one of two or three strings, and what is behind it.
#[inline(always)]
fn row_in<'a>(text: &'a str) -> Option<(Row<'a>, &'a str)>
    ensures spelled { IfSome result (λ found. text.now ≡ row_spelled (row_texts found.0) ++ found.1.now) }
    ensures shorter { IfSome result (λ found. length found.1.now < length text.now) }
{
    let (at, rest) = quoted_behind_byte(text, b'[')?;
    let (raw, rest) = quoted_behind_byte(rest, b',')?;
    if let Some(rest) = behind_byte(rest, b']') {
        let row = Row {
            at,
            raw,
            flag: None,
        };
        return Some((row, rest));
    }
    let (flag, rest) = quoted_behind_byte(rest, b',')?;
    let rest = behind_byte(rest, b']')?;
    let row = Row {
        at,
        raw,
        flag: Some(flag),
    };
    Some((row, rest))
}

/// The string in quotes behind a byte, where that stands at the front, and what is behind the string.
#[inline(always)]
fn quoted_behind_byte<'a>(text: &'a str, byte: u8) -> Option<(&'a str, &'a str)>
    ensures spelled { IfSome result (λ found. text.now ≡ byte ∷ (quoted found.0.now ++ found.1.now)) }
    ensures shorter { IfSome result (λ found. length found.1.now < length text.now) }
{
    quoted_in(behind_byte(text, byte)?)
}

/// The string in quotes behind these bytes, where they stand at the front, and what is behind the string.
#[inline(always)]
fn quoted_behind<'a>(text: &'a str, front: &str) -> Option<(&'a str, &'a str)>
    ensures { IfSome result (λ found. text.now ≡ front.now ++ (quoted found.0.now ++ found.1.now)) }
{
    quoted_in(behind(text, front)?)
}

/// The string in quotes at the front, where it has no escape, and what is behind it.
#[inline(always)]
fn quoted_in<'a>(text: &'a str) -> Option<(&'a str, &'a str)>
    ensures spelled { IfSome result (λ found. text.now ≡ quoted found.0.now ++ found.1.now) }
    ensures shorter { IfSome result (λ found. length found.1.now < length text.now) }
{
    let rest = behind_byte(text, b'"')?;
    let (string, rest) = rest.split_at_checked(plain_len(rest.as_bytes()))?;
    Some((string, behind_byte(rest, b'"')?))
}

/// How many bytes at the front a string has as they stand.
#[inline(always)]
fn plain_len(bytes: &[u8]) -> usize
    ensures plain { escape (take result bytes.now) ≡ take result bytes.now }
{
    let count = plain_blocks::<16>(bytes, 0);
    let mut count = plain_blocks::<4>(bytes, count);
    while count < bytes.len() {
        if !is_plain(bytes[count]) {
            return count;
        }
        count += 1;
    }
    count
}

/// How many bytes at the front a string has as they stand, where so many are known and the further ones are taken in whole blocks.
#[inline(always)]
fn plain_blocks<const N: usize>(bytes: &[u8], known: usize) -> usize
    requires some { 0 < N }
    requires few { N ≤ 16 }
    requires within { known ≤ length bytes.now }
    requires plain { escape (take known bytes.now) ≡ take known bytes.now }
    ensures within { result ≤ length bytes.now }
    ensures plain { escape (take result bytes.now) ≡ take result bytes.now }
{
    let mut count = known;
    while let Some(block) = bytes[count..].first_chunk::<N>() {
        if !are_plain(block) {
            return count;
        }
        count += N;
    }
    count
}

/// Whether each byte of a block stands for itself in a string. Each is asked, so that they can be asked side by side.
#[inline(always)]
fn are_plain<const N: usize>(block: &[u8; N]) -> bool
    ensures { OnTrue result (escape block.now ≡ block.now) }
{
    let mut plain = true;
    for byte in block {
        plain &= is_plain(*byte);
    }
    plain
}

/// Whether a byte stands for itself in a string: it is no quote, no backslash and no control.
#[inline(always)]
fn is_plain(byte: u8) -> bool
    ensures { OnTrue result (escape_byte byte ≡ byte ∷ []) }
{
    (byte != b'"') & (byte != b'\\') & (32 <= byte)
}

/// What is behind a byte, where it stands at the front.
#[inline(always)]
fn behind_byte<'a>(text: &'a str, byte: u8) -> Option<&'a str>
    ensures parts { IfSome result (λ rest. text.now ≡ byte ∷ rest.now) }
    ensures shorter { IfSome result (λ rest. length rest.now + 1 ≡ length text.now) }
{
    let (first, rest) = text.split_at_checked(1)?;
    if first.as_bytes()[0] == byte {
        Some(rest)
    } else {
        None
    }
}

/// What is behind these bytes, where they stand at the front.
#[inline(always)]
fn behind<'a>(text: &'a str, front: &str) -> Option<&'a str>
    ensures parts { IfSome result (λ rest. text.now ≡ front.now ++ rest.now) }
    ensures shorter { IfSome result (λ rest. length rest.now + length front.now ≡ length text.now) }
{
    let (first, rest) = text.split_at_checked(front.len())?;
    if first == front { Some(rest) } else { None }
}
