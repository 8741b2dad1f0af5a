//! The readings of a payload that was read, each seventeen bytes: their ranges and their order, and the list that they make; and
//! the spans of readings. Readings are tested where they stand, and only those of an edit take memory.

ghost use Rattle.std.specs.Prelude.{◌≡◌, ◌↔◌, true, ◌&&◌, int_lt, ◌≤◌, length, IfOk, All};
ghost use Rattle.edits.specs.Lawful.{ArePutReadings, IsPutReading, IsReadingSpan};
ghost use Rattle.edits.specs.declared.content.What.TheVariants.{PutReadings, DropReadings, FlagReadings};
ghost use Rattle.fixed_units.specs.Quantities.{is_stage, is_stamp};
ghost use Rattle.rising.specs.Lists.{IsRising};
ghost use Rattle.records.specs.Parsing.{reading_in, readings_in};

use crate::reading_parsing::flag_of;
use edits::{What, is_reading_count, is_reading_span};
use fixed_units::{Flag, Micro, NoMemory, Reading, Second, is_stage, is_stamp};
use readings::ReadingList;
use std::alloc::Global;

/// Whether an edit may put the readings of these pieces: one pass over them.
pub(crate) fn are_put_pieces(pieces: &[[u8; 17]]) -> bool
    ensures { result ≡ true ↔ ArePutReadings (readings_in pieces.now) }
{
    is_reading_count(pieces.len()) && are_rising_pieces(pieces)
}

/// Whether the readings of these pieces rise by instant, and an edit may put each.
fn are_rising_pieces(pieces: &[[u8; 17]]) -> bool
    requires { 1 ≤ length pieces.now }
    ensures { result ≡ true ↔ IsRising (λ piece. (reading_in piece).at) pieces.now × All (λ piece. IsPutReading (reading_in piece)) pieces.now }
{
    is_put_piece(&pieces[0]) && pieces.is_sorted_by(is_put_behind)
}

/// Whether an edit may put the reading of this piece.
fn is_put_piece(piece: &[u8; 17]) -> bool
    ensures test { result ≡ (is_stamp (reading_in piece.now).at && is_stage (reading_in piece.now).raw) }
    ensures range { result ≡ true ↔ IsPutReading (reading_in piece.now) }
{
    let (at, raw) = numbers(piece);
    is_stamp(at) && is_stage(raw)
}

/// Whether an edit may put the reading of a piece behind that of another one, which is of an earlier instant.
fn is_put_behind(piece: &[u8; 17], next: &[u8; 17]) -> bool
    ensures { result ≡ (int_lt (reading_in piece.now).at (reading_in next.now).at && (is_stamp (reading_in next.now).at && is_stage (reading_in next.now).raw)) }
{
    let (at, _) = numbers(piece);
    let (next_at, _) = numbers(next);
    at < next_at && is_put_piece(next)
}

/// The instant of a piece in seconds and its stage in millionths, whatever their ranges.
#[tactic(auto, unfolding(crate::specs::Parsing::reading_in))]
fn numbers(piece: &[u8; 17]) -> (i64, i64)
    ensures at { result.0 ≡ (reading_in piece.now).at }
    ensures raw { result.1 ≡ (reading_in piece.now).raw }
{
    let (numbers, _) = piece.as_chunks::<8>();
    (
        i64::from_le_bytes(numbers[0]),
        i64::from_le_bytes(numbers[1]),
    )
}

/// The put of the readings of these pieces. Their list takes memory once.
pub(crate) fn put_from(alloc: Global, pieces: &[[u8; 17]]) -> Result<What, NoMemory>
    requires { ArePutReadings (readings_in pieces.now) }
    ensures { IfOk result (λ what. what ≡ PutReadings (readings_in pieces.now)) }
{
    let mut readings = Vec::with_capacity(alloc, pieces.len())?;
    for piece in pieces {
        readings.push(reading_from(piece))?;
    }
    Ok(What::PutReadings {
        readings: ReadingList::from_vec(readings),
    })
}

/// The reading of a piece.
fn reading_from(piece: &[u8; 17]) -> Reading
    requires { IsPutReading (reading_in piece.now) }
    ensures { result ≡ reading_in piece.now }
{
    let (at, raw) = numbers(piece);
    Reading {
        at: Second::of_seconds(at),
        raw: Micro::of_millionths(raw),
        flag: flag_in(piece),
    }
}

/// The flag of a piece, whose last byte is a flag's number.
#[tactic(auto, unfolding(crate::specs::Parsing::reading_in))]
fn flag_in(piece: &[u8; 17]) -> Flag
    ensures { result ≡ (reading_in piece.now).flag }
{
    flag_of(piece[16]).unwrap_or(Flag::Affected)
}

/// Whether an edit may drop or flag the readings of a span, in seconds.
pub(crate) fn is_span(from: i64, to: i64) -> bool
    ensures { result ≡ true ↔ IsReadingSpan from to }
{
    match (Second::new(from), Second::new(to)) {
        (Some(from), Some(to)) => is_reading_span(from, to),
        _ => false,
    }
}

/// The drop of the readings of a span.
pub(crate) fn dropped_span_from(from: i64, to: i64) -> What
    requires { IsReadingSpan from to }
    ensures { result ≡ DropReadings from to }
{
    What::DropReadings {
        from: Second::of_seconds(from),
        to: Second::of_seconds(to),
    }
}

/// The flagging of the readings of a span.
pub(crate) fn flagged_span_from(from: i64, to: i64, flag: Flag) -> What
    requires { IsReadingSpan from to }
    ensures { result ≡ FlagReadings from to flag }
{
    What::FlagReadings {
        from: Second::of_seconds(from),
        to: Second::of_seconds(to),
        flag,
    }
}
