//! The readings of a payload, read from left to right: those that are put, and the spans that are dropped or flagged.

ghost use Rattle.std.specs.Prelude.{◌≡◌, ◌↔◌, true, option_map, slice_index, IsSome, All};
ghost use Rattle.records.specs.Drafts.{what_of};
ghost use Rattle.records.specs.Parsing.{many_at, flag_of, flag_at, reading_at, readings_at, readings_in, put_at, dropped_readings_at, flagged_readings_at};

use crate::drafts::Fields;
use crate::parsing::{byte_of, i64_of, u32_of};
use fixed_units::Flag;

/// The fields of readings that are put.
#[tactic(auto, unfolding(crate::specs::Parsing::put_at))]
pub(crate) fn put_of(bytes: &[u8]) -> Option<(Fields<'_>, &[u8])>
    ensures { option_map (λ x. (what_of x.0, x.1.now)) result ≡ put_at bytes.now }
{
    let (pieces, rest) = readings_of(bytes)?;
    Some((Fields::Put(pieces), rest))
}

/// How many readings there are, and seventeen bytes for each.
#[tactic(auto, unfolding(crate::specs::Parsing::readings_at))]
fn readings_of(bytes: &[u8]) -> Option<(&[[u8; 17]], &[u8])>
    ensures { option_map (λ x. (readings_in x.0.now, x.1.now)) result ≡ readings_at bytes.now }
{
    let (count, rest) = u32_of(bytes)?;
    pieces_of(rest, count)
}

/// Seventeen bytes for each of so many readings, the last of them a flag's number: they are lent, and none is copied.
fn pieces_of(bytes: &[u8], count: u32) -> Option<(&[[u8; 17]], &[u8])>
    ensures { option_map (λ x. (readings_in x.0.now, x.1.now)) result ≡ many_at reading_at count bytes.now }
{
    let (front, rest) = bytes.split_at_checked(17 * count as usize)?;
    let (pieces, _) = front.as_chunks::<17>();
    if are_flagged(pieces) {
        Some((pieces, rest))
    } else {
        None
    }
}

/// Whether the last byte of each piece is a flag's number.
fn are_flagged(pieces: &[[u8; 17]]) -> bool
    ensures { result ≡ true ↔ All (λ piece. IsSome (flag_of (slice_index piece 16))) pieces.now }
{
    pieces.iter().all(is_flagged)
}

/// Whether the last byte is a flag's number.
fn is_flagged(piece: &[u8; 17]) -> bool
    ensures { result ≡ true ↔ IsSome (flag_of (slice_index piece.now 16)) }
{
    flag_of(piece[16]).is_some()
}

/// The flag of a number, or `None` exactly where none has it.
pub(crate) fn flag_of(number: u8) -> Option<Flag>
    ensures { result ≡ flag_of number }
{
    match number {
        0 => Some(Flag::Usable),
        1 => Some(Flag::Erroneous),
        2 => Some(Flag::Affected),
        _ => None,
    }
}

/// The fields of a span of readings that is dropped.
#[tactic(auto, unfolding(crate::specs::Parsing::dropped_readings_at))]
pub(crate) fn dropped_span_of(bytes: &[u8]) -> Option<(Fields<'_>, &[u8])>
    ensures { option_map (λ x. (what_of x.0, x.1.now)) result ≡ dropped_readings_at bytes.now }
{
    let (from, rest) = i64_of(bytes)?;
    let (to, rest) = i64_of(rest)?;
    Some((Fields::DroppedSpan { from, to }, rest))
}

/// The fields of a span of readings that is flagged.
#[tactic(auto, unfolding(crate::specs::Parsing::flagged_readings_at))]
pub(crate) fn flagged_span_of(bytes: &[u8]) -> Option<(Fields<'_>, &[u8])>
    ensures { option_map (λ x. (what_of x.0, x.1.now)) result ≡ flagged_readings_at bytes.now }
{
    let (from, rest) = i64_of(bytes)?;
    let (to, rest) = i64_of(rest)?;
    let (flag, rest) = flag_at(rest)?;
    Some((Fields::FlaggedSpan { from, to, flag }, rest))
}

/// A flag.
#[tactic(auto, unfolding(crate::specs::Parsing::flag_at))]
fn flag_at(bytes: &[u8]) -> Option<(Flag, &[u8])>
    ensures { option_map (λ x. (x.0, x.1.now)) result ≡ flag_at bytes.now }
{
    let (number, rest) = byte_of(bytes)?;
    let flag = flag_of(number)?;
    Some((flag, rest))
}
