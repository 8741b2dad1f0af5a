//! The parts of a payload, read from left to right.

ghost use Rattle.std.specs.Prelude.{◌≡◌, ◌≤◌, option_map};
ghost use Rattle.std.specs.Int.{w32, w64};
ghost use Rattle.records.specs.Drafts.{parts, what_of};
ghost use Rattle.records.specs.Parsing.{byte_at, number_at, front_at, short_text_at, comment_at, signed_number_at, site_number_at, sender_at, day_at, arrays_at, addition_at, setting_at, point_at, points_at, curve_at, mark_at, entry_at, correction_at, dropped_correction_at, shift_at, dropped_shift_at, fields_at, fields_of, parts_at};

use crate::drafts::{Draft, Fields};
use crate::edition_parsing::edition_of;
use crate::entry_drafts::EntryDraft;
use crate::formats::Format;
use crate::measurement_parsing::{
    dropped_estimate_of, dropped_measurement_of, estimate_of, measurement_of,
};
use crate::rating_parsing::{dropped_period_of, period_of, rating_of};
use crate::reading_parsing::{dropped_span_of, flagged_span_of, put_of};
use crate::review_parsing::{decided_of, review_of};
use arrayvec::ArrayVec;
use edits::Kind;

/// The parts of a payload of a format, and what stands behind them.
#[tactic(auto, unfolding(crate::specs::Parsing::parts_at))]
pub(crate) fn draft_of(bytes: &[u8], format: Format) -> Option<Draft<'_>>
    ensures { option_map parts result ≡ parts_at format bytes.now }
{
    let (number, rest) = byte_of(bytes)?;
    let ((by, (reference, (digits, value))), rest) = sender_of(rest)?;
    let (comment, rest) = comment_of(rest, format)?;
    let (fields, rest) = fields_at(number, rest)?;
    Some(Draft {
        by,
        reference,
        digits,
        value,
        comment,
        fields,
        behind: rest,
    })
}

/// Who makes an edit, under which reference, of which station.
#[tactic(auto, unfolding(crate::specs::Parsing::sender_at))]
fn sender_of(bytes: &[u8]) -> Option<((&[u8], (&[u8], (u8, u64))), &[u8])>
    ensures { option_map (λ x. ((x.0.0.now, (x.0.1.0.now, record { digits = x.0.1.1.0; value = x.0.1.1.1 })), x.1.now)) result ≡ sender_at bytes.now }
{
    let (by, rest) = short_text_of(bytes)?;
    let (reference, rest) = short_text_of(rest)?;
    let (site, rest) = site_of(rest)?;
    Some(((by, (reference, site)), rest))
}

/// The comment of an edit in a format.
fn comment_of(bytes: &[u8], format: Format) -> Option<(&[u8], &[u8])>
    ensures { option_map (λ x. (x.0.now, x.1.now)) result ≡ comment_at format bytes.now }
{
    match format {
        Format::First => Some((&[], bytes)),
        Format::Second => short_text_of(bytes),
    }
}

/// The fields of the kind of a number.
#[tactic(auto, unfolding(crate::specs::Parsing::fields_at))]
fn fields_at(number: u8, bytes: &[u8]) -> Option<(Fields<'_>, &[u8])>
    ensures { option_map (λ x. (what_of x.0, x.1.now)) result ≡ fields_at number bytes.now }
{
    fields_of(Kind::numbered(number)?, bytes)
}

/// The fields of a kind.
#[tactic(auto, unfolding(crate::specs::Parsing::fields_of))]
fn fields_of(kind: Kind, bytes: &[u8]) -> Option<(Fields<'_>, &[u8])>
    ensures { option_map (λ x. (what_of x.0, x.1.now)) result ≡ fields_of kind bytes.now }
{
    match kind {
        Kind::AddStation => addition_of(bytes),
        Kind::SetStation => setting_of(bytes),
        Kind::PutReadings => put_of(bytes),
        Kind::DropReadings => dropped_span_of(bytes),
        Kind::FlagReadings => flagged_span_of(bytes),
        Kind::PutCorrection => correction_of(bytes),
        Kind::DropCorrection => dropped_correction_of(bytes),
        Kind::PutShift => shift_of(bytes),
        Kind::DropShift => dropped_shift_of(bytes),
        Kind::AddRating => rating_of(bytes),
        Kind::PutPeriod => period_of(bytes),
        Kind::DropPeriod => dropped_period_of(bytes),
        Kind::PutEstimate => estimate_of(bytes),
        Kind::DropEstimate => dropped_estimate_of(bytes),
        Kind::PutMeasurement => measurement_of(bytes),
        Kind::DropMeasurement => dropped_measurement_of(bytes),
        Kind::Review => review_of(bytes),
        Kind::Decide => decided_of(bytes),
        Kind::SetEdition => edition_of(bytes),
    }
}

/// The fields of a station that is added.
#[tactic(auto, unfolding(crate::specs::Parsing::addition_at))]
fn addition_of(bytes: &[u8]) -> Option<(Fields<'_>, &[u8])>
    ensures { option_map (λ x. (what_of x.0, x.1.now)) result ≡ addition_at bytes.now }
{
    let (name, rest) = short_text_of(bytes)?;
    let (zone, rest) = short_text_of(rest)?;
    let ((gap, (stage_array, discharge_array)), rest) = arrays_of(rest)?;
    let fields = Fields::Addition {
        name,
        zone,
        gap,
        stage_array,
        discharge_array,
    };
    Some((fields, rest))
}

/// The fields of a station that is set.
#[tactic(auto, unfolding(crate::specs::Parsing::setting_at))]
fn setting_of(bytes: &[u8]) -> Option<(Fields<'_>, &[u8])>
    ensures { option_map (λ x. (what_of x.0, x.1.now)) result ≡ setting_at bytes.now }
{
    let (name, rest) = short_text_of(bytes)?;
    let ((gap, (stage_array, discharge_array)), rest) = arrays_of(rest)?;
    let fields = Fields::Setting {
        name,
        gap,
        stage_array,
        discharge_array,
    };
    Some((fields, rest))
}

/// The fields of an entry that is put into a correction set.
#[tactic(auto, unfolding(crate::specs::Parsing::correction_at))]
fn correction_of(bytes: &[u8]) -> Option<(Fields<'_>, &[u8])>
    ensures { option_map (λ x. (what_of x.0, x.1.now)) result ≡ correction_at bytes.now }
{
    let (set, rest) = byte_of(bytes)?;
    let (entry, rest) = entry_of(rest)?;
    Some((Fields::Correction { set, entry }, rest))
}

/// The fields of an entry that is dropped from a correction set.
#[tactic(auto, unfolding(crate::specs::Parsing::dropped_correction_at))]
fn dropped_correction_of(bytes: &[u8]) -> Option<(Fields<'_>, &[u8])>
    ensures { option_map (λ x. (what_of x.0, x.1.now)) result ≡ dropped_correction_at bytes.now }
{
    let (set, rest) = byte_of(bytes)?;
    let (at, rest) = i64_of(rest)?;
    Some((Fields::DroppedCorrection { set, at }, rest))
}

/// The fields of an entry that is put into the shifts.
#[tactic(auto, unfolding(crate::specs::Parsing::shift_at))]
fn shift_of(bytes: &[u8]) -> Option<(Fields<'_>, &[u8])>
    ensures { option_map (λ x. (what_of x.0, x.1.now)) result ≡ shift_at bytes.now }
{
    let (entry, rest) = entry_of(bytes)?;
    Some((Fields::Shift(entry), rest))
}

/// The fields of an entry that is dropped from the shifts.
#[tactic(auto, unfolding(crate::specs::Parsing::dropped_shift_at))]
fn dropped_shift_of(bytes: &[u8]) -> Option<(Fields<'_>, &[u8])>
    ensures { option_map (λ x. (what_of x.0, x.1.now)) result ≡ dropped_shift_at bytes.now }
{
    let (at, rest) = i64_of(bytes)?;
    Some((Fields::DroppedShift { at }, rest))
}

/// An entry: its instant, its curve, and whether it prorates.
#[tactic(auto, unfolding(crate::specs::Parsing::entry_at))]
fn entry_of(bytes: &[u8]) -> Option<(EntryDraft, &[u8])>
    ensures { option_map (λ x. ((x.0.at, (x.0.points.items, x.0.prorate)), x.1.now)) result ≡ entry_at bytes.now }
{
    let (at, rest) = i64_of(bytes)?;
    let (points, rest) = curve_of(rest)?;
    let (prorate, rest) = mark_of(rest)?;
    let entry = EntryDraft {
        at,
        points,
        prorate,
    };
    Some((entry, rest))
}

/// How many points a curve has, at most three, and the points.
#[tactic(auto, unfolding(crate::specs::Parsing::curve_at))]
fn curve_of(bytes: &[u8]) -> Option<(ArrayVec<(i64, i64), 3>, &[u8])>
    ensures { option_map (λ x. (x.0.items, x.1.now)) result ≡ curve_at bytes.now }
{
    let (count, rest) = byte_of(bytes)?;
    if count <= 3 {
        points_of(rest, count)
    } else {
        None
    }
}

/// So many points of a curve.
fn points_of(bytes: &[u8], count: u8) -> Option<(ArrayVec<(i64, i64), 3>, &[u8])>
    requires { count ≤ 3 }
    ensures { option_map (λ x. (x.0.items, x.1.now)) result ≡ points_at count bytes.now }
{
    let mut points = ArrayVec::new();
    let mut rest = bytes;
    for _ in 0..count {
        let (point, behind) = point_of(rest)?;
        points.push(point);
        rest = behind;
    }
    Some((points, rest))
}

/// The stage and the amount of a point.
#[tactic(auto, unfolding(crate::specs::Parsing::point_at))]
pub(crate) fn point_of(bytes: &[u8]) -> Option<((i64, i64), &[u8])>
    ensures { option_map (λ x. (x.0, x.1.now)) result ≡ point_at bytes.now }
{
    let (stage, rest) = i64_of(bytes)?;
    let (amount, rest) = i64_of(rest)?;
    Some(((stage, amount), rest))
}

/// Whether an entry prorates.
#[tactic(auto, unfolding(crate::specs::Parsing::mark_at))]
pub(crate) fn mark_of(bytes: &[u8]) -> Option<(bool, &[u8])>
    ensures { option_map (λ x. (x.0, x.1.now)) result ≡ mark_at bytes.now }
{
    let (mark, rest) = byte_of(bytes)?;
    match mark {
        0 => Some((false, rest)),
        1 => Some((true, rest)),
        _ => None,
    }
}

/// A gap tolerance and two rounding arrays.
#[tactic(auto, unfolding(crate::specs::Parsing::arrays_at))]
fn arrays_of(bytes: &[u8]) -> Option<((u32, (&[u8], &[u8])), &[u8])>
    ensures { option_map (λ x. ((x.0.0, (x.0.1.0.now, x.0.1.1.now)), x.1.now)) result ≡ arrays_at bytes.now }
{
    let (gap, rest) = u32_of(bytes)?;
    let (stage_array, rest) = front_of(rest, 10)?;
    let (discharge_array, rest) = front_of(rest, 10)?;
    Some(((gap, (stage_array, discharge_array)), rest))
}

/// How many digits a site number has, and its value.
#[tactic(auto, unfolding(crate::specs::Parsing::site_number_at))]
fn site_of(bytes: &[u8]) -> Option<((u8, u64), &[u8])>
    ensures { option_map (λ x. (record { digits = x.0.0; value = x.0.1 }, x.1.now)) result ≡ site_number_at bytes.now }
{
    let (digits, rest) = byte_of(bytes)?;
    let (value, rest) = u64_of(rest)?;
    Some(((digits, value), rest))
}

/// A byte of length and that many bytes.
#[tactic(auto, unfolding(crate::specs::Parsing::short_text_at))]
fn short_text_of(bytes: &[u8]) -> Option<(&[u8], &[u8])>
    ensures { option_map (λ x. (x.0.now, x.1.now)) result ≡ short_text_at bytes.now }
{
    let (len, rest) = byte_of(bytes)?;
    front_of(rest, usize::from(len))
}

/// So many bytes.
pub(crate) fn front_of(bytes: &[u8], count: usize) -> Option<(&[u8], &[u8])>
    ensures { option_map (λ x. (x.0.now, x.1.now)) result ≡ front_at count bytes.now }
{
    bytes.split_at_checked(count)
}

#[tactic(auto, unfolding(crate::specs::Parsing::signed_number_at))]
pub(crate) fn i64_of(bytes: &[u8]) -> Option<(i64, &[u8])>
    ensures { option_map (λ x. (x.0, x.1.now)) result ≡ signed_number_at bytes.now }
{
    let (bits, rest) = u64_of(bytes)?;
    Some((bits.cast_signed(), rest))
}

/// A day of four bytes.
#[tactic(auto, unfolding(crate::specs::Parsing::day_at))]
pub(crate) fn day_of(bytes: &[u8]) -> Option<(i32, &[u8])>
    ensures { option_map (λ x. (x.0, x.1.now)) result ≡ day_at bytes.now }
{
    let (bits, rest) = u32_of(bytes)?;
    Some((bits.cast_signed(), rest))
}

fn u64_of(bytes: &[u8]) -> Option<(u64, &[u8])>
    ensures { option_map (λ x. (x.0, x.1.now)) result ≡ number_at w64 bytes.now }
{
    let (front, rest) = bytes.split_first_chunk::<8>()?;
    Some((u64::from_le_bytes(*front), rest))
}

pub(crate) fn u32_of(bytes: &[u8]) -> Option<(u32, &[u8])>
    ensures { option_map (λ x. (x.0, x.1.now)) result ≡ number_at w32 bytes.now }
{
    let (front, rest) = bytes.split_first_chunk::<4>()?;
    Some((u32::from_le_bytes(*front), rest))
}

#[tactic(auto, unfolding(crate::specs::Parsing::byte_at))]
pub(crate) fn byte_of(bytes: &[u8]) -> Option<(u8, &[u8])>
    ensures { option_map (λ x. (x.0, x.1.now)) result ≡ byte_at bytes.now }
{
    match bytes {
        [first, rest @ ..] => Some((*first, rest)),
        [] => None,
    }
}
