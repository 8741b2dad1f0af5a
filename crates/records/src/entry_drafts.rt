//! The entries of a payload that was read: their ranges, and the curves that they make.

ghost use Rattle.std.specs.Prelude.{◌≡◌, ◌↔◌, true, IfSome, IfNone, IsSome, All};
ghost use Rattle.edits.specs.Lawful.{IsPutCurve, IsPutPoint};
ghost use Rattle.edits.specs.declared.content.What.TheVariants.{PutCorrection, DropCorrection, PutShift, DropShift};
ghost use Rattle.fixed_units.specs.Quantities.{IsStamp};

use arrayvec::ArrayVec;
use curves::Curve;
use edits::{What, is_put_curve};
use fixed_units::{Micro, Second, is_amount, is_stage, is_stamp};

/// An entry of a correction set or of the shifts as it stands in a payload: its instant, the stage and the amount of each
/// point, and whether it prorates.
#[derive(Drop)]
pub(crate) struct EntryDraft {
    pub(crate) at: i64,
    pub(crate) points: ArrayVec<(i64, i64), 3>,
    pub(crate) prorate: bool,
}

/// Whether the entry may be put.
pub(crate) fn is_entry(draft: &EntryDraft) -> bool
    ensures { result ≡ true ↔ IsStamp draft.now.at × IsPutCurve draft.now.points.items }
{
    is_stamp(draft.at) && curve_from(&draft.points).is_some()
}

/// The put of the entry into the correction set of a number.
pub(crate) fn correction_from(set: u8, draft: &EntryDraft) -> What
    requires stamp { IsStamp draft.now.at }
    requires curve { IsPutCurve draft.now.points.items }
    ensures { result ≡ PutCorrection set draft.now.at draft.now.points.items draft.now.prorate }
{
    What::PutCorrection {
        set,
        at: Second::of_seconds(draft.at),
        curve: curve_from(&draft.points).unwrap(),
        prorate: draft.prorate,
    }
}

/// The drop of the entry at an instant from the correction set of a number.
pub(crate) fn dropped_correction_from(set: u8, at: i64) -> What
    requires { IsStamp at }
    ensures { result ≡ DropCorrection set at }
{
    What::DropCorrection {
        set,
        at: Second::of_seconds(at),
    }
}

/// The put of the entry into the shifts.
pub(crate) fn shift_from(draft: &EntryDraft) -> What
    requires stamp { IsStamp draft.now.at }
    requires curve { IsPutCurve draft.now.points.items }
    ensures { result ≡ PutShift draft.now.at draft.now.points.items draft.now.prorate }
{
    What::PutShift {
        at: Second::of_seconds(draft.at),
        curve: curve_from(&draft.points).unwrap(),
        prorate: draft.prorate,
    }
}

/// The drop of the entry at an instant from the shifts.
pub(crate) fn dropped_shift_from(at: i64) -> What
    requires { IsStamp at }
    ensures { result ≡ DropShift at }
{
    What::DropShift {
        at: Second::of_seconds(at),
    }
}

/// The curve of these points, or `None` exactly where it may not be put.
fn curve_from(points: &[(i64, i64)]) -> Option<Curve>
    ensures some { IfSome result (λ curve. curve ≡ points.now) }
    ensures told { IsSome result ↔ IsPutCurve points.now }
{
    let curve = curve_of(points)?;
    if is_put_curve(&curve) {
        Some(curve)
    } else {
        None
    }
}

/// The curve of these points, or `None` only where it may not be put.
fn curve_of(points: &[(i64, i64)]) -> Option<Curve>
    ensures some { IfSome result (λ curve. curve ≡ points.now) }
    ensures none { IfNone result (¬ IsPutCurve points.now) }
{
    if !are_places(points) {
        return None;
    }
    match points {
        [first] => curve_through(&[place(first)]),
        [first, second] => curve_through(&[place(first), place(second)]),
        [first, second, third] => curve_through(&[place(first), place(second), place(third)]),
        _ => None,
    }
}

/// The curve through these places, or `None` only where it may not be put.
fn curve_through(places: &[(Micro, Micro)]) -> Option<Curve>
    ensures some { IfSome result (λ curve. curve ≡ places.now) }
    ensures none { IfNone result (¬ IsPutCurve places.now) }
{
    Curve::new(places).ok()
}

/// Whether a curve that may be put has each of these points.
fn are_places(points: &[(i64, i64)]) -> bool
    ensures { result ≡ true ↔ All IsPutPoint points.now }
{
    points.iter().all(is_place)
}

/// Whether a curve that may be put has such a point.
fn is_place(point: &(i64, i64)) -> bool
    ensures { result ≡ true ↔ IsPutPoint point.now }
{
    is_stage(point.0) && is_amount(point.1)
}

/// The point of this stage and this amount.
fn place(point: &(i64, i64)) -> (Micro, Micro)
    requires { IsPutPoint point.now }
    ensures { result ≡ point.now }
{
    (Micro::of_millionths(point.0), Micro::of_millionths(point.1))
}
