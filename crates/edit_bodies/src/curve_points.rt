//! The member `points`: rows of a stage and an amount, which are a curve.

ghost use Rattle.std.specs.Prelude.{◌≡◌, IfOk, option_and_then};
ghost use Rattle.edit_bodies.specs.Answers.{IsTaken};
ghost use Rattle.edit_bodies.specs.Grammars.{curve_if, each_of, point_of, points_of};
ghost use Rattle.edit_bodies.specs.Members.{member_text, required};
ghost use Rattle.edit_bodies.specs.Trees.{left, stated};
ghost use Rattle.edits.specs.Lawful.{IsPutCurve};
ghost use Rattle.serde_json.specs.Data.{item, no_items};
ghost use Rattle.serde_json.specs.Find.{get_member};

use crate::faults::BodyFault;
use crate::members::{Fields, Member, remove, value_at};
use crate::rows::{amount_in, both_in, items_in, stage_in};
use curves::Curve;
use fixed_units::Micro;
use json::Value;

/// Takes out the points of an entry's curve.
pub(crate) fn take_points(fields: &mut Fields<'_>) -> Result<Curve, BodyFault>
    ensures read { IsTaken (required Member.Points points_of) fields.old result fields.new }
    ensures put { IfOk result IsPutCurve }
{
    let found = curve_at(fields);
    remove(fields, Member::Points);
    found.ok_or(BodyFault::Body(Member::Points))
}

/// The curve that is there.
fn curve_at(fields: &Fields<'_>) -> Option<Curve>
    ensures { result ≡ option_and_then points_of (get_member (member_text Member.Points) (left fields.now)) }
{
    curve_in(value_at(fields, Member::Points)?)
}

/// The curve whose points the rows state.
fn curve_in(rows: &Value<'_>) -> Option<Curve>
    ensures { result ≡ points_of (stated rows.now) }
{
    match items_in(rows)? {
        [first] => curve_of(&[point_in(first)?]),
        [first, second] => curve_in_two(first, second),
        [first, second, third] => curve_in_three(first, second, third),
        _ => None,
    }
}

/// The curve whose two points these rows state.
fn curve_in_two(first: &Value<'_>, second: &Value<'_>) -> Option<Curve>
    ensures { result ≡ option_and_then curve_if (each_of point_of (item (stated first.now) (item (stated second.now) no_items))) }
{
    curve_of(&[point_in(first)?, point_in(second)?])
}

/// The curve whose three points these rows state.
fn curve_in_three(first: &Value<'_>, second: &Value<'_>, third: &Value<'_>) -> Option<Curve>
    ensures { result ≡ option_and_then curve_if (each_of point_of (item (stated first.now) (item (stated second.now) (item (stated third.now) no_items)))) }
{
    curve_of(&[point_in(first)?, point_in(second)?, point_in(third)?])
}

/// The curve of these points, or `None` exactly where they are none.
fn curve_of(points: &[(Micro, Micro)]) -> Option<Curve>
    ensures { result ≡ curve_if points.now }
{
    Curve::new(points).ok()
}

/// The point that a row states: a stage and an amount, and nothing else.
fn point_in(row: &Value<'_>) -> Option<(Micro, Micro)>
    ensures { result ≡ point_of (stated row.now) }
{
    let (stage, amount) = both_in(row)?;
    stage_in(stage).zip(amount_in(amount))
}
