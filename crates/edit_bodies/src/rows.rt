//! The items of an array, and the strings among them.

ghost use Rattle.std.specs.Prelude.{◌≡◌, ℤ, Option, Some, None, IfSome, IfNone, option_and_then, option_map};
ghost use Rattle.edit_bodies.specs.Grammars.{amount_of, discharge_of, flag_of_text, instant_of, pair_in, quantity_of, stage_of};
ghost use Rattle.edit_bodies.specs.Trees.{items_stated, stated};
ghost use Rattle.fixed_units.specs.Quantities.{IsAmount, IsDischarge, IsStage, IsStamp};
ghost use Rattle.serde_json.specs.Data.{Data, item, no_items, string};
ghost use Rattle.serde_json.specs.Find.{as_array, as_str};

use civil_days::read_instant;
use fixed_units::{Flag, Micro, Second, is_amount, is_discharge, is_stage, read_decimal};
use json::Value;

/// The items of an array.
pub(crate) fn items_in<'v, 'a>(value: &'v Value<'a>) -> Option<&'v [Value<'a>]>
    ensures { option_map (λ items. items_stated items.now) result ≡ as_array (stated value.now) }
{
    match value {
        Value::Array(items) => Some(items.as_slice()),
        _ => None,
    }
}

/// The two items of a row, or `None` exactly where it is no row of two.
pub(crate) fn both_in<'v, 'a>(row: &'v Value<'a>) -> Option<(&'v Value<'a>, &'v Value<'a>)>
    ensures some { IfSome result (λ both. as_array (stated row.now) ≡ Some (item (stated both.0.now) (item (stated both.1.now) no_items))) }
    ensures none { IfNone result ((first second : Data → Option ℤ) → None ≡ option_and_then (pair_in first second) (as_array (stated row.now))) }
{
    let [first, second] = items_in(row)? else {
        return None;
    };
    Some((first, second))
}

/// The text that a string has.
pub(crate) fn text_in<'a>(value: &Value<'a>) -> Option<&'a str>
    ensures { option_map (λ text. text.now) result ≡ as_str (stated value.now) }
{
    value.as_str()
}

/// The stamp that a string writes.
pub(crate) fn instant_in(value: &Value<'_>) -> Option<Second>
    ensures value { result ≡ instant_of (stated value.now) }
    ensures stamp { IfSome result IsStamp }
{
    read_instant(text_in(value)?.as_bytes())
}

/// The stage that a string writes.
pub(crate) fn stage_in(value: &Value<'_>) -> Option<Micro>
    ensures value { result ≡ stage_of (stated value.now) }
    ensures stage { IfSome result IsStage }
{
    stage_written(text_in(value)?)
}

/// The stage that a text writes.
#[inline(always)]
pub(crate) fn stage_written(text: &str) -> Option<Micro>
    ensures value { result ≡ stage_of (string text.now) }
    ensures stage { IfSome result IsStage }
{
    let stage = read_decimal(text.as_bytes()).ok()?;
    if is_stage(stage.get()) {
        Some(stage)
    } else {
        None
    }
}

/// The amount of a correction or of a shift that a string writes.
pub(crate) fn amount_in(value: &Value<'_>) -> Option<Micro>
    ensures value { result ≡ amount_of (stated value.now) }
    ensures amount { IfSome result IsAmount }
{
    let amount = quantity_in(value)?;
    if is_amount(amount.get()) {
        Some(amount)
    } else {
        None
    }
}

/// The discharge that a string writes.
pub(crate) fn discharge_in(value: &Value<'_>) -> Option<Micro>
    ensures value { result ≡ discharge_of (stated value.now) }
    ensures discharge { IfSome result IsDischarge }
{
    let discharge = quantity_in(value)?;
    if is_discharge(discharge.get()) {
        Some(discharge)
    } else {
        None
    }
}

/// The flag of that name, or `None` exactly where there is no such flag.
pub(crate) fn flag_named(text: &[u8]) -> Option<Flag>
    ensures { result ≡ flag_of_text text.now }
{
    if text == b"ok".as_slice() {
        Some(Flag::Usable)
    } else if text == b"erroneous".as_slice() {
        Some(Flag::Erroneous)
    } else if text == b"affected".as_slice() {
        Some(Flag::Affected)
    } else {
        None
    }
}

/// The quantity that a string writes.
fn quantity_in(value: &Value<'_>) -> Option<Micro>
    ensures { result ≡ quantity_of (stated value.now) }
{
    read_decimal(text_in(value)?.as_bytes()).ok()
}
