//! When two lists of readings are equal, and when a window is a list that was kept.

ghost use Rattle.std.specs.Prelude.{◌≡◌, ◌≢◌, ◌++◌, List, filter, option_to_list, IfSome, IfNone};
ghost use Rattle.std.specs.Bool.{Decides};
ghost use Rattle.fixed_units.specs.declared.readings.Reading.{Reading};
ghost use Rattle.readings.specs.Equality.{same_reading, same_readings};
ghost use Rattle.readings.specs.Readings.{is_used};
ghost use Rattle.readings.specs.Window.{with_neighbours};

use crate::used::is_usable;
use crate::windows::Window;
use fixed_units::Reading;

/// Two readings, and two lists of them, are equal exactly where the tests of the definitions say so.
pub fn equality_is_told()
    ensures readings { (r s : Reading) → Decides (same_reading r s) (r ≡ s) }
    ensures lists { (rs ss : List Reading) → Decides (same_readings rs ss) (rs ≡ ss) }
{}

/// Whether two lists of readings are equal.
pub fn are_same(readings: &[Reading], others: &[Reading]) -> bool
    ensures { result ≡ same_readings readings.now others.now }
{
    readings == others
}

/// Whether the readings of a window that are used, its neighbours among them, are this list: the comparison takes no
/// memory.
pub fn window_is(window: &Window<'_>, list: &[Reading]) -> bool
    ensures { result ≡ same_readings (with_neighbours window.now.before (filter is_used (window.now.left.now ++ window.now.right.now)) window.now.after) list.now }
{
    let Some(_) = window.day().first_used() else {
        return list.is_empty();
    };
    is_line(window, list)
}

/// Whether a list is these readings in a row: the one before, the used ones, the one after.
fn is_line(window: &Window<'_>, list: &[Reading]) -> bool
    ensures { result ≡ same_readings (option_to_list window.now.before ++ (filter is_used window.now.left.now ++ (filter is_used window.now.right.now ++ option_to_list window.now.after))) list.now }
{
    let Some(list) = behind(window.before, list) else {
        return false;
    };
    let Some(list) = behind_used(window.left, list) else {
        return false;
    };
    let Some(list) = behind_used(window.right, list) else {
        return false;
    };
    let Some(list) = behind(window.after, list) else {
        return false;
    };
    list.is_empty()
}

/// What stands behind a reading, where a list begins with it. Behind no reading stands the whole list.
fn behind(first: Option<Reading>, list: &[Reading]) -> Option<&[Reading]>
    ensures rest { IfSome result (λ rest. list.now ≡ option_to_list first ++ rest.now) }
    ensures other { IfNone result ((rest : List Reading) → list.now ≢ option_to_list first ++ rest) }
{
    let Some(reading) = first else {
        return Some(list);
    };
    match list {
        [found, rest @ ..] if *found == reading => Some(rest),
        _ => None,
    }
}

/// What stands behind the used ones of some readings, where a list begins with them.
fn behind_used<'a>(readings: &[Reading], list: &'a [Reading]) -> Option<&'a [Reading]>
    ensures rest { IfSome result (λ rest. list.now ≡ filter is_used readings.now ++ rest.now) }
    ensures other { IfNone result ((rest : List Reading) → list.now ≢ filter is_used readings.now ++ rest) }
{
    let mut rest = list;
    for reading in readings {
        if is_usable(reading) {
            let Some(left) = behind(Some(*reading), rest) else {
                return None;
            };
            rest = left;
        }
    }
    Some(rest)
}
