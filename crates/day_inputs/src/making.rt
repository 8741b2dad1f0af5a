//! The inputs of a day, made of its window and of its station's series and ratings.

ghost use Rattle.std.specs.Prelude.{◌≡◌, All, IfOk, IfSome, List, None, Option, ℕ};
ghost use Rattle.fixed_units.specs.Quantities.{IsStamp};
ghost use Rattle.rising.specs.Ends.{first, last};
ghost use Rattle.curves.specs.declared.entries.Entry.{Entry};
ghost use Rattle.curves.specs.Bearing.{bearing};
ghost use Rattle.curves.specs.Corrections.{Corrections, entries_of};
ghost use Rattle.curves.specs.Equality.{same_entries};
ghost use Rattle.day_inputs.specs.DayInputs.{bearing_on, ends_of, least_on, parts_on, window_ends, with_window};
ghost use Rattle.day_inputs.specs.Equality.{has_rules, has_rules_on};
ghost use Rattle.ratings.specs.Numbered.{StationRatings};

use crate::day_inputs::{DayInputs, DayParts};
use curves::{CorrectionSets, EntryList, Series, Shifts};
use fixed_units::{Micro, NoMemory, Reading, RoundingArray, Second};
use ratings::{PartList, Ratings};
use readings::ReadingList;
use std::alloc::Global;

/// What the inputs of a day take over from the description of its station.
#[derive(Clone, Copy, Debug, PartialEq, Eq)]
pub struct Settings {
    /// The gap tolerance in minutes, 1 to 720.
    pub gap: u32,
    /// The rounding array for stages.
    pub stage_array: RoundingArray,
    /// The rounding array for discharges.
    pub discharge_array: RoundingArray,
}

/// The inputs of the day from `from` until `until`, of a station with these settings, correction sets, shifts and ratings, which has
/// this window of stamps and this estimate, if there is one, and for which this least cover is in force, if there is one: `Empty`
/// exactly where the window is empty and no estimate stands. The least cover counts only where there is a window.
pub fn with_window(
    alloc: Global,
    settings: Settings,
    from: Second,
    until: Second,
    corrections: &CorrectionSets,
    shifts: &Shifts,
    ratings: &Ratings,
    window: Vec<Reading>,
    estimate: Option<Micro>,
    least: Option<u32>,
) -> Result<DayInputs, NoMemory>
    requires { All (λ r. IsStamp r.at) window.items }
    ensures { IfOk result (λ inputs. inputs ≡ with_window settings.gap settings.stage_array settings.discharge_array from until (entries_of corrections.now) shifts.now.series.entries ratings.now.ratings window.items estimate least) }
{
    let span = ends(window.as_slice());
    if span.is_none() && estimate.is_none() {
        return Ok(DayInputs::Empty);
    }
    Ok(DayInputs::Day(DayParts {
        gap: settings.gap,
        stage_array: settings.stage_array,
        discharge_array: settings.discharge_array,
        from,
        until,
        first: bearing_list(alloc, corrections.set(1), span)?,
        second: bearing_list(alloc, corrections.set(2), span)?,
        third: bearing_list(alloc, corrections.set(3), span)?,
        shifts: bearing_list(alloc, shifts.series(), span)?,
        periods: cut_parts(alloc, ratings, span)?,
        window: ReadingList::from_vec(window),
        estimate,
        least: least_of(least, span),
    }))
}

/// The least cover that counts for the time between two instants: none without that time.
fn least_of(least: Option<u32>, span: Option<(Second, Second)>) -> Option<u32>
    ensures { result ≡ least_on span least }
{
    match span {
        Some(_) => least,
        None => None,
    }
}

/// The entries of a series that bear on the time between two instants: none without that time.
fn bearing_list(
    alloc: Global,
    series: &Series,
    span: Option<(Second, Second)>,
) -> Result<EntryList, NoMemory>
    ensures { IfOk result (λ list. list ≡ bearing_on span series.now.entries) }
{
    match span {
        Some((lo, hi)) => series.bearing_list(alloc, lo, hi),
        None => Ok(EntryList::from_vec(Vec::new(alloc))),
    }
}

/// The parts of the rating periods that meet the time between two instants: none without that time.
fn cut_parts(
    alloc: Global,
    ratings: &Ratings,
    span: Option<(Second, Second)>,
) -> Result<PartList, NoMemory>
    requires { IfSome span (λ span. IsStamp span.1) }
    ensures { IfOk result (λ list. list ≡ parts_on span ratings.now.ratings) }
{
    match span {
        Some((lo, hi)) => ratings.parts(alloc, lo, hi),
        None => Ok(PartList::from_vec(Vec::new(alloc))),
    }
}

/// Whether the entries of a day are those of these correction sets and shifts that bear on its window, its rating periods those of these
/// ratings that meet it, cut to it, and its least cover is this one; without a window there are to be none. It takes no memory.
pub fn has_rules(
    corrections: &CorrectionSets,
    shifts: &Shifts,
    ratings: &Ratings,
    least: Option<u32>,
    parts: &DayParts,
) -> bool
    ensures { result ≡ has_rules (entries_of corrections.now) shifts.now.series.entries ratings.now.ratings least parts.now }
{
    match ends(parts.window.as_slice()) {
        Some((lo, hi)) => {
            bears(corrections.set(1), lo, hi, &parts.first)
                && bears(corrections.set(2), lo, hi, &parts.second)
                && bears(corrections.set(3), lo, hi, &parts.third)
                && bears(shifts.series(), lo, hi, &parts.shifts)
                && ratings.has_parts(lo, hi, parts.periods.as_slice())
                && parts.least == least
        }
        None => has_no_rules(parts),
    }
}

/// Whether a list is the entries of a series that bear on the time between two instants.
fn bears(series: &Series, lo: Second, hi: Second, list: &EntryList) -> bool
    ensures { result ≡ same_entries list.now (bearing lo hi series.now.entries) }
{
    curves::are_same(list.as_slice(), series.bearing_entries(lo, hi))
}

/// Whether a day has no entries, no rating periods and no least cover.
fn has_no_rules(parts: &DayParts) -> bool
    ensures { (corrections : Corrections) → (shifts : List Entry) → (ratings : StationRatings) → (least : Option ℕ) → result ≡ has_rules_on corrections shifts ratings least parts.now None }
{
    parts.first.as_slice().is_empty()
        && parts.second.as_slice().is_empty()
        && parts.third.as_slice().is_empty()
        && parts.shifts.as_slice().is_empty()
        && parts.periods.as_slice().is_empty()
        && parts.least.is_none()
}

/// The instants of the first and the last reading of a window, or `None` exactly where it is empty.
pub fn ends(window: &[Reading]) -> Option<(Second, Second)>
    ensures { result ≡ window_ends window.now }
{
    found_ends(window)
}

/// The instants of the first and the last reading that are found.
fn found_ends(window: &[Reading]) -> Option<(Second, Second)>
    ensures { result ≡ ends_of (first window.now) (last window.now) }
{
    match (window.first().copied(), window.last().copied()) {
        (Some(first), Some(last)) => Some((first.at, last.at)),
        _ => None,
    }
}
