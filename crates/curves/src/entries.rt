//! The entries of a series, and the amount that they put in force at an instant.

ghost use Rattle.std.specs.Prelude.{◌≡◌, ◌≤◌, length, pos, ◌≤ℤ◌, ◌<ℤ◌, option_map, slice_range};
ghost use Rattle.curves.specs.Entries.{IsRising, entry_of, amount_prorated, series_value};
ghost use Rattle.curves.specs.Bearing.{bearing, is_led_to, reaches};

use crate::curve::Curve;
use fixed_units::{Micro, Second, line_at};
use rising::{Keyed, count_to};

/// A curve that governs from an instant until the next entry's.
#[derive(Clone, Copy, Debug, PartialEq, Eq)]
pub struct Entry {
    /// The first instant at which it governs.
    pub at: Second,
    /// The amount for each stage.
    pub curve: Curve,
    /// Whether the amount goes over to that of the next entry in a straight line.
    pub prorate: bool,
}

impl Entry {
    /// The entry of these parts.
    pub fn new(at: Second, curve: Curve, prorate: bool) -> Entry
        ensures { result ≡ entry_of at curve prorate }
    {
        Entry { at, curve, prorate }
    }
}

impl Keyed for Entry {
    type Key = Second;

    ghost place = { λ e. e.at };

    ghost number = { λ s. s };

    fn key(&self) -> Second {
        self.at
    }

    fn is_before(&self, key: Second) -> bool {
        self.at < key
    }

    fn is_at(&self, key: Second) -> bool {
        self.at == key
    }
}

/// The amount in force at an instant for a stage, by entries whose instants strictly rise: 0 before the first one;
/// after that the value of the curve of the last one up to the instant, or where it prorates and another one follows
/// the line between the values of the two curves, rounded once more. Most days of a record have no corrections and no
/// shifts, or one entry that holds on, so a series is searched only where its last entry is later.
#[inline(always)]
pub fn value_of(entries: &[Entry], at: Second, stage: Micro) -> Micro
    requires { IsRising entries.now }
    ensures { result ≡ series_value entries.now at stage }
{
    if entries.is_empty() {
        return no_amount();
    }
    match entries.last() {
        Some(entry) if entry.at <= at => entry.curve.value(stage),
        _ => value_searched(entries, at, stage),
    }
}

/// The amount in force at an instant for a stage, by a search for the instant.
#[inline(never)]
fn value_searched(entries: &[Entry], at: Second, stage: Micro) -> Micro
    requires { IsRising entries.now }
    ensures { result ≡ series_value entries.now at stage }
{
    let (past, future) = entries.split_at(count_to(entries, at));
    let Some(entry) = past.last() else {
        return no_amount();
    };
    match future.first() {
        Some(next) if entry.prorate => amount_prorated(entry, next, at, stage),
        _ => entry.curve.value(stage),
    }
}

/// No amount, as before the first entry.
fn no_amount() -> Micro
    ensures { result ≡ pos 0 }
{
    Micro::of_millionths(0)
}

/// The amount at an instant between two entries.
fn amount_prorated(entry: &Entry, next: &Entry, at: Second, stage: Micro) -> Micro
    requires from { entry.now.at ≤ℤ at }
    requires until { at <ℤ next.now.at }
    ensures { result ≡ amount_prorated entry.now next.now at stage }
{
    line_at(
        (entry.at.get(), entry.curve.value(stage)),
        (next.at.get(), next.curve.value(stage)),
        at.get(),
    )
}

/// The first place of the entries that bear on a span, and the place after the last one.
pub(crate) fn bearing(entries: &[Entry], lo: Second, hi: Second) -> (usize, usize)
    requires { IsRising entries.now }
    ensures ordered { result.0 ≤ result.1 }
    ensures within { result.1 ≤ length entries.now }
    ensures run { slice_range entries.now result.0 result.1 ≡ bearing lo hi entries.now }
{
    let end = count_to(entries, hi);
    let start = end.min(count_to(entries, lo).saturating_sub(1));
    if start < end && end < entries.len() && entries[end - 1].prorate {
        return (start, end + 1);
    }
    (start, end)
}

/// Whether what stands at an instant, in front of this entry, bears on a span by itself: it stands at most at `hi`, and
/// the next one, if there is one, after `lo`.
pub(crate) fn reaches(at: Second, next: Option<&Entry>, lo: Second, hi: Second) -> bool
    ensures { result ≡ reaches lo hi at (option_map (λ n. n.now) next.entry) }
{
    match next {
        Some(next) => at <= hi && lo < next.at,
        None => at <= hi,
    }
}

/// Whether what stands at an instant, behind this entry, bears on a span since it follows one that does and prorates.
pub(crate) fn is_led_to(before: Option<&Entry>, at: Second, lo: Second, hi: Second) -> bool
    ensures { result ≡ is_led_to lo hi (option_map (λ b. b.now) before.entry) at }
{
    match before {
        Some(before) => before.at <= hi && lo < at && before.prorate,
        None => false,
    }
}
