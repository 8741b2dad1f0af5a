//! The changes of a station's readings, and which of them alter the window of a day.

ghost use Rattle.std.specs.Prelude.{◌≡◌, ◌*◌, ◌∷◌, [], not, pos, List, filter, option_to_list};
ghost use Rattle.std.specs.List.{list_any};
ghost use Rattle.fixed_units.specs.declared.readings.Reading.{Reading};
ghost use Rattle.readings.specs.Changes.{changed, changed_by, put_list, IsRisingChange};
ghost use Rattle.readings.specs.Equality.{same_flag, same_readings};
ghost use Rattle.readings.specs.Halves.{joined};
ghost use Rattle.readings.specs.Reach.{lead_used, follow_used};
ghost use Rattle.readings.specs.Readings.{IsRising, before_instant, from_instant, at_instant, is_used, put_all, with_flag, without_span};
ghost use Rattle.readings.specs.Window.{window};

use crate::halves::Halves;
use crate::lists::Readings;
use crate::reach::{
    follow_until, head, lead_from, neighbour_after, neighbour_before, split_at_key, tail,
};
use crate::used::is_usable;
use fixed_units::{Flag, Reading, Second};

/// A change of a station's readings.
#[derive(Clone, Copy, Debug)]
pub enum Change<'a> {
    /// Puts readings, each in place of the one at its instant.
    Put(&'a [Reading]),
    /// Takes out every reading of a span.
    Drop {
        /// The first instant of the span.
        from: Second,
        /// The last instant of the span.
        to: Second,
    },
    /// Flags every reading of a span.
    Flag {
        /// The first instant of the span.
        from: Second,
        /// The last instant of the span.
        to: Second,
        /// The flag that each of them has then.
        flag: Flag,
    },
}

impl Readings {
    /// Whether a change alters the window of the day from `a` to `b`; `gap` is in minutes. The used readings of the day are
    /// compared first, and those as far as its neighbours only where it keeps a used reading. No memory is taken.
    pub fn alters_window(&self, change: &Change<'_>, a: Second, b: Second, gap: u32) -> bool
        requires rising { IsRisingChange change.now }
        ensures { result ≡ not (same_readings (window a b (pos (60 * gap)) self.now.list) (window a b (pos (60 * gap)) (changed change.now self.now.list))) }
    {
        let parts = self.halves().parts(a, b);
        let (early, rest) = split_at_key(change.put_list(), a);
        let (inner, late) = split_at_key(rest, b);
        if alters_used(&parts.day, change, inner) {
            return true;
        }
        if parts.day.first_used().is_none() {
            return false;
        }
        alters_lead(&parts.before, change, early, a, gap)
            || alters_follow(&parts.behind, change, late, b, gap)
    }
}

impl<'a> Change<'a> {
    /// What it puts.
    fn put_list(&self) -> &'a [Reading]
        ensures { result.now ≡ put_list self.now }
    {
        match self {
            Change::Put(list) => list,
            _ => &[],
        }
    }
}

/// Whether a change alters the used readings before a day that bear on its window; it puts these before the day, and `gap` is in
/// minutes.
fn alters_lead(
    early: &Halves<'_>,
    change: &Change<'_>,
    put: &[Reading],
    a: Second,
    gap: u32,
) -> bool
    requires early { IsRising (joined early.now) }
    requires put { IsRising put.now }
    ensures { (readings list : List Reading) → IsRising readings → joined early.now ≡ before_instant a readings → put.now ≡ before_instant a list → result ≡ not (same_readings (lead_used a (pos (60 * gap)) readings readings) (lead_used a (pos (60 * gap)) readings (changed_by change.now list readings))) }
{
    let from = lead_from(neighbour_before(early, a, gap), a, gap);
    alters_used(&early.tail(from), change, tail(put, from))
}

/// Whether a change alters the used readings behind a day that bear on its window; it puts these behind the day, and `gap` is in
/// minutes.
fn alters_follow(
    late: &Halves<'_>,
    change: &Change<'_>,
    put: &[Reading],
    b: Second,
    gap: u32,
) -> bool
    requires late { IsRising (joined late.now) }
    requires put { IsRising put.now }
    ensures { (readings list : List Reading) → IsRising readings → joined late.now ≡ from_instant b readings → put.now ≡ from_instant b list → result ≡ not (same_readings (follow_used b (pos (60 * gap)) readings readings) (follow_used b (pos (60 * gap)) readings (changed_by change.now list readings))) }
{
    let until = follow_until(neighbour_after(late, b, gap), b, gap);
    alters_used(&late.head(until), change, head(put, until))
}

/// Whether a change that puts these alters the used ones of some readings.
fn alters_used(kept: &Halves<'_>, change: &Change<'_>, put: &[Reading]) -> bool
    requires kept { IsRising (joined kept.now) }
    requires put { IsRising put.now }
    ensures { result ≡ not (same_readings (filter is_used (joined kept.now)) (filter is_used (changed_by change.now put.now (joined kept.now)))) }
{
    match change {
        Change::Put(_) => put_alters(kept, put),
        Change::Drop { from, to } => drop_alters(kept, *from, *to),
        Change::Flag { from, to, flag } => flag_alters(kept, *from, *to, *flag),
    }
}

/// Whether readings that are put alter the used ones.
fn put_alters(kept: &Halves<'_>, list: &[Reading]) -> bool
    requires kept { IsRising (joined kept.now) }
    requires list { IsRising list.now }
    ensures { result ≡ not (same_readings (filter is_used (joined kept.now)) (filter is_used (put_all list.now (joined kept.now)))) }
{
    list.iter().any(|reading| is_used_anew(kept, reading))
}

/// Whether a reading is used otherwise than the one at its instant: one of them is used, and they are not one.
fn is_used_anew(kept: &Halves<'_>, reading: &Reading) -> bool
    requires { IsRising (joined kept.now) }
    ensures { result ≡ not (same_readings (filter is_used (option_to_list (at_instant reading.now.at (joined kept.now)))) (filter is_used (reading.now ∷ []))) }
{
    match kept.at(reading.at) {
        Some(found) if is_usable(&found) => found != *reading,
        _ => is_usable(reading),
    }
}

/// Whether the used readings are others without those of a span.
fn drop_alters(kept: &Halves<'_>, from: Second, to: Second) -> bool
    requires { IsRising (joined kept.now) }
    ensures { result ≡ not (same_readings (filter is_used (joined kept.now)) (filter is_used (without_span from to (joined kept.now)))) }
{
    kept.span(from, to).first_used().is_some()
}

/// Whether the used readings are others where those of a span are flagged.
fn flag_alters(kept: &Halves<'_>, from: Second, to: Second, flag: Flag) -> bool
    requires { IsRising (joined kept.now) }
    ensures { result ≡ not (same_readings (filter is_used (joined kept.now)) (filter is_used (with_flag from to flag (joined kept.now)))) }
{
    let span = kept.span(from, to);
    has_other_flag(span.left, flag) || has_other_flag(span.right, flag)
}

/// Whether some reading has another flag.
fn has_other_flag(list: &[Reading], flag: Flag) -> bool
    ensures { result ≡ list_any (λ r. not (same_flag r.flag flag)) list.now }
{
    list.iter().any(|reading| reading.flag != flag)
}
