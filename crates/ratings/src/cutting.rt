//! Periods cut to the time between two instants, with the tables of their ratings.

ghost use Rattle.std.specs.Prelude.{◌≡◌, false, List, ◌∷◌, map, All, IsSome, IfOk, IfSome, IfNone};
ghost use Rattle.std.specs.Int.{int_max, int_min};
ghost use Rattle.std.specs.Ordering.{int_eq};
ghost use Rattle.fixed_units.specs.Quantities.{IsSecond, IsStamp};
ghost use Rattle.ratings.specs.Numbered.{rating_of, rows_of};
ghost use Rattle.ratings.specs.PartEquality.{same_part, same_parts};
ghost use Rattle.ratings.specs.Parts as cut;
ghost use Rattle.ratings.specs.Parts.{Part, part_of};

use crate::parts::PartList;
use crate::period::{Period, PeriodPart};
use crate::station_ratings::Rating;
use fixed_units::{NoMemory, Second};
use rating_tables::SharedTable;
use rising::RisingList;
use std::alloc::Global;

/// The table of a rating that is there.
pub(crate) fn table_of(tables: &RisingList<Rating>, number: u32) -> &SharedTable
    requires { IsSome (rating_of number tables.now.list) }
    ensures { result.now ≡ rows_of number tables.now.list }
{
    match tables.get(number) {
        Some(rating) => &rating.table,
        None => unreachable!(),
    }
}

/// The parts of periods, each of a rating that is there, cut to the time from `lo` to `hi`.
pub(crate) fn cut_all(
    alloc: Global,
    tables: &RisingList<Rating>,
    periods: &[Period],
    lo: Second,
    hi: Second,
) -> Result<PartList, NoMemory>
    requires stamp { IsStamp hi }
    requires known { All (λ p. IsSome (rating_of p.rating tables.now.list)) periods.now }
    ensures { IfOk result (λ list. list ≡ map (part_of lo hi tables.now.list) periods.now) }
{
    let mut parts = Vec::new(alloc);
    for period in periods {
        parts.push(cut(tables, period, lo, hi)?)?;
    }
    Ok(PartList::from_vec(parts))
}

/// A period of a rating that is there, cut to the time from `lo` to `hi`.
fn cut(
    tables: &RisingList<Rating>,
    period: &Period,
    lo: Second,
    hi: Second,
) -> Result<PeriodPart, NoMemory>
    requires stamp { IsStamp hi }
    requires known { IsSome (rating_of period.now.rating tables.now.list) }
    ensures { IfOk result (λ part. part ≡ part_of lo hi tables.now.list period.now) }
{
    let table = table_of(tables, period.rating).share()?;
    Ok(PeriodPart {
        from: later(period.from, lo),
        until: Second::of_seconds(cut_end(hi, period.until)),
        rating: period.rating,
        table,
    })
}

/// Whether a list is the parts of periods, each of a rating that is there, cut to the time from `lo` to `hi`.
pub(crate) fn are_cut(
    tables: &RisingList<Rating>,
    periods: &[Period],
    lo: Second,
    hi: Second,
    parts: &[PeriodPart],
) -> bool
    requires { All (λ p. IsSome (rating_of p.rating tables.now.list)) periods.now }
    ensures { result ≡ same_parts parts.now (map (part_of lo hi tables.now.list) periods.now) }
{
    let mut rest = periods;
    for part in parts {
        let Some(left) = behind(tables, part, rest, lo, hi) else {
            return false;
        };
        rest = left;
    }
    rest.is_empty()
}

/// What stands behind a period, where periods begin with the one that a part is cut from.
fn behind<'a>(
    tables: &RisingList<Rating>,
    part: &PeriodPart,
    periods: &'a [Period],
    lo: Second,
    hi: Second,
) -> Option<&'a [Period]>
    requires { All (λ p. IsSome (rating_of p.rating tables.now.list)) periods.now }
    ensures rest { IfSome result (λ rest. (others : List Part) → same_parts (part.now ∷ others) (map (part_of lo hi tables.now.list) periods.now) ≡ same_parts others (map (part_of lo hi tables.now.list) rest.now)) }
    ensures known { IfSome result (λ rest. All (λ p. IsSome (rating_of p.rating tables.now.list)) rest.now) }
    ensures other { IfNone result ((others : List Part) → same_parts (part.now ∷ others) (map (part_of lo hi tables.now.list) periods.now) ≡ false) }
{
    let (period, rest) = periods.split_first()?;
    if is_cut(tables, part, period, lo, hi) {
        Some(rest)
    } else {
        None
    }
}

/// Whether a part is a period of a rating that is there, cut to the time from `lo` to `hi`.
fn is_cut(
    tables: &RisingList<Rating>,
    part: &PeriodPart,
    period: &Period,
    lo: Second,
    hi: Second,
) -> bool
    requires { IsSome (rating_of period.now.rating tables.now.list) }
    ensures { result ≡ same_part part.now (part_of lo hi tables.now.list period.now) }
{
    part.from == later(period.from, lo)
        && ends_at(part.until, hi, period.until)
        && part.rating == period.rating
        && part.table.is_same(table_of(tables, period.rating))
}

/// Whether a period that is cut right behind an instant ends at another one.
fn ends_at(at: Second, hi: Second, until: Option<Second>) -> bool
    ensures { result ≡ int_eq at (cut.cut_end hi until) }
{
    at.get() == cut_end(hi, until)
}

/// Where a period ends that is cut right behind an instant, in seconds.
pub(crate) fn cut_end(hi: Second, until: Option<Second>) -> i64
    ensures end { result ≡ cut.cut_end hi until }
    ensures range { IsStamp hi → IsSecond result }
{
    match until {
        Some(until) => earlier(until.get(), hi.get() + 1),
        None => hi.get() + 1,
    }
}

/// The later of two instants.
fn later(one: Second, other: Second) -> Second
    ensures { result ≡ int_max one other }
{
    if other < one { one } else { other }
}

/// The lesser of two numbers.
fn earlier(one: i64, other: i64) -> i64
    ensures { result ≡ int_min one other }
{
    if other < one { other } else { one }
}
