//! Calls of `ratings` on the parts of a window, from its first instant to its end, both included.

ghost use Rattle.std.specs.Prelude.{IfOk};
ghost use Rattle.ratings.specs.Parts.{AreParts};

use crate::notation::{Stop, instant, push_instant, push_whether, push_whole_if, three};
use crate::periods::period;
use crate::rated::{pair_of, push_pair_if, put};
use crate::series::push_taken;
use fixed_units::{NoMemory, Second, Text, is_stamp};
use ratings::{PartList, PeriodPart, Ratings, part_at};
use row_lines::parted;
use std::alloc::Global;

/// Writes what comes of a call: `WORD RATINGS FIRST LAST ARGUMENT`.
pub fn answer(
    alloc: Global,
    ratings: &mut Ratings,
    word: &str,
    rest: &str,
    came: &mut Text,
) -> Result<(), Stop> {
    let (first, last, rest) = three(rest);
    let ends = (instant(first)?, instant(last)?);
    match word {
        "parts" => parts(alloc, ratings, &ends, came),
        "part_at" => rating_at(alloc, ratings, &ends, rest, came),
        "with" => with(alloc, ratings, &ends, rest, came),
        "without" => without(alloc, ratings, &ends, rest, came),
        _ => Ok(came.push_slice(b"no such call")?),
    }
}

/// The parts of a window.
fn parts_of(alloc: Global, ratings: &Ratings, ends: &(Second, Second)) -> Result<PartList, Stop>
    ensures { IfOk result (λ list. AreParts list) }
{
    if ends.0.get() > ends.1.get() || !is_stamp(ends.1.get()) {
        return Err(Stop::NotWellFormed);
    }
    Ok(ratings.parts(alloc, ends.0, ends.1)?)
}

/// `parts .. FIRST LAST`: how many parts there are, whether the ratings say that these are theirs, whether they say so of no parts, and each
/// part: from when until when, the number of the rating, and the discharges of a foot and of two feet by its table.
fn parts(
    alloc: Global,
    ratings: &Ratings,
    ends: &(Second, Second),
    came: &mut Text,
) -> Result<(), Stop> {
    let list = parts_of(alloc, ratings, ends)?;
    push_has(ratings, ends, list.as_slice(), came)?;
    Ok(push_parts(list.as_slice(), came)?)
}

fn push_has(
    ratings: &Ratings,
    ends: &(Second, Second),
    parts: &[PeriodPart],
    came: &mut Text,
) -> Result<(), NoMemory> {
    push_whether(ratings.has_parts(ends.0, ends.1, parts), came)?;
    came.push_slice(b" ")?;
    push_whether(ratings.has_parts(ends.0, ends.1, &[]), came)
}

fn push_parts(parts: &[PeriodPart], came: &mut Text) -> Result<(), NoMemory> {
    for part in parts {
        came.push_slice(b" ")?;
        push_part(part, came)?;
    }
    Ok(())
}

fn push_part(part: &PeriodPart, came: &mut Text) -> Result<(), NoMemory> {
    push_instant(Some(part.from), came)?;
    came.push_slice(b"/")?;
    push_instant(Some(part.until), came)?;
    came.push_slice(b"/")?;
    came.push_number(u64::from(part.rating))?;
    came.push_slice(b"=")?;
    push_pair_if(pair_of(part.table.table()), came)
}

/// `part_at .. FIRST LAST INSTANT`: the number of the rating whose part is in force.
fn rating_at(
    alloc: Global,
    ratings: &Ratings,
    ends: &(Second, Second),
    rest: &str,
    came: &mut Text,
) -> Result<(), Stop> {
    let at = instant(rest)?;
    let list = parts_of(alloc, ratings, ends)?;
    let part = part_at(list.as_slice(), at);
    Ok(push_whole_if(part.map(|part| i64::from(part.rating)), came)?)
}

/// `with .. FIRST LAST PERIOD`: whether the ratings say that the parts stay where the period is put, and whether they then do.
fn with(
    alloc: Global,
    ratings: &mut Ratings,
    ends: &(Second, Second),
    rest: &str,
    came: &mut Text,
) -> Result<(), Stop> {
    let period = period(rest)?;
    push_whether(ratings.keeps_parts_with(&period, ends.0, ends.1), came)?;
    came.push_slice(b" ")?;
    let list = parts_of(alloc, ratings, ends)?;
    put(ratings, period)?;
    push_stays(ratings, ends, list.as_slice(), came)
}

fn push_stays(
    ratings: &Ratings,
    ends: &(Second, Second),
    parts: &[PeriodPart],
    came: &mut Text,
) -> Result<(), Stop> {
    let stay = ratings.has_parts(ends.0, ends.1, parts);
    Ok(push_whether(stay, came)?)
}

/// `without .. FIRST LAST FROM`: whether the ratings say that the parts stay where the period that begins there is taken out, whether one begins
/// there, what comes of its being dropped, and whether the parts then do stay.
fn without(
    alloc: Global,
    ratings: &mut Ratings,
    ends: &(Second, Second),
    rest: &str,
    came: &mut Text,
) -> Result<(), Stop> {
    let from = instant(rest)?;
    push_before(ratings, ends, from, came)?;
    let list = parts_of(alloc, ratings, ends)?;
    push_taken(ratings.drop_period(from), came)?;
    push_stays(ratings, ends, list.as_slice(), came)
}

fn push_before(
    ratings: &Ratings,
    ends: &(Second, Second),
    from: Second,
    came: &mut Text,
) -> Result<(), NoMemory> {
    push_whether(ratings.keeps_parts_without(from, ends.0, ends.1), came)?;
    came.push_slice(b" ")?;
    push_whether(ratings.period_from(from).is_some(), came)?;
    came.push_slice(b" ")
}
