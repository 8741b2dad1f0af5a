//! Calls of `ratings` on the ratings of a station under their numbers and the periods in which they are in force.

use crate::curve_points::push_place;
use crate::notation::{Stop, count, instant, push_instant, push_pair, told};
use crate::periods::period;
use crate::rating_parts;
use crate::series::push_taken;
use crate::tables::table;
use fixed_units::{Micro, NoMemory, Text};
use ratings::{Period, Rated, Rating, Ratings, SharedTable, Table};
use row_lines::parted;
use std::alloc::Global;

/// Writes what comes of a call: `WORD RATINGS ARGUMENTS`.
pub fn answer(alloc: Global, word: &str, rest: &str, came: &mut Text) -> Result<(), NoMemory> {
    let mut ratings = Ratings::new(alloc);
    let end = answer_with(alloc, &mut ratings, word, rest, came);
    told(end, came)
}

fn answer_with(
    alloc: Global,
    ratings: &mut Ratings,
    word: &str,
    rest: &str,
    came: &mut Text,
) -> Result<(), Stop> {
    let (given, rest) = parted(rest);
    put_all(alloc, given, ratings)?;
    answer_of(alloc, ratings, word, rest, came)
}

fn answer_of(
    alloc: Global,
    ratings: &mut Ratings,
    word: &str,
    rest: &str,
    came: &mut Text,
) -> Result<(), Stop> {
    match word {
        "number" => number(ratings, rest, came),
        "tables" => Ok(push_place(ratings.tables().len(), came)?),
        "at" => Ok(push_pair_if(pair_at(ratings, rest)?, came)?),
        "overlap" => overlap(ratings, rest, came),
        "drop" => drop_and_tell(ratings, rest, came),
        _ => rating_parts::answer(alloc, ratings, word, rest, came),
    }
}

/// Adds tables, each `NUMBER=TABLE`, and puts periods in the order in which they stand, with semicolons between them; `-` is none.
fn put_all(alloc: Global, text: &str, ratings: &mut Ratings) -> Result<(), Stop> {
    if text == "-" {
        return Ok(());
    }
    for piece in text.split(';') {
        put_one(alloc, piece, ratings)?;
    }
    Ok(())
}

fn put_one(alloc: Global, text: &str, ratings: &mut Ratings) -> Result<(), Stop> {
    match text.split_once('=') {
        Some((number, rows)) => add(ratings, count(number)?, shared(alloc, rows)?),
        None => put(ratings, period(text)?),
    }
}

/// A table that is shared, by its rows.
pub fn shared(alloc: Global, rows: &str) -> Result<SharedTable, Stop> {
    Ok(SharedTable::new(alloc, table(alloc, rows)?)?)
}

fn add(ratings: &mut Ratings, number: u32, table: SharedTable) -> Result<(), Stop> {
    ratings.reserve_rating()?;
    if ratings.rating(number).is_some() || !table.table().is_rating() {
        return Err(Stop::NotWellFormed);
    }
    ratings.add(number, table);
    Ok(())
}

/// Puts a period of a rating that is there, which no other one stands in the way of.
pub fn put(ratings: &mut Ratings, period: Period) -> Result<(), Stop> {
    ratings.reserve_period()?;
    if ratings.rating(period.rating).is_none() || ratings.overlap(&period).is_some() {
        return Err(Stop::NotWellFormed);
    }
    ratings.put_period(period);
    Ok(())
}

/// `number RATINGS NUMBER`: the number of the rating, and the discharges of a foot and of two feet by its table.
fn number(ratings: &Ratings, rest: &str, came: &mut Text) -> Result<(), Stop> {
    match ratings.rating(count(rest)?) {
        Some(rating) => Ok(push_numbered(rating, came)?),
        None => Ok(came.push_slice(b"none")?),
    }
}

fn push_numbered(rating: &Rating, came: &mut Text) -> Result<(), NoMemory> {
    came.push_number(u64::from(rating.number()))?;
    came.push_slice(b" ")?;
    push_pair_if(pair_of(rating.table()), came)
}

/// The discharges of a foot and of two feet by a table.
pub fn pair_of(table: &Table) -> Option<(Micro, Micro)> {
    let low = discharge_of(table, 1_000_000)?;
    let high = discharge_of(table, 2_000_000)?;
    Some((low, high))
}

fn discharge_of(table: &Table, stage: i64) -> Option<Micro> {
    match table.rate(Micro::new(stage)?) {
        Rated::Value(discharge) => Some(discharge),
        _ => None,
    }
}

/// Writes two discharges, or that there are none.
pub fn push_pair_if(pair: Option<(Micro, Micro)>, came: &mut Text) -> Result<(), NoMemory> {
    match pair {
        Some(pair) => push_pair(pair, came),
        None => came.push_slice(b"none"),
    }
}

/// `at RATINGS INSTANT`: the discharges of a foot and of two feet by the table that is in force.
fn pair_at(ratings: &Ratings, at: &str) -> Result<Option<(Micro, Micro)>, Stop> {
    match ratings.table_at(instant(at)?) {
        Some(table) => Ok(pair_of(table)),
        None => Ok(None),
    }
}

/// `overlap RATINGS PERIOD`: where the first period begins that another one would overlap.
fn overlap(ratings: &Ratings, rest: &str, came: &mut Text) -> Result<(), Stop> {
    Ok(push_instant(ratings.overlap(&period(rest)?), came)?)
}

/// `drop RATINGS FROM,FROM.. INSTANT,INSTANT..`: what comes of each period that is dropped, and what is then in force at each instant.
fn drop_and_tell(ratings: &mut Ratings, rest: &str, came: &mut Text) -> Result<(), Stop> {
    let (starts, instants) = parted(rest);
    for from in starts.split(',') {
        let end = ratings.drop_period(instant(from)?);
        push_taken(end, came)?;
    }
    for at in instants.split(',') {
        push_pair_if(pair_at(ratings, at)?, came)?;
        came.push_slice(b";")?;
    }
    Ok(())
}
