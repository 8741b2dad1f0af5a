//! Calls of `ratings` on periods alone, and how rows write periods.

use crate::notation::{Stop, count, instant, push_whole_if, there, told};
use crate::series::push_taken;
use fixed_units::{NoMemory, Second, Text};
use ratings::{Period, Periods};
use row_lines::parted;
use std::alloc::Global;

/// Writes what comes of a call: `WORD PERIODS ARGUMENTS`.
pub fn answer(alloc: Global, word: &str, rest: &str, came: &mut Text) -> Result<(), NoMemory> {
    let mut periods = Periods::new(alloc);
    let end = answer_of(&mut periods, word, rest, came);
    told(end, came)
}

fn answer_of(periods: &mut Periods, word: &str, rest: &str, came: &mut Text) -> Result<(), Stop> {
    let (list, rest) = parted(rest);
    put_all(list, periods)?;
    match word {
        "overlap" => overlap(periods, rest, came),
        "at" => at(periods, rest, came),
        "taken" => taken(periods, rest, came),
        _ => Ok(came.push_slice(b"no such call")?),
    }
}

/// A period: `FROM/UNTIL/RATING`, in which an UNTIL of `-` is no end.
pub fn period(text: &str) -> Result<Period, Stop> {
    let (from, rest) = there(text.split_once('/'))?;
    let (until, rating) = there(rest.split_once('/'))?;
    there(Period::new(instant(from)?, end(until)?, count(rating)?))
}

fn end(text: &str) -> Result<Option<Second>, Stop> {
    if text == "-" {
        return Ok(None);
    }
    Ok(Some(instant(text)?))
}

/// Puts the periods of a text, with commas between them.
fn put_all(text: &str, periods: &mut Periods) -> Result<(), Stop> {
    for piece in text.split(',') {
        put(period(piece)?, periods)?;
    }
    Ok(())
}

fn put(period: Period, periods: &mut Periods) -> Result<(), Stop> {
    periods.reserve(1)?;
    if periods.overlap(&period).is_some() {
        return Err(Stop::NotWellFormed);
    }
    periods.put(period);
    Ok(())
}

/// `overlap PERIODS PERIOD`: where the first period begins that another one would overlap.
fn overlap(periods: &Periods, rest: &str, came: &mut Text) -> Result<(), Stop> {
    let at = periods.overlap(&period(rest)?).map(Second::get);
    Ok(push_whole_if(at, came)?)
}

/// `at PERIODS INSTANT`: the number of the rating that is in force.
fn at(periods: &Periods, rest: &str, came: &mut Text) -> Result<(), Stop> {
    let rating = in_force(periods, instant(rest)?);
    Ok(push_whole_if(rating, came)?)
}

fn in_force(periods: &Periods, at: Second) -> Option<i64> {
    let period = periods.at(at)?;
    Some(i64::from(period.rating))
}

/// `taken PERIODS FROM,FROM.. INSTANT`: what comes of each period that is taken out, and the number of the rating that is then in force.
fn taken(periods: &mut Periods, rest: &str, came: &mut Text) -> Result<(), Stop> {
    let (starts, rest) = parted(rest);
    for from in starts.split(',') {
        let end = periods.take_out(instant(from)?);
        push_taken(end, came)?;
    }
    at(periods, rest, came)
}
