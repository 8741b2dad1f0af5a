//! Calls of `fixed_units`: which numbers are quantities, instants and days, and lines between two points.

use crate::notation::{Stop, push_whether, push_whole, push_whole_if, three, told, whole};
use crate::sites;
use fixed_units::{
    Day, Micro, NoMemory, Second, Text, is_amount, is_discharge, is_stage, is_stamp, line_at,
};

/// Writes what comes of a call.
pub fn answer(word: &str, rest: &str, came: &mut Text) -> Result<(), NoMemory> {
    match word {
        "quantity" => told(quantity(rest, came), came),
        "second" => told(second(rest, came), came),
        "day" => told(day(rest, came), came),
        "line" => told(line(rest, came), came),
        "stamp" | "stage" | "discharge" | "amount" => told(within(word, rest, came), came),
        _ => sites::answer(word, rest, came),
    }
}

/// `quantity MILLIONTHS`: the number, or that it is out of range.
fn quantity(text: &str, came: &mut Text) -> Result<(), Stop> {
    let value = Micro::new(whole(text)?).map(Micro::get);
    Ok(push_whole_if(value, came)?)
}

/// `second SECONDS`: the number, or that it is out of range.
fn second(text: &str, came: &mut Text) -> Result<(), Stop> {
    let value = Second::new(whole(text)?).map(Second::get);
    Ok(push_whole_if(value, came)?)
}

/// `day DAYS`: the number, or that it is out of range.
fn day(text: &str, came: &mut Text) -> Result<(), Stop> {
    match i32::try_from(whole(text)?) {
        Ok(number) => Ok(push_whole_if(day_numbered(number), came)?),
        Err(_) => Err(Stop::NotWellFormed),
    }
}

fn day_numbered(number: i32) -> Option<i64> {
    let day = Day::new(number)?;
    Some(i64::from(day.get()))
}

/// `stamp SECONDS`, `stage MILLIONTHS`, `discharge MILLIONTHS`, `amount MILLIONTHS`: whether it is one.
fn within(word: &str, text: &str, came: &mut Text) -> Result<(), Stop> {
    let value = whole(text)?;
    Ok(push_whether(is_within(word, value), came)?)
}

fn is_within(word: &str, value: i64) -> bool {
    match word {
        "stamp" => is_stamp(value),
        "stage" => is_stage(value),
        "discharge" => is_discharge(value),
        _ => is_amount(value),
    }
}

/// `line X:Y X:Y X`: the height of the line between two points, in whole millionths.
fn line(rest: &str, came: &mut Text) -> Result<(), Stop> {
    let (from, to, x) = three(rest);
    height(point(from)?, point(to)?, whole(x)?, came)
}

fn point(text: &str) -> Result<(i64, Micro), Stop> {
    let Some((x, y)) = text.split_once(':') else {
        return Err(Stop::NotWellFormed);
    };
    match Micro::new(whole(y)?) {
        Some(y) => Ok((whole(x)?, y)),
        None => Err(Stop::NotWellFormed),
    }
}

fn height(from: (i64, Micro), to: (i64, Micro), x: i64, came: &mut Text) -> Result<(), Stop> {
    if from.0 >= to.0 || x < from.0 || x > to.0 {
        return Err(Stop::NotWellFormed);
    }
    let height = line_at(from, to, x).get();
    Ok(push_whole(i128::from(height), came)?)
}
