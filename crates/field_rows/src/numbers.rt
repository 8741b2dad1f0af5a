//! Calls of `fixed_units`: texts of decimals, roundings and published values.

use crate::notation::{Stop, count, push_whole, told, whole};
use crate::ranges;
use fixed_units::{
    Bad, Micro, NoMemory, Published, RoundingArray, Text, div_half_away, publish, read_decimal,
    write_hundredths, write_micro, write_published,
};
use row_lines::parted;

/// Writes what comes of a call.
pub fn answer(word: &str, rest: &str, came: &mut Text) -> Result<(), NoMemory> {
    match word {
        "decimal" => decimal(rest, came),
        "array" => array(rest, came),
        "published" => published(rest, came),
        "half" => half(rest, came),
        "written" => told(written(rest, came), came),
        "micro" => told(micro(rest, came), came),
        "hundredths" => told(hundredths(rest, came), came),
        _ => ranges::answer(word, rest, came),
    }
}

/// `decimal TEXT`: the quantity with six decimals, or what is bad.
fn decimal(text: &str, came: &mut Text) -> Result<(), NoMemory> {
    match read_decimal(text.as_bytes()) {
        Ok(value) => write_micro(value, came),
        Err(bad) => came.push_slice(named(bad)),
    }
}

fn named(bad: Bad) -> &'static [u8] {
    match bad {
        Bad::NotANumber => b"not a number",
        Bad::TooManyDecimals => b"too many decimals",
        Bad::OutOfRange => b"out of range",
    }
}

/// `array TEXT`: the digits of the rounding array, and whether it is the usual one of stages; or that it is none.
fn array(text: &str, came: &mut Text) -> Result<(), NoMemory> {
    match RoundingArray::read(text.as_bytes()) {
        Some(array) => push_array(&array, came),
        None => came.push_slice(b"no"),
    }
}

fn push_array(array: &RoundingArray, came: &mut Text) -> Result<(), NoMemory> {
    came.push_slice(array.digits().as_slice())?;
    if *array == RoundingArray::STAGES {
        return came.push_slice(b" of stages");
    }
    Ok(())
}

const MOST: i128 = 100_000_000_000_000_000;

/// `published ARRAY NUM DEN`: the text of NUM / DEN millionths by a rounding array.
fn published(rest: &str, came: &mut Text) -> Result<(), NoMemory> {
    let (array, fraction) = parted(rest);
    match (
        RoundingArray::read(array.as_bytes()),
        read_fraction(fraction),
    ) {
        (Some(array), Some((num, den))) => published_by(num, den, &array, came),
        _ => came.push_slice(b"not well formed"),
    }
}

/// A numerator and a denominator.
fn read_fraction(text: &str) -> Option<(i128, i128)> {
    let (num, den) = parted(text);
    Some((num.parse().ok()?, den.parse().ok()?))
}

fn published_by(
    num: i128,
    den: i128,
    array: &RoundingArray,
    came: &mut Text,
) -> Result<(), NoMemory> {
    if den < 1 || den > 1_000_000_000 || num < -(den * MOST) || num > den * MOST {
        return came.push_slice(b"out of range");
    }
    write_published(publish(num, den, array), came)
}

const GREATEST: i128 = 10_000_000_000_000_000_000_000_000_000_000_000_000;

/// `half NUM DEN`: the nearest whole number, half away from zero.
fn half(rest: &str, came: &mut Text) -> Result<(), NoMemory> {
    match read_fraction(rest) {
        Some((num, den)) => half_of(num, den, came),
        None => came.push_slice(b"not well formed"),
    }
}

fn half_of(num: i128, den: i128, came: &mut Text) -> Result<(), NoMemory> {
    if den < 1 || num < -GREATEST || num > GREATEST {
        return came.push_slice(b"out of range");
    }
    push_whole(div_half_away(num, den), came)
}

/// `written UNITS PLACES`: the text of a published value.
fn written(rest: &str, came: &mut Text) -> Result<(), Stop> {
    let (units, places) = parted(rest);
    let units = whole(units)?;
    match u8::try_from(count(places)?) {
        Ok(places) => Ok(write_published(Published { units, places }, came)?),
        Err(_) => Err(Stop::NotWellFormed),
    }
}

/// `micro MILLIONTHS`: the text of a quantity.
fn micro(text: &str, came: &mut Text) -> Result<(), Stop> {
    match Micro::new(whole(text)?) {
        Some(value) => Ok(write_micro(value, came)?),
        None => Err(Stop::NotWellFormed),
    }
}

/// `hundredths HUNDREDTHS`: their text.
fn hundredths(text: &str, came: &mut Text) -> Result<(), Stop> {
    Ok(write_hundredths(whole(text)?, came)?)
}
