//! Published values: rounding by a rounding array, and their texts.

ghost use Rattle.std.specs.Prelude.{◌≡◌, ℕ, List, Ok, ◌-◌, ◌*◌, ◌^◌, ◌<◌, ◌≤◌, ◌++◌, ℤ, pos, neg_ℤ, ◌*ℤ◌, ◌≤ℤ◌, ◌<ℤ◌, unsigned_abs, length, take, replicate, OnOk, OnErr};
ghost use Rattle.fixed_units.specs.Decimals.{decimal_of};
ghost use Rattle.fixed_units.specs.Quantities.{most_millionths, most_stated};
ghost use Rattle.fixed_units.specs.Published.{IsPublished, whole_digits, round_off, left_out, shown, published, published_digits};
ghost use Rattle.fixed_units.specs.declared.published.Published.{Published};
ghost use Rattle.fixed_units.specs.PublishedText.{with_zeros, decimals_text, pointed_text, sign_text, published_text, micro_text, hundredths_text};

use crate::quantities::Micro;
use crate::rounding::div_half_away;
use crate::rounding_array::RoundingArray;
use crate::texts::{NoMemory, Text};

/// A published value: `units / 10^places`.
#[derive(Clone, Copy, Debug, PartialEq, Eq)]
pub struct Published {
    /// How many units.
    pub units: i64,
    /// How many decimals.
    pub places: u8,
}

/// The published value of `num / den` millionths, at most 10^17 either way: the nearest one with the
/// places that the array gives the magnitude, half away from zero. `den` is from 1 to 10^9. The rule is
/// that of ADAPS, with a figure 0 and a greatest number of decimals added.
pub fn publish(num: i128, den: i128, array: &RoundingArray) -> Published
    requires positive { pos 0 <ℤ den }
    requires narrow { den ≤ℤ pos (10 ^ 9) }
    requires low { neg_ℤ (den *ℤ pos most_millionths) ≤ℤ num }
    requires high { num ≤ℤ (den *ℤ pos most_millionths) }
    ensures nearest { IsPublished array.now num den result }
    ensures value { result ≡ published array.now num den }
{
    publish_digits(num, den, array, whole_digits(num, den))
}

/// Each fraction in range has exactly one published value by an array, and it is what `published` computes.
pub fn published_values()
    ensures value { (array : List ℕ) (num den : ℤ) → pos 0 <ℤ den → neg_ℤ (den *ℤ pos most_millionths) ≤ℤ num → num ≤ℤ (den *ℤ pos most_millionths)
        → IsPublished array num den (published array num den) }
    ensures unique { (array : List ℕ) (num den : ℤ) (v w : Published) → pos 0 <ℤ den → IsPublished array num den v → IsPublished array num den w → v ≡ w }
{}

/// The published value of a magnitude of so many digits of whole millionths.
fn publish_digits(num: i128, den: i128, array: &RoundingArray, digits: u32) -> Published
    requires positive { pos 0 <ℤ den }
    requires narrow { den ≤ℤ pos (10 ^ 9) }
    requires low { neg_ℤ (den *ℤ pos most_millionths) ≤ℤ num }
    requires high { num ≤ℤ (den *ℤ pos most_millionths) }
    requires digits { digits ≤ 18 }
    ensures { result ≡ published_digits array.now digits num den }
{
    if array.figures(digits) == 0 {
        return Published {
            units: 0,
            places: array.most_decimals() as u8,
        };
    }
    let rounded = round_off(array.rounded_off(digits), num, den);
    shown(left_out(array, digits, rounded.unsigned_abs()), rounded)
}

/// How many digits the whole millionths of a magnitude have.
fn whole_digits(num: i128, den: i128) -> u32
    requires positive { pos 0 <ℤ den }
    requires low { neg_ℤ (den *ℤ pos most_millionths) ≤ℤ num }
    requires high { num ≤ℤ (den *ℤ pos most_millionths) }
    ensures value { result ≡ whole_digits num den }
    ensures bound { result ≤ 18 }
{
    let whole = num.unsigned_abs() / den.unsigned_abs();
    whole.checked_ilog10().unwrap_or(0) + 1
}

/// The nearest number of millionths of which the last `off` digits are 0.
fn round_off(off: u32, num: i128, den: i128) -> i64
    requires off { off ≤ 17 }
    requires positive { pos 0 <ℤ den }
    requires narrow { den ≤ℤ pos (10 ^ 9) }
    requires low { neg_ℤ (den *ℤ pos most_millionths) ≤ℤ num }
    requires high { num ≤ℤ (den *ℤ pos most_millionths) }
    ensures value { result ≡ round_off off num den }
    ensures low { neg_ℤ (pos most_millionths) ≤ℤ result }
    ensures high { result ≤ℤ pos most_millionths }
{
    let power = 10_i128.pow(off);
    (div_half_away(num, den * power) * power) as i64
}

/// How many of the last digits are left out of what is printed of a magnitude that was rounded so.
fn left_out(array: &RoundingArray, digits: u32, rounded: u64) -> u32
    requires { digits ≤ 18 }
    ensures { result ≡ left_out array.now digits rounded }
{
    if rounded == 10_u64.pow(digits) && array.figures(digits + 1) != 0 {
        array.rounded_off(digits + 1)
    } else {
        array.rounded_off(digits)
    }
}

/// Millionths without the last `left` digits, of which at most six stand behind the point.
fn shown(left: u32, millionths: i64) -> Published
    ensures { result ≡ shown left millionths }
{
    let decimals = left.min(6);
    Published {
        units: millionths / 10_i64.pow(decimals),
        places: 6 - decimals as u8,
    }
}

/// Adds the text of a published value. After `NoMemory` the text is as before.
pub fn write_published(value: Published, out: &mut Text) -> Result<(), NoMemory>
    ensures ok { OnOk result (out.new ≡ out.old ++ published_text value) }
    ensures err { OnErr result (out.new ≡ out.old) }
{
    let before = out.len();
    let written = write_parts(value, out);
    if written.is_err() {
        out.truncate(before);
    }
    written
}

/// Adds a quantity with its six decimals. After `NoMemory` the text is as before.
pub fn write_micro(value: Micro, out: &mut Text) -> Result<(), NoMemory>
    ensures ok { OnOk result (out.new ≡ out.old ++ micro_text value) }
    ensures err { OnErr result (out.new ≡ out.old) }
{
    write_published(
        Published {
            units: value.get(),
            places: 6,
        },
        out,
    )
}

/// Adds a number of hundredths with two decimals. After `NoMemory` the text is as before.
pub fn write_hundredths(value: i64, out: &mut Text) -> Result<(), NoMemory>
    ensures ok { OnOk result (out.new ≡ out.old ++ hundredths_text value) }
    ensures err { OnErr result (out.new ≡ out.old) }
{
    write_published(
        Published {
            units: value,
            places: 2,
        },
        out,
    )
}

/// What is written of at most six decimals and a magnitude of at most 10,000,000 is read back as it was.
pub fn written_values_are_read()
    ensures values { (v : Published) → v.places ≤ 6 → unsigned_abs v.units * 10 ^ (6 - v.places) ≤ most_stated →
        decimal_of (published_text v) ≡ Ok (v.units *ℤ pos (10 ^ (6 - v.places))) }
    ensures quantities { (millionths : ℤ) → unsigned_abs millionths ≤ most_stated → decimal_of (micro_text millionths) ≡ Ok millionths }
{}

/// Two published values of at most 64 bits that have one text are one.
pub fn published_texts_differ()
    ensures { (v w : Published) → unsigned_abs v.units < 2 ^ 64 → unsigned_abs w.units < 2 ^ 64 →
        published_text v ≡ published_text w → v ≡ w }
{}

/// Adds the parts of a published value's text, of which some may be added where memory runs out.
fn write_parts(value: Published, out: &mut Text) -> Result<(), NoMemory>
    ensures ok { OnOk result (out.new ≡ out.old ++ published_text value) }
    ensures err { OnErr result (take (length out.old) out.new ≡ out.old) }
{
    let mut buffer = itoa::Buffer::new();
    let digits = buffer.format(value.units.unsigned_abs()).as_bytes();
    write_sign(value.units, out)?;
    write_figures(digits, usize::from(value.places), out)
}

/// Adds a minus where the units are below 0.
fn write_sign(units: i64, out: &mut Text) -> Result<(), NoMemory>
    ensures ok { OnOk result (out.new ≡ out.old ++ sign_text units) }
    ensures err { OnErr result (out.new ≡ out.old) }
{
    if units < 0 {
        out.push(b'-')?;
    }
    Ok(())
}

/// Adds digits with a point before the last `places` of them, and with zeros in front where they
/// are too few.
fn write_figures(digits: &[u8], places: usize, out: &mut Text) -> Result<(), NoMemory>
    requires { 0 < length digits.now }
    ensures ok { let figures = with_zeros places digits.now in
        OnOk result (out.new ≡ out.old ++ pointed_text places figures) }
    ensures err { OnErr result (take (length out.old) out.new ≡ out.old) }
{
    if digits.len() <= places {
        out.push_slice(b"0.")?;
        write_zeros(places - digits.len(), out)?;
        out.push_slice(digits)
    } else {
        let (whole, decimals) = digits.split_at(digits.len() - places);
        out.push_slice(whole)?;
        write_decimals(decimals, out)
    }
}

fn write_zeros(count: usize, out: &mut Text) -> Result<(), NoMemory>
    ensures ok { OnOk result (out.new ≡ out.old ++ replicate count 48) }
    ensures err { OnErr result (take (length out.old) out.new ≡ out.old) }
{
    'zeros: for _ in 0..count {
        out.push(b'0')?;
    }
    Ok(())
}

/// Adds a point and the decimals, where there are any.
fn write_decimals(decimals: &[u8], out: &mut Text) -> Result<(), NoMemory>
    ensures ok { OnOk result (out.new ≡ out.old ++ decimals_text (length decimals.now) decimals.now) }
    ensures err { OnErr result (take (length out.old) out.new ≡ out.old) }
{
    if decimals.is_empty() {
        return Ok(());
    }
    out.push(b'.')?;
    out.push_slice(decimals)
}
