//! What a figure states, as JSON spells it.

ghost use Rattle.std.specs.Prelude.{◌≡◌, ◌++◌, ◌∷◌, codes, flat_map, map, OnOk};
ghost use Rattle.civil_days.specs.Texts.{day_text, instant_text};
ghost use Rattle.fixed_units.specs.PublishedText.{micro_text};
ghost use Rattle.ledger.specs.Figures.{joined, mark_text, pair_row, reading_row, row_end, row_text, stated, stated_text, word_text};

use crate::figures::Value;
use crate::quotes::write_quoted;
use civil_days::{write_day, write_instant};
use fixed_units::{Day, Flag, Micro, NoMemory, Reading, Second, Text, write_micro};

/// Adds what a figure states.
pub(crate) fn write_value(value: &Value<'_>, out: &mut Text) -> Result<(), NoMemory>
    ensures { OnOk result (out.new ≡ out.old ++ stated_text (stated value.now)) }
{
    match value {
        Value::Word(letters) => write_word(letters, out),
        Value::Text(letters) => write_quoted(letters, out),
        Value::Array(array) => write_word(&array.digits(), out),
        Value::Instant(at) => write_instant_word(*at, out),
        Value::Day(day) => write_day_word(*day, out),
        Value::Quantity(quantity) => write_quantity(*quantity, out),
        Value::Whole(number) => out.push_number(u64::from(*number)),
        Value::Mark(yes) => write_mark(*yes, out),
        Value::Nothing => out.push_slice(b"null"),
        Value::Readings(readings) => write_readings(readings, out),
        Value::Pairs(pairs) => write_pairs(pairs, out),
    }
}

/// Adds a word in quotes.
fn write_word(letters: &[u8], out: &mut Text) -> Result<(), NoMemory>
    ensures { OnOk result (out.new ≡ out.old ++ word_text letters.now) }
{
    out.push(b'"')?;
    out.push_slice(letters)?;
    out.push(b'"')
}

/// Adds an instant in quotes.
fn write_instant_word(at: Second, out: &mut Text) -> Result<(), NoMemory>
    ensures { OnOk result (out.new ≡ out.old ++ word_text (instant_text at)) }
{
    out.push(b'"')?;
    write_instant(at, out)?;
    out.push(b'"')
}

/// Adds a day in quotes.
fn write_day_word(day: Day, out: &mut Text) -> Result<(), NoMemory>
    ensures { OnOk result (out.new ≡ out.old ++ word_text (day_text day)) }
{
    out.push(b'"')?;
    write_day(day, out)?;
    out.push(b'"')
}

/// Adds a quantity in quotes.
fn write_quantity(quantity: Micro, out: &mut Text) -> Result<(), NoMemory>
    ensures { OnOk result (out.new ≡ out.old ++ word_text (micro_text quantity)) }
{
    out.push(b'"')?;
    write_micro(quantity, out)?;
    out.push(b'"')
}

/// Adds yes or no.
fn write_mark(yes: bool, out: &mut Text) -> Result<(), NoMemory>
    ensures { OnOk result (out.new ≡ out.old ++ mark_text yes) }
{
    out.push_slice(if yes { b"true" } else { b"false" })
}

/// Adds readings as an array of rows.
fn write_readings(readings: &[Reading], out: &mut Text) -> Result<(), NoMemory>
    ensures { OnOk result (out.new ≡ out.old ++ (codes "[" ++ joined (map row_text (map reading_row readings.now)) ++ codes "]")) }
{
    out.push(b'[')?;
    write_reading_rows(readings, out)?;
    out.push(b']')
}

/// Adds the rows of readings, with commas between.
fn write_reading_rows(readings: &[Reading], out: &mut Text) -> Result<(), NoMemory>
    ensures { OnOk result (out.new ≡ out.old ++ joined (map row_text (map reading_row readings.now))) }
{
    let [first, others @ ..] = readings else {
        return Ok(());
    };
    write_reading(first, out)?;
    write_further_readings(others, out)
}

/// Adds the rows of readings that stand behind others.
fn write_further_readings(readings: &[Reading], out: &mut Text) -> Result<(), NoMemory>
    ensures { OnOk result (out.new ≡ out.old ++ flat_map (λ reading. 44 ∷ row_text (reading_row reading)) readings.now) }
{
    for reading in readings {
        write_further_reading(reading, out)?;
    }
    Ok(())
}

/// Adds the row of a reading that stands behind others.
fn write_further_reading(reading: &Reading, out: &mut Text) -> Result<(), NoMemory>
    ensures { OnOk result (out.new ≡ out.old ++ 44 ∷ row_text (reading_row reading.now)) }
{
    out.push(b',')?;
    write_reading(reading, out)
}

/// Adds the row of a reading: its instant, its stage, and its flag unless it is usable.
fn write_reading(reading: &Reading, out: &mut Text) -> Result<(), NoMemory>
    ensures { OnOk result (out.new ≡ out.old ++ row_text (reading_row reading.now)) }
{
    out.push(b'[')?;
    write_instant_word(reading.at, out)?;
    out.push(b',')?;
    write_quantity(reading.raw, out)?;
    write_row_end(reading.flag, out)
}

/// Adds the flag of a reading, unless it is usable, and the end of its row.
fn write_row_end(flag: Flag, out: &mut Text) -> Result<(), NoMemory>
    ensures { OnOk result (out.new ≡ out.old ++ row_end flag) }
{
    match flag {
        Flag::Usable => out.push_slice(b"]"),
        Flag::Erroneous => out.push_slice(b",\"erroneous\"]"),
        Flag::Affected => out.push_slice(b",\"affected\"]"),
    }
}

/// Adds pairs of quantities as an array of rows.
fn write_pairs(pairs: &[(Micro, Micro)], out: &mut Text) -> Result<(), NoMemory>
    ensures { OnOk result (out.new ≡ out.old ++ (codes "[" ++ joined (map row_text (map pair_row pairs.now)) ++ codes "]")) }
{
    out.push(b'[')?;
    write_pair_rows(pairs, out)?;
    out.push(b']')
}

/// Adds the rows of pairs, with commas between.
fn write_pair_rows(pairs: &[(Micro, Micro)], out: &mut Text) -> Result<(), NoMemory>
    ensures { OnOk result (out.new ≡ out.old ++ joined (map row_text (map pair_row pairs.now))) }
{
    let [first, others @ ..] = pairs else {
        return Ok(());
    };
    write_pair(first, out)?;
    write_further_pairs(others, out)
}

/// Adds the rows of pairs that stand behind others.
fn write_further_pairs(pairs: &[(Micro, Micro)], out: &mut Text) -> Result<(), NoMemory>
    ensures { OnOk result (out.new ≡ out.old ++ flat_map (λ pair. 44 ∷ row_text (pair_row pair)) pairs.now) }
{
    for pair in pairs {
        write_further_pair(pair, out)?;
    }
    Ok(())
}

/// Adds the row of a pair that stands behind others.
fn write_further_pair(pair: &(Micro, Micro), out: &mut Text) -> Result<(), NoMemory>
    ensures { OnOk result (out.new ≡ out.old ++ 44 ∷ row_text (pair_row pair.now)) }
{
    out.push(b',')?;
    write_pair(pair, out)
}

/// Adds the row of a pair.
fn write_pair(pair: &(Micro, Micro), out: &mut Text) -> Result<(), NoMemory>
    ensures { OnOk result (out.new ≡ out.old ++ row_text (pair_row pair.now)) }
{
    out.push(b'[')?;
    write_quantity(pair.0, out)?;
    out.push(b',')?;
    write_quantity(pair.1, out)?;
    out.push(b']')
}
