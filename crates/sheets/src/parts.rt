//! What the lines of a sheet are made of: numbers, quantities and unit values, each behind its name.

ghost use Rattle.std.specs.Prelude.{◌≡◌, ◌+◌, ◌++◌, ◌≤◌, length, decimal, OnOk};
ghost use Rattle.fixed_units.specs.PublishedText.{micro_text, published_text};
ghost use Rattle.sheets.specs.Sheets.{amount_or_dash, published_or_dash, unit_or_dash, unit_text};

use civil_days::write_instant;
use daily_values::Unit;
use fixed_units::{Micro, NoMemory, Published, Text, write_micro, write_published};

/// Adds a number behind its name.
pub(crate) fn write_count(name: &[u8], count: u32, out: &mut Text) -> Result<(), NoMemory>
    ensures ok { OnOk result (out.new ≡ out.old ++ (name.now ++ decimal count)) }
    ensures size { OnOk result (length (decimal count) ≤ 10) }
{
    out.push_slice(name)?;
    out.push_number(u64::from(count))
}

/// Adds a published value, or a dash.
pub(crate) fn write_published_or_dash(
    value: Option<Published>,
    out: &mut Text,
) -> Result<(), NoMemory>
    ensures ok { OnOk result (out.new ≡ out.old ++ published_or_dash value) }
    ensures size { OnOk result (length (published_or_dash value) ≤ 258) }
{
    match value {
        Some(value) => write_units(value.units, value.places, out),
        None => out.push(b'-'),
    }
}

/// Adds a published value of so many units and decimals.
fn write_units(units: i64, places: u8, out: &mut Text) -> Result<(), NoMemory>
    ensures ok { OnOk result (out.new ≡ out.old ++ published_text (record { units = units; places = places })) }
    ensures size { OnOk result (length (published_text (record { units = units; places = places })) ≤ 258) }
{
    write_published(Published { units, places }, out)
}

/// Adds a unit value, or a dash.
pub(crate) fn write_unit_or_dash(unit: Option<Unit>, out: &mut Text) -> Result<(), NoMemory>
    ensures ok { OnOk result (out.new ≡ out.old ++ unit_or_dash unit) }
    ensures size { OnOk result (length (unit_or_dash unit) ≤ 156) }
{
    match unit {
        Some(unit) => write_unit(&unit, out),
        None => out.push(b'-'),
    }
}

/// Adds a unit value whole.
#[tactic(auto, unfolding(crate::specs::Sheets::unit_text))]
fn write_unit(unit: &Unit, out: &mut Text) -> Result<(), NoMemory>
    ensures ok { OnOk result (out.new ≡ out.old ++ unit_text unit.now) }
    ensures size { OnOk result (length (unit_text unit.now) ≤ 156) }
{
    write_instant(unit.at, out)?;
    write_amount(b" RAW ", unit.raw, out)?;
    write_amount(b" CORR ", unit.correction, out)?;
    write_amount(b" STAGE ", unit.stage, out)?;
    write_amount(b" SHIFT ", unit.shift, out)?;
    out.push_slice(b" DISCHARGE ")?;
    write_amount_or_dash(unit.discharge.ok(), out)
}

/// Adds a quantity with its six decimals behind its name.
fn write_amount(name: &[u8], amount: Micro, out: &mut Text) -> Result<(), NoMemory>
    ensures ok { OnOk result (out.new ≡ out.old ++ (name.now ++ micro_text amount)) }
    ensures size { OnOk result (length (micro_text amount) ≤ 20) }
{
    let _millionths = amount.get();
    out.push_slice(name)?;
    write_micro(amount, out)
}

/// Adds a quantity with its six decimals, or a dash.
fn write_amount_or_dash(amount: Option<Micro>, out: &mut Text) -> Result<(), NoMemory>
    ensures ok { OnOk result (out.new ≡ out.old ++ amount_or_dash amount) }
    ensures size { OnOk result (length (amount_or_dash amount) ≤ 20) }
{
    match amount {
        Some(amount) => write_amount(b"", amount, out),
        None => out.push(b'-'),
    }
}
