//! The text of a picture in parts.

ghost use Rattle.std.specs.Prelude.{◌≡◌, ◌++◌, length, take, OnOk, OnErr};
ghost use Rattle.drawings.specs.Parts.{part_text, parts_text};

use crate::escapes::write_escaped;
use fixed_units::{NoMemory, Published, Text, write_published};

/// A part of a text.
#[derive(Clone, Copy)]
pub enum Part<'a> {
    /// These bytes.
    Plain(&'a [u8]),
    /// A name, which is escaped.
    Name(&'a [u8]),
    /// A whole number.
    Whole(u32),
    /// A number with decimals.
    Amount(Published),
}

/// Adds parts, one behind another, of which some may be added where memory runs out.
pub fn write_parts(parts: &[Part<'_>], out: &mut Text) -> Result<(), NoMemory>
    ensures ok { OnOk result (out.new ≡ out.old ++ parts_text parts.now) }
    ensures err { OnErr result (take (length out.old) out.new ≡ out.old) }
{
    for part in parts {
        write_part(*part, out)?;
    }
    Ok(())
}

/// Adds a part, of which some may be added where memory runs out.
fn write_part(part: Part<'_>, out: &mut Text) -> Result<(), NoMemory>
    ensures ok { OnOk result (out.new ≡ out.old ++ part_text part.entry) }
    ensures err { OnErr result (take (length out.old) out.new ≡ out.old) }
{
    match part {
        Part::Plain(bytes) => out.push_slice(bytes),
        Part::Name(bytes) => write_escaped(bytes, out),
        Part::Whole(number) => out.push_number(u64::from(number)),
        Part::Amount(value) => write_published(value, out),
    }
}
