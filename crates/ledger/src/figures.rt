//! Figures, each by the name that a body has for it.

ghost use Rattle.std.specs.Prelude.{◌≡◌, ◌++◌, flat_map, map, OnOk};
ghost use Rattle.ledger.specs.Figures.{figure, figure_text, stated};
ghost use Rattle.ledger.specs.declared.figures.Style.TheVariants.{OfABody, OfALine};

use crate::values::write_value;
use edit_bodies::Member;
use fixed_units::{Day, Micro, NoMemory, Reading, RoundingArray, Second, Text};

/// Where figures stand.
#[derive(Clone, Copy, Debug, PartialEq, Eq)]
pub(crate) enum Style {
    /// As members of a body.
    OfABody,
    /// As fields of a line.
    OfALine,
}

/// What a figure states.
#[derive(Clone, Copy, Drop)]
pub(crate) enum Value<'a> {
    /// A text that has no character that JSON escapes.
    Word(&'a [u8]),
    /// Any other text.
    Text(&'a [u8]),
    /// A rounding array.
    Array(RoundingArray),
    /// An instant.
    Instant(Second),
    /// A day.
    Day(Day),
    /// A quantity in millionths.
    Quantity(Micro),
    /// A whole number.
    Whole(u32),
    /// Yes or no.
    Mark(bool),
    /// Nothing.
    Nothing,
    /// Readings.
    Readings(&'a [Reading]),
    /// The points of a curve, or the rows of a rating.
    Pairs(&'a [(Micro, Micro)]),
}

/// Adds figures behind others.
pub(crate) fn write_each(
    style: Style,
    figures: &[(Member, Value<'_>)],
    out: &mut Text,
) -> Result<(), NoMemory>
    ensures { OnOk result (out.new ≡ out.old ++ flat_map (figure_text style) (map figure figures.now)) }
{
    for one in figures {
        write_figure(style, one, out)?;
    }
    Ok(())
}

/// Adds a figure behind others.
fn write_figure(style: Style, one: &(Member, Value<'_>), out: &mut Text) -> Result<(), NoMemory>
    ensures { OnOk result (out.new ≡ out.old ++ figure_text style (figure one.now)) }
{
    match style {
        Style::OfABody => write_member(one.0, &one.1, out),
        Style::OfALine => write_field(one.0, &one.1, out),
    }
}

/// Adds a member of a body behind others.
fn write_member(name: Member, value: &Value<'_>, out: &mut Text) -> Result<(), NoMemory>
    ensures { OnOk result (out.new ≡ out.old ++ figure_text OfABody (name, stated value.now)) }
{
    out.push_slice(b",\"")?;
    out.push_slice(name.text().as_bytes())?;
    out.push_slice(b"\":")?;
    write_value(value, out)
}

/// Adds a field of a line behind others.
fn write_field(name: Member, value: &Value<'_>, out: &mut Text) -> Result<(), NoMemory>
    ensures { OnOk result (out.new ≡ out.old ++ figure_text OfALine (name, stated value.now)) }
{
    out.push_slice(b"\t")?;
    out.push_slice(name.text().as_bytes())?;
    out.push_slice(b"=")?;
    write_value(value, out)
}
