//! The line of an edit.

ghost use Rattle.std.specs.Prelude.{◌≡◌, ◌++◌, OnOk};
ghost use Rattle.ledger.specs.Lines.{kind_fields, line_text, sender_fields};

use crate::figures::Style;
use crate::kinds::write_figures;
use edits::Edit;
use fixed_units::{NoMemory, Text};
use site_texts::write_site;

/// Adds the line of an edit of that number.
pub(crate) fn write_line(number: u64, edit: &Edit, out: &mut Text) -> Result<(), NoMemory>
    ensures { OnOk result (out.new ≡ out.old ++ line_text number edit.now) }
{
    write_kind(number, edit, out)?;
    write_sender(edit, out)?;
    write_figures(Style::OfALine, &edit.what, out)?;
    out.push(b'\n')
}

/// Adds the number, the kind and the person.
fn write_kind(number: u64, edit: &Edit, out: &mut Text) -> Result<(), NoMemory>
    ensures { OnOk result (out.new ≡ out.old ++ kind_fields number edit.now) }
{
    out.push_number(number)?;
    out.push_slice(b"\t")?;
    out.push_slice(edit.what.kind().name())?;
    out.push_slice(b"\t")?;
    out.push_slice(edit.by.as_slice())
}

/// Adds the reference, the site and the comment.
fn write_sender(edit: &Edit, out: &mut Text) -> Result<(), NoMemory>
    ensures { OnOk result (out.new ≡ out.old ++ sender_fields edit.now) }
{
    out.push_slice(b"\t")?;
    out.push_slice(edit.reference.as_slice())?;
    out.push_slice(b"\t")?;
    write_site(edit.site, out)?;
    out.push_slice(b"\t")?;
    out.push_slice(edit.comment.as_slice())
}
