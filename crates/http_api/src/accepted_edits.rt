//! What is replied of an accepted edit.

ghost use Rattle.std.specs.Prelude.{◌≡◌, ◌++◌, take, length, OnOk, OnErr};
ghost use Rattle.http_api.specs.AcceptedEdits.{accepted_edit_text, kind_members, reason_members, site_member};

use crate::json_texts::write_quoted;
use edits::Edit;
use fixed_units::{NoMemory, Site, Text};
use site_texts::write_site;

/// Adds the body for an accepted edit, of which a part may be added where memory runs out.
pub(crate) fn write_accepted_edit(edit: &Edit, out: &mut Text) -> Result<(), NoMemory>
    ensures ok { OnOk result (out.new ≡ out.old ++ accepted_edit_text edit.now) }
    ensures err { OnErr result (take (length out.old) out.new ≡ out.old) }
{
    write_reason(edit, out)?;
    write_kind(edit, out)?;
    write_site_member(edit.site, out)
}

/// Adds by whom and why it was made, of which a part may be added where memory runs out.
fn write_reason(edit: &Edit, out: &mut Text) -> Result<(), NoMemory>
    ensures ok { OnOk result (out.new ≡ out.old ++ reason_members edit.now) }
    ensures err { OnErr result (take (length out.old) out.new ≡ out.old) }
{
    out.push_slice(b"{\"by\":\"")?;
    out.push_slice(edit.by.as_slice())?;
    out.push_slice(b"\",\"comment\":")?;
    write_quoted(edit.comment.as_slice(), out)
}

/// Adds its kind and its reference, of which a part may be added where memory runs out.
fn write_kind(edit: &Edit, out: &mut Text) -> Result<(), NoMemory>
    ensures ok { OnOk result (out.new ≡ out.old ++ kind_members edit.now) }
    ensures err { OnErr result (take (length out.old) out.new ≡ out.old) }
{
    out.push_slice(b",\"kind\":\"")?;
    out.push_slice(edit.what.kind().name())?;
    out.push_slice(b"\",\"ref\":\"")?;
    out.push_slice(edit.reference.as_slice())
}

/// Adds its site and the end of the body, of which a part may be added where memory runs out.
fn write_site_member(site: Site, out: &mut Text) -> Result<(), NoMemory>
    ensures ok { OnOk result (out.new ≡ out.old ++ site_member site) }
    ensures err { OnErr result (take (length out.old) out.new ≡ out.old) }
{
    out.push_slice(b"\",\"site\":\"")?;
    write_site(site, out)?;
    out.push_slice(b"\"}")
}
