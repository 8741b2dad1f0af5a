//! An office is asked an edit, and a line on a sink tells what became of it.

ghost use Rattle.std.specs.Prelude.{◌≡◌, ◌≤◌, List, ℕ, length, false};
ghost use Rattle.shared_office.specs.Passages.{Passes};
ghost use Rattle.devices.specs.Faults.{Rose};
ghost use Rattle.devices.specs.Sinks.{AreWritten};
ghost use Rattle.told_edits.specs.Lines.{IsSent};
ghost use Rattle.told_edits.specs.declared.lines.TheConstants.{MOST_END_BYTES};

use crate::lines::told_line;
use devices::{Disk, Sink, put_all};
use edits::Edit;
use office::Office;

/// Asks the office an edit, and writes its line, with this end, in one piece; whether the sink took it. The line tells `edit` and the
/// number under which the edit is in force, now or since it was sent before, or `refused` and the refusal's code, also for want of
/// memory and for a fault of the journal.
pub fn tell_edit<D: Disk, K: Sink>(
    office: &mut Office<D>,
    edit: Edit,
    end: &[u8],
    sink: &mut K,
) -> bool
    requires { length end.now ≤ MOST_END_BYTES }
    ensures told { (line : List ℕ) × IsSent end.now office.old.register.history edit line office.new.register.history × AreWritten (K.written sink.old) line (K.written sink.new) result }
    ensures passed { Passes D.Disk office.old.register.history office.new.register.history office.old.disk office.new.disk }
    ensures disk_counted { D.faults office.old.disk ≤ D.faults office.new.disk }
    ensures output_counted { K.faults sink.old ≤ K.faults sink.new }
    ensures cause { result ≡ false → Rose (K.faults sink.old) (K.faults sink.new) }
{
    let told = office.take(edit);
    put_all(sink, told_line(told, end).as_slice())
}
