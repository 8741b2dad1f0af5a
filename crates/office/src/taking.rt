//! An edit whose steps nobody counts.

ghost use Rattle.std.specs.Prelude.{◌≡◌, ◌≤◌, ◌<◌, Bool, false, is_some, IsSome, Err};
ghost use Rattle.devices.specs.Faults.{Rose};
ghost use Rattle.journal.specs.Moments.{LeavesOnly};
ghost use Rattle.journal.specs.Writing.{Lists};
ghost use Rattle.office.specs.Counting.{CountsEdit};
ghost use Rattle.office.specs.Edits.{Edits, EditCalls, EditsClaims, asks_disk};
ghost use Rattle.office.specs.Steps.{AnEdit, IsStep};
ghost use Rattle.office.specs.Stops.{IsLeftBetween};

use crate::offices::{Accepted, Office};
use chronicle::Steps;
use devices::Disk;
use edits::Edit;
use office_inputs::Refusal;
use std::marker::Brand;
use std::sync::ledger::{Blank, Ledger};

impl<D: Disk> Office<D> {
    /// Keeps an edit in the journal and accepts it, as [`Office::edit`] does, with a counter that nobody reads.
    ///
    /// # Errors
    ///
    /// Those of [`Office::edit`].
    pub fn take(&mut self, edit: Edit) -> Result<Accepted, Refusal>
        ensures edited { Edits self.old.register.history edit self.new.register.history result }
        ensures claims { EditsClaims self.old.register edit self.new.register result }
        ensures step { IsStep self.old.register (AnEdit edit result) self.new.register }
        ensures disk { asks_disk result ≡ false → self.new.disk ≡ self.old.disk }
        ensures any_moment { IsSome (D.content self.old.disk) → LeavesOnly D.Disk self.old.disk self.new.disk (IsLeftBetween self.old.register.history self.new.register.history) }
        ensures calls { Lists (D.content self.old.disk) (D.calls self.old.disk) (D.calls self.new.disk) (D.faults self.new.disk) (EditCalls self.old.register.history edit self.new.register.history result) }
        ensures counted { D.faults self.old.disk ≤ D.faults self.new.disk }
        ensures counts { CountsEdit (D.faults self.old.disk) result (D.faults self.new.disk) }
        ensures cause { (in_doubt : Bool) → result ≡ Err (Refusal.JournalFault in_doubt) → Rose (D.faults self.old.disk) (D.faults self.new.disk) }
        ensures told { is_some (D.content self.new.disk) ≡ is_some (D.content self.old.disk) }
    {
        take_counted::<D, Brand>(self, edit, Blank::new(1))
    }
}

/// The same, over the ledger of a counter.
fn take_counted<D: Disk, L: Ledger>(
    office: &mut Office<D>,
    edit: Edit,
    blank: Blank,
) -> Result<Accepted, Refusal>
    requires name { blank.name ≡ L.name }
    requires parts { blank.parts ≡ L.parts }
    requires some { 0 < blank.parts }
    ensures edited { Edits office.old.register.history edit office.new.register.history result }
    ensures claims { EditsClaims office.old.register edit office.new.register result }
    ensures step { IsStep office.old.register (AnEdit edit result) office.new.register }
    ensures disk { asks_disk result ≡ false → office.new.disk ≡ office.old.disk }
    ensures any_moment { IsSome (D.content office.old.disk) → LeavesOnly D.Disk office.old.disk office.new.disk (IsLeftBetween office.old.register.history office.new.register.history) }
    ensures calls { Lists (D.content office.old.disk) (D.calls office.old.disk) (D.calls office.new.disk) (D.faults office.new.disk) (EditCalls office.old.register.history edit office.new.register.history result) }
    ensures counted { D.faults office.old.disk ≤ D.faults office.new.disk }
    ensures counts { CountsEdit (D.faults office.old.disk) result (D.faults office.new.disk) }
    ensures cause { (in_doubt : Bool) → result ≡ Err (Refusal.JournalFault in_doubt) → Rose (D.faults office.old.disk) (D.faults office.new.disk) }
    ensures told { is_some (D.content office.new.disk) ≡ is_some (D.content office.old.disk) }
{
    let mut steps = Steps::<L>::new(blank);
    office.edit(edit, &mut steps)
}
