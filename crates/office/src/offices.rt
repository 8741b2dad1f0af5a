//! The office of one thread: what it keeps in memory, and the journal on a disk.

ghost use Rattle.std.specs.Prelude.{◌≡◌, ◌↔◌, ◌⊎◌, ◌<◌, ◌≤◌, ℕ, List, length, option_map, None, IsSome, IfOk, IfSome};
ghost use Rattle.approval.specs.Statuses.{approved_days};
ghost use Rattle.fixed_units.specs.Calendar.{days_of_calendar};
ghost use Rattle.history.specs.Accepted.{accepted, edit_numbered, record_numbered, stations_at};
ghost use Rattle.history.specs.Awaited.{answer_at, pending_days};
ghost use Rattle.history.specs.Sheets.{shown_at};
ghost use Rattle.history.specs.Statuses.{status_at};
ghost use Rattle.office.specs.Steps.{AnAnswer, IsStep};
ghost use Rattle.office.specs.Stops.{IsLeft};
ghost use Rattle.office_inputs.specs.Kept.{in_force};
ghost use Rattle.office_inputs.specs.Stations.{station_of};
ghost use Rattle.register.specs.Asked.{answer_told, sheet_told};

use approval::Status;
use devices::Disk;
use edits::Edit;
use fixed_units::{Day, NoMemory, Site};
use history::Doubt;
use journal::Journal;
use office_inputs::{Inputs, Limits, Station};
use records::{Format, Record};
use register::{Answer, Register, Sheet};
use std::alloc::Global;
use std::marker::Model;

/// An edit that is in force.
#[derive(Clone, Copy, Debug, PartialEq, Eq)]
pub struct Accepted {
    /// Its number among the accepted edits, from 1 on.
    pub number: u64,
    /// Whether it had been accepted before and came again.
    pub repeated: bool,
}

/// The office of one thread. Contracts see what is kept in memory, the history with it, and the disk.
pub struct Office<D: Disk> {
    pub(crate) alloc: Global,
    pub(crate) register: Register,
    pub(crate) journal: Journal<D>,
    /// The record that the journal is in doubt of, which exists in proofs alone.
    pub(crate) doubt: Doubt,
}

impl<D: Disk> Model for Office<D> {
    ghost use Rattle.edits.specs.contracts.content.Edit as edit;
    ghost use Rattle.office.specs.Offices.{Officed};
    ghost use Rattle.office.specs.Standing.{Stands};
    ghost use Rattle.std.specs.Coded.{codes};

    ghost Value = { Officed D };

    ghost coded = { Prim.hlevel (codes, edit.the_row.coded) };

    ghost view = { λ o. record { register = o.register; disk = o.journal.disk } };

    ghost invariant = { λ o. Stands o.register.history o.doubt o.journal };
}

/// By hand, so that a drop is one call wherever an office is dropped.
impl<D: Disk + Drop> Drop for Office<D> {
    fn drop(self) {
        let Office {
            alloc: _,
            register: _register,
            journal: _journal,
            doubt: _doubt,
        } = self;
    }
}

impl<D: Disk> Office<D> {
    /// The numbers that the office keeps to.
    pub fn limits(&self) -> Limits
        ensures { result ≡ self.now.register.history.limits }
    {
        self.register.limits()
    }

    /// The format of the journal.
    pub fn format(&self) -> Format
        ensures { result ≡ self.now.register.history.format }
    {
        self.register.format()
    }

    /// How many events the history has: accepted edits, publications and faults.
    pub fn events(&self) -> u64
        ensures { result ≡ length self.now.register.history.events }
    {
        self.register.events()
    }

    /// How many edits were accepted.
    pub fn edits(&self) -> u64
        ensures { result ≡ length (accepted self.now.register.history.events) }
    {
        self.register.edits()
    }

    /// The record of an accepted edit by its number, from 1 on.
    pub fn accepted(&self, number: u64) -> Option<&Record>
        ensures { option_map (λ piece. piece.now) result ≡ record_numbered self.now.register.history.events number }
    {
        self.register.edit(number)
    }

    /// The accepted edit of a number, from 1 on. `None` exactly where the number is 0 or above that of the accepted edits. It takes no
    /// memory.
    pub fn edit_at(&self, number: u64) -> Option<&Edit>
        ensures edit { option_map (λ edit. edit.now) result ≡ edit_numbered self.now.register.history.events number }
        ensures none { result ≡ None ↔ (number ≡ 0) ⊎ (length (accepted self.now.register.history.events) < number) }
    {
        self.register.edit_at(number)
    }

    /// How many days are pending.
    pub fn pending(&self) -> u64
        ensures { result ≡ length (pending_days self.now.register.history.events) }
    {
        self.register.pending()
    }

    /// What is in force.
    pub fn inputs(&self) -> &Inputs
        ensures stations { in_force result.now ≡ stations_at self.now.register.history.events }
        ensures limits { result.now.limits ≡ self.now.register.history.limits }
    {
        self.register.inputs()
    }

    /// The station of a site, or `None` exactly where it is not kept.
    pub fn station(&self, site: Site) -> Option<&Station>
        ensures { option_map (λ s. s.now.station) result ≡ station_of (stations_at self.now.register.history.events) site }
    {
        self.register.station(site)
    }

    /// What is answered for a day. It takes no memory.
    pub fn answer(&self, site: Site, day: Day) -> Answer<'_>
        ensures told { answer_told result ≡ answer_at self.now.register.history.events site day }
        ensures step { IsStep self.now.register (AnAnswer site day (answer_told result)) self.now.register }
    {
        self.register.answer(site, day)
    }

    /// How far the record of a day is approved, also where its site is not kept. It takes no memory.
    pub fn status(&self, site: Site, day: Day) -> Status
        ensures { result ≡ status_at self.now.register.history.events site day }
    {
        self.register.status(site, day)
    }

    /// How many days of a site are approved, also where it is not kept: no more than the calendar has. It takes no memory.
    pub fn approved_days(&self, site: Site) -> u64
        ensures approved { result ≡ approved_days (status_at self.now.register.history.events site) }
        ensures few { result ≤ days_of_calendar }
    {
        self.register.approved_days(site)
    }

    /// The primary computation sheet of a day: that which is kept of it where it is approved, also while it awaits an edit, and else that
    /// of its value, where it awaits none.
    pub fn sheet(&self, site: Site, day: Day) -> Result<Sheet<'_>, NoMemory>
        ensures { IfOk result (λ sheet. sheet_told sheet ≡ shown_at self.now.register.history.events site day) }
    {
        self.register.sheet(site, day)
    }

    /// The disk. Where it tells what it has, that is the journal of the accepted edits, or of these and the one that is in doubt, and
    /// so is whatever a stop may leave.
    pub fn close(self) -> D
        ensures disk { result ≡ self.disk }
        ensures now { IfSome (D.content result) (IsLeft self.register.history) }
        ensures images { IsSome (D.content result) → (image : List ℕ) → D.may_leave result image → IsLeft self.register.history image }
    {
        let Office {
            alloc: _,
            register: _register,
            journal,
            doubt: _doubt,
        } = self;
        journal.close()
    }
}
