//! What an office keeps in memory: what happened, in order, and beside it all that is read off that.

ghost use Rattle.std.specs.Prelude.{◌≡◌, [], length, map, option_map};
ghost use Rattle.approval.specs.Statuses.{approved_days};
ghost use Rattle.history.specs.Accepted.{accepted, edits_of, stations_at, named, edit_numbered, record_numbered};
ghost use Rattle.history.specs.After.{reopen};
ghost use Rattle.history.specs.Awaited.{answer_at, pending_days};
ghost use Rattle.history.specs.Statuses.{status_at};
ghost use Rattle.office_inputs.specs.Kept.{in_force};
ghost use Rattle.office_inputs.specs.Stations.{station_of};
ghost use Rattle.register.specs.Asked.{answer_told};
ghost use Rattle.register.specs.Registered.{NoneOut};

use crate::answers::Answer;
use crate::references::References;
use approval::{Status, Statuses};
use chronicle::Chronicle;
use edits::Edit;
use fixed_units::{Day, Site};
use history::Recorded;
use office_inputs::{Inputs, Limits, Station, stations_keep_to_their_ranges};
use recompute::{Cells, pending_days_stand_by_site};
use records::{Format, HEADER_LEN, Record};
use std::alloc::Global;
use std::marker::Model;

/// The bytes of a journal of no records: its header and the closed gate.
const EMPTY_JOURNAL: u64 = HEADER_LEN + 1;

/// What an office keeps in memory. Contracts see its history, and beside it what is in force, the cells, the places of references and
/// for how many more edits there is room.
pub struct Register {
    pub(crate) alloc: Global,
    /// With how many edits the office was opened.
    pub(crate) opened: u64,
    /// The format of the journal.
    pub(crate) format: Format,
    pub(crate) inputs: Inputs,
    pub(crate) cells: Cells,
    pub(crate) references: References,
    pub(crate) statuses: Statuses,
    /// The records of the accepted edits.
    pub(crate) pieces: Vec<Record>,
    /// How many events the history has.
    pub(crate) events: u64,
    /// How many bytes the journal of the accepted edits has.
    pub(crate) journal_bytes: u64,
    /// What happened.
    pub(crate) past: Chronicle<Recorded>,
}

impl Model for Register {
    ghost use Rattle.std.specs.Prelude.{◌-◌, vec_len, vec_capacity};
    ghost use Rattle.edits.specs.contracts.content.Edit as edit;
    ghost use Rattle.register.specs.Keeping.{Keeps};
    ghost use Rattle.register.specs.Registered.{Registered, registered};
    ghost use Rattle.std.specs.Coded.{codes};

    ghost Value = { Registered };

    ghost coded = { Prim.hlevel (codes, edit.the_row.coded) };

    ghost view = { λ r. registered r.opened r.format r.inputs r.cells r.references r.statuses (vec_capacity r.pieces - vec_len r.pieces) r.past };

    ghost invariant = { λ r. Keeps (registered r.opened r.format r.inputs r.cells r.references r.statuses (vec_capacity r.pieces - vec_len r.pieces) r.past) r.pieces.items r.events r.journal_bytes };
}

/// By hand, so that a drop is one call wherever a register is dropped.
impl Drop for Register {
    fn drop(self) {
        let Register {
            alloc: _,
            opened: _,
            format: _,
            inputs: _inputs,
            cells: _cells,
            references: _references,
            statuses: _statuses,
            pieces: _pieces,
            events: _,
            journal_bytes: _,
            past: _past,
        } = self;
    }
}

impl Register {
    /// Of no edit, and a journal of this format. It takes no memory.
    pub fn new(alloc: Global, limits: Limits, format: Format) -> Register
        ensures history { result.history ≡ reopen limits format [] }
        ensures claims { NoneOut result }
    {
        Register {
            alloc,
            opened: 0,
            format,
            inputs: Inputs::new(alloc, limits),
            cells: Cells::new(alloc),
            references: References::new(alloc),
            statuses: Statuses::new(alloc),
            pieces: Vec::new(alloc),
            events: 0,
            journal_bytes: EMPTY_JOURNAL,
            past: Chronicle::new(),
        }
    }

    /// The numbers that the history keeps to.
    pub fn limits(&self) -> Limits
        ensures { result ≡ self.now.history.limits }
    {
        self.inputs.limits()
    }

    /// The format of the journal.
    pub fn format(&self) -> Format
        ensures { result ≡ self.now.history.format }
    {
        self.format
    }

    /// With how many edits the office was opened.
    pub fn opened(&self) -> u64
        ensures { result ≡ self.now.history.opened }
    {
        self.opened
    }

    /// How many events the history has: accepted edits, publications and faults.
    pub fn events(&self) -> u64
        ensures { result ≡ length self.now.history.events }
    {
        self.events
    }

    /// How many edits were accepted.
    pub fn edits(&self) -> u64
        ensures { result ≡ length (accepted self.now.history.events) }
    {
        self.pieces.len() as u64
    }

    /// The record of an accepted edit by its number, from 1 on.
    pub fn edit(&self, number: u64) -> Option<&Record>
        ensures { option_map (λ piece. piece.now) result ≡ record_numbered self.now.history.events number }
    {
        let place = number.checked_sub(1)?;
        self.pieces.get(place as usize)
    }

    /// The accepted edit of a number, or `None` exactly where the number is 0 or above that of the last one. It takes no memory.
    pub fn edit_at(&self, number: u64) -> Option<&Edit>
        ensures { option_map (λ edit. edit.now) result ≡ edit_numbered self.now.history.events number }
    {
        let piece = self.edit(number)?;
        Some(piece.edit())
    }

    /// The record of the accepted edit that a reference names, with its number.
    pub(crate) fn named(&self, reference: &[u8]) -> Option<(u64, &Record)>
        ensures { option_map (λ known. record { number = known.0; edit = known.1.now.edit }) result ≡ named (edits_of self.now.history.events) reference.now }
    {
        let place = self.references.place(reference, self.pieces.as_slice())?;
        let piece = self.pieces.get(place as usize)?;
        Some((place + 1, piece))
    }

    /// How many days are pending.
    pub fn pending(&self) -> u64
        ensures { result ≡ length (pending_days self.now.history.events) }
    {
        stations_keep_to_their_ranges(&self.inputs);
        pending_days_stand_by_site(&self.cells);
        self.cells.pending()
    }

    /// What is in force.
    pub fn inputs(&self) -> &Inputs
        ensures stations { in_force result.now ≡ stations_at self.now.history.events }
        ensures limits { result.now.limits ≡ self.now.history.limits }
    {
        &self.inputs
    }

    /// The station of a site, or `None` exactly where it is not kept.
    pub fn station(&self, site: Site) -> Option<&Station>
        ensures { option_map (λ s. s.now.station) result ≡ station_of (stations_at self.now.history.events) site }
    {
        self.inputs.station(site)
    }

    /// What is answered for a day. It takes no memory.
    pub fn answer(&self, site: Site, day: Day) -> Answer<'_>
        ensures { answer_told result ≡ answer_at self.now.history.events site day }
    {
        if self.inputs.station(site).is_none() {
            return Answer::NoStation;
        }
        match self.cells.awaited(site, day) {
            Some(edit) => Answer::Pending(edit),
            None => Answer::Computed(self.cells.value(site, day)),
        }
    }

    /// How far the record of a day is approved, also where its site is not kept. It takes no memory.
    pub fn status(&self, site: Site, day: Day) -> Status
        ensures { result ≡ status_at self.now.history.events site day }
    {
        self.statuses.status(site, day)
    }

    /// How many days of a site are approved, also where it is not kept. It takes no memory.
    pub fn approved_days(&self, site: Site) -> u64
        ensures { result ≡ approved_days (status_at self.now.history.events site) }
    {
        self.statuses.approved_days(site)
    }
}
