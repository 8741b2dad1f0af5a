//! An event of a history, for proofs alone.

ghost use Rattle.std.specs.Prelude.{◌≡◌, Some, None};
ghost use Rattle.fixed_units.specs.Quantities.{SiteNumber};
ghost use Rattle.history.specs.After.{leaves_doubt};
ghost use Rattle.history.specs.Events.{Event, Accepted, Published, Faulted};

use fixed_units::{Day, Site};
use records::Record;
use std::marker::Model;
use std::snapshot::Snapshot;
use thiserror::Error;

/// An event, which takes no memory; contracts see that of the definitions.
#[derive(Drop)]
pub struct Recorded {
    kind: Kind,
}

#[derive(Drop)]
enum Kind {
    /// An edit was accepted, with its record.
    WasAccepted(Snapshot<Record>),
    /// The value of a day was published.
    WasPublished(Site, Day),
    /// A fault of the journal refused an edit, which left this doubt.
    WasFaulted(Snapshot<Doubt>),
}

/// Why the record of an edit was not kept in a journal.
#[derive(Clone, Copy, Debug, PartialEq, Eq, Error)]
pub enum NotKept {
    /// The journal was in doubt of a record, and could not be mended: it still is.
    #[error("the journal is in doubt of a record, and could not be mended")]
    Mend,
    /// The record could not be written and synced: the journal is in doubt of none.
    #[error("the record could not be written and synced")]
    Record,
    /// The gate before the record could not be opened and synced: the journal is in doubt of the record.
    #[error("the gate before the record could not be opened and synced")]
    Gate,
}

impl NotKept {
    /// Whether the journal is in doubt of a record.
    pub fn in_doubt(self) -> bool
        ensures { result ≡ leaves_doubt self }
    {
        match self {
            NotKept::Mend | NotKept::Gate => true,
            NotKept::Record => false,
        }
    }
}

/// Which record a journal is in doubt of, if of any. It takes no memory.
#[derive(Drop)]
pub struct Doubt {
    piece: Option<Snapshot<Record>>,
}

impl Model for Doubt {
    ghost use Rattle.edits.specs.contracts.content.Edit as edit;
    ghost use Rattle.records.specs.Sheets.{Record};
    ghost use Rattle.std.specs.Prelude.{Option, option_map};
    ghost use Rattle.std.specs.Coded.{codes};

    ghost Value = { Option Record };

    ghost coded = { Prim.hlevel (codes, edit.the_row.coded) };

    ghost view = { λ d. option_map (λ s. s.value) d.piece };
}

impl Doubt {
    /// The journal is in doubt of no record.
    pub fn none() -> Doubt
        ensures { result ≡ None }
    {
        Doubt { piece: None }
    }

    /// The journal is in doubt of this record.
    pub fn of(piece: &Record) -> Doubt
        ensures { result ≡ Some piece.now }
    {
        Doubt {
            piece: Some(Snapshot::of(piece)),
        }
    }
}

impl Model for Recorded {
    ghost use Rattle.edits.specs.contracts.content.Edit as edit;
    ghost use Rattle.history.specs.Events.{Event};
    ghost use Rattle.history.specs.Recording.{event_of};
    ghost use Rattle.std.specs.Coded.{codes};

    ghost Value = { Event };

    ghost coded = { Prim.hlevel (codes, edit.the_row.coded) };

    ghost view = { λ r. event_of r.kind };
}

impl Recorded {
    /// An edit was accepted, with its record.
    pub fn accepted(piece: &Record) -> Recorded
        ensures { result ≡ Accepted piece.now }
    {
        Recorded {
            kind: Kind::WasAccepted(Snapshot::of(piece)),
        }
    }

    /// The value of a day was published.
    pub fn published(site: Site, day: Day) -> Recorded
        ensures { result ≡ Published site day }
    {
        Recorded {
            kind: Kind::WasPublished(site, day),
        }
    }

    /// A fault of the journal refused an edit, which left this doubt.
    pub fn faulted(doubt: &Doubt) -> Recorded
        ensures { result ≡ Faulted doubt.now }
    {
        Recorded {
            kind: Kind::WasFaulted(Snapshot::of(doubt)),
        }
    }
}
