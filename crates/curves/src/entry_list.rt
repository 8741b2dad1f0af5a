//! A list of entries that is handed on whole, as those that bear on a day.

ghost use Rattle.std.specs.Prelude.{◌≡◌, List};

use crate::entries::Entry;
use std::marker::Model;

/// A list of entries. Contracts see the list.
#[derive(Drop)]
pub struct EntryList {
    entries: Vec<Entry>,
}

impl Model for EntryList {
    ghost use Rattle.std.specs.Prelude.{List};
    ghost use Rattle.curves.specs.declared.entries.Entry.{Entry};

    ghost Value = { List Entry };

    ghost view = { λ l. l.entries.items };
}

impl EntryList {
    /// The list of these entries.
    pub fn from_vec(entries: Vec<Entry>) -> EntryList
        ensures { result ≡ entries.items }
    {
        EntryList { entries }
    }

    /// The entries, in order.
    pub fn as_slice(&self) -> &[Entry]
        ensures { result.now ≡ self.now }
    {
        self.entries.as_slice()
    }
}
