//! What is made ready for an edit of a station before it is journaled, so that its acceptance takes no memory.

ghost use Rattle.std.specs.Prelude.{◌≡◌, ℕ, List};
ghost use Rattle.rating_tables.specs.Table.{Row};
ghost use Rattle.station_inputs.specs.Room.{IsStagedName, IsStagedTable};

use edits::Name;
use ratings::SharedTable;

/// What is made ready for an edit of a station that carries more than numbers.
pub enum Staged {
    /// Nothing is.
    Nothing,
    /// The name of a station.
    Named(Name),
    /// The table of a rating.
    Rated(SharedTable),
}

/// By hand, so that a drop is one call wherever what is staged is dropped.
impl Drop for Staged {
    fn drop(self) {
        match self {
            Staged::Nothing => {}
            Staged::Named(_name) => {}
            Staged::Rated(_table) => {}
        }
    }
}

impl Staged {
    /// The name that is staged.
    pub(crate) fn into_name(self) -> Name
        requires { (name : List ℕ) × IsStagedName name self }
        ensures { IsStagedName result self }
    {
        match self {
            Staged::Named(name) => name,
            Staged::Nothing | Staged::Rated(_) => unreachable!(),
        }
    }

    /// The table that is staged.
    pub(crate) fn into_table(self) -> SharedTable
        requires { (table : List Row) × IsStagedTable table self }
        ensures { IsStagedTable result self }
    {
        match self {
            Staged::Rated(table) => table,
            Staged::Nothing | Staged::Named(_) => unreachable!(),
        }
    }
}
