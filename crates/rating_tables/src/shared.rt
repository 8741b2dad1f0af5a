//! A table that several owners share: it is kept once.

ghost use Rattle.std.specs.Prelude.{◌≡◌, ◌↔◌, true, IfOk};
ghost use Rattle.std.specs.Arc.{arc_value};
ghost use Rattle.rating_tables.specs.RowEquality.{same_rows};

use crate::table::Table;
use fixed_units::NoMemory;
use std::alloc::Global;
use std::marker::Model;
use std::sync::Arc;

/// A table that several owners share. Contracts see the rows.
#[derive(Drop)]
pub struct SharedTable {
    table: Arc<Table>,
}

impl Model for SharedTable {
    ghost use Rattle.std.specs.Prelude.{List};
    ghost use Rattle.std.specs.Arc.{arc_value};
    ghost use Rattle.rating_tables.specs.Table.{Row};

    ghost Value = { List Row };

    ghost view = { λ t. arc_value t.table };
}

impl SharedTable {
    /// A table that may be shared.
    pub fn new(alloc: Global, table: Table) -> Result<SharedTable, NoMemory>
        ensures { IfOk result (λ shared. shared ≡ table) }
    {
        Ok(SharedTable {
            table: Arc::new(alloc, table)?,
        })
    }

    /// One owner more of the table, of which no row is copied.
    pub fn share(&self) -> Result<SharedTable, NoMemory>
        ensures { IfOk result (λ shared. shared ≡ self.now) }
    {
        Ok(SharedTable {
            table: Arc::try_clone(&self.table)?,
        })
    }

    /// The table.
    pub fn table(&self) -> &Table
        ensures { result.now ≡ self.now }
    {
        &self.table
    }

    /// Whether the rows of both are equal. It takes no memory.
    pub fn is_same(&self, other: &SharedTable) -> bool
        ensures same { result ≡ same_rows self.now other.now }
        ensures equal { result ≡ true ↔ self.now ≡ other.now }
    {
        self.table.rows() == other.table.rows()
    }
}
