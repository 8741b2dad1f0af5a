//! What a turnstile is made of.
ghost use Rattle.std.specs.Prelude.{◌≡◌};

use crate::kept::Kept;
use crate::parties::Party;
use crate::steps::Law;
use atomic_table::{Shared, Table};
use std::alloc::Global;
use std::snapshot::Snapshot;

/// A lock round a value. Word 0 is the turn, word 1 the length of the history; the slot has the value while the turn is free.
///
/// Each call asks for passes and holdings of this turnstile. A pass or a holding that is dropped takes its share with it, and a
/// holding its value too: then later calls of `enter` wait, which nothing promises to end.
#[derive(Drop)]
pub struct Turnstile<T: Kept> {
    pub(crate) table: Table<Option<T>, Party<T::Entry, T::Fixed>, Snapshot<T>, Law, Global>,
    ghost counts: { (table.shared.table_id.words ≡ 2) × (table.shared.table_id.slots ≡ 1) },
}

/// The words and the slot, as the parties share them.
pub(crate) type SharedTable<T> = Shared<
    Option<T>,
    Party<<T as Kept>::Entry, <T as Kept>::Fixed>,
    Snapshot<T>,
    Law,
>;
