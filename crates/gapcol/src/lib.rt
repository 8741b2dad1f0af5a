//! A list in a gap buffer over raw memory: it takes memory in one call alone, and lends any part of itself as two slices.
#![tactic(auto)]

mod cells;
mod column;
mod gap;

// A contract can name a column only if the types of its fields are exported.
#[doc(hidden)]
pub use cells::{Base, Cells, Deed};
pub use column::{Column, NoMemory};
#[doc(hidden)]
pub use gap::Gap;
