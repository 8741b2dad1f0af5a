//! Why there is no such edit.

use fixed_units::NoMemory;
use thiserror::Error;

/// Why there is no such edit.
#[derive(Clone, Copy, Debug, PartialEq, Eq, Error)]
pub enum EditFault {
    /// A part of it is out of its range, or its zone is none.
    #[error("a part of the edit is out of its range, or its zone is none")]
    NotLawful,
    /// There was no memory to read its zone.
    #[error("there is no memory to read the zone of the edit")]
    NoMemory,
}
