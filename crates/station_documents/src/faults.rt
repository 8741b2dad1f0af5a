//! Why there are no stations of a document.

use fixed_units::NoMemory;
use thiserror::Error;

/// Why there are no stations of a document.
#[derive(Clone, Copy, Debug, PartialEq, Eq, Error)]
pub enum DocumentFault {
    /// It is no document of stations.
    #[error("the text is no station document")]
    NoDocument,
    /// There was no memory for the stations of it.
    #[error("there is no memory for the stations of a document")]
    NoMemory,
}

impl From<NoMemory> for DocumentFault {
    ghost use Rattle.std.specs.Prelude.{◌≡◌};
    ghost use Rattle.station_documents.specs.declared.faults.DocumentFault.TheVariants as Fault;

    ghost from_gives = { λ _ fault. fault ≡ Fault.NoMemory };

    fn from(_fault: NoMemory) -> DocumentFault {
        DocumentFault::NoMemory
    }
}
