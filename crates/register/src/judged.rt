//! What is said to an edit.

ghost use Rattle.std.specs.Prelude.{◌≡◌};

use depend::DayList;
use fixed_units::NoMemory;
use office_inputs::{Place, Refusal};
use records::Record;
use thiserror::Error;

/// What is said to an edit.
#[derive(Drop)]
pub enum Judged {
    /// It is the accepted edit of this number, which comes again.
    Repeated(u64),
    /// It is refused.
    Refused(Refusal),
    /// It is accepted.
    Accepted {
        /// Its record.
        piece: Record,
        /// Where the station of its site stands.
        place: Place,
        /// The days that it changes.
        days: DayList,
    },
}

/// Why a record is not accepted among those that an office is opened with.
#[derive(Clone, Copy, Debug, PartialEq, Eq, Error)]
pub enum NotReadmitted {
    /// Its reference is that of an accepted edit, the stations in force or the statuses of its days refuse it, or it would change an
    /// approved day.
    #[error("the edit of a record is refused: {0}")]
    Refused(Refusal),
    /// There was no memory for it.
    #[error("there is no memory for a record")]
    NoMemory,
}

impl From<NoMemory> for NotReadmitted {
    ghost use Rattle.register.specs.declared.judged.NotReadmitted.{NotReadmitted};

    ghost from_gives = { λ _ told. told ≡ NotReadmitted.NoMemory };

    fn from(_: NoMemory) -> NotReadmitted {
        NotReadmitted::NoMemory
    }
}
