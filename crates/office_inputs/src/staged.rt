//! What is made ready for an edit before it is journaled, so that its acceptance takes no memory.

ghost use Rattle.std.specs.Prelude.{◌≡◌, MatchOption};
ghost use Rattle.office_inputs.specs.Kept.{staged_part};
ghost use Rattle.office_inputs.specs.declared.staged.StagedEdit.TheVariants.{Part, Whole};

use station_inputs::{Staged, Station};

/// What is made ready for an edit that carries more than numbers.
pub(crate) enum StagedEdit {
    /// The station that is added.
    Whole(Station),
    /// What is staged for an edit of a station that is there.
    Part(Staged),
}

/// By hand, so that a drop is one call wherever what is staged is dropped.
impl Drop for StagedEdit {
    fn drop(self) {
        match self {
            StagedEdit::Whole(_station) => {}
            StagedEdit::Part(_staged) => {}
        }
    }
}

impl StagedEdit {
    /// The station that is added.
    pub(crate) fn into_station(self) -> Option<Station>
        ensures { MatchOption result (self ≡ Part (staged_part self)) (λ station. self ≡ Whole station) }
    {
        match self {
            StagedEdit::Whole(station) => Some(station),
            StagedEdit::Part(_) => None,
        }
    }

    /// What is staged for an edit of a station that is there.
    pub(crate) fn into_part(self) -> Staged
        ensures { result ≡ staged_part self }
    {
        match self {
            StagedEdit::Part(part) => part,
            StagedEdit::Whole(_) => Staged::Nothing,
        }
    }
}
