//! What is decided on days in review, or on approved ones.

ghost use Rattle.std.specs.Prelude.{◌≡◌};
ghost use Rattle.edits.specs.Decisions.{decision_number, decision_of};

/// What is decided on the record of some days.
#[derive(Clone, Copy, Debug, PartialEq, Eq)]
pub enum Decision {
    /// It is approved.
    Approve,
    /// Its approval is taken back.
    Rescind,
}

impl Decision {
    /// Its number in records: 0 approves, 1 rescinds.
    pub fn number(self) -> u8
        ensures { result ≡ decision_number self }
    {
        match self {
            Decision::Approve => 0,
            Decision::Rescind => 1,
        }
    }

    /// The decision of a number in records, or `None` exactly where none has it.
    pub fn of_number(number: u8) -> Option<Decision>
        ensures { result ≡ decision_of number }
    {
        match number {
            0 => Some(Decision::Approve),
            1 => Some(Decision::Rescind),
            _ => None,
        }
    }
}
