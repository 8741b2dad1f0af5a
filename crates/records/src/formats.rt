//! The formats of journals, and so of the payloads in them.

ghost use Rattle.std.specs.Prelude.{◌≡◌, ◌↔◌, true};
ghost use Rattle.records.specs.Payloads.{Holds};

use edits::Comment;

/// The format of a journal, and so of the payloads in it.
#[derive(Clone, Copy, Debug, PartialEq, Eq)]
pub enum Format {
    /// The first one, whose payloads have no comments.
    First,
    /// The second one, whose payloads have the comments of their edits.
    Second,
}

impl Format {
    /// Whether the format holds a comment: the first one only where it is empty.
    pub fn holds(self, comment: &Comment) -> bool
        ensures { result ≡ true ↔ Holds self comment.now }
    {
        match self {
            Format::First => comment.as_slice().is_empty(),
            Format::Second => true,
        }
    }
}
