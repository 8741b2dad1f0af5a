//! Which edits are asked for, and in which form.

ghost use Rattle.std.specs.Prelude.{◌≡◌};
ghost use Rattle.ledger.specs.Choices.{is_by, is_chosen, is_of_kind, is_of_site};

use edits::{By, Edit, Kind};
use fixed_units::Site;

/// The form in which edits are written.
#[derive(Clone, Copy, Debug, PartialEq, Eq)]
pub enum Form {
    /// A line of each.
    Edits,
    /// The request that makes each anew.
    Requests,
}

/// Which edits are asked for: those of a site, a kind and a person, where one is named, and of a span of numbers.
#[derive(Drop)]
pub struct Choice {
    /// The site.
    pub site: Option<Site>,
    /// The kind.
    pub kind: Option<Kind>,
    /// The initials of the person.
    pub by: Option<By>,
    /// The number of the first edit.
    pub first: u64,
    /// The number of the last edit.
    pub last: u64,
}

impl Choice {
    /// Whether an edit of that number is chosen.
    pub(crate) fn has(&self, number: u64, edit: &Edit) -> bool
        ensures { result ≡ is_chosen self.now number edit.now }
    {
        self.first <= number
            && number <= self.last
            && is_of_site(self.site, edit)
            && is_of_kind(self.kind, edit)
            && is_by(&self.by, edit)
    }
}

/// Whether an edit is of that site.
fn is_of_site(site: Option<Site>, edit: &Edit) -> bool
    ensures { result ≡ is_of_site site edit.now }
{
    match site {
        Some(site) => edit.site.is_at(site),
        None => true,
    }
}

/// Whether an edit is of that kind.
fn is_of_kind(kind: Option<Kind>, edit: &Edit) -> bool
    ensures { result ≡ is_of_kind kind edit.now }
{
    match kind {
        Some(kind) => edit.what.kind().number() == kind.number(),
        None => true,
    }
}

/// Whether an edit is by that person.
fn is_by(by: &Option<By>, edit: &Edit) -> bool
    ensures { result ≡ is_by by.now edit.now }
{
    match by {
        Some(by) => edit.by.as_slice() == by.as_slice(),
        None => true,
    }
}
