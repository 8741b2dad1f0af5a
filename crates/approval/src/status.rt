//! How far the record of a day is approved.

ghost use Rattle.std.specs.Prelude.{◌≡◌};
ghost use Rattle.approval.specs.Statuses.{is_approved, is_in_review, is_reviewed_by, status_name};

use edits::By;

/// How far a day's record is approved.
#[derive(Drop)]
pub enum Status {
    /// The record is being worked.
    Working,
    /// This person put it in review.
    InReview(By),
    /// This person approved it.
    Approved(By),
}

impl Status {
    /// Its name, as replies have it.
    pub fn name(&self) -> &'static [u8]
        ensures { result.now ≡ status_name self.now }
    {
        match self {
            Status::Working => b"working",
            Status::InReview(_) => b"review",
            Status::Approved(_) => b"approved",
        }
    }

    /// A copy of it. It takes no memory.
    pub fn copy(&self) -> Status
        ensures { result ≡ self.now }
    {
        match self {
            Status::Working => Status::Working,
            Status::InReview(by) => Status::InReview(by.copy()),
            Status::Approved(by) => Status::Approved(by.copy()),
        }
    }

    /// Whether the record is in review.
    pub fn is_in_review(&self) -> bool
        ensures { result ≡ is_in_review self.now }
    {
        matches!(self, Status::InReview(_))
    }

    /// Whether this person put the record in review, and it is in review still.
    pub fn is_reviewed_by(&self, person: &By) -> bool
        ensures { result ≡ is_reviewed_by person.now self.now }
    {
        match self {
            Status::InReview(by) => by.as_slice() == person.as_slice(),
            _ => false,
        }
    }

    /// Whether the record is approved.
    pub fn is_approved(&self) -> bool
        ensures { result ≡ is_approved self.now }
    {
        matches!(self, Status::Approved(_))
    }
}
