//! Why days may not be reviewed, or decided on.

use fixed_units::Day;
use thiserror::Error;

/// Why a person may not review days, or decide on them.
#[derive(Clone, Copy, Debug, PartialEq, Eq, Error)]
pub enum Objection {
    /// An approval names this day, which is not in review: the first such day.
    #[error("a day to be approved is not in review")]
    NotInReview(Day),
    /// An approval names this day, which the approver put in review: the first such day.
    #[error("a day to be approved was put in review by the approver")]
    SamePerson(Day),
    /// A rescission names this day, which is not approved: the first such day.
    #[error("a day whose approval is to be taken back is not approved")]
    NotApproved(Day),
    /// A review names this day, which is approved: the first such day.
    #[error("a day to be reviewed is approved")]
    AlreadyApproved(Day),
}
