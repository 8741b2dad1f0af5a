//! What of a station stands in the way of an edit of it.

use fixed_units::Second;
use thiserror::Error;

/// What of a station stands in the way of an edit of it.
#[derive(Clone, Copy, Debug, PartialEq, Eq, Error)]
pub enum Obstacle {
    /// The station has no rating of the number that a period names.
    #[error("the station has no such rating")]
    NoRating,
    /// The station has a rating of that number already.
    #[error("the station has a rating of that number already")]
    RatingExists,
    /// The period shares an instant with one that begins at another instant: the first of these begins here.
    #[error("the period shares an instant with another one")]
    PeriodOverlap(Second),
    /// A drop or a flagging finds nothing: no reading in its span, no entry at its instant in its series, no period of its start, no
    /// estimate of its day, or no measurement of its number.
    #[error("nothing stands where the edit would act")]
    NoEntry,
}
