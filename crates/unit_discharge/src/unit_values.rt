//! Unit values: what a reading gives.

use fixed_units::{Micro, Second};
use thiserror::Error;

/// Why a reading has no discharge; of several reasons the first one of these counts.
#[derive(Clone, Copy, Debug, PartialEq, Eq, Error)]
pub enum Missing {
    /// The reading is flagged: the rating does not hold for it (backwater, ice).
    #[error("the rating does not hold for the reading")]
    Affected,
    /// No rating is in force.
    #[error("no rating is in force")]
    NoRating,
    /// The stage with its shift is below the first one of the rating.
    #[error("the stage is below the rating")]
    Below,
    /// The stage with its shift is above the last one of the rating.
    #[error("the stage is above the rating")]
    Above,
}

/// A unit value: what a reading gives by the corrections, shifts and ratings in force at its instant.
#[derive(Clone, Copy, Debug, PartialEq, Eq)]
pub struct Unit {
    /// When the stage was read.
    pub at: Second,
    /// The stage as the gauge gave it, in millionths of a foot: at most 100,000 feet either way.
    pub raw: Micro,
    /// The datum correction in millionths of a foot: at most 3,000 feet either way.
    pub correction: Micro,
    /// The stage with its correction, which may pass 100,000 feet by the correction.
    pub stage: Micro,
    /// The shift in millionths of a foot: at most 1,000 feet either way.
    pub shift: Micro,
    /// The discharge in millionths of a cubic foot per second, or why there is none.
    pub discharge: Result<Micro, Missing>,
}
