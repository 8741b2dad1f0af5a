//! What a field measurement says of the rating in force.

use edits::Grade;
use fixed_units::Micro;

/// What a field measurement says of the rating in force at its instant.
#[derive(Clone, Copy, Debug, PartialEq, Eq)]
pub struct Departure {
    /// The grade of the measurement, as it is given.
    pub grade: Grade,
    /// The discharge of the rating at the gage height with its shift, in millionths of a cubic foot per second: `None` where no rating
    /// is in force, or that stage is below its first row or above its last one.
    pub rated: Option<Micro>,
    /// By how much the measured discharge departs from the rated one, in hundredths of a percent of that, rounded half away from zero:
    /// `None` where there is no rated discharge, or it is 0.
    pub hundredths: Option<i64>,
    /// The shift that would bring the rating to the measured discharge, in millionths of a foot: `None` where no rating is in force, or
    /// the discharge is below its first row's or above its last one's.
    pub indicated: Option<Micro>,
}
