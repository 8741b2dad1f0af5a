//! The corrections and the shift of a trial.

ghost use Rattle.std.specs.Prelude.{◌≡◌};
ghost use Rattle.edits.specs.Lawful.{IsLawful};
ghost use Rattle.fixed_units.specs.Quantities.{IsMicro};
ghost use Rattle.trial_orders.specs.Questions as questions;

use curves::Curve;
use edits::What;
use fixed_units::{Micro, Second};

/// From when on the first correction governs, in seconds: 2023-06-01T00:00:00Z.
const FIRST_CORRECTION: i64 = 1_685_577_600;

/// The second one: 2023-09-01T00:00:00Z.
const SECOND_CORRECTION: i64 = 1_693_526_400;

/// The shift: 2023-04-01T00:00:00Z.
const SHIFT: i64 = 1_680_307_200;

/// Puts a correction of nothing, which goes over to the second one.
pub fn first_correction() -> What
    ensures what { result ≡ questions.first_correction }
    ensures lawful { IsLawful result }
{
    What::PutCorrection {
        set: 1,
        at: Second::new(FIRST_CORRECTION).unwrap(),
        curve: Curve::new(&[point(0, 0)]).unwrap(),
        prorate: true,
    }
}

/// Puts a correction of a tenth of a foot.
pub fn second_correction() -> What
    ensures what { result ≡ questions.second_correction }
    ensures lawful { IsLawful result }
{
    What::PutCorrection {
        set: 1,
        at: Second::new(SECOND_CORRECTION).unwrap(),
        curve: Curve::new(&[point(0, 100_000)]).unwrap(),
        prorate: false,
    }
}

/// Puts a shift, which is most at 5 feet.
pub fn shift() -> What
    ensures what { result ≡ questions.shift }
    ensures lawful { IsLawful result }
{
    What::PutShift {
        at: Second::new(SHIFT).unwrap(),
        curve: Curve::new(&[point(0, 0), point(5_000_000, -50_000), point(10_000_000, 0)]).unwrap(),
        prorate: false,
    }
}

/// A stage and an amount, in millionths of a foot.
fn point(stage: i64, amount: i64) -> (Micro, Micro)
    requires stage { IsMicro stage }
    requires amount { IsMicro amount }
    ensures { result ≡ (stage, amount) }
{
    (Micro::new(stage).unwrap(), Micro::new(amount).unwrap())
}
