//! The review and the approval of a trial, and the flags behind them.

ghost use Rattle.std.specs.Prelude.{◌≡◌};
ghost use Rattle.edits.specs.Lawful.{IsLawful};
ghost use Rattle.fixed_units.specs.Quantities.{IsDay, IsSecond};
ghost use Rattle.trial_orders.specs.Questions as questions;
ghost use Rattle.trial_orders.specs.Questions.{approved_instant, first_reviewed, flagging, last_reviewed, open_instant};

use edits::{Decision, What};
use fixed_units::{Day, Flag, Second};

/// The first day that is reviewed: 2023-01-05.
const FIRST_REVIEWED: i32 = 19_362;

/// The last one: 2023-04-14.
const LAST_REVIEWED: i32 = 19_461;

/// An instant that an approved day has, in seconds: 2023-02-01T12:00:00Z.
const APPROVED_INSTANT: i64 = 1_675_252_800;

/// One that none has: 2023-07-01T12:00:00Z.
const OPEN_INSTANT: i64 = 1_688_212_800;

/// Puts the days in review.
pub fn review() -> What
    ensures what { result ≡ questions.review }
    ensures lawful { IsLawful result }
{
    What::Review {
        from: day(FIRST_REVIEWED),
        to: day(LAST_REVIEWED),
    }
}

/// Approves them.
pub fn approval() -> What
    ensures what { result ≡ questions.approval }
    ensures lawful { IsLawful result }
{
    What::Decide {
        from: day(FIRST_REVIEWED),
        to: day(LAST_REVIEWED),
        decision: Decision::Approve,
    }
}

fn day(number: i32) -> Day
    requires { IsDay number }
    ensures { result ≡ number }
{
    Day::new(number).unwrap()
}

/// Flags a reading of an approved day as erroneous.
pub fn flagging_approved() -> What
    ensures what { result ≡ flagging approved_instant }
    ensures lawful { IsLawful result }
{
    flagging(APPROVED_INSTANT)
}

/// Flags one of a day that is not approved.
pub fn flagging_open() -> What
    ensures what { result ≡ flagging open_instant }
    ensures lawful { IsLawful result }
{
    flagging(OPEN_INSTANT)
}

/// Flags the reading of an instant as erroneous.
fn flagging(at: i64) -> What
    requires { IsSecond at }
    ensures { result ≡ flagging at }
{
    let at = Second::new(at).unwrap();
    What::FlagReadings {
        from: at,
        to: at,
        flag: Flag::Erroneous,
    }
}
