//! The estimates of a payload that was read: their ranges, and the estimates that they make.

ghost use Rattle.std.specs.Prelude.{◌≡◌, ◌↔◌, true, IfSome, IfNone};
ghost use Rattle.edits.specs.Lawful.{IsPutEstimate};
ghost use Rattle.edits.specs.declared.content.What.TheVariants.{PutEstimate, DropEstimate};
ghost use Rattle.fixed_units.specs.Quantities.{IsDay};
ghost use Rattle.records.specs.Drafts.{estimated};

use edits::{Estimate, What, is_put_estimate};
use fixed_units::{Day, Micro};

/// An estimate as it stands in a payload: its day, and its discharge in millionths.
#[derive(Clone, Copy)]
pub(crate) struct EstimateDraft {
    pub(crate) day: i32,
    pub(crate) discharge: i64,
}

/// Whether the estimate may be put.
pub(crate) fn is_estimate(draft: &EstimateDraft) -> bool
    ensures { result ≡ true ↔ IsPutEstimate (estimated draft.now) }
{
    match estimate_from(draft) {
        Some(estimate) => is_put_estimate(&estimate),
        None => false,
    }
}

/// The estimate of these parts, or `None` only where it may not be put.
fn estimate_from(draft: &EstimateDraft) -> Option<Estimate>
    ensures some { IfSome result (λ estimate. estimate ≡ estimated draft.now) }
    ensures none { IfNone result (¬ IsPutEstimate (estimated draft.now)) }
{
    Some(Estimate {
        day: Day::new(draft.day)?,
        discharge: Micro::new(draft.discharge)?,
    })
}

/// The put of the estimate.
pub(crate) fn put_estimate_from(draft: &EstimateDraft) -> What
    requires { IsPutEstimate (estimated draft.now) }
    ensures { result ≡ PutEstimate (estimated draft.now) }
{
    What::PutEstimate {
        estimate: estimate_from(draft).unwrap(),
    }
}

/// The drop of the estimate of a day.
pub(crate) fn dropped_estimate_from(day: i32) -> What
    requires { IsDay day }
    ensures { result ≡ DropEstimate day }
{
    What::DropEstimate {
        day: Day::new(day).unwrap(),
    }
}
