//! The periods of a payload that was read: their ranges, and the periods that they make.

ghost use Rattle.std.specs.Prelude.{◌≡◌, ◌↔◌, true, IfSome, IfNone};
ghost use Rattle.edits.specs.Lawful.{IsPutPeriod};
ghost use Rattle.edits.specs.declared.content.What.TheVariants.{PutPeriod, DropPeriod};
ghost use Rattle.fixed_units.specs.Quantities.{IsStamp};
ghost use Rattle.records.specs.Drafts.{span_of};

use edits::{What, is_put_period};
use fixed_units::Second;
use ratings::Period;

/// A period as it stands in a payload: its start, its end where it has one, and the number of its rating.
#[derive(Clone, Copy)]
pub(crate) struct PeriodDraft {
    pub(crate) from: i64,
    pub(crate) until: Option<i64>,
    pub(crate) rating: u32,
}

/// Whether the period may be put.
pub(crate) fn is_period(draft: &PeriodDraft) -> bool
    ensures { result ≡ true ↔ IsPutPeriod (span_of draft.now) }
{
    match period_from(draft) {
        Some(period) => is_put_period(&period),
        None => false,
    }
}

/// The period of this start, this end and this rating, or `None` only where it may not be put.
fn period_from(draft: &PeriodDraft) -> Option<Period>
    ensures some { IfSome result (λ period. period ≡ span_of draft.now) }
    ensures none { IfNone result (¬ IsPutPeriod (span_of draft.now)) }
{
    let from = Second::new(draft.from)?;
    let until = match draft.until {
        Some(until) => Some(Second::new(until)?),
        None => None,
    };
    Period::new(from, until, draft.rating)
}

/// The put of the period.
pub(crate) fn put_period_from(draft: &PeriodDraft) -> What
    requires { IsPutPeriod (span_of draft.now) }
    ensures { result ≡ PutPeriod (span_of draft.now) }
{
    What::PutPeriod {
        period: period_from(draft).unwrap(),
    }
}

/// The drop of the period that begins at an instant.
pub(crate) fn dropped_period_from(from: i64) -> What
    requires { IsStamp from }
    ensures { result ≡ DropPeriod from }
{
    What::DropPeriod {
        from: Second::of_seconds(from),
    }
}
