//! Which periods change the parts of the time between two instants.

ghost use Rattle.std.specs.Prelude.{◌≡◌, ◌==◌, ◌&&◌, List, [], ◌∷◌};
ghost use Rattle.std.specs.Ordering.{int_eq};
ghost use Rattle.ratings.specs.Numbered.{Numbered};
ghost use Rattle.ratings.specs.PartEquality.{same_parts};
ghost use Rattle.ratings.specs.Parts as cut;

use crate::cutting::cut_end;
use crate::period::Period;
use crate::periods::is_before_end;
use fixed_units::Second;

/// Whether the parts of a kept period and of another one of its start are equal, whatever the tables of their ratings.
pub(crate) fn stays_in_place(kept: &Period, period: &Period, lo: Second, hi: Second) -> bool
    requires { kept.now.from ≡ period.now.from }
    ensures { (tables : List Numbered) → result ≡ same_parts (cut.parts lo hi tables (kept.now ∷ [])) (cut.parts lo hi tables (period.now ∷ [])) }
{
    match (meets(kept, lo, hi), meets(period, lo, hi)) {
        (true, true) => are_cut_alike(kept, period, hi),
        (true, false) | (false, true) => false,
        (false, false) => true,
    }
}

/// Whether two periods are of one rating and end alike where they are cut right behind an instant.
fn are_cut_alike(period: &Period, other: &Period, hi: Second) -> bool
    ensures { result ≡ int_eq (cut.cut_end hi period.now.until) (cut.cut_end hi other.now.until) && (period.now.rating == other.now.rating) }
{
    cut_end(hi, period.until) == cut_end(hi, other.until) && period.rating == other.rating
}

/// Whether a period is in force at some instant from `lo` to `hi`.
pub(crate) fn meets(period: &Period, lo: Second, hi: Second) -> bool
    ensures { result ≡ cut.meets lo hi period.now }
{
    period.from <= hi && is_before_end(lo, period.until)
}
