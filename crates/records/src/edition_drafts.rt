//! The editions of a payload that was read: their ranges, and the editions that they make.

ghost use Rattle.std.specs.Prelude.{◌≡◌, ◌↔◌, true};
ghost use Rattle.edits.specs.Lawful.{IsSetEdition};
ghost use Rattle.edits.specs.declared.content.What.TheVariants.{SetEdition};

use edits::{What, is_set_edition};
use fixed_units::Day;

/// Whether an edition of this day and this least cover may be set.
pub(crate) fn is_edition(day: i32, least: Option<u32>) -> bool
    ensures { result ≡ true ↔ IsSetEdition day least }
{
    match Day::new(day) {
        Some(day) => is_set_edition(day, least),
        None => false,
    }
}

/// The setting of the edition.
pub(crate) fn edition_from(day: i32, least: Option<u32>) -> What
    requires { IsSetEdition day least }
    ensures { result ≡ SetEdition day least }
{
    What::SetEdition {
        day: Day::new(day).unwrap(),
        least,
    }
}
