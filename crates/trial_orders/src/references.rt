//! Who asks, and under which references.

ghost use Rattle.std.specs.Prelude.{◌≡◌, codes, IfOk};
ghost use Rattle.edits.specs.Lawful.{IsLawful};
ghost use Rattle.trial_orders.specs.References.{IsAsked, reference_of};

use edits::{By, Edit, Ref, What};
use fixed_units::{NoMemory, Site, Text};

/// Who asks all but the review and the approval.
pub fn sender() -> By
    ensures { result ≡ codes "TR" }
{
    By::new(b"TR").unwrap()
}

/// Who reviews.
pub fn reviewer() -> By
    ensures { result ≡ codes "RA" }
{
    By::new(b"RA").unwrap()
}

/// Who approves.
pub fn approver() -> By
    ensures { result ≡ codes "AB" }
{
    By::new(b"AB").unwrap()
}

/// The edit that a person asks of a site under a number, with an empty comment. The scratch is used in its reference.
pub fn edit_of(
    number: u32,
    by: By,
    site: Site,
    what: What,
    scratch: &mut Text,
) -> Result<Edit, NoMemory>
    requires { IsLawful what }
    ensures { IfOk result (IsAsked number by site what) }
{
    let reference = reference_of(number, scratch)?;
    Ok(Edit::of(by, reference, site, what))
}

/// The reference of a number.
fn reference_of(number: u32, scratch: &mut Text) -> Result<Ref, NoMemory>
    ensures { IfOk result (λ reference. reference ≡ reference_of number) }
{
    scratch.truncate(0);
    scratch.push_slice(b"t-")?;
    scratch.push_number(u64::from(number))?;
    Ok(Ref::new(scratch.as_slice()).unwrap())
}
