//! The order of sites as that of whole numbers.

ghost use Rattle.std.specs.Prelude.{◌≡◌, pos};
ghost use Rattle.std.specs.Ordering.{int_cmp};
ghost use Rattle.fixed_units.specs.Quantities.{IsSite, site_order, site_place};

use fixed_units::Site;

/// More than any value of the digits of a site.
const STEP: u64 = 1_000_000_000_000_000;

/// The rank of a site in the order of sites.
pub fn rank(site: Site) -> u64
    ensures { pos result ≡ site_place site }
{
    u64::from(site.digits()) * STEP + site.value()
}
