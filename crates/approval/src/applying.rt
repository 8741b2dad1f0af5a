//! The acceptance of an edit: what becomes of the days' standings.

ghost use Rattle.std.specs.Prelude.{◌≡◌, ℤ, ◌<ℤ◌, AllPairs};
ghost use Rattle.std.specs.List.{list_any};
ghost use Rattle.std.specs.Ordering.{int_eq};
ghost use Rattle.approval.specs.Kept.{HasRoom, standing_in};
ghost use Rattle.approval.specs.Statuses.{standing_after};
ghost use Rattle.fixed_units.specs.Quantities.{SiteNumber};

use crate::statuses::Statuses;
use edits::Edit;
use fixed_units::Day;
use rising::place_in;

impl Statuses {
    /// Accepts an edit of a number, for which room is made, and which changes these days of its site. It takes no memory.
    pub fn apply(&mut self, number: u64, edit: &Edit, changed: &[Day])
        requires room { HasRoom self.old edit.now }
        requires rising { AllPairs (λ a b. a <ℤ b) changed.now }
        ensures { (site : SiteNumber) (day : ℤ) → standing_in self.new site day ≡ standing_after number edit.now (list_any (λ d. int_eq d day) changed.now) site day (standing_in self.old site day) }
    {
        if let Some(place) = place_in(self.sites.as_slice(), edit.site) {
            self.sites[place].apply(number, &edit.by, &edit.what, changed);
        }
    }
}
