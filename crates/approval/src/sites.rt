//! The standings of the days of one site.

ghost use Rattle.std.specs.Prelude.{◌≡◌, ◌≤◌, ℤ, ◌<ℤ◌, ◌≤ℤ◌, [], AllPairs, OnOk, Some};
ghost use Rattle.std.specs.List.{list_any};
ghost use Rattle.std.specs.Ordering.{int_eq};
ghost use Rattle.approval.specs.Kept.{HasRoomFor, day_place, span_length, standing_at};
ghost use Rattle.approval.specs.Statuses.{after_what};
ghost use Rattle.edits.specs.Lawful.{IsLawful};
ghost use Rattle.rising.specs.Lists.{IsRising};

use crate::changed::take_changed;
use crate::days::DayStanding;
use crate::spans::{put_span, span_length, take_span};
use crate::status::Status;
use edits::{By, Decision, What};
use fixed_units::{Day, NoMemory, Site};
use rising::Keyed;
use std::alloc::Global;
use std::marker::Model;

/// The standings of the days of a site that are in review or approved, rising by day. Contracts see the list, and for how many more
/// there is room beside it.
#[derive(Drop)]
pub struct SiteStandings {
    site: Site,
    days: Vec<DayStanding>,
}

impl Model for SiteStandings {
    ghost use Rattle.std.specs.Prelude.{◌-◌, vec_len, vec_capacity};
    ghost use Rattle.approval.specs.Kept.{KeptSite, day_place};
    ghost use Rattle.rising.specs.Lists.{IsRising};

    ghost Value = { KeptSite };

    ghost view = { λ s. record { site = s.site; days = s.days.items; spare = vec_capacity s.days - vec_len s.days } };

    ghost invariant = { λ s. IsRising day_place s.days.items };
}

impl Keyed for SiteStandings {
    ghost use Rattle.fixed_units.specs.Quantities.{site_place};

    type Key = Site;

    ghost place = { λ s. site_place s.site };

    ghost number = { λ site. site_place site };

    fn key(&self) -> Site {
        self.site
    }

    fn is_before(&self, key: Site) -> bool {
        self.site.is_before(key)
    }

    fn is_at(&self, key: Site) -> bool {
        self.site.is_at(key)
    }
}

impl SiteStandings {
    /// A site of which the record of every day is being worked, which takes no memory.
    pub(crate) fn new(alloc: Global, site: Site) -> SiteStandings
        ensures site { result.site ≡ site }
        ensures days { result.days ≡ [] }
    {
        SiteStandings {
            site,
            days: Vec::new(alloc),
        }
    }

    /// The standings, rising by day.
    pub(crate) fn days(&self) -> &[DayStanding]
        ensures days { result.now ≡ self.now.days }
        ensures rising { IsRising day_place self.now.days }
    {
        self.days.as_slice()
    }

    /// Makes room for the days from one to another.
    pub(crate) fn make_room(&mut self, from: Day, to: Day) -> Result<(), NoMemory>
        requires { from ≤ℤ to }
        ensures site { self.new.site ≡ self.old.site }
        ensures days { self.new.days ≡ self.old.days }
        ensures room { OnOk result (span_length from to ≤ self.new.spare) }
    {
        self.days.reserve(span_length(from, to))?;
        Ok(())
    }

    /// Makes of the days what an accepted edit does. There is room for it, so it takes no memory.
    pub(crate) fn apply(&mut self, number: u64, by: &By, what: &What, changed: &[Day])
        requires lawful { IsLawful what.now }
        requires room { HasRoomFor (Some self.old) what.now }
        requires rising { AllPairs (λ a b. a <ℤ b) changed.now }
        ensures site { self.new.site ≡ self.old.site }
        ensures standings { (day : ℤ) → standing_at self.new.days day ≡ after_what number by.now what.now (list_any (λ d. int_eq d day) changed.now) day (standing_at self.old.days day) }
    {
        match what {
            What::Review { from, to } => {
                put_span(
                    &mut self.days,
                    *from,
                    *to,
                    &Status::InReview(by.copy()),
                    number,
                );
            }
            What::Decide { from, to, decision } => match decision {
                Decision::Approve => {
                    put_span(
                        &mut self.days,
                        *from,
                        *to,
                        &Status::Approved(by.copy()),
                        number,
                    );
                }
                Decision::Rescind => take_span(&mut self.days, *from, *to),
            },
            _ => take_changed(&mut self.days, changed),
        }
    }
}
