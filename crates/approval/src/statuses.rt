//! How far the record of each day of all sites is approved.

ghost use Rattle.std.specs.Prelude.{◌≡◌, ℤ, ◌≤ℤ◌};
ghost use Rattle.approval.specs.Kept.{approval_of, day_place, days_of, kept_of, standing_at, standing_in};
ghost use Rattle.approval.specs.Statuses.{approved_days, first_approved, objection_of, worked};
ghost use Rattle.edits.specs.declared.content.What.TheVariants.{Decide};
ghost use Rattle.edits.specs.declared.decisions.Decision.TheVariants.{Approve};
ghost use Rattle.fixed_units.specs.Quantities.{SiteNumber};
ghost use Rattle.rising.specs.Lists.{IsRising};

use crate::day_lists::{count_approved, first_in_span, first_of_days, standing_on};
use crate::days::DayStanding;
use crate::objections::Objection;
use crate::questions::Question;
use crate::sites::SiteStandings;
use crate::status::Status;
use edits::{By, Decision, Edit, What};
use fixed_units::{Day, Site};
use rising::place_in;
use std::alloc::Global;
use std::marker::Model;

/// How far the record of each day is approved: of the days in review and of those approved it keeps by whom, and by which edit; of every
/// other day of every site, kept or not, the record is being worked. Contracts see what is kept, and read it by `standing_in` alone.
#[derive(Drop)]
pub struct Statuses {
    pub(crate) alloc: Global,
    pub(crate) sites: Vec<SiteStandings>,
}

impl Model for Statuses {
    ghost use Rattle.std.specs.Prelude.{List};
    ghost use Rattle.approval.specs.Kept.{KeptSite, kept_place};
    ghost use Rattle.rising.specs.Lists.{IsRising};

    ghost Value = { List KeptSite };

    ghost view = { λ s. s.sites.items };

    ghost invariant = { λ s. IsRising kept_place s.sites.items };
}

impl Statuses {
    /// The record of every day of every site is being worked. It takes no memory.
    pub fn new(alloc: Global) -> Statuses
        ensures { (site : SiteNumber) (day : ℤ) → standing_in result site day ≡ worked }
    {
        Statuses {
            alloc,
            sites: Vec::new(alloc),
        }
    }

    /// The standings of the days of a site.
    fn days(&self, site: Site) -> &[DayStanding]
        ensures days { result.now ≡ days_of (kept_of self.now site) }
        ensures rising { IsRising day_place result.now }
    {
        match place_in(self.sites.as_slice(), site) {
            Some(place) => self.sites[place].days(),
            None => &[],
        }
    }

    /// How far the record of a day of a site is approved. It takes no memory.
    pub fn status(&self, site: Site, day: Day) -> Status
        ensures { result ≡ (standing_in self.now site day).status }
    {
        match standing_on(self.days(site), day) {
            Some(standing) => standing.status.copy(),
            None => Status::Working,
        }
    }

    /// The number of the accepted edit that approved a day of a site, or `None` exactly where the day is not approved.
    pub fn approving_edit(&self, site: Site, day: Day) -> Option<u64>
        ensures { result ≡ approval_of (standing_in self.now site day) }
    {
        let standing = standing_on(self.days(site), day)?;
        standing.status.is_approved().then_some(standing.edit)
    }

    /// Why a person may not make this edit, or `None` exactly where no day's status stands against it. It takes no memory.
    pub fn objection(&self, edit: &Edit) -> Option<Objection>
        ensures { result ≡ objection_of (λ day. (standing_in self.now edit.now.site day).status) edit.now.by edit.now.what }
    {
        objection_among(self.days(edit.site), edit)
    }

    /// The first of these days of a site that is approved. It takes no memory.
    #[inline(always)]
    pub fn locked(&self, site: Site, days: &[Day]) -> Option<Day>
        ensures { result ≡ first_approved (λ day. (standing_in self.now site day).status) days.now }
    {
        first_of_days(self.days(site), days, Question::IsApproved)
    }

    /// How many days of a site are approved. Only those that are in review or approved are looked at. It takes no memory.
    pub fn approved_days(&self, site: Site) -> u64
        ensures { result ≡ approved_days (λ day. (standing_in self.now site day).status) }
    {
        count_approved(self.days(site))
    }
}

/// Why a person may not make this edit, by the standings of the days of its site.
fn objection_among(list: &[DayStanding], edit: &Edit) -> Option<Objection>
    requires { IsRising day_place list.now }
    ensures { result ≡ objection_of (λ day. (standing_at list.now day).status) edit.now.by edit.now.what }
{
    match &edit.what {
        What::Review { from, to } => {
            first_in_span(list, *from, *to, Question::IsApproved).map(Objection::AlreadyApproved)
        }
        What::Decide { from, to, decision } => match decision {
            Decision::Approve => objection_to_approval(list, *from, *to, &edit.by),
            Decision::Rescind => {
                first_in_span(list, *from, *to, Question::IsNotApproved).map(Objection::NotApproved)
            }
        },
        _ => None,
    }
}

/// Why a person may not approve the days from one to another: one is not in review, or else the approver put one in review.
fn objection_to_approval(list: &[DayStanding], from: Day, to: Day, person: &By) -> Option<Objection>
    requires rising { IsRising day_place list.now }
    requires order { from ≤ℤ to }
    ensures { result ≡ objection_of (λ day. (standing_at list.now day).status) person.now (Decide from to Approve) }
{
    if let Some(day) = first_in_span(list, from, to, Question::IsNotInReview) {
        return Some(Objection::NotInReview(day));
    }
    first_in_span(list, from, to, Question::IsReviewedBy(person)).map(Objection::SamePerson)
}
