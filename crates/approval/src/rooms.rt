//! Room for an edit, made before it is journaled, so that its acceptance takes no memory.

ghost use Rattle.std.specs.Prelude.{◌≡◌, ℤ, ◌≤ℤ◌, IsSome, OnOk};
ghost use Rattle.approval.specs.Kept.{HasRoom, HasSpanRoom, kept_of, standing_in};
ghost use Rattle.fixed_units.specs.Quantities.{SiteNumber};

use crate::sites::SiteStandings;
use crate::statuses::Statuses;
use edits::{Decision, Edit, What};
use fixed_units::{Day, NoMemory, Site};
use rising::{place_in, put_in};

impl Statuses {
    /// Makes room for an edit. The standing of every day is as before, also after `NoMemory`.
    ///
    /// # Errors
    ///
    /// [`NoMemory`] where there was no memory for the days that it puts in review or approves.
    pub fn prepare(&mut self, edit: &Edit) -> Result<(), NoMemory>
        ensures standings { (site : SiteNumber) (day : ℤ) → standing_in self.new site day ≡ standing_in self.old site day }
        ensures room { OnOk result (HasRoom self.new edit.now) }
    {
        match &edit.what {
            What::Review { from, to } => self.make_room(edit.site, *from, *to),
            What::Decide { from, to, decision } => match decision {
                Decision::Approve => self.make_room(edit.site, *from, *to),
                Decision::Rescind => Ok(()),
            },
            _ => Ok(()),
        }
    }

    /// Makes room for the days of a site from one to another.
    fn make_room(&mut self, site: Site, from: Day, to: Day) -> Result<(), NoMemory>
        requires { from ≤ℤ to }
        ensures standings { (other : SiteNumber) (day : ℤ) → standing_in self.new other day ≡ standing_in self.old other day }
        ensures room { OnOk result (HasSpanRoom (kept_of self.new site) from to) }
    {
        self.keep_site(site)?;
        let Some(place) = place_in(self.sites.as_slice(), site) else {
            unreachable!();
        };
        self.sites[place].make_room(from, to)
    }

    /// Keeps a site, of which no day has a standing if it was not kept before.
    fn keep_site(&mut self, site: Site) -> Result<(), NoMemory>
        ensures standings { (other : SiteNumber) (day : ℤ) → standing_in self.new other day ≡ standing_in self.old other day }
        ensures kept { OnOk result (IsSome (kept_of self.new site)) }
    {
        match place_in(self.sites.as_slice(), site) {
            Some(_) => Ok(()),
            None => {
                self.sites.reserve(1)?;
                put_in(&mut self.sites, SiteStandings::new(self.alloc, site));
                Ok(())
            }
        }
    }
}
