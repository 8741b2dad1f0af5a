//! Pending days computed: claims, looks, publications, turns and a settlement.

ghost use Rattle.std.specs.Prelude.{◌≡◌, ◌≢◌, ◌<◌, ◌+◌, ℕ, ℤ, ◌∷◌, ◌++◌, [], true, false, if◌then◌else◌, length, option_map, Ok, None, IfOk, IfSome, OnOk, OnErr};
ghost use Rattle.fixed_units.specs.Quantities.{SiteNumber, IsDay, IsSite};
ghost use Rattle.history.specs.After.{after_publication, after_publications, after_settlement, after_turn, next_day};
ghost use Rattle.history.specs.Awaited.{is_day_of, pending_days};
ghost use Rattle.history.specs.Events.{Published};
ghost use Rattle.register.specs.Asked.{as_pair, day_of, job_at, next_after, outcome_at};
ghost use Rattle.register.specs.Registered.{IsSettledTo, KeepsClaims, TakesClaim, EndsClaim, first_unclaimed, is_out};

use crate::registers::Register;
use chronicle::{Chronicle, Steps};
use fixed_units::{Day, NoMemory, Site};
use history::Recorded;
use office_inputs::stations_keep_to_their_ranges;
use recompute::{Done, Job, Publish, pending_days_stand_by_site};
use std::marker::Brand;
use std::sync::ledger::{Blank, Ledger};

impl Register {
    /// The job of the first pending day by site, then day, whose claim is not out; its claim is out from then on. `None` exactly where
    /// there is none. After `NoMemory` all is as before.
    pub fn claim(&mut self) -> Result<Option<Job>, NoMemory>
        ensures job { IfOk result (λ job. job ≡ option_map (job_at self.old.history.events) (first_unclaimed self.old)) }
        ensures history { self.new.history ≡ self.old.history }
        ensures claims { IfOk result (λ job. IfSome job (TakesClaim self.old self.new)) }
        ensures none { result ≡ Ok None → self.new ≡ self.old }
        ensures err { OnErr result (self.new ≡ self.old) }
    {
        stations_keep_to_their_ranges(&self.inputs);
        pending_days_stand_by_site(&self.cells);
        let job = self.cells.claim(&self.inputs)?;
        job_is_of_a_site(&job);
        Ok(job)
    }

    /// The job of the first pending day after `last` by site, then day, or of all, whether its claim is out or not. `None` exactly
    /// where there is none. `last` need not be pending, nor kept.
    pub fn after(&self, last: Option<(Site, Day)>) -> Result<Option<Job>, NoMemory>
        ensures { IfOk result (λ job. job ≡ option_map (job_at self.now.history.events) (next_after last (pending_days self.now.history.events))) }
    {
        stations_keep_to_their_ranges(&self.inputs);
        pending_days_stand_by_site(&self.cells);
        let job = self.cells.after(&self.inputs, last)?;
        job_is_of_a_site(&job);
        Ok(job)
    }

    /// Publishes a value where its day still awaits the job's edit; its claim is then no longer out. It takes no memory.
    pub fn publish(&mut self, done: Done) -> Publish
        ensures outcome { result ≡ outcome_at self.old.history.events done.job }
        ensures published { result ≡ Publish.Published → self.new.history ≡ after_publications self.old.history (day_of done.job ∷ []) }
        ensures claims { result ≡ Publish.Published → EndsClaim self.old self.new done.job }
        ensures others { result ≢ Publish.Published → self.new ≡ self.old }
    {
        let site = done.job().site();
        let day = done.job().day();
        day_is_in_range(day);
        stations_keep_to_their_ranges(&self.inputs);
        pending_days_stand_by_site(&self.cells);
        let told = self.cells.publish(done, &self.inputs);
        pending_days_stand_by_site(&self.cells);
        let Publish::Published = told else {
            return told;
        };
        self.events += 1;
        record_publication(&mut self.past, site, day);
        Publish::Published
    }

    /// Computes and publishes the first pending day by site, then day, whose claim is not out, and tells it. `None` exactly where there
    /// is none. After `NoMemory` all is as before.
    pub fn turn(&mut self) -> Result<Option<(Site, Day)>, NoMemory>
        ensures day { IfOk result (λ day. day ≡ option_map as_pair (first_unclaimed self.old)) }
        ensures history { IfOk result (λ day. self.new.history ≡ after_publication self.old.history (first_unclaimed self.old)) }
        ensures fewer { IfOk result (λ day. IfSome day (λ d. length (pending_days self.new.history.events) + 1 ≡ length (pending_days self.old.history.events))) }
        ensures claims { KeepsClaims self.old self.new }
        ensures err { OnErr result (self.new ≡ self.old) }
    {
        self.turn_counted::<Brand>(Blank::new(1))
    }

    /// Computes and publishes every pending day in order, and tells how many there were. After `NoMemory` the days published so far,
    /// the first ones, stay published.
    pub fn settle(&mut self) -> Result<u64, NoMemory>
        ensures count { IfOk result (λ count. count ≡ length (pending_days self.old.history.events)) }
        ensures history { IfOk result (λ count. self.new.history ≡ after_settlement self.old.history) }
        ensures none { IfOk result (λ count. pending_days self.new.history.events ≡ []) }
        ensures settled { IfOk result (IsSettledTo self.old self.new) }
        ensures partly { OnErr result ((count : ℕ) × (count < length (pending_days self.old.history.events)) × IsSettledTo self.old self.new count) }
    {
        self.settle_counted::<Brand>(Blank::new(1))
    }

    /// Publishes a value of which it is known that its day awaits the job's edit, on the inputs in force. It takes no memory.
    fn publish_due(&mut self, done: Done)
        requires { outcome_at self.old.history.events done.job ≡ Publish.Published }
        ensures published { self.new.history ≡ after_publications self.old.history (day_of done.job ∷ []) }
        ensures claims { EndsClaim self.old self.new done.job }
        ensures pending { length (pending_days self.new.history.events) + 1 ≡ length (pending_days self.old.history.events) }
    {
        let site = done.job().site();
        let day = done.job().day();
        day_is_in_range(day);
        stations_keep_to_their_ranges(&self.inputs);
        pending_days_stand_by_site(&self.cells);
        self.cells.publish_due(done);
        pending_days_stand_by_site(&self.cells);
        self.events += 1;
        record_publication(&mut self.past, site, day);
    }

    /// The same as a turn, with a counter that nobody reads.
    fn turn_counted<L: Ledger>(&mut self, blank: Blank) -> Result<Option<(Site, Day)>, NoMemory>
        requires name { blank.name ≡ L.name }
        requires parts { blank.parts ≡ L.parts }
        requires some { 0 < blank.parts }
        ensures day { IfOk result (λ day. day ≡ option_map as_pair (first_unclaimed self.old)) }
        ensures history { IfOk result (λ day. self.new.history ≡ after_publication self.old.history (first_unclaimed self.old)) }
        ensures fewer { IfOk result (λ day. IfSome day (λ d. length (pending_days self.new.history.events) + 1 ≡ length (pending_days self.old.history.events))) }
        ensures claims { KeepsClaims self.old self.new }
        ensures err { OnErr result (self.new ≡ self.old) }
    {
        let Some(job) = self.claim()? else {
            return Ok(None);
        };
        let mut steps = Steps::<L>::new(blank);
        let day = (job.site(), job.day());
        self.publish_due(job.compute(&mut steps));
        Ok(Some(day))
    }

    /// The same as a settlement, with a counter that nobody reads.
    fn settle_counted<L: Ledger>(&mut self, blank: Blank) -> Result<u64, NoMemory>
        requires name { blank.name ≡ L.name }
        requires parts { blank.parts ≡ L.parts }
        requires some { 0 < blank.parts }
        ensures count { IfOk result (λ count. count ≡ length (pending_days self.old.history.events)) }
        ensures history { IfOk result (λ count. self.new.history ≡ after_settlement self.old.history) }
        ensures none { IfOk result (λ count. pending_days self.new.history.events ≡ []) }
        ensures settled { IfOk result (IsSettledTo self.old self.new) }
        ensures partly { OnErr result ((count : ℕ) × (count < length (pending_days self.old.history.events)) × IsSettledTo self.old self.new count) }
    {
        let mut steps = Steps::<L>::new(blank);
        let count = self.pending();
        for _ in 0..count {
            self.publish_next(&mut steps)?;
        }
        Ok(count)
    }

    /// Computes and publishes the first pending day by site, then day, whether its claim is out or not, if there is one. After
    /// `NoMemory` all is as before.
    fn publish_next<L: Ledger>(&mut self, steps: &mut Steps<L>) -> Result<(), NoMemory>
        ensures history { OnOk result (self.new.history ≡ after_turn self.old.history) }
        ensures claims { OnOk result (IfSome (next_day self.old.history) (λ d. (site : SiteNumber) (day : ℤ) → is_out self.new site day ≡ (if is_day_of d.site d.day site day then false else is_out self.old site day))) }
        ensures pending { OnOk result (IfSome (next_day self.old.history) (λ d. length (pending_days self.new.history.events) + 1 ≡ length (pending_days self.old.history.events))) }
        ensures err { OnErr result (self.new ≡ self.old) }
    {
        if let Some(job) = self.after(None)? {
            self.publish_due(job.compute(steps));
        }
        Ok(())
    }
}

/// A job is of a site in range.
fn job_is_of_a_site(job: &Option<Job>)
    ensures { IfSome job.now (λ j. IsSite j.site) }
{
    if let Some(job) = job {
        let _ = job.site().digits();
    }
}

/// A day is one of the calendar.
fn day_is_in_range(day: Day)
    ensures { IsDay day }
{
    let _ = day.get();
}

/// Records a publication.
fn record_publication(past: &mut Chronicle<Recorded>, site: Site, day: Day)
    ensures { past.new ≡ past.old ++ Published site day ∷ [] }
{
    past.record(&Recorded::published(site, day));
}
