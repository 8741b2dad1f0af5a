//! Pending days computed: claims, looks, publications, turns and a settlement. None of them asks the disk.

ghost use Rattle.std.specs.Prelude.{◌≡◌, ◌≢◌, ◌<◌, ◌+◌, ℕ, ◌∷◌, [], length, option_map, Ok, None, IfOk, IfSome, OnErr};
ghost use Rattle.history.specs.After.{after_publication, after_publications, after_settlement};
ghost use Rattle.history.specs.Awaited.{pending_days};
ghost use Rattle.office.specs.Steps.{AClaim, ALook, APublication, ASettlement, ATurn, IsStep};
ghost use Rattle.register.specs.Asked.{as_pair, day_of, job_at, next_after, outcome_at};
ghost use Rattle.register.specs.Registered.{IsSettledTo, KeepsClaims, TakesClaim, EndsClaim, first_unclaimed};

use crate::laws::jobs_have_days_of_the_calendar;
use crate::offices::Office;
use devices::Disk;
use fixed_units::{Day, NoMemory, Site};
use recompute::{Done, Job, Publish};

impl<D: Disk> Office<D> {
    /// The job of the first pending day by site, then day, whose claim is not out; its claim is out from then on. `None` exactly where
    /// there is none. After `NoMemory` all is as before.
    pub fn claim(&mut self) -> Result<Option<Job>, NoMemory>
        ensures job { IfOk result (λ job. job ≡ option_map (job_at self.old.register.history.events) (first_unclaimed self.old.register)) }
        ensures history { self.new.register.history ≡ self.old.register.history }
        ensures claims { IfOk result (λ job. IfSome job (TakesClaim self.old.register self.new.register)) }
        ensures none { result ≡ Ok None → self.new ≡ self.old }
        ensures err { OnErr result (self.new ≡ self.old) }
        ensures step { IsStep self.old.register (AClaim result) self.new.register }
        ensures disk { self.new.disk ≡ self.old.disk }
    {
        self.register.claim()
    }

    /// The job of the first pending day after `last` by site, then day, or of all, whether its claim is out or not. `None` exactly
    /// where there is none. `last` need not be pending, nor kept.
    pub fn after(&self, last: Option<(Site, Day)>) -> Result<Option<Job>, NoMemory>
        ensures job { IfOk result (λ job. job ≡ option_map (job_at self.now.register.history.events) (next_after last (pending_days self.now.register.history.events))) }
        ensures step { IsStep self.now.register (ALook last result) self.now.register }
    {
        self.register.after(last)
    }

    /// Publishes a value where its day still awaits the job's edit; its claim is then no longer out. It takes no memory.
    pub fn publish(&mut self, done: Done) -> Publish
        ensures outcome { result ≡ outcome_at self.old.register.history.events done.job }
        ensures published { result ≡ Publish.Published → self.new.register.history ≡ after_publications self.old.register.history (day_of done.job ∷ []) }
        ensures claims { result ≡ Publish.Published → EndsClaim self.old.register self.new.register done.job }
        ensures others { result ≢ Publish.Published → self.new ≡ self.old }
        ensures step { IsStep self.old.register (APublication done.job result) self.new.register }
        ensures disk { self.new.disk ≡ self.old.disk }
    {
        // this runs nothing: it tells the proof that the job's day is one of the calendar
        jobs_have_days_of_the_calendar(&done);
        self.register.publish(done)
    }

    /// Computes and publishes the first pending day by site, then day, whose claim is not out, and tells it. `None` exactly where there
    /// is none. After `NoMemory` all is as before.
    pub fn turn(&mut self) -> Result<Option<(Site, Day)>, NoMemory>
        ensures day { IfOk result (λ day. day ≡ option_map as_pair (first_unclaimed self.old.register)) }
        ensures history { IfOk result (λ day. self.new.register.history ≡ after_publication self.old.register.history (first_unclaimed self.old.register)) }
        ensures fewer { IfOk result (λ day. IfSome day (λ d. length (pending_days self.new.register.history.events) + 1 ≡ length (pending_days self.old.register.history.events))) }
        ensures claims { KeepsClaims self.old.register self.new.register }
        ensures err { OnErr result (self.new ≡ self.old) }
        ensures step { IsStep self.old.register (ATurn result) self.new.register }
        ensures disk { self.new.disk ≡ self.old.disk }
    {
        self.register.turn()
    }

    /// Computes and publishes every pending day in order, and tells how many there were. After `NoMemory` the days published so far,
    /// the first ones, stay published.
    pub fn settle(&mut self) -> Result<u64, NoMemory>
        ensures count { IfOk result (λ count. count ≡ length (pending_days self.old.register.history.events)) }
        ensures history { IfOk result (λ count. self.new.register.history ≡ after_settlement self.old.register.history) }
        ensures none { IfOk result (λ count. pending_days self.new.register.history.events ≡ []) }
        ensures settled { IfOk result (IsSettledTo self.old.register self.new.register) }
        ensures partly { OnErr result ((count : ℕ) × (count < length (pending_days self.old.register.history.events)) × IsSettledTo self.old.register self.new.register count) }
        ensures step { IsStep self.old.register (ASettlement result) self.new.register }
        ensures disk { self.new.disk ≡ self.old.disk }
    {
        self.register.settle()
    }
}
