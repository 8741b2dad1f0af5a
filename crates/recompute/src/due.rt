//! What is due: jobs for pending days, and the publication of their values.

ghost use Rattle.std.specs.Prelude.{◌≡◌, ◌≢◌, not, None, Some, Ok, find, slice_get, option_map, IfOk, IfSome, OnErr};
ghost use Rattle.daily_values.specs.DayValue.{day_value};
ghost use Rattle.office_inputs.specs.Kept.{in_force};
ghost use Rattle.office_inputs.specs.Stations.{inputs_of_day};
ghost use Rattle.recompute.specs.Cells.{TakesOut, Publishes, awaited_in, waiting, is_behind};
ghost use Rattle.recompute.specs.Jobs.{IsTrueJob, job_of, outcome_of};

use crate::cells::Cells;
use crate::jobs::{Done, Job, Publish};
use day_cells::Waiting;
use fixed_units::{Day, NoMemory, Site};
use office_inputs::Inputs;

impl Cells {
    /// The job of the first pending day by site, then day, whose claim is not out; its claim is then out. `None` exactly
    /// where there is none. After `NoMemory` the cells are as before.
    pub fn claim(&mut self, inputs: &Inputs) -> Result<Option<Job>, NoMemory>
        ensures job { IfOk result (λ job. job ≡ option_map (job_of (in_force inputs.now)) (find (λ w. not w.out) (waiting self.old))) }
        ensures awaits { IfOk result (λ job. IfSome job (λ j. awaited_in self.old j.site j.day ≡ Some j.awaits)) }
        ensures told { IfOk result (λ job. IfSome job (IsTrueJob self.new (in_force inputs.now))) }
        ensures claimed { IfOk result (λ job. IfSome job (λ j. TakesOut self.old self.new j.site j.day)) }
        ensures none { result ≡ Ok None → self.new ≡ self.old }
        ensures err { OnErr result (self.new ≡ self.old) }
    {
        let Some(waiting) = self.first_unclaimed() else {
            return Ok(None);
        };
        let job = make_job(inputs, &waiting)?;
        self.take_out(waiting.site, waiting.day);
        Ok(Some(job))
    }

    /// The job of the first pending day after `last` by site, then day, or of all, whether its claim is out or not.
    /// `None` exactly where there is none. `last` need not be pending, nor kept.
    pub fn after(&self, inputs: &Inputs, last: Option<(Site, Day)>) -> Result<Option<Job>, NoMemory>
        ensures first { last ≡ None → IfOk result (λ job. job ≡ option_map (job_of (in_force inputs.now)) (slice_get (waiting self.now) 0)) }
        ensures behind { IfSome last (λ l. IfOk result (λ job. job ≡ option_map (job_of (in_force inputs.now)) (find (is_behind l.0 l.1) (waiting self.now)))) }
        ensures awaits { IfOk result (λ job. IfSome job (λ j. awaited_in self.now j.site j.day ≡ Some j.awaits)) }
        ensures told { IfOk result (λ job. IfSome job (IsTrueJob self.now (in_force inputs.now))) }
    {
        let found = match last {
            Some((site, day)) => self.first_after(site, day),
            None => self.first(),
        };
        let Some(waiting) = found else {
            return Ok(None);
        };
        Ok(Some(make_job(inputs, &waiting)?))
    }

    /// Publishes a value, where the day still awaits the job's edit and the inputs are those in force. It takes no memory.
    pub fn publish(&mut self, done: Done, inputs: &Inputs) -> Publish
        ensures outcome { result ≡ outcome_of self.old (in_force inputs.now) done.job }
        ensures published { result ≡ Publish.Published → Publishes self.old self.new done.job.site done.job.day done.value }
        ensures value { result ≡ Publish.Published → done.value ≡ day_value (inputs_of_day (in_force inputs.now) done.job.site done.job.day) }
        ensures others { result ≢ Publish.Published → self.new ≡ self.old }
    {
        let outcome = self.outcome(done.job(), inputs);
        if let Publish::Published = outcome {
            self.publish_due(done);
        }
        outcome
    }

    /// What becomes of a job's publication.
    fn outcome(&self, job: &Job, inputs: &Inputs) -> Publish
        ensures outcome { result ≡ outcome_of self.now (in_force inputs.now) job.now }
        ensures awaits { result ≡ Publish.Published → awaited_in self.now job.now.site job.now.day ≡ Some job.now.awaits }
        ensures inputs { result ≡ Publish.Published → job.now.inputs ≡ inputs_of_day (in_force inputs.now) job.now.site job.now.day }
    {
        let site = job.site();
        let day = job.day();
        let Some(edit) = self.awaited(site, day) else {
            return Publish::Settled;
        };
        if edit != job.awaits() {
            return Publish::Superseded(edit);
        }
        if !inputs.is_day_inputs(site, day, job.inputs()) {
            return Publish::Foreign;
        }
        Publish::Published
    }

    /// Publishes the value of a job whose day still awaits its edit. Whether its inputs are those in force is not asked. It takes no
    /// memory.
    pub fn publish_due(&mut self, done: Done)
        requires { awaited_in self.old done.job.site done.job.day ≡ Some done.job.awaits }
        ensures published { Publishes self.old self.new done.job.site done.job.day done.value }
        ensures value { done.value ≡ day_value done.job.inputs }
    {
        let job = done.job();
        self.put_value(job.site(), job.day(), *done.value());
    }
}

/// The job of a pending day, on the inputs in force.
fn make_job(inputs: &Inputs, waiting: &Waiting) -> Result<Job, NoMemory>
    ensures { IfOk result (λ job. job ≡ job_of (in_force inputs.now) waiting.now) }
{
    let of_day = inputs.day_inputs(waiting.site, waiting.day)?;
    Ok(Job::new(waiting.site, waiting.day, waiting.awaits, of_day))
}
