//! Jobs that compute a day's value, and what becomes of their publication.

ghost use Rattle.std.specs.Prelude.{◌≡◌, ◌+◌};
ghost use Rattle.day_inputs.specs.DayInputs.{AreInputs};
ghost use Rattle.daily_values.specs.DayValue.{day_value};

use chronicle::Steps;
use daily_values::{DayValue, compute};
use day_inputs::DayInputs;
use fixed_units::{Day, Site};
use std::marker::Model;
use std::sync::ledger::Ledger;

/// A day to compute, with the edit that it awaited and the inputs that were in force when the job was made.
#[derive(Drop)]
pub struct Job {
    site: Site,
    day: Day,
    awaits: u64,
    inputs: DayInputs,
}

impl Model for Job {
    ghost use Rattle.recompute.specs.Jobs.{DayJob};
    ghost use Rattle.day_inputs.specs.DayInputs.{AreInputs};

    ghost Value = { DayJob };

    ghost view = { λ j. record { site = j.site; day = j.day; awaits = j.awaits; inputs = j.inputs } };

    ghost invariant = { λ j. AreInputs j.inputs };
}

/// A job with the value that its inputs have.
#[derive(Drop)]
pub struct Done {
    job: Job,
    value: DayValue,
}

impl Model for Done {
    ghost use Rattle.std.specs.Prelude.{◌≡◌};
    ghost use Rattle.recompute.specs.Jobs.{DoneJob};
    ghost use Rattle.daily_values.specs.DayValue.{day_value};

    ghost Value = { DoneJob };

    ghost view = { λ d. record { job = d.job; value = d.value } };

    ghost invariant = { λ d. d.value ≡ day_value d.job.inputs };
}

/// What became of a publication.
#[derive(Clone, Copy, Debug, PartialEq, Eq)]
pub enum Publish {
    /// The day awaits nothing. Nothing was changed.
    Settled,
    /// The day awaits this edit, another than the job's. Nothing was changed.
    Superseded(u64),
    /// The inputs are not those in force. Nothing was changed.
    Foreign,
    /// The value is that of the day, which awaits nothing.
    Published,
}

impl Job {
    /// The job of a day with its inputs.
    pub(crate) fn new(site: Site, day: Day, awaits: u64, inputs: DayInputs) -> Job
        requires { AreInputs inputs }
        ensures { result ≡ record { site = site; day = day; awaits = awaits; inputs = inputs } }
    {
        Job {
            site,
            day,
            awaits,
            inputs,
        }
    }

    /// The station.
    pub fn site(&self) -> Site
        ensures { result ≡ self.now.site }
    {
        self.site
    }

    /// The day.
    pub fn day(&self) -> Day
        ensures { result ≡ self.now.day }
    {
        self.day
    }

    /// The number of the edit that the day awaited, from 1 on.
    pub fn awaits(&self) -> u64
        ensures { result ≡ self.now.awaits }
    {
        self.awaits
    }

    /// The inputs of the day.
    pub fn inputs(&self) -> &DayInputs
        ensures inputs { result.now ≡ self.now.inputs }
        ensures kept { AreInputs self.now.inputs }
    {
        &self.inputs
    }

    /// Computes the value: one step, and no memory.
    pub fn compute<L: Ledger>(self, steps: &mut Steps<L>) -> Done
        ensures job { result.job ≡ self }
        ensures value { result.value ≡ day_value self.inputs }
        ensures step { steps.new ≡ steps.old + 1 }
    {
        let value = compute(self.inputs(), steps);
        Done { job: self, value }
    }
}

impl Done {
    /// The job.
    pub fn job(&self) -> &Job
        ensures { result.now ≡ self.now.job }
    {
        &self.job
    }

    /// The value that the job's inputs have.
    pub fn value(&self) -> &DayValue
        ensures value { result.now ≡ self.now.value }
        ensures computed { self.now.value ≡ day_value self.now.job.inputs }
    {
        &self.value
    }
}
