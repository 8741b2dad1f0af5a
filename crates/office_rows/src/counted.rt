//! Calls that count their steps, with a counter that nobody reads.

ghost use Rattle.std.specs.Prelude.{◌≡◌, ◌<◌, ◌<ℤ◌, None, AllPairs, IfOk};
ghost use Rattle.office_inputs.specs.Kept.{in_force};
ghost use Rattle.office_inputs.specs.Refusals.{refusal_of};

use chronicle::Steps;
use depend::{DayList, reach};
use edits::Edit;
use fixed_units::{Day, NoMemory};
use office_inputs::Inputs;
use recompute::{Done, Job};
use std::alloc::Global;
use std::marker::Brand;
use std::sync::ledger::{Blank, Ledger};

/// The days that an edit changes.
pub fn reached(alloc: Global, inputs: &Inputs, edit: &Edit) -> Result<DayList, NoMemory>
    requires { refusal_of inputs.now.limits (in_force inputs.now) edit.now ≡ None }
    ensures { IfOk result (λ days. AllPairs (λ a b. a <ℤ b) days) }
{
    reached_counted::<Brand>(alloc, inputs, edit, Blank::new(1))
}

fn reached_counted<L: Ledger>(
    alloc: Global,
    inputs: &Inputs,
    edit: &Edit,
    blank: Blank,
) -> Result<DayList, NoMemory>
    requires refusal { refusal_of inputs.now.limits (in_force inputs.now) edit.now ≡ None }
    requires name { blank.name ≡ L.name }
    requires parts { blank.parts ≡ L.parts }
    requires some { 0 < blank.parts }
    ensures { IfOk result (λ days. AllPairs (λ a b. a <ℤ b) days) }
{
    let mut steps = Steps::<L>::new(blank);
    reach(alloc, inputs, edit, &mut steps)
}

/// Whether an edit keeps the inputs of a day.
pub fn is_kept(inputs: &Inputs, edit: &Edit, day: Day) -> bool
    requires { refusal_of inputs.now.limits (in_force inputs.now) edit.now ≡ None }
{
    is_kept_counted::<Brand>(inputs, edit, day, Blank::new(1))
}

fn is_kept_counted<L: Ledger>(inputs: &Inputs, edit: &Edit, day: Day, blank: Blank) -> bool
    requires refusal { refusal_of inputs.now.limits (in_force inputs.now) edit.now ≡ None }
    requires name { blank.name ≡ L.name }
    requires parts { blank.parts ≡ L.parts }
    requires some { 0 < blank.parts }
{
    let mut steps = Steps::<L>::new(blank);
    inputs.same_day_inputs(edit, day, &mut steps)
}

/// The job with its value.
pub fn computed(job: Job) -> Done {
    computed_counted::<Brand>(job, Blank::new(1))
}

fn computed_counted<L: Ledger>(job: Job, blank: Blank) -> Done
    requires name { blank.name ≡ L.name }
    requires parts { blank.parts ≡ L.parts }
    requires some { 0 < blank.parts }
{
    let mut steps = Steps::<L>::new(blank);
    job.compute(&mut steps)
}
