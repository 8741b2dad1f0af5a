//! A job computed while nobody holds the office.

ghost use Rattle.std.specs.Prelude.{◌≡◌, ◌<◌};

use chronicle::Steps;
use recompute::{Done, Job};
use std::marker::Brand;
use std::sync::ledger::{Blank, Ledger};

/// Computes a day, as [`Job::compute`] does, with a counter that nobody reads.
pub fn compute(job: Job) -> Done
    ensures { result.job ≡ job }
{
    compute_counted::<Brand>(job, Blank::new(1))
}

/// The same, over the ledger of a counter.
fn compute_counted<L: Ledger>(job: Job, blank: Blank) -> Done
    requires name { blank.name ≡ L.name }
    requires parts { blank.parts ≡ L.parts }
    requires some { 0 < blank.parts }
    ensures { result.job ≡ job }
{
    let mut steps = Steps::<L>::new(blank);
    job.compute(&mut steps)
}
