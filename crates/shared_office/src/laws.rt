//! What holds of the jobs of every shared office.

ghost use Rattle.std.specs.Prelude.{◌≡◌, List, Option, Some, option_map, ℤ};
ghost use mathlib.Core.List.{IsPrefix};
ghost use Rattle.fixed_units.specs.Quantities.{SiteNumber};
ghost use Rattle.history.specs.Awaited.{pending_days};
ghost use Rattle.office.specs.Steps.{APublication, Gives};
ghost use Rattle.recompute.specs.Jobs.{DayJob};
ghost use Rattle.recompute.specs.declared.jobs.Publish.{Publish};
ghost use Rattle.register.specs.Asked.{job_at, next_after, outcome_at};
ghost use Rattle.shared_office.specs.Entries.{history_of};
ghost use Rattle.shared_office.specs.Finding.{ComesOutAsAwaited};
ghost use Rattle.shared_office.specs.Holdings.{Holding};
ghost use Rattle.shared_office.specs.Passing.{history_in};
ghost use Rattle.shared_office.specs.Working.{IsTask};
ghost use Rattle.shared_office.specs.declared.entries.Entry.{Entry};
ghost use Rattle.shared_office.specs.declared.entries.Fixed.{Fixed};

use crate::shared::Shared;
use devices::Disk;
use turnstile::Turnstile;

/// A job that was found by a look at a list is published at any list that goes on from it, whatever came between and whoever did it,
/// exactly where its day still awaits then the edit that the job awaits.
pub fn a_job_that_was_looked_for_is_published_where_awaited()
    ensures { (fixed : Fixed) (last : Option (SiteNumber × ℤ)) (at later : List Entry) (job : DayJob)
        → Some job ≡ option_map (job_at (history_of fixed at).events) (next_after last (pending_days (history_of fixed at).events)) → IsPrefix at later
        → ComesOutAsAwaited (history_of fixed later) job (outcome_at (history_of fixed later).events job) }
{}

/// A job that a worker was given in one holding, by a claim or a look, and that it or another one publishes in a later one, comes out as
/// published exactly where its day still awaits in that holding the edit that the job awaits.
pub fn given_jobs_are_published_where_awaited<D: Disk>(lock: &Turnstile<Shared<D>>)
    ensures { (given published : Holding (List Entry)) (task : IsTask lock.now given) (later : IsTask lock.now published) (job : DayJob) (outcome : Publish)
        → Gives task.step job → later.step ≡ APublication job outcome → IsPrefix given.to published.from
        → ComesOutAsAwaited (history_in lock.now published.from) job outcome }
{
    let _ = lock;
}
