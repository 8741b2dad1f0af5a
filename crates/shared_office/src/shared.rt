//! An office that is shared, and what is done to it by whoever has it.

ghost use Rattle.std.specs.Prelude.{◌≡◌, ◌↔◌, ◌≤◌, true, List, [], ◌∷◌, ◌++◌, length, None, IsSome, IfOk, IfErr, OnErr};
ghost use Rattle.std.specs.Option.{ForSome};
ghost use Rattle.history.specs.Events.{Event};
ghost use Rattle.office.specs.Counting.{CountsEdit, HasCounted};
ghost use Rattle.office.specs.Edits.{Edits};
ghost use Rattle.office.specs.Steps.{APublication, AnEdit, IsStep, Step};
ghost use Rattle.register.specs.Registered.{first_unclaimed};
ghost use Rattle.shared_office.specs.Entries.{CanEnd, GoOn, entries, fixed_part};
ghost use Rattle.shared_office.specs.Passages.{Passes};
ghost use Rattle.shared_office.specs.Finding.{Finds, FindsBy, IsLooked, published_by};
ghost use Rattle.shared_office.specs.declared.entries.Entry.TheVariants as entry;

use crate::entries::{Entry, Fixed};
use devices::Disk;
use edits::Edit;
use fixed_units::{Day, NoMemory, Site};
use office::laws::an_office_stands_on_its_disk;
use office::{Accepted, Office};
use office_inputs::Refusal;
use recompute::{Done, Job, Publish};
use std::snapshot::Snapshot;
use turnstile::Kept;

/// An office that is shared, and how many events it had when it was told that no further edit will be asked for. Its disk has counted
/// each fault of its history.
#[derive(Drop)]
pub struct Shared<D: Disk> {
    /// The office.
    pub office: Office<D>,
    /// How many events it had when its end was told, or `None` where it was not told yet.
    pub ending: Option<u64>,
    /// The office as it was when it was shared. It takes no bytes.
    pub begun: Snapshot<Office<D>>,
    pub ghost ended: { ForSome ending (λ n. n ≤ length office.register.history.events) },
    pub ghost counted: { HasCounted office.register.history (D.faults office.disk) },
    pub ghost can_end: { CanEnd office.register.history },
    pub ghost passed: { ∥ Passes D.Disk begun.value.register.history office.register.history begun.value.disk office.disk ∥₁ },
}

impl<D: Disk> Kept for Shared<D> {
    type Entry = Entry;

    type Fixed = (Fixed, Office<D>);

    ghost history = { λ s. entries s.office.register.history.events s.ending };

    ghost fixed = { λ s. (fixed_part s.office.register.history, s.begun.value) };

    fn events(&self) -> u64 {
        let count = self.office.events();
        match self.ending {
            Some(_) => count + 1,
            None => count,
        }
    }
}

/// What a worker finds.
#[derive(Drop)]
pub enum Found {
    /// A day to compute.
    Job(Job),
    /// No day for now.
    Nothing,
    /// The end was told, and no day is pending.
    Drained,
}

/// What is told by a look.
#[derive(Drop)]
pub struct Looked {
    /// The job of the first pending day after the last one, or of all.
    pub job: Option<Job>,
    /// How many days are pending.
    pub pending: u64,
}

/// Whether the events of an office, a publication of each pending day and the ending can be counted, whatever is still accepted.
fn can_end<D: Disk>(office: &Office<D>) -> bool
    ensures { result ≡ true ↔ CanEnd office.now.register.history }
{
    office.limits().events < u64::MAX && office.events().saturating_add(office.pending()) < u64::MAX
}

impl<D: Disk> Shared<D> {
    /// The office, shared, with its end not told. It is handed back exactly where its events, a publication of each pending day and the
    /// ending could not be counted by a number of 64 bits, or its limit of events is the greatest such number.
    pub fn new(office: Office<D>) -> Result<Shared<D>, Office<D>>
        requires { HasCounted office.register.history (D.faults office.disk) }
        ensures shared { IfOk result (λ s. (s.office ≡ office) × (s.ending ≡ None) × (s.begun.value ≡ office)) }
        ensures back { IfErr result (λ o. (o ≡ office) × ¬ CanEnd office.register.history) }
    {
        if can_end(&office) {
            // this runs nothing: it tells the proof what a stop leaves before anything was done
            an_office_stands_on_its_disk(&office);
            let begun = Snapshot::of(&office);
            Ok(Shared {
                office,
                ending: None,
                begun,
            })
        } else {
            Err(office)
        }
    }

    /// Keeps an edit in the journal and accepts it, as [`Office::take`] does.
    ///
    /// # Errors
    ///
    /// Those of [`Office::edit`].
    pub fn take(&mut self, edit: Edit) -> Result<Accepted, Refusal>
        ensures edited { Edits self.old.office.register.history edit self.new.office.register.history result }
        ensures step { IsStep self.old.office.register (AnEdit edit result) self.new.office.register }
        ensures list { (added : List Event) × GoOn self.old.office.register.history self.old.ending self.new.office.register.history self.new.ending added }
        ensures counts { CountsEdit (D.faults self.old.office.disk) result (D.faults self.new.office.disk) }
        ensures begun { self.new.begun ≡ self.old.begun }
    {
        self.office.take(edit)
    }

    /// The job of the first pending day after `last`, or of all, as [`Office::after`] gives it, and how many days are pending.
    pub fn look(&self, last: Option<(Site, Day)>) -> Result<Looked, NoMemory>
        ensures { IfOk result (IsLooked self.now.office.register.history last) }
    {
        let job = self.office.after(last)?;
        let pending = self.office.pending();
        Ok(Looked { job, pending })
    }

    /// What there is to do for a worker. The claim of a day that it finds by a claim is out from then on; all others are as before.
    /// Nothing happens to the office; after `NoMemory` all is as before.
    pub fn find(&mut self) -> Result<Found, NoMemory>
        ensures found { IfOk result (Finds self.old.office.register self.old.ending self.new.office.register) }
        ensures step { (step : Step) × FindsBy step result × IsStep self.old.office.register step self.new.office.register }
        ensures list { GoOn self.old.office.register.history self.old.ending self.new.office.register.history self.new.ending [] }
        ensures err { OnErr result (self.new.office ≡ self.old.office) }
        ensures begun { self.new.begun ≡ self.old.begun }
        ensures disk { self.new.office.disk ≡ self.old.office.disk }
    {
        match self.office.claim() {
            Ok(Some(job)) => Ok(Found::Job(job)),
            Ok(None) => self.find_behind_claims(),
            Err(failed) => Err(failed),
        }
    }

    /// What there is to do where the claim of each pending day is out.
    fn find_behind_claims(&self) -> Result<Found, NoMemory>
        requires { first_unclaimed self.now.office.register ≡ None }
        ensures found { IfOk result (Finds self.now.office.register self.now.ending self.now.office.register) }
        ensures step { (step : Step) × FindsBy step result × IsStep self.now.office.register step self.now.office.register }
    {
        let Some(_) = self.ending else {
            return Ok(Found::Nothing);
        };
        match self.office.after(None) {
            Ok(Some(job)) => Ok(Found::Job(job)),
            Ok(None) => Ok(Found::Drained),
            Err(failed) => Err(failed),
        }
    }

    /// Publishes a value where its day still awaits the job's edit. It takes no memory.
    pub fn publish(&mut self, done: Done) -> Publish
        ensures step { IsStep self.old.office.register (APublication done.job result) self.new.office.register }
        ensures list { GoOn self.old.office.register.history self.old.ending self.new.office.register.history self.new.ending (published_by result done.job) }
        ensures disk { self.new.office.disk ≡ self.old.office.disk }
        ensures begun { self.new.begun ≡ self.old.begun }
    {
        // this runs nothing: it tells the proof what a stop leaves while nothing is written
        an_office_stands_on_its_disk(&self.office);
        self.office.publish(done)
    }

    /// Tells that no further edit will be asked for, where that was not told yet.
    pub fn end(&mut self)
        ensures told { self.old.ending ≡ None → entries self.new.office.register.history.events self.new.ending
            ≡ entries self.old.office.register.history.events self.old.ending ++ entry.Ending ∷ [] }
        ensures before { IsSome self.old.ending → self.new.ending ≡ self.old.ending }
        ensures office { self.new.office ≡ self.old.office }
        ensures begun { self.new.begun ≡ self.old.begun }
    {
        if self.ending.is_none() {
            self.ending = Some(self.office.events());
        }
    }

    /// The office, which is shared no more.
    pub fn into_office(self) -> Office<D>
        ensures office { result ≡ self.office }
        ensures counted { HasCounted result.register.history (D.faults result.disk) }
        ensures passed { ∥ Passes D.Disk self.begun.value.register.history result.register.history self.begun.value.disk result.disk ∥₁ }
    {
        self.office
    }
}
