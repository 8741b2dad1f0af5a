//! A run of a trial: an office, of which edits are asked under the trial's references.

ghost use Rattle.std.specs.Prelude.{◌≡◌, ◌+◌, ◌^◌, ◌<◌, ◌≤◌, [], length, OnOk, IfSome};
ghost use Rattle.edits.specs.Lawful.{IsLawful};
ghost use Rattle.history.specs.Accepted.{accepted};
ghost use Rattle.history.specs.Awaited.{pending_days};
ghost use Rattle.trial.specs.Figures as figures;
ghost use Rattle.trial.specs.Told.{locks_told};
ghost use Rattle.trial.specs.Trials.{Follows, after_asking};
ghost use Rattle.trial_orders.specs.Orders.{Ask, Settle};

use crate::counts;
use devices::Disk;
use edits::{By, Edit, What};
use fixed_units::{NoMemory, Site, Text};
use office::{Accepted, Office};
use office_inputs::Refusal;
use std::alloc::Global;
use std::marker::Model;
use trial_orders::edit_of;

/// An office that a trial asks. Contracts see what has happened there, how many edits were asked and how many of them were locked.
#[derive(Drop)]
pub(crate) struct Run<D: Disk> {
    pub(crate) alloc: Global,
    office: Office<D>,
    asked: u32,
    locked: u32,
    scratch: Text,
}

impl<D: Disk> Model for Run<D> {
    ghost use Rattle.std.specs.Prelude.{◌≤◌};
    ghost use Rattle.edits.specs.contracts.content.Edit as edit;
    ghost use Rattle.std.specs.Coded.{codes};
    ghost use Rattle.trial.specs.Trials.{Trial};

    ghost Value = { Trial };

    ghost coded = { Prim.hlevel (codes, edit.the_row.coded) };

    ghost view = { λ r. record { history = r.office.register.history; asked = r.asked; locked = r.locked } };

    ghost invariant = { λ r. r.locked ≤ r.asked };
}

impl<D: Disk> Run<D> {
    /// A run of which nothing was asked.
    pub(crate) fn new(alloc: Global, office: Office<D>) -> Run<D>
        ensures { result ≡ record { history = office.register.history; asked = 0; locked = 0 } }
    {
        Run {
            alloc,
            office,
            asked: 0,
            locked: 0,
            scratch: Text::new(alloc),
        }
    }

    /// Asks the office what a person asks of a site, under the next number. After `NoMemory` the run is over: there was no memory, or
    /// the journal failed.
    pub(crate) fn ask(&mut self, by: By, site: Site, what: What) -> Result<(), NoMemory>
        requires lawful { IsLawful what }
        requires few { self.old.asked + 1 < 2 ^ 32 }
        ensures follows { OnOk result (Follows self.old (Ask by site what) self.new) }
        ensures asked { OnOk result (self.new.asked ≡ self.old.asked + 1) }
    {
        let number = self.asked + 1;
        let edit = edit_of(number, by, site, what, &mut self.scratch)?;
        self.take(edit)?;
        Ok(())
    }

    /// Asks the office an edit, and counts it.
    fn take(&mut self, edit: Edit) -> Result<(), NoMemory>
        requires { self.old.asked + 1 < 2 ^ 32 }
        ensures after { OnOk result (self.new ≡ after_asking self.old edit) }
        ensures asked { OnOk result (self.new.asked ≡ self.old.asked + 1) }
    {
        let told = self.office.take(edit);
        let Some(locks) = locks_told(told) else {
            return Err(NoMemory);
        };
        self.asked += 1;
        self.locked += locks;
        Ok(())
    }

    /// Publishes every pending day.
    pub(crate) fn settle(&mut self) -> Result<(), NoMemory>
        ensures follows { OnOk result (Follows self.old Settle self.new) }
        ensures settled { OnOk result (pending_days self.new.history.events ≡ []) }
        ensures asked { OnOk result (self.new.asked ≡ self.old.asked) }
    {
        self.office.settle()?;
        Ok(())
    }

    /// How many of the trial's stations are kept.
    pub(crate) fn kept(&self) -> u64
        ensures { result ≡ figures.kept self.now }
    {
        counts::kept(&self.office)
    }

    /// How many edits were accepted.
    pub(crate) fn edits(&self) -> u64
        ensures { result ≡ length (accepted self.now.history.events) }
    {
        self.office.edits()
    }

    /// How many edits were refused as locked.
    pub(crate) fn locked(&self) -> u64
        ensures { result ≡ self.now.locked }
    {
        u64::from(self.locked)
    }

    /// How many events the history has.
    pub(crate) fn events(&self) -> u64
        ensures { result ≡ length self.now.history.events }
    {
        self.office.events()
    }

    /// How many days are approved.
    pub(crate) fn approved(&self) -> u64
        ensures { result ≡ figures.approved self.now }
    {
        counts::approved(&self.office)
    }

    /// The sum of the mean discharges.
    pub(crate) fn total(&self) -> u64
        requires { pending_days self.now.history.events ≡ [] }
        ensures { result ≡ figures.total self.now }
    {
        counts::total(&self.office)
    }
}

/// How many locked edits there were by what an office told of one: 1 or none. `None` where there was no memory for it, or the journal
/// failed.
fn locks_told(told: Result<Accepted, Refusal>) -> Option<u32>
    ensures locks { result ≡ locks_told told }
    ensures few { IfSome result (λ locks. locks ≤ 1) }
{
    match told {
        Ok(_) => Some(0),
        Err(Refusal::Locked(_)) => Some(1),
        Err(Refusal::NoMemory | Refusal::JournalFault(_)) => None,
        Err(_) => Some(0),
    }
}
