//! The orders of a trial, asked phase by phase, and in each station by station.

ghost use Rattle.std.specs.Prelude.{◌≡◌, ◌+◌, ◌^◌, ◌<◌, ◌≤◌, [], OnOk};
ghost use Rattle.edits.specs.Lawful.{IsLawful};
ghost use Rattle.history.specs.Awaited.{pending_days};
ghost use Rattle.trial.specs.Phases.{orders_in};
ghost use Rattle.trial.specs.Trials.{Follows, FollowsAll};
ghost use Rattle.trial_orders.specs.Orders.{approving, correcting, flagging_readings, for_each_station, orders, putting_part, putting_readings, setting_up, trial_asks};
ghost use Rattle.trial_orders.specs.Questions as questions;
ghost use Rattle.trial_orders.specs.Questions.{draws_before};

use crate::runs::Run;
use devices::Disk;
use edits::What;
use fixed_units::NoMemory;
use trial_orders::{
    Draws, PARTS, STATIONS, addition, approval, approver, first_correction, flagging_approved,
    flagging_open, part_put, period, rating, review, reviewer, second_correction, sender, shift,
    site_of,
};

/// A phase in which something is asked of each station, and the draws do not come in.
#[derive(Clone, Copy, Debug)]
pub(crate) enum Phase {
    /// The station is added, with its rating and the period of it.
    SetUp,
    /// It is corrected and shifted.
    Correct,
    /// Days of it are reviewed and approved.
    Approve,
    /// Readings of it are flagged.
    Flag,
}

impl<D: Disk> Run<D> {
    /// Asks all orders of the trial of a number, and settles where they say.
    pub(crate) fn follow_orders(&mut self, number: u32) -> Result<(), NoMemory>
        requires { self.old.asked ≡ 0 }
        ensures follows { OnOk result (FollowsAll self.old (orders number) self.new) }
        ensures settled { OnOk result (pending_days self.new.history.events ≡ []) }
    {
        self.each_station(Phase::SetUp)?;
        self.put_readings(number)?;
        self.each_station(Phase::Correct)?;
        self.settle()?;
        self.each_station(Phase::Approve)?;
        self.each_station(Phase::Flag)?;
        self.settle()
    }

    /// Asks what a phase asks of each station.
    fn each_station(&mut self, phase: Phase) -> Result<(), NoMemory>
        requires { self.old.asked + 12 < 2 ^ 32 }
        ensures follows { OnOk result (FollowsAll self.old (for_each_station (orders_in phase)) self.new) }
        ensures asked { OnOk result (self.new.asked ≤ self.old.asked + 12) }
    {
        for station in 1..STATIONS + 1 {
            self.one_station(phase, station)?;
        }
        Ok(())
    }

    /// What a phase asks of one station.
    fn one_station(&mut self, phase: Phase, station: u32) -> Result<(), NoMemory>
        requires station { station ≤ 4 }
        requires few { self.old.asked + 3 < 2 ^ 32 }
        ensures follows { OnOk result (FollowsAll self.old (orders_in phase station) self.new) }
        ensures asked { OnOk result (self.new.asked ≤ self.old.asked + 3) }
    {
        match phase {
            Phase::SetUp => self.set_up(station),
            Phase::Correct => self.correct(station),
            Phase::Approve => self.approve(station),
            Phase::Flag => self.flag(station),
        }
    }

    /// A station is added, with its rating and the period of it.
    fn set_up(&mut self, station: u32) -> Result<(), NoMemory>
        requires station { station ≤ 4 }
        requires few { self.old.asked + 3 < 2 ^ 32 }
        ensures follows { OnOk result (FollowsAll self.old (setting_up station) self.new) }
        ensures asked { OnOk result (self.new.asked ≡ self.old.asked + 3) }
    {
        self.add(station)?;
        self.rate(station)?;
        self.ask_of(station, period())?;
        Ok(())
    }

    /// A station is added.
    fn add(&mut self, station: u32) -> Result<(), NoMemory>
        requires station { station ≤ 4 }
        requires few { self.old.asked + 1 < 2 ^ 32 }
        ensures follows { OnOk result (Follows self.old (trial_asks station (questions.addition station)) self.new) }
        ensures asked { OnOk result (self.new.asked ≡ self.old.asked + 1) }
    {
        let what = addition(self.alloc, station)?;
        self.ask_of(station, what)?;
        Ok(())
    }

    /// Its rating is added.
    fn rate(&mut self, station: u32) -> Result<(), NoMemory>
        requires station { station ≤ 4 }
        requires few { self.old.asked + 1 < 2 ^ 32 }
        ensures follows { OnOk result (Follows self.old (trial_asks station questions.rating) self.new) }
        ensures asked { OnOk result (self.new.asked ≡ self.old.asked + 1) }
    {
        let what = rating(self.alloc)?;
        self.ask_of(station, what)?;
        Ok(())
    }

    /// It is corrected and shifted.
    fn correct(&mut self, station: u32) -> Result<(), NoMemory>
        requires station { station ≤ 4 }
        requires few { self.old.asked + 3 < 2 ^ 32 }
        ensures follows { OnOk result (FollowsAll self.old (correcting station) self.new) }
        ensures asked { OnOk result (self.new.asked ≡ self.old.asked + 3) }
    {
        self.ask_of(station, first_correction())?;
        self.ask_of(station, second_correction())?;
        self.ask_of(station, shift())?;
        Ok(())
    }

    /// Days of it are reviewed and approved.
    fn approve(&mut self, station: u32) -> Result<(), NoMemory>
        requires station { station ≤ 4 }
        requires few { self.old.asked + 2 < 2 ^ 32 }
        ensures follows { OnOk result (FollowsAll self.old (approving station) self.new) }
        ensures asked { OnOk result (self.new.asked ≡ self.old.asked + 2) }
    {
        self.ask(reviewer(), site_of(station), review())?;
        self.ask(approver(), site_of(station), approval())?;
        Ok(())
    }

    /// Readings of it are flagged.
    fn flag(&mut self, station: u32) -> Result<(), NoMemory>
        requires station { station ≤ 4 }
        requires few { self.old.asked + 2 < 2 ^ 32 }
        ensures follows { OnOk result (FollowsAll self.old (flagging_readings station) self.new) }
        ensures asked { OnOk result (self.new.asked ≡ self.old.asked + 2) }
    {
        self.ask_of(station, flagging_approved())?;
        self.ask_of(station, flagging_open())?;
        Ok(())
    }

    /// Puts the readings of each station, which come from the draws of a number.
    fn put_readings(&mut self, number: u32) -> Result<(), NoMemory>
        requires { self.old.asked + 32 < 2 ^ 32 }
        ensures follows { OnOk result (FollowsAll self.old (for_each_station (putting_readings number)) self.new) }
        ensures asked { OnOk result (self.new.asked ≡ self.old.asked + 32) }
    {
        let mut draws = Draws::new(number);
        for station in 1..STATIONS + 1 {
            self.put_parts(station, &mut draws)?;
        }
        Ok(())
    }

    /// Puts the readings of a station, which come from the next draws, in parts.
    fn put_parts(&mut self, station: u32, draws: &mut Draws) -> Result<(), NoMemory>
        requires first { 1 ≤ station }
        requires last { station ≤ 4 }
        requires few { self.old.asked + 8 < 2 ^ 32 }
        requires draws { draws.old.made ≡ draws_before station 0 }
        ensures follows { OnOk result (FollowsAll self.old (putting_readings draws.old.number station) self.new) }
        ensures asked { OnOk result (self.new.asked ≡ self.old.asked + 8) }
        ensures draws { OnOk result (draws.new ≡ record { number = draws.old.number; made = draws_before station 8 }) }
    {
        for part in 0..PARTS {
            self.put_part(station, part, draws)?;
        }
        Ok(())
    }

    /// Puts a part of them.
    fn put_part(&mut self, station: u32, part: u32, draws: &mut Draws) -> Result<(), NoMemory>
        requires first { 1 ≤ station }
        requires last { station ≤ 4 }
        requires part { part < 8 }
        requires few { self.old.asked + 1 < 2 ^ 32 }
        requires draws { draws.old.made ≡ draws_before station part }
        ensures follows { OnOk result (Follows self.old (putting_part draws.old.number station part) self.new) }
        ensures asked { OnOk result (self.new.asked ≡ self.old.asked + 1) }
        ensures draws { OnOk result (draws.new ≡ record { number = draws.old.number; made = draws.old.made + 2_400 }) }
    {
        let what = part_put(self.alloc, draws, station, part)?;
        self.ask_of(station, what)?;
        Ok(())
    }

    /// Asks of a station what the person asks who makes all of the trial but its approval.
    fn ask_of(&mut self, station: u32, what: What) -> Result<(), NoMemory>
        requires station { station ≤ 4 }
        requires lawful { IsLawful what }
        requires few { self.old.asked + 1 < 2 ^ 32 }
        ensures follows { OnOk result (Follows self.old (trial_asks station what) self.new) }
        ensures asked { OnOk result (self.new.asked ≡ self.old.asked + 1) }
    {
        self.ask(sender(), site_of(station), what)
    }
}
