//! The estimates of a station as they are asked for, and each of them changed.

ghost use Rattle.std.specs.Prelude.{◌≡◌, ◌<◌, OnOk};
ghost use Rattle.edits.specs.Lawful.{IsPutEstimate};
ghost use Rattle.rising.specs.Lists as lists;
ghost use Rattle.station_inputs.specs.KeptStation.{IsStation};
ghost use Rattle.station_inputs.specs.Stations.{estimated_day, estimated_discharge, with_estimates};

use crate::stations::Station;
use edits::Estimate;
use fixed_units::{Day, Micro, NoMemory};

impl Station {
    /// The mean discharge that is estimated of a day, in millionths of a cubic foot per second, or `None` exactly where no estimate
    /// stands. It takes no memory.
    pub fn estimated_discharge(&self, day: Day) -> Option<Micro>
        ensures { result ≡ estimated_discharge self.now.station day }
    {
        self.estimates.get(day).map(|estimate| estimate.discharge)
    }

    /// Makes room for one estimate more. The station is as before, also after `NoMemory`.
    pub(crate) fn reserve_estimate(&mut self) -> Result<(), NoMemory>
        ensures station { self.new.station ≡ self.old.station }
        ensures room { OnOk result (0 < self.new.estimate_room) }
        ensures kept { IsStation self.new.station }
    {
        self.estimates.reserve(1)?;
        Ok(())
    }

    /// Puts an estimate in place of the one of its day. There is room for it, so no memory is taken.
    pub(crate) fn put_estimate(&mut self, estimate: Estimate)
        requires room { 0 < self.old.estimate_room }
        requires lawful { IsPutEstimate estimate }
        ensures station { self.new.station ≡ with_estimates (lists.put estimated_day estimate) self.old.station }
        ensures kept { IsStation self.new.station }
    {
        self.estimates.put(estimate);
    }

    /// Takes out the estimate of a day; where none stands, all stays.
    pub(crate) fn drop_estimate(&mut self, day: Day)
        ensures station { self.new.station ≡ with_estimates (lists.without estimated_day day) self.old.station }
        ensures kept { IsStation self.new.station }
    {
        let _found = self.estimates.take_out(day);
    }
}
