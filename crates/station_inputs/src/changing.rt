//! An edit of a station made: first room for it, then the edit itself, which takes no memory.

ghost use Rattle.std.specs.Prelude.{◌≡◌, None, IfOk};
ghost use Rattle.edits.specs.Lawful.{IsLawful};
ghost use Rattle.station_inputs.specs.KeptStation.{IsStation};
ghost use Rattle.station_inputs.specs.Obstacles.{obstacle};
ghost use Rattle.station_inputs.specs.Room.{HasStationRoom};
ghost use Rattle.station_inputs.specs.Stations.{station_after};

use crate::series::StationSeries;
use crate::staged::Staged;
use crate::station_editions::Edition;
use crate::stations::Station;
use curves::Entry;
use edits::What;
use fixed_units::NoMemory;
use std::alloc::Global;

impl Station {
    /// Makes room for an edit of the station, and gives what is staged for it. The station is as before, also after `NoMemory`.
    pub fn prepare(&mut self, alloc: Global, what: &What) -> Result<Staged, NoMemory>
        requires { IsLawful what.now }
        ensures station { self.new.station ≡ self.old.station }
        ensures room { IfOk result (λ staged. HasStationRoom self.new staged what.now) }
        ensures kept { IsStation self.new.station }
    {
        let _site = self.site();
        match what {
            What::SetStation { name, .. } => return Ok(Staged::Named(name.copy(alloc)?)),
            What::AddRating { table, .. } => {
                self.reserve_rating()?;
                return Ok(Staged::Rated(table.share()?));
            }
            What::PutReadings { readings } => self.reserve(readings.as_slice().len())?,
            What::PutCorrection { set, .. } => {
                self.reserve_entry(StationSeries::Correction(*set))?
            }
            What::PutShift { .. } => self.reserve_entry(StationSeries::Shift)?,
            What::PutPeriod { .. } => self.reserve_period()?,
            What::PutEstimate { .. } => self.reserve_estimate()?,
            What::PutMeasurement { .. } => self.reserve_measurement()?,
            What::SetEdition { .. } => self.reserve_edition()?,
            What::AddStation { .. }
            | What::DropReadings { .. }
            | What::FlagReadings { .. }
            | What::DropCorrection { .. }
            | What::DropShift { .. }
            | What::DropPeriod { .. }
            | What::DropEstimate { .. }
            | What::DropMeasurement { .. }
            | What::Review { .. }
            | What::Decide { .. } => {}
        }
        Ok(Staged::Nothing)
    }

    /// Makes an edit of the station, for which room is made and in whose way nothing stands. It takes no memory.
    pub fn apply(&mut self, what: &What, staged: Staged)
        requires lawful { IsLawful what.now }
        requires free { obstacle self.old.station what.now ≡ None }
        requires room { HasStationRoom self.old staged what.now }
        ensures station { self.new.station ≡ station_after what.now self.old.station }
        ensures kept { IsStation self.new.station }
    {
        let _site = self.site();
        match what {
            What::AddStation { .. } | What::Review { .. } | What::Decide { .. } => {}
            What::SetStation {
                gap,
                stage_array,
                discharge_array,
                ..
            } => self.describe(staged.into_name(), *gap, *stage_array, *discharge_array),
            What::PutReadings { readings } => self.put(readings.as_slice()),
            What::DropReadings { from, to } => self.drop_readings(*from, *to),
            What::FlagReadings { from, to, flag } => self.flag_readings(*from, *to, *flag),
            What::PutCorrection {
                set,
                at,
                curve,
                prorate,
            } => {
                let entry = Entry::new(*at, *curve, *prorate);
                self.put_entry(StationSeries::Correction(*set), entry)
            }
            What::DropCorrection { set, at } => {
                self.drop_entry(StationSeries::Correction(*set), *at)
            }
            What::PutShift { at, curve, prorate } => {
                let entry = Entry::new(*at, *curve, *prorate);
                self.put_entry(StationSeries::Shift, entry)
            }
            What::DropShift { at } => self.drop_entry(StationSeries::Shift, *at),
            What::AddRating { rating, .. } => self.add_rating(*rating, staged.into_table()),
            What::PutPeriod { period } => self.put_period(*period),
            What::DropPeriod { from } => self.drop_period(*from),
            What::PutEstimate { estimate } => self.put_estimate(*estimate),
            What::DropEstimate { day } => self.drop_estimate(*day),
            What::PutMeasurement { measurement } => self.put_measurement(*measurement),
            What::DropMeasurement { number } => self.drop_measurement(*number),
            What::SetEdition { day, least } => {
                let (day, least) = (*day, *least);
                self.put_edition(Edition { day, least })
            }
        }
    }
}
