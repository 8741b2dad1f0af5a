//! The ratings and measurements of a station as they are asked for, and each of them changed.

ghost use Rattle.std.specs.Prelude.{◌≡◌, ◌<◌, option_map, None, IsSome, OnOk, pos};
ghost use Rattle.curves.specs.Entries.{series_value};
ghost use Rattle.edits.specs.Lawful.{IsPutMeasurement, IsPutPeriod};
ghost use Rattle.rating_tables.specs.Table.{IsRating};
ghost use Rattle.ratings.specs.Numbered.{rating_of, rows_in_force, with_period, with_rating, without_period};
ghost use Rattle.ratings.specs.Periods.{overlap};
ghost use Rattle.rising.specs.Lists as lists;
ghost use Rattle.station_inputs.specs.KeptStation.{IsStation};
ghost use Rattle.station_inputs.specs.Stations.{measurement_of, number_of, with_measurements, with_ratings};

use crate::stations::Station;
use edits::Measurement;
use fixed_units::{Micro, NoMemory, Second};
use ratings::{Period, SharedTable, Table};

impl Station {
    /// The measurement of a number, or `None` exactly where there is none.
    pub fn measurement(&self, number: u32) -> Option<&Measurement>
        ensures measurement { option_map (λ m. m.now) result ≡ measurement_of number self.now.station }
    {
        self.measurements.get(number)
    }

    /// The shift at an instant and a stage, in millionths of a foot. It takes no memory.
    pub fn shift(&self, at: Second, stage: Micro) -> Micro
        ensures { result ≡ series_value self.now.station.shifts at stage }
    {
        self.shifts.series().value(at, stage)
    }

    /// The table of the rating that is in force at an instant, or `None` exactly where no period is.
    pub fn table_at(&self, at: Second) -> Option<&Table>
        ensures { option_map (λ t. t.now) result ≡ rows_in_force at self.now.station.ratings }
    {
        self.ratings.table_at(at)
    }
}

impl Station {
    /// Makes room for one rating more. The station is as before, also after `NoMemory`.
    pub(crate) fn reserve_rating(&mut self) -> Result<(), NoMemory>
        ensures station { self.new.station ≡ self.old.station }
        ensures room { OnOk result (0 < self.new.rating_room) }
        ensures kept { IsStation self.new.station }
    {
        self.ratings.reserve_rating()
    }

    /// Makes room for one period more. The station is as before, also after `NoMemory`.
    pub(crate) fn reserve_period(&mut self) -> Result<(), NoMemory>
        ensures station { self.new.station ≡ self.old.station }
        ensures room { OnOk result (0 < self.new.period_room) }
        ensures kept { IsStation self.new.station }
    {
        self.ratings.reserve_period()
    }

    /// Makes room for one measurement more. The station is as before, also after `NoMemory`.
    pub(crate) fn reserve_measurement(&mut self) -> Result<(), NoMemory>
        ensures station { self.new.station ≡ self.old.station }
        ensures room { OnOk result (0 < self.new.measurement_room) }
        ensures kept { IsStation self.new.station }
    {
        self.measurements.reserve(1)?;
        Ok(())
    }

    /// Adds a rating under a number that none has. There is room for it, so no memory is taken.
    pub(crate) fn add_rating(&mut self, rating: u32, table: SharedTable)
        requires room { 0 < self.old.rating_room }
        requires lawful { IsRating table }
        requires absent { rating_of rating self.old.station.ratings.tables ≡ None }
        ensures station { self.new.station ≡ with_ratings (with_rating (record { number = rating; rows = table })) self.old.station }
        ensures kept { IsStation self.new.station }
    {
        self.ratings.add(rating, table);
    }

    /// Puts a period of a rating that is there in place of the one of its start. There is room for it, so no memory is taken.
    pub(crate) fn put_period(&mut self, period: Period)
        requires room { 0 < self.old.period_room }
        requires lawful { IsPutPeriod period }
        requires known { IsSome (rating_of period.rating self.old.station.ratings.tables) }
        requires apart { overlap period self.old.station.ratings.periods ≡ None }
        ensures station { self.new.station ≡ with_ratings (with_period period) self.old.station }
        ensures kept { IsStation self.new.station }
    {
        self.ratings.put_period(period);
    }

    /// Takes out the period that begins at an instant; where none does, all stays.
    pub(crate) fn drop_period(&mut self, from: Second)
        ensures station { self.new.station ≡ with_ratings (without_period from) self.old.station }
        ensures kept { IsStation self.new.station }
    {
        let _found = self.ratings.drop_period(from);
    }

    /// Puts a measurement in place of the one of its number. There is room for it, so no memory is taken.
    pub(crate) fn put_measurement(&mut self, measurement: Measurement)
        requires room { 0 < self.old.measurement_room }
        requires lawful { IsPutMeasurement measurement }
        ensures station { self.new.station ≡ with_measurements (lists.put number_of measurement) self.old.station }
        ensures kept { IsStation self.new.station }
    {
        self.measurements.put(measurement);
    }

    /// Takes out the measurement of a number; where none has it, all stays.
    pub(crate) fn drop_measurement(&mut self, number: u32)
        ensures station { self.new.station ≡ with_measurements (lists.without number_of (pos number)) self.old.station }
        ensures kept { IsStation self.new.station }
    {
        let _found = self.measurements.take_out(number);
    }
}
