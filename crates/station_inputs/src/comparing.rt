//! Whether an edit keeps the inputs of a day of its station.

ghost use Rattle.std.specs.Prelude.{◌≡◌, ◌+◌};
ghost use Rattle.edits.specs.Lawful.{IsLawful};
ghost use Rattle.station_inputs.specs.Changes.{keeps_station_day};

use crate::series::StationSeries;
use crate::station_editions::Edition;
use crate::stations::Station;
use chronicle::Steps;
use curves::Entry;
use edits::What;
use fixed_units::Day;
use readings::Change;
use std::sync::ledger::Ledger;

impl Station {
    /// Whether the inputs of a day of the station are equal before an edit of it and after it: one step, and no memory.
    pub fn same_day_inputs<L: Ledger>(&self, what: &What, day: Day, steps: &mut Steps<L>) -> bool
        requires { IsLawful what.now }
        ensures same { result ≡ keeps_station_day self.now.station what.now day }
        ensures step { steps.new ≡ steps.old + 1 }
    {
        steps.tick();
        self.keeps_day(what, day)
    }

    /// Whether the inputs of a day of the station are equal before an edit of it and after it.
    fn keeps_day(&self, what: &What, day: Day) -> bool
        requires { IsLawful what.now }
        ensures { result ≡ keeps_station_day self.now.station what.now day }
    {
        let _site = self.site();
        match what {
            What::SetStation {
                gap,
                stage_array,
                discharge_array,
                ..
            } => self.keeps_day_described(*gap, *stage_array, *discharge_array, day),
            What::PutReadings { readings } => {
                self.keeps_day_changed(&Change::Put(readings.as_slice()), day)
            }
            What::DropReadings { from, to } => {
                let (from, to) = (*from, *to);
                self.keeps_day_changed(&Change::Drop { from, to }, day)
            }
            What::FlagReadings { from, to, flag } => {
                let (from, to, flag) = (*from, *to, *flag);
                self.keeps_day_changed(&Change::Flag { from, to, flag }, day)
            }
            What::PutCorrection {
                set,
                at,
                curve,
                prorate,
            } => {
                let entry = Entry::new(*at, *curve, *prorate);
                self.keeps_day_with_entry(StationSeries::Correction(*set), &entry, day)
            }
            What::DropCorrection { set, at } => {
                self.keeps_day_without_entry(StationSeries::Correction(*set), *at, day)
            }
            What::PutShift { at, curve, prorate } => {
                let entry = Entry::new(*at, *curve, *prorate);
                self.keeps_day_with_entry(StationSeries::Shift, &entry, day)
            }
            What::DropShift { at } => self.keeps_day_without_entry(StationSeries::Shift, *at, day),
            What::PutPeriod { period } => self.keeps_day_with_period(period, day),
            What::DropPeriod { from } => self.keeps_day_without_period(*from, day),
            What::PutEstimate { estimate } => {
                self.keeps_day_estimated(estimate.day, Some(estimate.discharge), day)
            }
            What::DropEstimate { day: own } => self.keeps_day_estimated(*own, None, day),
            What::SetEdition { day: own, least } => {
                let (own, least) = (*own, *least);
                self.keeps_day_with_edition(&Edition { day: own, least }, day)
            }
            What::AddStation { .. }
            | What::AddRating { .. }
            | What::PutMeasurement { .. }
            | What::DropMeasurement { .. }
            | What::Review { .. }
            | What::Decide { .. } => true,
        }
    }
}
