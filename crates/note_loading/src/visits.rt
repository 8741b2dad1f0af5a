//! A field visit in which discharge was measured, and the edit that puts the measurement.

ghost use Rattle.std.specs.Prelude.{◌≡◌};
ghost use Rattle.fixed_units.specs.Quantities.{IsDischarge};
ghost use Rattle.note_loading.specs.Visits.{IsEditOf, IsVisit, measurement_of};

use edits::{By, Edit, Grade, Measurement, Ref, What};
use fixed_units::{Micro, Second, Site};
use std::alloc::Global;

/// A field visit: all of a field measurement but its discharge, and by whom and under which reference it is sent.
#[derive(Drop)]
pub struct Visit {
    /// Who sends the measurement.
    pub by: By,
    /// The reference under which it is sent.
    pub reference: Ref,
    /// The site of the station.
    pub site: Site,
    /// The number of the measurement, from 1.
    pub number: u32,
    /// When it was made: a stamp.
    pub at: Second,
    /// The gage height, in millionths of a foot: at most 100,000 feet either way.
    pub gage: Micro,
    /// How good it is.
    pub grade: Grade,
}

/// The edit that puts the measurement of a visit with its discharge.
pub(crate) fn make_edit(alloc: Global, visit: Visit, discharge: Micro) -> Edit
    requires visit { IsVisit visit }
    requires discharge { IsDischarge discharge }
    ensures { IsEditOf visit discharge result }
{
    let measurement = measurement_of(&visit, discharge);
    let what = What::PutMeasurement { measurement };
    match Edit::new(alloc, visit.by, visit.reference, visit.site, what) {
        Ok(edit) => edit,
        Err(_) => unreachable!(),
    }
}

/// The measurement of a visit with its discharge.
fn measurement_of(visit: &Visit, discharge: Micro) -> Measurement
    ensures { result ≡ measurement_of visit.now discharge }
{
    Measurement {
        number: visit.number,
        at: visit.at,
        gage: visit.gage,
        discharge,
        grade: visit.grade,
    }
}
