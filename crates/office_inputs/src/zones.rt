//! The zones of stations: stations of equal zone text share their days.

ghost use Rattle.std.specs.Prelude.{◌≡◌, IfOk, IfErr, ⊤};
ghost use Rattle.std.specs.Arc.{arc_value};
ghost use Rattle.civil_days.specs.Starts.{IsZone};

use civil_days::{StationZone, ZoneFault};
use edits::Name;
use fixed_units::NoMemory;
use station_inputs::Station;
use std::alloc::Global;
use std::sync::Arc;

/// The zone of a text that is one: that of a station of the same text where there is one.
pub(crate) fn zone_of(
    alloc: Global,
    stations: &[Station],
    text: &Name,
) -> Result<Arc<StationZone>, NoMemory>
    requires { IsZone text.now }
    ensures { IfOk result (λ zone. arc_value zone ≡ text.now) }
{
    for station in stations {
        if station.zone_text() == text.as_slice() {
            return station.share_zone();
        }
    }
    read_zone(alloc, text)
}

/// The zone of a text that is one, read anew.
fn read_zone(alloc: Global, text: &Name) -> Result<Arc<StationZone>, NoMemory>
    requires { IsZone text.now }
    ensures { IfOk result (λ zone. arc_value zone ≡ text.now) }
{
    match StationZone::read(alloc, text.as_str()) {
        Ok(zone) => Ok(Arc::new(alloc, zone)?),
        Err(ZoneFault::NoMemory) => Err(NoMemory),
        Err(ZoneFault::BadZone) => unreachable!(),
    }
}
