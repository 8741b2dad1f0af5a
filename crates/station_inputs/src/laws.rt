//! What holds of every edit of a station.

ghost use Rattle.std.specs.Prelude.{◌≡◌, None, ℤ};
ghost use Rattle.edits.specs.Lawful.{IsLawful};
ghost use Rattle.edits.specs.declared.content.What.{What};
ghost use Rattle.station_inputs.specs.KeptStation.{IsStation};
ghost use Rattle.station_inputs.specs.Obstacles.{obstacle};
ghost use Rattle.station_inputs.specs.Stations.{StationState, day_start, station_after};

/// A station keeps its site and its zone, so the starts of its days, through every edit, and keeps to its ranges through every lawful
/// one in whose way nothing of it stands.
pub fn stations_stay_stations()
    ensures site { (what : What) (s : StationState) → (station_after what s).site ≡ s.site }
    ensures days { (what : What) (s : StationState) (day : ℤ) → day_start (station_after what s) day ≡ day_start s day }
    ensures kept { (what : What) (s : StationState) → IsStation s → IsLawful what → obstacle s what ≡ None → IsStation (station_after what s) }
{}
