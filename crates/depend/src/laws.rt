//! What holds of the interval of each edit.

ghost use Rattle.std.specs.Prelude.{◌≡◌, List, [], ℕ, ℤ, false, true, None};
ghost use Rattle.edits.specs.declared.content.Edit.{Edit};
ghost use Rattle.edits.specs.declared.content.What.TheVariants.{AddRating, Decide, DropMeasurement, PutMeasurement, Review};
ghost use Rattle.edits.specs.declared.decisions.Decision.{Decision};
ghost use Rattle.edits.specs.declared.measurements.Measurement.{Measurement};
ghost use Rattle.fixed_units.specs.Quantities.{IsDay};
ghost use Rattle.office_inputs.specs.Changes.{keeps_day};
ghost use Rattle.office_inputs.specs.Kept.{AreStations, states_of};
ghost use Rattle.station_inputs.specs.KeptStation.{KeptStation};
ghost use Rattle.office_inputs.specs.Refusals.{refusal_of};
ghost use Rattle.office_inputs.specs.Touched.{in_reach, interval, touched_of};
ghost use Rattle.office_inputs.specs.declared.limits.Limits.{Limits};
ghost use Rattle.rating_tables.specs.Table.{Row};
ghost use Rattle.station_inputs.specs.Stations.{StationState};

/// No day outside the interval changes: over stations that keep to their ranges, an edit of any kind that is not refused leaves
/// the inputs of every day of the calendar alone but for the days of its interval.
pub fn no_day_outside_the_interval_changes()
    ensures { (limits : Limits) (kept : List KeptStation) (edit : Edit) (day : ℤ) → AreStations kept → refusal_of limits (states_of kept) edit ≡ None → IsDay day → keeps_day (states_of kept) edit day ≡ false → in_reach (states_of kept) edit.site (touched_of (states_of kept) edit) day ≡ true }
{}

/// A rating more, and a measurement put or taken out, have no day in their interval, so they change none and none is compared.
pub fn ratings_and_measurements_change_no_day()
    ensures rating { (stations : List StationState) (edit : Edit) (rating : ℕ) (table : List Row) → edit.what ≡ AddRating rating table → interval stations edit ≡ [] }
    ensures put { (stations : List StationState) (edit : Edit) (measurement : Measurement) → edit.what ≡ PutMeasurement measurement → interval stations edit ≡ [] }
    ensures dropped { (stations : List StationState) (edit : Edit) (number : ℕ) → edit.what ≡ DropMeasurement number → interval stations edit ≡ [] }
{}

/// Reviews and decisions have no day in their interval either.
pub fn reviews_and_decisions_change_no_day()
    ensures review { (stations : List StationState) (edit : Edit) (from to : ℤ) → edit.what ≡ Review from to → interval stations edit ≡ [] }
    ensures decision { (stations : List StationState) (edit : Edit) (from to : ℤ) (decision : Decision) → edit.what ≡ Decide from to decision → interval stations edit ≡ [] }
{}
