//! What holds of every edit of the stations.

ghost use Rattle.std.specs.Prelude.{◌≡◌, ◌++◌, ◌∷◌, [], List, ℤ, false, true, Contains};
ghost use Rattle.edits.specs.declared.content.Edit.{Edit};
ghost use Rattle.fixed_units.specs.Quantities.{IsDay, SiteNumber, same_site};
ghost use Rattle.office_inputs.specs.Changes.{changed_days};
ghost use Rattle.office_inputs.specs.Stations.{station_of, stations_after, stations_of, inputs_of_day};
ghost use Rattle.station_inputs.specs.Stations.{StationState};
ghost use Rattle.office_inputs.specs.Touched.{is_filled};

/// An edit leaves every other site alone: its station, and the inputs of each day.
pub fn other_sites()
    ensures station { (stations : List StationState) (edit : Edit) (site : SiteNumber) → same_site edit.site site ≡ false → station_of (stations_after stations edit) site ≡ station_of stations site }
    ensures inputs { (stations : List StationState) (edit : Edit) (site : SiteNumber) (day : ℤ) → same_site edit.site site ≡ false → inputs_of_day (stations_after stations edit) site day ≡ inputs_of_day stations site day }
{}

/// The stations after a list of edits and one more are those after the list with that edit made.
pub fn one_edit_more()
    ensures { (edits : List Edit) (edit : Edit) → stations_after (stations_of edits) edit ≡ stations_of (edits ++ edit ∷ []) }
{}

/// A day that has inputs after an edit, of any site, had inputs before it, or is a day of the edit's site that the edit changes:
/// so a day that was never changed has no inputs.
pub fn filled_days_were_changed()
    ensures { (stations : List StationState) (edit : Edit) (site : SiteNumber) (day : ℤ) → IsDay day → is_filled stations site day ≡ false → is_filled (stations_after stations edit) site day ≡ true → (same_site edit.site site ≡ true) × Contains (changed_days stations edit) day }
{}
