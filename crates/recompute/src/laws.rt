//! What holds of every job.

ghost use Rattle.std.specs.Prelude.{◌≡◌, ◌≢◌, ◌↔◌, Some, List, ℕ, ℤ};
ghost use Rattle.daily_values.specs.declared.day_values.DayValue.{DayValue};
ghost use Rattle.day_cells.specs.KeptDays.{KeptDays};
ghost use Rattle.edits.specs.declared.content.Edit.{Edit};
ghost use Rattle.fixed_units.specs.Quantities.{SiteNumber, IsDay};
ghost use Rattle.office_inputs.specs.Changes.{changed_days};
ghost use Rattle.office_inputs.specs.Stations.{stations_after};
ghost use Rattle.station_inputs.specs.Stations.{StationState};
ghost use Rattle.recompute.specs.Cells.{SaysTheSame, Marks, TakesOut, Publishes, awaited_in};
ghost use Rattle.recompute.specs.Jobs.{DayJob, IsTrueJob, outcome_of};
ghost use Rattle.recompute.specs.declared.jobs.Publish.TheVariants.{Foreign, Published};

/// A job whose inputs are those in force as long as its day awaits its edit is published exactly where the day still
/// awaits that edit, whatever came between; its inputs are never told to be foreign.
pub fn jobs_are_published_where_awaited()
    ensures { (cells : List KeptDays) (stations : List StationState) (job : DayJob) → IsTrueJob cells stations job → (outcome_of cells stations job ≡ Published ↔ awaited_in cells job.site job.day ≡ Some job.awaits) × (outcome_of cells stations job ≢ Foreign) }
{}

/// A job stays true over an edit of any kind and any site whose days are marked, where it awaits another edit.
pub fn an_edit_keeps_jobs_true()
    ensures { (old new : List KeptDays) (stations : List StationState) (edit : Edit) (number : ℕ) (job : DayJob) → IsDay job.day → job.awaits ≢ number → Marks old new edit.site (changed_days stations edit) number → IsTrueJob old stations job → IsTrueJob new (stations_after stations edit) job }
{}

/// A job stays true where cells take no edit: where a claim is taken out, where the value of any day is published, and
/// where room is made.
pub fn all_else_keeps_jobs_true()
    ensures taken { (old new : List KeptDays) (site : SiteNumber) (day : ℤ) (stations : List StationState) (job : DayJob) → TakesOut old new site day → IsTrueJob old stations job → IsTrueJob new stations job }
    ensures published { (old new : List KeptDays) (site : SiteNumber) (day : ℤ) (value : DayValue) (stations : List StationState) (job : DayJob) → Publishes old new site day value → IsTrueJob old stations job → IsTrueJob new stations job }
    ensures same { (old new : List KeptDays) (stations : List StationState) (job : DayJob) → SaysTheSame old new → IsTrueJob old stations job → IsTrueJob new stations job }
{}
