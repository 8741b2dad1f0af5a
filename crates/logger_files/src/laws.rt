//! What holds of every file.

ghost use Rattle.std.specs.Prelude.{◌≡◌, ◌+◌, ℕ, List, Option, ℤ, Result, length, map};
ghost use Rattle.fixed_units.specs.declared.readings.Reading.{Reading};
ghost use Rattle.logger_files.specs.Bringing.{AreParted, MakesOnce};
ghost use Rattle.logger_files.specs.Rows.{outcomes};
ghost use Rattle.logger_files.specs.declared.profiles.Profile.{Profile};
ghost use Rattle.logger_files.specs.declared.reasons.Reason.{Reason};
ghost use Rattle.logger_files.specs.declared.rows.Columns.{Columns};

/// Each row is judged once, in order. Rows are parted in one way alone into the readings that are put and the rows that are told of, and none
/// is lost: there are as many of both together as there are rows.
pub fn each_row_is_in_one_output()
    ensures judged { (profile : Profile) (columns : Columns) (before : Option ℤ) (rows : List (ℕ × List ℕ)) → map (λ row. row.0) (outcomes profile columns before rows) ≡ map (λ row. row.0) rows }
    ensures once { (rows : List (ℕ × Result Reading Reason)) (readings others : List Reading) (left told : List (ℕ × Reason)) → AreParted rows readings left → AreParted rows others told → (readings ≡ others) × (left ≡ told) }
    ensures counted { (rows : List (ℕ × Result Reading Reason)) (readings : List Reading) (left : List (ℕ × Reason)) → AreParted rows readings left → length readings + length left ≡ length rows }
{}

/// A file makes one text of requests and one list by a profile, so that it is sent again byte for byte, under the references of before.
pub fn equal_files_make_equal_requests()
    ensures { (profile : Profile) (text : List ℕ) → MakesOnce profile text }
{}
