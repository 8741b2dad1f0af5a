//! Laws of rating tables: what the definitions say on rows and between them.

ghost use Rattle.std.specs.Prelude.{◌≡◌, ◌≢◌, ℕ, Err, List, ◌∷◌, ◌++◌, Option, None, Some, IsSome, ℤ, ◌≤ℤ◌, Contains};
ghost use Rattle.rating_tables.specs.declared.table.Rated.{Rated};
ghost use Rattle.rating_tables.specs.declared.table.Rated.TheVariants.{Value};
ghost use Rattle.rating_tables.specs.Rdb.{rdb_of};
ghost use Rattle.rating_tables.specs.declared.rdb.RdbFault.TheVariants as RdbFault;
ghost use Rattle.rating_tables.specs.RatedDischarge.{IsInside, IsOutside, IsRated, IsStageOf};
ghost use Rattle.fixed_units.specs.Lines.{line_at};
ghost use Rattle.rating_tables.specs.Table.{IsTable, Row, rated, stage_of};

/// Each stage has exactly one rated discharge by cases. Whatever two neighbouring rows a stage lies between, both of
/// them included, it is what the line between them has there; on a row it is that row's discharge.
pub fn stages_are_rated_by_their_line()
    ensures stands { (rows : List Row) (stage : ℤ) → IsTable rows → IsRated rows stage (rated rows stage) }
    ensures unique { (rows : List Row) (stage : ℤ) (v w : Rated) → IsTable rows → IsRated rows stage v → IsRated rows stage w → v ≡ w }
    ensures between { (rows front back : List Row) (r s : Row) (stage : ℤ) → IsTable rows → rows ≡ front ++ r ∷ s ∷ back
        → r.0 ≤ℤ stage → stage ≤ℤ s.0 → rated rows stage ≡ Value (line_at r s stage) }
    ensures row { (rows front back : List Row) (r : Row) → IsTable rows → rows ≡ front ++ r ∷ back → rated rows r.0 ≡ Value r.1 }
{}

/// Each discharge from the first row's to the last row's has a stage, any other has none, and there is no second one by
/// cases. The stage of a row's discharge is that of a row of this discharge.
pub fn discharges_have_a_stage()
    ensures stands { (rows : List Row) (discharge : ℤ) → IsTable rows → IsStageOf rows discharge (stage_of rows discharge) }
    ensures unique { (rows : List Row) (discharge : ℤ) (a b : Option ℤ) → IsTable rows → IsStageOf rows discharge a → IsStageOf rows discharge b → a ≡ b }
    ensures inside { (rows : List Row) (discharge : ℤ) → IsTable rows → IsInside rows discharge → IsSome (stage_of rows discharge) }
    ensures outside { (rows : List Row) (discharge : ℤ) → IsTable rows → IsOutside rows discharge → stage_of rows discharge ≡ None }
    ensures row { (rows front back : List Row) (r : Row) → IsTable rows → rows ≡ front ++ r ∷ back
        → (s : Row) × Contains rows s × (s.1 ≡ r.1) × (stage_of rows r.1 ≡ Some s.0) }
{}

/// A text that is no rating has a fault of its own: none is read as want of memory.
pub fn texts_never_want_memory()
    ensures { (text : List ℕ) → rdb_of text ≢ Err RdbFault.NoMemory }
{}
