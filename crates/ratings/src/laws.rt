//! Laws of ratings: what the definitions say of periods.

ghost use Rattle.std.specs.Prelude.{◌≡◌, ◌≢◌, ◌↔◌, true, false, None, Some, option_map, List, ◌∷◌, ◌++◌, ℤ, ◌≤ℤ◌, Contains};
ghost use Rattle.rising.specs.Lists.{IsRising};
ghost use Rattle.ratings.specs.Numbered.{AreRatings, Numbered, StationRatings, rows_of, with_rating};
ghost use Rattle.ratings.specs.Parts.{AreParts, part_at, part_of, parts};
ghost use Rattle.ratings.specs.Periods.{AreApart, begin, in_force, is_in_force, overlap, share};
ghost use Rattle.ratings.specs.Spans.{Span, EndsLater};

/// At most one kept period is in force at an instant, and two periods share an instant exactly where the test of their
/// ends says so.
pub fn one_period_is_in_force()
    ensures one { (kept front back : List Span) (p q : Span) (at : ℤ) → AreApart kept → kept ≡ front ++ p ∷ back → Contains back q
        → is_in_force at p ≡ true → is_in_force at q ≡ true → ⊥ }
    ensures share { (p q : Span) → EndsLater p → EndsLater q
        → (share p q ≡ true ↔ ((at : ℤ) × (is_in_force at p ≡ true) × (is_in_force at q ≡ true))) }
{}

/// At every instant from `lo` to `hi` the parts have in force what the periods have: the part of the period that is in force
/// there, so its rating and that one's rows, and none where no period is. Parts of ratings are apart, each with a table.
pub fn parts_stand_for_periods()
    ensures part { (lo hi at : ℤ) (tables : List Numbered) (periods : List Span) → lo ≤ℤ at → at ≤ℤ hi
        → part_at at (parts lo hi tables periods) ≡ option_map (part_of lo hi tables) (in_force at periods) }
    ensures rating { (lo hi at : ℤ) (tables : List Numbered) (periods : List Span) → lo ≤ℤ at → at ≤ℤ hi
        → option_map (λ p. p.rating) (part_at at (parts lo hi tables periods)) ≡ option_map (λ p. p.rating) (in_force at periods) }
    ensures rows { (lo hi at : ℤ) (tables : List Numbered) (periods : List Span) → lo ≤ℤ at → at ≤ℤ hi
        → option_map (λ p. p.rows) (part_at at (parts lo hi tables periods)) ≡ option_map (λ p. rows_of p.rating tables) (in_force at periods) }
    ensures kept { (lo hi : ℤ) (ratings : StationRatings) → AreRatings ratings → lo ≤ℤ hi → AreParts (parts lo hi ratings.tables ratings.periods) }
{}

/// A rating more changes the parts of no time.
pub fn ratings_change_no_parts()
    ensures { (lo hi : ℤ) (rating : Numbered) (ratings : StationRatings) → AreRatings ratings
        → parts lo hi (with_rating rating ratings).tables (with_rating rating ratings).periods ≡ parts lo hi ratings.tables ratings.periods }
{}

/// The overlap of a period with kept ones is the least start among those of another start that share an instant with it. There is
/// none where no such period is kept.
pub fn overlap_is_the_least_start()
    ensures stands { (period : Span) (kept : List Span) (at : ℤ) → overlap period kept ≡ Some at
        → (q : Span) × Contains kept q × (q.from ≡ at) × (q.from ≢ period.from) × (share q period ≡ true) }
    ensures least { (period q : Span) (kept : List Span) (at : ℤ) → IsRising begin kept → overlap period kept ≡ Some at
        → Contains kept q → q.from ≢ period.from → share q period ≡ true → at ≤ℤ q.from }
    ensures none { (period q : Span) (kept : List Span) → overlap period kept ≡ None
        → Contains kept q → q.from ≢ period.from → share q period ≡ false }
{}
