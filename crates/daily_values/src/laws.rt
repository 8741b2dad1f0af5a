//! Laws of the values of days: what extremes are, and how sums are made of parts.

ghost use Rattle.std.specs.Prelude.{◌≡◌, ◌↔◌, ◌+◌, true, false, List, [], ◌∷◌, ◌++◌, All, Contains, Option, Some, IsSome, sum_by, ℤ, ◌+ℤ◌};
ghost use Rattle.unit_discharge.specs.declared.unit_values.Unit.{Unit};
ghost use Rattle.day_inputs.specs.declared.day_inputs.DayParts.{DayParts};
ghost use Rattle.daily_values.specs.DayValue.{Point, greatest, is_less, least, neighbours, pair_seconds, twice_areas};

/// The greatest of a value among unit values is there exactly where one of them has that value, and has it itself. None exceeds it, and each earlier
/// one that has the value is less.
pub fn none_exceeds_the_greatest()
    ensures there { (value : Unit → Option ℤ) (units : List Unit) → IsSome (greatest value units) ↔ ((u : Unit) × Contains units u × IsSome (value u)) }
    ensures valued { (value : Unit → Option ℤ) (units : List Unit) (x : Unit) → greatest value units ≡ Some x → IsSome (value x) }
    ensures most { (value : Unit → Option ℤ) (units : List Unit) (x u : Unit) → greatest value units ≡ Some x → Contains units u
        → is_less (value x) (value u) ≡ false }
    ensures earliest { (value : Unit → Option ℤ) (units : List Unit) (x : Unit) → greatest value units ≡ Some x
        → (front : List Unit) × (back : List Unit) × (units ≡ front ++ x ∷ back) × All (λ u. IsSome (value u) → is_less (value u) (value x) ≡ true) front }
{}

/// The least of a value among unit values is there exactly where one of them has that value, and has it itself. It exceeds none, and each earlier one
/// that has the value is greater.
pub fn the_least_exceeds_none()
    ensures there { (value : Unit → Option ℤ) (units : List Unit) → IsSome (least value units) ↔ ((u : Unit) × Contains units u × IsSome (value u)) }
    ensures valued { (value : Unit → Option ℤ) (units : List Unit) (x : Unit) → least value units ≡ Some x → IsSome (value x) }
    ensures least { (value : Unit → Option ℤ) (units : List Unit) (x u : Unit) → least value units ≡ Some x → Contains units u
        → is_less (value u) (value x) ≡ false }
    ensures earliest { (value : Unit → Option ℤ) (units : List Unit) (x : Unit) → least value units ≡ Some x
        → (front : List Unit) × (back : List Unit) × (units ≡ front ++ x ∷ back) × All (λ u. IsSome (value u) → is_less (value x) (value u) ≡ true) front }
{}

/// A sum over the pairs of neighbouring points splits at each point: it is the sum up to that point and the sum from there on.
pub fn sums_split_at_a_point()
    ensures area { (day : DayParts) (front back : List Point) (p : Point) → twice_areas day (neighbours (front ++ p ∷ back))
        ≡ twice_areas day (neighbours (front ++ p ∷ [])) +ℤ twice_areas day (neighbours (p ∷ back)) }
    ensures seconds { (day : DayParts) (front back : List Point) (p : Point) → sum_by (pair_seconds day) (neighbours (front ++ p ∷ back))
        ≡ sum_by (pair_seconds day) (neighbours (front ++ p ∷ [])) + sum_by (pair_seconds day) (neighbours (p ∷ back)) }
{}
