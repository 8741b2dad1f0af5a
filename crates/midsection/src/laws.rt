//! Laws of the midsection method.

ghost use Rattle.std.specs.Prelude.{◌≡◌, ◌-◌, List, length, Some, slice_get, ℤ, ◌-ℤ◌};
ghost use Rattle.midsection.specs.Fractions.{IsEqual, sum, whole};
ghost use Rattle.midsection.specs.Midsection.{widths};
ghost use Rattle.midsection.specs.declared.verticals.Vertical.{Vertical};
ghost use Rattle.rising.specs.Ends.{first, last};

/// The widths of all verticals add up to the last distance less the first.
pub fn widths_add_up_to_the_section()
    ensures { (verticals : List Vertical) (a b : Vertical) → first verticals ≡ Some a → last verticals ≡ Some b
        → IsEqual (sum (widths verticals)) (whole (b.distance -ℤ a.distance)) }
{}
