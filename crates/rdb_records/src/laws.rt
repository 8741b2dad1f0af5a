//! What holds of every text of unit values.

ghost use Rattle.std.specs.Prelude.{ℕ, List};
ghost use Rattle.fixed_units.specs.Quantities.{SiteNumber};
ghost use Rattle.rdb_records.specs.OneResult.{HasOneFault, IsNotBoth, StatesOneList};

/// A text states one list at most, or is refused with one fault, and never both.
pub fn texts_state_one_result()
    ensures lists { (site : SiteNumber) (column text : List ℕ) → StatesOneList site column text }
    ensures faults { (site : SiteNumber) (column text : List ℕ) → HasOneFault site column text }
    ensures apart { (site : SiteNumber) (column text : List ℕ) → IsNotBoth site column text }
{}
