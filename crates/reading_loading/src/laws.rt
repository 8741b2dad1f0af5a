//! What holds of the edits that put readings.

ghost use Rattle.std.specs.Prelude.{◌≡◌, ◌+◌, ◌++◌, ◌<◌, ℕ, List, length, slice_get, Some};
ghost use Rattle.std.specs.List.{concat, flat_map};
ghost use Rattle.edits.specs.Lawful.{most_readings};
ghost use Rattle.edits.specs.declared.content.Edit.{Edit};
ghost use Rattle.fixed_units.specs.declared.readings.Reading.{Reading};
ghost use Rattle.history.specs.Accepted.{edits_of};
ghost use Rattle.history.specs.Events.{History};
ghost use Rattle.history.specs.Legal.{IsLegal};
ghost use Rattle.rdb_records.specs.Units.{IsStated};
ghost use Rattle.rdb_records.specs.declared.units.UnitList.{UnitList};
ghost use Rattle.reading_loading.specs.Lines.{count_line, end_of};
ghost use Rattle.reading_loading.specs.Loading.{IsLoadedAgain, Loads};
ghost use Rattle.reading_loading.specs.Puts.{ArePuts, Order, readings_put};
ghost use Rattle.reading_loading.specs.declared.loading.ReadingsEnd.TheVariants as ReadingsEnd;
ghost use Rattle.told_edits.specs.Again.{AreInForce, AreToldAgain};
ghost use Rattle.told_edits.specs.Lines.{AreSent};
ghost use Rattle.told_edits.specs.Settled.{AreSettled};

/// The edits that put the readings of a list put all of them and no others, in order, each edit but the last as many as it may; and no
/// other edits do so for the same order.
pub fn puts_are_the_readings()
    ensures whole { (order : Order) (readings : List Reading) (edits : List Edit) → ArePuts order readings edits → flat_map readings_put edits ≡ readings }
    ensures full { (order : Order) (readings : List Reading) (edits : List Edit) (place : ℕ) (edit : Edit) → ArePuts order readings edits → place + 1 < length edits → slice_get edits place ≡ Some edit → length (readings_put edit) ≡ most_readings }
    ensures one { (order : Order) (readings : List Reading) (edits others : List Edit) → ArePuts order readings edits → ArePuts order readings others → edits ≡ others }
{}

/// Where the edits that put the readings of a list are in force and the readings are put again, nothing happens, and each line tells the
/// number under which its edit is in force, or that there was no memory to look; so it is where a text of these readings is loaded again.
pub fn readings_in_force_are_put_again()
    ensures put { (order : Order) (readings : List Reading) (edits again : List Edit) (h after : History) (numbers : List ℕ) (lines : List (List ℕ)) → ArePuts order readings edits → IsLegal h → AreInForce h edits numbers
        → ArePuts order readings again → AreSent end_of h again lines after → (after ≡ h) × AreToldAgain end_of edits numbers lines }
    ensures loaded { (order : Order) (units : UnitList) (edits : List Edit) (h after : History) (numbers : List ℕ) (input left written : List ℕ) → IsLegal h → IsStated order.site order.column input units → ArePuts order units.readings edits
        → AreInForce h edits numbers → Loads order h after ReadingsEnd.Done input left written
        → (after ≡ h) × ((lines : List (List ℕ)) × AreToldAgain end_of edits numbers lines × (written ≡ concat lines ++ count_line units)) }
{}

/// However often a text is loaded, and whatever is refused of it, each of its edits that is not refused stands once: those that a loading adds
/// to the accepted edits are new ones of its own, in order, and each of which a line tells a number is known under it from then on. Loaded again,
/// whatever was accepted meanwhile, each of these lines tells that number, or that there was no memory to look; and where all of them told one,
/// nothing happens.
pub fn each_put_stands_once()
    ensures settled { (order : Order) (units : UnitList) (h after : History) (input left written : List ℕ) → IsLegal h → IsStated order.site order.column input units
        → Loads order h after ReadingsEnd.Done input left written
        → (edits : List Edit) × ArePuts order units.readings edits × ((lines : List (List ℕ)) × AreSettled end_of h after edits lines × (written ≡ concat lines ++ count_line units)) }
    ensures again { (order : Order) (units : UnitList) (h after later last : History) (more : List Edit) (input left written rest again : List ℕ) → IsLegal h
        → IsStated order.site order.column input units → Loads order h after ReadingsEnd.Done input left written
        → IsLegal later → edits_of later.events ≡ edits_of after.events ++ more → Loads order later last ReadingsEnd.Done input rest again
        → (edits : List Edit) × ArePuts order units.readings edits × IsLoadedAgain units edits h after later last written again }
{}
