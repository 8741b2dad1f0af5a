//! What holds of the lines that tell what became of edits.

ghost use Rattle.std.specs.Prelude.{◌≡◌, ◌+◌, ◌++◌, ℕ, List, count_by};
ghost use Rattle.shared_office.specs.Passages.{Passes, RoseBy};
ghost use Rattle.edits.specs.declared.content.Edit.{Edit};
ghost use Rattle.history.specs.Accepted.{edits_of};
ghost use Rattle.history.specs.Events.{History};
ghost use Rattle.history.specs.Legal.{IsLegal};
ghost use Rattle.office.specs.Counting.{fault_count};
ghost use Rattle.told_edits.specs.Again.{AreInForce, AreToldAgain, AreToldAsBefore, IsToldAgain, TellNumbers};
ghost use Rattle.told_edits.specs.Lines.{AreSent, IsSent, tells_fault_line};
ghost use Rattle.told_edits.specs.Settled.{AreSettled, IsKnownAs};

use devices::Disk;

/// Each line that tells a failed journal stands for one fault of it, and each fault has one such line: as many faults have joined the
/// history as lines tell.
pub fn each_fault_has_its_line()
    ensures { (end : Edit → List ℕ) (h after : History) (edits : List Edit) (lines : List (List ℕ)) → AreSent end h edits lines after
        → fault_count after.events ≡ fault_count h.events + count_by tells_fault_line lines }
{}

/// As many lines tell a failed journal as the disk's count of faults rose by at most, unless that stands at the end of its type: of the lines
/// and of what has passed meanwhile, as one loading tells of both.
pub fn no_more_failed_lines_than_faults<D: Disk>()
    ensures { (end : Edit → List ℕ) (h after : History) (edits : List Edit) (lines : List (List ℕ)) (old new : D) → AreSent end h edits lines after
        → Passes D.Disk h after old new → RoseBy (count_by tells_fault_line lines) (D.faults old) (D.faults new) }
{}

/// Where edits that are in force are sent again nothing happens, and each line tells the number under which its edit is in force, or
/// that there was no memory to look.
pub fn edits_in_force_are_told_again()
    ensures { (end : Edit → List ℕ) (h after : History) (edits : List Edit) (numbers : List ℕ) (lines : List (List ℕ)) → IsLegal h
        → AreInForce h edits numbers → AreSent end h edits lines after → (after ≡ h) × AreToldAgain end edits numbers lines }
{}

/// Whatever becomes of edits that are asked, each stands once: those that join the accepted edits are new ones of them, in order, and each of
/// which a line tells a number is known under it, whatever is accepted later. Sent again then it is told that number, or that there was no
/// memory to look, and nothing happens. So it is of all of them, sent again in order, whatever was accepted meanwhile: each line that told a
/// number tells it again, or that there was no memory to look; and where all of them told one, nothing happens at all.
pub fn each_edit_stands_once()
    ensures settled { (end : Edit → List ℕ) (h after : History) (edits : List Edit) (lines : List (List ℕ)) → IsLegal h → AreSent end h edits lines after
        → AreSettled end h after edits lines }
    ensures again { (end : List ℕ) (h later next : History) (edit : Edit) (number : ℕ) (more : List Edit) (line : List ℕ) → IsKnownAs h edit number
        → edits_of later.events ≡ edits_of h.events ++ more → IsSent end later edit line next → (next ≡ later) × IsToldAgain end number line }
    ensures all_again { (end : Edit → List ℕ) (h after later last : History) (edits more : List Edit) (lines again : List (List ℕ)) → IsLegal h → AreSent end h edits lines after
        → IsLegal later → edits_of later.events ≡ edits_of after.events ++ more → AreSent end later edits again last
        → AreToldAsBefore end edits lines again × (TellNumbers end edits lines → last ≡ later) }
{}
