//! What holds of every copy, as laws.

ghost use Rattle.std.specs.Prelude.{◌≡◌, ◌⊎◌, List, ℕ, Err};
ghost use mathlib.Core.List.{IsPrefix};
ghost use Rattle.journal.specs.JournalBytes.{IsJournalOf, IsTaken};
ghost use Rattle.migration.specs.Copying.{IsAnswered, IsCopied, IsLeftByCopy, MayBegin};
ghost use Rattle.records.specs.Sheets.{Record};
ghost use Rattle.records.specs.declared.formats.Format.{Format};
ghost use Rattle.records.specs.declared.formats.Format.TheVariants.{Second};

use crate::copying::CopyFault;
use journal::OpenFault;

/// Where a copy may begin, nothing but a failure or a want of memory keeps it from being done.
pub fn a_copy_that_may_begin_is_not_barred()
    ensures { (records : List Record) (bytes : List ℕ) (fault : CopyFault) → MayBegin records bytes → IsAnswered {T = Unit {0}} records bytes (Err fault)
        → (fault ≡ CopyFault.Open OpenFault.Fault) ⊎ (fault ≡ CopyFault.Open OpenFault.NoMemory) }
{}

/// Whatever a copy leaves that is a journal already has some of the records from the first on, their sheets byte for byte.
pub fn what_a_copy_leaves_is_a_front()
    ensures { (records : List Record) (image : List ℕ) → IsLeftByCopy records image → IsTaken image
        → (format : Format) × (front : List Record) × IsPrefix front records × IsJournalOf format front image }
{}

/// A journal that has all of the records already is left as it is, byte for byte.
pub fn a_whole_copy_stays_as_it_is()
    ensures { (records : List Record) (bytes copy : List ℕ) → IsTaken bytes → IsJournalOf Second records bytes → IsCopied records bytes copy → copy ≡ bytes }
{}
