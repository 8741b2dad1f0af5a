//! The headers by which journals of the two formats are known.

ghost use Rattle.std.specs.Prelude.{◌≡◌, ◌↔◌, true, IfSome, None};
ghost use Rattle.journal.specs.JournalBytes.{HasAnyHeader, HasHeader, empty_journal};
ghost use Rattle.records.specs.declared.formats.Format.{Format};

use records::Format;

/// The bytes that every journal of the first format begins with.
const FIRST_HEADER: &[u8] = b"STREAMOFFICE-J1\n";

/// The bytes that every journal of the second format begins with.
const SECOND_HEADER: &[u8] = b"STREAMOFFICE-J2\n";

/// The format whose header these bytes begin with.
pub(crate) fn format_of(bytes: &[u8]) -> Option<Format>
    ensures some { IfSome result (λ format. HasHeader format bytes.now) }
    ensures none { result ≡ None → ¬ HasAnyHeader bytes.now }
{
    if bytes.starts_with(FIRST_HEADER) {
        Some(Format::First)
    } else if bytes.starts_with(SECOND_HEADER) {
        Some(Format::Second)
    } else {
        None
    }
}

/// A journal of no records.
pub(crate) fn empty_journal(format: Format) -> [u8; 17]
    ensures { result ≡ empty_journal format }
{
    match format {
        Format::First => *b"STREAMOFFICE-J1\n\0",
        Format::Second => *b"STREAMOFFICE-J2\n\0",
    }
}

/// Whether these bytes are a journal of no records, of either format.
pub(crate) fn is_empty_journal(bytes: &[u8; 17]) -> bool
    ensures { result ≡ true ↔ (format : Format) × (bytes.now ≡ empty_journal format) }
{
    *bytes == empty_journal(Format::First) || *bytes == empty_journal(Format::Second)
}
