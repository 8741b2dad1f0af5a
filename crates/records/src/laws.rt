//! What the spelling of records says as a whole, as laws. An edit's types promise that it is in the grammar.

ghost use Rattle.std.specs.Prelude.{◌≡◌, ◌↔◌, ◌≤◌, ◌<◌, ◌+◌, ◌++◌, [], ℕ, List, length, All};
ghost use Rattle.records.specs.Payloads.{Holds, IsInGrammar, payload, longest_payload, most_payload, encoded};
ghost use Rattle.records.specs.Sheets.{Record};
ghost use Rattle.records.specs.declared.formats.Format.{Format};
ghost use Rattle.records.specs.declared.formats.Format.TheVariants.{First, Second};

use crate::formats::Format;
use crate::payloads::Record;

/// A payload in a format is that of at most one record.
pub fn payload_of_one_record()
    ensures { (format : Format) (a b : Record) → IsInGrammar format a → IsInGrammar format b → payload format a ≡ payload format b → a ≡ b }
{}

/// No length and payload begins another record's of the same format: what follows a record can't make it another one.
pub fn none_begins_another()
    ensures { (format : Format) (a b : Record) (x y : List ℕ) → IsInGrammar format a → IsInGrammar format b → encoded format a ++ x ≡ encoded format b ++ y → (a ≡ b) × (x ≡ y) }
{}

/// Each record of the second format whose comment is empty has a payload in the first format too, and no other record has one there.
pub fn formats_hold()
    ensures { (piece : Record) → IsInGrammar First piece ↔ IsInGrammar Second piece × (piece.edit.comment ≡ []) }
{}

/// A record of the code is in the grammar of a format that holds its comment.
pub fn keeps_grammar(piece: &Record, format: Format)
    requires { Holds format piece.now.edit.comment }
    ensures { IsInGrammar format piece.now }
{
    let _format = format;
    let edit = piece.edit();
    let _by = edit.by.as_slice();
    let _reference = edit.reference.as_slice();
    let _digits = edit.site.digits();
    let _comment = edit.comment.as_slice();
    let _sheets = piece.sheets();
}

/// How long a record's bytes are, and that they are bytes where its sheets are texts of bytes, as in each record of the code. No
/// payload passes what the formats allow.
pub fn sizes()
    ensures length { (format : Format) (piece : Record) → length (encoded format piece) ≡ 4 + length (payload format piece) }
    ensures longest { (format : Format) (piece : Record) → IsInGrammar format piece → length (payload format piece) ≤ longest_payload }
    ensures most { (format : Format) (piece : Record) → IsInGrammar format piece → length (payload format piece) ≤ most_payload }
    ensures bytes { (format : Format) (piece : Record) → IsInGrammar format piece → All (All (λ byte. byte < 256)) piece.sheets → All (λ byte. byte < 256) (encoded format piece) }
{}
