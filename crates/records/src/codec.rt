//! The bytes of a record in the journal, both ways.

ghost use Rattle.std.specs.Prelude.{◌≡◌, ◌≢◌, IfOk, Err};
ghost use Rattle.records.specs.Drafts.{parts, AreLawful};
ghost use Rattle.records.specs.Payloads.{Holds, IsInGrammar, payload, encoded, encoded_and_closed};
ghost use Rattle.records.specs.Sheets.{Record};

use crate::drafts::{is_lawful, record_from};
use crate::formats::Format;
use crate::lengths::record_len;
use crate::parsing::draft_of;
use crate::payloads::{DecodeFault, Record};
use crate::writing::put_record;
use fixed_units::{NoMemory, Text};
use std::alloc::Global;

/// The gate behind the last record of a journal.
const CLOSED_GATE: u8 = 0;

/// The length and the payload of a record in a format that holds its comment.
pub fn encode(alloc: Global, piece: &Record, format: Format) -> Result<Text, NoMemory>
    requires { Holds format piece.now.edit.comment }
    ensures { IfOk result (λ text. text ≡ encoded format piece.now) }
{
    let len = record_len(piece, format);
    let mut out = Vec::with_capacity(alloc, 5 + len)?;
    out.extend_from_slice(&(len as u32).to_le_bytes())?;
    put_record(&mut out, piece, format)?;
    Ok(Text::from_vec(out))
}

/// The length and the payload of a record in a format that holds its comment, and the closed gate behind it: what is added to a
/// journal of that format.
pub fn encode_and_close(alloc: Global, piece: &Record, format: Format) -> Result<Text, NoMemory>
    requires { Holds format piece.now.edit.comment }
    ensures { IfOk result (λ text. text ≡ encoded_and_closed format piece.now) }
{
    let mut bytes = encode(alloc, piece, format)?;
    bytes.push(CLOSED_GATE)?;
    Ok(bytes)
}

/// The record whose payload in a format this is.
///
/// # Errors
///
/// [`DecodeFault::NotARecord`] exactly where it is the payload of no record in that format, and
/// [`DecodeFault::NoMemory`] where there was no memory for the record.
pub fn decode(alloc: Global, bytes: &[u8], format: Format) -> Result<Record, DecodeFault>
    ensures found { IfOk result (λ piece. (bytes.now ≡ payload format piece) × IsInGrammar format piece) }
    ensures again { (piece : Record) → IsInGrammar format piece → bytes.now ≡ payload format piece → IfOk result (λ found. found ≡ piece) }
    ensures refused { result ≡ Err DecodeFault.NotARecord → (piece : Record) → IsInGrammar format piece → bytes.now ≢ payload format piece }
    ensures memory { result ≡ Err DecodeFault.NoMemory → (piece : Record) × IsInGrammar format piece × (bytes.now ≡ payload format piece) }
{
    let Some(draft) = draft_of(bytes, format) else {
        return Err(DecodeFault::NotARecord);
    };
    match is_lawful(alloc, &draft) {
        Ok(true) => {}
        Ok(false) => return Err(DecodeFault::NotARecord),
        Err(NoMemory) => return Err(DecodeFault::NoMemory),
    }
    match record_from(alloc, &draft) {
        Ok(piece) => Ok(piece),
        Err(NoMemory) => Err(DecodeFault::NoMemory),
    }
}
