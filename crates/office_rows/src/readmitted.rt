//! What is said to the records that an office is opened with, of which a book has the bytes: lines `record NAME HEXADECIMAL`, the bytes
//! of a record in a journal without its gate.

ghost use Rattle.std.specs.Prelude.{IfSome};
ghost use Rattle.records.specs.Payloads.{Holds};

use crate::blocks::{Bench, play_on};
use crate::told::{push_number_behind, push_refusal};
use fixed_units::{NoMemory, Text};
use office_inputs::Limits;
use records::{Format, Record, decode};
use register::{NotReadmitted, Register};
use row_lines::{Ended, parted};
use std::alloc::Global;

/// Each act is on records alone.
#[derive(Drop)]
pub struct Readmissions;

/// Plays a block.
pub fn play<'a>(alloc: Global, book: &str, block: &'a str, came: &mut Text) -> Ended<'a> {
    play_on(alloc, &mut Readmissions, book, block, came)
}

impl Bench for Readmissions {
    /// `readmit NAME NAME`: what is said to two records, one after another, and with how many edits the office is opened then.
    fn act(
        &mut self,
        alloc: Global,
        book: &str,
        act: &str,
        came: &mut Text,
    ) -> Result<(), NoMemory> {
        let (_, names) = parted(act);
        let (first, second) = parted(names);
        match record(alloc, book, first) {
            Some(first) => tell_with(alloc, first, book, second, came),
            None => came.push_slice(b"not well formed"),
        }
    }
}

fn tell_with(
    alloc: Global,
    first: Record,
    book: &str,
    second: &str,
    came: &mut Text,
) -> Result<(), NoMemory>
    requires { Holds Format.First first.edit.comment }
{
    match record(alloc, book, second) {
        Some(second) => tell(readmitted(alloc, first, second), came),
        None => came.push_slice(b"not well formed"),
    }
}

/// What is said to two records, and with how many edits an office is opened then.
type Said = (Result<(), NotReadmitted>, Result<(), NotReadmitted>, u64);

fn readmitted(alloc: Global, first: Record, second: Record) -> Said
    requires first { Holds Format.First first.edit.comment }
    requires second { Holds Format.First second.edit.comment }
{
    let mut register = Register::new(alloc, Limits::usual(), Format::First);
    let said = register.readmit(first);
    let next = register.readmit(second);
    (said, next, register.opened())
}

fn tell(said: Said, came: &mut Text) -> Result<(), NoMemory> {
    push_said(said.0, came)?;
    came.push_slice(b", ")?;
    push_said(said.1, came)?;
    push_number_behind(b", edits ", said.2, came)
}

fn push_said(said: Result<(), NotReadmitted>, came: &mut Text) -> Result<(), NoMemory> {
    match said {
        Ok(()) => came.push_slice(b"taken"),
        Err(NotReadmitted::Refused(refusal)) => push_refusal(refusal, came),
        Err(NotReadmitted::NoMemory) => Err(NoMemory),
    }
}

/// The record of a name, in the first format.
fn record(alloc: Global, book: &str, name: &str) -> Option<Record>
    ensures { IfSome result (λ piece. Holds Format.First piece.edit.comment) }
{
    let mut bytes = Vec::new(alloc);
    if !add_record(&mut bytes, book, name) {
        return None;
    }
    match decode(alloc, bytes.get(4..)?, Format::First) {
        Ok(piece) => Some(piece),
        Err(_) => None,
    }
}

/// Whether the bytes of the record of a name are added.
pub fn add_record(bytes: &mut Vec<u8>, book: &str, name: &str) -> bool {
    for line in book.lines() {
        if let Some(rest) = line.strip_prefix("record ") {
            let (named, digits) = parted(rest);
            if named == name {
                return add_hexadecimal(bytes, digits.as_bytes());
            }
        }
    }
    false
}

/// Whether bytes of two digits each are added.
fn add_hexadecimal(bytes: &mut Vec<u8>, digits: &[u8]) -> bool {
    for pair in digits.chunks(2) {
        if !add_byte(bytes, pair) {
            return false;
        }
    }
    true
}

fn add_byte(bytes: &mut Vec<u8>, pair: &[u8]) -> bool {
    match byte_of(pair) {
        Some(byte) => bytes.push(byte).is_ok(),
        None => false,
    }
}

fn byte_of(pair: &[u8]) -> Option<u8> {
    match pair {
        [high, low] => digit(*high)?.checked_mul(16)?.checked_add(digit(*low)?),
        _ => None,
    }
}

fn digit(code: u8) -> Option<u8> {
    match code {
        b'0'..=b'9' => Some(code - b'0'),
        b'a'..=b'f' => Some(code - b'a' + 10),
        _ => None,
    }
}
