//! The bytes of replies.

ghost use Rattle.std.specs.Prelude.{◌≡◌, ◌++◌, true, take, length, decimal, OnOk, OnErr};
ghost use Rattle.wire.specs.ReplyHead.{is_reply_status, is_allowance};
ghost use Rattle.http_api.specs.Replies.{answer_text, body_of, status_of, allow_of, kind_of, bytes_of, edit_text, turned_text, counts_text, pending_line};

use crate::accepted_edits::write_accepted_edit;
use crate::asks::Denied;
use crate::days::{DayReply, write_day_reply};
use crate::departures::write_departure;
use crate::failures::failure_of;
use crate::json_texts::write_flag;
use crate::stations::write_station;
use crate::tables::write_table;
use edits::Edit;
use fixed_units::{NoMemory, Text};
use measurements::Departure;
use office_inputs::{Refusal, Station};
use std::alloc::Global;
use wire::{Kind, MALFORMED_REPLY, NO_MEMORY_REPLY, Verb, write_head};

/// What is replied to a message.
#[derive(Drop)]
pub enum Reply<'a> {
    /// An edit was accepted.
    Edit {
        /// Its number.
        number: u64,
        /// Whether it had been accepted before.
        repeated: bool,
    },
    /// Turns were made, or a settlement.
    Turned {
        /// How many days are pending after them.
        pending: u64,
        /// How many days were published.
        published: u64,
    },
    /// The counts.
    Counts {
        /// How many edits were accepted.
        edits: u64,
        /// How many days are pending.
        pending: u64,
    },
    /// What is in force at a station.
    Station(&'a Station),
    /// What is known of a day.
    Day(DayReply<'a>),
    /// What is known of the days of a daily table, one after another.
    Daily(&'a [DayReply<'a>]),
    /// The primary computation sheet of a day.
    Sheet(&'a [u8]),
    /// The day whose sheet is asked for awaits a publication behind this edit, and no sheet is kept of it.
    SheetPending(u64),
    /// What a field measurement says of the rating in force.
    Measurement(Departure),
    /// An accepted edit that is asked for.
    EditOf(&'a Edit),
    /// The station that is asked for is not kept.
    NoStation,
    /// The station that is asked for has no measurement of that number.
    NoMeasurement,
    /// No edit of the number that is asked for was accepted.
    NoEdit,
    /// The request asks nothing.
    Denied(Denied),
    /// The edit is refused.
    Refused(Refusal),
    /// The length of a body is needed.
    NoLength,
    /// The body is too large.
    TooLarge,
    /// The bytes are no well framed request.
    Malformed,
    /// There was no memory for the request.
    NoMemory,
}

/// Adds the body of a reply. After `NoMemory` the text is as before.
pub fn reply_text(alloc: Global, reply: &Reply<'_>, out: &mut Text) -> Result<(), NoMemory>
    ensures ok { OnOk result (out.new ≡ out.old ++ body_of reply.now) }
    ensures err { OnErr result (out.new ≡ out.old) }
{
    let before = out.len();
    let written = write_body(alloc, reply, out);
    if written.is_err() {
        out.truncate(before);
    }
    written
}

/// Makes the whole reply, head and body, in `out`, by way of `body`. What the texts held is dropped; after `NoMemory`
/// they may hold anything.
pub fn write_reply(
    alloc: Global,
    reply: &Reply<'_>,
    body: &mut Text,
    out: &mut Text,
) -> Result<(), NoMemory>
    ensures { OnOk result (out.new ≡ bytes_of reply.now) }
{
    body.truncate(0);
    out.truncate(0);
    reply_text(alloc, reply, body)?;
    let (status, allow) = head_of(reply);
    write_head(status, kind_of(reply), allow, body.len(), out)?;
    out.push_slice(body.as_slice())
}

/// The whole replies that need no memory are those of the failures that they tell: a law, which does nothing.
pub fn constants_are_replies()
    ensures no_memory { NO_MEMORY_REPLY.now ≡ bytes_of Reply.NoMemory }
    ensures malformed { MALFORMED_REPLY.now ≡ bytes_of Reply.Malformed }
{
    wire::replies::constants_are_replies();
}

/// The status of a reply, and the method that it allows.
fn head_of(reply: &Reply<'_>) -> (u16, Option<Verb>)
    ensures status { result.0 ≡ status_of reply.now }
    ensures allow { result.1 ≡ allow_of reply.now }
    ensures known { is_reply_status result.0 ≡ true }
    ensures allowed { is_allowance result.0 result.1 ≡ true }
{
    match failure_of(reply) {
        Some(failure) => (failure.status, failure.allow),
        None => (200, None),
    }
}

/// The type of the body of a reply.
fn kind_of(reply: &Reply<'_>) -> Kind
    ensures { result ≡ kind_of reply.now }
{
    match reply {
        Reply::Daily(_) => Kind::Csv,
        Reply::Sheet(_) | Reply::SheetPending(_) => Kind::Plain,
        _ => Kind::Json,
    }
}

/// Adds the body of a reply, of which a part may be added where memory runs out.
#[inline(always)]
fn write_body(alloc: Global, reply: &Reply<'_>, out: &mut Text) -> Result<(), NoMemory>
    ensures ok { OnOk result (out.new ≡ out.old ++ body_of reply.now) }
    ensures err { OnErr result (take (length out.old) out.new ≡ out.old) }
{
    match failure_of(reply) {
        Some(failure) => failure.write(out),
        None => write_answer(alloc, reply, out),
    }
}

/// Adds the body of an answer, of which a part may be added where memory runs out; a failure has none.
fn write_answer(alloc: Global, reply: &Reply<'_>, out: &mut Text) -> Result<(), NoMemory>
    ensures ok { OnOk result (out.new ≡ out.old ++ answer_text reply.now) }
    ensures err { OnErr result (take (length out.old) out.new ≡ out.old) }
{
    match *reply {
        Reply::Edit { number, repeated } => write_edit(number, repeated, out),
        Reply::Turned { pending, published } => write_turned(pending, published, out),
        Reply::Counts { edits, pending } => write_counts(edits, pending, out),
        Reply::Station(station) => write_station(station, out),
        Reply::Day(ref day) => write_day_reply(day, out),
        Reply::Daily(days) => write_table(alloc, days, out),
        Reply::Sheet(text) => out.push_slice(text),
        Reply::SheetPending(edit) => write_pending(edit, out),
        Reply::Measurement(ref departure) => write_departure(departure, out),
        Reply::EditOf(edit) => write_accepted_edit(edit, out),
        _ => Ok(()),
    }
}

/// Adds the body for an accepted edit, of which a part may be added where memory runs out.
fn write_edit(number: u64, repeated: bool, out: &mut Text) -> Result<(), NoMemory>
    ensures ok { OnOk result (out.new ≡ out.old ++ edit_text number repeated) }
    ensures err { OnErr result (take (length out.old) out.new ≡ out.old) }
{
    out.push_slice(b"{\"edit\":")?;
    out.push_number(number)?;
    out.push_slice(b",\"repeated\":")?;
    write_flag(repeated, out)?;
    out.push_slice(b"}")
}

/// Adds the body for turns, of which a part may be added where memory runs out.
fn write_turned(pending: u64, published: u64, out: &mut Text) -> Result<(), NoMemory>
    ensures ok { OnOk result (out.new ≡ out.old ++ turned_text pending published) }
    ensures err { OnErr result (take (length out.old) out.new ≡ out.old) }
{
    write_number(b"{\"pending\":", pending, out)?;
    write_number(b",\"published\":", published, out)?;
    out.push_slice(b"}")
}

/// Adds the body for the counts, of which a part may be added where memory runs out.
fn write_counts(edits: u64, pending: u64, out: &mut Text) -> Result<(), NoMemory>
    ensures ok { OnOk result (out.new ≡ out.old ++ counts_text edits pending) }
    ensures err { OnErr result (take (length out.old) out.new ≡ out.old) }
{
    write_number(b"{\"edits\":", edits, out)?;
    write_number(b",\"pending\":", pending, out)?;
    out.push_slice(b"}")
}

/// Adds the line for a sheet of a day that awaits an edit, of which a part may be added where memory runs out.
fn write_pending(edit: u64, out: &mut Text) -> Result<(), NoMemory>
    ensures ok { OnOk result (out.new ≡ out.old ++ pending_line edit) }
    ensures err { OnErr result (take (length out.old) out.new ≡ out.old) }
{
    write_number(b"PENDING ", edit, out)?;
    out.push_slice(b"\n")
}

/// Adds a number behind the name of its member, of which a part may be added where memory runs out.
fn write_number(before: &[u8], number: u64, out: &mut Text) -> Result<(), NoMemory>
    ensures ok { OnOk result (out.new ≡ out.old ++ (before.now ++ decimal number)) }
    ensures err { OnErr result (take (length out.old) out.new ≡ out.old) }
{
    out.push_slice(before)?;
    out.push_number(number)
}
