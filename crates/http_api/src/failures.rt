//! The failures: of each reply that is no answer, its status, its code and what it tells beside.

ghost use Rattle.std.specs.Prelude.{◌≡◌, ◌≤◌, ◌++◌, ◌∷◌, [], None, take, length, OnOk, OnErr};
ghost use Rattle.http_api.specs.Failures.{denial_row, refusal_row, failure_of, failure_text, detail_text, day_member, edit_member, which_text, full_text};

use crate::asks::Denied;
use crate::json_texts::{write_flag, write_time};
use crate::replies::Reply;
use civil_days::write_day;
use edit_bodies::Member;
use fixed_units::{Day, NoMemory, Second, Text};
use office_inputs::{Full, Refusal, Which};
use std::marker::Model;
use wire::Verb;

/// What a failure tells beside its code.
#[derive(Clone, Copy, PartialEq, Eq)]
pub(crate) enum Detail {
    /// Nothing.
    Nothing,
    /// The number of an edit.
    Edit(u64),
    /// A day.
    Day(Day),
    /// A day, and the number of the edit that it awaits.
    Awaits(Day, u64),
    /// The start of a period.
    From(Second),
    /// The number of a line.
    Line(u64),
    /// Which limit was met.
    Limit(Which),
    /// What is full.
    Full(Full),
    /// A member of a body.
    Member(Member),
    /// Whether an edit may stand in the journal.
    InDoubt(bool),
}

/// A failure: contracts see its row.
#[derive(Drop)]
pub(crate) struct Failure {
    /// The status of the reply.
    pub(crate) status: u16,
    /// The method that is allowed, where another one was used.
    pub(crate) allow: Option<Verb>,
    /// Its code.
    code: &'static str,
    /// What it tells beside.
    detail: Detail,
}

impl Model for Failure {
    ghost use Rattle.http_api.specs.Failures.{FailureRow};

    ghost Value = { FailureRow };

    ghost view = { λ f. record { status = f.status; allow = f.allow; code = f.code.now; detail = f.detail } };
}

/// A failure that allows no other method.
fn told(status: u16, code: &'static str, detail: Detail) -> Failure
    ensures { result ≡ record { status = status; allow = None; code = code.entry.now; detail = detail } }
{
    Failure {
        status,
        allow: None,
        code,
        detail,
    }
}

/// The failure that a reply tells, unless it is an answer.
#[inline(always)]
pub(crate) fn failure_of(reply: &Reply<'_>) -> Option<Failure>
    ensures { result ≡ failure_of reply.now }
{
    match reply {
        Reply::NoStation => Some(told(404, "NoStation", Detail::Nothing)),
        Reply::NoMeasurement => Some(told(404, "NoMeasurement", Detail::Nothing)),
        Reply::NoEdit => Some(told(404, "NoEdit", Detail::Nothing)),
        Reply::Denied(denied) => Some(denial(*denied)),
        Reply::Refused(refusal) => Some(refusal_failure(*refusal)),
        Reply::NoLength => Some(told(411, "NoLength", Detail::Nothing)),
        Reply::TooLarge => Some(told(413, "TooLarge", Detail::Nothing)),
        Reply::Malformed => Some(told(400, "Malformed", Detail::Nothing)),
        Reply::NoMemory => Some(told(507, "NoMemory", Detail::Nothing)),
        Reply::Edit { .. }
        | Reply::Turned { .. }
        | Reply::Counts { .. }
        | Reply::Station(_)
        | Reply::Day(_)
        | Reply::Daily(_)
        | Reply::Sheet(_)
        | Reply::SheetPending(_)
        | Reply::Measurement(_)
        | Reply::EditOf(_) => None,
    }
}

/// Why a request asks nothing.
fn denial(denied: Denied) -> Failure
    ensures { result ≡ denial_row denied }
{
    match denied {
        Denied::NoRoute => told(404, "NoRoute", Detail::Nothing),
        Denied::NotAllowed(Verb::Other) => told(404, "NoRoute", Detail::Nothing),
        Denied::NotAllowed(verb) => Failure {
            status: 405,
            allow: Some(verb),
            code: "NotAllowed",
            detail: Detail::Nothing,
        },
        Denied::Json => told(400, "Json", Detail::Nothing),
        Denied::Body(member) => told(400, "Body", Detail::Member(member)),
        Denied::Rdb(fault) => told(400, "Rdb", Detail::Line(fault.line())),
        Denied::NoMemory => told(507, "NoMemory", Detail::Nothing),
    }
}

/// The code of a refusal, as it stands in the body of its reply.
pub fn code_name(refusal: &Refusal) -> &'static str
    ensures name { result.now ≡ (refusal_row refusal.now).code }
    ensures size { length result.now ≤ 15 }
{
    refusal_failure(*refusal).code
}

/// Why an edit is refused.
fn refusal_failure(refusal: Refusal) -> Failure
    ensures { result ≡ refusal_row refusal }
{
    match refusal {
        Refusal::RefReused(edit) => told(409, "RefReused", Detail::Edit(edit)),
        Refusal::NoStation => told(409, "NoStation", Detail::Nothing),
        Refusal::StationExists => told(409, "StationExists", Detail::Nothing),
        Refusal::Limit(which) => told(409, "Limit", Detail::Limit(which)),
        Refusal::NoRating => told(409, "NoRating", Detail::Nothing),
        Refusal::RatingExists => told(409, "RatingExists", Detail::Nothing),
        Refusal::PeriodOverlap(from) => told(409, "PeriodOverlap", Detail::From(from)),
        Refusal::NoEntry => told(409, "NoEntry", Detail::Nothing),
        Refusal::NotInReview(day) => told(409, "NotInReview", Detail::Day(day)),
        Refusal::SamePerson(day) => told(409, "SamePerson", Detail::Day(day)),
        Refusal::Awaits(day, edit) => told(409, "Awaits", Detail::Awaits(day, edit)),
        Refusal::NotApproved(day) => told(409, "NotApproved", Detail::Day(day)),
        Refusal::AlreadyApproved(day) => told(409, "AlreadyApproved", Detail::Day(day)),
        Refusal::Locked(day) => told(423, "Locked", Detail::Day(day)),
        Refusal::HistoryFull(full) => told(409, "HistoryFull", Detail::Full(full)),
        Refusal::NoComments => told(409, "NoComments", Detail::Nothing),
        Refusal::JournalFull => told(409, "JournalFull", Detail::Nothing),
        Refusal::NoMemory => told(507, "NoMemory", Detail::Nothing),
        Refusal::JournalFault(in_doubt) => { told(503, "JournalFault", Detail::InDoubt(in_doubt)) }
    }
}

impl Failure {
    /// Adds the body, of which a part may be added where memory runs out.
    pub(crate) fn write(&self, out: &mut Text) -> Result<(), NoMemory>
        ensures ok { OnOk result (out.new ≡ out.old ++ failure_text self.now) }
        ensures err { OnErr result (take (length out.old) out.new ≡ out.old) }
    {
        out.push_slice(b"{\"code\":\"")?;
        out.push_slice(self.code.as_bytes())?;
        out.push_slice(b"\"")?;
        write_detail(self.detail, out)?;
        out.push_slice(b"}")
    }
}

/// Adds the member behind the code, of which a part may be added where memory runs out.
fn write_detail(detail: Detail, out: &mut Text) -> Result<(), NoMemory>
    ensures ok { OnOk result (out.new ≡ out.old ++ detail_text detail) }
    ensures err { OnErr result (take (length out.old) out.new ≡ out.old) }
{
    match detail {
        Detail::Nothing => Ok(()),
        Detail::Edit(edit) => write_edit_member(edit, out),
        Detail::Day(day) => write_day_member(day, out),
        Detail::Awaits(day, edit) => {
            write_day_member(day, out)?;
            write_edit_member(edit, out)
        }
        Detail::From(from) => {
            out.push_slice(b",\"from\":\"")?;
            write_time(from, out)?;
            out.push_slice(b"\"")
        }
        Detail::Line(line) => {
            out.push_slice(b",\"line\":")?;
            out.push_number(line)
        }
        Detail::Limit(which) => write_word(b",\"limit\":\"", which_name(which), out),
        Detail::Full(full) => write_word(b",\"full\":\"", full_name(full), out),
        Detail::Member(member) => write_word(b",\"member\":\"", member.text().as_bytes(), out),
        Detail::InDoubt(in_doubt) => {
            out.push_slice(b",\"in_doubt\":")?;
            write_flag(in_doubt, out)
        }
    }
}

/// Adds the member for the number of an edit, of which a part may be added where memory runs out.
fn write_edit_member(edit: u64, out: &mut Text) -> Result<(), NoMemory>
    ensures ok { OnOk result (out.new ≡ out.old ++ edit_member edit) }
    ensures err { OnErr result (take (length out.old) out.new ≡ out.old) }
{
    out.push_slice(b",\"edit\":")?;
    out.push_number(edit)
}

/// Adds the member for a day, of which a part may be added where memory runs out.
fn write_day_member(day: Day, out: &mut Text) -> Result<(), NoMemory>
    ensures ok { OnOk result (out.new ≡ out.old ++ day_member day) }
    ensures err { OnErr result (take (length out.old) out.new ≡ out.old) }
{
    out.push_slice(b",\"day\":\"")?;
    write_day(day, out)?;
    out.push_slice(b"\"")
}

/// Adds a member whose value is a word, of which a part may be added where memory runs out.
fn write_word(before: &[u8], word: &[u8], out: &mut Text) -> Result<(), NoMemory>
    ensures ok { OnOk result (out.new ≡ out.old ++ (before.now ++ word.now ++ (34 ∷ []))) }
    ensures err { OnErr result (take (length out.old) out.new ≡ out.old) }
{
    out.push_slice(before)?;
    out.push_slice(word)?;
    out.push_slice(b"\"")
}

fn which_name(which: Which) -> &'static [u8]
    ensures { result.now ≡ which_text which }
{
    match which {
        Which::Stations => b"Stations",
        Which::Readings => b"Readings",
        Which::DayReadings => b"DayReadings",
        Which::Ratings => b"Ratings",
        Which::Entries => b"Entries",
        Which::Periods => b"Periods",
        Which::Measurements => b"Measurements",
        Which::Editions => b"Editions",
    }
}

fn full_name(full: Full) -> &'static [u8]
    ensures { result.now ≡ full_text full }
{
    match full {
        Full::Events => b"Events",
        Full::Cells => b"Cells",
    }
}
