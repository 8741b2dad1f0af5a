//! The rows of a file played, and whether each came out as due.

use crate::flaws::flawed_line;
use crate::objects::{Ran, cabinet_of, ran_over};
use crate::rows::{asked_in, head_of, says, told};
use crate::streams::{Side, push_stream};
use crate::texts::{At, number_of, push_bytes, push_shown, push_text};
use devices::{MemoryCabinet, MemoryDisk, MemoryDoors, MemoryEnds, MemorySink};
use fixed_units::{NoMemory, Text};
use std::alloc::Global;
use std::sync::Wait;
use std::thread::Threads;
use std::time::Clock;

/// How the runs of a file ended.
#[derive(Clone, Copy)]
pub enum Ended<'a> {
    /// So many runs came as due, by so many lines of requests.
    AsDue(u64, u64),
    /// The first row that did not, and what of it.
    Otherwise(&'a str, &'static str),
    /// There was no memory for a run.
    NoMemory,
}

/// Texts that each run writes anew.
#[derive(Drop)]
pub struct Room {
    /// What is due and what came in its place.
    pub told: Text,
    due: Text,
    body: Text,
    runs: u64,
}

impl Room {
    /// Room of no bytes.
    pub fn new(alloc: Global) -> Room {
        Room {
            told: Text::new(alloc),
            due: Text::new(alloc),
            body: Text::new(alloc),
            runs: 0,
        }
    }
}

/// Plays each row of a file.
pub fn play_cases<'a, R: Threads + Wait + Clock + Copy + Drop + Send + 'static>(
    rt: R,
    alloc: Global,
    file: &'a str,
    room: &mut Room,
) -> Ended<'a> {
    let flawed = flawed_line(file);
    if !flawed.is_empty() {
        return Ended::Otherwise(flawed, "a line is");
    }
    for row in file.split("\n==").skip(1) {
        match play_case(rt, alloc, file, row, room) {
            Ok("") => {}
            Ok(what) => return Ended::Otherwise(row, what),
            Err(NoMemory) => return Ended::NoMemory,
        }
    }
    Ended::AsDue(room.runs, asked_in(file))
}

/// What of a row is not as due; an empty text where all is.
fn play_case<R: Threads + Wait + Clock + Copy + Drop + Send + 'static>(
    rt: R,
    alloc: Global,
    file: &str,
    row: &str,
    room: &mut Room,
) -> Result<&'static str, NoMemory> {
    let flaw = flaw_of(row);
    if !flaw.is_empty() {
        return Ok(flaw);
    }
    let mut cabinet = cabinet_of(alloc, file, row)?;
    let what = play_runs(rt, alloc, file, row, &mut cabinet, room)?;
    if what.is_empty() {
        judge_cabinet(file, row, &cabinet, room)
    } else {
        Ok(what)
    }
}

/// What a row lacks. One in which calls of a disk fail must tell what the disk has then, which is seldom what it had, and one in which any
/// call fails how many faults the cabinet counts.
fn flaw_of(row: &str) -> &'static str {
    if !row.contains("\nrun") {
        "without a run, it is"
    } else if row.contains("\nfail disk") && !tells_both(row, "journal ", "left ") {
        "without a journal and what is left, it is"
    } else if row.contains("\nfail copy") && !tells_both(row, "copy ", "copied ") {
        "without a copy and what is copied, it is"
    } else if fails(row) && told(row, "faults ").is_empty() {
        "without the count of faults, it is"
    } else {
        ""
    }
}

/// Whether a row tells what a disk has before and behind its runs.
fn tells_both(row: &str, before: &str, behind: &str) -> bool {
    !told(row, before).is_empty() && !told(row, behind).is_empty()
}

fn fails(row: &str) -> bool {
    row.contains("\nfail disk") || row.contains("\nfail copy") || row.contains("\nfail cabinet")
}

/// What of the runs over a cabinet is not as due.
fn play_runs<R: Threads + Wait + Clock + Copy + Drop + Send + 'static>(
    rt: R,
    alloc: Global,
    file: &str,
    row: &str,
    cabinet: &mut MemoryCabinet,
    room: &mut Room,
) -> Result<&'static str, NoMemory> {
    for run in row.split("\nrun").skip(1) {
        let what = play_run(rt, alloc, file, run, cabinet, room)?;
        if !what.is_empty() {
            return Ok(what);
        }
        room.runs = room.runs.saturating_add(1);
    }
    Ok("")
}

fn play_run<R: Threads + Wait + Clock + Copy + Drop + Send + 'static>(
    rt: R,
    alloc: Global,
    file: &str,
    run: &str,
    cabinet: &mut MemoryCabinet,
    room: &mut Room,
) -> Result<&'static str, NoMemory> {
    let ran = ran_over(rt, alloc, file, run, cabinet, &mut room.body)?;
    judge(file, run, &ran, room)
}

/// What of what a run wrote, told and answered is not as due.
fn judge(file: &str, run: &str, ran: &Ran, room: &mut Room) -> Result<&'static str, NoMemory> {
    room.due.truncate(0);
    push_text(At { file, round: 0 }, told(run, "told "), &mut room.due)?;
    if !is_same(ran.faults.bytes(), room)? {
        return Ok("what is told is");
    }
    if !is_written(file, head_of(run), &ran.output, room)? {
        return Ok("what is written is");
    }
    let what = judge_connections(file, run, &ran.doors, room)?;
    if what.is_empty() {
        judge_end(head_of(run), ran, room)
    } else {
        Ok(what)
    }
}

/// Whether what was written is what is due, or what may come in its place.
fn is_written(
    file: &str,
    run: &str,
    output: &MemorySink,
    room: &mut Room,
) -> Result<bool, NoMemory> {
    for replies in run.split("\nor\n") {
        room.told.truncate(0);
        room.due.truncate(0);
        push_stream(file, replies, Side::Replied, &mut room.body, &mut room.due)?;
        if is_same(output.bytes(), room)? {
            return Ok(true);
        }
    }
    Ok(false)
}

/// What of the connections at the doors is not as due.
fn judge_connections(
    file: &str,
    run: &str,
    doors: &MemoryDoors,
    room: &mut Room,
) -> Result<&'static str, NoMemory> {
    let due = told(head_of(run), "given ");
    let due = if due.is_empty() { "0" } else { due };
    if !is_number(doors.given_count() as u64, due, room)? {
        return Ok("the count of connections is");
    }
    let mut number = 0_u32;
    for connection in run.split("\nconnection").skip(1) {
        number = number.saturating_add(1);
        let what = judge_connection(file, connection, doors.ends(number), room)?;
        if !what.is_empty() {
            return Ok(what);
        }
    }
    Ok("")
}

/// What of a connection is not as due, which is taken back or is not let in.
fn judge_connection(
    file: &str,
    connection: &str,
    ends: Option<&MemoryEnds>,
    room: &mut Room,
) -> Result<&'static str, NoMemory> {
    match ends {
        Some(ends) => judge_ends(file, connection, ends, room),
        None if says(connection, "unread") && !connection.contains("\n<") => Ok(""),
        None => Ok("whether a connection is let in is"),
    }
}

fn judge_ends(
    file: &str,
    connection: &str,
    ends: &MemoryEnds,
    room: &mut Room,
) -> Result<&'static str, NoMemory> {
    if !is_written(file, connection, &ends.output, room)? {
        return Ok("what is written to a connection is");
    }
    Ok(judge_reads(connection, ends.input.calls()))
}

fn judge_end(run: &str, ran: &Ran, room: &mut Room) -> Result<&'static str, NoMemory> {
    if !is_number(u64::from(ran.status), told(run, "status "), room)? {
        return Ok("the status is");
    }
    Ok(judge_reads(run, ran.reads))
}

/// Whether an input is not asked for bytes exactly where that is due.
fn judge_reads(run: &str, reads: u64) -> &'static str {
    if says(run, "unread") == (reads == 0) {
        ""
    } else {
        "whether an input is read is"
    }
}

/// What of what the cabinet has and counted is not as due.
fn judge_cabinet(
    file: &str,
    row: &str,
    cabinet: &MemoryCabinet,
    room: &mut Room,
) -> Result<&'static str, NoMemory> {
    if !is_number(cabinet.fault_count(), faults_of(row), room)? {
        return Ok("the count of faults is");
    }
    if !is_as_called(row, cabinet, room)? {
        return Ok("the count of calls is");
    }
    if !is_left(file, told(row, "left "), cabinet.disk("J"), room)? {
        return Ok("what is left is");
    }
    if is_left(file, told(row, "copied "), cabinet.disk("G"), room)? {
        Ok("")
    } else {
        Ok("what is copied is")
    }
}

/// The count of faults that is due.
fn faults_of(row: &str) -> &str {
    let faults = told(row, "faults ");
    if faults.is_empty() { "0" } else { faults }
}

/// Whether the disk had as many calls as are due, where that is told.
fn is_as_called(row: &str, cabinet: &MemoryCabinet, room: &mut Room) -> Result<bool, NoMemory> {
    let calls = told(row, "calls ");
    if calls.is_empty() {
        return Ok(true);
    }
    match cabinet.disk("J") {
        Some(disk) => is_number(disk.call_count(), calls, room),
        None => Ok(false),
    }
}

/// Whether a disk has what is due, where that is told.
fn is_left(
    file: &str,
    left: &str,
    disk: Option<&MemoryDisk>,
    room: &mut Room,
) -> Result<bool, NoMemory> {
    match disk {
        _ if left.is_empty() => Ok(true),
        None => Ok(left == "nothing"),
        Some(_) if left == "nothing" => Ok(false),
        Some(disk) => {
            room.due.truncate(0);
            push_bytes(file, left, &mut room.due)?;
            is_same(disk.bytes(), room)
        }
    }
}

/// Whether a number is the one of these digits.
fn is_number(came: u64, digits: &str, room: &mut Room) -> Result<bool, NoMemory> {
    room.due.truncate(0);
    room.due.push_slice(digits.as_bytes())?;
    room.body.truncate(0);
    room.body.push_number(came)?;
    if room.body.as_slice() == room.due.as_slice() {
        return Ok(true);
    }
    tell_both(&room.due, room.body.as_slice(), 0, &mut room.told)?;
    Ok(false)
}

/// Whether bytes are those that are due; else both are told, from a little before where they differ.
fn is_same(came: &[u8], room: &mut Room) -> Result<bool, NoMemory> {
    if came == room.due.as_slice() {
        return Ok(true);
    }
    let from = first_difference(came, room.due.as_slice()).saturating_sub(40);
    tell_both(&room.due, came, from, &mut room.told)?;
    Ok(false)
}

fn first_difference(came: &[u8], due: &[u8]) -> usize {
    let mut same = 0_usize;
    for (one, other) in came.iter().zip(due) {
        if one != other {
            return same;
        }
        same = same.saturating_add(1);
    }
    same
}

fn tell_both(due: &Text, came: &[u8], from: usize, told: &mut Text) -> Result<(), NoMemory> {
    told.push_slice(b"`")?;
    push_shown(excerpt(due.as_slice(), from), told)?;
    told.push_slice(b"` is due, and `")?;
    push_shown(excerpt(came, from), told)?;
    told.push_slice(b"` came")
}

/// At most 300 bytes from this one on.
fn excerpt(bytes: &[u8], from: usize) -> &[u8] {
    let rest = bytes.get(from..).unwrap_or(&[]);
    rest.get(..300).unwrap_or(rest)
}
