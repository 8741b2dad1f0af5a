//! A whole run that is stopped behind each call of its disk, and one in which each call fails in turn: both are begun again and go on.

use crate::runs::{no_input, sink, source_of, words_of};
use crate::streams::EDITS;
use commands::run_office;
use devices::{
    HandsBack, MemoryCabinet, MemoryDisk, MemoryDoors, MemorySink, MemorySource, OpenGate, Unsynced,
};
use fixed_units::NoMemory;
use std::alloc::Global;
use std::sync::Wait;
use std::test::Fail;
use std::thread::Threads;
use std::time::Clock;

/// A settlement, by which both days that the edits changed are published.
const SETTLEMENT: &[u8] = b"POST /settle HTTP/1.1\r\nContent-Length: 0\r\n\r\n";

/// The reply to it.
const SETTLED: &[u8] =
    b"HTTP/1.1 200 OK\r\nContent-Type: application/json\r\nContent-Length: 27\r\n\r\n{\"pending\":0,\"published\":2}";

/// The first of these days is put in review.
const REVIEW: &[u8] =
    b"POST /edits HTTP/1.1\r\nContent-Length: 94\r\n\r\n{\"kind\":\"Review\",\"by\":\"RV\",\"ref\":\"a5\",\"site\":\"01646500\",\"from\":\"2024-01-05\",\"to\":\"2024-01-05\"}";

/// Another person approves it.
const APPROVAL: &[u8] =
    b"POST /edits HTTP/1.1\r\nContent-Length: 115\r\n\r\n{\"kind\":\"Decide\",\"by\":\"AP\",\"ref\":\"a6\",\"site\":\"01646500\",\"from\":\"2024-01-05\",\"to\":\"2024-01-05\",\"decision\":\"approve\"}";

/// Its sheet is asked for.
const SHEET: &[u8] = b"GET /stations/01646500/days/2024-01-05/sheet HTTP/1.1\r\n\r\n";

/// The reply to an edit, up to its number and behind it, where it is new and where it is there already.
const NEW: (&[u8], &[u8]) = (
    b"HTTP/1.1 200 OK\r\nContent-Type: application/json\r\nContent-Length: 27\r\n\r\n{\"edit\":",
    b",\"repeated\":false}",
);

const REPEATED: (&[u8], &[u8]) = (
    b"HTTP/1.1 200 OK\r\nContent-Type: application/json\r\nContent-Length: 26\r\n\r\n{\"edit\":",
    b",\"repeated\":true}",
);

/// The reply to an edit whose call of the disk failed, without a doubt and with one.
const FAILED: &[u8] =
    b"HTTP/1.1 503 Service Unavailable\r\nContent-Type: application/json\r\nContent-Length: 40\r\n\r\n{\"code\":\"JournalFault\",\"in_doubt\":false}";

const IN_DOUBT: &[u8] =
    b"HTTP/1.1 503 Service Unavailable\r\nContent-Type: application/json\r\nContent-Length: 39\r\n\r\n{\"code\":\"JournalFault\",\"in_doubt\":true}";

/// How many edits there are.
const EDIT_COUNT: u8 = 6;

/// How many calls of the disk an opening of a journal of no records makes, and as many each accepted edit.
const CALLS: u64 = 4;

/// The requests of the run, each edit as often as is said.
fn requests(alloc: Global, times: u32) -> Result<Vec<u8>, NoMemory> {
    let mut requests = Vec::new(alloc);
    for edit in EDITS.split_inclusive(|byte| *byte == b'}') {
        for _time in 0..times {
            requests.extend_from_slice(edit)?;
        }
    }
    requests.extend_from_slice(SETTLEMENT)?;
    for edit in [REVIEW, APPROVAL] {
        for _time in 0..times {
            requests.extend_from_slice(edit)?;
        }
    }
    requests.extend_from_slice(SHEET)?;
    Ok(requests)
}

/// What stands behind the reply to the edit with this number.
fn behind_reply(told: &[u8], number: u8, is_repeated: bool) -> Option<&[u8]> {
    let (head, end) = if is_repeated { REPEATED } else { NEW };
    let (digit, rest) = told.strip_prefix(head)?.split_first()?;
    if digit.wrapping_sub(b'0') != number {
        return None;
    }
    rest.strip_prefix(end)
}

/// What stands behind the replies to the edits and the settlement, where so many of the edits were there already.
fn behind_replies(told: &[u8], kept: u8) -> Option<&[u8]> {
    let mut told = told;
    for number in 1..=EDIT_COUNT {
        if number == 5 {
            told = told.strip_prefix(SETTLED)?;
        }
        told = behind_reply(told, number, number <= kept)?;
    }
    Some(told)
}

/// What stands behind the replies to the same with each edit sent twice, where this call of the disk failed, counted from the one behind which
/// the first edit was sent: a call of an edit's record leaves no doubt, and a call of its gate does.
fn behind_replies_to_twice(told: &[u8], failing: u64) -> Option<&[u8]> {
    let mut told = told;
    let mut calls = 0u64;
    for number in 1..=EDIT_COUNT {
        if number == 5 {
            told = told.strip_prefix(SETTLED)?;
        }
        let place = failing.saturating_sub(calls);
        let has_failed = 0 < place && place <= CALLS;
        told = if has_failed {
            told.strip_prefix(if place < 3 { FAILED } else { IN_DOUBT })?
        } else {
            behind_reply(told, number, false)?
        };
        told = behind_reply(told, number, !has_failed)?;
        calls = calls.saturating_add(CALLS);
    }
    Some(told)
}

/// How many of the edits were acknowledged by so many calls, of a run whose first edit was sent behind these.
fn acknowledged(calls: u64, before: u64) -> u8 {
    (calls.saturating_sub(before) / CALLS).min(EDIT_COUNT as u64) as u8
}

/// An office whose journal is in memory, and what it replied in the last run.
#[derive(Drop)]
struct Played {
    cabinet: MemoryCabinet,
    output: MemorySink,
}

impl Played {
    /// An office whose journal has these bytes, on a disk of which these calls fail.
    fn over(alloc: Global, bytes: Vec<u8>, failing: Vec<u64>) -> Result<Played, NoMemory> {
        let disk = MemoryDisk::new(alloc, bytes, failing)?;
        let mut cabinet = MemoryCabinet::new(alloc, Vec::new(alloc));
        cabinet.insert("J", disk)?;
        Ok(Played {
            cabinet,
            output: sink(alloc),
        })
    }

    /// An office without a journal, on a disk of which this call fails.
    fn failing_at(alloc: Global, call: u64) -> Result<Played, NoMemory> {
        let mut failing = Vec::new(alloc);
        failing.push(call)?;
        Played::over(alloc, Vec::new(alloc), failing)
    }

    /// The status of a run by these words.
    fn ask<R: Threads + Wait + Clock + Copy + Drop + Send + 'static>(
        &mut self,
        rt: R,
        alloc: Global,
        words: &[String],
        input: &mut MemorySource,
    ) -> u8 {
        let mut doors = MemoryDoors::new(alloc, Vec::new(alloc));
        run_office(
            rt,
            alloc,
            words,
            input,
            &mut self.output,
            &mut sink(alloc),
            &mut self.cabinet,
            &mut doors,
            &mut HandsBack::new(),
            &OpenGate,
        )
    }

    /// The status of a run that makes the journal.
    fn init<R: Threads + Wait + Clock + Copy + Drop + Send + 'static>(
        &mut self,
        rt: R,
        alloc: Global,
    ) -> Result<u8, NoMemory> {
        let words = words_of(alloc, "init --journal J")?;
        Ok(self.ask(rt, alloc, &words, &mut no_input(alloc)))
    }

    /// The status of a run that takes these requests.
    fn batch<R: Threads + Wait + Clock + Copy + Drop + Send + 'static>(
        &mut self,
        rt: R,
        alloc: Global,
        requests: &[u8],
    ) -> Result<u8, NoMemory> {
        self.output = sink(alloc);
        let words = words_of(alloc, "batch --journal J")?;
        let mut input = source_of(alloc, &[requests])?;
        Ok(self.ask(rt, alloc, &words, &mut input))
    }

    /// How many calls the disk of the journal has answered.
    fn calls(&self) -> u64 {
        self.cabinet.disk("J").map_or(0, |disk| disk.call_count())
    }

    /// Whether it has replied to the whole run, of whose edits so many were there already, and with this sheet.
    fn has_told(&self, kept: u8, sheet: &[u8]) -> bool {
        behind_replies(self.output.bytes(), kept) == Some(sheet)
    }
}

/// Whether an office that is made and opened over these bytes takes the whole run: of its edits those that were acknowledged are there
/// already, and at most one more; the approved sheet is the same.
fn goes_on<R: Threads + Wait + Clock + Copy + Drop + Send + 'static>(
    rt: R,
    alloc: Global,
    requests: &[u8],
    bytes: Vec<u8>,
    acknowledged: u8,
    sheet: &[u8],
) -> Result<bool, NoMemory> {
    let mut office = Played::over(alloc, bytes, Vec::new(alloc))?;
    office.init(rt, alloc)?;
    let status = office.batch(rt, alloc, requests)?;
    Ok(
        status == 0
            && (office.has_told(acknowledged, sheet)
                || office.has_told(acknowledged.saturating_add(1), sheet)),
    )
}

/// Whether the run is taken whole behind a stop at each moment, whatever becomes of the bytes that were not synced.
fn each_stop_is_survived<R: Threads + Wait + Clock + Copy + Drop + Send + 'static>(
    rt: R,
    alloc: Global,
    requests: &[u8],
    disk: &MemoryDisk,
    before: u64,
    sheet: &[u8],
) -> Result<bool, NoMemory> {
    for calls in 0..=disk.call_count() {
        for unsynced in [Unsynced::Kept, Unsynced::Lost, Unsynced::Ones] {
            let bytes = disk.stopped(alloc, calls as usize, unsynced)?;
            if !goes_on(
                rt,
                alloc,
                requests,
                bytes,
                acknowledged(calls, before),
                sheet,
            )? {
                return Ok(false);
            }
        }
    }
    Ok(true)
}

/// The same, of the run that makes the journal and takes the requests.
fn stops_are_survived<R: Threads + Wait + Clock + Copy + Drop + Send + 'static>(
    rt: R,
    alloc: Global,
    requests: &[u8],
) -> Result<bool, NoMemory> {
    let mut office = Played::over(alloc, Vec::new(alloc), Vec::new(alloc))?;
    office.init(rt, alloc)?;
    let before = office.calls().saturating_add(CALLS);
    let status = office.batch(rt, alloc, requests)?;
    let all = before.saturating_add(CALLS * EDIT_COUNT as u64);
    let Some(sheet) = behind_replies(office.output.bytes(), 0) else {
        return Ok(false);
    };
    let Some(disk) = office.cabinet.disk("J") else {
        return Ok(false);
    };
    if status != 0 || disk.call_count() != all {
        return Ok(false);
    }
    each_stop_is_survived(rt, alloc, requests, disk, before, sheet)
}

#[test]
fn stopped_behind_each_call(rt: HostRuntime) -> Result<(), Fail> {
    let requests = requests(rt.alloc(), 1)?;
    assert!(rt; stops_are_survived(rt, rt.alloc(), &requests)?);
    Ok(())
}

/// Whether a run goes on over a disk one call of which fails: what met it is done again.
fn fault_is_survived<R: Threads + Wait + Clock + Copy + Drop + Send + 'static>(
    rt: R,
    alloc: Global,
    once: &[u8],
    twice: &[u8],
    failing: u64,
    sheet: &[u8],
) -> Result<bool, NoMemory> {
    let mut office = Played::failing_at(alloc, failing)?;
    office.init(rt, alloc)?;
    office.init(rt, alloc)?;
    let made = office.calls();
    let opened = made.saturating_add(CALLS);
    if made < failing && failing <= opened {
        let status = office.batch(rt, alloc, twice)?;
        if status == 0 || !office.output.bytes().is_empty() {
            return Ok(false);
        }
    }
    let status = office.batch(rt, alloc, twice)?;
    let behind = behind_replies_to_twice(office.output.bytes(), failing.saturating_sub(opened));
    if status != 0 || behind != Some(sheet) {
        return Ok(false);
    }
    let status = office.batch(rt, alloc, once)?;
    Ok(status == 0 && office.has_told(EDIT_COUNT, sheet))
}

/// Whether a run goes on over each disk one call of which fails.
fn faults_are_survived<R: Threads + Wait + Clock + Copy + Drop + Send + 'static>(
    rt: R,
    alloc: Global,
    once: &[u8],
    twice: &[u8],
) -> Result<bool, NoMemory> {
    let mut office = Played::over(alloc, Vec::new(alloc), Vec::new(alloc))?;
    office.init(rt, alloc)?;
    office.init(rt, alloc)?;
    office.batch(rt, alloc, once)?;
    let Some(sheet) = behind_replies(office.output.bytes(), 0) else {
        return Ok(false);
    };
    for failing in 1..=office.calls() {
        if !fault_is_survived(rt, alloc, once, twice, failing, sheet)? {
            return Ok(false);
        }
    }
    Ok(true)
}

#[test]
fn each_call_fails_in_turn(rt: HostRuntime) -> Result<(), Fail> {
    let once = requests(rt.alloc(), 1)?;
    let twice = requests(rt.alloc(), 2)?;
    assert!(rt; faults_are_survived(rt, rt.alloc(), &once, &twice)?);
    Ok(())
}
