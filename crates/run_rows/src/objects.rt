//! The objects of a run: its words, a source, two sinks, the disks in a cabinet, and doors at which connections wait.

ghost use Rattle.std.specs.Prelude.{◌<◌, ◌≡◌, [], IfOk};
ghost use Rattle.devices.specs.MemoryDoors.{told_in_memory};

use crate::rows::{head_of, says, told};
use crate::streams::{Side, push_stream};
use crate::texts::push_bytes;
use commands::run_office;
use devices::{
    HandsBack, MemoryCabinet, MemoryDisk, MemoryDoors, MemoryEnds, MemorySink, MemorySource,
    OpenGate, Spawner, ThreadSpawner,
};
use fixed_units::{NoMemory, Text};
use std::alloc::Global;
use std::sync::Wait;
use std::thread::Threads;
use std::time::Clock;

/// What a run answered, wrote and told, and how often it asked for input.
#[derive(Drop)]
pub struct Ran {
    /// The status of the program.
    pub status: u8,
    /// The sink of the replies.
    pub output: MemorySink,
    /// The sink of what was told of faults.
    pub faults: MemorySink,
    /// How often the input was asked for bytes.
    pub reads: u64,
    /// The doors.
    pub doors: MemoryDoors,
}

/// The cabinet of a row.
pub fn cabinet_of(alloc: Global, file: &str, row: &str) -> Result<MemoryCabinet, NoMemory> {
    let failing = numbers(alloc, told(row, "fail cabinet "))?;
    let mut cabinet = MemoryCabinet::new(alloc, failing);
    if let Some(disk) = disk_of(alloc, file, told(row, "journal "), told(row, "fail disk "))? {
        cabinet.insert("J", disk)?;
    }
    if let Some(disk) = disk_of(alloc, file, told(row, "copy "), told(row, "fail copy "))? {
        cabinet.insert("G", disk)?;
    }
    Ok(cabinet)
}

/// The disk that has these bytes, whose calls of these numbers fail; none where none are told.
fn disk_of(
    alloc: Global,
    file: &str,
    words: &str,
    failing: &str,
) -> Result<Option<MemoryDisk>, NoMemory> {
    if words.is_empty() {
        return Ok(None);
    }
    let mut before = Text::new(alloc);
    push_bytes(file, words, &mut before)?;
    let failing = numbers(alloc, failing)?;
    let disk = MemoryDisk::new(alloc, before.into_vec(), failing)?;
    Ok(Some(disk))
}

/// The numbers of a line.
fn numbers(alloc: Global, line: &str) -> Result<Vec<u64>, NoMemory> {
    let mut numbers = Vec::new(alloc);
    for word in line.split(' ') {
        if let Ok(number) = word.parse() {
            numbers.push(number)?;
        }
    }
    Ok(numbers)
}

/// A run over a cabinet.
pub fn ran_over<R: Threads + Wait + Clock + Copy + Drop + Send + 'static>(
    rt: R,
    alloc: Global,
    file: &str,
    run: &str,
    cabinet: &mut MemoryCabinet,
    body: &mut Text,
) -> Result<Ran, NoMemory> {
    let words = words_of(alloc, run)?;
    let doors = doors_of(alloc, file, run, body)?;
    let mut source = source_of(alloc, file, head_of(run), body)?;
    run_with(rt, alloc, head_of(run), &words, &mut source, cabinet, doors)
}

fn run_with<R: Threads + Wait + Clock + Copy + Drop + Send + 'static>(
    rt: R,
    alloc: Global,
    run: &str,
    words: &[String],
    source: &mut MemorySource,
    cabinet: &mut MemoryCabinet,
    mut doors: MemoryDoors,
) -> Result<Ran, NoMemory>
    requires { (told_in_memory doors.places.items).given ≡ [] }
{
    let mut output = sink_of(alloc, run, "fail output ")?;
    let mut faults = sink_of(alloc, run, "fail faults ")?;
    let status = if says(run, "handed back") {
        let mut spawner = HandsBack::new();
        status_of(
            rt,
            alloc,
            words,
            source,
            &mut output,
            &mut faults,
            cabinet,
            &mut doors,
            &mut spawner,
        )
    } else {
        let mut spawner = ThreadSpawner::new();
        status_of(
            rt,
            alloc,
            words,
            source,
            &mut output,
            &mut faults,
            cabinet,
            &mut doors,
            &mut spawner,
        )
    };
    Ok(Ran {
        status,
        output,
        faults,
        reads: source.calls(),
        doors,
    })
}

/// The status of a run.
fn status_of<R: Threads + Wait + Clock + Copy + Drop + Send + 'static, P: Spawner>(
    rt: R,
    alloc: Global,
    words: &[String],
    source: &mut MemorySource,
    output: &mut MemorySink,
    faults: &mut MemorySink,
    cabinet: &mut MemoryCabinet,
    doors: &mut MemoryDoors,
    spawner: &mut P,
) -> u8
    requires { (told_in_memory doors.old.places.items).given ≡ [] }
{
    run_office(
        rt, alloc, words, source, output, faults, cabinet, doors, spawner, &OpenGate,
    )
}

/// The doors of a run, at which its connections wait.
fn doors_of(alloc: Global, file: &str, run: &str, body: &mut Text) -> Result<MemoryDoors, NoMemory>
    ensures { IfOk result (λ doors. (told_in_memory doors.places.items).given ≡ []) }
{
    let failing = numbers(alloc, told(head_of(run), "fail doors "))?;
    let mut doors = MemoryDoors::new(alloc, failing);
    for connection in run.split("\nconnection").skip(1) {
        doors.add(ends_of(alloc, file, connection, body)?)?;
    }
    Ok(doors)
}

/// The ends of a connection.
fn ends_of(
    alloc: Global,
    file: &str,
    connection: &str,
    body: &mut Text,
) -> Result<MemoryEnds, NoMemory> {
    let input = source_of(alloc, file, connection, body)?;
    let output = sink_of(alloc, connection, "fail output ")?;
    Ok(MemoryEnds { input, output })
}

/// The words of a run.
fn words_of(alloc: Global, run: &str) -> Result<Vec<String>, NoMemory> {
    let mut words = Vec::new(alloc);
    for word in run.lines().next().unwrap_or("").split(' ').skip(1) {
        words.push(String::from_str(alloc, spelled(word))?)?;
    }
    Ok(words)
}

/// Two quotes are a word without letters.
fn spelled(word: &str) -> &str {
    if word == "''" { "" } else { word }
}

fn source_of(
    alloc: Global,
    file: &str,
    run: &str,
    body: &mut Text,
) -> Result<MemorySource, NoMemory> {
    let mut input = Text::new(alloc);
    push_stream(file, run, Side::Asked, body, &mut input)?;
    let failing = numbers(alloc, told(run, "fail input "))?;
    Ok(MemorySource::new(input.into_vec(), failing, piece_of(run)))
}

fn sink_of(alloc: Global, run: &str, begin: &str) -> Result<MemorySink, NoMemory> {
    let failing = numbers(alloc, told(run, begin))?;
    Ok(MemorySink::new(alloc, failing, piece_of(run)))
}

/// The most bytes that one call of a stream moves.
fn piece_of(run: &str) -> usize
    ensures { 0 < result }
{
    match told(run, "piece ").parse() {
        Ok(piece) if piece > 0 => piece,
        _ => 10_000_000,
    }
}
