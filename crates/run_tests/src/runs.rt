//! Runs over a journal in memory.

ghost use Rattle.std.specs.Prelude.{◌≡◌, []};

use commands::run_office;
use devices::{
    Doors, Gate, MemoryCabinet, MemoryDisk, MemoryDoors, MemorySink, MemorySource, Sink, Source,
    Spawner,
};
use fixed_units::NoMemory;
use std::alloc::Global;
use std::sync::Wait;
use std::thread::Threads;
use std::time::Clock;

/// A source of these parts, one behind another.
pub fn source_of(alloc: Global, parts: &[&[u8]]) -> Result<MemorySource, NoMemory> {
    let mut bytes = Vec::new(alloc);
    for part in parts {
        bytes.extend_from_slice(part)?;
    }
    Ok(MemorySource::new(bytes, Vec::new(alloc), 10_000))
}

/// A source without a byte.
pub fn no_input(alloc: Global) -> MemorySource {
    MemorySource::new(Vec::new(alloc), Vec::new(alloc), 1)
}

/// A sink without a byte.
pub fn sink(alloc: Global) -> MemorySink {
    MemorySink::new(alloc, Vec::new(alloc), 10_000)
}

/// A cabinet with a journal without an edit.
fn cabinet(alloc: Global) -> Result<MemoryCabinet, NoMemory> {
    let journal = b"STREAMOFFICE-J1\n\0".to_vec(alloc)?;
    let disk = MemoryDisk::new(alloc, journal, Vec::new(alloc))?;
    let mut cabinet = MemoryCabinet::new(alloc, Vec::new(alloc));
    cabinet.insert("J", disk)?;
    Ok(cabinet)
}

/// The words of a line.
pub fn words_of(alloc: Global, line: &str) -> Result<Vec<String>, NoMemory> {
    let mut words = Vec::new(alloc);
    for word in line.split(' ') {
        words.push(String::from_str(alloc, word)?)?;
    }
    Ok(words)
}

/// The status of a run by these words over such a cabinet.
pub fn run<
    R: Threads + Wait + Clock + Copy + Drop + Send + 'static,
    S: Source,
    K: Sink,
    L: Doors + Send + 'static,
    P: Spawner,
    G: Gate + Drop + Send + 'static,
>(
    rt: R,
    alloc: Global,
    words: &[String],
    input: &mut S,
    output: &mut K,
    doors: &mut L,
    spawner: &mut P,
    gate: &G,
) -> Result<u8, NoMemory>
    requires { (L.told doors.old).given ≡ [] }
{
    let mut cabinet = cabinet(alloc)?;
    let mut faults = sink(alloc);
    Ok(run_office(
        rt,
        alloc,
        words,
        input,
        output,
        &mut faults,
        &mut cabinet,
        doors,
        spawner,
        gate,
    ))
}

/// The status of a run of `batch` beside so many workers, at whose doors nobody waits.
pub fn run_beside<
    R: Threads + Wait + Clock + Copy + Drop + Send + 'static,
    S: Source,
    K: Sink,
    P: Spawner,
    G: Gate + Drop + Send + 'static,
>(
    rt: R,
    alloc: Global,
    line: &str,
    input: &mut S,
    output: &mut K,
    spawner: &mut P,
    gate: &G,
) -> Result<u8, NoMemory> {
    let words = words_of(alloc, line)?;
    let mut doors = MemoryDoors::new(alloc, Vec::new(alloc));
    run(rt, alloc, &words, input, output, &mut doors, spawner, gate)
}
