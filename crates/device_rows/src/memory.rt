//! Disks in memory, and how often they were called.

use crate::escapes::{push_counted, push_numbers, push_read};
use devices::MemoryDisk;
use fixed_units::{NoMemory, Text};
use std::alloc::Global;

/// The bytes that a text stands for.
pub fn bytes_of(alloc: Global, text: &str) -> Result<Text, NoMemory> {
    let mut bytes = Text::new(alloc);
    push_read(text, &mut bytes)?;
    Ok(bytes)
}

/// The numbers that stand in a text.
pub fn numbers(alloc: Global, text: &str) -> Result<Vec<u64>, NoMemory> {
    let mut numbers = Vec::new(alloc);
    push_numbers(text, &mut numbers)?;
    Ok(numbers)
}

/// A disk of these bytes, whose calls of some numbers fail.
pub fn disk(alloc: Global, bytes: &[u8], failing: &str) -> Result<MemoryDisk, NoMemory> {
    let failing = numbers(alloc, failing)?;
    Ok(MemoryDisk::new(alloc, bytes.to_vec(alloc)?, failing)?)
}

/// Adds how many calls and faults there were.
pub fn push_calls(calls: u64, faults: u64, came: &mut Text) -> Result<(), NoMemory> {
    push_counted(b"calls ", calls, came)?;
    push_counted(b", faults ", faults, came)
}
