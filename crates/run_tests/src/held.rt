//! Workers that are held at their gate, while others go on.

use crate::meetings::{HeldSource, HoldingGate, Meeting, ToldSink};
use crate::runs::{run_beside, sink, source_of};
use crate::streams::{ACCEPTED, EDITS, LATER_ACCEPTED, LATER_EDIT};
use devices::{MemorySource, ThreadSpawner};
use std::alloc::Global;
use std::sync::{Arc, Wait};
use std::test::Fail;
use std::thread::Threads;
use std::time::Clock;

/// How many bytes are written once the later edit was replied to.
const REPLIED: u64 = (ACCEPTED.len() + LATER_ACCEPTED.len()) as u64;

/// Whether an edit is accepted, and its reply written, while the one worker is held with a day that it claimed before.
fn edits_while_held<R: Threads + Wait + Clock + Copy + Drop + Send + 'static>(
    rt: R,
    alloc: Global,
    meeting: &Meeting,
    gate: &HoldingGate,
    input: &mut HeldSource,
    output: &mut ToldSink,
) -> bool {
    let status = run_beside(
        rt,
        alloc,
        "batch --journal J --workers 1",
        input,
        output,
        &mut ThreadSpawner::new(),
        gate,
    );
    status == Ok(0)
        && !meeting.was_in_vain()
        && output.bytes().strip_prefix(ACCEPTED) == Some(LATER_ACCEPTED)
}

#[test]
fn edit_while_held(rt: HostRuntime) -> Result<(), Fail> {
    let meeting = Arc::new(rt.alloc(), Meeting::new())?;
    let gate = HoldingGate::new(&meeting, 1, REPLIED);
    let mut input = HeldSource::new(rt.alloc(), meeting.clone()?, EDITS, LATER_EDIT)?;
    let mut output = ToldSink::new(rt.alloc(), meeting.clone()?);
    assert!(rt; edits_while_held(rt, rt.alloc(), &meeting, &gate, &mut input, &mut output));
    Ok(())
}

/// Whether two workers are at the gate at once.
fn two_are_held<R: Threads + Wait + Clock + Copy + Drop + Send + 'static>(
    rt: R,
    alloc: Global,
    meeting: &Meeting,
    gate: &HoldingGate,
    input: &mut MemorySource,
) -> bool {
    let status = run_beside(
        rt,
        alloc,
        "batch --journal J --workers 2",
        input,
        &mut sink(alloc),
        &mut ThreadSpawner::new(),
        gate,
    );
    status == Ok(0) && meeting.has_come(2) && !meeting.was_in_vain()
}

#[test]
fn two_held(rt: HostRuntime) -> Result<(), Fail> {
    let meeting = Arc::new(rt.alloc(), Meeting::new())?;
    let gate = HoldingGate::new(&meeting, 2, 0);
    let mut input = source_of(rt.alloc(), &[EDITS])?;
    assert!(rt; two_are_held(rt, rt.alloc(), &meeting, &gate, &mut input));
    Ok(())
}
