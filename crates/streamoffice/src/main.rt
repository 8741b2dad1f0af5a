//! The program `streamoffice`: a records office for river gauging stations.
#![tactic(auto)]

mod words;

use commands::{end_without_memory, run_office};
use devices::{
    FileCabinet, LoopbackDoors, OpenGate, StderrSink, StdinSource, StdoutSink, ThreadSpawner,
    take_up_missing_streams,
};
use std::process::ExitCode;
use words::words_behind_name;

fn main(rt: HostRuntime) -> ExitCode {
    take_up_missing_streams(&rt);
    let mut input = StdinSource::new(rt.stdin());
    let mut output = StdoutSink::new(rt.stdout());
    let mut faults = StderrSink::new(rt.stderr());
    let mut cabinet = FileCabinet::new(rt);
    let mut doors = LoopbackDoors::new(rt, rt.alloc());
    let mut spawner = ThreadSpawner::new();
    let status = match words_behind_name(&rt) {
        Ok(words) => run_office(
            rt,
            rt.alloc(),
            &words,
            &mut input,
            &mut output,
            &mut faults,
            &mut cabinet,
            &mut doors,
            &mut spawner,
            &OpenGate,
        ),
        Err(_) => end_without_memory(&mut faults),
    };
    ExitCode::from(status)
}
