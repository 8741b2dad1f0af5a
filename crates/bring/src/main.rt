//! The program `bring`: a data logger's file becomes requests for `streamoffice batch` or its server, by a profile.
#![tactic(auto)]

mod runs;
mod words;

use devices::{StderrSink, StdinSource, StdoutSink, put_all, take_up_missing_streams};
use logger_files::{read_profile, read_table};
use runs::{RunEnd, bring_from};
use std::process::ExitCode;
use words::{NoProfile, profile_text};

/// A line on standard error behind what was told there, and the status.
fn told(list: &mut StderrSink, status: u8, line: &str) -> ExitCode {
    let _told = put_all(list, b"bring: ") && put_all(list, line.as_bytes()) && put_all(list, b"\n");
    ExitCode::from(status)
}

/// How a run ended, in a line and a status.
fn tell_end(list: &mut StderrSink, end: RunEnd) -> ExitCode {
    match end {
        RunEnd::AllTaken => ExitCode::from(0),
        RunEnd::SomeLeft => told(list, 7, "rows were not taken"),
        RunEnd::InputFault => told(list, 2, "input fault"),
        RunEnd::OutputFault => told(list, 3, "output fault"),
        RunEnd::TooLong => told(list, 5, "the file is too long"),
        RunEnd::Refused(fault) => told(list, 5, fault.text()),
        RunEnd::NoMemory => told(list, 6, "out of memory"),
    }
}

fn main(rt: HostRuntime) -> ExitCode {
    take_up_missing_streams(&rt);
    let mut input = StdinSource::new(rt.stdin());
    let mut output = StdoutSink::new(rt.stdout());
    let mut list = StderrSink::new(rt.stderr());
    let bytes = match profile_text(&rt) {
        Ok(bytes) => bytes,
        Err(NoProfile::Words) => return told(&mut list, 1, "usage: bring PROFILE"),
        Err(NoProfile::File) => return told(&mut list, 4, "the profile cannot be read"),
    };
    let table = match read_table(rt.alloc(), bytes.as_slice()) {
        Ok(table) => table,
        Err(fault) => return told(&mut list, 4, fault.text()),
    };
    match read_profile(&table) {
        Ok(profile) => {
            let end = bring_from(rt.alloc(), &profile, &mut input, &mut output, &mut list);
            tell_end(&mut list, end)
        }
        Err(fault) => told(&mut list, 4, fault.text()),
    }
}
