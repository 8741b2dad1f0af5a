//! The program `draw`: pictures of a station's record, as SVG, from rows of figures.
#![tactic(auto)]

mod curves;
mod dates;
mod elements;
mod endings;
mod frames;
mod hydrograph;
mod marks;
mod rows;
mod runs;
mod spreads;
mod style;
mod tables;

use devices::{StderrSink, StdinSource, StdoutSink, put_all, take_up_missing_streams};
use endings::{status_of, write_line};
use fixed_units::Text;
use runs::draw_from;
use std::env;
use std::process::ExitCode;

/// Whether the words behind the program's name ask for a hydrograph.
fn asks_hydrograph(rt: &HostRuntime) -> bool {
    let Ok(mut words) = env::args(&(rt, rt.alloc())) else {
        return false;
    };
    let _name = words.next();
    let Some(word) = words.next() else {
        return false;
    };
    word.as_str() == "hydrograph" && words.next().is_none()
}

fn main(rt: HostRuntime) -> ExitCode {
    take_up_missing_streams(&rt);
    let mut input = StdinSource::new(rt.stdin());
    let mut output = StdoutSink::new(rt.stdout());
    let mut faults = StderrSink::new(rt.stderr());
    if !asks_hydrograph(&rt) {
        let _told = put_all(&mut faults, b"draw: usage: draw hydrograph\n");
        return ExitCode::from(1);
    }
    let end = draw_from(rt.alloc(), &mut input, &mut output);
    let mut line = Text::new(rt.alloc());
    let _whole = write_line(end, &mut line).is_ok() && put_all(&mut faults, line.as_slice());
    ExitCode::from(status_of(end))
}
