//! The program `ledger`: a journal on standard input becomes lines, one for each edit, or the requests that make the same edits anew.
#![tactic(auto)]

mod choices;
mod figures;
mod held;
mod kinds;
mod lines;
mod quotes;
mod requests;
mod runs;
mod values;
mod words;

use devices::{StderrSink, StdinSource, StdoutSink, put_all, take_up_missing_streams};
use fixed_units::{NoMemory, Text};
use runs::{RunEnd, ledger_from};
use std::alloc::Global;
use std::process::ExitCode;
use words::{NoOrder, order_in};

/// What the words are to be.
const USAGE: &[u8] =
    b"usage: ledger --edits or --requests, with --site, --kind, --by, --first or --last";

/// A line on standard error behind what was told there, and the status.
fn told(list: &mut StderrSink, status: u8, line: &[u8]) -> ExitCode {
    let _told = put_all(list, b"ledger: ") && put_all(list, line) && put_all(list, b"\n");
    ExitCode::from(status)
}

/// A line that ends in a number.
fn told_at(alloc: Global, list: &mut StderrSink, status: u8, line: &[u8], number: u64) -> ExitCode {
    match numbered(alloc, line, number) {
        Ok(line) => told(list, status, line.as_slice()),
        Err(NoMemory) => told(list, status, line),
    }
}

/// A line with a number at its end.
fn numbered(alloc: Global, line: &[u8], number: u64) -> Result<Text, NoMemory> {
    let mut text = Text::new(alloc);
    text.push_slice(line)?;
    text.push_number(number)?;
    Ok(text)
}

/// How a run ended, in a line and a status.
fn tell_end(alloc: Global, list: &mut StderrSink, end: RunEnd) -> ExitCode {
    match end {
        RunEnd::AllWritten => ExitCode::from(0),
        RunEnd::InputFault => told(list, 2, b"input fault"),
        RunEnd::OutputFault => told(list, 3, b"output fault"),
        RunEnd::NotAJournal => told(list, 5, b"not a journal"),
        RunEnd::Damaged(at) => told_at(alloc, list, 5, b"damaged at ", at),
        RunEnd::NoMemory => told(list, 6, b"out of memory"),
        RunEnd::TooLong => told(list, 10, b"input too long"),
        RunEnd::NotReadBack(number) => told_at(alloc, list, 12, b"no request says: edit ", number),
        RunEnd::TooLarge(number) => told_at(
            alloc,
            list,
            12,
            b"too large for a request: edit ",
            number,
        ),
    }
}

fn main(rt: HostRuntime) -> ExitCode {
    take_up_missing_streams(&rt);
    let mut input = StdinSource::new(rt.stdin());
    let mut output = StdoutSink::new(rt.stdout());
    let mut list = StderrSink::new(rt.stderr());
    let order = match order_in(&rt) {
        Ok(order) => order,
        Err(NoOrder::Words) => return told(&mut list, 1, USAGE),
        Err(NoOrder::NoMemory) => return told(&mut list, 6, b"out of memory"),
    };
    let end = ledger_from(
        rt.alloc(),
        order.form,
        &order.choice,
        &mut input,
        &mut output,
    );
    tell_end(rt.alloc(), &mut list, end)
}
