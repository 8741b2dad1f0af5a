//! What is told of a run that wrote no picture: a line on standard error, and the status.

ghost use Rattle.std.specs.Prelude.{◌≡◌, ◌++◌, OnOk};
ghost use Rattle.draw.specs.Endings.{code_of, fault_text, line_of, status_of};

use crate::rows::Why;
use crate::runs::RunEnd;
use crate::tables::RowFault;
use fixed_units::{NoMemory, Text};

/// The status of a run's end.
pub fn status_of(end: RunEnd) -> u8
    ensures { result ≡ status_of end }
{
    match end {
        RunEnd::Drawn => 0,
        RunEnd::InputFault => 2,
        RunEnd::OutputFault => 3,
        RunEnd::TooLong | RunEnd::NoText | RunEnd::Refused(_) | RunEnd::Empty => 5,
        RunEnd::NoMemory => 6,
    }
}

/// Adds the line of a run's end, if it has one.
pub fn write_line(end: RunEnd, out: &mut Text) -> Result<(), NoMemory>
    ensures { OnOk result (out.new ≡ out.old ++ line_of end) }
{
    match end {
        RunEnd::Drawn => Ok(()),
        RunEnd::InputFault => out.push_slice(b"draw: input fault\n"),
        RunEnd::OutputFault => out.push_slice(b"draw: output fault\n"),
        RunEnd::TooLong => out.push_slice(b"draw: the input is too long\n"),
        RunEnd::NoText => out.push_slice(b"draw: the input is no text\n"),
        RunEnd::Refused(fault) => write_fault(fault, out),
        RunEnd::Empty => out.push_slice(b"draw: the rows have no two instants\n"),
        RunEnd::NoMemory => out.push_slice(b"draw: out of memory\n"),
    }
}

/// Adds the line of a fault.
fn write_fault(fault: RowFault, out: &mut Text) -> Result<(), NoMemory>
    ensures { OnOk result (out.new ≡ out.old ++ fault_text fault) }
{
    out.push_slice(b"draw: line ")?;
    out.push_number(fault.line as u64)?;
    out.push_slice(b": ")?;
    out.push_slice(code_of(fault.why))?;
    out.push(b'\n')
}

/// The name of what is wrong with a line.
fn code_of(why: Why) -> &'static [u8]
    ensures { result.now ≡ code_of why }
{
    match why {
        Why::Kind => b"Kind",
        Why::Fields => b"Fields",
        Why::Station => b"Station",
        Why::Site => b"Site",
        Why::Name => b"Name",
        Why::Zone => b"Zone",
        Why::Gap => b"Gap",
        Why::Instant => b"Instant",
        Why::Date => b"Date",
        Why::Number => b"Number",
        Why::Stage => b"Stage",
        Why::Discharge => b"Discharge",
        Why::Flag => b"Flag",
        Why::Estimated => b"Estimated",
        Why::Status => b"Status",
        Why::Order => b"Order",
        Why::NoMemory => b"NoMemory",
    }
}
