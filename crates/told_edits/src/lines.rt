//! The line that tells what became of an edit.

ghost use Rattle.std.specs.Prelude.{◌≡◌, ◌≤◌, ◌+◌, ◌++◌, length};
ghost use Rattle.arrayvec.specs.ArrayVec.{array_vec_len};
ghost use Rattle.told_edits.specs.Lines as lines;
ghost use Rattle.told_edits.specs.declared.lines.TheConstants.{LINE_BYTES, MOST_END_BYTES};

use arrayvec::ArrayVec;
use http_api::code_name;
use office::Accepted;
use office_inputs::Refusal;

/// As many bytes as the end of a line may have: a blank, a site number of 15 digits and LF.
pub const MOST_END_BYTES: usize = 17;

/// As many bytes as a line has at most: `edit `, a number of 20 digits and the end. The longest code that stands behind `refused ` takes
/// less.
pub const LINE_BYTES: usize = 42;

/// The line of an edit by what the office answered, with this end. It takes no memory.
pub fn told_line(told: Result<Accepted, Refusal>, end: &[u8]) -> ArrayVec<u8, LINE_BYTES>
    requires { length end.now ≤ MOST_END_BYTES }
    ensures { result.items ≡ lines.told_line end.now told }
{
    match told {
        Ok(told) => accepted_line(told.number, end),
        Err(refusal) => refused_line(refusal, end),
    }
}

/// The line of an edit that is in force under a number.
fn accepted_line(number: u64, end: &[u8]) -> ArrayVec<u8, LINE_BYTES>
    requires { length end.now ≤ MOST_END_BYTES }
    ensures { result.items ≡ lines.accepted_line end.now number }
{
    let mut buffer = itoa::Buffer::new();
    let mut line = ArrayVec::new();
    add(&mut line, b"edit ");
    add(&mut line, buffer.format(number).as_bytes());
    add(&mut line, end);
    line
}

/// The line of an edit that was refused.
fn refused_line(refusal: Refusal, end: &[u8]) -> ArrayVec<u8, LINE_BYTES>
    requires { length end.now ≤ MOST_END_BYTES }
    ensures { result.items ≡ lines.refused_line end.now refusal }
{
    let mut line = ArrayVec::new();
    add(&mut line, b"refused ");
    add(&mut line, code_name(&refusal).as_bytes());
    add(&mut line, end);
    line
}

/// Adds bytes for which there is room.
fn add(line: &mut ArrayVec<u8, LINE_BYTES>, bytes: &[u8])
    requires { array_vec_len line.old + length bytes.now ≤ LINE_BYTES }
    ensures added { line.new.items ≡ line.old.items ++ bytes.now }
    ensures len { array_vec_len line.new ≡ array_vec_len line.old + length bytes.now }
{
    let _fits = line.try_extend_from_slice(bytes);
}
