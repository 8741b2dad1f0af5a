//! The line that counts the readings of a text.

ghost use Rattle.std.specs.Prelude.{◌≡◌, ◌≤◌, ◌+◌, ◌++◌, decimal, length};
ghost use Rattle.arrayvec.specs.ArrayVec.{array_vec_len};
ghost use Rattle.reading_loading.specs.Lines as lines;
ghost use Rattle.reading_loading.specs.declared.lines.TheConstants.{LINE_BYTES};

use arrayvec::ArrayVec;
use rdb_records::UnitList;

/// As many bytes as the line has at most: `readings `, ` skipped `, two numbers of 20 digits and LF.
pub(crate) const LINE_BYTES: usize = 59;

/// The line that tells how many readings a text states, and how many of its rows are skipped. It takes no memory.
pub(crate) fn count_line(units: &UnitList) -> ArrayVec<u8, LINE_BYTES>
    ensures { result.items ≡ lines.count_line units.now }
{
    let mut line = ArrayVec::new();
    add(&mut line, b"readings ");
    add_number(&mut line, units.readings.as_slice().len() as u64);
    add(&mut line, b" skipped ");
    add_number(&mut line, units.skipped);
    add(&mut line, b"\n");
    line
}

/// Adds a number for which there is room.
fn add_number(line: &mut ArrayVec<u8, LINE_BYTES>, number: u64)
    requires { array_vec_len line.old + 20 ≤ LINE_BYTES }
    ensures added { line.new.items ≡ line.old.items ++ decimal number }
    ensures len { array_vec_len line.new ≤ array_vec_len line.old + 20 }
{
    let mut buffer = itoa::Buffer::new();
    add(line, buffer.format(number).as_bytes());
}

/// Adds bytes for which there is room.
fn add(line: &mut ArrayVec<u8, LINE_BYTES>, bytes: &[u8])
    requires { array_vec_len line.old + length bytes.now ≤ LINE_BYTES }
    ensures added { line.new.items ≡ line.old.items ++ bytes.now }
    ensures len { array_vec_len line.new ≡ array_vec_len line.old + length bytes.now }
{
    let _fits = line.try_extend_from_slice(bytes);
}
