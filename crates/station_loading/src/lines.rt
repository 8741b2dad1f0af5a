//! The end of the line that tells what became of a station.

ghost use Rattle.std.specs.Prelude.{◌≡◌, ◌≤◌, ◌+◌, ◌++◌, length};
ghost use Rattle.arrayvec.specs.ArrayVec.{array_vec_len};
ghost use Rattle.station_loading.specs.Lines as lines;
ghost use Rattle.told_edits.specs.declared.lines.TheConstants.{MOST_END_BYTES};

use arrayvec::ArrayVec;
use fixed_units::Site;
use site_texts::site_digits;
use told_edits::MOST_END_BYTES;

/// The end of the line for a station of that number: a blank, the site number and LF. It takes no memory.
pub(crate) fn site_end(site: Site) -> ArrayVec<u8, MOST_END_BYTES>
    ensures end { result.items ≡ lines.site_end site }
    ensures few { array_vec_len result ≤ MOST_END_BYTES }
{
    let digits = site_digits(site);
    let mut end = ArrayVec::new();
    add(&mut end, b" ");
    add(&mut end, digits.as_slice());
    add(&mut end, b"\n");
    end
}

/// Adds bytes for which there is room.
fn add(end: &mut ArrayVec<u8, MOST_END_BYTES>, bytes: &[u8])
    requires { array_vec_len end.old + length bytes.now ≤ MOST_END_BYTES }
    ensures added { end.new.items ≡ end.old.items ++ bytes.now }
    ensures len { array_vec_len end.new ≡ array_vec_len end.old + length bytes.now }
{
    let _fits = end.try_extend_from_slice(bytes);
}
