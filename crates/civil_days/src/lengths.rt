//! How long days last by a POSIX rule.

ghost use Rattle.std.specs.Prelude.{ℤ, ◌↔◌, IsTrue};
ghost use Rattle.jiff_tz.specs.PosixText.{tz_view};
ghost use Rattle.fixed_units.specs.Quantities.{IsDay};
ghost use Rattle.civil_days.specs.Starts.{LastsWell};

use crate::stretches::{CALENDAR_END, stretch_from};
use fixed_units::{FIRST_DAY, LONGEST_DAY, SHORTEST_DAY};
use jiff_tz::posix::TimeZone;

// Whether each day of the calendar lasts 20 to 28 hours: all but the last one of a stretch last 24.
pub(crate) fn lasts_well(rule: &TimeZone) -> bool
    ensures { IsTrue result ↔ ((day : ℤ) → IsDay day → LastsWell (tz_view rule.now) day) }
{
    let mut stretch = stretch_from(rule, FIRST_DAY);
    while stretch.next <= CALENDAR_END {
        let next = stretch_from(rule, stretch.next);
        let length = 86_400 + stretch.offset - next.offset;
        if length < SHORTEST_DAY || length > LONGEST_DAY {
            return false;
        }
        stretch = next;
    }
    true
}
