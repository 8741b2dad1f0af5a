//! Which readings are used.

ghost use Rattle.std.specs.Prelude.{◌≡◌, filter, find, length, reverse};
ghost use Rattle.readings.specs.Readings.{IsRising, before_instant, from_instant, is_used};

use fixed_units::{Flag, Reading};

/// Whether a reading may be used: it is not erroneous.
pub(crate) fn is_usable(reading: &Reading) -> bool
    ensures { result ≡ is_used reading.now }
{
    reading.flag != Flag::Erroneous
}

/// The last reading that is used.
pub(crate) fn last_used(list: &[Reading]) -> Option<Reading>
    ensures { result ≡ find is_used (reverse list.now) }
{
    list.iter().rev().copied().find(|r| is_usable(r))
}

/// The first reading that is used.
pub(crate) fn first_used(list: &[Reading]) -> Option<Reading>
    ensures { result ≡ find is_used list.now }
{
    list.iter().copied().find(|r| is_usable(r))
}

/// The last used reading of those from a number of seconds on. The readings rise, so the search ends at the first one
/// before it.
pub(crate) fn last_used_from(list: &[Reading], number: i64) -> Option<Reading>
    requires { IsRising list.now }
    ensures { result ≡ find is_used (reverse (from_instant number list.now)) }
{
    list.iter()
        .rev()
        .copied()
        .take_while(|r| number <= r.at.get())
        .find(|r| is_usable(r))
}

/// The first used reading of those before a number of seconds. The readings rise, so the search ends at the first one
/// from it on.
pub(crate) fn first_used_before(list: &[Reading], number: i64) -> Option<Reading>
    requires { IsRising list.now }
    ensures { result ≡ find is_used (before_instant number list.now) }
{
    list.iter()
        .copied()
        .take_while(|r| r.at.get() < number)
        .find(|r| is_usable(r))
}

/// How many readings of a list are used.
pub(crate) fn count_used(list: &[Reading]) -> usize
    ensures { result ≡ length (filter is_used list.now) }
{
    // summed without a branch, so that the compiler can take several readings at a time
    let mut count = 0;
    for reading in list {
        count += usize::from(is_usable(reading));
    }
    count
}
