//! What is answered for a day, and its sheet.

use daily_values::DayValue;
use fixed_units::Text;

/// What is answered for a day.
#[derive(Clone, Copy, Debug)]
pub enum Answer<'a> {
    /// The station is not kept.
    NoStation,
    /// The day awaits the edit of this number.
    Pending(u64),
    /// The value of the day.
    Computed(&'a DayValue),
}

/// The primary computation sheet of a day.
#[derive(Drop)]
pub enum Sheet<'a> {
    /// The station is not kept.
    NoStation,
    /// The day awaits the edit of this number, and no sheet is kept of it.
    Pending(u64),
    /// The sheet that is kept of an approved day, as it was approved.
    Kept(&'a [u8]),
    /// The sheet of a day that is not approved.
    Computed(Text),
}
