//! Why a text states no unit values.

ghost use Rattle.std.specs.Prelude.{◌≡◌};
ghost use Rattle.rdb_records.specs.Units as units;

use thiserror::Error;

/// Why a text states no unit values of a site. Lines are counted from 1, those that are passed over too.
#[derive(Clone, Copy, Debug, PartialEq, Eq, Error)]
pub enum UnitFault {
    /// There is no line of names, or no line of formats.
    #[error("there is no line of names, or no line of formats")]
    NoNames,
    /// The line of names lacks `site_no`, `datetime`, `tz_cd` or the column of the values.
    #[error("the names in line {0} lack a column")]
    NoColumn(u64),
    /// The row of that line is not of the site.
    #[error("the row in line {0} is not of the site")]
    Site(u64),
    /// The row of that line has no zone of the list.
    #[error("the row in line {0} has no known zone")]
    Zone(u64),
    /// The row of that line has no date and time that exist, or they are no stamp.
    #[error("the row in line {0} has no date and time that can be kept")]
    Instant(u64),
    /// The instant of that line's row is not after that of the row before.
    #[error("the instant in line {0} is not after that of the row before")]
    Order(u64),
    /// The value of that line's row is a decimal that can be read and no stage: over 100,000 feet either way, up to 10,000,000.
    #[error("the value in line {0} is out of range")]
    Range(u64),
    /// There was no memory.
    #[error("there is no memory for the readings of a text")]
    NoMemory,
}

impl UnitFault {
    /// The line of the fault; 0 where it is none of a line.
    pub fn line(&self) -> u64
        ensures { result ≡ units.line_of self.now }
    {
        match self {
            UnitFault::NoColumn(line)
            | UnitFault::Site(line)
            | UnitFault::Zone(line)
            | UnitFault::Instant(line)
            | UnitFault::Order(line)
            | UnitFault::Range(line) => *line,
            UnitFault::NoNames | UnitFault::NoMemory => 0,
        }
    }
}
