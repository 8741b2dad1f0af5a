//! How much an office may hold.

ghost use Rattle.std.specs.Prelude.{◌≡◌};
ghost use Rattle.office_inputs.specs.Usual.{usual};

/// How many stations an office usually keeps at most.
pub const USUAL_STATIONS: u32 = 500;

/// How many readings all stations usually have at most.
pub const USUAL_READINGS: u64 = 16_000_000;

/// How many readings a local day of a station usually has at most, erroneous ones among them.
pub const USUAL_DAY_READINGS: u32 = 1_500;

/// How many cells of days an office usually keeps at most.
pub const USUAL_CELLS: u64 = 4_000_000;

/// How many events a history usually has at most: 2^25.
pub const USUAL_EVENTS: u64 = 33_554_432;

/// How many bytes a journal usually has at most: 512 MiB.
pub const USUAL_JOURNAL_BYTES: u64 = 536_870_912;

/// The numbers that an office keeps to. A count that is exactly at its number is allowed.
#[derive(Clone, Copy, Debug, PartialEq, Eq)]
pub struct Limits {
    /// How many stations are kept.
    pub stations: u32,
    /// How many readings all stations have together.
    pub readings: u64,
    /// How many readings a local day of a station has, erroneous ones among them.
    pub day_readings: u32,
    /// How many cells of days are kept.
    pub cells: u64,
    /// How many events the history has.
    pub events: u64,
    /// How many bytes the journal has.
    pub journal_bytes: u64,
}

impl Limits {
    /// Those of every run.
    pub fn usual() -> Limits
        ensures { result ≡ usual }
    {
        Limits {
            stations: USUAL_STATIONS,
            readings: USUAL_READINGS,
            day_readings: USUAL_DAY_READINGS,
            cells: USUAL_CELLS,
            events: USUAL_EVENTS,
            journal_bytes: USUAL_JOURNAL_BYTES,
        }
    }
}
