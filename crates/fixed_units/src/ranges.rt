//! The ranges of what stations give and of what is set for them.

ghost use Rattle.std.specs.Prelude.{◌≡◌, ◌↔◌, true};
ghost use Rattle.fixed_units.specs.Quantities.{IsStamp, IsStage, IsDischarge, IsAmount, is_stamp, is_stage, is_discharge, is_amount};

/// The first stamp in seconds, 1900-01-03T00:00:00Z.
pub const FIRST_STAMP: i64 = -2_208_816_000;

/// The last stamp in seconds, 2099-12-28T23:59:59Z.
pub const LAST_STAMP: i64 = 4_102_185_599;

/// The shortest day that a zone may have in seconds: 20 hours.
pub const SHORTEST_DAY: i32 = 72_000;

/// The longest day that a zone may have in seconds: 28 hours.
pub const LONGEST_DAY: i32 = 100_800;

/// The greatest gap tolerance in minutes.
pub const MOST_GAP: u32 = 720;

/// The greatest number of a rating.
pub const MOST_RATING_NUMBER: u32 = 999_999;

/// The greatest magnitude of a stage: 100,000 feet in millionths.
const MOST_STAGE: i64 = 100_000_000_000;

/// The greatest discharge: 10,000,000 cubic feet per second in millionths.
const MOST_DISCHARGE: i64 = 10_000_000_000_000;

/// The greatest magnitude of an amount of a correction or of a shift: 1,000 feet in millionths.
const MOST_AMOUNT: i64 = 1_000_000_000;

/// Whether an instant of that many seconds is a stamp: from 1900-01-03T00:00:00Z to 2099-12-28T23:59:59Z.
pub fn is_stamp(seconds: i64) -> bool
    ensures test { result ≡ is_stamp seconds }
    ensures range { result ≡ true ↔ IsStamp seconds }
{
    (FIRST_STAMP..=LAST_STAMP).contains(&seconds)
}

/// Whether that many millionths of a foot are a stage: at most 100,000 feet either way.
pub fn is_stage(millionths: i64) -> bool
    ensures test { result ≡ is_stage millionths }
    ensures range { result ≡ true ↔ IsStage millionths }
{
    (-MOST_STAGE..=MOST_STAGE).contains(&millionths)
}

/// Whether that many millionths of a cubic foot per second are a discharge: from 0 to 10,000,000.
pub fn is_discharge(millionths: i64) -> bool
    ensures test { result ≡ is_discharge millionths }
    ensures range { result ≡ true ↔ IsDischarge millionths }
{
    (0..=MOST_DISCHARGE).contains(&millionths)
}

/// Whether that many millionths of a foot are an amount of a correction or of a shift: at most 1,000 feet either way.
pub fn is_amount(millionths: i64) -> bool
    ensures test { result ≡ is_amount millionths }
    ensures range { result ≡ true ↔ IsAmount millionths }
{
    (-MOST_AMOUNT..=MOST_AMOUNT).contains(&millionths)
}
