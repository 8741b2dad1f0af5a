//! What a POSIX rule says of a year.

ghost use Rattle.std.specs.Prelude.{◌≡◌, pos, ◌*ℤ◌, ◌≤ℤ◌, not, if◌then◌else◌};
ghost use Rattle.jiff_core.specs.Timestamp.{IsOffsetSeconds};
ghost use Rattle.jiff_tz.specs.PosixRule.{in_window, in_span};
ghost use Rattle.fixed_units.specs.Quantities.{first_day};
ghost use Rattle.civil_days.specs.Rule.{seconds_by};
ghost use Rattle.civil_days.specs.Starts.{calendar_end};
ghost use Rattle.civil_days.specs.Years.{IsWindow, IsYearNanos};

use crate::years::Year;

const NANOS_PER_SECOND: i64 = 1_000_000_000;

const NANOS_PER_DAY: i64 = 86_400_000_000_000;

/// The days of a year, up to the first one of the next year, with the two offsets of a rule and the moments at which its daylight
/// saving time begins and ends there: in nanoseconds, by the clock before the change and by the clock after it.
#[derive(Clone, Copy, Debug)]
pub(crate) struct Season {
    pub first: i32,
    pub next: i32,
    pub std: i32,
    pub dst: i32,
    pub start: i64,
    pub start_after: i64,
    pub end: i64,
    pub end_after: i64,
    pub ghost window: { IsWindow std dst start start_after end end_after },
}

// The season of a year, by two offsets and the moments at which daylight saving time begins and ends.
pub(crate) fn season_by(year: Year, std: i32, dst: i32, start: i64, end: i64) -> Season
    requires std_in { IsOffsetSeconds std }
    requires dst_in { IsOffsetSeconds dst }
    requires start_in { IsYearNanos start }
    requires end_in { IsYearNanos end }
    ensures first { result.first ≡ year.first }
    ensures next { result.next ≡ year.next }
    ensures std { result.std ≡ std }
    ensures dst { result.dst ≡ dst }
    ensures start { result.start ≡ start }
    ensures end { result.end ≡ end }
{
    let shift = (i64::from(dst) - i64::from(std)) * NANOS_PER_SECOND;
    Season {
        first: year.first,
        next: year.next,
        std,
        dst,
        start,
        start_after: start + shift,
        end,
        end_after: end - shift,
    }
}

// Whether a moment lies in daylight saving time.
fn in_window(start: i64, end: i64, at: i64) -> bool
    ensures { result ≡ in_window (start, end) at }
{
    if start <= end {
        start <= at && at < end
    } else {
        !(end <= at && at < start)
    }
}

// Whether a moment lies from one moment up to another.
fn in_span(low: i64, high: i64, at: i64) -> bool
    ensures { result ≡ in_span low high at }
{
    low <= at && at < high
}

// The offset, where daylight saving time is behind standard time, at a moment that the clock may repeat or skip.
fn behind(std: i32, dst: i32, in_window: bool, repeated: bool, skipped: bool) -> i32
    ensures { result ≡ if in_window then dst else (if repeated then std else (if skipped then dst else std)) }
{
    if in_window || (skipped && !repeated) {
        dst
    } else {
        std
    }
}

// The offset, where it is ahead, at a moment that the clock may skip.
fn ahead(std: i32, dst: i32, in_window: bool, skipped: bool) -> i32
    ensures { result ≡ if not in_window then std else (if skipped then std else dst) }
{
    if in_window && !skipped { dst } else { std }
}

// The offset at the midnight of a day.
pub(crate) fn offset_by(season: Season, day: i32) -> i32
    requires low { first_day ≤ℤ day }
    requires high { day ≤ℤ calendar_end }
    ensures { result ≡ seconds_by season.std season.dst (season.start, season.end) (day *ℤ pos 86_400_000_000_000) }
{
    let at = i64::from(day) * NANOS_PER_DAY;
    let in_window = in_window(season.start, season.end, at);
    if season.dst < season.std {
        let repeated = in_span(season.start_after, season.start, at);
        let skipped = in_span(season.end, season.end_after, at);
        behind(season.std, season.dst, in_window, repeated, skipped)
    } else if season.std < season.dst {
        let skipped = in_span(season.start, season.start_after, at);
        ahead(season.std, season.dst, in_window, skipped)
    } else {
        season.std
    }
}
