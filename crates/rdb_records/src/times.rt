//! When a row was read: its local date and time, and the zone that tells it.

ghost use Rattle.std.specs.Prelude.{◌≡◌, ◌+◌, ◌<◌, ◌≤◌, length, drop, neg_ℤ, pos, IfSome};
ghost use Rattle.fixed_units.specs.Quantities.{IsSecond, IsWithin, is_stamp};
ghost use Rattle.civil_days.specs.Spelling.{only};
ghost use Rattle.civil_days.specs.Starts.{two_digits};
ghost use Rattle.rdb_records.specs.Times.{zones, hours_of, clock_behind, local_time, stamp_by};

use civil_days::read_day;
use fixed_units::{Second, is_stamp};

/// The hours that a zone is east of UTC, if it is one of the list.
pub(crate) fn zone_hours(zone: &[u8]) -> Option<i64>
    ensures value { result ≡ hours_of zones zone.now }
    ensures bound { IfSome result (λ hours. IsWithin (neg_ℤ (pos 10)) (pos 0) hours) }
{
    match zone {
        b"EST" => Some(-5),
        b"EDT" => Some(-4),
        b"CST" => Some(-6),
        b"CDT" => Some(-5),
        _ => western_hours(zone),
    }
}

/// The same of the zones from Mountain time on.
fn western_hours(zone: &[u8]) -> Option<i64>
    ensures value { result ≡ hours_of (drop 4 zones) zone.now }
    ensures bound { IfSome result (λ hours. IsWithin (neg_ℤ (pos 10)) (pos 0) hours) }
{
    match zone {
        b"MST" => Some(-7),
        b"MDT" => Some(-6),
        b"PST" => Some(-8),
        b"PDT" => Some(-7),
        _ => other_hours(zone),
    }
}

/// The same of Alaska, of Hawaii and of UTC.
fn other_hours(zone: &[u8]) -> Option<i64>
    ensures value { result ≡ hours_of (drop 8 zones) zone.now }
    ensures bound { IfSome result (λ hours. IsWithin (neg_ℤ (pos 10)) (pos 0) hours) }
{
    match zone {
        b"AKST" => Some(-9),
        b"AKDT" => Some(-8),
        b"HST" => Some(-10),
        b"UTC" => Some(0),
        _ => None,
    }
}

/// The stamp of a local date and time `YYYY-MM-DD HH:MM` of a zone that is so many hours east of UTC.
pub(crate) fn read_stamp(hours: i64, text: &[u8]) -> Option<Second>
    requires { IsWithin (neg_ℤ (pos 10)) (pos 0) hours }
    ensures { result ≡ stamp_by hours (local_time text.now) }
{
    let local = read_local(text)?;
    stamp_at(local - hours * 3600)
}

/// The instant, if it is a stamp.
fn stamp_at(at: i64) -> Option<Second>
    ensures { result ≡ only is_stamp (Some at) }
{
    if is_stamp(at) {
        Some(Second::of_seconds(at))
    } else {
        None
    }
}

/// The local date and time that a text writes, counted in seconds as if it were told by UTC.
fn read_local(text: &[u8]) -> Option<i64>
    ensures value { result ≡ local_time text.now }
    ensures bound { IfSome result IsSecond }
{
    if text.len() != 16 {
        return None;
    }
    let day = read_day(&text[..10])?;
    let second = read_clock(text)?;
    Some(i64::from(day.get()) * 86_400 + i64::from(second))
}

/// The second of the day that ` HH:MM` behind a date writes.
fn read_clock(text: &[u8]) -> Option<u32>
    requires { length text.now ≡ 16 }
    ensures value { result ≡ clock_behind text.now }
    ensures bound { IfSome result (λ second. second < 86_400) }
{
    if text[10] != b' ' || text[13] != b':' {
        return None;
    }
    let hours = two_digits(text, 11)?;
    let minutes = two_digits(text, 14)?;
    if hours > 23 || minutes > 59 {
        return None;
    }
    Some(u32::from(hours) * 3600 + u32::from(minutes) * 60)
}

/// The number that two digits write at a place of a text.
fn two_digits(text: &[u8], at: usize) -> Option<u8>
    requires { at + 2 ≤ length text.now }
    ensures value { result ≡ two_digits text.now at }
    ensures bound { IfSome result (λ n. n ≤ 99) }
{
    let tens = text[at];
    let ones = text[at + 1];
    if tens.is_ascii_digit() && ones.is_ascii_digit() {
        Some((tens - b'0') * 10 + (ones - b'0'))
    } else {
        None
    }
}
