//! When a row was read: what a text writes by a pattern of a date and a time, and the clock that told it.

ghost use Rattle.std.specs.Prelude.{◌≡◌, ◌<◌, ◌≤◌, ◌^◌, length, pos, neg_ℤ, ◌-ℤ◌, IfSome};
ghost use Rattle.jiff.specs.Words.{IsEpochDay};
ghost use Rattle.fixed_units.specs.Quantities.{IsWithin, is_stamp};
ghost use Rattle.civil_days.specs.Spelling.{clock_of, date_number, only};
ghost use Rattle.logger_files.specs.Times as times;
ghost use Rattle.logger_files.specs.Times.{local_time, number_at, stamp_by};

use fixed_units::{Second, is_stamp};

/// The stamp that a text writes by a pattern, of a clock that is so many seconds east of UTC.
pub(crate) fn read_stamp(pattern: &[u8], clock: i32, text: &[u8]) -> Option<Second>
    ensures { result ≡ stamp_by clock (local_time pattern.now text.now) }
{
    let local = read_local(pattern, text)?;
    stamp_at(moved_by(local, clock))
}

/// The instant of a local time by a clock that is so many seconds east of UTC.
fn moved_by(local: i64, clock: i32) -> i64
    requires { IsWithin (neg_ℤ (pos (10 ^ 12))) (pos (10 ^ 12)) local }
    ensures { result ≡ local -ℤ clock }
{
    local - i64::from(clock)
}

/// The instant, if it is a stamp.
fn stamp_at(at: i64) -> Option<Second>
    ensures { result ≡ only is_stamp (Some at) }
{
    if is_stamp(at) {
        Some(Second::of_seconds(at))
    } else {
        None
    }
}

/// The local date and time that a text writes by a pattern, counted in seconds as if it were told by UTC.
fn read_local(pattern: &[u8], text: &[u8]) -> Option<i64>
    ensures value { result ≡ local_time pattern.now text.now }
    ensures bound { IfSome result (IsWithin (neg_ℤ (pos (10 ^ 12))) (pos (10 ^ 12))) }
{
    if !is_formed(pattern, text) {
        return None;
    }
    let day = read_date(pattern, text)?;
    let second = read_clock(pattern, text)?;
    Some(i64::from(day) * 86_400 + i64::from(second))
}

/// The date that a text writes by a pattern, if there is such a date.
fn read_date(pattern: &[u8], text: &[u8]) -> Option<i32>
    ensures value { result ≡ times.date_of (number_at 89 pattern.now text.now) (number_at 77 pattern.now text.now) (number_at 68 pattern.now text.now) }
    ensures bound { IfSome result IsEpochDay }
{
    let year = number_at(b'Y', pattern, text)?;
    let month = number_at(b'M', pattern, text)?;
    let day = number_at(b'D', pattern, text)?;
    if month <= 12 && day <= 31 {
        date_number(year_of(year), month as u8, day as u8)
    } else {
        None
    }
}

/// The year of a number, which is one from 2000 on where it is below 100.
fn year_of(year: u16) -> u16
    requires { year ≤ 9999 }
    ensures value { result ≡ times.year_of year }
    ensures bound { result ≤ 9999 }
{
    if year < 100 { 2000 + year } else { year }
}

/// The day number of a date, if there is such a date.
fn date_number(year: u16, month: u8, day: u8) -> Option<i32>
    requires year { year ≤ 9999 }
    requires month { month ≤ 99 }
    requires day { day ≤ 99 }
    ensures value { result ≡ date_number year month day }
    ensures bound { IfSome result IsEpochDay }
{
    match jiff_core::civil::Date::new(year as i16, month as i8, day as i8) {
        Ok(date) => Some(date.to_unix_epoch_day()),
        Err(_) => None,
    }
}

/// The second of the day that a text writes by a pattern, if there is such a time.
fn read_clock(pattern: &[u8], text: &[u8]) -> Option<u32>
    ensures value { result ≡ clock_of (times.hour_from (times.half_at pattern.now text.now) (number_at 104 pattern.now text.now)) (number_at 109 pattern.now text.now) (number_at 115 pattern.now text.now) }
    ensures bound { IfSome result (λ second. second < 86_400) }
{
    let hour = hour_of(half_at(pattern, text), number_at(b'h', pattern, text)?)?;
    let minute = number_at(b'm', pattern, text)?;
    let second = number_at(b's', pattern, text)?;
    if hour > 23 || minute > 59 || second > 59 {
        return None;
    }
    Some(u32::from(hour) * 3600 + u32::from(minute) * 60 + u32::from(second))
}

/// The hour of the day, of 24 or of 12 in a half of the day.
fn hour_of(half: Option<u8>, hour: u16) -> Option<u16>
    ensures { result ≡ times.hour_of half hour }
{
    let Some(half) = half else {
        return Some(hour);
    };
    if !(1..=12).contains(&hour) {
        return None;
    }
    Some(if half == b'P' {
        hour % 12 + 12
    } else {
        hour % 12
    })
}

/// The number whose digits stand where the pattern has a letter, if it has four digits at most.
fn number_at(letter: u8, pattern: &[u8], text: &[u8]) -> Option<u16>
    ensures value { result ≡ number_at letter pattern.now text.now }
    ensures bound { IfSome result (λ n. n ≤ 9999) }
{
    let mut number = 0;
    let mut letters = pattern;
    let mut bytes = text;
    while let [it, letters_behind @ ..] = letters {
        let [byte, bytes_behind @ ..] = bytes else {
            return Some(number);
        };
        number = next_number(number, letter, *it, *byte)?;
        letters = letters_behind;
        bytes = bytes_behind;
    }
    Some(number)
}

/// The number behind a byte, which is a further digit where the pattern has the letter.
fn next_number(before: u16, letter: u8, it: u8, byte: u8) -> Option<u16>
    requires { before ≤ 9999 }
    ensures value { result ≡ times.next_number before letter it byte }
    ensures bound { IfSome result (λ n. n ≤ 9999) }
{
    if it != letter {
        return Some(before);
    }
    if before <= 999 && byte.is_ascii_digit() {
        Some(before * 10 + u16::from(byte - b'0'))
    } else {
        None
    }
}

/// The byte that stands where the pattern has `a`, if it has one.
fn half_at(pattern: &[u8], text: &[u8]) -> Option<u8>
    ensures { result ≡ times.half_at pattern.now text.now }
{
    let mut letters = pattern;
    let mut bytes = text;
    while let [it, letters_behind @ ..] = letters {
        let [byte, bytes_behind @ ..] = bytes else {
            return None;
        };
        if *it == b'a' {
            return Some(*byte);
        }
        letters = letters_behind;
        bytes = bytes_behind;
    }
    None
}

/// Whether a text has what the pattern has, byte by byte.
fn is_formed(pattern: &[u8], text: &[u8]) -> bool
    ensures { result ≡ times.is_formed pattern.now text.now }
{
    let mut letters = pattern;
    let mut bytes = text;
    while let [it, letters_behind @ ..] = letters {
        let [byte, bytes_behind @ ..] = bytes else {
            return false;
        };
        if !stands_for(*it, *byte) {
            return false;
        }
        letters = letters_behind;
        bytes = bytes_behind;
    }
    bytes.is_empty()
}

/// Whether a byte may stand in place of one of a pattern.
fn stands_for(letter: u8, byte: u8) -> bool
    ensures { result ≡ times.stands_for letter byte }
{
    if is_number_letter(letter) {
        byte.is_ascii_digit()
    } else if letter == b'a' {
        byte == b'A' || byte == b'P'
    } else if letter == b'p' {
        byte == b'M'
    } else {
        letter == byte
    }
}

/// Whether digits stand in place of a letter.
fn is_number_letter(letter: u8) -> bool
    ensures { result ≡ times.is_number_letter letter }
{
    letter == b'Y'
        || letter == b'M'
        || letter == b'D'
        || letter == b'h'
        || letter == b'm'
        || letter == b's'
}
