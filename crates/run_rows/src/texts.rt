//! Texts and bytes of rows.
//!
//! In a TEXT `\n`, `\r` and `\t` stand for the ends of lines and for the tab, and `\xHH` for a byte; `\{NAME}` for a text that the file names;
//! and, in lines that are repeated, `\{number FIRST STEP}`, `\{instant FIRST STEP}` and `\{day FIRST STEP}` for what comes so many steps behind
//! the first as rounds are over. Any other backslash stands for itself.
//!
//! BYTES are words: `header` (of the first format), `second-header` (of the second), `closed` (the gate behind the last record), `empty`, a name
//! of the file, or hexadecimal digits.

use crate::rows::parted;
use civil_days::{read_day, read_instant, write_day, write_instant};
use fixed_units::{Day, NoMemory, Second, Text};

/// Where a text stands: the file, which has the names, and the round of the lines that are repeated.
#[derive(Clone, Copy)]
pub struct At<'a> {
    /// The file.
    pub file: &'a str,
    /// How many rounds are over.
    pub round: u32,
}

/// Adds a text.
pub fn push_text(at: At<'_>, text: &str, out: &mut Text) -> Result<(), NoMemory> {
    let mut is_behind = false;
    for part in text.split("\\") {
        if is_behind {
            push_behind(at, part, out)?;
        } else {
            out.push_slice(part.as_bytes())?;
        }
        is_behind = true;
    }
    Ok(())
}

/// Adds what stands behind a backslash.
fn push_behind(at: At<'_>, part: &str, out: &mut Text) -> Result<(), NoMemory> {
    match part.strip_prefix("{") {
        Some(rest) => push_braced(at, rest, out),
        None => push_escaped(part, out),
    }
}

fn push_braced(at: At<'_>, text: &str, out: &mut Text) -> Result<(), NoMemory> {
    let (braced, rest) = text.split_once('}').unwrap_or((text, ""));
    push_counted(at, braced, out)?;
    out.push_slice(rest.as_bytes())
}

/// Adds what a word in braces stands for.
fn push_counted(at: At<'_>, braced: &str, out: &mut Text) -> Result<(), NoMemory> {
    let (word, rest) = parted(braced);
    let (first, step) = parted(rest);
    let behind = number_of(step).saturating_mul(u64::from(at.round));
    match word {
        "number" => out.push_number(number_of(first).saturating_add(behind)),
        "instant" => push_instant(first, behind, out),
        "day" => push_day(first, behind, out),
        _ => push_plain(named(at.file, "text ", word), out),
    }
}

fn push_instant(first: &str, behind: u64, out: &mut Text) -> Result<(), NoMemory> {
    match instant_behind(first, behind) {
        Some(at) => write_instant(at, out),
        None => out.push_slice(b"no instant"),
    }
}

fn instant_behind(first: &str, behind: u64) -> Option<Second> {
    let first = read_instant(first.as_bytes())?;
    let behind = i64::try_from(behind).ok()?;
    Second::new(first.get().saturating_add(behind))
}

fn push_day(first: &str, behind: u64, out: &mut Text) -> Result<(), NoMemory> {
    match day_behind(first, behind) {
        Some(day) => write_day(day, out),
        None => out.push_slice(b"no day"),
    }
}

fn day_behind(first: &str, behind: u64) -> Option<Day> {
    let first = read_day(first.as_bytes())?;
    let behind = i32::try_from(behind).ok()?;
    Day::new(first.get().saturating_add(behind))
}

/// The number of these digits; 0 where there is none.
pub fn number_of(digits: &str) -> u64 {
    digits.parse().unwrap_or(0)
}

/// Adds a text without names.
fn push_plain(text: &str, out: &mut Text) -> Result<(), NoMemory> {
    let mut is_behind = false;
    for part in text.split("\\") {
        if is_behind {
            push_escaped(part, out)?;
        } else {
            out.push_slice(part.as_bytes())?;
        }
        is_behind = true;
    }
    Ok(())
}

/// Adds what stands behind a backslash that begins no name.
fn push_escaped(part: &str, out: &mut Text) -> Result<(), NoMemory> {
    let (byte, rest) = escaped(part.as_bytes());
    out.push(byte)?;
    out.push_slice(rest)
}

/// The byte that a backslash before this text stands for, and what is behind it.
fn escaped(text: &[u8]) -> (u8, &[u8]) {
    match text {
        [b'n', rest @ ..] => (b'\n', rest),
        [b'r', rest @ ..] => (b'\r', rest),
        [b't', rest @ ..] => (b'\t', rest),
        [b'x', high, low, rest @ ..] => ((digit(*high) << 4) | digit(*low), rest),
        _ => (b'\\', text),
    }
}

/// What the file names so; an empty text where it does not.
pub fn named<'a>(file: &'a str, kind: &str, name: &str) -> &'a str {
    for line in file.lines() {
        if let Some(rest) = line.strip_prefix(kind) {
            let (word, value) = parted(rest);
            if word == name {
                return value;
            }
        }
    }
    ""
}

/// Adds the bytes of these words.
pub fn push_bytes(file: &str, words: &str, out: &mut Text) -> Result<(), NoMemory> {
    for word in words.split(' ') {
        push_word(file, word, out)?;
    }
    Ok(())
}

fn push_word(file: &str, word: &str, out: &mut Text) -> Result<(), NoMemory> {
    match word {
        "header" => out.push_slice(b"STREAMOFFICE-J1\n"),
        "second-header" => out.push_slice(b"STREAMOFFICE-J2\n"),
        "closed" => out.push(0),
        "empty" => Ok(()),
        _ => push_named(file, word, out),
    }
}

/// Adds the bytes of a name; where the file has none so, the word is digits.
fn push_named(file: &str, word: &str, out: &mut Text) -> Result<(), NoMemory> {
    let value = named(file, "let ", word);
    if value.is_empty() {
        return push_hexadecimal(word, out);
    }
    for digits in value.split(' ') {
        push_hexadecimal(digits, out)?;
    }
    Ok(())
}

fn push_hexadecimal(digits: &str, out: &mut Text) -> Result<(), NoMemory> {
    for pair in digits.as_bytes().chunks(2) {
        out.push(byte_of(pair))?;
    }
    Ok(())
}

/// The byte of two hexadecimal digits.
fn byte_of(pair: &[u8]) -> u8 {
    match pair {
        [high, low] => (digit(*high) << 4) | digit(*low),
        _ => 0,
    }
}

fn digit(byte: u8) -> u8 {
    match byte {
        b'0'..=b'9' => byte - b'0',
        b'a'..=b'f' => byte - b'a' + 10,
        _ => 0,
    }
}

/// Adds bytes as they are shown: what is no printed letter is `\xHH`.
pub fn push_shown(bytes: &[u8], out: &mut Text) -> Result<(), NoMemory> {
    for byte in bytes {
        if b' ' <= *byte && *byte <= b'~' {
            out.push(*byte)?;
        } else {
            push_code(*byte, out)?;
        }
    }
    Ok(())
}

fn push_code(byte: u8, out: &mut Text) -> Result<(), NoMemory> {
    out.push_slice(b"\\x")?;
    out.push(letter(byte >> 4))?;
    out.push(letter(byte & 15))
}

/// The letter of a hexadecimal digit.
fn letter(digit: u8) -> u8 {
    if digit < 10 {
        b'0'.saturating_add(digit)
    } else {
        b'W'.saturating_add(digit)
    }
}
