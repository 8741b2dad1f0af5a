//! How bytes stand in a row. A letter stands for itself; behind a backslash `n`, `r`, `t` and `0` stand for the ends of lines, a tab and
//! a zero, and `x` with two hexadecimal digits for any byte, the backslash itself among them.

use fixed_units::{NoMemory, Text};

/// Adds the bytes that a text stands for.
pub fn push_read(text: &str, out: &mut Text) -> Result<(), NoMemory> {
    let (plain, escaped) = text.split_once('\\').unwrap_or((text, ""));
    out.push_slice(plain.as_bytes())?;
    if escaped.is_empty() {
        return Ok(());
    }
    for piece in escaped.split('\\') {
        push_escaped(piece.as_bytes(), out)?;
    }
    Ok(())
}

/// Adds the byte that is written behind a backslash, and what stands behind.
fn push_escaped(piece: &[u8], out: &mut Text) -> Result<(), NoMemory> {
    match piece {
        [b'x', high, low, rest @ ..] => push_both((digit(*high) << 4) | digit(*low), rest, out),
        [letter, rest @ ..] => push_both(named(*letter), rest, out),
        [] => Ok(()),
    }
}

fn push_both(byte: u8, rest: &[u8], out: &mut Text) -> Result<(), NoMemory> {
    out.push(byte)?;
    out.push_slice(rest)
}

fn named(letter: u8) -> u8 {
    match letter {
        b'n' => b'\n',
        b'r' => b'\r',
        b't' => b'\t',
        b'0' => 0,
        _ => b'?',
    }
}

fn digit(letter: u8) -> u8 {
    match letter {
        b'0'..=b'9' => letter - b'0',
        b'a'..=b'f' => letter - b'a' + 10,
        _ => 0,
    }
}

/// Adds the text that stands for bytes.
pub fn push_shown(bytes: &[u8], out: &mut Text) -> Result<(), NoMemory> {
    for byte in bytes {
        push_byte(*byte, out)?;
    }
    Ok(())
}

fn push_byte(byte: u8, out: &mut Text) -> Result<(), NoMemory> {
    match byte {
        b'\n' => out.push_slice(b"\\n"),
        b'\r' => out.push_slice(b"\\r"),
        b'\t' => out.push_slice(b"\\t"),
        0 => out.push_slice(b"\\0"),
        b'\\' => out.push_slice(b"\\x5c"),
        b' '..=b'~' => out.push(byte),
        _ => push_coded(byte, out),
    }
}

fn push_coded(byte: u8, out: &mut Text) -> Result<(), NoMemory> {
    out.push_slice(b"\\x")?;
    out.push(letter(byte >> 4))?;
    out.push(letter(byte & 15))
}

fn letter(digit: u8) -> u8 {
    match digit {
        0..=9 => b'0' + digit,
        10..=15 => b'a' + (digit - 10),
        _ => b'?',
    }
}

/// Adds a number behind a text.
pub fn push_counted(text: &[u8], number: u64, out: &mut Text) -> Result<(), NoMemory> {
    out.push_slice(text)?;
    out.push_number(number)
}

/// Adds the numbers that stand in a text, with commas between them; none where it is `-`.
pub fn push_numbers(text: &str, numbers: &mut Vec<u64>) -> Result<(), NoMemory> {
    for word in text.split(',') {
        if let Ok(number) = word.parse() {
            numbers.push(number)?;
        }
    }
    Ok(())
}
