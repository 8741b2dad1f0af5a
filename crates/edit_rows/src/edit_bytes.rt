//! Bytes as rows have them: in hexadecimal, or as a text in which `\xNN` stands for a byte.

use fixed_units::{NoMemory, Text};

/// Adds bytes in hexadecimal: pieces with `+` between them, each two digits a byte, and `*COUNT` behind one that comes so often.
pub fn push_pieces(pieces: &str, out: &mut Text) -> Result<(), NoMemory> {
    for piece in pieces.split('+') {
        push_piece(piece, out)?;
    }
    Ok(())
}

fn push_piece(piece: &str, out: &mut Text) -> Result<(), NoMemory> {
    match piece.split_once('*') {
        Some((digits, count)) => push_often(digits.as_bytes(), count_of(count), out),
        None => push_bytes(piece.as_bytes(), out),
    }
}

/// The number of a text; 0 where it is none.
fn count_of(text: &str) -> u32 {
    text.parse().unwrap_or(0)
}

fn push_often(digits: &[u8], count: u32, out: &mut Text) -> Result<(), NoMemory> {
    for _ in 0..count {
        push_bytes(digits, out)?;
    }
    Ok(())
}

fn push_bytes(digits: &[u8], out: &mut Text) -> Result<(), NoMemory> {
    for pair in digits.chunks(2) {
        out.push(byte_of(pair))?;
    }
    Ok(())
}

/// The byte of two hexadecimal digits.
fn byte_of(pair: &[u8]) -> u8 {
    match pair {
        [high, low] => (value_of(*high) << 4) | value_of(*low),
        _ => 0,
    }
}

fn value_of(digit: u8) -> u8 {
    match digit {
        b'0'..=b'9' => digit - b'0',
        b'a'..=b'f' => digit - b'a' + 10,
        _ => 0,
    }
}

/// Adds a text in which `\xNN` stands for a byte.
pub fn push_text(text: &str, out: &mut Text) -> Result<(), NoMemory> {
    let (front, rest) = cut(text);
    out.push_slice(front.as_bytes())?;
    for piece in rest.split("\\x") {
        push_behind_digits(piece.as_bytes(), out)?;
    }
    Ok(())
}

/// The text before the first `\x`, and behind it.
fn cut(text: &str) -> (&str, &str) {
    text.split_once("\\x").unwrap_or((text, ""))
}

/// Adds the byte of the first two digits, and what is behind them.
fn push_behind_digits(piece: &[u8], out: &mut Text) -> Result<(), NoMemory> {
    match piece {
        [high, low, rest @ ..] => {
            out.push((value_of(*high) << 4) | value_of(*low))?;
            out.push_slice(rest)
        }
        _ => Ok(()),
    }
}

/// Adds bytes as hexadecimal digits.
pub fn push_digits(bytes: &[u8], out: &mut Text) -> Result<(), NoMemory> {
    for byte in bytes {
        out.push(digit_of(*byte >> 4))?;
        out.push(digit_of(*byte & 15))?;
    }
    Ok(())
}

fn digit_of(value: u8) -> u8 {
    match value {
        0..=9 => b'0' + value,
        10..=15 => b'a' + (value - 10),
        _ => b'?',
    }
}
