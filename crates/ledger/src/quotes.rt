//! A string as JSON spells it.

ghost use Rattle.std.specs.Prelude.{◌≡◌, ◌++◌, ◌<◌, OnOk};
ghost use Rattle.std.specs.Char.{digit_char};
ghost use Rattle.json.specs.Print.{escape, escape_byte, escape_letter, quoted};

use fixed_units::{NoMemory, Text};

/// Adds a string in quotes.
pub(crate) fn write_quoted(text: &[u8], out: &mut Text) -> Result<(), NoMemory>
    ensures { OnOk result (out.new ≡ out.old ++ quoted text.now) }
{
    out.push(b'"')?;
    write_escaped(text, out)?;
    out.push(b'"')
}

/// Adds the characters of a string.
fn write_escaped(text: &[u8], out: &mut Text) -> Result<(), NoMemory>
    ensures { OnOk result (out.new ≡ out.old ++ escape text.now) }
{
    for byte in text {
        write_escaped_byte(*byte, out)?;
    }
    Ok(())
}

/// Adds what stands in a string for a byte.
#[tactic(auto, unfolding(json::specs::Print::escape_byte))]
fn write_escaped_byte(byte: u8, out: &mut Text) -> Result<(), NoMemory>
    ensures { OnOk result (out.new ≡ out.old ++ escape_byte byte) }
{
    let letter = escape_letter(byte);
    if 0 < letter {
        return out.push_slice(&[b'\\', letter]);
    }
    if byte < 32 {
        let high = hex_digit(byte / 16);
        let low = hex_digit(byte % 16);
        return out.push_slice(&[b'\\', b'u', b'0', b'0', high, low]);
    }
    out.push(byte)
}

/// The letter of a byte's short escape, or 0 where it has none.
fn escape_letter(byte: u8) -> u8
    ensures { result ≡ escape_letter byte }
{
    if byte == b'"' || byte == b'\\' {
        byte
    } else if byte == 8 {
        b'b'
    } else if byte == 12 {
        b'f'
    } else if byte == b'\n' {
        b'n'
    } else if byte == b'\r' {
        b'r'
    } else if byte == b'\t' {
        b't'
    } else {
        0
    }
}

/// A digit to the base of 16.
fn hex_digit(digit: u8) -> u8
    requires { digit < 16 }
    ensures { result ≡ digit_char digit }
{
    if digit < 10 { 48 + digit } else { 87 + digit }
}
