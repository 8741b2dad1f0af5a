//! Parts of JSON texts: flags, instants, quantities, strings.

ghost use Rattle.std.specs.Prelude.{◌≡◌, ◌++◌, ◌∷◌, [], ◌<◌, take, length, OnOk, OnErr};
ghost use Rattle.std.specs.Char.{digit_char};
ghost use Rattle.civil_days.specs.Texts.{instant_text};
ghost use Rattle.json.specs.Print.{escape, escape_byte, escape_letter, quoted};
ghost use Rattle.http_api.specs.JsonTexts.{bool_text, micro_or_null};

use civil_days::write_instant;
use fixed_units::{Micro, NoMemory, Second, Text, write_micro};

/// Adds a flag. After `NoMemory` the text is as before.
pub(crate) fn write_flag(flag: bool, out: &mut Text) -> Result<(), NoMemory>
    ensures ok { OnOk result (out.new ≡ out.old ++ bool_text flag) }
    ensures err { OnErr result (out.new ≡ out.old) }
{
    out.push_slice(if flag { b"true" } else { b"false" })
}

/// Adds an instant. After `NoMemory` the text is as before.
pub(crate) fn write_time(at: Second, out: &mut Text) -> Result<(), NoMemory>
    ensures ok { OnOk result (out.new ≡ out.old ++ instant_text at) }
    ensures err { OnErr result (out.new ≡ out.old) }
{
    write_instant(at, out)
}

/// Adds a quantity in quotes, or null, of which a part may be added where memory runs out.
pub(crate) fn write_micro_or_null(quantity: Option<Micro>, out: &mut Text) -> Result<(), NoMemory>
    ensures ok { OnOk result (out.new ≡ out.old ++ micro_or_null quantity) }
    ensures err { OnErr result (take (length out.old) out.new ≡ out.old) }
{
    match quantity {
        Some(quantity) => {
            out.push_slice(b"\"")?;
            write_micro(quantity, out)?;
            out.push_slice(b"\"")
        }
        None => out.push_slice(b"null"),
    }
}

/// Adds a string in quotes, of which a part may be added where memory runs out.
pub(crate) fn write_quoted(text: &[u8], out: &mut Text) -> Result<(), NoMemory>
    ensures ok { OnOk result (out.new ≡ out.old ++ quoted text.now) }
    ensures err { OnErr result (take (length out.old) out.new ≡ out.old) }
{
    out.push(b'"')?;
    write_escaped(text, out)?;
    out.push(b'"')
}

/// Adds the characters of a string, of which a part may be added where memory runs out.
fn write_escaped(text: &[u8], out: &mut Text) -> Result<(), NoMemory>
    ensures ok { OnOk result (out.new ≡ out.old ++ escape text.now) }
    ensures err { OnErr result (take (length out.old) out.new ≡ out.old) }
{
    for byte in text {
        write_escaped_byte(*byte, out)?;
    }
    Ok(())
}

/// Adds what stands in a string for a byte. After `NoMemory` the text is as before.
#[tactic(auto, unfolding(json::specs::Print::escape_byte))]
fn write_escaped_byte(byte: u8, out: &mut Text) -> Result<(), NoMemory>
    ensures ok { OnOk result (out.new ≡ out.old ++ escape_byte byte) }
    ensures err { OnErr result (out.new ≡ out.old) }
{
    let letter = escape_letter(byte);
    if 0 < letter {
        return out.push_slice(&[b'\\', letter]);
    }
    if byte < 32 {
        let high = hex_digit(byte / 16);
        let low = hex_digit(byte % 16);
        return out.push_slice(&[b'\\', b'u', b'0', b'0', high, low]);
    }
    out.push(byte)
}

/// The letter of a byte's short escape, or 0 where it has none.
fn escape_letter(byte: u8) -> u8
    ensures { result ≡ escape_letter byte }
{
    if byte == b'"' || byte == b'\\' {
        byte
    } else if byte == 8 {
        b'b'
    } else if byte == 12 {
        b'f'
    } else if byte == b'\n' {
        b'n'
    } else if byte == b'\r' {
        b'r'
    } else if byte == b'\t' {
        b't'
    } else {
        0
    }
}

/// A digit to the base of 16.
fn hex_digit(digit: u8) -> u8
    requires { digit < 16 }
    ensures { result ≡ digit_char digit }
{
    if digit < 10 { 48 + digit } else { 87 + digit }
}
