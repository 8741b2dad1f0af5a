//! Names as they stand in a picture's text.

ghost use Rattle.std.specs.Prelude.{◌≡◌, ◌++◌, length, take, OnOk, OnErr};
ghost use Rattle.drawings.specs.Escapes.{escape, escaped};

use fixed_units::{NoMemory, Text};

/// Adds a name, in which what has a meaning in the text is escaped. A part of it may be added where memory runs out.
pub fn write_escaped(name: &[u8], out: &mut Text) -> Result<(), NoMemory>
    ensures ok { OnOk result (out.new ≡ out.old ++ escaped name.now) }
    ensures err { OnErr result (take (length out.old) out.new ≡ out.old) }
{
    for byte in name {
        write_byte(*byte, out)?;
    }
    Ok(())
}

/// Adds a byte of a name.
fn write_byte(byte: u8, out: &mut Text) -> Result<(), NoMemory>
    ensures ok { OnOk result (out.new ≡ out.old ++ escape byte) }
    ensures err { OnErr result (out.new ≡ out.old) }
{
    match byte {
        b'&' => out.push_slice(b"&amp;"),
        b'<' => out.push_slice(b"&lt;"),
        b'>' => out.push_slice(b"&gt;"),
        b'"' => out.push_slice(b"&quot;"),
        b'\'' => out.push_slice(b"&#39;"),
        _ => out.push(byte),
    }
}
