//! The name of a station, and any other text of its kind.

ghost use Rattle.std.specs.Prelude.{◌≡◌, ◌↔◌, IsSome, IfSome, IfOk, ◌≤◌, length, true, All};
ghost use Rattle.edits.specs.Texts.{IsName, is_printed};

use fixed_units::{NoMemory, Text};
use std::alloc::Global;
use std::marker::Model;

/// A name: 1 to 60 characters from space to `~`. Contracts see the bytes.
#[derive(Drop)]
pub struct Name {
    text: Text,
}

impl Model for Name {
    ghost use Rattle.std.specs.Prelude.{List, ℕ};
    ghost use Rattle.edits.specs.Texts.{IsName};

    ghost Value = { List ℕ };

    ghost view = { λ n. n.text };

    ghost invariant = { λ n. IsName n.text };
}

impl Name {
    /// This name, or `None` exactly where it is not 1 to 60 characters from space to `~`. It takes no memory of its own.
    pub fn new(text: Text) -> Option<Name>
        ensures range { IsSome result ↔ IsName text }
        ensures value { IfSome result (λ name. name ≡ text) }
    {
        if is_name(text.as_slice()) {
            Some(Name { text })
        } else {
            None
        }
    }

    /// The bytes.
    pub fn as_slice(&self) -> &[u8]
        ensures text { result.now ≡ self.now }
        ensures kept { IsName self.now }
    {
        self.text.as_slice()
    }

    /// The characters.
    pub fn as_str(&self) -> &str
        ensures { result.now ≡ self.now }
    {
        match str::from_utf8(self.as_slice()) {
            Ok(text) => text,
            Err(_) => unreachable!(),
        }
    }

    /// The same name once more.
    pub fn copy(&self, alloc: Global) -> Result<Name, NoMemory>
        ensures { IfOk result (λ name. name ≡ self.now) }
    {
        let mut text = Text::new(alloc);
        text.push_slice(self.as_slice())?;
        Ok(Name { text })
    }
}

/// Whether the bytes are a name: 1 to 60 characters from space to `~`.
pub fn is_name(text: &[u8]) -> bool
    ensures { result ≡ true ↔ IsName text.now }
{
    (1..=60).contains(&text.len()) && are_printed(text)
}

/// Whether each byte is a character from space to `~`.
pub(crate) fn are_printed(bytes: &[u8]) -> bool
    ensures { result ≡ true ↔ All (λ code. is_printed code ≡ true) bytes.now }
{
    bytes.iter().all(|code| (b' '..=b'~').contains(code))
}
