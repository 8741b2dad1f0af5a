//! By whom an edit is sent, and under which reference.

ghost use Rattle.std.specs.Prelude.{◌≡◌, ◌↔◌, IsSome, IfSome, ◌≤◌, length, true, All, ◌||◌, ◌==◌};
ghost use Rattle.edits.specs.Texts.{AreInitials, IsReference, is_letter, is_digit};

use arrayvec::ArrayVec;
use std::marker::Model;

/// The initials of the person who makes an edit: 1 to 8 ASCII letters. Contracts see the letters.
#[derive(Drop)]
pub struct By {
    letters: ArrayVec<u8, 8>,
}

impl Model for By {
    ghost use Rattle.std.specs.Prelude.{List, ℕ};
    ghost use Rattle.edits.specs.Texts.{AreInitials};

    ghost Value = { List ℕ };

    ghost view = { λ b. b.letters.items };

    ghost invariant = { λ b. AreInitials b.letters.items };
}

impl By {
    /// These initials, or `None` exactly where they are not 1 to 8 ASCII letters. It takes no memory.
    pub fn new(letters: &[u8]) -> Option<By>
        ensures range { IsSome result ↔ AreInitials letters.now }
        ensures value { IfSome result (λ by. by ≡ letters.now) }
    {
        if !are_initials(letters) {
            return None;
        }
        match ArrayVec::try_from(letters) {
            Ok(letters) => Some(By { letters }),
            Err(_) => None,
        }
    }

    /// A copy of them. It takes no memory.
    pub fn copy(&self) -> By
        ensures { result ≡ self.now }
    {
        By::new(self.as_slice()).unwrap()
    }

    /// The letters.
    pub fn as_slice(&self) -> &[u8]
        ensures letters { result.now ≡ self.now }
        ensures kept { AreInitials self.now }
    {
        self.letters.as_slice()
    }
}

/// Whether the bytes are initials.
fn are_initials(letters: &[u8]) -> bool
    ensures { result ≡ true ↔ AreInitials letters.now }
{
    (1..=8).contains(&letters.len()) && are_letters(letters)
}

/// Whether each byte is an ASCII letter.
fn are_letters(bytes: &[u8]) -> bool
    ensures { result ≡ true ↔ All (λ code. is_letter code ≡ true) bytes.now }
{
    bytes.iter().all(|code| code.is_ascii_alphabetic())
}

/// The reference under which a person sends an edit: 1 to 40 ASCII letters, digits and `-`. Contracts see the bytes.
#[derive(Drop)]
pub struct Ref {
    codes: ArrayVec<u8, 40>,
}

impl Model for Ref {
    ghost use Rattle.std.specs.Prelude.{List, ℕ};
    ghost use Rattle.edits.specs.Texts.{IsReference};

    ghost Value = { List ℕ };

    ghost view = { λ r. r.codes.items };

    ghost invariant = { λ r. IsReference r.codes.items };
}

impl Ref {
    /// This reference, or `None` exactly where it is not 1 to 40 ASCII letters, digits and `-`. It takes no memory.
    pub fn new(codes: &[u8]) -> Option<Ref>
        ensures range { IsSome result ↔ IsReference codes.now }
        ensures value { IfSome result (λ reference. reference ≡ codes.now) }
    {
        if !is_reference(codes) {
            return None;
        }
        match ArrayVec::try_from(codes) {
            Ok(codes) => Some(Ref { codes }),
            Err(_) => None,
        }
    }

    /// The bytes.
    pub fn as_slice(&self) -> &[u8]
        ensures codes { result.now ≡ self.now }
        ensures kept { IsReference self.now }
    {
        self.codes.as_slice()
    }
}

/// Whether the bytes are a reference.
fn is_reference(codes: &[u8]) -> bool
    ensures { result ≡ true ↔ IsReference codes.now }
{
    (1..=40).contains(&codes.len()) && are_reference_codes(codes)
}

/// Whether each byte is an ASCII letter, an ASCII digit or `-`.
fn are_reference_codes(bytes: &[u8]) -> bool
    ensures { result ≡ true ↔ All (λ code. (is_letter code || (is_digit code || (code == 45))) ≡ true) bytes.now }
{
    bytes
        .iter()
        .all(|code| code.is_ascii_alphanumeric() || *code == b'-')
}
