//! What the references begin with under which readings are put.

ghost use Rattle.std.specs.Prelude.{◌≡◌, ◌↔◌, ◌<◌, ◌≤◌, ◌+◌, ◌++◌, length, IsSome, IfSome};
ghost use Rattle.arrayvec.specs.ArrayVec.{array_vec_len};
ghost use Rattle.reading_loading.specs.Puts.{IsPrefix, reference_of};

use arrayvec::ArrayVec;
use edits::Ref;
use std::marker::Model;

/// What references begin with: 1 to 30 ASCII letters, digits and `-`. Contracts see the bytes.
#[derive(Drop)]
pub struct Prefix {
    codes: Ref,
}

impl Model for Prefix {
    ghost use Rattle.std.specs.Prelude.{List, ℕ, ◌≤◌, length};

    ghost Value = { List ℕ };

    ghost view = { λ p. p.codes };

    ghost invariant = { λ p. length p.codes ≤ 30 };
}

impl Prefix {
    /// This beginning, or `None` exactly where it is not 1 to 30 ASCII letters, digits and `-`. It takes no memory.
    pub fn new(codes: &[u8]) -> Option<Prefix>
        ensures range { IsSome result ↔ IsPrefix codes.now }
        ensures value { IfSome result (λ prefix. prefix ≡ codes.now) }
    {
        if codes.len() > 30 {
            return None;
        }
        let codes = Ref::new(codes)?;
        Some(Prefix { codes })
    }

    /// The bytes.
    pub fn as_slice(&self) -> &[u8]
        ensures codes { result.now ≡ self.now }
        ensures kept { IsPrefix self.now }
    {
        self.codes.as_slice()
    }

    /// The reference of a number: the bytes, `-` and the number. It takes no memory.
    pub(crate) fn reference(&self, number: u64) -> Ref
        requires { number < 1_000_000_000 }
        ensures { result ≡ reference_of self.now number }
    {
        let mut buffer = itoa::Buffer::new();
        let mut codes = ArrayVec::new();
        add(&mut codes, self.as_slice());
        add(&mut codes, b"-");
        add(&mut codes, buffer.format(number).as_bytes());
        Ref::new(codes.as_slice()).unwrap()
    }
}

/// Adds bytes for which there is room.
fn add(codes: &mut ArrayVec<u8, 40>, bytes: &[u8])
    requires { array_vec_len codes.old + length bytes.now ≤ 40 }
    ensures added { codes.new.items ≡ codes.old.items ++ bytes.now }
    ensures len { array_vec_len codes.new ≡ array_vec_len codes.old + length bytes.now }
{
    let _fits = codes.try_extend_from_slice(bytes);
}
