//! What an element of a rising list is found by.

ghost use Rattle.std.specs.Prelude.{◌≡◌, ℤ, int_lt};
ghost use Rattle.std.specs.Ordering.{int_eq};

/// An element that has a key. Contracts see where it stands, as a whole number.
pub trait Keyed {
    /// What it is found by.
    type Key: Copy;

    /// The number that it stands at.
    ghost place: { Self → ℤ };

    /// The number of a key.
    ghost number: { Self.Key → ℤ };

    /// Its key.
    fn key(&self) -> Self::Key
        ensures { number result ≡ place self.now };

    /// Whether it stands before a key.
    fn is_before(&self, key: Self::Key) -> bool
        ensures { result ≡ int_lt (place self.now) (number key) };

    /// Whether it stands at a key.
    fn is_at(&self, key: Self::Key) -> bool
        ensures { result ≡ int_eq (place self.now) (number key) };
}
