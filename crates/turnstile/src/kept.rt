//! Values that have a history.
ghost use Rattle.std.specs.Prelude.{◌≡◌, List, length};

/// A value with a history, which only grows, and a fixed part, which never changes. Both may exist in proofs alone.
pub trait Kept {
    /// An entry of the history.
    type Entry;

    /// What never changes.
    type Fixed;

    /// What has happened, in order.
    ghost history: { Self → List Self.Entry };

    /// What never changes.
    ghost fixed: { Self → Self.Fixed };

    /// The number of entries of the history.
    fn events(&self) -> u64
        ensures { result ≡ length (history self.now) };
}
