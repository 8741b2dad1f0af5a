//! Where bytes come from.

ghost use Rattle.std.specs.Prelude.{ℕ, ◌<◌, ◌≤◌, List, length, Option};
ghost use Rattle.devices.specs.Sources.{IsTakenWithin, Takes, HasCause, IsEndCounted};

/// What a source gave.
#[derive(Clone, Copy, Debug, PartialEq, Eq)]
pub enum Took {
    /// So many bytes, at least one, at the front of the slice.
    Bytes(usize),
    /// Nothing, since nothing is left.
    End,
    /// Nothing, since the source failed.
    Failed,
}

/// A stream of bytes that is read once, from its front.
pub trait Source {
    /// The bytes that are left, where the source tells them; no clause can say what a terminal will give.
    ghost left: { Self → Option (List ℕ) };

    /// How many faults there were. The count never falls and stands still at the end of a `u64`.
    ghost faults: { Self → ℕ };

    /// How often it was found at its end. The count never falls and stands still at the end of a `u64`.
    ghost ends: { Self → ℕ };

    /// Takes bytes from the front of what is left.
    fn take(&mut self, into: &mut [u8]) -> Took
        requires { 0 < length into.old }
        ensures within { IsTakenWithin (length into.old) result }
        ensures taken { Takes (left self.old) into.new (left self.new) result }
        ensures counted { faults self.old ≤ faults self.new }
        ensures cause { HasCause (faults self.old) (faults self.new) result }
        ensures ended { IsEndCounted (ends self.old) (ends self.new) result };
}
