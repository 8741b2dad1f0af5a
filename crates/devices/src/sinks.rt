//! Where bytes go.

ghost use Rattle.std.specs.Prelude.{◌≡◌, ℕ, ◌<◌, ◌≤◌, true, false, List, length, Option};
ghost use Rattle.devices.specs.Faults.{Rose};
ghost use Rattle.devices.specs.Sinks.{AreWritten, IsPutWithin, Puts, HasCause};

/// What a sink took.
#[derive(Clone, Copy, Debug, PartialEq, Eq)]
pub enum Put {
    /// So many bytes from the front of the piece, at least one.
    Bytes(usize),
    /// Nothing, since the sink failed.
    Failed,
}

/// A stream of bytes that is written once, at its end.
pub trait Sink {
    /// The bytes that were put, where the sink tells them.
    ghost written: { Self → Option (List ℕ) };

    /// How many faults there were. The count never falls and stands still at the end of a `u64`.
    ghost faults: { Self → ℕ };

    /// Puts the front of a piece, which is not empty, at the end.
    fn put(&mut self, bytes: &[u8]) -> Put
        requires { 0 < length bytes.now }
        ensures within { IsPutWithin (length bytes.now) result }
        ensures appended { Puts (written self.old) bytes.now (written self.new) result }
        ensures counted { faults self.old ≤ faults self.new }
        ensures cause { HasCause (faults self.old) (faults self.new) result };
}

/// Puts all bytes, piece by piece; whether the sink took them.
pub fn put_all<K: Sink>(sink: &mut K, bytes: &[u8]) -> bool
    ensures written { AreWritten (K.written sink.old) bytes.now (K.written sink.new) result }
    ensures counted { K.faults sink.old ≤ K.faults sink.new }
    ensures done { result ≡ true → K.faults sink.new ≡ K.faults sink.old }
    ensures cause { result ≡ false → Rose (K.faults sink.old) (K.faults sink.new) }
{
    let mut rest = bytes;
    while !rest.is_empty() {
        match sink.put(rest) {
            Put::Bytes(count) => rest = &rest[count..],
            Put::Failed => return false,
        }
    }
    true
}
