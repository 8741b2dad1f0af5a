//! Where connections come in.

ghost use Rattle.std.specs.Prelude.{◌≡◌, ℕ, ◌<◌, ◌≤◌, Bool, true, length, None, OnOk, OnErr};
ghost use Rattle.devices.specs.Doors.{Connections, Ends, ends_of, HasCause, IsBack, IsNext, Stay};
ghost use Rattle.devices.specs.Faults.{Rose};

use crate::{Sink, Source};
use thiserror::Error;

/// The doors failed.
#[derive(Clone, Copy, Debug, PartialEq, Eq, Error)]
#[error("the doors failed")]
pub struct DoorFailed;

/// What doors answer to the wish for the next connection.
#[derive(Drop)]
pub enum Next<I, O> {
    /// The two ends of the next connection.
    Open(I, O),
    /// None, since the doors failed.
    Failed,
}

/// Doors through which connections come, at most 10,000. A connection's number is its place in the order of giving, from 1.
///
/// The two ends of a connection may be used in another thread. There `finish` ends the connection, and what is left of it
/// comes back to the doors by `take_back`. These two take no memory and cannot fail.
pub trait Doors {
    ghost use Rattle.devices.specs.Doors.{Connections, Ends};

    /// The source of a connection.
    type In: Source + Send + Drop + 'static;

    /// The sink of a connection.
    type Out: Sink + Send + Drop + 'static;

    /// What is left of a connection that was ended.
    type Back: Send + Drop + 'static;

    /// Whether they listen.
    ghost listens: { Self → Bool };

    /// What they tell of the connections that were given and taken back.
    ghost told: { Self → Connections };

    /// How many faults there were. The count never falls and stands still at the end of a `u64`.
    ghost faults: { Self → ℕ };

    /// What the ends of a connection told when it was ended.
    ghost ends: { Self.Back → Ends };

    /// Listens at a port. They listen exactly after such a call was answered with `Ok`.
    fn listen(&mut self, port: u16) -> Result<(), DoorFailed>
        ensures listens { OnOk result (listens self.new ≡ true) }
        ensures same { OnErr result (listens self.new ≡ listens self.old) }
        ensures told { Stay (told self.old) (told self.new) }
        ensures counted { faults self.old ≤ faults self.new }
        ensures done { OnOk result (faults self.new ≡ faults self.old) }
        ensures cause { OnErr result (Rose (faults self.old) (faults self.new)) };

    /// Waits for the next connection, and gives its two ends. The doors listen, and have given fewer than 10,000 connections.
    fn next(&mut self) -> Next<Self::In, Self::Out>
        requires listens { listens self.old ≡ true }
        requires few { length (told self.old).given < 10000 }
        ensures given { IsNext Self.In.Source Self.Out.Sink (told self.old) result (told self.new) }
        ensures listens { listens self.new ≡ true }
        ensures counted { faults self.old ≤ faults self.new }
        ensures cause { HasCause (faults self.old) (faults self.new) result };

    /// Ends a connection. What is left of it tells what its ends told.
    fn finish(input: Self::In, output: Self::Out) -> Self::Back
        ensures { ends result ≡ ends_of Self.In.Source Self.Out.Sink input output };

    /// Takes back what is left of the connection with this number, which was given and was not taken back.
    fn take_back(&mut self, number: u32, back: Self::Back)
        requires first { 0 < number }
        requires given { number ≤ length (told self.old).given }
        requires out { (told self.old).back number ≡ None }
        ensures back { IsBack number (ends back) (told self.old) (told self.new) }
        ensures listens { listens self.new ≡ listens self.old }
        ensures counted { faults self.new ≡ faults self.old };

    /// A connection that was not given was not taken back.
    ghost only_given: { (doors : Self) (number : ℕ) → length (told doors).given < number → (told doors).back number ≡ None };
}
