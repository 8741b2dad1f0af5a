//! The list of entries.
ghost use Rattle.std.specs.Prelude.{◌≡◌, List, [], ◌∷◌, ◌++◌, length};

use std::marker::Model;
use std::snapshot::Snapshot;

/// A list of entries that exists in proofs alone. It takes one byte and no memory, and can be sent to another thread; contracts
/// see the list. An invariant ties it to what is kept beside it.
#[derive(Drop)]
#[cycle(past)]
pub struct Chronicle<E> {
    past: Past<E>,
}

#[derive(Drop)]
#[cycle(past)]
enum Past<E> {
    /// Nothing was recorded yet.
    Empty,
    /// What was recorded before, and the last entry.
    After(Snapshot<Chronicle<E>>, Snapshot<E>),
}

impl<E> Model for Chronicle<E> {
    ghost use Rattle.std.specs.Prelude.{◌≡◌, List, length};

    ghost Value = { List E };

    ghost use Rattle.chronicle.specs.Entries.{entries_of};

    ghost view = { λ c. entries_of c.past };

    ghost size = { length };

    ghost use Rattle.std.proofs.Common.{arith, length-append};

    ghost size_decreases = { λ a h. Prim.grind (arith, length-append) };
}

impl<E> Chronicle<E> {
    /// No entry.
    pub fn new() -> Chronicle<E>
        ensures { result ≡ [] }
    {
        Chronicle { past: Past::Empty }
    }

    /// One entry more, at the end.
    pub fn record(&mut self, entry: &E)
        ensures { self.new ≡ self.old ++ entry.now ∷ [] }
    {
        let before = Snapshot::of(self);
        self.past = Past::After(before, Snapshot::of(entry));
    }
}
