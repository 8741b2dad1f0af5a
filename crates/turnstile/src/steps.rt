//! The lock's rule, and what each atomic step tells the party that makes it.
use crate::kept::Kept;
use crate::parties::Party;
use atomic_table::{Join, Play, Split, TableRule};
use std::snapshot::Snapshot;

/// The rule that holds between any two steps.
pub struct Law;

impl<T: Kept> TableRule<Option<T>, Party<T::Entry, T::Fixed>, Snapshot<T>> for Law {
    ghost use Rattle.turnstile.specs.Parties.{newcomer};
    ghost use Rattle.turnstile.specs.Turns.{Turns};

    ghost holds = { λ key. Turns T.history T.fixed key.value };

    ghost first = { λ key. newcomer (T.history key.value) (T.fixed key.value) };
}

/// The turn is taken, and the value with it.
pub(crate) struct Take;

impl<T: Kept> Play<Option<T>, Party<T::Entry, T::Fixed>> for Take {
    ghost use Rattle.turnstile.specs.Plays.{Takes};

    ghost then = { Takes T.history T.fixed };
}

/// The length of the history is written.
pub(crate) struct Write;

impl<T: Kept> Play<Option<T>, Party<T::Entry, T::Fixed>> for Write {
    ghost use Rattle.turnstile.specs.Plays.{Writes};

    ghost then = { Writes T.history };
}

/// The turn is given back, and the value with it.
pub(crate) struct Give;

impl<T: Kept> Play<Option<T>, Party<T::Entry, T::Fixed>> for Give {
    ghost use Rattle.turnstile.specs.Plays.{Gives};

    ghost then = { Gives };
}

/// The length of the history is read.
pub(crate) struct Glance;

impl<T: Kept> Play<Option<T>, Party<T::Entry, T::Fixed>> for Glance {
    ghost use Rattle.turnstile.specs.Plays.{Glances};

    ghost then = { Glances };
}

/// A pass is cut in two.
pub(crate) struct Cut;

impl<E, F> Split<Party<E, F>> for Cut {
    ghost use Rattle.turnstile.specs.Parties.{left_part, right_part};

    ghost left = { left_part };

    ghost right = { right_part };
}

/// Two passes are put together.
pub(crate) struct Glue;

impl<E, F> Join<Party<E, F>> for Glue {
    ghost use Rattle.turnstile.specs.Parties.{joined, spent};

    ghost both = { joined };

    ghost spent = { spent };
}

/// What the other of two joined parties had seen is learned.
pub(crate) struct Learn;

impl<T: Kept> Play<Option<T>, Party<T::Entry, T::Fixed>> for Learn {
    ghost use Rattle.turnstile.specs.Plays.{Learns};

    ghost then = { Learns };
}

/// The value is taken for good.
pub(crate) struct Close;

impl<T: Kept> Play<Option<T>, Party<T::Entry, T::Fixed>> for Close {
    ghost use Rattle.turnstile.specs.Plays.{Closes};

    ghost then = { Closes T.history T.fixed };
}
