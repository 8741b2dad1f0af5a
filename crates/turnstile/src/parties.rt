//! What each party of a turnstile knows.
use crate::kept::Kept;
use atomic_table::Seat;
use std::collections::LinkedList;

/// What a party knows. It exists in proofs alone: no value of it is made.
pub struct Party<E, F> {
    /// Its part of 2^32 shares.
    pub share: u64,
    /// The history that it has seen.
    pub seen: LinkedList<E>,
    /// What another party had seen that joined it and that it has not learned yet.
    pub told: LinkedList<E>,
    /// The places of the entries that its holdings added.
    pub tally: LinkedList<u64>,
    /// The fixed part of the value, which every party with a share knows.
    pub fixed: Option<F>,
    /// The length of the history when the turnstile was made.
    pub start: u64,
    /// Whether it has the value.
    pub holds: bool,
}

/// A party's token, with which it takes its turn. It has no bytes.
pub type Pass<T> = Seat<Option<T>, Party<<T as Kept>::Entry, <T as Kept>::Fixed>>;
