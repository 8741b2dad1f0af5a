//! The counter.
ghost use Rattle.std.specs.Prelude.{◌≡◌, ◌+◌, ◌<◌};

use std::marker::Model;
use std::sync::ledger::{Blank, Book, Ledger, Share};

/// How many steps were taken. It takes no bytes and no time, and only `tick` changes it; contracts see the number.
///
/// A function that counts is generic in the ledger and takes `steps: &mut Steps<L>`. One that counts for nobody makes a
/// counter of its own: in two functions, since the ledger of a counter is picked at a call.
///
/// ```text
/// use std::marker::Brand;
///
/// pub fn value(inputs: &DayInputs) -> DayValue {
///     value_counted::<Brand>(inputs, Blank::new(1))
/// }
///
/// fn value_counted<L: Ledger>(inputs: &DayInputs, blank: Blank) -> DayValue
///     requires name { blank.name ≡ L.name }
///     requires parts { blank.parts ≡ L.parts }
///     requires some { 0 < blank.parts }
/// {
///     let mut steps = Steps::<L>::new(blank);
///     compute(inputs, &mut steps)
/// }
/// ```
///
/// The proof of the first says which ledger it is, in `proofs/value/Invariants.antt`:
///
/// ```text
/// use Rattle.NAME.proofs.value.Given as goal
///
/// abbrev pub ghosts-value_counted : goal.ghosts-value_counted
/// ghosts-value_counted a = record { name = a.blank.name; parts = a.blank.parts }
/// ```
#[derive(Drop)]
pub struct Steps<L: Ledger> {
    book: Book<L>,
    share: Share<L>,
}

impl<L: Ledger> Model for Steps<L> {
    ghost use Rattle.std.specs.Prelude.{ℕ, ◌<◌};

    ghost Value = { ℕ };

    ghost view = { λ s. s.book.total };

    ghost invariant = { λ s. 0 < s.share.parts };
}

impl<L: Ledger> Steps<L> {
    /// No step yet.
    pub fn new(blank: Blank) -> Steps<L>
        requires name { blank.name ≡ L.name }
        requires parts { blank.parts ≡ L.parts }
        requires some { 0 < blank.parts }
        ensures { result ≡ 0 }
    {
        let (book, share) = blank.open::<L>();
        Steps { book, share }
    }

    /// One step more.
    pub fn tick(&mut self)
        ensures { self.new ≡ self.old + 1 }
    {
        self.book.add(&mut self.share, 1);
    }
}
