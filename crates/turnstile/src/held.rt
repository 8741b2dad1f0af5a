//! A pass that holds the value.
ghost use Rattle.std.specs.Prelude.{◌≡◌};
ghost use Rattle.turnstile.specs.Passes.{value_of};

use crate::kept::Kept;
use crate::parties::Pass;

/// A pass that holds the value.
#[derive(Drop)]
pub struct Held<T: Kept> {
    pub(crate) pass: Pass<T>,
    pub(crate) value: T,
}

impl<T: Kept> Held<T> {
    ghost use types.Logic.{sem};
    ghost use denote.Follow.{follows};
    ghost use Rattle.turnstile.specs.contracts.held.Held.{the_row};
    ghost use Rattle.turnstile.specs.Lending.{with_value};

    /// The value.
    pub fn value(&self) -> &T
        ensures { result.now ≡ value_of self.now }
    {
        &self.value
    }

    /// The value, lent for writing. All else of the holding stays.
    pub fn value_mut(&mut self) -> &mut T
        ensures* writes_back { sem 𝓛 (follows (the_row T.row T.Entry.row T.Fixed.row) T.row self.entry.ghost_name result.ghost_name (with_value self.old)) }
        ensures value { result.now ≡ value_of self.old }
    {
        &mut self.value
    }
}
