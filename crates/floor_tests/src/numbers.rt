//! A list of numbers as a value with a history.
ghost use Rattle.std.specs.Prelude.{◌≡◌, [], ◌++◌};
ghost use mathlib.Core.List.{IsPrefix};

use std::alloc::{AllocError, Global};
use turnstile::Kept;

/// Numbers in the order in which they were added; that is also the history.
#[derive(Drop)]
pub struct Numbers {
    pub list: Vec<u64>,
}

impl Numbers {
    pub fn new(alloc: Global) -> Numbers
        ensures { result.list.items ≡ [] }
    {
        Numbers {
            list: Vec::new(alloc),
        }
    }

    pub fn add(&mut self, number: u64) -> Result<(), AllocError>
        ensures { IsPrefix self.old.list.items self.new.list.items }
    {
        self.list.push(number)?;
        Ok(())
    }
}

impl Kept for Numbers {
    type Entry = u64;

    type Fixed = ();

    ghost history = { λ n. n.list.items };

    ghost fixed = { λ _. tt };

    fn events(&self) -> u64 {
        self.list.len() as u64
    }
}
