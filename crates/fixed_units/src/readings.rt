//! A reading of a gauge: when, how high, and whether it may be used.

use crate::quantities::{Micro, Second};
use rising::Keyed;

/// What a hydrographer says of a reading.
#[derive(Clone, Copy, Debug, PartialEq, Eq)]
pub enum Flag {
    /// The reading is good.
    Usable,
    /// The reading is wrong and is not used.
    Erroneous,
    /// The stage is good, but the rating does not hold for it (backwater, ice).
    Affected,
}

/// An instantaneous value: the raw stage in millionths of a foot at an instant.
#[derive(Clone, Copy, Debug, PartialEq, Eq)]
pub struct Reading {
    /// When the stage was read.
    pub at: Second,
    /// The stage as the gauge gave it, before any correction.
    pub raw: Micro,
    /// What is said of it.
    pub flag: Flag,
}

impl Keyed for Reading {
    type Key = Second;

    ghost place = { λ r. r.at };

    ghost number = { λ s. s };

    fn key(&self) -> Second {
        self.at
    }

    fn is_before(&self, key: Second) -> bool {
        self.at < key
    }

    fn is_at(&self, key: Second) -> bool {
        self.at == key
    }
}
