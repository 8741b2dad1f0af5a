//! A period in which a rating is in force.

use fixed_units::Second;
use rating_tables::SharedTable;
use rising::Keyed;
use std::marker::Model;

/// A rating is in force from an instant until another one, that one excluded, or without end.
#[derive(Clone, Copy, Debug, PartialEq, Eq)]
pub struct Period {
    /// When the period begins.
    pub from: Second,
    /// When it ends, after its start; `None` where it has no end.
    pub until: Option<Second>,
    /// The number of the rating.
    pub rating: u32,
}

impl Model for Period {
    ghost use Rattle.std.specs.Prelude.{IfSome, ◌<ℤ◌};
    ghost use Rattle.ratings.specs.Spans.{Span};

    ghost Value = { Span };

    ghost view = { λ p. record { from = p.from; until = p.until; rating = p.rating } };

    ghost invariant = { λ p. IfSome p.until (λ until. p.from <ℤ until) };

    ghost inverse = { λ s. record { from = s.from; until = s.until; rating = s.rating } };
}

impl Period {
    ghost use Rattle.std.specs.Prelude.{◌≡◌, ◌↔◌, IsSome, IfSome, ◌<ℤ◌};

    /// The period of that start, end and rating, or `None` exactly where the end is not after the start.
    pub fn new(from: Second, until: Option<Second>, rating: u32) -> Option<Period>
        ensures ordered { IsSome result ↔ IfSome until (λ u. from <ℤ u) }
        ensures value { IfSome result (λ p. p ≡ record { from = from; until = until; rating = rating }) }
    {
        if let Some(end) = until {
            if end <= from {
                return None;
            }
        }
        Some(Period {
            from,
            until,
            rating,
        })
    }
}

impl Keyed for Period {
    type Key = Second;

    ghost place = { λ p. p.from };

    ghost number = { λ s. s };

    fn key(&self) -> Second {
        self.from
    }

    fn is_before(&self, key: Second) -> bool {
        self.from < key
    }

    fn is_at(&self, key: Second) -> bool {
        self.from == key
    }
}

/// A part of a period, with the table of its rating.
#[derive(Drop)]
pub struct PeriodPart {
    /// When the part begins.
    pub from: Second,
    /// When it ends, that instant excluded.
    pub until: Second,
    /// The number of the rating.
    pub rating: u32,
    /// The table of the rating.
    pub table: SharedTable,
}

impl Model for PeriodPart {
    ghost use Rattle.ratings.specs.Parts.{Part};

    ghost Value = { Part };

    ghost view = { λ p. record { from = p.from; until = p.until; rating = p.rating; rows = p.table } };
}

impl Keyed for PeriodPart {
    type Key = Second;

    ghost place = { λ p. p.from };

    ghost number = { λ s. s };

    fn key(&self) -> Second {
        self.from
    }

    fn is_before(&self, key: Second) -> bool {
        self.from < key
    }

    fn is_at(&self, key: Second) -> bool {
        self.from == key
    }
}
