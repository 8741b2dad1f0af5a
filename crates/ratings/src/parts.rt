//! The parts of rating periods that a day is rated by: the one in force at an instant, and when two lists of them are equal.

ghost use Rattle.std.specs.Prelude.{◌≡◌, false, List, ◌∷◌, int_lt, option_map, IfSome, IfNone};
ghost use Rattle.std.specs.Bool.{Decides};
ghost use Rattle.ratings.specs.Parts.{Part, AreParts, part_at};
ghost use Rattle.ratings.specs.PartEquality.{same_part, same_parts};

use crate::period::PeriodPart;
use fixed_units::Second;
use rising::count_to;
use std::marker::Model;

/// A list of the parts of rating periods. Contracts see the list.
#[derive(Drop)]
pub struct PartList {
    parts: Vec<PeriodPart>,
}

impl Model for PartList {
    ghost use Rattle.std.specs.Prelude.{List};
    ghost use Rattle.ratings.specs.Parts.{Part};

    ghost Value = { List Part };

    ghost view = { λ l. l.parts.items };
}

impl PartList {
    /// The list of these parts.
    pub fn from_vec(parts: Vec<PeriodPart>) -> PartList
        ensures { result ≡ parts.items }
    {
        PartList { parts }
    }

    /// The parts, in order.
    pub fn as_slice(&self) -> &[PeriodPart]
        ensures { result.now ≡ self.now }
    {
        self.parts.as_slice()
    }
}

/// The part that is in force at an instant.
pub fn part_at(parts: &[PeriodPart], at: Second) -> Option<&PeriodPart>
    requires { AreParts parts.now }
    ensures { option_map (λ p. p.now) result ≡ part_at at parts.now }
{
    let (begun, _later) = parts.split_at(count_to(parts, at));
    let last = begun.last()?;
    if lasts(last, at) { Some(last) } else { None }
}

/// Whether a part ends after an instant.
fn lasts(part: &PeriodPart, at: Second) -> bool
    ensures { result ≡ int_lt at part.now.until }
{
    at < part.until
}

/// Two parts, and two lists of them, are equal exactly where the tests of the definitions say so.
pub fn equality_is_told()
    ensures parts { (p q : Part) → Decides (same_part p q) (p ≡ q) }
    ensures lists { (ps qs : List Part) → Decides (same_parts ps qs) (ps ≡ qs) }
{}

/// Whether two lists of parts are equal.
pub fn are_same(parts: &[PeriodPart], others: &[PeriodPart]) -> bool
    ensures { result ≡ same_parts parts.now others.now }
{
    let mut rest = others;
    for part in parts {
        let Some(left) = behind(part, rest) else {
            return false;
        };
        rest = left;
    }
    rest.is_empty()
}

/// What stands behind a part, where a list begins with it.
fn behind<'a>(part: &PeriodPart, list: &'a [PeriodPart]) -> Option<&'a [PeriodPart]>
    ensures rest { IfSome result (λ rest. (others : List Part) → same_parts (part.now ∷ others) list.now ≡ same_parts others rest.now) }
    ensures other { IfNone result ((others : List Part) → same_parts (part.now ∷ others) list.now ≡ false) }
{
    match list {
        [found, rest @ ..] if is_same(part, found) => Some(rest),
        _ => None,
    }
}

/// Whether two parts are equal.
fn is_same(part: &PeriodPart, other: &PeriodPart) -> bool
    ensures { result ≡ same_part part.now other.now }
{
    part.from == other.from
        && part.until == other.until
        && part.rating == other.rating
        && part.table.is_same(&other.table)
}
