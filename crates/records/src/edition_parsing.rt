//! The editions of a payload, read from left to right.

ghost use Rattle.std.specs.Prelude.{◌≡◌, option_map};
ghost use Rattle.records.specs.Drafts.{what_of};
ghost use Rattle.records.specs.Parsing.{edition_at, least_at};

use crate::drafts::Fields;
use crate::parsing::{day_of, mark_of, u32_of};

/// The fields of an edition that is set.
#[tactic(auto, unfolding(crate::specs::Parsing::edition_at))]
pub(crate) fn edition_of(bytes: &[u8]) -> Option<(Fields<'_>, &[u8])>
    ensures { option_map (λ x. (what_of x.0, x.1.now)) result ≡ edition_at bytes.now }
{
    let (day, rest) = day_of(bytes)?;
    let (least, rest) = least_of(rest)?;
    Some((Fields::Edition { day, least }, rest))
}

/// Whether an edition has a least cover, and that where it has.
#[tactic(auto, unfolding(crate::specs::Parsing::least_at))]
fn least_of(bytes: &[u8]) -> Option<(Option<u32>, &[u8])>
    ensures { option_map (λ x. (x.0, x.1.now)) result ≡ least_at bytes.now }
{
    let (there, rest) = mark_of(bytes)?;
    if !there {
        return Some((None, rest));
    }
    let (minutes, rest) = u32_of(rest)?;
    Some((Some(minutes), rest))
}
