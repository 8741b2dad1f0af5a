//! The ratings and the periods of a payload, read from left to right.

ghost use Rattle.std.specs.Prelude.{◌≡◌, option_map};
ghost use Rattle.records.specs.Drafts.{what_of};
ghost use Rattle.records.specs.Parsing.{points_at, rows_in, table_at, rating_at, end_at, period_at, dropped_period_at};

use crate::drafts::Fields;
use crate::parsing::{i64_of, mark_of, u32_of};
use crate::period_drafts::PeriodDraft;

/// The fields of a rating that is added.
#[tactic(auto, unfolding(crate::specs::Parsing::rating_at))]
pub(crate) fn rating_of(bytes: &[u8]) -> Option<(Fields<'_>, &[u8])>
    ensures { option_map (λ x. (what_of x.0, x.1.now)) result ≡ rating_at bytes.now }
{
    let (number, rest) = u32_of(bytes)?;
    let (rows, rest) = table_of(rest)?;
    Some((Fields::Rating { number, rows }, rest))
}

/// How many rows a table has, and sixteen bytes for each.
#[tactic(auto, unfolding(crate::specs::Parsing::table_at))]
fn table_of(bytes: &[u8]) -> Option<(&[[u8; 16]], &[u8])>
    ensures { option_map (λ x. (rows_in x.0.now, x.1.now)) result ≡ table_at bytes.now }
{
    let (count, rest) = u32_of(bytes)?;
    rows_of(rest, count)
}

/// Sixteen bytes for each of so many rows: they are lent, and none is copied.
fn rows_of(bytes: &[u8], count: u32) -> Option<(&[[u8; 16]], &[u8])>
    ensures { option_map (λ x. (rows_in x.0.now, x.1.now)) result ≡ points_at count bytes.now }
{
    let (front, rest) = bytes.split_at_checked(16 * count as usize)?;
    let (rows, _) = front.as_chunks::<16>();
    Some((rows, rest))
}

/// The fields of a period that is put.
#[tactic(auto, unfolding(crate::specs::Parsing::period_at))]
pub(crate) fn period_of(bytes: &[u8]) -> Option<(Fields<'_>, &[u8])>
    ensures { option_map (λ x. (what_of x.0, x.1.now)) result ≡ period_at bytes.now }
{
    let (rating, rest) = u32_of(bytes)?;
    let (from, rest) = i64_of(rest)?;
    let (until, rest) = end_of(rest)?;
    let period = PeriodDraft {
        from,
        until,
        rating,
    };
    Some((Fields::Period(period), rest))
}

/// Whether a period ends, and its end where it does.
#[tactic(auto, unfolding(crate::specs::Parsing::end_at))]
fn end_of(bytes: &[u8]) -> Option<(Option<i64>, &[u8])>
    ensures { option_map (λ x. (x.0, x.1.now)) result ≡ end_at bytes.now }
{
    let (ends, rest) = mark_of(bytes)?;
    if !ends {
        return Some((None, rest));
    }
    let (until, rest) = i64_of(rest)?;
    Some((Some(until), rest))
}

/// The fields of a period that is dropped.
#[tactic(auto, unfolding(crate::specs::Parsing::dropped_period_at))]
pub(crate) fn dropped_period_of(bytes: &[u8]) -> Option<(Fields<'_>, &[u8])>
    ensures { option_map (λ x. (what_of x.0, x.1.now)) result ≡ dropped_period_at bytes.now }
{
    let (from, rest) = i64_of(bytes)?;
    Some((Fields::DroppedPeriod { from }, rest))
}
