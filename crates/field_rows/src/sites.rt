//! Calls of `fixed_units`: numbers of sites, and the laws that proofs call.

use crate::notation::{Stop, count, push_next, push_whether, told, whole};
use fixed_units::lines::lines_meet_their_ends;
use fixed_units::published::{published_texts_differ, published_values, written_values_are_read};
use fixed_units::quantities::sites_are_in_order;
use fixed_units::rounding::{round_is_rounded, rounding_is_unique};
use fixed_units::{NoMemory, Site, Text};
use row_lines::parted;

/// Writes what comes of a call.
pub fn answer(word: &str, rest: &str, came: &mut Text) -> Result<(), NoMemory> {
    match word {
        "site" => told(site(rest, came), came),
        "before" => told(before(rest, came), came),
        "laws" => laws(came),
        _ => came.push_slice(b"no such call"),
    }
}

/// `site DIGITS NUMBER`: both, or that there is no such site.
fn site(rest: &str, came: &mut Text) -> Result<(), Stop> {
    match site_of(rest)? {
        Some(site) => Ok(push_site(site, came)?),
        None => Ok(came.push_slice(b"none")?),
    }
}

fn site_of(text: &str) -> Result<Option<Site>, Stop> {
    let (digits, value) = parted(text);
    let value = whole(value)?;
    match u8::try_from(count(digits)?) {
        Ok(digits) => Ok(Site::new(digits, value.unsigned_abs())),
        Err(_) => Err(Stop::NotWellFormed),
    }
}

fn push_site(site: Site, came: &mut Text) -> Result<(), NoMemory> {
    came.push_number(u64::from(site.digits()))?;
    push_next(i128::from(site.value()), came)
}

/// `before DIGITS NUMBER, DIGITS NUMBER`: whether the first site comes before the second.
fn before(rest: &str, came: &mut Text) -> Result<(), Stop> {
    let Some((first, second)) = rest.split_once(", ") else {
        return Err(Stop::NotWellFormed);
    };
    match (site_of(first)?, site_of(second)?) {
        (Some(first), Some(second)) => Ok(push_whether(first < second, came)?),
        _ => Err(Stop::NotWellFormed),
    }
}

/// `laws`: calls the laws of numbers, texts and sites, of which a call does nothing: what they say is for proofs.
fn laws(came: &mut Text) -> Result<(), NoMemory> {
    rounding_is_unique();
    round_is_rounded();
    published_values();
    published_texts_differ();
    written_values_are_read();
    lines_meet_their_ends();
    sites_are_in_order();
    came.push_slice(b"called")
}
