//! Edits as a row spells them: `[by INITIALS] [as REFERENCE] [at SITE] WORD ARGUMENTS`, usually by AB, as r-1, at 01646500, and behind
//! ` # ` the comment where there is one. Stages, amounts and discharges are in feet and in cubic feet per second.

use crate::sent_changes::change;
use civil_days::{read_day, read_instant};
use edits::{By, Comment, Edit, Ref, What};
use fixed_units::{Day, Micro, Second, Site, read_decimal};
use row_lines::parted;
use site_texts::read_site;
use std::alloc::Global;

/// The site of the rows.
pub const POTOMAC: &str = "01646500";

/// The edit of a text, where it is one and there is memory for it.
pub fn edit(alloc: Global, text: &str) -> Option<Box<Edit>> {
    match text.split_once(" # ") {
        Some((text, comment)) => commented(alloc, text, comment),
        None => uncommented(alloc, text),
    }
}

fn commented(alloc: Global, text: &str, comment: &str) -> Option<Box<Edit>> {
    match (
        uncommented(alloc, text),
        Comment::new(alloc, comment.as_bytes()),
    ) {
        (Some(edit), Ok(Some(comment))) => with_comment(alloc, edit, comment),
        _ => None,
    }
}

fn with_comment(alloc: Global, edit: Box<Edit>, comment: Comment) -> Option<Box<Edit>> {
    Box::new(alloc, Box::into_inner(edit).with_comment(comment)).ok()
}

fn uncommented(alloc: Global, text: &str) -> Option<Box<Edit>> {
    let (by, text) = led(text, "by ", "AB");
    let (reference, text) = led(text, "as ", "r-1");
    let (place, text) = led(text, "at ", POTOMAC);
    let site = site(place)?;
    match change(alloc, text) {
        Some(what) => signed(alloc, (by, reference), site, what),
        None => None,
    }
}

fn signed(
    alloc: Global,
    (by, reference): (&str, &str),
    site: Site,
    what: What,
) -> Option<Box<Edit>> {
    match (By::new(by.as_bytes()), Ref::new(reference.as_bytes())) {
        (Some(by), Some(reference)) => boxed(alloc, by, reference, site, what),
        _ => None,
    }
}

fn boxed(alloc: Global, by: By, reference: Ref, site: Site, what: What) -> Option<Box<Edit>> {
    match Edit::new(alloc, by, reference, site, what) {
        Ok(edit) => Box::new(alloc, edit).ok(),
        Err(_) => None,
    }
}

/// What follows a word at the beginning of a text, and behind it; else what is usual, and the text.
fn led<'a>(text: &'a str, word: &str, usual: &'a str) -> (&'a str, &'a str) {
    match text.strip_prefix(word) {
        Some(rest) => parted(rest),
        None => (usual, text),
    }
}

/// The site of a text of digits.
pub fn site(text: &str) -> Option<Site> {
    read_site(text.as_bytes())
}

/// The day of a text.
pub fn day(text: &str) -> Option<Day> {
    read_day(text.as_bytes())
}

/// The first and the last of some days.
pub fn days(text: &str) -> Option<(Day, Day)> {
    let (first, last) = parted(text);
    Some((day(first)?, day(last)?))
}

/// The instant of a text.
pub fn instant(text: &str) -> Option<Second> {
    read_instant(text.as_bytes())
}

/// The first and the last instant of a span.
pub fn instants(text: &str) -> Option<(Second, Second)> {
    let (first, last) = parted(text);
    Some((instant(first)?, instant(last)?))
}

/// The quantity of a decimal.
pub fn quantity(text: &str) -> Option<Micro> {
    read_decimal(text.as_bytes()).ok()
}
