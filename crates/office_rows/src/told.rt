//! What rows tell, as texts: refusals, days, jobs and publications.

use civil_days::{write_day, write_instant};
use fixed_units::{Day, NoMemory, Site, Text};
use office_inputs::{Full, Refusal, Which};
use recompute::{Job, Publish};
use site_texts::write_site;

/// Writes why an edit is refused.
pub fn push_refusal(refusal: Refusal, came: &mut Text) -> Result<(), NoMemory> {
    match refusal {
        Refusal::NoStation => came.push_slice(b"no station"),
        Refusal::StationExists => came.push_slice(b"station exists"),
        Refusal::Limit(which) => push_limit(which, came),
        Refusal::NoRating => came.push_slice(b"no rating"),
        Refusal::RatingExists => came.push_slice(b"rating exists"),
        Refusal::NoEntry => came.push_slice(b"no entry"),
        refusal => push_refusal_of_day(refusal, came),
    }
}

fn push_limit(which: Which, came: &mut Text) -> Result<(), NoMemory> {
    came.push_slice(match which {
        Which::Stations => b"limit of stations",
        Which::Readings => b"limit of readings",
        Which::DayReadings => b"limit of readings of a day",
        Which::Ratings => b"limit of ratings",
        Which::Entries => b"limit of entries",
        Which::Periods => b"limit of periods",
        Which::Measurements => b"limit of measurements",
        Which::Editions => b"limit of editions",
    })
}

/// Refusals that name a period or a day, and then the others.
fn push_refusal_of_day(refusal: Refusal, came: &mut Text) -> Result<(), NoMemory> {
    match refusal {
        Refusal::PeriodOverlap(from) => {
            came.push_slice(b"overlaps the period from ")?;
            write_instant(from, came)
        }
        Refusal::NotInReview(day) => push_of_day(b"not in review ", day, came),
        Refusal::SamePerson(day) => push_of_day(b"same person ", day, came),
        Refusal::NotApproved(day) => push_of_day(b"not approved ", day, came),
        Refusal::AlreadyApproved(day) => push_of_day(b"already approved ", day, came),
        Refusal::Locked(day) => push_of_day(b"locked ", day, came),
        refusal => push_refusal_of_office(refusal, came),
    }
}

/// Writes what is said of a day.
pub fn push_of_day(said: &[u8], day: Day, came: &mut Text) -> Result<(), NoMemory> {
    came.push_slice(said)?;
    write_day(day, came)
}

/// Refusals of an office over its journal.
fn push_refusal_of_office(refusal: Refusal, came: &mut Text) -> Result<(), NoMemory> {
    match refusal {
        Refusal::RefReused(edit) => push_number_behind(b"reference of edit ", edit, came),
        Refusal::HistoryFull(Full::Events) => came.push_slice(b"no room for events"),
        Refusal::HistoryFull(Full::Cells) => came.push_slice(b"no room for cells"),
        Refusal::NoComments => came.push_slice(b"no comments"),
        Refusal::JournalFull => came.push_slice(b"no room in the journal"),
        Refusal::JournalFault(false) => came.push_slice(b"journal fault"),
        Refusal::JournalFault(true) => came.push_slice(b"journal fault in doubt"),
        _ => came.push_slice(b"refused otherwise"),
    }
}

/// Writes a number behind some words.
pub fn push_number_behind(words: &[u8], number: u64, came: &mut Text) -> Result<(), NoMemory> {
    came.push_slice(words)?;
    came.push_number(number)
}

/// Writes a number behind a blank.
pub fn push_next(number: u64, came: &mut Text) -> Result<(), NoMemory> {
    push_number_behind(b" ", number, came)
}

/// Writes the first and the last of some days, if there are any.
pub fn push_span(span: Option<(Day, Day)>, came: &mut Text) -> Result<(), NoMemory> {
    match span {
        Some((first, last)) => {
            write_day(first, came)?;
            push_of_day(b" ", last, came)
        }
        None => came.push_slice(b"none"),
    }
}

/// Writes days, or that there are none.
pub fn push_days(days: &[Day], came: &mut Text) -> Result<(), NoMemory> {
    if days.is_empty() {
        return came.push_slice(b"none");
    }
    for (place, day) in days.iter().enumerate() {
        push_of_day(if place == 0 { b"" } else { b" " }, *day, came)?;
    }
    Ok(())
}

/// Writes what became of a publication.
pub fn push_outcome(outcome: Publish, came: &mut Text) -> Result<(), NoMemory> {
    match outcome {
        Publish::Settled => came.push_slice(b"settled"),
        Publish::Superseded(edit) => push_number_behind(b"superseded by edit ", edit, came),
        Publish::Foreign => came.push_slice(b"foreign"),
        Publish::Published => came.push_slice(b"published"),
    }
}

/// Writes a day of a site.
pub fn push_site_and_day(site: Site, day: Day, came: &mut Text) -> Result<(), NoMemory> {
    write_site(site, came)?;
    push_of_day(b" ", day, came)
}

/// Writes the site and the day of a job, and the edit that it awaits.
pub fn push_job(job: &Job, came: &mut Text) -> Result<(), NoMemory> {
    push_site_and_day(job.site(), job.day(), came)?;
    push_number_behind(b" awaits ", job.awaits(), came)
}
