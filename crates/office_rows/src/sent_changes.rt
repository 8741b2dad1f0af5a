//! What an edit changes, as a row spells it.

use crate::sent::{day, days, instant, instants, quantity};
use crate::sent_readings::{put, put_every};
use curves::Curve;
use edits::{Decision, Estimate, Grade, Measurement, Name, What};
use fixed_units::{Flag, Micro, RoundingArray, Text};
use ratings::{Period, SharedTable, Table};
use row_lines::parted;
use std::alloc::Global;

/// Stations and readings, and then the others.
pub fn change(alloc: Global, text: &str) -> Option<What> {
    let (word, rest) = parted(text);
    match word {
        "add" => addition(alloc, rest),
        "set" => setting(alloc, rest),
        "put" => put(alloc, rest),
        "put-every" => put_every(alloc, rest),
        "drop" => no_readings(rest),
        "flag" => flags(rest),
        _ => change_of_entry(alloc, word, rest),
    }
}

/// Entries, ratings and periods, and then the others.
fn change_of_entry(alloc: Global, word: &str, rest: &str) -> Option<What> {
    match word {
        "correct" => correction(rest),
        "drop-correction" => no_correction(rest),
        "shift" => shift(rest),
        "drop-shift" => no_shift(rest),
        "rate" => rating(alloc, rest),
        "period" => period(rest),
        "drop-period" => no_period(rest),
        _ => change_of_day(word, rest),
    }
}

/// Estimates, measurements, reviews, decisions and editions.
fn change_of_day(word: &str, rest: &str) -> Option<What> {
    match word {
        "estimate" => estimate(rest),
        "drop-estimate" => no_estimate(rest),
        "measure" => measurement(rest),
        "drop-measurement" => no_measurement(rest),
        "review" => review(rest),
        "approve" => decision(rest, Decision::Approve),
        "rescind" => decision(rest, Decision::Rescind),
        "edition" => edition(rest),
        _ => None,
    }
}

fn name(alloc: Global, text: &str) -> Option<Name> {
    Name::new(Text::from_vec(text.as_bytes().to_vec(alloc).ok()?))
}

/// The rounding array of a text, or that of stages where there is none.
fn array(text: &str) -> Option<RoundingArray> {
    if text.is_empty() {
        Some(RoundingArray::STAGES)
    } else {
        RoundingArray::read(text.as_bytes())
    }
}

/// `add [ARRAY]`: POTOMAC, five hours behind UTC, with a gap tolerance of 720 minutes; the array is that of discharges.
fn addition(alloc: Global, text: &str) -> Option<What> {
    let discharge_array = array(text)?;
    match (name(alloc, "POTOMAC"), name(alloc, "-05:00")) {
        (Some(name), Some(zone)) => Some(What::AddStation {
            name,
            zone,
            gap: 720,
            stage_array: RoundingArray::STAGES,
            discharge_array,
        }),
        _ => None,
    }
}

/// `set GAP`: the gap tolerance in minutes.
fn setting(alloc: Global, text: &str) -> Option<What> {
    let gap = text.parse().ok()?;
    Some(What::SetStation {
        name: name(alloc, "POTOMAC")?,
        gap,
        stage_array: RoundingArray::STAGES,
        discharge_array: RoundingArray::STAGES,
    })
}

/// `drop FROM TO`: the readings of a span.
fn no_readings(text: &str) -> Option<What> {
    let (from, to) = instants(text)?;
    Some(What::DropReadings { from, to })
}

/// `flag FLAG FROM TO`: the readings of a span.
fn flags(text: &str) -> Option<What> {
    let (word, span) = parted(text);
    let (from, to) = instants(span)?;
    Some(What::FlagReadings {
        from,
        to,
        flag: flag(word)?,
    })
}

/// The flag of a word, or of none.
pub fn flag(word: &str) -> Option<Flag> {
    match word {
        "" | "usable" => Some(Flag::Usable),
        "erroneous" => Some(Flag::Erroneous),
        "affected" => Some(Flag::Affected),
        _ => None,
    }
}

/// The curve of one point, which has this amount at every stage.
fn curve(amount: Micro) -> Option<Curve> {
    Curve::new(&[(Micro::new(0)?, amount)]).ok()
}

/// Whether an entry prorates.
fn prorates(word: &str) -> Option<bool> {
    match word {
        "held" => Some(false),
        "prorated" => Some(true),
        _ => None,
    }
}

/// `correct SET AT AMOUNT held`, or `.. prorated`.
fn correction(text: &str) -> Option<What> {
    let (set, entry) = parted(text);
    let (at, rest) = parted(entry);
    let (amount, word) = parted(rest);
    Some(What::PutCorrection {
        set: set.parse().ok()?,
        at: instant(at)?,
        prorate: prorates(word)?,
        curve: curve(quantity(amount)?)?,
    })
}

/// `drop-correction SET AT`.
fn no_correction(text: &str) -> Option<What> {
    let (set, at) = parted(text);
    Some(What::DropCorrection {
        set: set.parse().ok()?,
        at: instant(at)?,
    })
}

/// `shift AT AMOUNT held`, or `.. prorated`.
fn shift(text: &str) -> Option<What> {
    let (at, rest) = parted(text);
    let (amount, word) = parted(rest);
    Some(What::PutShift {
        at: instant(at)?,
        prorate: prorates(word)?,
        curve: curve(quantity(amount)?)?,
    })
}

/// `drop-shift AT`.
fn no_shift(text: &str) -> Option<What> {
    let at = instant(text)?;
    Some(What::DropShift { at })
}

/// A table of 10 cubic feet per second at 1 foot, and 30 at 2 feet.
fn table(alloc: Global) -> Option<Table> {
    let low = (Micro::new(1_000_000)?, Micro::new(10_000_000)?);
    let high = (Micro::new(2_000_000)?, Micro::new(30_000_000)?);
    Table::new(alloc, &[low, high]).ok()
}

/// `rate NUMBER`: adds the rating of that table under a number.
fn rating(alloc: Global, text: &str) -> Option<What> {
    let rating = text.parse().ok()?;
    Some(What::AddRating {
        rating,
        table: SharedTable::new(alloc, table(alloc)?).ok()?,
    })
}

/// `period FROM UNTIL NUMBER`: a rating in force; `-` is no end.
fn period(text: &str) -> Option<What> {
    let (from, rest) = parted(text);
    let (until, number) = parted(rest);
    let from = instant(from)?;
    Some(What::PutPeriod {
        period: Period::new(from, instant(until), number.parse().ok()?)?,
    })
}

/// `drop-period FROM`.
fn no_period(text: &str) -> Option<What> {
    let from = instant(text)?;
    Some(What::DropPeriod { from })
}

/// `estimate DAY DISCHARGE`.
fn estimate(text: &str) -> Option<What> {
    let (of, discharge) = parted(text);
    Some(What::PutEstimate {
        estimate: Estimate {
            day: day(of)?,
            discharge: quantity(discharge)?,
        },
    })
}

/// `drop-estimate DAY`.
fn no_estimate(text: &str) -> Option<What> {
    let day = day(text)?;
    Some(What::DropEstimate { day })
}

/// `measure NUMBER`: 20 cubic feet per second at 1.5 feet on 2024-01-05, which is good.
fn measurement(text: &str) -> Option<What> {
    Some(What::PutMeasurement {
        measurement: Measurement {
            number: text.parse().ok()?,
            at: instant("2024-01-05T12:00:00Z")?,
            gage: Micro::new(1_500_000)?,
            discharge: Micro::new(20_000_000)?,
            grade: Grade::Good,
        },
    })
}

/// `drop-measurement NUMBER`.
fn no_measurement(text: &str) -> Option<What> {
    let number = text.parse().ok()?;
    Some(What::DropMeasurement { number })
}

/// `review FIRST LAST`.
fn review(text: &str) -> Option<What> {
    let (from, to) = days(text)?;
    Some(What::Review { from, to })
}

/// `approve FIRST LAST`, `rescind FIRST LAST`.
fn decision(text: &str, decision: Decision) -> Option<What> {
    let (from, to) = days(text)?;
    Some(What::Decide { from, to, decision })
}

/// `edition DAY LEAST`: minutes, or a dash.
fn edition(text: &str) -> Option<What> {
    let (from, least) = parted(text);
    Some(What::SetEdition {
        day: day(from)?,
        least: least_of(least)?,
    })
}

/// The least cover of a word, or none of a dash.
fn least_of(word: &str) -> Option<Option<u32>> {
    match word {
        "-" => Some(None),
        minutes => Some(Some(minutes.parse().ok()?)),
    }
}
