//! The readings of a trial, in parts.

ghost use Rattle.std.specs.Prelude.{◌≡◌, ℕ, ◌+◌, ◌*◌, ◌-◌, ◌<◌, ◌≤◌, OnOk, OnErr, IfOk};
ghost use Rattle.edits.specs.Lawful.{IsLawful};
ghost use Rattle.trial_orders.specs.Questions as questions;
ghost use Rattle.trial_orders.specs.Questions.{draws_before, part_readings, reading_of};

use crate::draws::Draws;
use edits::What;
use fixed_units::{Flag, Micro, NoMemory, Reading, Second};
use readings::ReadingList;
use std::alloc::Global;

/// In how many parts the readings of a station are put.
pub const PARTS: u32 = 8;

/// How many readings a part has.
const PART: u32 = 2_400;

/// When the first reading stands, in seconds: 2023-01-03T00:00:00Z.
const FIRST_READING: u32 = 1_672_704_000;

/// Puts a part of the readings of a station, counted from 0, which come from the next draws.
///
/// # Errors
///
/// [`NoMemory`]: no draw was made then.
pub fn part_put(alloc: Global, draws: &mut Draws, station: u32, part: u32) -> Result<What, NoMemory>
    requires first { 1 ≤ station }
    requires last { station ≤ 4 }
    requires part { part < 8 }
    requires draws { draws.old.made ≡ draws_before station part }
    ensures what { IfOk result (λ what. what ≡ questions.part_put draws.old.number station part) }
    ensures lawful { IfOk result IsLawful }
    ensures draws { OnOk result (draws.new ≡ record { number = draws.old.number; made = draws.old.made + 2_400 }) }
    ensures kept { OnErr result (draws.new ≡ draws.old) }
{
    Ok(What::PutReadings {
        readings: ReadingList::from_vec(part_readings(alloc, draws, station, part)?),
    })
}

/// Those readings. The draws go on in a duplicate, and the loop is compiled apart from its callers: so the latest draw stays in a register.
#[inline(never)]
fn part_readings(
    alloc: Global,
    draws: &mut Draws,
    station: u32,
    part: u32,
) -> Result<Vec<Reading>, NoMemory>
    requires first { 1 ≤ station }
    requires last { station ≤ 4 }
    requires part { part < 8 }
    requires draws { draws.old.made ≡ draws_before station part }
    ensures readings { IfOk result (λ readings. readings.items ≡ part_readings draws.old.number station part) }
    ensures draws { OnOk result (draws.new ≡ record { number = draws.old.number; made = draws.old.made + 2_400 }) }
    ensures kept { OnErr result (draws.new ≡ draws.old) }
{
    let mut readings = Vec::new(alloc);
    readings.reserve_exact(PART as usize)?;
    let mut ahead = draws.duplicate();
    for place in PART * part..PART * part + PART {
        readings.push(reading(&mut ahead, place))?;
    }
    *draws = ahead;
    Ok(readings)
}

/// The reading of a place, from 0 on, which comes from the next draw.
fn reading(draws: &mut Draws, place: u32) -> Reading
    requires place { place < 19_200 }
    requires few { draws.old.made + 1 < 100_000 }
    ensures reading { (station : ℕ) → draws.old.made ≡ 19_200 * (station - 1) + place → result ≡ reading_of draws.old.number station place }
    ensures draws { draws.new ≡ record { number = draws.old.number; made = draws.old.made + 1 } }
{
    let raw = 2_000_000 + draws.next() % 15_000_000;
    Reading {
        at: Second::new(i64::from(FIRST_READING + 1_800 * place)).unwrap(),
        raw: Micro::new(i64::from(raw)).unwrap(),
        flag: Flag::Usable,
    }
}
