//! The stations of a trial, how they are added and their rating.

ghost use Rattle.std.specs.Prelude.{◌≡◌, ◌≤◌, codes, IfOk};
ghost use Rattle.edits.specs.Lawful.{IsLawful};
ghost use Rattle.edits.specs.Texts.{IsName};
ghost use Rattle.trial_orders.specs.Questions as questions;
ghost use Rattle.trial_orders.specs.Questions.{name_of, rating_row, rating_rows, zone_of};

use edits::{Name, What};
use fixed_units::{Micro, NoMemory, RoundingArray, Second, Site, Text};
use rating_tables::Table;
use ratings::{Period, SharedTable};
use std::alloc::Global;

/// How many stations there are, which are numbered from 1.
pub const STATIONS: u32 = 4;

/// When the period of their rating begins, in seconds: 2023-01-01T00:00:00Z.
const PERIOD_START: i64 = 1_672_531_200;

/// The greatest stage of their rating, in feet.
const MOST_FEET: u32 = 20;

/// The site of a station.
pub fn site_of(station: u32) -> Site
    requires { station ≤ 4 }
    ensures { result ≡ questions.site_of station }
{
    Site::new(8, u64::from(station)).unwrap()
}

/// The station is added.
pub fn addition(alloc: Global, station: u32) -> Result<What, NoMemory>
    requires { station ≤ 4 }
    ensures what { IfOk result (λ what. what ≡ questions.addition station) }
    ensures lawful { IfOk result IsLawful }
{
    Ok(What::AddStation {
        name: name_of(alloc, station)?,
        zone: zone_of(alloc, station)?,
        gap: 60,
        stage_array: RoundingArray::usual_of_stages(),
        discharge_array: discharge_array(),
    })
}

/// What a station is called.
fn name_of(alloc: Global, station: u32) -> Result<Name, NoMemory>
    requires { station ≤ 4 }
    ensures { IfOk result (λ name. name ≡ name_of station) }
{
    let mut text = Text::new(alloc);
    text.push_slice(b"TRIAL ")?;
    text.push_number(u64::from(station))?;
    Ok(Name::new(text).unwrap())
}

/// Its zone: two keep daylight saving time and two do not.
fn zone_of(alloc: Global, station: u32) -> Result<Name, NoMemory>
    ensures { IfOk result (λ zone. zone ≡ zone_of station) }
{
    match station {
        1 => zone(alloc, b"EST5EDT,M3.2.0,M11.1.0"),
        2 => zone(alloc, b"CST6CDT,M3.2.0,M11.1.0"),
        3 => zone(alloc, b"-07:00"),
        _ => zone(alloc, b"+00:00"),
    }
}

/// The text of a zone.
fn zone(alloc: Global, text: &[u8]) -> Result<Name, NoMemory>
    requires { IsName text.now }
    ensures { IfOk result (λ zone. zone ≡ text.now) }
{
    let mut copy = Text::new(alloc);
    copy.push_slice(text)?;
    Ok(Name::new(copy).unwrap())
}

/// The rounding array for discharges.
fn discharge_array() -> RoundingArray
    ensures { result ≡ codes "0222233332" }
{
    RoundingArray::read(b"0222233332").unwrap()
}

/// The rating of each station is added.
pub fn rating(alloc: Global) -> Result<What, NoMemory>
    ensures what { IfOk result (λ what. what ≡ questions.rating) }
    ensures lawful { IfOk result IsLawful }
{
    let table = Table::from_vec(rating_rows(alloc)?).unwrap();
    Ok(What::AddRating {
        rating: 1,
        table: SharedTable::new(alloc, table)?,
    })
}

/// The rows of the rating.
fn rating_rows(alloc: Global) -> Result<Vec<(Micro, Micro)>, NoMemory>
    ensures { IfOk result (λ rows. rows.items ≡ rating_rows) }
{
    let mut rows = Vec::new(alloc);
    for feet in 0..MOST_FEET + 1 {
        rows.push(rating_row(feet))?;
    }
    Ok(rows)
}

/// The row at a stage of so many feet.
fn rating_row(feet: u32) -> (Micro, Micro)
    requires { feet ≤ 20 }
    ensures { result ≡ rating_row feet }
{
    (
        Micro::new(i64::from(1_000_000 * feet)).unwrap(),
        Micro::new(i64::from(1_000_000 * (10 * feet * feet))).unwrap(),
    )
}

/// The rating is in force.
pub fn period() -> What
    ensures what { result ≡ questions.period }
    ensures lawful { IsLawful result }
{
    What::PutPeriod {
        period: Period::new(Second::new(PERIOD_START).unwrap(), None, 1).unwrap(),
    }
}
