//! What is told of the days of a station: of one, of those of a daily table, and the computation sheet of one.

ghost use Rattle.std.specs.Prelude.{◌≡◌, [], ◌∷◌, is_some, map, true, MatchOption, OnOk, IfOk};
ghost use Rattle.std.specs.List.{flat_map};
ghost use Rattle.depend.specs.Compared.{days_within};
ghost use Rattle.desk.specs.Answering.{IsKnown};
ghost use Rattle.desk.specs.Replies.{reply_to, row_at};
ghost use Rattle.fixed_units.specs.Quantities.{IsDay};
ghost use Rattle.history.specs.Accepted.{stations_at};
ghost use Rattle.history.specs.Awaited.{NoStation, answer_at};
ghost use Rattle.http_api.specs.Tables.{row_of};
ghost use Rattle.http_api.specs.declared.asks.Ask.TheVariants as asks;
ghost use Rattle.office_inputs.specs.Stations.{station_of};

use crate::answers::Texts;
use devices::Disk;
use fixed_units::{Day, NoMemory, Site};
use http_api::{DayAnswer, DayReply, Reply};
use office::{Answer, Office};
use register::Sheet;
use std::alloc::Global;

/// Tells what is known of a day.
pub(crate) fn tell_day<D: Disk>(
    office: &Office<D>,
    site: Site,
    day: Day,
    texts: &mut Texts,
) -> Result<(), NoMemory>
    ensures { OnOk result (texts.new.reply ≡ reply_to office.now.register.history (asks.DayOf site day)) }
{
    match day_known(office, site, day) {
        Some(known) => texts.make(&Reply::Day(known)),
        None => texts.make(&Reply::NoStation),
    }
}

/// Tells what is known of each day from one to another, both included.
pub(crate) fn tell_daily<D: Disk>(
    office: &Office<D>,
    site: Site,
    from: Day,
    to: Day,
    texts: &mut Texts,
) -> Result<(), NoMemory>
    ensures { OnOk result (texts.new.reply ≡ reply_to office.now.register.history (asks.Daily site from to)) }
{
    if keeps(office, site) {
        let days = days_known(texts.alloc, office, site, from, to)?;
        return texts.make(&Reply::Daily(days.as_slice()));
    }
    texts.make(&Reply::NoStation)
}

/// Whether a site is kept.
fn keeps<D: Disk>(office: &Office<D>, site: Site) -> bool
    ensures { result ≡ is_some (station_of (stations_at office.now.register.history.events) site) }
{
    office.station(site).is_some()
}

/// What is known of each day from one to another, both included, of a site that is kept.
fn days_known<'a, D: Disk>(
    alloc: Global,
    office: &'a Office<D>,
    site: Site,
    from: Day,
    to: Day,
) -> Result<Vec<DayReply<'a>>, NoMemory>
    requires kept { is_some (station_of (stations_at office.now.register.history.events) site) ≡ true }
    ensures { IfOk result (λ days. map row_of days.items ≡ flat_map (row_at office.now.register.history.events site) (days_within from to)) }
{
    let mut days = Vec::new(alloc);
    days.reserve_exact(usize::try_from(to.get() + 1 - from.get()).unwrap_or(0))?;
    for number in from.get()..to.get() + 1 {
        if days.push(known_on(office, site, number)).is_err() {
            return Err(NoMemory);
        }
    }
    Ok(days)
}

/// What is known of the day of a number, of a site that is kept.
fn known_on<'a, D: Disk>(office: &'a Office<D>, site: Site, number: i32) -> DayReply<'a>
    requires kept { is_some (station_of (stations_at office.now.register.history.events) site) ≡ true }
    requires day { IsDay number }
    ensures { row_at office.now.register.history.events site number ≡ row_of result ∷ [] }
{
    let Some(day) = Day::new(number) else {
        unreachable!();
    };
    let Some(known) = day_known(office, site, day) else {
        unreachable!();
    };
    known
}

/// What is known of a day, or `None` exactly where its site is not kept.
fn day_known<'a, D: Disk>(office: &'a Office<D>, site: Site, day: Day) -> Option<DayReply<'a>>
    ensures { MatchOption result (answer_at office.now.register.history.events site day ≡ NoStation) (IsKnown office.now.register.history.events site day) }
{
    let answer = match office.answer(site, day) {
        Answer::NoStation => return None,
        Answer::Pending(edit) => DayAnswer::Pending(edit),
        Answer::Computed(value) => DayAnswer::Computed(value),
    };
    Some(DayReply {
        day,
        answer,
        status: office.status(site, day),
    })
}

/// Tells the primary computation sheet of a day.
pub(crate) fn tell_sheet<D: Disk>(
    office: &Office<D>,
    site: Site,
    day: Day,
    texts: &mut Texts,
) -> Result<(), NoMemory>
    ensures { OnOk result (texts.new.reply ≡ reply_to office.now.register.history (asks.SheetOf site day)) }
{
    match office.sheet(site, day)? {
        Sheet::NoStation => texts.make(&Reply::NoStation),
        Sheet::Pending(edit) => texts.make(&Reply::SheetPending(edit)),
        Sheet::Kept(text) => texts.make(&Reply::Sheet(text)),
        Sheet::Computed(text) => texts.make(&Reply::Sheet(text.as_slice())),
    }
}
