//! The routes: which targets there are, and what a target names.

ghost use Rattle.std.specs.Prelude.{◌≡◌, true, false, OnOk, IfOk, IfSome, MatchOption};
ghost use Rattle.std.specs.List.{list_all};
ghost use Rattle.std.specs.Char.{is_ascii};
ghost use Rattle.matchit.specs.Params.{walk, AllText};
ghost use Rattle.http_api.specs.Routes.{spelling, verb_of, with_route, route_rows, target_by, target_of, NamesRating, RoutesAreApart, RowsAreThoseThatFit};

use crate::parameters::{
    by_in, count_in, day_in, edit_number_in, from_in, is_table_span, measurement_in, rating_in,
    reference_in, site_in, to_in,
};
use edits::{By, Ref};
use fixed_units::{Day, NoMemory, Site};
use matchit::{InsertError, Params};
use std::alloc::Global;
use std::marker::Model;
use wire::Verb;

/// A kind of targets that are spelled alike.
#[derive(Clone, Copy, PartialEq, Eq)]
pub(crate) enum Route {
    /// The edits.
    Edits,
    /// A rating that is added.
    Rating,
    /// So many turns.
    Turns,
    /// The settlement.
    Settle,
    /// The counts.
    Status,
    /// A station.
    Station,
    /// A day of a station.
    DayOf,
    /// The sheet of a day of a station.
    SheetOf,
    /// The daily table of a station.
    Daily,
    /// A field measurement of a station.
    Measurement,
    /// An accepted edit.
    EditOf,
}

/// What a target names.
#[derive(Drop)]
pub(crate) enum Target {
    /// The edits.
    Edits,
    /// The rating of a station of this number, 1 to 999,999, that a person adds under a reference.
    Rating(Site, u32, By, Ref),
    /// So many turns, 1 to 1,000.
    Turns(u32),
    /// The settlement.
    Settle,
    /// The counts.
    Status,
    /// A station.
    Station(Site),
    /// A day of a station.
    DayOf(Site, Day),
    /// The sheet of a day of a station.
    SheetOf(Site, Day),
    /// The daily table of a station, from one day to another, both included: 1 to 366 days.
    Daily(Site, Day, Day),
    /// The field measurement of a station of this number, from 1.
    Measurement(Site, u32),
    /// The accepted edit of this number.
    EditOf(u64),
}

/// All routes.
const ROUTES: [Route; 11] = [
    Route::Edits,
    Route::Rating,
    Route::Turns,
    Route::Settle,
    Route::Status,
    Route::Station,
    Route::DayOf,
    Route::SheetOf,
    Route::Daily,
    Route::Measurement,
    Route::EditOf,
];

impl Route {
    /// How its targets are spelled, with each parameter in braces.
    fn spelling(self) -> &'static str
        ensures { result.now ≡ spelling self }
    {
        match self {
            Route::Edits => "/edits",
            Route::Rating => "/ratings/{site}/{rating}/{by}/{ref}",
            Route::Turns => "/turns/{count}",
            Route::Settle => "/settle",
            Route::Status => "/status",
            Route::Station => "/stations/{site}",
            Route::DayOf => "/stations/{site}/days/{day}",
            Route::SheetOf => "/stations/{site}/days/{day}/sheet",
            Route::Daily => "/stations/{site}/daily/{from}/{to}",
            Route::Measurement => "/stations/{site}/measurements/{number}",
            Route::EditOf => "/edits/{number}",
        }
    }
}

impl Target {
    /// The verb of its requests.
    pub(crate) fn verb(&self) -> Verb
        ensures { result ≡ verb_of self.now }
    {
        match self {
            Target::Edits | Target::Rating(..) | Target::Turns(_) | Target::Settle => Verb::Post,
            Target::Status
            | Target::Station(_)
            | Target::DayOf(_, _)
            | Target::SheetOf(_, _)
            | Target::Daily(_, _, _)
            | Target::Measurement(_, _)
            | Target::EditOf(_) => Verb::Get,
        }
    }
}

/// The routes of all requests.
#[derive(Drop)]
pub struct Router {
    rows: matchit::Router<Route>,
}

impl Model for Router {
    ghost use Rattle.std.specs.Prelude.{◌≡◌};
    ghost use Rattle.http_api.specs.Routes.{route_rows};

    ghost Value = { Unit {0} };

    ghost view = { λ r. tt };

    ghost invariant = { λ r. r.rows ≡ route_rows };
}

impl Router {
    /// The router of all routes.
    pub fn new(alloc: Global) -> Result<Router, NoMemory> {
        match rows(alloc) {
            Ok(rows) => Ok(Router { rows }),
            Err(_) => Err(NoMemory),
        }
    }

    /// What a target names.
    pub(crate) fn target(&self, target: &[u8]) -> Option<Target>
        ensures named { result ≡ target_of target.now }
        ensures rating { IfSome result NamesRating }
    {
        // most requests are edits, and these need no search
        if target == Route::Edits.spelling().as_bytes() {
            return Some(Target::Edits);
        }
        let text = ascii(target)?;
        match self.rows.at(text) {
            Ok(found) => target_by(*found.value, &found.params),
            Err(_) => None,
        }
    }
}

/// The rows of all routes.
fn rows(alloc: Global) -> Result<matchit::Router<Route>, InsertError>
    ensures { IfOk result (λ rows. rows ≡ route_rows) }
{
    let mut rows = matchit::Router::new(alloc);
    for route in &ROUTES {
        add(&mut rows, *route)?;
    }
    Ok(rows)
}

/// Adds the row of a route.
fn add(rows: &mut matchit::Router<Route>, route: Route) -> Result<(), InsertError>
    ensures { OnOk result (rows.new ≡ with_route rows.old route) }
{
    rows.insert(route.spelling(), route)
}

/// The bytes as a text, where they are ASCII.
fn ascii(target: &[u8]) -> Option<&str>
    ensures { MatchOption result (list_all is_ascii target.now ≡ false) (λ text. (list_all is_ascii target.now ≡ true) × (text.now ≡ target.now)) }
{
    if !are_ascii(target) {
        return None;
    }
    match str::from_utf8(target) {
        Ok(text) => Some(text),
        Err(_) => None,
    }
}

fn are_ascii(target: &[u8]) -> bool
    ensures { result ≡ list_all is_ascii target.now }
{
    target.iter().all(u8::is_ascii)
}

/// What a target of a route names by its parameters.
fn target_by(route: Route, params: &Params<'_, '_>) -> Option<Target>
    requires { AllText (walk params.now.pattern.now params.now.text.now params.now.path.now params.now.names.now 0 0) }
    ensures named { result ≡ target_by route (walk params.now.pattern.now params.now.text.now params.now.path.now params.now.names.now 0 0) }
    ensures rating { IfSome result NamesRating }
{
    match route {
        Route::Edits => Some(Target::Edits),
        Route::Rating => rating_target(params),
        Route::Turns => Some(Target::Turns(count_in(params)?)),
        Route::Settle => Some(Target::Settle),
        Route::Status => Some(Target::Status),
        Route::Station => Some(Target::Station(site_in(params)?)),
        Route::DayOf => {
            let site = site_in(params)?;
            let day = day_in(params)?;
            Some(Target::DayOf(site, day))
        }
        Route::SheetOf => {
            let site = site_in(params)?;
            let day = day_in(params)?;
            Some(Target::SheetOf(site, day))
        }
        Route::Daily => daily_target(params),
        Route::Measurement => {
            let site = site_in(params)?;
            let number = measurement_in(params)?;
            Some(Target::Measurement(site, number))
        }
        Route::EditOf => Some(Target::EditOf(edit_number_in(params)?)),
    }
}

/// The rating that the parameters name.
fn rating_target(params: &Params<'_, '_>) -> Option<Target>
    requires { AllText (walk params.now.pattern.now params.now.text.now params.now.path.now params.now.names.now 0 0) }
    ensures named { result ≡ target_by Route.Rating (walk params.now.pattern.now params.now.text.now params.now.path.now params.now.names.now 0 0) }
    ensures rating { IfSome result NamesRating }
{
    let site = site_in(params)?;
    let rating = rating_in(params)?;
    let by = by_in(params)?;
    let reference = reference_in(params)?;
    Some(Target::Rating(site, rating, by, reference))
}

/// The daily table that the parameters name.
fn daily_target(params: &Params<'_, '_>) -> Option<Target>
    requires { AllText (walk params.now.pattern.now params.now.text.now params.now.path.now params.now.names.now 0 0) }
    ensures named { result ≡ target_by Route.Daily (walk params.now.pattern.now params.now.text.now params.now.path.now params.now.names.now 0 0) }
    ensures rating { IfSome result NamesRating }
{
    let site = site_in(params)?;
    let from = from_in(params)?;
    let to = to_in(params)?;
    if is_table_span(from, to) {
        Some(Target::Daily(site, from, to))
    } else {
        None
    }
}

/// A target fits one route at most, and has the row of the route that it fits, and no other: a law, which does nothing.
pub fn targets_have_one_row()
    ensures one { RoutesAreApart }
    ensures row { RowsAreThoseThatFit }
{}
