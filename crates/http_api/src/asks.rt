//! What a request asks of the office.

ghost use Rattle.std.specs.Prelude.{◌≡◌, IfOk, IfErr, Ok, Some};
ghost use Rattle.http_api.specs.Asks.{ask_of, asked_at, asked_by, question, is_verb, IsDenial, IsDenialAt, IsDenialBy, AreTold, RatingsAreOneEdit};
ghost use Rattle.http_api.specs.Routes.{NamesRating};
ghost use Rattle.http_api.specs.declared.routes.Target.TheVariants as targets;

use crate::rdb_bodies::rating_edit;
use crate::routes::{Router, Target};
use edit_bodies::{BodyFault, Member, read_edit};
use edits::Edit;
use fixed_units::{Day, Site};
use json::Scratch;
use ratings::RdbFault;
use std::alloc::Global;
use thiserror::Error;
use wire::Verb;

/// What is asked of the office.
#[derive(Drop)]
pub enum Ask {
    /// To accept an edit.
    Edit(Edit),
    /// What is in force at a station.
    Station(Site),
    /// What is known of a day of a station.
    DayOf(Site, Day),
    /// The primary computation sheet of a day of a station.
    SheetOf(Site, Day),
    /// The daily table of a station, from one day to another, both included: 1 to 366 days.
    Daily(Site, Day, Day),
    /// What the field measurement of a number at a station says of the rating in force.
    Measurement(Site, u32),
    /// The accepted edit of a number.
    EditOf(u64),
    /// To publish so many days, 1 to 1,000, as far as days are pending.
    Turns(u32),
    /// To publish every day that is pending.
    Settle,
    /// How many edits were accepted, and how many days are pending.
    Counts,
}

/// Why a request asks nothing, in the order in which the causes are looked for.
#[derive(Clone, Copy, Debug, PartialEq, Eq, Error)]
pub enum Denied {
    /// No route has this target, or a parameter of it is not of its grammar.
    #[error("no route has this target")]
    NoRoute,
    /// The requests for this target have another method, which is this one.
    #[error("the requests for this target have another method")]
    NotAllowed(Verb),
    /// The body is no JSON.
    #[error("the body is no JSON")]
    Json,
    /// This member of the body is the first that is missing or ill formed, or there is a further one.
    #[error("the member {0} is missing, ill formed or too many")]
    Body(Member),
    /// The body is no rating in RDB.
    #[error("the body is no rating in RDB: {0}")]
    Rdb(RdbFault),
    /// There was no memory to read the body.
    #[error("there is no memory to read the body")]
    NoMemory,
}

impl Router {
    /// What a request asks: by its target as it stands, without decoding, then by its method, then by its body. The body of
    /// what is no edit is ignored. The scratch is the one that the bodies of edits are read with ([`read_edit`]).
    ///
    /// # Errors
    ///
    /// Each cause exactly where it is the first; [`Denied::NoMemory`] only in place of what the body of an edit states, and of the
    /// rating that a body in RDB states.
    #[tactic(auto, unfolding(crate::specs::Asks::ask_of))]
    pub fn read(
        &self,
        alloc: Global,
        verb: Verb,
        target: &[u8],
        body: &[u8],
        scratch: &mut Scratch,
    ) -> Result<Ask, Denied>
        ensures ask { IfOk result (λ ask. ask_of verb target.now body.now ≡ Ok (question ask)) }
        ensures denied { IfErr result (IsDenial verb target.now body.now) }
    {
        match self.target(target) {
            Some(named) => ask_at(alloc, verb, named, body, scratch),
            None => Err(Denied::NoRoute),
        }
    }
}

/// What a request asks, by what its target names.
fn ask_at(
    alloc: Global,
    verb: Verb,
    target: Target,
    body: &[u8],
    scratch: &mut Scratch,
) -> Result<Ask, Denied>
    requires { NamesRating target }
    ensures ask { IfOk result (λ ask. asked_at verb (Some target) body.now ≡ Ok (question ask)) }
    ensures denied { IfErr result (IsDenialAt verb target body.now) }
{
    let due = target.verb();
    if is_verb(due, verb) {
        ask_by(alloc, target, body, scratch)
    } else {
        Err(Denied::NotAllowed(due))
    }
}

/// Whether two methods are the same known one.
fn is_verb(due: Verb, verb: Verb) -> bool
    ensures { result ≡ is_verb due verb }
{
    matches!(
        (due, verb),
        (Verb::Get, Verb::Get) | (Verb::Post, Verb::Post)
    )
}

/// What a request with the right method asks, by what its target names.
fn ask_by(alloc: Global, target: Target, body: &[u8], scratch: &mut Scratch) -> Result<Ask, Denied>
    requires { NamesRating target }
    ensures ask { IfOk result (λ ask. asked_by target body.now ≡ Ok (question ask)) }
    ensures denied { IfErr result (IsDenialBy target body.now) }
{
    match target {
        Target::Edits => edit_in(alloc, body, scratch),
        Target::Rating(site, rating, by, reference) => {
            rating_edit(alloc, site, rating, by, reference, body)
        }
        Target::Turns(count) => Ok(Ask::Turns(count)),
        Target::Settle => Ok(Ask::Settle),
        Target::Status => Ok(Ask::Counts),
        Target::Station(site) => Ok(Ask::Station(site)),
        Target::DayOf(site, day) => Ok(Ask::DayOf(site, day)),
        Target::SheetOf(site, day) => Ok(Ask::SheetOf(site, day)),
        Target::Daily(site, from, to) => Ok(Ask::Daily(site, from, to)),
        Target::Measurement(site, number) => Ok(Ask::Measurement(site, number)),
        Target::EditOf(number) => Ok(Ask::EditOf(number)),
    }
}

/// The edit of a body.
fn edit_in(alloc: Global, body: &[u8], scratch: &mut Scratch) -> Result<Ask, Denied>
    ensures ask { IfOk result (λ ask. asked_by targets.Edits body.now ≡ Ok (question ask)) }
    ensures denied { IfErr result (IsDenialBy targets.Edits body.now) }
{
    match read_edit(alloc, body, scratch) {
        Ok(edit) => Ok(Ask::Edit(edit)),
        Err(BodyFault::Json) => Err(Denied::Json),
        Err(BodyFault::Body(member)) => Err(Denied::Body(member)),
        Err(BodyFault::NoMemory) => Err(Denied::NoMemory),
    }
}

/// Asks of one question are equal: a law, which does nothing.
pub fn questions_tell_asks()
    ensures { AreTold }
{}

/// A rating whose body is JSON without a comment and one whose body is RDB are one edit, where all their values are equal: a
/// law, which does nothing.
pub fn ratings_are_one_edit()
    ensures { RatingsAreOneEdit }
{}
