//! What the words of the command line ask.

ghost use Rattle.std.specs.Prelude.{◌≡◌, ◌↔◌, List, ℕ, codes, map, string_bytes, true, MatchOption, IfOk};
ghost use Rattle.command_words.specs.Words.{Asked, IsAsked, IsTableSpan};
ghost use Rattle.command_words.specs.Commands.{asked_by};
ghost use Rattle.command_words.specs.Reading.{IsReadOf, given_in};

use crate::numbers::NumericOption;
use crate::options::{Options, read_options};
use crate::orders::{DailyOrder, ImportOrder, NotesOrder, WaterOrder};
use crate::second_reading::is_read_alike;
use civil_days::read_day;
use fixed_units::Day;
use std::alloc::Global;
use thiserror::Error;

/// What the words ask.
#[derive(Clone, Copy, PartialEq, Eq)]
pub enum Command<'a> {
    /// To make a journal of this name.
    Init(&'a str),
    /// To serve the requests on the input over a journal.
    Batch {
        /// The journal's name.
        journal: &'a str,
        /// How many workers are started, at most 16.
        workers: u32,
    },
    /// To serve connections over a journal.
    Serve {
        /// The journal's name.
        journal: &'a str,
        /// The port that is listened on, at least 1.
        port: u16,
        /// How many workers are started, at most 16.
        workers: u32,
        /// How many connections are served, 1 to 10,000.
        connections: u32,
    },
    /// To add the stations of the document on the input to the journal of this name.
    Stations(&'a str),
    /// To run the trial of this number, at most 999,999,999.
    Trial(u32),
    /// To put unit values in a journal.
    Import(ImportOrder<'a>),
    /// To write the daily values of a site.
    Daily(DailyOrder<'a>),
    /// To write the table of a water year.
    Water(WaterOrder<'a>),
    /// To put a measurement in a journal, by its notes.
    Notes(NotesOrder<'a>),
    /// To copy a journal into one of the second format.
    Migrate {
        /// The name of the journal that is copied.
        from: &'a str,
        /// The name of the other one, which is not the same.
        journal: &'a str,
    },
}

/// Why no command is read.
#[derive(Clone, Copy, Debug, PartialEq, Eq, Error)]
pub enum WordsFault {
    /// The words ask nothing.
    #[error("the words are no command")]
    Usage,
    /// The words ask something, and there was no memory for `clap` to read it too.
    #[error("there is no memory to read the words")]
    NoMemory,
}

/// What the words behind the program's name ask: a command and its options, each once at most and in any order, as
/// `--name value` or `--name=value`. `--workers` may be left out of `batch`, and is 0 then.
///
/// # Errors
///
/// `Usage` exactly where the words ask nothing, and `NoMemory` only where they ask something.
pub fn read_words(alloc: Global, words: &[String]) -> Result<Command<'_>, WordsFault>
    ensures ok { IfOk result (λ command. IsAsked (map string_bytes words.now) (asked_by command)) }
    ensures usage { (result ≡ Err WordsFault.Usage)
        ↔ ((asked : Asked) → ¬ (IsAsked (map string_bytes words.now) asked)) }
    ensures no_memory { result ≡ Err WordsFault.NoMemory
        → (asked : Asked) × IsAsked (map string_bytes words.now) asked }
{
    match command_in(words) {
        None => Err(WordsFault::Usage),
        Some(command) => match is_read_alike(alloc, words, &command) {
            Ok(true) => Ok(command),
            Ok(false) | Err(_) => Err(WordsFault::NoMemory),
        },
    }
}

/// The command that the words ask, or `None` where they ask nothing.
fn command_in(words: &[String]) -> Option<Command<'_>>
    ensures { MatchOption result ((asked : Asked) → ¬ (IsAsked (map string_bytes words.now) asked))
        (λ command. IsAsked (map string_bytes words.now) (asked_by command)) }
{
    let (word, behind) = words.split_first()?;
    let options = read_options(behind)?;
    command_of(word.as_str(), &options)
}

/// The command of this word, where the options are its own.
fn command_of<'a>(word: &str, options: &Options<'a>) -> Option<Command<'a>>
    ensures { IsReadOf word.now (given_in options.now) result }
{
    match word {
        "init" => init(options),
        "batch" => batch(options),
        "serve" => serve(options),
        "stations" => stations(options),
        "trial" => trial(options),
        "import" => import(options),
        "daily" => daily(options),
        "water" => water(options),
        "notes" => notes(options),
        "migrate" => migrate(options),
        _ => None,
    }
}

fn init<'a>(options: &Options<'a>) -> Option<Command<'a>>
    ensures { IsReadOf (codes "init") (given_in options.now) result }
{
    let journal = options.journal()?;
    if options.count() != 1 {
        return None;
    }
    Some(Command::Init(journal))
}

fn batch<'a>(options: &Options<'a>) -> Option<Command<'a>>
    ensures { IsReadOf (codes "batch") (given_in options.now) result }
{
    let journal = options.journal()?;
    let Some(workers) = options.number(NumericOption::Workers) else {
        if options.count() != 1 {
            return None;
        }
        return Some(Command::Batch {
            journal,
            workers: 0,
        });
    };
    if options.count() != 2 {
        return None;
    }
    Some(Command::Batch { journal, workers })
}

fn serve<'a>(options: &Options<'a>) -> Option<Command<'a>>
    ensures { IsReadOf (codes "serve") (given_in options.now) result }
{
    let journal = options.journal()?;
    let port = options.number(NumericOption::Port)?;
    let workers = options.number(NumericOption::Workers)?;
    let connections = options.number(NumericOption::Connections)?;
    let Ok(port) = u16::try_from(port) else {
        return None;
    };
    if options.count() != 4 {
        return None;
    }
    Some(Command::Serve {
        journal,
        port,
        workers,
        connections,
    })
}

fn stations<'a>(options: &Options<'a>) -> Option<Command<'a>>
    ensures { IsReadOf (codes "stations") (given_in options.now) result }
{
    let journal = options.journal()?;
    if options.count() != 1 {
        return None;
    }
    Some(Command::Stations(journal))
}

fn trial<'a>(options: &Options<'a>) -> Option<Command<'a>>
    ensures { IsReadOf (codes "trial") (given_in options.now) result }
{
    let number = options.number(NumericOption::Number)?;
    if options.count() != 1 {
        return None;
    }
    Some(Command::Trial(number))
}

fn import<'a>(options: &Options<'a>) -> Option<Command<'a>>
    ensures { IsReadOf (codes "import") (given_in options.now) result }
{
    let journal = options.journal()?;
    let site = options.site()?;
    let column = options.column()?;
    let by = options.sender()?;
    let reference = options.reference()?;
    if options.count() != 5 {
        return None;
    }
    if reference.len() > 30 {
        return None;
    }
    Some(Command::Import(ImportOrder {
        journal,
        site,
        column,
        by,
        reference,
    }))
}

fn daily<'a>(options: &Options<'a>) -> Option<Command<'a>>
    ensures { IsReadOf (codes "daily") (given_in options.now) result }
{
    let journal = options.journal()?;
    let site = options.site()?;
    let from = options.from()?;
    let last = options.to()?;
    let turns = options.number(NumericOption::Turns)?;
    if options.count() != 5 {
        return None;
    }
    let Some(first) = read_day(from.as_bytes()) else {
        return None;
    };
    if !is_table_span(first, last) {
        return None;
    }
    Some(Command::Daily(DailyOrder {
        journal,
        site,
        from,
        first,
        last,
        turns,
    }))
}

/// Whether there are 1 to 366 days from the first to the last.
fn is_table_span(first: Day, last: Day) -> bool
    ensures { (result ≡ true) ↔ IsTableSpan first last }
{
    let first = first.get();
    (first..first + 366).contains(&last.get())
}

fn water<'a>(options: &Options<'a>) -> Option<Command<'a>>
    ensures { IsReadOf (codes "water") (given_in options.now) result }
{
    let journal = options.journal()?;
    let site = options.site()?;
    let year = options.number(NumericOption::Year)?;
    let turns = options.number(NumericOption::Turns)?;
    let Ok(year) = u16::try_from(year) else {
        return None;
    };
    if options.count() != 4 {
        return None;
    }
    Some(Command::Water(WaterOrder {
        journal,
        site,
        year,
        turns,
    }))
}

fn notes<'a>(options: &Options<'a>) -> Option<Command<'a>>
    ensures { IsReadOf (codes "notes") (given_in options.now) result }
{
    let journal = options.journal()?;
    let site = options.site()?;
    let number = options.number(NumericOption::Number)?;
    let at = options.at()?;
    let gage = options.gage()?;
    let grade = options.grade()?;
    let by = options.sender()?;
    let reference = options.reference()?;
    if options.count() != 8 {
        return None;
    }
    if number == 0 {
        return None;
    }
    Some(Command::Notes(NotesOrder {
        journal,
        site,
        number,
        at,
        gage,
        grade,
        by,
        reference,
    }))
}

fn migrate<'a>(options: &Options<'a>) -> Option<Command<'a>>
    ensures { IsReadOf (codes "migrate") (given_in options.now) result }
{
    let from = options.from()?;
    let journal = options.journal()?;
    if options.count() != 2 {
        return None;
    }
    if from == journal {
        return None;
    }
    Some(Command::Migrate { from, journal })
}
