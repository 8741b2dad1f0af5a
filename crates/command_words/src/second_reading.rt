//! The words once more, as `clap` reads them. It decides nothing: words are read by it only once they have passed.

use crate::options::grade_named;
use crate::orders::{DailyOrder, ImportOrder, NotesOrder, WaterOrder};
use crate::reading::Command;
use civil_days::{read_day, read_instant};
use clap::{Arg, ArgAction, ArgMatches, Error};
use fixed_units::{Site, read_decimal};
use site_texts::read_site;
use std::alloc::{AllocError, Global};

/// Whether `clap` reads this command of the words.
///
/// # Errors
///
/// Where `clap` refuses the words, or has no memory.
pub(crate) fn is_read_alike(
    alloc: Global,
    words: &[String],
    command: &Command<'_>,
) -> Result<bool, Error> {
    let matches = program(alloc)?.try_get_matches_from(words)?;
    Ok(match command_read(&matches) {
        Some(read) => read == *command,
        None => false,
    })
}

/// The command that `clap` has read.
fn command_read<'a>(matches: &ArgMatches<'a>) -> Option<Command<'a>> {
    let (word, options) = matches.subcommand()?;
    match word {
        "init" => Some(Command::Init(options.get_str("journal")?)),
        "batch" => Some(Command::Batch {
            journal: options.get_str("journal")?,
            workers: options.get_one::<u32>("workers").unwrap_or(0),
        }),
        "serve" => serve_read(options),
        "stations" => Some(Command::Stations(options.get_str("journal")?)),
        "trial" => Some(Command::Trial(options.get_one::<u32>("number")?)),
        "import" => import_read(options),
        "daily" => daily_read(options),
        "water" => water_read(options),
        "notes" => notes_read(options),
        "migrate" => Some(Command::Migrate {
            from: options.get_str("from")?,
            journal: options.get_str("journal")?,
        }),
        _ => None,
    }
}

fn serve_read<'a>(options: &ArgMatches<'a>) -> Option<Command<'a>> {
    Some(Command::Serve {
        journal: options.get_str("journal")?,
        port: u16::try_from(options.get_one::<u32>("port")?).ok()?,
        workers: options.get_one::<u32>("workers")?,
        connections: options.get_one::<u32>("connections")?,
    })
}

fn import_read<'a>(options: &ArgMatches<'a>) -> Option<Command<'a>> {
    Some(Command::Import(ImportOrder {
        journal: options.get_str("journal")?,
        site: site_read(options)?,
        column: options.get_str("column")?,
        by: options.get_str("by")?,
        reference: options.get_str("ref")?,
    }))
}

fn daily_read<'a>(options: &ArgMatches<'a>) -> Option<Command<'a>> {
    Some(Command::Daily(DailyOrder {
        journal: options.get_str("journal")?,
        site: site_read(options)?,
        from: options.get_str("from")?,
        first: read_day(options.get_str("from")?.as_bytes())?,
        last: read_day(options.get_str("to")?.as_bytes())?,
        turns: options.get_one::<u32>("turns")?,
    }))
}

fn water_read<'a>(options: &ArgMatches<'a>) -> Option<Command<'a>> {
    Some(Command::Water(WaterOrder {
        journal: options.get_str("journal")?,
        site: site_read(options)?,
        year: u16::try_from(options.get_one::<u32>("year")?).ok()?,
        turns: options.get_one::<u32>("turns")?,
    }))
}

fn notes_read<'a>(options: &ArgMatches<'a>) -> Option<Command<'a>> {
    Some(Command::Notes(NotesOrder {
        journal: options.get_str("journal")?,
        site: site_read(options)?,
        number: options.get_one::<u32>("number")?,
        at: read_instant(options.get_str("at")?.as_bytes())?,
        gage: read_decimal(options.get_str("gage")?.as_bytes()).ok()?,
        grade: grade_named(options.get_str("grade")?)?,
        by: options.get_str("by")?,
        reference: options.get_str("ref")?,
    }))
}

fn site_read(options: &ArgMatches<'_>) -> Option<Site> {
    read_site(options.get_str("site")?.as_bytes())
}

/// The program's commands with their options, as `clap` is told of them.
fn program<'a>(alloc: Global) -> Result<clap::Command<'a>, AllocError> {
    clap::Command::new(alloc, "streamoffice")
        .no_binary_name(true)
        .subcommand_required(true)
        .disable_help_flag(true)
        .disable_help_subcommand(true)
        .subcommand(needing(alloc, "init", &["journal"])?)?
        .subcommand(needing(alloc, "batch", &["journal"])?.arg(option(alloc, "workers"))?)?
        .subcommand(needing(
            alloc,
            "serve",
            &["journal", "port", "workers", "connections"],
        )?)?
        .subcommand(needing(alloc, "stations", &["journal"])?)?
        .subcommand(needing(alloc, "trial", &["number"])?)?
        .subcommand(needing(alloc, "import", &["journal", "site", "column", "by", "ref"])?)?
        .subcommand(needing(alloc, "daily", &["journal", "site", "from", "to", "turns"])?)?
        .subcommand(needing(alloc, "water", &["journal", "site", "year", "turns"])?)?
        .subcommand(needing(
            alloc,
            "notes",
            &[
                "journal", "site", "number", "at", "gage", "grade", "by", "ref",
            ],
        )?)?
        .subcommand(needing(alloc, "migrate", &["from", "journal"])?)
}

/// A command that needs these options.
fn needing<'a>(
    alloc: Global,
    name: &'a str,
    options: &[&'a str],
) -> Result<clap::Command<'a>, AllocError> {
    let mut command = clap::Command::new(alloc, name).disable_help_flag(true);
    for name in options {
        command = command.arg(option(alloc, name).required(true))?;
    }
    Ok(command)
}

/// An option.
fn option<'a>(alloc: Global, name: &'a str) -> Arg<'a> {
    Arg::new(alloc, name).long(name).action(ArgAction::Set)
}
