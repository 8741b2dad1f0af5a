//! Calls of `command_words`.

use crate::escapes::{push_counted, push_shown};
use crate::memory::bytes_of;
use crate::orders::{push_daily, push_import, push_notes, push_water};
use command_words::{Command, WordsFault, read_words};
use fixed_units::{NoMemory, Text};
use std::alloc::Global;

/// Writes what comes of a call.
pub fn answer(alloc: Global, word: &str, rest: &str, came: &mut Text) -> Result<(), NoMemory> {
    match word {
        "read" => read(alloc, rest, came),
        "lists" => lists(alloc, rest, came),
        _ => came.push_slice(b"no such call"),
    }
}

/// `read |WORD|WORD..`: the command that the words ask. Each word stands behind a bar.
fn read(alloc: Global, rest: &str, came: &mut Text) -> Result<(), NoMemory> {
    let plain = bytes_of(alloc, rest)?;
    read_plain(alloc, str::from_utf8(plain.as_slice()).unwrap_or(""), came)
}

fn read_plain(alloc: Global, words: &str, came: &mut Text) -> Result<(), NoMemory> {
    let own = words_of(alloc, words)?;
    let asked = read_words(alloc, &own);
    push_asked(&asked, came)
}

/// The words, as the program is given them.
fn words_of(alloc: Global, words: &str) -> Result<Vec<String>, NoMemory> {
    let mut own = Vec::new(alloc);
    for word in words.split('|').skip(1) {
        push_word(alloc, word, &mut own)?;
    }
    Ok(own)
}

fn push_word(alloc: Global, word: &str, own: &mut Vec<String>) -> Result<(), NoMemory> {
    own.push(String::from_str(alloc, word)?)?;
    Ok(())
}

fn push_asked(asked: &Result<Command<'_>, WordsFault>, came: &mut Text) -> Result<(), NoMemory> {
    match asked {
        Ok(command) => push_command(command, came),
        Err(WordsFault::Usage) => came.push_slice(b"nothing"),
        Err(WordsFault::NoMemory) => Err(NoMemory),
    }
}

fn push_command(command: &Command<'_>, came: &mut Text) -> Result<(), NoMemory> {
    match *command {
        Command::Init(name) => push_named(b"init ", name, came),
        Command::Batch { journal, workers } => push_batch(journal, workers, came),
        Command::Serve {
            journal,
            port,
            workers,
            connections,
        } => push_serve(journal, [u32::from(port), workers, connections], came),
        Command::Stations(name) => push_named(b"stations ", name, came),
        Command::Trial(number) => push_counted(b"trial ", u64::from(number), came),
        Command::Import(ref order) => push_import(order, came),
        Command::Daily(ref order) => push_daily(order, came),
        Command::Water(ref order) => push_water(order, came),
        Command::Notes(ref order) => push_notes(order, came),
        Command::Migrate { from, journal } => push_migrate(from, journal, came),
    }
}

fn push_batch(journal: &str, workers: u32, came: &mut Text) -> Result<(), NoMemory> {
    push_named(b"batch ", journal, came)?;
    push_counted(b" workers ", u64::from(workers), came)
}

fn push_migrate(from: &str, journal: &str, came: &mut Text) -> Result<(), NoMemory> {
    push_named(b"migrate ", from, came)?;
    push_named(b" to ", journal, came)
}

fn push_serve(journal: &str, numbers: [u32; 3], came: &mut Text) -> Result<(), NoMemory> {
    let [port, workers, connections] = numbers;
    push_named(b"serve ", journal, came)?;
    push_counted(b" port ", u64::from(port), came)?;
    push_counted(b" workers ", u64::from(workers), came)?;
    push_counted(b" connections ", u64::from(connections), came)
}

pub fn push_named(command: &[u8], name: &str, came: &mut Text) -> Result<(), NoMemory> {
    came.push_slice(command)?;
    push_shown(name.as_bytes(), came)
}

/// How many words there are in `lists`, and one more.
const PLACES: usize = 21;

/// `lists |WORD|WORD..`: how many of the lists of one to three of twenty words ask something.
fn lists(alloc: Global, words: &str, came: &mut Text) -> Result<(), NoMemory> {
    let mut asking = 0_u64;
    for list in 0..PLACES * PLACES * PLACES {
        if asks(alloc, words, list)? {
            asking = asking.saturating_add(1);
        }
    }
    push_counted(b"asking ", asking, came)
}

/// Whether the words at three places ask something; at place 0 is none, and before none there is none.
fn asks(alloc: Global, words: &str, list: usize) -> Result<bool, NoMemory> {
    let places = [
        list / (PLACES * PLACES),
        list / PLACES % PLACES,
        list % PLACES,
    ];
    if places[0] == 0 || (places[1] == 0 && places[2] != 0) {
        return Ok(false);
    }
    let own = words_at(alloc, words, &places)?;
    let asked = read_words(alloc, &own);
    is_asked(&asked)
}

fn words_at(alloc: Global, words: &str, places: &[usize]) -> Result<Vec<String>, NoMemory> {
    let mut own = Vec::new(alloc);
    for place in places {
        if *place > 0 {
            push_word(alloc, word_at(words, *place), &mut own)?;
        }
    }
    Ok(own)
}

fn word_at(words: &str, place: usize) -> &str {
    words.split('|').nth(place).unwrap_or("")
}

fn is_asked(asked: &Result<Command<'_>, WordsFault>) -> Result<bool, NoMemory> {
    match asked {
        Ok(_) => Ok(true),
        Err(WordsFault::Usage) => Ok(false),
        Err(WordsFault::NoMemory) => Err(NoMemory),
    }
}
