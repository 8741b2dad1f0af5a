//! The words that the program is started with: the form, and which edits are asked for.

use crate::choices::{Choice, Form};
use edits::{By, Kind};
use site_texts::read_site;
use std::env;
use std::io::ErrorKind;

/// Why nothing is asked.
pub enum NoOrder {
    /// The words are of no such form.
    Words,
    /// There was no memory for the words.
    NoMemory,
}

/// What is asked.
#[derive(Drop)]
pub struct Order {
    /// The form in which edits are written.
    pub form: Form,
    /// Which edits.
    pub choice: Choice,
}

/// What the words ask for.
pub fn order_in(rt: &HostRuntime) -> Result<Order, NoOrder> {
    let mut words = match env::args(&(rt, rt.alloc())) {
        Ok(words) => words,
        Err(error) if error.kind() == ErrorKind::OutOfMemory => return Err(NoOrder::NoMemory),
        Err(_) => return Err(NoOrder::Words),
    };
    let _name = words.next();
    let Some(word) = words.next() else {
        return Err(NoOrder::Words);
    };
    let Some(form) = form_of(word.as_str()) else {
        return Err(NoOrder::Words);
    };
    let mut choice = Choice {
        site: None,
        kind: None,
        by: None,
        first: 1,
        last: u64::MAX,
    };
    while let Some(name) = words.next() {
        let Some(value) = words.next() else {
            return Err(NoOrder::Words);
        };
        if !narrow(&mut choice, name.as_str(), value.as_str()) {
            return Err(NoOrder::Words);
        }
    }
    Ok(Order { form, choice })
}

/// The form of a word.
fn form_of(word: &str) -> Option<Form> {
    match word {
        "--edits" => Some(Form::Edits),
        "--requests" => Some(Form::Requests),
        _ => None,
    }
}

/// Narrows a choice by an option and its value; `false` where there is no such option or value.
fn narrow(choice: &mut Choice, name: &str, value: &str) -> bool {
    match name {
        "--site" => match read_site(value.as_bytes()) {
            Some(site) => {
                choice.site = Some(site);
                true
            }
            None => false,
        },
        "--kind" => match Kind::named(value.as_bytes()) {
            Some(kind) => {
                choice.kind = Some(kind);
                true
            }
            None => false,
        },
        "--by" => match By::new(value.as_bytes()) {
            Some(by) => {
                choice.by = Some(by);
                true
            }
            None => false,
        },
        "--first" => match number_of(value) {
            Some(number) => {
                choice.first = number;
                true
            }
            None => false,
        },
        "--last" => match number_of(value) {
            Some(number) => {
                choice.last = number;
                true
            }
            None => false,
        },
        _ => false,
    }
}

/// The number that 1 to 9 digits state.
fn number_of(value: &str) -> Option<u64> {
    if value.len() > 9 || value.starts_with('+') {
        return None;
    }
    value.parse().ok()
}
