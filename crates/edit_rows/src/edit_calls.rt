//! Calls of `edits`: what makes an edit, when two are the same, and what its parts may be.

use crate::edit_notation::{edit_of, made};
use crate::edit_parts;
use crate::edit_texts::push_edit;
use edits::{Edit, EditFault};
use fixed_units::{NoMemory, Text};
use std::alloc::Global;

/// Writes what comes of a call.
pub fn answer(alloc: Global, word: &str, rest: &str, came: &mut Text) -> Result<(), NoMemory> {
    match word {
        "edit" => edit(alloc, rest, came),
        "same" => same(alloc, rest, came),
        _ => edit_parts::answer(alloc, word, rest, came),
    }
}

/// `edit EDIT`: the edit written again, or that it is not lawful.
fn edit(alloc: Global, text: &str, came: &mut Text) -> Result<(), NoMemory> {
    match made(alloc, text) {
        Some(made) => push_made(made, came),
        None => came.push_slice(b"not well formed"),
    }
}

fn push_made(made: Result<Edit, EditFault>, came: &mut Text) -> Result<(), NoMemory> {
    match made {
        Ok(edit) => push_edit(&edit, came),
        Err(fault) => push_fault(fault, came),
    }
}

fn push_fault(fault: EditFault, came: &mut Text) -> Result<(), NoMemory> {
    match fault {
        EditFault::NotLawful => came.push_slice(b"not lawful"),
        EditFault::NoMemory => Err(NoMemory),
    }
}

/// `same EDIT | EDIT | ..`: whether each is the same as itself alone, and else two places, from 0 on, of which that is not told.
fn same(alloc: Global, text: &str, came: &mut Text) -> Result<(), NoMemory> {
    match first_mistaken(alloc, text) {
        Some((row, column)) => push_places(row, column, came),
        None => came.push_slice(b"each with itself alone"),
    }
}

fn push_places(row: usize, column: usize, came: &mut Text) -> Result<(), NoMemory> {
    came.push_number(row as u64)?;
    came.push_slice(b" and ")?;
    came.push_number(column as u64)
}

fn first_mistaken(alloc: Global, text: &str) -> Option<(usize, usize)> {
    for (row, one) in text.split(" | ").enumerate() {
        if let Some(column) = first_mistaken_beside(alloc, text, row, one) {
            return Some((row, column));
        }
    }
    None
}

fn first_mistaken_beside(alloc: Global, text: &str, row: usize, one: &str) -> Option<usize> {
    for (column, other) in text.split(" | ").enumerate() {
        if are_same(alloc, one, other) != Some(row == column) {
            return Some(column);
        }
    }
    None
}

fn are_same(alloc: Global, one: &str, other: &str) -> Option<bool> {
    let one = edit_of(alloc, one)?;
    is_same(alloc, &one, other)
}

fn is_same(alloc: Global, one: &Edit, other: &str) -> Option<bool> {
    let other = edit_of(alloc, other)?;
    Some(one.is_same(&other))
}
