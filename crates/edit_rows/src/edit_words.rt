//! The words of rows for flags, grades, decisions and truth.

use edits::{Decision, Grade};
use fixed_units::{Flag, NoMemory, Text};

/// The flag of a word.
pub fn flag_of(word: &str) -> Option<Flag> {
    match word {
        "ok" => Some(Flag::Usable),
        "erroneous" => Some(Flag::Erroneous),
        "affected" => Some(Flag::Affected),
        _ => None,
    }
}

/// The word of a flag.
pub fn flag_word(flag: Flag) -> &'static [u8] {
    match flag {
        Flag::Usable => b"ok",
        Flag::Erroneous => b"erroneous",
        Flag::Affected => b"affected",
    }
}

/// The grade of a word.
pub fn grade_of(word: &str) -> Option<Grade> {
    match word {
        "excellent" => Some(Grade::Excellent),
        "good" => Some(Grade::Good),
        "fair" => Some(Grade::Fair),
        "poor" => Some(Grade::Poor),
        _ => None,
    }
}

/// The word of a grade.
pub fn grade_word(grade: Grade) -> &'static [u8] {
    match grade {
        Grade::Excellent => b"excellent",
        Grade::Good => b"good",
        Grade::Fair => b"fair",
        Grade::Poor => b"poor",
    }
}

/// The decision of a word.
pub fn decision_of(word: &str) -> Option<Decision> {
    match word {
        "approve" => Some(Decision::Approve),
        "rescind" => Some(Decision::Rescind),
        _ => None,
    }
}

/// The word of a decision.
pub fn decision_word(decision: Decision) -> &'static [u8] {
    match decision {
        Decision::Approve => b"approve",
        Decision::Rescind => b"rescind",
    }
}

/// What a word says of truth.
pub fn truth_of(word: &str) -> Option<bool> {
    match word {
        "yes" => Some(true),
        "no" => Some(false),
        _ => None,
    }
}

/// The word of truth.
pub fn truth_word(told: bool) -> &'static [u8] {
    if told { b"yes" } else { b"no" }
}

/// Writes whether each of two is so.
pub fn push_two(first: bool, second: bool, came: &mut Text) -> Result<(), NoMemory> {
    came.push_slice(truth_word(first))?;
    came.push(b' ')?;
    came.push_slice(truth_word(second))
}
