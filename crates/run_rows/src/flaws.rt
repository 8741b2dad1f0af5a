//! Which lines of a file stand where they say something, in the form that `rows` tells.

use crate::rows::parted;
use crate::texts::named;

/// Where a line stands.
#[derive(Clone, Copy)]
enum Place {
    /// Before the first row.
    Head,
    /// In a row, before its first run.
    Row,
    /// In a run, or behind the runs of a row.
    Run,
    /// In a connection of a run, or behind the runs of a row.
    Connection,
}

/// The first line of a file that is none of a row, or that says nothing where it stands; an empty text where there is none.
pub fn flawed_line(file: &str) -> &str {
    let mut place = Place::Head;
    for (number, line) in file.lines().enumerate() {
        let (word, rest) = parted(line);
        if !is_well(file, place, word, rest) || number == 0 && word == "==" {
            return line;
        }
        place = behind(place, word);
    }
    ""
}

fn behind(place: Place, word: &str) -> Place {
    match word {
        "==" => Place::Row,
        "run" => Place::Run,
        "connection" => Place::Connection,
        _ => place,
    }
}

fn is_well(file: &str, place: Place, word: &str, rest: &str) -> bool {
    match place {
        _ if word == "#" || word == "==" => true,
        _ if word.is_empty() => rest.is_empty(),
        Place::Head => is_of_head(word, rest),
        Place::Row => is_of_row(file, word, rest),
        Place::Run => is_of_run(file, word, rest),
        Place::Connection => is_of_connection(file, word, rest),
    }
}

fn is_of_head(word: &str, rest: &str) -> bool {
    match word {
        "text" => true,
        "let" => are_digits(parted(rest).1),
        _ => false,
    }
}

fn is_of_row(file: &str, word: &str, rest: &str) -> bool {
    match word {
        "run" => true,
        "journal" | "copy" => are_bytes(file, rest),
        "fail" => are_calls(rest, "disk copy cabinet"),
        _ => false,
    }
}

fn is_of_run(file: &str, word: &str, rest: &str) -> bool {
    match word {
        "fail" => are_calls(rest, "input output faults doors"),
        "told" => are_named(file, rest),
        "handed" => rest == "back",
        "status" | "given" => is_number(rest),
        _ => is_of_streams(file, word, rest),
    }
}

fn is_of_connection(file: &str, word: &str, rest: &str) -> bool {
    match word {
        "fail" => are_calls(rest, "input output"),
        _ => is_of_streams(file, word, rest),
    }
}

/// Whether the line is one of the streams of a run or a connection, or stands behind the runs of a row.
fn is_of_streams(file: &str, word: &str, rest: &str) -> bool {
    match word {
        "run" => true,
        ">" => are_named(file, rest),
        "<" => is_status(parted(rest).0) && are_named(file, rest),
        "left" | "copied" => rest == "nothing" || are_bytes(file, rest),
        "unread" | "or" | "connection" => rest.is_empty(),
        _ => is_counted(word, rest) || is_raw(word) && are_named(file, rest),
    }
}

fn is_counted(word: &str, rest: &str) -> bool {
    match word {
        "piece" => is_number(rest) && rest != "0",
        "repeat" | "calls" | "faults" => is_number(rest),
        _ => false,
    }
}

/// Whether a word begins raw bytes, so many times where it has digits.
fn is_raw(word: &str) -> bool {
    match word.strip_prefix(">>") {
        Some(times) => is_times(times),
        None => word.strip_prefix("<<").is_some_and(is_times),
    }
}

fn is_times(digits: &str) -> bool {
    digits.is_empty() || is_number(digits)
}

/// Whether these are calls of one of the objects, by their numbers.
fn are_calls(text: &str, objects: &str) -> bool {
    let (object, numbers) = parted(text);
    is_among(object, objects) && are_numbers(numbers)
}

fn is_among(word: &str, words: &str) -> bool {
    for known in words.split(' ') {
        if word == known {
            return true;
        }
    }
    false
}

fn are_numbers(text: &str) -> bool {
    for word in text.split(' ') {
        if !is_number(word) {
            return false;
        }
    }
    true
}

fn is_number(digits: &str) -> bool {
    digits.parse::<u32>().is_ok()
}

fn is_status(word: &str) -> bool {
    is_among(word, "200 400 404 405 409 411 413 423 503")
}

/// Whether each of these words stands for bytes.
fn are_bytes(file: &str, words: &str) -> bool {
    for word in words.split(' ') {
        if !is_among(word, "header second-header closed empty") && !is_named_or_digits(file, word) {
            return false;
        }
    }
    true
}

fn is_named_or_digits(file: &str, word: &str) -> bool {
    !named(file, "let ", word).is_empty() || is_hexadecimal(word.as_bytes())
}

fn are_digits(words: &str) -> bool {
    for word in words.split(' ') {
        if !is_hexadecimal(word.as_bytes()) {
            return false;
        }
    }
    true
}

/// Whether these are pairs of hexadecimal digits.
fn is_hexadecimal(digits: &[u8]) -> bool {
    for digit in digits {
        if !matches!(*digit, b'0'..=b'9' | b'a'..=b'f') {
            return false;
        }
    }
    !digits.is_empty() && digits.len() % 2 == 0
}

/// Whether the file has a text for each name in braces.
fn are_named(file: &str, text: &str) -> bool {
    for part in text.split("\\{").skip(1) {
        let (braced, _) = part.split_once('}').unwrap_or((part, ""));
        let word = parted(braced).0;
        if !is_among(word, "number instant day") && named(file, "text ", word).is_empty() {
            return false;
        }
    }
    true
}
