//! The rows of a file, by their lines. A file begins with a line that is none of a row; `flaws` finds the lines that say nothing where
//! they stand. A line begins with a word:
//!
//! - `#` says something to the reader; `text NAME TEXT` and `let NAME DIGITS` name what stands in more than one row.
//! - `== NAME` begins a row: a cabinet, and the runs over it, one behind another.
//! - `journal BYTES` is what stands under `J` before, and `copy BYTES` what stands under `G`; without them nothing does. `fail cabinet N ..`,
//!   `fail disk N ..` and `fail copy N ..` are the calls of the cabinet, of the disk under `J` and of the one under `G` that fail, counted from
//!   1; such a row tells the count of faults.
//! - `run WORDS` begins a run by these words; `''` is a word without letters. `fail input N ..`, `fail output N ..` and `fail faults N ..` are
//!   the calls of its streams that fail, and `piece N` the most bytes that one of them moves.
//! - `> METHOD TARGET TEXT` is a request with that body, and `>> TEXT` are bytes of the input; `>>N TEXT` are so many times those bytes.
//! - `< STATUS KIND TEXT` is a reply that is due (`json`, `GET` or `POST` where that method alone is allowed, `sheet`, `table`), and `<< TEXT`
//!   and `<<N TEXT` are bytes of the output.
//! - `repeat N` repeats the requests and replies behind it so many times, up to the next `repeat` or the end of the run.
//! - `or` begins replies that may come in the place of all those before it in the run.
//! - `told TEXT` is what is told of faults; without it nothing is. `status N` is the status. `unread` says that the input is not asked for
//!   bytes; without it it is.
//! - `handed back` says that no thread can be started. `fail doors N ..` are the calls of the doors that fail, and `given N` how many
//!   connections are given; without it none is.
//! - `connection` begins, behind all of these, a connection that waits at the doors, with requests, replies, `fail input`, `fail output`,
//!   `piece`, `repeat` and `unread` of its own.
//! - Behind the runs: `left BYTES` is what stands under `J` then, and `left nothing` that nothing does; so `copied BYTES` and `copied nothing`
//!   of `G`. They may lack where no call of the disk fails. `calls N` is how many calls the disk under `J` had, where that is told, and
//!   `faults N` what the cabinet counts; without it that is 0.
//!
//! `texts` says what a TEXT and BYTES are.

/// What stands behind the first line that begins so; nothing where none does.
pub fn told<'a>(row: &'a str, begin: &str) -> &'a str {
    for line in row.lines() {
        if let Some(rest) = line.strip_prefix(begin) {
            return rest;
        }
    }
    ""
}

/// Whether a line of the row is this one.
pub fn says(row: &str, what: &str) -> bool {
    for line in row.lines() {
        if line == what {
            return true;
        }
    }
    false
}

/// What stands before the first blank, and behind it.
pub fn parted(text: &str) -> (&str, &str) {
    text.split_once(' ').unwrap_or((text, ""))
}

/// How many lines of a file are requests.
pub fn asked_in(file: &str) -> u64 {
    let mut asked = 0_u64;
    for line in file.lines() {
        if line.starts_with("> ") {
            asked = asked.saturating_add(1);
        }
    }
    asked
}

/// What stands in a run before its connections.
pub fn head_of(run: &str) -> &str {
    run.split_once("\nconnection").unwrap_or((run, "")).0
}
