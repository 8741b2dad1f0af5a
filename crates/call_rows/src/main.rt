//! Plays rows of calls: each line of a file of `data/` is a call of a library, and the text that is due of it.
#![tactic(auto)]

mod rows;

use fixed_units::Text;
use row_lines::{Ended, parted};
use rows::play_rows;
use std::{fs, io};

/// The file that names the files of rows, one a line, each behind its subject.
const FILES: &str = "files.txt";

/// Plays the rows of a file on a subject, and tells how it ended.
fn play(rt: &HostRuntime, subject: &str, name: &str) -> io::Result<()> {
    let text = fs::read_to_string(rt, name)?;
    let mut came = Text::new(rt.alloc());
    let ended = play_rows(rt.alloc(), subject, text.as_str(), &mut came);
    tell(rt, name, ended, came.as_slice())
}

/// Tells how the rows of a file ended.
fn tell(rt: &HostRuntime, name: &str, ended: Ended<'_>, came: &[u8]) -> io::Result<()> {
    match ended {
        Ended::AsDue(rows) => println!(rt; "{name}: {rows} rows as due"),
        Ended::Otherwise(row) => {
            let came = str::from_utf8(came).unwrap_or("no text");
            println!(rt; "{name}: `{row}` is due, and `{came}` came")
        }
        Ended::NoMemory => println!(rt; "{name}: no memory"),
    }
}

fn main(rt: HostRuntime) -> io::Result<()> {
    let names = fs::read_to_string(&rt, FILES)?;
    for line in names.as_str().lines() {
        let (subject, name) = parted(line);
        play(&rt, subject, name)?;
    }
    Ok(())
}
