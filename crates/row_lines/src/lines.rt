//! A row is the word of a call, its arguments, ` -> `, and the text that is due. Lines that are empty or begin with `#` are none.

/// How the rows of a file ended.
#[derive(Clone, Copy)]
pub enum Ended<'a> {
    /// So many rows came as due.
    AsDue(u64),
    /// The first row of which something else came.
    Otherwise(&'a str),
    /// There was no memory for a row.
    NoMemory,
}

/// Whether a line is a row.
pub fn is_row(line: &str) -> bool {
    !line.is_empty() && !line.starts_with('#')
}

/// The text before the first blank, and behind it.
pub fn parted(text: &str) -> (&str, &str) {
    text.split_once(' ').unwrap_or((text, ""))
}
