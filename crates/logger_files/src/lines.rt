//! The lines of a text, one at a time.

ghost use Rattle.std.specs.Prelude.{◌≡◌, ◌<◌, ◌≤◌, ◌∷◌, length, drop};
ghost use Rattle.csv.specs.Reading.{strip_bom};
ghost use Rattle.rating_tables.specs.Lines as lines;
ghost use Rattle.rating_tables.specs.Lines.{lines_of};

/// A text without the byte order mark at its start.
pub(crate) fn without_mark(text: &[u8]) -> &[u8]
    ensures text { result.now ≡ strip_bom text.now }
    ensures length { length result.now ≤ length text.now }
{
    match text.strip_prefix(b"\xEF\xBB\xBF") {
        Some(rest) => rest,
        None => text,
    }
}

/// What is behind so many lines of a text.
pub(crate) fn behind_lines(text: &[u8], count: u32) -> &[u8]
    ensures lines { lines_of result.now ≡ drop count (lines_of text.now) }
    ensures length { length result.now ≤ length text.now }
{
    let mut rest = text;
    for _passed in 0..count {
        if rest.is_empty() {
            continue;
        }
        rest = cut_line(rest).1;
    }
    rest
}

/// The first line of a text that is not empty, and the text behind it.
pub(crate) fn cut_line(text: &[u8]) -> (&[u8], &[u8])
    requires { 0 < length text.now }
    ensures lines { lines_of text.now ≡ result.0.now ∷ lines_of result.1.now }
    ensures shorter { length result.1.now < length text.now }
{
    match memchr::memchr(b'\n', text) {
        Some(end) => (without_return(&text[..end]), &text[end + 1..]),
        None => (text, &text[text.len()..]),
    }
}

/// A line without the CR at its end.
fn without_return(line: &[u8]) -> &[u8]
    ensures { result.now ≡ lines.without_return line.now }
{
    match line.strip_suffix(b"\r") {
        Some(front) => front,
        None => line,
    }
}
