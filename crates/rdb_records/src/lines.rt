//! The lines of an RDB text that count, one at a time.

ghost use Rattle.std.specs.Prelude.{◌≡◌, ◌≢◌, ◌+◌, ◌<◌, ◌≤◌, ◌^◌, ⊤, [], ◌∷◌, length, All, MatchOption};
ghost use Rattle.csv.specs.Reading.{strip_bom};
ghost use Rattle.rating_tables.specs.Lines as lines;
ghost use Rattle.rating_tables.specs.Lines.{IsKept, lines_of, kept_lines};

/// A line that counts, and the text behind it.
#[derive(Clone, Copy, Debug)]
pub(crate) struct Line<'a> {
    /// The number of the line, counted from 1.
    pub number: u64,
    /// Its bytes, without its end.
    pub bytes: &'a [u8],
    /// The text behind it.
    pub behind: &'a [u8],
}

/// A text without the byte order mark at its start.
pub(crate) fn without_mark(text: &[u8]) -> &[u8]
    ensures text { result.now ≡ strip_bom text.now }
    ensures length { length result.now ≤ length text.now }
{
    match text.strip_prefix(b"\xEF\xBB\xBF") {
        Some(rest) => rest,
        None => text,
    }
}

/// The next line that counts, behind so many lines that were passed.
pub(crate) fn next_line(text: &[u8], passed: u64) -> Option<Line<'_>>
    requires { passed + length text.now < 2 ^ 64 }
    ensures lines { MatchOption result (kept_lines passed text.now ≡ [])
        (λ line. kept_lines passed text.now ≡ (line.number, line.bytes.now) ∷ kept_lines line.number line.behind.now) }
    ensures kept { MatchOption result ⊤ (λ line. IsKept line.bytes.now) }
    ensures shorter { MatchOption result ⊤ (λ line. (length line.behind.now < length text.now)
        × (line.number + length line.behind.now ≤ passed + length text.now)) }
{
    let mut rest = text;
    let mut number = passed;
    while !rest.is_empty() {
        let (bytes, behind) = cut_line(rest);
        number += 1;
        if is_kept(bytes) {
            return Some(Line {
                number,
                bytes,
                behind,
            });
        }
        rest = behind;
    }
    None
}

/// The first line of a text that is not empty, and the text behind it.
fn cut_line(text: &[u8]) -> (&[u8], &[u8])
    requires { 0 < length text.now }
    ensures lines { lines_of text.now ≡ result.0.now ∷ lines_of result.1.now }
    ensures feeds { All (λ b. b ≢ 10) result.0.now }
    ensures shorter { length result.1.now < length text.now }
{
    match memchr::memchr(b'\n', text) {
        Some(end) => (without_return(&text[..end]), &text[end + 1..]),
        None => (text, &text[text.len()..]),
    }
}

/// A line without the CR at its end.
fn without_return(line: &[u8]) -> &[u8]
    ensures { result.now ≡ lines.without_return line.now }
{
    match line.strip_suffix(b"\r") {
        Some(front) => front,
        None => line,
    }
}

/// Whether a line counts: it is not empty and no comment.
fn is_kept(line: &[u8]) -> bool
    ensures { result ≡ lines.is_kept line.now }
{
    !matches!(line, [] | [b'#', ..])
}
