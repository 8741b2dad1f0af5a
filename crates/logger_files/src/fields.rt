//! The fields of a line, read in place.

ghost use Rattle.std.specs.Prelude.{◌≡◌, ◌+◌, ◌<◌, ◌≤◌, ◌∷◌, ⊤, false, length, reverse, take, option_map, MatchOption};
ghost use Rattle.csv.specs.Records.{field_at};
ghost use Rattle.rating_tables.specs.Rdb.{column, skip_spaces, trimmed};
ghost use Rattle.logger_files.specs.Fields as lines;
ghost use Rattle.logger_files.specs.Fields.{fields, fields_left, parts_from, parts_behind, is_end, quoted_behind};

/// The field of a line at a place, if there is one.
pub(crate) fn find_field(separator: u8, line: &[u8], place: usize) -> Option<&[u8]>
    ensures { option_map (λ s. s.now) result ≡ field_at (fields separator line.now) place }
{
    let mut rest = line;
    for _passed in 0..place {
        rest = cut_field(separator, rest).1?;
    }
    Some(cut_field(separator, rest).0)
}

/// The place of the first field of a line that is this text.
pub(crate) fn find_column(separator: u8, line: &[u8], name: &[u8]) -> Option<usize>
    ensures { result ≡ column name.now (fields separator line.now) }
{
    let mut left = Some(line);
    let mut place = 0;
    while let Some(text) = left {
        let (field, behind) = cut_field(separator, text);
        if field == name {
            return Some(place);
        }
        left = behind;
        place += 1;
    }
    None
}

/// Whether a text is among those that a line lists.
pub(crate) fn is_listed(separator: u8, line: &[u8], text: &[u8]) -> bool
    ensures { result ≡ lines.is_listed separator line.now text.now }
{
    find_column(separator, line, text).is_some()
}

/// The first field of a text, and the text behind the separator that ends it, if one does.
fn cut_field(separator: u8, text: &[u8]) -> (&[u8], Option<&[u8]>)
    ensures fields { fields separator text.now ≡ result.0.now ∷ fields_left separator (option_map (λ s. s.now) result.1) }
    ensures shorter { MatchOption result.1 ⊤ (λ behind. length behind.now < length text.now) }
{
    let end = part_end(separator, text);
    let field = unquoted(trim_spaces(&text[..end]));
    if end < text.len() {
        (field, Some(&text[end + 1..]))
    } else {
        (field, None)
    }
}

/// Where the first part of a text ends.
fn part_end(separator: u8, text: &[u8]) -> usize
    ensures within { result ≤ length text.now }
    ensures parts { parts_from separator false text.now ≡ take result text.now ∷ parts_behind separator result text.now }
{
    let mut end = 0;
    let mut quoted = false;
    while end < text.len() {
        if is_end(separator, quoted, text[end]) {
            return end;
        }
        quoted = quoted_behind(quoted, text[end]);
        end += 1;
    }
    end
}

/// Whether a byte ends a part: the separator, where no quotes are open.
fn is_end(separator: u8, quoted: bool, byte: u8) -> bool
    ensures { result ≡ is_end separator quoted byte }
{
    byte == separator && !quoted
}

/// Whether quotes are open behind a byte.
fn quoted_behind(quoted: bool, byte: u8) -> bool
    ensures { result ≡ quoted_behind quoted byte }
{
    if byte == b'"' { !quoted } else { quoted }
}

/// A text without the spaces at both its ends.
fn trim_spaces(text: &[u8]) -> &[u8]
    ensures { result.now ≡ trimmed text.now }
{
    without_trailing(without_leading(text))
}

/// A text without the spaces at its start.
fn without_leading(text: &[u8]) -> &[u8]
    ensures { result.now ≡ skip_spaces text.now }
{
    let mut rest = text;
    while let [b' ', behind @ ..] = rest {
        rest = behind;
    }
    rest
}

/// A text without the spaces at its end.
fn without_trailing(text: &[u8]) -> &[u8]
    ensures { result.now ≡ reverse (skip_spaces (reverse text.now)) }
{
    let mut rest = text;
    while let [front @ .., b' '] = rest {
        rest = front;
    }
    rest
}

/// A text between quotes, without them.
fn unquoted(text: &[u8]) -> &[u8]
    ensures { result.now ≡ lines.unquoted text.now }
{
    if 2 <= text.len() && text[0] == b'"' && text[text.len() - 1] == b'"' {
        &text[1..text.len() - 1]
    } else {
        text
    }
}
