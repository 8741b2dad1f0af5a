//! The fields of a line of an RDB text: what tabs part, which is what `csv` states for the line.
//!
//! They are read in place. A reader of `csv` takes memory for each line, and where it found none a fault of the line
//! could not be told.

ghost use Rattle.std.specs.Prelude.{◌≡◌, ◌≢◌, ◌<◌, ◌∷◌, ⊤, length, option_map, All, MatchOption};
ghost use Rattle.csv.specs.Records.{field_at};
ghost use Rattle.rating_tables.specs.Lines.{IsKept};
ghost use Rattle.rating_tables.specs.Rdb.{fields, fields_from, fields_behind, column};

/// The field of a line at a place, if there is one.
pub(crate) fn find_field(line: &[u8], place: usize) -> Option<&[u8]>
    requires { IsKept line.now }
    ensures { option_map (λ s. s.now) result ≡ field_at (fields line.now) place }
{
    let mut rest = line;
    for _passed in 0..place {
        rest = cut_field(rest).1?;
    }
    Some(cut_field(rest).0)
}

/// The place of the first field of a line that is this text.
pub(crate) fn find_column(line: &[u8], name: &[u8]) -> Option<usize>
    requires { IsKept line.now }
    ensures { result ≡ column name.now (fields line.now) }
{
    let mut left = Some(line);
    let mut place = 0;
    while let Some(text) = left {
        let (field, behind) = cut_field(text);
        if field == name {
            return Some(place);
        }
        left = behind;
        place += 1;
    }
    None
}

/// The first field of a text, and the text behind the tab that ends it, if one does.
fn cut_field(text: &[u8]) -> (&[u8], Option<&[u8]>)
    requires { All (λ b. b ≢ 10) text.now }
    ensures fields { fields_from text.now ≡ result.0.now ∷ fields_behind (option_map (λ s. s.now) result.1) }
    ensures feeds { MatchOption result.1 ⊤ (λ behind. All (λ b. b ≢ 10) behind.now) }
    ensures shorter { MatchOption result.1 ⊤ (λ behind. length behind.now < length text.now) }
{
    match memchr::memchr(b'\t', text) {
        Some(end) => (&text[..end], Some(&text[end + 1..])),
        None => (text, None),
    }
}
