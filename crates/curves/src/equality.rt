//! When two lists of entries are equal.

ghost use Rattle.std.specs.Prelude.{◌≡◌, ◌↔◌, true, false, List, ◌∷◌, IfSome, IfNone, option_map};
ghost use Rattle.std.specs.Bool.{Decides};
ghost use Rattle.curves.specs.Equality.{is_found, same_entry, same_entries};
ghost use Rattle.curves.specs.declared.entries.Entry.{Entry};

use crate::entries::Entry;

/// Two entries, and two lists of them, are equal exactly where the tests of the definitions say so.
pub fn equality_is_told()
    ensures entries { (e f : Entry) → Decides (same_entry e f) (e ≡ f) }
    ensures lists { (es fs : List Entry) → Decides (same_entries es fs) (es ≡ fs) }
{}

/// Whether two lists of entries are equal.
pub fn are_same(entries: &[Entry], others: &[Entry]) -> bool
    ensures { result ≡ same_entries entries.now others.now }
{
    let mut rest = others;
    for entry in entries {
        let Some(left) = behind(entry, rest) else {
            return false;
        };
        rest = left;
    }
    rest.is_empty()
}

/// What stands behind an entry, where a list begins with it.
fn behind<'a>(entry: &Entry, list: &'a [Entry]) -> Option<&'a [Entry]>
    ensures rest { IfSome result (λ rest. (others : List Entry) → same_entries (entry.now ∷ others) list.now ≡ same_entries others rest.now) }
    ensures other { IfNone result ((others : List Entry) → same_entries (entry.now ∷ others) list.now ≡ false) }
{
    match list {
        [found, rest @ ..] if is_same_entry(entry, found) => Some(rest),
        _ => None,
    }
}

/// Whether two entries are equal: by the instant, the points of the curve and whether it prorates.
pub fn is_same_entry(entry: &Entry, other: &Entry) -> bool
    ensures same { result ≡ same_entry entry.now other.now }
    ensures equal { result ≡ true ↔ entry.now ≡ other.now }
{
    entry.at == other.at
        && entry.curve.points() == other.curve.points()
        && entry.prorate == other.prorate
}

/// Whether an entry was found that is equal to this one.
pub fn is_found(entry: &Entry, found: Option<&Entry>) -> bool
    ensures { result ≡ is_found entry.now (option_map (λ f. f.now) found.entry) }
{
    match found {
        Some(other) => is_same_entry(entry, other),
        None => false,
    }
}
