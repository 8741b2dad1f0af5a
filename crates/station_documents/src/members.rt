//! What stands at the keys of a table in TOML.

ghost use Rattle.std.specs.Prelude.{◌≡◌, option_map};
ghost use Rattle.station_documents.specs.Members.{array_at, string_at, whole_at};
ghost use Rattle.toml.specs.View.{array_view, table_view};

use toml::{Table, Value};

/// The string at a key, or `None` exactly where none stands there.
pub(crate) fn string_at<'a>(table: &'a Table, key: &str) -> Option<&'a str>
    ensures { option_map (λ text. text.now) result ≡ string_at key.now (table_view table.now) }
{
    match table.get(key) {
        Some(value) => value.as_str(),
        None => None,
    }
}

/// The whole number at a key, or `None` exactly where none stands there.
pub(crate) fn whole_at(table: &Table, key: &str) -> Option<i64>
    ensures { result ≡ whole_at key.now (table_view table.now) }
{
    match table.get(key) {
        Some(value) => value.as_integer(),
        None => None,
    }
}

/// The array at a key, or `None` exactly where none stands there.
pub(crate) fn array_at<'a>(table: &'a Table, key: &str) -> Option<&'a Vec<Value>>
    ensures { option_map (λ items. array_view items.now) result ≡ array_at key.now (table_view table.now) }
{
    match table.get(key) {
        Some(value) => value.as_array(),
        None => None,
    }
}
