//! The profile by which a logger's file is read, as a table in TOML states it.

ghost use Rattle.std.specs.Prelude.{◌≡◌, ◌+◌, ◌≤◌, codes, None, Some, Err, pos, ◌<ℤ◌, IfOk, IfErr, IfSome, length, option_and_then, option_map, string_bytes};
ghost use Rattle.std.specs.BTreeMap.{keys};
ghost use Rattle.std.specs.List.{list_all};
ghost use Rattle.std.specs.Str.{IsUtf8};
ghost use Rattle.edits.specs.Texts.{AreInitials};
ghost use Rattle.civil_days.specs.Starts.{two_digits};
ghost use Rattle.civil_days.specs.Starts as zones;
ghost use Rattle.site_texts.specs.SiteText.{site_of_text};
ghost use Rattle.station_documents.specs.Answers.{IsFound};
ghost use Rattle.station_documents.specs.Members as members;
ghost use Rattle.station_documents.specs.Members.{HasText, all_keys};
ghost use Rattle.logger_files.specs.Profiles as profiles;
ghost use Rattle.logger_files.specs.Profiles.{HasLines, Lacks, StatesProfile, StatesUnit, is_profile_key};
ghost use Rattle.toml.specs.Parse.{parse_document};
ghost use Rattle.toml.specs.View.{table_view};

use crate::values::Unit;
use edits::By;
use fixed_units::{Micro, Site, read_decimal};
use site_texts::read_site;
use std::alloc::Global;
use toml::Table;

/// How a logger's file is read, and whose the readings are.
#[derive(Drop)]
pub struct Profile<'a> {
    /// The site at which the readings are put.
    pub site: Site,
    /// Who puts them.
    pub by: By,
    /// How many lines stand in front of that of the names.
    pub skip: u32,
    /// The byte that parts the fields of a line.
    pub separator: u8,
    /// The name of the column of times.
    pub time: &'a [u8],
    /// The name of the column of values.
    pub value: &'a [u8],
    /// The pattern of a time.
    pub date: &'a [u8],
    /// How many seconds the logger's clock is east of UTC.
    pub clock: i32,
    /// How its numbers become feet.
    pub unit: Unit,
    /// The words for no value, as a line of the file would have them.
    pub none: &'a [u8],
}

/// Why a table is no profile: a further member, or the first that is missing or ill formed.
#[derive(Clone, Copy, Debug, PartialEq, Eq)]
pub enum ProfileFault {
    /// There is a member that no profile has.
    Further,
    /// `site` is no site number.
    Site,
    /// `by` are no initials.
    By,
    /// `skip` is no number of lines.
    Skip,
    /// `separator` is no single byte.
    Separator,
    /// `time` is no text.
    Time,
    /// `value` is no text.
    Value,
    /// `date` is no text.
    Date,
    /// `clock` is no offset.
    Clock,
    /// `factor` is no decimal.
    Factor,
    /// `divisor` is no decimal above 0.
    Divisor,
    /// `offset` is no decimal.
    Offset,
    /// `none` is no text.
    Words,
}

impl ProfileFault {
    /// The fault in words.
    pub fn text(self) -> &'static str {
        match self {
            ProfileFault::Further => "the profile has a further member",
            ProfileFault::Site => "site: 8 to 15 digits",
            ProfileFault::By => "by: 1 to 8 letters",
            ProfileFault::Skip => "skip: a number of lines up to 1,000",
            ProfileFault::Separator => "separator: one character",
            ProfileFault::Time => "time: the name of a column",
            ProfileFault::Value => "value: the name of a column",
            ProfileFault::Date => "date: a pattern of date and time",
            ProfileFault::Clock => "clock: an offset such as -05:00",
            ProfileFault::Factor => "factor: a decimal in quotes",
            ProfileFault::Divisor => "divisor: a decimal above 0 in quotes",
            ProfileFault::Offset => "offset: a decimal in quotes",
            ProfileFault::Words => "none: the words for no value",
        }
    }
}

/// Why bytes are no table.
#[derive(Clone, Copy, Debug, PartialEq, Eq)]
pub enum TableFault {
    /// They are no text in TOML.
    NoTable,
    /// There was no memory.
    NoMemory,
}

impl TableFault {
    /// The fault in words.
    pub fn text(self) -> &'static str {
        match self {
            TableFault::NoTable => "the profile is no TOML",
            TableFault::NoMemory => "out of memory",
        }
    }
}

/// The table that bytes are in TOML.
///
/// # Errors
///
/// [`TableFault::NoTable`] exactly where they are no text in TOML, and [`TableFault::NoMemory`].
pub fn read_table(alloc: Global, bytes: &[u8]) -> Result<Table, TableFault>
    ensures table { IfOk result (λ table. parse_document bytes.now ≡ Some (table_view table)) }
    ensures none { result ≡ Err TableFault.NoTable → IsUtf8 bytes.now → parse_document bytes.now ≡ None }
{
    let Ok(text) = str::from_utf8(bytes) else {
        return Err(TableFault::NoTable);
    };
    table_of(alloc, text)
}

/// The table that a text in TOML is.
fn table_of(alloc: Global, text: &str) -> Result<Table, TableFault>
    ensures table { IfOk result (λ table. parse_document text.now ≡ Some (table_view table)) }
    ensures none { result ≡ Err TableFault.NoTable → parse_document text.now ≡ None }
{
    match toml::table_from_str(alloc, text) {
        Ok(table) => Ok(table),
        Err(error) => {
            if error.is_memory() {
                Err(TableFault::NoMemory)
            } else {
                Err(TableFault::NoTable)
            }
        }
    }
}

/// The profile that a table in TOML states: it has all of the twelve members and no other.
///
/// # Errors
///
/// The first fault in the order of [`ProfileFault`]'s variants.
pub fn read_profile(table: &Table) -> Result<Profile<'_>, ProfileFault>
    ensures stated { IfOk result (StatesProfile (table_view table.now)) }
    ensures lacking { IfErr result (Lacks (table_view table.now)) }
    ensures positive { IfOk result (λ profile. pos 0 <ℤ profile.unit.divisor) }
{
    if !has_profile_keys_alone(table) {
        return Err(ProfileFault::Further);
    }
    let Some(site) = site_in(table) else {
        return Err(ProfileFault::Site);
    };
    let Some(by) = by_in(table) else {
        return Err(ProfileFault::By);
    };
    let Some(skip) = skip_in(table) else {
        return Err(ProfileFault::Skip);
    };
    let Some(separator) = separator_in(table) else {
        return Err(ProfileFault::Separator);
    };
    let Some(time) = text_at(table, "time") else {
        return Err(ProfileFault::Time);
    };
    let Some(value) = text_at(table, "value") else {
        return Err(ProfileFault::Value);
    };
    let Some(date) = text_at(table, "date") else {
        return Err(ProfileFault::Date);
    };
    let Some(clock) = clock_in(table) else {
        return Err(ProfileFault::Clock);
    };
    let unit = unit_in(table)?;
    let Some(none) = text_at(table, "none") else {
        return Err(ProfileFault::Words);
    };
    Ok(Profile {
        site,
        by,
        skip,
        separator,
        time,
        value,
        date,
        clock,
        unit,
        none,
    })
}

/// Whether each member of the table is one of a profile.
fn has_profile_keys_alone(table: &Table) -> bool
    ensures { result ≡ all_keys is_profile_key (table_view table.now) }
{
    are_profile_keys(table)
}

/// Whether each key of the table is one that a profile has.
fn are_profile_keys(table: &Table) -> bool
    ensures { result ≡ list_all (λ key. is_profile_key (string_bytes key)) (keys table.now) }
{
    table.keys().all(|key| is_profile_key(key.as_str()))
}

/// Whether a profile has this key.
fn is_profile_key(key: &str) -> bool
    ensures { result ≡ is_profile_key key.now }
{
    key == "site"
        || key == "by"
        || key == "skip"
        || key == "separator"
        || key == "time"
        || key == "value"
        || key == "date"
        || key == "clock"
        || key == "factor"
        || key == "divisor"
        || key == "offset"
        || key == "none"
}

/// The site at which readings are put.
fn site_in(table: &Table) -> Option<Site>
    ensures { result ≡ option_and_then site_of_text (members.string_at (codes "site") (table_view table.now)) }
{
    read_site(string_at(table, "site")?.as_bytes())
}

/// The initials of the person who puts them.
fn by_in(table: &Table) -> Option<By>
    ensures { IsFound (HasText AreInitials (codes "by") (table_view table.now)) result }
{
    By::new(string_at(table, "by")?.as_bytes())
}

/// How many lines stand in front of that of the names.
fn skip_in(table: &Table) -> Option<u32>
    ensures { IsFound (HasLines (table_view table.now)) result }
{
    let skip = u32::try_from(whole_at(table, "skip")?).ok()?;
    if skip <= 1000 { Some(skip) } else { None }
}

/// The byte that parts fields.
fn separator_in(table: &Table) -> Option<u8>
    ensures { result ≡ option_and_then profiles.only_byte (members.string_at (codes "separator") (table_view table.now)) }
{
    only_byte(text_at(table, "separator")?)
}

/// The byte that a text of one byte is.
fn only_byte(text: &[u8]) -> Option<u8>
    ensures { result ≡ profiles.only_byte text.now }
{
    match text {
        [byte] => Some(*byte),
        _ => None,
    }
}

/// How many seconds the logger's clock is east of UTC.
fn clock_in(table: &Table) -> Option<i32>
    ensures { result ≡ option_and_then zones.offset_seconds (members.string_at (codes "clock") (table_view table.now)) }
{
    offset_seconds(text_at(table, "clock")?)
}

/// What `+HH:MM` or `-HH:MM` says in seconds.
fn offset_seconds(text: &[u8]) -> Option<i32>
    ensures { result ≡ zones.offset_seconds text.now }
{
    if text.len() != 6 || text[3] != b':' {
        return None;
    }
    let hours = two_digits(text, 1)?;
    let minutes = two_digits(text, 4)?;
    if hours > 14 || minutes > 59 {
        return None;
    }
    let seconds = i32::from(hours) * 3600 + i32::from(minutes) * 60;
    match text[0] {
        b'+' => Some(seconds),
        b'-' => Some(-seconds),
        _ => None,
    }
}

/// The number that two digits write at a place of a text.
fn two_digits(text: &[u8], at: usize) -> Option<u8>
    requires { at + 2 ≤ length text.now }
    ensures value { result ≡ two_digits text.now at }
    ensures bound { IfSome result (λ n. n ≤ 99) }
{
    let tens = text[at];
    let ones = text[at + 1];
    if tens.is_ascii_digit() && ones.is_ascii_digit() {
        Some((tens - b'0') * 10 + (ones - b'0'))
    } else {
        None
    }
}

/// How a logger's numbers become feet.
fn unit_in(table: &Table) -> Result<Unit, ProfileFault>
    ensures stated { IfOk result (StatesUnit (table_view table.now)) }
    ensures lacking { IfErr result (Lacks (table_view table.now)) }
    ensures positive { IfOk result (λ unit. pos 0 <ℤ unit.divisor) }
{
    let Some(factor) = decimal_at(table, "factor") else {
        return Err(ProfileFault::Factor);
    };
    let Some(divisor) = positive_at(table, "divisor") else {
        return Err(ProfileFault::Divisor);
    };
    let Some(offset) = decimal_at(table, "offset") else {
        return Err(ProfileFault::Offset);
    };
    Ok(Unit {
        factor,
        divisor,
        offset,
    })
}

/// The quantity that stands at a key, in decimals.
fn decimal_at(table: &Table, key: &str) -> Option<Micro>
    ensures { result ≡ profiles.decimal_at key.now (table_view table.now) }
{
    read_number(text_at(table, key)?)
}

/// The quantity that a text states, if it states one.
fn read_number(text: &[u8]) -> Option<Micro>
    ensures { result ≡ profiles.number_read text.now }
{
    read_decimal(text).ok()
}

/// The quantity above 0 that stands at a key.
fn positive_at(table: &Table, key: &str) -> Option<Micro>
    ensures value { result ≡ profiles.positive_at key.now (table_view table.now) }
    ensures positive { IfSome result (λ n. pos 0 <ℤ n) }
{
    let number = decimal_at(table, key)?;
    if 0 < number.get() { Some(number) } else { None }
}

/// The text at a key, as bytes.
fn text_at<'a>(table: &'a Table, key: &str) -> Option<&'a [u8]>
    ensures { option_map (λ text. text.now) result ≡ members.string_at key.now (table_view table.now) }
{
    match string_at(table, key) {
        Some(text) => Some(text.as_bytes()),
        None => None,
    }
}

/// The string at a key, or `None` exactly where none stands there.
fn string_at<'a>(table: &'a Table, key: &str) -> Option<&'a str>
    ensures { option_map (λ text. text.now) result ≡ members.string_at key.now (table_view table.now) }
{
    match table.get(key) {
        Some(value) => value.as_str(),
        None => None,
    }
}

/// The whole number at a key, or `None` exactly where none stands there.
fn whole_at(table: &Table, key: &str) -> Option<i64>
    ensures { result ≡ members.whole_at key.now (table_view table.now) }
{
    match table.get(key) {
        Some(value) => value.as_integer(),
        None => None,
    }
}
