//! What the parameters of a target take from it, and what their texts state.

ghost use Rattle.std.specs.Prelude.{◌≡◌, ◌≤◌, ◌<◌, ◌^◌, true, IfSome, length, option_map};
ghost use Rattle.std.specs.List.{list_all};
ghost use Rattle.std.specs.Char.{is_ascii_digit};
ghost use Rattle.std.specs.Str.Parse.{digits_value};
ghost use Rattle.matchit.specs.Params.{walk, named, AllText};
ghost use Rattle.edit_bodies.specs.Grammars.{kept_if, kept_within};
ghost use Rattle.edit_bodies.specs.Texts.{are_initials, is_reference};
ghost use Rattle.edits.specs.Lawful.{IsRatingNumber};
ghost use Rattle.http_api.specs.Parameters.{by_in, count_in, count_of, day_in, edit_number_in, from_in, is_number, is_table_span, measurement_in, measurement_of, number_of, rating_in, rating_of, reference_in, site_in, to_in, turns_of};

use civil_days::read_day;
use edit_bodies::rating_number_from;
use edits::{By, Ref};
use fixed_units::{Day, Site};
use matchit::Params;
use site_texts::read_site;

/// The number of turns among the parameters.
pub(crate) fn count_in(params: &Params<'_, '_>) -> Option<u32>
    requires { AllText (walk params.now.pattern.now params.now.text.now params.now.path.now params.now.names.now 0 0) }
    ensures { result ≡ count_in (walk params.now.pattern.now params.now.text.now params.now.path.now params.now.names.now 0 0) }
{
    count_of(part(params, "count")?)
}

/// The site among the parameters.
pub(crate) fn site_in(params: &Params<'_, '_>) -> Option<Site>
    requires { AllText (walk params.now.pattern.now params.now.text.now params.now.path.now params.now.names.now 0 0) }
    ensures { result ≡ site_in (walk params.now.pattern.now params.now.text.now params.now.path.now params.now.names.now 0 0) }
{
    read_site(part(params, "site")?)
}

/// The day among the parameters.
pub(crate) fn day_in(params: &Params<'_, '_>) -> Option<Day>
    requires { AllText (walk params.now.pattern.now params.now.text.now params.now.path.now params.now.names.now 0 0) }
    ensures { result ≡ day_in (walk params.now.pattern.now params.now.text.now params.now.path.now params.now.names.now 0 0) }
{
    read_day(part(params, "day")?)
}

/// The first day of a table among the parameters.
pub(crate) fn from_in(params: &Params<'_, '_>) -> Option<Day>
    requires { AllText (walk params.now.pattern.now params.now.text.now params.now.path.now params.now.names.now 0 0) }
    ensures { result ≡ from_in (walk params.now.pattern.now params.now.text.now params.now.path.now params.now.names.now 0 0) }
{
    read_day(part(params, "from")?)
}

/// The last day of a table among the parameters.
pub(crate) fn to_in(params: &Params<'_, '_>) -> Option<Day>
    requires { AllText (walk params.now.pattern.now params.now.text.now params.now.path.now params.now.names.now 0 0) }
    ensures { result ≡ to_in (walk params.now.pattern.now params.now.text.now params.now.path.now params.now.names.now 0 0) }
{
    read_day(part(params, "to")?)
}

/// Whether a table from one day to another, both included, has 1 to 366 days.
pub(crate) fn is_table_span(from: Day, to: Day) -> bool
    ensures { result ≡ is_table_span from to }
{
    from <= to && to.get() - from.get() < 366
}

/// The number of a rating among the parameters.
pub(crate) fn rating_in(params: &Params<'_, '_>) -> Option<u32>
    requires { AllText (walk params.now.pattern.now params.now.text.now params.now.path.now params.now.names.now 0 0) }
    ensures value { result ≡ rating_in (walk params.now.pattern.now params.now.text.now params.now.path.now params.now.names.now 0 0) }
    ensures number { IfSome result IsRatingNumber }
{
    rating_of(part(params, "rating")?)
}

/// Who adds the rating.
pub(crate) fn by_in(params: &Params<'_, '_>) -> Option<By>
    requires { AllText (walk params.now.pattern.now params.now.text.now params.now.path.now params.now.names.now 0 0) }
    ensures { result ≡ by_in (walk params.now.pattern.now params.now.text.now params.now.path.now params.now.names.now 0 0) }
{
    by_of(part(params, "by")?)
}

/// The reference under which it is added.
pub(crate) fn reference_in(params: &Params<'_, '_>) -> Option<Ref>
    requires { AllText (walk params.now.pattern.now params.now.text.now params.now.path.now params.now.names.now 0 0) }
    ensures { result ≡ reference_in (walk params.now.pattern.now params.now.text.now params.now.path.now params.now.names.now 0 0) }
{
    reference_of(part(params, "ref")?)
}

/// The number of a measurement among the parameters.
pub(crate) fn measurement_in(params: &Params<'_, '_>) -> Option<u32>
    requires { AllText (walk params.now.pattern.now params.now.text.now params.now.path.now params.now.names.now 0 0) }
    ensures { result ≡ measurement_in (walk params.now.pattern.now params.now.text.now params.now.path.now params.now.names.now 0 0) }
{
    measurement_of(part(params, "number")?)
}

/// The number of an edit among the parameters.
pub(crate) fn edit_number_in(params: &Params<'_, '_>) -> Option<u64>
    requires { AllText (walk params.now.pattern.now params.now.text.now params.now.path.now params.now.names.now 0 0) }
    ensures { result ≡ edit_number_in (walk params.now.pattern.now params.now.text.now params.now.path.now params.now.names.now 0 0) }
{
    number_of(part(params, "number")?)
}

/// The part of a target that the parameter of a name took.
fn part<'v>(params: &Params<'_, 'v>, name: &str) -> Option<&'v [u8]>
    requires { AllText (walk params.now.pattern.now params.now.text.now params.now.path.now params.now.names.now 0 0) }
    ensures { option_map (λ part. part.now) result ≡ named name.now (walk params.now.pattern.now params.now.text.now params.now.path.now params.now.names.now 0 0) }
{
    Some(params.get(name)?.as_bytes())
}

/// How many turns a text asks for: 1 to 9 digits that state 1 to 1,000.
fn count_of(text: &[u8]) -> Option<u32>
    ensures { result ≡ count_of text.now }
{
    turns_of(number_of(text)?)
}

/// The number of turns, where it is one.
fn turns_of(count: u64) -> Option<u32>
    ensures { result ≡ turns_of count }
{
    if 1 <= count && count <= 1_000 {
        Some(count as u32)
    } else {
        None
    }
}

/// The number of a rating that a text states: 1 to 9 digits that state 1 to 999,999.
fn rating_of(text: &[u8]) -> Option<u32>
    ensures value { result ≡ rating_of text.now }
    ensures number { IfSome result IsRatingNumber }
{
    rating_number_from(number_of(text)?)
}

/// The number of a measurement that a text states: 1 to 9 digits, from 1.
fn measurement_of(text: &[u8]) -> Option<u32>
    ensures { result ≡ measurement_of text.now }
{
    measurement_from(number_of(text)?)
}

/// The measurement of this number, where it is written with 9 digits at most.
fn measurement_from(number: u64) -> Option<u32>
    ensures { result ≡ kept_within 1 999_999_999 number }
{
    if 1 <= number && number <= 999_999_999 {
        Some(number as u32)
    } else {
        None
    }
}

/// The initials that a text is.
fn by_of(text: &[u8]) -> Option<By>
    ensures { result ≡ kept_if are_initials text.now }
{
    By::new(text)
}

/// The reference that a text is.
fn reference_of(text: &[u8]) -> Option<Ref>
    ensures { result ≡ kept_if is_reference text.now }
{
    Ref::new(text)
}

/// The number that 1 to 9 digits state.
fn number_of(text: &[u8]) -> Option<u64>
    ensures { result ≡ number_of text.now }
{
    if is_number(text) {
        Some(value_of(text))
    } else {
        None
    }
}

/// Whether these are 1 to 9 digits.
fn is_number(text: &[u8]) -> bool
    ensures { result ≡ is_number text.now }
{
    !text.is_empty() && text.len() <= 9 && are_digits(text)
}

fn are_digits(text: &[u8]) -> bool
    ensures { result ≡ list_all is_ascii_digit text.now }
{
    text.iter().all(u8::is_ascii_digit)
}

/// The number that the digits write.
fn value_of(digits: &[u8]) -> u64
    requires digits { list_all is_ascii_digit digits.now ≡ true }
    requires few { length digits.now ≤ 9 }
    ensures { result ≡ digits_value 10 digits.now }
{
    let mut value = 0;
    for digit in digits {
        value = value * 10 + u64::from(*digit - b'0');
    }
    value
}
