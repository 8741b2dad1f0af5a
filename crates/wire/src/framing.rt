//! How a head is found in a window of bytes, and how it frames its body.

ghost use Rattle.std.specs.Prelude.{◌≡◌, ℕ, ◌≤◌, true, List, [], ◌∷◌, ◌++◌, length, codes, All, IfSome, None, map};
ghost use Rattle.std.specs.List.{list_all, list_any};
ghost use Rattle.std.specs.Char.{is_ascii_digit};
ghost use Rattle.std.specs.Str.{str_eq_ignore_ascii_case};
ghost use Rattle.std.specs.Str.Parse.{digits_value};
ghost use Rattle.httparse.specs.Spans.{IsHeaderWithin, RequestOverflows, header_bytes};
ghost use Rattle.wire.specs.Framing as lines;
ghost use Rattle.wire.specs.Framing.{verb_of, is_named, values_of, stated_length, value_length, framing, body_length};
ghost use Rattle.wire.specs.Found.{IsFound};
ghost use Rattle.wire.specs.declared.limits.TheConstants.{HEAD_FIELDS};

use crate::limits::{BODY_BYTES, HEAD_FIELDS, LENGTH_DIGITS};
use crate::messages::Verb;
use httparse::Status;
use httparse::spans::{EMPTY_HEADER_SPAN, HeaderSpan, Span, parse_request};

/// How many fields most heads have at most.
const USUAL_FIELDS: usize = 8;

/// The length that a head states for its body.
#[derive(Clone, Copy, Debug, PartialEq, Eq)]
pub(crate) enum Length {
    /// No field states it.
    Absent,
    /// One field does.
    Given(u32),
    /// A field states no length, or several fields state one.
    Ill,
}

/// The body that a head frames.
#[derive(Clone, Copy, Debug, PartialEq, Eq)]
pub(crate) enum Frame {
    /// A body of so many bytes, which is taken.
    Body(u32),
    /// None, since no length is stated where one is needed.
    NoLength,
    /// A body of so many bytes, which is too long to be taken.
    TooLarge(u32),
    /// Nothing tells where it ends.
    Ill,
}

/// A head that stands at the front of a window.
#[derive(Clone, Copy, Debug, Drop)]
pub(crate) struct Head {
    pub(crate) verb: Verb,
    pub(crate) target: Span,
    /// How many bytes the head has.
    pub(crate) len: usize,
    /// The body that its fields frame.
    pub(crate) frame: Frame,
}

/// What stands at the front of a window.
#[derive(Clone, Copy, Debug, Drop)]
pub(crate) enum Found {
    /// A head with few enough fields.
    Whole(Head),
    /// No head, but one may stand there once more bytes have come.
    NotYet,
    /// No head with few enough fields, whatever follows.
    Never,
}

/// Looks for a head at the front of a window.
pub(crate) fn find_head(window: &[u8]) -> Found
    ensures { IsFound window.now result }
{
    // room for as many fields as a head may have takes longer to make than most heads take to read
    let mut few = [EMPTY_HEADER_SPAN; USUAL_FIELDS];
    if let Some(found) = find_in_room(window, &mut few) {
        return found;
    }
    let mut all = [EMPTY_HEADER_SPAN; HEAD_FIELDS];
    find_in_room(window, &mut all).unwrap_or(Found::Never)
}

/// Looks for a head with room for so many fields; `None` where there is none with as few, whatever follows.
fn find_in_room(window: &[u8], room: &mut [HeaderSpan]) -> Option<Found>
    requires { length room.old ≤ HEAD_FIELDS }
    ensures found { IfSome result (IsFound window.now) }
    ensures none { result ≡ None → RequestOverflows (length room.old) window.now }
{
    match parse_request(window, room) {
        Ok(Status::Complete(spans)) => {
            let verb = verb_named(spans.method.of(window));
            let frame = frame_in(window, &room[..spans.headers], verb);
            Some(Found::Whole(Head {
                verb,
                target: spans.path,
                len: spans.len,
                frame,
            }))
        }
        Ok(Status::Partial) => Some(Found::NotYet),
        Err(_) => None,
    }
}

/// How many bytes the body has that is framed.
pub(crate) fn length_of(frame: Frame) -> usize
    ensures { result ≡ body_length frame }
{
    match frame {
        Frame::Body(count) => count as usize,
        Frame::TooLarge(count) => count as usize,
        Frame::NoLength => 0,
        Frame::Ill => 0,
    }
}

/// The verb that a method names.
fn verb_named(method: &[u8]) -> Verb
    ensures { result ≡ verb_of method.now }
{
    match method {
        b"GET" => Verb::Get,
        b"POST" => Verb::Post,
        _ => Verb::Other,
    }
}

/// The body that the fields of a head of this verb frame.
fn frame_in(window: &[u8], headers: &[HeaderSpan], verb: Verb) -> Frame
    requires { All (IsHeaderWithin (length window.now)) headers.now }
    ensures { result ≡ framing verb (map (header_bytes window.now) headers.now) }
{
    if has_field(window, headers, b"transfer-encoding") {
        Frame::Ill
    } else {
        frame_by(verb, find_length(window, headers))
    }
}

/// The body that a stated length frames in a request of this verb.
fn frame_by(verb: Verb, length: Length) -> Frame
    ensures { result ≡ lines.frame_by verb length }
{
    match length {
        Length::Given(len) if len > BODY_BYTES => Frame::TooLarge(len),
        Length::Given(len) => Frame::Body(len),
        Length::Ill => Frame::Ill,
        Length::Absent => match verb {
            Verb::Post => Frame::NoLength,
            Verb::Get => Frame::Body(0),
            Verb::Other => Frame::Body(0),
        },
    }
}

/// Whether a field of a head has this name.
fn has_field(window: &[u8], headers: &[HeaderSpan], name: &[u8]) -> bool
    requires { All (IsHeaderWithin (length window.now)) headers.now }
    ensures { result ≡ list_any (is_named name.now) (map (header_bytes window.now) headers.now) }
{
    for header in headers {
        if is_name(header.name.of(window), name) {
            return true;
        }
    }
    false
}

/// The body's length that the fields of a head state.
fn find_length(window: &[u8], headers: &[HeaderSpan]) -> Length
    requires { All (IsHeaderWithin (length window.now)) headers.now }
    ensures { result ≡ stated_length (values_of (codes "content-length") (map (header_bytes window.now) headers.now)) }
{
    let mut length = Length::Absent;
    for header in headers {
        if is_name(header.name.of(window), b"content-length") {
            length = with_value(length, header.value.of(window));
        }
    }
    length
}

/// The length that is stated once a field with this value comes behind others.
fn with_value(before: Length, value: &[u8]) -> Length
    ensures { (values : List (List ℕ)) → before ≡ stated_length values
        → result ≡ stated_length (values ++ value.now ∷ []) }
{
    match before {
        Length::Absent => length_in(value),
        _ => Length::Ill,
    }
}

/// The length that a value states.
fn length_in(value: &[u8]) -> Length
    ensures { result ≡ value_length value.now }
{
    if is_length(value) {
        Length::Given(number(value))
    } else {
        Length::Ill
    }
}

/// Whether these are digits, as many as may state a length.
fn is_length(value: &[u8]) -> bool
    ensures { result ≡ lines.is_length value.now }
{
    !value.is_empty() && value.len() <= LENGTH_DIGITS && are_digits(value)
}

fn are_digits(value: &[u8]) -> bool
    ensures { result ≡ list_all is_ascii_digit value.now }
{
    value.iter().all(u8::is_ascii_digit)
}

/// The number that a few digits write.
fn number(digits: &[u8]) -> u32
    requires digits { list_all is_ascii_digit digits.now ≡ true }
    requires few { length digits.now ≤ LENGTH_DIGITS }
    ensures { result ≡ digits_value 10 digits.now }
{
    let mut value = 0;
    for digit in digits {
        value = value * 10 + u32::from(*digit - b'0');
    }
    value
}

/// Whether a field's name is this one, in capitals or not.
fn is_name(field: &[u8], name: &[u8]) -> bool
    ensures { result ≡ str_eq_ignore_ascii_case field.now name.now }
{
    field.eq_ignore_ascii_case(name)
}
