//! The requests that put readings, as `batch` and the server read them.

ghost use Rattle.std.specs.Prelude.{◌≡◌, ◌++◌, ◌*◌, ◌<◌, IfOk, OnOk, length};
ghost use Rattle.std.specs.Fork.{slice_chunk};
ghost use Rattle.std.specs.List.{flat_map};
ghost use Rattle.logger_files.specs.Requests.{array_text, body_text, content_digest, further_text, posted, reading_text, request_text, requests_text, rows_text};
ghost use Rattle.logger_files.specs.declared.requests.TheConstants.{MOST_READINGS};

use crate::digests::digest_from;
use civil_days::write_instant;
use edits::By;
use fixed_units::{NoMemory, Reading, Site, Text, write_micro};
use site_texts::site_digits;
use std::alloc::Global;

/// How many readings a request puts at most. Each has at most 42 bytes, so that a body stays below 2 MiB.
pub const MOST_READINGS: usize = 40_000;

/// The requests by which a person puts readings at a site.
pub(crate) fn write_requests(
    alloc: Global,
    by: &By,
    site: Site,
    readings: &[Reading],
) -> Result<Text, NoMemory>
    ensures { IfOk result (λ text. text ≡ requests_text by.now site readings.now) }
{
    let mut out = Text::new(alloc);
    for place in 0..readings.len().div_ceil(MOST_READINGS) {
        write_request(alloc, by, site, chunk_at(readings, place), &mut out)?;
    }
    Ok(out)
}

/// The chunk of the readings in that place.
fn chunk_at(readings: &[Reading], place: usize) -> &[Reading]
    requires { place * MOST_READINGS < length readings.now }
    ensures { result.now ≡ slice_chunk readings.now MOST_READINGS place }
{
    let rest = &readings[place * MOST_READINGS..];
    &rest[..rest.len().min(MOST_READINGS)]
}

/// Adds the request by which a person puts readings at a site.
fn write_request(
    alloc: Global,
    by: &By,
    site: Site,
    readings: &[Reading],
    out: &mut Text,
) -> Result<(), NoMemory>
    ensures { OnOk result (out.new ≡ out.old ++ request_text by.now site readings.now) }
{
    let array = array_of(alloc, readings)?;
    let body = body_of(
        alloc,
        by.as_slice(),
        site_digits(site).as_slice(),
        array.as_slice(),
    )?;
    write_posted(body.as_slice(), out)
}

/// Readings as an array in JSON.
fn array_of(alloc: Global, readings: &[Reading]) -> Result<Text, NoMemory>
    ensures { IfOk result (λ text. text ≡ array_text readings.now) }
{
    let mut array = Text::new(alloc);
    array.push(b'[')?;
    write_rows(readings, &mut array)?;
    array.push(b']')?;
    Ok(array)
}

/// Adds readings with commas between.
fn write_rows(readings: &[Reading], out: &mut Text) -> Result<(), NoMemory>
    ensures { OnOk result (out.new ≡ out.old ++ rows_text readings.now) }
{
    let [first, others @ ..] = readings else {
        return Ok(());
    };
    write_reading(first, out)?;
    write_others(others, out)
}

/// Adds readings that stand behind others.
fn write_others(readings: &[Reading], out: &mut Text) -> Result<(), NoMemory>
    ensures { OnOk result (out.new ≡ out.old ++ flat_map further_text readings.now) }
{
    for reading in readings {
        write_further(reading, out)?;
    }
    Ok(())
}

/// Adds a reading that stands behind others.
fn write_further(reading: &Reading, out: &mut Text) -> Result<(), NoMemory>
    ensures { OnOk result (out.new ≡ out.old ++ further_text reading.now) }
{
    out.push(b',')?;
    write_reading(reading, out)
}

/// Adds a reading.
fn write_reading(reading: &Reading, out: &mut Text) -> Result<(), NoMemory>
    ensures { OnOk result (out.new ≡ out.old ++ reading_text reading.now) }
{
    out.push_slice(b"[\"")?;
    write_instant(reading.at, out)?;
    out.push_slice(b"\",\"")?;
    write_micro(reading.raw, out)?;
    out.push_slice(b"\"]")
}

/// The edit by which a person puts an array of readings at a site.
fn body_of(alloc: Global, by: &[u8], site: &[u8], array: &[u8]) -> Result<Text, NoMemory>
    ensures { IfOk result (λ text. text ≡ body_text by.now site.now array.now) }
{
    let mut body = Text::new(alloc);
    body.push_slice(b"{\"kind\":\"PutReadings\",\"by\":\"")?;
    body.push_slice(by)?;
    body.push_slice(b"\",\"ref\":\"bring-")?;
    body.push_number(content_digest(by, site, array))?;
    body.push_slice(b"\",\"site\":\"")?;
    body.push_slice(site)?;
    body.push_slice(b"\",\"readings\":")?;
    body.push_slice(array)?;
    body.push(b'}')?;
    Ok(body)
}

/// The number that is made of what an edit puts.
fn content_digest(by: &[u8], site: &[u8], array: &[u8]) -> u64
    ensures { result ≡ content_digest by.now site.now array.now }
{
    digest_from(digest_from(digest_from(0, by), site), array)
}

/// Adds a request with a body.
fn write_posted(body: &[u8], out: &mut Text) -> Result<(), NoMemory>
    ensures { OnOk result (out.new ≡ out.old ++ posted body.now) }
{
    out.push_slice(b"POST /edits HTTP/1.1\r\nContent-Length: ")?;
    out.push_number(body.len() as u64)?;
    out.push_slice(b"\r\n\r\n")?;
    out.push_slice(body)
}
