//! The members of bodies, each read by its grammar as it is taken out of an object.

ghost use Rattle.std.specs.Prelude.{◌≡◌, IfOk, IfSome, option_and_then, option_map};
ghost use Rattle.edit_bodies.specs.Answers.{IsFound, IsTaken, IsTextTaken};
ghost use Rattle.edit_bodies.specs.Grammars.{array_of, by_of, gap_of, instant_of, kept_if, kept_within, name_of, reference_of, set_of, site_of, whole_of, zone_of};
ghost use Rattle.edit_bodies.specs.Members.{member_text, required};
ghost use Rattle.edit_bodies.specs.Texts.{is_name};
ghost use Rattle.edit_bodies.specs.Trees.{left, stated};
ghost use Rattle.edits.specs.Lawful.{IsGap, IsSetNumber, IsStationZone};
ghost use Rattle.edits.specs.Texts.{IsName};
ghost use Rattle.fixed_units.specs.Quantities.{IsStamp, most_gap};
ghost use Rattle.fixed_units.specs.RoundingArray.{IsRoundingArray};
ghost use Rattle.serde_json.specs.Find.{as_bool, as_str, get_member};

use crate::faults::BodyFault;
use crate::members::{Fields, Member, remove, value_at};
use crate::numbers::number_in;
use civil_days::read_instant;
use edits::{By, Name, Ref, is_gap, is_name, is_set_number, is_zone};
use fixed_units::{NoMemory, RoundingArray, Second, Site, Text};
use json::Value;
use site_texts::read_site;
use std::alloc::Global;

/// Takes out a string.
pub(crate) fn take_text<'a>(fields: &mut Fields<'a>, member: Member) -> Result<&'a str, BodyFault>
    ensures { IsTextTaken member fields.old result fields.new }
{
    let found = text_at(fields, member);
    remove(fields, member);
    found.ok_or(BodyFault::Body(member))
}

/// The string that a member has.
fn text_at<'a>(fields: &Fields<'a>, member: Member) -> Option<&'a str>
    ensures { option_map (λ text. text.now) result ≡ option_and_then as_str (get_member (member_text member) (left fields.now)) }
{
    value_at(fields, member)?.as_str()
}

/// Takes out the initials of the person who makes the edit.
pub(crate) fn take_by(fields: &mut Fields<'_>) -> Result<By, BodyFault>
    ensures { IsTaken (required Member.By by_of) fields.old result fields.new }
{
    let text = take_text(fields, Member::By)?;
    By::new(text.as_bytes()).ok_or(BodyFault::Body(Member::By))
}

/// Takes out the reference under which the edit is sent.
pub(crate) fn take_reference(fields: &mut Fields<'_>) -> Result<Ref, BodyFault>
    ensures { IsTaken (required Member.Ref reference_of) fields.old result fields.new }
{
    let text = take_text(fields, Member::Ref)?;
    Ref::new(text.as_bytes()).ok_or(BodyFault::Body(Member::Ref))
}

/// Takes out the site whose record the edit changes.
pub(crate) fn take_site(fields: &mut Fields<'_>) -> Result<Site, BodyFault>
    ensures { IsTaken (required Member.Site site_of) fields.old result fields.new }
{
    let text = take_text(fields, Member::Site)?;
    read_site(text.as_bytes()).ok_or(BodyFault::Body(Member::Site))
}

/// Takes out what the station is called.
pub(crate) fn take_name(alloc: Global, fields: &mut Fields<'_>) -> Result<Name, BodyFault>
    ensures read { IsTaken (required Member.Name name_of) fields.old result fields.new }
    ensures named { IfOk result IsName }
{
    let text = take_text(fields, Member::Name)?;
    own_name(alloc, text, Member::Name)
}

/// Takes out the text of the station's zone.
pub(crate) fn take_zone(alloc: Global, fields: &mut Fields<'_>) -> Result<Name, BodyFault>
    ensures read { IsTaken (required Member.Zone zone_of) fields.old result fields.new }
    ensures zone { IfOk result IsStationZone }
{
    let text = take_text(fields, Member::Zone)?;
    match is_zone(alloc, text.as_bytes()) {
        Ok(true) => own_name(alloc, text, Member::Zone),
        Ok(false) => Err(BodyFault::Body(Member::Zone)),
        Err(NoMemory) => Err(BodyFault::NoMemory),
    }
}

/// The name that a member states, which is copied only where it is one.
fn own_name(alloc: Global, text: &str, member: Member) -> Result<Name, BodyFault>
    ensures read { IsFound member (kept_if is_name text.now) result }
    ensures named { IfOk result IsName }
{
    if !is_name(text.as_bytes()) {
        return Err(BodyFault::Body(member));
    }
    let mut own = Text::new(alloc);
    match own.push_slice(text.as_bytes()) {
        Ok(()) => Name::new(own).ok_or(BodyFault::Body(member)),
        Err(NoMemory) => Err(BodyFault::NoMemory),
    }
}

/// Takes out a rounding array.
pub(crate) fn take_array(
    fields: &mut Fields<'_>,
    member: Member,
) -> Result<RoundingArray, BodyFault>
    ensures read { IsTaken (required member array_of) fields.old result fields.new }
    ensures array { IfOk result IsRoundingArray }
{
    let text = take_text(fields, member)?;
    RoundingArray::read(text.as_bytes()).ok_or(BodyFault::Body(member))
}

/// Takes out the gap tolerance in minutes.
pub(crate) fn take_gap(fields: &mut Fields<'_>) -> Result<u32, BodyFault>
    ensures read { IsTaken (required Member.Gap gap_of) fields.old result fields.new }
    ensures near { IfOk result IsGap }
{
    let found = gap_at(fields);
    remove(fields, Member::Gap);
    found.ok_or(BodyFault::Body(Member::Gap))
}

/// The gap tolerance that is there.
fn gap_at(fields: &Fields<'_>) -> Option<u32>
    ensures value { result ≡ option_and_then gap_of (get_member (member_text Member.Gap) (left fields.now)) }
    ensures near { IfSome result IsGap }
{
    gap_from(whole_in(value_at(fields, Member::Gap)?)?)
}

/// The gap tolerance of so many minutes, or `None` exactly where it is none.
fn gap_from(minutes: u64) -> Option<u32>
    ensures value { result ≡ kept_within 1 most_gap minutes }
    ensures near { IfSome result IsGap }
{
    let gap = u32::try_from(minutes).ok()?;
    if is_gap(gap) { Some(gap) } else { None }
}

/// Takes out the number of a correction set.
pub(crate) fn take_set(fields: &mut Fields<'_>) -> Result<u8, BodyFault>
    ensures read { IsTaken (required Member.Set set_of) fields.old result fields.new }
    ensures number { IfOk result IsSetNumber }
{
    let found = set_at(fields);
    remove(fields, Member::Set);
    found.ok_or(BodyFault::Body(Member::Set))
}

/// The number of a correction set that is there.
fn set_at(fields: &Fields<'_>) -> Option<u8>
    ensures value { result ≡ option_and_then set_of (get_member (member_text Member.Set) (left fields.now)) }
    ensures number { IfSome result IsSetNumber }
{
    set_from(whole_in(value_at(fields, Member::Set)?)?)
}

/// The correction set of this number, or `None` exactly where there is none.
fn set_from(number: u64) -> Option<u8>
    ensures value { result ≡ kept_within 1 3 number }
    ensures number { IfSome result IsSetNumber }
{
    let set = u8::try_from(number).ok()?;
    if is_set_number(set) { Some(set) } else { None }
}

/// The whole number that a value states.
pub(crate) fn whole_in(value: &Value<'_>) -> Option<u64>
    ensures { result ≡ whole_of (stated value.now) }
{
    number_in(value.as_number()?)?.as_u64()
}

/// Takes out an instant.
pub(crate) fn take_instant(fields: &mut Fields<'_>, member: Member) -> Result<Second, BodyFault>
    ensures read { IsTaken (required member instant_of) fields.old result fields.new }
    ensures stamp { IfOk result IsStamp }
{
    let text = take_text(fields, member)?;
    read_instant(text.as_bytes()).ok_or(BodyFault::Body(member))
}

/// Takes out whether an entry goes over to the next one in a straight line.
pub(crate) fn take_prorate(fields: &mut Fields<'_>) -> Result<bool, BodyFault>
    ensures { IsTaken (required Member.Prorate as_bool) fields.old result fields.new }
{
    let found = prorate_at(fields);
    remove(fields, Member::Prorate);
    found.ok_or(BodyFault::Body(Member::Prorate))
}

/// Whether it does, if it is said.
fn prorate_at(fields: &Fields<'_>) -> Option<bool>
    ensures { result ≡ option_and_then as_bool (get_member (member_text Member.Prorate) (left fields.now)) }
{
    value_at(fields, Member::Prorate)?.as_bool()
}
