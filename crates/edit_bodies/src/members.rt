//! The members of an edit's body, and how they are taken out of an object.

ghost use Rattle.std.specs.Prelude.{◌≡◌, option_map};
ghost use Rattle.edit_bodies.specs.Members.{member_text, without, is_none_left};
ghost use Rattle.edit_bodies.specs.Trees.{IsFirstPlace, left, stated};
ghost use Rattle.serde_json.specs.Find.{get_member};

use json::Value;
use std::fmt;

/// A member of the body of an edit, or any further one.
#[derive(Clone, Copy, Debug, PartialEq, Eq)]
pub enum Member {
    /// What the edit does.
    Kind,
    /// The initials of the person who makes it.
    By,
    /// The reference under which it is sent.
    Ref,
    /// The site whose record it changes.
    Site,
    /// What the station is called.
    Name,
    /// The station's zone.
    Zone,
    /// The station's gap tolerance.
    Gap,
    /// The station's rounding array of stages.
    StageArray,
    /// The station's rounding array of discharges.
    DischargeArray,
    /// The readings that are put.
    Readings,
    /// The last instant of a span, or its last day.
    To,
    /// The flag of readings.
    Flag,
    /// The number of a correction set.
    Set,
    /// The instant of an entry.
    At,
    /// The points of an entry's curve.
    Points,
    /// Whether an entry goes over to the next one in a straight line.
    Prorate,
    /// The number of a rating.
    Rating,
    /// The rows of a rating.
    Rows,
    /// The start of a period or of a span, or the first day of one.
    From,
    /// The end of a period.
    Until,
    /// The day of an estimate, or the first one of an edition.
    Day,
    /// The number of a field measurement.
    Number,
    /// The gage height of a field measurement.
    Gage,
    /// The discharge of an estimate or of a field measurement.
    Discharge,
    /// The grade of a field measurement.
    Grade,
    /// What is decided on the days of a span.
    Decision,
    /// The least cover of an edition.
    Least,
    /// Why the edit is made, which may be missing.
    Comment,
    /// A member that no such edit has.
    Further,
}

impl Member {
    /// The name of the member as a body and a refusal have it: `?` of a further one.
    pub fn text(&self) -> &'static str
        ensures { result.now ≡ member_text self.now }
    {
        match self {
            Member::Kind => "kind",
            Member::By => "by",
            Member::Ref => "ref",
            Member::Site => "site",
            Member::Name => "name",
            Member::Zone => "zone",
            Member::Gap => "gap",
            Member::StageArray => "stage_array",
            Member::DischargeArray => "discharge_array",
            Member::Readings => "readings",
            Member::To => "to",
            Member::Flag => "flag",
            Member::Set => "set",
            Member::At => "at",
            Member::Points => "points",
            Member::Prorate => "prorate",
            Member::Rating => "rating",
            Member::Rows => "rows",
            Member::From => "from",
            Member::Until => "until",
            Member::Day => "day",
            Member::Number => "number",
            Member::Gage => "gage",
            Member::Discharge => "discharge",
            Member::Grade => "grade",
            Member::Decision => "decision",
            Member::Least => "least",
            Member::Comment => "comment",
            Member::Further => "?",
        }
    }
}

impl fmt::Display for Member {
    fn fmt<W: fmt::Write>(&self, f: &mut fmt::Formatter<W>) -> fmt::Result {
        f.write_str(self.text())
    }
}

/// The members of an object that were not taken out yet, as they stand in the text.
pub(crate) type Fields<'a> = Vec<(&'a str, Value<'a>)>;

/// The value of a member, the last where it comes twice, or `None` exactly where it is missing.
pub(crate) fn value_at<'v, 'a>(fields: &'v Fields<'a>, member: Member) -> Option<&'v Value<'a>>
    ensures { option_map (λ value. stated value.now) result ≡ get_member (member_text member) (left fields.now) }
{
    let name = member.text();
    let mut found = None;
    for field in fields {
        if field.0 == name {
            found = Some(&field.1);
        }
    }
    found
}

/// Takes out a member, each time that it comes.
pub(crate) fn remove(fields: &mut Fields<'_>, member: Member)
    ensures { left fields.new ≡ without (member_text member) (left fields.old) }
{
    let Some(place) = place_of(fields, member) else {
        return;
    };
    let _field = fields.remove(place);
    if place_of(fields, member).is_some() {
        remove_each(fields, member);
    }
}

/// The first place of a member, or `None` exactly where it is missing.
fn place_of(fields: &Fields<'_>, member: Member) -> Option<usize>
    ensures { IsFirstPlace (member_text member) fields.now.items result }
{
    let name = member.text();
    fields.iter().position(|field| field.0 == name)
}

/// Takes out a member, wherever it stands.
fn remove_each(fields: &mut Fields<'_>, member: Member)
    ensures { left fields.new ≡ without (member_text member) (left fields.old) }
{
    let name = member.text();
    fields.retain(|field| field.0 != name);
}

/// Whether no member is left.
pub(crate) fn is_none_left(fields: &Fields<'_>) -> bool
    ensures { result ≡ is_none_left (left fields.now) }
{
    fields.is_empty()
}
