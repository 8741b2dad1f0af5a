//! What is replied of a day.

ghost use Rattle.std.specs.Prelude.{◌≡◌, ◌++◌, take, length, OnOk, OnErr};
ghost use Rattle.http_api.specs.Days.{day_text, answer_members, discharge_in, discharge_members, extremes_members, figures_members, length_members, stage_members, published_or_null, status_member};
ghost use Rattle.http_api.specs.JsonTexts.{micro_or_null};

use crate::json_texts::{write_flag, write_micro_or_null};
use approval::Status;
use daily_values::{DayValue, Extremes, Figures};
use fixed_units::{Day, Micro, NoMemory, Published, Text, write_published};
use unit_discharge::Unit;

/// What is known of a day.
#[derive(Clone, Copy, Drop)]
pub enum DayAnswer<'a> {
    /// It awaits a publication behind this edit.
    Pending(u64),
    /// It was computed.
    Computed(&'a DayValue),
}

/// What is replied of a day.
#[derive(Drop)]
pub struct DayReply<'a> {
    /// The day.
    pub day: Day,
    /// What is known of it.
    pub answer: DayAnswer<'a>,
    /// How far it is approved.
    pub status: Status,
}

/// Adds the body for a day, of which a part may be added where memory runs out.
pub(crate) fn write_day_reply(day: &DayReply<'_>, out: &mut Text) -> Result<(), NoMemory>
    ensures ok { OnOk result (out.new ≡ out.old ++ day_text day.now) }
    ensures err { OnErr result (take (length out.old) out.new ≡ out.old) }
{
    write_answer(&day.answer, out)?;
    write_status(&day.status, out)
}

/// Adds the members before the status, of which a part may be added where memory runs out.
fn write_answer(answer: &DayAnswer<'_>, out: &mut Text) -> Result<(), NoMemory>
    ensures ok { OnOk result (out.new ≡ out.old ++ answer_members answer.now) }
    ensures err { OnErr result (take (length out.old) out.new ≡ out.old) }
{
    match answer {
        DayAnswer::Pending(edit) => {
            out.push_slice(b"{\"answer\":\"pending\",\"edit\":")?;
            out.push_number(*edit)
        }
        DayAnswer::Computed(DayValue::Empty) => {
            out.push_slice(b"{\"answer\":\"computed\",\"empty\":true")
        }
        DayAnswer::Computed(DayValue::Day(figures)) => write_figures(figures, out),
    }
}

/// Adds the last member and the end of the body, of which a part may be added where memory runs out.
fn write_status(status: &Status, out: &mut Text) -> Result<(), NoMemory>
    ensures ok { OnOk result (out.new ≡ out.old ++ status_member status.now) }
    ensures err { OnErr result (take (length out.old) out.new ≡ out.old) }
{
    out.push_slice(b",\"status\":\"")?;
    out.push_slice(status.name())?;
    out.push_slice(b"\"}")
}

/// Adds the members of a day with figures, of which a part may be added where memory runs out.
fn write_figures(figures: &Figures, out: &mut Text) -> Result<(), NoMemory>
    ensures ok { OnOk result (out.new ≡ out.old ++ figures_members figures.now) }
    ensures err { OnErr result (take (length out.old) out.new ≡ out.old) }
{
    write_discharge(figures.discharge().covered, figures.discharge_text(), out)?;
    write_length(figures.estimate().is_some(), figures.length(), out)?;
    write_stage(&figures.extremes(), figures.stage_text(), out)
}

/// Adds the members up to the discharge, of which a part may be added where memory runs out.
fn write_discharge(
    covered: u32,
    discharge: Option<Published>,
    out: &mut Text,
) -> Result<(), NoMemory>
    ensures ok { OnOk result (out.new ≡ out.old ++ discharge_members covered discharge) }
    ensures err { OnErr result (take (length out.old) out.new ≡ out.old) }
{
    out.push_slice(b"{\"answer\":\"computed\",\"covered\":")?;
    out.push_number(u64::from(covered))?;
    out.push_slice(b",\"discharge\":")?;
    write_text_or_null(discharge, out)
}

/// Adds the members from the discharge to the length, of which a part may be added where memory runs out.
fn write_length(estimated: bool, seconds: u32, out: &mut Text) -> Result<(), NoMemory>
    ensures ok { OnOk result (out.new ≡ out.old ++ length_members estimated seconds) }
    ensures err { OnErr result (take (length out.old) out.new ≡ out.old) }
{
    out.push_slice(b",\"estimated\":")?;
    write_flag(estimated, out)?;
    out.push_slice(b",\"length\":")?;
    out.push_number(u64::from(seconds))
}

/// Adds the members behind the length, of which a part may be added where memory runs out.
fn write_stage(
    extremes: &Extremes,
    stage: Option<Published>,
    out: &mut Text,
) -> Result<(), NoMemory>
    ensures ok { OnOk result (out.new ≡ out.old ++ stage_members extremes.now stage) }
    ensures err { OnErr result (take (length out.old) out.new ≡ out.old) }
{
    write_extremes(extremes, out)?;
    out.push_slice(b",\"stage\":")?;
    write_text_or_null(stage, out)
}

/// Adds the members of the extremes, of which a part may be added where memory runs out.
#[tactic(auto, unfolding(crate::specs::Days::extremes_members))]
fn write_extremes(extremes: &Extremes, out: &mut Text) -> Result<(), NoMemory>
    ensures ok { OnOk result (out.new ≡ out.old ++ extremes_members extremes.now) }
    ensures err { OnErr result (take (length out.old) out.new ≡ out.old) }
{
    write_extreme(b",\"max\":", extremes.max_discharge, out)?;
    write_extreme(b",\"min\":", extremes.min_discharge, out)
}

/// Adds the discharge of an extreme behind the name of its member, of which a part may be added where memory runs out.
fn write_extreme(before: &[u8], extreme: Option<Unit>, out: &mut Text) -> Result<(), NoMemory>
    ensures ok { OnOk result (out.new ≡ out.old ++ (before.now ++ micro_or_null (discharge_in extreme))) }
    ensures err { OnErr result (take (length out.old) out.new ≡ out.old) }
{
    out.push_slice(before)?;
    write_micro_or_null(discharge_in(extreme), out)
}

/// The discharge of an extreme, where there is one.
fn discharge_in(extreme: Option<Unit>) -> Option<Micro>
    ensures { result ≡ discharge_in extreme }
{
    extreme?.discharge.ok()
}

/// Adds a published value in quotes, or null, of which a part may be added where memory runs out.
fn write_text_or_null(value: Option<Published>, out: &mut Text) -> Result<(), NoMemory>
    ensures ok { OnOk result (out.new ≡ out.old ++ published_or_null value) }
    ensures err { OnErr result (take (length out.old) out.new ≡ out.old) }
{
    match value {
        Some(value) => {
            out.push_slice(b"\"")?;
            write_published(value, out)?;
            out.push_slice(b"\"")
        }
        None => out.push_slice(b"null"),
    }
}
