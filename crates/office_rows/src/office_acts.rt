//! Acts on an office over a disk in memory: edits, and its days computed by claims, looks, turns and settlements.

ghost use Rattle.std.specs.Prelude.{◌≡◌, ◌<◌};

use crate::blocks::Bench;
use crate::cells::take;
use crate::counted::computed;
use crate::sent::{POTOMAC, day, edit, site};
use crate::told::{
    push_job, push_next, push_number_behind, push_outcome, push_refusal, push_site_and_day,
};
use chronicle::Steps;
use devices::MemoryDisk;
use edits::Edit;
use fixed_units::{Day, NoMemory, Site, Text};
use office::{Accepted, Answer, Office};
use office_inputs::Refusal;
use recompute::Job;
use row_lines::parted;
use site_texts::write_site;
use std::alloc::Global;
use std::marker::Brand;
use std::sync::ledger::{Blank, Ledger};

/// An office, and the jobs at hand.
#[derive(Drop)]
pub struct OfficeBench {
    pub office: Office<MemoryDisk>,
    pub jobs: Vec<Job>,
}

impl Bench for OfficeBench {
    fn act(
        &mut self,
        alloc: Global,
        _book: &str,
        act: &str,
        came: &mut Text,
    ) -> Result<(), NoMemory> {
        let (word, rest) = parted(act);
        match word {
            "claim" => take(&mut self.jobs, self.office.claim(), came),
            "take-look" => take(&mut self.jobs, self.office.after(None), came),
            "publish" => publish(&mut self.office, self.jobs.pop(), came),
            "publish-first" => publish(&mut self.office, first(&mut self.jobs), came),
            "look" => look(&self.office, rest, came),
            "answer" => answer(&self.office, rest, came),
            "edit-at" => edit_at(&self.office, rest, came),
            _ => act_alone(alloc, &mut self.office, act, came),
        }
    }
}

/// Acts in which no job is at hand.
fn act_alone(
    alloc: Global,
    office: &mut Office<MemoryDisk>,
    act: &str,
    came: &mut Text,
) -> Result<(), NoMemory> {
    match act {
        "open" => came.push_slice(b"opened"),
        "turn" => push_turned(office.turn()?, came),
        "settle" => came.push_number(office.settle()?),
        "counts" => counts(office, came),
        _ => send(alloc, office, act, came),
    }
}

/// `counts`: how many events there are, how many edits were accepted and how many days are pending.
fn counts(office: &Office<MemoryDisk>, came: &mut Text) -> Result<(), NoMemory> {
    came.push_number(office.events())?;
    push_next(office.edits(), came)?;
    push_next(office.pending(), came)
}

/// `turn`: the first pending day whose claim is not out is computed and published.
fn push_turned(turned: Option<(Site, Day)>, came: &mut Text) -> Result<(), NoMemory> {
    match turned {
        Some((site, day)) => push_site_and_day(site, day, came),
        None => came.push_slice(b"none"),
    }
}

/// The job that came to hand first, which is no longer there.
fn first(jobs: &mut Vec<Job>) -> Option<Job> {
    if jobs.is_empty() {
        None
    } else {
        Some(jobs.remove(0))
    }
}

/// `publish`: the job that came to hand last is computed and published. `publish-first`: the one that came first.
fn publish(
    office: &mut Office<MemoryDisk>,
    job: Option<Job>,
    came: &mut Text,
) -> Result<(), NoMemory> {
    match job {
        Some(job) => push_outcome(office.publish(computed(job)), came),
        None => came.push_slice(b"no job"),
    }
}

/// `look`: the first pending day, which comes not to hand. `look DAY`: the first behind that day.
fn look(office: &Office<MemoryDisk>, rest: &str, came: &mut Text) -> Result<(), NoMemory> {
    if rest.is_empty() {
        return push_found(office.after(None), came);
    }
    match (site(POTOMAC), day(rest)) {
        (Some(site), Some(day)) => push_found(office.after(Some((site, day))), came),
        _ => came.push_slice(b"not well formed"),
    }
}

fn push_found(found: Result<Option<Job>, NoMemory>, came: &mut Text) -> Result<(), NoMemory> {
    match found {
        Ok(Some(job)) => push_job(&job, came),
        Ok(None) => came.push_slice(b"none"),
        Err(NoMemory) => Err(NoMemory),
    }
}

/// `edit-at NUMBER`: who made the accepted edit of this number, under which reference and of which site, and its comment if it has one.
fn edit_at(office: &Office<MemoryDisk>, rest: &str, came: &mut Text) -> Result<(), NoMemory> {
    match rest.parse() {
        Ok(number) => push_edit(office.edit_at(number), came),
        Err(_) => came.push_slice(b"not well formed"),
    }
}

fn push_edit(edit: Option<&Edit>, came: &mut Text) -> Result<(), NoMemory> {
    match edit {
        Some(edit) => {
            push_signed(edit, came)?;
            push_comment(edit.comment.as_slice(), came)
        }
        None => came.push_slice(b"none"),
    }
}

fn push_signed(edit: &Edit, came: &mut Text) -> Result<(), NoMemory> {
    came.push_slice(edit.by.as_slice())?;
    came.push_slice(b" ")?;
    came.push_slice(edit.reference.as_slice())?;
    came.push_slice(b" ")?;
    write_site(edit.site, came)
}

fn push_comment(comment: &[u8], came: &mut Text) -> Result<(), NoMemory> {
    if comment.is_empty() {
        return Ok(());
    }
    came.push_slice(b" # ")?;
    came.push_slice(comment)
}

/// `answer DAY`: what is answered for a day.
fn answer(office: &Office<MemoryDisk>, rest: &str, came: &mut Text) -> Result<(), NoMemory> {
    match (site(POTOMAC), day(rest)) {
        (Some(site), Some(day)) => push_answer(office.answer(site, day), came),
        _ => came.push_slice(b"not well formed"),
    }
}

fn push_answer(answer: Answer<'_>, came: &mut Text) -> Result<(), NoMemory> {
    match answer {
        Answer::NoStation => came.push_slice(b"no station"),
        Answer::Pending(edit) => push_number_behind(b"pending ", edit, came),
        Answer::Computed(_) => came.push_slice(b"computed"),
    }
}

fn send(
    alloc: Global,
    office: &mut Office<MemoryDisk>,
    act: &str,
    came: &mut Text,
) -> Result<(), NoMemory> {
    match edit(alloc, act) {
        Some(edit) => push_told(tell(office, Box::into_inner(edit)), came),
        None => came.push_slice(b"not well formed"),
    }
}

fn push_told(told: Result<Accepted, Refusal>, came: &mut Text) -> Result<(), NoMemory> {
    match told {
        Ok(accepted) => push_accepted(accepted, came),
        Err(refusal) => push_refusal(refusal, came),
    }
}

fn push_accepted(accepted: Accepted, came: &mut Text) -> Result<(), NoMemory> {
    let said: &[u8] = if accepted.repeated {
        b"repeated "
    } else {
        b"kept "
    };
    push_number_behind(said, accepted.number, came)
}

fn tell(office: &mut Office<MemoryDisk>, edit: Edit) -> Result<Accepted, Refusal> {
    tell_counted::<Brand>(office, edit, Blank::new(1))
}

fn tell_counted<L: Ledger>(
    office: &mut Office<MemoryDisk>,
    edit: Edit,
    blank: Blank,
) -> Result<Accepted, Refusal>
    requires name { blank.name ≡ L.name }
    requires parts { blank.parts ≡ L.parts }
    requires some { 0 < blank.parts }
{
    let mut steps = Steps::<L>::new(blank);
    office.edit(edit, &mut steps)
}
