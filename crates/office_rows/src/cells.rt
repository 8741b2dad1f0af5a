//! Acts on cells and the inputs that their jobs are made of: edits that are accepted under a number as an office accepts them, days that
//! are marked alone, and jobs, which are at hand in the order in which they were made.

ghost use Rattle.std.specs.Prelude.{◌≡◌, ◌<ℤ◌, None, AllPairs};
ghost use Rattle.office_inputs.specs.Kept.{in_force};
ghost use Rattle.office_inputs.specs.Refusals.{refusal_of};

use crate::blocks::{Bench, play_on};
use crate::counted::{computed, reached};
use crate::sent::{POTOMAC, day, days, edit, site};
use crate::told::{push_job, push_next, push_outcome, push_refusal};
use daily_values::DayValue;
use edits::Edit;
use fixed_units::{Day, NoMemory, Published, Site, Text, write_published};
use office_inputs::{Inputs, Limits};
use recompute::{Cells, Job};
use row_lines::{Ended, parted};
use std::alloc::Global;

/// Cells, inputs, and the jobs at hand.
#[derive(Drop)]
pub struct CellBench {
    cells: Cells,
    inputs: Inputs,
    jobs: Vec<Job>,
}

/// Plays a block on no cells.
pub fn play<'a>(alloc: Global, block: &'a str, came: &mut Text) -> Ended<'a> {
    let mut bench = CellBench {
        cells: Cells::new(alloc),
        inputs: Inputs::new(alloc, Limits::usual()),
        jobs: Vec::new(alloc),
    };
    play_on(alloc, &mut bench, "", block, came)
}

impl Bench for CellBench {
    fn act(
        &mut self,
        alloc: Global,
        _book: &str,
        act: &str,
        came: &mut Text,
    ) -> Result<(), NoMemory> {
        let (word, rest) = parted(act);
        match word {
            "accept" => accept(alloc, &mut self.cells, &mut self.inputs, rest, came),
            "mark" => mark_two(&mut self.cells, rest, came),
            "claim" => take(&mut self.jobs, self.cells.claim(&self.inputs), came),
            "look" => look(&self.cells, &self.inputs, &mut self.jobs, rest, came),
            "publish" => publish(&mut self.cells, &self.inputs, self.jobs.pop(), came),
            "anew" => self.begin_anew(alloc, came),
            _ => ask(&self.cells, word, rest, came),
        }
    }
}

impl CellBench {
    /// `anew`: no cells and no inputs; the jobs stay at hand.
    fn begin_anew(&mut self, alloc: Global, came: &mut Text) -> Result<(), NoMemory> {
        self.cells = Cells::new(alloc);
        self.inputs = Inputs::new(alloc, Limits::usual());
        came.push_slice(b"done")
    }
}

/// Has a job at hand, if one was found, and tells it.
pub fn take(
    jobs: &mut Vec<Job>,
    found: Result<Option<Job>, NoMemory>,
    came: &mut Text,
) -> Result<(), NoMemory> {
    match found {
        Ok(Some(job)) => keep(jobs, job, came),
        Ok(None) => came.push_slice(b"none"),
        Err(NoMemory) => Err(NoMemory),
    }
}

fn keep(jobs: &mut Vec<Job>, job: Job, came: &mut Text) -> Result<(), NoMemory> {
    let told = push_job(&job, came);
    match jobs.push(job) {
        Ok(()) => told,
        Err(_) => Err(NoMemory),
    }
}

/// `look`: the first pending day. `look SITE DAY`: the first behind that day.
fn look(
    cells: &Cells,
    inputs: &Inputs,
    jobs: &mut Vec<Job>,
    rest: &str,
    came: &mut Text,
) -> Result<(), NoMemory> {
    if rest.is_empty() {
        return take(jobs, cells.after(inputs, None), came);
    }
    match site_and_day(rest) {
        Some(last) => take(jobs, cells.after(inputs, Some(last)), came),
        None => came.push_slice(b"not well formed"),
    }
}

fn site_and_day(text: &str) -> Option<(Site, Day)> {
    let (place, of) = parted(text);
    Some((site(place)?, day(of)?))
}

/// `publish`: the job that came to hand last is computed and published.
fn publish(
    cells: &mut Cells,
    inputs: &Inputs,
    job: Option<Job>,
    came: &mut Text,
) -> Result<(), NoMemory> {
    match job {
        Some(job) => push_outcome(cells.publish(computed(job), inputs), came),
        None => came.push_slice(b"no job"),
    }
}

/// `accept NUMBER EDIT`: the days that it changes await this number, and it is in force.
fn accept(
    alloc: Global,
    cells: &mut Cells,
    inputs: &mut Inputs,
    rest: &str,
    came: &mut Text,
) -> Result<(), NoMemory> {
    let (number, act) = parted(rest);
    match (number.parse(), edit(alloc, act)) {
        (Ok(number), Some(edit)) => say(alloc, cells, inputs, (number, &edit), came),
        _ => came.push_slice(b"not well formed"),
    }
}

fn say(
    alloc: Global,
    cells: &mut Cells,
    inputs: &mut Inputs,
    (number, edit): (u64, &Edit),
    came: &mut Text,
) -> Result<(), NoMemory> {
    match inputs.refusal(edit) {
        Some(refusal) => push_refusal(refusal, came),
        None => apply(alloc, cells, inputs, number, edit, came),
    }
}

fn apply(
    alloc: Global,
    cells: &mut Cells,
    inputs: &mut Inputs,
    number: u64,
    edit: &Edit,
    came: &mut Text,
) -> Result<(), NoMemory>
    requires { refusal_of inputs.old.limits (in_force inputs.old) edit.now ≡ None }
{
    mark_reached(alloc, cells, inputs, number, edit)?;
    inputs.prepare(edit)?;
    inputs.apply(edit);
    came.push_slice(b"done")
}

fn mark_reached(
    alloc: Global,
    cells: &mut Cells,
    inputs: &Inputs,
    number: u64,
    edit: &Edit,
) -> Result<(), NoMemory>
    requires { refusal_of inputs.now.limits (in_force inputs.now) edit.now ≡ None }
{
    match reached(alloc, inputs, edit) {
        Ok(days) => mark(cells, edit.site, days.as_slice(), number),
        Err(NoMemory) => Err(NoMemory),
    }
}

/// Makes days that rise await an edit, whose number is not 0.
fn mark(cells: &mut Cells, site: Site, changed: &[Day], edit: u64) -> Result<(), NoMemory>
    requires { AllPairs (λ a b. a <ℤ b) changed.now }
{
    if edit == 0 {
        return Err(NoMemory);
    }
    cells.prepare(site, changed)?;
    cells.mark(site, changed, edit);
    Ok(())
}

/// `mark SITE NUMBER DAY DAY`: two days of a site await the edit of a number.
fn mark_two(cells: &mut Cells, rest: &str, came: &mut Text) -> Result<(), NoMemory> {
    let (place, more) = parted(rest);
    let (number, span) = parted(more);
    match (site(place), number.parse(), days(span)) {
        (Some(site), Ok(number), Some(span)) => mark_span(cells, site, span, number, came),
        _ => came.push_slice(b"not well formed"),
    }
}

fn mark_span(
    cells: &mut Cells,
    site: Site,
    (first, last): (Day, Day),
    number: u64,
    came: &mut Text,
) -> Result<(), NoMemory> {
    if first >= last {
        return came.push_slice(b"not well formed");
    }
    mark(cells, site, &[first, last], number)?;
    came.push_slice(b"done")
}

/// What is asked of the cells.
fn ask(cells: &Cells, word: &str, rest: &str, came: &mut Text) -> Result<(), NoMemory> {
    match (word, site(POTOMAC)) {
        ("awaited", Some(site)) => awaited(cells, site, rest, came),
        ("mean", Some(site)) => mean(cells, site, rest, came),
        ("cells-with", Some(site)) => cells_with(cells, site, rest, came),
        ("counts", _) => push_counts(cells.pending(), cells.cells(), came),
        _ => came.push_slice(b"no such act"),
    }
}

/// `awaited DAY`: the edit that a day of the station awaits.
fn awaited(cells: &Cells, site: Site, text: &str, came: &mut Text) -> Result<(), NoMemory> {
    match day(text) {
        Some(day) => push_awaited(cells.awaited(site, day), came),
        None => came.push_slice(b"not well formed"),
    }
}

fn push_awaited(edit: Option<u64>, came: &mut Text) -> Result<(), NoMemory> {
    match edit {
        Some(edit) => came.push_number(edit),
        None => came.push_slice(b"none"),
    }
}

/// `mean DAY`: the mean stage of a day of the station, as it was published last.
fn mean(cells: &Cells, site: Site, text: &str, came: &mut Text) -> Result<(), NoMemory> {
    match day(text) {
        Some(day) => push_mean(cells.value(site, day), came),
        None => came.push_slice(b"not well formed"),
    }
}

fn push_mean(value: &DayValue, came: &mut Text) -> Result<(), NoMemory> {
    match value {
        DayValue::Day(figures) => push_stage(figures.stage_text(), came),
        DayValue::Empty => came.push_slice(b"none"),
    }
}

fn push_stage(stage: Option<Published>, came: &mut Text) -> Result<(), NoMemory> {
    match stage {
        Some(stage) => write_published(stage, came),
        None => came.push_slice(b"none"),
    }
}

/// `cells-with DAY DAY`: how many cells there would be with a mark of two days of the station.
fn cells_with(cells: &Cells, site: Site, text: &str, came: &mut Text) -> Result<(), NoMemory> {
    match days(text) {
        Some((first, last)) => came.push_number(cells.cells_after(site, &[first, last])),
        None => came.push_slice(b"not well formed"),
    }
}

/// `counts`: how many days are pending, and how many cells there are.
fn push_counts(pending: u64, cells: u64, came: &mut Text) -> Result<(), NoMemory> {
    came.push_number(pending)?;
    push_next(cells, came)
}
