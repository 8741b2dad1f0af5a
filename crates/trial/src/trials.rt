//! A trial whole: an office over a new journal on a disk in memory, the orders asked of it, and its text.

ghost use Rattle.std.specs.Prelude.{◌≡◌, ◌+◌, ◌++◌, [], None, length, IfOk, OnOk};
ghost use Rattle.history.specs.Accepted.{accepted};
ghost use Rattle.history.specs.After.{reopen};
ghost use Rattle.history.specs.Awaited.{pending_days};
ghost use Rattle.office.specs.Openings.{IsOpened};
ghost use Rattle.trial.specs.Figures.{IsTrialText, publications, text_of};
ghost use Rattle.office_inputs.specs.Usual.{usual};
ghost use Rattle.records.specs.declared.formats.Format.TheVariants.{Second};
ghost use Rattle.trial.specs.Trials.{beginning};

use crate::disks::ScratchDisk;
use crate::figures::write_figure;
use crate::runs::Run;
use devices::Disk;
use fixed_units::{NoMemory, Text};
use office::Office;
use office_inputs::Limits;
use records::Format;
use std::alloc::Global;

/// The sum of the mean discharges is told modulo this.
const TOTALS: u64 = 1_000_000_000;

/// Makes the trial of a number: a new journal on a disk in memory, an office over it, all orders asked of it in order. The text has its six
/// figures, each on a line.
///
/// # Errors
///
/// [`NoMemory`]. A fault of the trial's disk is told as that too, and so is a new journal with a record or of the first format: none of these
/// happens where there is memory.
pub fn run_trial(alloc: Global, number: u32) -> Result<Text, NoMemory>
    ensures { IfOk result (IsTrialText number) }
{
    let office = new_office(alloc)?;
    run_over(alloc, office, number)
}

/// An office over a new journal on a disk in memory, with the usual limits.
fn new_office(alloc: Global) -> Result<Office<ScratchDisk>, NoMemory>
    ensures { IfOk result (λ office. office.register.history ≡ reopen usual Second []) }
{
    let office = office_over(alloc, new_journal(alloc)?)?;
    // This does not happen: the journal is new, so no record was read, and of the second format. The disk tells no content, so the proof knows
    // it by this test alone.
    if office.events() > 0 {
        return Err(NoMemory);
    }
    match office.format() {
        Format::Second => Ok(office),
        Format::First => Err(NoMemory),
    }
}

/// A disk in memory with a new journal.
fn new_journal(alloc: Global) -> Result<ScratchDisk, NoMemory> {
    let mut disk = ScratchDisk::empty(alloc);
    match journal::init(&mut disk, Format::Second) {
        Ok(()) => Ok(disk),
        Err(_) => Err(NoMemory),
    }
}

/// An office over a journal that tells no content, with the usual limits.
fn office_over(alloc: Global, disk: ScratchDisk) -> Result<Office<ScratchDisk>, NoMemory>
    ensures { IfOk result (λ office. IsOpened None usual office.register) }
{
    match Office::open(alloc, disk, Limits::usual()) {
        Ok(office) => Ok(office),
        Err(_) => Err(NoMemory),
    }
}

/// The text of the trial of a number, whose orders are asked of an office over a new journal.
fn run_over<D: Disk + Drop>(alloc: Global, office: Office<D>, number: u32) -> Result<Text, NoMemory>
    requires { office.register.history ≡ reopen usual Second [] }
    ensures { IfOk result (IsTrialText number) }
{
    let mut run = Run::new(alloc, office);
    follow(alloc, &mut run, number)
}

/// The same, in a run of which nothing was asked.
fn follow<D: Disk>(alloc: Global, run: &mut Run<D>, number: u32) -> Result<Text, NoMemory>
    requires { run.old ≡ beginning }
    ensures { IfOk result (IsTrialText number) }
{
    run.follow_orders(number)?;
    let mut text = Text::new(alloc);
    write_figures(run, &mut text)?;
    Ok(text)
}

/// Adds the lines of the six figures of a run, of which nothing is pending.
fn write_figures<D: Disk>(run: &Run<D>, out: &mut Text) -> Result<(), NoMemory>
    requires settled { pending_days run.now.history.events ≡ [] }
    requires counted { length run.now.history.events ≡ length (accepted run.now.history.events) + publications run.now.history.events }
    ensures { OnOk result (out.new ≡ out.old ++ text_of run.now) }
{
    write_figure(b"stations", run.kept(), out)?;
    write_figure(b"edits", run.edits(), out)?;
    write_figure(b"locked", run.locked(), out)?;
    write_figure(b"published", run.events() - run.edits(), out)?;
    write_figure(b"approved", run.approved(), out)?;
    write_figure(b"total", run.total() % TOTALS, out)?;
    Ok(())
}
