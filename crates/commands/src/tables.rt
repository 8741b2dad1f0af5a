//! `daily` and `water`: the daily values of an office, and the table of a water year, over the journal under a name.

ghost use Rattle.std.specs.Prelude.{◌≡◌, IfOk, IsErr};
ghost use Rattle.command_words.specs.Commands.{daily_asked, water_asked};
ghost use Rattle.command_words.specs.Laws.{CanBeAsked};
ghost use Rattle.command_words.specs.Words.{Water};
ghost use Rattle.commands.specs.Opening.{Carries, RunsOver};
ghost use Rattle.commands.specs.Tables.{IsTableWritten, daily_written, water_written};
ghost use Rattle.commands.specs.Worlds.{shelf, sink_told};
ghost use Rattle.table_writing.specs.Ends.{TableCause};

use crate::endings::Ending;
use crate::opening::{close_office, open_office};
use command_words::{DailyOrder, WaterOrder};
use devices::{Cabinet, Sink};
use journal::OpenFault;
use std::alloc::Global;
use table_writing::{TableEnd, write_daily_values, write_water_year};

impl From<TableEnd> for Ending {
    ghost use Rattle.std.specs.Prelude.{◌≡◌};
    ghost use Rattle.commands.specs.Tables.{table_ending};

    ghost from_gives = { λ end ending. ending ≡ table_ending end };

    fn from(end: TableEnd) -> Ending {
        match end {
            TableEnd::Done => Ending::Done,
            TableEnd::OutputFault => Ending::OutputFault,
            TableEnd::NoMemory => Ending::NoMemory,
        }
    }
}

impl From<Result<TableEnd, OpenFault>> for Ending {
    ghost use Rattle.std.specs.Prelude.{◌≡◌};
    ghost use Rattle.commands.specs.Opening.{ending_over};
    ghost use Rattle.commands.specs.Tables.{table_ending};

    ghost from_gives = { λ end ending. ending ≡ ending_over table_ending end };

    fn from(end: Result<TableEnd, OpenFault>) -> Ending {
        match end {
            Ok(end) => Ending::from(end),
            Err(why) => Ending::from(why),
        }
    }
}

/// Writes the daily values of a site, over the journal under a name.
pub(crate) fn write_daily<C: Cabinet, K: Sink>(
    alloc: Global,
    cabinet: &mut C,
    order: &DailyOrder<'_>,
    output: &mut K,
) -> Result<TableEnd, OpenFault>
    ensures over { RunsOver C.Disk.Disk order.now.journal.now (Carries C.Disk.Disk)
        (IsTableWritten order.now.turns (daily_written (daily_asked order.now)) (sink_told K.Sink output.old) (sink_told K.Sink output.new)) result
        (shelf C.Cabinet cabinet.old) (shelf C.Cabinet cabinet.new) }
    ensures cause { IfOk result (λ end. TableCause end (K.faults output.old) (K.faults output.new)) }
    ensures unopened { IsErr result → output.new ≡ output.old }
    ensures unwritten { IfOk result (λ end. end ≡ TableEnd.NoMemory → output.new ≡ output.old) }
{
    let mut office = open_office(alloc, cabinet, order.journal)?;
    let end = write_daily_values(
        alloc,
        &mut office,
        order.site,
        order.first,
        order.last,
        order.turns,
        output,
    );
    close_office(cabinet, order.journal, office);
    Ok(end)
}

/// Writes the table of a water year of a site, over the journal under a name.
pub(crate) fn write_water<C: Cabinet, K: Sink>(
    alloc: Global,
    cabinet: &mut C,
    order: &WaterOrder<'_>,
    output: &mut K,
) -> Result<TableEnd, OpenFault>
    requires { CanBeAsked (Water (water_asked order.now)) }
    ensures over { RunsOver C.Disk.Disk order.now.journal.now (Carries C.Disk.Disk)
        (IsTableWritten order.now.turns (water_written (water_asked order.now)) (sink_told K.Sink output.old) (sink_told K.Sink output.new)) result
        (shelf C.Cabinet cabinet.old) (shelf C.Cabinet cabinet.new) }
    ensures cause { IfOk result (λ end. TableCause end (K.faults output.old) (K.faults output.new)) }
    ensures unopened { IsErr result → output.new ≡ output.old }
    ensures unwritten { IfOk result (λ end. end ≡ TableEnd.NoMemory → output.new ≡ output.old) }
{
    let mut office = open_office(alloc, cabinet, order.journal)?;
    let end = write_water_year(
        alloc,
        &mut office,
        order.site,
        order.year,
        order.turns,
        output,
    );
    close_office(cabinet, order.journal, office);
    Ok(end)
}
