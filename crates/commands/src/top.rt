//! The call that the program makes.

ghost use Rattle.std.specs.Prelude.{◌≡◌, ◌≤◌, ◌↔◌, [], map, string_bytes};
ghost use Rattle.command_words.specs.Commands.{asked_by};
ghost use Rattle.command_words.specs.Laws.{CanBeAsked};
ghost use Rattle.command_words.specs.Words.{Asked, Batch, IsAsked};
ghost use Rattle.commands.specs.Ready.{Completes};
ghost use Rattle.commands.specs.Runs.{AreTold, AskNothing, Runs};
ghost use Rattle.commands.specs.Worlds.{told_by, world};
ghost use Rattle.devices.specs.Faults.{Rose};

use crate::batch::serve_input;
use crate::beside::serve_beside;
use crate::connections::{self, serve_connections};
use crate::endings::Ending;
use crate::loading::{import_input, load_input, note_input};
use crate::making::make_journal;
use crate::migrating::migrate_journal;
use crate::tables::{write_daily, write_water};
use crate::trying::write_trial;
use command_words::{Command, WordsFault, read_words};
use devices::{Cabinet, Doors, Gate, Sink, Source, Spawner};
use std::alloc::Global;
use std::sync::Wait;
use std::thread::Threads;
use std::time::Clock;

/// Runs the command that the words name: `init` makes a journal under a name of the cabinet; `batch` reads requests to the input's end and writes
/// the replies, with each edit in the journal before its reply, beside as many workers as are asked for; `serve` does so for as many connections
/// of the doors; `stations` adds the stations of the document on the input and writes a line of each; `import` puts the readings of a text of unit
/// values, and `notes` the measurement that notes tell of, each with the lines of what became of it; `daily` and `water` write the daily values of
/// a site and the table of a water year, behind so many turns; `migrate` copies the journal of one name into one of the second format under
/// another; `trial` asks the made-up record of a number of an office over a disk in memory, and writes its six figures.
///
/// The doors have given no connection. Threads are started by the spawner, for workers and connections alone, and each worker passes a gate of
/// its own. What is answered is the status of the program: 0 where the command is done, for `batch` at the input's end, for `serve` once all
/// connections were served; 1 exactly where the words are no command; 2 and 3 where the input or the output failed; 4 where the disk failed while
/// the journal was made, opened or copied; 5 where there is no journal, or a damaged one; 6 where there was no memory to begin, for `serve` before the
/// first connection, for `stations`, `import` and `notes` before the first edit is asked, and for `daily`, `water`, `migrate` and the trial at any
/// step; 7 where the doors failed; 8 where `init` finds a journal; 9 at what is no well framed request, or where the whole input is no document of
/// stations; 10 where 2^36 bytes of the input of `batch` were taken and more was needed; 11 and 12 where `migrate` finds another journal, or one too
/// long; 13 where the text of `import` is no unit values of the site, and 14 where that of `notes` is no notes, or where either is longer than it
/// may be. A line on `faults` names every status but 0; a sink of faults that fails changes nothing. A disk that fails at an edit ends nothing: the
/// reply or line says so, and the run goes on. A connection's own faults end that connection alone.
///
/// Each disk that the cabinet gave is under its name again, and one that had faults is one fault more in the cabinet's count.
pub fn run_office<
    R: Threads + Wait + Clock + Copy + Drop + Send + 'static,
    S: Source,
    K: Sink,
    E: Sink,
    C: Cabinet,
    L: Doors + Send + 'static,
    P: Spawner,
    G: Gate + Drop + Send + 'static,
>(
    rt: R,
    alloc: Global,
    words: &[String],
    input: &mut S,
    output: &mut K,
    faults: &mut E,
    cabinet: &mut C,
    doors: &mut L,
    spawner: &mut P,
    gate: &G,
) -> u8
where
    C::Disk: Drop,
    requires { (L.told doors.old).given ≡ [] }
    ensures usage { (result ≡ 1) ↔ AskNothing (map string_bytes words.now) }
    ensures refused { AreTold (told_by S.Source K.Sink E.Sink C.Cabinet L.Doors P.Spawner) (map string_bytes words.now)
        result (world input.old output.old faults.old cabinet.old doors.old spawner.old)
        (world input.new output.new faults.new cabinet.new doors.new spawner.new) }
    // The headline: what each command does, with its status and its line, stands in a row of `Runs`. Of `batch`: the bytes written are the
    // office's replies to the bytes read, over the journal that was found, and what is left is the journal of the edits that were accepted.
    // Until the sync that begins the opening was done a stop leaves what it might have left before; from then on the journal of those
    // accepted up to some point, or of these and one more.
    ensures runs { (asked : Asked) → IsAsked (map string_bytes words.now) asked
        → Runs C.Disk.Disk (told_by S.Source K.Sink E.Sink C.Cabinet L.Doors P.Spawner) asked result
        (world input.old output.old faults.old cabinet.old doors.old spawner.old)
        (world input.new output.new faults.new cabinet.new doors.new spawner.new) }
    ensures input_fault { result ≡ 2 → Rose (S.faults input.old) (S.faults input.new) }
    ensures output_fault { result ≡ 3 → Rose (K.faults output.old) (K.faults output.new) }
    ensures disk_fault { result ≡ 4 → Rose (C.faults cabinet.old) (C.faults cabinet.new) }
    ensures door_fault { result ≡ 7 → Rose (L.faults doors.old) (L.faults doors.new) }
    ensures complete { (asked : Asked) → IsAsked (map string_bytes words.now) asked
        → Completes C.Disk.Disk (told_by S.Source K.Sink E.Sink C.Cabinet L.Doors P.Spawner) asked result
        (world input.old output.old faults.old cabinet.old doors.old spawner.old)
        (world input.new output.new faults.new cabinet.new doors.new spawner.new) }
{
    match read_words(alloc, words) {
        Ok(command) => run_command(
            rt, alloc, &command, input, output, faults, cabinet, doors, spawner, gate,
        ),
        Err(WordsFault::Usage) => Ending::Usage.finish(faults),
        Err(WordsFault::NoMemory) => Ending::NoMemory.finish(faults),
    }
}

/// Runs a command.
fn run_command<
    R: Threads + Wait + Clock + Copy + Drop + Send + 'static,
    S: Source,
    K: Sink,
    E: Sink,
    C: Cabinet,
    L: Doors + Send + 'static,
    P: Spawner,
    G: Gate + Drop + Send + 'static,
>(
    rt: R,
    alloc: Global,
    command: &Command<'_>,
    input: &mut S,
    output: &mut K,
    faults: &mut E,
    cabinet: &mut C,
    doors: &mut L,
    spawner: &mut P,
    gate: &G,
) -> u8
where
    C::Disk: Drop,
    requires asked { CanBeAsked (asked_by command.now) }
    requires none { (L.told doors.old).given ≡ [] }
    ensures { Runs C.Disk.Disk (told_by S.Source K.Sink E.Sink C.Cabinet L.Doors P.Spawner) (asked_by command.now)
        result (world input.old output.old faults.old cabinet.old doors.old spawner.old)
        (world input.new output.new faults.new cabinet.new doors.new spawner.new) }
{
    match *command {
        Command::Init(name) => {
            let made = make_journal(cabinet, name);
            Ending::from(made).finish(faults)
        }
        Command::Batch { journal, workers } => run_batch(
            rt, alloc, journal, workers, input, output, faults, cabinet, doors, spawner, gate,
        ),
        Command::Serve {
            journal,
            port,
            workers,
            connections,
        } => {
            let asked = connections::ServeOptions {
                port,
                workers,
                connections,
            };
            let end = serve_connections(rt, alloc, cabinet, journal, doors, spawner, gate, asked);
            Ending::from(end).finish(faults)
        }
        Command::Stations(name) => {
            let end = load_input(alloc, cabinet, name, input, output);
            Ending::from(end).finish(faults)
        }
        Command::Trial(number) => {
            let end = write_trial(alloc, number, output);
            Ending::from(end).finish(faults)
        }
        Command::Import(ref order) => {
            let end = import_input(alloc, cabinet, order, input, output);
            Ending::from(end).finish(faults)
        }
        Command::Daily(ref order) => {
            let end = write_daily(alloc, cabinet, order, output);
            Ending::from(end).finish(faults)
        }
        Command::Water(ref order) => {
            let end = write_water(alloc, cabinet, order, output);
            Ending::from(end).finish(faults)
        }
        Command::Notes(ref order) => {
            let end = note_input(alloc, cabinet, order, input, output);
            Ending::from(end).finish(faults)
        }
        Command::Migrate { from, journal } => {
            let migrated = migrate_journal(alloc, cabinet, from, journal);
            Ending::from(migrated).finish(faults)
        }
    }
}

/// Replies to the requests of the input over the journal of a name, beside so many workers. Nobody is let in at the doors.
#[tactic(auto, using(crate::proofs::BatchLemmas::over_some))]
fn run_batch<
    R: Threads + Wait + Clock + Copy + Drop + Send + 'static,
    S: Source,
    K: Sink,
    E: Sink,
    C: Cabinet,
    L: Doors + Send + 'static,
    P: Spawner,
    G: Gate + Drop + Send + 'static,
>(
    rt: R,
    alloc: Global,
    name: &str,
    workers: u32,
    input: &mut S,
    output: &mut K,
    faults: &mut E,
    cabinet: &mut C,
    _doors: &L,
    spawner: &mut P,
    gate: &G,
) -> u8
where
    C::Disk: Drop,
    requires { workers ≤ 16 }
    ensures { Runs C.Disk.Disk (told_by S.Source K.Sink E.Sink C.Cabinet L.Doors P.Spawner) (Batch name.now workers)
        result (world input.old output.old faults.old cabinet.old _doors.now spawner.old)
        (world input.new output.new faults.new cabinet.new _doors.now spawner.new) }
{
    if workers == 0 {
        let end = serve_input(alloc, cabinet, name, input, output);
        return Ending::from(end).finish(faults);
    }
    let end = serve_beside(
        rt, alloc, cabinet, name, input, output, spawner, gate, workers,
    );
    Ending::from(end).finish(faults)
}
