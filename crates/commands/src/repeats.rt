//! What holds of a text that is imported twice.

ghost use Rattle.std.specs.Prelude.{◌≡◌, ℕ, List, Some};
ghost use Rattle.command_words.specs.Words.{Import, ImportAsked};
ghost use Rattle.commands.specs.Joined.{Has, HasOrLeaves, IsTold};
ghost use Rattle.commands.specs.Repeating.{ImportsAgain};
ghost use Rattle.commands.specs.Runs.{Runs};
ghost use Rattle.commands.specs.Worlds.{World, shelf, sink_told, told_by};

use devices::{Cabinet, Doors, Sink, Source, Spawner};

/// A text that is imported again changes nothing. Two runs of `import` are done, of the same words and the same text, and the second one finds
/// what the first one left, or what a stop left of it then. Each line that told a number at first tells it again, or that there was no memory to
/// look; and where each edit had such a line, no edit is accepted in the second run and it leaves a journal of the records that it found.
pub fn a_text_imported_again_changes_nothing<
    S: Source,
    K: Sink,
    E: Sink,
    C: Cabinet,
    L: Doors,
    P: Spawner,
>()
    ensures { (asked : ImportAsked) (before after again done : World S K E C L P) (input image : List ℕ)
        → Runs C.Disk.Disk (told_by S.Source K.Sink E.Sink C.Cabinet L.Doors P.Spawner) (Import asked) 0 before after
        → Runs C.Disk.Disk (told_by S.Source K.Sink E.Sink C.Cabinet L.Doors P.Spawner) (Import asked) 0 again done
        → S.left before.input ≡ Some input → S.left again.input ≡ Some input
        → IsTold C.Disk.Disk asked.journal (shelf C.Cabinet before.cabinet)
        → HasOrLeaves C.Disk.Disk asked.journal image (shelf C.Cabinet after.cabinet)
        → Has C.Disk.Disk asked.journal image (shelf C.Cabinet again.cabinet)
        → ImportsAgain C.Disk.Disk asked input image (sink_told K.Sink before.output) (sink_told K.Sink after.output)
        (sink_told K.Sink again.output) (sink_told K.Sink done.output) (shelf C.Cabinet done.cabinet) }
{}
