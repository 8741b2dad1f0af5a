//! What holds of the runs of all commands, and of those of one.

ghost use Rattle.std.specs.Prelude.{◌≡◌, ◌≢◌, ◌⊎◌, ℕ, ◌+◌, ◌≤◌, true, List, [], ◌++◌, ◌∷◌, ℤ, IsSome, IsSomeAnd, count_by, length, map};
ghost use mathlib.Core.List.{IsPrefix};
ghost use Rattle.command_words.specs.Words.{Asked, Batch, Daily, DailyAsked, Import, ImportAsked, Init, Migrate, Notes, NotesAsked, Serve, Stations, Trial, Water, WaterAsked};
ghost use Rattle.commands.specs.Again.{BeginsToCopy, HasBoth, TellsCopy};
ghost use Rattle.commands.specs.Answered.{AreAnswered, AreServedWell, IsLoadedWell};
ghost use Rattle.commands.specs.Beside.{WorksBeside, ends_told};
ghost use Rattle.commands.specs.Joined.{AreOneBehindAnother, AreOneCourse, BehindTheEnd, Has, HasOrLeaves, IsFoundBy, IsFrontOf, IsTold, IsUnplayed, Plays, Run, StopsWithin, Stretch, Within, steps_of};
ghost use Rattle.commands.specs.Loading.{NotesLoaded, ReadingsLoaded, StationsLoaded, loading_ending, notes_ending, readings_ending};
ghost use Rattle.commands.specs.Opening.{Carries, LeadsTo};
ghost use Rattle.commands.specs.Ready.{IsReady, IsWellFormed};
ghost use Rattle.commands.specs.Runs.{Runs};
ghost use Rattle.commands.specs.Serving.{AreServedBeside, IsUnserved, failed_beside};
ghost use Rattle.commands.specs.Sharing.{begun};
ghost use Rattle.commands.specs.Worlds.{DoorsStay, StreamsStay, World, doorway, shelf, sink_told, source_told, told_by};
ghost use Rattle.desk.specs.Courses.{Asks, IsCourse, TellsDay, TellsDays};
ghost use Rattle.desk.specs.Replies.{AreReplies, tells_fault};
ghost use Rattle.desk.specs.Serving.{Served};
ghost use Rattle.desk.specs.declared.sessions.SessionEnd.{SessionEnd};
ghost use Rattle.desk.specs.declared.sessions.SessionEnd.TheVariants as sessions;
ghost use Rattle.devices.specs.Doors.{Connections, Ends};
ghost use Rattle.devices.specs.Faults.{Rose};
ghost use Rattle.edits.specs.declared.content.Edit.{Edit};
ghost use Rattle.fixed_units.specs.Quantities.{SiteNumber};
ghost use Rattle.history.specs.Accepted.{accepted, edit_of};
ghost use Rattle.history.specs.After.{reopen};
ghost use Rattle.history.specs.Awaited.{pending_days};
ghost use Rattle.history.specs.Events.{History};
ghost use Rattle.history.specs.Legal.{IsLegal};
ghost use Rattle.http_api.specs.declared.asks.Ask.TheVariants as asks;
ghost use Rattle.journal.specs.JournalBytes.{empty_journal};
ghost use Rattle.journal.specs.Moments.{SyncsFirst};
ghost use Rattle.office.specs.Counting.{fault_count};
ghost use Rattle.office.specs.Steps.{GoesOver, Step, added};
ghost use Rattle.office_inputs.specs.Usual.{usual};
ghost use Rattle.records.specs.Sheets.{Record};
ghost use Rattle.records.specs.declared.formats.Format.{Format};
ghost use Rattle.records.specs.declared.formats.Format.TheVariants.{First};
ghost use Rattle.register.specs.Registered.{NoneOut, Registered};
ghost use Rattle.serving.specs.Crews.{IsWorkIn};
ghost use Rattle.serving.specs.Failing.{failed_in};
ghost use Rattle.serving.specs.declared.whole.ServeEnd.TheVariants as serving;
ghost use Rattle.shared_office.specs.Passages.{RoseBy};
ghost use Rattle.shared_office.specs.declared.entries.Entry.{Entry};
ghost use Rattle.shared_office.specs.declared.entries.Fixed.{Fixed};
ghost use Rattle.told_edits.specs.Lines.{AreSent, IsSent, tells_fault_line};
ghost use Rattle.wire.specs.declared.messages.Message.{Message};
ghost use Rattle.workers.specs.declared.workers.WorkerEnd.TheVariants as worker;

use devices::{Cabinet, Disk, Doors, Sink, Source, Spawner};

/// Where the disk failed at the making or the opening of a journal, or what stands in its place is none, or is one where one was to be made,
/// nothing was read and nothing written.
pub fn a_run_without_a_journal_leaves_the_streams<
    S: Source,
    K: Sink,
    E: Sink,
    C: Cabinet,
    L: Doors,
    P: Spawner,
>()
    ensures { (asked : Asked) (status : ℕ) (before after : World S K E C L P)
        → Runs C.Disk.Disk (told_by S.Source K.Sink E.Sink C.Cabinet L.Doors P.Spawner) asked status before after
        → (status ≡ 4) ⊎ ((status ≡ 5) ⊎ (status ≡ 8)) → StreamsStay before after }
{}

/// Where there was no memory nothing was written, and by `batch` nothing was read either.
pub fn a_run_without_memory_writes_nothing<
    S: Source,
    K: Sink,
    E: Sink,
    C: Cabinet,
    L: Doors,
    P: Spawner,
>()
    ensures unwritten { (asked : Asked) (before after : World S K E C L P)
        → Runs C.Disk.Disk (told_by S.Source K.Sink E.Sink C.Cabinet L.Doors P.Spawner) asked 6 before after
        → after.output ≡ before.output }
    ensures unserved { (name : List ℕ) (workers : ℕ) (before after : World S K E C L P)
        → Runs C.Disk.Disk (told_by S.Source K.Sink E.Sink C.Cabinet L.Doors P.Spawner) (Batch name workers) 6 before after
        → StreamsStay before after }
{}

/// Where the input of `stations`, `import` or `notes` was not read, or is refused, nothing was written: then the history that the run tells
/// of is the one that was found.
pub fn an_input_that_is_not_read_adds_nothing<
    S: Source,
    K: Sink,
    E: Sink,
    C: Cabinet,
    L: Doors,
    P: Spawner,
>()
    ensures stations { (name : List ℕ) (status : ℕ) (before after : World S K E C L P)
        → Runs C.Disk.Disk (told_by S.Source K.Sink E.Sink C.Cabinet L.Doors P.Spawner) (Stations name) status before after
        → (status ≡ 2) ⊎ (status ≡ 9) → after.output ≡ before.output }
    ensures import { (asked : ImportAsked) (status : ℕ) (before after : World S K E C L P)
        → Runs C.Disk.Disk (told_by S.Source K.Sink E.Sink C.Cabinet L.Doors P.Spawner) (Import asked) status before after
        → (status ≡ 2) ⊎ (status ≡ 13) → after.output ≡ before.output }
    ensures notes { (asked : NotesAsked) (status : ℕ) (before after : World S K E C L P)
        → Runs C.Disk.Disk (told_by S.Source K.Sink E.Sink C.Cabinet L.Doors P.Spawner) (Notes asked) status before after
        → (status ≡ 2) ⊎ (status ≡ 14) → after.output ≡ before.output }
{}

/// `init` and `migrate` touch the cabinet alone, and `trial` the output alone; `daily` and `water` touch both, and neither the input nor the doors. Beside
/// all stands only the line on the sink of faults.
pub fn what_a_command_leaves_alone<S: Source, K: Sink, E: Sink, C: Cabinet, L: Doors, P: Spawner>()
    ensures init { (name : List ℕ) (status : ℕ) (before after : World S K E C L P)
        → Runs C.Disk.Disk (told_by S.Source K.Sink E.Sink C.Cabinet L.Doors P.Spawner) (Init name) status before after
        → StreamsStay before after × DoorsStay before after }
    ensures migrate { (from to : List ℕ) (status : ℕ) (before after : World S K E C L P)
        → Runs C.Disk.Disk (told_by S.Source K.Sink E.Sink C.Cabinet L.Doors P.Spawner) (Migrate from to) status before after
        → StreamsStay before after × DoorsStay before after }
    ensures trial { (number status : ℕ) (before after : World S K E C L P)
        → Runs C.Disk.Disk (told_by S.Source K.Sink E.Sink C.Cabinet L.Doors P.Spawner) (Trial number) status before after
        → ((after.input ≡ before.input) × (after.cabinet ≡ before.cabinet)) × DoorsStay before after }
    ensures daily { (asked : DailyAsked) (status : ℕ) (before after : World S K E C L P)
        → Runs C.Disk.Disk (told_by S.Source K.Sink E.Sink C.Cabinet L.Doors P.Spawner) (Daily asked) status before after
        → (after.input ≡ before.input) × DoorsStay before after }
    ensures water { (asked : WaterAsked) (status : ℕ) (before after : World S K E C L P)
        → Runs C.Disk.Disk (told_by S.Source K.Sink E.Sink C.Cabinet L.Doors P.Spawner) (Water asked) status before after
        → (after.input ≡ before.input) × DoorsStay before after }
{}

/// No more replies of a run over a shared office are 503 than faults of the journal have joined its history, over any cabinet: those of all
/// its connections together, or those of its session beside workers.
pub fn each_503_of_a_run_has_its_fault<D: Disk>()
    ensures serve { (workers : ℕ) (told : Connections) (h last : History) (served : AreServedBeside D.Disk workers told h last)
        → fault_count h.events + failed_beside served ≤ fault_count last.events }
    ensures batch { (workers : ℕ) (came went : Ends) (end : SessionEnd) (h last : History) (worked : WorksBeside D.Disk workers came went end h last)
        → fault_count h.events + failed_in worked.beside.ends_in ≤ fault_count last.events }
{}

/// No more replies of a run are 503 than the disk that is left has counted faults, unless its count stands at the end of its type: those of a
/// session that nobody works beside, those of one beside workers, and those of all connections of `serve` together. Nor do more lines of
/// `stations` or `import` tell that the journal failed than the disk has counted faults; and where the line of `notes` does, it has counted one.
pub fn no_more_503s_than_faults<D: Disk>()
    ensures alone { (format : Format) (pieces : List Record) (last : History) (found left : D) (messages : List Message)
        (replies : List (List ℕ)) → AreReplies (reopen usual format pieces) messages replies last → Carries D.Disk pieces last found left
        → RoseBy (count_by tells_fault replies) 0 (D.faults left) }
    ensures beside { (format : Format) (pieces : List Record) (last : History) (found left : D) (workers : ℕ) (came went : Ends) (end : SessionEnd)
        (worked : WorksBeside D.Disk workers came went end (reopen usual format pieces) last) → LeadsTo D.Disk pieces last found left
        → RoseBy (failed_in worked.beside.ends_in) 0 (D.faults left) }
    ensures serve { (format : Format) (pieces : List Record) (last : History) (found left : D) (workers : ℕ) (told : Connections)
        (served : AreServedBeside D.Disk workers told (reopen usual format pieces) last) → LeadsTo D.Disk pieces last found left
        → RoseBy (failed_beside served) 0 (D.faults left) }
    ensures lines { (format : Format) (pieces : List Record) (last : History) (found left : D) (end : Edit → List ℕ) (edits : List Edit)
        (lines : List (List ℕ)) → AreSent end (reopen usual format pieces) edits lines last → Carries D.Disk pieces last found left
        → RoseBy (count_by tells_fault_line lines) 0 (D.faults left) }
    ensures line { (format : Format) (pieces : List Record) (last : History) (found left : D) (end : List ℕ) (edit : Edit) (line : List ℕ)
        → IsSent end (reopen usual format pieces) edit line last → Carries D.Disk pieces last found left → tells_fault_line line ≡ true
        → RoseBy 1 0 (D.faults left) }
{}

/// Where a worker ended drained, whoever worked beside it, no day is pending at the end of the run: behind what it found then stand the
/// publications of other workers alone.
pub fn a_drained_worker_leaves_no_day_pending<D: Disk>()
    ensures serve { (workers : ℕ) (told : Connections) (h last : History) (served : AreServedBeside D.Disk workers told h last) (places : List ℕ)
        (work : IsWorkIn served.lock (begun h) served.list places) (count : ℕ) → work.end ≡ worker.Drained count → pending_days last.events ≡ [] }
    ensures batch { (workers : ℕ) (came went : Ends) (end : SessionEnd) (h last : History) (worked : WorksBeside D.Disk workers came went end h last)
        (places : List ℕ) (work : IsWorkIn worked.lock (begun h) worked.list places) (count : ℕ) → work.end ≡ worker.Drained count
        → pending_days last.events ≡ [] }
{}

/// A run of `batch` without workers replied to what it read, from the records that were found to some history, whose journal it left; or it
/// read and wrote nothing, and left alone what was under the name.
pub fn a_batch_is_a_run<S: Source, K: Sink, E: Sink, C: Cabinet, L: Doors, P: Spawner>()
    ensures { (name : List ℕ) (status : ℕ) (before after : World S K E C L P)
        → Runs C.Disk.Disk (told_by S.Source K.Sink E.Sink C.Cabinet L.Doors P.Spawner) (Batch name 0) status before after
        → ((run : Run) × Plays C.Disk.Disk name (told_by S.Source K.Sink E.Sink C.Cabinet L.Doors P.Spawner) run before after)
        ⊎ IsUnplayed C.Disk.Disk name (told_by S.Source K.Sink E.Sink C.Cabinet L.Doors P.Spawner) before after }
{}

/// What a run of `batch` replies for a day is true of the edits that were accepted so far: those of the records that it found, and those that
/// it acknowledged in its first steps, which are the ones in which just the messages before were replied to. A value is that of computing from
/// scratch, any other answer names the last of these edits that changed the day, or says that none of them added the station, and the status
/// beside it is that by these edits. So is each row of a daily table, which says that the station is not kept where none of these edits added
/// it, and nowhere else. In place of both may stand the reply of want of memory.
pub fn a_run_tells_days_truly()
    ensures day { (run : Run) (old : Registered) (before behind : List Message) (message : Message) (told more : List (List ℕ)) (reply : List ℕ)
        (site : SiteNumber) (day : ℤ) → old.history ≡ reopen usual run.last.format run.found → NoneOut old
        → run.messages ≡ before ++ message ∷ behind → run.replies ≡ told ++ reply ∷ more → length told ≡ length before → Asks message (asks.DayOf site day)
        → (mid new : Registered) × (first rest : List Step) × IsCourse old (first ++ rest) run.messages run.replies new
        × (new.history ≡ run.last) × IsCourse old first before told mid × TellsDay (map edit_of run.found ++ added first) site day reply }
    ensures table { (run : Run) (old : Registered) (before behind : List Message) (message : Message) (told more : List (List ℕ)) (reply : List ℕ)
        (site : SiteNumber) (from to : ℤ) → old.history ≡ reopen usual run.last.format run.found → NoneOut old
        → run.messages ≡ before ++ message ∷ behind → run.replies ≡ told ++ reply ∷ more → length told ≡ length before → Asks message (asks.Daily site from to)
        → (mid new : Registered) × (first rest : List Step) × IsCourse old (first ++ rest) run.messages run.replies new
        × (new.history ≡ run.last) × IsCourse old first before told mid × TellsDays (map edit_of run.found ++ added first) site from to reply }
{}

/// What is left of a run is what the next one finds: where the journal that the next run opens has what the first one left, or what a stop
/// left of it then, its records are those of the edits that the first one accepted, and of at most one more, in the same format. Where it has
/// what a stop left at some moment of the first run since its opening sync, they are those that the first one found, with those of a front of
/// the edits that it accepted, and of at most one more; a stop before that sync left what it might have left before the run.
pub fn the_next_run_finds_what_was_left<
    S: Source,
    K: Sink,
    E: Sink,
    C: Cabinet,
    L: Doors,
    P: Spawner,
>()
    ensures found { (name : List ℕ) (first second : Run) (before after again done : World S K E C L P) (image : List ℕ)
        → Plays C.Disk.Disk name (told_by S.Source K.Sink E.Sink C.Cabinet L.Doors P.Spawner) first before after
        → Plays C.Disk.Disk name (told_by S.Source K.Sink E.Sink C.Cabinet L.Doors P.Spawner) second again done
        → IsTold C.Disk.Disk name (shelf C.Cabinet before.cabinet) → HasOrLeaves C.Disk.Disk name image (shelf C.Cabinet after.cabinet)
        → Has C.Disk.Disk name image (shelf C.Cabinet again.cabinet) → IsFoundBy BehindTheEnd first second }
    ensures edits { (name : List ℕ) (first second : Run) (before after again done : World S K E C L P) (image : List ℕ)
        → Plays C.Disk.Disk name (told_by S.Source K.Sink E.Sink C.Cabinet L.Doors P.Spawner) first before after
        → Plays C.Disk.Disk name (told_by S.Source K.Sink E.Sink C.Cabinet L.Doors P.Spawner) second again done
        → IsTold C.Disk.Disk name (shelf C.Cabinet before.cabinet) → HasOrLeaves C.Disk.Disk name image (shelf C.Cabinet after.cabinet)
        → Has C.Disk.Disk name image (shelf C.Cabinet again.cabinet)
        → (more : List Record) × (length more ≤ 1) × (second.found ≡ accepted first.last.events ++ more) }
    ensures stopped { (name : List ℕ) (first second : Run) (before after again done : World S K E C L P)
        → Plays C.Disk.Disk name (told_by S.Source K.Sink E.Sink C.Cabinet L.Doors P.Spawner) first before after
        → Plays C.Disk.Disk name (told_by S.Source K.Sink E.Sink C.Cabinet L.Doors P.Spawner) second again done
        → StopsWithin C.Disk.Disk name first second (shelf C.Cabinet before.cabinet) (shelf C.Cabinet after.cabinet) (shelf C.Cabinet again.cabinet) }
{}

/// Over runs one behind another, each of which finds what a stop left of the one before, behind its end or within, the records that the first
/// one found stay at the front, and so do those of all edits that a run had accepted which was stopped behind its end, and of one that was
/// stopped within those that it found, with those of a front of the edits that it would have accepted, and of at most one more.
pub fn accepted_edits_stay_over_runs()
    ensures found { (format : Format) (found next : List Record) (runs : List Stretch) → AreOneBehindAnother format found runs next
        → IsPrefix found next }
    ensures ended { (format : Format) (found next : List Record) (first others : List Stretch) (run : Run)
        → AreOneBehindAnother format found (first ++ record { run = run; stop = BehindTheEnd } ∷ others) next
        → IsPrefix (accepted run.last.events) next }
    ensures within { (format : Format) (found next : List Record) (first others : List Stretch) (run : Run)
        → AreOneBehindAnother format found (first ++ record { run = run; stop = Within } ∷ others) next
        → (mid : List Record) × IsFrontOf run mid × IsPrefix mid next }
{}

/// Runs one behind another are of one course of steps, of a first office that is legal and has no claim out: each is of the calls of an office
/// that was opened on the records that it found, in each of which its message was replied to, and of which the first were done before the stop,
/// all of them where it came behind the end. These calls, the stops and the openings lead over all of the runs.
pub fn runs_are_one_course()
    ensures course { (format : Format) (found next : List Record) (runs : List Stretch) (old : Registered)
        → AreOneBehindAnother format found runs next → old.history ≡ reopen usual format found → NoneOut old → IsLegal old.history → AreOneCourse old runs next }
    ensures over { (next : List Record) (runs : List Stretch) (old : Registered) (are : AreOneCourse old runs next)
        → (new : Registered) × GoesOver old (steps_of old runs next are) new × (new.history ≡ reopen usual old.history.format next) }
{}

/// Where a run of `batch` or of `serve` is done and no fault of the cabinet was counted, no reply tells that the journal failed. An input of
/// `batch` was read to its end then, and each of its messages has its reply, that of the office, or beside workers that which its holdings
/// tell; and so was that of each connection which is well formed and met no fault of its own, unless there was no memory to begin with it. Where
/// the doors failed the same holds of the connections that they had given before; there were none where the port could not be had.
pub fn where_no_fault_is_counted_each_request_is_answered<
    S: Source,
    K: Sink,
    E: Sink,
    C: Cabinet,
    L: Doors,
    P: Spawner,
>()
    ensures batch { (name : List ℕ) (workers : ℕ) (before after : World S K E C L P)
        → Runs C.Disk.Disk (told_by S.Source K.Sink E.Sink C.Cabinet L.Doors P.Spawner) (Batch name workers) 0 before after
        → ¬ (Rose (C.faults before.cabinet) (C.faults after.cabinet))
        → (pieces : List Record) × (last : History)
        × AreAnswered C.Disk.Disk workers (ends_told (source_told S.Source before.input) (sink_told K.Sink before.output))
        (ends_told (source_told S.Source after.input) (sink_told K.Sink after.output)) (reopen usual last.format pieces) last }
    ensures serve { (name : List ℕ) (port workers connections : ℕ) (before after : World S K E C L P)
        → Runs C.Disk.Disk (told_by S.Source K.Sink E.Sink C.Cabinet L.Doors P.Spawner) (Serve name port workers connections) 0 before after
        → ¬ (Rose (C.faults before.cabinet) (C.faults after.cabinet))
        → (pieces : List Record) × (last : History)
        × AreServedWell C.Disk.Disk workers (L.told after.doors) (reopen usual last.format pieces) last }
    ensures doors_failed { (name : List ℕ) (port workers connections : ℕ) (before after : World S K E C L P)
        → Runs C.Disk.Disk (told_by S.Source K.Sink E.Sink C.Cabinet L.Doors P.Spawner) (Serve name port workers connections) 7 before after
        → ¬ (Rose (C.faults before.cabinet) (C.faults after.cabinet))
        → (pieces : List Record) × (last : History)
        × (AreServedWell C.Disk.Disk workers (L.told after.doors) (reopen usual last.format pieces) last
        ⊎ IsUnserved serving.DoorFault (doorway L.Doors before.doors) (doorway L.Doors after.doors) (reopen usual last.format pieces) last) }
    ensures connection { (fixed : Fixed) (came went : Ends) (start : ℕ) (list : List Entry) (places : List ℕ)
        (served : Served fixed came went start list places) → IsSomeAnd came.left IsWellFormed → IsSome came.written
        → ¬ (Rose came.input_faults went.input_faults) → ¬ (Rose came.output_faults went.output_faults)
        → (served.end ≡ sessions.End) ⊎ (served.end ≡ sessions.NoMemory) }
{}

/// Where a run of `stations`, `import` or `notes` is done, or its output failed, and no fault of the cabinet was counted, no line tells that the
/// journal failed. At every other status no line is written.
pub fn where_no_fault_is_counted_no_line_tells_one<
    S: Source,
    K: Sink,
    E: Sink,
    C: Cabinet,
    L: Doors,
    P: Spawner,
>()
    ensures stations { (name : List ℕ) (status : ℕ) (before after : World S K E C L P)
        → Runs C.Disk.Disk (told_by S.Source K.Sink E.Sink C.Cabinet L.Doors P.Spawner) (Stations name) status before after
        → (status ≡ 0) ⊎ (status ≡ 3) → ¬ (Rose (C.faults before.cabinet) (C.faults after.cabinet))
        → IsLoadedWell loading_ending StationsLoaded status
        (told_by S.Source K.Sink E.Sink C.Cabinet L.Doors P.Spawner before) (told_by S.Source K.Sink E.Sink C.Cabinet L.Doors P.Spawner after) }
    ensures import { (asked : ImportAsked) (status : ℕ) (before after : World S K E C L P)
        → Runs C.Disk.Disk (told_by S.Source K.Sink E.Sink C.Cabinet L.Doors P.Spawner) (Import asked) status before after
        → (status ≡ 0) ⊎ (status ≡ 3) → ¬ (Rose (C.faults before.cabinet) (C.faults after.cabinet))
        → IsLoadedWell readings_ending (ReadingsLoaded asked) status
        (told_by S.Source K.Sink E.Sink C.Cabinet L.Doors P.Spawner before) (told_by S.Source K.Sink E.Sink C.Cabinet L.Doors P.Spawner after) }
    ensures notes { (asked : NotesAsked) (status : ℕ) (before after : World S K E C L P)
        → Runs C.Disk.Disk (told_by S.Source K.Sink E.Sink C.Cabinet L.Doors P.Spawner) (Notes asked) status before after
        → (status ≡ 0) ⊎ (status ≡ 3) → ¬ (Rose (C.faults before.cabinet) (C.faults after.cabinet))
        → IsLoadedWell notes_ending (NotesLoaded asked) status
        (told_by S.Source K.Sink E.Sink C.Cabinet L.Doors P.Spawner before) (told_by S.Source K.Sink E.Sink C.Cabinet L.Doors P.Spawner after) }
{}

/// A migration that is done met no fault: the cabinet's count is as before. So it is where other records stand under the other name, and where the
/// records have no room.
pub fn a_migration_that_is_done_met_no_fault<
    S: Source,
    K: Sink,
    E: Sink,
    C: Cabinet,
    L: Doors,
    P: Spawner,
>()
    ensures { (from to : List ℕ) (status : ℕ) (before after : World S K E C L P)
        → Runs C.Disk.Disk (told_by S.Source K.Sink E.Sink C.Cabinet L.Doors P.Spawner) (Migrate from to) status before after
        → (status ≡ 0) ⊎ ((status ≡ 11) ⊎ (status ≡ 12)) → C.faults after.cabinet ≡ C.faults before.cabinet }
{}

/// A migration that was stopped while it copied can be run again. Where the journal that it copies stands as it was, and under the other name what
/// a stop left at some moment since the sync that began the copy, `migrate` has what it needs to be done, but for want of memory. An empty journal
/// of the first format is left out, which may happen to stand where the journal was being made. A migration that is done began to copy.
pub fn a_stopped_migration_can_be_run_again<
    S: Source,
    K: Sink,
    E: Sink,
    C: Cabinet,
    L: Doors,
    P: Spawner,
>()
    ensures begins { (from to : List ℕ) (before after : World S K E C L P)
        → Runs C.Disk.Disk (told_by S.Source K.Sink E.Sink C.Cabinet L.Doors P.Spawner) (Migrate from to) 0 before after → from ≢ to
        → TellsCopy C.Disk.Disk to (shelf C.Cabinet before.cabinet)
        → BeginsToCopy C.Disk.Disk from to (shelf C.Cabinet before.cabinet) (shelf C.Cabinet after.cabinet) }
    ensures stopped { (from to journal : List ℕ) (before after again : World S K E C L P)
        (begun : BeginsToCopy C.Disk.Disk from to (shelf C.Cabinet before.cabinet) (shelf C.Cabinet after.cabinet)) → from ≢ to
        → Has C.Disk.Disk from journal (shelf C.Cabinet before.cabinet)
        → SyncsFirst C.Disk.Disk begun.copy.found begun.copy.left (λ image. image ≢ empty_journal First
        → HasBoth C.Disk.Disk from to journal image (shelf C.Cabinet again.cabinet)
        → IsReady C.Disk.Disk (Migrate from to) (told_by S.Source K.Sink E.Sink C.Cabinet L.Doors P.Spawner again)) }
{}
