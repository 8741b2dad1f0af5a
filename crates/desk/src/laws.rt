//! What holds of the replies of a session, over an office that nobody else asks and over one behind a lock.

ghost use Rattle.std.specs.Prelude.{◌≡◌, ◌+◌, ◌-◌, ◌^◌, ◌≤◌, ◌++◌, ℕ, ℤ, List, [], ◌∷◌, length, All, count_by, min, Option};
ghost use Rattle.std.specs.List.{AllByRecursion};
ghost use mathlib.Core.List.{IsPrefix};
ghost use Rattle.desk.specs.Behind as behind;
ghost use Rattle.desk.specs.Behind.{Touch, Uses, faults_added};
ghost use Rattle.desk.specs.Courses.{Asks, IsCourse, IsHeldInSteps, TellsDay, TellsDays, TellsEdit, cut_before};
ghost use Rattle.shared_office.specs.Passages.{Passes, RoseBy};
ghost use Rattle.desk.specs.Replies.{AreReplies, IsAnswered, IsOwn, tells_fault};
ghost use Rattle.desk.specs.Replying as replying;
ghost use Rattle.desk.specs.Replying.{memory_reply};
ghost use Rattle.desk.specs.Serving.{EndsIn};
ghost use Rattle.desk.specs.Sessions.{IsServed};
ghost use Rattle.desk.specs.declared.sessions.SessionEnd.{SessionEnd};
ghost use Rattle.devices.specs.Doors.{Ends};
ghost use Rattle.edits.specs.declared.content.Edit.{Edit};
ghost use Rattle.fixed_units.specs.Quantities.{SiteNumber};
ghost use Rattle.history.specs.Accepted.{accepted, edits_of};
ghost use Rattle.history.specs.After.{reopen};
ghost use Rattle.history.specs.Events.{History};
ghost use Rattle.history.specs.Legal.{IsLegal};
ghost use Rattle.http_api.specs.declared.asks.Ask.TheVariants as asks;
ghost use Rattle.journal.specs.JournalBytes.{IsJournalOf};
ghost use Rattle.office.specs.Counting.{fault_count};
ghost use Rattle.office.specs.Steps.{AStop, GoesOver, IsCall, Step, added};
ghost use Rattle.office.specs.Stops.{IsLeftBetween};
ghost use Rattle.office_inputs.specs.declared.limits.Limits.{Limits};
ghost use Rattle.records.specs.Sheets.{Record};
ghost use Rattle.records.specs.declared.formats.Format.{Format};
ghost use Rattle.register.specs.Registered.{NoneOut, Registered};
ghost use Rattle.shared_office.specs.Entries.{events_in, history_of};
ghost use Rattle.shared_office.specs.Holdings.{Holding, Follow};
ghost use Rattle.shared_office.specs.Passing.{adding, listed};
ghost use Rattle.shared_office.specs.declared.entries.Entry.{Entry};
ghost use Rattle.shared_office.specs.declared.entries.Fixed.{Fixed};
ghost use Rattle.wire.specs.declared.messages.Message.{Message};

use devices::Disk;
use shared_office::Shared;

/// What is replied to messages, and what has happened behind them, hangs on the history and the messages alone: where memory did not run
/// out and no journal failed, there is one list of replies, and one last history.
pub fn replies_are_one()
    ensures { (h : History) (messages : List Message) (replies others : List (List ℕ)) (next after : History) → AreReplies h messages replies next
        → AreReplies h messages others after → All IsOwn replies → All IsOwn others → (replies ≡ others) × (next ≡ after) }
{}

/// Each reply of the status 503 stands for one fault of the journal, and each fault has one such reply: as many faults have joined the
/// history behind the messages as replies tell. Behind an opening these are all faults of the history.
pub fn each_fault_has_its_reply()
    ensures joined { (h after : History) (messages : List Message) (replies : List (List ℕ)) → AreReplies h messages replies after
        → fault_count after.events ≡ fault_count h.events + count_by tells_fault replies }
    ensures all { (limits : Limits) (format : Format) (pieces : List Record) (after : History) (messages : List Message) (replies : List (List ℕ))
        → AreReplies (reopen limits format pieces) messages replies after → fault_count after.events ≡ count_by tells_fault replies }
{}

/// An edit that is told want of memory leaves the history as it was, and behind a lock its holding adds nothing.
pub fn want_of_memory_accepts_nothing()
    ensures alone { (h next : History) (edit : Edit) → IsAnswered h (asks.Edit edit) memory_reply next → next ≡ h }
    ensures behind { (fixed : Fixed) (edit : Edit) (holdings : List (Holding (List Entry))) → behind.IsAnswered fixed (asks.Edit edit) memory_reply holdings
        → (from : List Entry) × (holdings ≡ adding from [] ∷ []) }
{}

/// A session behind a lock whose holdings touch, so that nobody else did anything between them, replied what a session may reply over an
/// office that nobody else asks, and left what that leaves: turns and settlements that are made of looks and publications are those of the
/// history.
pub fn holdings_that_touch_are_of_one_thread()
    ensures replies { (fixed : Fixed) (from to : List Entry) (holdings : List (Holding (List Entry))) (messages : List Message) (replies : List (List ℕ))
        → Touch from holdings to → replying.AreReplies (Uses fixed) holdings messages replies []
        → AreReplies (history_of fixed from) messages replies (history_of fixed to) }
    ensures served { (fixed : Fixed) (from to : List Entry) (holdings : List (Holding (List Entry))) (before after : Ends) (end : SessionEnd)
        → Touch from holdings to → EndsIn fixed before after end holdings
        → IsServed (history_of fixed from) (history_of fixed to) end before.left after.left before.written after.written }
{}

/// Each reply of the status 503 behind a lock stands for one fault of the journal that a holding of its session added, and each of these has
/// one such reply. So they are no more than the faults that have joined the list since the session began, and none where no fault has.
pub fn each_fault_has_its_reply_behind_a_lock()
    ensures added { (fixed : Fixed) (holdings : List (Holding (List Entry))) (messages : List Message) (replies : List (List ℕ))
        → replying.AreReplies (Uses fixed) holdings messages replies [] → faults_added holdings ≡ count_by tells_fault replies }
    ensures few { (fixed : Fixed) (start list : List Entry) (holdings : List (Holding (List Entry))) (messages : List Message) (replies : List (List ℕ))
        → Follow IsPrefix start holdings list → replying.AreReplies (Uses fixed) holdings messages replies []
        → fault_count (events_in start) + count_by tells_fault replies ≤ fault_count (events_in list) }
{}

/// No more replies of a session behind a lock are 503 than the disk of the office has counted faults, unless its count stands at the end of
/// its type: none over a disk that has counted none.
pub fn the_disk_has_counted_each_503<D: Disk>(shared: &Shared<D>)
    ensures { (fixed : Fixed) (start : List Entry) (holdings : List (Holding (List Entry))) (messages : List Message) (replies : List (List ℕ))
        → Follow IsPrefix start holdings (listed shared.now) → replying.AreReplies (Uses fixed) holdings messages replies []
        → min (count_by tells_fault replies) (2 ^ 64 - 1) ≤ D.faults shared.now.office.disk }
{
    let _ = &shared.office;
}

/// As many replies of a session over an office that nobody else asks are 503 as the disk's count of faults rose by at most, unless that
/// stands at the end of its type: of the replies and of what has passed meanwhile, as one session tells of both.
pub fn no_more_503s_than_faults<D: Disk>()
    ensures { (h after : History) (messages : List Message) (replies : List (List ℕ)) (old new : D) → AreReplies h messages replies after
        → Passes D.Disk h after old new → RoseBy (count_by tells_fault replies) (D.faults old) (D.faults new) }
{}

/// What an office that nobody else asks replies to messages it replies in its steps: where no claim is out it goes over by calls, from the
/// history before the messages to the one behind them, and each message has its own of these. The replies to edits, for days and of daily
/// tables tell the answers of these steps; those to turns and settlements are told by the histories beside them. So what holds over steps holds
/// of what is replied. Of a session behind a lock it is said of each holding alone, and only of an office with no claim out, that it is of
/// calls: which of them answered what is not said there, and where a worker holds a claim nothing is.
pub fn replies_are_a_course()
    ensures steps { (old : Registered) (messages : List Message) (replies : List (List ℕ)) (after : History) → NoneOut old
        → AreReplies old.history messages replies after
        → (new : Registered) × (steps : List Step) × IsCourse old steps messages replies new × (new.history ≡ after) × NoneOut new }
    ensures over { (old new : Registered) (steps : List Step) (messages : List Message) (replies : List (List ℕ))
        → IsCourse old steps messages replies new → GoesOver old steps new × All IsCall steps }
    ensures held { (fixed : Fixed) (holdings : List (Holding (List Entry))) (messages : List Message) (replies : List (List ℕ))
        → replying.AreReplies (Uses fixed) holdings messages replies [] → AllByRecursion (IsHeldInSteps fixed) holdings }
{}

/// What is replied for a day is true of the edits that were accepted so far: those of the history that the course began with, and those that
/// were acknowledged in its first steps, which are the ones in which just the messages before were replied to. A value is that of computing
/// from scratch, any other answer names the last edit that changed the day, or says that none of them added the station, and the status beside
/// it is that by these edits. So is each row of a daily table, which says that the station is not kept where none of these edits added it, and
/// nowhere else. In place of both may stand the reply of want of memory.
pub fn days_are_told_truly()
    ensures day { (old new : Registered) (steps : List Step) (before behind : List Message) (message : Message) (told more : List (List ℕ)) (reply : List ℕ)
        (site : SiteNumber) (day : ℤ) → length told ≡ length before
        → IsCourse old steps (before ++ message ∷ behind) (told ++ reply ∷ more) new → Asks message (asks.DayOf site day)
        → (mid : Registered) × (first rest : List Step) × (steps ≡ first ++ rest) × IsCourse old first before told mid
        × TellsDay (edits_of old.history.events ++ added first) site day reply }
    ensures table { (old new : Registered) (steps : List Step) (before behind : List Message) (message : Message) (told more : List (List ℕ)) (reply : List ℕ)
        (site : SiteNumber) (from to : ℤ) → length told ≡ length before
        → IsCourse old steps (before ++ message ∷ behind) (told ++ reply ∷ more) new → Asks message (asks.Daily site from to)
        → (mid : Registered) × (first rest : List Step) × (steps ≡ first ++ rest) × IsCourse old first before told mid
        × TellsDays (edits_of old.history.events ++ added first) site from to reply }
{}

/// What is replied to an edit in a course stands. An edit of which a reply tells a number has that number ever after, whatever steps come
/// behind, with stops and openings among them: under it the edit comes again. One that is told as new has the next number behind the edits that
/// were accepted before, which are those that the course began with and those that were acknowledged in its first steps, in which just the
/// messages before were replied to. So it is behind a lock too, over each later list, where what had happened before the holding was legal.
pub fn acknowledged_edits_stay()
    ensures alone { (old new later : Registered) (steps further : List Step) (before behind : List Message) (message : Message) (told more : List (List ℕ))
        (reply : List ℕ) (edit : Edit) → length told ≡ length before → IsLegal old.history
        → IsCourse old steps (before ++ message ∷ behind) (told ++ reply ∷ more) new → GoesOver new further later → Asks message (asks.Edit edit)
        → (mid : Registered) × (first rest : List Step) × (steps ≡ first ++ rest) × IsCourse old first before told mid
        × TellsEdit (edits_of old.history.events ++ added first) edit reply later.history }
    ensures behind { (fixed : Fixed) (edit : Edit) (reply : List ℕ) (holdings : List (Holding (List Entry)))
        → behind.IsAnswered fixed (asks.Edit edit) reply holdings
        → (x : Holding (List Entry)) × (holdings ≡ x ∷ []) × ((later : List Entry) → IsLegal (history_of fixed x.from) → IsPrefix x.to later
        → TellsEdit (edits_of (events_in x.from)) edit reply (history_of fixed later)) }
{}

/// Whatever a stop leaves at any point of a course of calls is opened in a course of steps: the first of these calls and a stop, which cuts
/// off the call of an edit where the next of them is one, lead from the same office to one that goes on from the records that were found.
/// These are those of the edits that were accepted up to that point, and at most one more.
pub fn a_stop_in_a_course_is_a_step()
    ensures { (old new : Registered) (steps : List Step) (image : List ℕ) (pieces : List Record) → NoneOut old → IsLegal old.history
        → All IsCall steps → GoesOver old steps new → (left : IsLeftBetween old.history new.history image) → IsJournalOf old.history.format pieces image
        → (opened : Registered) × (before behind : List Step) × (found : Option Record) × (more : List Record) × (steps ≡ before ++ behind)
        × GoesOver old (before ++ AStop (cut_before behind) found ∷ []) opened × (opened.history ≡ reopen old.history.limits old.history.format pieces)
        × NoneOut opened × IsLegal opened.history × (length more ≤ 1) × (pieces ≡ accepted (old.history.events ++ left.since) ++ more) }
{}
