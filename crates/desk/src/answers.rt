//! What is asked is answered by the office, in texts.

ghost use Rattle.std.specs.Prelude.{◌≡◌, ◌≤◌, ◌<◌, ◌+◌, ◌-◌, ◌^◌, ℕ, Bool, Some, length, min, OnOk, OnErr, IfOk, true, false};
ghost use Rattle.desk.specs.Answering.{IsMade, IsRefusedBy, acceptance_or, told_bytes};
ghost use Rattle.desk.specs.Asked.{IsReading};
ghost use Rattle.shared_office.specs.Passages.{Passes};
ghost use Rattle.desk.specs.Replies.{IsAnswered, IsLeftBy, fault_reply, history_after, reply_to};
ghost use Rattle.desk.specs.Replying.{memory_reply};
ghost use Rattle.edits.specs.declared.content.Edit.{Edit};
ghost use Rattle.history.specs.Accepted.{accepted};
ghost use Rattle.history.specs.Events.{History};
ghost use Rattle.http_api.specs.Replies.{bytes_of};
ghost use Rattle.http_api.specs.declared.asks.Ask.TheVariants as asks;
ghost use Rattle.office.specs.Edits.{Edits, asks_disk};
ghost use Rattle.register.specs.Registered.{NoneOut};

use crate::days::{tell_daily, tell_day, tell_sheet};
use devices::Disk;
use edits::Edit;
use fixed_units::{NoMemory, Site, Text};
use http_api::replies::constants_are_replies;
use http_api::{Ask, DayReply, Reply, write_reply};
use json::Scratch;
use measurements::station_departure;
use office::laws::an_office_stands_on_its_disk;
use office::{Accepted, Office};
use office_inputs::{Refusal, Station};
use std::alloc::Global;
use std::mem::swap;
use wire::NO_MEMORY_REPLY;

/// Which reply is told.
#[derive(Clone, Copy, Debug, PartialEq, Eq)]
pub(crate) enum Told {
    /// The reply that was made.
    Made,
    /// That of a journal that failed, and whether that leaves it in doubt of a record.
    JournalFault(bool),
    /// That of want of memory.
    NoMemory,
}

/// The scratch that bodies are read with, the texts that replies are made in, and those that stand ready before the office is asked:
/// the replies to a journal that fails, and that to an edit that is accepted, with its number.
#[derive(Drop)]
pub(crate) struct Texts {
    pub(crate) alloc: Global,
    pub(crate) scratch: Scratch,
    body: Text,
    reply: Text,
    accepts: Option<u64>,
    acceptance: Text,
    settled: Text,
    doubtful: Text,
    ghost acceptance_is: { acceptance ≡ acceptance_or accepts acceptance },
    ghost settled_is: { settled ≡ fault_reply false },
    ghost doubtful_is: { doubtful ≡ fault_reply true },
}

impl Texts {
    /// The texts before the first message.
    pub(crate) fn new(alloc: Global) -> Result<Texts, NoMemory> {
        let mut body = Text::new(alloc);
        let settled = fault_text(alloc, false, &mut body)?;
        let doubtful = fault_text(alloc, true, &mut body)?;
        Ok(Texts {
            alloc,
            scratch: Scratch::new(alloc),
            body,
            reply: Text::new(alloc),
            accepts: None,
            acceptance: Text::new(alloc),
            settled,
            doubtful,
        })
    }

    /// The bytes of a reply.
    pub(crate) fn bytes(&self, told: Told) -> &[u8]
        ensures { result.now ≡ told_bytes told self.now.reply }
    {
        match told {
            Told::Made => self.reply.as_slice(),
            Told::JournalFault(false) => self.settled.as_slice(),
            Told::JournalFault(true) => self.doubtful.as_slice(),
            Told::NoMemory => no_memory(),
        }
    }

    /// Makes a reply.
    pub(crate) fn make(&mut self, reply: &Reply<'_>) -> Result<(), NoMemory>
        ensures { OnOk result (self.new.reply ≡ bytes_of reply.now) }
    {
        write_reply(self.alloc, reply, &mut self.body, &mut self.reply)
    }

    /// Makes the reply to an edit that will be accepted under a number, unless it stands ready since an earlier one was refused.
    pub(crate) fn prepare(&mut self, number: u64) -> Result<(), NoMemory>
        ensures { OnOk result (self.new.accepts ≡ Some number) }
    {
        if let Some(ready) = self.accepts {
            if ready == number {
                return Ok(());
            }
        }
        self.accepts = None;
        let accepted = Reply::Edit {
            number,
            repeated: false,
        };
        write_reply(self.alloc, &accepted, &mut self.body, &mut self.acceptance)?;
        self.accepts = Some(number);
        Ok(())
    }

    /// Takes the reply that stands ready for the one that is told.
    fn accept(&mut self)
        ensures { (number : ℕ) → self.old.accepts ≡ Some number → self.new.reply ≡ bytes_of (Reply.Edit number false) }
    {
        self.accepts = None;
        swap(&mut self.reply, &mut self.acceptance);
    }

    /// Which reply a refused edit gets.
    fn refuse(&mut self, refusal: Refusal) -> Told
        ensures refused { IsRefusedBy refusal (told_bytes result self.new.reply) }
        ensures fault { (in_doubt : Bool) → refusal ≡ Refusal.JournalFault in_doubt → result ≡ Told.JournalFault in_doubt }
    {
        match refusal {
            Refusal::NoMemory => Told::NoMemory,
            Refusal::JournalFault(in_doubt) => Told::JournalFault(in_doubt),
            other => told_by(write_refusal(self.alloc, other, &mut self.body, &mut self.reply)),
        }
    }

    /// Makes a reply, or tells that there was no memory for it.
    pub(crate) fn tell(&mut self, reply: &Reply<'_>) -> Told
        ensures { IsMade reply.now (told_bytes result self.new.reply) }
    {
        match self.make(reply) {
            Ok(()) => Told::Made,
            Err(_) => Told::NoMemory,
        }
    }
}

/// Answers an ask, in the texts. Where the reply is that of want of memory, the disk is as it was.
pub(crate) fn answer<D: Disk>(office: &mut Office<D>, ask: Ask, texts: &mut Texts) -> Told
    requires claims { NoneOut office.old.register }
    ensures answered { IsAnswered office.old.register.history ask (told_bytes result texts.new.reply) office.new.register.history }
    ensures passed { Passes D.Disk office.old.register.history office.new.register.history office.old.disk office.new.disk }
    ensures claims { NoneOut office.new.register }
    ensures unwritten { told_bytes result texts.new.reply ≡ memory_reply → office.new.disk ≡ office.old.disk }
    ensures counted { D.faults office.old.disk ≤ D.faults office.new.disk }
{
    // this runs nothing: it tells the proof what a stop leaves of the disk that is asked nothing
    an_office_stands_on_its_disk(office);
    match ask {
        Ask::Edit(edit) => take_edit(office, edit, texts),
        Ask::Turns(count) => told_by(take_turns(office, count, texts)),
        Ask::Settle => told_by(settle(office, texts)),
        reading => told_by(tell(office, reading, texts)),
    }
}

/// Tells what an ask that only reads asks for; for no turns, how many days are pending.
pub(crate) fn tell<D: Disk>(office: &Office<D>, ask: Ask, texts: &mut Texts) -> Result<(), NoMemory>
    requires { IsReading ask }
    ensures { OnOk result (texts.new.reply ≡ reply_to office.now.register.history ask) }
{
    match ask {
        Ask::Station(site) => tell_station(office, site, texts),
        Ask::DayOf(site, day) => tell_day(office, site, day, texts),
        Ask::SheetOf(site, day) => tell_sheet(office, site, day, texts),
        Ask::Daily(site, from, to) => tell_daily(office, site, from, to, texts),
        Ask::Measurement(site, number) => tell_measurement(office, site, number, texts),
        Ask::EditOf(number) => tell_accepted_edit(office, number, texts),
        Ask::Counts => tell_counts(office, texts),
        Ask::Turns(_) => texts.make(&Reply::Turned {
            pending: office.pending(),
            published: 0,
        }),
        Ask::Edit(_) | Ask::Settle => unreachable!(),
    }
}

/// Takes an edit. The reply to its acceptance is made first, so that want of memory leaves the office and its disk as they were.
fn take_edit<D: Disk>(office: &mut Office<D>, edit: Edit, texts: &mut Texts) -> Told
    requires claims { NoneOut office.old.register }
    ensures answered { IsAnswered office.old.register.history (asks.Edit edit) (told_bytes result texts.new.reply) office.new.register.history }
    ensures passed { Passes D.Disk office.old.register.history office.new.register.history office.old.disk office.new.disk }
    ensures claims { NoneOut office.new.register }
    ensures unwritten { told_bytes result texts.new.reply ≡ memory_reply → office.new.disk ≡ office.old.disk }
    ensures counted { D.faults office.old.disk ≤ D.faults office.new.disk }
{
    // this runs nothing: it tells the proof what a stop leaves where there is no memory for the acceptance's text
    an_office_stands_on_its_disk(office);
    if texts.prepare(office.edits().saturating_add(1)).is_err() {
        return Told::NoMemory;
    }
    tell_edit(office.take(edit), texts)
}

/// Tells what became of an edit. Where it was accepted, the reply to that stands ready.
pub(crate) fn tell_edit(told: Result<Accepted, Refusal>, texts: &mut Texts) -> Told
    ensures answered { (h next : History) (edit : Edit) → Edits h edit next told → texts.old.accepts ≡ Some (min (length (accepted h.events) + 1) (2 ^ 64 - 1))
        → IsAnswered h (asks.Edit edit) (told_bytes result texts.new.reply) next }
    ensures memory { (number : ℕ) → texts.old.accepts ≡ Some number → told_bytes result texts.new.reply ≡ memory_reply → asks_disk told ≡ false }
{
    match told {
        Ok(told) if told.repeated => texts.tell(&Reply::Edit {
            number: told.number,
            repeated: true,
        }),
        Ok(told) => {
            texts.accept();
            made_for(told.number)
        }
        Err(refusal) => texts.refuse(refusal),
    }
}

/// Tells what is in force at a station.
fn tell_station<D: Disk>(office: &Office<D>, site: Site, texts: &mut Texts) -> Result<(), NoMemory>
    ensures { OnOk result (texts.new.reply ≡ reply_to office.now.register.history (asks.Station site)) }
{
    match office.station(site) {
        Some(station) => texts.make(&Reply::Station(station)),
        None => texts.make(&Reply::NoStation),
    }
}

/// Tells what a measurement of a station says of the rating in force.
fn tell_measurement<D: Disk>(
    office: &Office<D>,
    site: Site,
    number: u32,
    texts: &mut Texts,
) -> Result<(), NoMemory>
    ensures { OnOk result (texts.new.reply ≡ reply_to office.now.register.history (asks.Measurement site number)) }
{
    let Some(station) = office.station(site) else {
        return texts.make(&Reply::NoStation);
    };
    match station_departure(station, number) {
        Some(departure) => texts.make(&Reply::Measurement(departure)),
        None => texts.make(&Reply::NoMeasurement),
    }
}

/// Tells by whom and why an accepted edit was made.
fn tell_accepted_edit<D: Disk>(
    office: &Office<D>,
    number: u64,
    texts: &mut Texts,
) -> Result<(), NoMemory>
    ensures { OnOk result (texts.new.reply ≡ reply_to office.now.register.history (asks.EditOf number)) }
{
    match office.edit_at(number) {
        Some(edit) => texts.make(&Reply::EditOf(edit)),
        None => texts.make(&Reply::NoEdit),
    }
}

/// Tells how many edits were accepted, and how many days are pending.
fn tell_counts<D: Disk>(office: &Office<D>, texts: &mut Texts) -> Result<(), NoMemory>
    ensures { OnOk result (texts.new.reply ≡ reply_to office.now.register.history asks.Counts) }
{
    texts.make(&Reply::Counts {
        edits: office.edits(),
        pending: office.pending(),
    })
}

/// Publishes so many days, as far as days are pending.
fn take_turns<D: Disk>(
    office: &mut Office<D>,
    count: u32,
    texts: &mut Texts,
) -> Result<(), NoMemory>
    requires { NoneOut office.old.register }
    ensures reply { OnOk result (texts.new.reply ≡ reply_to office.old.register.history (asks.Turns count)) }
    ensures history { OnOk result (office.new.register.history ≡ history_after office.old.register.history (asks.Turns count)) }
    ensures left { OnErr result (IsLeftBy office.old.register.history (asks.Turns count) office.new.register.history) }
    ensures claims { NoneOut office.new.register }
    ensures disk { office.new.disk ≡ office.old.disk }
{
    let published = turn_often(office, count)?;
    texts.make(&Reply::Turned {
        pending: office.pending(),
        published: u64::from(published),
    })
}

/// Makes so many turns, which end where no day is pending; how many days were published.
fn turn_often<D: Disk>(office: &mut Office<D>, count: u32) -> Result<u32, NoMemory>
    requires { NoneOut office.old.register }
    ensures history { OnOk result (office.new.register.history ≡ history_after office.old.register.history (asks.Turns count)) }
    ensures left { OnErr result (IsLeftBy office.old.register.history (asks.Turns count) office.new.register.history) }
    ensures published { IfOk result (λ published. published ≡ length office.new.register.history.events - length office.old.register.history.events) }
    ensures claims { NoneOut office.new.register }
    ensures disk { office.new.disk ≡ office.old.disk }
{
    for published in 0..count {
        if office.turn()?.is_none() {
            return Ok(published);
        }
    }
    Ok(count)
}

/// Publishes every day that is pending.
fn settle<D: Disk>(office: &mut Office<D>, texts: &mut Texts) -> Result<(), NoMemory>
    requires { NoneOut office.old.register }
    ensures reply { OnOk result (texts.new.reply ≡ reply_to office.old.register.history asks.Settle) }
    ensures history { OnOk result (office.new.register.history ≡ history_after office.old.register.history asks.Settle) }
    ensures left { OnErr result (IsLeftBy office.old.register.history asks.Settle office.new.register.history) }
    ensures claims { NoneOut office.new.register }
    ensures disk { office.new.disk ≡ office.old.disk }
{
    let published = office.settle()?;
    texts.make(&Reply::Turned {
        pending: office.pending(),
        published,
    })
}

/// Which reply is told, where one was made or was not for want of memory.
pub(crate) fn told_by(made: Result<(), NoMemory>) -> Told
    ensures made { OnOk made (result ≡ Told.Made) }
    ensures not { OnErr made (result ≡ Told.NoMemory) }
{
    match made {
        Ok(()) => Told::Made,
        Err(_) => Told::NoMemory,
    }
}

/// The reply to a journal that failed.
fn fault_text(alloc: Global, in_doubt: bool, body: &mut Text) -> Result<Text, NoMemory>
    ensures { IfOk result (λ text. text ≡ fault_reply in_doubt) }
{
    let mut text = Text::new(alloc);
    write_refusal(alloc, Refusal::JournalFault(in_doubt), body, &mut text)?;
    Ok(text)
}

/// The reply to want of memory, which stands ready.
fn no_memory() -> &'static [u8]
    ensures { result.now ≡ memory_reply }
{
    // this runs nothing: it tells the proof that the constant is the reply of the table
    constants_are_replies();
    NO_MEMORY_REPLY
}

/// Makes the reply to a refused edit.
fn write_refusal(
    alloc: Global,
    refusal: Refusal,
    body: &mut Text,
    out: &mut Text,
) -> Result<(), NoMemory>
    ensures { OnOk result (out.new ≡ bytes_of (Reply.Refused refusal)) }
{
    // these run nothing: the proof finds what a reply may borrow among the types that its function names
    let _station: Option<&Station> = None;
    let _day: Option<DayReply<'_>> = None;
    write_reply(alloc, &Reply::Refused(refusal), body, out)
}

/// Which reply an edit gets that was accepted under a number: the one that was made before. The number is taken for the proof alone:
/// that it is one of 64 bits shows that the number in that reply, one more than before, was not cut.
fn made_for(number: u64) -> Told
    ensures made { result ≡ Told.Made }
    ensures number { number < 2 ^ 64 }
{
    // this runs nothing: a clause has the range of a number that the body names
    let _ = number;
    Told::Made
}
