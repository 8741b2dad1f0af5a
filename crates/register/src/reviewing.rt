//! What reviews and approvals need of an office: what refuses them, the record of an approval with its sheets, and the sheet of a day.

ghost use Rattle.std.specs.Prelude.{◌≡◌, map, filter, true, None, option_map, IfOk};
ghost use Rattle.approval.specs.Statuses.{first_day_of, spans};
ghost use Rattle.edits.specs.Lawful.{IsLawful, IsReviewSpan};
ghost use Rattle.fixed_units.specs.Calendar.{calendar};
ghost use Rattle.fixed_units.specs.Quantities.{IsDay};
ghost use Rattle.history.specs.Awaited.{is_pending, value_at};
ghost use Rattle.history.specs.Sheets.{shown_at};
ghost use Rattle.history.specs.Statuses.{sheet_in, stored_sheet};
ghost use Rattle.history.specs.Verdicts.{awaiting, awaits_by, or_else, record_of, refused_as_awaiting, refused_by_statuses, sheets_of};
ghost use Rattle.records.specs.Sheets.{AreSheetsOf, AreSheetsOfDays};
ghost use Rattle.register.specs.Asked.{sheet_told};
ghost use Rattle.sheets.specs.Sheets.{sheet};

use crate::answers::Sheet;
use crate::registers::Register;
use edits::{Decision, Edit, What};
use fixed_units::{Day, NoMemory, Site};
use office_inputs::Refusal;
use records::{Record, SheetList};
use sheets::sheet_text;

impl Register {
    /// Why the statuses of its days refuse an edit, or which of them awaits an edit where that is an approval. It takes no memory.
    pub(crate) fn review_refusal(&self, edit: &Edit) -> Option<Refusal>
        ensures { result ≡ or_else (refused_by_statuses self.now.history edit.now) (refused_as_awaiting self.now.history edit.now) }
    {
        if let Some(refusal) = self.status_refusal(edit) {
            return Some(refusal);
        }
        match &edit.what {
            What::Decide { from, to, decision } => match decision {
                Decision::Approve => self.awaiting(edit.site, *from, *to),
                Decision::Rescind => None,
            },
            _ => None,
        }
    }

    /// Why the statuses of its days refuse an edit. It takes no memory.
    pub(crate) fn status_refusal(&self, edit: &Edit) -> Option<Refusal>
        ensures { result ≡ refused_by_statuses self.now.history edit.now }
    {
        let objection = self.statuses.objection(edit)?;
        Some(objection.into())
    }

    /// The first day from one to another, both included, that awaits an edit, with that edit, as a refusal.
    fn awaiting(&self, site: Site, from: Day, to: Day) -> Option<Refusal>
        ensures { result ≡ awaits_by self.now.history.events site (first_day_of (is_pending self.now.history.events site) from to) }
    {
        for number in from.get()..to.get() + 1 {
            let day = day_of(number);
            if let Some(edit) = self.cells.awaited(site, day) {
                return Some(Refusal::Awaits(day, edit));
            }
        }
        None
    }

    /// The record of an edit, none of whose days awaits an edit where it is an approval.
    pub(crate) fn record_of(&self, edit: Edit) -> Result<Record, NoMemory>
        requires { refused_as_awaiting self.now.history edit ≡ None }
        ensures { IfOk result (λ piece. piece ≡ record_of self.now.history edit) }
    {
        let sheets = self.sheets_of(edit.site, &edit.what)?;
        match Record::new(edit, sheets) {
            Some(piece) => Ok(piece),
            None => unreachable!(),
        }
    }

    /// The sheets that an edit of a site keeps, none of whose days awaits an edit where it is an approval.
    fn sheets_of(&self, site: Site, what: &What) -> Result<SheetList, NoMemory>
        requires lawful { IsLawful what.now }
        requires awaits_none { awaiting self.now.history.events site what.now ≡ None }
        ensures texts { IfOk result (λ sheets. sheets ≡ sheets_of self.now.history.events site what.now) }
        ensures lawful { IfOk result (λ sheets. AreSheetsOf what.now sheets) }
    {
        match what {
            What::Decide { from, to, decision } => match decision {
                Decision::Approve => self.day_sheets(site, *from, *to),
                Decision::Rescind => Ok(SheetList::new(self.alloc)),
            },
            _ => Ok(SheetList::new(self.alloc)),
        }
    }

    /// The sheets of the days from one to another, both included, as they are approved.
    fn day_sheets(&self, site: Site, from: Day, to: Day) -> Result<SheetList, NoMemory>
        requires span { IsReviewSpan from to }
        requires awaits_none { first_day_of (is_pending self.now.history.events site) from to ≡ None }
        ensures texts { IfOk result (λ sheets. sheets ≡ map (λ day. sheet site day (value_at self.now.history.events site day) true) (filter (spans from to) calendar)) }
        ensures lawful { IfOk result (λ sheets. AreSheetsOfDays from to sheets) }
    {
        let mut sheets = SheetList::new(self.alloc);
        for number in from.get()..to.get() + 1 {
            let day = day_of(number);
            let text = sheet_text(self.alloc, site, day, self.cells.value(site, day), true)?;
            sheets.push(text)?;
        }
        Ok(sheets)
    }

    /// The sheet of a day: that which is kept of it where it is approved, or else that of its value, where it awaits no edit.
    pub fn sheet(&self, site: Site, day: Day) -> Result<Sheet<'_>, NoMemory>
        ensures { IfOk result (λ sheet. sheet_told sheet ≡ shown_at self.now.history.events site day) }
    {
        if self.inputs.station(site).is_none() {
            return Ok(Sheet::NoStation);
        }
        if let Some(text) = self.kept_sheet(site, day) {
            return Ok(Sheet::Kept(text));
        }
        if let Some(edit) = self.cells.awaited(site, day) {
            return Ok(Sheet::Pending(edit));
        }
        let text = sheet_text(self.alloc, site, day, self.cells.value(site, day), false)?;
        Ok(Sheet::Computed(text))
    }

    /// The sheet that is kept of an approved day, or `None` exactly where it is not approved. It takes no memory.
    fn kept_sheet(&self, site: Site, day: Day) -> Option<&[u8]>
        ensures { option_map (λ text. text.now) result ≡ stored_sheet self.now.history.events site day }
    {
        let number = self.statuses.approving_edit(site, day)?;
        let piece = self.edit(number)?;
        sheet_in(piece, day)
    }
}

/// The sheet of a day in the record of its approval, or `None` exactly where the record approves no such day.
fn sheet_in(piece: &Record, day: Day) -> Option<&[u8]>
    ensures { option_map (λ text. text.now) result ≡ sheet_in day piece.now }
{
    match &piece.edit().what {
        What::Decide {
            from,
            to,
            decision: Decision::Approve,
        } => {
            if spans(*from, *to, day) {
                piece.sheets().get(day.get().abs_diff(from.get()) as usize)
            } else {
                None
            }
        }
        _ => None,
    }
}

/// Whether the day is one of those from one to another, both included.
fn spans(from: Day, to: Day, day: Day) -> bool
    ensures { result ≡ spans from to day }
{
    from <= day && day <= to
}

/// The day of a number.
fn day_of(number: i32) -> Day
    requires { IsDay number }
    ensures { result ≡ number }
{
    match Day::new(number) {
        Some(day) => day,
        None => unreachable!(),
    }
}
