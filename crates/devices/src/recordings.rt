//! The recording of a disk in memory: what it had at first, what each call did, and what it has now.
ghost use Rattle.std.specs.Prelude.{◌≡◌, ◌+◌, ◌^◌, ◌<◌, ◌≤◌, nat_lt, true, false, if◌then◌else◌, length, take, [], IfOk, OnOk, OnErr};
ghost use Rattle.devices.specs.Disks.{Torn, Follows, NothingNew, overwritten};
ghost use Rattle.devices.specs.Failures.{one_more};
ghost use Rattle.devices.specs.MemoryDisks.{MayLeave, blank, changed, content_of, images_of, with_step, IsQuiet, IsNoted, DidNothing, Lists, GoesOn};
ghost use Rattle.devices.specs.Stops.{ChangesWithin, Suits, left_by, stopped};
ghost use Rattle.devices.specs.declared.recordings.Change.TheVariants.{Wrote};

use crate::stops::Unsynced;
use std::alloc::{AllocError, Global};
use std::marker::Model;

/// A write of `count` bytes from the offset `at` on, and the bytes that it left there.
#[derive(Drop)]
pub struct Write {
    at: u64,
    count: u64,
    left: Vec<u8>,
}

impl Model for Write {
    ghost use Rattle.devices.specs.Writes.{Written};

    ghost Value = { Written };

    ghost view = { λ w. record { at = w.at; count = w.count; left = w.left.items } };
}

/// What a call did.
#[derive(Drop)]
pub enum Change {
    /// The content and what a stop may leave are as before.
    Nothing,
    /// A stop leaves the content.
    Synced,
    /// Some bytes were overwritten.
    Wrote(Write),
}

/// A call: whether it failed, and what it did.
#[derive(Drop)]
pub struct Step {
    failed: bool,
    change: Change,
}

/// The content of a disk with all that came to it.
#[derive(Drop)]
pub struct Recording {
    first: Vec<u8>,
    bytes: Vec<u8>,
    steps: Vec<Step>,
    unlisted: u64,
}

impl Model for Recording {
    ghost use Rattle.devices.specs.MemoryDisks.{Recorded};
    ghost use Rattle.devices.specs.Stops.{IsRecording};

    ghost Value = { Recorded };

    ghost view = { λ r. record { first = r.first.items; steps = r.steps.items; unlisted = r.unlisted } };

    ghost invariant = { λ r. IsRecording r.first.items r.steps.items r.bytes.items };
}

impl Recording {
    /// A disk without bytes and calls. Takes no memory.
    pub fn empty(alloc: Global) -> Self
        ensures { result ≡ blank [] }
    {
        Recording {
            first: Vec::new(alloc),
            bytes: Vec::new(alloc),
            steps: Vec::new(alloc),
            unlisted: 0,
        }
    }

    /// A disk with these bytes at first.
    pub fn new(alloc: Global, bytes: Vec<u8>) -> Result<Self, AllocError>
        ensures { IfOk result (λ r. r ≡ blank bytes.items) }
    {
        Ok(Recording {
            first: bytes.to_vec(alloc)?,
            bytes,
            steps: Vec::new(alloc),
            unlisted: 0,
        })
    }

    /// The content now.
    pub fn bytes(&self) -> &[u8]
        ensures { result.now ≡ content_of self.now }
    {
        &self.bytes
    }

    /// There was no room for a call. Each later call fails too, since the list is in order.
    pub fn is_stuck(&self) -> bool
        ensures { result ≡ nat_lt 0 self.now.unlisted }
    {
        self.unlisted > 0
    }

    /// Lists a call that leaves the content, and tells whether there was room for it.
    pub fn list(&mut self, failed: bool, change: Change) -> bool
        requires { IsQuiet change }
        ensures noted { IsNoted result (record { failed = failed; change = change }) self.old self.new }
        ensures same { content_of self.new ≡ content_of self.old }
        ensures images { NothingNew (images_of self.old) (images_of self.new) }
        ensures time { GoesOn self.old self.new }
        ensures listed { Lists (if result then failed else true) self.old self.new }
        ensures unlisted { self.new.unlisted ≤ one_more self.old.unlisted }
    {
        if self.unlisted == 0 && self.steps.push(Step { failed, change }).is_ok() {
            return true;
        }
        self.unlisted = self.unlisted.saturating_add(1);
        false
    }

    /// Writes these bytes, of a write of `count`, lists the call, and tells so. Where memory is wanting the call
    /// changes nothing, and is listed as one that failed if there is room for that.
    pub fn write(&mut self, failed: bool, at: u64, count: u64, left: &[u8]) -> bool
        requires begins { at ≤ length (content_of self.old) }
        requires ends { at + count < 2 ^ 64 }
        requires front { length left.now ≤ count }
        ensures noted { result ≡ true → self.new ≡ with_step (record { failed = failed; change = Wrote (record { at = at; count = count; left = left.now }) }) self.old }
        ensures nothing { result ≡ false → DidNothing self.old self.new }
        ensures written { result ≡ true → content_of self.new ≡ overwritten (content_of self.old) at left.now }
        ensures same { result ≡ false → content_of self.new ≡ content_of self.old }
        ensures images { Follows (Torn at count) (images_of self.old) (images_of self.new) }
        ensures time { GoesOn self.old self.new }
        ensures listed { Lists (if result then failed else true) self.old self.new }
        ensures unlisted { self.new.unlisted ≤ (if result then 0 else one_more self.old.unlisted) }
    {
        if self.unlisted == 0 && self.try_write(failed, at, count, left).is_ok() {
            return true;
        }
        self.list(true, Change::Nothing);
        false
    }

    fn try_write(
        &mut self,
        failed: bool,
        at: u64,
        count: u64,
        left: &[u8],
    ) -> Result<(), AllocError>
        requires begins { at ≤ length (content_of self.old) }
        requires ends { at + count < 2 ^ 64 }
        requires front { length left.now ≤ count }
        ensures ok { OnOk result (self.new ≡ with_step (record { failed = failed; change = Wrote (record { at = at; count = count; left = left.now }) }) self.old) }
        ensures err { OnErr result (self.new ≡ self.old) }
    {
        let write = Write {
            at,
            count,
            left: left.to_vec(*self.bytes.allocator())?,
        };
        self.steps.reserve(1)?;
        overwrite(&mut self.bytes, at as usize, left)?;
        self.steps.push_reserved(Step {
            failed,
            change: Change::Wrote(write),
        });
        Ok(())
    }

    /// What a stop behind the first so many of the listed calls leaves, or behind all of them where there are fewer, by what becomes of the
    /// bytes that were written behind the last sync that was done.
    pub fn stopped(
        &self,
        alloc: Global,
        calls: usize,
        unsynced: Unsynced,
    ) -> Result<Vec<u8>, AllocError>
        ensures left { IfOk result (λ image. image.items ≡ stopped unsynced self.now calls) }
        ensures is_image { IfOk result (λ image. MayLeave self.now.first (take calls self.now.steps) image.items) }
    {
        let mut content = self.first.to_vec(alloc)?;
        let mut image = self.first.to_vec(alloc)?;
        for step in &self.steps[..calls.min(self.steps.len())] {
            leave(unsynced, &mut image, &content, &step.change)?;
            follow(&mut content, &step.change)?;
        }
        Ok(image)
    }
}

// Goes on with the content, over a call.
fn follow(content: &mut Vec<u8>, change: &Change) -> Result<(), AllocError>
    requires { ChangesWithin content.old.items change.now }
    ensures { OnOk result (content.new.items ≡ changed content.old.items change.now) }
{
    match change {
        Change::Wrote(write) => overwrite(content, write.at as usize, &write.left),
        _ => Ok(()),
    }
}

// What a stop leaves after a call, of what one before it had left and of the content before that call.
fn leave(
    unsynced: Unsynced,
    image: &mut Vec<u8>,
    content: &[u8],
    change: &Change,
) -> Result<(), AllocError>
    requires within { ChangesWithin content.now change.now }
    requires suits { Suits unsynced image.old.items content.now }
    ensures { OnOk result (image.new.items ≡ left_by unsynced image.old.items content.now change.now) }
{
    match change {
        Change::Nothing => {}
        Change::Synced => *image = content.to_vec(*image.allocator())?,
        Change::Wrote(write) => match unsynced {
            Unsynced::Kept => overwrite(image, write.at as usize, &write.left)?,
            Unsynced::Lost => {}
            Unsynced::Ones => {
                let mut ones = Vec::new(*image.allocator());
                ones.resize(write.left.len(), 1)?;
                overwrite(image, write.at as usize, &ones)?;
            }
        },
    }
    Ok(())
}

// Puts bytes at an offset, over what is there and past the end.
fn overwrite(content: &mut Vec<u8>, at: usize, bytes: &[u8]) -> Result<(), AllocError>
    requires begins { at ≤ length content.old.items }
    requires ends { at + length bytes.now < 2 ^ 64 }
    ensures ok { OnOk result (content.new.items ≡ overwritten content.old.items at bytes.now) }
    ensures err { OnErr result (content.new.items ≡ content.old.items) }
{
    let inside = bytes.len().min(content.len() - at);
    content.extend_from_slice(&bytes[inside..])?;
    content[at..at + inside].copy_from_slice(&bytes[..inside]);
    Ok(())
}
