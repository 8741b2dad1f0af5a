//! Where a source, a sink and the gate of workers wait for one another.

ghost use Rattle.std.specs.Prelude.{◌+◌, None, Some};

use crate::runs::{sink, source_of};
use devices::{Gate, MemorySink, MemorySource, Put, Sink, Source, Took};
use fixed_units::{Day, NoMemory, Site};
use std::alloc::Global;
use std::sync::Arc;
use std::sync::atomic::{AtomicBool, AtomicU64, Ordering};
use std::thread;

/// How often it is looked for what is waited for.
const MOST_TURNS: u64 = 1_000_000_000;

/// What has come so far, as those who wait see it.
#[derive(Drop)]
pub struct Meeting {
    workers: AtomicU64,
    written: AtomicU64,
    in_vain: AtomicBool,
}

impl Meeting {
    /// Nothing has come.
    pub fn new() -> Meeting {
        Meeting {
            workers: AtomicU64::new(0),
            written: AtomicU64::new(0),
            in_vain: AtomicBool::new(false),
        }
    }

    /// Waits for the count of so many, but not for ever.
    fn wait(&self, count: &AtomicU64, due: u64) {
        for _turn in 0..MOST_TURNS {
            if count.load(Ordering::SeqCst) >= due {
                return;
            }
            thread::yield_now();
        }
        self.in_vain.store(true, Ordering::SeqCst);
    }

    /// Whether so many workers have come to the gate.
    pub fn has_come(&self, due: u64) -> bool {
        self.workers.load(Ordering::SeqCst) >= due
    }

    /// Whether somebody waited for what did not come.
    pub fn was_in_vain(&self) -> bool {
        self.in_vain.load(Ordering::SeqCst)
    }
}

/// A gate that holds each worker until so many workers have come and so many bytes were written. One without a meeting holds nobody.
#[derive(Drop)]
pub struct HoldingGate {
    meeting: Option<Arc<Meeting>>,
    workers: u64,
    written: u64,
}

impl HoldingGate {
    /// A gate of a meeting; where that cannot be shared once more it holds nobody, and whoever waits for a worker does so in vain.
    pub fn new(meeting: &Arc<Meeting>, workers: u64, written: u64) -> HoldingGate {
        HoldingGate {
            meeting: meeting.clone().ok(),
            workers,
            written,
        }
    }
}

impl Gate for HoldingGate {
    fn pass(&self, _site: Site, _day: Day) {
        let Some(meeting) = &self.meeting else {
            return;
        };
        meeting.workers.fetch_add(1, Ordering::SeqCst);
        meeting.wait(&meeting.workers, self.workers);
        meeting.wait(&meeting.written, self.written);
    }

    fn again(&self) -> HoldingGate {
        HoldingGate {
            meeting: self
                .meeting
                .as_ref()
                .and_then(|meeting| meeting.clone().ok()),
            workers: self.workers,
            written: self.written,
        }
    }
}

/// A source whose second part is held back until a worker has come to the gate.
#[derive(Drop)]
pub struct HeldSource {
    first: MemorySource,
    later: MemorySource,
    meeting: Arc<Meeting>,
}

impl HeldSource {
    /// A source of these two parts.
    pub fn new(
        alloc: Global,
        meeting: Arc<Meeting>,
        first: &[u8],
        later: &[u8],
    ) -> Result<HeldSource, NoMemory> {
        let first = source_of(alloc, &[first])?;
        let later = source_of(alloc, &[later])?;
        Ok(HeldSource {
            first,
            later,
            meeting,
        })
    }
}

impl Source for HeldSource {
    ghost left = { λ s. None };

    ghost faults = { λ s. s.first.counts.faults + s.later.counts.faults };

    ghost ends = { λ s. s.later.ends };

    fn take(&mut self, into: &mut [u8]) -> Took {
        match self.first.take(into) {
            Took::End => {
                self.meeting.wait(&self.meeting.workers, 1);
                self.later.take(into)
            }
            took => took,
        }
    }
}

/// A sink that tells those who wait how many bytes were written.
#[derive(Drop)]
pub struct ToldSink {
    sink: MemorySink,
    meeting: Arc<Meeting>,
}

impl ToldSink {
    /// A sink without a byte.
    pub fn new(alloc: Global, meeting: Arc<Meeting>) -> ToldSink {
        ToldSink {
            sink: sink(alloc),
            meeting,
        }
    }

    /// What was written.
    pub fn bytes(&self) -> &[u8] {
        self.sink.bytes()
    }
}

impl Sink for ToldSink {
    ghost written = { λ s. Some s.sink.written };

    ghost faults = { λ s. s.sink.counts.faults };

    fn put(&mut self, bytes: &[u8]) -> Put {
        let put = self.sink.put(bytes);
        let written = self.sink.bytes().len() as u64;
        self.meeting.written.store(written, Ordering::SeqCst);
        put
    }
}
