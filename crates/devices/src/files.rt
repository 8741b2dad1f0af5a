//! Adapters: a file as a disk, and the system's files as a cabinet. They tell nothing of content, since no clause can
//! say what a file has.
ghost use Rattle.std.specs.Prelude.{◌≡◌, ◌≤◌, [], true, None, Ok, IfOk, IsErr, OnOk, OnErr};
ghost use Rattle.devices.specs.Disks.{HasCause};
ghost use Rattle.devices.specs.Files.{tells_nothing};

use crate::{Cabinet, Disk, DiskFailed, Opened};
use std::fs::{File, OpenOptions};
use std::io;
use std::io::ErrorKind;
use std::os::fd::AsRawFd;
use std::os::unix::fs::FileExt;
use std::path::Path;

/// An open file as a disk, with its count of faults. It has the file's lock, and is closed where it is dropped.
///
/// After a sync that failed it fails each write and each sync. The system forgets such a failure: what has not reached
/// the disk counts as written, and the next sync would answer `Ok` without it.
#[derive(Drop)]
pub struct FileDisk {
    file: File,
    faults: u64,
    sync_failed: bool,
}

impl FileDisk {
    /// How many faults there were since the file was opened.
    pub fn fault_count(&self) -> u64
        ensures { result ≡ self.now.faults }
    {
        self.faults
    }

    fn answer<T: Drop>(&mut self, outcome: io::Result<T>) -> Result<T, DiskFailed>
        ensures done { IfOk outcome (λ value. (result ≡ Ok value) × (self.new ≡ self.old)) }
        ensures failed { OnErr outcome (IsErr result) }
        ensures counted { self.old.faults ≤ self.new.faults }
        ensures cause { HasCause self.old.faults self.new.faults result }
        ensures same_bar { self.new.sync_failed ≡ self.old.sync_failed }
    {
        match outcome {
            Ok(value) => Ok(value),
            Err(_) => {
                self.faults = self.faults.saturating_add(1);
                Err(DiskFailed)
            }
        }
    }

    // A write, unless a sync has failed.
    fn write_file(&self, at: u64, bytes: &[u8]) -> io::Result<()>
        ensures barred { self.now.sync_failed ≡ true → IsErr result }
    {
        if self.sync_failed {
            return Err(io::Error::from(ErrorKind::Other));
        }
        self.file.write_all_at(bytes, at)
    }

    // A sync, unless one has failed.
    fn sync_file(&mut self) -> io::Result<()>
        ensures barred { self.old.sync_failed ≡ true → IsErr result }
        ensures bars { OnErr result (self.new.sync_failed ≡ true) }
        ensures stays { OnOk result (self.new.sync_failed ≡ self.old.sync_failed) }
        ensures faults { self.new.faults ≡ self.old.faults }
    {
        if self.sync_failed {
            return Err(io::Error::from(ErrorKind::Other));
        }
        let outcome = self.file.sync_data();
        self.sync_failed = outcome.is_err();
        outcome
    }
}

// What is left out of the trait's clauses speaks of a content that is told.
impl Disk for FileDisk {
    ghost content = { λ _. None };

    ghost may_leave = { λ _ _. ⊥ };

    ghost moment = { λ _. 0 };

    ghost left_since = { λ _ _ _. ⊥ };

    ghost calls = { λ _. [] };

    ghost faults = { λ d. d.faults };

    ghost stands = { λ d bytes is. tells_nothing bytes is };

    ghost counts_now = { λ d from image le left. left };

    ghost only_now = { λ d image left. left };

    fn len(&mut self) -> Result<u64, DiskFailed>
        ensures same_bar { self.new.sync_failed ≡ self.old.sync_failed }
        ensures done { OnOk result (self.new.faults ≡ self.old.faults) }
        ensures counted { self.old.faults ≤ self.new.faults }
        ensures cause { HasCause self.old.faults self.new.faults result }
    {
        let metadata = self.file.metadata();
        Ok(self.answer(metadata)?.len())
    }

    fn read_at(&mut self, at: u64, into: &mut [u8]) -> Result<(), DiskFailed>
        ensures same_bar { self.new.sync_failed ≡ self.old.sync_failed }
        ensures done { OnOk result (self.new.faults ≡ self.old.faults) }
        ensures counted { self.old.faults ≤ self.new.faults }
        ensures cause { HasCause self.old.faults self.new.faults result }
    {
        let outcome = self.file.read_exact_at(into, at);
        self.answer(outcome)
    }

    fn write_at(&mut self, at: u64, bytes: &[u8]) -> Result<(), DiskFailed>
        ensures barred { self.old.sync_failed ≡ true → IsErr result }
        ensures same_bar { self.new.sync_failed ≡ self.old.sync_failed }
        ensures done { OnOk result (self.new.faults ≡ self.old.faults) }
        ensures counted { self.old.faults ≤ self.new.faults }
        ensures cause { HasCause self.old.faults self.new.faults result }
    {
        let outcome = self.write_file(at, bytes);
        self.answer(outcome)
    }

    fn sync(&mut self) -> Result<(), DiskFailed>
        ensures barred { self.old.sync_failed ≡ true → IsErr result }
        ensures bars { OnErr result (self.new.sync_failed ≡ true) }
        ensures stays { OnOk result (self.new.sync_failed ≡ self.old.sync_failed) }
        ensures done { OnOk result (self.new.faults ≡ self.old.faults) }
        ensures counted { self.old.faults ≤ self.new.faults }
        ensures cause { HasCause self.old.faults self.new.faults result }
    {
        let outcome = self.sync_file();
        self.answer(outcome)
    }
}

/// The system's files as a cabinet: a name is a path. A file that is open here can't be opened again, by this process or
/// another that asks for its lock, and is opened as it is on the disk.
#[derive(Drop)]
pub struct FileCabinet {
    rt: HostRuntime,
    faults: u64,
}

impl FileCabinet {
    /// All files that the process may reach, with no fault so far.
    pub fn new(rt: HostRuntime) -> Self
        ensures { result.faults ≡ 0 }
    {
        FileCabinet { rt, faults: 0 }
    }

    /// How many faults there were.
    pub fn fault_count(&self) -> u64
        ensures { result ≡ self.now.faults }
    {
        self.faults
    }
}

impl Cabinet for FileCabinet {
    type Disk = FileDisk;

    ghost places = { λ _. None };

    ghost faults = { λ c. c.faults };

    fn open(&mut self, name: &str, make: bool) -> Opened<FileDisk> {
        match open_file(&self.rt, name, make) {
            Ok(file) => Opened::Disk(FileDisk {
                file,
                faults: 0,
                sync_failed: false,
            }),
            Err(error) if !make && error.kind() == ErrorKind::NotFound => Opened::Absent,
            Err(_) => {
                self.faults = self.faults.saturating_add(1);
                Opened::Failed
            }
        }
    }

    fn keep(&mut self, _name: &str, disk: FileDisk) {
        if disk.faults > 0 {
            self.faults = self.faults.saturating_add(1);
        }
    }
}

// Opens a file and takes its lock. Where it may make the file it syncs the folder too, so that the name is there after a
// stop, also where an earlier call made the file and failed then.
fn open_file(rt: &HostRuntime, name: &str, make: bool) -> io::Result<File> {
    let file = OpenOptions::new()
        .read(true)
        .write(true)
        .create(make)
        .open(rt, name)?;
    take_file(&file)?;
    if make {
        sync_folder(rt, name)?;
    }
    Ok(file)
}

// Takes the lock of a file that may be a disk. The lock goes where the file is closed.
fn take_file(file: &File) -> io::Result<()> {
    // It has the number of a standard stream, and would get what is meant for that.
    if file.as_raw_fd() <= 2 {
        return Err(io::Error::from(ErrorKind::Other));
    }
    // A device tells length 0 whatever it has, and would pass for an empty file.
    if !file.metadata()?.is_file() {
        return Err(io::Error::from(ErrorKind::Other));
    }
    file.try_lock()?;
    forget_pages(file)
}

// Has the system forget what it keeps of a file in memory, so that reads give what is on the disk. A sync that failed
// in an earlier run may have left pages that count as written and are in memory alone; to write them again is not
// enough, since a file system may have forgotten what else it owes the disk for them. Pages that are not written yet
// are kept, so it syncs first.
fn forget_pages(file: &File) -> io::Result<()> {
    file.sync_data()?;
    match libc::posix_fadvise(file.as_raw_fd(), 0, 0, libc::POSIX_FADV_DONTNEED) {
        0 => Ok(()),
        error => Err(io::Error::from_raw_os_error(error)),
    }
}

fn sync_folder(rt: &HostRuntime, name: &str) -> io::Result<()> {
    let folder = match Path::new(name).parent() {
        Some(folder) if !folder.as_str().is_empty() => folder.as_str(),
        _ => ".",
    };
    File::open(rt, folder)?.sync_all()
}
