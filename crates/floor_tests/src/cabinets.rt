//! What the system's files do as disks of a cabinet.

use devices::{Cabinet, Disk, FileCabinet, FileDisk, Opened};
use std::fs;

/// Overwrites the first four bytes of a file; there are no others.
fn overwrite(disk: &mut FileDisk, bytes: &[u8; 4]) -> bool {
    disk.write_at(0, bytes).is_ok() && disk.read_at(4, &mut [0]).is_err()
}

/// Whether there is a file at a path, which is used and kept.
fn is_file(cabinet: &mut FileCabinet, path: &str, make: bool, bytes: &[u8; 4]) -> bool {
    match cabinet.open(path, make) {
        Opened::Disk(mut disk) => {
            let written = overwrite(&mut disk, bytes);
            cabinet.keep(path, disk);
            written
        }
        _ => false,
    }
}

fn is_absent(cabinet: &mut FileCabinet, path: &str) -> bool {
    matches!(cabinet.open(path, false), Opened::Absent)
}

fn is_failed(cabinet: &mut FileCabinet, path: &str, make: bool) -> bool {
    matches!(cabinet.open(path, make), Opened::Failed)
}

const FOLDER: &str = "rows_cabinet";

const JOURNAL: &str = "rows_cabinet/journal";

/// A folder is no file, and asking for it is a fault.
fn a_folder_is_no_file(cabinet: &mut FileCabinet) -> bool {
    is_absent(cabinet, JOURNAL)
        && cabinet.fault_count() == 0
        && is_failed(cabinet, FOLDER, false)
        && cabinet.fault_count() == 1
        && is_failed(cabinet, FOLDER, true)
        && cabinet.fault_count() == 2
}

/// The file is made, and given again whether it may be made or not; what its use leaves is a fault each time.
fn the_journal_is_kept(cabinet: &mut FileCabinet) -> bool {
    is_file(cabinet, JOURNAL, true, b"made")
        && cabinet.fault_count() == 3
        && is_file(cabinet, JOURNAL, true, b"kept")
        && cabinet.fault_count() == 4
        && is_file(cabinet, JOURNAL, false, b"9.50")
        && cabinet.fault_count() == 5
}

/// Whether a file has these bytes.
fn has(rt: &HostRuntime, path: &str, due: &[u8]) -> bool {
    match fs::read(rt, path) {
        Ok(bytes) => bytes.as_slice() == due,
        Err(_) => false,
    }
}

fn serves(cabinet: &mut FileCabinet) -> bool {
    a_folder_is_no_file(cabinet) && the_journal_is_kept(cabinet)
}

#[test]
fn a_cabinet_of_files(rt: HostRuntime) {
    let _ = fs::remove_dir_all(&rt, FOLDER);
    let _ = fs::create_dir(&rt, FOLDER);
    let went = serves(&mut FileCabinet::new(rt));
    let left = has(&rt, JOURNAL, b"9.50");
    let _ = fs::remove_dir_all(&rt, FOLDER);
    assert!(rt; went && left);
}

const LOCKED: &str = "rows_lock";

fn is_given(cabinet: &mut FileCabinet) -> bool {
    matches!(cabinet.open(LOCKED, false), Opened::Disk(_))
}

/// Whether nothing is given while a file is out, neither a new one nor the one that is there.
fn is_locked(cabinet: &mut FileCabinet) -> bool {
    is_failed(cabinet, LOCKED, true)
        && is_failed(cabinet, LOCKED, false)
        && cabinet.fault_count() == 2
}

/// Takes a file out and keeps it; whether it was open once.
fn is_open_once(cabinet: &mut FileCabinet) -> bool {
    match cabinet.open(LOCKED, true) {
        Opened::Disk(disk) => {
            let locked = is_locked(cabinet);
            cabinet.keep(LOCKED, disk);
            locked
        }
        _ => false,
    }
}

#[test]
fn a_file_is_open_once(rt: HostRuntime) {
    let mut cabinet = FileCabinet::new(rt);
    let once = is_open_once(&mut cabinet);
    let again = is_given(&mut cabinet);
    let removed = fs::remove_file(&rt, LOCKED).is_ok();
    assert!(rt; once && again && removed);
}
