//! What a real file does as a disk.

use devices::{Cabinet, Disk, DiskFailed, FileCabinet, FileDisk, Opened};
use std::fs;

const FILE: &str = "rows_disk";

/// Whether the five bytes from an offset on are read, and are these.
fn reads(disk: &mut FileDisk, at: u64, due: &[u8; 5]) -> bool {
    let mut room = [0; 5];
    disk.read_at(at, &mut room).is_ok() && room == *due
}

fn writes(disk: &mut FileDisk, at: u64, bytes: &[u8]) -> bool {
    if at > 100 || bytes.len() > 100 {
        return false;
    }
    disk.write_at(at, bytes).is_ok()
}

fn writes_all(disk: &mut FileDisk) -> bool {
    disk.len() == Ok(0)
        && writes(disk, 0, b"stage 9.50")
        && writes(disk, 1, b"TAG")
        && disk.sync().is_ok()
}

fn reads_all(disk: &mut FileDisk) -> bool {
    reads(disk, 0, b"sTAGe") && disk.len() == Ok(10) && reads(disk, 5, b" 9.50")
}

/// Whether nothing is read that stands partly behind the end, which is a fault.
fn fails_behind_its_end(disk: &mut FileDisk) -> bool {
    let failed = disk.read_at(6, &mut [0; 5]) == Err(DiskFailed);
    failed && disk.fault_count() == 1
}

fn is_a_disk(cabinet: &mut FileCabinet) -> bool {
    match cabinet.open(FILE, true) {
        Opened::Disk(mut disk) => {
            writes_all(&mut disk) && reads_all(&mut disk) && fails_behind_its_end(&mut disk)
        }
        _ => false,
    }
}

#[test]
fn a_file_as_a_disk(rt: HostRuntime) {
    let _ = fs::remove_file(&rt, FILE);
    let went = is_a_disk(&mut FileCabinet::new(rt));
    let _ = fs::remove_file(&rt, FILE);
    assert!(rt; went);
}
