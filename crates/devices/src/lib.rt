//! The world outside as traits with counts of faults, objects in memory that tell everything and can fail
//! on command, and adapters over the standard streams, files, TCP and threads.
#![tactic(auto)]

pub mod cabinets;
pub mod disks;
pub mod doors;
pub mod failures;
pub mod files;
pub mod gates;
pub mod loopback;
pub mod memory_cabinet;
pub mod memory_disk;
pub mod memory_doors;
pub mod memory_sink;
pub mod memory_source;
pub mod recordings;
pub mod sinks;
pub mod sources;
pub mod spawners;
pub mod standard;
pub mod stops;

pub use cabinets::{Cabinet, Opened};
pub use disks::{Disk, DiskFailed};
pub use doors::{DoorFailed, Doors, Next};
pub use failures::Failures;
pub use files::{FileCabinet, FileDisk};
pub use gates::{Gate, OpenGate};
pub use loopback::{ClosedEnds, LoopbackDoors, TcpSink, TcpSource};
pub use memory_cabinet::MemoryCabinet;
pub use memory_disk::MemoryDisk;
pub use memory_doors::{MemoryDoors, MemoryEnds};
pub use memory_sink::MemorySink;
pub use memory_source::MemorySource;
pub use sinks::{Put, Sink, put_all};
pub use sources::{Source, Took};
pub use spawners::{HandsBack, Spawner, Started, Task, ThreadSpawner, start};
pub use standard::{
    ReaderSource, StderrSink, StdinSource, StdoutSink, WriterSink, take_up_missing_streams,
};
pub use stops::Unsynced;
