//! The outside as traits: sources of bytes, sinks, desks of named texts, doors that connections come through,
//! spawners that run works beside their caller, and a reader of lines.
//!
//! Each trait counts the faults of its object, and an answer `Failed` comes only where that count
//! rose in the call. What an object has left or holds is told by those in memory, and not by files,
//! terminals and sockets: contracts see it as an `Option` of bytes.
#![tactic(auto)]

pub use adapters::{ReaderSource, WriterSink};
pub use call_spawners::{CallSpawner, Started};
pub use desks::{Desk, DeskFault, FETCH_LIMIT};
pub use doors::Door;
pub use faults::Failed;
pub use files::FileDesk;
pub use lines::{CAP_LIMIT, LineReader, NextLine};
pub use list_spawners::{ListSpawner, Ran};
pub use memory_desks::MemDesk;
pub use memory_doors::MemDoor;
pub use memory_sinks::MemSink;
pub use memory_sources::MemSource;
pub use outlets::Outlet;
pub use scripts::{COMMAND_LIMIT, split_script_line};
pub use sinks::{Sink, write_whole};
pub use sources::Source;
pub use tcp_doors::TcpDoor;
pub use tcp_ends::{TcpSink, TcpSource};
pub use works::{Spawner, Work};

mod adapters;
mod call_spawners;
mod desks;
mod doors;
mod fault_plans;
mod faults;
mod files;
mod host_notes;
mod lines;
mod list_spawners;
mod memory_desks;
mod memory_doors;
mod memory_sinks;
mod memory_sources;
mod outlets;
mod scripts;
mod sinks;
mod sources;
mod tcp_doors;
mod tcp_ends;
mod works;
