//! The machine's own outside: files of a folder, standard input and output, one connection over TCP, the wall clock, a
//! pause, a file that is read once, and standard error. None of them tells its bytes, so no contract speaks of what is in
//! them; each counts the calls that failed.
#![tactic(auto)]

mod cause;
mod file_source;
mod folder_disk;
mod folder_lock;
mod host_clock;
mod host_pause;
mod place_file;
mod standard_descriptors;
mod std_link;
mod std_sink;
mod system_call;
mod tcp_link;

pub use cause::{Cause, Why};
pub use file_source::FileSource;
pub use folder_disk::FolderDisk;
pub use folder_lock::FolderLock;
pub use host_clock::HostClock;
pub use host_pause::HostPause;
pub use standard_descriptors::StandardDescriptors;
pub use std_link::StdLink;
pub use std_sink::StdSink;
pub use tcp_link::TcpLink;
