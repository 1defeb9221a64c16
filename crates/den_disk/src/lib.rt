//! The outside of the server, as traits: a disk of twelve files, a link, a clock, a source, a sink and a pause, each with a body
//! in memory that tells all its bytes. The machine's own bodies stand in `den_host`.
//!
//! A disk has a content (what is read, and which ranges are pending), a moment that rises with every call that changes
//! it, and images: for each moment, the twelve files that a crash then may leave. A proof about a crash is a statement
//! about images, at moments inside calls too. What every body keeps, and where it is said:
//!
//! 1. At the present moment a crash leaves what is read, but for pending ranges, which may hold any bytes: the law
//!    `images_now` of `Disk`, over `IsImage` in specs/Files.antt.
//! 2. A write is pending until a sync succeeds; a change of length is the old one or the new one: `writes`, `resizes`
//!    and `syncs`, by the record `Changes` in specs/Crash.antt. Reading changes nothing: `stays`.
//! 3. Images of earlier moments stay, moments and counts of faults never fall, and the kind of disk stays: the record
//!    `DiskGoesOn` in specs/Goes.antt, which callers hand on.
//! 4. A fault is answered only where the count of faults rose in that call: `cause`.
//!
//! A body that does not tell its bytes keeps the last two alone. A link stamps each byte that it sends with the disk's
//! moment, so that "sent before it was on the disk" can be said at all.
//!
//!     let mut disk = MemDisk::new(alloc);
//!     disk.resize(place, 8)?;
//!     disk.write_at(place, 0, b"abc")?;
//!     disk.crash(1); // keeps every pending write; 0 takes each back
#![tactic(auto)]

mod clock;
mod disk;
mod faults;
mod link;
mod list_clock;
mod list_pause;
mod mem_link;
mod mem_sink;
mod mem_source;
mod memory;
mod pause;
mod place;
mod sink;
mod source;
mod spoil;

pub use clock::Clock;
pub use disk::{Disk, DiskFault};
pub use link::{Link, LinkFault, Piece};
pub use list_clock::ListClock;
pub use list_pause::ListPause;
pub use mem_link::MemLink;
pub use mem_sink::MemSink;
pub use mem_source::MemSource;
pub use memory::{MemDisk, Step};
pub use pause::Pause;
pub use place::{Family, Part, Place};
pub use sink::{Sink, SinkFault};
pub use source::{Source, SourceFault};
