//! Gate files over a disk: each family a list of payloads that grows by one at a time, and that a crash leaves as it was
//! or as it was to become.
//!
//! A family has a head and two slots; the head's first byte names the slot in use. A slot is a row of regions: a gate of
//! one byte, eight bytes of length, a payload. The list is the payloads of the regions whose gates are open (1), up to the
//! first gate that is not open, or the slot's end. docs/FORMATS.md has the bytes.
//!
//! What holds between calls, and which clauses say so:
//!
//! 1. The slot's regions are the list and end where the gate file says, with a closed gate or the slot's end behind them,
//!    and nothing of the slot is pending: `at_rest` of `load`, `reserve` and `append`, and of the records `KeepsList`
//!    (`draft_begin`, `draft_push`) and `RestsWith` (`draft_commit`, `rewrite`).
//! 2. The head names the slot, and nothing of the head is pending: `current` of the same calls and records.
//! 3. A region is written behind a closed gate, with a closed gate behind it, and its gate is opened after a sync alone. So
//!    a crash at any moment leaves the list, with the new payload or without it: `any_moment` and `family` of `append`; of
//!    `reserve` they say that it leaves the list.
//! 4. A call on one slot leaves all other files as a crash before it might have left them: `spares`, `others`, `images`,
//!    and `writes` of the calls on drafts and whole lists.
//! 5. A slot that is too short for a region and the gate behind it grows to the least multiple of 65,536 that holds them, and
//!    no further: `grows` of `reserve`, `append` and `draft_push`. So a slot that was filled from empty is empty yet, or has
//!    the least such multiple for its regions and one gate: `filled` of `rewrite`; `kept` of `draft_commit` says that a draft
//!    keeps its bytes. Where the room passes the disk's limit nothing is changed: `refused`, `not_full`. `rewrite` then leaves
//!    the payloads before that one in the slot that the head does not name, and the list as it was.
//! 6. Calls that read change nothing: `stays` of `regions`, `disk` of `reader` and of `RegionReader::next`.
//! 7. What was refused may have left a slot that is not at rest: `failed` of `reserve`, `append` and `flush`, and of the
//!    record `WritesOwn`. These calls ask for `ready`. The gate file is loaded anew then. It is in the slot where it was:
//!    `slot`, `end`.
//! 8. A draft lies in the slot that the head does not name. That slot is emptied before it is filled, and each region has a
//!    closed gate or the slot's end behind it, so no byte of an older list is read: `begun`, `cleared` of `draft_begin`,
//!    `pushed` of `draft_push`. Calls on the list leave the draft: `draft_kept` of `reserve`, `append` and `flush`.
//! 9. A draft counts for nothing before the head names its slot, so a crash while it is made leaves the list: `keeps` of
//!    `draft_begin` and `draft_push`.
//! 10. The head is written once all of the other slot is on the disk, and the old slot is emptied once the head is. So a
//!     crash at any moment of `draft_commit` and `rewrite` leaves the old list or the new one: `rewrites`. At Ok the new one
//!     is at rest in the other slot, and the old slot is empty: `rests`, `rewritten`.
//!
//! `GateFile::load` finds the list after a sync; `GateFile::reader` and `RegionReader::next` read it, one payload a call into
//! a buffer that is used again, and `regions` as a whole; `append` adds to it, `reserve` makes room before. `draft_begin`,
//! `draft_push` and `draft_commit` put another list in its place, one payload a call with appends between, and `rewrite` in
//! one call.
#![tactic(auto)]

mod add;
mod draft;
mod error;
mod find;
mod gate;
mod look;
mod reader;
mod room;
mod take;
mod turn;
mod window;

pub use error::GateError;
pub use gate::GateFile;
pub use reader::RegionReader;
