//! Callers over one engine, and the list of their finished calls.
//!
//! A `Desk` has an engine, its disk, and a history: each call that was made of it, by whom, at which moment, and what it came to.
//! `turn` makes one call and adds its entry. A call serves a frame, takes what waits for a watcher, ends a watch, looks at
//! the history itself, or ends the desk. `Station` is what those ask of a desk who make calls, with no disk in it.
//!
//! Invariants, and where each stands:
//!
//! 1. From the engine as it was at `new` the history replays: each entry has the outcome of its place. `replay` in
//!    specs/History.antt computes it, and `IsKept` in specs/Keeping.antt is what each turn keeps.
//! 2. Where no call failed the engine is as the replay has it, and can go on: `StandsAt` there.
//! 3. Behind a failed call or a stop each call fails, and names the place where the history ended: `told_error` in
//!    specs/History.antt.
//! 4. A call has one entry, or none for want of memory before it is made, which leaves all as it was: `untouched` and `added`
//!    of `Desk::turn`.
//! 5. A call fails by itself only for a cause, and a failed entry has one since `new`: `Fails` and `HasCauseSince` in
//!    specs/Keeping.antt. `Desk::close` tells it, and that where no call failed the disk stands for the replay's durable part:
//!    `IsHistoryOf` there.
//!
//! Worked rows are computed from the definitions and compared, in proofs/WorkedHistories.antt.
//!
//!     let mut desk = Desk::new(alloc, engine, disk);
//!     let answered = desk.turn(0, moment, Call::Serve(frame))?;
//!     let closed = desk.close();
#![tactic(auto)]

mod copies;
mod desk;
mod history;
mod station;

pub use desk::{Closed, Desk};
pub use history::{Answer, Answered, Call, CallError, End, FailKind, Finished};
pub use station::Station;
