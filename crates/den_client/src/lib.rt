//! Callers over one history of calls, and clients that ask through them.
//!
//! A `Caller` makes calls, each at one reading of a clock that it is lent, and sees the history that they add to.
//! `LocalCaller` owns the desk whose history that is. An `EmbeddedClient` has a caller and a clock: each of its calls, which
//! `ClientApi` names, makes one call of the caller and maps its answer.
//!
//! Invariants, and where each stands:
//!
//! 1. What a caller has seen replays from the standing at which it began: the law `replayed` of `Caller` and of `ClientApi`.
//! 2. The list only grows. A call ends it with one entry of its own, or leaves it for want of memory, and no other new entry has
//!    the caller's number: `Called` in specs/Calling.antt.
//! 3. A call of a client makes one call of its caller, and its answer is History's there, mapped: `Asks` in
//!    specs/Asking.antt, with the calls of specs/Requests.antt and the answers of specs/Mapped.antt. Where memory for the
//!    request is wanting it makes none.
//! 4. No answer of another kind than was asked for comes: `fits` in specs/Answers.antt. What a client reads is what the map
//!    holds: the laws of specs/Laws.antt.
//!
//!     let mut client = EmbeddedClient::new(alloc, LocalCaller::new(desk), clock, id, timeout);
//!     client.put(b"a", b"b")?;
//!     let value = client.get(b"a")?;
#![tactic(auto)]

mod answers;
mod caller;
mod client_api;
mod embedded;
pub mod laws;
mod local;
mod requests;

pub use caller::Caller;
pub use client_api::ClientApi;
pub use embedded::{ClientParts, EmbeddedClient};
pub use local::LocalCaller;
