//! The engine over log, hard state, map and core, and the loop that serves frames.
//!
//! `recover` brings opened stores together: entries of the log above the map's mark are applied. An `Engine` then makes
//! turns: a cleanup where one is due, and what the frame asks for. A write becomes one entry of the log, which the core
//! commits, and one chunk of the map; a read or a scan asks the map. `serve` reads frames from a link (`FrameReader`),
//! makes each one's turn, and sends what it answers. It sees of an engine what `Stepper` says. `Core` is what decides:
//! `SoloCore` leads alone, `FollowerCore` refers callers to its leader; bodies of your own go in their place.
//!
//! Invariants, and where each stands:
//!
//! 1. The map has each entry of the log, and none above its mark was purged: `IsCaughtUp` in specs/Parts.antt. The run's
//!    part has its core's role, and a lease where the map has one: `GoesWith` there.
//! 2. Files at rest stand for the engine's durable part, where its stores tell what files give: the law `agrees` of
//!    `Stepper`.
//! 3. A turn is the definition's: `done` of the record `Makes` in specs/Making.antt, and `answer` of `Stepper::step`. A
//!    crash inside it leaves the state after a front of its steps: `survives` of `Makes`.
//! 4. No byte of a reply is sent before its turn is on the disk: `survives` of `serve`, which ties bytes sent by a
//!    moment to the images at that moment. `early_is_refused` says that a server that sends first would not meet it.
//!    What was sent is a front of what the turns answer, at every exit: `prefix` of `serve`.
//! 5. The frames are those of the input, however it is cut: `found` of `FrameReader::next`.
//! 6. Behind the opening and behind each step the log holds no more entries than the engine was told: `LogIsShort` in
//!    specs/Making.antt. `trim` purges it up to the map's mark where its indices run over more, and only there (`trimmed`
//!    in specs/Trimmed.antt); that moves nothing that the files stand for. One that does not lead logs nothing: its log
//!    is purged as it is opened, by `trim_opened`, up to the log's own last entry (`opened_log` there). At the end of a
//!    run the log that the files give is as short: `GivesShortLog`.
//! 7. A full disk is told the room that one slot would need for a payload that the refused step writes: `IsFullBy` and
//!    `IsStepTooShort` in specs/Full.antt, with the sizes of what each step writes in specs/PayloadSizes.antt.
//! 8. Behind a cleanup that took keys away a refusal leaves an engine that has failed; behind one that took none it leaves
//!    all as it was: `leave` in src/engine.rt.
//!
//! Each layer has a module: `cores` what decides, `terms` and `commits` what a leader writes, `cleaning` what expires, `ask`
//! what a frame comes to, `engine` the turns, `recovery` the opening, `frame` and `server` the link.
#![tactic(auto)]

mod applying;
mod ask;
mod begin;
mod cleaning;
mod close;
mod commits;
mod cores;
mod engine;
mod frame;
mod kept;
mod members;
mod nodes;
mod recovery;
mod run;
mod server;
mod stepper;
mod terms;
mod watching;

pub use cores::{Core, FollowerCore, SoloCore};
pub use engine::Engine;
pub use frame::FrameReader;
pub use nodes::copy_node;
pub use recovery::recover;
pub use run::Run;
pub use server::{early_is_refused, run_from, serve};
pub use stepper::{StepOut, Stepper};
