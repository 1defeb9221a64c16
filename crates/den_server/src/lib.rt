//! The server: it opens the files of a folder and serves the frames of a link.
//!
//! `StandaloneEngine::run` carries the whole promise as clauses of its own: `served`, `prefix`, `any_moment`, `opening`
//! say what is sent and what the files stand for, at its end, at every exit and after a crash at any moment; `refused`,
//! `turned_away` and `complete` say why it answers anything but Ok. Each is a definition of specs/Promises.antt, of what
//! the configuration makes of a run and of what it is lent; docs/GUARANTEES.md has them in plain words.
//! Slots and regions are named here in one place only: in what `refusal_in` (specs/Opening.antt) says of corrupt files.
//!
//!     StandaloneEngine::run(alloc, &mut disk, &mut link, &mut clock, &config)?;
//!
//! `StandaloneEngine::run_custom` serves over stores, a state machine and a core of the caller's own. What it promises is of
//! what these hold as they are handed in: each promise is a definition of specs/Custom.antt. What is sent it says whether
//! the stores tell what their files give or not; what the files stand for only where they tell it.
//! `open_parts` gives the stores of a folder, for an engine of one's own: specs/Folder.antt.
//! `StandaloneEngine::run_with` reads the configuration from a source, and runs under it: specs/Configured.antt.
#![tactic(auto)]

mod configured;
mod custom;
mod default;
mod folder;
mod standalone;

pub use folder::{FolderParts, open_parts};
pub use standalone::StandaloneEngine;
