//! The program's top call: it serves a folder as the words say, and answers the exit status.
//!
//! `serve_main` carries the whole promise: by what the words name, it is a run under the default configuration or under
//! that of a source, with all that a run promises, or a drive, whose line goes through the link; the status and the line
//! of standard error are those of its answer. specs/Serving.antt says so in this order, specs/Status.antt has the
//! statuses and their lines.
//!
//! `main` (den_program) hands it the machine's own and does no more.
//!
//!     let status = serve_main(alloc, &words, &mut conf, &mut disk, &mut link, &mut clock, &mut errs);
#![tactic(auto)]

mod driving;
mod serving;
mod status;

pub use serving::serve_main;
