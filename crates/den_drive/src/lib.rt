//! The generator behind `--drive N`: it makes requests by number, serves them in memory under the default configuration,
//! and reports what came of them in one line. Nothing of the machine is used, so each run of a number gives the same line.
//!
//! `drive` answers the numbers of the plan over the generated input: `IsReport` (specs/Report.antt), by the requests of
//! specs/Generator.antt. `DriveReport::line` is the line.
//!
//!     let report = drive(alloc, 10_000)?;
//!     report.line(alloc)
#![tactic(auto)]

mod driving;
mod feed;
mod generate;
mod moments;
mod report;
mod tail;

pub use driving::drive;
pub use report::DriveReport;
