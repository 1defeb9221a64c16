//! The words of the program's command line, read by `clap`: one folder, and three options of one value.
//!
//!     den_server FOLDER [--config FILE] [--listen PORT] [--drive N]
//!
//! `names_of` answers what the words name, or that they do not parse. Its contract says both by `names_in` in
//! specs/Words.antt: what `clap` reads by the command `command_line`, and then the rules that are this program's own. A
//! number is decimal digits without a sign or a leading zero, a port is 1 to 65,535, a count of requests at most
//! 1,000,000, and a port and a count do not stand together. There is no option that asks for help or a version.
//! proofs/Worked.antt has rows that are worked out.
//!
//!     let names = den_words::names_of(alloc, &words)?;
#![tactic(auto)]

mod command;
mod names;
mod number;

pub use names::{Names, names_of};
