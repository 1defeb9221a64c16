//! The command line as `clap` is told of it.
ghost use Rattle.std.specs.Prelude.{◌≡◌, IfOk};
ghost use Rattle.clap.specs.Words.{app_of};
ghost use Rattle.den_words.specs.Words.{command_line};

use clap::{Arg, Command};
use std::alloc::{AllocError, Global};

/// The command: a folder, and the options of one value.
pub fn command<'a>(alloc: Global) -> Result<Command<'a>, AllocError>
    ensures { IfOk result (λ c. app_of c ≡ command_line) }
{
    let folder = Arg::new(alloc, "folder").required(true);
    let config = Arg::new(alloc, "config").long("config");
    let listen = Arg::new(alloc, "listen").long("listen");
    let drive = Arg::new(alloc, "drive").long("drive");
    Command::new(alloc, "den_server")
        .no_binary_name(true)
        .disable_help_flag(true)
        .arg(folder)?
        .arg(config)?
        .arg(listen)?
        .arg(drive)
}
