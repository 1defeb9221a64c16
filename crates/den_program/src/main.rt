//! The program: it serves a folder's files as its words say, over standard input and output or to one client of a port,
//! or drives requests in memory.
//!
//! `serve_main` (den_serving) is proved: it carries the clauses of a run, the exit status and the line of standard error.
//! `main` is not proved to do more than hand it the machine's own: it holds the three standard descriptors before anything
//! is opened, collects the words, lends what they name, and writes the cause of a fault behind the line. checks/ tries it
//! on real files and on a port.
#![tactic(auto)]

use den_disk::{Link, ListClock, MemDisk, MemLink, MemSource};
use den_host::{
    Cause, FileSource, FolderDisk, HostClock, StandardDescriptors, StdLink, StdSink, TcpLink,
};
use den_serving::serve_main;
use den_words::{Names, names_of};
use std::alloc::Global;
use std::process::ExitCode;
use std::rt::Env;
use std::{env, io};

// The words after the program's name.
fn words_after_name(rt: &(impl Env + Alloc), alloc: Global) -> io::Result<Vec<String>> {
    let mut words = Vec::new(alloc);
    for word in env::args(rt)?.skip(1) {
        words.push(String::from_str(alloc, word.as_str())?)?;
    }
    Ok(words)
}

// Writes, behind the line of a fault, what it was. That it cannot be written changes nothing.
fn explain(rt: &impl Eprint, cause: Option<Cause>) {
    if let Some(cause) = cause {
        let _ = eprintln!(rt; "  {cause}");
    }
}

// The file of the configuration, or a name of none, which is not opened.
fn path_of(alloc: Global, config: Option<String>) -> String {
    match config {
        Some(path) => path,
        None => String::new(alloc),
    }
}

// Does what the words ask for, over a link.
fn serve_link<L: Link>(rt: &HostRuntime, words: &[String], names: Names, link: &mut L) -> u8 {
    let alloc = rt.alloc();
    let Names { folder, config, .. } = names;
    let mut conf = FileSource::new(rt, path_of(alloc, config));
    let mut disk = FolderDisk::new(rt, folder);
    let mut clock = HostClock::new(rt);
    let mut errs = StdSink::new(rt.stderr());
    let status = serve_main(
        alloc, words, &mut conf, &mut disk, link, &mut clock, &mut errs,
    );
    match status {
        4 => explain(rt, conf.cause()),
        5 => explain(rt, disk.cause()),
        _ => {}
    }
    status
}

// Over one connection to a port.
fn serve_port(rt: &HostRuntime, words: &[String], names: Names, port: u16) -> u8 {
    let mut link = TcpLink::new(rt, port);
    let status = serve_link(rt, words, names, &mut link);
    if status == 6 {
        explain(rt, link.cause());
    }
    status
}

// Over standard input and output.
fn serve_standard(rt: &HostRuntime, words: &[String], names: Names) -> u8 {
    let mut link = StdLink::new(rt);
    let status = serve_link(rt, words, names, &mut link);
    if status == 6 {
        explain(rt, link.cause());
    }
    status
}

// Of words that name nothing: over nothing of the machine but its standard error.
fn refuse_words(rt: &HostRuntime, words: &[String]) -> u8 {
    let alloc = rt.alloc();
    let mut conf = MemSource::new(Vec::new(alloc));
    let mut disk = MemDisk::new(alloc);
    let mut link = MemLink::new(alloc, Vec::new(alloc), Vec::new(alloc));
    let mut clock = ListClock::new(Vec::new(alloc));
    let mut errs = StdSink::new(rt.stderr());
    serve_main(
        alloc, words, &mut conf, &mut disk, &mut link, &mut clock, &mut errs,
    )
}

// Does what the words ask for, over what they name.
fn serve_words(rt: &HostRuntime, words: &[String]) -> u8 {
    match names_of(rt.alloc(), words) {
        Ok(Some(names)) => match names.listen {
            Some(port) => serve_port(rt, words, names, port),
            None => serve_standard(rt, words, names),
        },
        Ok(None) => refuse_words(rt, words),
        Err(_) => 1,
    }
}

fn main(rt: HostRuntime) -> ExitCode {
    // Before anything else is opened: a file of the folder never has the number of a standard stream.
    let _held = match StandardDescriptors::hold(&rt) {
        Ok(held) => held,
        Err(error) => {
            let _ = eprintln!(rt; "den_server: link fault\n  the null device: {error}");
            return ExitCode::from(6);
        }
    };
    let alloc = rt.alloc();
    let words = match words_after_name(&rt, alloc) {
        Ok(words) => words,
        Err(error) => match error.kind() {
            io::ErrorKind::OutOfMemory => return ExitCode::from(1),
            // A word that is no text names no folder.
            _ => Vec::new(alloc),
        },
    };
    ExitCode::from(serve_words(&rt, &words))
}
