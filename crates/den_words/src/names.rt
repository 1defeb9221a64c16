//! What the words name.
ghost use Rattle.std.specs.Prelude.{◌≡◌, ◌≤◌, IfOk, IfSome, map, option_map, string_bytes};
ghost use Rattle.den_words.specs.Numbers.{given_number};
ghost use Rattle.den_words.specs.Words.{named, named_of, names_in};

use crate::command::command;
use crate::number::number_in;
use clap::error::ErrorKind;
use std::alloc::{AllocError, Global};

/// What the words name.
#[derive(Debug, Drop)]
pub struct Names {
    /// The folder of the server's files, as it was written.
    pub folder: String,
    /// The file of the configuration, as it was written.
    pub config: Option<String>,
    /// The port to listen on, from 1 to 65,535.
    pub listen: Option<u16>,
    /// How many requests to drive, at most 1,000,000.
    pub drive: Option<u32>,
}

// The number of an option: none where it was not given, and nothing where what was given is no such number.
fn given_number(text: Option<&str>, least: u32, most: u32) -> Option<Option<u32>>
    ensures { result ≡ given_number least most (option_map (λ t. t.now) text.entry) }
{
    match text {
        None => Some(None),
        Some(text) => match number_in(text, least, most) {
            Some(number) => Some(Some(number)),
            None => None,
        },
    }
}

// The port of an option.
fn given_port(text: Option<&str>) -> Option<Option<u16>>
    ensures { result ≡ given_number 1 65535 (option_map (λ t. t.now) text.entry) }
{
    match given_number(text, 1, 65_535)? {
        Some(number) => Some(Some(number as u16)),
        None => Some(None),
    }
}

fn copied(alloc: Global, text: Option<&str>) -> Result<Option<String>, AllocError>
    ensures { IfOk result (λ copy. option_map string_bytes copy ≡ option_map (λ t. t.now) text.entry) }
{
    match text {
        Some(text) => Ok(Some(String::from_str(alloc, text)?)),
        None => Ok(None),
    }
}

// The values together, where they are what is wanted.
fn named(
    alloc: Global,
    folder: Option<&str>,
    config: Option<&str>,
    listen: Option<Option<u16>>,
    drive: Option<Option<u32>>,
) -> Result<Option<Names>, AllocError>
    ensures { IfOk result (λ names. option_map named_of names
        ≡ named (option_map (λ t. t.now) folder.entry) (option_map (λ t. t.now) config.entry) listen drive) }
{
    let (Some(folder), Some(listen), Some(drive)) = (folder, listen, drive) else {
        return Ok(None);
    };
    if listen.is_some() && drive.is_some() {
        return Ok(None);
    }
    Ok(Some(Names {
        folder: String::from_str(alloc, folder)?,
        config: copied(alloc, config)?,
        listen,
        drive,
    }))
}

/// What the words after the program's name name, or None exactly where they do not parse. Want of memory is the only
/// error.
pub fn names_of(alloc: Global, words: &[String]) -> Result<Option<Names>, AllocError>
    ensures names { IfOk result (λ names. option_map named_of names ≡ names_in (map string_bytes words.now)) }
    ensures few { IfOk result (λ names. IfSome names (λ n. IfSome n.drive (λ count. count ≤ 1000000))) }
{
    match command(alloc)?.try_get_matches_from(words) {
        Ok(matches) => named(
            alloc,
            matches.get_str("folder"),
            matches.get_str("config"),
            given_port(matches.get_str("listen")),
            given_number(matches.get_str("drive"), 0, 1_000_000),
        ),
        Err(error) => match error.kind() {
            ErrorKind::OutOfMemory => Err(AllocError),
            _ => Ok(None),
        },
    }
}
