//! A file of the machine that is read once.
ghost use Rattle.std.specs.Prelude.{◌≡◌, ◌≤◌, false, [], IfOk, length};

use crate::cause::{Cause, noted};
use crate::system_call::{counted, read_once};
use den_disk::{Piece, Source, SourceFault};
use std::rt::Files;
use std::{fs, io};

/// The bytes of the file at a path, which is opened at the first read.
#[derive(Drop)]
pub struct FileSource<R: Files> {
    rt: R,
    path: String,
    file: Option<R::File>,
    faults: u64,
    cause: Option<Cause>,
}

impl<R: Files> FileSource<R> {
    /// The file at this path.
    pub fn new(rt: R, path: String) -> FileSource<R> {
        FileSource {
            rt,
            path,
            file: None,
            faults: 0,
            cause: None,
        }
    }

    /// Why the last call that failed did so.
    pub fn cause(&self) -> Option<Cause> {
        self.cause
    }
}

impl<R: Files> Source for FileSource<R> {
    ghost tells = { λ _. false };

    ghost left = { λ _. [] };

    ghost faults = { λ source. source.faults };

    fn read(&mut self, buf: &mut [u8]) -> Result<Piece, SourceFault> {
        let read = read_file(&self.rt, self.path.as_str(), &mut self.file, buf);
        let read = noted(
            &mut self.cause,
            read.map_err(|e| Cause::Configuration(e.into())),
        );
        match counted(&mut self.faults, read, SourceFault)? {
            0 => Ok(Piece::End),
            n => Ok(Piece::Got(n)),
        }
    }
}

// Reads from the file, which is opened where it is not open.
fn read_file<R: Files>(
    rt: &R,
    path: &str,
    file: &mut Option<R::File>,
    buf: &mut [u8],
) -> io::Result<usize>
    ensures { IfOk result (λ n. n ≤ length buf.old) }
{
    if let Some(file) = file {
        return read_once(file, buf);
    }
    read_once(file.insert(fs::open(rt, path)?), buf)
}

#[cfg(test)]
mod tests {
    use super::*;
    use std::test::Fail;

    #[test]
    fn reads_a_file(rt: HostRuntime) -> Result<(), Fail> {
        fs::write(&rt, "server.toml", "a = 1")?;
        let mut source = FileSource::new(rt, String::from_str(rt.alloc(), "server.toml")?);
        let mut buf = [0u8; 4];
        assert_eq!(rt; source.read(&mut buf)?, Piece::Got(4));
        assert_eq!(rt; source.read(&mut buf)?, Piece::Got(1));
        assert_eq!(rt; buf.as_slice(), b"1 = ".as_slice());
        assert_eq!(rt; source.read(&mut buf)?, Piece::End);

        let mut missing = FileSource::new(rt, String::from_str(rt.alloc(), "missing.toml")?);
        assert_eq!(rt; missing.read(&mut buf), Err(SourceFault));
        assert_eq!(rt; missing.faults, 1);
        fs::remove_file(&rt, "server.toml")?;
        Ok(())
    }
}
