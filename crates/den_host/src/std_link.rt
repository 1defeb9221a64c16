//! The machine's standard input and output.
ghost use Rattle.std.specs.Prelude.{◌≡◌, ◌≤◌, ◌^◌, false, [], IfOk, length};

use crate::cause::{Cause, noted};
use crate::system_call::{counted, read_once};
use den_disk::{Disk, Link, LinkFault, Piece};
use std::io;
use std::io::{BufReader, ErrorKind, Input};

// How many bytes may be taken in all.
const BUDGET: u64 = 1 << 63;

// How many bytes are asked of the operating system at once.
const ROOM: usize = 64 * 1024;

/// Requests come from the runtime's standard input, and replies go to its standard output at once.
#[derive(Drop)]
pub struct StdLink<R: Input + Alloc> {
    rt: R,
    input: Option<BufReader<R::Reader, R::A>>,
    taken: u64,
    faults: u64,
    cause: Option<Cause>,
}

impl<R: Input + Print + Alloc> StdLink<R> {
    /// A link over this runtime's standard input and output. Its buffer is made at the first read.
    pub fn new(rt: R) -> StdLink<R> {
        StdLink {
            rt,
            input: None,
            taken: 0,
            faults: 0,
            cause: None,
        }
    }

    /// Why the last call that failed did so.
    pub fn cause(&self) -> Option<Cause> {
        self.cause
    }
}

impl<R: Input + Print + Alloc> Link for StdLink<R> {
    ghost tells = { λ _. false };

    ghost left = { λ _. [] };

    ghost taken = { λ link. link.taken };

    ghost sent = { λ _. [] };

    ghost budget = { λ _. 2 ^ 63 };

    ghost faults = { λ link. link.faults };

    fn read(&mut self, buf: &mut [u8]) -> Result<Piece, LinkFault> {
        let read = if self.taken < BUDGET {
            read_input(&self.rt, &mut self.input, buf)
        } else {
            Err(io::Error::from(ErrorKind::QuotaExceeded))
        };
        let read = noted(&mut self.cause, read.map_err(|e| Cause::Input(e.into())));
        let n = counted(&mut self.faults, read, LinkFault)?;
        if n == 0 {
            return Ok(Piece::End);
        }
        self.taken += n as u64;
        Ok(Piece::Got(n))
    }

    fn send<D: Disk>(&mut self, piece: &[u8], _disk: &D) -> Result<(), LinkFault> {
        let sent = self
            .rt
            .write_all(piece)
            .map_err(|e| Cause::Output(e.into()));
        counted(&mut self.faults, noted(&mut self.cause, sent), LinkFault)
    }
}

// Reads from the buffer, which is made where there is none.
fn read_input<R: Input + Alloc>(
    rt: &R,
    input: &mut Option<BufReader<R::Reader, R::A>>,
    buf: &mut [u8],
) -> io::Result<usize>
    ensures { IfOk result (λ n. n ≤ length buf.old) }
{
    if let Some(reader) = input {
        return read_once(reader, buf);
    }
    let reader = BufReader::with_capacity(rt.alloc(), ROOM, rt.reader())?;
    read_once(input.insert(reader), buf)
}

#[cfg(test)]
mod tests {
    use super::*;
    use den_disk::MemDisk;
    use std::alloc::{Allocator, Global};
    use std::fmt::Display;
    use std::io::Lines;
    use std::test::Fail;

    // A runtime with an input of its own, whose output is a broken pipe.
    #[derive(Drop)]
    struct Piped {
        rt: HostRuntime,
    }

    impl Input for Piped {
        type Reader = &'static [u8];

        fn read_line<A: Allocator + Clone>(&self, _buf: &mut String<A>) -> io::Result<usize> {
            Ok(0)
        }

        fn lines<A: Allocator>(&self, alloc: A) -> Lines<&'static [u8], A> {
            io::BufRead::lines(self.reader(), alloc)
        }

        fn reader(&self) -> &'static [u8] {
            b"abcdef"
        }
    }

    impl Print for Piped {
        fn print<D: Display + Drop>(&self, _value: D) -> io::Result<()> {
            Err(io::Error::from(ErrorKind::BrokenPipe))
        }

        fn println<D: Display + Drop>(&self, _value: D) -> io::Result<()> {
            Err(io::Error::from(ErrorKind::BrokenPipe))
        }

        fn write_all(&self, _bytes: &[u8]) -> io::Result<()> {
            Err(io::Error::from(ErrorKind::BrokenPipe))
        }
    }

    impl Alloc for Piped {
        type A = Global;

        fn alloc(&self) -> Global {
            self.rt.alloc()
        }
    }

    #[test]
    fn takes_its_input_in_pieces(rt: HostRuntime) -> Result<(), Fail> {
        let mut link = StdLink::new(Piped { rt });
        let mut buf = [0u8; 4];
        assert_eq!(rt; link.read(&mut buf)?, Piece::Got(4));
        assert_eq!(rt; buf.as_slice(), b"abcd".as_slice());
        assert_eq!(rt; link.read(&mut buf)?, Piece::Got(2));
        assert_eq!(rt; buf.as_slice(), b"efcd".as_slice());
        assert_eq!(rt; link.read(&mut buf)?, Piece::End);
        assert_eq!(rt; link.taken, 6);
        Ok(())
    }

    #[test]
    fn counts_a_broken_pipe(rt: HostRuntime) {
        let disk = MemDisk::new(rt.alloc());
        let mut link = StdLink::new(Piped { rt });
        assert_eq!(rt; link.send(b"reply", &disk), Err(LinkFault));
        assert_eq!(rt; link.faults, 1);
        assert!(rt; matches!(link.cause(), Some(Cause::Output(_))));
    }

    #[test]
    fn sends_to_standard_output(rt: HostRuntime) -> Result<(), Fail> {
        let disk = MemDisk::new(rt.alloc());
        let mut link = StdLink::new(rt);
        link.send(b"a line on standard output\n", &disk)?;
        Ok(())
    }
}
