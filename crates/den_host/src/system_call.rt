// What the adapters of the real machine have in common.
ghost use Rattle.std.specs.Prelude.{◌≡◌, ◌≤◌, Ok, IfOk, IsErr, length};
ghost use Rattle.den_disk.specs.Goes.{HasCause};

use std::io;
use std::io::{ErrorKind, Read};
use std::net::OpenListener;

// How often a call that a signal interrupted is tried again.
const TRIES: u32 = 1_000_000;

// Hands on what a call of the operating system gave, and counts it where it failed. At its last value the count stays.
pub(crate) fn counted<T, E: Drop, F: Drop>(
    faults: &mut u64,
    call: Result<T, E>,
    fault: F,
) -> Result<T, F>
    ensures cause { HasCause faults.old faults.new (IsErr result) }
    ensures given { IfOk result (λ x. call ≡ Ok x) }
{
    match call {
        Ok(x) => Ok(x),
        Err(_) => {
            *faults = faults.saturating_add(1);
            Err(fault)
        }
    }
}

// Reads once, and again where a signal interrupts it.
pub(crate) fn read_once<R: Read>(reader: &mut R, buf: &mut [u8]) -> io::Result<usize>
    ensures { IfOk result (λ n. n ≤ length buf.old) }
{
    for _ in 0..TRIES {
        match reader.read(buf) {
            Err(e) if e.kind() == ErrorKind::Interrupted => {}
            done => return done,
        }
    }
    Err(io::Error::from(ErrorKind::Interrupted))
}

// Waits for a client once, and again where a signal interrupts it.
pub(crate) fn accept_once<L: OpenListener>(listener: &L) -> io::Result<L::Stream> {
    for _ in 0..TRIES {
        match listener.accept() {
            Err(e) if e.kind() == ErrorKind::Interrupted => {}
            Err(e) => return Err(e),
            Ok((stream, _)) => return Ok(stream),
        }
    }
    Err(io::Error::from(ErrorKind::Interrupted))
}
