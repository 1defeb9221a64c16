//! The machine's standard error.
ghost use Rattle.std.specs.Prelude.{◌≡◌, false, []};

use crate::system_call::counted;
use den_disk::{Sink, SinkFault};
use std::io::Write;

/// What is written goes to the runtime's standard error at once.
#[derive(Drop)]
pub struct StdSink<W> {
    stderr: W,
    faults: u64,
}

impl<W: Write> StdSink<W> {
    /// A sink over a runtime's `stderr()`.
    pub fn new(stderr: W) -> StdSink<W> {
        StdSink { stderr, faults: 0 }
    }
}

impl<W: Write> Sink for StdSink<W> {
    ghost tells = { λ _. false };

    ghost written = { λ _. [] };

    ghost faults = { λ sink. sink.faults };

    fn write(&mut self, piece: &[u8]) -> Result<(), SinkFault> {
        let written = self
            .stderr
            .write_all(piece)
            .and_then(|()| self.stderr.flush());
        counted(&mut self.faults, written, SinkFault)
    }
}

#[cfg(test)]
mod tests {
    use super::*;
    use std::test::Fail;

    #[test]
    fn writes_a_line(rt: HostRuntime) -> Result<(), Fail> {
        let mut kept = StdSink::new(Vec::new(rt.alloc()));
        kept.write(b"den_server: ")?;
        kept.write(b"storage fault\n")?;
        assert_eq!(rt;
            kept.stderr.as_slice(),
            b"den_server: storage fault\n".as_slice()
        );
        let mut shown = StdSink::new(rt.stderr());
        shown.write(b"a line on standard error\n")?;
        Ok(())
    }
}
