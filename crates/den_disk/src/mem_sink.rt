//! A sink in memory.
ghost use Rattle.std.specs.Prelude.{◌≡◌, ◌≤◌, ◌++◌, true, [], length, take};

use crate::faults::{count_fault, room_before};
use crate::{Sink, SinkFault};
use std::alloc::Global;

/// A sink in memory, which keeps what was written.
#[derive(Drop)]
pub struct MemSink {
    written: Vec<u8>,
    fail: Option<u64>,
    faults: u64,
}

impl MemSink {
    /// A sink with nothing in it.
    pub fn new(alloc: Global) -> Self
        ensures written { ⟦<MemSink as Sink>⟧.written result ≡ [] }
        ensures faults { ⟦<MemSink as Sink>⟧.faults result ≡ 0 }
    {
        MemSink {
            written: Vec::new(alloc),
            fail: None,
            faults: 0,
        }
    }

    /// A write that would pass the first so many bytes writes those that fit, and fails.
    pub fn fail_after(&mut self, bytes: u64)
        ensures written { ⟦<MemSink as Sink>⟧.written self.new ≡ ⟦<MemSink as Sink>⟧.written self.old }
        ensures faults { ⟦<MemSink as Sink>⟧.faults self.new ≡ ⟦<MemSink as Sink>⟧.faults self.old }
    {
        self.fail = Some(bytes);
    }

    /// The bytes written.
    pub fn bytes(&self) -> &[u8]
        ensures { result.now ≡ ⟦<MemSink as Sink>⟧.written self.now }
    {
        self.written.as_slice()
    }
}

// Keeps so much of a piece as there is room for, and answers how much: nothing where there is no memory.
fn keep(written: &mut Vec<u8>, piece: &[u8], room: usize) -> usize
    ensures most { result ≤ length piece.now }
    ensures room { result ≤ room }
    ensures written { written.new.items ≡ written.old.items ++ take result piece.now }
{
    let n = piece.len().min(room);
    match written.extend_from_slice(&piece[..n]) {
        Ok(()) => n,
        Err(_) => 0,
    }
}

impl Sink for MemSink {
    ghost tells = { λ _. true };

    ghost written = { λ sink. sink.written.items };

    ghost faults = { λ sink. sink.faults };

    fn write(&mut self, piece: &[u8]) -> Result<(), SinkFault> {
        let room = room_before(self.fail, self.written.len() as u64);
        let kept = keep(&mut self.written, piece, room as usize);
        if kept < piece.len() {
            count_fault(&mut self.faults);
            return Err(SinkFault);
        }
        Ok(())
    }
}
