//! A source in memory.
ghost use Rattle.std.specs.Prelude.{◌≡◌, ◌≤◌, true, length, drop};

use crate::faults::{count_fault, room_before};
use crate::{Piece, Source, SourceFault};

/// A source in memory, which gives the bytes that it was made of.
#[derive(Drop)]
pub struct MemSource {
    bytes: Vec<u8>,
    at: usize,
    fail: Option<u64>,
    faults: u64,
    ghost inside: { at ≤ length bytes.items },
}

impl MemSource {
    /// A source of these bytes.
    pub fn new(bytes: Vec<u8>) -> Self
        ensures left { ⟦<MemSource as Source>⟧.left result ≡ bytes.items }
        ensures faults { ⟦<MemSource as Source>⟧.faults result ≡ 0 }
    {
        MemSource {
            bytes,
            at: 0,
            fail: None,
            faults: 0,
        }
    }

    /// No read gives a byte past the first so many, and a read once so many were read fails.
    pub fn fail_after(&mut self, bytes: u64)
        ensures left { ⟦<MemSource as Source>⟧.left self.new ≡ ⟦<MemSource as Source>⟧.left self.old }
        ensures faults { ⟦<MemSource as Source>⟧.faults self.new ≡ ⟦<MemSource as Source>⟧.faults self.old }
    {
        self.fail = Some(bytes);
    }
}

impl Source for MemSource {
    ghost tells = { λ _. true };

    ghost left = { λ source. drop source.at source.bytes.items };

    ghost faults = { λ source. source.faults };

    fn read(&mut self, buf: &mut [u8]) -> Result<Piece, SourceFault> {
        let room = room_before(self.fail, self.at as u64);
        if room == 0 {
            count_fault(&mut self.faults);
            return Err(SourceFault);
        }
        let left = self.bytes.len() - self.at;
        if left == 0 {
            return Ok(Piece::End);
        }
        let n = left.min(buf.len()).min(room as usize);
        buf[..n].copy_from_slice(&self.bytes[self.at..self.at + n]);
        self.at += n;
        Ok(Piece::Got(n))
    }
}
