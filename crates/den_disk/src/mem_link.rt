//! A link in memory: the input is given, and what is sent is kept.
ghost use Rattle.std.specs.Prelude.{◌≡◌, ◌≤◌, ◌<◌, ◌^◌, ◌++◌, true, ℕ, [], length, drop, map, replicate, take};
ghost use Rattle.std.specs.List.{zip};

use crate::faults::{count_fault, room_before};
use crate::{Disk, Link, LinkFault, Piece};
use std::alloc::Global;

/// A link in memory: an input that is read in given pieces, and a list of what was sent.
#[derive(Drop)]
pub struct MemLink {
    input: Vec<u8>,
    at: usize,
    cuts: Vec<usize>,
    reads: usize,
    sent: Vec<u8>,
    moments: Vec<u64>,
    budget: u64,
    fail_read: Option<u64>,
    fail_send: Option<u64>,
    faults: u64,
    ghost inside: { at ≤ length input.items },
    ghost paired: { length moments.items ≡ length sent.items },
}

impl MemLink {
    /// A link that reads this input. The read number i that gives bytes gives at most `cuts[i]`, and at least one. Reads
    /// past the list give as many as the buffer takes.
    pub fn new(alloc: Global, input: Vec<u8>, cuts: Vec<usize>) -> Self
        ensures left { ⟦<MemLink as Link>⟧.left result ≡ input.items }
        ensures sent { ⟦<MemLink as Link>⟧.sent result ≡ [] }
        ensures taken { ⟦<MemLink as Link>⟧.taken result ≡ 0 }
        ensures budget { ⟦<MemLink as Link>⟧.budget result ≡ 2 ^ 63 }
        ensures faults { ⟦<MemLink as Link>⟧.faults result ≡ 0 }
    {
        MemLink {
            input,
            at: 0,
            cuts,
            reads: 0,
            sent: Vec::new(alloc),
            moments: Vec::new(alloc),
            budget: 1 << 63,
            fail_read: None,
            fail_send: None,
            faults: 0,
        }
    }

    /// No read gives a byte past the first so many of the input, and a read once so many were taken fails.
    pub fn fail_read_after(&mut self, bytes: u64)
        ensures left { ⟦<MemLink as Link>⟧.left self.new ≡ ⟦<MemLink as Link>⟧.left self.old }
        ensures sent { ⟦<MemLink as Link>⟧.sent self.new ≡ ⟦<MemLink as Link>⟧.sent self.old }
        ensures taken { ⟦<MemLink as Link>⟧.taken self.new ≡ ⟦<MemLink as Link>⟧.taken self.old }
        ensures budget { ⟦<MemLink as Link>⟧.budget self.new ≡ ⟦<MemLink as Link>⟧.budget self.old }
        ensures faults { ⟦<MemLink as Link>⟧.faults self.new ≡ ⟦<MemLink as Link>⟧.faults self.old }
    {
        self.fail_read = Some(bytes);
    }

    /// A send that would pass the first so many bytes sends those that fit, and fails.
    pub fn fail_send_after(&mut self, bytes: u64)
        ensures left { ⟦<MemLink as Link>⟧.left self.new ≡ ⟦<MemLink as Link>⟧.left self.old }
        ensures sent { ⟦<MemLink as Link>⟧.sent self.new ≡ ⟦<MemLink as Link>⟧.sent self.old }
        ensures taken { ⟦<MemLink as Link>⟧.taken self.new ≡ ⟦<MemLink as Link>⟧.taken self.old }
        ensures budget { ⟦<MemLink as Link>⟧.budget self.new ≡ ⟦<MemLink as Link>⟧.budget self.old }
        ensures faults { ⟦<MemLink as Link>⟧.faults self.new ≡ ⟦<MemLink as Link>⟧.faults self.old }
    {
        self.fail_send = Some(bytes);
    }

    /// How many bytes may be taken in all.
    pub fn set_budget(&mut self, bytes: u64)
        ensures left { ⟦<MemLink as Link>⟧.left self.new ≡ ⟦<MemLink as Link>⟧.left self.old }
        ensures sent { ⟦<MemLink as Link>⟧.sent self.new ≡ ⟦<MemLink as Link>⟧.sent self.old }
        ensures taken { ⟦<MemLink as Link>⟧.taken self.new ≡ ⟦<MemLink as Link>⟧.taken self.old }
        ensures budget { ⟦<MemLink as Link>⟧.budget self.new ≡ bytes }
        ensures faults { ⟦<MemLink as Link>⟧.faults self.new ≡ ⟦<MemLink as Link>⟧.faults self.old }
    {
        self.budget = bytes;
    }

    /// The bytes sent.
    pub fn sent(&self) -> &[u8]
        ensures { result.now ≡ map (λ s. s.0) (⟦<MemLink as Link>⟧.sent self.now) }
    {
        self.sent.as_slice()
    }

    // The most that the next read gives.
    fn cut(&self) -> usize
        ensures { 0 < result }
    {
        match self.cuts.get(self.reads) {
            Some(cut) => (*cut).max(1),
            None => usize::MAX,
        }
    }
}

// Keeps so much of a piece as there is room for, with its moment, and answers how much: nothing where there is no memory.
fn keep(sent: &mut Vec<u8>, moments: &mut Vec<u64>, piece: &[u8], room: usize, moment: u64) -> usize
    ensures most { result ≤ length piece.now }
    ensures room { result ≤ room }
    ensures sent { sent.new.items ≡ sent.old.items ++ take result piece.now }
    ensures moments { moments.new.items ≡ moments.old.items ++ replicate result moment }
{
    let n = piece.len().min(room);
    if moments.reserve(n).is_err() || sent.extend_from_slice(&piece[..n]).is_err() {
        return 0;
    }
    let all = moments.resize(moments.len() + n, moment);
    prove!(all.is_ok());
    n
}

impl Link for MemLink {
    ghost tells = { λ _. true };

    ghost left = { λ link. drop link.at link.input.items };

    ghost taken = { λ link. link.at };

    ghost sent = { λ link. zip link.sent.items link.moments.items };

    ghost budget = { λ link. link.budget };

    ghost faults = { λ link. link.faults };

    fn read(&mut self, buf: &mut [u8]) -> Result<Piece, LinkFault> {
        let taken = self.at as u64;
        let room = room_before(self.fail_read, taken).min(self.budget.saturating_sub(taken));
        if room == 0 {
            count_fault(&mut self.faults);
            return Err(LinkFault);
        }
        let left = self.input.len() - self.at;
        if left == 0 {
            return Ok(Piece::End);
        }
        let n = self.cut().min(buf.len()).min(left).min(room as usize);
        buf[..n].copy_from_slice(&self.input[self.at..self.at + n]);
        self.at += n;
        self.reads = self.reads.saturating_add(1);
        Ok(Piece::Got(n))
    }

    fn send<D: Disk>(&mut self, piece: &[u8], disk: &D) -> Result<(), LinkFault> {
        let moment = disk.moment();
        let room = room_before(self.fail_send, self.sent.len() as u64);
        let kept = keep(
            &mut self.sent,
            &mut self.moments,
            piece,
            room as usize,
            moment,
        );
        if kept < piece.len() {
            count_fault(&mut self.faults);
            return Err(LinkFault);
        }
        Ok(())
    }
}
