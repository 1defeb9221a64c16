//! A link in memory with a bound on its input.
ghost use Rattle.std.specs.Prelude.{◌≡◌, ◌≤◌, ◌+◌, ◌^◌, [], length, map};

use den_disk::{Disk, Link, LinkFault, MemLink, Piece};
use std::alloc::Global;

/// A link in memory. No more than 2^27 bytes are taken from it.
#[derive(Drop)]
pub struct Feed {
    link: MemLink,
    ghost small: { ⟦<MemLink as Link>⟧.taken link + length (⟦<MemLink as Link>⟧.left link) ≤ 2 ^ 27 },
}

impl Feed {
    /// A link with this input.
    pub fn new(alloc: Global, input: Vec<u8>) -> Self
        requires small { length input.items ≤ 2 ^ 27 }
        ensures left { ⟦<Feed as Link>⟧.left result ≡ input.items }
        ensures sent { ⟦<Feed as Link>⟧.sent result ≡ [] }
    {
        Feed {
            link: MemLink::new(alloc, input, Vec::new(alloc)),
        }
    }

    /// The bytes sent.
    pub fn sent(&self) -> &[u8]
        ensures { result.now ≡ map (λ s. s.0) (⟦<Feed as Link>⟧.sent self.now) }
    {
        self.link.sent()
    }
}

impl Link for Feed {
    ghost tells = { λ feed. ⟦<MemLink as Link>⟧.tells feed.link };

    ghost left = { λ feed. ⟦<MemLink as Link>⟧.left feed.link };

    ghost taken = { λ feed. ⟦<MemLink as Link>⟧.taken feed.link };

    ghost sent = { λ feed. ⟦<MemLink as Link>⟧.sent feed.link };

    ghost budget = { λ feed. ⟦<MemLink as Link>⟧.budget feed.link };

    ghost faults = { λ feed. ⟦<MemLink as Link>⟧.faults feed.link };

    fn read(&mut self, buf: &mut [u8]) -> Result<Piece, LinkFault> {
        self.link.read(buf)
    }

    fn send<D: Disk>(&mut self, piece: &[u8], disk: &D) -> Result<(), LinkFault> {
        self.link.send(piece, disk)
    }
}
