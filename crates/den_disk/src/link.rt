//! A link: the way in for requests, and the way out for replies.
ghost use Rattle.std.specs.Prelude.{◌≡◌, ℕ, ◌+◌, ◌<◌, ◌≤◌, Bool, IsTrue, List, ◌++◌, length, OnOk, OnErr, IfOk, IsErr};
ghost use Rattle.den_disk.specs.Goes.{Rose, IsPrefix, stamped, LinkGoesOn};
ghost use Rattle.den_disk.specs.Pieces.{GivesPiece, IsSized, taken_by};

use crate::Disk;

/// What a read gives: so many bytes, at least one, or the end of the input.
#[derive(Clone, Copy, Debug, PartialEq, Eq)]
pub enum Piece {
    Got(usize),
    End,
}

/// A call that the machine's link did not do.
#[derive(Clone, Copy, Debug, PartialEq, Eq)]
pub struct LinkFault;

/// Bytes in, and bytes out.
pub trait Link {
    /// Whether the link tells its bytes.
    ghost tells: { Self → Bool };

    /// The input that is left. Only where it tells.
    ghost left: { Self → List ℕ };

    /// How many bytes were taken, told or not.
    ghost taken: { Self → ℕ };

    /// The bytes sent, each with the disk's moment at its send. Only where it tells.
    ghost sent: { Self → List (ℕ × ℕ) };

    /// How many bytes may be taken in all.
    ghost budget: { Self → ℕ };

    /// How often the link has failed. At 2 ^ 64 - 1 it counts as risen.
    ghost faults: { Self → ℕ };

    /// The next piece of the input. Once the budget is used up it fails.
    fn read(&mut self, buf: &mut [u8]) -> Result<Piece, LinkFault>
        requires { 0 < length buf.old }
        ensures on { LinkGoesOn tells sent budget taken faults self.old self.new }
        ensures sized { IfOk result (λ piece. IsSized piece (length buf.old)) }
        ensures taken { taken self.new ≡ taken self.old + taken_by result }
        ensures gives { IfOk result (λ piece. IsTrue (tells self.old) → GivesPiece piece (left self.old) (left self.new) buf.new) }
        ensures kept { OnErr result (IsTrue (tells self.old) → left self.new ≡ left self.old) }
        ensures sent { IsTrue (tells self.old) → sent self.new ≡ sent self.old }
        ensures spent { budget self.old ≤ taken self.old → IsErr result }
        ensures cause { OnErr result (Rose (faults self.old) (faults self.new)) };

    /// Sends all of a piece, or fails and sends a prefix of it.
    fn send<D: Disk>(&mut self, piece: &[u8], disk: &D) -> Result<(), LinkFault>
        requires { 0 < length piece.now }
        ensures on { LinkGoesOn tells sent budget taken faults self.old self.new }
        ensures left { IsTrue (tells self.old) → left self.new ≡ left self.old }
        ensures taken { taken self.new ≡ taken self.old }
        ensures all { OnOk result (IsTrue (tells self.old) → sent self.new ≡ sent self.old ++ stamped piece.now (D.moment disk.now)) }
        ensures front { IsTrue (tells self.old) → (front : List ℕ) × IsPrefix front piece.now
            × (sent self.new ≡ sent self.old ++ stamped front (D.moment disk.now)) }
        ensures cause { OnErr result (Rose (faults self.old) (faults self.new)) };
}
