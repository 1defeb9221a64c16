//! Where a configuration is read from.
ghost use Rattle.std.specs.Prelude.{◌≡◌, ℕ, ◌<◌, Bool, IsTrue, List, length, OnErr, IfOk};
ghost use Rattle.den_disk.specs.Goes.{Rose, SourceGoesOn};
ghost use Rattle.den_disk.specs.Pieces.{GivesPiece, IsSized};

use crate::Piece;

/// A read that the machine's source did not do.
#[derive(Clone, Copy, Debug, PartialEq, Eq)]
pub struct SourceFault;

/// Bytes to be read once, from the first to the last.
pub trait Source {
    /// Whether the source tells its bytes.
    ghost tells: { Self → Bool };

    /// The bytes that are left. Only where it tells.
    ghost left: { Self → List ℕ };

    /// How often the source has failed. At 2 ^ 64 - 1 it counts as risen.
    ghost faults: { Self → ℕ };

    /// The next piece.
    fn read(&mut self, buf: &mut [u8]) -> Result<Piece, SourceFault>
        requires { 0 < length buf.old }
        ensures on { SourceGoesOn tells faults self.old self.new }
        ensures sized { IfOk result (λ piece. IsSized piece (length buf.old)) }
        ensures gives { IfOk result (λ piece. IsTrue (tells self.old) → GivesPiece piece (left self.old) (left self.new) buf.new) }
        ensures kept { OnErr result (IsTrue (tells self.old) → left self.new ≡ left self.old) }
        ensures cause { OnErr result (Rose (faults self.old) (faults self.new)) };
}
