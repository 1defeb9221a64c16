//! Where lines about errors go.
ghost use Rattle.std.specs.Prelude.{◌≡◌, ℕ, ◌<◌, Bool, IsTrue, List, ◌++◌, length, OnOk, OnErr};
ghost use Rattle.den_disk.specs.Goes.{Rose, IsPrefix, SinkGoesOn};

/// A write that the machine's sink did not do.
#[derive(Clone, Copy, Debug, PartialEq, Eq)]
pub struct SinkFault;

/// Bytes out, and nothing else.
pub trait Sink {
    /// Whether the sink tells its bytes.
    ghost tells: { Self → Bool };

    /// The bytes written. Only where it tells.
    ghost written: { Self → List ℕ };

    /// How often the sink has failed. At 2 ^ 64 - 1 it counts as risen.
    ghost faults: { Self → ℕ };

    /// Writes all of a piece, or fails and writes a prefix of it.
    fn write(&mut self, piece: &[u8]) -> Result<(), SinkFault>
        requires { 0 < length piece.now }
        ensures on { SinkGoesOn tells written faults self.old self.new }
        ensures all { OnOk result (IsTrue (tells self.old) → written self.new ≡ written self.old ++ piece.now) }
        ensures front { IsTrue (tells self.old) → (front : List ℕ) × IsPrefix front piece.now × (written self.new ≡ written self.old ++ front) }
        ensures cause { OnErr result (Rose (faults self.old) (faults self.new)) };
}
