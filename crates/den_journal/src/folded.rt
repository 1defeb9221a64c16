//! What regions are folded into.
ghost use Rattle.std.specs.Prelude.{◌≡◌, ◌≤◌, ◌+◌, ◌*◌, ℕ, List, Option, Some, None, Result, IsTrue, IsErr, IfOk, OnOk, length, if◌then◌else◌};
ghost use Rattle.den_disk.specs.declared.place.Family.{Family};
ghost use Rattle.den_model.specs.Regions.{Region};
ghost use Rattle.den_journal.specs.Folding.{IsFold};

use den_codec::Word;
use den_disk::Family;
use std::alloc::{AllocError, Global};

/// A value in memory that regions are folded into, one after the other.
pub trait Folded: Sized + Drop {
    type Region: Word;

    /// The family in whose files the regions lie.
    ghost FAMILY: { Family };

    const FAMILY: Family;

    /// What it stands for.
    ghost Value: { Type 0 };

    ghost value: { Self → Value };

    /// What no region gives.
    ghost empty: { Value };

    /// What one more payload makes of it; none where that is no word, or is not lawful here.
    ghost after: { Value → List ℕ → Option Value };

    /// What regions make of it, or the place of the first that is no lawful word.
    ghost from: { Value → List Region → Result Value ℕ };

    /// Whether a region may stand here.
    ghost lawful: { Value → Self.Region → Type 0 };

    /// What a lawful region makes of it.
    ghost changed: { Value → Self.Region → Value };

    /// It has the memory for a region.
    ghost roomy: { Self → Self.Region → Type 0 };

    /// By how much a region makes the files heavier, at most.
    ghost rise: { Self.Region → ℕ };

    /// It may want memory once this region is written.
    ghost lost: { Self.Region → Type 0 };

    /// A number of bytes, which no payload and no region makes greater by more than its length.
    ghost size: { Value → ℕ };

    /// The value once its regions are written anew.
    ghost renewed: { Value → Value };

    /// What no region gives.
    fn empty(alloc: Global) -> Self
        ensures value { value result ≡ empty };

    /// Makes of it what one more payload says; false where that is no lawful word.
    fn take(&mut self, alloc: Global, payload: &[u8]) -> Result<bool, AllocError>
        ensures taken { IfOk result (λ taken. after (value self.old) payload.now ≡ (if taken then Some (value self.new) else None)) }
        ensures size { IfOk result (λ taken. IsTrue taken → size (value self.new) ≤ size (value self.old) + length payload.now) };

    /// Takes the memory for a region.
    fn make_room(&mut self, region: &Self::Region) -> Result<(), AllocError>
        ensures same { value self.new ≡ value self.old }
        ensures room { OnOk result (roomy self.new region.now) };

    /// Makes of it what a region says. At a refusal it is of no more use.
    fn settle(&mut self, region: Self::Region) -> Result<(), AllocError>
        requires lawful { lawful (value self.old) region }
        requires fits { Self.Region.fits region }
        requires room { roomy self.old region }
        ensures settled { OnOk result (value self.new ≡ changed (value self.old) region) }
        ensures lost { IsErr result → lost region };

    /// Makes of it what it is once its regions are written anew.
    fn renew(&mut self)
        ensures { value self.new ≡ renewed (value self.old) };

    ghost folds: { IsFold after from };

    ghost again: { (v : Value) (r : Self.Region) → lawful v r → Self.Region.fits r → after v (Self.Region.word r) ≡ Some (changed v r) };

    ghost rises: { (r : Self.Region) → 9 + 2 * length (Self.Region.word r) ≤ rise r };

    ghost none: { size empty ≡ 0 };

    ghost sized: { (v : Value) (r : Self.Region) → lawful v r → Self.Region.fits r → size (changed v r) ≤ size v + length (Self.Region.word r) };

    ghost anew: { (v : Value) → size (renewed v) ≡ size v };
}
