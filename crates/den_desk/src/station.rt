//! What a desk is for those who make calls of it.
ghost use Rattle.std.specs.Prelude.{◌≡◌, ℕ, List};
ghost use Rattle.den_desk.specs.declared.history.Call.{Call};
ghost use Rattle.den_desk.specs.declared.history.FailKind.{FailKind};
ghost use Rattle.den_desk.specs.declared.history.Finished.{Finished};
ghost use Rattle.den_desk.specs.History.{Replays, Standing, Turned};

use crate::history::{Answered, Call, CallError, Finished};

/// Takes calls one after the other, and keeps their history.
pub trait Station {
    /// All that holds of it between two calls.
    ghost lawful: { Self → Type 0 };

    /// The standing at which its history begins.
    ghost start: { Self → Standing };

    /// Its finished calls, the first one first.
    ghost history: { Self → List Finished };

    /// Why a call that is made at this moment fails by itself, of what is before it and behind it.
    ghost fails: { Self → Self → ℕ → Call → FailKind → Type 0 };

    /// Makes one call at this reading of the clock, in milliseconds, and adds its entry to the history. `OutOfMemory` without a
    /// place leaves the history as it was. With a place it is the call's own want of memory, which ends the history; `Failed` is
    /// the call's own failure, or names where the history ended before it.
    fn turn(&mut self, caller: u64, moment: u64, call: Call) -> Result<Answered, CallError>
        requires lawful { lawful self.old }
        ensures lawful { lawful self.new }
        ensures start { start self.new ≡ start self.old }
        ensures turned { Turned (start self.old) (history self.old) (history self.new) caller moment call (fails self.old self.new moment call) result };

    /// Each call of the history has the outcome of the replay.
    ghost replayed: { (station : Self) → lawful station → Replays (start station) (history station) };
}
