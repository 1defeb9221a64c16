//! Who makes calls.
ghost use Rattle.den_desk.specs.History.{Replays};
ghost use Rattle.den_client.specs.Calling.{Called, View, readings_of};

use den_desk::{Answered, Call, CallError};
use den_disk::Clock;

/// Makes calls under a number of its own, and sees the history that they stand in.
pub trait Caller {
    /// Its number and the standing at which the history begins, which no call changes, and the finished calls that it has seen.
    ghost view: { Self → View };

    /// What each call keeps.
    ghost lawful: { Self → Type 0 };

    /// Makes one call, at the clock's one reading. Its entry ends what is seen then. `OutOfMemory` without a place leaves what was
    /// seen.
    fn call<C: Clock>(&mut self, clock: &mut C, call: Call) -> Result<Answered, CallError>
        requires lawful { lawful self.old }
        ensures lawful { lawful self.new }
        ensures called { Called (view self.old) (view self.new) (readings_of C.tells C.readings clock.old) (readings_of C.tells C.readings clock.new) call result };

    /// What is seen replays from the start.
    ghost replayed: { (c : Self) → lawful c → Replays (view c).start (view c).seen };
}
