//! A caller with a desk of its own.
ghost use Rattle.std.specs.Prelude.{◌≡◌};
ghost use Rattle.den_client.specs.Calling.{Called, local_view, readings_of};

use crate::Caller;
use den_core::Core;
use den_desk::{Answered, Call, CallError, Desk, Station};
use den_disk::{Clock, Disk};
use den_state::StateMachine;
use den_store::{LogStore, MetaStore};

/// The only caller of a desk, which it owns; its number is 0.
#[derive(Drop)]
pub struct LocalCaller<D, G, T, M, K> {
    desk: Desk<D, G, T, M, K>,
}

impl<D, G, T, M, K> LocalCaller<D, G, T, M, K> {
    /// The caller of this desk.
    pub fn new(desk: Desk<D, G, T, M, K>) -> LocalCaller<D, G, T, M, K>
        ensures { result.desk ≡ desk }
    {
        LocalCaller { desk }
    }

    /// The desk, lent.
    pub fn desk(&self) -> &Desk<D, G, T, M, K>
        ensures { result.now ≡ self.now.desk }
    {
        &self.desk
    }

    /// The desk, given back.
    pub fn into_desk(self) -> Desk<D, G, T, M, K>
        ensures { result ≡ self.desk }
    {
        self.desk
    }
}

impl<D: Disk, G: LogStore<D>, T: MetaStore<D>, M: StateMachine<D>, K: Core<D>> Caller
    for LocalCaller<D, G, T, M, K> {
    ghost view = { λ c. local_view ⟦<Desk<D, G, T, M, K> as Station>⟧.start ⟦<Desk<D, G, T, M, K> as Station>⟧.history c.desk };

    ghost lawful = { λ c. ⟦<Desk<D, G, T, M, K> as Station>⟧.lawful c.desk };

    fn call<C: Clock>(&mut self, clock: &mut C, call: Call) -> Result<Answered, CallError> {
        call_at(&mut self.desk, clock, call)
    }

    ghost replayed = { λ c lawful. lawful.replays };
}

/// Makes a call of a station, at one reading of the clock.
fn call_at<S: Station, C: Clock>(
    station: &mut S,
    clock: &mut C,
    call: Call,
) -> Result<Answered, CallError>
    requires lawful { S.lawful station.old }
    ensures lawful { S.lawful station.new }
    ensures called { Called (local_view S.start S.history station.old) (local_view S.start S.history station.new) (readings_of C.tells C.readings clock.old) (readings_of C.tells C.readings clock.new) call result }
{
    let moment = clock.now();
    station.turn(0, moment, call)
}
