//! A core that leads, and commits to its own log.
ghost use Rattle.std.specs.Prelude.{◌≡◌, ◌<◌, ◌^◌, ◌-◌};
ghost use Rattle.den_core.specs.Cores.{solo_view};
ghost use Rattle.den_core.specs.Parts.{raised_by};
ghost use Rattle.den_model.specs.Image.{term_of};

use den_codec::{Entry, Error, HardState, LeaderHint, LeaderInfo, VotedFor};
use den_core::Core;
use den_disk::Disk;
use den_store::{LogStore, MetaStore};
use std::alloc::{AllocError, Global};

/// A node that leads in the term that it last raised.
#[derive(Drop)]
pub struct OwnCore {
    id: u32,
    term: u64,
}

impl OwnCore {
    /// The node of this id, before it raised a term.
    pub fn new(id: u32) -> OwnCore
        ensures { result ≡ record { id = id; term = 0 } }
    {
        OwnCore { id, term: 0 }
    }
}

// The hard state of the next term, in which this node votes for itself.
fn next_state(id: u32, last: Option<HardState>) -> HardState
    requires { term_of last < 2 ^ 64 - 1 }
    ensures { result ≡ raised_by id last }
{
    let term = match last {
        Some(state) => state.current_term + 1,
        None => 1,
    };
    HardState {
        current_term: term,
        voted_for: Some(VotedFor { id, term }),
    }
}

impl<D: Disk> Core<D> for OwnCore {
    ghost view = { λ c. solo_view c.id c.term };

    fn role(&self) -> i32 {
        2
    }

    fn leader(&self) -> Option<LeaderInfo> {
        Some(LeaderInfo {
            leader_id: self.id,
            term: self.term,
        })
    }

    fn hint(&self, _alloc: Global) -> Result<Option<LeaderHint>, AllocError> {
        Ok(None)
    }

    fn raise<T: MetaStore<D>>(&mut self, disk: &mut D, meta: &mut T) -> Result<u64, Error> {
        let state = next_state(self.id, meta.load_hard_state());
        meta.save_hard_state(disk, &state)?;
        self.term = state.current_term;
        Ok(state.current_term)
    }

    fn commit<G: LogStore<D>>(
        &mut self,
        disk: &mut D,
        log: &mut G,
        entry: Entry,
    ) -> Result<(), Error> {
        log.persist_entries(disk, &[entry])
    }
}
