//! The store of the hard state over a journal.
ghost use Rattle.den_disk.specs.declared.place.Family.TheVariants.{Meta as meta_family};
ghost use Rattle.std.specs.Prelude.{◌≡◌, ◌∷◌, [], IfSome, IfErr, OnOk};
ghost use Rattle.den_model.specs.Image.{hard_state_held};
ghost use Rattle.den_model.specs.Spelling.{hard_state_word};
ghost use Rattle.den_model.specs.Words.{FitsHardState, FitsVote};
ghost use Rattle.den_journal.specs.Causes.{IsOfDisk};
ghost use Rattle.den_journal.specs.Writes.{Opens, StoreStands, Writes};
ghost use Rattle.den_store.specs.Changes.{state_change};
ghost use Rattle.den_store.specs.FileMeta.{meta_shown, state_held, meta_lies};
ghost use Rattle.den_store.specs.Regions.{WritesAnew};

use crate::MetaStore;
use crate::last_state::LastState;
use den_codec::{Error, HardState, VotedFor};
use den_disk::Disk;
use den_journal::Journal;
use std::alloc::Global;

/// The last hard state that was saved, in a file of its own.
#[derive(Drop)]
pub struct FileMetaStore {
    journal: Journal<LastState>,
}

impl FileMetaStore {
    /// Opens the files of the hard state, whatever they are, after a sync of all files. `DataCorruption` names the slot
    /// in use, and the gate of the first region that runs past the end, or else of the first that is no word.
    pub fn new<D: Disk>(alloc: Global, disk: &mut D) -> Result<FileMetaStore, Error>
        ensures opens { Opens D.Disk meta_shown meta_family hard_state_held disk.old disk.new result }
    {
        match Journal::open(alloc, disk) {
            Ok(journal) => Ok(FileMetaStore { journal }),
            Err(error) => Err(error),
        }
    }
}

// A vote, whose numbers fit its word.
fn vote_of(id: u32, term: u64) -> VotedFor
    ensures is { result ≡ record { id = id; term = term } }
    ensures fits { FitsVote result }
{
    VotedFor { id, term }
}

// A hard state, whose numbers fit its word where those of its vote do.
fn state_of(current_term: u64, voted_for: Option<VotedFor>) -> HardState
    requires { IfSome voted_for FitsVote }
    ensures is { result ≡ record { current_term = current_term; voted_for = voted_for } }
    ensures fits { FitsHardState result }
{
    HardState {
        current_term,
        voted_for,
    }
}

// The same hard state, whose numbers fit its word.
fn copy_of(state: &HardState) -> HardState
    ensures is { result ≡ state.now }
    ensures fits { FitsHardState result }
{
    match state.voted_for {
        None => state_of(state.current_term, None),
        Some(vote) => state_of(state.current_term, Some(vote_of(vote.id, vote.term))),
    }
}

impl<D: Disk> MetaStore<D> for FileMetaStore {
    ghost shown = { meta_shown };

    ghost holds = { state_held };

    ghost lies = { meta_lies };

    /// Writes one region of the hard state into the other slot, which is in use then.
    #[tactic(auto, using(crate::proofs::Anew::state_gives, crate::proofs::Anew::state_small))]
    fn save_hard_state(&mut self, disk: &mut D, state: &HardState) -> Result<(), Error>
        requires stands { StoreStands D.Disk (meta_shown self.old) disk.old }
        ensures writes { Writes D.Disk (meta_shown self.old) (meta_shown self.new) disk.old disk.new meta_family state_held
            (state_change state.now) result }
        ensures same { IfErr result (λ e. IsOfDisk e → (meta_shown self.new).value ≡ (meta_shown self.old).value) }
        ensures regions { OnOk result (WritesAnew D.Disk self.old.journal.gate self.new.journal.gate disk.old disk.new (hard_state_word state.now ∷ [])) }
    {
        self.journal.rewrite(disk, copy_of(state), None)
    }

    fn flush(&mut self, disk: &mut D) -> Result<(), Error> {
        self.journal.flush(disk)
    }

    fn is_failed(&self) -> bool {
        self.journal.is_failed()
    }

    fn load_hard_state(&self) -> Option<HardState> {
        self.journal.held().last
    }
}
