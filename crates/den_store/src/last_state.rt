// The last hard state that was saved, as regions give it.
ghost use Rattle.std.specs.Prelude.{◌≡◌, ◌+◌, Some};

use den_codec::{HardState, Word};
use den_disk::Family;
use den_journal::Folded;
use std::alloc::{AllocError, Global};

#[derive(Drop)]
pub(crate) struct LastState {
    pub(crate) last: Option<HardState>,
}

impl Folded for LastState {
    ghost use Rattle.std.specs.Prelude.{ℕ, Option, None, length, refl};
    ghost use Rattle.den_disk.specs.declared.place.Family.TheVariants.{Meta as meta_family};
    ghost use Rattle.den_model.specs.declared.log_id.HardState.{HardState};
    ghost use Rattle.den_model.specs.Image.{hard_state_from};
    ghost use Rattle.den_model.specs.Sizes.{store_rise};
    ghost use Rattle.den_model.specs.Spelling.{hard_state_word};
    ghost use Rattle.den_store.specs.LastState.{state_after};
    ghost use Rattle.den_store.specs.Folds.{states_fold, state_again, state_rises, state_sized};

    type Region = HardState;

    ghost FAMILY = { meta_family };

    const FAMILY: Family = Family::Meta;

    ghost Value = { Option HardState };

    ghost value = { λ s. s.last };

    ghost empty = { None };

    ghost after = { state_after };

    ghost from = { hard_state_from };

    ghost lawful = { λ last state. Unit {0} };

    ghost changed = { λ last state. Some state };

    ghost roomy = { λ s state. Unit {0} };

    ghost rise = { λ state. store_rise (length (hard_state_word state)) };

    ghost lost = { λ state. ⊥ };

    ghost size = { λ last. 0 };

    ghost renewed = { λ last. last };

    ghost folds = { states_fold };

    ghost again = { λ last state lawful fits. state_again last state fits };

    ghost rises = { state_rises };

    ghost none = { refl };

    ghost sized = { λ last state lawful fits. state_sized state };

    ghost anew = { λ last. refl };

    fn empty(_alloc: Global) -> LastState {
        LastState { last: None }
    }

    fn take(&mut self, alloc: Global, payload: &[u8]) -> Result<bool, AllocError> {
        let Some(state) = HardState::read(alloc, payload)? else {
            return Ok(false);
        };
        self.settle(state)?;
        Ok(true)
    }

    fn make_room(&mut self, _state: &HardState) -> Result<(), AllocError> {
        Ok(())
    }

    fn settle(&mut self, state: HardState) -> Result<(), AllocError> {
        self.last = Some(state);
        Ok(())
    }

    fn renew(&mut self) {}
}
