//! Cleanups: keys that have expired go, with a record of it.
ghost use Rattle.std.specs.Prelude.{◌≡◌, ◌≤◌, [], ◌∷◌, Some, OnOk, IfOk, IfErr, true, false};
ghost use Rattle.den_lease.specs.Due.{has_due};
ghost use Rattle.den_model.specs.Step.{Cleanup};
ghost use Rattle.den_core.specs.Making.{CanGoOn, IsCallTooShort, Makes};
ghost use Rattle.den_core.specs.Refusals.{HasCleaned};
ghost use Rattle.den_core.specs.Weights.{clean_rise};

use crate::{Core, Engine, Stepper};
use den_codec::Error;
use den_disk::Disk;
use den_state::StateMachine;
use den_store::{LogStore, MetaStore};

/// Removes the keys that have expired, and notes the moment. Answers whether there were some: else nothing was written.
pub(crate) fn clean<D: Disk, G: LogStore<D>, T: MetaStore<D>, M: StateMachine<D>, K: Core<D>>(
    engine: &mut Engine<G, T, M, K>,
    disk: &mut D,
    time: u64,
) -> Result<bool, Error>
    requires stands { CanGoOn D.Disk (⟦<Engine<G, T, M, K> as Stepper<D>>⟧.seen engine.old) disk.old }
    requires lease { engine.old.running.lease ≡ true }
    requires time { 1 ≤ time }
    ensures makes { Makes D.Disk (⟦<Engine<G, T, M, K> as Stepper<D>>⟧.seen engine.old) (⟦<Engine<G, T, M, K> as Stepper<D>>⟧.seen engine.new) disk.old disk.new ⟦<Engine<G, T, M, K> as Stepper<D>>⟧.says
        (Cleanup time ∷ []) clean_rise (IsCallTooShort (⟦<Engine<G, T, M, K> as Stepper<D>>⟧.seen engine.old) (Cleanup time ∷ [])) (HasCleaned (⟦<Engine<G, T, M, K> as Stepper<D>>⟧.seen engine.old).kv (Cleanup time ∷ [])) result }
    ensures log { (⟦<Engine<G, T, M, K> as Stepper<D>>⟧.seen engine.new).log ≡ (⟦<Engine<G, T, M, K> as Stepper<D>>⟧.seen engine.old).log }
    ensures took { IfOk result (λ took. took ≡ has_due time (M.map engine.old.state).expiries) }
    ensures registry { engine.new.running.registry ≡ engine.old.running.registry }
    ensures idle { IfOk result (λ took. took ≡ false
        → (engine.new ≡ record engine.old { running = record engine.old.running { cleaned = Some time } }) × (disk.new ≡ disk.old)) }
    ensures state_short { OnOk result ((⟦<Engine<G, T, M, K> as Stepper<D>>⟧.seen engine.old).short → (⟦<Engine<G, T, M, K> as Stepper<D>>⟧.seen engine.new).short) }
    ensures meta { engine.new.meta ≡ engine.old.meta }
    ensures running { IfErr result (λ e. engine.new.running ≡ engine.old.running) }
    ensures still { IfErr result (λ e. engine.new.failed ≡ engine.old.failed) }
{
    let removed = engine.state.lease_background_cleanup(disk, time)?;
    engine.running.cleaned = Some(time);
    Ok(!removed.as_slice().is_empty())
}
