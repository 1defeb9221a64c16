//! Turns whose events wait for their watchers, for those who embed an engine.
ghost use Rattle.std.specs.Prelude.{◌≡◌, ◌≤◌, ◌⊎◌, length, OnOk, IfOk, IfErr, Some};
ghost use Rattle.std.specs.Borrow.{sem, Lends};
ghost use Rattle.den_codec.specs.declared.error.Error.TheVariants.{OutOfMemory};
ghost use Rattle.den_model.specs.Plan.{logged, turn};
ghost use Rattle.den_model.specs.Step.{raised};
ghost use Rattle.den_watch.specs.contracts.registry.WatchRegistry.{the_row as registry_row};
ghost use Rattle.den_watch.specs.Registry.{kept, watchers};
ghost use Rattle.den_core.specs.contracts.engine.Engine.{the_row};
ghost use Rattle.den_core.specs.Kept.{asked_of, registry_behind, HasRaised};
ghost use Rattle.den_core.specs.Making.{CanGoOn, IsCallTooShort, LogIsShort, Makes};
ghost use Rattle.den_core.specs.Refusals.{HasCleaned, HasJoined};
ghost use Rattle.den_core.specs.Trimmed.{logged_after, mark_of};
ghost use Rattle.den_core.specs.Weights.{frame_rise};

use crate::engine::take_turn;
use crate::watching::Turned;
use crate::{Core, Engine, Run, Stepper};
use den_codec::{Error, Frame, Reply};
use den_disk::Disk;
use den_state::StateMachine;
use den_store::{LogStore, MetaStore};
use den_watch::WatchRegistry;

/// Puts a turn's events where each watcher's wait. It is refused for want of memory alone, where there are some, and
/// nothing changes then.
fn keep(run: &mut Run, turned: &Turned) -> Result<(), Error>
    requires raised_by { raised (watchers run.old.registry) turned.now.change ≡ turned.now.out.events }
    ensures kept { OnOk result (run.new ≡ record run.old { registry = kept turned.now.out.events run.old.registry }) }
    ensures refused { IfErr result (λ e. (e ≡ OutOfMemory) × (run.new ≡ run.old) × (1 ≤ length turned.now.out.events)) }
{
    if turned.out.events.as_slice().is_empty() {
        return Ok(());
    }
    let Some(change) = &turned.change else {
        return Ok(());
    };
    match run.registry.deliver(change) {
        Ok(()) => Ok(()),
        Err(_) => Err(Error::OutOfMemory),
    }
}

impl<G, T, M, K> Engine<G, T, M, K> {
    /// Makes a frame's steps, as `step` does, and answers the reply. The events that they raise are put where each
    /// watcher's wait: `registry` lends these. Where memory is wanting behind the steps, the engine has failed.
    pub fn step_kept<D: Disk>(
        &mut self,
        disk: &mut D,
        frame: Frame,
        time: u64,
    ) -> Result<Reply, Error>
    where
        G: LogStore<D>,
        T: MetaStore<D>,
        M: StateMachine<D>,
        K: Core<D>,
        requires stands { CanGoOn D.Disk (⟦<Engine<G, T, M, K> as Stepper<D>>⟧.seen self.old) disk.old }
        requires time { 1 ≤ time }
        ensures makes { Makes D.Disk (⟦<Engine<G, T, M, K> as Stepper<D>>⟧.seen self.old) (⟦<Engine<G, T, M, K> as Stepper<D>>⟧.seen self.new) disk.old disk.new ⟦<Engine<G, T, M, K> as Stepper<D>>⟧.says
            (turn (⟦<Engine<G, T, M, K> as Stepper<D>>⟧.seen self.old).kv frame time) (frame_rise frame) (IsCallTooShort (⟦<Engine<G, T, M, K> as Stepper<D>>⟧.seen self.old) (turn (⟦<Engine<G, T, M, K> as Stepper<D>>⟧.seen self.old).kv frame time))
            (HasCleaned (⟦<Engine<G, T, M, K> as Stepper<D>>⟧.seen self.old).kv (turn (⟦<Engine<G, T, M, K> as Stepper<D>>⟧.seen self.old).kv frame time)
            ⊎ HasJoined (⟦<Engine<G, T, M, K> as Stepper<D>>⟧.seen self.old).log (logged (⟦<Engine<G, T, M, K> as Stepper<D>>⟧.seen self.old).kv (turn (⟦<Engine<G, T, M, K> as Stepper<D>>⟧.seen self.old).kv frame time)) (⟦<Engine<G, T, M, K> as Stepper<D>>⟧.seen self.new).log
            ⊎ HasRaised (⟦<Engine<G, T, M, K> as Stepper<D>>⟧.seen self.old).kv frame time (⟦<Engine<G, T, M, K> as Stepper<D>>⟧.seen self.new).kv) result }
        ensures log { OnOk result ((⟦<Engine<G, T, M, K> as Stepper<D>>⟧.seen self.new).log
            ≡ logged_after (⟦<Engine<G, T, M, K> as Stepper<D>>⟧.seen self.old).most (mark_of (⟦<Engine<G, T, M, K> as Stepper<D>>⟧.seen self.new).kv.durable) (⟦<Engine<G, T, M, K> as Stepper<D>>⟧.seen self.old).log (logged (⟦<Engine<G, T, M, K> as Stepper<D>>⟧.seen self.old).kv (turn (⟦<Engine<G, T, M, K> as Stepper<D>>⟧.seen self.old).kv frame time))) }
        ensures short { OnOk result (LogIsShort (⟦<Engine<G, T, M, K> as Stepper<D>>⟧.seen self.old) → LogIsShort (⟦<Engine<G, T, M, K> as Stepper<D>>⟧.seen self.new)) }
        ensures state_short { OnOk result ((⟦<Engine<G, T, M, K> as Stepper<D>>⟧.seen self.old).short → (⟦<Engine<G, T, M, K> as Stepper<D>>⟧.seen self.new).short) }
        ensures replied { IfOk result (λ reply. (asked_of (⟦<Engine<G, T, M, K> as Stepper<D>>⟧.seen self.old).kv frame time).reply ≡ Some reply) }
        ensures kept { OnOk result (self.new.running.registry
            ≡ registry_behind self.old.running.registry (asked_of (⟦<Engine<G, T, M, K> as Stepper<D>>⟧.seen self.old).kv frame time)) }
    {
        let turned = take_turn(self, disk, frame, time)?;
        match keep(&mut self.running, &turned) {
            Ok(()) => Ok(turned.out.reply),
            Err(error) => {
                self.failed = true;
                Err(error)
            }
        }
    }

    /// Who watches, with what waits for each, lent. Nothing else of the engine moves.
    pub fn registry(&mut self) -> &mut WatchRegistry
        ensures* writes_back { sem 𝓛 (Lends (the_row G.row T.row M.row K.row) registry_row self.entry result
            (λ registry. record self.old { running = record self.old.running { registry = registry } })) }
        ensures value { result.now ≡ self.old.running.registry }
    {
        let running = &mut self.running;
        &mut running.registry
    }
}
