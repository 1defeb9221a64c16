//! A new term of a leader: the term is raised, and its first entry committed.
ghost use Rattle.std.specs.Prelude.{◌≡◌, ◌<◌, ◌≤◌, ◌^◌, ◌-◌, ◌+◌, IsTrue, [], ◌∷◌, Some, OnOk, true};
ghost use Rattle.den_model.specs.Image.{term_of};
ghost use Rattle.den_model.specs.Plan.{logged};
ghost use Rattle.den_model.specs.Step.{is_leader, Noop, Raise};
ghost use Rattle.den_core.specs.Cores.{KeepsPlace};
ghost use Rattle.den_core.specs.Making.{CanGoOn, ChangesStores, IsCallTooShort, LogIsShort, Makes};
ghost use Rattle.den_core.specs.Parts.{durable_of, raised_by, IsReady};
ghost use Rattle.den_core.specs.PayloadSizes.{hard_state_sizes};
ghost use Rattle.den_core.specs.Trimmed.{logged_after, mark_of};
ghost use Rattle.den_core.specs.Weights.{raise_rise, term_rise};

use crate::commits::commit_and_trim;
use crate::{Core, Engine, Stepper};
use den_codec::{Command, Error};
use den_disk::Disk;
use den_state::StateMachine;
use den_store::{LogStore, MetaStore};

/// The current term, 0 before any was saved.
pub(crate) fn current_term<D: Disk, T: MetaStore<D>>(meta: &T) -> u64
    ensures { result ≡ term_of (T.shown meta.now).value }
{
    match meta.load_hard_state() {
        Some(state) => state.current_term,
        None => 0,
    }
}

/// Raises the term by one, voted for this node.
fn raise<D: Disk, G: LogStore<D>, T: MetaStore<D>, M: StateMachine<D>, K: Core<D>>(
    engine: &mut Engine<G, T, M, K>,
    disk: &mut D,
) -> Result<(), Error>
    requires ready { IsReady (G.shown engine.old.log).ready (T.shown engine.old.meta).ready (M.shown engine.old.state).ready
        (G.shown engine.old.log).value (M.map engine.old.state) (K.view engine.old.core).role (M.settings engine.old.state) engine.old.running }
    requires rests { IsTrue (D.kind disk.old).tells → (⟦<Engine<G, T, M, K> as Stepper<D>>⟧.seen engine.old).rests (D.content disk.old) }
    requires room { term_of (T.shown engine.old.meta).value < 2 ^ 64 - 1 }
    ensures makes { ChangesStores D.Disk (⟦<Engine<G, T, M, K> as Stepper<D>>⟧.seen engine.old) (⟦<Engine<G, T, M, K> as Stepper<D>>⟧.seen engine.new) disk.old disk.new ⟦<Engine<G, T, M, K> as Stepper<D>>⟧.says
        (durable_of (Some (raised_by (K.view engine.old.core).id (T.shown engine.old.meta).value)) (M.map engine.old.state)) []
        (hard_state_sizes (raised_by (K.view engine.old.core).id (T.shown engine.old.meta).value)) raise_rise result }
    ensures raised { OnOk result ((T.shown engine.new.meta).value ≡ Some (raised_by (K.view engine.old.core).id (T.shown engine.old.meta).value)) }
    ensures log { (G.shown engine.new.log).value ≡ (G.shown engine.old.log).value }
    ensures map { M.map engine.new.state ≡ M.map engine.old.state }
    ensures running { engine.new.running ≡ engine.old.running }
    ensures core { KeepsPlace (K.view engine.old.core) (K.view engine.new.core) }
    ensures ready { OnOk result (IsReady (G.shown engine.new.log).ready (T.shown engine.new.meta).ready (M.shown engine.new.state).ready
        (G.shown engine.new.log).value (M.map engine.new.state) (K.view engine.new.core).role (M.settings engine.new.state) engine.new.running) }
{
    engine.core.raise(disk, &mut engine.meta)?;
    Ok(())
}

/// Begins a term: raises it, and commits an entry without effect. The log is short then: it is purged up to the mark only
/// where its indices run over too many. Where memory is wanting behind a write, the term is raised.
pub(crate) fn begin_term<D: Disk, G: LogStore<D>, T: MetaStore<D>, M: StateMachine<D>, K: Core<D>>(
    engine: &mut Engine<G, T, M, K>,
    disk: &mut D,
    time: u64,
) -> Result<(), Error>
    requires stands { CanGoOn D.Disk (⟦<Engine<G, T, M, K> as Stepper<D>>⟧.seen engine.old) disk.old }
    requires leads { is_leader engine.old.running.role ≡ true }
    requires time { 1 ≤ time }
    requires term { (⟦<Engine<G, T, M, K> as Stepper<D>>⟧.seen engine.old).kv.durable.term < 2 ^ 64 - 1 }
    requires index { (⟦<Engine<G, T, M, K> as Stepper<D>>⟧.seen engine.old).kv.durable.last_index < 2 ^ 64 - 1 }
    ensures makes { Makes D.Disk (⟦<Engine<G, T, M, K> as Stepper<D>>⟧.seen engine.old) (⟦<Engine<G, T, M, K> as Stepper<D>>⟧.seen engine.new) disk.old disk.new ⟦<Engine<G, T, M, K> as Stepper<D>>⟧.says
        (Raise ∷ Noop time ∷ []) term_rise (IsCallTooShort (⟦<Engine<G, T, M, K> as Stepper<D>>⟧.seen engine.old) (Raise ∷ Noop time ∷ []))
        ((⟦<Engine<G, T, M, K> as Stepper<D>>⟧.seen engine.new).kv.durable.term ≡ (⟦<Engine<G, T, M, K> as Stepper<D>>⟧.seen engine.old).kv.durable.term + 1) result }
    ensures log { OnOk result ((⟦<Engine<G, T, M, K> as Stepper<D>>⟧.seen engine.new).log
        ≡ logged_after (⟦<Engine<G, T, M, K> as Stepper<D>>⟧.seen engine.old).most (mark_of (⟦<Engine<G, T, M, K> as Stepper<D>>⟧.seen engine.new).kv.durable) (⟦<Engine<G, T, M, K> as Stepper<D>>⟧.seen engine.old).log (logged (⟦<Engine<G, T, M, K> as Stepper<D>>⟧.seen engine.old).kv (Raise ∷ Noop time ∷ []))) }
    ensures running { OnOk result (engine.new.running ≡ engine.old.running) }
    ensures short { OnOk result (LogIsShort (⟦<Engine<G, T, M, K> as Stepper<D>>⟧.seen engine.new)) }
    ensures state_short { OnOk result (⟦<Engine<G, T, M, K> as Stepper<D>>⟧.seen engine.new).short }
{
    raise(engine, disk)?;
    // The term lacks its first entry.
    engine.failed = true;
    commit_and_trim(engine, disk, Command::Noop, time)?;
    Ok(())
}
