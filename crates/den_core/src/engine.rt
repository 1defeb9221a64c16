//! The engine: log, hard state, map and core, and the turns of frames.
ghost use Rattle.std.specs.Prelude.{◌≡◌, ◌⊎◌, ◌≤◌, ◌+◌, IsTrue, [], ◌∷◌, OnOk, IfOk, IfErr, true, false};
ghost use Rattle.den_disk.specs.Files.{Content};
ghost use Rattle.den_model.specs.Image.{joined};
ghost use Rattle.den_model.specs.Kv.{Durable};
ghost use Rattle.den_model.specs.Plan.{due_cleanup, first_cleanup, is_due, logged, turn};
ghost use Rattle.den_model.specs.Step.{answer, Ask};
ghost use Rattle.den_core.specs.Kept.{asked_of, IsTurned};
ghost use Rattle.den_core.specs.Making.{CanGoOn, IsCallTooShort, LogIsShort, Makes};
ghost use Rattle.den_core.specs.Parts.{kv_of, running_seen, AllRest, GoesWith, HasFailed, IsCaughtUp, IsReady};
ghost use Rattle.den_core.specs.Refusals.{HasCleaned, HasJoined};
ghost use Rattle.den_core.specs.Trimmed.{logged_after, mark_of};
ghost use Rattle.den_core.specs.Weights.{ask_rise, clean_rise, frame_rise};
ghost use Rattle.den_state.specs.Machine.{AtRest, rest_hold};

use crate::ask::{Asked, ask, leads};
use crate::cleaning::clean;
use crate::commits::commit_and_trim;
use crate::terms::begin_term;
use crate::watching::{Turned, register, said, tell, told};
use crate::{Core, Run, StepOut, Stepper};
use den_codec::{Error, Frame, Reply};
use den_disk::Disk;
use den_state::StateMachine;
use den_store::{LogStore, MetaStore};
use std::alloc::Global;

/// Log, hard state, map and core, and the run's part. The map has each entry of the log, unless a step ended between its writes:
/// then the engine has failed.
#[derive(Drop)]
pub struct Engine<G, T, M, K> {
    pub(crate) log: G,
    pub(crate) meta: T,
    pub(crate) state: M,
    pub(crate) core: K,
    pub(crate) running: Run,
    /// How many entries the log may hold behind a step.
    pub(crate) most: u64,
    pub(crate) failed: bool,
    pub(crate) alloc: Global,
}

impl<G, T, M, K> Engine<G, T, M, K> {
    /// Of stores that go together: the map has each entry of the log, and the state machine runs. Behind a step the log may hold so many entries at
    /// most.
    pub fn new<D: Disk>(
        alloc: Global,
        log: G,
        meta: T,
        state: M,
        core: K,
        running: Run,
        most: u64,
    ) -> Engine<G, T, M, K>
    where
        G: LogStore<D>,
        T: MetaStore<D>,
        M: StateMachine<D>,
        K: Core<D>,
        requires log_ready { (G.shown log).ready }
        requires meta_ready { (T.shown meta).ready }
        requires state_ready { (M.shown state).ready }
        requires caught_up { IsCaughtUp (G.shown log).value (M.map state) }
        requires goes_with { GoesWith (K.view core).role (M.settings state).leased running }
        requires runs { (M.settings state).running ≡ true }
        ensures kv { (⟦<Engine<G, T, M, K> as Stepper<D>>⟧.seen result).kv ≡ kv_of (T.shown meta).value (M.map state) running }
        ensures log { (⟦<Engine<G, T, M, K> as Stepper<D>>⟧.seen result).log ≡ (G.shown log).value }
        ensures state { result.state ≡ state }
        ensures waits { (⟦<Engine<G, T, M, K> as Stepper<D>>⟧.seen result).waits ≡ running.registry }
        ensures most { (⟦<Engine<G, T, M, K> as Stepper<D>>⟧.seen result).most ≡ most }
        ensures ready { (⟦<Engine<G, T, M, K> as Stepper<D>>⟧.seen result).ready }
        ensures weight { (⟦<Engine<G, T, M, K> as Stepper<D>>⟧.seen result).weight ≡ (G.shown log).weight + (T.shown meta).weight + (M.shown state).weight }
        ensures rests { (content : Content) → AllRest ((G.shown log).rests content) ((T.shown meta).rests content) (AtRest (M.shown state) (M.map state) content)
            → (⟦<Engine<G, T, M, K> as Stepper<D>>⟧.seen result).rests content }
    {
        Engine {
            log,
            meta,
            state,
            core,
            running,
            most,
            failed: false,
            alloc,
        }
    }
}

/// What a frame asks for: makes its step. Those who watch are told only where it is made.
fn answer<D: Disk, G: LogStore<D>, T: MetaStore<D>, M: StateMachine<D>, K: Core<D>>(
    engine: &mut Engine<G, T, M, K>,
    disk: &mut D,
    frame: Frame,
    time: u64,
) -> Result<Turned, Error>
    requires stands { CanGoOn D.Disk (⟦<Engine<G, T, M, K> as Stepper<D>>⟧.seen engine.old) disk.old }
    requires time { 1 ≤ time }
    ensures makes { Makes D.Disk (⟦<Engine<G, T, M, K> as Stepper<D>>⟧.seen engine.old) (⟦<Engine<G, T, M, K> as Stepper<D>>⟧.seen engine.new) disk.old disk.new ⟦<Engine<G, T, M, K> as Stepper<D>>⟧.says
        (Ask frame time ∷ []) (ask_rise frame) (IsCallTooShort (⟦<Engine<G, T, M, K> as Stepper<D>>⟧.seen engine.old) (Ask frame time ∷ []))
        (HasJoined (⟦<Engine<G, T, M, K> as Stepper<D>>⟧.seen engine.old).log (logged (⟦<Engine<G, T, M, K> as Stepper<D>>⟧.seen engine.old).kv (Ask frame time ∷ [])) (⟦<Engine<G, T, M, K> as Stepper<D>>⟧.seen engine.new).log) result }
    ensures trimmed { OnOk result ((⟦<Engine<G, T, M, K> as Stepper<D>>⟧.seen engine.new).log
        ≡ logged_after (⟦<Engine<G, T, M, K> as Stepper<D>>⟧.seen engine.old).most (mark_of (⟦<Engine<G, T, M, K> as Stepper<D>>⟧.seen engine.new).kv.durable) (⟦<Engine<G, T, M, K> as Stepper<D>>⟧.seen engine.old).log (logged (⟦<Engine<G, T, M, K> as Stepper<D>>⟧.seen engine.old).kv (Ask frame time ∷ []))) }
    ensures short { OnOk result (LogIsShort (⟦<Engine<G, T, M, K> as Stepper<D>>⟧.seen engine.old) → LogIsShort (⟦<Engine<G, T, M, K> as Stepper<D>>⟧.seen engine.new)) }
    ensures state_short { OnOk result ((⟦<Engine<G, T, M, K> as Stepper<D>>⟧.seen engine.old).short → (⟦<Engine<G, T, M, K> as Stepper<D>>⟧.seen engine.new).short) }
    ensures turned { IfOk result (λ turned. IsTurned (answer (⟦<Engine<G, T, M, K> as Stepper<D>>⟧.seen engine.old).kv time frame) engine.old.running.registry engine.new.running.registry turned) }
    ensures running { IfErr result (λ e. engine.new.running ≡ engine.old.running) }
{
    match ask::<D, M>(engine.alloc, &engine.state, &engine.running, frame)? {
        Asked::Commit(command) => {
            let registry = &engine.running.registry;
            let telling = tell::<D, M>(engine.alloc, registry, &engine.state, &command)?;
            let succeeded = commit_and_trim(engine, disk, command, time)?;
            Ok(told(engine.alloc, telling, succeeded))
        }
        Asked::Watch {
            key,
            prefix,
            prev_kv,
        } => {
            let reply = register(&mut engine.running, key, prefix, prev_kv)?;
            Ok(said(engine.alloc, reply))
        }
        Asked::Say(reply) => Ok(said(engine.alloc, reply)),
    }
}

/// Whether a cleanup is due.
fn is_due(running: &Run, time: u64) -> bool
    ensures { (d : Durable) → result ≡ is_due (record { durable = d; running = running_seen running.now }) time }
{
    match running.cleaned {
        Some(last) => { running.lease && time >= last && time - last >= running.interval }
        None => false,
    }
}

/// Makes the cleanup that is due, if one is. Answers whether it took keys away.
fn clean_due<D: Disk, G: LogStore<D>, T: MetaStore<D>, M: StateMachine<D>, K: Core<D>>(
    engine: &mut Engine<G, T, M, K>,
    disk: &mut D,
    time: u64,
) -> Result<bool, Error>
    requires stands { CanGoOn D.Disk (⟦<Engine<G, T, M, K> as Stepper<D>>⟧.seen engine.old) disk.old }
    requires time { 1 ≤ time }
    ensures makes { Makes D.Disk (⟦<Engine<G, T, M, K> as Stepper<D>>⟧.seen engine.old) (⟦<Engine<G, T, M, K> as Stepper<D>>⟧.seen engine.new) disk.old disk.new ⟦<Engine<G, T, M, K> as Stepper<D>>⟧.says
        (due_cleanup (⟦<Engine<G, T, M, K> as Stepper<D>>⟧.seen engine.old).kv time) clean_rise (IsCallTooShort (⟦<Engine<G, T, M, K> as Stepper<D>>⟧.seen engine.old) (due_cleanup (⟦<Engine<G, T, M, K> as Stepper<D>>⟧.seen engine.old).kv time))
        (HasCleaned (⟦<Engine<G, T, M, K> as Stepper<D>>⟧.seen engine.old).kv (due_cleanup (⟦<Engine<G, T, M, K> as Stepper<D>>⟧.seen engine.old).kv time)) result }
    ensures log { (⟦<Engine<G, T, M, K> as Stepper<D>>⟧.seen engine.new).log ≡ (⟦<Engine<G, T, M, K> as Stepper<D>>⟧.seen engine.old).log }
    ensures took { IfOk result (λ took. took ≡ true → HasCleaned (⟦<Engine<G, T, M, K> as Stepper<D>>⟧.seen engine.old).kv (due_cleanup (⟦<Engine<G, T, M, K> as Stepper<D>>⟧.seen engine.old).kv time)) }
    ensures registry { engine.new.running.registry ≡ engine.old.running.registry }
    ensures idle { IfOk result (λ took. took ≡ false
        → (engine.new ≡ record engine.old { running = engine.new.running }) × (record engine.new.running { cleaned = engine.old.running.cleaned } ≡ engine.old.running) × (disk.new ≡ disk.old)) }
    ensures state_short { OnOk result ((⟦<Engine<G, T, M, K> as Stepper<D>>⟧.seen engine.old).short → (⟦<Engine<G, T, M, K> as Stepper<D>>⟧.seen engine.new).short) }
{
    if is_due(&engine.running, time) {
        return clean(engine, disk, time);
    }
    Ok(false)
}

/// What a refusal behind a cleanup leaves: what was begun and cannot go on, where keys were taken away; else all as it was
/// before.
fn leave<G, T, M, K>(engine: &mut Engine<G, T, M, K>, took: bool, cleaned: Option<u64>)
    ensures took { took ≡ true → engine.new ≡ record engine.old { failed = true } }
    ensures idle { took ≡ false → engine.new ≡ record engine.old { running = record engine.old.running { cleaned = cleaned } } }
{
    if took {
        engine.failed = true;
    } else {
        engine.running.cleaned = cleaned;
    }
}

/// A frame's turn: the cleanup that is due, and what it asks for.
pub(crate) fn take_turn<D: Disk, G: LogStore<D>, T: MetaStore<D>, M: StateMachine<D>, K: Core<D>>(
    engine: &mut Engine<G, T, M, K>,
    disk: &mut D,
    frame: Frame,
    time: u64,
) -> Result<Turned, Error>
    requires stands { CanGoOn D.Disk (⟦<Engine<G, T, M, K> as Stepper<D>>⟧.seen engine.old) disk.old }
    requires time { 1 ≤ time }
    ensures makes { Makes D.Disk (⟦<Engine<G, T, M, K> as Stepper<D>>⟧.seen engine.old) (⟦<Engine<G, T, M, K> as Stepper<D>>⟧.seen engine.new) disk.old disk.new ⟦<Engine<G, T, M, K> as Stepper<D>>⟧.says
        (turn (⟦<Engine<G, T, M, K> as Stepper<D>>⟧.seen engine.old).kv frame time) (frame_rise frame) (IsCallTooShort (⟦<Engine<G, T, M, K> as Stepper<D>>⟧.seen engine.old) (turn (⟦<Engine<G, T, M, K> as Stepper<D>>⟧.seen engine.old).kv frame time))
        (HasCleaned (⟦<Engine<G, T, M, K> as Stepper<D>>⟧.seen engine.old).kv (turn (⟦<Engine<G, T, M, K> as Stepper<D>>⟧.seen engine.old).kv frame time)
        ⊎ HasJoined (⟦<Engine<G, T, M, K> as Stepper<D>>⟧.seen engine.old).log (logged (⟦<Engine<G, T, M, K> as Stepper<D>>⟧.seen engine.old).kv (turn (⟦<Engine<G, T, M, K> as Stepper<D>>⟧.seen engine.old).kv frame time)) (⟦<Engine<G, T, M, K> as Stepper<D>>⟧.seen engine.new).log) result }
    ensures log { OnOk result ((⟦<Engine<G, T, M, K> as Stepper<D>>⟧.seen engine.new).log
        ≡ logged_after (⟦<Engine<G, T, M, K> as Stepper<D>>⟧.seen engine.old).most (mark_of (⟦<Engine<G, T, M, K> as Stepper<D>>⟧.seen engine.new).kv.durable) (⟦<Engine<G, T, M, K> as Stepper<D>>⟧.seen engine.old).log (logged (⟦<Engine<G, T, M, K> as Stepper<D>>⟧.seen engine.old).kv (turn (⟦<Engine<G, T, M, K> as Stepper<D>>⟧.seen engine.old).kv frame time))) }
    ensures short { OnOk result (LogIsShort (⟦<Engine<G, T, M, K> as Stepper<D>>⟧.seen engine.old) → LogIsShort (⟦<Engine<G, T, M, K> as Stepper<D>>⟧.seen engine.new)) }
    ensures state_short { OnOk result ((⟦<Engine<G, T, M, K> as Stepper<D>>⟧.seen engine.old).short → (⟦<Engine<G, T, M, K> as Stepper<D>>⟧.seen engine.new).short) }
    ensures turned { IfOk result (λ turned. IsTurned (asked_of (⟦<Engine<G, T, M, K> as Stepper<D>>⟧.seen engine.old).kv frame time) engine.old.running.registry engine.new.running.registry turned) }
{
    let cleaned = engine.running.cleaned;
    let took = clean_due(engine, disk, time)?;
    match answer(engine, disk, frame, time) {
        Ok(turned) => Ok(turned),
        Err(error) => {
            leave(engine, took, cleaned);
            Err(error)
        }
    }
}

/// The opening's cleanup, behind a term that was begun or was not.
fn clean_first<D: Disk, G: LogStore<D>, T: MetaStore<D>, M: StateMachine<D>, K: Core<D>>(
    engine: &mut Engine<G, T, M, K>,
    disk: &mut D,
    time: u64,
    begun: bool,
) -> Result<(), Error>
    requires stands { CanGoOn D.Disk (⟦<Engine<G, T, M, K> as Stepper<D>>⟧.seen engine.old) disk.old }
    requires time { 1 ≤ time }
    ensures makes { Makes D.Disk (⟦<Engine<G, T, M, K> as Stepper<D>>⟧.seen engine.old) (⟦<Engine<G, T, M, K> as Stepper<D>>⟧.seen engine.new) disk.old disk.new ⟦<Engine<G, T, M, K> as Stepper<D>>⟧.says
        (first_cleanup (⟦<Engine<G, T, M, K> as Stepper<D>>⟧.seen engine.old).kv time) clean_rise (IsCallTooShort (⟦<Engine<G, T, M, K> as Stepper<D>>⟧.seen engine.old) (first_cleanup (⟦<Engine<G, T, M, K> as Stepper<D>>⟧.seen engine.old).kv time))
        (HasCleaned (⟦<Engine<G, T, M, K> as Stepper<D>>⟧.seen engine.old).kv (first_cleanup (⟦<Engine<G, T, M, K> as Stepper<D>>⟧.seen engine.old).kv time) ⊎ (begun ≡ true)) result }
    ensures log { (⟦<Engine<G, T, M, K> as Stepper<D>>⟧.seen engine.new).log ≡ (⟦<Engine<G, T, M, K> as Stepper<D>>⟧.seen engine.old).log }
    ensures registry { engine.new.running.registry ≡ engine.old.running.registry }
    ensures failed { IfErr result (λ e. begun ≡ true → (⟦<Engine<G, T, M, K> as Stepper<D>>⟧.seen engine.new).failed × ((⟦<Engine<G, T, M, K> as Stepper<D>>⟧.seen engine.new).kv.durable.term ≡ (⟦<Engine<G, T, M, K> as Stepper<D>>⟧.seen engine.old).kv.durable.term)) }
    ensures state_short { OnOk result ((⟦<Engine<G, T, M, K> as Stepper<D>>⟧.seen engine.old).short → (⟦<Engine<G, T, M, K> as Stepper<D>>⟧.seen engine.new).short) }
{
    if !engine.running.lease {
        return Ok(());
    }
    match clean(engine, disk, time) {
        Ok(_) => Ok(()),
        Err(error) => {
            engine.failed = engine.failed | begun;
            Err(error)
        }
    }
}

impl<D: Disk, G: LogStore<D>, T: MetaStore<D>, M: StateMachine<D>, K: Core<D>> Stepper<D>
    for Engine<G, T, M, K> {
    ghost use Rattle.den_core.specs.Joined.{joined_here, failed_not_ready};

    ghost seen = { λ e. record {
      kv = kv_of (T.shown e.meta).value (M.map e.state) e.running;
      waits = e.running.registry;
      log = (G.shown e.log).value;
      most = e.most;
      weight = (G.shown e.log).weight + (T.shown e.meta).weight + (M.shown e.state).weight;
      short = M.short e.state;
      ready = (e.failed ≡ false) × IsReady (G.shown e.log).ready (T.shown e.meta).ready (M.shown e.state).ready (G.shown e.log).value (M.map e.state) (K.view e.core).role (M.settings e.state) e.running;
      failed = HasFailed e.failed (G.shown e.log).ready (T.shown e.meta).ready (M.shown e.state).ready;
      rests = λ content. AllRest ((G.shown e.log).rests content) ((T.shown e.meta).rests content) (AtRest (M.shown e.state) (M.map e.state) content);
    } };

    ghost says = { record {
      told = G.holds.told × T.holds.told × M.holds.told;
      holds = λ files. joined (G.holds.of files) (T.holds.of files) (M.holds.of files);
      logs = λ files. G.holds.of files;
    } };

    ghost agrees = { record {
      rests_hold = λ told e content files ready rests image. joined_here (G.holds.of files) (T.holds.of files) (M.holds.of files) (G.shown e.log).value (T.shown e.meta).value (M.map e.state) ready.1.caught_up
          (G.lies.rests_hold told.0 e.log content files ready.1.log rests.log image) (T.lies.rests_hold told.1 e.meta content files ready.1.meta rests.meta image)
          (rest_hold M.lies told.2 e.state (M.map e.state) content files ready.1.state rests.state image);
      rests_log = λ told e content files ready rests image. G.lies.rests_hold told.0 e.log content files ready.1.log rests.log image;
      failed_ends = λ e ready failed. failed_not_ready e.failed (G.shown e.log).ready (T.shown e.meta).ready (M.shown e.state).ready ready.0 ready.1.log ready.1.meta ready.1.state failed;
    } };

    fn open_at(&mut self, disk: &mut D, time: u64) -> Result<(), Error> {
        if !leads(&self.running) {
            return clean_first(self, disk, time, false);
        }
        begin_term(self, disk, time)?;
        clean_first(self, disk, time, true)
    }

    fn step(&mut self, disk: &mut D, frame: Frame, time: u64) -> Result<StepOut, Error> {
        let turned = take_turn(self, disk, frame, time)?;
        Ok(turned.out)
    }

    fn is_failed(&self) -> bool {
        let log = self.log.is_failed();
        let meta = self.meta.is_failed();
        let state = self.state.is_failed();
        self.failed | log | meta | state
    }
}
