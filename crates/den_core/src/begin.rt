//! An engine that is opened over stores, for those who embed one.
ghost use Rattle.std.specs.Prelude.{◌≡◌, ◌+◌, [], IsTrue, IfOk, IfErr, IsSome, Some, true};
ghost use Rattle.den_disk.specs.declared.place.Family.TheVariants.{Snapshot as snapshot_family};
ghost use Rattle.den_disk.specs.Goes.{Rose, added, ClockGoesOn, DiskGoesOn};
ghost use Rattle.den_model.specs.Crash.{Survives};
ghost use Rattle.den_model.specs.Image.{durable};
ghost use Rattle.den_model.specs.Kv.{Durable};
ghost use Rattle.den_core.specs.Beginning.{begun_weight, beginning, start, IsOpened, IsOpeningTooShort};
ghost use Rattle.den_core.specs.Cores.{running_under};
ghost use Rattle.den_core.specs.Full.{IsFullBy};
ghost use Rattle.den_core.specs.Opening.{opening_refusal, IsOpeningFailure};
ghost use Rattle.den_core.specs.Parts.{AllRest};
ghost use Rattle.den_core.specs.Spared.{SparesFamily};
ghost use Rattle.den_state.specs.Machine.{AtRest};

use crate::recovery::recover;
use crate::{Core, Engine, Stepper};
use den_codec::{Error, LeaderInfo, RaftNodeConfig};
use den_disk::{Clock, Disk};
use den_state::StateMachine;
use den_store::{LogStore, MetaStore};
use std::alloc::Global;

impl<G, T, M, K> Engine<G, T, M, K> {
    /// Opens an engine over stores as they were opened: brings them together, and makes the opening's steps at one reading of
    /// the clock. A crash inside leaves what the stores stood for, or what some of these steps make of it. The state machine runs then. Where opening
    /// refuses nothing is written, and no reading taken.
    pub fn begin<D: Disk, C: Clock>(
        alloc: Global,
        disk: &mut D,
        log: G,
        meta: T,
        state: M,
        core: K,
        config: &RaftNodeConfig,
        clock: &mut C,
    ) -> Result<Engine<G, T, M, K>, Error>
    where
        G: LogStore<D>,
        T: MetaStore<D>,
        M: StateMachine<D>,
        K: Core<D>,
        requires log_ready { (G.shown log).ready }
        requires meta_ready { (T.shown meta).ready }
        requires state_ready { (M.shown state).ready }
        requires rests { IsTrue (D.kind disk.old).tells → AllRest ((G.shown log).rests (D.content disk.old)) ((T.shown meta).rests (D.content disk.old)) (AtRest (M.shown state) (M.map state) (D.content disk.old)) }
        ensures disk { DiskGoesOn D.kind D.moment D.images D.faults disk.old disk.new }
        ensures snapshot { IsTrue (D.kind disk.old).tells → SparesFamily snapshot_family D.content D.moment D.images disk.old disk.new }
        ensures clock { ClockGoesOn C.tells C.readings clock.old clock.new }
        ensures survives { (kept : Durable) → IsTrue (D.kind disk.old).tells → IsTrue (C.tells clock.new) → ⟦<Engine<G, T, M, K> as Stepper<D>>⟧.says.told
            → durable (G.shown log).value (T.shown meta).value (M.map state) ≡ Some kept
            → let running = running_under config.now (K.view core) (M.settings state).leased in
            Survives ⟦<Engine<G, T, M, K> as Stepper<D>>⟧.says.holds (D.images disk.new) (D.moment disk.old) (D.moment disk.new) []
            (start kept running) (beginning kept running (added (C.readings clock.old) (C.readings clock.new))) }
        ensures opened { IfOk result (λ engine. IsOpened D.Disk (IsTrue (C.tells clock.new)) (G.shown log).value (T.shown meta).value (M.map state)
            (running_under config.now (K.view core) (M.settings state).leased) (added (C.readings clock.old) (C.readings clock.new)) config.now.raft.max_log_entries
            (begun_weight ((G.shown log).weight + (T.shown meta).weight + (M.shown state).weight) (G.shown log).value (M.map state)) (⟦<Engine<G, T, M, K> as Stepper<D>>⟧.seen engine) disk.old disk.new) }
        ensures started { IfOk result (λ engine. (M.settings engine.state).running ≡ true) }
        ensures refused { IfErr result (λ e. IsOpeningFailure (Rose (D.faults disk.old) (D.faults disk.new)) (D.kind disk.old).limit
            (opening_refusal (M.settings state).leased (G.place log) (G.shown log).value (T.shown meta).value (M.map state)) e) }
        ensures full { IfErr result (IsFullBy (IsTrue (D.kind disk.old).tells × ⟦<Engine<G, T, M, K> as Stepper<D>>⟧.says.told)
            (λ needed. IsOpeningTooShort (IsTrue (C.tells clock.new)) (G.shown log).value (T.shown meta).value (M.map state)
            (running_under config.now (K.view core) (M.settings state).leased) (added (C.readings clock.old) (C.readings clock.new)) config.now.raft.max_log_entries
            (begun_weight ((G.shown log).weight + (T.shown meta).weight + (M.shown state).weight) (G.shown log).value (M.map state)) needed (D.content disk.new).reading)
            (D.kind disk.old).limit (begun_weight ((G.shown log).weight + (T.shown meta).weight + (M.shown state).weight) (G.shown log).value (M.map state))) }
        ensures untouched { IsSome (opening_refusal (M.settings state).leased (G.place log) (G.shown log).value (T.shown meta).value (M.map state))
            → (disk.new ≡ disk.old) × (clock.new ≡ clock.old) }
    {
        let mut engine = recover(alloc, disk, log, meta, state, core, config)?;
        let time = clock.now().max(1);
        engine.open_at(disk, time)?;
        Ok(engine)
    }

    /// The node that leads, with its term as far as the core knows it.
    pub fn leader<D: Disk>(&self) -> Option<LeaderInfo>
    where
        K: Core<D>,
        ensures { result ≡ (K.view self.now.core).leader }
    {
        self.core.leader()
    }
}
