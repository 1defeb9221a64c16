//! The start of a node, and one that was refused.
ghost use Rattle.std.specs.Prelude.{◌≡◌, IsTrue, IfOk, IfErr, IfSome, Err, true};
ghost use Rattle.den_server.specs.Custom.{AreAtRest, AreReady, handed};
ghost use Rattle.den_node.specs.Building.{FailsAs, missing_part};
ghost use Rattle.den_node.specs.Starting.{Begun, FailsToOpen, OfParts, Opens};
ghost use Rattle.den_node.specs.declared.error.NodeError.TheVariants.{NodeStartFailed};

use crate::node::Told;
use crate::{MissingPart, Node, NodeBuilder, NodeError};
use den_codec::{Error, RaftNodeConfig};
use den_core::{Core, Engine, Stepper};
use den_disk::{Clock, Disk};
use den_state::StateMachine;
use den_store::{LogStore, MetaStore, StorageEngine};
use std::alloc::Global;

/// Why a node was not started, and the disk that was handed in.
#[derive(Drop)]
pub struct Unstarted<D> {
    pub error: NodeError,
    pub disk: D,
}

/// Opens an engine over stores, and makes what tells of its leader and members.
fn open<D: Disk, G: LogStore<D>, T: MetaStore<D>, M: StateMachine<D>, K: Core<D>, C: Clock>(
    alloc: Global,
    disk: &mut D,
    log: G,
    meta: T,
    state: M,
    core: K,
    config: &RaftNodeConfig,
    clock: &mut C,
) -> Result<(Engine<G, T, M, K>, Told), Error>
    requires ready { AreReady (handed G.LogStore T.MetaStore M.StateMachine log meta state) }
    requires rests { IsTrue (D.kind disk.old).tells
        → AreAtRest (handed G.LogStore T.MetaStore M.StateMachine log meta state) (D.content disk.old) }
    ensures begun { Begun D.Disk C.Clock (handed G.LogStore T.MetaStore M.StateMachine log meta state)
        (K.view core) config.now disk.old disk.new clock.old clock.new }
    ensures opened { IfOk result (λ parts. Opens D.Disk C.Clock (handed G.LogStore T.MetaStore M.StateMachine log meta state)
        (K.view core) config.now disk.old disk.new clock.old clock.new (⟦<Engine<G, T, M, K> as Stepper<D>>⟧.seen parts.0)) }
    ensures started { IfOk result (λ parts. (M.settings parts.0.state).running ≡ true) }
    ensures refused { IfErr result (FailsToOpen D.Disk C.Clock (handed G.LogStore T.MetaStore M.StateMachine log meta state)
        (K.view core) config.now disk.old disk.new clock.old clock.new) }
{
    let engine = match Engine::begin(alloc, disk, log, meta, state, core, config, clock) {
        Ok(engine) => engine,
        Err(error) => return Err(error),
    };
    match Told::of(alloc, engine.leader::<D>(), config) {
        Ok(told) => Ok((engine, told)),
        Err(error) => Err(error),
    }
}

/// Opens an engine over stores as they were opened, as `Engine::begin` of `den_core` does, and keeps it with the disk and the
/// clock. On every refusal the disk is handed back; `Engine` has the cause.
pub fn begin_node<
    D: Disk,
    G: LogStore<D>,
    T: MetaStore<D>,
    M: StateMachine<D>,
    K: Core<D>,
    C: Clock + Drop,
>(
    alloc: Global,
    disk: D,
    log: G,
    meta: T,
    state: M,
    core: K,
    config: &RaftNodeConfig,
    clock: C,
) -> Result<Node<D, G, T, M, K, C>, Unstarted<D>>
    requires ready { AreReady (handed G.LogStore T.MetaStore M.StateMachine log meta state) }
    requires rests { IsTrue (D.kind disk).tells
        → AreAtRest (handed G.LogStore T.MetaStore M.StateMachine log meta state) (D.content disk) }
    ensures begun { IfOk result (λ node. Begun D.Disk C.Clock (handed G.LogStore T.MetaStore M.StateMachine log meta state)
        (K.view core) config.now disk node.disk clock node.clock) }
    ensures opened { IfOk result (λ node. Opens D.Disk C.Clock (handed G.LogStore T.MetaStore M.StateMachine log meta state)
        (K.view core) config.now disk node.disk clock node.clock (⟦<Engine<G, T, M, K> as Stepper<D>>⟧.seen node.engine)) }
    ensures started { IfOk result (λ node. (M.settings node.engine.state).running ≡ true) }
    ensures named { IfOk result (λ node. (node.node_id ≡ config.now.cluster.node_id) × (node.limit ≡ config.now.network.max_frame_size)) }
    ensures refused { IfErr result (λ u. (after : C)
        × Begun D.Disk C.Clock (handed G.LogStore T.MetaStore M.StateMachine log meta state)
        (K.view core) config.now disk u.disk clock after
        × FailsAs (FailsToOpen D.Disk C.Clock (handed G.LogStore T.MetaStore M.StateMachine log meta state)
        (K.view core) config.now disk u.disk clock after) u.error) }
{
    let mut disk = disk;
    let mut clock = clock;
    match open(alloc, &mut disk, log, meta, state, core, config, &mut clock) {
        Ok((engine, told)) => Ok(Node {
            engine,
            disk,
            clock,
            node_id: config.cluster.node_id,
            limit: config.network.max_frame_size,
            told,
            alloc,
        }),
        Err(error) => Err(Unstarted {
            error: NodeError::Engine(error),
            disk,
        }),
    }
}

impl<E, M> NodeBuilder<E, M> {
    /// Opens an engine over the parts, as `Engine::begin` of `den_core` does, and keeps it with the disk and the clock. Where a
    /// part is not set it is refused as `build` is, with nothing done. On every refusal the disk is handed back. Memory may
    /// also be wanting behind the opening; the disk then stands for what the opening made.
    pub fn start<D: Disk, K: Core<D>, C: Clock + Drop>(
        self,
        alloc: Global,
        disk: D,
        core: K,
        clock: C,
    ) -> Result<Node<D, E::Log, E::Meta, M, K, C>, Unstarted<D>>
    where
        E: StorageEngine<D>,
        M: StateMachine<D>,
        requires ready { OfParts self.storage self.machine (λ storage machine.
            AreReady (handed E.Log.LogStore E.Meta.MetaStore M.StateMachine (E.its_log storage) (E.its_meta storage) machine)) }
        requires rests { OfParts self.storage self.machine (λ storage machine. IsTrue (D.kind disk).tells
            → AreAtRest (handed E.Log.LogStore E.Meta.MetaStore M.StateMachine (E.its_log storage) (E.its_meta storage) machine) (D.content disk)) }

        // A part that is not set is named, and the disk is as it was.
        ensures missing { IfSome (missing_part self.storage self.machine)
            (λ part. result ≡ Err (record { error = NodeStartFailed part; disk = disk })) }

        // A crash inside leaves what the stores stood for, or what some of the opening's steps make of it; what opening
        // refuses leaves disk and clock as they were.
        ensures begun { OfParts self.storage self.machine (λ storage machine. IfOk result (λ node.
            Begun D.Disk C.Clock (handed E.Log.LogStore E.Meta.MetaStore M.StateMachine (E.its_log storage) (E.its_meta storage) machine)
            (K.view core) self.config disk node.disk clock node.clock)) }

        // At Ok the engine made the opening's steps from what the stores stood for, and can go on over the node's disk.
        ensures opened { OfParts self.storage self.machine (λ storage machine. IfOk result (λ node.
            Opens D.Disk C.Clock (handed E.Log.LogStore E.Meta.MetaStore M.StateMachine (E.its_log storage) (E.its_meta storage) machine)
            (K.view core) self.config disk node.disk clock node.clock (⟦<Engine<E::Log, E::Meta, M, K> as Stepper<D>>⟧.seen node.engine))) }
        ensures started { IfOk result (λ node. (M.settings node.engine.state).running ≡ true) }
        ensures named { IfOk result (λ node. (node.node_id ≡ self.config.cluster.node_id) × (node.limit ≡ self.config.network.max_frame_size)) }

        // Else the opening was refused for its cause, and the disk that is handed back stands as the opening left it.
        ensures refused { OfParts self.storage self.machine (λ storage machine. IfErr result (λ u. (after : C)
            × Begun D.Disk C.Clock (handed E.Log.LogStore E.Meta.MetaStore M.StateMachine (E.its_log storage) (E.its_meta storage) machine)
            (K.view core) self.config disk u.disk clock after
            × FailsAs (FailsToOpen D.Disk C.Clock (handed E.Log.LogStore E.Meta.MetaStore M.StateMachine (E.its_log storage) (E.its_meta storage) machine)
            (K.view core) self.config disk u.disk clock after) u.error)) }
    {
        let config = self.config;
        let storage = self.storage;
        let machine = self.machine;
        let Some(machine) = machine else {
            let error = NodeError::NodeStartFailed(MissingPart::StateMachine);
            return Err(Unstarted { error, disk });
        };
        let Some(storage) = storage else {
            let error = NodeError::NodeStartFailed(MissingPart::StorageEngine);
            return Err(Unstarted { error, disk });
        };
        let (log, meta) = storage.split();
        begin_node(alloc, disk, log, meta, machine, core, &config, clock)
    }
}
