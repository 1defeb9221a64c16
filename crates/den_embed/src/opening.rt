//! The openings of an engine that is embedded.
ghost use Rattle.std.specs.Prelude.{◌≡◌, ◌⊎◌, [], false, Ok, IsTrue, IfOk, IfErr};
ghost use Rattle.den_config.specs.Sources.{IsSourceRefusal, solo_configuration_in};
ghost use Rattle.den_config.specs.Rows.{values_of};
ghost use Rattle.den_codec.specs.declared.config.RaftNodeConfig.{RaftNodeConfig};
ghost use Rattle.den_disk.specs.Goes.{Rose, SourceGoesOn};
ghost use Rattle.den_core.specs.Cores.{solo_view};
ghost use Rattle.den_core.specs.Making.{CanGoOn};
ghost use Rattle.den_server.specs.Custom.{AreAtRest, AreReady, handed};
ghost use Rattle.den_node.specs.Building.{FailsAs};
ghost use Rattle.den_node.specs.Starting.{Begun, FailsToOpen, Opens};
ghost use Rattle.den_embed.specs.Opening.{FailsToStart, IsNamed, Starts};

use crate::EmbeddedEngine;
use den_client::{Caller, EmbeddedClient, LocalCaller};
use den_codec::{RaftNodeConfig, SoloConfig};
use den_config::read_solo;
use den_core::{Core, Engine, SoloCore, Stepper};
use den_desk::Desk;
use den_disk::{Clock, Disk, Source};
use den_node::{Node, NodeError, Unstarted, begin_node};
use den_server::open_parts;
use den_state::{FileStateMachine, StateMachine};
use den_store::{FileLogStore, FileMetaStore, LogStore, MetaStore, StorageEngine};
use std::alloc::Global;

/// The only caller of an engine over the files of a folder.
pub type FolderCaller<D> = LocalCaller<D, FileLogStore, FileMetaStore, FileStateMachine, SoloCore>;

/// A node's engine under a client that is told to wait so many milliseconds.
fn embed<D: Disk, G: LogStore<D>, T: MetaStore<D>, M: StateMachine<D>, K: Core<D>, C>(
    alloc: Global,
    node: Node<D, G, T, M, K, C>,
    timeout: u64,
) -> EmbeddedEngine<LocalCaller<D, G, T, M, K>, C>
    requires stands { CanGoOn D.Disk (⟦<Engine<G, T, M, K> as Stepper<D>>⟧.seen node.engine) node.disk }
    ensures engine { result.client.caller.desk.engine ≡ node.engine }
    ensures disk { result.client.caller.desk.disk ≡ node.disk }
    ensures clock { result.client.clock ≡ node.clock }
    ensures named { (result.node_id ≡ node.node_id) × (result.client.id ≡ node.node_id) × (result.client.timeout ≡ timeout) }
    ensures leader { result.leader ≡ (K.view result.client.caller.desk.engine.core).leader }
    ensures fresh { (result.stopped ≡ false) × (result.client.caller.desk.history.items ≡ []) }
    ensures lawful { ⟦<LocalCaller<D, G, T, M, K> as Caller>⟧.lawful result.client.caller }
{
    let parts = node.into_parts();
    let leader = parts.engine.leader::<D>();
    let desk = Desk::new(alloc, parts.engine, parts.disk);
    let caller = LocalCaller::new(desk);
    EmbeddedEngine {
        client: EmbeddedClient::new(alloc, caller, parts.clock, parts.node_id, timeout),
        leader,
        told: parts.told,
        node_id: parts.node_id,
        stopped: false,
    }
}

impl<
    D: Disk,
    G: LogStore<D>,
    T: MetaStore<D>,
    M: StateMachine<D>,
    K: Core<D>,
    C: Clock + Drop,
> EmbeddedEngine<LocalCaller<D, G, T, M, K>, C> {
    /// Opens an engine over stores as they were opened.
    fn start_over(
        alloc: Global,
        disk: D,
        log: G,
        meta: T,
        state: M,
        core: K,
        clock: C,
        config: &RaftNodeConfig,
    ) -> Result<EmbeddedEngine<LocalCaller<D, G, T, M, K>, C>, Unstarted<D>>
        requires ready { AreReady (handed G.LogStore T.MetaStore M.StateMachine log meta state) }
        requires rests { IsTrue (D.kind disk).tells → AreAtRest (handed G.LogStore T.MetaStore M.StateMachine log meta state) (D.content disk) }

        // At Ok the engine made the opening's steps from what the stores stood for, and can go on over the disk that it keeps. A
        // crash inside leaves what they stood for, or what some of these steps make of it.
        ensures begun { IfOk result (λ e. Begun D.Disk C.Clock (handed G.LogStore T.MetaStore M.StateMachine log meta state) (K.view core) config.now disk e.client.caller.desk.disk clock e.client.clock) }
        ensures opened { IfOk result (λ e. Opens D.Disk C.Clock (handed G.LogStore T.MetaStore M.StateMachine log meta state) (K.view core) config.now disk e.client.caller.desk.disk clock e.client.clock
            (⟦<Engine<G, T, M, K> as Stepper<D>>⟧.seen e.client.caller.desk.engine)) }

        // It is the configuration's node, its leader is the core's, and no call was made yet.
        ensures named { IfOk result (λ e. IsNamed config.now e.node_id e.client.id e.client.timeout) }
        ensures leader { IfOk result (λ e. e.leader ≡ (K.view e.client.caller.desk.engine.core).leader) }
        ensures fresh { IfOk result (λ e. (e.stopped ≡ false) × (e.client.caller.desk.history.items ≡ [])) }
        ensures lawful { IfOk result (λ e. ⟦<LocalCaller<D, G, T, M, K> as Caller>⟧.lawful e.client.caller) }

        // Else the opening was refused for its cause, and the disk that is handed back stands as the opening left it.
        ensures refused { IfErr result (λ u. (after : C) × Begun D.Disk C.Clock (handed G.LogStore T.MetaStore M.StateMachine log meta state) (K.view core) config.now disk u.disk clock after
            × FailsAs (FailsToOpen D.Disk C.Clock (handed G.LogStore T.MetaStore M.StateMachine log meta state) (K.view core) config.now disk u.disk clock after) u.error) }
    {
        match begin_node(alloc, disk, log, meta, state, core, config, clock) {
            Ok(node) => Ok(embed(alloc, node, config.raft.timeout_ms)),
            Err(unstarted) => Err(unstarted),
        }
    }

    /// Opens an engine over stores, a state machine and a core of one's own, as they were opened, and asks it through a client.
    pub fn start_custom<E: StorageEngine<D, Log = G, Meta = T>>(
        alloc: Global,
        disk: D,
        storage: E,
        state: M,
        core: K,
        clock: C,
        config: RaftNodeConfig,
    ) -> Result<EmbeddedEngine<LocalCaller<D, G, T, M, K>, C>, Unstarted<D>>
        requires ready { AreReady (handed G.LogStore T.MetaStore M.StateMachine (E.its_log storage) (E.its_meta storage) state) }
        requires rests { IsTrue (D.kind disk).tells → AreAtRest (handed G.LogStore T.MetaStore M.StateMachine (E.its_log storage) (E.its_meta storage) state) (D.content disk) }

        // At Ok the engine made the opening's steps from what the stores stood for, and can go on over the disk that it keeps. A
        // crash inside leaves what they stood for, or what some of these steps make of it.
        ensures begun { IfOk result (λ e. Begun D.Disk C.Clock (handed G.LogStore T.MetaStore M.StateMachine (E.its_log storage) (E.its_meta storage) state) (K.view core) config disk e.client.caller.desk.disk clock e.client.clock) }
        ensures opened { IfOk result (λ e. Opens D.Disk C.Clock (handed G.LogStore T.MetaStore M.StateMachine (E.its_log storage) (E.its_meta storage) state) (K.view core) config disk e.client.caller.desk.disk clock e.client.clock
            (⟦<Engine<G, T, M, K> as Stepper<D>>⟧.seen e.client.caller.desk.engine)) }

        // It is the configuration's node, its leader is the core's, and no call was made yet.
        ensures named { IfOk result (λ e. IsNamed config e.node_id e.client.id e.client.timeout) }
        ensures leader { IfOk result (λ e. e.leader ≡ (K.view e.client.caller.desk.engine.core).leader) }
        ensures fresh { IfOk result (λ e. (e.stopped ≡ false) × (e.client.caller.desk.history.items ≡ [])) }
        ensures lawful { IfOk result (λ e. ⟦<LocalCaller<D, G, T, M, K> as Caller>⟧.lawful e.client.caller) }

        // Else the opening was refused for its cause, and the disk that is handed back stands as the opening left it.
        ensures refused { IfErr result (λ u. (after : C) × Begun D.Disk C.Clock (handed G.LogStore T.MetaStore M.StateMachine (E.its_log storage) (E.its_meta storage) state) (K.view core) config disk u.disk clock after
            × FailsAs (FailsToOpen D.Disk C.Clock (handed G.LogStore T.MetaStore M.StateMachine (E.its_log storage) (E.its_meta storage) state) (K.view core) config disk u.disk clock after) u.error) }
    {
        let (log, meta) = storage.split();
        EmbeddedEngine::start_over(alloc, disk, log, meta, state, core, clock, &config)
    }
}

impl<D: Disk, C: Clock + Drop> EmbeddedEngine<FolderCaller<D>, C> {
    /// Opens the files of a folder under a configuration of one voter, and asks the engine through a client.
    pub fn start(
        alloc: Global,
        disk: D,
        clock: C,
        config: SoloConfig,
    ) -> Result<EmbeddedEngine<FolderCaller<D>, C>, Unstarted<D>>
        // At Ok the files were read, and the engine made the opening's steps from what they stood for; it can go on over the disk that
        // it keeps. A crash inside leaves what it could leave at entry, until a sync succeeds, and then what some of these steps make.
        ensures started { IfOk result (λ e. Starts D.Disk C.Clock config.node disk e.client.caller.desk.disk clock e.client.clock
            (⟦<Engine<FileLogStore, FileMetaStore, FileStateMachine, SoloCore> as Stepper<D>>⟧.seen e.client.caller.desk.engine) e.node_id e.client.id e.client.timeout) }

        // It leads itself as its core does, and no call was made yet.
        ensures leader { IfOk result (λ e. e.leader ≡ (solo_view e.client.caller.desk.engine.core.node.id e.client.caller.desk.engine.core.term).leader) }
        ensures fresh { IfOk result (λ e. (e.stopped ≡ false) × (e.client.caller.desk.history.items ≡ [])) }
        ensures lawful { IfOk result (λ e. ⟦<FolderCaller<D> as Caller>⟧.lawful e.client.caller) }

        // Else it was refused for its cause, and the disk that is handed back stands as the opening left it.
        ensures refused { IfErr result (λ u. (after : C) × FailsAs (FailsToStart D.Disk C.Clock config.node disk u.disk clock after) u.error) }
    {
        let mut disk = disk;
        let config = config.node();
        match open_parts(alloc, &mut disk, config) {
            Ok(parts) => EmbeddedEngine::start_over(
                alloc,
                disk,
                parts.log,
                parts.meta,
                parts.state,
                parts.core,
                clock,
                config,
            ),
            Err(error) => Err(Unstarted {
                error: NodeError::Engine(error),
                disk,
            }),
        }
    }

    /// Reads the configuration of one voter from a source, and starts under it.
    pub fn start_with<S: Source>(
        alloc: Global,
        conf: &mut S,
        disk: D,
        clock: C,
    ) -> Result<EmbeddedEngine<FolderCaller<D>, C>, Unstarted<D>>
        // The count of faults of the source does not fall.
        ensures source { SourceGoesOn S.tells S.faults conf.old conf.new }

        // At Ok the engine was started under the configuration that the source's bytes give, where it tells them.
        ensures started { IfOk result (λ e. (c : RaftNodeConfig) × (IsTrue (S.tells conf.old) → solo_configuration_in (S.left conf.old) ≡ Ok (values_of c))
            × Starts D.Disk C.Clock c disk e.client.caller.desk.disk clock e.client.clock
            (⟦<Engine<FileLogStore, FileMetaStore, FileStateMachine, SoloCore> as Stepper<D>>⟧.seen e.client.caller.desk.engine) e.node_id e.client.id e.client.timeout) }
        ensures leader { IfOk result (λ e. e.leader ≡ (solo_view e.client.caller.desk.engine.core.node.id e.client.caller.desk.engine.core.term).leader) }
        ensures fresh { IfOk result (λ e. (e.stopped ≡ false) × (e.client.caller.desk.history.items ≡ [])) }
        ensures lawful { IfOk result (λ e. ⟦<FolderCaller<D> as Caller>⟧.lawful e.client.caller) }

        // Each refusal has its cause: a fault of the source, or the key that its bytes are refused for, and then the disk is as it
        // was; or what `start` is refused for, under the configuration that the bytes give.
        ensures refused { IfErr result (λ u. FailsAs (λ e. ((u.disk ≡ disk) × IsSourceRefusal (Rose (S.faults conf.old) (S.faults conf.new)) (IsTrue (S.tells conf.old)) (solo_configuration_in (S.left conf.old)) e)
            ⊎ (c : RaftNodeConfig) × (IsTrue (S.tells conf.old) → solo_configuration_in (S.left conf.old) ≡ Ok (values_of c))
            × (after : C) × FailsToStart D.Disk C.Clock c disk u.disk clock after e) u.error) }
    {
        match read_solo(alloc, conf) {
            Ok(config) => EmbeddedEngine::start(alloc, disk, clock, config),
            Err(error) => Err(Unstarted {
                error: NodeError::Engine(error),
                disk,
            }),
        }
    }
}
