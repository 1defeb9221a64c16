//! The parts of a node, before it is started.
ghost use Rattle.std.specs.Prelude.{◌≡◌, IsTrue, IfOk, IfErr, IfSome, Some, None};
ghost use Rattle.std.proofs.Common.{inl, inr};
ghost use Rattle.den_codec.specs.Standard.{IsStandard};
ghost use Rattle.den_config.specs.Rows.{values_of};
ghost use Rattle.den_config.specs.Sources.{IsSourceRefusal, configuration_in};
ghost use Rattle.den_disk.specs.Goes.{Rose, SourceGoesOn};
ghost use Rattle.den_codec.specs.declared.error.Error.TheVariants.{OutOfMemory};
ghost use Rattle.den_node.specs.declared.error.NodeError.TheVariants.{Engine};
ghost use Rattle.den_node.specs.Building.{FailsAs, built, missing_part};

use crate::{MissingPart, NodeError};
use den_codec::{ClusterConfig, RaftConfig, RaftNodeConfig};
use den_config::read_source;
use den_disk::Source;
use std::alloc::Global;

/// A configuration, and the parts of a node that are set.
#[derive(Drop)]
pub struct NodeBuilder<E, M> {
    pub(crate) config: RaftNodeConfig,
    pub(crate) storage: Option<E>,
    pub(crate) machine: Option<M>,
}

impl<E: Drop, M: Drop> NodeBuilder<E, M> {
    /// Of the configuration that a source gives, or of the default one where there is none; no part is set. It is refused
    /// as `read_source` of `den_config` is: `ConfigFault` where a read failed, else `Config` with the first key whose test
    /// fails.
    pub fn new<S: Source>(
        alloc: Global,
        conf: Option<&mut S>,
    ) -> Result<NodeBuilder<E, M>, NodeError>
        // Without a source the configuration is the default one, and memory alone is wanting.
        ensures defaults { conf.entry ≡ None → IfOk result (λ b. IsStandard b.config) }
        ensures wanting { conf.entry ≡ None → IfErr result (λ e. e ≡ Engine OutOfMemory) }

        // With one it is that of the source's bytes, where the source tells them.
        ensures given { IfSome conf.entry (λ s. IfOk result (λ b. IsTrue (S.tells s.now) → configuration_in (S.left s.now) ≡ Ok (values_of b.config))) }
        ensures unset { IfOk result (λ b. (b.storage ≡ None) × (b.machine ≡ None)) }

        // Each refusal has its cause, read on the source as it is left.
        ensures cause { IfSome conf.entry (λ s. (f : _) → conf.exit ≡ inr (inl f) → IfErr result (FailsAs (IsSourceRefusal (Rose (S.faults s.now) (S.faults f.0.now))
            (IsTrue (S.tells s.now)) (configuration_in (S.left s.now))))) }
    {
        match conf {
            Some(conf) => NodeBuilder::from_source(alloc, conf),
            None => NodeBuilder::from_standard(alloc),
        }
    }

    /// Of the default configuration; no part is set. It is refused for want of memory alone.
    fn from_standard(alloc: Global) -> Result<NodeBuilder<E, M>, NodeError>
        ensures standard { IfOk result (λ b. IsStandard b.config) }
        ensures unset { IfOk result (λ b. (b.storage ≡ None) × (b.machine ≡ None)) }
        ensures refused { IfErr result (λ e. e ≡ Engine OutOfMemory) }
    {
        match RaftNodeConfig::standard(alloc) {
            Ok(config) => Ok(NodeBuilder::from_node_config(config)),
            Err(error) => Err(NodeError::Engine(error)),
        }
    }

    /// Of the configuration that a source gives; no part is set.
    fn from_source<S: Source>(alloc: Global, conf: &mut S) -> Result<NodeBuilder<E, M>, NodeError>
        ensures on { SourceGoesOn S.tells S.faults conf.old conf.new }
        ensures given { IfOk result (λ b. IsTrue (S.tells conf.old) → configuration_in (S.left conf.old) ≡ Ok (values_of b.config)) }
        ensures unset { IfOk result (λ b. (b.storage ≡ None) × (b.machine ≡ None)) }
        ensures refused { IfErr result (FailsAs (IsSourceRefusal (Rose (S.faults conf.old) (S.faults conf.new))
            (IsTrue (S.tells conf.old)) (configuration_in (S.left conf.old)))) }
    {
        match read_source(alloc, conf) {
            Ok(config) => Ok(NodeBuilder::from_node_config(config)),
            Err(error) => Err(NodeError::Engine(error)),
        }
    }

    /// Of this cluster, with the defaults for all else; no part is set. It is refused for want of memory alone.
    pub fn from_cluster_config(
        alloc: Global,
        cluster_config: ClusterConfig,
    ) -> Result<NodeBuilder<E, M>, NodeError>
        ensures cluster { IfOk result (λ b. b.config.cluster ≡ cluster_config) }
        ensures defaults { IfOk result (λ b. (standard : RaftNodeConfig) × IsStandard standard × (b.config ≡ record standard { cluster = cluster_config })) }
        ensures unset { IfOk result (λ b. (b.storage ≡ None) × (b.machine ≡ None)) }
        ensures refused { IfErr result (λ e. e ≡ Engine OutOfMemory) }
    {
        match RaftNodeConfig::standard(alloc) {
            Ok(standard) => Ok(NodeBuilder::from_node_config(RaftNodeConfig {
                cluster: cluster_config,
                raft: standard.raft,
                network: standard.network,
                retry: standard.retry,
            })),
            Err(error) => Err(NodeError::Engine(error)),
        }
    }

    /// Of this configuration; no part is set.
    pub fn from_node_config(node_config: RaftNodeConfig) -> NodeBuilder<E, M>
        ensures { result ≡ record { config = node_config; storage = None; machine = None } }
    {
        NodeBuilder {
            config: node_config,
            storage: None,
            machine: None,
        }
    }

    /// With this storage engine.
    pub fn storage_engine(self, storage_engine: E) -> NodeBuilder<E, M>
        ensures { result ≡ record self { storage = Some storage_engine } }
    {
        NodeBuilder {
            config: self.config,
            storage: Some(storage_engine),
            machine: self.machine,
        }
    }

    /// With this state machine.
    pub fn state_machine(self, state_machine: M) -> NodeBuilder<E, M>
        ensures { result ≡ record self { machine = Some state_machine } }
    {
        NodeBuilder {
            config: self.config,
            storage: self.storage,
            machine: Some(state_machine),
        }
    }

    /// With this configuration.
    pub fn node_config(self, node_config: RaftNodeConfig) -> NodeBuilder<E, M>
        ensures { result ≡ record self { config = node_config } }
    {
        NodeBuilder {
            config: node_config,
            storage: self.storage,
            machine: self.machine,
        }
    }

    /// With this part of the configuration.
    pub fn raft_config(self, config: RaftConfig) -> NodeBuilder<E, M>
        ensures { result ≡ record self { config = record self.config { raft = config } } }
    {
        let mut builder = self;
        builder.config.raft = config;
        builder
    }

    /// The part that is not set, the state machine first.
    fn missing(&self) -> Option<MissingPart>
        ensures { result ≡ missing_part self.now.storage self.now.machine }
    {
        match (&self.machine, &self.storage) {
            (None, _) => Some(MissingPart::StateMachine),
            (Some(_), None) => Some(MissingPart::StorageEngine),
            (Some(_), Some(_)) => None,
        }
    }

    /// The same, where all parts are set. `NodeStartFailed(StateMachine)` exactly where no state machine is set, then
    /// `NodeStartFailed(StorageEngine)` exactly where no storage engine is. It takes no memory.
    pub fn build(self) -> Result<NodeBuilder<E, M>, NodeError>
        ensures { result ≡ built (missing_part self.storage self.machine) self }
    {
        match self.missing() {
            Some(part) => Err(NodeError::NodeStartFailed(part)),
            None => Ok(self),
        }
    }
}
