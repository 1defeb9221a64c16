//! The nodes of the cluster.
ghost use Rattle.std.specs.Prelude.{◌≡◌, IfOk, IfErr};
ghost use Rattle.toml.specs.View.{view, items_view};
ghost use Rattle.den_codec.specs.Standard.{standard_nodes};
ghost use Rattle.den_codec.specs.declared.error.Error.TheVariants.{OutOfMemory};
ghost use Rattle.den_config.specs.Nodes.{node, nodes, nodes_or_standard, cluster_nodes};
ghost use Rattle.den_config.specs.Places.{standing};
ghost use Rattle.den_config.specs.Refusals.{IsRefusal};

use crate::place::{Place, below, place_of};
use crate::values::{copied, number_or, text_at, word_at};
use den_codec::{ClusterConfig, ConfigPlace, Error, Label, NodeMeta, RaftNodeConfig, Rows};
use std::alloc::Global;
use toml::Value;

/// The node of a table.
#[tactic(auto, using(crate::proofs::Steps::and_then_ok, crate::proofs::Steps::and_then_err), unfolding(crate::specs::Nodes::node))]
fn node(alloc: Global, value: &Value) -> Result<NodeMeta, Error>
    ensures given { IfOk result (λ n. node (view value.now) ≡ Ok n) }
    ensures refused { IfErr result (IsRefusal (node (view value.now))) }
{
    let table = Place::Holds(value);
    let id = word_at(below(table, "id")).ok_or(ConfigPlace::InitialCluster)?;
    let address = copied(
        alloc,
        text_at(below(table, "address")),
        ConfigPlace::InitialCluster,
    )?;
    let role = number_or(below(table, "role"), 3, 0).ok_or(ConfigPlace::InitialCluster)?;
    let status = number_or(below(table, "status"), 2, 2).ok_or(ConfigPlace::InitialCluster)?;
    Ok(NodeMeta {
        id,
        address,
        role: i32::from(role),
        status: i32::from(status),
    })
}

/// A node of each value.
fn read_nodes(alloc: Global, values: &[Value]) -> Result<Rows<NodeMeta>, Error>
    ensures given { IfOk result (λ ns. nodes (items_view values.now) ≡ Ok ns) }
    ensures refused { IfErr result (IsRefusal (nodes (items_view values.now))) }
{
    let mut nodes = Vec::new(alloc);
    for value in values {
        nodes.push(node(alloc, value)?)?;
    }
    Ok(Rows::of(nodes))
}

/// The nodes of a cluster by default.
fn default_nodes(alloc: Global) -> Result<Rows<NodeMeta>, Error>
    ensures given { IfOk result (λ ns. ns ≡ standard_nodes) }
    ensures refused { IfErr result (λ e. e ≡ OutOfMemory) }
{
    match RaftNodeConfig::standard(alloc) {
        Ok(config) => Ok(config.cluster.initial_cluster),
        Err(_) => Err(Error::OutOfMemory),
    }
}

/// The nodes that stand at a place, or the default.
fn nodes_at(alloc: Global, at: Place<'_>) -> Result<Rows<NodeMeta>, Error>
    ensures given { IfOk result (λ ns. nodes_or_standard (standing at.entry) ≡ Ok ns) }
    ensures refused { IfErr result (IsRefusal (nodes_or_standard (standing at.entry))) }
{
    match at {
        Place::Missing => default_nodes(alloc),
        Place::Holds(value) => match value.as_array() {
            Some(values) => read_nodes(alloc, values.as_slice()),
            None => Err(Error::Config(ConfigPlace::InitialCluster)),
        },
        Place::Blocked => Err(Error::Config(ConfigPlace::InitialCluster)),
    }
}

/// The cluster of a node, with no folder yet.
#[tactic(auto, using(crate::proofs::Steps::and_then_ok, crate::proofs::Steps::and_then_err), unfolding(crate::specs::Nodes::cluster_nodes))]
pub(crate) fn named_cluster(
    alloc: Global,
    root: &Value,
    node_id: u32,
) -> Result<ClusterConfig, Error>
    ensures given { IfOk result (λ c. (cluster_nodes node_id (view root.now) ≡ Ok c.initial_cluster) × (c.node_id ≡ node_id)) }
    ensures refused { IfErr result (IsRefusal (cluster_nodes node_id (view root.now))) }
{
    let nodes = nodes_at(alloc, place_of(root, ConfigPlace::InitialCluster))?;
    let folder = Label::of(alloc, "")?;
    match ClusterConfig::of(node_id, nodes, folder) {
        Ok(cluster) => Ok(cluster),
        Err(_) => Err(Error::Config(ConfigPlace::InitialCluster)),
    }
}
