//! What a builder lacks.

use den_codec::RaftNodeConfig;
use den_node::{MissingPart, NodeBuilder, NodeError};
use std::alloc::Global;

// A builder of which neither part is set, of any kinds.
fn builder(alloc: Global) -> Result<NodeBuilder<u32, u32>, NodeError> {
    let config = RaftNodeConfig::standard(alloc).map_err(NodeError::Engine)?;
    Ok(NodeBuilder::from_node_config(config))
}

// What is missing where nothing is set, and where a state machine alone is.
fn lacks_first(alloc: Global) -> Result<(), NodeError> {
    builder(alloc)?.build()?;
    Ok(())
}

fn lacks_second(alloc: Global) -> Result<(), NodeError> {
    builder(alloc)?.state_machine(1).build()?;
    Ok(())
}

fn has_all(alloc: Global) -> Result<(), NodeError> {
    builder(alloc)?.state_machine(1).storage_engine(2).build()?;
    Ok(())
}

#[test]
fn names_a_missing_part(rt: HostRuntime) {
    let first = Err(NodeError::NodeStartFailed(MissingPart::StateMachine));
    assert!(rt; lacks_first(rt.alloc()) == first);
    let second = Err(NodeError::NodeStartFailed(MissingPart::StorageEngine));
    assert!(rt; lacks_second(rt.alloc()) == second);
    assert!(rt; has_all(rt.alloc()).is_ok());
}
