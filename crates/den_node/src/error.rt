//! Why a node is not started.
ghost use Rattle.std.specs.Prelude.{◌≡◌};
ghost use Rattle.den_node.specs.declared.error.NodeError.TheVariants.{Engine};

use den_codec::Error;
use thiserror::Error as Thrown;

/// A part that a node is not started without.
#[derive(Clone, Copy, Debug, PartialEq, Eq)]
pub enum MissingPart {
    StateMachine,
    StorageEngine,
}

/// Why a call of a builder, a notifier or an engine is refused, one variant a cause.
#[derive(Clone, Copy, Debug, PartialEq, Eq, Thrown)]
pub enum NodeError {
    /// A part is not set.
    #[error("node start failed: {0:?} is not set")]
    NodeStartFailed(MissingPart),
    /// The configuration, the stores or the engine are refused, or memory is wanting.
    #[error("{0}")]
    Engine(Error),
    /// Who leads was looked for without a look, or nobody was known to.
    #[error("no leader was found")]
    Fatal,
}

impl From<Error> for NodeError {
    ghost from_gives = { λ cause e. e ≡ Engine cause };

    fn from(cause: Error) -> Self {
        NodeError::Engine(cause)
    }
}
