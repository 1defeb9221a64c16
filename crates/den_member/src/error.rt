//! Why a call is refused.
ghost use Rattle.std.specs.Prelude.{◌≡◌};
ghost use Rattle.den_member.specs.declared.error.MemberError.TheVariants.{ConnectFault, Membership, OutOfMemory};

use std::alloc::{AllocError, AllocFailed};
use thiserror::Error;

/// Why a change of the membership is refused, one variant a cause.
#[derive(Clone, Copy, Debug, PartialEq, Eq, Error)]
pub enum MembershipError {
    /// A leader's change came while no leader is known.
    #[error("no leader found")]
    NoLeaderFound,
    /// The node is no member.
    #[error("no metadata found for node {node_id}")]
    NoMetadataFoundForNode { node_id: u32 },
    /// The node is a member already.
    #[error("node {0} already exists")]
    NodeAlreadyExists(u32),
    /// Learners alone are promoted, and the node has this role.
    #[error("node {node_id} of role {role} cannot be promoted")]
    InvalidPromotion { node_id: u32, role: i32 },
    /// Learners alone may join.
    #[error("not a learner")]
    NotLearner,
    /// The leader is not removed in a batch.
    #[error("node {0} is the leader and cannot be removed")]
    RemoveNodeIsLeader(u32),
    /// A request without a change.
    #[error("invalid change request")]
    InvalidChangeRequest,
}

/// Why a call is refused, one variant a cause.
#[derive(Clone, Copy, Debug, PartialEq, Eq, Error)]
pub enum MemberError {
    #[error("out of memory")]
    OutOfMemory,
    /// A connection could not be made.
    #[error("connect fault")]
    ConnectFault,
    /// A task was tried as often as its policy allows, and failed each time.
    #[error("task failed {tries} times")]
    TaskBackoffFailed { tries: u32 },
    #[error("membership: {0}")]
    Membership(MembershipError),
}

impl From<AllocError> for MemberError {
    ghost from_gives = { λ _ e. e ≡ OutOfMemory };

    fn from(_: AllocError) -> Self {
        MemberError::OutOfMemory
    }
}

impl<T: Drop> From<AllocFailed<T>> for MemberError {
    ghost from_gives = { λ _ e. e ≡ OutOfMemory };

    fn from(_: AllocFailed<T>) -> Self {
        MemberError::OutOfMemory
    }
}

impl From<crate::ConnectFault> for MemberError {
    ghost from_gives = { λ _ e. e ≡ ConnectFault };

    fn from(_: crate::ConnectFault) -> Self {
        MemberError::ConnectFault
    }
}

impl From<MembershipError> for MemberError {
    ghost from_gives = { λ cause e. e ≡ Membership cause };

    fn from(cause: MembershipError) -> Self {
        MemberError::Membership(cause)
    }
}
