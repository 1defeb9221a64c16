//! What a client is told where it does not get what it asked for.
ghost use Rattle.std.specs.Prelude.{◌≡◌};
ghost use Rattle.den_proto.specs.ClientErrors.{code_of, message_of};
ghost use Rattle.den_proto.specs.declared.client_error.ClientApiError.TheVariants.{OutOfMemory};

use den_model::{ErrorCode, Label, LeaderHint, Rows};
use std::alloc::AllocError;

/// Why a client does not get what it asked for. A wait is in milliseconds; a hint stands where another node leads.
#[derive(Debug, Drop, PartialEq, Eq)]
pub enum ClientApiError {
    /// The node is not reached, or does not lead.
    Network {
        code: ErrorCode,
        message: Label,
        retry_after_ms: Option<u64>,
        leader_hint: Option<LeaderHint>,
    },
    /// The answer is none of the kind that was asked for.
    Protocol {
        code: ErrorCode,
        message: Label,
        supported_versions: Option<Rows<u32>>,
    },
    /// What was asked for was refused.
    Business {
        code: ErrorCode,
        message: Label,
        required_action: Option<Label>,
    },
    /// Memory is wanting.
    OutOfMemory,
}

impl ClientApiError {
    /// Its code: of want of memory the general one.
    pub fn code(&self) -> ErrorCode
        ensures { result ≡ code_of self.now }
    {
        match self {
            ClientApiError::Network { code, .. }
            | ClientApiError::Protocol { code, .. }
            | ClientApiError::Business { code, .. } => *code,
            ClientApiError::OutOfMemory => ErrorCode::General,
        }
    }

    /// Its text, empty of want of memory.
    pub fn message(&self) -> &str
        ensures { result.now ≡ message_of self.now }
    {
        match self {
            ClientApiError::Network { message, .. }
            | ClientApiError::Protocol { message, .. }
            | ClientApiError::Business { message, .. } => message.as_str(),
            ClientApiError::OutOfMemory => "",
        }
    }
}

impl From<AllocError> for ClientApiError {
    ghost from_gives = { λ _ e. e ≡ OutOfMemory };

    fn from(_: AllocError) -> Self {
        ClientApiError::OutOfMemory
    }
}
