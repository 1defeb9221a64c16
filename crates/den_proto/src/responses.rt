//! Answers as messages, and back.
ghost use Rattle.std.specs.Prelude.{◌≡◌, IfOk};
ghost use Rattle.den_proto.specs.Codes.{known_error};
ghost use Rattle.den_proto.specs.Responses.{core_response, hint_told, proto_response, wait_told};

use crate::codes::error_number;
use crate::proto::{ErrorMetadata, Response};
use crate::{build_error_metadata, error_from_i32, parse_leader_hint};
use den_model::{ClientResponse, ErrorCode, LeaderHint};
use std::alloc::{AllocError, Global};

/// The answer as a message.
pub fn to_proto_response(alloc: Global, r: ClientResponse) -> Result<Response, AllocError>
    ensures { IfOk result (λ message. message ≡ proto_response r) }
{
    let metadata = build_error_metadata(alloc, r.leader_hint, r.retry_after_ms)?;
    Ok(Response {
        error: error_number(r.error),
        metadata,
        success_result: r.result,
    })
}

/// The code that a message's number is taken for: one that no code has is uncategorized.
fn known_error(number: i32) -> ErrorCode
    ensures { result ≡ known_error number }
{
    error_from_i32(number).unwrap_or(ErrorCode::Uncategorized)
}

fn hint_told(
    alloc: Global,
    metadata: &Option<ErrorMetadata>,
) -> Result<Option<LeaderHint>, AllocError>
    ensures { IfOk result (λ hint. hint ≡ hint_told metadata.now) }
{
    match metadata {
        None => Ok(None),
        Some(meta) => parse_leader_hint(alloc, meta),
    }
}

fn wait_told(metadata: &Option<ErrorMetadata>) -> Option<u64>
    ensures { result ≡ wait_told metadata.now }
{
    match metadata {
        None => None,
        Some(meta) => meta.retry_after_ms,
    }
}

/// The answer that a message is.
pub fn to_core_response(alloc: Global, r: Response) -> Result<ClientResponse, AllocError>
    ensures { IfOk result (λ response. response ≡ core_response r) }
{
    let leader_hint = hint_told(alloc, &r.metadata)?;
    let retry_after_ms = wait_told(&r.metadata);
    Ok(ClientResponse {
        error: known_error(r.error),
        leader_hint,
        retry_after_ms,
        result: r.success_result,
    })
}
