//! What a client makes of an answer that is not what it asked for.
ghost use Rattle.std.specs.Prelude.{◌≡◌, ◌++◌, IfOk, IfErr, codes};
ghost use Rattle.den_proto.specs.ClientErrors.{Extracts, IsTold, leader_message, mapped_error, no_read, not_leader, read_payload, refused_with};
ghost use Rattle.den_proto.specs.Codes.{error_name};
ghost use Rattle.den_proto.specs.Hints.{address_text, hint_in, id_text};

use crate::ClientApiError;
use crate::hints::{id_label, id_of};
use den_model::{ClientResponsePayload, ErrorCode, KvEntry, Label, LeaderHint, Rows};
use std::alloc::{AllocError, Global};

/// How long a client waits where none is named, in milliseconds.
const RETRY_AFTER_MS: u64 = 100;

/// The text with a front.
fn label_behind(alloc: Global, front: &str, text: &str) -> Result<Label, AllocError>
    ensures { IfOk result (λ label. label ≡ front.now ++ text.now) }
{
    let label = format!(in alloc; "{front}{text}")?;
    Label::of(alloc, label.as_str())
}

fn leader_message(
    alloc: Global,
    leader_id: &Option<Label>,
    leader_address: &Option<Label>,
) -> Result<Label, AllocError>
    ensures { IfOk result (λ message. message ≡ leader_message leader_id.now leader_address.now) }
{
    match (leader_id, leader_address) {
        (_, Some(address)) => label_behind(alloc, "Not leader, try leader at: ", address.as_str()),
        (Some(id), None) => label_behind(alloc, "Not leader, leader_id: ", id.as_str()),
        (None, None) => Label::of(alloc, "Not leader"),
    }
}

/// The leader that texts name, where both are there and the first is an id.
fn hint_in(leader_id: Option<Label>, leader_address: Option<Label>) -> Option<LeaderHint>
    ensures { result ≡ hint_in leader_id leader_address }
{
    let (Some(id), Some(address)) = (leader_id, leader_address) else {
        return None;
    };
    match id_of(id.as_str()) {
        None => None,
        Some(leader_id) => Some(LeaderHint { leader_id, address }),
    }
}

/// Another node leads, of which this much is known: its id and its address as texts. A wait is in milliseconds, 100
/// where none is named.
pub fn not_leader_error(
    alloc: Global,
    leader_id: Option<Label>,
    leader_address: Option<Label>,
    retry_after_ms: Option<u64>,
) -> ClientApiError
    ensures { IsTold (not_leader leader_id leader_address retry_after_ms) result }
{
    match leader_message(alloc, &leader_id, &leader_address) {
        Err(error) => error.into(),
        Ok(message) => ClientApiError::Network {
            code: ErrorCode::NotLeader,
            message,
            retry_after_ms: Some(retry_after_ms.unwrap_or(RETRY_AFTER_MS)),
            leader_hint: hint_in(leader_id, leader_address),
        },
    }
}

fn error_name(error: ErrorCode) -> &'static str
    ensures { result.now ≡ error_name error }
{
    match error {
        ErrorCode::Success => "Success",
        ErrorCode::ConnectionTimeout => "ConnectionTimeout",
        ErrorCode::InvalidAddress => "InvalidAddress",
        ErrorCode::LeaderChanged => "LeaderChanged",
        ErrorCode::JoinError => "JoinError",
        ErrorCode::InvalidResponse => "InvalidResponse",
        ErrorCode::VersionMismatch => "VersionMismatch",
        ErrorCode::DiskFull => "DiskFull",
        ErrorCode::DataCorruption => "DataCorruption",
        ErrorCode::StorageIoError => "StorageIoError",
        ErrorCode::StoragePermissionDenied => "StoragePermissionDenied",
        ErrorCode::KeyNotExist => "KeyNotExist",
        ErrorCode::NotLeader => "NotLeader",
        ErrorCode::StaleOperation => "StaleOperation",
        ErrorCode::InvalidRequest => "InvalidRequest",
        ErrorCode::RateLimited => "RateLimited",
        ErrorCode::ClusterUnavailable => "ClusterUnavailable",
        ErrorCode::ProposeFailed => "ProposeFailed",
        ErrorCode::TermOutdated => "TermOutdated",
        ErrorCode::RetryRequired => "RetryRequired",
        ErrorCode::WatchBufferOverflow => "WatchBufferOverflow",
        ErrorCode::General => "General",
        ErrorCode::Uncategorized => "Uncategorized",
    }
}

/// What was asked for was refused with this code.
fn refused_with(alloc: Global, error: ErrorCode) -> Result<ClientApiError, AllocError>
    ensures { IfOk result (λ e. e ≡ refused_with error) }
{
    Ok(ClientApiError::Business {
        code: ErrorCode::Uncategorized,
        message: label_behind(alloc, "Error code: ", error_name(error))?,
        required_action: None,
    })
}

fn id_text(alloc: Global, leader_hint: &Option<LeaderHint>) -> Result<Option<Label>, AllocError>
    ensures { IfOk result (λ text. text ≡ id_text leader_hint.now) }
{
    match leader_hint {
        None => Ok(None),
        Some(hint) => Ok(Some(id_label(alloc, hint.leader_id)?)),
    }
}

fn address_text(leader_hint: Option<LeaderHint>) -> Option<Label>
    ensures { result ≡ address_text leader_hint }
{
    match leader_hint {
        None => None,
        Some(hint) => Some(hint.address),
    }
}

fn leader_error(
    alloc: Global,
    leader_hint: Option<LeaderHint>,
    retry_after_ms: Option<u64>,
) -> ClientApiError
    ensures { IsTold (not_leader (id_text leader_hint) (address_text leader_hint) retry_after_ms) result }
{
    match id_text(alloc, &leader_hint) {
        Err(error) => error.into(),
        Ok(id) => not_leader_error(alloc, id, address_text(leader_hint), retry_after_ms),
    }
}

/// What a client is told of an answer with this code, which is no success.
pub fn map_error_response(
    alloc: Global,
    error: ErrorCode,
    leader_hint: Option<LeaderHint>,
    retry_after_ms: Option<u64>,
) -> ClientApiError
    ensures { IsTold (mapped_error error leader_hint retry_after_ms) result }
{
    if matches!(error, ErrorCode::NotLeader) {
        return leader_error(alloc, leader_hint, retry_after_ms);
    }
    match refused_with(alloc, error) {
        Err(error) => error.into(),
        Ok(error) => error,
    }
}

/// The answer brought this in place of what a read finds.
fn no_read(alloc: Global, found: &str) -> Result<ClientApiError, AllocError>
    ensures { IfOk result (λ e. e ≡ no_read found.now) }
{
    Ok(ClientApiError::Protocol {
        code: ErrorCode::InvalidResponse,
        message: label_behind(alloc, "expected ReadData payload, got ", found)?,
        supported_versions: None,
    })
}

/// The pairs that a read brought. Where it brought some, no memory is taken.
pub fn extract_read_payload(
    alloc: Global,
    payload: Option<ClientResponsePayload>,
) -> Result<Rows<KvEntry>, ClientApiError>
    ensures { Extracts (read_payload payload) result }
{
    match payload {
        Some(ClientResponsePayload::Read { entries }) => Ok(entries),
        Some(ClientResponsePayload::Write { .. }) => Err(no_read(alloc, "WriteResult")?),
        None => Err(no_read(alloc, "None")?),
    }
}
