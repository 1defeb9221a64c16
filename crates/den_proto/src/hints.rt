//! Who leads, as texts.
ghost use Rattle.std.specs.Prelude.{◌≡◌, IfOk, option_map};
ghost use Rattle.std.specs.Fmt.{decimal};
ghost use Rattle.den_proto.specs.Hints.{hint_in, hint_of, hint_with, id_of, metadata_of, told};

use crate::proto::ErrorMetadata;
use den_model::{Label, LeaderHint};
use itoa::Buffer;
use std::alloc::{AllocError, Global};

/// The id in decimal.
pub(crate) fn id_label(alloc: Global, id: u32) -> Result<Label, AllocError>
    ensures { IfOk result (λ text. text ≡ decimal id) }
{
    let mut buffer = Buffer::new();
    Label::of(alloc, buffer.format(id))
}

/// The id that a text is: one plus at most, and one or more digits whose number is below 2^32.
pub(crate) fn id_of(text: &str) -> Option<u32>
    ensures { result ≡ id_of text.now }
{
    text.parse().ok()
}

/// What is told of a leader.
fn of_leader(
    alloc: Global,
    hint: LeaderHint,
    retry_after_ms: Option<u64>,
) -> Result<ErrorMetadata, AllocError>
    ensures { IfOk result (λ meta. meta ≡ told (Some hint) retry_after_ms) }
{
    let leader_id = id_label(alloc, hint.leader_id)?;
    Ok(ErrorMetadata {
        retry_after_ms,
        leader_id: Some(leader_id),
        leader_address: Some(hint.address),
        debug_message: None,
    })
}

/// What an answer tells beside its code: a leader and a wait in milliseconds, or nothing where there is neither.
pub fn build_error_metadata(
    alloc: Global,
    leader_hint: Option<LeaderHint>,
    retry_after_ms: Option<u64>,
) -> Result<Option<ErrorMetadata>, AllocError>
    ensures { IfOk result (λ meta. meta ≡ metadata_of leader_hint retry_after_ms) }
{
    match (leader_hint, retry_after_ms) {
        (None, None) => Ok(None),
        (None, Some(wait)) => Ok(Some(ErrorMetadata {
            retry_after_ms: Some(wait),
            leader_id: None,
            leader_address: None,
            debug_message: None,
        })),
        (Some(hint), wait) => Ok(Some(of_leader(alloc, hint, wait)?)),
    }
}

/// The leader that a message names: an address is there, and the id is one.
pub fn parse_leader_hint(
    alloc: Global,
    meta: &ErrorMetadata,
) -> Result<Option<LeaderHint>, AllocError>
    ensures { IfOk result (λ hint. hint ≡ hint_of meta.now) }
{
    let (Some(id), Some(address)) = (&meta.leader_id, &meta.leader_address) else {
        return Ok(None);
    };
    match id_of(id.as_str()) {
        None => Ok(None),
        Some(leader_id) => Ok(Some(LeaderHint {
            leader_id,
            address: Label::of(alloc, address.as_str())?,
        })),
    }
}
