//! What a client makes of an answer.
ghost use Rattle.std.specs.Prelude.{◌≡◌, None, IfOk, option_map};
ghost use Rattle.den_proto.specs.ClientErrors.{IsTold};
ghost use Rattle.den_proto.specs.declared.client_error.ClientApiError.TheVariants.{Business};
ghost use Rattle.den_client.specs.Asking.{IsMapped};
ghost use Rattle.den_client.specs.Mapped.{brought, brought_by, closed, code_error, done_by, events_by, found_by, leader_by, membership, membership_by, nodes_by, pair_at, refusal_error, reply_of, scan_by, scanned, stood_by, succeeded_in, success_of, swapped_by, unasked, value_by, value_in, values_by, values_in, watcher_by, watching};

use den_codec::{
    Blob, ClientResponse, ClientResponsePayload, ClusterMembership, ErrorCode, KvEntry, Label,
    NodeMeta, Refusal, Reply, Rows, ScanResult, WatchEvent,
};
use den_desk::Answer;
use den_proto::{ClientApiError, extract_read_payload, map_error_response};
use den_watch::WatcherHandle;
use std::alloc::{AllocError, Global};

// ---- errors

fn business(alloc: Global, code: ErrorCode, message: &str) -> ClientApiError
    ensures { IsTold (Business code message.now None) result }
{
    match Label::of(alloc, message) {
        Ok(message) => ClientApiError::Business {
            code,
            message,
            required_action: None,
        },
        Err(error) => error.into(),
    }
}

/// The history has ended.
pub(crate) fn closed(alloc: Global) -> ClientApiError
    ensures { IsTold closed result }
{
    match Label::of(alloc, "Channel closed, node may be shutting down") {
        Ok(message) => ClientApiError::Network {
            code: ErrorCode::ConnectionTimeout,
            message,
            retry_after_ms: None,
            leader_hint: None,
        },
        Err(error) => error.into(),
    }
}

/// The answer is of another kind than was asked for.
fn unasked(alloc: Global) -> ClientApiError
    ensures { IsTold unasked result }
{
    match Label::of(alloc, "unexpected answer") {
        Ok(message) => ClientApiError::Protocol {
            code: ErrorCode::InvalidResponse,
            message,
            supported_versions: None,
        },
        Err(error) => error.into(),
    }
}

fn refusal_error(alloc: Global, why: Refusal) -> ClientApiError
    ensures { IsTold (refusal_error why) result }
{
    let message = match why {
        Refusal::InvalidPrefix => "prefix must start and end with '/'",
        Refusal::LimitExceeded => "watcher limit exceeded",
        Refusal::FeatureNotEnabled => "Error code: FeatureNotEnabled",
    };
    business(alloc, ErrorCode::Uncategorized, message)
}

fn code_error(alloc: Global, response: ClientResponse) -> ClientApiError
    ensures { IsTold (code_error response) result }
{
    map_error_response(
        alloc,
        response.error,
        response.leader_hint,
        response.retry_after_ms,
    )
}

// ---- replies

fn reply_of(alloc: Global, answer: Answer) -> Result<Reply, ClientApiError>
    ensures { IsMapped (reply_of answer) result }
{
    match answer {
        Answer::Reply(reply) => Ok(reply),
        Answer::Events(_)
        | Answer::Overflow
        | Answer::NotRegistered
        | Answer::Unregistered(_)
        | Answer::Looked { .. }
        | Answer::Stopped => Err(unasked(alloc)),
    }
}

fn success_of(
    alloc: Global,
    response: ClientResponse,
) -> Result<Option<ClientResponsePayload>, ClientApiError>
    ensures { IsMapped (success_of response.error response) result }
{
    if response.error == ErrorCode::Success {
        Ok(response.result)
    } else {
        Err(code_error(alloc, response))
    }
}

/// What the reply to a write or a read brings.
fn brought(alloc: Global, reply: Reply) -> Result<Option<ClientResponsePayload>, ClientApiError>
    ensures { IsMapped (brought reply) result }
{
    match reply {
        Reply::Response(response) => success_of(alloc, response),
        Reply::Refused(why) => Err(refusal_error(alloc, why)),
        Reply::Scan(_) | Reply::Watching { .. } | Reply::Members(_) => Err(unasked(alloc)),
    }
}

fn scanned(alloc: Global, reply: Reply) -> Result<ScanResult, ClientApiError>
    ensures { IsMapped (scanned reply) result }
{
    match reply {
        Reply::Scan(found) => Ok(found),
        Reply::Response(response) => Err(code_error(alloc, response)),
        Reply::Refused(why) => Err(refusal_error(alloc, why)),
        Reply::Watching { .. } | Reply::Members(_) => Err(unasked(alloc)),
    }
}

fn watching(alloc: Global, reply: Reply) -> Result<WatcherHandle, ClientApiError>
    ensures { IsMapped (watching reply) result }
{
    match reply {
        Reply::Watching { number } => Ok(WatcherHandle { id: number }),
        Reply::Response(response) => Err(code_error(alloc, response)),
        Reply::Refused(why) => Err(refusal_error(alloc, why)),
        Reply::Scan(_) | Reply::Members(_) => Err(unasked(alloc)),
    }
}

fn membership(alloc: Global, reply: Reply) -> Result<ClusterMembership, ClientApiError>
    ensures { IsMapped (membership reply) result }
{
    match reply {
        Reply::Members(members) => Ok(members),
        Reply::Response(response) => Err(code_error(alloc, response)),
        Reply::Refused(why) => Err(refusal_error(alloc, why)),
        Reply::Scan(_) | Reply::Watching { .. } => Err(unasked(alloc)),
    }
}

// ---- values

fn succeeded_in(
    alloc: Global,
    payload: Option<ClientResponsePayload>,
) -> Result<bool, ClientApiError>
    ensures { IsMapped (succeeded_in payload) result }
{
    match payload {
        Some(ClientResponsePayload::Write { succeeded }) => Ok(succeeded),
        Some(ClientResponsePayload::Read { .. }) | None => Err(unasked(alloc)),
    }
}

/// The first pair with this key.
fn pair_at<'a>(entries: &'a [KvEntry], key: &[u8]) -> Option<&'a KvEntry>
    ensures { option_map (λ e. e.now) result ≡ pair_at entries.now key.now }
{
    entries.iter().find(|entry| entry.key.as_slice() == key)
}

/// The value that was found at a key.
fn value_in(entries: &[KvEntry], key: &[u8]) -> Result<Option<Blob>, AllocError>
    ensures { IfOk result (λ value. value ≡ value_in entries.now key.now) }
{
    match pair_at(entries, key) {
        Some(entry) => Ok(Some(entry.value.copy()?)),
        None => Ok(None),
    }
}

/// A place for each key, with its value where one was found.
fn values_in(
    alloc: Global,
    keys: &[Blob],
    entries: &[KvEntry],
) -> Result<Rows<Option<Blob>>, AllocError>
    ensures { IfOk result (λ values. values ≡ values_in keys.now entries.now) }
{
    let mut values = Vec::new(alloc);
    for key in keys {
        values.push(value_in(entries, key.as_slice())?)?;
    }
    Ok(Rows::of(values))
}

// ---- answers

fn brought_by(
    alloc: Global,
    answer: Answer,
) -> Result<Option<ClientResponsePayload>, ClientApiError>
    ensures { IsMapped (brought_by answer) result }
{
    brought(alloc, reply_of(alloc, answer)?)
}

/// A put or a delete is done.
pub(crate) fn done_by(alloc: Global, answer: Answer) -> Result<(), ClientApiError>
    ensures { IsMapped (done_by answer) result }
{
    let _brought = brought_by(alloc, answer)?;
    Ok(())
}

/// Whether a swap succeeded.
pub(crate) fn swapped_by(alloc: Global, answer: Answer) -> Result<bool, ClientApiError>
    ensures { IsMapped (swapped_by answer) result }
{
    succeeded_in(alloc, brought_by(alloc, answer)?)
}

/// The pairs that a read found.
fn found_by(alloc: Global, answer: Answer) -> Result<Rows<KvEntry>, ClientApiError>
    ensures { IsMapped (found_by answer) result }
{
    extract_read_payload(alloc, brought_by(alloc, answer)?)
}

/// The value that a read found at one key.
pub(crate) fn value_by(
    alloc: Global,
    key: &[u8],
    answer: Answer,
) -> Result<Option<Blob>, ClientApiError>
    ensures { IsMapped (value_by key.now answer) result }
{
    let entries = found_by(alloc, answer)?;
    Ok(value_in(entries.as_slice(), key)?)
}

/// The values that a read found at several.
pub(crate) fn values_by(
    alloc: Global,
    keys: &[Blob],
    answer: Answer,
) -> Result<Rows<Option<Blob>>, ClientApiError>
    ensures { IsMapped (values_by keys.now answer) result }
{
    let entries = found_by(alloc, answer)?;
    Ok(values_in(alloc, keys, entries.as_slice())?)
}

/// The pairs of a scan.
pub(crate) fn scan_by(alloc: Global, answer: Answer) -> Result<ScanResult, ClientApiError>
    ensures { IsMapped (scan_by answer) result }
{
    scanned(alloc, reply_of(alloc, answer)?)
}

/// The watcher that was registered.
pub(crate) fn watcher_by(alloc: Global, answer: Answer) -> Result<WatcherHandle, ClientApiError>
    ensures { IsMapped (watcher_by answer) result }
{
    watching(alloc, reply_of(alloc, answer)?)
}

fn membership_by(alloc: Global, answer: Answer) -> Result<ClusterMembership, ClientApiError>
    ensures { IsMapped (membership_by answer) result }
{
    membership(alloc, reply_of(alloc, answer)?)
}

/// The members.
pub(crate) fn nodes_by(alloc: Global, answer: Answer) -> Result<Rows<NodeMeta>, ClientApiError>
    ensures { IsMapped (nodes_by answer) result }
{
    Ok(membership_by(alloc, answer)?.nodes)
}

/// The id of the node that leads.
pub(crate) fn leader_by(alloc: Global, answer: Answer) -> Result<Option<u32>, ClientApiError>
    ensures { IsMapped (leader_by answer) result }
{
    Ok(membership_by(alloc, answer)?.current_leader_id)
}

/// What waited for a watcher.
pub(crate) fn events_by(alloc: Global, answer: Answer) -> Result<Rows<WatchEvent>, ClientApiError>
    ensures { IsMapped (events_by answer) result }
{
    match answer {
        Answer::Events(events) => Ok(events),
        Answer::Overflow => Err(business(
            alloc,
            ErrorCode::WatchBufferOverflow,
            "watch buffer overflow",
        )),
        Answer::NotRegistered => Err(business(alloc, ErrorCode::General, "watcher not registered")),
        Answer::Reply(_) | Answer::Unregistered(_) | Answer::Looked { .. } | Answer::Stopped => {
            Err(unasked(alloc))
        }
    }
}

/// Whether a watch stood.
pub(crate) fn stood_by(alloc: Global, answer: Answer) -> Result<bool, ClientApiError>
    ensures { IsMapped (stood_by answer) result }
{
    match answer {
        Answer::Unregistered(stood) => Ok(stood),
        Answer::Reply(_)
        | Answer::Events(_)
        | Answer::Overflow
        | Answer::NotRegistered
        | Answer::Looked { .. }
        | Answer::Stopped => Err(unasked(alloc)),
    }
}
