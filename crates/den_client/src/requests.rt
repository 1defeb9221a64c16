//! The calls that a client makes.
ghost use Rattle.std.specs.Prelude.{◌≡◌, [], ◌∷◌, Some, IfOk, option_copied};
ghost use Rattle.den_client.specs.Requests.{delete_call, members_call, policy_or_linearizable, put_call, read_call, request_call, scan_call, swap_call, watch_call, write_call};

use den_codec::{
    Blob, ClientReadRequest, ClientWriteRequest, Frame, ReadConsistencyPolicy, Request, Rows,
    WriteOperation,
};
use den_desk::Call;
use std::alloc::{AllocError, Global};

fn request_call(request: Request) -> Call
    ensures { result ≡ request_call request }
{
    Call::Serve(Frame::Good(request))
}

fn write_call(client_id: u32, operation: WriteOperation) -> Call
    ensures { result ≡ write_call client_id operation }
{
    request_call(Request::Write(ClientWriteRequest {
        client_id,
        command: Some(operation),
    }))
}

/// A put, with the seconds that the key has to live where they are given.
pub(crate) fn put_call(
    alloc: Global,
    client_id: u32,
    key: &[u8],
    value: &[u8],
    ttl_secs: Option<u64>,
) -> Result<Call, AllocError>
    ensures { IfOk result (λ call. call ≡ put_call client_id key.now value.now ttl_secs) }
{
    let key = Blob::of(alloc, key)?;
    let value = Blob::of(alloc, value)?;
    Ok(write_call(
        client_id,
        WriteOperation::Insert {
            key,
            value,
            ttl_secs,
        },
    ))
}

pub(crate) fn delete_call(alloc: Global, client_id: u32, key: &[u8]) -> Result<Call, AllocError>
    ensures { IfOk result (λ call. call ≡ delete_call client_id key.now) }
{
    let key = Blob::of(alloc, key)?;
    Ok(write_call(client_id, WriteOperation::Delete { key }))
}

fn blob_of(alloc: Global, bytes: Option<&[u8]>) -> Result<Option<Blob>, AllocError>
    ensures { IfOk result (λ blob. blob ≡ option_copied bytes.entry) }
{
    match bytes {
        Some(bytes) => Ok(Some(Blob::of(alloc, bytes)?)),
        None => Ok(None),
    }
}

pub(crate) fn swap_call(
    alloc: Global,
    client_id: u32,
    key: &[u8],
    expected: Option<&[u8]>,
    new_value: &[u8],
) -> Result<Call, AllocError>
    ensures { IfOk result (λ call. call ≡ swap_call client_id key.now (option_copied expected.entry) new_value.now) }
{
    let key = Blob::of(alloc, key)?;
    let expected = blob_of(alloc, expected)?;
    let new_value = Blob::of(alloc, new_value)?;
    Ok(write_call(
        client_id,
        WriteOperation::CompareAndSwap {
            key,
            expected,
            new_value,
        },
    ))
}

/// A read of one key.
pub(crate) fn read_one_call(
    alloc: Global,
    client_id: u32,
    key: &[u8],
    policy: ReadConsistencyPolicy,
) -> Result<Call, AllocError>
    ensures { IfOk result (λ call. call ≡ read_call client_id (key.now ∷ []) policy) }
{
    let mut keys = Vec::new(alloc);
    keys.push(Blob::of(alloc, key)?)?;
    Ok(read_of(client_id, Rows::of(keys), policy))
}

fn read_of(client_id: u32, keys: Rows<Blob>, policy: ReadConsistencyPolicy) -> Call
    ensures { result ≡ read_call client_id keys policy }
{
    request_call(Request::Read(ClientReadRequest {
        client_id,
        keys,
        consistency_policy: Some(policy),
    }))
}

fn copy_keys(alloc: Global, keys: &[Blob]) -> Result<Rows<Blob>, AllocError>
    ensures { IfOk result (λ copies. copies ≡ keys.now) }
{
    let mut copies = Vec::new(alloc);
    for key in keys {
        copies.push(key.copy()?)?;
    }
    Ok(Rows::of(copies))
}

/// A read of several keys.
pub(crate) fn read_call(
    alloc: Global,
    client_id: u32,
    keys: &[Blob],
    policy: ReadConsistencyPolicy,
) -> Result<Call, AllocError>
    ensures { IfOk result (λ call. call ≡ read_call client_id keys.now policy) }
{
    let keys = copy_keys(alloc, keys)?;
    Ok(read_of(client_id, keys, policy))
}

/// A read without a policy is linearizable.
pub(crate) fn policy_or_linearizable(policy: Option<ReadConsistencyPolicy>) -> ReadConsistencyPolicy
    ensures { result ≡ policy_or_linearizable policy }
{
    policy.unwrap_or(ReadConsistencyPolicy::LinearizableRead)
}

pub(crate) fn scan_call(alloc: Global, client_id: u32, prefix: &[u8]) -> Result<Call, AllocError>
    ensures { IfOk result (λ call. call ≡ scan_call client_id prefix.now) }
{
    let prefix = Blob::of(alloc, prefix)?;
    Ok(request_call(Request::Scan { client_id, prefix }))
}

pub(crate) fn watch_call(
    alloc: Global,
    client_id: u32,
    key: &[u8],
    prefix: bool,
    prev_kv: bool,
) -> Result<Call, AllocError>
    ensures { IfOk result (λ call. call ≡ watch_call client_id key.now prefix prev_kv) }
{
    let key = Blob::of(alloc, key)?;
    Ok(request_call(Request::Watch {
        client_id,
        prefix,
        prev_kv,
        key,
    }))
}

pub(crate) fn members_call(client_id: u32) -> Call
    ensures { result ≡ members_call client_id }
{
    request_call(Request::Members { client_id })
}
