//! The words of requests.
#![tactic(auto, using(crate::proofs::Growing::grows_then))]

ghost use Rattle.std.specs.Prelude.{◌≡◌, ◌-◌, ◌^◌, ◌++◌, length, min, Option, IfOk, OnOk};
ghost use Rattle.den_model.specs.declared.command.WriteOperation.TheVariants.{Insert};
ghost use Rattle.den_model.specs.declared.request.Request.TheVariants.{Write, Read, Watch};
ghost use Rattle.den_model.specs.Spelling.{policy_number, operation_word, request_word};
ghost use Rattle.den_model.specs.Words.{FitsOperation, FitsRequest, IsRequestWord};
ghost use Rattle.den_model.specs.Reading.{policy_named, ttl_of, insert_asked_at, delete_asked_at, swap_asked_at, operation_at, write_at, read_at, scan_at, watch_at, request_at, request_in};
ghost use Rattle.den_model.proofs.RequestWords.{request_found, request_read, request_written};
ghost use Rattle.den_codec.specs.Gives.{Gives};
ghost use Rattle.den_codec.specs.Grows.{Grows};

use crate::fields::{
    put_blob, put_byte, put_truth, put_u32, put_u64, take_blob, take_byte, take_truth, take_u32,
    take_u64,
};
use crate::word::{list_size, option_size, put_list, put_option, take_list, take_option};
use crate::{ReadError, Word};
use den_model::{
    Blob, ClientReadRequest, ClientWriteRequest, ReadConsistencyPolicy, Request, WriteOperation,
};
use std::alloc::{AllocError, Global};

/// The policy that a byte names; other bytes name none.
fn policy_named(number: u8) -> Option<ReadConsistencyPolicy>
    ensures { result ≡ policy_named number }
{
    match number {
        1 => Some(ReadConsistencyPolicy::LinearizableRead),
        2 => Some(ReadConsistencyPolicy::LeaseRead),
        3 => Some(ReadConsistencyPolicy::EventualConsistency),
        _ => None,
    }
}

/// 0 is no time to live.
fn ttl_of(secs: u64) -> Option<u64>
    ensures { result ≡ ttl_of secs }
{
    if secs == 0 { None } else { Some(secs) }
}

#[tactic(auto, unfolding(den_model::specs::Reading::insert_asked_at))]
fn take_insert(alloc: Global, bytes: &[u8]) -> Result<(Option<WriteOperation>, &[u8]), ReadError>
    ensures { Gives (λ x. (x.0, x.1.now)) result (insert_asked_at bytes.now) }
{
    let (key, rest) = take_blob(alloc, bytes)?;
    let (value, rest) = take_blob(alloc, rest)?;
    let (secs, rest) = take_u64(rest)?;
    let ttl_secs = ttl_of(secs);
    let insert = WriteOperation::Insert {
        key,
        value,
        ttl_secs,
    };
    Ok((Some(insert), rest))
}

#[tactic(auto, unfolding(den_model::specs::Reading::delete_asked_at))]
fn take_delete(alloc: Global, bytes: &[u8]) -> Result<(Option<WriteOperation>, &[u8]), ReadError>
    ensures { Gives (λ x. (x.0, x.1.now)) result (delete_asked_at bytes.now) }
{
    let (key, rest) = take_blob(alloc, bytes)?;
    Ok((Some(WriteOperation::Delete { key }), rest))
}

#[tactic(auto, unfolding(den_model::specs::Reading::swap_asked_at))]
fn take_swap(alloc: Global, bytes: &[u8]) -> Result<(Option<WriteOperation>, &[u8]), ReadError>
    ensures { Gives (λ x. (x.0, x.1.now)) result (swap_asked_at bytes.now) }
{
    let (key, rest) = take_blob(alloc, bytes)?;
    let (expected, rest) = take_option(alloc, rest)?;
    let (new_value, rest) = take_blob(alloc, rest)?;
    let swap = WriteOperation::CompareAndSwap {
        key,
        expected,
        new_value,
    };
    Ok((Some(swap), rest))
}

#[tactic(auto, unfolding(den_model::specs::Reading::operation_at))]
fn take_operation(alloc: Global, bytes: &[u8]) -> Result<(Option<WriteOperation>, &[u8]), ReadError>
    ensures { Gives (λ x. (x.0, x.1.now)) result (operation_at bytes.now) }
{
    let (tag, rest) = take_byte(bytes)?;
    match tag {
        0 => Ok((None, rest)),
        1 => take_insert(alloc, rest),
        2 => take_delete(alloc, rest),
        3 => take_swap(alloc, rest),
        _ => Err(ReadError::NoWord),
    }
}

#[tactic(auto, unfolding(den_model::specs::Reading::write_at))]
fn take_write(alloc: Global, client_id: u32, bytes: &[u8]) -> Result<(Request, &[u8]), ReadError>
    ensures { Gives (λ x. (x.0, x.1.now)) result (write_at client_id bytes.now) }
{
    let (command, rest) = take_operation(alloc, bytes)?;
    Ok((
        Request::Write(ClientWriteRequest { client_id, command }),
        rest,
    ))
}

#[tactic(auto, unfolding(den_model::specs::Reading::read_at))]
fn take_read(alloc: Global, client_id: u32, bytes: &[u8]) -> Result<(Request, &[u8]), ReadError>
    ensures { Gives (λ x. (x.0, x.1.now)) result (read_at client_id bytes.now) }
{
    let (policy, rest) = take_byte(bytes)?;
    let (keys, rest) = take_list(alloc, rest)?;
    let consistency_policy = policy_named(policy);
    let read = ClientReadRequest {
        client_id,
        keys,
        consistency_policy,
    };
    Ok((Request::Read(read), rest))
}

#[tactic(auto, unfolding(den_model::specs::Reading::scan_at))]
fn take_scan(alloc: Global, client_id: u32, bytes: &[u8]) -> Result<(Request, &[u8]), ReadError>
    ensures { Gives (λ x. (x.0, x.1.now)) result (scan_at client_id bytes.now) }
{
    let (prefix, rest) = take_blob(alloc, bytes)?;
    Ok((Request::Scan { client_id, prefix }, rest))
}

#[tactic(auto, unfolding(den_model::specs::Reading::watch_at))]
fn take_watch(alloc: Global, client_id: u32, bytes: &[u8]) -> Result<(Request, &[u8]), ReadError>
    ensures { Gives (λ x. (x.0, x.1.now)) result (watch_at client_id bytes.now) }
{
    let (prefix, rest) = take_truth(bytes)?;
    let (prev_kv, rest) = take_truth(rest)?;
    let (key, rest) = take_blob(alloc, rest)?;
    let watch = Request::Watch {
        client_id,
        prefix,
        prev_kv,
        key,
    };
    Ok((watch, rest))
}

fn policy_number(policy: Option<ReadConsistencyPolicy>) -> u8
    ensures { result ≡ policy_number policy }
{
    match policy {
        None => 0,
        Some(ReadConsistencyPolicy::LinearizableRead) => 1,
        Some(ReadConsistencyPolicy::LeaseRead) => 2,
        Some(ReadConsistencyPolicy::EventualConsistency) => 3,
    }
}

fn put_insert(
    out: &mut Vec<u8>,
    key: &Blob,
    value: &Blob,
    ttl_secs: Option<u64>,
) -> Result<(), AllocError>
    ensures ok { OnOk result (out.new.items ≡ out.old.items ++ operation_word (Some (Insert key.now value.now ttl_secs))) }
    ensures fits { OnOk result (FitsOperation (Some (Insert key.now value.now ttl_secs))) }
    ensures grows { Grows out.old.items out.new.items }
{
    put_byte(out, 1)?;
    put_blob(out, key)?;
    put_blob(out, value)?;
    put_u64(out, ttl_secs.unwrap_or(0))
}

fn put_operation(out: &mut Vec<u8>, operation: &Option<WriteOperation>) -> Result<(), AllocError>
    ensures ok { OnOk result (out.new.items ≡ out.old.items ++ operation_word operation.now) }
    ensures fits { OnOk result (FitsOperation operation.now) }
    ensures grows { Grows out.old.items out.new.items }
{
    match operation {
        None => put_byte(out, 0),
        Some(
            WriteOperation::Insert {
                key,
                value,
                ttl_secs,
            },
        ) => put_insert(out, key, value, *ttl_secs),
        Some(WriteOperation::Delete { key }) => {
            put_byte(out, 2)?;
            put_blob(out, key)
        }
        Some(
            WriteOperation::CompareAndSwap {
                key,
                expected,
                new_value,
            },
        ) => {
            put_byte(out, 3)?;
            put_blob(out, key)?;
            put_option(out, expected)?;
            put_blob(out, new_value)
        }
    }
}

#[tactic(auto, unfolding(den_model::specs::Spelling::u64_word))]
fn operation_size(operation: &Option<WriteOperation>) -> u64
    ensures { result ≡ min (length (operation_word operation.now)) (2 ^ 64 - 1) }
{
    match operation {
        None => 1,
        Some(
            WriteOperation::Insert {
                key,
                value,
                ttl_secs: _,
            },
        ) => key.size().saturating_add(value.size()).saturating_add(9),
        Some(WriteOperation::Delete { key }) => key.size().saturating_add(1),
        Some(
            WriteOperation::CompareAndSwap {
                key,
                expected,
                new_value,
            },
        ) => key
            .size()
            .saturating_add(option_size(expected))
            .saturating_add(new_value.size())
            .saturating_add(1),
    }
}

fn put_write(out: &mut Vec<u8>, write: &ClientWriteRequest) -> Result<(), AllocError>
    ensures ok { OnOk result (out.new.items ≡ out.old.items ++ request_word (Write write.now)) }
    ensures fits { OnOk result (FitsRequest (Write write.now)) }
    ensures grows { Grows out.old.items out.new.items }
{
    put_byte(out, 1)?;
    put_u32(out, write.client_id)?;
    put_operation(out, &write.command)
}

fn put_read(out: &mut Vec<u8>, read: &ClientReadRequest) -> Result<(), AllocError>
    ensures ok { OnOk result (out.new.items ≡ out.old.items ++ request_word (Read read.now)) }
    ensures fits { OnOk result (FitsRequest (Read read.now)) }
    ensures grows { Grows out.old.items out.new.items }
{
    put_byte(out, 2)?;
    put_u32(out, read.client_id)?;
    put_byte(out, policy_number(read.consistency_policy))?;
    put_list(out, read.keys.as_slice())
}

fn put_watch(
    out: &mut Vec<u8>,
    client_id: u32,
    prefix: bool,
    prev_kv: bool,
    key: &Blob,
) -> Result<(), AllocError>
    ensures ok { OnOk result (out.new.items ≡ out.old.items ++ request_word (Watch client_id prefix prev_kv key.now)) }
    ensures fits { OnOk result (FitsRequest (Watch client_id prefix prev_kv key.now)) }
    ensures grows { Grows out.old.items out.new.items }
{
    put_byte(out, 4)?;
    put_u32(out, client_id)?;
    put_truth(out, prefix)?;
    put_truth(out, prev_kv)?;
    put_blob(out, key)
}

impl Word for Request {
    ghost word = { request_word };

    ghost at = { request_at };

    ghost fits = { FitsRequest };

    ghost is_word = { IsRequestWord };

    ghost found = { λ bytes x h e. (request_found bytes x h e).0 };

    ghost again = { request_read };

    ghost written = { request_written };

    fn put(&self, out: &mut Vec<u8>) -> Result<(), AllocError> {
        match self {
            Request::Write(write) => put_write(out, write),
            Request::Read(read) => put_read(out, read),
            Request::Scan { client_id, prefix } => {
                put_byte(out, 3)?;
                put_u32(out, *client_id)?;
                put_blob(out, prefix)
            }
            Request::Watch {
                client_id,
                prefix,
                prev_kv,
                key,
            } => put_watch(out, *client_id, *prefix, *prev_kv, key),
            Request::Members { client_id } => {
                put_byte(out, 5)?;
                put_u32(out, *client_id)
            }
        }
    }

    #[tactic(auto, unfolding(den_model::specs::Reading::request_at))]
    fn take(alloc: Global, bytes: &[u8]) -> Result<(Request, &[u8]), ReadError> {
        let (tag, rest) = take_byte(bytes)?;
        let (client_id, rest) = take_u32(rest)?;
        match tag {
            1 => take_write(alloc, client_id, rest),
            2 => take_read(alloc, client_id, rest),
            3 => take_scan(alloc, client_id, rest),
            4 => take_watch(alloc, client_id, rest),
            5 => Ok((Request::Members { client_id }, rest)),
            _ => Err(ReadError::NoWord),
        }
    }

    #[tactic(auto, unfolding(den_model::specs::Spelling::u32_word, den_model::specs::Spelling::u64_word))]
    fn size(&self) -> u64 {
        match self {
            Request::Write(write) => operation_size(&write.command).saturating_add(5),
            Request::Read(read) => list_size(read.keys.as_slice()).saturating_add(6),
            Request::Scan {
                client_id: _,
                prefix,
            } => prefix.size().saturating_add(5),
            Request::Watch {
                client_id: _,
                prefix: _,
                prev_kv: _,
                key,
            } => key.size().saturating_add(7),
            Request::Members { client_id: _ } => 5,
        }
    }
}

/// The request whose word the bytes are, the whole of them.
#[tactic(auto, unfolding(den_model::specs::Reading::request_in))]
pub fn read_request(alloc: Global, bytes: &[u8]) -> Result<Option<Request>, AllocError>
    ensures { IfOk result (λ r. r ≡ request_in bytes.now) }
{
    Request::read(alloc, bytes)
}
