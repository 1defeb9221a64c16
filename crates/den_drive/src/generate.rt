//! The requests that a drive asks, by number.
ghost use Rattle.std.specs.Prelude.{◌≡◌, ◌≤◌, ◌++◌, ◌^◌, IfOk, OnOk, length};
ghost use Rattle.den_model.specs.Frames.{framed};
ghost use Rattle.den_model.specs.Spelling.{request_word};
ghost use Rattle.den_drive.specs.Generator.{next_number, key_of, value_of, write_of, put_of, read_of, swap_of, delete_of, request_of, scan_request, drive_input};

use den_codec::{Blob, ClientReadRequest, ClientWriteRequest, Request, Rows, Word, WriteOperation};
use std::alloc::{AllocError, Global};

const CLIENT: u32 = 1;

// The number behind this one.
fn next_number(x: u64) -> u64
    ensures { result ≡ next_number x }
{
    x.wrapping_mul(6_364_136_223_846_793_005)
        .wrapping_add(1_442_695_040_888_963_407)
}

// The key of a number.
fn key_of(alloc: Global, x: u64) -> Result<Blob, AllocError>
    ensures { IfOk result (λ key. key ≡ key_of x) }
{
    let digits = x / 0x1_0000_0000 % 1000;
    let key = [
        b'k',
        b'0' + (digits / 100) as u8,
        b'0' + (digits / 10 % 10) as u8,
        b'0' + (digits % 10) as u8,
    ];
    Blob::of(alloc, &key)
}

// The value of a number.
fn value_of(alloc: Global, x: u64) -> Result<Blob, AllocError>
    ensures { IfOk result (λ value. value ≡ value_of x) }
{
    Blob::of(alloc, &x.to_be_bytes())
}

fn write_of(operation: WriteOperation) -> Request
    ensures { result ≡ write_of operation }
{
    Request::Write(ClientWriteRequest {
        client_id: CLIENT,
        command: Some(operation),
    })
}

fn put_of(alloc: Global, x: u64) -> Result<Request, AllocError>
    ensures { IfOk result (λ request. request ≡ put_of x) }
{
    Ok(write_of(WriteOperation::Insert {
        key: key_of(alloc, x)?,
        value: value_of(alloc, x)?,
        ttl_secs: None,
    }))
}

fn read_of(alloc: Global, x: u64) -> Result<Request, AllocError>
    ensures { IfOk result (λ request. request ≡ read_of x) }
{
    let mut keys = Vec::new(alloc);
    keys.push(key_of(alloc, x)?)?;
    Ok(Request::Read(ClientReadRequest {
        client_id: CLIENT,
        keys: Rows::of(keys),
        consistency_policy: None,
    }))
}

fn swap_of(alloc: Global, x: u64) -> Result<Request, AllocError>
    ensures { IfOk result (λ request. request ≡ swap_of x) }
{
    Ok(write_of(WriteOperation::CompareAndSwap {
        key: key_of(alloc, x)?,
        expected: None,
        new_value: value_of(alloc, x)?,
    }))
}

fn delete_of(alloc: Global, x: u64) -> Result<Request, AllocError>
    ensures { IfOk result (λ request. request ≡ delete_of x) }
{
    Ok(write_of(WriteOperation::Delete {
        key: key_of(alloc, x)?,
    }))
}

// The request of this kind and number.
#[tactic(auto, unfolding(crate::specs::Generator::request_of))]
fn request_of(alloc: Global, kind: u32, x: u64) -> Result<Request, AllocError>
    ensures { IfOk result (λ request. request ≡ request_of kind x) }
{
    match kind {
        1 => put_of(alloc, x),
        2 => read_of(alloc, x),
        3 => swap_of(alloc, x),
        _ => delete_of(alloc, x),
    }
}

// The scan of all keys.
fn scan(alloc: Global) -> Result<Request, AllocError>
    ensures { IfOk result (λ request. request ≡ scan_request) }
{
    Ok(Request::Scan {
        client_id: CLIENT,
        prefix: Blob::of(alloc, b"")?,
    })
}

// Appends the frame of a request. On refusal some of it may stand at the end.
#[tactic(auto, unfolding(den_model::specs::Spelling::u64_word))]
fn put_frame(alloc: Global, out: &mut Vec<u8>, request: &Request) -> Result<(), AllocError>
    ensures { OnOk result (out.new.items ≡ out.old.items ++ framed (request_word request.now)) }
{
    let mut body = Vec::new(alloc);
    request.write(&mut body)?;
    out.extend_from_slice(&(body.len() as u64).to_be_bytes())?;
    out.extend_from_slice(body.as_slice())
}

// Appends the frame of the request of this kind and number.
fn put_request(alloc: Global, out: &mut Vec<u8>, kind: u32, x: u64) -> Result<(), AllocError>
    ensures { OnOk result (out.new.items ≡ out.old.items ++ framed (request_word (request_of kind x))) }
{
    let request = request_of(alloc, kind, x)?;
    put_frame(alloc, out, &request)
}

// Appends the frame of the scan.
fn put_scan(alloc: Global, out: &mut Vec<u8>) -> Result<(), AllocError>
    ensures { OnOk result (out.new.items ≡ out.old.items ++ framed (request_word scan_request)) }
{
    let request = scan(alloc)?;
    put_frame(alloc, out, &request)
}

/// The frames of so many requests, and of the scan behind them.
pub fn drive_input(alloc: Global, count: u32) -> Result<Vec<u8>, AllocError>
    ensures { IfOk result (λ input. input.items ≡ drive_input count) }
{
    let mut out = Vec::new(alloc);
    let mut x = 1;
    for number in 0..count {
        x = next_number(x);
        put_request(alloc, &mut out, (number + 1) % 4, x)?;
    }
    put_scan(alloc, &mut out)?;
    Ok(out)
}
