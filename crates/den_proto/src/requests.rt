//! What messages ask for.
ghost use Rattle.std.specs.Prelude.{◌≡◌};
ghost use Rattle.den_proto.specs.Requests.{asked_operation, core_read, core_write, operation_of, policy_of, ttl_of};

use crate::proto::{Operation, ReadRequest, WriteCommand, WriteRequest};
use den_model::{ClientReadRequest, ClientWriteRequest, ReadConsistencyPolicy, WriteOperation};

/// A time to live in seconds, of which 0 is none.
fn ttl_of(secs: u64) -> Option<u64>
    ensures { result ≡ ttl_of secs }
{
    if secs == 0 { None } else { Some(secs) }
}

fn asked_operation(operation: Operation) -> WriteOperation
    ensures { result ≡ asked_operation operation }
{
    match operation {
        Operation::Insert {
            key,
            value,
            ttl_secs,
        } => WriteOperation::Insert {
            key,
            value,
            ttl_secs: ttl_of(ttl_secs),
        },
        Operation::Delete { key } => WriteOperation::Delete { key },
        Operation::CompareAndSwap {
            key,
            expected_value,
            new_value,
        } => WriteOperation::CompareAndSwap {
            key,
            expected: expected_value,
            new_value,
        },
    }
}

/// The operation of a command, where it has one.
pub fn write_command_to_op(wc: WriteCommand) -> Option<WriteOperation>
    ensures { result ≡ operation_of wc }
{
    wc.operation.map(asked_operation)
}

/// The write that a message asks for.
pub fn to_core_write_req(req: WriteRequest) -> ClientWriteRequest
    ensures { result ≡ core_write req }
{
    ClientWriteRequest {
        client_id: req.client_id,
        command: req.command.and_then(write_command_to_op),
    }
}

/// The policy of a number, where it names one.
fn policy_of(number: i32) -> Option<ReadConsistencyPolicy>
    ensures { result ≡ policy_of number }
{
    match number {
        1 => Some(ReadConsistencyPolicy::LinearizableRead),
        2 => Some(ReadConsistencyPolicy::LeaseRead),
        3 => Some(ReadConsistencyPolicy::EventualConsistency),
        _ => None,
    }
}

/// The read that a message asks for. A number that names no policy is none.
pub fn to_core_read_req(req: ReadRequest) -> ClientReadRequest
    ensures { result ≡ core_read req }
{
    ClientReadRequest {
        client_id: req.client_id,
        keys: req.keys,
        consistency_policy: req.consistency_policy.and_then(policy_of),
    }
}
