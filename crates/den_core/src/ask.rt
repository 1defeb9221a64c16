//! What a frame asks for, before anything is done.
ghost use Rattle.std.specs.Prelude.{◌≡◌, ◌≤◌, ℕ, IfOk, IfErr, None, true, filter_map};
ghost use Rattle.den_codec.specs.declared.error.Error.TheVariants.{OutOfMemory};
ghost use Rattle.den_model.specs.declared.reply.ErrorCode.TheVariants.{NotLeader};
ghost use Rattle.den_model.specs.declared.request.Frame.TheVariants.{Good};
ghost use Rattle.den_model.specs.Kv.{Durable};
ghost use Rattle.den_model.specs.Step.{answer, answer_to, answered, command_of, failed, held_pair, is_leader, may_be_old, read, scan, write};
ghost use Rattle.den_model.specs.MapState.{part_of};
ghost use Rattle.den_core.specs.declared.ask.Asked.TheVariants.{Say};
ghost use Rattle.den_core.specs.Asked.{outcome_of, HasRoom};
ghost use Rattle.den_core.specs.Parts.{running_seen};
ghost use Rattle.den_core.specs.Weights.{ask_rise, asked_rise, write_rise};

use crate::Run;
use crate::members::copy_members;
use den_codec::{
    Blob, ClientReadRequest, ClientResponse, ClientResponsePayload, Command, Error, ErrorCode,
    Frame, KvEntry, Label, LeaderHint, ReadConsistencyPolicy, Refusal, Reply, Request, Rows,
    WriteOperation,
};
use den_disk::Disk;
use den_map::has_ttl;
use den_state::StateMachine;
use std::alloc::{AllocError, Global};

/// What a frame comes to: an entry that is committed, a watcher that is registered, or a reply at once.
#[derive(Debug, Drop)]
pub(crate) enum Asked {
    Commit(Command),
    Watch {
        key: Blob,
        prefix: bool,
        prev_kv: bool,
    },
    Say(Reply),
}

/// The reply to what was done.
pub(crate) fn answered(payload: ClientResponsePayload) -> Reply
    ensures { result ≡ answered payload }
{
    Reply::Response(ClientResponse {
        error: ErrorCode::Success,
        leader_hint: None,
        retry_after_ms: None,
        result: Some(payload),
    })
}

/// The reply to what is not done.
fn failed(error: ErrorCode) -> Reply
    ensures { result ≡ failed error None }
{
    Reply::Response(ClientResponse {
        error,
        leader_hint: None,
        retry_after_ms: None,
        result: None,
    })
}

/// The command of an operation.
fn command_of(operation: WriteOperation) -> Command
    ensures { result ≡ command_of operation }
{
    match operation {
        WriteOperation::Insert {
            key,
            value,
            ttl_secs,
        } => Command::Insert {
            key,
            value,
            ttl_secs,
        },
        WriteOperation::Delete { key } => Command::Delete { key },
        WriteOperation::CompareAndSwap {
            key,
            expected,
            new_value,
        } => Command::CompareAndSwap {
            key,
            expected,
            value: new_value,
        },
    }
}

/// Whether the core leads.
pub(crate) fn leads(running: &Run) -> bool
    ensures { result ≡ is_leader running.now.role }
{
    running.role == 2
}

/// The same hint.
fn copy_hint(alloc: Global, hint: &Option<LeaderHint>) -> Result<Option<LeaderHint>, AllocError>
    ensures { IfOk result (λ copy. copy ≡ hint.now) }
{
    match hint {
        Some(hint) => Ok(Some(LeaderHint {
            leader_id: hint.leader_id,
            address: Label::of(alloc, hint.address.as_str())?,
        })),
        None => Ok(None),
    }
}

/// What one that does not lead says.
fn not_leader(alloc: Global, running: &Run) -> Result<Reply, Error>
    ensures reply { IfOk result (λ reply. reply ≡ failed NotLeader running.now.hint) }
    ensures refused { IfErr result (λ e. e ≡ OutOfMemory) }
{
    let leader_hint = copy_hint(alloc, &running.hint)?;
    Ok(Reply::Response(ClientResponse {
        error: ErrorCode::NotLeader,
        leader_hint,
        retry_after_ms: None,
        result: None,
    }))
}

/// What a write comes to behind this index.
fn ask_write(
    alloc: Global,
    running: &Run,
    last_index: u64,
    command: Command,
) -> Result<Asked, Error>
    ensures asked { IfOk result (λ asked. (d : Durable) (moment : ℕ) → d.last_index ≡ last_index
        → write (record { durable = d; running = running_seen running.now }) moment command ≡ outcome_of (record { durable = d; running = running_seen running.now }) moment asked) }
    ensures room { IfOk result (HasRoom (running_seen running.now).setting last_index) }
    ensures rise { IfOk result (λ asked. asked_rise asked ≤ write_rise command) }
    ensures refused { IfErr result (λ e. e ≡ OutOfMemory) }
{
    if !leads(running) {
        return Ok(Asked::Say(not_leader(alloc, running)?));
    }
    if has_ttl(&command) && !running.lease {
        return Ok(Asked::Say(Reply::Refused(Refusal::FeatureNotEnabled)));
    }
    if last_index == u64::MAX {
        return Ok(Asked::Say(failed(ErrorCode::ProposeFailed)));
    }
    Ok(Asked::Commit(command))
}

/// The pair at a key, if it is held.
fn held_pair<D: Disk, M: StateMachine<D>>(state: &M, key: &Blob) -> Result<Option<KvEntry>, Error>
    ensures pair { IfOk result (λ pair. pair ≡ held_pair (part_of (M.map state.now) 0) key.now) }
    ensures refused { IfErr result (λ e. e ≡ OutOfMemory) }
{
    match state.get(key.as_slice()) {
        Some(value) => Ok(Some(KvEntry {
            key: key.copy()?,
            value: value.copy()?,
        })),
        None => Ok(None),
    }
}

/// The pairs at these keys, those that are held.
fn pairs_at<D: Disk, M: StateMachine<D>>(
    alloc: Global,
    state: &M,
    keys: &[Blob],
) -> Result<Rows<KvEntry>, Error>
    ensures pairs { IfOk result (λ pairs. pairs ≡ filter_map (held_pair (part_of (M.map state.now) 0)) keys.now) }
    ensures refused { IfErr result (λ e. e ≡ OutOfMemory) }
{
    let mut pairs = Vec::new(alloc);
    for key in keys {
        if let Some(pair) = held_pair::<D, M>(state, key)? {
            pairs.push(pair)?;
        }
    }
    Ok(Rows::of(pairs))
}

/// Whether a read with this policy may be answered by one that does not lead.
fn may_be_old(policy: &Option<ReadConsistencyPolicy>) -> bool
    ensures { result ≡ may_be_old policy.now }
{
    match policy {
        Some(ReadConsistencyPolicy::EventualConsistency) => true,
        Some(ReadConsistencyPolicy::LinearizableRead | ReadConsistencyPolicy::LeaseRead) | None => {
            false
        }
    }
}

/// What a read is answered.
fn ask_read<D: Disk, M: StateMachine<D>>(
    alloc: Global,
    state: &M,
    running: &Run,
    request: &ClientReadRequest,
) -> Result<Reply, Error>
    ensures said { IfOk result (λ reply. (term moment : ℕ)
        → read (record { durable = part_of (M.map state.now) term; running = running_seen running.now }) request.now.consistency_policy request.now.keys
        ≡ outcome_of (record { durable = part_of (M.map state.now) term; running = running_seen running.now }) moment (Say reply)) }
    ensures refused { IfErr result (λ e. e ≡ OutOfMemory) }
{
    if !leads(running) && !may_be_old(&request.consistency_policy) {
        return not_leader(alloc, running);
    }
    let entries = pairs_at::<D, M>(alloc, state, request.keys.as_slice())?;
    Ok(answered(ClientResponsePayload::Read { entries }))
}

/// What a scan is answered.
fn ask_scan<D: Disk, M: StateMachine<D>>(
    alloc: Global,
    state: &M,
    running: &Run,
    prefix: &Blob,
) -> Result<Reply, Error>
    ensures said { IfOk result (λ reply. (term moment : ℕ)
        → scan (record { durable = part_of (M.map state.now) term; running = running_seen running.now }) prefix.now
        ≡ outcome_of (record { durable = part_of (M.map state.now) term; running = running_seen running.now }) moment (Say reply)) }
    ensures refused { IfErr result (λ e. e ≡ OutOfMemory) }
{
    if !leads(running) {
        return not_leader(alloc, running);
    }
    Ok(Reply::Scan(state.scan_prefix(prefix.as_slice())?))
}

/// What a request comes to.
fn ask_request<D: Disk, M: StateMachine<D>>(
    alloc: Global,
    state: &M,
    running: &Run,
    request: Request,
) -> Result<Asked, Error>
    ensures asked { IfOk result (λ asked. (term moment : ℕ)
        → answer_to (record { durable = part_of (M.map state.now) term; running = running_seen running.now }) moment request
        ≡ outcome_of (record { durable = part_of (M.map state.now) term; running = running_seen running.now }) moment asked) }
    ensures room { IfOk result (HasRoom (running_seen running.now).setting (M.map state.now).mark.index) }
    ensures rise { IfOk result (λ asked. asked_rise asked ≤ ask_rise (Good request)) }
    ensures refused { IfErr result (λ e. e ≡ OutOfMemory) }
{
    match request {
        Request::Write(write) => match write.command {
            Some(operation) => ask_write(
                alloc,
                running,
                state.last_applied().index,
                command_of(operation),
            ),
            None => Ok(Asked::Say(failed(ErrorCode::InvalidRequest))),
        },
        Request::Read(read) => Ok(Asked::Say(ask_read::<D, M>(alloc, state, running, &read)?)),
        Request::Scan { prefix, .. } => {
            Ok(Asked::Say(ask_scan::<D, M>(alloc, state, running, &prefix)?))
        }
        Request::Watch {
            prefix,
            prev_kv,
            key,
            ..
        } => Ok(Asked::Watch {
            key,
            prefix,
            prev_kv,
        }),
        Request::Members { .. } => Ok(Asked::Say(Reply::Members(copy_members(
            alloc,
            &running.members,
        )?))),
    }
}

/// What a frame comes to. A bad one is an invalid request.
pub(crate) fn ask<D: Disk, M: StateMachine<D>>(
    alloc: Global,
    state: &M,
    running: &Run,
    frame: Frame,
) -> Result<Asked, Error>
    ensures asked { IfOk result (λ asked. (term moment : ℕ)
        → answer (record { durable = part_of (M.map state.now) term; running = running_seen running.now }) moment frame
        ≡ outcome_of (record { durable = part_of (M.map state.now) term; running = running_seen running.now }) moment asked) }
    ensures room { IfOk result (HasRoom (running_seen running.now).setting (M.map state.now).mark.index) }
    ensures rise { IfOk result (λ asked. asked_rise asked ≤ ask_rise frame) }
    ensures refused { IfErr result (λ e. e ≡ OutOfMemory) }
{
    match frame {
        Frame::Good(request) => ask_request::<D, M>(alloc, state, running, request),
        Frame::Bad => Ok(Asked::Say(failed(ErrorCode::InvalidRequest))),
    }
}
