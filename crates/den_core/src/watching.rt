//! Who watches an engine's keys: their registration, and what they are told of a command.
ghost use Rattle.std.specs.Prelude.{◌≡◌, ◌<◌, ◌^◌, ◌-◌, ◌+◌, ℕ, Bool, [], Some, None, option_map, IfOk, IfErr, if◌then◌else◌};
ghost use Rattle.den_codec.specs.declared.error.Error.TheVariants.{OutOfMemory};
ghost use Rattle.den_model.specs.declared.reply.ClientResponsePayload.TheVariants.{Write};
ghost use Rattle.den_model.specs.Apply.{value_at};
ghost use Rattle.den_model.specs.Kv.{Durable};
ghost use Rattle.den_model.specs.MapState.{part_of};
ghost use Rattle.den_model.specs.Step.{answered, change_made, raised, watch};
ghost use Rattle.den_watch.specs.Registry.{watchers};
ghost use Rattle.den_core.specs.Kept.{grown};
ghost use Rattle.den_core.specs.Parts.{running_seen};

use crate::ask::answered;
use crate::{Run, StepOut};
use den_codec::{
    Blob, Change, ClientResponsePayload, Command, Error, Refusal, Reply, Rows, WatchEvent,
    WatchEventType,
};
use den_disk::Disk;
use den_state::StateMachine;
use den_watch::{WatchError, WatchRegistry};
use std::alloc::Global;

/// What a frame comes to once it is done: its reply and its events, and the change that raised them.
#[derive(Drop)]
pub(crate) struct Turned {
    pub(crate) out: StepOut,
    pub(crate) change: Option<Change>,
}

/// What those who watch its key are to be told of a command, if it succeeds.
#[derive(Drop)]
pub(crate) struct Telling {
    events: Rows<WatchEvent>,
    change: Option<Change>,
}

/// A reply without an event.
pub(crate) fn said(alloc: Global, reply: Reply) -> Turned
    ensures { result ≡ record { out = record { reply = reply; events = [] }; change = None } }
{
    Turned {
        out: StepOut {
            reply,
            events: Rows::of(Vec::new(alloc)),
        },
        change: None,
    }
}

/// Registers a watcher, and says what the request is answered. Want of memory changes nothing.
pub(crate) fn register(
    run: &mut Run,
    key: Blob,
    prefix: bool,
    prev_kv: bool,
) -> Result<Reply, Error>
    ensures watched { IfOk result (λ reply. (d : Durable) → watch (record { durable = d; running = running_seen run.old }) key prefix prev_kv
        ≡ record { after = record { durable = d; running = running_seen run.new }; reply = Some reply; events = []; logged = [] }) }
    ensures grown { IfOk result (λ reply. run.new.registry ≡ grown run.old.registry (running_seen run.new)) }
    ensures aside { run.new ≡ record run.old { registry = run.new.registry } }
    ensures refused { IfErr result (λ e. (e ≡ OutOfMemory) × (run.new ≡ run.old)) }
{
    let registered = if prefix {
        run.registry.register_prefix(key, prev_kv)
    } else {
        run.registry.register(key, prev_kv)
    };
    match registered {
        Ok(handle) => Ok(Reply::Watching { number: handle.id }),
        Err(WatchError::InvalidPrefix) => Ok(Reply::Refused(Refusal::InvalidPrefix)),
        Err(WatchError::LimitExceeded) => Ok(Reply::Refused(Refusal::LimitExceeded)),
        Err(
            WatchError::OutOfMemory | WatchError::NotRegistered | WatchError::WatchBufferOverflow,
        ) => Err(Error::OutOfMemory),
    }
}

/// The same value, if there is one.
fn copy_value(value: Option<&Blob>) -> Result<Option<Blob>, Error>
    ensures copy { IfOk result (λ copy. copy ≡ option_map (λ b. b.now) value.entry) }
    ensures refused { IfErr result (λ e. e ≡ OutOfMemory) }
{
    match value {
        Some(value) => Ok(Some(value.copy()?)),
        None => Ok(None),
    }
}

/// The change of a key, as far as somebody watches it.
fn change_at<D: Disk, M: StateMachine<D>>(
    registry: &WatchRegistry,
    state: &M,
    index: u64,
    kind: WatchEventType,
    key: &Blob,
    value: &Blob,
) -> Result<Option<Change>, Error>
    ensures change { IfOk result (λ change. (term : ℕ) → raised (watchers registry.now) change
        ≡ raised (watchers registry.now) (Some (record { index = index; kind = kind; key = key.now; value = value.now; prev = value_at (part_of (M.map state.now) term) key.now }))) }
    ensures refused { IfErr result (λ e. e ≡ OutOfMemory) }
{
    if !registry.watches(key.as_slice()) {
        return Ok(None);
    }
    Ok(Some(Change {
        index,
        kind,
        key: key.copy()?,
        value: value.copy()?,
        prev: copy_value(state.get(key.as_slice()))?,
    }))
}

/// What the entry of this index does to its key where it succeeds, as far as somebody watches the key.
fn watched_change<D: Disk, M: StateMachine<D>>(
    alloc: Global,
    registry: &WatchRegistry,
    state: &M,
    index: u64,
    command: &Command,
) -> Result<Option<Change>, Error>
    ensures change { IfOk result (λ change. (term : ℕ) → raised (watchers registry.now) change
        ≡ raised (watchers registry.now) (change_made (part_of (M.map state.now) term) index command.now)) }
    ensures refused { IfErr result (λ e. e ≡ OutOfMemory) }
{
    match command {
        Command::Noop => Ok(None),
        Command::Insert { key, value, .. } => {
            change_at::<D, M>(registry, state, index, WatchEventType::Put, key, value)
        }
        Command::CompareAndSwap { key, value, .. } => {
            change_at::<D, M>(registry, state, index, WatchEventType::Put, key, value)
        }
        Command::Delete { key } => {
            let nothing = Blob::of(alloc, &[])?;
            change_at::<D, M>(
                registry,
                state,
                index,
                WatchEventType::Delete,
                key,
                &nothing,
            )
        }
    }
}

/// The events of a change, if there is one.
fn raised(
    alloc: Global,
    registry: &WatchRegistry,
    change: &Option<Change>,
) -> Result<Rows<WatchEvent>, Error>
    ensures events { IfOk result (λ events. events ≡ raised (watchers registry.now) change.now) }
    ensures refused { IfErr result (λ e. e ≡ OutOfMemory) }
{
    let Some(change) = change else {
        return Ok(Rows::of(Vec::new(alloc)));
    };
    match registry.events_of(change) {
        Ok(events) => Ok(events),
        Err(_) => Err(Error::OutOfMemory),
    }
}

/// What those who watch its key are to be told of a command behind the map's mark, if it succeeds.
pub(crate) fn tell<D: Disk, M: StateMachine<D>>(
    alloc: Global,
    registry: &WatchRegistry,
    state: &M,
    command: &Command,
) -> Result<Telling, Error>
    requires room { (M.map state.now).mark.index < 2 ^ 64 - 1 }
    ensures events { IfOk result (λ telling. (term : ℕ) → telling.events
        ≡ raised (watchers registry.now) (change_made (part_of (M.map state.now) term) ((M.map state.now).mark.index + 1) command.now)) }
    ensures change { IfOk result (λ telling. telling.events ≡ raised (watchers registry.now) telling.change) }
    ensures refused { IfErr result (λ e. e ≡ OutOfMemory) }
{
    let index = state.last_applied().index + 1;
    let change = watched_change::<D, M>(alloc, registry, state, index, command)?;
    let events = raised(alloc, registry, &change)?;
    Ok(Telling { events, change })
}

/// What a command comes to once it is committed: where it did not succeed nobody is told.
pub(crate) fn told(alloc: Global, telling: Telling, succeeded: bool) -> Turned
    ensures reply { result.out.reply ≡ answered (Write succeeded) }
    ensures events { result.out.events ≡ (if succeeded then telling.events else []) }
    ensures change { result.change ≡ (if succeeded then telling.change else None) }
{
    let reply = answered(ClientResponsePayload::Write { succeeded });
    if !succeeded {
        return said(alloc, reply);
    }
    Turned {
        out: StepOut {
            reply,
            events: telling.events,
        },
        change: telling.change,
    }
}
