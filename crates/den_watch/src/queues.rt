//! Several watchers with the events that wait for them.
ghost use Rattle.std.specs.Prelude.{◌≡◌, ◌<◌, true, false, length, map, slice_index_or, IfOk, OnOk, OnErr, MatchOption};
ghost use Rattle.std.specs.List.{list_any};
ghost use Rattle.den_model.specs.Step.{events_of, sees};
ghost use Rattle.den_watch.specs.Registry.{is_numbered, told};
ghost use Rattle.den_watch.specs.Queues.{Queued, settled, staged, waiting_in, watchers_in};

use crate::queue::Queue;
use den_model::{Change, WatchEvent};
use std::alloc::{AllocError, Global};

/// Whether somebody sees the key.
pub(crate) fn any_sees(queues: &[Queue], key: &[u8]) -> bool
    ensures { result ≡ list_any (λ w. sees w key.now) (watchers_in queues.now) }
{
    for queue in queues {
        if queue.sees(key) {
            return true;
        }
    }
    false
}

/// Where the first watcher of this number stands.
pub(crate) fn place_of(queues: &[Queue], number: u64) -> Option<usize>
    ensures { MatchOption result (list_any (is_numbered number) (waiting_in queues.now) ≡ false)
        (λ place. (place < length queues.now) × ((d : Queued) → is_numbered number (slice_index_or queues.now place d).waiting ≡ true)) }
{
    for (place, queue) in queues.iter().enumerate() {
        if queue.number() == number {
            return Some(place);
        }
    }
    None
}

/// The events of a change, in the order of the watchers.
pub(crate) fn events_of(
    alloc: Global,
    queues: &[Queue],
    change: &Change,
) -> Result<Vec<WatchEvent>, AllocError>
    ensures { IfOk result (λ events. events.items ≡ events_of (watchers_in queues.now) change.now) }
{
    let mut events = Vec::new(alloc);
    for queue in queues {
        if queue.sees(change.key.as_slice()) {
            events.push(queue.event_of(alloc, change)?)?;
        }
    }
    Ok(events)
}

// Notes for each watcher what a change is to it. Where it is refused, somebody sees the key, what waits is as it was, and
// what was noted is forgotten at the next change.
fn stage_all(
    queues: &mut [Queue],
    alloc: Global,
    change: &Change,
    buffer: u32,
) -> Result<(), AllocError>
    ensures noted { OnOk result (queues.new ≡ map (staged buffer change.now) queues.old) }
    ensures waiting { waiting_in queues.new ≡ waiting_in queues.old }
    ensures seen { OnErr result (list_any (λ w. sees w change.now.key) (watchers_in queues.old) ≡ true) }
{
    for queue in queues.iter_mut() {
        queue.stage(alloc, change, buffer)?;
    }
    Ok(())
}

// Does for each watcher what was noted. It takes no memory.
fn settle_all(queues: &mut [Queue])
    ensures { queues.new ≡ map settled queues.old }
{
    for queue in queues.iter_mut() {
        queue.settle();
    }
}

/// Tells each watcher of a change. Where it is refused, somebody sees the key, and what waits is as it was.
pub(crate) fn tell_all(
    queues: &mut [Queue],
    alloc: Global,
    change: &Change,
    buffer: u32,
) -> Result<(), AllocError>
    ensures told { OnOk result (waiting_in queues.new ≡ map (told buffer change.now) (waiting_in queues.old)) }
    ensures same { OnErr result (waiting_in queues.new ≡ waiting_in queues.old) }
    ensures seen { OnErr result (list_any (λ w. sees w change.now.key) (watchers_in queues.old) ≡ true) }
{
    stage_all(queues, alloc, change, buffer)?;
    settle_all(queues);
    Ok(())
}
