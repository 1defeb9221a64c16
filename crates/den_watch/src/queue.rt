//! A watcher with the events that wait for it.
ghost use Rattle.std.specs.Prelude.{◌≡◌, true, [], List, IfOk, OnOk, OnErr, if◌then◌else◌, unwrap_or};
ghost use Rattle.den_model.specs.Step.{event_of, sees};
ghost use Rattle.den_watch.specs.Queues.{settled, staged};
ghost use Rattle.den_watch.specs.Registry.{newcomer, takes_of};

use crate::WatchError;
use den_model::{Blob, Change, Rows, WatchEvent, Watcher};
use std::alloc::{AllocError, Global};
use std::marker::Model;
use std::mem;

/// What the change at hand is to a watcher: nothing, an event that is to wait for it, or its end, since there is no room.
#[derive(Drop)]
pub(crate) enum Next {
    Nothing,
    Event(WatchEvent),
    End,
}

/// A watcher with the events that wait for it, and what is settled next. An event that is settled next has its place behind
/// those that wait, so that to settle it takes no memory.
#[derive(Drop)]
pub(crate) struct Queue {
    watcher: Watcher,
    events: Vec<WatchEvent>,
    ended: bool,
    next: Next,
}

impl Model for Queue {
    ghost use Rattle.std.specs.Prelude.{vec_len, vec_capacity};
    ghost use Rattle.den_watch.specs.Queues.{HasPlace, Queued};

    ghost Value = { Queued };

    ghost view = { λ q. record { waiting = record { watcher = q.watcher; events = q.events.items; ended = q.ended }; next = q.next } };

    ghost invariant = { λ q. HasPlace q.next (vec_len q.events) (vec_capacity q.events) };
}

// Whether the watcher sees the key.
fn sees(watcher: &Watcher, key: &[u8]) -> bool
    ensures { result ≡ sees watcher.now key.now }
{
    if watcher.prefix {
        key.starts_with(watcher.key.as_slice())
    } else {
        key == watcher.key.as_slice()
    }
}

// The value before the change where it is asked for, else no bytes.
fn earlier_value(alloc: Global, change: &Change, asked: bool) -> Result<Blob, AllocError>
    ensures { IfOk result (λ value. value ≡ (if asked then unwrap_or change.now.prev [] else [])) }
{
    if asked {
        if let Some(earlier) = &change.prev {
            return earlier.copy();
        }
    }
    Blob::of(alloc, &[])
}

// What the watcher is told of a change.
fn event_of(alloc: Global, change: &Change, watcher: &Watcher) -> Result<WatchEvent, AllocError>
    ensures { IfOk result (λ event. event ≡ event_of change.now watcher.now) }
{
    Ok(WatchEvent {
        watcher: watcher.number,
        revision: change.index,
        kind: change.kind,
        key: change.key.copy()?,
        value: change.value.copy()?,
        prev_value: earlier_value(alloc, change, watcher.prev_kv)?,
    })
}

impl Queue {
    /// A watcher that was just registered.
    pub(crate) fn of(alloc: Global, watcher: Watcher) -> Queue
        ensures { result.waiting ≡ newcomer watcher }
    {
        Queue {
            watcher,
            events: Vec::new(alloc),
            ended: false,
            next: Next::Nothing,
        }
    }

    /// The watcher's number.
    pub(crate) fn number(&self) -> u64
        ensures { result ≡ self.now.waiting.watcher.number }
    {
        self.watcher.number
    }

    /// Whether the watcher sees the key.
    pub(crate) fn sees(&self, key: &[u8]) -> bool
        ensures { result ≡ sees self.now.waiting.watcher key.now }
    {
        sees(&self.watcher, key)
    }

    /// What the watcher is told of a change.
    pub(crate) fn event_of(&self, alloc: Global, change: &Change) -> Result<WatchEvent, AllocError>
        ensures { IfOk result (λ event. event ≡ event_of change.now self.now.waiting.watcher) }
    {
        event_of(alloc, change, &self.watcher)
    }

    /// Notes what a change is to the watcher, with a place for its event. What was noted before is forgotten. It is refused
    /// only where the watcher sees the key.
    pub(crate) fn stage(
        &mut self,
        alloc: Global,
        change: &Change,
        buffer: u32,
    ) -> Result<(), AllocError>
        ensures noted { OnOk result (self.new ≡ staged buffer change.now self.old) }
        ensures waiting { self.new.waiting ≡ self.old.waiting }
        ensures seen { OnErr result (sees self.old.waiting.watcher change.now.key ≡ true) }
    {
        self.next = Next::Nothing;
        if self.ended || !sees(&self.watcher, change.key.as_slice()) {
            return Ok(());
        }
        if self.events.len() >= buffer as usize {
            self.next = Next::End;
            return Ok(());
        }
        self.events.reserve(1)?;
        self.next = Next::Event(event_of(alloc, change, &self.watcher)?);
        Ok(())
    }

    /// Does what was noted. It takes no memory.
    pub(crate) fn settle(&mut self)
        ensures { self.new ≡ settled self.old }
    {
        match mem::replace(&mut self.next, Next::Nothing) {
            Next::Nothing => {}
            Next::Event(event) => self.events.push_reserved(event),
            Next::End => self.ended = true,
        }
    }

    /// Takes what waits for the watcher. It takes no memory.
    pub(crate) fn take(&mut self, alloc: Global) -> Result<Rows<WatchEvent>, WatchError>
        ensures taken { result ≡ takes_of self.old.waiting }
        ensures emptied { self.new.waiting ≡ record self.old.waiting { events = [] } }
    {
        if self.ended && self.events.is_empty() {
            return Err(WatchError::WatchBufferOverflow);
        }
        self.next = Next::Nothing;
        Ok(Rows::of(mem::replace(&mut self.events, Vec::new(alloc))))
    }
}
