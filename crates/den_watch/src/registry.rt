//! Watchers in the order of their registration.
ghost use Rattle.std.specs.Prelude.{◌≡◌, ◌≤◌, true, false, length, List, IfOk, IfErr, IsOk, OnOk, Some};
ghost use Rattle.std.specs.List.{list_any};
ghost use Rattle.den_model.specs.declared.watcher.Watcher.{Watcher};
ghost use Rattle.den_model.specs.Step.{events_of, is_prefix, sees};
ghost use Rattle.den_watch.specs.declared.error.WatchError.TheVariants.{OutOfMemory};
ghost use Rattle.den_watch.specs.Registry.{Registers, emptied, is_registered, kept, newcomer, nobody, taken_from, told_all, waiting_at, watchers, without};
ghost use Rattle.den_watch.specs.Takes.{Happening, TakesAll, behind_all};

use crate::queue::Queue;
use crate::queues::{any_sees, events_of, place_of, tell_all};
use crate::{WatchError, WatcherHandle};
use den_model::{Blob, Change, Rows, WatchEvent, Watcher};
use std::alloc::Global;
use std::marker::Model;

/// Watchers with the events that wait for them, seen as the list of them in the order of their registration.
#[derive(Drop)]
pub struct WatchRegistry {
    queues: Vec<Queue>,
    registered: u64,
    maximum: u32,
    buffer: u32,
    alloc: Global,
}

impl Model for WatchRegistry {
    ghost use Rattle.den_watch.specs.Queues.{RisesAndFits, waiting_in};
    ghost use Rattle.den_watch.specs.Registry.{Registry};

    ghost Value = { Registry };

    ghost view = { λ r. record { waiting = waiting_in r.queues.items; registered = r.registered; maximum = r.maximum; buffer = r.buffer } };

    ghost invariant = { λ r. RisesAndFits r.registered r.buffer (waiting_in r.queues.items) };
}

// Whether it begins and ends with `/`.
fn is_prefix(key: &[u8]) -> bool
    ensures { result ≡ is_prefix key.now }
{
    key.starts_with(b"/") && key.ends_with(b"/")
}

impl WatchRegistry {
    /// Nobody watches. So many events may wait for each watcher, at least one, and there may be so many watchers.
    pub fn new(alloc: Global, buffer: u32, maximum: u32) -> WatchRegistry
        requires { 1 ≤ buffer }
        ensures { result ≡ nobody buffer maximum }
    {
        WatchRegistry {
            queues: Vec::new(alloc),
            registered: 0,
            maximum,
            buffer,
            alloc,
        }
    }

    /// Whether somebody watches the key.
    pub fn watches(&self, key: &[u8]) -> bool
        ensures { result ≡ list_any (λ w. sees w key.now) (watchers self.now) }
    {
        any_sees(self.queues.as_slice(), key)
    }

    // Registers a watcher of a key or of a prefix.
    fn add(&mut self, key: Blob, prefix: bool, prev_kv: bool) -> Result<WatcherHandle, WatchError>
        ensures { Registers self.old self.new key prefix prev_kv result }
    {
        if prefix && !is_prefix(key.as_slice()) {
            return Err(WatchError::InvalidPrefix);
        }
        if self.queues.len() >= self.maximum as usize || self.registered == u64::MAX {
            return Err(WatchError::LimitExceeded);
        }
        let number = self.registered + 1;
        let watcher = Watcher {
            number,
            key,
            prefix,
            prev_kv,
        };
        self.queues.push(Queue::of(self.alloc, watcher))?;
        self.registered = number;
        Ok(WatcherHandle { id: number })
    }

    /// Registers a watcher of a key. It is told of each change of it from now on, with the value before where it asks for
    /// that. `LimitExceeded` comes exactly where there are as many watchers as there may be, or no number is left. On a
    /// refusal nothing changes.
    pub fn register(&mut self, key: Blob, prev_kv: bool) -> Result<WatcherHandle, WatchError>
        ensures { Registers self.old self.new key false prev_kv result }
    {
        self.add(key, false, prev_kv)
    }

    /// Registers a watcher of all keys that begin with a prefix. `InvalidPrefix` comes exactly where it does not begin and
    /// end with `/`; then `LimitExceeded`, as for a key.
    pub fn register_prefix(
        &mut self,
        prefix: Blob,
        prev_kv: bool,
    ) -> Result<WatcherHandle, WatchError>
        ensures { Registers self.old self.new prefix true prev_kv result }
    {
        self.add(prefix, true, prev_kv)
    }

    /// Ends a watch, with what waits for it. Answers whether it stood. Its number is not given again.
    pub fn unregister(&mut self, watcher: WatcherHandle) -> bool
        ensures stood { result ≡ is_registered self.old watcher.id }
        ensures gone { self.new ≡ without self.old watcher.id }
    {
        match place_of(self.queues.as_slice(), watcher.id) {
            None => false,
            Some(place) => {
                self.queues.remove(place);
                true
            }
        }
    }

    /// The events of a change: one for each watcher that sees its key, in the order of their registration. It is refused for
    /// want of memory alone.
    pub fn events_of(&self, change: &Change) -> Result<Rows<WatchEvent>, WatchError>
        ensures events { IfOk result (λ events. events ≡ events_of (watchers self.now) change.now) }
        ensures refused { IfErr result (λ e. e ≡ OutOfMemory) }
    {
        Ok(Rows::of(events_of(self.alloc, self.queues.as_slice(), change)?))
    }

    /// Puts the events of a change where each watcher's wait. A watcher that has no room for its event ends: the event is
    /// dropped, and it gets none from then on. It is refused for want of memory alone, and nothing changes then. A change that
    /// nobody sees wants no memory.
    pub fn deliver(&mut self, change: &Change) -> Result<(), WatchError>
        ensures delivered { OnOk result (self.new ≡ kept (events_of (watchers self.old) change.now) self.old) }
        ensures told { OnOk result (self.new ≡ told_all change.now self.old) }
        ensures refused { IfErr result (λ e. (e ≡ OutOfMemory) × (self.new ≡ self.old)) }
        ensures quiet { list_any (λ w. sees w change.now.key) (watchers self.old) ≡ false → IsOk result }
    {
        tell_all(self.queues.as_mut_slice(), self.alloc, change, self.buffer)?;
        Ok(())
    }

    /// To give each watcher the events of a change that name it, and to tell each watcher of the change, are the same.
    pub fn telling_is_keeping(&self, change: &Change)
        ensures { kept (events_of (watchers self.now) change.now) self.now ≡ told_all change.now self.now }
    {
        let _ = &self.registered;
    }

    /// Takes what waits for a watcher. `NotRegistered` comes exactly where it does not stand, `WatchBufferOverflow` exactly
    /// where it ended and nothing waits for it. It takes no memory, and gives no more events than may wait. What successive
    /// takes gave is what the watcher saw before the first event that found no room.
    pub fn take(&mut self, watcher: &WatcherHandle) -> Result<Rows<WatchEvent>, WatchError>
        ensures taken { result ≡ taken_from self.old watcher.now.id }
        ensures emptied { self.new ≡ emptied self.old watcher.now.id }
        ensures bounded { IfOk result (λ events. length events ≤ self.old.buffer) }
        ensures successive { (w : Watcher) (happenings : List Happening) → waiting_at self.old watcher.now.id ≡ Some (behind_all self.old.buffer (newcomer w) happenings)
            → IfOk result (λ events. TakesAll self.old.buffer w happenings events) }
    {
        match place_of(self.queues.as_slice(), watcher.id) {
            None => Err(WatchError::NotRegistered),
            Some(place) => {
                let queue = &mut self.queues[place];
                queue.take(self.alloc)
            }
        }
    }
}
