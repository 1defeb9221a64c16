//! One value that is sent again and again, and receivers that find the latest.
ghost use Rattle.std.specs.Fn.{FnOnceReturnsAt};
ghost use Rattle.std.specs.Prelude.{◌≡◌, IfErr};
ghost use Rattle.den_member.specs.declared.error.MemberError.TheVariants.{OutOfMemory};

use crate::MemberError;
use std::alloc::Global;
use std::sync::{Arc, Condvar, Mutex, Wait};

/// The latest value, and how many were sent.
#[derive(Drop)]
struct Sent<V> {
    value: V,
    count: u64,
}

/// The cell that sender and receivers share.
#[derive(Drop)]
struct Cell<V> {
    sent: Mutex<Sent<V>>,
    told: Condvar,
}

/// One cell that holds the latest value which was sent. Its calls may wait for one another.
#[derive(Drop)]
pub struct Latest<V: Drop> {
    cell: Arc<Cell<V>, Global>,
}

/// A receiver of a cell, which knows how many values were sent when it last looked. Its calls may wait for others.
#[derive(Drop)]
pub struct LatestReceiver<V: Drop> {
    cell: Arc<Cell<V>, Global>,
    seen: u64,
}

/// What the closure makes of the value.
fn made_of<V, R, F: FnOnce(&V) -> R>(f: F, value: &V) -> R
    requires { F.IsAlwaysCallable f }
    ensures { FnOnceReturnsAt F.FnOnce f value.now result }
{
    f(value)
}

impl<V: Drop> Latest<V> {
    /// A cell with this value, which counts as sent. It is refused for want of memory alone.
    pub fn new(alloc: Global, value: V) -> Result<Latest<V>, MemberError>
        ensures { IfErr result (λ e. e ≡ OutOfMemory) }
    {
        let cell = Cell {
            sent: Mutex::new(Sent { value, count: 0 }),
            told: Condvar::new(),
        };
        Ok(Latest {
            cell: Arc::new(alloc, cell)?,
        })
    }

    /// Puts a value in the place of the one before, and wakes the receivers that wait for it.
    pub fn send<W: Wait>(&self, rt: &W, value: V) {
        let mut sent = self.cell.sent.lock(rt);
        sent.value = value;
        sent.count = sent.count.wrapping_add(1);
        drop(sent);
        self.cell.told.notify_all();
    }

    /// A receiver, which finds the present value at once and has seen it. It is refused for want of memory alone.
    pub fn subscribe<W: Wait>(&self, rt: &W) -> Result<LatestReceiver<V>, MemberError>
        ensures { IfErr result (λ e. e ≡ OutOfMemory) }
    {
        let seen = self.cell.sent.lock(rt).count;
        Ok(LatestReceiver {
            cell: Arc::try_clone(&self.cell)?,
            seen,
        })
    }
}

impl<V: Drop> LatestReceiver<V> {
    /// What the closure makes of the latest value. The cell stays locked until it is done.
    pub fn read<W: Wait, R, F: FnOnce(&V) -> R>(&self, rt: &W, f: F) -> R
        requires { F.IsAlwaysCallable f }
        ensures { (value : V) × FnOnceReturnsAt F.FnOnce f value result }
    {
        let sent = self.cell.sent.lock(rt);
        made_of(f, &sent.value)
    }

    /// Whether a value was sent since this receiver's last look, which is its first moment or the end of the last `changed`.
    pub fn has_changed<W: Wait>(&self, rt: &W) -> bool {
        self.cell.sent.lock(rt).count != self.seen
    }

    /// Waits until a value was sent since this receiver's last look, and looks.
    pub fn changed<W: Wait>(&mut self, rt: &W) {
        let seen = self.seen;
        let sent = self
            .cell
            .told
            .wait_while(rt, self.cell.sent.lock(rt), |sent| sent.count == seen);
        self.seen = sent.count;
    }
}
