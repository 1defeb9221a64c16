//! A pause in memory: it waits for nothing, and keeps its first delays.
ghost use Rattle.std.specs.Prelude.{◌≡◌, ℕ, ◌&&◌, nat_lt, IsTrue, IfOk, List, [], ◌∷◌, ◌++◌, true};
ghost use Rattle.den_disk.specs.Delays.{has_room, kept_delays, room_of};

use crate::Pause;
use std::alloc::{AllocError, Global};

/// A pause that keeps its first delays, in room that is made with it, and tells them until that room is used up.
#[derive(Drop)]
pub struct ListPause {
    room: Vec<u64>,
    kept: usize,
    over: bool,
}

impl ListPause {
    /// A pause with room for so many delays. It is refused for want of memory alone.
    pub fn new(alloc: Global, room: u32) -> Result<ListPause, AllocError>
        ensures tells { IfOk result (λ p. IsTrue (⟦<ListPause as Pause>⟧.tells p)) }
        ensures delays { IfOk result (λ p. ⟦<ListPause as Pause>⟧.delays p ≡ []) }
        ensures room { IfOk result (λ p. room_of p ≡ room) }
    {
        let mut places = Vec::new(alloc);
        places.resize(room as usize, 0)?;
        Ok(ListPause {
            room: places,
            kept: 0,
            over: false,
        })
    }
}

impl Pause for ListPause {
    ghost tells = { has_room };

    ghost delays = { kept_delays };

    fn pause(&mut self, ms: u64)
        ensures told { IsTrue (has_room self.new) → kept_delays self.new ≡ kept_delays self.old ++ ms ∷ [] }
        ensures tells { has_room self.new ≡ (has_room self.old && nat_lt self.old.kept (room_of self.old)) }
        ensures room { room_of self.new ≡ room_of self.old }
    {
        if self.kept < self.room.len() {
            self.room[self.kept] = ms;
            self.kept += 1;
        } else {
            self.over = true;
        }
    }
}
