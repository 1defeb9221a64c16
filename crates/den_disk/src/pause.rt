//! A pause of milliseconds.
ghost use Rattle.std.specs.Prelude.{◌≡◌, ℕ, Bool, IsTrue, List, [], ◌∷◌, ◌++◌};

/// Who waits, as between two tries of one thing.
pub trait Pause {
    /// Whether it tells its delays: it may cease to, for good.
    ghost tells: { Self → Bool };

    /// The delays so far. Only where it tells.
    ghost delays: { Self → List ℕ };

    /// Waits this many milliseconds.
    fn pause(&mut self, ms: u64)
        ensures told { IsTrue (tells self.new) → delays self.new ≡ delays self.old ++ ms ∷ [] }
        ensures tells { IsTrue (tells self.new) → IsTrue (tells self.old) };
}
