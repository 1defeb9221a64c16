//! A clock of milliseconds.
ghost use Rattle.std.specs.Prelude.{◌≡◌, ℕ, Bool, IsTrue, List, [], ◌∷◌, ◌++◌};

/// Where readings come from.
pub trait Clock {
    /// Whether the clock tells its readings: it may cease to, for good.
    ghost tells: { Self → Bool };

    /// The readings taken. Only where it tells.
    ghost readings: { Self → List ℕ };

    /// The present reading, in milliseconds. It may fall, and it may be 0.
    fn now(&mut self) -> u64
        ensures told { IsTrue (tells self.new) → readings self.new ≡ readings self.old ++ result ∷ [] }
        ensures tells { IsTrue (tells self.new) → IsTrue (tells self.old) };
}
