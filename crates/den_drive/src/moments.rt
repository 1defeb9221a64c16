//! The clock of a drive.
ghost use Rattle.std.specs.Prelude.{◌≡◌, ◌-◌, ◌^◌, ℕ, [], nat_lt};
ghost use Rattle.den_disk.specs.Readings.{given_by, reading_at, step_at};
ghost use Rattle.den_drive.specs.Report.{moments};

use den_disk::{Clock, ListClock};

/// A clock that reads 1,000, and one more each time.
#[derive(Drop)]
pub struct Moments {
    clock: ListClock,
    given: u64,
    ghost counted: { given_by clock ≡ given },
    ghost steps: { (n : ℕ) → reading_at clock n ≡ step_at 1000 1 n },
}

impl Moments {
    /// The clock, of which no reading was taken.
    pub fn new() -> Self
        ensures { ⟦<Moments as Clock>⟧.readings result ≡ [] }
    {
        Moments {
            clock: ListClock::steps(1000, 1),
            given: 0,
        }
    }

    /// Whether it still counts its readings.
    pub fn counts(&self) -> bool
        ensures { result ≡ ⟦<Moments as Clock>⟧.tells self.now }
    {
        self.given < u64::MAX
    }
}

impl Clock for Moments {
    ghost tells = { λ clock. nat_lt clock.given (2 ^ 64 - 1) };

    ghost readings = { λ clock. moments clock.given };

    fn now(&mut self) -> u64 {
        let reading = self.clock.now();
        self.given = self.given.saturating_add(1);
        reading
    }
}
