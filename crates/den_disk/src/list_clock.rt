//! A clock in memory: its readings are given.
ghost use Rattle.std.specs.Prelude.{◌≡◌, ℕ, ◌+◌, ◌-◌, ◌^◌, min, IsTrue, List, [], ◌∷◌, ◌++◌};
ghost use Rattle.den_disk.specs.Readings.{listed_at, step_at, reading_of, reading_at, given_by, still_counts, readings_given};

use crate::Clock;

// Which readings come.
#[derive(Drop)]
enum Readings {
    Listed(Vec<u64>),
    Steps { first: u64, step: u64 },
}

impl Readings {
    // The reading of this number, from 0 on.
    fn at(&self, number: u64) -> u64
        ensures { result ≡ reading_of self.now number }
    {
        match self {
            Readings::Listed(readings) => listed(readings, number),
            Readings::Steps { first, step } => first.saturating_add(step.saturating_mul(number)),
        }
    }
}

// The reading of this number in a list. The last one stands for those past it, and 1 for an empty list.
fn listed(readings: &[u64], number: u64) -> u64
    ensures { result ≡ listed_at readings.now number }
{
    if readings.is_empty() {
        return 1;
    }
    readings[(number as usize).min(readings.len() - 1)]
}

/// A clock that gives the readings that it was made of.
#[derive(Drop)]
pub struct ListClock {
    readings: Readings,
    given: u64,
}

impl ListClock {
    /// A clock of these readings, which repeats the last of them, or 1 where there is none.
    pub fn new(readings: Vec<u64>) -> Self
        ensures tells { IsTrue (⟦<ListClock as Clock>⟧.tells result) }
        ensures readings { ⟦<ListClock as Clock>⟧.readings result ≡ [] }
        ensures given { given_by result ≡ 0 }
        ensures comes { (n : ℕ) → reading_at result n ≡ listed_at readings.items n }
    {
        ListClock {
            readings: Readings::Listed(readings),
            given: 0,
        }
    }

    /// A clock whose readings grow by a step each time, up to the last number of 64 bits.
    pub fn steps(first: u64, step: u64) -> Self
        ensures tells { IsTrue (⟦<ListClock as Clock>⟧.tells result) }
        ensures readings { ⟦<ListClock as Clock>⟧.readings result ≡ [] }
        ensures given { given_by result ≡ 0 }
        ensures comes { (n : ℕ) → reading_at result n ≡ step_at first step n }
    {
        ListClock {
            readings: Readings::Steps { first, step },
            given: 0,
        }
    }
}

impl Clock for ListClock {
    ghost tells = { still_counts };

    ghost readings = { readings_given };

    fn now(&mut self) -> u64
        ensures told { IsTrue (still_counts self.new) → readings_given self.new ≡ readings_given self.old ++ result ∷ [] }
        ensures tells { IsTrue (still_counts self.new) → IsTrue (still_counts self.old) }
        ensures which { result ≡ reading_at self.old (given_by self.old) }
        ensures comes { (n : ℕ) → reading_at self.new n ≡ reading_at self.old n }
        ensures given { given_by self.new ≡ min (given_by self.old + 1) (2 ^ 64 - 1) }
    {
        let reading = self.readings.at(self.given);
        self.given = self.given.saturating_add(1);
        reading
    }
}
