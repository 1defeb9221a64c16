//! A number that is not 0.
ghost use Rattle.std.specs.Prelude.{◌≡◌, ℕ, ◌≤◌, nat_le, if◌then◌else◌, Option};

use std::marker::Model;

/// A number of at least 1, as an index or a moment is.
#[derive(Clone, Copy, Debug, PartialEq, Eq)]
pub struct Positive {
    number: u64,
}

impl Model for Positive {
    ghost use Rattle.std.specs.Prelude.{ℕ, ◌≤◌};
    ghost use Rattle.std.specs.Coded.{coded_ℕ};

    ghost Value = { ℕ };

    ghost coded = { coded_ℕ };

    ghost view = { λ p. p.number };

    ghost invariant = { λ p. 1 ≤ p.number };

    ghost inverse = { λ n. record { number = n } };
}

impl Positive {
    /// The number, which is at least 1.
    pub fn of(number: u64) -> Positive
        requires { 1 ≤ number }
        ensures { result ≡ number }
    {
        Positive { number }
    }

    /// The number, where it is at least 1.
    pub fn new(number: u64) -> Option<Positive>
        ensures { result ≡ (if nat_le 1 number then Some number else None) }
    {
        if number == 0 {
            return None;
        }
        Some(Positive { number })
    }

    /// The number.
    pub fn get(&self) -> u64
        ensures is { result ≡ self.now }
        ensures positive { 1 ≤ self.now }
    {
        self.number
    }
}
