//! The machine's clock.
ghost use Rattle.std.specs.Prelude.{◌≡◌, ◌/◌, ◌^◌, ◌-◌, min, false, []};
ghost use Rattle.std.specs.Time.{system_time_nanos};

use den_disk::Clock;
use std::time;
use std::time::{SystemTime, UNIX_EPOCH};

/// The machine's wall clock, in milliseconds since 1970. It reads 0 where it cannot be read.
#[derive(Drop)]
pub struct HostClock<R> {
    rt: R,
}

impl<R: time::Clock> HostClock<R> {
    /// The wall clock of this runtime.
    pub fn new(rt: R) -> HostClock<R> {
        HostClock { rt }
    }
}

// Milliseconds since 1970. At its last value the number stays.
fn milliseconds(time: SystemTime) -> u64
    ensures { result ≡ min (system_time_nanos time / 1_000_000) (2 ^ 64 - 1) }
{
    match time.duration_since(UNIX_EPOCH) {
        Ok(duration) => u64::try_from(duration.as_millis()).unwrap_or(u64::MAX),
        Err(_) => 0,
    }
}

impl<R: time::Clock> Clock for HostClock<R> {
    ghost tells = { λ _. false };

    ghost readings = { λ _. [] };

    fn now(&mut self) -> u64 {
        match SystemTime::now(&self.rt) {
            Ok(time) => milliseconds(time),
            Err(_) => 0,
        }
    }
}

#[cfg(test)]
mod tests {
    use super::*;

    #[test]
    fn reads_a_time_after_2020(rt: HostRuntime) {
        let mut clock = HostClock::new(rt);
        assert!(rt; clock.now() > 1_600_000_000_000);
    }
}
