//! The machine's own pause.
ghost use Rattle.std.specs.Prelude.{false, []};

use den_disk::Pause;
use std::time::{Clock, Duration};

/// Lets the thread sleep, by the machine's clock.
#[derive(Drop)]
pub struct HostPause<R> {
    rt: R,
}

impl<R: Clock> HostPause<R> {
    /// The pause of this runtime.
    pub fn new(rt: R) -> HostPause<R> {
        HostPause { rt }
    }
}

impl<R: Clock> Pause for HostPause<R> {
    ghost tells = { λ _. false };

    ghost delays = { λ _. [] };

    fn pause(&mut self, ms: u64) {
        std::thread::sleep(&self.rt, Duration::from_millis(ms));
    }
}

#[cfg(test)]
mod tests {
    use super::*;
    use std::test::Fail;
    use std::time::Instant;

    #[test]
    fn sleeps_so_long_at_least(rt: HostRuntime) -> Result<(), Fail> {
        let start = Instant::now(&rt)?;
        let mut pause = HostPause::new(rt);
        pause.pause(30);
        assert!(rt;
            start
                .elapsed(&rt)
                .is_ok_and(|slept| slept >= Duration::from_millis(30))
        );
        Ok(())
    }
}
