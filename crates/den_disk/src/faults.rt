//! Faults counted, and faults set for a test.
ghost use Rattle.std.specs.Prelude.{◌≡◌, ◌≤◌, ◌-◌, ◌^◌, MatchOption};
ghost use Rattle.den_disk.specs.Goes.{Rose};

/// Counts a fault. The count stays at its last value.
pub(crate) fn count_fault(faults: &mut u64)
    ensures later { faults.old ≤ faults.new }
    ensures rose { Rose faults.old faults.new }
{
    *faults = faults.saturating_add(1);
}

/// How many bytes pass after those that were, where the byte after so many fails.
pub(crate) fn room_before(fail_after: Option<u64>, passed: u64) -> u64
    ensures { MatchOption fail_after (result ≡ 2 ^ 64 - 1) (λ bytes. result ≡ bytes - passed) }
{
    match fail_after {
        Some(bytes) => bytes.saturating_sub(passed),
        None => u64::MAX,
    }
}
