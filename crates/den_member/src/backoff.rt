//! Tries of a task, with pauses between them.
ghost use Rattle.std.specs.Prelude.{◌≡◌, ◌-◌, ◌++◌, IsTrue};
ghost use Rattle.den_member.specs.Backoff.{Tries, next_pause, pause_behind, pauses_before, pauses_between, pauses_of};

use crate::MemberError;
use den_codec::BackoffPolicy;
use den_disk::Pause;

/// The pause behind one of so many milliseconds.
fn next_pause(greatest: u64, pause: u64) -> u64
    ensures { result ≡ next_pause greatest pause }
{
    pause.saturating_mul(2).min(greatest)
}

/// Pauses before the try behind so many others, if there is one, and answers the pause behind it.
fn pause_before<P: Pause>(policy: &BackoffPolicy, failed: u32, delay: u64, pause: &mut P) -> u64
    requires { delay ≡ pause_behind policy.now (failed - 1) }
    ensures next { result ≡ pause_behind policy.now failed }
    ensures told { IsTrue (P.tells pause.new) → P.delays pause.new ≡ P.delays pause.old ++ pauses_before policy.now failed }
    ensures tells { IsTrue (P.tells pause.new) → IsTrue (P.tells pause.old) }
{
    if failed == 0 {
        return delay;
    }
    pause.pause(delay);
    next_pause(policy.max_delay_ms, delay)
}

/// Tries a task until it succeeds, `max_retries` times at most, and pauses between the tries: the base first, however long, and
/// then each time the double of the last pause, up to the greatest. `TaskBackoffFailed` comes exactly where `max_retries` tries
/// were made and each failed, with their number, which is 0 where the policy allows none. It takes no memory of its own.
pub fn task_with_exponential_backoff<R, F: FnMut() -> Result<R, MemberError>, P: Pause>(
    mut task: F,
    policy: BackoffPolicy,
    pause: &mut P,
) -> Result<R, MemberError>
    requires { F.IsAlwaysCallable task }
    ensures tries { (t : Tries F.step policy task result) × (IsTrue (P.tells pause.new) → P.delays pause.new ≡ P.delays pause.old ++ pauses_of policy (pauses_between result t.failed)) }
    ensures tells { IsTrue (P.tells pause.new) → IsTrue (P.tells pause.old) }
{
    let mut delay = policy.base_delay_ms;
    for failed in 0..policy.max_retries {
        delay = pause_before(&policy, failed, delay, pause);
        if let Ok(answer) = task() {
            return Ok(answer);
        }
    }
    Err(MemberError::TaskBackoffFailed {
        tries: policy.max_retries,
    })
}
