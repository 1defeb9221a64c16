//! What a crash makes of the writes since the last sync.
ghost use Rattle.std.specs.Prelude.{◌≡◌, ◌≤◌, ◌<◌, ◌+◌, ◌-◌, ℕ, [], length, slice_index};
ghost use Rattle.den_disk.specs.declared.place.Place.{Place};
ghost use Rattle.den_disk.specs.Files.{IsImageAt};
ghost use Rattle.den_disk.specs.Memory.{file_of, pend_all};
ghost use Rattle.den_disk.specs.Spoil.{Spoils, TakesBack, byte_unwritten, caps_before};

use crate::Step;

/// Makes of the files an image of them. Choice 0 takes back each write that is pending, and any other puts numbers drawn
/// from it where they were written.
pub(crate) fn spoil(files: &mut [Vec<u8>; 12], steps: &[Step], choice: u64)
    ensures image { (q : Place) → IsImageAt (pend_all [] steps.now) q (file_of files.old q) (file_of files.new q) }
    ensures dropped { choice ≡ 0 → (q : Place) (k : ℕ) → k < length (file_of files.old q) → slice_index (file_of files.new q) k ≡ byte_unwritten steps.now q k (slice_index (file_of files.old q) k) }
{
    let mut caps = [u64::MAX; 12];
    let mut drawn = choice;
    let mut left = steps.len();
    while left > 0 {
        left -= 1;
        spoil_step(files, &mut caps, &steps[left], choice, &mut drawn);
    }
}

// Spoils what a call wrote, as far as it is pending after those that follow.
fn spoil_step(
    files: &mut [Vec<u8>; 12],
    caps: &mut [u64; 12],
    step: &Step,
    choice: u64,
    drawn: &mut u64,
)
    ensures caps { caps.new ≡ caps_before step.now caps.old }
    ensures spoils { Spoils step.now caps.old files.old files.new }
    ensures dropped { choice ≡ 0 → TakesBack step.now caps.old files.old files.new }
{
    match step {
        Step::Sync => *caps = [0; 12],
        Step::Resize { place, len, .. } => {
            let number = place.number();
            caps[number] = caps[number].min(*len);
        }
        Step::Write { place, at, was } => {
            let number = place.number();
            let cap = caps[number];
            spoil_range(&mut files[number], *at, was, cap, choice, drawn);
        }
    }
}

// Puts other bytes where a write stood, below a cap.
fn spoil_range(file: &mut Vec<u8>, at: u64, was: &[u8], cap: u64, choice: u64, drawn: &mut u64)
    ensures as_long { length file.new.items ≡ length file.old.items }
    ensures same { (k : ℕ) → (at ≤ k → k < at + length was.now → k < cap → ⊥) → slice_index file.new.items k ≡ slice_index file.old.items k }
    ensures dropped { choice ≡ 0 → (k : ℕ) → at ≤ k → k < at + length was.now → k < cap → k < length file.old.items → slice_index file.new.items k ≡ slice_index was.now (k - at) }
{
    let most = cap.min(file.len() as u64);
    let end = at.saturating_add(was.len() as u64).min(most);
    let start = at.min(end) as usize;
    for k in start..end as usize {
        let byte = if choice == 0 {
            was[k - start]
        } else {
            draw(drawn)
        };
        file[k] = byte;
    }
}

// The next drawn byte.
fn draw(drawn: &mut u64) -> u8 {
    *drawn = drawn
        .wrapping_mul(6364136223846793005)
        .wrapping_add(1442695040888963407);
    (*drawn >> 56) as u8
}
