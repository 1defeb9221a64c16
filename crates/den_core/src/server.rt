//! The loop that serves frames: each is a step, and what the step answers is sent behind it.
ghost use Rattle.std.specs.Prelude.{◌≡◌, ◌⊎◌, ◌<◌, ◌≤◌, ◌^◌, ◌+◌, ◌-◌, ◌++◌, ℕ, List, drop, IsTrue, OnOk, IfErr, length, true};
ghost use Rattle.den_disk.specs.Goes.{Rose, IsPrefix, stamped, added, LinkGoesOn, ClockGoesOn};
ghost use Rattle.den_model.specs.Crash.{Survives, IsWhole, IsDone, IsAnswered, IsServed, Tells, bytes_of};
ghost use Rattle.den_model.specs.Frames.{framed, frames};
ghost use Rattle.den_model.specs.Plan.{output, turn, turns, plan};
ghost use Rattle.den_model.specs.Step.{leads};
ghost use Rattle.den_core.specs.Answers.{frames_of, SendsFirst};
ghost use Rattle.den_core.specs.Early.{EarlyIsRefused};
ghost use Rattle.den_core.specs.Full.{IsBegun, IsReached};
ghost use Rattle.den_core.specs.Making.{CanGoOn, GivesShortLog, LogIsShort, Serves};
ghost use Rattle.den_core.specs.Refusals.{IsLinkRefusal};
ghost use Rattle.den_core.specs.Weights.{frame_rise, run_weight, served_weight};

use crate::{FrameReader, StepOut, Stepper};
use den_codec::{Error, Frame, Word};
use den_disk::{Clock, Disk, Link};
use std::alloc::{AllocError, Global};

/// With so many bytes in it the buffer is sent, before more is put there.
const ENOUGH: usize = 1 << 20;

/// Writes the length of what stands behind the first eight bytes into those.
fn set_length(frame: &mut [u8])
    requires { 8 ≤ length frame.old }
    ensures { frame.new ≡ framed (drop 8 frame.old) }
{
    let size = (frame.len() - 8) as u64;
    frame[..8].copy_from_slice(&size.to_be_bytes());
}

/// Puts the frame of a value's word behind what the buffer holds.
fn put_frame<W: Word>(value: &W, buffer: &mut Vec<u8>) -> Result<(), AllocError>
    ensures { OnOk result (buffer.new.items ≡ buffer.old.items ++ framed (W.word value.now)) }
{
    let at = buffer.len();
    buffer.extend_from_slice(&[0; 8])?;
    value.put(buffer)?;
    set_length(&mut buffer[at..]);
    Ok(())
}

/// Sends what the buffer holds, and empties it, where that is enough to be sent.
fn send_enough<D: Disk, L: Link>(link: &mut L, disk: &D, buffer: &mut Vec<u8>) -> Result<(), Error>
    requires { 0 < length buffer.old.items }
    ensures on { LinkGoesOn L.tells L.sent L.budget L.taken L.faults link.old link.new }
    ensures left { IsTrue (L.tells link.old) → L.left link.new ≡ L.left link.old }
    ensures taken { L.taken link.new ≡ L.taken link.old }
    ensures moved { OnOk result (IsTrue (L.tells link.old)
        → SendsFirst buffer.old.items buffer.new.items (L.sent link.old) (L.sent link.new) (D.moment disk.now)) }
    ensures front { IsTrue (L.tells link.old) → (front : List ℕ) × IsPrefix front buffer.old.items
        × (L.sent link.new ≡ L.sent link.old ++ stamped front (D.moment disk.now)) }
    ensures refused { IfErr result (λ e. IsLinkRefusal (Rose (L.faults link.old) (L.faults link.new)) e) }
{
    if buffer.len() < ENOUGH {
        return Ok(());
    }
    link.send(buffer, disk)?;
    buffer.clear();
    Ok(())
}

/// Sends a step's reply and behind it each of its events, at once where they are not many bytes.
fn send_all<D: Disk, L: Link>(
    link: &mut L,
    disk: &D,
    out: &StepOut,
    buffer: &mut Vec<u8>,
) -> Result<(), Error>
    ensures on { LinkGoesOn L.tells L.sent L.budget L.taken L.faults link.old link.new }
    ensures left { IsTrue (L.tells link.old) → L.left link.new ≡ L.left link.old }
    ensures taken { L.taken link.new ≡ L.taken link.old }
    ensures all { OnOk result (IsTrue (L.tells link.old) → L.sent link.new ≡ L.sent link.old ++ stamped (frames_of out.now.reply out.now.events) (D.moment disk.now)) }
    ensures front { IsTrue (L.tells link.old) → (front : List ℕ) × IsPrefix front (frames_of out.now.reply out.now.events)
        × (L.sent link.new ≡ L.sent link.old ++ stamped front (D.moment disk.now)) }
    ensures refused { IfErr result (λ e. IsLinkRefusal (Rose (L.faults link.old) (L.faults link.new)) e) }
{
    buffer.clear();
    put_frame(&out.reply, buffer)?;
    for event in out.events.as_slice() {
        send_enough(link, disk, buffer)?;
        put_frame(event, buffer)?;
    }
    Ok(link.send(buffer, disk)?)
}

/// Makes a frame's steps, and sends what they answer, in this order.
fn serve_frame<D: Disk, L: Link, S: Stepper<D>>(
    stepper: &mut S,
    disk: &mut D,
    link: &mut L,
    frame: Frame,
    time: u64,
    buffer: &mut Vec<u8>,
) -> Result<(), Error>
    requires stands { CanGoOn D.Disk (S.seen stepper.old) disk.old }
    requires time { 1 ≤ time }
    ensures link { LinkGoesOn L.tells L.sent L.budget L.taken L.faults link.old link.new }
    ensures left { IsTrue (L.tells link.old) → L.left link.new ≡ L.left link.old }
    ensures taken { L.taken link.new ≡ L.taken link.old }
    ensures survives { IsTrue (D.kind disk.old).tells → IsTrue (L.tells link.old) → S.says.told
        → Survives S.says.holds (D.images disk.new) (D.moment disk.old) (D.moment disk.new) (added (L.sent link.old) (L.sent link.new))
        (S.seen stepper.old).kv (turn (S.seen stepper.old).kv frame time) }
    ensures whole { OnOk result (IsTrue (L.tells link.old)
        → IsWhole (added (L.sent link.old) (L.sent link.new)) (S.seen stepper.old).kv (S.seen stepper.old).log (turn (S.seen stepper.old).kv frame time) (S.seen stepper.new).kv (S.seen stepper.new).log) }
    ensures prefix { IsTrue (L.tells link.old)
        → IsPrefix (bytes_of (added (L.sent link.old) (L.sent link.new))) (output (S.seen stepper.old).kv (turn (S.seen stepper.old).kv frame time)) }
    ensures weight { OnOk result ((S.seen stepper.new).weight ≤ (S.seen stepper.old).weight + frame_rise frame) }
    ensures serves { Serves D.Disk (S.seen stepper.old) (S.seen stepper.new) disk.old disk.new S.says (Rose (L.faults link.old) (L.faults link.new))
        (λ kv log next. IsBegun (S.seen stepper.old).kv (S.seen stepper.old).log (turn (S.seen stepper.old).kv frame time) kv log next
        × (IsTrue (L.tells link.old) → L.sent link.new ≡ L.sent link.old))
        ((S.seen stepper.old).weight + frame_rise frame) result }
{
    let out = stepper.step(disk, frame, time)?;
    send_all(link, disk, &out, buffer)?;
    Ok(())
}

/// Serves each frame of the input, to its end. A body may be no longer than the limit.
pub fn serve<D: Disk, L: Link, C: Clock, S: Stepper<D>>(
    stepper: &mut S,
    disk: &mut D,
    link: &mut L,
    clock: &mut C,
    limit: u32,
    alloc: Global,
) -> Result<(), Error>
    requires stands { CanGoOn D.Disk (S.seen stepper.old) disk.old }
    ensures link { LinkGoesOn L.tells L.sent L.budget L.taken L.faults link.old link.new }
    ensures clock { ClockGoesOn C.tells C.readings clock.old clock.new }
    ensures counted { IsTrue (L.tells link.old) → L.taken link.new + length (L.left link.new) ≡ L.taken link.old + length (L.left link.old) }

    // At every exit, and after a crash at any moment, the disk stands for the state after a prefix of the turns that
    // holds each step of which a byte was sent.
    ensures survives { Tells (D.kind disk.old).tells (L.tells link.old) (C.tells clock.new) → S.says.told
        → Survives S.says.holds (D.images disk.new) (D.moment disk.old) (D.moment disk.new) (added (L.sent link.old) (L.sent link.new))
        (S.seen stepper.old).kv (turns (S.seen stepper.old).kv (frames limit (L.left link.old)) (added (C.readings clock.old) (C.readings clock.new))) }

    // At every exit what was sent is a front of what the turns answer, whatever is told of the disk and its files.
    ensures prefix { IsTrue (L.tells link.old) → IsTrue (C.tells clock.new)
        → IsPrefix (bytes_of (added (L.sent link.old) (L.sent link.new)))
        (output (S.seen stepper.old).kv (turns (S.seen stepper.old).kv (frames limit (L.left link.old)) (added (C.readings clock.old) (C.readings clock.new)))) }

    // At Ok all turns were made, exactly what they answer was sent, and their entries are in the log.
    ensures done { OnOk result (Tells (D.kind disk.old).tells (L.tells link.old) (C.tells clock.new)
        → IsDone (L.left link.new) (length (added (C.readings clock.old) (C.readings clock.new))) (length (frames limit (L.left link.old)))
        (added (L.sent link.old) (L.sent link.new)) (S.seen stepper.old).kv (S.seen stepper.old).log
        (turns (S.seen stepper.old).kv (frames limit (L.left link.old)) (added (C.readings clock.old) (C.readings clock.new))) (S.seen stepper.new).kv (S.seen stepper.new).log) }
    ensures serves { Serves D.Disk (S.seen stepper.old) (S.seen stepper.new) disk.old disk.new S.says (Rose (L.faults link.old) (L.faults link.new))
        (λ kv log next. Tells (D.kind disk.old).tells (L.tells link.old) (C.tells clock.new)
        → IsReached (S.seen stepper.old).kv (S.seen stepper.old).log (turns (S.seen stepper.old).kv (frames limit (L.left link.old)) (added (C.readings clock.old) (C.readings clock.new)))
        (bytes_of (added (L.sent link.old) (L.sent link.new))) kv log next)
        (served_weight (S.seen stepper.old).weight (L.taken link.new - L.taken link.old)) result }
{
    let mut reader = FrameReader::new(alloc, limit);
    let mut buffer = Vec::new(alloc);
    'frames: loop {
        let found = reader.next(link)?;
        let Some(frame) = found else {
            return Ok(());
        };
        let time = clock.now().max(1);
        serve_frame(stepper, disk, link, frame, time, &mut buffer)?;
    }
}

/// Opens an engine at the clock's reading, and serves each frame of the input, to its end. A body may be no longer than
/// the limit.
pub fn run_from<D: Disk, L: Link, C: Clock, S: Stepper<D>>(
    stepper: &mut S,
    disk: &mut D,
    link: &mut L,
    clock: &mut C,
    limit: u32,
    alloc: Global,
) -> Result<(), Error>
    requires stands { CanGoOn D.Disk (S.seen stepper.old) disk.old }
    requires term { (S.seen stepper.old).kv.durable.term < 2 ^ 64 - 1 }
    requires index { (S.seen stepper.old).kv.durable.last_index < 2 ^ 64 - 1 }

    // At Ok exactly the plan's output was sent.
    ensures answered { OnOk result (Tells (D.kind disk.old).tells (L.tells link.old) (C.tells clock.new)
        → let readings = added (C.readings clock.old) (C.readings clock.new) in
        IsAnswered (L.left link.new) (length readings) (length (frames limit (L.left link.old)))
        (added (L.sent link.old) (L.sent link.new)) (S.seen stepper.old).kv (plan (S.seen stepper.old).kv (frames limit (L.left link.old)) readings)) }

    // And its end is on the disk, with the plan's entries in the log.
    ensures served { OnOk result (Tells (D.kind disk.old).tells (L.tells link.old) (C.tells clock.new) → S.says.told
        → let readings = added (C.readings clock.old) (C.readings clock.new) in
        IsServed S.says.holds S.says.logs (D.images disk.new) (D.moment disk.new) (L.left link.new) (length readings) (length (frames limit (L.left link.old)))
        (added (L.sent link.old) (L.sent link.new)) (S.seen stepper.old).kv (S.seen stepper.old).log (plan (S.seen stepper.old).kv (frames limit (L.left link.old)) readings)) }

    // The log that the files give then is short, where it leads or its log was short.
    ensures short { OnOk result ((leads (S.seen stepper.old).kv ≡ true) ⊎ LogIsShort (S.seen stepper.old) → IsTrue (D.kind disk.old).tells → S.says.told
        → GivesShortLog S.says.logs (D.images disk.new) (D.moment disk.new) (S.seen stepper.old).most) }

    // Few records follow the last checkpoint of the state machine then.
    ensures state_short { OnOk result (leads (S.seen stepper.old).kv ≡ true → (S.seen stepper.new).short) }

    // At every exit, and after a crash at any moment, inside a call too, the disk stands for the state after a prefix
    // of the plan that holds each step of which a byte was sent.
    ensures any_moment { Tells (D.kind disk.old).tells (L.tells link.old) (C.tells clock.new) → S.says.told
        → Survives S.says.holds (D.images disk.new) (D.moment disk.old) (D.moment disk.new) (added (L.sent link.old) (L.sent link.new))
        (S.seen stepper.old).kv (plan (S.seen stepper.old).kv (frames limit (L.left link.old)) (added (C.readings clock.old) (C.readings clock.new))) }

    // At every exit what was sent is a front of the plan's output, whatever is told of the disk and its files.
    ensures prefix { IsTrue (L.tells link.old) → IsTrue (C.tells clock.new)
        → IsPrefix (bytes_of (added (L.sent link.old) (L.sent link.new)))
        (output (S.seen stepper.old).kv (plan (S.seen stepper.old).kv (frames limit (L.left link.old)) (added (C.readings clock.old) (C.readings clock.new)))) }
    ensures link { LinkGoesOn L.tells L.sent L.budget L.taken L.faults link.old link.new }
    ensures clock { ClockGoesOn C.tells C.readings clock.old clock.new }
    ensures counted { IsTrue (L.tells link.old) → L.taken link.new + length (L.left link.new) ≡ L.taken link.old + length (L.left link.old) }
    ensures serves { Serves D.Disk (S.seen stepper.old) (S.seen stepper.new) disk.old disk.new S.says (Rose (L.faults link.old) (L.faults link.new))
        (λ kv log next. Tells (D.kind disk.old).tells (L.tells link.old) (C.tells clock.new)
        → IsReached (S.seen stepper.old).kv (S.seen stepper.old).log (plan (S.seen stepper.old).kv (frames limit (L.left link.old)) (added (C.readings clock.old) (C.readings clock.new)))
        (bytes_of (added (L.sent link.old) (L.sent link.new))) kv log next)
        (run_weight (S.seen stepper.old).weight (L.taken link.new - L.taken link.old)) result }
{
    let time = clock.now().max(1);
    stepper.open_at(disk, time)?;
    serve(stepper, disk, link, clock, limit, alloc)
}

/// The crash clause refuses a reply that is sent before its step.
pub fn early_is_refused()
    ensures { EarlyIsRefused }
{}
