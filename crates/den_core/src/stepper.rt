//! What the loop over frames sees of an engine.
ghost use Rattle.std.specs.Prelude.{◌≡◌, ◌↔◌, ◌⊎◌, ◌<◌, ◌≤◌, ◌^◌, ◌+◌, ◌-◌, IsTrue, OnOk, IfOk, true, Some};
ghost use Rattle.den_model.specs.Plan.{logged, output, opening, turn};
ghost use Rattle.den_model.specs.Step.{leads};
ghost use Rattle.den_core.specs.Answers.{frames_of};
ghost use Rattle.den_core.specs.Kept.{asked_of, grown};
ghost use Rattle.den_core.specs.Making.{Agrees, CanGoOn, IsCallTooShort, LogIsShort, Makes, Says, Seen};
ghost use Rattle.den_core.specs.Refusals.{HasCleaned, HasJoined};
ghost use Rattle.den_core.specs.Trimmed.{logged_after, mark_of};
ghost use Rattle.den_core.specs.Weights.{frame_rise, opening_rise};

use den_codec::{Error, Frame, Reply, Rows, WatchEvent};
use den_disk::Disk;

/// A step's reply, and the events that it raised.
#[derive(Debug, Drop)]
pub struct StepOut {
    pub reply: Reply,
    pub events: Rows<WatchEvent>,
}

/// A state with its files, which makes steps.
pub trait Stepper<D: Disk>: Drop {
    /// What is seen of it. A disk is told to be full only where four times the weight, with the call's rise, is above the limit
    /// of a file.
    ghost seen: { Self → Seen };

    /// What it says of files.
    ghost says: { Says };

    /// Makes the opening's steps. The log of one that leads is short then: it is purged up to the mark only where its indices
    /// run over too many. What was short stays so, whether it leads or not. Where memory is wanting behind a write, the
    /// term is raised, or expired keys are gone.
    fn open_at(&mut self, disk: &mut D, time: u64) -> Result<(), Error>
        requires stands { CanGoOn D.Disk (seen self.old) disk.old }
        requires time { 1 ≤ time }
        requires term { (seen self.old).kv.durable.term < 2 ^ 64 - 1 }
        requires index { (seen self.old).kv.durable.last_index < 2 ^ 64 - 1 }
        ensures makes { Makes D.Disk (seen self.old) (seen self.new) disk.old disk.new says (opening (seen self.old).kv time) opening_rise
            (IsCallTooShort (seen self.old) (opening (seen self.old).kv time))
            (((seen self.new).kv.durable.term ≡ (seen self.old).kv.durable.term + 1) ⊎ HasCleaned (seen self.old).kv (opening (seen self.old).kv time)) result }
        ensures log { OnOk result ((seen self.new).log
            ≡ logged_after (seen self.old).most (mark_of (seen self.new).kv.durable) (seen self.old).log (logged (seen self.old).kv (opening (seen self.old).kv time))) }
        ensures short { OnOk result (leads (seen self.old).kv ≡ true → LogIsShort (seen self.new)) }
        ensures short_kept { OnOk result (LogIsShort (seen self.old) → LogIsShort (seen self.new)) }
        ensures state_short { OnOk result (leads (seen self.old).kv ≡ true → (seen self.new).short) }
        ensures state_kept { OnOk result ((seen self.old).short → (seen self.new).short) }
        ensures waits { OnOk result ((seen self.new).waits ≡ (seen self.old).waits) };

    /// Makes a frame's steps, and answers what is to be sent: the step's reply and events. Who registered waits with nothing, and
    /// nothing more waits for anybody. A log that was short stays so: where the steps log an entry it
    /// is purged up to the mark, only where its indices run over too many. Where memory is wanting behind a write, expired
    /// keys are gone, or the steps' entries are in the log.
    fn step(&mut self, disk: &mut D, frame: Frame, time: u64) -> Result<StepOut, Error>
        requires stands { CanGoOn D.Disk (seen self.old) disk.old }
        requires time { 1 ≤ time }
        ensures makes { Makes D.Disk (seen self.old) (seen self.new) disk.old disk.new says (turn (seen self.old).kv frame time) (frame_rise frame)
            (IsCallTooShort (seen self.old) (turn (seen self.old).kv frame time))
            (HasCleaned (seen self.old).kv (turn (seen self.old).kv frame time)
            ⊎ HasJoined (seen self.old).log (logged (seen self.old).kv (turn (seen self.old).kv frame time)) (seen self.new).log) result }
        ensures log { OnOk result ((seen self.new).log
            ≡ logged_after (seen self.old).most (mark_of (seen self.new).kv.durable) (seen self.old).log (logged (seen self.old).kv (turn (seen self.old).kv frame time))) }
        ensures short { OnOk result (LogIsShort (seen self.old) → LogIsShort (seen self.new)) }
        ensures state_short { OnOk result ((seen self.old).short → (seen self.new).short) }
        ensures waits { OnOk result ((seen self.new).waits ≡ grown (seen self.old).waits (seen self.new).kv.running) }
        ensures values { IfOk result (λ out. ((asked_of (seen self.old).kv frame time).reply ≡ Some out.reply) × ((asked_of (seen self.old).kv frame time).events ≡ out.events)) }
        ensures answer { IfOk result (λ out. frames_of out.reply out.events ≡ output (seen self.old).kv (turn (seen self.old).kv frame time)) };

    /// Whether a refusal left it of no more use. It is opened anew then.
    fn is_failed(&self) -> bool
        ensures { IsTrue result ↔ (seen self.now).failed };

    /// What it says of files agrees with what is seen of it.
    ghost agrees: { Agrees says seen };
}
