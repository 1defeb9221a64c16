//! One engine with its disk, and the history of the calls that were made of it.
ghost use Rattle.std.specs.Prelude.{◌≡◌, ◌≤◌, ◌+◌, IsTrue, true, false, Some, None, [], List, Result, Ok, Err, IfOk, OnOk, IfErr, take, drop, length, min, ◌-◌};
ghost use Rattle.den_codec.specs.declared.error.Error.{Error};
ghost use Rattle.den_journal.specs.Writes.{GoesOn};
ghost use Rattle.den_core.specs.Kept.{asked_of, registry_behind};
ghost use Rattle.den_core.specs.Making.{CanGoOn};
ghost use Rattle.den_model.specs.Crash.{Stands};
ghost use Rattle.den_model.specs.Plan.{after, turn};
ghost use Rattle.den_model.specs.Step.{moment_of};
ghost use Rattle.den_watch.specs.Registry.{emptied, is_registered, taken_from, without};
ghost use Rattle.den_desk.specs.declared.history.Call.TheVariants.{Serve};
ghost use Rattle.den_desk.specs.declared.history.End.{End};
ghost use Rattle.den_desk.specs.declared.history.CallError.TheVariants.{OutOfMemory as no_memory};
ghost use Rattle.den_desk.specs.declared.history.FailKind.TheVariants.{Stopped};
ghost use Rattle.den_desk.specs.History.{Adds, answer_at, has_no_entry, looked_at, standing_after, stop_at, told_error, told_of_take};
ghost use Rattle.den_desk.specs.Keeping.{Fails, IsHistoryOf, IsKept, StandsAt, call_rise, first_standing, kind_of};

use crate::copies::{Duplicate, copy_items};
use crate::history::{Answer, Answered, Call, CallError, End, FailKind, Finished};
use crate::station::Station;
use den_codec::{Error, Frame, Rows, WatchEvent};
use den_core::{Core, Engine, Stepper};
use den_disk::Disk;
use den_state::StateMachine;
use den_store::{LogStore, MetaStore};
use den_watch::{WatchError, WatcherHandle};
use std::alloc::{AllocError, Global};
use std::snapshot::Snapshot;

/// An engine, its disk, and the list of finished calls, by which each answer is told: from the engine as it was at first the list
/// replays. A failed step or a stop ends it, and each later call fails.
#[derive(Drop)]
pub struct Desk<D, G, T, M, K> {
    first: Snapshot<Engine<G, T, M, K>>,
    first_disk: Snapshot<D>,
    engine: Engine<G, T, M, K>,
    disk: D,
    history: Vec<Finished>,
    ended: Option<End>,
    alloc: Global,
}

/// A desk's engine and disk, and all its finished calls.
#[derive(Drop)]
pub struct Closed<D, G, T, M, K> {
    pub engine: Engine<G, T, M, K>,
    pub disk: D,
    pub history: Rows<Finished>,
}

// The entries from this place on.
fn rest_from(history: &[Finished], from: u64) -> &[Finished]
    ensures { result.now ≡ drop from history.now }
{
    if from < history.len() as u64 {
        &history[from as usize..]
    } else {
        &history[history.len()..]
    }
}

// The first entries, so many at most.
fn first_of(history: &[Finished], most: u64) -> &[Finished]
    ensures { result.now ≡ take most history.now }
{
    if most < history.len() as u64 {
        &history[..most as usize]
    } else {
        history
    }
}

// The entries that a look names, copied.
fn look(alloc: Global, history: &[Finished], call: &Call) -> Result<Rows<Finished>, AllocError>
    ensures { IfOk result (λ looked. looked ≡ looked_at call.now history.now) }
{
    match call {
        Call::Look { from, most } => {
            let rest = rest_from(history, *from);
            Ok(Rows::of(copy_items(alloc, first_of(rest, *most))?))
        }
        Call::Serve(_) | Call::Take(_) | Call::Unregister(_) | Call::Stop => {
            Ok(Rows::of(Vec::new(alloc)))
        }
    }
}

// How a refused step is told.
fn kind_of(error: Error) -> FailKind
    ensures { result ≡ kind_of error }
{
    match error {
        Error::StorageIoError => FailKind::StorageIoError,
        Error::DiskFull { needed, limit } => FailKind::DiskFull { needed, limit },
        Error::OutOfMemory
        | Error::LinkFault
        | Error::DataCorruption { .. }
        | Error::FeatureNotEnabled
        | Error::ProposeFailed
        | Error::UnorderedChunk { .. }
        | Error::Config(_)
        | Error::ConfigFault
        | Error::StateMachineError => FailKind::OutOfMemory,
    }
}

// What a take tells.
fn told_of_take(taken: Result<Rows<WatchEvent>, WatchError>) -> Answer
    ensures { result ≡ told_of_take taken }
{
    match taken {
        Ok(events) => Answer::Events(events),
        Err(WatchError::WatchBufferOverflow) => Answer::Overflow,
        Err(
            WatchError::OutOfMemory
            | WatchError::InvalidPrefix
            | WatchError::LimitExceeded
            | WatchError::NotRegistered,
        ) => Answer::NotRegistered,
    }
}

// What a call is told that failed at this place, behind this end.
fn told_error(ended: Option<End>, place: u64, kind: FailKind) -> CallError
    ensures { result ≡ told_error ended place kind }
{
    if let Some(end) = ended {
        return CallError::Failed {
            place: end.place,
            kind: end.kind,
        };
    }
    match kind {
        FailKind::OutOfMemory => CallError::OutOfMemory { place: Some(place) },
        FailKind::StorageIoError | FailKind::DiskFull { .. } | FailKind::Stopped => {
            CallError::Failed { place, kind }
        }
    }
}

// Where an answered call ends the history.
fn stop_at(place: u64, call: &Call) -> Option<End>
    ensures { result ≡ stop_at place call.now }
{
    match call {
        Call::Stop => Some(End {
            place,
            kind: FailKind::Stopped,
        }),
        Call::Serve(_) | Call::Take(_) | Call::Unregister(_) | Call::Look { .. } => None,
    }
}

// The files of a stepper that can go on stand for its durable part, on each image of the disk.
fn stands<D: Disk, S: Stepper<D>>(_stepper: &S, _disk: &D)
    ensures stands { CanGoOn D.Disk (S.seen _stepper.now) _disk.now → IsTrue (D.kind _disk.now).tells → S.says.told
        → Stands S.says.holds (D.images _disk.now) (D.moment _disk.now) (S.seen _stepper.now).kv.durable }
{}

// Makes the turn of a frame.
fn serve<D: Disk, G: LogStore<D>, T: MetaStore<D>, M: StateMachine<D>, K: Core<D>>(
    engine: &mut Engine<G, T, M, K>,
    disk: &mut D,
    frame: Frame,
    moment: u64,
) -> Result<Answer, FailKind>
    requires stands { CanGoOn D.Disk (⟦<Engine<G, T, M, K> as Stepper<D>>⟧.seen engine.old) disk.old }
    ensures disk { GoesOn D.Disk disk.old disk.new }
    ensures answered { IfOk result (λ answer. answer ≡ answer_at 0 (first_standing (⟦<Engine<G, T, M, K> as Stepper<D>>⟧.seen engine.old)) moment (Serve frame)) }
    ensures stands { OnOk result (StandsAt D.Disk (standing_after 0 (first_standing (⟦<Engine<G, T, M, K> as Stepper<D>>⟧.seen engine.old)) moment (Serve frame))
        (⟦<Engine<G, T, M, K> as Stepper<D>>⟧.seen engine.new) disk.new) }
    ensures weight { OnOk result ((⟦<Engine<G, T, M, K> as Stepper<D>>⟧.seen engine.new).weight ≤ (⟦<Engine<G, T, M, K> as Stepper<D>>⟧.seen engine.old).weight + call_rise (Serve frame)) }
    ensures cause { IfErr result (Fails D.Disk ⟦<Engine<G, T, M, K> as Stepper<D>>⟧.says.told (⟦<Engine<G, T, M, K> as Stepper<D>>⟧.seen engine.old) disk.old disk.new moment (Serve frame)) }
{
    match engine.step_kept(disk, frame, moment.max(1)) {
        Ok(reply) => Ok(Answer::Reply(reply)),
        Err(error) => Err(kind_of(error)),
    }
}

// Makes a call that stands at this place, and answers it.
fn answer<D: Disk, G: LogStore<D>, T: MetaStore<D>, M: StateMachine<D>, K: Core<D>>(
    engine: &mut Engine<G, T, M, K>,
    disk: &mut D,
    place: u64,
    moment: u64,
    call: Call,
) -> Result<Answer, FailKind>
    requires stands { CanGoOn D.Disk (⟦<Engine<G, T, M, K> as Stepper<D>>⟧.seen engine.old) disk.old }
    ensures disk { GoesOn D.Disk disk.old disk.new }
    ensures answered { IfOk result (λ answer. answer ≡ answer_at place (first_standing (⟦<Engine<G, T, M, K> as Stepper<D>>⟧.seen engine.old)) moment call) }
    ensures stands { OnOk result (StandsAt D.Disk (standing_after place (first_standing (⟦<Engine<G, T, M, K> as Stepper<D>>⟧.seen engine.old)) moment call)
        (⟦<Engine<G, T, M, K> as Stepper<D>>⟧.seen engine.new) disk.new) }
    ensures weight { OnOk result ((⟦<Engine<G, T, M, K> as Stepper<D>>⟧.seen engine.new).weight ≤ (⟦<Engine<G, T, M, K> as Stepper<D>>⟧.seen engine.old).weight + call_rise call) }
    ensures cause { IfErr result (Fails D.Disk ⟦<Engine<G, T, M, K> as Stepper<D>>⟧.says.told (⟦<Engine<G, T, M, K> as Stepper<D>>⟧.seen engine.old) disk.old disk.new moment call) }
{
    match call {
        Call::Serve(frame) => serve(engine, disk, frame, moment),
        Call::Take(watcher) => Ok(told_of_take(engine.registry().take(&watcher))),
        Call::Unregister(watcher) => {
            Ok(Answer::Unregistered(engine.registry().unregister(watcher)))
        }
        Call::Look { from, most } => Ok(Answer::Looked {
            from,
            count: most.min(place.saturating_sub(from)),
        }),
        Call::Stop => Ok(Answer::Stopped),
    }
}

// Makes a call, and answers it twice: for its caller and for the history. Where memory for the second is wanting, it has failed.
fn answer_twice<D: Disk, G: LogStore<D>, T: MetaStore<D>, M: StateMachine<D>, K: Core<D>>(
    alloc: Global,
    engine: &mut Engine<G, T, M, K>,
    disk: &mut D,
    place: u64,
    moment: u64,
    call: Call,
) -> Result<(Answer, Answer), FailKind>
    requires stands { CanGoOn D.Disk (⟦<Engine<G, T, M, K> as Stepper<D>>⟧.seen engine.old) disk.old }
    ensures disk { GoesOn D.Disk disk.old disk.new }
    ensures answered { IfOk result (λ both. (both.0 ≡ answer_at place (first_standing (⟦<Engine<G, T, M, K> as Stepper<D>>⟧.seen engine.old)) moment call) × (both.1 ≡ both.0)) }
    ensures stands { OnOk result (StandsAt D.Disk (standing_after place (first_standing (⟦<Engine<G, T, M, K> as Stepper<D>>⟧.seen engine.old)) moment call)
        (⟦<Engine<G, T, M, K> as Stepper<D>>⟧.seen engine.new) disk.new) }
    ensures weight { OnOk result ((⟦<Engine<G, T, M, K> as Stepper<D>>⟧.seen engine.new).weight ≤ (⟦<Engine<G, T, M, K> as Stepper<D>>⟧.seen engine.old).weight + call_rise call) }
    ensures cause { IfErr result (Fails D.Disk ⟦<Engine<G, T, M, K> as Stepper<D>>⟧.says.told (⟦<Engine<G, T, M, K> as Stepper<D>>⟧.seen engine.old) disk.old disk.new moment call) }
{
    let answer = answer(engine, disk, place, moment, call)?;
    match answer.duplicate(alloc) {
        Ok(again) => Ok((answer, again)),
        Err(_) => Err(FailKind::OutOfMemory),
    }
}

// A call copied for the history, and the entries that it looks at.
fn copy_call(
    alloc: Global,
    history: &[Finished],
    call: &Call,
) -> Result<(Call, Rows<Finished>), AllocError>
    ensures { IfOk result (λ both. (both.0 ≡ call.now) × (both.1 ≡ looked_at call.now history.now)) }
{
    let looked = look(alloc, history, call)?;
    Ok((call.duplicate(alloc)?, looked))
}

impl<D: Disk, G: LogStore<D>, T: MetaStore<D>, M: StateMachine<D>, K: Core<D>> Desk<D, G, T, M, K> {
    /// A desk over an engine that can go on and its disk, of which no call was made yet.
    pub fn new(alloc: Global, engine: Engine<G, T, M, K>, disk: D) -> Desk<D, G, T, M, K>
        requires stands { CanGoOn D.Disk (⟦<Engine<G, T, M, K> as Stepper<D>>⟧.seen engine) disk }
        ensures kept { IsKept D.Disk (⟦<Engine<G, T, M, K> as Stepper<D>>⟧.seen result.first.value) (⟦<Engine<G, T, M, K> as Stepper<D>>⟧.seen result.engine) result.first_disk.value result.disk result.ended result.history.items }
        ensures engine { result.engine ≡ engine }
        ensures disk { result.disk ≡ disk }
        ensures first { result.first.value ≡ engine }
        ensures first_disk { result.first_disk.value ≡ disk }
        ensures history { result.history.items ≡ [] }
    {
        Desk {
            first: Snapshot::of(&engine),
            first_disk: Snapshot::of(&disk),
            engine,
            disk,
            history: Vec::new(alloc),
            ended: None,
            alloc,
        }
    }

    /// All finished calls, the first one first.
    pub fn history(&self) -> &[Finished]
        ensures { result.now ≡ self.now.history.items }
    {
        self.history.as_slice()
    }

    /// Lets the engine and the disk go, with all finished calls.
    pub fn close(self) -> Closed<D, G, T, M, K>
        ensures told { IsKept D.Disk (⟦<Engine<G, T, M, K> as Stepper<D>>⟧.seen self.first.value) (⟦<Engine<G, T, M, K> as Stepper<D>>⟧.seen self.engine) self.first_disk.value self.disk self.ended self.history.items
            → IsHistoryOf D.Disk ⟦<Engine<G, T, M, K> as Stepper<D>>⟧.says (⟦<Engine<G, T, M, K> as Stepper<D>>⟧.seen self.first.value) self.first_disk.value result.disk result.history }
        ensures engine { result.engine ≡ self.engine }
        ensures disk { result.disk ≡ self.disk }
        ensures history { result.history ≡ self.history.items }
    {
        stands(&self.engine, &self.disk);
        Closed {
            engine: self.engine,
            disk: self.disk,
            history: Rows::of(self.history),
        }
    }

    /// Makes one call at this reading of the clock, in milliseconds, and adds its entry to the history, as the replay has it there.
    /// `OutOfMemory` without a place leaves all as it was. With a place it is the call's own want of memory, which ends the
    /// history; `Failed` is the call's own failure, or names where the history ended before it.
    pub fn turn(&mut self, caller: u64, moment: u64, call: Call) -> Result<Answered, CallError>
        requires kept { IsKept D.Disk (⟦<Engine<G, T, M, K> as Stepper<D>>⟧.seen self.old.first.value) (⟦<Engine<G, T, M, K> as Stepper<D>>⟧.seen self.old.engine) self.old.first_disk.value self.old.disk self.old.ended self.old.history.items }
        ensures kept { IsKept D.Disk (⟦<Engine<G, T, M, K> as Stepper<D>>⟧.seen self.new.first.value) (⟦<Engine<G, T, M, K> as Stepper<D>>⟧.seen self.new.engine) self.new.first_disk.value self.new.disk self.new.ended self.new.history.items }
        ensures first { self.new.first.value ≡ self.old.first.value }
        ensures first_disk { self.new.first_disk.value ≡ self.old.first_disk.value }
        ensures disk { GoesOn D.Disk self.old.disk self.new.disk }
        // A desk whose history has ended makes no step.
        ensures idle { (self.old.ended ≡ None → ⊥) → (self.new.engine ≡ self.old.engine) × (self.new.disk ≡ self.old.disk) }
        ensures untouched { has_no_entry result ≡ true → (self.new.engine ≡ self.old.engine) × (self.new.disk ≡ self.old.disk) × (self.new.ended ≡ self.old.ended) × (self.new.history.items ≡ self.old.history.items) }
        ensures added { has_no_entry result ≡ false → Adds self.old.history.items self.new.history.items self.old.ended caller moment call (Fails D.Disk ⟦<Engine<G, T, M, K> as Stepper<D>>⟧.says.told (⟦<Engine<G, T, M, K> as Stepper<D>>⟧.seen self.old.engine) self.old.disk self.new.disk moment call) result }
    {
        let Ok((kept, looked)) = copy_call(self.alloc, self.history.as_slice(), &call) else {
            return Err(CallError::OutOfMemory { place: None });
        };
        if self.history.reserve(1).is_err() {
            return Err(CallError::OutOfMemory { place: None });
        }
        let place = self.history.len() as u64;
        if let Some(end) = self.ended {
            self.history.push_reserved(Finished {
                caller,
                call: kept,
                moment,
                outcome: Err(end.kind),
            });
            return Err(told_error(self.ended, place, end.kind));
        }
        match answer_twice(
            self.alloc,
            &mut self.engine,
            &mut self.disk,
            place,
            moment,
            call,
        ) {
            Ok((answer, again)) => {
                self.ended = stop_at(place, &kept);
                self.history.push_reserved(Finished {
                    caller,
                    call: kept,
                    moment,
                    outcome: Ok(again),
                });
                Ok(Answered {
                    place,
                    answer,
                    looked,
                })
            }
            Err(kind) => {
                self.ended = Some(End { place, kind });
                self.history.push_reserved(Finished {
                    caller,
                    call: kept,
                    moment,
                    outcome: Err(kind),
                });
                Err(told_error(None, place, kind))
            }
        }
    }
}

impl<D: Disk, G: LogStore<D>, T: MetaStore<D>, M: StateMachine<D>, K: Core<D>> Station
    for Desk<D, G, T, M, K> {
    ghost lawful = { λ desk. IsKept D.Disk (⟦<Engine<G, T, M, K> as Stepper<D>>⟧.seen desk.first.value) (⟦<Engine<G, T, M, K> as Stepper<D>>⟧.seen desk.engine) desk.first_disk.value desk.disk desk.ended desk.history.items };

    ghost start = { λ desk. first_standing (⟦<Engine<G, T, M, K> as Stepper<D>>⟧.seen desk.first.value) };

    ghost history = { λ desk. desk.history.items };

    ghost fails = { λ old new moment call. Fails D.Disk ⟦<Engine<G, T, M, K> as Stepper<D>>⟧.says.told (⟦<Engine<G, T, M, K> as Stepper<D>>⟧.seen old.engine) old.disk new.disk moment call };

    fn turn(&mut self, caller: u64, moment: u64, call: Call) -> Result<Answered, CallError> {
        Desk::turn(self, caller, moment, call)
    }

    ghost replayed = { λ desk kept. kept.replays };
}
