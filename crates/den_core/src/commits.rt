//! Commands of a leader: an entry joins the log and is applied to the map, and the log is kept short.
ghost use Rattle.std.specs.Prelude.{◌≡◌, ◌<◌, ◌≤◌, ◌-◌, IsTrue, [], ◌∷◌, OnOk, IfOk, IfErr, MatchOption, true, false, nat_lt};
ghost use Rattle.den_codec.specs.declared.error.Error.TheVariants.{OutOfMemory};
ghost use Rattle.den_model.specs.Apply.{applied, succeeds};
ghost use Rattle.den_model.specs.Grown.{HasTermOf};
ghost use Rattle.den_model.specs.Log.{changed, floor, last_index};
ghost use Rattle.den_model.specs.declared.region.LogRegion.TheVariants.{Append};
ghost use Rattle.den_model.specs.Step.{is_leader, next_entry};
ghost use Rattle.den_core.specs.Asked.{MayCommit};
ghost use Rattle.den_core.specs.Full.{IsSlotTooShort};
ghost use Rattle.den_core.specs.Making.{CanGoOn, ChangesStores, LogIsShort, Makes};
ghost use Rattle.den_core.specs.Parts.{running_seen, IsReady};
ghost use Rattle.den_core.specs.PayloadSizes.{entry_sizes, map_of, opened_trim_sizes, trim_sizes};
ghost use Rattle.den_core.specs.Trimmed.{last_id, logged_after, mark_of, opened_log, trimmed};
ghost use Rattle.den_core.specs.Weights.{commit_rise, trim_rise, write_rise};

use crate::applying::apply_at_rest;
use crate::ask::leads;
use crate::recovery::floor;
use crate::terms::current_term;
use crate::{Core, Engine, Stepper};
use den_codec::{Command, Entry, Error, LogId};
use den_disk::Disk;
use den_state::StateMachine;
use den_store::{LogStore, MetaStore};

/// Commits a command: its entry joins the log and is applied. Answers whether it succeeded.
fn commit<D: Disk, G: LogStore<D>, T: MetaStore<D>, M: StateMachine<D>, K: Core<D>>(
    engine: &mut Engine<G, T, M, K>,
    disk: &mut D,
    command: Command,
    time: u64,
) -> Result<bool, Error>
    requires ready { IsReady (G.shown engine.old.log).ready (T.shown engine.old.meta).ready (M.shown engine.old.state).ready
        (G.shown engine.old.log).value (M.map engine.old.state) (K.view engine.old.core).role (M.settings engine.old.state) engine.old.running }
    requires rests { IsTrue (D.kind disk.old).tells → (⟦<Engine<G, T, M, K> as Stepper<D>>⟧.seen engine.old).rests (D.content disk.old) }
    requires may { MayCommit (running_seen engine.old.running).setting (M.map engine.old.state).mark.index command }
    requires time { 1 ≤ time }
    ensures makes { ChangesStores D.Disk (⟦<Engine<G, T, M, K> as Stepper<D>>⟧.seen engine.old) (⟦<Engine<G, T, M, K> as Stepper<D>>⟧.seen engine.new) disk.old disk.new ⟦<Engine<G, T, M, K> as Stepper<D>>⟧.says
        (applied (⟦<Engine<G, T, M, K> as Stepper<D>>⟧.seen engine.old).kv.durable (next_entry (⟦<Engine<G, T, M, K> as Stepper<D>>⟧.seen engine.old).kv time command))
        (next_entry (⟦<Engine<G, T, M, K> as Stepper<D>>⟧.seen engine.old).kv time command ∷ [])
        (entry_sizes (⟦<Engine<G, T, M, K> as Stepper<D>>⟧.seen engine.old).most (⟦<Engine<G, T, M, K> as Stepper<D>>⟧.seen engine.old).log (map_of (⟦<Engine<G, T, M, K> as Stepper<D>>⟧.seen engine.old).kv.durable) (next_entry (⟦<Engine<G, T, M, K> as Stepper<D>>⟧.seen engine.old).kv time command ∷ [])) (commit_rise command) result }
    ensures succeeded { IfOk result (λ succeeded. succeeded ≡ succeeds (⟦<Engine<G, T, M, K> as Stepper<D>>⟧.seen engine.old).kv.durable command) }
    ensures logged { OnOk result ((G.shown engine.new.log).value
        ≡ changed (G.shown engine.old.log).value (Append (next_entry (⟦<Engine<G, T, M, K> as Stepper<D>>⟧.seen engine.old).kv time command ∷ []))) }
    ensures ends { OnOk result (HasTermOf (G.shown engine.new.log).value (M.map engine.new.state).mark) }
    ensures state_short { OnOk result (M.short engine.new.state) }
    ensures running { engine.new.running ≡ engine.old.running }
    ensures ready { OnOk result (⟦<Engine<G, T, M, K> as Stepper<D>>⟧.seen engine.new).ready }
    ensures meta { engine.new.meta ≡ engine.old.meta }
    ensures still { IfErr result (λ e. engine.old.failed ≡ true → engine.new.failed ≡ true) }
{
    let index = engine.state.last_applied().index + 1;
    let term = current_term::<D, T>(&engine.meta);
    let entry = Entry::of(index, term, time, command);
    let chunk = [entry.copy()?];
    engine.core.commit(disk, &mut engine.log, entry)?;
    // The log has an entry that the map lacks.
    engine.failed = true;
    let results = apply_at_rest(&mut engine.state, disk, &chunk)?;
    engine.failed = false;
    Ok(results.as_slice()[0].succeeded)
}

/// Whether a log may hold more than so many entries: by its last index and its boundary.
fn is_long<D: Disk, G: LogStore<D>>(log: &G, most: u64) -> bool
    ensures { result ≡ nat_lt most (last_index (G.shown log.now).value - floor (G.shown log.now).value) }
{
    log.last_index() - floor::<D, G>(log) > most
}

/// Purges the log up to an id, where it may hold too many entries. The id is at most the map's mark, and no entry is
/// above it: so none is held then. That moves nothing that the files stand for.
fn trim_to<D: Disk, G: LogStore<D>, T: MetaStore<D>, M: StateMachine<D>, K: Core<D>>(
    engine: &mut Engine<G, T, M, K>,
    disk: &mut D,
    id: LogId,
) -> Result<(), Error>
    requires stands { CanGoOn D.Disk (⟦<Engine<G, T, M, K> as Stepper<D>>⟧.seen engine.old) disk.old }
    requires within { id.index ≤ (M.map engine.old.state).mark.index }
    requires last { last_index (G.shown engine.old.log).value ≤ id.index }
    requires ends { HasTermOf (G.shown engine.old.log).value id }
    ensures makes { Makes D.Disk (⟦<Engine<G, T, M, K> as Stepper<D>>⟧.seen engine.old) (⟦<Engine<G, T, M, K> as Stepper<D>>⟧.seen engine.new) disk.old disk.new ⟦<Engine<G, T, M, K> as Stepper<D>>⟧.says
        [] trim_rise (IsSlotTooShort (trim_sizes engine.old.most (G.shown engine.old.log).value id)) ((G.shown engine.new.log).value ≡ (G.shown engine.old.log).value) result }
    ensures trimmed { OnOk result ((G.shown engine.new.log).value ≡ trimmed engine.old.most id (G.shown engine.old.log).value) }
    ensures short { OnOk result (LogIsShort (⟦<Engine<G, T, M, K> as Stepper<D>>⟧.seen engine.new)) }
    ensures state { engine.new.state ≡ engine.old.state }
    ensures failed { IfErr result (λ e. engine.new.failed ≡ true) }
    ensures running { engine.new.running ≡ engine.old.running }
    ensures meta { engine.new.meta ≡ engine.old.meta }
{
    if !is_long::<D, G>(&engine.log, engine.most) {
        return Ok(());
    }
    // The step is made, and its log is too long.
    engine.failed = true;
    engine.log.purge(disk, id)?;
    engine.failed = false;
    Ok(())
}

/// Purges the log up to the map's mark, where it may hold too many entries. That moves nothing that the files stand for.
fn trim<D: Disk, G: LogStore<D>, T: MetaStore<D>, M: StateMachine<D>, K: Core<D>>(
    engine: &mut Engine<G, T, M, K>,
    disk: &mut D,
) -> Result<(), Error>
    requires stands { CanGoOn D.Disk (⟦<Engine<G, T, M, K> as Stepper<D>>⟧.seen engine.old) disk.old }
    requires ends { HasTermOf (G.shown engine.old.log).value (M.map engine.old.state).mark }
    ensures makes { Makes D.Disk (⟦<Engine<G, T, M, K> as Stepper<D>>⟧.seen engine.old) (⟦<Engine<G, T, M, K> as Stepper<D>>⟧.seen engine.new) disk.old disk.new ⟦<Engine<G, T, M, K> as Stepper<D>>⟧.says
        [] trim_rise (IsSlotTooShort (trim_sizes engine.old.most (G.shown engine.old.log).value (M.map engine.old.state).mark)) ((G.shown engine.new.log).value ≡ (G.shown engine.old.log).value) result }
    ensures trimmed { OnOk result ((G.shown engine.new.log).value ≡ trimmed engine.old.most (M.map engine.old.state).mark (G.shown engine.old.log).value) }
    ensures short { OnOk result (LogIsShort (⟦<Engine<G, T, M, K> as Stepper<D>>⟧.seen engine.new)) }
    ensures state { engine.new.state ≡ engine.old.state }
    ensures failed { IfErr result (λ e. engine.new.failed ≡ true) }
    ensures running { engine.new.running ≡ engine.old.running }
    ensures meta { engine.new.meta ≡ engine.old.meta }
{
    let applied = engine.state.last_applied();
    trim_to(engine, disk, applied)
}

/// Index and term of the last entry, if the log holds one.
fn last_id<D: Disk, G: LogStore<D>>(log: &G) -> Result<Option<LogId>, Error>
    ensures id { IfOk result (λ found. MatchOption found ((G.shown log.now).value.entries ≡ []) (λ id. id ≡ last_id (G.shown log.now).value)) }
    ensures refused { IfErr result (λ e. e ≡ OutOfMemory) }
{
    match log.entry(log.last_index())? {
        Some(entry) => Ok(Some(LogId {
            index: entry.index(),
            term: entry.term(),
        })),
        None => Ok(None),
    }
}

/// Purges the log of an engine that was opened up to the log's own last entry, where the core does not lead and the
/// log may hold too many entries. Under a core that leads the opening's steps commit an entry, and purge behind it.
/// Where memory is wanting nothing is written. It moves nothing that the files stand for.
pub(crate) fn trim_opened<D: Disk, G: LogStore<D>, T: MetaStore<D>, M: StateMachine<D>, K: Core<D>>(
    engine: &mut Engine<G, T, M, K>,
    disk: &mut D,
) -> Result<(), Error>
    requires stands { CanGoOn D.Disk (⟦<Engine<G, T, M, K> as Stepper<D>>⟧.seen engine.old) disk.old }
    ensures makes { Makes D.Disk (⟦<Engine<G, T, M, K> as Stepper<D>>⟧.seen engine.old) (⟦<Engine<G, T, M, K> as Stepper<D>>⟧.seen engine.new) disk.old disk.new ⟦<Engine<G, T, M, K> as Stepper<D>>⟧.says
        [] trim_rise (IsSlotTooShort (opened_trim_sizes engine.old.running.role engine.old.most (G.shown engine.old.log).value)) ((G.shown engine.new.log).value ≡ (G.shown engine.old.log).value) result }
    ensures log { OnOk result ((G.shown engine.new.log).value ≡ opened_log engine.old.running.role engine.old.most (G.shown engine.old.log).value) }
    ensures short { OnOk result (is_leader engine.old.running.role ≡ false → LogIsShort (⟦<Engine<G, T, M, K> as Stepper<D>>⟧.seen engine.new)) }
    ensures state { engine.new.state ≡ engine.old.state }
    ensures running { engine.new.running ≡ engine.old.running }
{
    let stays = leads(&engine.running) | !is_long::<D, G>(&engine.log, engine.most);
    if stays {
        return Ok(());
    }
    match last_id::<D, G>(&engine.log)? {
        Some(id) => trim_to(engine, disk, id),
        None => Ok(()),
    }
}

/// Commits a command, and purges the log where it may hold too many entries then. Answers whether the command succeeded.
pub(crate) fn commit_and_trim<
    D: Disk,
    G: LogStore<D>,
    T: MetaStore<D>,
    M: StateMachine<D>,
    K: Core<D>,
>(engine: &mut Engine<G, T, M, K>, disk: &mut D, command: Command, time: u64) -> Result<bool, Error>
    requires ready { IsReady (G.shown engine.old.log).ready (T.shown engine.old.meta).ready (M.shown engine.old.state).ready
        (G.shown engine.old.log).value (M.map engine.old.state) (K.view engine.old.core).role (M.settings engine.old.state) engine.old.running }
    requires rests { IsTrue (D.kind disk.old).tells → (⟦<Engine<G, T, M, K> as Stepper<D>>⟧.seen engine.old).rests (D.content disk.old) }
    requires may { MayCommit (running_seen engine.old.running).setting (M.map engine.old.state).mark.index command }
    requires time { 1 ≤ time }
    ensures makes { ChangesStores D.Disk (⟦<Engine<G, T, M, K> as Stepper<D>>⟧.seen engine.old) (⟦<Engine<G, T, M, K> as Stepper<D>>⟧.seen engine.new) disk.old disk.new ⟦<Engine<G, T, M, K> as Stepper<D>>⟧.says
        (applied (⟦<Engine<G, T, M, K> as Stepper<D>>⟧.seen engine.old).kv.durable (next_entry (⟦<Engine<G, T, M, K> as Stepper<D>>⟧.seen engine.old).kv time command))
        (next_entry (⟦<Engine<G, T, M, K> as Stepper<D>>⟧.seen engine.old).kv time command ∷ [])
        (entry_sizes (⟦<Engine<G, T, M, K> as Stepper<D>>⟧.seen engine.old).most (⟦<Engine<G, T, M, K> as Stepper<D>>⟧.seen engine.old).log (map_of (⟦<Engine<G, T, M, K> as Stepper<D>>⟧.seen engine.old).kv.durable) (next_entry (⟦<Engine<G, T, M, K> as Stepper<D>>⟧.seen engine.old).kv time command ∷ [])) (write_rise command) result }
    ensures succeeded { IfOk result (λ succeeded. succeeded ≡ succeeds (⟦<Engine<G, T, M, K> as Stepper<D>>⟧.seen engine.old).kv.durable command) }
    ensures trimmed { OnOk result ((⟦<Engine<G, T, M, K> as Stepper<D>>⟧.seen engine.new).log
        ≡ logged_after (⟦<Engine<G, T, M, K> as Stepper<D>>⟧.seen engine.old).most (mark_of (⟦<Engine<G, T, M, K> as Stepper<D>>⟧.seen engine.new).kv.durable) (⟦<Engine<G, T, M, K> as Stepper<D>>⟧.seen engine.old).log (next_entry (⟦<Engine<G, T, M, K> as Stepper<D>>⟧.seen engine.old).kv time command ∷ [])) }
    ensures short { OnOk result (LogIsShort (⟦<Engine<G, T, M, K> as Stepper<D>>⟧.seen engine.new)) }
    ensures state_short { OnOk result (M.short engine.new.state) }
    ensures running { engine.new.running ≡ engine.old.running }
    ensures ready { OnOk result (⟦<Engine<G, T, M, K> as Stepper<D>>⟧.seen engine.new).ready }
    ensures meta { engine.new.meta ≡ engine.old.meta }
    ensures still { IfErr result (λ e. engine.old.failed ≡ true → engine.new.failed ≡ true) }
{
    let succeeded = commit(engine, disk, command, time)?;
    trim(engine, disk)?;
    Ok(succeeded)
}
