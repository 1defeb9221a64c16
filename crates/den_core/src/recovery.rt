//! The engine over stores as they were opened.
ghost use Rattle.std.specs.Prelude.{◌≡◌, ◌==◌, ◌&&◌, ◌||◌, not, ◌^◌, ◌-◌, ◌+◌, IsTrue, [], Option, Some, None, OnOk, IfOk, IfErr, IsSome, IfNone, ◌<◌, ◌≤◌, true, false};
ghost use Rattle.den_codec.specs.declared.error.Error.TheVariants.{OutOfMemory};
ghost use Rattle.den_core.specs.Full.{IsFullBy, IsSlotTooShort};
ghost use Rattle.den_core.specs.Making.{LogIsShort};
ghost use Rattle.den_core.specs.PayloadSizes.{chunk_sizes, opened_sizes};
ghost use Rattle.den_disk.specs.declared.place.Family.TheVariants.{Snapshot as snapshot_family, State as state_family};
ghost use Rattle.den_disk.specs.Families.{OldOrNew, SparesImages, SparesOthers};
ghost use Rattle.den_disk.specs.Goes.{Rose, DiskGoesOn};
ghost use Rattle.den_model.specs.Crash.{Survives};
ghost use Rattle.den_model.specs.Grown.{IsPurgedUpTo};
ghost use Rattle.den_model.specs.Image.{durable, gapless_from, term_of};
ghost use Rattle.den_model.specs.Kv.{Durable};
ghost use Rattle.den_model.specs.Log.{above, floor, last_of};
ghost use Rattle.den_model.specs.MapState.{map_applied_all};
ghost use Rattle.den_model.specs.Sizes.{entries_size, store_rise};
ghost use Rattle.den_model.specs.Step.{is_leader};
ghost use Rattle.den_map.specs.Leases.{asks_lease, has_expiry, lacks_lease};
ghost use Rattle.den_map.specs.Order.{out_of_order};
ghost use Rattle.den_journal.specs.Causes.{IsRefusal};
ghost use Rattle.den_core.specs.Opening.{agrees, opening_refusal, refusal_by, IsLeft, IsOpeningFailure};
ghost use Rattle.den_core.specs.Cores.{running_under};
ghost use Rattle.den_core.specs.Parts.{running_seen, GoesWith, AllRest};
ghost use Rattle.den_core.specs.Spared.{SparesFamily};
ghost use Rattle.den_core.specs.Trimmed.{opened_log};
ghost use Rattle.den_core.specs.Weights.{trim_rise};
ghost use Rattle.den_state.specs.Machine.{AtRest};
ghost use Rattle.den_watch.specs.Registry.{nobody};

use crate::applying::apply_at_rest;
use crate::commits::trim_opened;
use crate::nodes::copy_nodes;
use crate::terms::current_term;
use crate::{Core, Engine, Run, Stepper};
use den_codec::{ClusterMembership, Entry, Error, RaftNodeConfig, Rows};
use den_disk::Disk;
use den_map::asks_lease;
use den_state::StateMachine;
use den_store::{LogStore, MetaStore};
use den_watch::WatchRegistry;
use std::alloc::Global;

/// Whether the indices run on behind this one without a gap.
fn run_behind(index: u64, entries: &[Entry]) -> bool
    ensures { result ≡ gapless_from (index + 1) entries.now }
{
    let mut last = index;
    for entry in entries {
        if entry.index() - 1 != last {
            return false;
        }
        last = entry.index();
    }
    true
}

/// Whether a key of the map has an expiry, or one of these entries sets one, and no lease is configured.
fn lacks_lease<D: Disk, M: StateMachine<D>>(state: &M, entries: &[Entry]) -> bool
    ensures { result ≡ (not (M.settings state.now).leased && (has_expiry (M.map state.now) || asks_lease entries.now)) }
{
    !state.has_lease() && (state.holds_expiry() || asks_lease(entries))
}

/// The run's part as a run begins under a core, with leases or without: nobody watches.
fn running_under<D: Disk, K: Core<D>>(
    alloc: Global,
    config: &RaftNodeConfig,
    core: &K,
    leased: bool,
) -> Result<Run, Error>
    ensures running { IfOk result (λ run. running_seen run ≡ running_under config.now (K.view core.now) leased) }
    ensures nobody { IfOk result (λ run. run.registry ≡ nobody config.now.raft.watch.watcher_buffer_size config.now.raft.watch.max_watcher_count) }
    ensures goes_with { IfOk result (λ run. GoesWith (K.view core.now).role leased run) }
    ensures refused { IfErr result (λ e. e ≡ OutOfMemory) }
{
    let watch = &config.raft.watch;
    let leader = match core.leader() {
        Some(leader) => Some(leader.leader_id),
        None => None,
    };
    Ok(Run {
        registry: WatchRegistry::new(alloc, watch.watcher_buffer_size, watch.max_watcher_count),
        cleaned: None,
        members: ClusterMembership {
            version: 0,
            nodes: copy_nodes(alloc, config.cluster.initial_cluster.as_slice())?,
            current_leader_id: leader,
        },
        role: core.role(),
        hint: core.hint(alloc)?,
        lease: leased,
        interval: config.raft.lease.cleanup_interval_ms,
    })
}

/// The index of the last entry, or this one.
fn last_of(index: u64, entries: &[Entry]) -> u64
    ensures { result ≡ last_of index entries.now }
{
    match entries.last() {
        Some(entry) => entry.index(),
        None => index,
    }
}

/// The index up to which entries were purged.
pub(crate) fn floor<D: Disk, G: LogStore<D>>(log: &G) -> u64
    ensures { result ≡ floor (G.shown log.now).value }
{
    match log.load_purge_boundary() {
        Some(boundary) => boundary.index,
        None => 0,
    }
}

/// The entries behind an index.
fn entries_above<D: Disk, G: LogStore<D>>(log: &G, index: u64) -> Result<Rows<Entry>, Error>
    ensures entries { IfOk result (λ entries. entries ≡ above index (G.shown log.now).value.entries) }
    ensures refused { IfErr result (λ e. e ≡ OutOfMemory) }
{
    let last = log.last_index();
    match index.checked_add(1) {
        Some(first) => log.get_entries(first, last),
        None => log.get_entries(1, 0),
    }
}

/// Whether the log goes on behind the map's mark without a gap, with these entries.
fn agrees<D: Disk, G: LogStore<D>>(log: &G, mark: u64, entries: &[Entry]) -> bool
    ensures { result ≡ agrees (G.shown log.now).value mark entries.now }
{
    floor::<D, G>(log) <= mark && run_behind(mark, entries)
}

/// Whether no term or no index is left.
fn is_exhausted(term: u64, last_index: u64) -> bool
    ensures is { result ≡ ((term == 2 ^ 64 - 1) || (last_index == 2 ^ 64 - 1)) }
    ensures room { result ≡ false → (term < 2 ^ 64 - 1) × (last_index < 2 ^ 64 - 1) }
{
    term == u64::MAX || last_index == u64::MAX
}

/// What opening refuses where these entries of the log are above the map's mark, and a lease is lacking or is not.
fn refusal<D: Disk, G: LogStore<D>, T: MetaStore<D>>(
    log: &G,
    meta: &T,
    mark: u64,
    entries: &[Entry],
    lease: bool,
) -> Option<Error>
    ensures refusal { result ≡ refusal_by (G.place log.now) (agrees (G.shown log.now).value mark entries.now) lease
        ((term_of (T.shown meta.now).value == 2 ^ 64 - 1) || (last_of mark entries.now == 2 ^ 64 - 1)) }
    ensures room { IfNone result ((term_of (T.shown meta.now).value < 2 ^ 64 - 1) × (last_of mark entries.now < 2 ^ 64 - 1)) }
{
    if !agrees::<D, G>(log, mark, entries) {
        return Some(Error::DataCorruption {
            place: log.place(),
            offset: 0,
        });
    }
    if lease {
        return Some(Error::FeatureNotEnabled);
    }
    if is_exhausted(current_term::<D, T>(meta), last_of(mark, entries)) {
        return Some(Error::ProposeFailed);
    }
    None
}

/// Applies entries behind the map's mark, where there are some.
fn apply_all<D: Disk, M: StateMachine<D>>(
    state: &mut M,
    disk: &mut D,
    entries: &[Entry],
) -> Result<(), Error>
    requires ready { (M.shown state.old).ready }
    requires rests { IsTrue (D.kind disk.old).tells → AtRest (M.shown state.old) (M.map state.old) (D.content disk.old) }
    requires in_order { out_of_order (M.map state.old).mark.index entries.now ≡ None }
    requires leased { lacks_lease (M.settings state.old).leased entries.now ≡ false }
    ensures disk { DiskGoesOn D.kind D.moment D.images D.faults disk.old disk.new }
    ensures own { IsTrue (D.kind disk.old).tells → M.holds.told → OldOrNew M.holds.of (D.images disk.new) (D.moment disk.old) (D.moment disk.new) (M.map state.old) (map_applied_all (M.map state.old) entries.now) }
    ensures others { IsTrue (D.kind disk.old).tells → SparesImages state_family (D.images disk.old) (D.images disk.new) (D.moment disk.old) (D.moment disk.new) }
    ensures spares { IsTrue (D.kind disk.old).tells → SparesOthers state_family (D.content disk.old) (D.content disk.new) }
    ensures applied { OnOk result (M.map state.new ≡ map_applied_all (M.map state.old) entries.now) }
    ensures settings { M.settings state.new ≡ M.settings state.old }
    ensures ready { OnOk result (M.shown state.new).ready }
    ensures rests { OnOk result (IsTrue (D.kind disk.old).tells → AtRest (M.shown state.new) (M.map state.new) (D.content disk.new)) }
    ensures weight { OnOk result ((M.shown state.new).weight ≤ (M.shown state.old).weight + store_rise (entries_size entries.now)) }
    ensures refused { IfErr result (λ e. IsRefusal (Rose (D.faults disk.old) (D.faults disk.new)) (D.kind disk.old).limit e) }
    ensures full { IfErr result (IsFullBy (IsTrue (D.kind disk.old).tells × M.holds.told)
        (λ needed. IsSlotTooShort (chunk_sizes (M.map state.old) entries.now) ((M.shown state.old).weight + store_rise (entries_size entries.now)) needed (D.content disk.new).reading)
        (D.kind disk.old).limit ((M.shown state.old).weight + store_rise (entries_size entries.now))) }
{
    if entries.is_empty() {
        return Ok(());
    }
    apply_at_rest(state, disk, entries)?;
    Ok(())
}

/// Brings stores together, the log's entries above the map's mark being these. Applying them moves nothing that the files
/// stand for. The state machine runs then.
fn catch_up<D: Disk, G: LogStore<D>, T: MetaStore<D>, M: StateMachine<D>, K: Core<D>>(
    alloc: Global,
    disk: &mut D,
    log: G,
    meta: T,
    state: M,
    core: K,
    running: Run,
    most: u64,
    entries: &[Entry],
) -> Result<Engine<G, T, M, K>, Error>
    requires log_ready { (G.shown log).ready }
    requires meta_ready { (T.shown meta).ready }
    requires state_ready { (M.shown state).ready }
    requires rests { IsTrue (D.kind disk.old).tells → AllRest ((G.shown log).rests (D.content disk.old)) ((T.shown meta).rests (D.content disk.old)) (AtRest (M.shown state) (M.map state) (D.content disk.old)) }
    requires goes_with { GoesWith (K.view core).role (M.settings state).leased running }
    requires left { IsLeft (G.shown log).value (M.map state) entries.now }
    requires leased { lacks_lease (M.settings state).leased entries.now ≡ false }
    ensures disk { DiskGoesOn D.kind D.moment D.images D.faults disk.old disk.new }
    ensures snapshot { IsTrue (D.kind disk.old).tells → SparesFamily snapshot_family D.content D.moment D.images disk.old disk.new }
    ensures survives { (kept : Durable) → IsTrue (D.kind disk.old).tells → ⟦<Engine<G, T, M, K> as Stepper<D>>⟧.says.told → durable (G.shown log).value (T.shown meta).value (M.map state) ≡ Some kept
        → Survives ⟦<Engine<G, T, M, K> as Stepper<D>>⟧.says.holds (D.images disk.new) (D.moment disk.old) (D.moment disk.new) []
        (record { durable = kept; running = running_seen running }) [] }
    ensures opened { IfOk result (λ engine. durable (G.shown log).value (T.shown meta).value (M.map state) ≡ Some (⟦<Engine<G, T, M, K> as Stepper<D>>⟧.seen engine).kv.durable) }
    ensures started { IfOk result (λ engine. (M.settings engine.state).running ≡ true) }
    ensures running { IfOk result (λ engine. (⟦<Engine<G, T, M, K> as Stepper<D>>⟧.seen engine).kv.running ≡ running_seen running) }
    ensures log { IfOk result (λ engine. (⟦<Engine<G, T, M, K> as Stepper<D>>⟧.seen engine).log ≡ (G.shown log).value) }
    ensures waits { IfOk result (λ engine. (⟦<Engine<G, T, M, K> as Stepper<D>>⟧.seen engine).waits ≡ running.registry) }
    ensures most { IfOk result (λ engine. (⟦<Engine<G, T, M, K> as Stepper<D>>⟧.seen engine).most ≡ most) }
    ensures ready { IfOk result (λ engine. (⟦<Engine<G, T, M, K> as Stepper<D>>⟧.seen engine).ready) }
    ensures rests { IfOk result (λ engine. IsTrue (D.kind disk.old).tells → (⟦<Engine<G, T, M, K> as Stepper<D>>⟧.seen engine).rests (D.content disk.new)) }
    ensures weight { IfOk result (λ engine. (⟦<Engine<G, T, M, K> as Stepper<D>>⟧.seen engine).weight ≤ (G.shown log).weight + (T.shown meta).weight + (M.shown state).weight + store_rise (entries_size entries.now)) }
    ensures refused { IfErr result (λ e. IsRefusal (Rose (D.faults disk.old) (D.faults disk.new)) (D.kind disk.old).limit e) }
    ensures full { IfErr result (IsFullBy (IsTrue (D.kind disk.old).tells × ⟦<Engine<G, T, M, K> as Stepper<D>>⟧.says.told)
        (λ needed. IsSlotTooShort (chunk_sizes (M.map state) entries.now) ((G.shown log).weight + (T.shown meta).weight + (M.shown state).weight + store_rise (entries_size entries.now)) needed (D.content disk.new).reading)
        (D.kind disk.old).limit ((G.shown log).weight + (T.shown meta).weight + (M.shown state).weight + store_rise (entries_size entries.now))) }
{
    let mut state = state;
    state.start();
    apply_all(&mut state, disk, entries)?;
    Ok(Engine::new::<D>(alloc, log, meta, state, core, running, most))
}

/// Brings stores together, the log's entries above the map's mark being these, and purges the log up to its own last
/// entry where it is too long and the core does not lead. That moves nothing that the files stand for. The state
/// machine runs then.
fn bring_together<D: Disk, G: LogStore<D>, T: MetaStore<D>, M: StateMachine<D>, K: Core<D>>(
    alloc: Global,
    disk: &mut D,
    log: G,
    meta: T,
    state: M,
    core: K,
    running: Run,
    most: u64,
    entries: &[Entry],
) -> Result<Engine<G, T, M, K>, Error>
    requires log_ready { (G.shown log).ready }
    requires meta_ready { (T.shown meta).ready }
    requires state_ready { (M.shown state).ready }
    requires rests { IsTrue (D.kind disk.old).tells → AllRest ((G.shown log).rests (D.content disk.old)) ((T.shown meta).rests (D.content disk.old)) (AtRest (M.shown state) (M.map state) (D.content disk.old)) }
    requires goes_with { GoesWith (K.view core).role (M.settings state).leased running }
    requires left { IsLeft (G.shown log).value (M.map state) entries.now }
    requires leased { lacks_lease (M.settings state).leased entries.now ≡ false }
    ensures disk { DiskGoesOn D.kind D.moment D.images D.faults disk.old disk.new }
    ensures snapshot { IsTrue (D.kind disk.old).tells → SparesFamily snapshot_family D.content D.moment D.images disk.old disk.new }
    ensures survives { (kept : Durable) → IsTrue (D.kind disk.old).tells → ⟦<Engine<G, T, M, K> as Stepper<D>>⟧.says.told → durable (G.shown log).value (T.shown meta).value (M.map state) ≡ Some kept
        → Survives ⟦<Engine<G, T, M, K> as Stepper<D>>⟧.says.holds (D.images disk.new) (D.moment disk.old) (D.moment disk.new) []
        (record { durable = kept; running = running_seen running }) [] }
    ensures opened { IfOk result (λ engine. durable (G.shown log).value (T.shown meta).value (M.map state) ≡ Some (⟦<Engine<G, T, M, K> as Stepper<D>>⟧.seen engine).kv.durable) }
    ensures started { IfOk result (λ engine. (M.settings engine.state).running ≡ true) }
    ensures running { IfOk result (λ engine. (⟦<Engine<G, T, M, K> as Stepper<D>>⟧.seen engine).kv.running ≡ running_seen running) }
    ensures log { IfOk result (λ engine. (⟦<Engine<G, T, M, K> as Stepper<D>>⟧.seen engine).log ≡ opened_log (K.view core).role most (G.shown log).value) }
    ensures purged { IfOk result (λ engine. IsPurgedUpTo (⟦<Engine<G, T, M, K> as Stepper<D>>⟧.seen engine).kv.durable.last_index (G.shown log).value (⟦<Engine<G, T, M, K> as Stepper<D>>⟧.seen engine).log) }
    ensures short { IfOk result (λ engine. is_leader (K.view core).role ≡ false → LogIsShort (⟦<Engine<G, T, M, K> as Stepper<D>>⟧.seen engine)) }
    ensures waits { IfOk result (λ engine. (⟦<Engine<G, T, M, K> as Stepper<D>>⟧.seen engine).waits ≡ running.registry) }
    ensures most { IfOk result (λ engine. (⟦<Engine<G, T, M, K> as Stepper<D>>⟧.seen engine).most ≡ most) }
    ensures ready { IfOk result (λ engine. (⟦<Engine<G, T, M, K> as Stepper<D>>⟧.seen engine).ready) }
    ensures rests { IfOk result (λ engine. IsTrue (D.kind disk.old).tells → (⟦<Engine<G, T, M, K> as Stepper<D>>⟧.seen engine).rests (D.content disk.new)) }
    ensures weight { IfOk result (λ engine. (⟦<Engine<G, T, M, K> as Stepper<D>>⟧.seen engine).weight ≤ (G.shown log).weight + (T.shown meta).weight + (M.shown state).weight + store_rise (entries_size entries.now) + trim_rise) }
    ensures refused { IfErr result (λ e. IsRefusal (Rose (D.faults disk.old) (D.faults disk.new)) (D.kind disk.old).limit e) }
    ensures full { IfErr result (IsFullBy (IsTrue (D.kind disk.old).tells × ⟦<Engine<G, T, M, K> as Stepper<D>>⟧.says.told)
        (λ needed. IsSlotTooShort (opened_sizes (K.view core).role most (G.shown log).value (M.map state) entries.now) ((G.shown log).weight + (T.shown meta).weight + (M.shown state).weight + store_rise (entries_size entries.now) + trim_rise) needed (D.content disk.new).reading)
        (D.kind disk.old).limit ((G.shown log).weight + (T.shown meta).weight + (M.shown state).weight + store_rise (entries_size entries.now) + trim_rise)) }
{
    let mut engine = catch_up(alloc, disk, log, meta, state, core, running, most, entries)?;
    trim_opened(&mut engine, disk)?;
    Ok(engine)
}

/// Brings stores together as they were opened: the log's entries above the map's mark are applied, and where the core
/// does not lead and the log is too long it is purged up to its last entry, which moves nothing that the files stand
/// for. A lease is configured where the state machine has one. Where log and map disagree; where none is configured
/// and a key has an expiry, or an entry to apply a time to live; and where no term or index is left, it refuses, in
/// this order, with nothing written. The state machine runs then.
pub fn recover<D: Disk, G: LogStore<D>, T: MetaStore<D>, M: StateMachine<D>, K: Core<D>>(
    alloc: Global,
    disk: &mut D,
    log: G,
    meta: T,
    state: M,
    core: K,
    config: &RaftNodeConfig,
) -> Result<Engine<G, T, M, K>, Error>
    requires log_ready { (G.shown log).ready }
    requires meta_ready { (T.shown meta).ready }
    requires state_ready { (M.shown state).ready }
    requires rests { IsTrue (D.kind disk.old).tells → AllRest ((G.shown log).rests (D.content disk.old)) ((T.shown meta).rests (D.content disk.old)) (AtRest (M.shown state) (M.map state) (D.content disk.old)) }
    ensures disk { DiskGoesOn D.kind D.moment D.images D.faults disk.old disk.new }
    ensures snapshot { IsTrue (D.kind disk.old).tells → SparesFamily snapshot_family D.content D.moment D.images disk.old disk.new }
    ensures survives { (kept : Durable) → IsTrue (D.kind disk.old).tells → ⟦<Engine<G, T, M, K> as Stepper<D>>⟧.says.told → durable (G.shown log).value (T.shown meta).value (M.map state) ≡ Some kept
        → Survives ⟦<Engine<G, T, M, K> as Stepper<D>>⟧.says.holds (D.images disk.new) (D.moment disk.old) (D.moment disk.new) []
        (record { durable = kept; running = running_under config.now (K.view core) (M.settings state).leased }) [] }
    ensures opened { IfOk result (λ engine. durable (G.shown log).value (T.shown meta).value (M.map state) ≡ Some (⟦<Engine<G, T, M, K> as Stepper<D>>⟧.seen engine).kv.durable) }
    ensures started { IfOk result (λ engine. (M.settings engine.state).running ≡ true) }
    ensures running { IfOk result (λ engine. (⟦<Engine<G, T, M, K> as Stepper<D>>⟧.seen engine).kv.running ≡ running_under config.now (K.view core) (M.settings state).leased) }
    ensures log { IfOk result (λ engine. (⟦<Engine<G, T, M, K> as Stepper<D>>⟧.seen engine).log ≡ opened_log (K.view core).role config.now.raft.max_log_entries (G.shown log).value) }
    ensures purged { IfOk result (λ engine. IsPurgedUpTo (⟦<Engine<G, T, M, K> as Stepper<D>>⟧.seen engine).kv.durable.last_index (G.shown log).value (⟦<Engine<G, T, M, K> as Stepper<D>>⟧.seen engine).log) }
    ensures short { IfOk result (λ engine. is_leader (K.view core).role ≡ false → LogIsShort (⟦<Engine<G, T, M, K> as Stepper<D>>⟧.seen engine)) }
    ensures waits { IfOk result (λ engine. (⟦<Engine<G, T, M, K> as Stepper<D>>⟧.seen engine).waits ≡ nobody config.now.raft.watch.watcher_buffer_size config.now.raft.watch.max_watcher_count) }
    ensures most { IfOk result (λ engine. (⟦<Engine<G, T, M, K> as Stepper<D>>⟧.seen engine).most ≡ config.now.raft.max_log_entries) }
    ensures ready { IfOk result (λ engine. (⟦<Engine<G, T, M, K> as Stepper<D>>⟧.seen engine).ready) }
    ensures rests { IfOk result (λ engine. IsTrue (D.kind disk.old).tells → (⟦<Engine<G, T, M, K> as Stepper<D>>⟧.seen engine).rests (D.content disk.new)) }
    ensures term { IfOk result (λ engine. (⟦<Engine<G, T, M, K> as Stepper<D>>⟧.seen engine).kv.durable.term < 2 ^ 64 - 1) }
    ensures index { IfOk result (λ engine. (⟦<Engine<G, T, M, K> as Stepper<D>>⟧.seen engine).kv.durable.last_index < 2 ^ 64 - 1) }
    ensures weight { IfOk result (λ engine. (⟦<Engine<G, T, M, K> as Stepper<D>>⟧.seen engine).weight
        ≤ (G.shown log).weight + (T.shown meta).weight + (M.shown state).weight + store_rise (entries_size (above (M.map state).mark.index (G.shown log).value.entries)) + trim_rise) }
    ensures unrefused { OnOk result (opening_refusal (M.settings state).leased (G.place log) (G.shown log).value (T.shown meta).value (M.map state) ≡ None) }
    ensures refused { IfErr result (λ e. IsOpeningFailure (Rose (D.faults disk.old) (D.faults disk.new)) (D.kind disk.old).limit
        (opening_refusal (M.settings state).leased (G.place log) (G.shown log).value (T.shown meta).value (M.map state)) e) }
    ensures full { IfErr result (IsFullBy (IsTrue (D.kind disk.old).tells × ⟦<Engine<G, T, M, K> as Stepper<D>>⟧.says.told)
        (λ needed. IsSlotTooShort (opened_sizes (K.view core).role config.now.raft.max_log_entries (G.shown log).value (M.map state) (above (M.map state).mark.index (G.shown log).value.entries))
        ((G.shown log).weight + (T.shown meta).weight + (M.shown state).weight + store_rise (entries_size (above (M.map state).mark.index (G.shown log).value.entries)) + trim_rise) needed (D.content disk.new).reading)
        (D.kind disk.old).limit ((G.shown log).weight + (T.shown meta).weight + (M.shown state).weight + store_rise (entries_size (above (M.map state).mark.index (G.shown log).value.entries)) + trim_rise)) }
    ensures untouched { IsSome (opening_refusal (M.settings state).leased (G.place log) (G.shown log).value (T.shown meta).value (M.map state)) → disk.new ≡ disk.old }
{
    let mark = state.last_applied().index;
    let found = entries_above::<D, G>(&log, mark)?;
    let entries = found.as_slice();
    let lacking = lacks_lease::<D, M>(&state, entries);
    if let Some(refused) = refusal::<D, G, T>(&log, &meta, mark, entries, lacking) {
        return Err(refused);
    }
    let running = running_under::<D, K>(alloc, config, &core, state.has_lease())?;
    let most = config.raft.max_log_entries;
    bring_together(alloc, disk, log, meta, state, core, running, most, entries)
}
