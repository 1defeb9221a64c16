//! The stores of a folder, opened.
ghost use Rattle.std.specs.Prelude.{◌≡◌, ◌<◌, ◌≤◌, ◌+◌, ◌*◌, ◌-◌, ◌^◌, [], Some, None, Ok, IsTrue, IsOk, IfOk, IfErr, IfSome, is_some, true};
ghost use Rattle.den_disk.specs.declared.place.Family.TheVariants.{Log as log_family};
ghost use Rattle.den_disk.specs.Place.{place_number};
ghost use Rattle.den_disk.specs.Goes.{Rose, DiskGoesOn};
ghost use Rattle.den_disk.specs.declared.place.Family.TheVariants.{Snapshot as snapshot_family};
ghost use Rattle.den_core.specs.Spared.{SparesFamily};
ghost use Rattle.den_disk.specs.Families.{NoNewImages, SparesAll};
ghost use Rattle.den_model.specs.Image.{durable_in, log_in, slot_of};
ghost use Rattle.den_model.specs.Kv.{Durable};
ghost use Rattle.den_model.specs.Step.{leads};
ghost use Rattle.den_model.specs.Sizes.{entries_size, files_size};
ghost use Rattle.den_codec.specs.declared.error.Error.{Error};
ghost use Rattle.den_codec.specs.declared.error.Error.TheVariants.{OutOfMemory};
ghost use Rattle.den_codec.specs.Standard.{entered};
ghost use Rattle.den_store.specs.FileLog.{log_shown, file_place};
ghost use Rattle.den_store.specs.FileMeta.{meta_shown};
ghost use Rattle.den_state.specs.FileState.{state_map, state_settings, state_shown};
ghost use Rattle.den_core.specs.Cores.{solo_view};
ghost use Rattle.den_state.specs.Machine.{AtRest};
ghost use Rattle.den_core.specs.Parts.{AllRest};
ghost use Rattle.den_server.specs.Causes.{IsCatchUpTooShort, IsRunRefusal, IsUnreadFolder};
ghost use Rattle.den_server.specs.Folder.{Gives, Reads};
ghost use Rattle.den_server.specs.Opening.{refusal_in, AllReady, IsRead, IsUnwritten, Settles, SurvivesOpening, held_weight, opened_weight};

use den_codec::{Error, Label, NodeMeta, RaftNodeConfig};
use den_core::{Engine, SoloCore, Stepper, copy_node, recover};
use den_disk::Disk;
use den_lease::DefaultLease;
use den_state::FileStateMachine;
use den_store::{FileLogStore, FileMetaStore, FileStorageEngine, StorageEngine};
use std::alloc::Global;

/// An engine over the files of a folder.
pub type FolderEngine = Engine<FileLogStore, FileMetaStore, FileStateMachine, SoloCore>;

/// The configured node that this one is.
fn own_node(alloc: Global, config: &RaftNodeConfig) -> Result<NodeMeta, Error>
    ensures own { IfOk result (λ node. node.id ≡ config.now.cluster.node_id) }
    ensures refused { IfErr result (λ e. e ≡ OutOfMemory) }
{
    for node in config.cluster.initial_cluster.as_slice() {
        if node.id == config.cluster.node_id {
            return Ok(copy_node(alloc, node)?);
        }
    }
    unreachable!()
}

/// A lease without a key, where one is configured.
fn lease_of(alloc: Global, config: &RaftNodeConfig) -> Option<DefaultLease>
    ensures leased { is_some result ≡ config.now.raft.lease.enabled }
    ensures empty { IfSome result (λ l. l.map ≡ []) }
{
    if config.raft.lease.enabled {
        return Some(DefaultLease::new(alloc, config.raft.lease));
    }
    None
}

// What an opening takes of a configuration.
#[derive(Drop)]
struct Prepared {
    core: SoloCore,
    data_dir: Label,
    lease: Option<DefaultLease>,
}

fn prepare(alloc: Global, config: &RaftNodeConfig) -> Result<Prepared, Error>
    ensures core { IfOk result (λ p. solo_view p.core.node.id p.core.term ≡ solo_view config.now.cluster.node_id 0) }
    ensures leased { IfOk result (λ p. is_some p.lease ≡ config.now.raft.lease.enabled) }
    ensures empty { IfOk result (λ p. IfSome p.lease (λ l. l.map ≡ [])) }
    ensures refused { IfErr result (λ e. e ≡ OutOfMemory) }
{
    let node = own_node(alloc, config)?;
    let data_dir = Label::of(alloc, config.cluster.db_root_dir.as_str())?;
    Ok(Prepared {
        core: SoloCore::new(node),
        data_dir,
        lease: lease_of(alloc, config),
    })
}

// Log, hard state and map, as the files of a folder gave them.
#[derive(Drop)]
struct Stores {
    log: FileLogStore,
    meta: FileMetaStore,
    state: FileStateMachine,
}

fn stores_of<D: Disk>(storage: FileStorageEngine, state: FileStateMachine) -> Stores
    ensures { result ≡ record { log = storage.log; meta = storage.meta; state = state } }
{
    let (log, meta) = StorageEngine::<D>::split(storage);
    Stores { log, meta, state }
}

// Opens log, hard state and map, in this order. Nothing is written.
fn open_stores<D: Disk>(
    alloc: Global,
    disk: &mut D,
    data_dir: Label,
    lease: Option<DefaultLease>,
) -> Result<Stores, Error>
    requires empty { IfSome lease (λ l. l.map ≡ []) }
    ensures disk { DiskGoesOn D.kind D.moment D.images D.faults disk.old disk.new }
    ensures images { IsTrue (D.kind disk.old).tells → NoNewImages (D.images disk.old) (D.images disk.new) (D.moment disk.old) (D.moment disk.new) }
    ensures spares { IsTrue (D.kind disk.old).tells → SparesAll (D.content disk.old) (D.content disk.new) }
    ensures settles { IsTrue (D.kind disk.old).tells → Settles (D.images disk.new) (D.moment disk.old) (D.moment disk.new) (IsOk result)
        (D.content disk.new ≡ D.content disk.old) (D.content disk.old).reading }
    ensures read { IfOk result (λ s. IsTrue (D.kind disk.old).tells → IsRead (D.content disk.old).reading (log_shown s.log).value (meta_shown s.meta).value (state_map s.state)) }
    ensures place { IfOk result (λ s. IsTrue (D.kind disk.old).tells → file_place s.log ≡ place_number (slot_of log_family (D.content disk.old).reading)) }
    ensures weight { IfOk result (λ s. IsTrue (D.kind disk.old).tells → held_weight s.log s.meta s.state ≤ 768 + 4 * files_size (D.content disk.old).reading) }
    ensures entries { IfOk result (λ s. IsTrue (D.kind disk.old).tells → entries_size (log_shown s.log).value.entries ≤ files_size (D.content disk.old).reading) }
    ensures leased { IfOk result (λ s. (state_settings s.state).leased ≡ is_some lease) }
    ensures ready { IfOk result (λ s. AllReady (log_shown s.log).ready (meta_shown s.meta).ready (state_shown s.state).ready) }
    ensures rests { IfOk result (λ s. IsTrue (D.kind disk.old).tells → AllRest ((log_shown s.log).rests (D.content disk.new)) ((meta_shown s.meta).rests (D.content disk.new)) (AtRest (state_shown s.state) (state_map s.state) (D.content disk.new))) }
    ensures refused { IfErr result (IsUnreadFolder (Rose (D.faults disk.old) (D.faults disk.new)) (IsTrue (D.kind disk.old).tells) (refusal_in (is_some lease) (D.content disk.old).reading)) }
{
    let storage = match FileStorageEngine::new(alloc, data_dir, disk) {
        Ok(storage) => storage,
        Err(error) => return Err(error),
    };
    match FileStateMachine::new(alloc, disk, lease) {
        Ok(state) => Ok(stores_of::<D>(storage, state)),
        Err(error) => Err(error),
    }
}

/// The stores of a folder as its files gave them, and a core that leads alone.
#[derive(Drop)]
pub struct FolderParts {
    pub log: FileLogStore,
    pub meta: FileMetaStore,
    pub state: FileStateMachine,
    pub core: SoloCore,
}

/// Opens log, hard state and map of a folder, in this order, for an engine of one's own. Nothing is written. `DataCorruption` where
/// a file cannot be right, `StorageIoError` where the disk's count of faults rose; else memory is wanting.
pub fn open_parts<D: Disk>(
    alloc: Global,
    disk: &mut D,
    config: &RaftNodeConfig,
) -> Result<FolderParts, Error>
    ensures reads { Reads D.Disk disk.old disk.new (IsOk result) }
    ensures gives { IfOk result (Gives D.Disk disk.old disk.new config.now) }
    ensures refused { IfErr result (IsUnreadFolder (Rose (D.faults disk.old) (D.faults disk.new)) (IsTrue (D.kind disk.old).tells) (refusal_in config.now.raft.lease.enabled (D.content disk.old).reading)) }
{
    let prepared = match prepare(alloc, config) {
        Ok(prepared) => prepared,
        Err(error) => return Err(error),
    };
    let stores = match open_stores(alloc, disk, prepared.data_dir, prepared.lease) {
        Ok(stores) => stores,
        Err(error) => return Err(error),
    };
    Ok(FolderParts {
        log: stores.log,
        meta: stores.meta,
        state: stores.state,
        core: prepared.core,
    })
}

/// Opens log, hard state and map of a folder, in this order, and brings them together. Files that stand for nothing, and
/// those that ask for a lease or leave no term or index, are refused, with nothing written.
pub fn open_folder<D: Disk>(
    alloc: Global,
    disk: &mut D,
    config: &RaftNodeConfig,
) -> Result<FolderEngine, Error>
    ensures disk { DiskGoesOn D.kind D.moment D.images D.faults disk.old disk.new }
    ensures opening { (kept : Durable) → IsTrue (D.kind disk.old).tells → durable_in (D.content disk.old).reading ≡ Some kept
        → SurvivesOpening durable_in (D.images disk.old) (D.images disk.new) (D.moment disk.old) (D.moment disk.new) (IsOk result)
        (D.content disk.new ≡ D.content disk.old) [] (entered config.now kept) [] }
    ensures kv { IfOk result (λ engine. (kept : Durable) → IsTrue (D.kind disk.old).tells → durable_in (D.content disk.old).reading ≡ Some kept
        → (⟦<Engine<FileLogStore, FileMetaStore, FileStateMachine, SoloCore> as Stepper<D>>⟧.seen engine).kv ≡ entered config.now kept) }
    ensures log { IfOk result (λ engine. IsTrue (D.kind disk.old).tells
        → log_in (D.content disk.old).reading ≡ Ok (⟦<Engine<FileLogStore, FileMetaStore, FileStateMachine, SoloCore> as Stepper<D>>⟧.seen engine).log) }
    ensures most { IfOk result (λ engine. (⟦<Engine<FileLogStore, FileMetaStore, FileStateMachine, SoloCore> as Stepper<D>>⟧.seen engine).most ≡ config.now.raft.max_log_entries) }
    ensures leads { IfOk result (λ engine. leads (⟦<Engine<FileLogStore, FileMetaStore, FileStateMachine, SoloCore> as Stepper<D>>⟧.seen engine).kv ≡ true) }
    ensures term { IfOk result (λ engine. (⟦<Engine<FileLogStore, FileMetaStore, FileStateMachine, SoloCore> as Stepper<D>>⟧.seen engine).kv.durable.term < 2 ^ 64 - 1) }
    ensures index { IfOk result (λ engine. (⟦<Engine<FileLogStore, FileMetaStore, FileStateMachine, SoloCore> as Stepper<D>>⟧.seen engine).kv.durable.last_index < 2 ^ 64 - 1) }
    ensures weight { IfOk result (λ engine. IsTrue (D.kind disk.old).tells
        → (⟦<Engine<FileLogStore, FileMetaStore, FileStateMachine, SoloCore> as Stepper<D>>⟧.seen engine).weight ≤ opened_weight (files_size (D.content disk.old).reading)) }
    ensures ready { IfOk result (λ engine. (⟦<Engine<FileLogStore, FileMetaStore, FileStateMachine, SoloCore> as Stepper<D>>⟧.seen engine).ready) }
    ensures rests { IfOk result (λ engine. IsTrue (D.kind disk.old).tells → (⟦<Engine<FileLogStore, FileMetaStore, FileStateMachine, SoloCore> as Stepper<D>>⟧.seen engine).rests (D.content disk.new)) }
    ensures snapshot { IsTrue (D.kind disk.old).tells → SparesFamily snapshot_family D.content D.moment D.images disk.old disk.new }
    ensures accepted { IfOk result (λ engine. IsTrue (D.kind disk.old).tells → refusal_in config.now.raft.lease.enabled (D.content disk.old).reading ≡ None) }
    ensures refused { IfErr result (IsRunRefusal (Rose (D.faults disk.old) (D.faults disk.new)) ⊥ (IsTrue (D.kind disk.old).tells) (refusal_in config.now.raft.lease.enabled (D.content disk.old).reading)
        (λ most needed. IsCatchUpTooShort (D.content disk.old).reading most needed (D.content disk.new).reading) (D.kind disk.old).limit (files_size (D.content disk.old).reading) 0) }
    ensures untouched { (e : Error) → IsTrue (D.kind disk.old).tells → refusal_in config.now.raft.lease.enabled (D.content disk.old).reading ≡ Some e
        → IsUnwritten (D.content disk.old) (D.content disk.new) (NoNewImages (D.images disk.old) (D.images disk.new) (D.moment disk.old) (D.moment disk.new)) }
{
    let parts = match open_parts(alloc, disk, config) {
        Ok(parts) => parts,
        Err(error) => return Err(error),
    };
    recover(
        alloc,
        disk,
        parts.log,
        parts.meta,
        parts.state,
        parts.core,
        config,
    )
}
