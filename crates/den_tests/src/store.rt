//! The stores of the log and of the hard state: a log from its bytes, edits of it, and what stands behind an opening.
ghost use Rattle.std.specs.Prelude.{◌≡◌, ◌<◌, ◌+◌, true, IsTrue, IfSome, OnOk};
ghost use Rattle.den_model.specs.Entries.{rise_from};
ghost use Rattle.den_model.specs.Log.{floor};
ghost use Rattle.den_journal.specs.Writes.{StoreStands};

use crate::turn::{IN_A, IN_B, Turn, holds_turn};
use den_codec::{Command, Entry, HardState, Label, LogId, VotedFor};
use den_disk::{Disk, Family, MemDisk, Part, Place};
use den_model::rise_from;
use den_store::{
    FileLogStore, FileMetaStore, FileStorageEngine, LogStore, MetaStore, StorageEngine,
};
use std::alloc::Global;
use std::test::Fail;

const NOOP_LOG: &[u8] =
    b"\x01\0\0\0\0\0\0\0\x22\x01\0\0\0\0\0\0\0\x01\0\0\0\0\0\0\0\x01\0\0\0\0\0\0\0\x01\0\0\0\0\0\0\x03\xe8\0\0";

// The same with its gate at no known byte.
const CLOSED_LOG: &[u8] =
    b"\x07\0\0\0\0\0\0\0\x22\x01\0\0\0\0\0\0\0\x01\0\0\0\0\0\0\0\x01\0\0\0\0\0\0\0\x01\0\0\0\0\0\0\x03\xe8\0\0";

const SLOT: Place = Place {
    family: Family::Log,
    part: Part::A,
};

const HEAD: Place = Place {
    family: Family::Log,
    part: Part::Head,
};

// Entries without effect at moment 1000, as pairs of an index and a term.
type Pairs = &'static [(u64, u64)];

#[derive(Clone, Copy, Debug)]
enum Edit {
    Persist(Pairs),
    Purge(LogId),
    Truncate(u64),
    Replace(u64, Pairs),
    Reset,
    Flush,
}

// What a log has: its boundary, its entries, those of them from 3 up to 6, and its last index.
#[derive(Clone, Copy)]
struct Has {
    boundary: Option<LogId>,
    pairs: Pairs,
    middle: Pairs,
    last: u64,
}

// There is no entry of index 0.
fn entry_of(pair: (u64, u64)) -> Entry {
    let index = if pair.0 == 0 { 1 } else { pair.0 };
    Entry::of(index, pair.1, 1000, Command::Noop)
}

fn entries_of(alloc: Global, pairs: Pairs) -> Result<Vec<Entry>, Fail> {
    let mut entries = Vec::new(alloc);
    for pair in pairs {
        entries.push(entry_of(*pair))?;
    }
    Ok(entries)
}

fn is_above<D: Disk, G: LogStore<D>>(log: &G, entries: &[Entry]) -> bool
    ensures { IsTrue result → rise_from (floor (G.shown log.now).value + 1) entries.now ≡ true }
{
    let floor = match log.load_purge_boundary() {
        None => 0,
        Some(boundary) => boundary.index,
    };
    floor < u64::MAX && rise_from(floor + 1, entries)
}

fn begins_above<D: Disk, G: LogStore<D>>(log: &G, from: u64) -> bool
    ensures { IsTrue result → IfSome (G.shown log.now).value.boundary (λ b. b.index < from) }
{
    match log.load_purge_boundary() {
        None => true,
        Some(boundary) => boundary.index < from,
    }
}

fn persist<D: Disk, G: LogStore<D>>(
    log: &mut G,
    disk: &mut D,
    entries: &[Entry],
) -> Result<(), Fail>
    requires stands { StoreStands D.Disk (G.shown log.old) disk.old }
    ensures stands { OnOk result (StoreStands D.Disk (G.shown log.new) disk.new) }
{
    if !is_above::<D, G>(log, entries) {
        return Err("entries at or below the boundary")?;
    }
    Ok(log.persist_entries(disk, entries)?)
}

fn replace<D: Disk, G: LogStore<D>>(
    log: &mut G,
    disk: &mut D,
    from: u64,
    entries: &[Entry],
) -> Result<(), Fail>
    requires stands { StoreStands D.Disk (G.shown log.old) disk.old }
    ensures stands { OnOk result (StoreStands D.Disk (G.shown log.new) disk.new) }
{
    if !begins_above::<D, G>(log, from) || !rise_from(from, entries) {
        return Err("no entries above the boundary")?;
    }
    Ok(log.replace_range(disk, from, entries)?)
}

// Makes one edit, which the log has to admit.
fn make<D: Disk, G: LogStore<D>>(
    log: &mut G,
    disk: &mut D,
    alloc: Global,
    edit: Edit,
) -> Result<(), Fail>
    requires stands { StoreStands D.Disk (G.shown log.old) disk.old }
    ensures stands { OnOk result (StoreStands D.Disk (G.shown log.new) disk.new) }
{
    match edit {
        Edit::Persist(pairs) => persist(log, disk, entries_of(alloc, pairs)?.as_slice()),
        Edit::Purge(cutoff) => Ok(log.purge(disk, cutoff)?),
        Edit::Truncate(from) => Ok(log.truncate(disk, from)?),
        Edit::Replace(from, pairs) => {
            replace(log, disk, from, entries_of(alloc, pairs)?.as_slice())
        }
        Edit::Reset => Ok(log.reset(disk)?),
        Edit::Flush => Ok(log.flush(disk)?),
    }
}

fn is_pair(entry: &Entry, pair: (u64, u64)) -> bool {
    let noop = matches!(entry.command(), Command::Noop);
    noop && entry.moment() == 1000 && entry.index() == pair.0 && entry.term() == pair.1
}

// Whether it lists these from one index up to another.
fn lists<D: Disk, G: LogStore<D>>(
    log: &G,
    first: u64,
    last: u64,
    pairs: Pairs,
) -> Result<bool, Fail> {
    let entries = log.get_entries(first, last)?;
    let mut same = entries.as_slice().len() == pairs.len();
    for (entry, pair) in entries.as_slice().iter().zip(pairs) {
        same = same && is_pair(entry, *pair);
    }
    Ok(same)
}

fn finds<D: Disk, G: LogStore<D>>(log: &G, pair: (u64, u64)) -> Result<bool, Fail> {
    match log.entry(pair.0)? {
        None => Ok(false),
        Some(entry) => Ok(is_pair(&entry, pair)),
    }
}

// Whether it has an entry of each of these indices, and none of index 8.
fn finds_all<D: Disk, G: LogStore<D>>(log: &G, pairs: Pairs) -> Result<bool, Fail> {
    let mut found = log.entry(8)?.is_none();
    for pair in pairs {
        found = found && finds::<D, G>(log, *pair)?;
    }
    Ok(found)
}

fn answers<D: Disk, G: LogStore<D>>(log: &G, has: Has) -> Result<bool, Fail> {
    let ends = log.last_index() == has.last && log.load_purge_boundary() == has.boundary;
    Ok(
        ends && lists::<D, G>(log, 0, u64::MAX, has.pairs)?
            && lists::<D, G>(log, 3, 6, has.middle)?
            && lists::<D, G>(log, 6, 3, &[])?
            && finds_all::<D, G>(log, has.pairs)?,
    )
}

// Whether the log of the disk has this.
fn opens_with<D: Disk>(alloc: Global, disk: &mut D, has: Has) -> Result<bool, Fail> {
    let log = FileLogStore::new(alloc, disk)?;
    answers::<D, _>(&log, has)
}

// Whether the log of the disk has this where it is edited twice.
fn edits<D: Disk>(alloc: Global, disk: &mut D, edits: [Edit; 2], has: Has) -> Result<bool, Fail> {
    let mut log = FileLogStore::new(alloc, disk)?;
    make(&mut log, disk, alloc, edits[0])?;
    make(&mut log, disk, alloc, edits[1])?;
    answers::<D, _>(&log, has)
}

const NOTHING: Has = Has {
    boundary: None,
    pairs: &[],
    middle: &[],
    last: 0,
};

const NOOP: Has = Has {
    pairs: &[(1, 1)],
    last: 1,
    ..NOTHING
};

fn opens_slot(alloc: Global, slot: &[u8], has: Has) -> Result<bool, Fail> {
    let mut disk = MemDisk::new(alloc);
    disk.set(SLOT, slot)?;
    disk.set(HEAD, &[9])?;
    opens_with(alloc, &mut disk, has)
}

#[test]
fn opens_a_log(rt: HostRuntime) -> Result<(), Fail> {
    assert!(rt; opens_slot(rt.alloc(), NOOP_LOG, NOOP)?);
    assert!(rt; opens_slot(rt.alloc(), CLOSED_LOG, NOTHING)?);
    Ok(())
}

// Each row begins with what the one before it left.
const ROWS: [([Edit; 2], Has); 10] = [
    (
        [
            Edit::Persist(&[]),
            Edit::Persist(&[(1, 1), (2, 1), (3, 1), (4, 1), (5, 1)]),
        ],
        Has {
            boundary: None,
            pairs: &[(1, 1), (2, 1), (3, 1), (4, 1), (5, 1)],
            middle: &[(3, 1), (4, 1), (5, 1)],
            last: 5,
        },
    ),
    (
        [Edit::Truncate(9), Edit::Replace(3, &[(3, 2), (4, 2)])],
        Has {
            boundary: None,
            pairs: &[(1, 1), (2, 1), (3, 2), (4, 2)],
            middle: &[(3, 2), (4, 2)],
            last: 4,
        },
    ),
    (
        [Edit::Truncate(4), Edit::Persist(&[(6, 3), (9, 3)])],
        Has {
            boundary: None,
            pairs: &[(1, 1), (2, 1), (3, 2), (6, 3), (9, 3)],
            middle: &[(3, 2), (6, 3)],
            last: 9,
        },
    ),
    (
        [
            Edit::Purge(LogId { index: 2, term: 1 }),
            Edit::Purge(LogId { index: 1, term: 1 }),
        ],
        Has {
            boundary: Some(LogId { index: 2, term: 1 }),
            pairs: &[(3, 2), (6, 3), (9, 3)],
            middle: &[(3, 2), (6, 3)],
            last: 9,
        },
    ),
    (
        [Edit::Persist(&[(6, 4)]), Edit::Replace(5, &[(7, 4)])],
        Has {
            boundary: Some(LogId { index: 2, term: 1 }),
            pairs: &[(3, 2), (7, 4)],
            middle: &[(3, 2)],
            last: 7,
        },
    ),
    (
        [Edit::Purge(LogId { index: 4, term: 2 }), Edit::Truncate(1)],
        Has {
            boundary: Some(LogId { index: 4, term: 2 }),
            pairs: &[],
            middle: &[],
            last: 4,
        },
    ),
    (
        [
            Edit::Persist(&[(5, 5), (6, 5)]),
            Edit::Purge(LogId { index: 9, term: 5 }),
        ],
        Has {
            boundary: Some(LogId { index: 9, term: 5 }),
            pairs: &[],
            middle: &[],
            last: 9,
        },
    ),
    ([Edit::Persist(&[(10, 6)]), Edit::Reset], NOTHING),
    (
        [
            Edit::Purge(LogId { index: 0, term: 7 }),
            Edit::Persist(&[(3, 1), (5, 1)]),
        ],
        Has {
            boundary: None,
            pairs: &[(3, 1), (5, 1)],
            middle: &[(3, 1), (5, 1)],
            last: 5,
        },
    ),
    (
        [Edit::Flush, Edit::Purge(LogId { index: 4, term: 1 })],
        Has {
            boundary: Some(LogId { index: 4, term: 1 }),
            pairs: &[(5, 1)],
            middle: &[(5, 1)],
            last: 5,
        },
    ),
];

#[test]
fn edits_a_log(rt: HostRuntime) -> Result<(), Fail> {
    let mut disk = MemDisk::new(rt.alloc());
    for (both, has) in ROWS {
        let right = edits(rt.alloc(), &mut disk, both, has)?;
        assert!(rt; right, "after {both:?}");
        let right = opens_with(rt.alloc(), &mut disk, has)?;
        assert!(rt; right, "opened after {both:?}");
    }
    Ok(())
}

// The last calls of a log.
fn end<D: Disk, G: LogStore<D>>(mut log: G, disk: &mut D) -> Result<(), Fail>
    requires stands { StoreStands D.Disk (G.shown log) disk.old }
{
    log.flush(disk)?;
    Ok(log.close(disk)?)
}

fn save<D: Disk, T: MetaStore<D>>(meta: &mut T, disk: &mut D, state: &HardState) -> Result<(), Fail>
    requires stands { StoreStands D.Disk (T.shown meta.old) disk.old }
{
    meta.save_hard_state(disk, state)?;
    Ok(meta.flush(disk)?)
}

fn saves<D: Disk>(alloc: Global, disk: &mut D, state: &HardState) -> Result<(), Fail> {
    let mut meta = FileMetaStore::new(alloc, disk)?;
    save(&mut meta, disk, state)
}

fn ends<D: Disk>(alloc: Global, disk: &mut D) -> Result<(), Fail> {
    let log = FileLogStore::new(alloc, disk)?;
    end(log, disk)
}

// Whether these are its log and its hard state, lent and split.
fn holds<D: Disk, S: StorageEngine<D>>(
    mut engine: S,
    has: Has,
    state: Option<HardState>,
) -> Result<bool, Fail> {
    let meta = engine.meta_store().load_hard_state() == state;
    let log = answers::<D, S::Log>(engine.log_store(), has)?;
    let (split_log, split_meta) = engine.split();
    let again = answers::<D, S::Log>(&split_log, has)?;
    Ok(meta && log && again && split_meta.load_hard_state() == state)
}

fn opens_both<D: Disk>(
    alloc: Global,
    disk: &mut D,
    has: Has,
    state: Option<HardState>,
) -> Result<bool, Fail> {
    let engine = FileStorageEngine::new(alloc, Label::of(alloc, "data")?, disk)?;
    let named = engine.data_dir().as_str() == "data";
    Ok(named && holds::<D, _>(engine, has, state)?)
}

#[test]
fn opens_both_stores(rt: HostRuntime) -> Result<(), Fail> {
    let mut disk = MemDisk::new(rt.alloc());
    let state = HardState {
        current_term: 3,
        voted_for: Some(VotedFor { id: 1, term: 3 }),
    };
    assert!(rt; opens_both(rt.alloc(), &mut disk, NOTHING, None)?);
    saves(rt.alloc(), &mut disk, &state)?;
    let (both, has) = ROWS[0];
    assert!(rt; edits(rt.alloc(), &mut disk, both, has)?);
    ends(rt.alloc(), &mut disk)?;
    assert!(rt; opens_both(rt.alloc(), &mut disk, has, Some(state))?);
    Ok(())
}

// A log of the entries 1, 2 and 3, purged up to 2: slot b has the purge and an append of entry 3. Then up to 3: slot a has
// the purge alone.
const PURGED: Turn = Turn {
    regions: &[
        b"\x01\0\0\0\0\0\0\0\x11\x03\0\0\0\0\0\0\0\x02\0\0\0\0\0\0\0\x01",
        b"\x01\0\0\0\0\0\0\0\x22\x01\0\0\0\0\0\0\0\x01\0\0\0\0\0\0\0\x03\0\0\0\0\0\0\0\x01\0\0\0\0\0\0\x03\xe8\0",
    ],
    ..IN_B
};

const PURGED_AGAIN: Turn = Turn {
    regions: &[b"\x01\0\0\0\0\0\0\0\x11\x03\0\0\0\0\0\0\0\x03\0\0\0\0\0\0\0\x01"],
    ..IN_A
};

// Makes one edit of the log that the disk has.
fn edits_once<D: Disk>(alloc: Global, disk: &mut D, edit: Edit) -> Result<(), Fail> {
    let mut log = FileLogStore::new(alloc, disk)?;
    make(&mut log, disk, alloc, edit)
}

fn purges_to(alloc: Global, disk: &mut MemDisk, index: u64, turn: Turn) -> Result<bool, Fail> {
    edits_once(alloc, disk, Edit::Purge(LogId { index, term: 1 }))?;
    Ok(holds_turn(disk, Family::Log, turn))
}

#[test]
fn purges_into_the_other_slot(rt: HostRuntime) -> Result<(), Fail> {
    let mut disk = MemDisk::new(rt.alloc());
    edits_once(
        rt.alloc(),
        &mut disk,
        Edit::Persist(&[(1, 1), (2, 1), (3, 1)]),
    )?;
    assert!(rt; purges_to(rt.alloc(), &mut disk, 2, PURGED)?);
    assert!(rt; purges_to(rt.alloc(), &mut disk, 3, PURGED_AGAIN)?);
    Ok(())
}

// The hard state of term 3 with a vote, and then of term 4 without one.
const VOTED: Turn = Turn {
    regions: &[b"\x01\0\0\0\0\0\0\0\x15\0\0\0\0\0\0\0\x03\x01\0\0\0\x01\0\0\0\0\0\0\0\x03"],
    ..IN_B
};

const NOT_VOTED: Turn = Turn {
    regions: &[b"\x01\0\0\0\0\0\0\0\x09\0\0\0\0\0\0\0\x04\0"],
    ..IN_A
};

fn saves_to(
    alloc: Global,
    disk: &mut MemDisk,
    current_term: u64,
    voted_for: Option<VotedFor>,
    turn: Turn,
) -> Result<bool, Fail> {
    let state = HardState {
        current_term,
        voted_for,
    };
    saves(alloc, disk, &state)?;
    Ok(holds_turn(disk, Family::Meta, turn))
}

#[test]
fn saves_into_the_other_slot(rt: HostRuntime) -> Result<(), Fail> {
    let mut disk = MemDisk::new(rt.alloc());
    let vote = VotedFor { id: 1, term: 3 };
    assert!(rt; saves_to(rt.alloc(), &mut disk, 3, Some(vote), VOTED)?);
    assert!(rt; saves_to(rt.alloc(), &mut disk, 4, None, NOT_VOTED)?);
    Ok(())
}
