//! The state machine: worked rows of swaps, refusals, marks, a scan, leases, a reset and the bytes of regions, and
//! random work with stops in its midst beside a plain list of rows.
ghost use Rattle.std.specs.Prelude.{◌≡◌, [], IfSome, OnOk};
ghost use Rattle.den_journal.specs.Writes.{StoreStands};

use den_codec::{
    ApplyResult, Blob, Command, Entry, Error, KvEntry, LeaseConfig, LogId, Rows, ScanResult,
};
use den_disk::{Disk, Family, MemDisk, Part, Place};
use den_lease::DefaultLease;
use den_state::{FileStateMachine, SnapshotMetadata, StateMachine};
use std::alloc::Global;
use std::test::Fail;

const CONFIG: LeaseConfig = LeaseConfig {
    enabled: true,
    cleanup_interval_ms: 1000,
    max_cleanup_duration_ms: 0,
};

const KEYS: &[u8] = b"abcde";

const FIRST_KEY: u8 = b'a';

const NO_MARK: LogId = LogId { index: 0, term: 0 };

const MARK: LogId = LogId { index: 5, term: 2 };

const SLOT: Place = Place {
    family: Family::State,
    part: Part::A,
};

const OTHER_SLOT: Place = Place {
    family: Family::State,
    part: Part::B,
};

// A region of one Noop of index 1 and term 1. Its record has 41 bytes: index, term, opcode, key, value and expiry.
const NOOP_REGION: &[u8] =
    b"\x01\0\0\0\0\0\0\0\x32\x03\0\0\0\0\0\0\0\x01\0\0\0\0\0\0\0\x01\0\0\0\0\0\0\0\x01\0\0\0\0\0\0\0\0\0\0\0\0\0\0\0\0\0\0\0\0\0\0\0\0\0";

// A region of one Insert of index 2 and term 1, of b at the key a: a record of 43 bytes.
const INSERT_REGION: &[u8] =
    b"\x01\0\0\0\0\0\0\0\x34\x03\0\0\0\0\0\0\0\x01\0\0\0\0\0\0\0\x02\0\0\0\0\0\0\0\x01\x01\0\0\0\0\0\0\0\x01a\0\0\0\0\0\0\0\x01b\0\0\0\0\0\0\0\0";

// A region of one Insert of index 1 and term 1, of b at the key a until 2000, and one of the cleanup at 2000.
const EXPIRING_REGION: &[u8] =
    b"\x01\0\0\0\0\0\0\0\x34\x03\0\0\0\0\0\0\0\x01\0\0\0\0\0\0\0\x01\0\0\0\0\0\0\0\x01\x01\0\0\0\0\0\0\0\x01a\0\0\0\0\0\0\0\x01b\0\0\0\0\0\0\x07\xd0";

const CLEANUP_REGION: &[u8] =
    b"\x01\0\0\0\0\0\0\0\x32\x03\0\0\0\0\0\0\0\x01\0\0\0\0\0\0\0\0\0\0\0\0\0\0\0\0\x06\0\0\0\0\0\0\0\0\0\0\0\0\0\0\0\0\0\0\0\0\0\0\x07\xd0";

// A region that moves the mark to index 5 and term 2.
const MARK_REGION: &[u8] = b"\x01\0\0\0\0\0\0\0\x11\x04\0\0\0\0\0\0\0\x05\0\0\0\0\0\0\0\x02";

// A region that begins with the mark of index 999 and term 1, and one of c at the key b, of term 1 and without expiry.
const BEGIN_REGION: &[u8] = b"\x01\0\0\0\0\0\0\0\x11\x01\0\0\0\0\0\0\x03\xe7\0\0\0\0\0\0\0\x01";

const PAIRS_REGION: &[u8] =
    b"\x01\0\0\0\0\0\0\0\x2b\x02\0\0\0\0\0\0\0\x01\0\0\0\0\0\0\0\x01b\0\0\0\0\0\0\0\x01c\0\0\0\0\0\0\0\x01\0\0\0\0\0\0\0\0";

// A region that begins with no entry.
const NOTHING_REGION: &[u8] = b"\x01\0\0\0\0\0\0\0\x11\x01\0\0\0\0\0\0\0\0\0\0\0\0\0\0\0\0";

// What an entry does, where keys and values are single bytes.
#[derive(Clone, Copy, Debug)]
pub(crate) enum Write {
    Noop,
    Insert(u8, u8),
    Expiring(u8, u8, u64),
    Delete(u8),
    Swap(u8, Option<u8>, u8),
}

// The mark of an index and of the term 1, and none at 0.
pub(crate) fn mark_of(index: u64) -> LogId {
    let term = if index == 0 { 0 } else { 1 };
    LogId { index, term }
}

fn keys_of(alloc: Global, bytes: &[u8]) -> Result<Rows<Blob>, Error> {
    let mut keys = Vec::new(alloc);
    for byte in bytes {
        keys.push(blob(alloc, *byte)?)?;
    }
    Ok(Rows::of(keys))
}

fn blob(alloc: Global, byte: u8) -> Result<Blob, Error> {
    Ok(Blob::of(alloc, &[byte])?)
}

fn expected_of(alloc: Global, byte: Option<u8>) -> Result<Option<Blob>, Error> {
    match byte {
        None => Ok(None),
        Some(byte) => Ok(Some(blob(alloc, byte)?)),
    }
}

fn command_of(alloc: Global, write: Write) -> Result<Command, Error> {
    Ok(match write {
        Write::Noop => Command::Noop,
        Write::Insert(key, value) => Command::Insert {
            key: blob(alloc, key)?,
            value: blob(alloc, value)?,
            ttl_secs: None,
        },
        Write::Expiring(key, value, ttl_secs) => Command::Insert {
            key: blob(alloc, key)?,
            value: blob(alloc, value)?,
            ttl_secs: Some(ttl_secs),
        },
        Write::Delete(key) => Command::Delete {
            key: blob(alloc, key)?,
        },
        Write::Swap(key, expected, value) => Command::CompareAndSwap {
            key: blob(alloc, key)?,
            expected: expected_of(alloc, expected)?,
            value: blob(alloc, value)?,
        },
    })
}

// Entries of term 1, each at a thousand times its index. There is none of index 0.
fn entries_of(alloc: Global, writes: &[(u64, Write)]) -> Result<Vec<Entry>, Error> {
    let mut entries = Vec::new(alloc);
    for (index, write) in writes {
        let index = if *index == 0 { 1 } else { *index };
        let moment = index.saturating_mul(1000);
        entries.push(Entry::of(index, 1, moment, command_of(alloc, *write)?))?;
    }
    Ok(entries)
}

// Puts of term 1, the first of index 1.
fn puts_of(alloc: Global, pairs: &[(&str, &str)]) -> Result<Vec<Entry>, Error> {
    let mut entries = Vec::new(alloc);
    for (place, (key, value)) in pairs.iter().enumerate() {
        let command = Command::Insert {
            key: Blob::of(alloc, key.as_bytes())?,
            value: Blob::of(alloc, value.as_bytes())?,
            ttl_secs: None,
        };
        entries.push(Entry::of(place as u64 + 1, 1, 1000, command))?;
    }
    Ok(entries)
}

pub(crate) fn lease_of(alloc: Global, leased: bool) -> Option<DefaultLease>
    ensures { IfSome result (λ l. l.map ≡ []) }
{
    if leased {
        return Some(DefaultLease::new(alloc, CONFIG));
    }
    None
}

// What is done at once.
#[derive(Debug, Drop)]
enum Work {
    Chunk(Vec<(u64, Write)>),
    Cleanup(u64),
    Flush,
    Reset,
    Generate,
    Install(Install),
}

// A snapshot put in the map's place: the index of its mark, and the moment of its cleanup.
#[derive(Clone, Copy, Debug)]
struct Install {
    last: u64,
    moment: u64,
}

#[derive(Debug, Drop, PartialEq, Eq)]
enum Answer {
    Results(Rows<ApplyResult>),
    Removed(Rows<Blob>),
    Done,
}

// Stores a snapshot under the applied mark.
fn take_snapshot<D: Disk, M: StateMachine<D>>(
    machine: &mut M,
    disk: &mut D,
) -> Result<Answer, Error>
    requires stands { StoreStands D.Disk (M.shown machine.old) disk.old }
{
    let mark = machine.last_applied();
    machine.generate_snapshot_data(disk, mark)?;
    Ok(Answer::Done)
}

fn put_snapshot<D: Disk, M: StateMachine<D>>(
    machine: &mut M,
    disk: &mut D,
    install: Install,
) -> Result<Answer, Error>
    requires stands { StoreStands D.Disk (M.shown machine.old) disk.old }
{
    let metadata = SnapshotMetadata {
        last_included: Some(mark_of(install.last)),
        checksum: [0; 32],
    };
    machine.apply_snapshot_from_file(disk, &metadata, install.moment)?;
    Ok(Answer::Done)
}

// Does it, as a state machine over any disk does.
fn make<D: Disk, M: StateMachine<D>>(
    alloc: Global,
    machine: &mut M,
    disk: &mut D,
    work: &Work,
) -> Result<Answer, Error>
    requires stands { StoreStands D.Disk (M.shown machine.old) disk.old }
{
    match work {
        Work::Chunk(writes) => {
            let chunk = entries_of(alloc, writes.as_slice())?;
            Ok(Answer::Results(machine.apply_chunk(disk, chunk.as_slice())?))
        }
        Work::Cleanup(moment) => Ok(Answer::Removed(machine.lease_background_cleanup(
            disk, *moment,
        )?)),
        Work::Flush => {
            machine.flush(disk)?;
            Ok(Answer::Done)
        }
        Work::Reset => {
            machine.reset(disk)?;
            Ok(Answer::Done)
        }
        Work::Generate => take_snapshot(machine, disk),
        Work::Install(from) => put_snapshot(machine, disk, *from),
    }
}

// The results of a chunk, by a state machine opened anew with a lease or without one.
pub(crate) fn apply<D: Disk>(
    alloc: Global,
    disk: &mut D,
    leased: bool,
    writes: &[(u64, Write)],
) -> Result<Rows<ApplyResult>, Error> {
    let chunk = entries_of(alloc, writes)?;
    let mut machine = FileStateMachine::new(alloc, disk, lease_of(alloc, leased))?;
    machine.apply_chunk(disk, chunk.as_slice())
}

// The same of puts, without a lease.
fn put<D: Disk>(
    alloc: Global,
    disk: &mut D,
    pairs: &[(&str, &str)],
) -> Result<Rows<ApplyResult>, Error> {
    let chunk = puts_of(alloc, pairs)?;
    let mut machine = FileStateMachine::new(alloc, disk, None)?;
    machine.apply_chunk(disk, chunk.as_slice())
}

// The keys that a cleanup removes, by a state machine opened anew.
fn clean_up<D: Disk>(
    alloc: Global,
    disk: &mut D,
    leased: bool,
    moment: u64,
) -> Result<Rows<Blob>, Error> {
    let mut machine = FileStateMachine::new(alloc, disk, lease_of(alloc, leased))?;
    machine.lease_background_cleanup(disk, moment)
}

// A call that stores the applied mark.
#[derive(Clone, Copy, Debug)]
enum Storing {
    Persist,
    Save,
    Close,
}

// Moves the applied mark, where it is not above.
pub(crate) fn move_mark<D: Disk, M: StateMachine<D>>(
    machine: &mut M,
    disk: &mut D,
    mark: LogId,
) -> Result<(), Error>
    requires stands { StoreStands D.Disk (M.shown machine.old) disk.old }
    ensures stands { OnOk result (StoreStands D.Disk (M.shown machine.new) disk.new) }
{
    if mark.index < machine.last_applied().index {
        return Err(Error::StateMachineError);
    }
    machine.update_last_applied(mark);
    Ok(())
}

// Moves the applied mark and stores it.
fn store<D: Disk, M: StateMachine<D>>(
    mut machine: M,
    disk: &mut D,
    mark: LogId,
    storing: Storing,
) -> Result<(), Error>
    requires stands { StoreStands D.Disk (M.shown machine) disk.old }
{
    if mark.index < machine.last_applied().index {
        return Err(Error::StateMachineError);
    }
    match storing {
        Storing::Persist => machine.persist_last_applied(disk, mark),
        Storing::Save => {
            machine.update_last_applied(mark);
            machine.save_hard_state(disk)
        }
        Storing::Close => {
            machine.update_last_applied(mark);
            machine.close(disk)
        }
    }
}

fn store_anew<D: Disk>(
    alloc: Global,
    disk: &mut D,
    mark: LogId,
    storing: Storing,
) -> Result<(), Error> {
    let machine = FileStateMachine::new(alloc, disk, None)?;
    store(machine, disk, mark, storing)
}

// The results of a chunk behind a mark that is not stored.
fn apply_behind<D: Disk>(
    alloc: Global,
    disk: &mut D,
    mark: LogId,
    writes: &[(u64, Write)],
) -> Result<Rows<ApplyResult>, Error> {
    let chunk = entries_of(alloc, writes)?;
    let mut machine = FileStateMachine::new(alloc, disk, None)?;
    move_mark(&mut machine, disk, mark)?;
    machine.apply_chunk(disk, chunk.as_slice())
}

// Whether a chunk is refused so, and pairs, expiries and mark stay as in the beginning.
fn refuses<D: Disk, M: StateMachine<D>>(
    machine: &mut M,
    disk: &mut D,
    chunk: &[Entry],
    error: Error,
) -> bool
    requires stands { StoreStands D.Disk (M.shown machine.old) disk.old }
{
    let mark = machine.last_applied();
    let refused = machine.apply_chunk(disk, chunk) == Err(error);
    refused && machine.is_empty() && !machine.holds_expiry() && machine.last_applied() == mark
}

fn refuses_behind<D: Disk>(
    alloc: Global,
    disk: &mut D,
    leased: bool,
    mark: LogId,
    writes: &[(u64, Write)],
    error: Error,
) -> Result<bool, Error> {
    let chunk = entries_of(alloc, writes)?;
    let mut machine = FileStateMachine::new(alloc, disk, lease_of(alloc, leased))?;
    move_mark(&mut machine, disk, mark)?;
    Ok(refuses(&mut machine, disk, chunk.as_slice(), error))
}

// Whether it has this value at this key.
fn has<D: Disk, M: StateMachine<D>>(machine: &M, key: u8, value: Option<u8>) -> bool {
    match (machine.get(&[key]), value) {
        (None, None) => true,
        (Some(held), Some(value)) => held.as_slice() == [value].as_slice(),
        _ => false,
    }
}

// Whether it has these values at the keys from `FIRST_KEY` on, no other pair, and this mark.
pub(crate) fn is_as<D: Disk, M: StateMachine<D>>(
    machine: &M,
    values: [Option<u8>; 5],
    mark: LogId,
) -> bool {
    let mut count: usize = 0;
    let mut key = FIRST_KEY;
    for value in values {
        if !has::<D, M>(machine, key, value) {
            return false;
        }
        if value.is_some() {
            count = count.saturating_add(1);
        }
        key = key.wrapping_add(1);
    }
    machine.len() == count && machine.last_applied() == mark
}

// The same of one that is opened anew.
pub(crate) fn opens_as<D: Disk>(
    alloc: Global,
    disk: &mut D,
    values: [Option<u8>; 5],
    mark: LogId,
) -> Result<bool, Error> {
    let machine = FileStateMachine::new(alloc, disk, None)?;
    Ok(is_as::<D, FileStateMachine>(&machine, values, mark))
}

// Whether the slot holds these regions and nothing behind them.
fn holds(disk: &MemDisk, regions: &[&[u8]]) -> bool {
    lists(disk.get(SLOT), regions)
}

fn lists(slot: &[u8], regions: &[&[u8]]) -> bool {
    let mut at = 0;
    for region in regions {
        match slot.get(at..) {
            Some(rest) if rest.starts_with(*region) => at += region.len(),
            _ => return false,
        }
    }
    slot.get(at) == Some(&0)
}

#[test]
fn swaps_once(rt: HostRuntime) -> Result<(), Fail> {
    let alloc = rt.alloc();
    let mut disk = MemDisk::new(alloc);
    apply(alloc, &mut disk, false, &[(1, Write::Insert(b'a', b'a'))])?;
    let swaps = [
        (2, Write::Swap(b'a', Some(b'b'), b'c')),
        (3, Write::Swap(b'a', Some(b'a'), b'b')),
    ];
    let results = apply(alloc, &mut disk, false, &swaps)?;
    let wanted = [(2, false), (3, true)].map(|(index, succeeded)| ApplyResult { index, succeeded });
    assert!(rt; results.as_slice() == wanted.as_slice());
    let values = [Some(b'b'), None, None, None, None];
    assert!(rt; opens_as(alloc, &mut disk, values, mark_of(3))?);
    Ok(())
}

// For want of a lease, for a repeated index, and for one at a mark that is not stored.
#[test]
fn refuses_chunks(rt: HostRuntime) -> Result<(), Fail> {
    let alloc = rt.alloc();
    let cases: [(bool, LogId, &[(u64, Write)], Error); 3] = [
        (
            false,
            NO_MARK,
            &[(1, Write::Expiring(b'a', b'b', 5))],
            Error::FeatureNotEnabled,
        ),
        (
            true,
            NO_MARK,
            &[
                (2, Write::Insert(b'a', b'b')),
                (2, Write::Insert(b'a', b'c')),
            ],
            Error::UnorderedChunk { index: 2 },
        ),
        (
            false,
            MARK,
            &[(5, Write::Insert(b'a', b'b'))],
            Error::UnorderedChunk { index: 5 },
        ),
    ];
    for (leased, mark, writes, error) in cases {
        let mut disk = MemDisk::new(alloc);
        assert!(rt; refuses_behind(alloc, &mut disk, leased, mark, writes, error)?);
        assert!(rt; disk.get(SLOT).is_empty());
    }
    Ok(())
}

#[test]
fn applies_behind_a_mark_that_is_not_stored(rt: HostRuntime) -> Result<(), Fail> {
    let alloc = rt.alloc();
    let mut disk = MemDisk::new(alloc);
    apply(alloc, &mut disk, false, &[(1, Write::Insert(b'a', b'b'))])?;
    apply_behind(alloc, &mut disk, MARK, &[])?;
    disk.crash(0);
    let values = [Some(b'b'), None, None, None, None];
    assert!(rt; opens_as(alloc, &mut disk, values, mark_of(1))?);
    let results = apply_behind(alloc, &mut disk, MARK, &[(6, Write::Insert(b'b', b'c'))])?;
    let wanted = [ApplyResult {
        index: 6,
        succeeded: true,
    }];
    assert!(rt; results.as_slice() == wanted.as_slice());
    disk.crash(0);
    let values = [Some(b'b'), Some(b'c'), None, None, None];
    assert!(rt; opens_as(alloc, &mut disk, values, mark_of(6))?);
    Ok(())
}

// A mark that is stored is not written again.
#[test]
fn stores_the_mark(rt: HostRuntime) -> Result<(), Fail> {
    let alloc = rt.alloc();
    for storing in [Storing::Persist, Storing::Save, Storing::Close] {
        let mut disk = MemDisk::new(alloc);
        apply(alloc, &mut disk, false, &[(1, Write::Noop)])?;
        store_anew(alloc, &mut disk, MARK, storing)?;
        disk.crash(0);
        assert!(rt; opens_as(alloc, &mut disk, [None; 5], MARK)?);
        store_anew(alloc, &mut disk, MARK, Storing::Save)?;
        assert!(rt; holds(&disk, &[NOOP_REGION, MARK_REGION]), "{storing:?}");
    }
    Ok(())
}

// Each chunk of one entry is a region of its record, a byte and a count in front of it, and a gate and a length in
// front of that: 41 and 43 bytes in 59 and 61, and then a closed gate.
#[test]
fn writes_a_region_of_one_record(rt: HostRuntime) -> Result<(), Fail> {
    let alloc = rt.alloc();
    let mut disk = MemDisk::new(alloc);
    apply(alloc, &mut disk, false, &[(1, Write::Noop)])?;
    assert!(rt; holds(&disk, &[NOOP_REGION]));
    apply(alloc, &mut disk, false, &[(2, Write::Insert(b'a', b'b'))])?;
    assert!(rt; holds(&disk, &[NOOP_REGION, INSERT_REGION]));
    Ok(())
}

// Whether a cleanup removes these keys.
pub(crate) fn removes<D: Disk>(
    alloc: Global,
    disk: &mut D,
    leased: bool,
    moment: u64,
    keys: &[u8],
) -> Result<bool, Error> {
    Ok(clean_up(alloc, disk, leased, moment)? == keys_of(alloc, keys)?)
}

// A disk with the expiring region.
fn expiring(alloc: Global) -> Result<MemDisk, Fail> {
    let mut disk = MemDisk::new(alloc);
    apply(
        alloc,
        &mut disk,
        true,
        &[(1, Write::Expiring(b'a', b'b', 1))],
    )?;
    Ok(disk)
}

// A cleanup is a region of one record of 41 bytes. One that removes nothing is none.
#[test]
fn records_a_cleanup(rt: HostRuntime) -> Result<(), Fail> {
    let alloc = rt.alloc();
    let mut disk = expiring(alloc)?;
    assert!(rt; removes(alloc, &mut disk, true, 1999, &[])?);
    assert!(rt; holds(&disk, &[EXPIRING_REGION]));
    assert!(rt; removes(alloc, &mut disk, true, 2000, b"a")?);
    disk.crash(0);
    assert!(rt; opens_as(alloc, &mut disk, [None; 5], mark_of(1))?);
    assert!(rt; holds(&disk, &[EXPIRING_REGION, CLEANUP_REGION]));
    Ok(())
}

// 999 records: of a key that expires at 2000, of one that does not, and of entries without effect.
fn many(alloc: Global) -> Result<Vec<(u64, Write)>, Error> {
    let mut writes = Vec::new(alloc);
    writes.push((1, Write::Expiring(b'a', b'b', 1)))?;
    writes.push((2, Write::Insert(b'b', b'c')))?;
    for index in 3..1000 {
        writes.push((index, Write::Noop))?;
    }
    Ok(writes)
}

// The record of a cleanup is one more, so mark and pairs are written anew behind it, into the other slot.
#[test]
fn writes_a_checkpoint_behind_a_cleanup(rt: HostRuntime) -> Result<(), Fail> {
    let alloc = rt.alloc();
    let mut disk = MemDisk::new(alloc);
    apply(alloc, &mut disk, true, many(alloc)?.as_slice())?;
    assert!(rt; disk.get(OTHER_SLOT).is_empty());
    assert!(rt; removes(alloc, &mut disk, true, 2000, b"a")?);
    assert!(rt; lists(disk.get(OTHER_SLOT), &[BEGIN_REGION, PAIRS_REGION]));
    disk.crash(0);
    let values = [None, Some(b'c'), None, None, None];
    assert!(rt; opens_as(alloc, &mut disk, values, mark_of(999))?);
    Ok(())
}

fn flush<D: Disk>(alloc: Global, disk: &mut D) -> Result<(), Error> {
    let mut machine = FileStateMachine::new(alloc, disk, None)?;
    machine.flush(disk)
}

// Into the other slot, and then back into the first.
#[test]
fn flushes(rt: HostRuntime) -> Result<(), Fail> {
    let alloc = rt.alloc();
    let mut disk = MemDisk::new(alloc);
    let writes = [(2, Write::Insert(b'b', b'c')), (999, Write::Noop)];
    apply(alloc, &mut disk, false, &writes)?;
    flush(alloc, &mut disk)?;
    assert!(rt; lists(disk.get(OTHER_SLOT), &[BEGIN_REGION, PAIRS_REGION]));
    flush(alloc, &mut disk)?;
    assert!(rt; holds(&disk, &[BEGIN_REGION, PAIRS_REGION]));
    Ok(())
}

// Whether a lease that comes later removes the key at its expiry.
fn expires_later<D: Disk>(alloc: Global, disk: &mut D) -> Result<bool, Error> {
    let mut machine = FileStateMachine::new(alloc, disk, None)?;
    let before = StateMachine::<D>::has_lease(&machine)
        || !StateMachine::<D>::holds_expiry(&machine);
    machine.set_lease(DefaultLease::new(alloc, CONFIG));
    machine.load_lease_data();
    let gone = machine.lease_background_cleanup(disk, 2000)?;
    let after = StateMachine::<D>::has_lease(&machine)
        && !StateMachine::<D>::holds_expiry(&machine);
    Ok(!before && after && gone == keys_of(alloc, b"a")?)
}

#[test]
fn keeps_expiries_without_a_lease(rt: HostRuntime) -> Result<(), Fail> {
    let alloc = rt.alloc();
    let mut disk = expiring(alloc)?;
    assert!(rt; removes(alloc, &mut disk, false, 2000, &[])?);
    let values = [Some(b'b'), None, None, None, None];
    assert!(rt; opens_as(alloc, &mut disk, values, mark_of(1))?);
    assert!(rt; holds(&disk, &[EXPIRING_REGION]));
    assert!(rt; expires_later(alloc, &mut disk)?);
    Ok(())
}

// Whether a scan answers these pairs, of the revision 3.
fn scans<D: Disk>(
    alloc: Global,
    disk: &mut D,
    prefix: &str,
    pairs: &[(&str, &str)],
) -> Result<bool, Error> {
    let machine = FileStateMachine::new(alloc, disk, None)?;
    let scan = StateMachine::<D>::scan_prefix(&machine, prefix.as_bytes())?;
    Ok(scan.revision == 3 && scan.entries == pairs_of(alloc, pairs)?)
}

// A scan's pairs.
fn pairs_of(alloc: Global, pairs: &[(&str, &str)]) -> Result<Rows<KvEntry>, Error> {
    let mut entries = Vec::new(alloc);
    for (key, value) in pairs {
        entries.push(KvEntry {
            key: Blob::of(alloc, key.as_bytes())?,
            value: Blob::of(alloc, value.as_bytes())?,
        })?;
    }
    Ok(Rows::of(entries))
}

#[test]
fn scans_a_prefix(rt: HostRuntime) -> Result<(), Fail> {
    let alloc = rt.alloc();
    let mut disk = MemDisk::new(alloc);
    put(alloc, &mut disk, &[("ab", "1"), ("b", "2"), ("aa", "3")])?;
    let cases: [(&str, &[(&str, &str)]); 4] = [
        ("a", &[("aa", "3"), ("ab", "1")]),
        ("ab", &[("ab", "1")]),
        ("abc", &[]),
        ("", &[("aa", "3"), ("ab", "1"), ("b", "2")]),
    ];
    for (prefix, pairs) in cases {
        assert!(rt; scans(alloc, &mut disk, prefix, pairs)?, "at {prefix}");
    }
    Ok(())
}

fn said(index: u64) -> SnapshotMetadata {
    SnapshotMetadata {
        last_included: Some(LogId { index, term: 1 }),
        checksum: [7; 32],
    }
}

// Whether it runs but for a stop, has failed in nothing, and keeps no term.
fn runs<D: Disk, M: StateMachine<D>>(machine: &mut M) -> bool {
    let opened = machine.is_running();
    machine.stop();
    let stopped = machine.is_running();
    machine.start();
    let started = machine.is_running() && !machine.is_failed();
    opened && !stopped && started && machine.entry_term(0).is_none()
}

// Whether it keeps what was said of a snapshot.
fn keeps_metadata<D: Disk, M: StateMachine<D>>(machine: &mut M) -> bool {
    let none = machine.snapshot_metadata();
    machine.update_last_snapshot_metadata(said(3));
    let first = machine.snapshot_metadata();
    machine.persist_last_snapshot_metadata(said(4));
    let last = machine.snapshot_metadata();
    none.is_none() && first == Some(said(3)) && last == Some(said(4))
}

#[test]
fn flag_and_metadata(rt: HostRuntime) -> Result<(), Fail> {
    let alloc = rt.alloc();
    let mut disk = MemDisk::new(alloc);
    let mut machine = FileStateMachine::new(alloc, &mut disk, None)?;
    assert!(rt; runs::<MemDisk, FileStateMachine>(&mut machine));
    assert!(rt; keeps_metadata::<MemDisk, FileStateMachine>(&mut machine));
    assert!(rt; is_as::<MemDisk, FileStateMachine>(&machine, [None; 5], NO_MARK));
    assert!(rt; disk.get(SLOT).is_empty());
    Ok(())
}

// Whether a reset leaves it without pair, expiry and mark, and without what was said of a snapshot.
fn resets<D: Disk, M: StateMachine<D>>(machine: &mut M, disk: &mut D) -> Result<bool, Error>
    requires stands { StoreStands D.Disk (M.shown machine.old) disk.old }
{
    machine.update_last_snapshot_metadata(said(2));
    machine.reset(disk)?;
    let bare = machine.is_empty() && !machine.holds_expiry();
    Ok(bare && machine.last_applied() == NO_MARK && machine.snapshot_metadata().is_none())
}

fn resets_anew<D: Disk>(alloc: Global, disk: &mut D) -> Result<bool, Error> {
    let mut machine = FileStateMachine::new(alloc, disk, lease_of(alloc, true))?;
    resets(&mut machine, disk)
}

// As one region in the other slot, behind which an entry of index 1 is in order again.
#[test]
fn resets_to_no_entry(rt: HostRuntime) -> Result<(), Fail> {
    let alloc = rt.alloc();
    let mut disk = expiring(alloc)?;
    apply(alloc, &mut disk, false, &[(2, Write::Insert(b'b', b'c'))])?;
    assert!(rt; resets_anew(alloc, &mut disk)?);
    assert!(rt; lists(disk.get(OTHER_SLOT), &[NOTHING_REGION]));
    disk.crash(0);
    assert!(rt; opens_as(alloc, &mut disk, [None; 5], NO_MARK)?);
    apply(alloc, &mut disk, false, &[(1, Write::Insert(b'a', b'b'))])?;
    let values = [Some(b'b'), None, None, None, None];
    assert!(rt; opens_as(alloc, &mut disk, values, mark_of(1))?);
    Ok(())
}

// A value with its expiry, which is 0 where there is none.
#[derive(Clone, Copy, Debug)]
struct Row {
    value: u8,
    expiry: u64,
}

// Rows at the keys from `FIRST_KEY` on, and the index of their mark.
#[derive(Clone, Copy, Debug)]
struct Taken {
    rows: [Option<Row>; 5],
    last: u64,
}

// A map as such rows, written anew and plainly, with the snapshot that is stored, where that is known.
#[derive(Clone, Copy, Debug)]
struct Plain {
    rows: [Option<Row>; 5],
    last: u64,
    taken: Option<Taken>,
}

const NO_ROW: Plain = Plain {
    rows: [None; 5],
    last: 0,
    taken: None,
};

impl Plain {
    fn get(&self, key: u8) -> Option<Row> {
        match self.rows.get(key.wrapping_sub(FIRST_KEY) as usize) {
            None => None,
            Some(row) => *row,
        }
    }

    fn values(&self) -> [Option<u8>; 5] {
        self.rows.map(|row| match row {
            None => None,
            Some(row) => Some(row.value),
        })
    }

    fn expiry(&self, key: u8) -> u64 {
        match self.get(key) {
            None => 0,
            Some(row) => row.expiry,
        }
    }

    fn set(&mut self, key: u8, row: Option<Row>) {
        if let Some(place) = self.rows.get_mut(key.wrapping_sub(FIRST_KEY) as usize) {
            *place = row;
        }
    }

    // An older expiry stays.
    fn insert(&mut self, key: u8, value: u8) {
        let expiry = self.expiry(key);
        self.set(key, Some(Row { value, expiry }));
    }

    // Whether the write succeeded, at a moment.
    fn write(&mut self, write: Write, moment: u64) -> bool {
        match write {
            Write::Noop => {}
            Write::Insert(key, value) => self.insert(key, value),
            Write::Expiring(key, value, ttl_secs) => {
                let expiry = moment.saturating_add(ttl_secs.saturating_mul(1000));
                self.set(key, Some(Row { value, expiry }));
            }
            Write::Delete(key) => self.set(key, None),
            Write::Swap(key, expected, value) => {
                if !self.has(key, expected) {
                    return false;
                }
                self.insert(key, value);
            }
        }
        true
    }

    fn has(&self, key: u8, value: Option<u8>) -> bool {
        match (self.get(key), value) {
            (None, None) => true,
            (Some(row), Some(value)) => row.value == value,
            _ => false,
        }
    }

    fn apply(
        &mut self,
        alloc: Global,
        writes: &[(u64, Write)],
    ) -> Result<Rows<ApplyResult>, Error> {
        let mut results = Vec::new(alloc);
        for (index, write) in writes {
            let succeeded = self.write(*write, index.saturating_mul(1000));
            results.push(ApplyResult {
                index: *index,
                succeeded,
            })?;
            self.last = *index;
        }
        Ok(Rows::of(results))
    }

    // Removes each key whose expiry is at most the moment.
    fn clean_up(&mut self, alloc: Global, moment: u64) -> Result<Rows<Blob>, Error> {
        let mut keys = Vec::new(alloc);
        for key in KEYS {
            let expiry = self.expiry(*key);
            if 0 < expiry && expiry <= moment {
                keys.push(blob(alloc, *key)?)?;
                self.set(*key, None);
            }
        }
        Ok(Rows::of(keys))
    }

    fn take(&mut self) {
        self.taken = Some(Taken {
            rows: self.rows,
            last: self.last,
        });
    }

    fn put(&mut self, taken: Taken) {
        let rows = taken.rows;
        self.rows = rows;
        self.last = taken.last;
    }

    fn install(&mut self, alloc: Global, moment: u64) -> Result<(), Error> {
        if let Some(taken) = self.taken {
            self.put(taken);
        }
        self.clean_up(alloc, moment.max(1))?;
        Ok(())
    }

    fn make(&mut self, alloc: Global, work: &Work) -> Result<Answer, Error> {
        match work {
            Work::Chunk(writes) => return Ok(Answer::Results(self.apply(
                alloc,
                writes.as_slice(),
            )?)),
            Work::Cleanup(moment) => return Ok(Answer::Removed(self.clean_up(alloc, *moment)?)),
            Work::Flush => {}
            Work::Reset => self.put(Taken {
                rows: [None; 5],
                last: 0,
            }),
            Work::Generate => self.take(),
            Work::Install(from) => self.install(alloc, from.moment)?,
        }
        Ok(Answer::Done)
    }
}

// The answer of a state machine opened anew with a lease, which is as the plain map behind it.
fn make_anew<D: Disk>(
    alloc: Global,
    disk: &mut D,
    work: &Work,
    next: &Plain,
) -> Result<Answer, Error> {
    let mut machine = FileStateMachine::new(alloc, disk, lease_of(alloc, true))?;
    let answer = make(alloc, &mut machine, disk, work)?;
    if is_as::<D, FileStateMachine>(&machine, next.values(), mark_of(next.last)) {
        return Ok(answer);
    }
    Err(Error::StateMachineError)
}

// A crash behind so many calls of the disk, of this choice.
#[derive(Clone, Copy, Debug)]
struct Stop {
    calls: u64,
    choice: u64,
}

// The answer where there was one before a stop.
fn stopped(
    alloc: Global,
    disk: &mut MemDisk,
    work: &Work,
    next: &Plain,
    stop: Stop,
) -> Result<Option<Answer>, Error> {
    disk.fuse(stop.calls);
    let answer = make_anew(alloc, disk, work, next);
    disk.crash(stop.choice);
    match answer {
        Ok(answer) => Ok(Some(answer)),
        Err(Error::StorageIoError) => Ok(None),
        Err(error) => Err(error),
    }
}

// Numbers that follow from a seed.
#[derive(Drop)]
struct Draws {
    state: u64,
}

impl Draws {
    fn next(&mut self) -> u64 {
        self.state = self
            .state
            .wrapping_mul(6_364_136_223_846_793_005)
            .wrapping_add(1_442_695_040_888_963_407);
        self.state >> 33
    }

    fn key(&mut self) -> u8 {
        FIRST_KEY + (self.next() % 5) as u8
    }

    fn value(&mut self) -> u8 {
        (self.next() % 3) as u8
    }

    fn expected(&mut self) -> Option<u8> {
        if self.next() % 4 == 0 {
            return None;
        }
        Some(self.value())
    }

    fn write(&mut self) -> Write {
        match self.next() % 8 {
            0 => Write::Noop,
            1 => Write::Delete(self.key()),
            2 => Write::Insert(self.key(), self.value()),
            3..6 => Write::Expiring(self.key(), self.value(), self.next() % 20),
            _ => Write::Swap(self.key(), self.expected(), self.value()),
        }
    }

    // One to three writes whose indices rise above this one.
    fn chunk(&mut self, alloc: Global, last: u64) -> Result<Vec<(u64, Write)>, Error> {
        let mut writes = Vec::new(alloc);
        let mut index = last;
        for _ in 0..self.next() % 3 + 1 {
            index = index.saturating_add(1).saturating_add(self.next() % 2);
            writes.push((index, self.write()))?;
        }
        Ok(writes)
    }

    // At the expiry of a key, or beside it.
    fn moment(&mut self, plain: &Plain) -> u64 {
        let expiry = plain.expiry(self.key()).max(1000);
        expiry.saturating_sub(1).saturating_add(self.next() % 3)
    }

    // Of the snapshot that is stored, at an expiry of its keys or beside it. A snapshot is stored where none is known.
    fn install(&mut self, plain: &Plain) -> Work {
        match plain.taken {
            None => Work::Generate,
            Some(taken) => {
                let mut next = *plain;
                next.put(taken);
                let moment = self.moment(&next);
                Work::Install(Install {
                    last: taken.last,
                    moment,
                })
            }
        }
    }

    fn work(&mut self, alloc: Global, plain: &Plain) -> Result<Work, Error> {
        Ok(match self.next() % 16 {
            0 => Work::Flush,
            1 => Work::Reset,
            2 => Work::Generate,
            3..6 => self.install(plain),
            6..9 => Work::Cleanup(self.moment(plain)),
            _ => Work::Chunk(self.chunk(alloc, plain.last)?),
        })
    }

    // A stop at rest, or one in the midst of the work, of the first choices or of any.
    fn stop(&mut self) -> Stop {
        let calls = match self.next() % 2 {
            0 => 100,
            _ => self.next() % 40,
        };
        let choice = match self.next() % 3 {
            2 => self.next(),
            choice => choice,
        };
        Stop { calls, choice }
    }
}

// Whether the files give the plain map.
fn opens_as_plain(alloc: Global, disk: &mut MemDisk, plain: &Plain) -> Result<bool, Error> {
    opens_as(alloc, disk, plain.values(), mark_of(plain.last))
}

// How a turn ended, where the files give what they may.
#[derive(Clone, Copy, Debug, PartialEq, Eq)]
enum Turn {
    Answered,
    Made,
    Lost,
    Wrong,
}

// What was answered is there, and what was not answered is there or not. Behind a stop it is not known which snapshot
// is stored.
fn make_turn(
    alloc: Global,
    disk: &mut MemDisk,
    plain: &mut Plain,
    draws: &mut Draws,
) -> Result<Turn, Error> {
    let work = draws.work(alloc, plain)?;
    let mut next = *plain;
    let wanted = next.make(alloc, &work)?;
    let answer = stopped(alloc, disk, &work, &next, draws.stop())?;
    if opens_as_plain(alloc, disk, &next)? {
        *plain = next;
        return Ok(match answer {
            None => {
                plain.taken = None;
                Turn::Made
            }
            Some(answer) if answer == wanted => Turn::Answered,
            Some(_) => Turn::Wrong,
        });
    }
    if answer.is_none() && opens_as_plain(alloc, disk, plain)? {
        return Ok(Turn::Lost);
    }
    Ok(Turn::Wrong)
}

#[test]
fn random_work(rt: HostRuntime) -> Result<(), Fail> {
    let alloc = rt.alloc();
    let mut disk = MemDisk::new(alloc);
    let mut plain = NO_ROW;
    let mut draws = Draws { state: 1 };
    let mut made = false;
    let mut lost = false;
    for _ in 0..240 {
        let turn = make_turn(alloc, &mut disk, &mut plain, &mut draws)?;
        assert!(rt; turn != Turn::Wrong, "at {plain:?}");
        made = made || turn == Turn::Made;
        lost = lost || turn == Turn::Lost;
    }
    assert!(rt; made && lost);
    Ok(())
}
