//! Snapshots of a state machine: the files that one is stored in, the map that it gives in another's place, and what
//! is left where either is refused, stopped, or fails.
ghost use Rattle.den_journal.specs.Writes.{StoreStands};

use crate::one_word::{Bytes, disk_of, put};
use crate::state::{Write, apply, is_as, lease_of, mark_of, move_mark, opens_as, removes};
use crate::turn::{IN_B, Turn, file, holds_turn};
use den_codec::{Error, LogId};
use den_disk::{Disk, Family, MemDisk, Part};
use den_state::{FileStateMachine, SnapshotMetadata, StateMachine};
use std::alloc::Global;
use std::test::Fail;

const MARK: LogId = LogId { index: 1, term: 1 };

const LATER: LogId = LogId { index: 5, term: 2 };

// The region of a = b of term 1 under the mark 1 of term 1, whose word has 58 bytes; the same and another behind it
// that runs past the end; it twice; and it with a byte more in its word.
const REGION: &[u8] =
    b"\x01\0\0\0\0\0\0\0\x3a\0\0\0\0\0\0\0\x01\0\0\0\0\0\0\0\x01\0\0\0\0\0\0\0\x01\0\0\0\0\0\0\0\x01a\0\0\0\0\0\0\0\x01b\0\0\0\0\0\0\0\x01\0\0\0\0\0\0\0\0";

const TORN: &[u8] =
    b"\x01\0\0\0\0\0\0\0\x3a\0\0\0\0\0\0\0\x01\0\0\0\0\0\0\0\x01\0\0\0\0\0\0\0\x01\0\0\0\0\0\0\0\x01a\0\0\0\0\0\0\0\x01b\0\0\0\0\0\0\0\x01\0\0\0\0\0\0\0\0\x01\0\0";

const TWICE: &[u8] =
    b"\x01\0\0\0\0\0\0\0\x3a\0\0\0\0\0\0\0\x01\0\0\0\0\0\0\0\x01\0\0\0\0\0\0\0\x01\0\0\0\0\0\0\0\x01a\0\0\0\0\0\0\0\x01b\0\0\0\0\0\0\0\x01\0\0\0\0\0\0\0\0\x01\0\0\0\0\0\0\0\x3a\0\0\0\0\0\0\0\x01\0\0\0\0\0\0\0\x01\0\0\0\0\0\0\0\x01\0\0\0\0\0\0\0\x01a\0\0\0\0\0\0\0\x01b\0\0\0\0\0\0\0\x01\0\0\0\0\0\0\0\0";

const LONGER: &[u8] =
    b"\x01\0\0\0\0\0\0\0\x3b\0\0\0\0\0\0\0\x01\0\0\0\0\0\0\0\x01\0\0\0\0\0\0\0\x01\0\0\0\0\0\0\0\x01a\0\0\0\0\0\0\0\x01b\0\0\0\0\0\0\0\x01\0\0\0\0\0\0\0\0\0";

// The region of a = b until 1 and c = d until 2000, both of term 1, under the same mark: a word of 92 bytes.
const EXPIRING_REGION: &[u8] =
    b"\x01\0\0\0\0\0\0\0\x5c\0\0\0\0\0\0\0\x01\0\0\0\0\0\0\0\x01\0\0\0\0\0\0\0\x02\0\0\0\0\0\0\0\x01a\0\0\0\0\0\0\0\x01b\0\0\0\0\0\0\0\x01\0\0\0\0\0\0\0\x01\0\0\0\0\0\0\0\x01c\0\0\0\0\0\0\0\x01d\0\0\0\0\0\0\0\x01\0\0\0\0\0\0\x07\xd0";

const STORED: Bytes = Bytes {
    head: b"\x01",
    a: b"",
    b: REGION,
};

const EXPIRING: Bytes = Bytes {
    head: b"\0",
    a: EXPIRING_REGION,
    b: b"",
};

const UNREADABLE: Bytes = Bytes {
    head: b"\x01",
    a: REGION,
    b: TORN,
};

// The Snapshot family's files behind the first time that this snapshot is stored.
const SNAPSHOT: Turn = Turn {
    regions: &[REGION],
    ..IN_B
};

// The State family's, behind its first checkpoint: the mark and a = b.
const CHECKPOINT: Turn = Turn {
    regions: &[
        b"\x01\0\0\0\0\0\0\0\x11\x01\0\0\0\0\0\0\0\x01\0\0\0\0\0\0\0\x01",
        b"\x01\0\0\0\0\0\0\0\x2b\x02\0\0\0\0\0\0\0\x01\0\0\0\0\0\0\0\x01a\0\0\0\0\0\0\0\x01b\0\0\0\0\0\0\0\x01\0\0\0\0\0\0\0\0",
    ],
    ..IN_B
};

// Snapshot files that are not one region of a snapshot's word, with the number of the slot in use.
const NO_SNAPSHOT: [(Bytes, u8); 5] = [
    (
        Bytes {
            head: b"",
            a: b"",
            b: b"",
        },
        10,
    ),
    (
        Bytes {
            head: b"\x01",
            a: REGION,
            b: b"",
        },
        11,
    ),
    (
        Bytes {
            head: b"\0",
            a: TORN,
            b: REGION,
        },
        10,
    ),
    (
        Bytes {
            head: b"\x01",
            a: REGION,
            b: TWICE,
        },
        11,
    ),
    (
        Bytes {
            head: b"\x02",
            a: LONGER,
            b: REGION,
        },
        10,
    ),
];

// The calls of the disk that an opening makes, and then those that store a snapshot, and those that put one in the
// map's place.
const OPENING_CALLS: u64 = 6;

const STORING_CALLS: u64 = 17;

const INSTALLING_CALLS: u64 = 25;

// Values at the keys from a on, and the mark.
#[derive(Clone, Copy)]
struct Has {
    values: [Option<u8>; 5],
    mark: LogId,
}

// The map of the first snapshot, and the map before it.
const NEW: Has = Has {
    values: [Some(b'b'), None, None, None, None],
    mark: MARK,
};

const OLD: Has = Has {
    values: [None, Some(b'c'), None, None, None],
    mark: LogId { index: 3, term: 1 },
};

// How a snapshot is put in a map's place: with a lease or without one, under which mark, and at which moment.
#[derive(Clone, Copy)]
struct Call {
    leased: bool,
    last: Option<LogId>,
    now: u64,
}

const CALL: Call = Call {
    leased: false,
    last: Some(MARK),
    now: 1,
};

fn metadata_of(last_included: Option<LogId>) -> SnapshotMetadata {
    SnapshotMetadata {
        last_included,
        checksum: [0; 32],
    }
}

fn shows<D: Disk, M: StateMachine<D>>(machine: &M, has: Has) -> bool {
    is_as::<D, M>(machine, has.values, has.mark)
}

fn opens_with<D: Disk>(alloc: Global, disk: &mut D, has: Has) -> Result<bool, Error> {
    opens_as(alloc, disk, has.values, has.mark)
}

// A disk with these Snapshot files and the old map.
fn disk_with(alloc: Global, bytes: Bytes) -> Result<MemDisk, Fail> {
    let mut disk = MemDisk::new(alloc);
    apply(alloc, &mut disk, false, &[(3, Write::Insert(b'b', b'c'))])?;
    put(&mut disk, bytes)?;
    Ok(disk)
}

fn holds_bytes(disk: &MemDisk, bytes: Bytes) -> bool {
    file(disk, Family::Snapshot, Part::Head) == bytes.head
        && file(disk, Family::Snapshot, Part::A) == bytes.a
        && file(disk, Family::Snapshot, Part::B) == bytes.b
}

// Whether it stores a snapshot under the mark, and answers and keeps its checksum.
fn stores<D: Disk, M: StateMachine<D>>(machine: &mut M, disk: &mut D) -> Result<bool, Error>
    requires stands { StoreStands D.Disk (M.shown machine.old) disk.old }
{
    let checksum = machine.generate_snapshot_data(disk, MARK)?;
    let kept = machine.snapshot_metadata() == Some(metadata_of(Some(MARK)));
    Ok(kept && checksum.as_slice() == [0; 32].as_slice())
}

fn stores_anew<D: Disk>(alloc: Global, disk: &mut D) -> Result<bool, Error> {
    let mut machine = FileStateMachine::new(alloc, disk, None)?;
    stores(&mut machine, disk)
}

// Whether it has this once it put the snapshot in its map's place, and keeps what it was told of it.
fn installs<D: Disk, M: StateMachine<D>>(
    machine: &mut M,
    disk: &mut D,
    call: Call,
    to_have: Has,
) -> Result<bool, Error>
    requires stands { StoreStands D.Disk (M.shown machine.old) disk.old }
{
    let metadata = metadata_of(call.last);
    machine.apply_snapshot_from_file(disk, &metadata, call.now)?;
    Ok(shows::<D, M>(machine, to_have) && machine.snapshot_metadata() == Some(metadata))
}

fn installs_anew<D: Disk>(
    alloc: Global,
    disk: &mut D,
    call: Call,
    to_have: Has,
) -> Result<bool, Error> {
    let mut machine = FileStateMachine::new(alloc, disk, lease_of(alloc, call.leased))?;
    installs(&mut machine, disk, call, to_have)
}

// The same behind a mark that is not stored.
fn installs_behind<D: Disk>(
    alloc: Global,
    disk: &mut D,
    call: Call,
    to_have: Has,
) -> Result<bool, Error> {
    let mut machine = FileStateMachine::new(alloc, disk, lease_of(alloc, call.leased))?;
    move_mark(&mut machine, disk, LATER)?;
    installs(&mut machine, disk, call, to_have)
}

// Whether it is refused so, and the machine has the old map and goes on.
fn refuses<D: Disk, M: StateMachine<D>>(machine: &mut M, disk: &mut D, error: Error) -> bool
    requires stands { StoreStands D.Disk (M.shown machine.old) disk.old }
{
    let metadata = metadata_of(Some(MARK));
    let refused = machine.apply_snapshot_from_file(disk, &metadata, 1) == Err(error);
    let kept = shows::<D, M>(machine, OLD) && machine.snapshot_metadata().is_none();
    refused && kept && !machine.is_failed()
}

fn refuses_anew<D: Disk>(alloc: Global, disk: &mut D, error: Error) -> Result<bool, Error> {
    let mut machine = FileStateMachine::new(alloc, disk, None)?;
    Ok(refuses(&mut machine, disk, error))
}

// Whether files are refused so, and stay as they are.
fn keeps_all(alloc: Global, bytes: Bytes, error: Error) -> Result<bool, Fail> {
    let mut disk = disk_with(alloc, bytes)?;
    let refused = refuses_anew(alloc, &mut disk, error)?;
    disk.crash(0);
    Ok(refused && holds_bytes(&disk, bytes) && opens_with(alloc, &mut disk, OLD)?)
}

#[test]
fn stores_a_snapshot(rt: HostRuntime) -> Result<(), Fail> {
    let mut disk = MemDisk::new(rt.alloc());
    apply(
        rt.alloc(),
        &mut disk,
        false,
        &[(1, Write::Insert(b'a', b'b'))],
    )?;
    assert!(rt; stores_anew(rt.alloc(), &mut disk)?);
    assert!(rt; holds_turn(&disk, Family::Snapshot, SNAPSHOT));
    Ok(())
}

// As a checkpoint in the files of a map without a pair.
#[test]
fn installs_a_snapshot(rt: HostRuntime) -> Result<(), Fail> {
    let mut disk = disk_of(rt.alloc(), STORED)?;
    assert!(rt; installs_anew(rt.alloc(), &mut disk, CALL, NEW)?);
    assert!(rt; holds_turn(&disk, Family::State, CHECKPOINT));
    disk.crash(0);
    assert!(rt; opens_with(rt.alloc(), &mut disk, NEW)?);
    Ok(())
}

#[test]
fn refuses_files_that_hold_no_snapshot(rt: HostRuntime) -> Result<(), Fail> {
    for (bytes, place) in NO_SNAPSHOT {
        let error = Error::DataCorruption { place, offset: 0 };
        assert!(rt; keeps_all(rt.alloc(), bytes, error)?);
    }
    Ok(())
}

#[test]
fn refuses_an_expiry_without_a_lease(rt: HostRuntime) -> Result<(), Fail> {
    assert!(rt; keeps_all(rt.alloc(), EXPIRING, Error::FeatureNotEnabled)?);
    Ok(())
}

// What is left of the expiring snapshot at a moment; 0 counts as 1.
const LEFT: [(u64, [Option<u8>; 5]); 3] = [
    (0, [None, None, Some(b'd'), None, None]),
    (1999, [None, None, Some(b'd'), None, None]),
    (2000, [None; 5]),
];

// Whether a snapshot without a mark leaves both marks, and these values at a moment.
fn leaves(alloc: Global, now: u64, values: [Option<u8>; 5]) -> Result<bool, Fail> {
    let mut disk = disk_with(alloc, EXPIRING)?;
    let call = Call {
        leased: true,
        last: None,
        now,
    };
    let applied = Has {
        values,
        mark: LATER,
    };
    let installed = installs_behind(alloc, &mut disk, call, applied)?;
    disk.crash(0);
    Ok(installed && opens_as(alloc, &mut disk, values, mark_of(3))?)
}

#[test]
fn cleans_what_it_installs(rt: HostRuntime) -> Result<(), Fail> {
    for (now, values) in LEFT {
        assert!(rt; leaves(rt.alloc(), now, values)?, "at {now}");
    }
    Ok(())
}

// The key that stays goes when it expires.
#[test]
fn installs_expiries(rt: HostRuntime) -> Result<(), Fail> {
    let mut disk = disk_with(rt.alloc(), EXPIRING)?;
    let call = Call {
        leased: true,
        ..CALL
    };
    let left = Has {
        values: [None, None, Some(b'd'), None, None],
        ..NEW
    };
    assert!(rt; installs_anew(rt.alloc(), &mut disk, call, left)?);
    assert!(rt; removes(rt.alloc(), &mut disk, true, 2000, b"c")?);
    Ok(())
}

#[test]
fn stores_over_files_that_cannot_be_read(rt: HostRuntime) -> Result<(), Fail> {
    let mut disk = disk_of(rt.alloc(), UNREADABLE)?;
    apply(
        rt.alloc(),
        &mut disk,
        false,
        &[(1, Write::Insert(b'a', b'b'))],
    )?;
    assert!(rt; stores_anew(rt.alloc(), &mut disk)?);
    assert!(rt; holds_turn(&disk, Family::Snapshot, SNAPSHOT));
    Ok(())
}

// Whether a crash behind so many calls, of this choice, leaves the old map or the new one, and the new one where the
// call was answered.
fn keeps_a_map(alloc: Global, calls: u64, choice: u64) -> Result<bool, Fail> {
    let mut disk = disk_with(alloc, STORED)?;
    disk.fuse(calls);
    let done = matches!(installs_anew(alloc, &mut disk, CALL, NEW), Ok(true));
    disk.crash(choice);
    let new = opens_with(alloc, &mut disk, NEW)?;
    let old = !new && opens_with(alloc, &mut disk, OLD)?;
    Ok(done == (calls == OPENING_CALLS + INSTALLING_CALLS) && (new || (old && !done)))
}

#[test]
fn keeps_a_map_at_each_call(rt: HostRuntime) -> Result<(), Fail> {
    for calls in 0..OPENING_CALLS + INSTALLING_CALLS + 1 {
        for choice in 0..3 {
            assert!(rt; keeps_a_map(rt.alloc(), calls, choice)?, "behind {calls}");
        }
    }
    Ok(())
}

// Whether a fault of the disk ends it, with the old map in memory or the new one.
fn ends_installing<D: Disk, M: StateMachine<D>>(machine: &mut M, disk: &mut D) -> bool
    requires stands { StoreStands D.Disk (M.shown machine.old) disk.old }
{
    let metadata = metadata_of(Some(MARK));
    let fault = machine.apply_snapshot_from_file(disk, &metadata, 1) == Err(Error::StorageIoError);
    let kept = shows::<D, M>(machine, OLD) || shows::<D, M>(machine, NEW);
    fault && kept && machine.is_failed() && machine.snapshot_metadata().is_none()
}

// The same of one that is to store a snapshot, and keeps its map.
fn ends_storing<D: Disk, M: StateMachine<D>>(machine: &mut M, disk: &mut D) -> bool
    requires stands { StoreStands D.Disk (M.shown machine.old) disk.old }
{
    let stored = machine.generate_snapshot_data(disk, MARK);
    let fault = matches!(stored, Err(Error::StorageIoError));
    let kept = shows::<D, M>(machine, OLD) && machine.snapshot_metadata().is_none();
    fault && kept && machine.is_failed()
}

fn ends_anew<D: Disk>(alloc: Global, disk: &mut D, storing: bool) -> Result<bool, Error> {
    let mut machine = FileStateMachine::new(alloc, disk, None)?;
    if storing {
        return Ok(ends_storing(&mut machine, disk));
    }
    Ok(ends_installing(&mut machine, disk))
}

// Whether a fault of the call of this number ends a machine, and its files give the old map or the new one.
fn ends_at(alloc: Global, call: u64, storing: bool) -> Result<bool, Fail> {
    let mut disk = disk_with(alloc, STORED)?;
    let mut failing = Vec::new(alloc);
    failing.push(call)?;
    disk.fail_at(failing);
    let ended = ends_anew(alloc, &mut disk, storing)?;
    let kept = opens_with(alloc, &mut disk, OLD)?
        || (!storing && opens_with(alloc, &mut disk, NEW)?);
    Ok(ended && kept)
}

#[test]
fn ends_at_a_fault(rt: HostRuntime) -> Result<(), Fail> {
    for call in 0..STORING_CALLS {
        assert!(rt;
            ends_at(rt.alloc(), OPENING_CALLS + 1 + call, true)?,
            "storing, at {call}"
        );
    }
    for call in 0..INSTALLING_CALLS {
        assert!(rt;
            ends_at(rt.alloc(), OPENING_CALLS + 1 + call, false)?,
            "installing, at {call}"
        );
    }
    Ok(())
}
