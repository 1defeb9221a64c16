//! Gate files on a disk in memory: their bytes, what they read again, and what a fault at each call leaves.
use den_disk::{Disk, Family, MemDisk, Part, Place};
use den_gate::{GateError, GateFile};
use den_model::Blob;
use std::alloc::Global;
use std::test::Fail;

const HEAD: Place = Place {
    family: Family::Log,
    part: Part::Head,
};

const SLOT: Place = Place {
    family: Family::Log,
    part: Part::A,
};

const OTHER: Place = Place {
    family: Family::Log,
    part: Part::B,
};

// The calls of a load where there is no file, and of an append to an empty slot.
const LOAD_CALLS: u64 = 3;

const APPEND_CALLS: u64 = 6;

fn append_three<D: Disk>(disk: &mut D) -> Result<(), GateError> {
    let mut gate = GateFile::load(Family::Log, disk)?;
    gate.reserve(disk, 3)?;
    gate.append(disk, b"abc")?;
    gate.append(disk, b"d")?;
    gate.append(disk, b"")
}

// Whether a load finds so many payloads, in this slot.
fn finds<D: Disk>(
    alloc: Global,
    disk: &mut D,
    part: Part,
    count: usize,
) -> Result<bool, GateError> {
    let gate = GateFile::load(Family::Log, disk)?;
    let list = gate.regions(alloc, disk)?;
    Ok(gate.part() == part && list.as_slice().len() == count)
}

// Four calls load, and two read: the length, and one piece of the file.
#[test]
fn appends_and_reads_in_one_piece(rt: HostRuntime) -> Result<(), Fail> {
    let mut disk = MemDisk::new(rt.alloc());
    append_three(&mut disk)?;
    let bytes = b"\x01\0\0\0\0\0\0\0\x03abc\x01\0\0\0\0\0\0\0\x01d\x01\0\0\0\0\0\0\0\0\0";
    assert!(rt; disk.get(SLOT).starts_with(bytes));
    assert!(rt; disk.get(SLOT).len() == 65_536);
    disk.fuse(6);
    assert!(rt; finds(rt.alloc(), &mut disk, Part::A, 3)?);
    Ok(())
}

// Whether a reader's first call fails, and those behind it give three regions.
fn reads_on<D: Disk>(alloc: Global, disk: &mut D) -> Result<bool, GateError> {
    let gate = GateFile::load(Family::Log, disk)?;
    let mut reader = gate.reader(disk)?;
    let mut payload = Vec::new(alloc);
    let failed = reader.next(disk, &mut payload).is_err();
    let first = reader.next(disk, &mut payload)? == Some(0)
        && payload.as_slice() == b"abc".as_slice();
    let second = reader.next(disk, &mut payload)? == Some(12)
        && payload.as_slice() == b"d".as_slice();
    let third = reader.next(disk, &mut payload)? == Some(22) && payload.is_empty();
    let none = reader.next(disk, &mut payload)?.is_none();
    Ok(failed && first && second && third && none)
}

// The sixth call of the disk is the reader's first read, and the seventh its last.
#[test]
fn reads_on_behind_a_fault(rt: HostRuntime) -> Result<(), Fail> {
    let mut disk = MemDisk::new(rt.alloc());
    append_three(&mut disk)?;
    disk.fail_at([6, 8].to_vec(rt.alloc())?);
    assert!(rt; reads_on(rt.alloc(), &mut disk)?);
    Ok(())
}

// Whether a room of the limit is refused, with one chunk more for the gate behind it.
fn refuses_the_limit<D: Disk>(disk: &mut D) -> Result<bool, GateError> {
    let mut gate = GateFile::load(Family::Log, disk)?;
    let full = GateError::Full {
        needed: 8_796_093_087_744,
        limit: 8_796_093_022_208,
    };
    Ok(gate.reserve(disk, 8_796_093_022_208) == Err(full) && gate.is_failed())
}

#[test]
fn reserves_no_more_than_the_limit(rt: HostRuntime) -> Result<(), Fail> {
    let mut disk = MemDisk::new(rt.alloc());
    assert!(rt; refuses_the_limit(&mut disk)?);
    assert!(rt; disk.get(SLOT).is_empty());
    Ok(())
}

// Whether an append is refused for a fault of the disk, and so are those behind it.
fn fails_to_append<D: Disk>(disk: &mut D) -> Result<bool, GateError> {
    let mut gate = GateFile::load(Family::Log, disk)?;
    Ok(gate.append(disk, b"abc") == Err(GateError::StorageIoError) && gate.is_failed())
}

// The payload stands from the write of its gate on.
#[test]
fn fails_at_each_call(rt: HostRuntime) -> Result<(), Fail> {
    for calls in 0..APPEND_CALLS {
        let mut disk = MemDisk::new(rt.alloc());
        disk.fuse(LOAD_CALLS + calls);
        assert!(rt; fails_to_append(&mut disk)?);
        disk.fuse(100);
        assert!(rt; finds(rt.alloc(), &mut disk, Part::A, usize::from(calls == 5))?);
    }
    Ok(())
}

// Whether the second of two drafts, with an append between its payloads, becomes the list.
fn commits<D: Disk>(alloc: Global, disk: &mut D) -> Result<bool, GateError> {
    let mut gate = GateFile::load(Family::Log, disk)?;
    gate.append(disk, b"old")?;
    gate.draft_begin(disk)?;
    gate.draft_push(disk, b"gone")?;
    gate.draft_begin(disk)?;
    gate.draft_push(disk, b"new")?;
    gate.append(disk, b"late")?;
    gate.draft_push(disk, b"")?;
    let drafted = gate.has_draft() && finds(alloc, disk, Part::A, 2)?;
    gate.draft_commit(disk)?;
    Ok(drafted && !gate.has_draft() && gate.part() == Part::B)
}

#[test]
fn commits_a_draft(rt: HostRuntime) -> Result<(), Fail> {
    let mut disk = MemDisk::new(rt.alloc());
    assert!(rt; commits(rt.alloc(), &mut disk)?);
    assert!(rt; disk.get(HEAD) == b"\x01".as_slice());
    assert!(rt; disk.get(SLOT).is_empty());
    let bytes = b"\x01\0\0\0\0\0\0\0\x03new\x01\0\0\0\0\0\0\0\0\0";
    assert!(rt; disk.get(OTHER).starts_with(bytes));
    assert!(rt; disk.get(OTHER).len() == 65_536);
    Ok(())
}

// Whether a rewrite passes or is refused, as it is told, and is failed where it is refused.
fn rewrites<D: Disk>(disk: &mut D, rows: &[Blob], passes: bool) -> Result<bool, GateError> {
    let mut gate = GateFile::load(Family::Log, disk)?;
    gate.append(disk, b"old")?;
    let passed = gate.rewrite(disk, rows).is_ok();
    Ok(passed == passes && gate.is_failed() != passes)
}

// A rewrite of two rows makes eighteen calls of the disk. From the sixteenth on, the write of the head, they are the list.
#[test]
fn rewrites_or_fails_at_each_call(rt: HostRuntime) -> Result<(), Fail> {
    let rows = [Blob::of(rt.alloc(), b"a")?, Blob::of(rt.alloc(), b"b")?];
    for calls in 0..19 {
        let mut disk = MemDisk::new(rt.alloc());
        disk.fuse(LOAD_CALLS + APPEND_CALLS + calls);
        assert!(rt; rewrites(&mut disk, &rows, calls >= 18)?);
        disk.fuse(100);
        let (part, count) = if calls >= 16 {
            (Part::B, 2)
        } else {
            (Part::A, 1)
        };
        assert!(rt; finds(rt.alloc(), &mut disk, part, count)?);
    }
    Ok(())
}
