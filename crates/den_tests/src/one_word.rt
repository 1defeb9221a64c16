//! Families of one word: what is read of their files, and what a write leaves of them.
use crate::turn::{IN_A, IN_B, Turn, holds_turn};
use den_codec::{Error, HardState};
use den_disk::{Disk, Family, MemDisk, Part, Place};
use den_journal::{read_one, write_one};
use den_model::Blob;
use std::alloc::Global;
use std::test::Fail;

const HEAD: Place = Place {
    family: Family::Snapshot,
    part: Part::Head,
};

const A: Place = Place {
    family: Family::Snapshot,
    part: Part::A,
};

const B: Place = Place {
    family: Family::Snapshot,
    part: Part::B,
};

const STATE: HardState = HardState {
    current_term: 3,
    voted_for: None,
};

const NEXT_STATE: HardState = HardState {
    current_term: 4,
    voted_for: None,
};

// The words of both, and the regions of the words.
const WORD: &[u8] = b"\0\0\0\0\0\0\0\x03\0";

const NEXT_WORD: &[u8] = b"\0\0\0\0\0\0\0\x04\0";

const REGION: &[u8] = b"\x01\0\0\0\0\0\0\0\x09\0\0\0\0\0\0\0\x03\0";

const NEXT_REGION: &[u8] = b"\x01\0\0\0\0\0\0\0\x09\0\0\0\0\0\0\0\x04\0";

const BOTH_REGIONS: &[u8] =
    b"\x01\0\0\0\0\0\0\0\x09\0\0\0\0\0\0\0\x03\0\x01\0\0\0\0\0\0\0\x09\0\0\0\0\0\0\0\x04\0";

// A region behind which another runs past the end, one that does, and one that is no word.
const CUT_BEHIND: &[u8] = b"\x01\0\0\0\0\0\0\0\x09\0\0\0\0\0\0\0\x03\0\x01\0\0";

const CUT: &[u8] = b"\x01\0\0\0\0\0\0\0\x09\0\0\0\0\0\0\0\x03";

const NO_WORD: &[u8] = b"\x01\0\0\0\0\0\0\0\x08\0\0\0\0\0\0\0\x03\0";

// The calls of the disk that a write makes of one word in the place of another.
const WRITE_CALLS: u64 = 17;

/// The Snapshot family's head and both slots.
#[derive(Clone, Copy)]
pub(crate) struct Bytes {
    pub(crate) head: &'static [u8],
    pub(crate) a: &'static [u8],
    pub(crate) b: &'static [u8],
}

/// A disk with these files alone.
pub(crate) fn disk_of(alloc: Global, bytes: Bytes) -> Result<MemDisk, Fail> {
    let mut disk = MemDisk::new(alloc);
    put(&mut disk, bytes)?;
    Ok(disk)
}

/// Puts these files.
pub(crate) fn put(disk: &mut MemDisk, bytes: Bytes) -> Result<(), Fail> {
    disk.set(HEAD, bytes.head)?;
    disk.set(A, bytes.a)?;
    Ok(disk.set(B, bytes.b)?)
}

fn read<D: Disk>(alloc: Global, disk: &mut D) -> Result<HardState, Error> {
    read_one::<HardState, D>(alloc, disk, Family::Snapshot)
}

fn write<D: Disk>(alloc: Global, disk: &mut D, word: &[u8]) -> Result<(), Error> {
    write_one(disk, Family::Snapshot, Blob::of(alloc, word)?)
}

fn is_refused(alloc: Global, bytes: Bytes, place: u8) -> Result<bool, Fail> {
    let mut disk = disk_of(alloc, bytes)?;
    Ok(read(alloc, &mut disk) == Err(Error::DataCorruption { place, offset: 0 }))
}

// Files that are not one region of a word, with the number of the slot in use.
const NO_ONE: [(Bytes, u8); 5] = [
    (
        Bytes {
            head: b"",
            a: b"",
            b: REGION,
        },
        10,
    ),
    (
        Bytes {
            head: b"\x01",
            a: REGION,
            b: BOTH_REGIONS,
        },
        11,
    ),
    (
        Bytes {
            head: b"\x01",
            a: REGION,
            b: CUT_BEHIND,
        },
        11,
    ),
    (
        Bytes {
            head: b"\0",
            a: CUT,
            b: REGION,
        },
        10,
    ),
    (
        Bytes {
            head: b"\0",
            a: NO_WORD,
            b: REGION,
        },
        10,
    ),
];

#[test]
fn reads_one_word_alone(rt: HostRuntime) -> Result<(), Fail> {
    for (bytes, place) in NO_ONE {
        assert!(rt; is_refused(rt.alloc(), bytes, place)?);
    }
    let bytes = Bytes {
        head: b"\x01",
        a: CUT,
        b: REGION,
    };
    let mut disk = disk_of(rt.alloc(), bytes)?;
    assert!(rt; read(rt.alloc(), &mut disk) == Ok(STATE));
    Ok(())
}

// Files that can be read are written anew in the slot that is not in use, and others from nothing.
#[test]
fn writes_one_word(rt: HostRuntime) -> Result<(), Fail> {
    let cut = Bytes {
        head: b"\x01",
        a: NEXT_REGION,
        b: CUT_BEHIND,
    };
    let mut disk = disk_of(rt.alloc(), cut)?;
    write(rt.alloc(), &mut disk, WORD)?;
    let one = Turn {
        regions: &[REGION],
        ..IN_B
    };
    assert!(rt; holds_turn(&disk, Family::Snapshot, one));
    write(rt.alloc(), &mut disk, NEXT_WORD)?;
    let next = Turn {
        regions: &[NEXT_REGION],
        ..IN_A
    };
    assert!(rt; holds_turn(&disk, Family::Snapshot, next));
    assert!(rt; read(rt.alloc(), &mut disk) == Ok(NEXT_STATE));
    let both = Bytes {
        head: b"",
        a: BOTH_REGIONS,
        b: b"",
    };
    let mut disk = disk_of(rt.alloc(), both)?;
    write(rt.alloc(), &mut disk, WORD)?;
    assert!(rt; holds_turn(&disk, Family::Snapshot, one));
    Ok(())
}

// The word that stood there is read, or the new one, whatever a crash makes of what is pending.
#[test]
fn keeps_a_word_at_each_call(rt: HostRuntime) -> Result<(), Fail> {
    for calls in 0..WRITE_CALLS + 1 {
        for choice in 0..3 {
            let mut disk = MemDisk::new(rt.alloc());
            write(rt.alloc(), &mut disk, WORD)?;
            disk.fuse(calls);
            let done = write(rt.alloc(), &mut disk, NEXT_WORD).is_ok();
            assert!(rt; done == (calls == WRITE_CALLS));
            disk.crash(choice);
            let found = read(rt.alloc(), &mut disk)?;
            assert!(rt; found == NEXT_STATE || (found == STATE && !done));
        }
    }
    Ok(())
}

// Once the files are emptied, slots first, no crash brings back the old word in the other slot.
#[test]
fn brings_back_no_old_word(rt: HostRuntime) -> Result<(), Fail> {
    let cut = Bytes {
        head: b"\x01",
        a: REGION,
        b: CUT,
    };
    for calls in 0..WRITE_CALLS {
        let mut disk = disk_of(rt.alloc(), cut)?;
        disk.fuse(calls);
        assert!(rt; write(rt.alloc(), &mut disk, NEXT_WORD).is_err());
        disk.crash(1);
        assert!(rt; read(rt.alloc(), &mut disk) != Ok(STATE));
    }
    Ok(())
}
