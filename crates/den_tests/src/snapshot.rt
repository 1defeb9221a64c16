//! Snapshots: the bytes of a map under a mark as docs/FORMATS.md gives them, and the map that bytes give.
use den_codec::{Blob, Error, LogId, StoredPair, Word};
use den_map::Map;
use den_snapshot::Snapshot;
use std::alloc::Global;
use std::test::Fail;

const FIRST: LogId = LogId { index: 1, term: 1 };

const LATER: LogId = LogId { index: 7, term: 2 };

// The mark 1 of term 1: with no pair; with a = b of term 1 without an expiry; and with j = "" of term 3 until 2000
// beside it.
const NO_PAIR: &[u8] = b"\0\0\0\0\0\0\0\x01\0\0\0\0\0\0\0\x01\0\0\0\0\0\0\0\0";

const ONE_PAIR: &[u8] =
    b"\0\0\0\0\0\0\0\x01\0\0\0\0\0\0\0\x01\0\0\0\0\0\0\0\x01\0\0\0\0\0\0\0\x01a\0\0\0\0\0\0\0\x01b\0\0\0\0\0\0\0\x01\0\0\0\0\0\0\0\0";

const TWO_PAIRS: &[u8] =
    b"\0\0\0\0\0\0\0\x01\0\0\0\0\0\0\0\x01\0\0\0\0\0\0\0\x02\0\0\0\0\0\0\0\x01a\0\0\0\0\0\0\0\x01b\0\0\0\0\0\0\0\x01\0\0\0\0\0\0\0\0\0\0\0\0\0\0\0\x01j\0\0\0\0\0\0\0\0\0\0\0\0\0\0\0\x03\0\0\0\0\0\0\x07\xd0";

// Bytes that are no snapshot: none, a mark alone, a count without a pair, a cut pair, a byte more, a key twice, and keys
// that fall.
const NO_SNAPSHOTS: [&[u8]; 7] = [
    b"",
    b"\0\0\0\0\0\0\0\x01\0\0\0\0\0\0\0\x01",
    b"\0\0\0\0\0\0\0\x01\0\0\0\0\0\0\0\x01\0\0\0\0\0\0\0\x01",
    b"\0\0\0\0\0\0\0\x01\0\0\0\0\0\0\0\x01\0\0\0\0\0\0\0\x01\0\0\0\0\0\0\0\x01a\0\0\0\0\0\0\0\x01b\0\0\0\0\0\0\0\x01\0\0\0\0\0\0\0",
    b"\0\0\0\0\0\0\0\x01\0\0\0\0\0\0\0\x01\0\0\0\0\0\0\0\x01\0\0\0\0\0\0\0\x01a\0\0\0\0\0\0\0\x01b\0\0\0\0\0\0\0\x01\0\0\0\0\0\0\0\0\0",
    b"\0\0\0\0\0\0\0\x01\0\0\0\0\0\0\0\x01\0\0\0\0\0\0\0\x02\0\0\0\0\0\0\0\x01a\0\0\0\0\0\0\0\x01b\0\0\0\0\0\0\0\x01\0\0\0\0\0\0\0\0\0\0\0\0\0\0\0\x01a\0\0\0\0\0\0\0\0\0\0\0\0\0\0\0\x03\0\0\0\0\0\0\x07\xd0",
    b"\0\0\0\0\0\0\0\x01\0\0\0\0\0\0\0\x01\0\0\0\0\0\0\0\x02\0\0\0\0\0\0\0\x01j\0\0\0\0\0\0\0\x01b\0\0\0\0\0\0\0\x01\0\0\0\0\0\0\0\0\0\0\0\0\0\0\0\x01a\0\0\0\0\0\0\0\0\0\0\0\0\0\0\0\x03\0\0\0\0\0\0\x07\xd0",
];

// Puts a pair into the map.
fn put(
    map: &mut Map,
    alloc: Global,
    key: &[u8],
    value: &[u8],
    term: u64,
    expiry: u64,
) -> Result<(), Error> {
    let pair = StoredPair {
        key: Blob::of(alloc, key)?,
        value: Blob::of(alloc, value)?,
        term,
        expiry,
    };
    Ok(map.add_pairs(alloc, &[pair])?)
}

// Whether a snapshot of the map under the first mark has this word.
fn is_taken(map: &Map, alloc: Global, word: &[u8]) -> Result<bool, Error> {
    let snapshot = Snapshot::of_map(alloc, map, FIRST)?;
    let mut bytes = Vec::new(alloc);
    snapshot.write(&mut bytes)?;
    Ok(bytes.as_slice() == word && snapshot.size() == word.len() as u64)
}

// How many pairs and expiries the map of these bytes has, under another mark. None where they are no snapshot, or the
// map is not the one that they are of.
fn counts(alloc: Global, word: &[u8]) -> Result<Option<(usize, usize)>, Error> {
    let Some(snapshot) = Snapshot::read(alloc, word)? else {
        return Ok(None);
    };
    let map = snapshot.to_map(alloc, LATER)?;
    let marked = snapshot.mark() == FIRST && map.mark() == LATER;
    let same = is_taken(&map, alloc, word)?;
    if !marked || !same || snapshot.holds_expiry() != (0 < map.expiry_count()) {
        return Ok(None);
    }
    Ok(Some((map.len(), map.expiry_count())))
}

#[test]
fn takes_snapshots_of_a_map(rt: HostRuntime) -> Result<(), Fail> {
    let mut map = Map::at(rt.alloc(), LATER);
    assert!(rt; is_taken(&map, rt.alloc(), NO_PAIR)?);
    put(&mut map, rt.alloc(), b"a", b"b", 1, 0)?;
    assert!(rt; is_taken(&map, rt.alloc(), ONE_PAIR)?);
    put(&mut map, rt.alloc(), b"j", b"", 3, 2000)?;
    assert!(rt; is_taken(&map, rt.alloc(), TWO_PAIRS)?);
    Ok(())
}

#[test]
fn gives_the_map_of_a_snapshot(rt: HostRuntime) -> Result<(), Fail> {
    assert!(rt; counts(rt.alloc(), NO_PAIR)? == Some((0, 0)));
    assert!(rt; counts(rt.alloc(), ONE_PAIR)? == Some((1, 0)));
    assert!(rt; counts(rt.alloc(), TWO_PAIRS)? == Some((2, 1)));
    Ok(())
}

#[test]
fn refuses_what_is_no_snapshot(rt: HostRuntime) -> Result<(), Fail> {
    for bytes in NO_SNAPSHOTS {
        let read = Snapshot::read(rt.alloc(), bytes)?;
        assert!(rt; read.is_none(), "of {bytes:?}");
    }
    Ok(())
}
