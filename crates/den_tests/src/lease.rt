//! Leases: what they answer, and the bytes of their tables as docs/FORMATS.md gives them.
use den_codec::{Blob, Error, LeaseConfig};
use den_lease::{DefaultLease, Lease};
use std::alloc::Global;
use std::test::Fail;

const CONFIG: LeaseConfig = LeaseConfig {
    enabled: true,
    cleanup_interval_ms: 1000,
    max_cleanup_duration_ms: 0,
};

// The tables of no key, of k at 2000, of j at 3000, and of both.
const NO_KEY: &[u8] = b"\0\0\0\0\0\0\0\0";

const K_ALONE: &[u8] = b"\0\0\0\0\0\0\0\x01\0\0\0\0\0\0\0\x01k\0\0\0\0\0\0\x07\xd0";

const J_ALONE: &[u8] = b"\0\0\0\0\0\0\0\x01\0\0\0\0\0\0\0\x01j\0\0\0\0\0\0\x0b\xb8";

const TWO_KEYS: &[u8] =
    b"\0\0\0\0\0\0\0\x02\0\0\0\0\0\0\0\x01j\0\0\0\0\0\0\x0b\xb8\0\0\0\0\0\0\0\x01k\0\0\0\0\0\0\x07\xd0";

// Bytes that are no table: none, one, a count without keys, an expiry of 0, keys that fall, a key twice, and a byte more.
const NO_TABLES: [&[u8]; 7] = [
    b"",
    b"\0",
    b"\0\0\0\0\0\0\0\x01",
    b"\0\0\0\0\0\0\0\x01\0\0\0\0\0\0\0\x01k\0\0\0\0\0\0\0\0",
    b"\0\0\0\0\0\0\0\x02\0\0\0\0\0\0\0\x01k\0\0\0\0\0\0\x07\xd0\0\0\0\0\0\0\0\x01j\0\0\0\0\0\0\x0b\xb8",
    b"\0\0\0\0\0\0\0\x02\0\0\0\0\0\0\0\x01k\0\0\0\0\0\0\x07\xd0\0\0\0\0\0\0\0\x01k\0\0\0\0\0\0\x0b\xb8",
    b"\0\0\0\0\0\0\0\x01\0\0\0\0\0\0\0\x01k\0\0\0\0\0\0\x07\xd0\0",
];

// Whether this is its word, of so many keys, and whether it was ever used.
fn has<L: Lease>(lease: &L, word: &[u8], len: usize, used: bool) -> Result<bool, Error> {
    let kept = lease.to_snapshot()?;
    let counts = lease.len() == len && lease.is_empty() == (len == 0);
    Ok(counts && lease.has_lease_keys() == used && kept.as_slice() == word)
}

// Whether it is loaded with these bytes.
fn loads<L: Lease>(lease: &mut L, bytes: &[u8], len: usize) -> Result<bool, Error> {
    lease.reload(bytes)?;
    has(lease, bytes, len, true)
}

// Whether these bytes are refused, and k at 2000 is left.
fn refuses<L: Lease>(lease: &mut L, bytes: &[u8]) -> Result<bool, Error> {
    let refused = matches!(lease.reload(bytes), Err(Error::StateMachineError));
    Ok(refused && has(lease, K_ALONE, 1, true)?)
}

fn register<L: Lease>(lease: &mut L, alloc: Global, ttl_secs: u64, now: u64) -> Result<(), Error> {
    lease.register(Blob::of(alloc, b"k")?, ttl_secs, now)
}

// Sets k at 2000 and j at 3000.
fn register_both<L: Lease>(lease: &mut L, alloc: Global) -> Result<(), Error> {
    lease.register_at(Blob::of(alloc, b"k")?, 2000)?;
    lease.register_at(Blob::of(alloc, b"j")?, 3000)
}

// Whether an entry's application takes nothing out.
fn applies<L: Lease>(lease: &mut L) -> Result<bool, Error> {
    Ok(lease.on_apply().as_slice().is_empty() && has(lease, TWO_KEYS, 2, true)?)
}

// Whether these bytes are left where a key is taken away.
fn leaves<L: Lease>(lease: &mut L, key: &[u8], word: &[u8], len: usize) -> Result<bool, Error> {
    lease.unregister(key);
    has(lease, word, len, true)
}

// Whether these keys, of one byte each, are taken out at a moment.
fn takes_out<L: Lease>(lease: &mut L, now: u64, keys: &[u8]) -> Result<bool, Error> {
    let gone = lease.get_expired_keys(now)?;
    let mut taken = gone.as_slice().len() == keys.len();
    for (key, byte) in gone.as_slice().iter().zip(keys) {
        taken = taken && key.as_slice() == [*byte].as_slice();
    }
    Ok(taken)
}

// Whether some key, k, and j are expired at a moment.
fn due<L: Lease>(lease: &L, now: u64) -> [bool; 3] {
    [
        lease.may_have_expired_keys(now),
        lease.is_expired(b"k", now),
        lease.is_expired(b"j", now),
    ]
}

// Whether the lease of some bytes has this word.
fn opens(alloc: Global, bytes: &[u8], word: &[u8], len: usize) -> Result<bool, Error> {
    let lease = DefaultLease::from_snapshot(alloc, bytes, CONFIG)?;
    Ok(has(&lease, word, len, len != 0)? && *lease.config() == CONFIG)
}

#[test]
fn opens_a_word_and_what_is_none(rt: HostRuntime) -> Result<(), Fail> {
    assert!(rt; opens(rt.alloc(), TWO_KEYS, TWO_KEYS, 2)?);
    for bytes in NO_TABLES {
        assert!(rt; opens(rt.alloc(), bytes, NO_KEY, 0)?, "of {bytes:?}");
    }
    Ok(())
}

#[test]
fn reloads_a_word(rt: HostRuntime) -> Result<(), Fail> {
    let mut lease = DefaultLease::new(rt.alloc(), CONFIG);
    assert!(rt; has(&lease, NO_KEY, 0, false)?);
    assert!(rt; loads(&mut lease, TWO_KEYS, 2)?);
    assert!(rt; loads(&mut lease, NO_KEY, 0)?);
    assert!(rt; loads(&mut lease, K_ALONE, 1)?);
    for bytes in NO_TABLES {
        assert!(rt; refuses(&mut lease, bytes)?, "at {bytes:?}");
    }
    Ok(())
}

// An expiry is at 2^64 - 1 at most, and the moment 0 counts as 1.
#[test]
fn registers(rt: HostRuntime) -> Result<(), Fail> {
    let mut lease = DefaultLease::new(rt.alloc(), CONFIG);
    for (ttl_secs, now, expiry) in [
        (1, 1000, 2000),
        (2, 0, 2001),
        (0, 7, 7),
        (u64::MAX, 1, u64::MAX),
    ] {
        register(&mut lease, rt.alloc(), ttl_secs, now)?;
        let found = lease.get_expiration(b"k");
        assert!(rt; found == Some(expiry), "{ttl_secs} behind {now}");
    }
    Ok(())
}

#[test]
fn takes_keys_away(rt: HostRuntime) -> Result<(), Fail> {
    let mut lease = DefaultLease::new(rt.alloc(), CONFIG);
    register_both(&mut lease, rt.alloc())?;
    assert!(rt; lease.get_expiration(b"j") == Some(3000));
    assert!(rt; lease.get_expiration(b"jk") == None);
    assert!(rt; applies(&mut lease)?);
    assert!(rt; leaves(&mut lease, b"i", TWO_KEYS, 2)?);
    assert!(rt; leaves(&mut lease, b"j", K_ALONE, 1)?);
    assert!(rt; leaves(&mut lease, b"k", NO_KEY, 0)?);
    Ok(())
}

// Whether these are expired at a moment and taken out, and this is left of both keys.
fn expires(
    alloc: Global,
    now: u64,
    expired: [bool; 3],
    keys: &[u8],
    left: &[u8],
) -> Result<bool, Error> {
    let mut lease = DefaultLease::from_snapshot(alloc, TWO_KEYS, CONFIG)?;
    let is_due = due(&lease, now) == expired;
    let taken = takes_out(&mut lease, now, keys)?;
    Ok(is_due && taken && has(&lease, left, 2 - keys.len().min(2), true)?)
}

#[test]
fn takes_out_expired_keys(rt: HostRuntime) -> Result<(), Fail> {
    let cases: [(u64, [bool; 3], &[u8], &[u8]); 4] = [
        (1999, [false, false, false], b"", TWO_KEYS),
        (2000, [true, true, false], b"k", J_ALONE),
        (2999, [true, true, false], b"k", J_ALONE),
        (3000, [true, true, true], b"jk", NO_KEY),
    ];
    for (now, expired, keys, left) in cases {
        let right = expires(rt.alloc(), now, expired, keys, left)?;
        assert!(rt; right, "at {now}");
    }
    Ok(())
}
