//! Forty requests of services that register, watch and go, with leases: frames in, bytes out, as docs/FORMATS.md gives them.
use crate::leased::with_leases;
use crate::requests::{ITSELF, MEMBERS, NOT_WRITTEN};
use crate::server::{Ending, WRITTEN, is_joined, link_of, run_by};
use den_disk::{ListClock, MemDisk};
use den_tests::Pieces;
use std::alloc::Global;
use std::test::Fail;

// A watch of all keys under /services/, without the values before; a put of one with a time to live of thirty seconds, around
// its two digits; and a delete of one, in front of them.
const WATCH: &[u8] = b"\0\0\0\0\0\0\0\x19\x04\0\0\0\x01\x01\0\0\0\0\0\0\0\0\x0a/services/";

const PUT_OF: &[u8] = b"\0\0\0\0\0\0\0,\x01\0\0\0\x01\x01\0\0\0\0\0\0\0\x0c/services/";

const UP: &[u8] = b"\0\0\0\0\0\0\0\x02up\0\0\0\0\0\0\0\x1e";

const DELETE_OF: &[u8] = b"\0\0\0\0\0\0\0\x1a\x01\0\0\0\x01\x02\0\0\0\0\0\0\0\x0c/services/";
// Swaps of /locks/a: from absent to w1, from absent to w2, from w1 to w2. A read of it.
const SWAP_TO_W1: &[u8] =
    b"\0\0\0\0\0\0\0!\x01\0\0\0\x01\x03\0\0\0\0\0\0\0\x08/locks/a\0\0\0\0\0\0\0\0\x02w1";

const SWAP_TO_W2: &[u8] =
    b"\0\0\0\0\0\0\0!\x01\0\0\0\x01\x03\0\0\0\0\0\0\0\x08/locks/a\0\0\0\0\0\0\0\0\x02w2";

const SWAP_FROM_W1: &[u8] =
    b"\0\0\0\0\0\0\0+\x01\0\0\0\x01\x03\0\0\0\0\0\0\0\x08/locks/a\x01\0\0\0\0\0\0\0\x02w1\0\0\0\0\0\0\0\x02w2";

const READ_LOCK: &[u8] =
    b"\0\0\0\0\0\0\0\x1e\x02\0\0\0\x01\0\0\0\0\0\0\0\0\x01\0\0\0\0\0\0\0\x08/locks/a";
// A scan of the services, and a put of another key.
const SCAN_SERVICES: &[u8] = b"\0\0\0\0\0\0\0\x17\x03\0\0\0\x01\0\0\0\0\0\0\0\x0a/services/";

const PUT_PLAIN: &[u8] =
    b"\0\0\0\0\0\0\0%\x01\0\0\0\x01\x01\0\0\0\0\0\0\0\x06/plain\0\0\0\0\0\0\0\x01x\0\0\0\0\0\0\0\0";
// Watcher 1 stands. An event of a put and of a delete, in front of the last byte of its revision; a service's key, in front of its
// two digits; and what follows them: the value and none before, or neither.
const WATCHING: &[u8] = b"\0\0\0\0\0\0\0\x09\x03\0\0\0\0\0\0\0\x01";

const TOLD_PUT: &[u8] = b"\0\0\0\0\0\0\08\x04\0\0\0\0\0\0\0\x01\x01\0\0\0\0\0\0\0";

const TOLD_DELETE: &[u8] = b"\0\0\0\0\0\0\06\x04\0\0\0\0\0\0\0\x01\x02\0\0\0\0\0\0\0";

const NAME: &[u8] = b"\0\0\0\0\0\0\0\x0c/services/";

const TO_UP: &[u8] = b"\0\0\0\0\0\0\0\x02up\0\0\0\0\0\0\0\0";

const TO_NOTHING: &[u8] = b"\0\0\0\0\0\0\0\0\0\0\0\0\0\0\0\0";
// The lock's value; the scan of all sixteen at revision 20, in front of the first pair, and a pair's value; and the scan of the last
// service at revision 35.
const LOCK: &[u8] =
    b"\0\0\0\0\0\0\0'\x01\0\0\0\x02\0\0\0\0\0\0\0\x01\0\0\0\0\0\0\0\x08/locks/a\0\0\0\0\0\0\0\x02w2";

const ALL_SERVICES: &[u8] = b"\0\0\0\0\0\0\x01\xf1\x02\0\0\0\0\0\0\0\x14\0\0\0\0\0\0\0\x10";

const IS_UP: &[u8] = b"\0\0\0\0\0\0\0\x02up";

const LAST_SERVICE: &[u8] =
    b"\0\0\0\0\0\0\0/\x02\0\0\0\0\0\0\0#\0\0\0\0\0\0\0\x01\0\0\0\0\0\0\0\x0c/services/16\0\0\0\0\0\0\0\x02up";

const INPUT: Pieces = &[
    WATCH,
    PUT_OF,
    b"01",
    UP,
    PUT_OF,
    b"02",
    UP,
    PUT_OF,
    b"03",
    UP,
    PUT_OF,
    b"04",
    UP,
    PUT_OF,
    b"05",
    UP,
    PUT_OF,
    b"06",
    UP,
    PUT_OF,
    b"07",
    UP,
    PUT_OF,
    b"08",
    UP,
    PUT_OF,
    b"09",
    UP,
    PUT_OF,
    b"10",
    UP,
    PUT_OF,
    b"11",
    UP,
    PUT_OF,
    b"12",
    UP,
    PUT_OF,
    b"13",
    UP,
    PUT_OF,
    b"14",
    UP,
    PUT_OF,
    b"15",
    UP,
    PUT_OF,
    b"16",
    UP,
    SWAP_TO_W1,
    SWAP_TO_W2,
    SWAP_FROM_W1,
    READ_LOCK,
    SCAN_SERVICES,
    MEMBERS,
    DELETE_OF,
    b"01",
    DELETE_OF,
    b"02",
    DELETE_OF,
    b"03",
    DELETE_OF,
    b"04",
    DELETE_OF,
    b"05",
    DELETE_OF,
    b"06",
    DELETE_OF,
    b"07",
    DELETE_OF,
    b"08",
    DELETE_OF,
    b"09",
    DELETE_OF,
    b"10",
    DELETE_OF,
    b"11",
    DELETE_OF,
    b"12",
    DELETE_OF,
    b"13",
    DELETE_OF,
    b"14",
    DELETE_OF,
    b"15",
    SCAN_SERVICES,
    PUT_PLAIN,
];

const SENT: Pieces = &[
    WATCHING,
    WRITTEN,
    TOLD_PUT,
    b"\x02",
    NAME,
    b"01",
    TO_UP,
    WRITTEN,
    TOLD_PUT,
    b"\x03",
    NAME,
    b"02",
    TO_UP,
    WRITTEN,
    TOLD_PUT,
    b"\x04",
    NAME,
    b"03",
    TO_UP,
    WRITTEN,
    TOLD_PUT,
    b"\x05",
    NAME,
    b"04",
    TO_UP,
    WRITTEN,
    TOLD_PUT,
    b"\x06",
    NAME,
    b"05",
    TO_UP,
    WRITTEN,
    TOLD_PUT,
    b"\x07",
    NAME,
    b"06",
    TO_UP,
    WRITTEN,
    TOLD_PUT,
    b"\x08",
    NAME,
    b"07",
    TO_UP,
    WRITTEN,
    TOLD_PUT,
    b"\x09",
    NAME,
    b"08",
    TO_UP,
    WRITTEN,
    TOLD_PUT,
    b"\x0a",
    NAME,
    b"09",
    TO_UP,
    WRITTEN,
    TOLD_PUT,
    b"\x0b",
    NAME,
    b"10",
    TO_UP,
    WRITTEN,
    TOLD_PUT,
    b"\x0c",
    NAME,
    b"11",
    TO_UP,
    WRITTEN,
    TOLD_PUT,
    b"\x0d",
    NAME,
    b"12",
    TO_UP,
    WRITTEN,
    TOLD_PUT,
    b"\x0e",
    NAME,
    b"13",
    TO_UP,
    WRITTEN,
    TOLD_PUT,
    b"\x0f",
    NAME,
    b"14",
    TO_UP,
    WRITTEN,
    TOLD_PUT,
    b"\x10",
    NAME,
    b"15",
    TO_UP,
    WRITTEN,
    TOLD_PUT,
    b"\x11",
    NAME,
    b"16",
    TO_UP,
    WRITTEN,
    NOT_WRITTEN,
    WRITTEN,
    LOCK,
    ALL_SERVICES,
    NAME,
    b"01",
    IS_UP,
    NAME,
    b"02",
    IS_UP,
    NAME,
    b"03",
    IS_UP,
    NAME,
    b"04",
    IS_UP,
    NAME,
    b"05",
    IS_UP,
    NAME,
    b"06",
    IS_UP,
    NAME,
    b"07",
    IS_UP,
    NAME,
    b"08",
    IS_UP,
    NAME,
    b"09",
    IS_UP,
    NAME,
    b"10",
    IS_UP,
    NAME,
    b"11",
    IS_UP,
    NAME,
    b"12",
    IS_UP,
    NAME,
    b"13",
    IS_UP,
    NAME,
    b"14",
    IS_UP,
    NAME,
    b"15",
    IS_UP,
    NAME,
    b"16",
    IS_UP,
    ITSELF,
    WRITTEN,
    TOLD_DELETE,
    b"\x15",
    NAME,
    b"01",
    TO_NOTHING,
    WRITTEN,
    TOLD_DELETE,
    b"\x16",
    NAME,
    b"02",
    TO_NOTHING,
    WRITTEN,
    TOLD_DELETE,
    b"\x17",
    NAME,
    b"03",
    TO_NOTHING,
    WRITTEN,
    TOLD_DELETE,
    b"\x18",
    NAME,
    b"04",
    TO_NOTHING,
    WRITTEN,
    TOLD_DELETE,
    b"\x19",
    NAME,
    b"05",
    TO_NOTHING,
    WRITTEN,
    TOLD_DELETE,
    b"\x1a",
    NAME,
    b"06",
    TO_NOTHING,
    WRITTEN,
    TOLD_DELETE,
    b"\x1b",
    NAME,
    b"07",
    TO_NOTHING,
    WRITTEN,
    TOLD_DELETE,
    b"\x1c",
    NAME,
    b"08",
    TO_NOTHING,
    WRITTEN,
    TOLD_DELETE,
    b"\x1d",
    NAME,
    b"09",
    TO_NOTHING,
    WRITTEN,
    TOLD_DELETE,
    b"\x1e",
    NAME,
    b"10",
    TO_NOTHING,
    WRITTEN,
    TOLD_DELETE,
    b"\x1f",
    NAME,
    b"11",
    TO_NOTHING,
    WRITTEN,
    TOLD_DELETE,
    b" ",
    NAME,
    b"12",
    TO_NOTHING,
    WRITTEN,
    TOLD_DELETE,
    b"!",
    NAME,
    b"13",
    TO_NOTHING,
    WRITTEN,
    TOLD_DELETE,
    b"\x22",
    NAME,
    b"14",
    TO_NOTHING,
    WRITTEN,
    TOLD_DELETE,
    b"#",
    NAME,
    b"15",
    TO_NOTHING,
    LAST_SERVICE,
    WRITTEN,
];

// Whether a run with leases at readings that rise by 100 ends well and has sent this.
fn serves(alloc: Global, input: Pieces, sent: Pieces) -> Result<bool, Fail> {
    let config = with_leases(alloc, 1000)?;
    let mut disk = MemDisk::new(alloc);
    let mut link = link_of(alloc, input, &[])?;
    let mut clock = ListClock::steps(1_000_000, 100);
    let ended = run_by(alloc, &mut disk, &mut link, &mut clock, &config);
    Ok(ended == Ending::Well && is_joined(link.sent(), sent))
}

// Sixteen services register, a lock changes hands, fifteen services go, and who watches is told each time.
#[test]
fn serves_forty_frames(rt: HostRuntime) -> Result<(), Fail> {
    let served = serves(rt.alloc(), INPUT, SENT)?;
    assert!(rt; served);
    Ok(())
}
