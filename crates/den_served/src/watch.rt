//! Watches of a run: events behind replies, and refusals.
use crate::requests::NOT_WRITTEN;
use crate::server::{Ending, WRITTEN, is_joined, link_of, run_by};
use den_codec::RaftNodeConfig;
use den_disk::{ListClock, MemDisk};
use den_tests::Pieces;
use std::alloc::Global;
use std::test::Fail;

// Watches of all keys under /s/, with the values before, of s/, which is no prefix, and of /t/.
const WATCH_S: &[u8] = b"\0\0\0\0\0\0\0\x12\x04\0\0\0\x01\x01\x01\0\0\0\0\0\0\0\x03/s/";

const WATCH_NONE: &[u8] = b"\0\0\0\0\0\0\0\x11\x04\0\0\0\x01\x01\0\0\0\0\0\0\0\0\x02s/";

const WATCH_T: &[u8] = b"\0\0\0\0\0\0\0\x12\x04\0\0\0\x01\x01\0\0\0\0\0\0\0\0\x03/t/";
// A put of /s/a = v, a delete of it, and a swap of it from x to y.
const PUT_V: &[u8] =
    b"\0\0\0\0\0\0\0\x23\x01\0\0\0\x01\x01\0\0\0\0\0\0\0\x04/s/a\0\0\0\0\0\0\0\x01v\0\0\0\0\0\0\0\0";

const DELETE_V: &[u8] = b"\0\0\0\0\0\0\0\x12\x01\0\0\0\x01\x02\0\0\0\0\0\0\0\x04/s/a";

const SWAP_X: &[u8] =
    b"\0\0\0\0\0\0\0\x25\x01\0\0\0\x01\x03\0\0\0\0\0\0\0\x04/s/a\x01\0\0\0\0\0\0\0\x01x\0\0\0\0\0\0\0\x01y";
// Watcher 1 stands; it is told of the put at index 2, and of the delete at index 3; and the refusals.
const WATCHING: &[u8] = b"\0\0\0\0\0\0\0\x09\x03\0\0\0\0\0\0\0\x01";

const TOLD_PUT: &[u8] =
    b"\0\0\0\0\0\0\0\x2f\x04\0\0\0\0\0\0\0\x01\x01\0\0\0\0\0\0\0\x02\0\0\0\0\0\0\0\x04/s/a\0\0\0\0\0\0\0\x01v\0\0\0\0\0\0\0\0";

const TOLD_DELETE: &[u8] =
    b"\0\0\0\0\0\0\0\x2f\x04\0\0\0\0\0\0\0\x01\x02\0\0\0\0\0\0\0\x03\0\0\0\0\0\0\0\x04/s/a\0\0\0\0\0\0\0\0\0\0\0\0\0\0\0\x01v";

const NO_PREFIX: &[u8] = b"\0\0\0\0\0\0\0\x02\x06\x01";

const TOO_MANY: &[u8] = b"\0\0\0\0\0\0\0\x02\x06\x02";

// Whether a run over no files with one watcher at most ends well and has sent this.
fn sends_with_one(alloc: Global, input: Pieces, sent: Pieces) -> Result<bool, Fail> {
    let mut config = RaftNodeConfig::standard(alloc)?;
    config.raft.watch.max_watcher_count = 1;
    let config = config.solo()?;
    let mut disk = MemDisk::new(alloc);
    let mut link = link_of(alloc, input, &[])?;
    let mut clock = ListClock::steps(1000, 0);
    let ended = run_by(alloc, &mut disk, &mut link, &mut clock, &config);
    Ok(ended == Ending::Well && is_joined(link.sent(), sent))
}

// Events stand right behind the reply of their write, a swap that fails gives none, and watches are refused.
#[test]
fn tells_watchers(rt: HostRuntime) -> Result<(), Fail> {
    let input: Pieces = &[WATCH_S, PUT_V, DELETE_V, SWAP_X, WATCH_NONE, WATCH_T];
    let sent: Pieces = &[
        WATCHING,
        WRITTEN,
        TOLD_PUT,
        WRITTEN,
        TOLD_DELETE,
        NOT_WRITTEN,
        NO_PREFIX,
        TOO_MANY,
    ];
    assert!(rt; sends_with_one(rt.alloc(), input, sent)?);
    Ok(())
}
