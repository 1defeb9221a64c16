//! Requests of all kinds, and bad frames: frames in, bytes out, as docs/FORMATS.md gives them.
ghost use Rattle.std.specs.Prelude.{◌≤◌};

use crate::server::{
    Ending, NO_PAIR, PAIR, PUT, READ, SCAN, STATE, WRITTEN, answers, is_joined, link_of, run,
    run_by,
};
use den_codec::{RaftNodeConfig, SoloConfig};
use den_disk::{ListClock, MemDisk};
use den_tests::Pieces;
use std::alloc::Global;
use std::test::Fail;

// What a bad frame is answered, and a write of which no index is left.
const INVALID: &[u8] = b"\0\0\0\0\0\0\0\x05\x01\x0e\0\0\0";

const EXHAUSTED: &[u8] = b"\0\0\0\0\0\0\0\x05\x01\x11\0\0\0";
// A write that failed, and the members of the default configuration: this node alone, which leads.
pub(crate) const NOT_WRITTEN: &[u8] = b"\0\0\0\0\0\0\0\x06\x01\0\0\0\x01\0";

pub(crate) const ITSELF: &[u8] =
    b"\0\0\0\0\0\0\0\x38\x05\0\0\0\0\0\0\0\0\x01\0\0\0\x01\0\0\0\0\0\0\0\x01\0\0\0\x01\0\0\0\0\0\0\0\x0e127.0.0.1:9081\0\0\0\0\0\0\0\x02";
// A body of no bytes, and a tail of three.
const EMPTY_BODY: &[u8] = b"\0\0\0\0\0\0\0\0";

const TAIL: &[u8] = b"\0\0\0";
// A put whose body has 33 bytes, and a write without an operation.
const LONG_PUT: &[u8] =
    b"\0\0\0\0\0\0\0\x21\x01\0\0\0\x01\x01\0\0\0\0\0\0\0\x01a\0\0\0\0\0\0\0\x02bc\0\0\0\0\0\0\0\0";

const NO_OPERATION: &[u8] = b"\0\0\0\0\0\0\0\x06\x01\0\0\0\x01\0";
// Swaps of a: from absent to b, from b to c, and from absent to d.
const SWAP_TO_B: &[u8] =
    b"\0\0\0\0\0\0\0\x19\x01\0\0\0\x01\x03\0\0\0\0\0\0\0\x01a\0\0\0\0\0\0\0\0\x01b";

const SWAP_TO_C: &[u8] =
    b"\0\0\0\0\0\0\0\x22\x01\0\0\0\x01\x03\0\0\0\0\0\0\0\x01a\x01\0\0\0\0\0\0\0\x01b\0\0\0\0\0\0\0\x01c";

const SWAP_TO_D: &[u8] =
    b"\0\0\0\0\0\0\0\x19\x01\0\0\0\x01\x03\0\0\0\0\0\0\0\x01a\0\0\0\0\0\0\0\0\x01d";
// A scan that finds a = c at revision 4.
const SCANNED: &[u8] =
    b"\0\0\0\0\0\0\0\x23\x02\0\0\0\0\0\0\0\x04\0\0\0\0\0\0\0\x01\0\0\0\0\0\0\0\x01a\0\0\0\0\0\0\0\x01c";
// A read of a, z and a, and what it finds where a is b.
const READ_THREE: &[u8] =
    b"\0\0\0\0\0\0\0\x29\x02\0\0\0\x01\0\0\0\0\0\0\0\0\x03\0\0\0\0\0\0\0\x01a\0\0\0\0\0\0\0\x01z\0\0\0\0\0\0\0\x01a";

const PAIR_TWICE: &[u8] =
    b"\0\0\0\0\0\0\0\x31\x01\0\0\0\x02\0\0\0\0\0\0\0\x02\0\0\0\0\0\0\0\x01a\0\0\0\0\0\0\0\x01b\0\0\0\0\0\0\0\x01a\0\0\0\0\0\0\0\x01b";
// A request for the members.
pub(crate) const MEMBERS: &[u8] = b"\0\0\0\0\0\0\0\x05\x05\0\0\0\x01";
// The region of a mark at the last index but one, and at the last.
const LAST_BUT_ONE: &[u8] =
    b"\x01\0\0\0\0\0\0\0\x11\x04\xff\xff\xff\xff\xff\xff\xff\xfe\0\0\0\0\0\0\0\x01";

const LAST: &[u8] = b"\x01\0\0\0\0\0\0\0\x11\x04\xff\xff\xff\xff\xff\xff\xff\xff\0\0\0\0\0\0\0\x01";

// Whether a run over no files is answered so.
fn is_answered(alloc: Global, input: Pieces, sent: Pieces) -> Result<bool, Fail> {
    let mut disk = MemDisk::new(alloc);
    answers(alloc, &mut disk, input, sent)
}

// Bad frames, swaps, a scan, a read of many keys, and the members.
#[test]
fn answers_requests(rt: HostRuntime) -> Result<(), Fail> {
    let cases: [(Pieces, Pieces); 4] = [
        (
            &[EMPTY_BODY, NO_OPERATION, TAIL],
            &[INVALID, INVALID, INVALID],
        ),
        (
            &[SWAP_TO_B, SWAP_TO_C, SWAP_TO_D, SCAN],
            &[WRITTEN, WRITTEN, NOT_WRITTEN, SCANNED],
        ),
        (&[PUT, READ_THREE], &[WRITTEN, PAIR_TWICE]),
        (&[MEMBERS], &[ITSELF]),
    ];
    for (input, sent) in cases {
        assert!(rt; is_answered(rt.alloc(), input, sent)?, "of {input:?}");
    }
    Ok(())
}

// The default configuration, with this limit of a frame's body.
fn limited(alloc: Global, limit: u32) -> Result<SoloConfig, Fail>
    requires { 1 ≤ limit }
{
    let mut config = RaftNodeConfig::standard(alloc)?;
    config.network.max_frame_size = limit;
    Ok(config.solo()?)
}

fn passes_over(alloc: Global, disk: &mut MemDisk) -> Result<bool, Fail> {
    let config = limited(alloc, 32)?;
    let mut link = link_of(alloc, &[PUT, LONG_PUT, READ], &[])?;
    let mut clock = ListClock::steps(1000, 0);
    let ended = run_by(alloc, disk, &mut link, &mut clock, &config);
    Ok(ended == Ending::Well && is_joined(link.sent(), &[WRITTEN, INVALID, PAIR]))
}

// A frame above the limit is read past.
#[test]
fn passes_over_a_long_frame(rt: HostRuntime) -> Result<(), Fail> {
    let mut disk = MemDisk::new(rt.alloc());
    let passed = passes_over(rt.alloc(), &mut disk)?;
    assert!(rt; passed);
    Ok(())
}

// How a run of a put and a read over this file of the map ends, and whether it has sent this.
fn ends_over(
    alloc: Global,
    disk: &mut MemDisk,
    state: &[u8],
    sent: Pieces,
) -> Result<(Ending, bool), Fail> {
    disk.set(STATE, state)?;
    let mut link = link_of(alloc, &[PUT, READ], &[])?;
    let ended = run(alloc, disk, &mut link)?;
    Ok((ended, is_joined(link.sent(), sent)))
}

// The last index is the opening's; behind it no write is taken, and no opening.
#[test]
fn stops_at_the_last_index(rt: HostRuntime) -> Result<(), Fail> {
    let mut disk = MemDisk::new(rt.alloc());
    let (ended, sent) = ends_over(rt.alloc(), &mut disk, LAST_BUT_ONE, &[EXHAUSTED, NO_PAIR])?;
    assert!(rt; ended == Ending::Well && sent);
    let mut disk = MemDisk::new(rt.alloc());
    let (ended, sent) = ends_over(rt.alloc(), &mut disk, LAST, &[])?;
    assert!(rt; ended == Ending::ProposeFailed && sent);
    Ok(())
}
