//! The server: frames in, bytes out, and the bytes of the files, as docs/FORMATS.md gives them.
use den_codec::{Error, LogId, RaftNodeConfig, SoloConfig};
use den_disk::{Clock, Disk, DiskFault, Family, Link, ListClock, MemDisk, MemLink, Part, Place};
use den_gate::{GateError, GateFile};
use den_model::Blob;
use den_server::StandaloneEngine;
use den_store::{FileLogStore, LogStore};
use den_tests::{IN_A, IN_B, Pieces, Turn, behind, cut, file, holds_turn, is_slot};
use std::alloc::Global;
use std::test::Fail;

// A put of a = b, and a read of a.
pub(crate) const PUT: &[u8] =
    b"\0\0\0\0\0\0\0\x20\x01\0\0\0\x01\x01\0\0\0\0\0\0\0\x01a\0\0\0\0\0\0\0\x01b\0\0\0\0\0\0\0\0";

pub(crate) const READ: &[u8] =
    b"\0\0\0\0\0\0\0\x17\x02\0\0\0\x01\0\0\0\0\0\0\0\0\x01\0\0\0\0\0\0\0\x01a";
// Their replies.
pub(crate) const WRITTEN: &[u8] = b"\0\0\0\0\0\0\0\x06\x01\0\0\0\x01\x01";

pub(crate) const PAIR: &[u8] =
    b"\0\0\0\0\0\0\0\x1f\x01\0\0\0\x02\0\0\0\0\0\0\0\x01\0\0\0\0\0\0\0\x01a\0\0\0\0\0\0\0\x01b";
// A put of the empty value at a, and its reading.
const PUT_EMPTY: &[u8] =
    b"\0\0\0\0\0\0\0\x1f\x01\0\0\0\x01\x01\0\0\0\0\0\0\0\x01a\0\0\0\0\0\0\0\0\0\0\0\0\0\0\0\0";

const EMPTY_PAIR: &[u8] =
    b"\0\0\0\0\0\0\0\x1e\x01\0\0\0\x02\0\0\0\0\0\0\0\x01\0\0\0\0\0\0\0\x01a\0\0\0\0\0\0\0\0";
// A put of a = c, and its reading.
pub(crate) const PUT_C: &[u8] =
    b"\0\0\0\0\0\0\0\x20\x01\0\0\0\x01\x01\0\0\0\0\0\0\0\x01a\0\0\0\0\0\0\0\x01c\0\0\0\0\0\0\0\0";

const PAIR_C: &[u8] =
    b"\0\0\0\0\0\0\0\x1f\x01\0\0\0\x02\0\0\0\0\0\0\0\x01\0\0\0\0\0\0\0\x01a\0\0\0\0\0\0\0\x01c";
// A delete of a, and the answer to a read of a key that is not held.
const DELETE: &[u8] = b"\0\0\0\0\0\0\0\x0f\x01\0\0\0\x01\x02\0\0\0\0\0\0\0\x01a";

pub(crate) const NO_PAIR: &[u8] = b"\0\0\0\0\0\0\0\x0d\x01\0\0\0\x02\0\0\0\0\0\0\0\0";
// What is answered where a lease is asked for and none is configured, and where nothing is found under any prefix at
// revision 1.
const NO_LEASE: &[u8] = b"\0\0\0\0\0\0\0\x02\x06\x03";

const NOTHING_SCANNED: &[u8] = b"\0\0\0\0\0\0\0\x11\x02\0\0\0\0\0\0\0\x01\0\0\0\0\0\0\0\0";
// A put with a time to live, and a scan of everything.
const PUT_WITH_TTL: &[u8] =
    b"\0\0\0\0\0\0\0\x20\x01\0\0\0\x01\x01\0\0\0\0\0\0\0\x01a\0\0\0\0\0\0\0\x01b\0\0\0\0\0\0\0\x05";

pub(crate) const SCAN: &[u8] = b"\0\0\0\0\0\0\0\x0d\x03\0\0\0\x01\0\0\0\0\0\0\0\0";
// The open regions of log, hard state and state: of the first term and its entry without effect, then of the put.
const LOG_OF_NOOP: &[u8] =
    b"\x01\0\0\0\0\0\0\0\x22\x01\0\0\0\0\0\0\0\x01\0\0\0\0\0\0\0\x01\0\0\0\0\0\0\0\x01\0\0\0\0\0\0\x03\xe8\0";

const LOG_OF_PUT: &[u8] =
    b"\x01\0\0\0\0\0\0\0\x35\x01\0\0\0\0\0\0\0\x01\0\0\0\0\0\0\0\x02\0\0\0\0\0\0\0\x01\0\0\0\0\0\0\x03\xe8\x01\0\0\0\0\0\0\0\x01a\0\0\0\0\0\0\0\x01b\0";

const META: &[u8] = b"\x01\0\0\0\0\0\0\0\x15\0\0\0\0\0\0\0\x01\x01\0\0\0\x01\0\0\0\0\0\0\0\x01";

const STATE_OF_NOOP: &[u8] =
    b"\x01\0\0\0\0\0\0\0\x32\x03\0\0\0\0\0\0\0\x01\0\0\0\0\0\0\0\x01\0\0\0\0\0\0\0\x01\0\0\0\0\0\0\0\0\0\0\0\0\0\0\0\0\0\0\0\0\0\0\0\0\0";

const STATE_OF_PUT: &[u8] =
    b"\x01\0\0\0\0\0\0\0\x34\x03\0\0\0\0\0\0\0\x01\0\0\0\0\0\0\0\x02\0\0\0\0\0\0\0\x01\x01\0\0\0\0\0\0\0\x01a\0\0\0\0\0\0\0\x01b\0\0\0\0\0\0\0\0";

// The same of the second term and its entry without effect, behind the put.
const LOG_OF_SECOND: &[u8] =
    b"\x01\0\0\0\0\0\0\0\x22\x01\0\0\0\0\0\0\0\x01\0\0\0\0\0\0\0\x03\0\0\0\0\0\0\0\x02\0\0\0\0\0\0\x03\xe8\0";

const META_OF_SECOND: &[u8] =
    b"\x01\0\0\0\0\0\0\0\x15\0\0\0\0\0\0\0\x02\x01\0\0\0\x01\0\0\0\0\0\0\0\x02";

const STATE_OF_SECOND: &[u8] =
    b"\x01\0\0\0\0\0\0\0\x32\x03\0\0\0\0\0\0\0\x01\0\0\0\0\0\0\0\x03\0\0\0\0\0\0\0\x02\0\0\0\0\0\0\0\0\0\0\0\0\0\0\0\0\0\0\0\0\0\0\0\0\0";
// The put's region with its gate closed.
const LOG_OF_CLOSED_PUT: &[u8] =
    b"\0\0\0\0\0\0\0\0\x35\x01\0\0\0\0\0\0\0\x01\0\0\0\0\0\0\0\x02\0\0\0\0\0\0\0\x01\0\0\0\0\0\0\x03\xe8\x01\0\0\0\0\0\0\0\x01a\0\0\0\0\0\0\0\x01b\0";
// A log of two entries: a put of a = b with a time to live of 1, and a delete of a.
const LOG_WITH_TTL: &[u8] =
    b"\x01\0\0\0\0\0\0\0\x5f\x01\0\0\0\0\0\0\0\x02\0\0\0\0\0\0\0\x01\0\0\0\0\0\0\0\x01\0\0\0\0\0\0\x03\xe8\x01\0\0\0\0\0\0\0\x01a\0\0\0\0\0\0\0\x01b\x01\0\0\0\0\0\0\0\x01\0\0\0\0\0\0\0\x02\0\0\0\0\0\0\0\x01\0\0\0\0\0\0\x03\xe8\x02\0\0\0\0\0\0\0\x01a";
// The put of the empty value.
const LOG_OF_EMPTY: &[u8] =
    b"\x01\0\0\0\0\0\0\0\x34\x01\0\0\0\0\0\0\0\x01\0\0\0\0\0\0\0\x02\0\0\0\0\0\0\0\x01\0\0\0\0\0\0\x03\xe8\x01\0\0\0\0\0\0\0\x01a\0\0\0\0\0\0\0\0\0";

const STATE_OF_EMPTY: &[u8] =
    b"\x01\0\0\0\0\0\0\0\x33\x03\0\0\0\0\0\0\0\x01\0\0\0\0\0\0\0\x02\0\0\0\0\0\0\0\x01\x01\0\0\0\0\0\0\0\x01a\0\0\0\0\0\0\0\0\0\0\0\0\0\0\0\0";

pub(crate) const LOG: Place = Place {
    family: Family::Log,
    part: Part::A,
};

pub(crate) const STATE: Place = Place {
    family: Family::State,
    part: Part::A,
};

// How a run ends.
#[derive(Clone, Copy, PartialEq, Eq)]
pub(crate) enum Ending {
    Well,
    LinkFault,
    StorageIoError,
    FeatureNotEnabled,
    ProposeFailed,
    Otherwise,
}

// The hard state behind the first opening of a folder, and behind the second.
const FIRST: Turn = Turn {
    regions: &[META],
    ..IN_B
};

const SECOND: Turn = Turn {
    regions: &[META_OF_SECOND],
    ..IN_A
};

// The regions in the slots a of log and state, and the files of the hard state.
#[derive(Clone, Copy)]
struct Files {
    log: Pieces,
    meta: Turn,
    state: Pieces,
}

// Those of the opening alone, and of the opening and the put.
const OPENING: Files = Files {
    log: &[LOG_OF_NOOP],
    meta: FIRST,
    state: &[STATE_OF_NOOP],
};

const WITH_PUT: Files = Files {
    log: &[LOG_OF_NOOP, LOG_OF_PUT],
    meta: FIRST,
    state: &[STATE_OF_NOOP, STATE_OF_PUT],
};

pub(crate) fn ending_of(answer: &Result<(), Error>) -> Ending {
    match answer {
        Ok(()) => Ending::Well,
        Err(Error::LinkFault) => Ending::LinkFault,
        Err(Error::StorageIoError) => Ending::StorageIoError,
        Err(Error::FeatureNotEnabled) => Ending::FeatureNotEnabled,
        Err(Error::ProposeFailed) => Ending::ProposeFailed,
        Err(_) => Ending::Otherwise,
    }
}

pub(crate) fn run_by<D: Disk, L: Link, C: Clock>(
    alloc: Global,
    disk: &mut D,
    link: &mut L,
    clock: &mut C,
    config: &SoloConfig,
) -> Ending {
    let answer = StandaloneEngine::run(alloc, disk, link, clock, config);
    ending_of(&answer)
}

// A run with the default configuration and a clock that stands at 1000.
pub(crate) fn run<D: Disk, L: Link>(
    alloc: Global,
    disk: &mut D,
    link: &mut L,
) -> Result<Ending, Fail> {
    let config = RaftNodeConfig::standard(alloc)?.solo()?;
    let mut clock = ListClock::steps(1000, 0);
    Ok(run_by(alloc, disk, link, &mut clock, &config))
}

pub(crate) fn link_of(alloc: Global, pieces: Pieces, cuts: &[usize]) -> Result<MemLink, Fail> {
    let mut input = Vec::new(alloc);
    for piece in pieces {
        input.extend_from_slice(piece)?;
    }
    Ok(MemLink::new(alloc, input, cuts.to_vec(alloc)?))
}

pub(crate) fn is_joined(bytes: &[u8], pieces: Pieces) -> bool {
    matches!(behind(bytes, pieces), Some(rest) if rest.is_empty())
}

// Whether no file of the hard state has a byte.
fn has_no_hard_state(disk: &MemDisk) -> bool {
    file(disk, Family::Meta, Part::Head).is_empty()
        && file(disk, Family::Meta, Part::A).is_empty()
        && file(disk, Family::Meta, Part::B).is_empty()
}

// Whether the seven files beside those of the hard state and the slots a of log and state are empty: neither log nor state
// was written anew.
fn others_are_empty(disk: &MemDisk) -> bool {
    let mut all = file(disk, Family::Snapshot, Part::A).is_empty();
    for family in [Family::Log, Family::State, Family::Snapshot] {
        for part in [Part::Head, Part::B] {
            all = all && file(disk, family, part).is_empty();
        }
    }
    all
}

// Whether the files are these.
fn holds(disk: &MemDisk, files: Files) -> bool {
    is_slot(disk.get(LOG), files.log)
        && holds_turn(disk, Family::Meta, files.meta)
        && is_slot(disk.get(STATE), files.state)
        && others_are_empty(disk)
}

// Whether the log's slot a has these bytes, and the other eleven files none.
fn holds_alone(disk: &MemDisk, log: &[u8]) -> bool {
    disk.get(LOG) == log
        && has_no_hard_state(disk)
        && disk.get(STATE).is_empty()
        && others_are_empty(disk)
}

// Whether a run over a link ends so and has sent this.
fn sends(
    alloc: Global,
    disk: &mut MemDisk,
    mut link: MemLink,
    ending: Ending,
    sent: Pieces,
) -> Result<bool, Fail> {
    let ended = run(alloc, disk, &mut link)?;
    Ok(ended == ending && is_joined(link.sent(), sent))
}

// Whether a run over this input ends well and has sent this.
pub(crate) fn answers(
    alloc: Global,
    disk: &mut MemDisk,
    input: Pieces,
    sent: Pieces,
) -> Result<bool, Fail> {
    let link = link_of(alloc, input, &[])?;
    sends(alloc, disk, link, Ending::Well, sent)
}

// Whether a run over no files sends this and leaves these files.
fn leaves(alloc: Global, input: Pieces, sent: Pieces, files: Files) -> Result<bool, Fail> {
    let mut disk = MemDisk::new(alloc);
    Ok(answers(alloc, &mut disk, input, sent)? && holds(&disk, files))
}

// A put and a read. What is not carried out leaves the files as the opening made them.
#[test]
fn answers_frames(rt: HostRuntime) -> Result<(), Fail> {
    let cases: [(Pieces, Pieces, Files); 3] = [
        (&[], &[], OPENING),
        (&[PUT, READ], &[WRITTEN, PAIR], WITH_PUT),
        (&[PUT_WITH_TTL, SCAN], &[NO_LEASE, NOTHING_SCANNED], OPENING),
    ];
    for (input, sent, files) in cases {
        assert!(rt; leaves(rt.alloc(), input, sent, files)?, "of {input:?}");
    }
    Ok(())
}

#[test]
fn deletes(rt: HostRuntime) -> Result<(), Fail> {
    let mut disk = MemDisk::new(rt.alloc());
    let input: Pieces = &[PUT, DELETE, READ];
    assert!(rt; answers(rt.alloc(), &mut disk, input, &[WRITTEN, WRITTEN, NO_PAIR])?);
    Ok(())
}

// Whether a put and a read over a link end so and have sent this, with the put in the files.
fn keeps_put(alloc: Global, link: MemLink, ending: Ending, sent: Pieces) -> Result<bool, Fail> {
    let mut disk = MemDisk::new(alloc);
    Ok(sends(alloc, &mut disk, link, ending, sent)? && holds(&disk, WITH_PUT))
}

// Byte by byte, with a fault behind the first frame, and with one at the first reply.
#[test]
fn serves_links(rt: HostRuntime) -> Result<(), Fail> {
    let link = link_of(rt.alloc(), &[PUT, READ], &[1; 71])?;
    assert!(rt; keeps_put(rt.alloc(), link, Ending::Well, &[WRITTEN, PAIR])?);
    let mut link = link_of(rt.alloc(), &[PUT, READ], &[])?;
    link.fail_read_after(40);
    assert!(rt; keeps_put(rt.alloc(), link, Ending::LinkFault, &[WRITTEN])?);
    let mut link = link_of(rt.alloc(), &[PUT, READ], &[])?;
    link.fail_send_after(0);
    assert!(rt; keeps_put(rt.alloc(), link, Ending::LinkFault, &[])?);
    Ok(())
}

// A disk that answers no call, and a log of a time to live.
#[test]
fn turns_away(rt: HostRuntime) -> Result<(), Fail> {
    let mut disk = MemDisk::new(rt.alloc());
    disk.fuse(0);
    let link = link_of(rt.alloc(), &[PUT, READ], &[])?;
    assert!(rt; sends(rt.alloc(), &mut disk, link, Ending::StorageIoError, &[])?);
    assert!(rt; holds_alone(&disk, b""));
    let mut disk = MemDisk::new(rt.alloc());
    disk.set(LOG, LOG_WITH_TTL)?;
    let link = link_of(rt.alloc(), &[], &[])?;
    assert!(rt; sends(rt.alloc(), &mut disk, link, Ending::FeatureNotEnabled, &[])?);
    assert!(rt; holds_alone(&disk, LOG_WITH_TTL));
    Ok(())
}

#[test]
fn opens_an_empty_value_anew(rt: HostRuntime) -> Result<(), Fail> {
    let mut disk = MemDisk::new(rt.alloc());
    assert!(rt; answers(rt.alloc(), &mut disk, &[PUT_EMPTY], &[WRITTEN])?);
    assert!(rt; answers(rt.alloc(), &mut disk, &[READ], &[EMPTY_PAIR])?);
    let files = Files {
        log: &[LOG_OF_NOOP, LOG_OF_EMPTY, LOG_OF_SECOND],
        meta: SECOND,
        state: &[STATE_OF_NOOP, STATE_OF_EMPTY, STATE_OF_SECOND],
    };
    assert!(rt; holds(&disk, files));
    Ok(())
}

// Closes the first gate of a slot, without a sync; false where the file is empty.
fn close_first_gate<D: Disk>(disk: &mut D, slot: Place) -> Result<bool, DiskFault> {
    let len = disk.len(slot)?;
    if len == 0 {
        return Ok(false);
    }
    disk.write_at(slot, 0, &[0])?;
    Ok(true)
}

// The log begins anew behind a torn gate, and what stood behind it stays.
#[test]
fn opens_a_torn_log_anew(rt: HostRuntime) -> Result<(), Fail> {
    let mut disk = MemDisk::new(rt.alloc());
    assert!(rt; answers(rt.alloc(), &mut disk, &[PUT, READ], &[WRITTEN, PAIR])?);
    assert!(rt; close_first_gate(&mut disk, LOG)?);
    assert!(rt; answers(rt.alloc(), &mut disk, &[], &[])?);
    let files = Files {
        log: &[LOG_OF_SECOND, LOG_OF_CLOSED_PUT],
        meta: SECOND,
        state: &[STATE_OF_NOOP, STATE_OF_PUT, STATE_OF_SECOND],
    };
    assert!(rt; holds(&disk, files));
    Ok(())
}

// What comes of a put of a = c over the files of a put of a = b, stopped behind some calls of the disk, then a crash: the
// put came to its end; or the run answered a storage fault, and a is b or c, and c where a byte of the reply was sent;
// or not so.
#[derive(Clone, Copy, PartialEq, Eq)]
enum Stop {
    Ended,
    Kept,
    Lost,
}

// Whether a reading behind the crash finds the pair that it is to find.
fn reads_behind(alloc: Global, disk: &mut MemDisk, sent: bool) -> Result<bool, Fail> {
    let mut link = link_of(alloc, &[READ], &[])?;
    let ended = run(alloc, disk, &mut link)?;
    let found = link.sent() == PAIR_C || (!sent && link.sent() == PAIR);
    Ok(ended == Ending::Well && found)
}

fn stopped(alloc: Global, disk: &mut MemDisk, calls: u64, choice: u64) -> Result<Stop, Fail> {
    let mut link = link_of(alloc, &[PUT_C], &[])?;
    disk.fuse(calls);
    let ended = run(alloc, disk, &mut link)?;
    if ended == Ending::Well {
        return Ok(Stop::Ended);
    }
    disk.crash(choice);
    let sent = !link.sent().is_empty();
    if ended == Ending::StorageIoError && reads_behind(alloc, disk, sent)? {
        return Ok(Stop::Kept);
    }
    Ok(Stop::Lost)
}

fn stop_behind(alloc: Global, calls: u64, choice: u64) -> Result<Stop, Fail> {
    let mut disk = MemDisk::new(alloc);
    if !answers(alloc, &mut disk, &[PUT, READ], &[WRITTEN, PAIR])? {
        return Ok(Stop::Lost);
    }
    stopped(alloc, &mut disk, calls, choice)
}

// Behind how many calls the put comes to its end, where it is kept behind fewer.
fn calls_to_the_end(alloc: Global, choice: u64) -> Result<Option<u64>, Fail> {
    for calls in 0..500 {
        match stop_behind(alloc, calls, choice)? {
            Stop::Kept => {}
            Stop::Lost => return Ok(None),
            Stop::Ended => return Ok(Some(calls)),
        }
    }
    Ok(None)
}

#[test]
fn survives_a_stop_anywhere(rt: HostRuntime) -> Result<(), Fail> {
    for choice in 0..4 {
        let calls = calls_to_the_end(rt.alloc(), choice)?;
        assert!(rt; calls.unwrap_or(0) > 20, "crash {choice}");
    }
    Ok(())
}

// How many syncs a run over this input makes, in which neither log nor state is written anew.
fn syncs_of(alloc: Global, input: Pieces) -> Result<u64, Fail> {
    let mut disk = MemDisk::new(alloc);
    let mut link = link_of(alloc, input, &[])?;
    if run(alloc, &mut disk, &mut link)? != Ending::Well || !others_are_empty(&disk) {
        return Err("a run that ends otherwise")?;
    }
    Ok(disk.syncs())
}

// A put makes four syncs, and a read none.
#[test]
fn syncs(rt: HostRuntime) -> Result<(), Fail> {
    let opening = syncs_of(rt.alloc(), &[])?;
    let cases: [(Pieces, u64); 3] = [(&[PUT], 4), (&[PUT, PUT], 8), (&[PUT, READ, SCAN, READ], 4)];
    for (input, more) in cases {
        let made = syncs_of(rt.alloc(), input)?;
        assert!(rt; made.checked_sub(opening) == Some(more), "of {input:?}");
    }
    Ok(())
}

// The payloads of a checkpoint of a = b at the mark (1000, 1), and those of a record of the put, before and behind its index.
const BEGIN: &[u8] = b"\x01\0\0\0\0\0\0\x03\xe8\0\0\0\0\0\0\0\x01";

const PAIRS: &[u8] =
    b"\x02\0\0\0\0\0\0\0\x01\0\0\0\0\0\0\0\x01a\0\0\0\0\0\0\0\x01b\0\0\0\0\0\0\0\x01\0\0\0\0\0\0\0\0";

const RECORD_FRONT: &[u8] = b"\x03\0\0\0\0\0\0\0\x01";

const RECORD_REST: &[u8] =
    b"\0\0\0\0\0\0\0\x01\x01\0\0\0\0\0\0\0\x01a\0\0\0\0\0\0\0\x01b\0\0\0\0\0\0\0\0";

// The put, so many times.
fn puts(alloc: Global, count: u64) -> Result<MemLink, Fail> {
    let mut input = Vec::new(alloc);
    for _ in 0..count {
        input.extend_from_slice(PUT)?;
    }
    Ok(MemLink::new(alloc, input, Vec::new(alloc)))
}

// What follows so many answers that a put is written, if they stand in front.
fn behind_written(sent: &[u8], count: u64) -> Option<&[u8]> {
    let mut rest = sent;
    for _ in 0..count {
        rest = cut(rest, WRITTEN)?;
    }
    Some(rest)
}

// Whether puts, so many of them, are all answered as written.
fn writes(alloc: Global, disk: &mut MemDisk, count: u64) -> Result<bool, Fail> {
    let mut link = puts(alloc, count)?;
    let ended = run(alloc, disk, &mut link)?;
    let rest = behind_written(link.sent(), count);
    Ok(ended == Ending::Well && matches!(rest, Some(bytes) if bytes.is_empty()))
}

// Whether a log is purged up to (1001, 1), and has the 100 entries behind it.
fn is_purged<D: Disk, G: LogStore<D>>(log: &G) -> Result<bool, Fail> {
    let entries = log.get_entries(0, u64::MAX)?;
    let boundary = LogId {
        index: 1001,
        term: 1,
    };
    Ok(
        log.load_purge_boundary() == Some(boundary)
            && log.last_index() == 1101
            && entries.as_slice().len() == 100,
    )
}

fn opens_purged<D: Disk>(alloc: Global, disk: &mut D) -> Result<bool, Fail> {
    let log = FileLogStore::new(alloc, disk)?;
    is_purged::<D, _>(&log)
}

fn behind_index(payload: &[u8], index: u64) -> Option<&[u8]> {
    cut(cut(payload, RECORD_FRONT)?, &index.to_be_bytes())
}

// Whether these are records of the put, one each, of the indices from 1001 up to 1101.
fn are_records(payloads: &[Blob]) -> bool {
    let mut all = payloads.len() == 101;
    for (payload, index) in payloads.iter().zip(1001..1102) {
        let rest = behind_index(payload.as_slice(), index);
        all = all && matches!(rest, Some(bytes) if bytes == RECORD_REST);
    }
    all
}

// Whether these are the checkpoint, and those records behind it.
fn are_checkpointed(payloads: &[Blob]) -> bool {
    match payloads {
        [begin, pairs, records @ ..] => {
            begin.as_slice() == BEGIN && pairs.as_slice() == PAIRS && are_records(records)
        }
        _ => false,
    }
}

fn reads_checkpointed<D: Disk>(alloc: Global, disk: &mut D) -> Result<bool, GateError> {
    let gate = GateFile::load(Family::State, disk)?;
    let payloads = gate.regions(alloc, disk)?;
    Ok(are_checkpointed(payloads.as_slice()))
}

// Whether a family was written anew once: its slot b is in use, and its slot a is empty.
fn is_turned(disk: &MemDisk, family: Family) -> bool {
    file(disk, family, Part::Head) == IN_B.head && file(disk, family, Part::A).is_empty()
}

// The opening takes index 1. Behind index 1000 the state has 1,000 records, and is written anew; behind index 1001 the log
// has 1,001 entries, and is purged.
#[test]
fn eleven_hundred_puts(rt: HostRuntime) -> Result<(), Fail> {
    let mut disk = MemDisk::new(rt.alloc());
    assert!(rt; writes(rt.alloc(), &mut disk, 1100)?);
    assert!(rt; is_turned(&disk, Family::Log) && is_turned(&disk, Family::State));
    assert!(rt; reads_checkpointed(rt.alloc(), &mut disk)?);
    assert!(rt; opens_purged(rt.alloc(), &mut disk)?);
    Ok(())
}
