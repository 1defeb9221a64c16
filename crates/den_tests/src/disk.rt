//! The disk, the link, the clock, the source and the sink in memory: what they answer, and where they fail.
use den_disk::{
    Clock, Disk, DiskFault, Family, Link, LinkFault, ListClock, MemDisk, MemLink, MemSink,
    MemSource, Part, Piece, Place, Sink, SinkFault, Source, SourceFault,
};
use std::alloc::Global;
use std::test::Fail;

const LOG: Place = Place {
    family: Family::Log,
    part: Part::A,
};

const META: Place = Place {
    family: Family::Meta,
    part: Part::Head,
};

// Writes where there is room for it, behind a call that asks for the length.
fn write<D: Disk>(disk: &mut D, place: Place, at: u64, bytes: &[u8]) -> Result<(), DiskFault> {
    let len = disk.len(place)?;
    if at <= len && bytes.len() as u64 <= len - at {
        return disk.write_at(place, at, bytes);
    }
    Err(DiskFault)
}

fn write_and_sync<D: Disk>(
    disk: &mut D,
    place: Place,
    at: u64,
    bytes: &[u8],
) -> Result<(), DiskFault> {
    write(disk, place, at, bytes)?;
    disk.sync()
}

// Whether two bytes of a file are these.
fn reads_two<D: Disk>(
    disk: &mut D,
    place: Place,
    at: u64,
    bytes: [u8; 2],
) -> Result<bool, DiskFault> {
    let mut buffer = [0; 2];
    let len = disk.len(place)?;
    if at <= len && 2 <= len - at {
        disk.read_at(place, at, &mut buffer)?;
    }
    Ok(buffer == bytes)
}

// The length behind a resize, to the limit at most.
fn resize<D: Disk>(disk: &mut D, place: Place, len: u64) -> Result<u64, DiskFault> {
    let len = len.min(disk.limit());
    disk.resize(place, len)?;
    disk.len(place)
}

// A write that a cut takes half of, and zeros in the place of that half.
fn write_and_cut<D: Disk>(disk: &mut D) -> Result<(), DiskFault> {
    write(disk, LOG, 1, b"XY")?;
    resize(disk, LOG, 2)?;
    resize(disk, LOG, 4)?;
    Ok(())
}

// Which of five syncs pass.
fn syncs<D: Disk>(disk: &mut D) -> [bool; 5] {
    [
        disk.sync().is_ok(),
        disk.sync().is_ok(),
        disk.sync().is_ok(),
        disk.sync().is_ok(),
        disk.sync().is_ok(),
    ]
}

// Whether the first of three calls passes, and the others fail.
fn passes_once<D: Disk>(disk: &mut D) -> bool {
    disk.len(LOG).is_ok() && disk.len(LOG).is_err() && disk.len(LOG).is_err()
}

// Whether the two files have these bytes, and moment, calls and syncs are these.
fn stands(disk: &MemDisk, log: &[u8], meta: &[u8], counts: (u64, u64, u64)) -> bool {
    let counted = (disk.moment(), disk.calls(), disk.syncs());
    disk.get(LOG) == log && disk.get(META) == meta && counted == counts
}

fn put(disk: &mut MemDisk, log: &[u8], meta: &[u8]) -> Result<(), Fail> {
    disk.set(LOG, log)?;
    disk.set(META, meta)?;
    Ok(())
}

// A length and a write and a sync are three calls, of which the last two make two moments each.
#[test]
fn keeps_what_is_put(rt: HostRuntime) -> Result<(), Fail> {
    let mut disk = MemDisk::new(rt.alloc());
    put(&mut disk, b"abc", b"d")?;
    assert!(rt; stands(&disk, b"abc", b"d", (0, 0, 0)));
    write_and_sync(&mut disk, LOG, 1, b"xy")?;
    assert!(rt; stands(&disk, b"axy", b"d", (4, 3, 1)));
    disk.set(META, b"")?;
    assert!(rt; stands(&disk, b"axy", b"", (0, 3, 0)));
    Ok(())
}

// Whether a resize leaves these bytes.
fn resizes(disk: &mut MemDisk, len: u64, bytes: &[u8]) -> Result<bool, DiskFault> {
    Ok(resize(disk, META, len)? == len && disk.get(META) == bytes)
}

#[test]
fn reads_and_resizes(rt: HostRuntime) -> Result<(), Fail> {
    let mut disk = MemDisk::new(rt.alloc());
    disk.set(META, b"abc")?;
    assert!(rt; reads_two(&mut disk, META, 1, *b"bc")?);
    assert!(rt; resizes(&mut disk, 5, b"abc\0\0")?);
    assert!(rt; resizes(&mut disk, 1, b"a")?);
    assert!(rt; disk.limit() == 1 << 43);
    Ok(())
}

// Whether a crash of this choice leaves these bytes, and a disk that works.
fn crashes_to(disk: &mut MemDisk, choice: u64, bytes: &[u8]) -> Result<bool, Fail> {
    disk.set(LOG, b"abcdef")?;
    write_and_cut(disk)?;
    disk.fuse(0);
    disk.crash(choice);
    Ok(disk.get(LOG) == bytes && disk.sync().is_ok())
}

#[test]
fn crashes(rt: HostRuntime) -> Result<(), Fail> {
    let cases = [
        (0, b"ab\0\0".as_slice()),
        (1, b"aX\0\0".as_slice()),
        (2, b"a\xc4\0\0".as_slice()),
    ];
    for (choice, bytes) in cases {
        let mut disk = MemDisk::new(rt.alloc());
        assert!(rt; crashes_to(&mut disk, choice, bytes)?, "at choice {choice}");
    }
    Ok(())
}

#[test]
fn keeps_what_was_synced(rt: HostRuntime) -> Result<(), Fail> {
    let mut disk = MemDisk::new(rt.alloc());
    put(&mut disk, b"", b"ab")?;
    write_and_sync(&mut disk, META, 1, b"c")?;
    disk.crash(0);
    assert!(rt; disk.get(META) == b"ac".as_slice());
    Ok(())
}

#[test]
fn fails_where_it_is_told(rt: HostRuntime) -> Result<(), Fail> {
    let mut disk = MemDisk::new(rt.alloc());
    disk.sync()?;
    disk.fail_at([2, 4].to_vec(rt.alloc())?);
    assert!(rt; syncs(&mut disk) == [true, false, true, false, true]);
    disk.fuse(1);
    assert!(rt; passes_once(&mut disk));
    assert!(rt; stands(&disk, b"", b"", (8, 9, 4)));
    Ok(())
}

// Whether a read gives this piece, and puts these bytes in front of two.
fn gives<L: Link>(link: &mut L, piece: Piece, bytes: [u8; 2]) -> Result<bool, LinkFault> {
    let mut buffer = *b"00";
    Ok(link.read(&mut buffer)? == piece && buffer == bytes)
}

// Whether a read gives so many bytes, and the next one fails.
fn gives_once<L: Link>(link: &mut L, count: usize) -> bool {
    let mut buffer = [0; 4];
    link.read(&mut buffer) == Ok(Piece::Got(count)) && link.read(&mut buffer) == Err(LinkFault)
}

// Whether a send passes, and two more fail behind a sync.
fn sends_once<D: Disk, L: Link>(disk: &mut D, link: &mut L) -> Result<bool, DiskFault> {
    let first = link.send(b"ab", disk).is_ok();
    disk.sync()?;
    Ok(first && link.send(b"cdef", disk).is_err() && link.send(b"g", disk).is_err())
}

fn link_of(alloc: Global, input: &[u8], cuts: &[usize]) -> Result<MemLink, Fail> {
    let input = input.to_vec(alloc)?;
    Ok(MemLink::new(alloc, input, cuts.to_vec(alloc)?))
}

#[test]
fn gives_the_input_in_cuts(rt: HostRuntime) -> Result<(), Fail> {
    let mut link = link_of(rt.alloc(), b"abcdefgh", &[1, 0, 3])?;
    for (count, bytes) in [
        (1, *b"a0"),
        (1, *b"b0"),
        (2, *b"cd"),
        (2, *b"ef"),
        (2, *b"gh"),
    ] {
        assert!(rt; gives(&mut link, Piece::Got(count), bytes)?);
    }
    assert!(rt; gives(&mut link, Piece::End, *b"00")?);
    Ok(())
}

#[test]
fn fails_a_read_where_it_is_told(rt: HostRuntime) -> Result<(), Fail> {
    let mut link = link_of(rt.alloc(), b"abcdef", &[])?;
    link.fail_read_after(3);
    assert!(rt; gives_once(&mut link, 3));
    link.fail_read_after(6);
    link.set_budget(5);
    assert!(rt; gives_once(&mut link, 2));
    Ok(())
}

#[test]
fn sends_what_fits(rt: HostRuntime) -> Result<(), Fail> {
    let mut disk = MemDisk::new(rt.alloc());
    let mut link = link_of(rt.alloc(), b"", &[])?;
    link.fail_send_after(5);
    assert!(rt; sends_once(&mut disk, &mut link)?);
    assert!(rt; link.sent() == b"abcde".as_slice());
    Ok(())
}

// Whether these are the next five readings.
fn tells<C: Clock>(clock: &mut C, readings: [u64; 5]) -> bool {
    let told = [
        clock.now(),
        clock.now(),
        clock.now(),
        clock.now(),
        clock.now(),
    ];
    told == readings
}

// Behind its end a list stands still, and one of no reading stands at 1.
#[test]
fn gives_its_readings(rt: HostRuntime) -> Result<(), Fail> {
    let mut clock = ListClock::new([5, 0, 7].to_vec(rt.alloc())?);
    assert!(rt; tells(&mut clock, [5, 0, 7, 7, 7]));
    let mut clock = ListClock::new(Vec::new(rt.alloc()));
    assert!(rt; tells(&mut clock, [1; 5]));
    let mut clock = ListClock::steps(u64::MAX - 3, 2);
    let last = u64::MAX;
    assert!(rt; tells(&mut clock, [last - 3, last - 1, last, last, last]));
    Ok(())
}

// Whether a read into this buffer gives this piece and leaves these bytes.
fn reads<S: Source>(source: &mut S, mut buffer: [u8; 2], piece: Piece, bytes: [u8; 2]) -> bool {
    source.read(&mut buffer) == Ok(piece) && buffer == bytes
}

fn reads_to_the_end<S: Source>(source: &mut S) -> bool {
    reads(source, *b"00", Piece::Got(2), *b"ab")
        && reads(source, *b"ab", Piece::Got(1), *b"cb")
        && reads(source, *b"cb", Piece::End, *b"cb")
}

fn reads_to_a_fault<S: Source>(source: &mut S) -> bool {
    reads(source, *b"00", Piece::Got(1), *b"a0") && source.read(&mut [0]) == Err(SourceFault)
}

#[test]
fn reads_to_the_end_or_to_a_fault(rt: HostRuntime) -> Result<(), Fail> {
    let mut source = MemSource::new(b"abc".to_vec(rt.alloc())?);
    assert!(rt; reads_to_the_end(&mut source));
    let mut source = MemSource::new(b"abc".to_vec(rt.alloc())?);
    source.fail_after(1);
    assert!(rt; reads_to_a_fault(&mut source));
    Ok(())
}

fn write_two<S: Sink>(sink: &mut S, piece: &[u8; 2]) -> Result<(), SinkFault> {
    sink.write(piece)
}

#[test]
fn writes_what_fits(rt: HostRuntime) {
    let mut sink = MemSink::new(rt.alloc());
    assert!(rt; write_two(&mut sink, b"ab") == Ok(()));
    sink.fail_after(3);
    assert!(rt; write_two(&mut sink, b"cd") == Err(SinkFault));
    assert!(rt; sink.bytes() == b"abc".as_slice());
}
