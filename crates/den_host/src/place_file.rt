// The open files of a folder, and which of them were written since they were last synced.
ghost use Rattle.std.specs.Prelude.{◌≡◌, ◌↔◌, false, OnOk, OnErr, IsErr};

use crate::cause::Cause;
use den_disk::{Family, Part, Place};
use std::alloc::Global;
use std::fs::{OpenFile, OpenOptions};
use std::io;
use std::io::ErrorKind;
use std::os::unix::fs::{FileExt, OpenOptionsExt};
use std::path::Path;
use std::rt::Files;

// What a file was given since it was last synced.
#[derive(Clone, Copy)]
enum Unsynced {
    Nothing,
    Bytes,
    Length,
    // A sync failed, after which the operating system may have dropped what was written.
    Lost,
}

// An open file of a folder, or the folder itself.
#[derive(Drop)]
pub(crate) struct PlaceFile<F> {
    file: F,
    // Its length, where it is known: a call that failed leaves it open.
    len: Option<u64>,
    unsynced: Unsynced,
}

impl<F> PlaceFile<F> {
    // What an earlier process left in it counts as not synced.
    pub(crate) fn new(file: F) -> PlaceFile<F> {
        PlaceFile {
            file,
            len: None,
            unsynced: Unsynced::Length,
        }
    }

    // Opens a file that is there.
    fn open<R: Files<File = F>>(
        rt: &R,
        alloc: Global,
        folder: Path<'_>,
        place: Place,
    ) -> Result<Option<PlaceFile<F>>, Cause> {
        match open_place(OpenOptions::new(), rt, alloc, folder, place) {
            Ok(file) => Ok(Some(PlaceFile::new(file))),
            Err(e) if e.kind() == ErrorKind::NotFound => Ok(None),
            Err(e) => Err(Cause::Call(Some(place), e.into())),
        }
    }

    // Makes a file, which its owner alone may read and write.
    pub(crate) fn make<R: Files<File = F>>(
        rt: &R,
        alloc: Global,
        folder: Path<'_>,
        place: Place,
    ) -> Result<PlaceFile<F>, Cause> {
        let mut options = OpenOptions::new();
        options.create(true).mode(0o600);
        match open_place(options, rt, alloc, folder, place) {
            Ok(file) => Ok(PlaceFile::new(file)),
            Err(e) => Err(Cause::Call(Some(place), e.into())),
        }
    }

    // Why a call on it failed: a sync is told from others, since after it reads may show what the disk does not have.
    pub(crate) fn cause(&self, place: Option<Place>, error: io::Error) -> Cause {
        match self.unsynced {
            Unsynced::Lost => Cause::Sync(place, error.into()),
            _ => Cause::Call(place, error.into()),
        }
    }

    // Whether a sync has something to do, or has failed.
    pub(crate) fn is_unsynced(&self) -> bool
        ensures { (result ≡ false) ↔ (self.now.unsynced ≡ Unsynced.Nothing) }
    {
        !matches!(self.unsynced, Unsynced::Nothing)
    }

    // Notes that a sync has to take more than bytes: names in a folder, or a length.
    pub(crate) fn note_length(&mut self)
        ensures lost { self.old.unsynced ≡ Unsynced.Lost → self.new.unsynced ≡ Unsynced.Lost }
    {
        match self.unsynced {
            Unsynced::Lost => {}
            _ => self.unsynced = Unsynced::Length,
        }
    }
}

impl<F: OpenFile> PlaceFile<F> {
    // Makes last what was written since the last sync.
    pub(crate) fn sync(&mut self) -> io::Result<()>
        ensures synced { OnOk result (self.new.unsynced ≡ Unsynced.Nothing) }
        ensures lost { self.old.unsynced ≡ Unsynced.Lost → IsErr result × (self.new.unsynced ≡ Unsynced.Lost) }
        ensures failed { OnErr result (self.new.unsynced ≡ Unsynced.Lost) }
    {
        let synced = match self.unsynced {
            Unsynced::Nothing => return Ok(()),
            Unsynced::Bytes => self.file.sync_data(),
            Unsynced::Length => self.file.sync_all(),
            Unsynced::Lost => Err(io::Error::from(ErrorKind::Other)),
        };
        self.unsynced = match synced {
            Ok(()) => Unsynced::Nothing,
            Err(_) => Unsynced::Lost,
        };
        if synced.is_err() {
            self.len = None;
        }
        synced
    }
}

impl<F: OpenFile + FileExt> PlaceFile<F> {
    // Its length, of which the operating system is asked where it is not known.
    pub(crate) fn len(&mut self) -> io::Result<u64> {
        match self.len {
            Some(len) => Ok(len),
            None => Ok(*self.len.insert(self.file.metadata()?.len())),
        }
    }

    // Fills the buffer, or fails where the file ends inside it.
    pub(crate) fn read_at(&mut self, at: u64, buffer: &mut [u8]) -> io::Result<()> {
        let read = self.file.read_exact_at(buffer, at);
        if read.is_err() {
            self.len = None;
        }
        read
    }

    pub(crate) fn write_at(&mut self, at: u64, bytes: &[u8]) -> io::Result<()>
        ensures noted { self.new.unsynced ≡ Unsynced.Nothing → ⊥ }
        ensures lost { self.old.unsynced ≡ Unsynced.Lost → self.new.unsynced ≡ Unsynced.Lost }
    {
        if let Unsynced::Nothing = self.unsynced {
            self.unsynced = Unsynced::Bytes;
        }
        let known = self.len.take();
        self.file.write_all_at(bytes, at)?;
        let end = at.saturating_add(bytes.len() as u64);
        self.len = known.map(|len| len.max(end));
        Ok(())
    }

    // Sets the length, and makes it last.
    pub(crate) fn resize(&mut self, len: u64) -> io::Result<()>
        ensures synced { OnOk result (self.new.unsynced ≡ Unsynced.Nothing) }
        ensures lost { self.old.unsynced ≡ Unsynced.Lost → IsErr result × (self.new.unsynced ≡ Unsynced.Lost) }
    {
        self.note_length();
        self.len = None;
        self.file.set_len(len)?;
        self.sync()?;
        self.len = Some(len);
        Ok(())
    }
}

// Opens the file of a place for reading and writing.
fn open_place<R: Files>(
    mut options: OpenOptions,
    rt: &R,
    alloc: Global,
    folder: Path<'_>,
    place: Place,
) -> io::Result<R::File> {
    let path = folder.join(alloc, place.name())?;
    options.read(true).write(true).open(rt, path.as_path())
}

// The three files of one family, those that are there.
#[derive(Drop)]
struct Three<F> {
    head: Option<PlaceFile<F>>,
    a: Option<PlaceFile<F>>,
    b: Option<PlaceFile<F>>,
}

impl<F> Three<F> {
    fn new() -> Three<F> {
        Three {
            head: None,
            a: None,
            b: None,
        }
    }

    fn open<R: Files<File = F>>(
        rt: &R,
        alloc: Global,
        folder: Path<'_>,
        family: Family,
    ) -> Result<Three<F>, Cause> {
        Ok(Three {
            head: PlaceFile::open(
                rt,
                alloc,
                folder,
                Place {
                    family,
                    part: Part::Head,
                },
            )?,
            a: PlaceFile::open(
                rt,
                alloc,
                folder,
                Place {
                    family,
                    part: Part::A,
                },
            )?,
            b: PlaceFile::open(
                rt,
                alloc,
                folder,
                Place {
                    family,
                    part: Part::B,
                },
            )?,
        })
    }

    fn at(&mut self, part: Part) -> &mut Option<PlaceFile<F>> {
        match part {
            Part::Head => &mut self.head,
            Part::A => &mut self.a,
            Part::B => &mut self.b,
        }
    }
}

impl<F: OpenFile> Three<F> {
    #[inline(always)]
    fn sync(&mut self, family: Family) -> Result<(), Cause> {
        sync_one(&mut self.head, family, Part::Head)?;
        sync_one(&mut self.a, family, Part::A)?;
        sync_one(&mut self.b, family, Part::B)
    }
}

// Makes last what was written in a file since its last sync, where it is there. It is inlined, so that a sync costs a
// comparison for each file that was not written.
#[inline(always)]
fn sync_one<F: OpenFile>(
    file: &mut Option<PlaceFile<F>>,
    family: Family,
    part: Part,
) -> Result<(), Cause> {
    match file {
        Some(file) if file.is_unsynced() => sync_place(file, Place { family, part }),
        _ => Ok(()),
    }
}

// Makes last what was written in the file of a place since its last sync.
#[inline(never)]
fn sync_place<F: OpenFile>(file: &mut PlaceFile<F>, place: Place) -> Result<(), Cause> {
    match file.sync() {
        Ok(()) => Ok(()),
        Err(e) => Err(file.cause(Some(place), e)),
    }
}

// The files of all places, those that are there.
#[derive(Drop)]
pub(crate) struct Twelve<F> {
    log: Three<F>,
    meta: Three<F>,
    state: Three<F>,
    snapshot: Three<F>,
}

impl<F> Twelve<F> {
    pub(crate) fn new() -> Twelve<F> {
        Twelve {
            log: Three::new(),
            meta: Three::new(),
            state: Three::new(),
            snapshot: Three::new(),
        }
    }

    // Opens the files of a folder.
    pub(crate) fn open<R: Files<File = F>>(
        rt: &R,
        alloc: Global,
        folder: Path<'_>,
    ) -> Result<Twelve<F>, Cause> {
        Ok(Twelve {
            log: Three::open(rt, alloc, folder, Family::Log)?,
            meta: Three::open(rt, alloc, folder, Family::Meta)?,
            state: Three::open(rt, alloc, folder, Family::State)?,
            snapshot: Three::open(rt, alloc, folder, Family::Snapshot)?,
        })
    }

    pub(crate) fn at(&mut self, place: Place) -> &mut Option<PlaceFile<F>> {
        match place.family {
            Family::Log => self.log.at(place.part),
            Family::Meta => self.meta.at(place.part),
            Family::State => self.state.at(place.part),
            Family::Snapshot => self.snapshot.at(place.part),
        }
    }
}

impl<F: OpenFile> Twelve<F> {
    // Makes last what was written in each since its last sync.
    pub(crate) fn sync(&mut self) -> Result<(), Cause> {
        self.log.sync(Family::Log)?;
        self.meta.sync(Family::Meta)?;
        self.state.sync(Family::State)?;
        self.snapshot.sync(Family::Snapshot)
    }
}

#[cfg(test)]
mod tests {
    use super::*;
    use std::cell::Cell;
    use std::fs::Metadata;
    use std::test::Fail;

    // A file that counts its syncs, of which one may fail.
    #[derive(Drop)]
    struct Counted<'a> {
        syncs: &'a Cell<u32>,
        failing: u32,
    }

    impl Counted<'_> {
        fn sync(&self) -> io::Result<()> {
            let number = self.syncs.get().saturating_add(1);
            self.syncs.set(number);
            if number == self.failing {
                return Err(io::Error::from(ErrorKind::Other));
            }
            Ok(())
        }
    }

    impl OpenFile for Counted<'_> {
        fn metadata(&self) -> io::Result<Metadata> {
            Ok(Metadata::of_file(0))
        }

        fn set_len(&self, _size: u64) -> io::Result<()> {
            Ok(())
        }

        fn sync_all(&self) -> io::Result<()> {
            self.sync()
        }

        fn sync_data(&self) -> io::Result<()> {
            self.sync()
        }
    }

    impl FileExt for Counted<'_> {
        fn read_at(&self, _buf: &mut [u8], _offset: u64) -> io::Result<usize> {
            Ok(0)
        }

        fn write_at(&self, buf: &[u8], _offset: u64) -> io::Result<usize> {
            Ok(buf.len())
        }
    }

    fn open_counted(syncs: &Cell<u32>, failing: u32) -> Option<PlaceFile<Counted<'_>>> {
        Some(PlaceFile::new(Counted { syncs, failing }))
    }

    #[test]
    fn syncs_what_was_written(rt: HostRuntime) -> Result<(), Fail> {
        let (log, state) = (Cell::new(0), Cell::new(0));
        let mut files = Twelve {
            log: Three {
                head: None,
                a: open_counted(&log, 0),
                b: None,
            },
            meta: Three::new(),
            state: Three {
                head: None,
                a: None,
                b: open_counted(&state, 0),
            },
            snapshot: Three::new(),
        };
        files.sync()?;
        assert_eq!(rt;
            (log.get(), state.get()),
            (1, 1),
            "what an earlier process left"
        );
        files.sync()?;
        assert_eq!(rt; (log.get(), state.get()), (1, 1), "nothing");
        let place = Place {
            family: Family::Log,
            part: Part::A,
        };
        if let Some(file) = files.at(place) {
            file.write_at(0, b"gate")?;
        }
        files.sync()?;
        assert_eq!(rt; (log.get(), state.get()), (2, 1), "one file");
        let place = Place {
            family: Family::State,
            part: Part::B,
        };
        if let Some(file) = files.at(place) {
            file.resize(9)?;
        }
        files.sync()?;
        assert_eq!(rt; (log.get(), state.get()), (2, 2), "a resize has synced it");
        Ok(())
    }

    #[test]
    fn stays_lost_after_a_failed_sync(rt: HostRuntime) {
        let syncs = Cell::new(0);
        let mut files = Three {
            head: open_counted(&syncs, 1),
            a: None,
            b: None,
        };
        assert!(rt; files.sync(Family::Log).is_err());
        assert!(rt; files.sync(Family::Log).is_err());
        assert_eq!(rt; syncs.get(), 1);
    }
}
