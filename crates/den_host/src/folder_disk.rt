//! The machine's files: a disk of twelve files in one folder.
ghost use Rattle.std.specs.Prelude.{◌≡◌, ◌≤◌, ◌^◌, false, [], IfOk};
ghost use Rattle.std.proofs.lemmas.Bool.{false≢true};

use crate::cause::{Cause, Why, noted};
use crate::folder_lock::FolderLock;
use crate::place_file::{PlaceFile, Twelve};
use crate::system_call::counted;
use den_disk::{Disk, DiskFault, Place};
use std::alloc::Global;
use std::fs::{DirBuilder, OpenFile};
use std::io::ErrorKind;
use std::os::unix::fs::{DirBuilderExt, FileExt};
use std::path::Path;
use std::rt::Files;
use std::{fs, io};

// How long a file may be.
const LIMIT: u64 = 1 << 62;

/// The files `log.head`, `log.a` and so on of one folder. The first call makes the folder where it is missing, and takes
/// its lock, which this value keeps as long as it lives; where another has it, each call is a fault, and no file is opened.
/// A missing file reads as an empty one, and is made when it is first written. Nothing else is to write in the folder
/// meanwhile.
#[derive(Drop)]
pub struct FolderDisk<R: Files> {
    folder: Folder<R>,
    moment: u64,
    faults: u64,
    cause: Option<Cause>,
}

impl<R: Files> FolderDisk<R> {
    /// The disk in the folder at this path. An empty path names no folder, and each call is a fault then.
    pub fn new(rt: R, folder: String) -> FolderDisk<R> {
        FolderDisk {
            folder: Folder {
                rt,
                path: folder,
                handle: None,
                files: Twelve::new(),
            },
            moment: 0,
            faults: 0,
            cause: None,
        }
    }

    /// Why the last call that failed did so.
    pub fn cause(&self) -> Option<Cause> {
        self.cause
    }
}

impl<R: Files> Disk for FolderDisk<R>
where
    R::File: FileExt + FolderLock,
{
    ghost kind = { λ _. record { tells = false; limit = 2 ^ 62 } };

    ghost content = { λ _. record { reading = λ _. []; pending = [] } };

    ghost moment = { λ disk. disk.moment };

    ghost images = { λ _ _ _. Unit {0} };

    ghost faults = { λ disk. disk.faults };

    ghost images_now = { λ _ _ told. absurd (false≢true told) };

    fn len(&mut self, place: Place) -> Result<u64, DiskFault> {
        let call = self.folder.len(place);
        counted(&mut self.faults, noted(&mut self.cause, call), DiskFault)
    }

    fn read_at(&mut self, place: Place, at: u64, buffer: &mut [u8]) -> Result<(), DiskFault> {
        let call = self.folder.read_at(place, at, buffer);
        counted(&mut self.faults, noted(&mut self.cause, call), DiskFault)
    }

    fn write_at(&mut self, place: Place, at: u64, bytes: &[u8]) -> Result<(), DiskFault> {
        let call = moved(&mut self.moment, self.folder.write_at(place, at, bytes));
        counted(&mut self.faults, noted(&mut self.cause, call), DiskFault)
    }

    fn resize(&mut self, place: Place, len: u64) -> Result<(), DiskFault> {
        let call = moved(&mut self.moment, self.folder.resize(place, len));
        counted(&mut self.faults, noted(&mut self.cause, call), DiskFault)
    }

    fn sync(&mut self) -> Result<(), DiskFault> {
        let call = moved(&mut self.moment, self.folder.sync());
        counted(&mut self.faults, noted(&mut self.cause, call), DiskFault)
    }

    fn limit(&self) -> u64 {
        LIMIT
    }

    fn moment(&self) -> u64 {
        self.moment
    }
}

// Moves the moment on where a call changed the disk. At its last value it stays.
fn moved(moment: &mut u64, call: Result<(), Cause>) -> Result<(), Cause> {
    if call.is_ok() {
        *moment = moment.saturating_add(1);
    }
    call
}

// The folder and its open files.
#[derive(Drop)]
struct Folder<R: Files> {
    rt: R,
    path: String,
    // The folder itself, with its lock, once it is open.
    handle: Option<PlaceFile<R::File>>,
    files: Twelve<R::File>,
}

impl<R: Files> Folder<R>
where
    R::File: FileExt + FolderLock,
{
    fn len(&mut self, place: Place) -> Result<u64, Cause>
        ensures { IfOk result (λ len. len ≤ 2 ^ 62) }
    {
        self.open()?;
        let Some(file) = self.files.at(place) else {
            return Ok(0);
        };
        let len = file.len().map_err(|e| Cause::Call(Some(place), e.into()))?;
        if len > LIMIT {
            return Err(Cause::Call(Some(place), Why::Kind(ErrorKind::FileTooLarge)));
        }
        Ok(len)
    }

    fn read_at(&mut self, place: Place, at: u64, buffer: &mut [u8]) -> Result<(), Cause> {
        self.open()?;
        let read = match self.files.at(place) {
            Some(file) => file.read_at(at, buffer),
            None if buffer.is_empty() => Ok(()),
            None => Err(io::Error::from(ErrorKind::UnexpectedEof)),
        };
        read.map_err(|e| Cause::Call(Some(place), e.into()))
    }

    fn write_at(&mut self, place: Place, at: u64, bytes: &[u8]) -> Result<(), Cause> {
        self.made(place)?
            .write_at(at, bytes)
            .map_err(|e| Cause::Call(Some(place), e.into()))
    }

    fn resize(&mut self, place: Place, len: u64) -> Result<(), Cause> {
        let file = self.made(place)?;
        match file.resize(len) {
            Ok(()) => Ok(()),
            Err(e) => Err(file.cause(Some(place), e)),
        }
    }

    fn sync(&mut self) -> Result<(), Cause> {
        self.open()?;
        sync_names(&mut self.handle)?;
        self.files.sync()
    }

    // The first call opens the folder.
    #[inline(always)]
    fn open(&mut self) -> Result<(), Cause> {
        match self.handle {
            Some(_) => Ok(()),
            None => self.open_first(),
        }
    }

    // Makes the folder, takes its lock and opens the files that are there.
    #[cold]
    #[inline(never)]
    fn open_first(&mut self) -> Result<(), Cause> {
        if self.path.is_empty() {
            return Err(Cause::NoName);
        }
        let alloc = *self.path.allocator();
        let path = Path::new(self.path.as_str());
        let handle = locked(&self.rt, alloc, path)?;
        self.files = Twelve::open(&self.rt, alloc, path)?;
        self.handle = Some(PlaceFile::new(handle));
        Ok(())
    }

    // The file of a place, which is made where it is missing.
    #[inline(always)]
    fn made(&mut self, place: Place) -> Result<&mut PlaceFile<R::File>, Cause> {
        self.open()?;
        let slot = self.files.at(place);
        let file = match slot {
            Some(file) => file,
            None => {
                let path = Path::new(self.path.as_str());
                make_place(
                    &self.rt,
                    path,
                    *self.path.allocator(),
                    place,
                    &mut self.handle,
                    slot,
                )?
            }
        };
        sync_names(&mut self.handle)?;
        Ok(file)
    }
}

// Makes the file of a place, and notes that the folder has a new name.
#[cold]
#[inline(never)]
fn make_place<'a, R: Files>(
    rt: &R,
    folder: Path<'_>,
    alloc: Global,
    place: Place,
    handle: &mut Option<PlaceFile<R::File>>,
    slot: &'a mut Option<PlaceFile<R::File>>,
) -> Result<&'a mut PlaceFile<R::File>, Cause> {
    if let Some(handle) = handle {
        handle.note_length();
    }
    Ok(slot.insert(PlaceFile::make(rt, alloc, folder, place)?))
}

// Makes the names of new files last, where there are any.
#[inline(always)]
fn sync_names<F: OpenFile>(handle: &mut Option<PlaceFile<F>>) -> Result<(), Cause> {
    match handle {
        Some(handle) if handle.is_unsynced() => sync_folder(handle),
        _ => Ok(()),
    }
}

// Makes the names in the folder last.
#[cold]
#[inline(never)]
fn sync_folder<F: OpenFile>(handle: &mut PlaceFile<F>) -> Result<(), Cause> {
    match handle.sync() {
        Ok(()) => Ok(()),
        Err(e) => Err(handle.cause(None, e)),
    }
}

// The open folder, which is made where it is missing, with its lock.
fn locked<R: Files>(rt: &R, alloc: Global, folder: Path<'_>) -> Result<R::File, Cause>
where
    R::File: FolderLock,
{
    make_folder(rt, alloc, folder)?;
    let handle = fs::open(rt, folder).map_err(|e| Cause::Call(None, e.into()))?;
    match handle.take_lock() {
        Ok(true) => Ok(handle),
        Ok(false) => Err(Cause::InUse),
        Err(e) => Err(Cause::Call(None, e.into())),
    }
}

// Makes a folder and those above it that are missing, from the top, and makes each one's name last before the next is made.
fn make_folder<R: Files>(rt: &R, alloc: Global, folder: Path<'_>) -> Result<(), Cause> {
    let missing = folder
        .ancestors()
        .take_while(|above| matches!(above.try_exists(rt), Ok(false)))
        .count();
    if let Some(there) = folder.ancestors().nth(missing) {
        sync_above(rt, alloc, there)?;
    }
    for level in (0..missing).rev() {
        let mut above = folder.ancestors().skip(level);
        if let (Some(made), Some(parent)) = (above.next(), above.next()) {
            make_one(rt, made, parent)?;
        }
    }
    Ok(())
}

// Syncs the folder that a folder which is there lies in: a process that made it may have ended before its name was synced.
// None makes it where that folder may not be read, so its name is then somebody else's.
fn sync_above<R: Files>(rt: &R, alloc: Global, there: Path<'_>) -> Result<(), Cause> {
    let above = there
        .join(alloc, "..")
        .map_err(|e| Cause::Call(None, io::Error::from(e).into()))?;
    match fs::open(rt, above.as_path()) {
        Ok(above) => above.sync_all().map_err(|e| Cause::Sync(None, e.into())),
        Err(e) if e.kind() == ErrorKind::PermissionDenied => Ok(()),
        Err(e) => Err(Cause::Call(None, e.into())),
    }
}

// Makes a folder for its owner alone, and makes its name last. It is taken away again where that fails, so that no later
// process takes its name as lasting.
fn make_one<R: Files>(rt: &R, made: Path<'_>, parent: Path<'_>) -> Result<(), Cause> {
    let name = match parent.as_str() {
        "" => ".",
        name => name,
    };
    let above = fs::open(rt, name).map_err(|e| Cause::Call(None, e.into()))?;
    DirBuilder::new()
        .recursive(true)
        .mode(0o700)
        .create(rt, made)
        .map_err(|e| Cause::Call(None, e.into()))?;
    match above.sync_all() {
        Ok(()) => Ok(()),
        Err(e) => {
            let _ = fs::remove_dir(rt, made);
            Err(Cause::Sync(None, e.into()))
        }
    }
}

#[cfg(test)]
mod tests {
    use super::*;
    use den_disk::{Family, Part};
    use std::test::Fail;

    const PLACE: Place = Place {
        family: Family::Log,
        part: Part::A,
    };

    #[test]
    fn keeps_what_was_written(rt: HostRuntime) -> Result<(), Fail> {
        let _ = fs::remove_dir_all(&rt, "kept");
        let mut disk = FolderDisk::new(rt, String::from_str(rt.alloc(), "kept/store")?);
        assert_eq!(rt; disk.len(PLACE)?, 0);
        assert!(rt; !fs::exists(&rt, "kept/store/log.a")?);
        disk.resize(PLACE, 8)?;
        disk.write_at(PLACE, 2, b"abc")?;
        disk.sync()?;
        let mut second = FolderDisk::new(rt, String::from_str(rt.alloc(), "kept/store")?);
        assert_eq!(rt; second.len(PLACE), Err(DiskFault));
        assert!(rt; matches!(second.cause(), Some(Cause::InUse)));
        let moment = disk.moment();
        drop(disk);

        let mut again = FolderDisk::new(rt, String::from_str(rt.alloc(), "kept/store")?);
        assert_eq!(rt; again.len(PLACE)?, 8);
        let mut bytes = [9u8; 8];
        again.read_at(PLACE, 0, &mut bytes)?;
        assert_eq!(rt; bytes.as_slice(), b"\0\0abc\0\0\0".as_slice());
        assert_eq!(rt; again.faults, 0);
        assert_eq!(rt; again.read_at(PLACE, 1, &mut bytes), Err(DiskFault));
        assert_eq!(rt; again.faults, 1);
        assert_eq!(rt; (moment, again.moment()), (3, 0));
        fs::remove_dir_all(&rt, "kept")?;
        Ok(())
    }
}
