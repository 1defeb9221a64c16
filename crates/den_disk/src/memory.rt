// A disk in memory. It keeps a record of the calls that changed it, with what each took away, so what a crash at
// an earlier moment may have left is known from its fields. Each call makes two moments.
ghost use Rattle.std.specs.Prelude.{◌≡◌, ◌≤◌, ◌<◌, ◌+◌, ◌-◌, ◌*◌, ◌^◌, ◌++◌, [], ◌∷◌, min, true, take, drop, length, replicate, IsTrue, OnOk, OnErr, IsErr, Contains};
ghost use Rattle.den_disk.specs.declared.place.Place.{Place};
ghost use Rattle.den_disk.specs.Files.{IsImage, put_at, fit};
ghost use Rattle.den_disk.specs.Memory.{content_now, images_at, images_end, syncs_of};
ghost use Rattle.den_disk.specs.Crash.{Stays};
ghost use Rattle.den_disk.specs.Goes.{HasCause, Rose};
ghost use Rattle.den_disk.specs.Unwritten.{IsRecord, unwritten};

use crate::faults::count_fault;
use crate::spoil::spoil;
use crate::{Disk, DiskFault, Place};
use std::alloc::{AllocError, Global};

const LIMIT: u64 = 1 << 43;

/// A call that changed the disk, and what it took away.
#[derive(Drop)]
pub enum Step {
    Write {
        place: Place,
        at: u64,
        was: Vec<u8>,
    },
    Resize {
        place: Place,
        len: u64,
        from: u64,
        was: Vec<u8>,
    },
    Sync,
}

/// A disk in memory, which tells what a crash at each past moment would have left. Calls can be made to fail.
#[derive(Drop)]
pub struct MemDisk {
    alloc: Global,
    files: [Vec<u8>; 12],
    steps: Vec<Step>,
    faults: u64,
    plan: Plan,
    ghost recorded: { ∥ IsRecord files steps.items ∥₁ },
}

// Which calls are to fail, and how many were made.
#[derive(Drop)]
struct Plan {
    calls: u64,
    since: u64,
    failing: Vec<u64>,
    fuse: Option<u64>,
}

impl MemDisk {
    ghost use Rattle.den_disk.specs.Calls.{calls_made};

    /// A disk of twelve empty files.
    pub fn new(alloc: Global) -> Self
        ensures empty { (q : Place) → (⟦<MemDisk as Disk>⟧.content result).reading q ≡ [] }
        ensures pending { (⟦<MemDisk as Disk>⟧.content result).pending ≡ [] }
        ensures moment { ⟦<MemDisk as Disk>⟧.moment result ≡ 0 }
        ensures faults { ⟦<MemDisk as Disk>⟧.faults result ≡ 0 }
        ensures calls { calls_made result ≡ 0 }
    {
        MemDisk {
            alloc,
            files: [
                Vec::new(alloc),
                Vec::new(alloc),
                Vec::new(alloc),
                Vec::new(alloc),
                Vec::new(alloc),
                Vec::new(alloc),
                Vec::new(alloc),
                Vec::new(alloc),
                Vec::new(alloc),
                Vec::new(alloc),
                Vec::new(alloc),
                Vec::new(alloc),
            ],
            steps: Vec::new(alloc),
            faults: 0,
            plan: Plan {
                calls: 0,
                since: 0,
                failing: Vec::new(alloc),
                fuse: None,
            },
        }
    }

    /// Puts a whole file. The disk is then as a new one with these files: its record is empty.
    pub fn set(&mut self, place: Place, bytes: &[u8]) -> Result<(), AllocError>
        ensures here { OnOk result ((⟦<MemDisk as Disk>⟧.content self.new).reading place ≡ bytes.now) }
        ensures elsewhere { OnOk result ((q : Place) → (q ≡ place → ⊥) → (⟦<MemDisk as Disk>⟧.content self.new).reading q ≡ (⟦<MemDisk as Disk>⟧.content self.old).reading q) }
        ensures pending { OnOk result ((⟦<MemDisk as Disk>⟧.content self.new).pending ≡ []) }
        ensures moment { OnOk result (⟦<MemDisk as Disk>⟧.moment self.new ≡ 0) }
        ensures err { OnErr result (Stays ⟦<MemDisk as Disk>⟧.content ⟦<MemDisk as Disk>⟧.moment ⟦<MemDisk as Disk>⟧.images self.old self.new) }
        ensures faults { ⟦<MemDisk as Disk>⟧.faults self.new ≡ ⟦<MemDisk as Disk>⟧.faults self.old }
        ensures calls { calls_made self.new ≡ calls_made self.old }
    {
        let file = bytes.to_vec(self.alloc)?;
        let number = place.number();
        self.steps.clear();
        self.files[number] = file;
        Ok(())
    }

    /// What is read at a place.
    pub fn get(&self, place: Place) -> &[u8]
        ensures { result.now ≡ (⟦<MemDisk as Disk>⟧.content self.now).reading place }
    {
        let number = place.number();
        self.files[number].as_slice()
    }

    /// So many calls more pass, and then every call fails.
    pub fn fuse(&mut self, calls: u64)
        ensures stays { Stays ⟦<MemDisk as Disk>⟧.content ⟦<MemDisk as Disk>⟧.moment ⟦<MemDisk as Disk>⟧.images self.old self.new }
        ensures faults { ⟦<MemDisk as Disk>⟧.faults self.new ≡ ⟦<MemDisk as Disk>⟧.faults self.old }
        ensures calls { calls_made self.new ≡ calls_made self.old }
    {
        self.plan.fuse = Some(calls);
    }

    /// The calls with these numbers fail, counted from 1 over the calls made after this.
    pub fn fail_at(&mut self, calls: Vec<u64>)
        ensures stays { Stays ⟦<MemDisk as Disk>⟧.content ⟦<MemDisk as Disk>⟧.moment ⟦<MemDisk as Disk>⟧.images self.old self.new }
        ensures faults { ⟦<MemDisk as Disk>⟧.faults self.new ≡ ⟦<MemDisk as Disk>⟧.faults self.old }
        ensures calls { calls_made self.new ≡ calls_made self.old }
    {
        self.plan.since = 0;
        self.plan.failing = calls;
    }

    /// Makes the disk what a crash leaves of it, with no more faults to come. Choice 0 takes back each write since the
    /// last sync, and no resize. 1 keeps all, and any other puts numbers drawn from it where bytes are pending. The record
    /// is then empty.
    pub fn crash(&mut self, choice: u64)
        ensures image { IsImage (⟦<MemDisk as Disk>⟧.content self.old) (⟦<MemDisk as Disk>⟧.content self.new).reading }
        ensures dropped { choice ≡ 0 → (q : Place) → (⟦<MemDisk as Disk>⟧.content self.new).reading q ≡ unwritten self.old.steps.items q ((⟦<MemDisk as Disk>⟧.content self.old).reading q) }
        ensures kept { choice ≡ 1 → (q : Place) → (⟦<MemDisk as Disk>⟧.content self.new).reading q ≡ (⟦<MemDisk as Disk>⟧.content self.old).reading q }
        ensures pending { (⟦<MemDisk as Disk>⟧.content self.new).pending ≡ [] }
        ensures moment { ⟦<MemDisk as Disk>⟧.moment self.new ≡ 0 }
        ensures faults { ⟦<MemDisk as Disk>⟧.faults self.new ≡ ⟦<MemDisk as Disk>⟧.faults self.old }
        ensures calls { calls_made self.new ≡ calls_made self.old }
    {
        if choice != 1 {
            spoil(&mut self.files, self.steps.as_slice(), choice);
        }
        self.steps = Vec::new(self.alloc);
        self.plan.failing.clear();
        self.plan.fuse = None;
    }

    /// How many calls were made that read or changed the files, those that failed too.
    pub fn calls(&self) -> u64
        ensures { result ≡ calls_made self.now }
    {
        self.plan.calls
    }

    /// How many syncs succeeded since the disk was new, a file was put, or a crash.
    pub fn syncs(&self) -> u64
        ensures { result ≡ syncs_of self.now.steps.items }
    {
        self.steps
            .iter()
            .filter(|step| matches!(step, Step::Sync))
            .count() as u64
    }
}

impl Plan {
    // Counts a call, and says whether it is to fail.
    fn next_fails(&mut self) -> bool
        ensures calls { self.new.calls ≡ min (self.old.calls + 1) (2 ^ 64 - 1) }
        ensures listed { Contains self.new.failing.items self.new.since → IsTrue result }
        ensures since { self.new.since ≡ min (self.old.since + 1) (2 ^ 64 - 1) }
        ensures failing { self.new.failing ≡ self.old.failing }
    {
        self.calls = self.calls.saturating_add(1);
        self.since = self.since.saturating_add(1);
        if self.failing.contains(&self.since) {
            return true;
        }
        match self.fuse {
            None => false,
            Some(0) => true,
            Some(left) => {
                self.fuse = Some(left - 1);
                false
            }
        }
    }
}

// Counts a fault.
fn count(faults: &mut u64) -> DiskFault
    ensures later { faults.old ≤ faults.new }
    ensures rose { Rose faults.old faults.new }
{
    count_fault(faults);
    DiskFault
}

// Whether a call passes.
fn pass(plan: &mut Plan, faults: &mut u64) -> Result<(), DiskFault>
    ensures { HasCause faults.old faults.new (IsErr result) }
{
    if plan.next_fails() {
        return Err(count(faults));
    }
    Ok(())
}

// Fills the buffer from a file.
fn copy_out(file: &[u8], at: usize, buffer: &mut [u8])
    requires { at + length buffer.old ≤ length file.now }
    ensures { buffer.new ≡ take (length buffer.old) (drop at file.now) }
{
    buffer.copy_from_slice(&file[at..at + buffer.len()]);
}

// Notes a sync.
fn note_sync(steps: &mut Vec<Step>) -> Result<(), AllocError>
    ensures ok { OnOk result (steps.new.items ≡ steps.old.items ++ Step.Sync ∷ []) }
    ensures err { OnErr result (steps.new.items ≡ steps.old.items) }
{
    steps.push(Step::Sync)?;
    Ok(())
}

// Puts bytes into a file, and keeps those that stood there.
fn overwrite(
    alloc: Global,
    file: &mut Vec<u8>,
    steps: &mut Vec<Step>,
    place: Place,
    at: usize,
    bytes: &[u8],
) -> Result<(), AllocError>
    requires { at + length bytes.now ≤ length file.old.items }
    ensures file { OnOk result (file.new.items ≡ put_at at bytes.now file.old.items) }
    ensures steps { OnOk result ((was : _) × (was.items ≡ take (length bytes.now) (drop at file.old.items)) × (steps.new.items ≡ steps.old.items ++ Step.Write place at was ∷ [])) }
    ensures file_err { OnErr result (file.new.items ≡ file.old.items) }
    ensures steps_err { OnErr result (steps.new.items ≡ steps.old.items) }
{
    let was = file[at..at + bytes.len()].to_vec(alloc)?;
    steps.push(Step::Write {
        place,
        at: at as u64,
        was,
    })?;
    file[at..at + bytes.len()].copy_from_slice(bytes);
    Ok(())
}

// Cuts a file or fills it with zeros, and keeps what is cut off.
fn refit(
    alloc: Global,
    file: &mut Vec<u8>,
    steps: &mut Vec<Step>,
    place: Place,
    len: usize,
) -> Result<(), AllocError>
    ensures file { OnOk result (file.new.items ≡ fit len file.old.items) }
    ensures steps { OnOk result ((was : _) × (was.items ≡ drop len file.old.items) × (steps.new.items ≡ steps.old.items ++ Step.Resize place len (length file.old.items) was ∷ [])) }
    ensures file_err { OnErr result (file.new.items ≡ file.old.items) }
    ensures steps_err { OnErr result (steps.new.items ≡ steps.old.items) }
{
    let from = file.len();
    let mut was = Vec::new(alloc);
    if len < from {
        was.extend_from_slice(&file[len..])?;
    } else {
        file.resize(len, 0)?;
    }
    let pushed = steps.push(Step::Resize {
        place,
        len: len as u64,
        from: from as u64,
        was,
    });
    match pushed {
        Ok(()) => {
            file.truncate(len);
            Ok(())
        }
        Err(failed) => {
            file.truncate(from);
            Err(AllocError::from(failed))
        }
    }
}

impl Disk for MemDisk {
    ghost kind = { λ m. record { tells = true; limit = 2 ^ 43 } };

    ghost content = { λ m. content_now m.files m.steps.items };

    ghost moment = { λ m. 2 * length m.steps.items };

    ghost images = { λ m t files. images_at m.files m.steps.items t files };

    ghost faults = { λ m. m.faults };

    ghost images_now = { λ m files tells. images_end m.files m.steps.items files };

    fn len(&mut self, place: Place) -> Result<u64, DiskFault> {
        pass(&mut self.plan, &mut self.faults)?;
        let number = place.number();
        let len = self.files[number].len() as u64;
        if len > LIMIT {
            return Err(count(&mut self.faults));
        }
        Ok(len)
    }

    fn read_at(&mut self, place: Place, at: u64, buffer: &mut [u8]) -> Result<(), DiskFault> {
        pass(&mut self.plan, &mut self.faults)?;
        let number = place.number();
        let file = self.files[number].as_slice();
        copy_out(file, at as usize, buffer);
        Ok(())
    }

    fn write_at(&mut self, place: Place, at: u64, bytes: &[u8]) -> Result<(), DiskFault> {
        pass(&mut self.plan, &mut self.faults)?;
        let number = place.number();
        match overwrite(
            self.alloc,
            &mut self.files[number],
            &mut self.steps,
            place,
            at as usize,
            bytes,
        ) {
            Ok(()) => Ok(()),
            Err(_) => Err(count(&mut self.faults)),
        }
    }

    fn resize(&mut self, place: Place, len: u64) -> Result<(), DiskFault> {
        pass(&mut self.plan, &mut self.faults)?;
        let number = place.number();
        match refit(
            self.alloc,
            &mut self.files[number],
            &mut self.steps,
            place,
            len as usize,
        ) {
            Ok(()) => Ok(()),
            Err(_) => Err(count(&mut self.faults)),
        }
    }

    fn sync(&mut self) -> Result<(), DiskFault> {
        pass(&mut self.plan, &mut self.faults)?;
        match note_sync(&mut self.steps) {
            Ok(()) => Ok(()),
            Err(_) => Err(count(&mut self.faults)),
        }
    }

    fn limit(&self) -> u64 {
        LIMIT
    }

    fn moment(&self) -> u64 {
        2 * self.steps.len() as u64
    }
}
