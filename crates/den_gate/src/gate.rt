//! A gate file: the slot that a family's head names, as a list of payloads.
ghost use Rattle.std.specs.Prelude.{◌≤◌, ◌^◌, unwrap_or};

use crate::GateError;
use crate::add::add;
use crate::draft::{clear, fill, push};
use crate::find::{find_end, find_slot};
use crate::reader::RegionReader;
use crate::room::make_room;
use crate::take::take_all;
use crate::turn::{commit, other_of};
use den_disk::{Disk, Family, Part, Place};
use den_model::{Blob, Rows};
use std::alloc::Global;

/// A list of payloads on the disk that it was loaded from.
#[derive(Drop)]
pub struct GateFile {
    slot: Place,
    end: u64,
    failed: bool,
    // where the draft ends, if one stands
    draft: Option<u64>,
    ghost low: { end ≤ 2 ^ 62 },
    ghost draft_low: { unwrap_or draft 0 ≤ 2 ^ 62 },
}

impl GateFile {
    ghost use Rattle.std.specs.Prelude.{◌≡◌, ◌⊎◌, ◌+◌, ◌<◌, ℕ, List, [], ◌∷◌, ◌++◌, true, false, Err, Some, None, IsSome, is_some, IsTrue, IsErr, IfErr, IfOk, OnOk, length};
    ghost use Rattle.den_disk.specs.Files.{Files, Content};
    ghost use Rattle.den_disk.specs.Crash.{Leaves, Stays};
    ghost use Rattle.den_disk.specs.Goes.{DiskGoesOn, Rose};
    ghost use Rattle.den_disk.specs.Families.{SparesAll, SparesOthers, SparesImages, NoNewImages};
    ghost use Rattle.den_model.specs.Regions.{regions, open_regions};
    ghost use Rattle.den_model.specs.Image.{slot_of};
    ghost use Rattle.den_gate.specs.Causes.{Because};
    ghost use Rattle.den_gate.specs.Slot.{SlotGrows, IsFilled, IsShort, room_for, whole_chunks};
    ghost use Rattle.den_gate.specs.Steps.{Keeps, KeepsOrAdds, Spares};
    ghost use Rattle.den_gate.specs.Gate.{payloads, IsAtRest, IsCurrent, KeepsFamily, KeepsOrAddsFamily};
    ghost use Rattle.den_gate.specs.Loading.{IsDurable};
    ghost use Rattle.den_gate.specs.Reader.{StandsIn};
    ghost use Rattle.den_gate.specs.Reads.{OnlyReads};
    ghost use Rattle.den_gate.specs.Draft.{draft_end, other_slot, IsDraft, KeepsList, PassesLimit, RestsWith, Rewrites, Rewritten, WritesOwn};

    /// Finds where a family's list ends, with all files on the disk. It takes no memory and writes nothing.
    pub fn load<D: Disk>(family: Family, disk: &mut D) -> Result<GateFile, GateError>
        ensures disk { DiskGoesOn D.kind D.moment D.images D.faults disk.old disk.new }
        ensures slot { IsTrue (D.kind disk.old).tells → IfOk result (λ gate. gate.slot ≡ slot_of family (D.content disk.old).reading) }
        ensures family { IfOk result (λ gate. gate.slot.family ≡ family) }
        ensures at_rest { IsTrue (D.kind disk.old).tells → IfOk result (λ gate. IsAtRest gate (D.content disk.new)) }
        ensures current { IsTrue (D.kind disk.old).tells → IfOk result (λ gate. IsCurrent gate.slot (D.content disk.new)) }
        ensures durable { IsTrue (D.kind disk.old).tells → IsDurable result (D.content disk.old) (D.content disk.new) }
        ensures spares { IsTrue (D.kind disk.old).tells → SparesAll (D.content disk.old) (D.content disk.new) }
        ensures images { IsTrue (D.kind disk.old).tells → NoNewImages (D.images disk.old) (D.images disk.new) (D.moment disk.old) (D.moment disk.new) }
        ensures ready { IfOk result (λ gate. gate.failed ≡ false) }
        ensures draft { IfOk result (λ gate. gate.draft ≡ None) }
        ensures refused { IfErr result (Because ⊥ (Rose (D.faults disk.old) (D.faults disk.new)) (λ needed limit. ⊥) (λ part offset.
            IsTrue (D.kind disk.old).tells → (part ≡ (slot_of family (D.content disk.old).reading).part)
            × (regions ((D.content disk.old).reading (slot_of family (D.content disk.old).reading)) ≡ Err offset))) }
    {
        disk.sync()?;
        let slot = find_slot(disk, family)?;
        let end = find_end(disk, slot)?;
        Ok(GateFile {
            slot,
            end,
            failed: false,
            draft: None,
        })
    }

    /// The payloads. On a disk that does not tell it answers DataCorruption where it finds other bytes than before.
    pub fn regions<D: Disk>(&self, alloc: Global, disk: &mut D) -> Result<Rows<Blob>, GateError>
        requires at_rest { IsTrue (D.kind disk.old).tells → IsAtRest self.now (D.content disk.old) }
        ensures disk { DiskGoesOn D.kind D.moment D.images D.faults disk.old disk.new }
        ensures payloads { IsTrue (D.kind disk.old).tells → IfOk result (λ list. list ≡ payloads self.now (D.content disk.old).reading) }
        ensures stays { IsTrue (D.kind disk.old).tells → Stays D.content D.moment D.images disk.old disk.new }
        ensures spares { IsTrue (D.kind disk.old).tells → SparesAll (D.content disk.old) (D.content disk.new) }
        ensures images { IsTrue (D.kind disk.old).tells → NoNewImages (D.images disk.old) (D.images disk.new) (D.moment disk.old) (D.moment disk.new) }
        ensures refused { IfErr result (Because (Unit {0}) (Rose (D.faults disk.old) (D.faults disk.new)) (λ needed limit. ⊥) (λ part offset. IsTrue (D.kind disk.old).tells → ⊥)) }
    {
        take_all(alloc, disk, self.slot)
    }

    /// A reader of the payloads, from the first one on. It takes no memory.
    pub fn reader<D: Disk>(&self, disk: &mut D) -> Result<RegionReader, GateError>
        requires at_rest { IsTrue (D.kind disk.old).tells → IsAtRest self.now (D.content disk.old) }
        ensures disk { OnlyReads D.Disk disk.old disk.new }
        ensures slot { IfOk result (λ reader. reader.slot ≡ self.now.slot) }
        ensures first { IfOk result (λ reader. (reader.at ≡ 0) × (reader.given ≡ 0)) }
        ensures stands { IsTrue (D.kind disk.old).tells → IfOk result (λ reader. StandsIn reader (D.content disk.new).reading) }
        ensures refused { IfErr result (Because ⊥ (Rose (D.faults disk.old) (D.faults disk.new)) (λ needed limit. ⊥) (λ part offset. ⊥)) }
    {
        let limit = disk.limit();
        let len = disk.len(self.slot)?;
        prove!(len <= limit);
        Ok(RegionReader::new(self.slot, len))
    }

    /// Makes room for a payload of so many bytes. The list stays. It takes no memory.
    pub fn reserve<D: Disk>(&mut self, disk: &mut D, bytes: u64) -> Result<(), GateError>
        requires ready { self.old.failed ≡ false }
        requires at_rest { IsTrue (D.kind disk.old).tells → IsAtRest self.old (D.content disk.old) }

        ensures disk { DiskGoesOn D.kind D.moment D.images D.faults disk.old disk.new }
        ensures at_rest { IsTrue (D.kind disk.old).tells → OnOk result (IsAtRest self.new (D.content disk.new)) }
        ensures same { IsTrue (D.kind disk.old).tells → OnOk result (payloads self.new (D.content disk.new).reading ≡ payloads self.old (D.content disk.old).reading) }
        ensures room { IsTrue (D.kind disk.old).tells → OnOk result (IsShort ((D.content disk.new).reading self.old.slot) self.old.end bytes → ⊥) }
        ensures grows { IsTrue (D.kind disk.old).tells → OnOk result (SlotGrows ((D.content disk.old).reading self.old.slot) ((D.content disk.new).reading self.old.slot) self.old.end bytes) }

        // At each moment of the call, whatever comes of it, a crash leaves the list and nothing new in the other files.
        ensures any_moment { IsTrue (D.kind disk.old).tells → Leaves D.content D.moment D.images
            (λ t files. Keeps self.old.slot (payloads self.old (D.content disk.old).reading) (D.images disk.old (D.moment disk.old)) files) disk.old disk.new }
        ensures spares { IsTrue (D.kind disk.old).tells → Spares self.old.slot (D.content disk.old) (D.content disk.new) }

        // The same of whole families, where the family's head names the slot.
        ensures current { IsTrue (D.kind disk.old).tells → IsCurrent self.old.slot (D.content disk.old) → IsCurrent self.new.slot (D.content disk.new) }
        ensures family { IsTrue (D.kind disk.old).tells → IsCurrent self.old.slot (D.content disk.old) → KeepsFamily self.old.slot
            (payloads self.old (D.content disk.old).reading) (D.images disk.new) (D.moment disk.old) (D.moment disk.new) }
        ensures others { IsTrue (D.kind disk.old).tells → SparesOthers self.old.slot.family (D.content disk.old) (D.content disk.new) }
        ensures images { IsTrue (D.kind disk.old).tells → SparesImages self.old.slot.family (D.images disk.old) (D.images disk.new) (D.moment disk.old) (D.moment disk.new) }

        ensures slot { self.new.slot ≡ self.old.slot }
        ensures end { self.new.end ≡ self.old.end }
        ensures draft { self.new.draft ≡ self.old.draft }
        ensures draft_kept { IsTrue (D.kind disk.old).tells → (list : List (List ℕ)) → IsDraft self.old list (D.content disk.old) → IsDraft self.new list (D.content disk.new) }
        ensures ready { OnOk result (self.new.failed ≡ false) }
        ensures failed { IsErr result → self.new.failed ≡ true }
        ensures refused { IfErr result (Because ⊥ (Rose (D.faults disk.old) (D.faults disk.new)) (λ needed limit.
            (needed ≡ room_for self.old.end bytes) × (limit ≡ (D.kind disk.old).limit) × (limit < needed) × (2 ^ 43 ≤ limit)
            × (IsTrue (D.kind disk.old).tells → IsShort ((D.content disk.old).reading self.old.slot) self.old.end bytes × Stays D.content D.moment D.images disk.old disk.new))
            (λ part offset. ⊥)) }
        ensures not_full { IsTrue (D.kind disk.old).tells → OnOk result (IsShort ((D.content disk.old).reading self.old.slot) self.old.end bytes
            → room_for self.old.end bytes ≤ (D.kind disk.old).limit) }
    {
        let made = make_room(disk, self.slot, self.end, bytes);
        self.failed = made.is_err();
        made
    }

    /// Adds a payload to the list. At `Ok` it is on the disk. It takes no memory.
    pub fn append<D: Disk>(&mut self, disk: &mut D, payload: &[u8]) -> Result<(), GateError>
        requires ready { self.old.failed ≡ false }
        requires at_rest { IsTrue (D.kind disk.old).tells → IsAtRest self.old (D.content disk.old) }

        ensures disk { DiskGoesOn D.kind D.moment D.images D.faults disk.old disk.new }
        ensures at_rest { IsTrue (D.kind disk.old).tells → OnOk result (IsAtRest self.new (D.content disk.new)) }
        ensures appended { IsTrue (D.kind disk.old).tells → OnOk result (
            payloads self.new (D.content disk.new).reading ≡ payloads self.old (D.content disk.old).reading ++ payload.now ∷ []) }
        ensures grows { IsTrue (D.kind disk.old).tells → OnOk result (
            SlotGrows ((D.content disk.old).reading self.old.slot) ((D.content disk.new).reading self.old.slot) self.old.end (length payload.now)) }

        // At each moment of the call, whatever comes of it, a crash leaves the list from before it, with the payload or
        // without, and nothing new in the other files.
        ensures any_moment { IsTrue (D.kind disk.old).tells → Leaves D.content D.moment D.images
            (λ t files. KeepsOrAdds self.old.slot (payloads self.old (D.content disk.old).reading) payload.now (D.images disk.old (D.moment disk.old)) files)
            disk.old disk.new }
        ensures spares { IsTrue (D.kind disk.old).tells → Spares self.old.slot (D.content disk.old) (D.content disk.new) }

        // The same of whole families, where the family's head names the slot.
        ensures current { IsTrue (D.kind disk.old).tells → IsCurrent self.old.slot (D.content disk.old) → IsCurrent self.new.slot (D.content disk.new) }
        ensures family { IsTrue (D.kind disk.old).tells → IsCurrent self.old.slot (D.content disk.old) → KeepsOrAddsFamily self.old.slot
            (payloads self.old (D.content disk.old).reading) payload.now (D.images disk.new) (D.moment disk.old) (D.moment disk.new) }
        ensures others { IsTrue (D.kind disk.old).tells → SparesOthers self.old.slot.family (D.content disk.old) (D.content disk.new) }
        ensures images { IsTrue (D.kind disk.old).tells → SparesImages self.old.slot.family (D.images disk.old) (D.images disk.new) (D.moment disk.old) (D.moment disk.new) }

        ensures slot { self.new.slot ≡ self.old.slot }
        ensures end { OnOk result (self.new.end ≡ self.old.end + (9 + length payload.now)) }
        ensures draft { self.new.draft ≡ self.old.draft }
        ensures draft_kept { IsTrue (D.kind disk.old).tells → (list : List (List ℕ)) → IsDraft self.old list (D.content disk.old) → IsDraft self.new list (D.content disk.new) }
        ensures ready { OnOk result (self.new.failed ≡ false) }
        ensures failed { IsErr result → self.new.failed ≡ true }
        ensures refused { IfErr result (Because ⊥ (Rose (D.faults disk.old) (D.faults disk.new)) (λ needed limit.
            (needed ≡ room_for self.old.end (length payload.now)) × (limit ≡ (D.kind disk.old).limit) × (limit < needed) × (2 ^ 43 ≤ limit)
            × (self.new.end ≡ self.old.end)
            × (IsTrue (D.kind disk.old).tells → IsShort ((D.content disk.old).reading self.old.slot) self.old.end (length payload.now) × Stays D.content D.moment D.images disk.old disk.new))
            (λ part offset. ⊥)) }
        ensures not_full { IsTrue (D.kind disk.old).tells → OnOk result (IsShort ((D.content disk.old).reading self.old.slot) self.old.end (length payload.now)
            → room_for self.old.end (length payload.now) ≤ (D.kind disk.old).limit) }
    {
        self.failed = true;
        add(disk, self.slot, self.end, payload)?;
        self.failed = false;
        self.end += 9 + payload.len() as u64;
        Ok(())
    }

    /// Puts all files on the disk. The list stays. It takes no memory.
    pub fn flush<D: Disk>(&mut self, disk: &mut D) -> Result<(), GateError>
        requires ready { self.old.failed ≡ false }
        ensures disk { DiskGoesOn D.kind D.moment D.images D.faults disk.old disk.new }
        ensures flushed { IsTrue (D.kind disk.old).tells → OnOk result ((D.content disk.new).pending ≡ []) }
        ensures spares { IsTrue (D.kind disk.old).tells → SparesAll (D.content disk.old) (D.content disk.new) }
        ensures images { IsTrue (D.kind disk.old).tells → NoNewImages (D.images disk.old) (D.images disk.new) (D.moment disk.old) (D.moment disk.new) }
        ensures slot { self.new.slot ≡ self.old.slot }
        ensures end { self.new.end ≡ self.old.end }
        ensures draft { self.new.draft ≡ self.old.draft }
        ensures draft_kept { IsTrue (D.kind disk.old).tells → (list : List (List ℕ)) → IsDraft self.old list (D.content disk.old) → IsDraft self.new list (D.content disk.new) }
        ensures ready { OnOk result (self.new.failed ≡ false) }
        ensures failed { IsErr result → self.new.failed ≡ true }
        ensures refused { IfErr result (Because ⊥ (Rose (D.faults disk.old) (D.faults disk.new)) (λ needed limit. ⊥) (λ part offset. ⊥)) }
    {
        let synced = disk.sync();
        self.failed = synced.is_err();
        Ok(synced?)
    }

    /// Begins a draft without a payload, in the slot that the head does not name; a draft that stood is gone. The list stays.
    /// It takes no memory. After a fault of the disk the gate file is loaded anew.
    pub fn draft_begin<D: Disk>(&mut self, disk: &mut D) -> Result<(), GateError>
        requires ready { self.old.failed ≡ false }
        ensures writes { WritesOwn D.Disk self.old self.new disk.old disk.new result }
        ensures keeps { KeepsList D.Disk self.old self.new disk.old disk.new }
        ensures begun { IsTrue (D.kind disk.old).tells → OnOk result (IsDraft self.new [] (D.content disk.new)) }
        ensures draft { self.new.draft ≡ Some 0 }
        ensures cleared { IsTrue (D.kind disk.old).tells → OnOk result ((D.content disk.new).reading (other_slot self.old.slot) ≡ []) }
        ensures refused { IfErr result (Because ⊥ (Rose (D.faults disk.old) (D.faults disk.new)) (λ needed limit. ⊥) (λ part offset. ⊥)) }
    {
        self.draft = Some(0);
        let cleared = clear(disk, other_of(self.slot));
        self.failed = cleared.is_err();
        cleared
    }

    /// Adds a payload to the draft. The list stays. It takes no memory. `Full` comes exactly where the draft's slot is short of
    /// the room and the room would pass the disk's limit; then nothing is written.
    pub fn draft_push<D: Disk>(&mut self, disk: &mut D, payload: &[u8]) -> Result<(), GateError>
        requires ready { self.old.failed ≡ false }
        requires drafting { IsSome self.old.draft }
        ensures writes { WritesOwn D.Disk self.old self.new disk.old disk.new result }
        ensures keeps { KeepsList D.Disk self.old self.new disk.old disk.new }
        ensures pushed { IsTrue (D.kind disk.old).tells → (list : List (List ℕ)) → IsDraft self.old list (D.content disk.old)
            → OnOk result (IsDraft self.new (list ++ payload.now ∷ []) (D.content disk.new)) }
        ensures grows { IsTrue (D.kind disk.old).tells → OnOk result (SlotGrows ((D.content disk.old).reading (other_slot self.old.slot))
            ((D.content disk.new).reading (other_slot self.old.slot)) (draft_end self.old) (length payload.now)) }
        ensures draft { OnOk result (self.new.draft ≡ Some (draft_end self.old + (9 + length payload.now))) }
        ensures refused { IfErr result (Because ⊥ (Rose (D.faults disk.old) (D.faults disk.new)) (λ needed limit.
            (needed ≡ room_for (draft_end self.old) (length payload.now)) × (limit ≡ (D.kind disk.old).limit) × (limit < needed) × (2 ^ 43 ≤ limit)
            × (IsTrue (D.kind disk.old).tells → IsShort ((D.content disk.old).reading (other_slot self.old.slot)) (draft_end self.old) (length payload.now)
            × Stays D.content D.moment D.images disk.old disk.new))
            (λ part offset. ⊥)) }
        ensures not_full { IsTrue (D.kind disk.old).tells → OnOk result (IsShort ((D.content disk.old).reading (other_slot self.old.slot)) (draft_end self.old) (length payload.now)
            → room_for (draft_end self.old) (length payload.now) ≤ (D.kind disk.old).limit) }
    {
        let end = self.draft.unwrap_or(0);
        self.failed = true;
        push(disk, other_of(self.slot), end, payload)?;
        self.failed = false;
        self.draft = Some(end + (9 + payload.len() as u64));
        Ok(())
    }

    /// Makes the draft the list, in the slot where it lies, which keeps its bytes; no draft is left, and no byte in the old
    /// slot. It takes no memory. After a fault of the disk the list is the old one or the draft, as the gate file that is loaded anew says.
    pub fn draft_commit<D: Disk>(&mut self, disk: &mut D) -> Result<(), GateError>
        requires ready { self.old.failed ≡ false }
        requires drafting { IsSome self.old.draft }
        ensures writes { WritesOwn D.Disk self.old self.new disk.old disk.new result }
        ensures rewrites { IsTrue (D.kind disk.old).tells → (list : List (List ℕ)) → IsDraft self.old list (D.content disk.old)
            → IsAtRest self.old (D.content disk.old) → IsCurrent self.old.slot (D.content disk.old) → Rewrites D.Disk self.old self.new disk.old disk.new list }
        ensures rests { IsTrue (D.kind disk.old).tells → (list : List (List ℕ)) → IsDraft self.old list (D.content disk.old)
            → IsCurrent self.old.slot (D.content disk.old) → OnOk result (RestsWith self.new list (D.content disk.new)) }
        ensures rewritten { OnOk result (Rewritten D.Disk self.old self.new disk.old disk.new (draft_end self.old)) }
        ensures kept { IsTrue (D.kind disk.old).tells → (D.content disk.new).reading (other_slot self.old.slot) ≡ (D.content disk.old).reading (other_slot self.old.slot) }
        ensures slot { IsErr result → self.new.slot ≡ self.old.slot }
        ensures end { IsErr result → self.new.end ≡ self.old.end }
        ensures draft { IsErr result → self.new.draft ≡ self.old.draft }
        ensures refused { IfErr result (Because ⊥ (Rose (D.faults disk.old) (D.faults disk.new)) (λ needed limit. ⊥) (λ part offset. ⊥)) }
    {
        let end = self.draft.unwrap_or(0);
        self.failed = true;
        commit(disk, self.slot)?;
        self.failed = false;
        self.slot = other_of(self.slot);
        self.end = end;
        self.draft = None;
        Ok(())
    }

    /// Makes these payloads the list, by way of the slot that the head does not name; a draft that stood is gone, and no byte is
    /// left in the old slot. It takes no memory. After a fault of the disk the list is the old one or this one, as the gate file
    /// that is loaded anew says. `Full` comes exactly where the room for the list would pass the disk's limit. It tells the room
    /// for the first payload that does not fit; those before it lie in the other slot then, and the list stays.
    pub fn rewrite<D: Disk>(&mut self, disk: &mut D, list: &[Blob]) -> Result<(), GateError>
        requires ready { self.old.failed ≡ false }
        requires at_rest { IsTrue (D.kind disk.old).tells → IsAtRest self.old (D.content disk.old) }
        requires current { IsTrue (D.kind disk.old).tells → IsCurrent self.old.slot (D.content disk.old) }
        ensures writes { WritesOwn D.Disk self.old self.new disk.old disk.new result }
        ensures rewrites { IsTrue (D.kind disk.old).tells → Rewrites D.Disk self.old self.new disk.old disk.new list.now }
        ensures rests { IsTrue (D.kind disk.old).tells → OnOk result (RestsWith self.new list.now (D.content disk.new)) }
        ensures rewritten { OnOk result (Rewritten D.Disk self.old self.new disk.old disk.new (length (open_regions list.now))) }
        ensures filled { IsTrue (D.kind disk.old).tells → OnOk result (IsFilled (length (open_regions list.now)) ((D.content disk.new).reading (other_slot self.old.slot))) }
        ensures slot { IsErr result → self.new.slot ≡ self.old.slot }
        ensures end { IsErr result → self.new.end ≡ self.old.end }
        ensures draft { self.new.draft ≡ None }
        ensures refused { IfErr result (Because ⊥ (Rose (D.faults disk.old) (D.faults disk.new)) (λ needed limit.
            PassesLimit D.Disk (other_slot self.old.slot) list.now disk.old disk.new needed limit × KeepsList D.Disk self.old self.new disk.old disk.new) (λ part offset. ⊥)) }
        ensures not_full { IsTrue (D.kind disk.old).tells → OnOk result ((length (open_regions list.now) ≡ 0)
            ⊎ (whole_chunks (length (open_regions list.now) + 1) ≤ (D.kind disk.old).limit)) }
    {
        self.draft = None;
        self.failed = true;
        let other = other_of(self.slot);
        let end = fill(disk, other, list)?;
        commit(disk, self.slot)?;
        self.failed = false;
        self.slot = other;
        self.end = end;
        Ok(())
    }

    /// Whether a draft stands.
    pub fn has_draft(&self) -> bool
        ensures { result ≡ is_some self.now.draft }
    {
        self.draft.is_some()
    }

    /// Whether a call that changes it was refused. It is loaded anew then.
    pub fn is_failed(&self) -> bool
        ensures { result ≡ self.now.failed }
    {
        self.failed
    }

    /// The slot that the head names, A or B.
    pub fn part(&self) -> Part
        ensures { result ≡ self.now.slot.part }
    {
        self.slot.part
    }
}
