//! A journal.
ghost use Rattle.std.specs.Prelude.{◌≡◌, ◌↔◌, ◌≤◌, ◌++◌, ◌∷◌, ℕ, List, [], IsSome, IsTrue, IfErr, IfOk, OnOk, Ok, false, true, length};
ghost use Rattle.den_model.specs.Regions.{open_regions, placed};
ghost use Rattle.den_gate.specs.Gate.{payloads};
ghost use Rattle.den_gate.specs.Draft.{other_slot};
ghost use Rattle.den_codec.specs.declared.error.Error.TheVariants.{StorageIoError};
ghost use Rattle.den_model.specs.Sizes.{family_size};
ghost use Rattle.den_journal.specs.Causes.{IsFullAt, IsOfDisk};
ghost use Rattle.den_journal.specs.Shown.{rewrite_size};
ghost use Rattle.den_journal.specs.Writes.{Opens, StoreStands, Syncs, Writes};

use crate::Folded;
use crate::family::{file_number, load, refusal};
use crate::replay::replay;
use crate::words::words_of;
use den_codec::{Error, Word};
use den_disk::{Disk, Part};
use den_gate::GateFile;
use std::alloc::Global;

/// A family's gate file, and in memory the value that its regions give.
#[derive(Drop)]
pub struct Journal<F> {
    gate: GateFile,
    held: F,
    // A draft is being made, it gave up, or the value lacks what the files have.
    failed: bool,
    alloc: Global,
    // The word of the last region: its memory is used again.
    word: Vec<u8>,
}

impl<F: Folded> Journal<F> {
    ghost use Rattle.den_journal.specs.Journals.{journal_shown, journal_in, journal_held, region_change};
    ghost use Rattle.den_journal.specs.Drafts.{anew_words, rewrite_change, Drafts, IsDrafting, Pushes, Commits};

    /// Opens the family's files, whatever they are, after a sync of all files.
    pub fn open<D: Disk>(alloc: Global, disk: &mut D) -> Result<Journal<F>, Error>
        ensures opens { Opens D.Disk (journal_shown F.Folded) F.FAMILY (journal_in F.Folded) disk.old disk.new result }
        ensures size { IsTrue (D.kind disk.old).tells → IfOk result (λ j. F.size (F.value j.held) ≤ family_size F.FAMILY (D.content disk.old).reading) }
    {
        let gate = load(F::FAMILY, disk)?;
        let place = file_number(F::FAMILY, gate.part());
        let held = replay(alloc, disk, &gate, place)?;
        Ok(Journal {
            gate,
            held,
            failed: false,
            alloc,
            word: Vec::new(alloc),
        })
    }

    /// Makes a change: by one region in the file, and then in memory.
    pub fn change<D: Disk>(&mut self, disk: &mut D, region: F::Region) -> Result<(), Error>
        requires stands { StoreStands D.Disk (journal_shown F.Folded self.old) disk.old }
        requires lawful { F.lawful (F.value self.old.held) region }
        ensures writes { Writes D.Disk (journal_shown F.Folded self.old) (journal_shown F.Folded self.new)
            disk.old disk.new F.FAMILY (journal_held F.Folded)
            (region_change F.Folded (F.value self.old.held) region (F.Region.word region)) result }
        ensures appended { OnOk result (IsTrue (D.kind disk.old).tells →
            payloads self.new.gate (D.content disk.new).reading ≡ payloads self.old.gate (D.content disk.old).reading ++ F.Region.word region ∷ []) }
        ensures slot { self.new.gate.slot ≡ self.old.gate.slot }
        ensures room { IfErr result (IsFullAt self.old.gate.end (length (F.Region.word region))) }
        ensures same { IfErr result (λ e. IsOfDisk e → F.value self.new.held ≡ F.value self.old.held) }
    {
        self.word.clear();
        region.write(&mut self.word)?;
        self.held.make_room(&region)?;
        match self.gate.append(disk, self.word.as_slice()) {
            Ok(()) => {
                self.failed = true;
                self.held.settle(region)?;
                self.failed = false;
                Ok(())
            }
            Err(error) => Err(refusal(F::FAMILY, error)),
        }
    }

    /// Makes a change by writing all regions anew: the region, and another behind it. All words are made before the first write.
    pub fn rewrite<D: Disk>(
        &mut self,
        disk: &mut D,
        region: F::Region,
        rest: Option<F::Region>,
    ) -> Result<(), Error>
        requires stands { StoreStands D.Disk (journal_shown F.Folded self.old) disk.old }
        requires lawful { F.lawful (F.value self.old.held) region }
        requires gives { F.from F.empty (placed 0 (anew_words F.Region.word region rest)) ≡ Ok (F.changed (F.value self.old.held) region) }
        requires small { length (open_regions (anew_words F.Region.word region rest)) ≤ rewrite_size (F.size (F.changed (F.value self.old.held) region)) }
        ensures writes { Writes D.Disk (journal_shown F.Folded self.old) (journal_shown F.Folded self.new)
            disk.old disk.new F.FAMILY (journal_held F.Folded)
            (rewrite_change F.Folded (F.value self.old.held) region (anew_words F.Region.word region rest)) result }
        ensures rewritten { OnOk result (IsTrue (D.kind disk.old).tells →
            payloads self.new.gate (D.content disk.new).reading ≡ anew_words F.Region.word region rest) }
        ensures slot { OnOk result (self.new.gate.slot ≡ other_slot self.old.gate.slot) }
        ensures same { IfErr result (λ e. IsOfDisk e → F.value self.new.held ≡ F.value self.old.held) }
    {
        let words = words_of(self.alloc, &mut self.word, &region, &rest)?;
        self.held.make_room(&region)?;
        match self.gate.rewrite(disk, words.as_slice()) {
            Ok(()) => {
                let settled = self.held.settle(region);
                self.failed = settled.is_err();
                Ok(settled?)
            }
            Err(error) => Err(refusal(F::FAMILY, error)),
        }
    }

    /// Begins a draft of the regions, in the slot that is not in use. The value stays. The journal is not ready before the draft
    /// is committed.
    pub fn draft_begin<D: Disk>(&mut self, disk: &mut D) -> Result<(), Error>
        requires stands { StoreStands D.Disk (journal_shown F.Folded self.old) disk.old }
        ensures drafts { Drafts F.Folded D.Disk self.old self.new disk.old disk.new (F.value self.old.held ∷ []) result }
        ensures begun { OnOk result (IsDrafting F.Folded D.Disk (F.value self.old.held) self.new [] disk.new) }
        ensures held { self.new.held ≡ self.old.held }
        ensures slot { self.new.gate.slot ≡ self.old.gate.slot }
        ensures end { self.new.gate.end ≡ self.old.gate.end }
        ensures weight { (journal_shown F.Folded self.new).weight ≡ (journal_shown F.Folded self.old).weight }
        ensures refused { IfErr result (λ e. e ≡ StorageIoError) }
    {
        self.failed = true;
        match self.gate.draft_begin(disk) {
            Ok(()) => Ok(()),
            Err(error) => Err(refusal(F::FAMILY, error)),
        }
    }

    /// Takes on another value, which the draft is to give. The regions in use give the old one until the draft is
    /// committed.
    pub fn draft_turn_to(&mut self, held: F)
        requires unready { self.old.failed ≡ true }
        ensures held { self.new.held ≡ held }
        ensures gate { self.new.gate ≡ self.old.gate }
        ensures unready { self.new.failed ≡ true }
    {
        self.held = held;
    }

    /// Adds a region to the draft. The value stays.
    pub fn draft_push<D: Disk>(&mut self, disk: &mut D, region: &F::Region) -> Result<(), Error>
        requires going { self.old.gate.failed ≡ false }
        requires begun { IsSome self.old.gate.draft }
        ensures pushes { (stands : F.Value) (words : List (List ℕ)) → IsDrafting F.Folded D.Disk stands self.old words disk.old
            → Pushes F.Folded D.Disk self.old self.new disk.old disk.new stands words (F.Region.word region.now) result }
        ensures fits { OnOk result (F.Region.fits region.now) }
        ensures held { self.new.held ≡ self.old.held }
        ensures slot { self.new.gate.slot ≡ self.old.gate.slot }
        ensures weight { (journal_shown F.Folded self.new).weight ≡ (journal_shown F.Folded self.old).weight }
    {
        self.word.clear();
        region.write(&mut self.word)?;
        match self.gate.draft_push(disk, self.word.as_slice()) {
            Ok(()) => Ok(()),
            Err(error) => Err(refusal(F::FAMILY, error)),
        }
    }

    /// Makes the draft the family's regions. Its regions have to give the value, as it is once they are written anew.
    pub fn draft_commit<D: Disk>(&mut self, disk: &mut D) -> Result<(), Error>
        requires going { self.old.gate.failed ≡ false }
        requires begun { IsSome self.old.gate.draft }
        ensures commits { (stands : F.Value) (words : List (List ℕ)) → IsDrafting F.Folded D.Disk stands self.old words disk.old
            → F.from F.empty (placed 0 words) ≡ Ok (F.renewed (F.value self.old.held))
            → Commits F.Folded D.Disk self.old self.new disk.old disk.new stands words result }
        ensures held { IfErr result (λ e. self.new.held ≡ self.old.held) }
        ensures refused { IfErr result (λ e. e ≡ StorageIoError) }
    {
        match self.gate.draft_commit(disk) {
            Ok(()) => {
                self.held.renew();
                self.failed = false;
                Ok(())
            }
            Err(error) => Err(refusal(F::FAMILY, error)),
        }
    }

    /// Ends its use: it is opened anew then.
    pub fn give_up(&mut self)
        ensures held { self.new.held ≡ self.old.held }
        ensures gate { self.new.gate ≡ self.old.gate }
        ensures unready { self.new.failed ≡ true }
    {
        self.failed = true;
    }

    /// Puts all files on the disk. It takes no memory.
    pub fn flush<D: Disk>(&mut self, disk: &mut D) -> Result<(), Error>
        requires stands { StoreStands D.Disk (journal_shown F.Folded self.old) disk.old }
        ensures syncs { Syncs D.Disk (journal_shown F.Folded self.old) (journal_shown F.Folded self.new)
            disk.old disk.new F.FAMILY (journal_held F.Folded) result }
    {
        match self.gate.flush(disk) {
            Ok(()) => Ok(()),
            Err(error) => Err(refusal(F::FAMILY, error)),
        }
    }

    /// The value.
    pub fn held(&self) -> &F
        ensures { result.now ≡ self.now.held }
    {
        &self.held
    }

    /// Whether it is of no use: while a draft is made, and for good once it gave up or a call that writes was refused,
    /// but for want of memory before its write. It is opened anew then.
    pub fn is_failed(&self) -> bool
        ensures { (result ≡ false) ↔ (journal_shown F.Folded self.now).ready }
    {
        self.failed || self.gate.is_failed()
    }

    /// The slot that it uses, A or B.
    pub fn part(&self) -> Part
        ensures { result ≡ self.now.gate.slot.part }
    {
        self.gate.part()
    }
}
