//! The map written anew, or another one in its place: its mark, and its pairs in pages.
ghost use Rattle.std.specs.Prelude.{◌≡◌, ℕ, false, None, [], IsSome, IfErr, OnOk};
ghost use Rattle.den_model.specs.MapState.{MapState};
ghost use Rattle.den_journal.specs.Drafts.{IsDrafting};
ghost use Rattle.den_journal.specs.Journals.{journal_shown};
ghost use Rattle.den_journal.specs.Writes.{StoreStands};
ghost use Rattle.den_state.specs.Checkpoint.{IsWriting, IsDraftWhole, Next, Steps, Renews};
ghost use Rattle.den_state.specs.Stored.{Stored};

use crate::stored_map::StoredMap;
use den_codec::{Blob, Error, LogId, StateRegion};
use den_disk::Disk;
use den_journal::{Folded, Journal};
use den_map::last_key;
use std::alloc::Global;

// Adds the stored mark to a draft that has nothing yet.
fn push_mark<D: Disk>(journal: &mut Journal<StoredMap>, disk: &mut D) -> Result<(), Error>
    requires going { journal.old.gate.failed ≡ false }
    requires begun { IsSome journal.old.gate.draft }
    ensures steps { (stands : Stored) → IsDrafting ⟦<StoredMap as Folded>⟧ D.Disk stands journal.old [] disk.old
        → Steps ⟦<StoredMap as Folded>⟧ D.Disk stands journal.old.held.map journal.old journal.new disk.old disk.new
        (journal_shown ⟦<StoredMap as Folded>⟧ journal.old).weight [] result }
    ensures writing { (stands : Stored) → IsDrafting ⟦<StoredMap as Folded>⟧ D.Disk stands journal.old [] disk.old
        → OnOk result (IsWriting ⟦<StoredMap as Folded>⟧ D.Disk stands journal.old.held.map
        (journal_shown ⟦<StoredMap as Folded>⟧ journal.old).weight None journal.new disk.new) }
    ensures held { journal.new.held ≡ journal.old.held }
    ensures slot { journal.new.gate.slot ≡ journal.old.gate.slot }
    ensures weight { (journal_shown ⟦<StoredMap as Folded>⟧ journal.new).weight ≡ (journal_shown ⟦<StoredMap as Folded>⟧ journal.old).weight }
{
    let LogId { index, term } = journal.held().map.mark();
    journal.draft_push(disk, &StateRegion::Begin { index, term })
}

// Adds the next page of the pairs to the draft: whether one was left. Its last key takes the place of the one before it.
fn push_page<D: Disk>(
    alloc: Global,
    journal: &mut Journal<StoredMap>,
    disk: &mut D,
    last: &mut Option<Blob>,
) -> Result<bool, Error>
    requires going { journal.old.gate.failed ≡ false }
    requires begun { IsSome journal.old.gate.draft }
    ensures next { (stands : Stored) (m : MapState) (most : ℕ) → IsWriting ⟦<StoredMap as Folded>⟧ D.Disk stands m most last.old journal.old disk.old
        → Next ⟦<StoredMap as Folded>⟧ D.Disk stands m journal.old journal.new disk.old disk.new most last.old last.new result }
    ensures held { journal.new.held ≡ journal.old.held }
    ensures slot { journal.new.gate.slot ≡ journal.old.gate.slot }
{
    let page = journal.held().map.page(alloc, last.as_ref())?;
    match last_key(page.as_slice()) {
        None => return Ok(false),
        Some(key) => *last = Some(key.copy()?),
    }
    match journal.draft_push(disk, &StateRegion::Pairs { pairs: page }) {
        Ok(()) => Ok(true),
        Err(error) => Err(error),
    }
}

// Adds the pairs to a draft that has the stored mark.
fn push_pages<D: Disk>(
    alloc: Global,
    journal: &mut Journal<StoredMap>,
    disk: &mut D,
) -> Result<(), Error>
    requires writing { (stands : Stored) × IsWriting ⟦<StoredMap as Folded>⟧ D.Disk stands journal.old.held.map
        (journal_shown ⟦<StoredMap as Folded>⟧ journal.old).weight None journal.old disk.old }
    ensures steps { (stands : Stored) → IsWriting ⟦<StoredMap as Folded>⟧ D.Disk stands journal.old.held.map
        (journal_shown ⟦<StoredMap as Folded>⟧ journal.old).weight None journal.old disk.old
        → Steps ⟦<StoredMap as Folded>⟧ D.Disk stands journal.old.held.map journal.old journal.new disk.old disk.new
        (journal_shown ⟦<StoredMap as Folded>⟧ journal.old).weight [] result }
    ensures written { (stands : Stored) → IsWriting ⟦<StoredMap as Folded>⟧ D.Disk stands journal.old.held.map
        (journal_shown ⟦<StoredMap as Folded>⟧ journal.old).weight None journal.old disk.old
        → OnOk result (IsDraftWhole ⟦<StoredMap as Folded>⟧ D.Disk stands journal.old.held.map journal.new disk.new) }
    ensures held { journal.new.held ≡ journal.old.held }
    ensures slot { journal.new.gate.slot ≡ journal.old.gate.slot }
{
    let mut last = None;
    loop {
        match push_page(alloc, journal, disk, &mut last) {
            Ok(true) => {}
            Ok(false) => return Ok(()),
            Err(error) => return Err(error),
        }
    }
}

// Adds a checkpoint of the map to a draft that has nothing yet.
fn push_map<D: Disk>(
    alloc: Global,
    journal: &mut Journal<StoredMap>,
    disk: &mut D,
) -> Result<(), Error>
    requires drafting { (stands : Stored) × IsDrafting ⟦<StoredMap as Folded>⟧ D.Disk stands journal.old [] disk.old }
    ensures steps { (stands : Stored) → IsDrafting ⟦<StoredMap as Folded>⟧ D.Disk stands journal.old [] disk.old
        → Steps ⟦<StoredMap as Folded>⟧ D.Disk stands journal.old.held.map journal.old journal.new disk.old disk.new
        (journal_shown ⟦<StoredMap as Folded>⟧ journal.old).weight [] result }
    ensures written { (stands : Stored) → IsDrafting ⟦<StoredMap as Folded>⟧ D.Disk stands journal.old [] disk.old
        → OnOk result (IsDraftWhole ⟦<StoredMap as Folded>⟧ D.Disk stands journal.old.held.map journal.new disk.new) }
    ensures held { journal.new.held ≡ journal.old.held }
    ensures slot { journal.new.gate.slot ≡ journal.old.gate.slot }
{
    match push_mark(journal, disk) {
        Ok(()) => push_pages(alloc, journal, disk),
        Err(error) => Err(error),
    }
}

// Puts a checkpoint of the map into a draft that has nothing yet, and makes it the family's regions.
pub(crate) fn commit_map<D: Disk>(
    alloc: Global,
    journal: &mut Journal<StoredMap>,
    disk: &mut D,
) -> Result<(), Error>
    requires drafting { (stands : Stored) × IsDrafting ⟦<StoredMap as Folded>⟧ D.Disk stands journal.old [] disk.old }
    ensures renews { (stands : Stored) → IsDrafting ⟦<StoredMap as Folded>⟧ D.Disk stands journal.old [] disk.old
        → Renews ⟦<StoredMap as Folded>⟧ D.Disk stands journal.old.held.map journal.old journal.new disk.old disk.new
        (journal_shown ⟦<StoredMap as Folded>⟧ journal.old).weight result }
    ensures map { journal.new.held.map ≡ journal.old.held.map }
    ensures held { IfErr result (λ e. journal.new.held ≡ journal.old.held) }
{
    match push_map(alloc, journal, disk) {
        Ok(()) => journal.draft_commit(disk),
        Err(error) => Err(error),
    }
}

// Writes the map anew with the stored mark, in the slot that is not in use, which is the one in use then.
pub(crate) fn write_anew<D: Disk>(
    alloc: Global,
    journal: &mut Journal<StoredMap>,
    disk: &mut D,
) -> Result<(), Error>
    requires stands { StoreStands D.Disk (journal_shown ⟦<StoredMap as Folded>⟧ journal.old) disk.old }
    ensures renews { Renews ⟦<StoredMap as Folded>⟧ D.Disk (⟦<StoredMap as Folded>⟧.value journal.old.held) journal.old.held.map
        journal.old journal.new disk.old disk.new (journal_shown ⟦<StoredMap as Folded>⟧ journal.old).weight result }
    ensures map { journal.new.held.map ≡ journal.old.held.map }
{
    match journal.draft_begin(disk) {
        Ok(()) => commit_map(alloc, journal, disk),
        Err(error) => Err(error),
    }
}
