// Entries in the order of their indices.
ghost use Rattle.std.specs.Prelude.{◌≡◌, ◌++◌, true, IfOk, option_map};
ghost use Rattle.den_model.specs.Entries.{begin_from};
ghost use Rattle.den_model.specs.Log.{above, below, between};
ghost use Rattle.den_store.specs.Lookup.{entry_of};
ghost use Rattle.den_own.specs.Entries.{first_index};

use den_codec::Entry;
use std::alloc::{AllocError, Global};

// The index of the first of these entries, if there is one. Each index is at least 1.
pub(crate) fn first_index(entries: &[Entry]) -> Option<u64>
    ensures is { result ≡ first_index entries.now }
    ensures positive { begin_from 1 entries.now ≡ true }
{
    match entries.first() {
        Some(entry) => Some(entry.index()),
        None => None,
    }
}

// The same entries over the same bytes, which are shared.
fn copied(alloc: Global, entries: &[Entry]) -> Result<Vec<Entry>, AllocError>
    ensures { IfOk result (λ copies. copies.items ≡ entries.now) }
{
    let mut copies = Vec::with_capacity(alloc, entries.len())?;
    for entry in entries {
        copies.push(entry.copy()?)?;
    }
    Ok(copies)
}

// Takes out the entries from an index on.
pub(crate) fn cut_from(entries: &mut Vec<Entry>, from: u64)
    ensures { entries.new.items ≡ below from entries.old.items }
{
    entries.retain(|entry| entry.index() < from);
}

// Takes out the entries up to an index.
pub(crate) fn cut_to(entries: &mut Vec<Entry>, index: u64)
    ensures { entries.new.items ≡ above index entries.old.items }
{
    entries.retain(|entry| index < entry.index());
}

// The held entries below an index, and then these.
pub(crate) fn joined(
    alloc: Global,
    held: &[Entry],
    from: u64,
    entries: &[Entry],
) -> Result<Vec<Entry>, AllocError>
    ensures { IfOk result (λ all. all.items ≡ below from held.now ++ entries.now) }
{
    let mut all = copied(alloc, held)?;
    cut_from(&mut all, from);
    let mut more = copied(alloc, entries)?;
    all.append(&mut more)?;
    Ok(all)
}

// The entries from a first index up to a last one.
pub(crate) fn picked(
    alloc: Global,
    entries: &[Entry],
    first: u64,
    last: u64,
) -> Result<Vec<Entry>, AllocError>
    ensures { IfOk result (λ all. all.items ≡ between first last entries.now) }
{
    let mut all = copied(alloc, entries)?;
    all.retain(|entry| first <= entry.index() && entry.index() <= last);
    Ok(all)
}

// The entry of an index, if it is there.
pub(crate) fn found(entries: &[Entry], index: u64) -> Option<&Entry>
    ensures { option_map (λ e. e.now) result ≡ entry_of index entries.now }
{
    entries.iter().find(|entry| entry.index() == index)
}
