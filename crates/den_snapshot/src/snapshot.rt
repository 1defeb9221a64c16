//! A snapshot: its bytes, and the map that it is of.
#![tactic(auto, using(den_codec::proofs::Growing::grows_then))]

ghost use Rattle.std.specs.Prelude.{◌≡◌, true, refl, if◌then◌else◌, Option, Some, None, IfOk};
ghost use Rattle.den_model.specs.declared.log_id.LogId.{LogId};
ghost use Rattle.den_model.specs.Words.{IsWordBy};
ghost use Rattle.den_model.proofs.Spells.{word_found, word_read};
ghost use Rattle.den_map.specs.Leases.{has_expiry};
ghost use Rattle.den_snapshot.specs.Snapshots.{taken_of, map_of, rises, rises_above, some_expires};
ghost use Rattle.den_snapshot.specs.Spelled.{spells_snapshot};
ghost use Rattle.den_snapshot.specs.Words.{snapshot_word, snapshot_at, FitsSnapshot};

use den_codec::{Blob, LogId, ReadError, Rows, StoredPair, Word, list_size, put_list, take_list};
use den_map::Map;
use std::alloc::{AllocError, Global};
use std::marker::Model;

/// The pairs of a map with their expiries, in the order of their keys, no key twice; and the mark, the place of the last
/// entry that they hold.
#[derive(Debug, Drop)]
pub struct Snapshot {
    mark: LogId,
    pairs: Rows<StoredPair>,
}

impl Model for Snapshot {
    ghost use Rattle.std.specs.Prelude.{◌≡◌, true};
    ghost use Rattle.den_snapshot.specs.Snapshots.{Taken, rises};

    ghost Value = { Taken };

    ghost view = { λ s. record { mark = s.mark; pairs = s.pairs } };

    ghost invariant = { λ s. rises s.pairs ≡ true };
}

// Whether each key stands above the one before it.
fn rises(pairs: &[StoredPair]) -> bool
    ensures { result ≡ rises pairs.now }
{
    match pairs {
        [] => true,
        [first, rest @ ..] => rises_above(&first.key, rest),
    }
}

// Whether each key stands above the one before it, and the first above this one.
fn rises_above(key: &Blob, pairs: &[StoredPair]) -> bool
    ensures { result ≡ rises_above key.now pairs.now }
{
    let mut last = key;
    for pair in pairs {
        if !last.as_slice().cmp(pair.key.as_slice()).is_lt() {
            return false;
        }
        last = &pair.key;
    }
    true
}

// Whether a pair has an expiry.
fn some_expires(pairs: &[StoredPair]) -> bool
    ensures { result ≡ some_expires pairs.now }
{
    for pair in pairs {
        if 0 < pair.expiry {
            return true;
        }
    }
    false
}

impl Snapshot {
    /// The pairs under the mark where their keys rise, and nothing where they do not.
    pub fn new(mark: LogId, pairs: Rows<StoredPair>) -> Option<Snapshot>
        ensures { result ≡ (if rises pairs then Some (record { mark = mark; pairs = pairs }) else None) }
    {
        if !rises(pairs.as_slice()) {
            return None;
        }
        Some(Snapshot { mark, pairs })
    }

    /// A snapshot of the map, under this mark.
    pub fn of_map(alloc: Global, map: &Map, mark: LogId) -> Result<Snapshot, AllocError>
        ensures { IfOk result (λ snapshot. snapshot ≡ taken_of mark map.now) }
    {
        let pairs = map.stored_pairs(alloc)?;
        Ok(Snapshot { mark, pairs })
    }

    /// The map that it is of, under this mark.
    pub fn to_map(&self, alloc: Global, mark: LogId) -> Result<Map, AllocError>
        ensures { IfOk result (λ map. map ≡ map_of mark self.now) }
    {
        let mut map = Map::at(alloc, mark);
        map.add_pairs(alloc, self.pairs.as_slice())?;
        Ok(map)
    }

    /// The place of the last entry that the pairs hold.
    pub fn mark(&self) -> LogId
        ensures { result ≡ self.now.mark }
    {
        self.mark
    }

    /// The pairs, to be read one after the other.
    pub fn as_slice(&self) -> &[StoredPair]
        ensures is { result.now ≡ self.now.pairs }
        ensures rise { rises self.now.pairs ≡ true }
    {
        self.pairs.as_slice()
    }

    /// Whether the map that it is of, under whatever mark, has a key that expires.
    pub fn holds_expiry(&self) -> bool
        ensures { (mark : LogId) → result ≡ has_expiry (map_of mark self.now) }
    {
        some_expires(self.as_slice())
    }
}

impl Word for Snapshot {
    ghost word = { snapshot_word };

    ghost at = { snapshot_at };

    ghost fits = { FitsSnapshot };

    ghost is_word = { IsWordBy FitsSnapshot snapshot_word };

    ghost found = { word_found spells_snapshot };

    ghost again = { word_read spells_snapshot };

    ghost written = { λ x h. (refl, h) };

    fn put(&self, out: &mut Vec<u8>) -> Result<(), AllocError> {
        self.mark.index.put(out)?;
        self.mark.term.put(out)?;
        put_list(out, self.as_slice())
    }

    #[tactic(auto, unfolding(crate::specs::Words::snapshot_at))]
    fn take(alloc: Global, bytes: &[u8]) -> Result<(Snapshot, &[u8]), ReadError> {
        let (index, rest) = u64::take(alloc, bytes)?;
        let (term, rest) = u64::take(alloc, rest)?;
        let (pairs, rest) = take_list(alloc, rest)?;
        match Snapshot::new(LogId { index, term }, pairs) {
            Some(snapshot) => Ok((snapshot, rest)),
            None => Err(ReadError::NoWord),
        }
    }

    #[tactic(auto, unfolding(den_model::specs::Spelling::u64_word))]
    fn size(&self) -> u64 {
        list_size(self.as_slice()).saturating_add(16)
    }
}
