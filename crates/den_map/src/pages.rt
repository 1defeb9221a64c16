//! The pairs of a map: all of them, and in pages, each small enough for one region of a file.
ghost use Rattle.std.specs.Prelude.{◌≡◌, ◌-◌, ◌^◌, ◌++◌, min, List, length, map, option_copied, IfOk, OnOk};
ghost use Rattle.den_model.specs.declared.region.StoredPair.{StoredPair};
ghost use Rattle.den_table.specs.Keyed.{behind as keys_behind};
ghost use Rattle.den_map.specs.Held.{IsSound};
ghost use Rattle.den_map.specs.Pages.{IsPage, last_key, stored, stored_pairs};
ghost use Rattle.den_map.specs.Sizes.{pair_size};

use crate::map::Map;
use den_codec::{Blob, Held, Rows, StoredPair};
use std::alloc::{AllocError, Global};

// The bytes of a region's payload beside its pairs: what it is, and how many pairs it has.
const HEAD: u64 = 9;

// The bytes of a page's region, where it has more than one pair.
const LIMIT: u64 = 65_536;

// The bytes of a pair in a region: two lengths, term and expiry beside key and value.
fn pair_size(key: &[u8], value: &[u8]) -> u64
    ensures { result ≡ min (pair_size key.now value.now) (2 ^ 64 - 1) }
{
    (key.len() as u64)
        .saturating_add(value.len() as u64)
        .saturating_add(32)
}

/// The key of the last pair, if there is one.
pub fn last_key(pairs: &[StoredPair]) -> Option<&Blob>
    ensures { option_copied result ≡ last_key pairs.now }
{
    match pairs.last() {
        None => None,
        Some(pair) => Some(&pair.key),
    }
}

impl Map {
    // A pair with the moment at which its key expires.
    fn stored(&self, alloc: Global, key: &[u8], held: &Held) -> Result<StoredPair, AllocError>
        ensures { IfOk result (λ pair. pair ≡ stored self.now.expiries (key.now, held.now)) }
    {
        Ok(StoredPair {
            key: Blob::of(alloc, key)?,
            value: held.value.copy()?,
            term: held.term,
            expiry: self.expiry_at(key),
        })
    }

    /// All pairs in the order of their keys, each with the moment at which its key expires. The values are shared, not
    /// copied.
    pub fn stored_pairs(&self, alloc: Global) -> Result<Rows<StoredPair>, AllocError>
        ensures sound { OnOk result (IsSound self.now) }
        ensures pairs { IfOk result (λ pairs. pairs ≡ stored_pairs self.now) }
    {
        let mut pairs = Vec::with_capacity(alloc, self.len())?;
        for (key, held) in self.pairs_behind(None) {
            pairs.push(self.stored(alloc, key.as_slice(), held)?)?;
        }
        Ok(Rows::of(pairs))
    }

    /// The next page of the pairs, which are in the order of their keys: of those behind the key, and of all where there is
    /// none. A page holds one pair at least where any is left, and as many as a region of 65,536 bytes does. The cost is
    /// O(log n) and that of the page.
    pub fn page(&self, alloc: Global, behind: Option<&Blob>) -> Result<Rows<StoredPair>, AllocError>
        ensures sound { OnOk result (IsSound self.now) }
        ensures page { (front left : List StoredPair) → front ++ left ≡ stored_pairs self.now → option_copied behind.entry ≡ last_key front
            → IfOk result (λ page. IsPage left page) }
        ensures any_key { IfOk result (λ page. IsPage (map (stored self.now.expiries) (keys_behind (option_copied behind.entry) self.now.pairs)) page) }
    {
        let start = match behind {
            None => None,
            Some(key) => Some(Vec::from_slice(alloc, key.as_slice())?),
        };
        let mut size = HEAD;
        let mut pairs = Vec::new(alloc);
        for (key, held) in self.pairs_behind(start.as_ref()) {
            size = size.saturating_add(pair_size(key.as_slice(), held.value.as_slice()));
            if !pairs.is_empty() && LIMIT < size {
                break;
            }
            pairs.push(self.stored(alloc, key.as_slice(), held)?)?;
        }
        Ok(Rows::of(pairs))
    }
}
