//! A map keyed by bytes.
ghost use Rattle.std.specs.Prelude.{◌≡◌, ℕ, List, [], filter, Option, option_copied, option_map, IfSome, OnOk, OnErr, length};
ghost use Rattle.std.specs.List.Sorted.{IsStrictlySortedBy};
ghost use Rattle.std.specs.Map.{keys_of};
ghost use Rattle.std.specs.Ordering.{is_le};
ghost use Rattle.den_model.specs.Table.{at, by_bytes, set, unset};
ghost use Rattle.den_table.specs.Keyed.{keyed, behind};

use std::alloc::{AllocError, Global};
use std::collections::BTreeMap;
use std::collections::btree_map::{Iter, Range};
use std::marker::Model;
use std::ops::Bound;

/// Values at keys, seen as the table of them.
#[derive(Drop)]
pub struct ByteMap<V> {
    map: BTreeMap<Vec<u8>, V>,
}

impl<V> Model for ByteMap<V> {
    ghost use Rattle.std.specs.Coded.{coded_ℕ, coded_list, coded×};
    ghost use Rattle.den_model.specs.Table.{Table};

    ghost Value = { Table V };

    ghost coded = { coded_list (coded× (coded_list coded_ℕ) V.code) };

    ghost use Rattle.den_table.specs.Keyed.{keyed};

    ghost view = { λ p. keyed p.map.entries };
}

impl<V> ByteMap<V> {
    /// A map that holds no key.
    pub fn new(alloc: Global) -> Self
        ensures { result ≡ [] }
    {
        ByteMap {
            map: BTreeMap::new(alloc),
        }
    }

    /// How many keys are held.
    pub fn len(&self) -> usize
        ensures is { result ≡ length self.now }
        ensures sorted { IsStrictlySortedBy by_bytes (keys_of self.now) }
    {
        self.map.len()
    }

    /// The value at the key, if it is held.
    pub fn get(&self, key: &[u8]) -> Option<&V>
        ensures { option_copied result ≡ at self.now key.now }
    {
        self.map.get(key)
    }

    /// Each key with its value, in the order of the keys.
    pub fn iter(&self) -> Iter<'_, Vec<u8>, V>
        ensures entries { keyed result ≡ self.now }
        ensures sorted { IsStrictlySortedBy by_bytes (keys_of self.now) }
    {
        self.map.iter()
    }

    /// Each key from this one on with its value, in the order of the keys. The keys before it are not walked.
    pub fn iter_from<'a>(&'a self, start: &'a Vec<u8>) -> Range<'a, Vec<u8>, V>
        ensures entries { keyed result ≡ filter (λ e. is_le (by_bytes start.now.items e.0)) self.now }
        ensures sorted { IsStrictlySortedBy by_bytes (keys_of self.now) }
    {
        self.map.range(start..)
    }

    /// Each key above this one with its value, in the order of the keys; each key where there is none. The keys up to it are
    /// not walked.
    pub fn iter_behind<'a>(&'a self, key: Option<&'a Vec<u8>>) -> Range<'a, Vec<u8>, V>
        ensures entries { keyed result ≡ behind (option_map (λ k. k.now.items) key.entry) self.now }
        ensures sorted { IsStrictlySortedBy by_bytes (keys_of self.now) }
    {
        let start = match key {
            None => Bound::Unbounded,
            Some(key) => Bound::Excluded(key),
        };
        self.map.range((start, Bound::Unbounded))
    }

    /// Takes the key and its value out, if it is held.
    pub fn take(&mut self, key: &[u8]) -> Option<(Vec<u8>, V)>
        ensures key { IfSome result (λ p. p.0.items ≡ key.now) }
        ensures value { option_map (λ p. p.1) result ≡ at self.old key.now }
        ensures rest { self.new ≡ unset self.old key.now }
        ensures sorted { IsStrictlySortedBy by_bytes (keys_of self.old) }
    {
        // The map says here that its keys are sorted.
        let _count = self.map.len();
        self.map.remove_entry(key)
    }
}

impl<V: Drop> ByteMap<V> {
    /// Puts the value at the key, in place of what it held. On refusal nothing changes.
    pub fn insert(&mut self, alloc: Global, key: &[u8], value: V) -> Result<(), AllocError>
        ensures ok { OnOk result (self.new ≡ set self.old key.now value) }
        ensures err { OnErr result (self.new ≡ self.old) }
    {
        let key = Vec::from_slice(alloc, key)?;
        self.map.insert(key, value)?;
        Ok(())
    }

    /// Takes the key away.
    pub fn remove(&mut self, key: &[u8])
        ensures rest { self.new ≡ unset self.old key.now }
        ensures sorted { IsStrictlySortedBy by_bytes (keys_of self.old) }
    {
        // The map says here that its keys are sorted.
        let _count = self.map.len();
        self.map.remove(key);
    }
}
