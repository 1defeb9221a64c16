//! The map in memory: what it holds, the record of an entry, and what a record does to pairs and expiries.
ghost use Rattle.std.specs.Prelude.{◌≡◌, [], length, option_map, unwrap_or, IfOk, OnOk, nat_eq};
ghost use Rattle.std.specs.Option.{option_eq};
ghost use Rattle.std.specs.Cmp.Lexicographic.{pointwise};
ghost use Rattle.std.specs.List.Sorted.{IsStrictlySortedBy};
ghost use Rattle.den_model.specs.Apply.{value_at};
ghost use Rattle.den_model.specs.MapState.{MapState, part_of, with_stored};
ghost use Rattle.den_model.specs.Step.{begins_with, pairs_under};
ghost use Rattle.den_model.specs.Table.{at, by_bytes};
ghost use Rattle.den_lease.specs.Due.{has_due, due_keys};
ghost use Rattle.den_table.specs.Keyed.{keyed, behind};
ghost use Rattle.den_map.specs.Cleanup.{cleaned_map};
ghost use Rattle.den_map.specs.Scan.{keys_in};
ghost use Rattle.den_map.specs.Fold.{record_done};
ghost use Rattle.den_map.specs.Held.{EachIsHeld, IsSound};
ghost use Rattle.den_map.specs.Journal.{expiry_of, recorded};
ghost use Rattle.den_map.specs.Written.{IsOver, value_over};

use crate::writes::Writes;
use den_codec::{Blob, Command, Entry, Held, JournalRecord, KvEntry, LogId, Positive, Rows};
use den_lease::Expiries;
use den_table::ByteMap;
use std::alloc::{AllocError, Global};
use std::collections::btree_map::Range;
use std::marker::Model;

/// Pairs and expiries, and the mark: the place of the last entry that they hold.
#[derive(Drop)]
pub struct Map {
    pairs: ByteMap<Held>,
    expiries: Expiries,
    mark: LogId,
}

impl Model for Map {
    ghost use Rattle.den_model.specs.MapState.{MapState};
    ghost use Rattle.den_map.specs.Held.{AreExpiriesOf};

    ghost Value = { MapState };

    ghost view = { λ m. record { pairs = m.pairs; expiries = m.expiries; mark = m.mark } };

    ghost invariant = { λ m. AreExpiriesOf m.pairs m.expiries };
}

// When a time to live that begins at a moment ends, in milliseconds. 0 is never.
fn expiry_of(moment: u64, ttl_secs: Option<u64>) -> u64
    ensures { result ≡ expiry_of moment ttl_secs }
{
    match ttl_secs {
        None => 0,
        Some(seconds) => moment.saturating_add(seconds.saturating_mul(1000)),
    }
}

fn begins_with(key: &[u8], prefix: &[u8]) -> bool
    ensures { result ≡ begins_with key.now prefix.now }
{
    if key.len() < prefix.len() {
        return false;
    }
    prefix == &key[..prefix.len()]
}

impl Map {
    /// No pair and no expiry, and this mark.
    pub fn at(alloc: Global, mark: LogId) -> Map
        ensures { result ≡ record { pairs = []; expiries = []; mark = mark } }
    {
        Map {
            pairs: ByteMap::new(alloc),
            expiries: Expiries::new(alloc),
            mark,
        }
    }

    /// The value at the key.
    pub fn get(&self, key: &[u8]) -> Option<&Blob>
        ensures { option_map (λ b. b.now) result ≡ value_at (part_of self.now 0) key.now }
    {
        match self.pairs.get(key) {
            None => None,
            Some(held) => Some(&held.value),
        }
    }

    /// The place of the last entry.
    pub fn mark(&self) -> LogId
        ensures { result ≡ self.now.mark }
    {
        self.mark
    }

    /// Moves the mark.
    pub fn set_mark(&mut self, mark: LogId)
        ensures { self.new ≡ record self.old { mark = mark } }
    {
        self.mark = mark;
    }

    /// How many pairs there are.
    pub fn len(&self) -> usize
        ensures { result ≡ length self.now.pairs }
    {
        self.pairs.len()
    }

    /// How many keys have an expiry. Each of them is held, whatever the map was made of.
    pub fn expiry_count(&self) -> usize
        ensures is { result ≡ length self.now.expiries }
        ensures held { EachIsHeld self.now.expiries self.now.pairs }
    {
        self.expiries.len()
    }

    // No writes, over which the map is as it stands.
    pub(crate) fn unwritten(&self, alloc: Global) -> Writes
        ensures { IsOver result self.now self.now }
    {
        // The map says here that its keys are sorted.
        let _count = self.pairs.len();
        Writes::none(alloc)
    }

    // The value at the key after the writes.
    fn get_over<'a>(&'a self, writes: &'a Writes, key: &[u8]) -> Option<&'a Blob>
        ensures { option_map (λ b. b.now) result ≡ value_over writes.now self.now key.now }
    {
        match writes.get(key) {
            None => self.get(key),
            Some(None) => None,
            Some(Some(value)) => Some(value),
        }
    }

    // Whether the key has the expected value after the writes, or is absent where none is expected.
    fn has(&self, writes: &Writes, key: &Blob, expected: &Option<Blob>) -> bool
        ensures { result ≡ option_eq (pointwise nat_eq) expected.now (value_over writes.now self.now key.now) }
    {
        match (expected, self.get_over(writes, key.as_slice())) {
            (None, None) => true,
            (Some(expected), Some(value)) => expected.as_slice() == value.as_slice(),
            _ => false,
        }
    }

    // The record of an entry after the writes: a swap's is its outcome.
    pub(crate) fn record_of(
        &self,
        writes: &Writes,
        entry: &Entry,
    ) -> Result<JournalRecord, AllocError>
        ensures { IfOk result (λ r. (s : MapState) → IsOver writes.now self.now s → r ≡ recorded s entry.now) }
    {
        let index = Positive::of(entry.index());
        let term = entry.term();
        let record = match entry.command() {
            Command::Noop => JournalRecord::Noop { index, term },
            Command::Insert {
                key,
                value,
                ttl_secs,
            } => JournalRecord::Insert {
                index,
                term,
                key: key.copy()?,
                value: value.copy()?,
                expiry: expiry_of(entry.moment(), *ttl_secs),
            },
            Command::Delete { key } => JournalRecord::Delete {
                index,
                term,
                key: key.copy()?,
            },
            Command::CompareAndSwap {
                key,
                expected,
                value,
            } => {
                if self.has(writes, key, expected) {
                    JournalRecord::Insert {
                        index,
                        term,
                        key: key.copy()?,
                        value: value.copy()?,
                        expiry: 0,
                    }
                } else {
                    JournalRecord::CasFailed { index, term }
                }
            }
        };
        Ok(record)
    }

    // Sets a pair, and its expiry where that is not 0.
    pub(crate) fn set_pair(
        &mut self,
        alloc: Global,
        key: &Blob,
        held: Held,
        expiry: u64,
    ) -> Result<(), AllocError>
        ensures { OnOk result (self.new ≡ with_stored self.old key.now held.value held.term expiry) }
    {
        self.pairs.insert(alloc, key.as_slice(), held)?;
        if let Some(expiry) = Positive::new(expiry) {
            self.expiries.insert(alloc, key.as_slice(), expiry)?;
        }
        Ok(())
    }

    /// Removes each key whose expiry is at most the moment, with its expiry.
    pub fn clean(&mut self, moment: Positive)
        ensures { self.new ≡ cleaned_map moment self.old }
    {
        while let Some(expired) = self.expiries.take_due(moment.get()) {
            self.pairs.remove(expired.as_slice());
        }
    }

    /// Whether some key has expired at the moment.
    pub fn has_due(&self, moment: u64) -> bool
        ensures { result ≡ has_due moment self.now.expiries }
    {
        self.expiries.has_due(moment)
    }

    /// The keys that have expired at the moment, sorted.
    pub fn due_keys(&self, alloc: Global, moment: u64) -> Result<Rows<Blob>, AllocError>
        ensures keys { IfOk result (λ keys. keys ≡ due_keys moment self.now.expiries) }
        ensures sorted { IfOk result (λ keys. IsStrictlySortedBy by_bytes keys) }
    {
        self.expiries.due_keys(alloc, moment)
    }

    /// The pairs whose keys begin with the prefix, sorted.
    pub fn pairs_under(&self, alloc: Global, prefix: &[u8]) -> Result<Rows<KvEntry>, AllocError>
        ensures pairs { IfOk result (λ pairs. pairs ≡ pairs_under self.now.pairs prefix.now) }
        ensures sorted { IfOk result (λ pairs. IsStrictlySortedBy by_bytes (keys_in pairs)) }
    {
        let start = Vec::from_slice(alloc, prefix)?;
        let mut pairs = Vec::new(alloc);
        for (key, held) in self.pairs.iter_from(&start) {
            if !begins_with(key.as_slice(), prefix) {
                break;
            }
            pairs.push(KvEntry {
                key: Blob::of(alloc, key.as_slice())?,
                value: held.value.copy()?,
            })?;
        }
        Ok(Rows::of(pairs))
    }

    // The moment at which the key expires. 0 is never.
    pub(crate) fn expiry_at(&self, key: &[u8]) -> u64
        ensures { result ≡ unwrap_or (at self.now.expiries key.now) 0 }
    {
        self.expiries.get(key).unwrap_or(0)
    }

    // The pairs behind the key, and all where there is none, in the order of their keys.
    pub(crate) fn pairs_behind<'a>(&'a self, key: Option<&'a Vec<u8>>) -> Range<'a, Vec<u8>, Held>
        ensures entries { keyed result ≡ behind (option_map (λ k. k.now.items) key.entry) self.now.pairs }
        ensures sound { IsSound self.now }
    {
        self.pairs.iter_behind(key)
    }

    // What a record does to pairs and expiries.
    pub(crate) fn carry_out(
        &mut self,
        alloc: Global,
        journaled: &JournalRecord,
    ) -> Result<(), AllocError>
        ensures { OnOk result (self.new ≡ record_done self.old journaled.now) }
    {
        match journaled {
            JournalRecord::Noop { .. } | JournalRecord::CasFailed { .. } => {}
            JournalRecord::Insert {
                term,
                key,
                value,
                expiry,
                ..
            } => {
                let held = Held {
                    value: value.copy()?,
                    term: *term,
                };
                self.set_pair(alloc, key, held, *expiry)?;
            }
            JournalRecord::Delete { key, .. } => {
                self.pairs.remove(key.as_slice());
                self.expiries.remove(key.as_slice());
            }
            JournalRecord::Cleanup { moment } => self.clean(*moment),
        }
        Ok(())
    }
}
