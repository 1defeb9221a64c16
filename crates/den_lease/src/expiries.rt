//! Moments at which keys expire.
ghost use Rattle.std.specs.Prelude.{◌≡◌, ◌<◌, true, false, List, [], filter, length, nat_le, IfSome, IfNone, IfOk, OnOk, OnErr};
ghost use Rattle.std.specs.List.Sorted.{IsStrictlySortedBy};
ghost use Rattle.std.specs.Map.{keys_of};
ghost use Rattle.den_model.specs.Apply.{is_expired, kept_expiries};
ghost use Rattle.den_model.specs.Table.{at, by_bytes, set, unset};
ghost use Rattle.den_lease.specs.Due.{due_keys, has_due};

use crate::{LeaseRow, LeaseSnapshot};
use den_model::{Blob, Positive, Rows};
use den_table::ByteMap;
use std::alloc::{AllocError, Global};
use std::collections::BTreeSet;
use std::marker::Model;

/// Keys with the moments in milliseconds at which they expire, found by key and by moment, seen as the table of them. A
/// change costs O(log n), and what is due at a moment is found without a walk over the rest.
#[derive(Drop)]
pub struct Expiries {
    by_key: ByteMap<Positive>,
    by_moment: BTreeSet<(u64, Vec<u8>)>,
}

impl Model for Expiries {
    ghost use Rattle.std.specs.Prelude.{ℕ};
    ghost use Rattle.den_model.specs.Table.{Table};
    ghost use Rattle.den_lease.specs.Scheduled.{IsScheduleOf};

    ghost Value = { Table ℕ };

    ghost view = { λ e. e.by_key };

    ghost invariant = { λ e. IsScheduleOf e.by_key e.by_moment.keys };
}

impl Expiries {
    /// No key expires.
    pub fn new(alloc: Global) -> Expiries
        ensures { result ≡ [] }
    {
        Expiries {
            by_key: ByteMap::new(alloc),
            by_moment: BTreeSet::new(alloc),
        }
    }

    /// How many keys expire.
    pub fn len(&self) -> usize
        ensures { result ≡ length self.now }
    {
        self.by_key.len()
    }

    /// The moment at which the key expires, if it does.
    pub fn get(&self, key: &[u8]) -> Option<u64>
        ensures { result ≡ at self.now key.now }
    {
        match self.by_key.get(key) {
            None => None,
            Some(expiry) => Some(expiry.get()),
        }
    }

    /// Whether the key has an expiry of at most the moment.
    pub fn is_expired(&self, key: &[u8], moment: u64) -> bool
        ensures { result ≡ is_expired self.now moment key.now }
    {
        match self.by_key.get(key) {
            None => false,
            Some(expiry) => expiry.get() <= moment,
        }
    }

    /// Sets the moment at which the key expires, in place of what it had. On refusal nothing changes.
    pub fn insert(&mut self, alloc: Global, key: &[u8], expiry: Positive) -> Result<(), AllocError>
        ensures ok { OnOk result (self.new ≡ set self.old key.now expiry) }
        ensures err { OnErr result (self.new ≡ self.old) }
    {
        let old = self.get(key);
        if old == Some(expiry.get()) {
            // The map says here that its keys are sorted.
            let _count = self.by_key.len();
            return Ok(());
        }
        let named = Vec::from_slice(alloc, key)?;
        let added = (expiry.get(), Vec::from_slice(alloc, key)?);
        self.by_moment.insert((expiry.get(), named))?;
        if let Err(error) = self.by_key.insert(alloc, key, expiry) {
            self.by_moment.remove(&added);
            return Err(error);
        }
        if let Some(old) = old {
            self.by_moment.remove(&(old, added.1));
        }
        Ok(())
    }

    /// Takes the key's expiry away, if it has one.
    pub fn remove(&mut self, key: &[u8])
        ensures rest { self.new ≡ unset self.old key.now }
        ensures sorted { IsStrictlySortedBy by_bytes (keys_of self.old) }
    {
        if let Some((key, expiry)) = self.by_key.take(key) {
            self.by_moment.remove(&(expiry.get(), key));
        }
    }

    /// Whether some expiry is at most the moment.
    pub fn has_due(&self, moment: u64) -> bool
        ensures { result ≡ has_due moment self.now }
    {
        // The map says here that its keys are sorted.
        let _count = self.by_key.len();
        match self.by_moment.first() {
            None => false,
            Some(first) => first.0 <= moment,
        }
    }

    // The expiries that are at most the moment.
    fn due(&self, alloc: Global, moment: u64) -> Result<ByteMap<u64>, AllocError>
        ensures { IfOk result (λ due. due ≡ filter (λ e. nat_le e.1 moment) self.now) }
    {
        // The map says here that its keys are sorted.
        let _count = self.by_key.len();
        let mut due = ByteMap::new(alloc);
        for entry in self.by_moment.iter() {
            if moment < entry.0 {
                break;
            }
            due.insert(alloc, entry.1.as_slice(), entry.0)?;
        }
        Ok(due)
    }

    /// The keys whose expiries are at most the moment, sorted.
    pub fn due_keys(&self, alloc: Global, moment: u64) -> Result<Rows<Blob>, AllocError>
        ensures keys { IfOk result (λ keys. keys ≡ due_keys moment self.now) }
        ensures sorted { IfOk result (λ keys. IsStrictlySortedBy by_bytes keys) }
    {
        let due = self.due(alloc, moment)?;
        let mut keys = Vec::with_capacity(alloc, due.len())?;
        for (key, _) in due.iter() {
            keys.push(Blob::of(alloc, key.as_slice())?)?;
        }
        Ok(Rows::of(keys))
    }

    /// Takes out the key that expires first, if it does at the moment or before it.
    pub fn take_due(&mut self, moment: u64) -> Option<Vec<u8>>
        ensures due { IfSome result (λ key. is_expired self.old moment key.items ≡ true) }
        ensures taken { IfSome result (λ key. self.new ≡ unset self.old key.items) }
        ensures fewer { IfSome result (λ _. length self.new < length self.old) }
        ensures none { IfNone result ((self.new ≡ self.old) × (has_due moment self.old ≡ false)) }
        ensures sorted { IfSome result (λ _. IsStrictlySortedBy by_bytes (keys_of self.old)) }
    {
        if !self.has_due(moment) {
            return None;
        }
        // The map says here that its keys are sorted.
        let _count = self.by_key.len();
        let (_, key) = self.by_moment.pop_first()?;
        self.by_key.remove(key.as_slice());
        Some(key)
    }

    /// Takes away the expiries that are at most the moment.
    pub fn drop_until(&mut self, moment: u64)
        ensures { self.new ≡ kept_expiries moment self.old }
    {
        while let Some(_) = self.take_due(moment) {}
    }

    /// All expiries, in the order of their keys.
    pub fn snapshot(&self, alloc: Global) -> Result<LeaseSnapshot, AllocError>
        ensures { IfOk result (λ rows. rows ≡ self.now) }
    {
        let mut rows = Vec::with_capacity(alloc, self.by_key.len())?;
        for (key, expiry) in self.by_key.iter() {
            rows.push(LeaseRow {
                key: Blob::of(alloc, key.as_slice())?,
                expiry: *expiry,
            })?;
        }
        Ok(LeaseSnapshot::of(Rows::of(rows)))
    }

    /// The expiries of a snapshot.
    pub fn load(alloc: Global, snapshot: &LeaseSnapshot) -> Result<Expiries, AllocError>
        ensures { IfOk result (λ map. map ≡ snapshot.now) }
    {
        let mut map = Expiries::new(alloc);
        for row in snapshot.as_slice() {
            map.insert(alloc, row.key.as_slice(), row.expiry)?;
        }
        Ok(map)
    }
}
