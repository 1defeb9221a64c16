//! Leases as bytes.
#![tactic(auto, using(den_codec::proofs::Growing::grows_then))]

ghost use Rattle.std.specs.Prelude.{◌≡◌, ℕ, List, true, refl, if◌then◌else◌, Option, Some, None};
ghost use Rattle.den_model.specs.Words.{IsWordBy};
ghost use Rattle.den_model.proofs.Spells.{word_found, word_read};
ghost use Rattle.den_lease.specs.Rising.{rises, rises_above};
ghost use Rattle.den_lease.specs.Words.{lease_word, leases_word, lease_at, leases_at, FitsLease, FitsLeases};
ghost use Rattle.den_lease.specs.Laws.{spells_lease, spells_leases};

use den_codec::{ReadError, Word, list_size, put_list, take_list};
use den_model::{Blob, Positive, Rows};
use std::alloc::{AllocError, Global};
use std::marker::Model;

/// A key, and the moment at which it expires.
#[derive(Debug, Drop, PartialEq, Eq)]
pub struct LeaseRow {
    pub key: Blob,
    /// In milliseconds.
    pub expiry: Positive,
}

impl Model for LeaseRow {
    ghost use Rattle.std.specs.Prelude.{ℕ, List};
    ghost use Rattle.std.specs.Coded.{coded_ℕ, coded_list, coded×};

    ghost Value = { List ℕ × ℕ };

    ghost coded = { coded× (coded_list coded_ℕ) coded_ℕ };

    ghost view = { λ r. (r.key, r.expiry) };

    ghost inverse = { λ p. record { key = p.0; expiry = p.1 } };
}

/// Leases in the order of their keys, no key twice: what a snapshot's word is read as and written from.
#[derive(Debug, Drop)]
pub struct LeaseSnapshot {
    rows: Rows<LeaseRow>,
}

impl Model for LeaseSnapshot {
    ghost use Rattle.std.specs.Prelude.{◌≡◌, true, ℕ};
    ghost use Rattle.den_model.specs.Table.{Table};
    ghost use Rattle.den_lease.specs.Rising.{rises};

    ghost Value = { Table ℕ };

    ghost view = { λ s. s.rows };

    ghost invariant = { λ s. rises s.rows ≡ true };
}

// Whether each key stands above the one before it.
fn rises(rows: &[LeaseRow]) -> bool
    ensures { result ≡ rises rows.now }
{
    match rows {
        [] => true,
        [first, rest @ ..] => rises_above(&first.key, rest),
    }
}

// Whether each key stands above the one before it, and the first above this one.
fn rises_above(key: &Blob, rows: &[LeaseRow]) -> bool
    ensures { result ≡ rises_above key.now rows.now }
{
    let mut last = key;
    for row in rows {
        if !last.as_slice().cmp(row.key.as_slice()).is_lt() {
            return false;
        }
        last = &row.key;
    }
    true
}

impl LeaseSnapshot {
    /// The leases, whose keys rise.
    pub fn of(rows: Rows<LeaseRow>) -> LeaseSnapshot
        requires { rises rows ≡ true }
        ensures { result ≡ rows }
    {
        LeaseSnapshot { rows }
    }

    /// The leases where their keys rise, and nothing where they do not.
    pub fn new(rows: Rows<LeaseRow>) -> Option<LeaseSnapshot>
        ensures { result ≡ (if rises rows then Some rows else None) }
    {
        if !rises(rows.as_slice()) {
            return None;
        }
        Some(LeaseSnapshot { rows })
    }

    /// The leases, to be read one after the other.
    pub fn as_slice(&self) -> &[LeaseRow]
        ensures is { result.now ≡ self.now }
        ensures rise { rises self.now ≡ true }
    {
        self.rows.as_slice()
    }
}

impl Word for LeaseRow {
    ghost word = { lease_word };

    ghost at = { lease_at };

    ghost fits = { FitsLease };

    ghost is_word = { IsWordBy FitsLease lease_word };

    ghost found = { word_found spells_lease };

    ghost again = { word_read spells_lease };

    ghost written = { λ x h. (refl, h) };

    fn put(&self, out: &mut Vec<u8>) -> Result<(), AllocError> {
        self.key.put(out)?;
        self.expiry.get().put(out)
    }

    #[tactic(auto, unfolding(crate::specs::Words::lease_at))]
    fn take(alloc: Global, bytes: &[u8]) -> Result<(LeaseRow, &[u8]), ReadError> {
        let (key, rest) = Blob::take(alloc, bytes)?;
        let (expiry, rest) = u64::take(alloc, rest)?;
        match Positive::new(expiry) {
            Some(expiry) => Ok((LeaseRow { key, expiry }, rest)),
            None => Err(ReadError::NoWord),
        }
    }

    #[tactic(auto, unfolding(den_model::specs::Spelling::u64_word))]
    fn size(&self) -> u64 {
        (self.key.as_slice().len() as u64).saturating_add(16)
    }
}

impl Word for LeaseSnapshot {
    ghost word = { leases_word };

    ghost at = { leases_at };

    ghost fits = { FitsLeases };

    ghost is_word = { IsWordBy FitsLeases leases_word };

    ghost found = { word_found spells_leases };

    ghost again = { word_read spells_leases };

    ghost written = { λ x h. (refl, h) };

    fn put(&self, out: &mut Vec<u8>) -> Result<(), AllocError> {
        put_list(out, self.as_slice())
    }

    #[tactic(auto, unfolding(crate::specs::Words::leases_at))]
    fn take(alloc: Global, bytes: &[u8]) -> Result<(LeaseSnapshot, &[u8]), ReadError> {
        let (rows, rest) = take_list(alloc, bytes)?;
        match LeaseSnapshot::new(rows) {
            Some(snapshot) => Ok((snapshot, rest)),
            None => Err(ReadError::NoWord),
        }
    }

    fn size(&self) -> u64 {
        list_size(self.as_slice())
    }
}
