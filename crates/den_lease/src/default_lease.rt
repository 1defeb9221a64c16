//! A lease in memory.
ghost use Rattle.std.specs.Prelude.{◌≡◌, ◌≤◌, ◌||◌, ℕ, List, [], true, false, length, max, nat_lt, Option, Some, None, unwrap_or, OnOk, IfOk, IfErr};
ghost use Rattle.std.specs.List.Sorted.{IsStrictlySortedBy};
ghost use Rattle.den_codec.specs.declared.error.Error.TheVariants.{OutOfMemory};
ghost use Rattle.den_model.specs.Apply.{kept_expiries, seconds_after};
ghost use Rattle.den_model.specs.Table.{at, by_bytes, set, unset};
ghost use Rattle.den_lease.specs.Due.{due_keys};
ghost use Rattle.den_lease.specs.Refusals.{IsReloadRefusal};
ghost use Rattle.den_lease.specs.Words.{leases_in};

use crate::{Expiries, Lease, LeaseSnapshot};
use den_codec::{Blob, Error, LeaseConfig, Positive, Rows, Word};
use std::alloc::Global;

/// Keys and their expiries in memory, with the configuration of leases, which no call changes.
#[derive(Drop)]
pub struct DefaultLease {
    alloc: Global,
    map: Expiries,
    used: bool,
    config: LeaseConfig,
    ghost unused: { used ≡ false → length map ≡ 0 },
}

impl DefaultLease {
    /// A lease without a key.
    pub fn new(alloc: Global, config: LeaseConfig) -> DefaultLease
        ensures table { result.map ≡ [] }
        ensures used { result.used ≡ false }
        ensures config { result.config ≡ config }
    {
        DefaultLease {
            alloc,
            map: Expiries::new(alloc),
            used: false,
            config,
        }
    }

    /// The lease of a snapshot's word, and one without a key where the bytes are no word. It is refused for want of
    /// memory alone.
    pub fn from_snapshot(
        alloc: Global,
        bytes: &[u8],
        config: LeaseConfig,
    ) -> Result<DefaultLease, Error>
        ensures table { IfOk result (λ lease. lease.map ≡ unwrap_or (leases_in bytes.now) []) }
        ensures used { IfOk result (λ lease. lease.used ≡ nat_lt 0 (length lease.map)) }
        ensures config { IfOk result (λ lease. lease.config ≡ config) }
        ensures refused { IfErr result (λ e. e ≡ OutOfMemory) }
    {
        let map = match LeaseSnapshot::read(alloc, bytes)? {
            None => Expiries::new(alloc),
            Some(snapshot) => Expiries::load(alloc, &snapshot)?,
        };
        let used = 0 < map.len();
        Ok(DefaultLease {
            alloc,
            map,
            used,
            config,
        })
    }

    /// The configuration that the lease was made with.
    pub fn config(&self) -> &LeaseConfig
        ensures { result.now ≡ self.now.config }
    {
        &self.config
    }

    /// The moment in milliseconds at which the key expires, if it does.
    pub fn get_expiration(&self, key: &[u8]) -> Option<u64>
        ensures { result ≡ at self.now.map key.now }
    {
        self.map.get(key)
    }
}

impl Lease for DefaultLease {
    ghost table = { λ l. l.map };

    ghost used = { λ l. l.used };

    fn len(&self) -> usize {
        self.map.len()
    }

    fn is_empty(&self) -> bool {
        self.map.len() == 0
    }

    fn register(&mut self, key: Blob, ttl_secs: u64, now: u64) -> Result<(), Error>
        ensures table { OnOk result (self.new.map ≡ set self.old.map key (seconds_after (max now 1) ttl_secs)) }
        ensures used { OnOk result (self.new.used ≡ true) }
        ensures config { self.new.config ≡ self.old.config }
        ensures refused { IfErr result (λ e. (e ≡ OutOfMemory) × (self.new ≡ self.old)) }
    {
        let expiry = now.max(1).saturating_add(ttl_secs.saturating_mul(1000));
        self.register_at(key, expiry)
    }

    fn register_at(&mut self, key: Blob, expiry: u64) -> Result<(), Error>
        requires expiry { 1 ≤ expiry }
        ensures table { OnOk result (self.new.map ≡ set self.old.map key expiry) }
        ensures used { OnOk result (self.new.used ≡ true) }
        ensures config { self.new.config ≡ self.old.config }
        ensures refused { IfErr result (λ e. (e ≡ OutOfMemory) × (self.new ≡ self.old)) }
    {
        self.map
            .insert(self.alloc, key.as_slice(), Positive::of(expiry))?;
        self.used = true;
        Ok(())
    }

    fn unregister(&mut self, key: &[u8])
        ensures table { self.new.map ≡ unset self.old.map key.now }
        ensures used { self.new.used ≡ self.old.used }
        ensures config { self.new.config ≡ self.old.config }
    {
        self.map.remove(key);
    }

    fn is_expired(&self, key: &[u8], now: u64) -> bool {
        self.map.is_expired(key, now)
    }

    fn get_expired_keys(&mut self, now: u64) -> Result<Rows<Blob>, Error>
        ensures keys { IfOk result (λ keys. keys ≡ due_keys now self.old.map) }
        ensures sorted { IfOk result (λ keys. IsStrictlySortedBy by_bytes keys) }
        ensures table { OnOk result (self.new.map ≡ kept_expiries now self.old.map) }
        ensures used { self.new.used ≡ self.old.used }
        ensures config { self.new.config ≡ self.old.config }
        ensures refused { IfErr result (λ e. (e ≡ OutOfMemory) × (self.new ≡ self.old)) }
    {
        let keys = self.map.due_keys(self.alloc, now)?;
        self.map.drop_until(now);
        Ok(keys)
    }

    fn on_apply(&mut self) -> Rows<Blob> {
        Rows::of(Vec::new(self.alloc))
    }

    fn has_lease_keys(&self) -> bool {
        self.used
    }

    fn may_have_expired_keys(&self, now: u64) -> bool {
        self.map.has_due(now)
    }

    fn to_snapshot(&self) -> Result<Vec<u8>, Error> {
        let snapshot = self.map.snapshot(self.alloc)?;
        let mut word = Vec::new(self.alloc);
        snapshot.write(&mut word)?;
        Ok(word)
    }

    #[tactic(auto, unfolding(crate::specs::Words::leases_in))]
    fn reload(&mut self, bytes: &[u8]) -> Result<(), Error>
        ensures table { OnOk result (leases_in bytes.now ≡ Some self.new.map) }
        ensures used { OnOk result (self.new.used ≡ (self.old.used || nat_lt 0 (length self.new.map))) }
        ensures config { self.new.config ≡ self.old.config }
        ensures refused { IfErr result (λ e. IsReloadRefusal (leases_in bytes.now) e × (self.new ≡ self.old)) }
    {
        let Some(snapshot) = LeaseSnapshot::read(self.alloc, bytes)? else {
            return Err(Error::StateMachineError);
        };
        self.map = Expiries::load(self.alloc, &snapshot)?;
        self.used = self.used || 0 < self.map.len();
        Ok(())
    }
}
