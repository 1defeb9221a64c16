//! What a lease is.
ghost use Rattle.std.specs.Prelude.{◌≡◌, ◌≤◌, ◌||◌, ◌==◌, nat_lt, ℕ, Bool, true, false, List, [], length, max, Some, OnOk, IfOk, IfErr};
ghost use Rattle.den_codec.specs.declared.error.Error.TheVariants.{OutOfMemory};
ghost use Rattle.den_model.specs.Apply.{is_expired, kept_expiries, seconds_after};
ghost use Rattle.den_model.specs.Table.{Table, by_bytes, set, unset};
ghost use Rattle.den_model.specs.Words.{IsWordBy};
ghost use Rattle.den_lease.specs.Due.{due_keys, has_due};
ghost use Rattle.std.specs.List.Sorted.{IsStrictlySortedBy};
ghost use Rattle.den_lease.specs.Words.{leases_word, leases_in, FitsLeases};
ghost use Rattle.den_lease.specs.Refusals.{IsReloadRefusal};

use den_codec::{Blob, Error, Rows};

/// Keys, and the moment in milliseconds at which each expires.
pub trait Lease: Drop {
    /// Each key with its expiry.
    ghost table: { Self → Table ℕ };

    /// Whether a key was ever registered or loaded.
    ghost used: { Self → Bool };

    /// How many keys have an expiry.
    fn len(&self) -> usize
        ensures { result ≡ length (table self.now) };

    /// Whether no key has one.
    fn is_empty(&self) -> bool
        ensures { result ≡ (length (table self.now) == 0) };

    /// Sets the expiry of a key so many seconds after a moment, which counts as 1 where it is 0, and at 2^64 - 1 at
    /// most. It is refused for want of memory alone, and nothing changes then.
    fn register(&mut self, key: Blob, ttl_secs: u64, now: u64) -> Result<(), Error>
        ensures table { OnOk result (table self.new ≡ set (table self.old) key (seconds_after (max now 1) ttl_secs)) }
        ensures used { OnOk result (used self.new ≡ true) }
        ensures refused { IfErr result (λ e. (e ≡ OutOfMemory) × (table self.new ≡ table self.old) × (used self.new ≡ used self.old)) };

    /// Sets the expiry of a key, a moment in milliseconds. It is refused for want of memory alone, and nothing changes
    /// then.
    fn register_at(&mut self, key: Blob, expiry: u64) -> Result<(), Error>
        requires expiry { 1 ≤ expiry }
        ensures table { OnOk result (table self.new ≡ set (table self.old) key expiry) }
        ensures used { OnOk result (used self.new ≡ true) }
        ensures refused { IfErr result (λ e. (e ≡ OutOfMemory) × (table self.new ≡ table self.old) × (used self.new ≡ used self.old)) };

    /// Takes the expiry of a key away, if it has one.
    fn unregister(&mut self, key: &[u8])
        ensures table { table self.new ≡ unset (table self.old) key.now }
        ensures used { used self.new ≡ used self.old };

    /// Whether the key has an expiry of at most the moment.
    fn is_expired(&self, key: &[u8], now: u64) -> bool
        ensures { result ≡ is_expired (table self.now) now key.now };

    /// Takes out the keys whose expiries are at most the moment, and answers them, sorted. It is refused for want of
    /// memory alone, and nothing changes then.
    fn get_expired_keys(&mut self, now: u64) -> Result<Rows<Blob>, Error>
        ensures keys { IfOk result (λ keys. keys ≡ due_keys now (table self.old)) }
        ensures sorted { IfOk result (λ keys. IsStrictlySortedBy by_bytes keys) }
        ensures table { OnOk result (table self.new ≡ kept_expiries now (table self.old)) }
        ensures used { used self.new ≡ used self.old }
        ensures refused { IfErr result (λ e. (e ≡ OutOfMemory) × (table self.new ≡ table self.old) × (used self.new ≡ used self.old)) };

    /// The keys that an entry's application takes out: none.
    fn on_apply(&mut self) -> Rows<Blob>
        ensures keys { result ≡ [] }
        ensures same { self.new ≡ self.old };

    /// Whether a key was ever registered or loaded, also if it is gone. Where none was, no key has an expiry.
    fn has_lease_keys(&self) -> bool
        ensures is { result ≡ used self.now }
        ensures none { used self.now ≡ false → table self.now ≡ [] };

    /// Whether some key is expired at the moment.
    fn may_have_expired_keys(&self, now: u64) -> bool
        ensures { result ≡ has_due now (table self.now) };

    /// The word of the keys and their expiries. It is refused for want of memory alone.
    fn to_snapshot(&self) -> Result<Vec<u8>, Error>
        ensures word { IfOk result (λ word. IsWordBy FitsLeases leases_word word.items (table self.now)) }
        ensures refused { IfErr result (λ e. e ≡ OutOfMemory) };

    /// The keys and expiries of a word, in place of those held. Bytes that are no word are refused as
    /// `StateMachineError`, and others for want of memory alone; nothing changes then.
    fn reload(&mut self, bytes: &[u8]) -> Result<(), Error>
        ensures table { OnOk result (leases_in bytes.now ≡ Some (table self.new)) }
        ensures used { OnOk result (used self.new ≡ (used self.old || nat_lt 0 (length (table self.new)))) }
        ensures refused { IfErr result (λ e. IsReloadRefusal (leases_in bytes.now) e × (table self.new ≡ table self.old) × (used self.new ≡ used self.old)) };
}
