//! What a client offers.
ghost use Rattle.std.specs.Prelude.{◌≡◌, [], ◌∷◌, true, false, Some, None, option_copied};
ghost use Rattle.den_model.specs.declared.request.ReadConsistencyPolicy.TheVariants.{EventualConsistency, LeaseRead, LinearizableRead};
ghost use Rattle.den_desk.specs.History.{Replays};
ghost use Rattle.den_desk.specs.declared.history.Call.TheVariants.{Take, Unregister};
ghost use Rattle.den_client.specs.Asking.{Asks, Client};
ghost use Rattle.den_client.specs.Mapped.{done_by, events_by, leader_by, nodes_by, scan_by, stood_by, swapped_by, value_by, values_by, watcher_by};
ghost use Rattle.den_client.specs.Requests.{delete_call, members_call, policy_or_linearizable, put_call, read_call, scan_call, swap_call, watch_call};

use den_codec::{Blob, NodeMeta, ReadConsistencyPolicy, Rows, ScanResult, WatchEvent};
use den_proto::ClientApiError;
use den_watch::WatcherHandle;

/// Puts, reads and watches keys. Each call makes one call of the history that the client's caller sees, and its answer is
/// mapped. A code other than success is `Business`, where another node leads `Network` with what is known of it; behind a
/// stop or a failed call each call is `Network` with the code ConnectionTimeout. `OutOfMemory` leaves at most one entry of
/// the client's own in the history.
pub trait ClientApi {
    /// Its node's id and what it is told to wait, which no call changes, what its caller has seen, and the readings of its clock.
    ghost client: { Self → Client };

    /// What each call keeps.
    ghost lawful: { Self → Type 0 };

    /// The id of the client's node.
    fn client_id(&self) -> u32
        ensures { result ≡ (client self.now).id };

    /// What the client is told to wait, in milliseconds.
    fn timeout(&self) -> u64
        ensures { result ≡ (client self.now).timeout };

    /// Puts a value at a key.
    fn put(&mut self, key: &[u8], value: &[u8]) -> Result<(), ClientApiError>
        requires lawful { lawful self.old }
        ensures lawful { lawful self.new }
        ensures asks { Asks (client self.old) (client self.new) (put_call (client self.old).id key.now value.now None) done_by result };

    /// Puts a value at a key that expires after so many seconds, of which 0 are asked for as any other number is. `Business` with
    /// `Error code: FeatureNotEnabled` where the node has no lease.
    fn put_with_ttl(
        &mut self,
        key: &[u8],
        value: &[u8],
        ttl_secs: u64,
    ) -> Result<(), ClientApiError>
        requires lawful { lawful self.old }
        ensures lawful { lawful self.new }
        ensures asks { Asks (client self.old) (client self.new) (put_call (client self.old).id key.now value.now (Some ttl_secs)) done_by result };

    /// Deletes a key, whether it is held or not.
    fn delete(&mut self, key: &[u8]) -> Result<(), ClientApiError>
        requires lawful { lawful self.old }
        ensures lawful { lawful self.new }
        ensures asks { Asks (client self.old) (client self.new) (delete_call (client self.old).id key.now) done_by result };

    /// Puts the new value at a key that has the expected one, or that is not held where none is expected. Whether it did.
    fn compare_and_swap(
        &mut self,
        key: &[u8],
        expected_value: Option<&[u8]>,
        new_value: &[u8],
    ) -> Result<bool, ClientApiError>
        requires lawful { lawful self.old }
        ensures lawful { lawful self.new }
        ensures asks { Asks (client self.old) (client self.new) (swap_call (client self.old).id key.now (option_copied expected_value.entry) new_value.now) swapped_by result };

    /// The value at a key, by a linearizable read.
    fn get(&mut self, key: &[u8]) -> Result<Option<Blob>, ClientApiError>
        requires lawful { lawful self.old }
        ensures lawful { lawful self.new }
        ensures asks { Asks (client self.old) (client self.new) (read_call (client self.old).id (key.now ∷ []) LinearizableRead) (value_by key.now) result };

    /// The value at a key, by a linearizable read.
    fn get_linearizable(&mut self, key: &[u8]) -> Result<Option<Blob>, ClientApiError>
        requires lawful { lawful self.old }
        ensures lawful { lawful self.new }
        ensures asks { Asks (client self.old) (client self.new) (read_call (client self.old).id (key.now ∷ []) LinearizableRead) (value_by key.now) result };

    /// The value at a key, which a node that does not lead may answer with an old one.
    fn get_eventual(&mut self, key: &[u8]) -> Result<Option<Blob>, ClientApiError>
        requires lawful { lawful self.old }
        ensures lawful { lawful self.new }
        ensures asks { Asks (client self.old) (client self.new) (read_call (client self.old).id (key.now ∷ []) EventualConsistency) (value_by key.now) result };

    /// The value at a key, by a read under the leader's lease.
    fn get_lease(&mut self, key: &[u8]) -> Result<Option<Blob>, ClientApiError>
        requires lawful { lawful self.old }
        ensures lawful { lawful self.new }
        ensures asks { Asks (client self.old) (client self.new) (read_call (client self.old).id (key.now ∷ []) LeaseRead) (value_by key.now) result };

    /// The value at a key, by a read as fresh as this.
    fn get_with_consistency(
        &mut self,
        key: &[u8],
        consistency: ReadConsistencyPolicy,
    ) -> Result<Option<Blob>, ClientApiError>
        requires lawful { lawful self.old }
        ensures lawful { lawful self.new }
        ensures asks { Asks (client self.old) (client self.new) (read_call (client self.old).id (key.now ∷ []) consistency) (value_by key.now) result };

    /// A place for each key, with its value where it is held, by a linearizable read.
    fn get_multi(&mut self, keys: &[Blob]) -> Result<Rows<Option<Blob>>, ClientApiError>
        requires lawful { lawful self.old }
        ensures lawful { lawful self.new }
        ensures asks { Asks (client self.old) (client self.new) (read_call (client self.old).id keys.now LinearizableRead) (values_by keys.now) result };

    /// A place for each key, with its value where it is held, by a linearizable read.
    fn get_multi_linearizable(
        &mut self,
        keys: &[Blob],
    ) -> Result<Rows<Option<Blob>>, ClientApiError>
        requires lawful { lawful self.old }
        ensures lawful { lawful self.new }
        ensures asks { Asks (client self.old) (client self.new) (read_call (client self.old).id keys.now LinearizableRead) (values_by keys.now) result };

    /// A place for each key, with its value where it is held, which a node that does not lead may answer with old ones.
    fn get_multi_eventual(&mut self, keys: &[Blob]) -> Result<Rows<Option<Blob>>, ClientApiError>
        requires lawful { lawful self.old }
        ensures lawful { lawful self.new }
        ensures asks { Asks (client self.old) (client self.new) (read_call (client self.old).id keys.now EventualConsistency) (values_by keys.now) result };

    /// A place for each key, with its value where it is held, by a read as fresh as this.
    fn get_multi_with_consistency(
        &mut self,
        keys: &[Blob],
        consistency: ReadConsistencyPolicy,
    ) -> Result<Rows<Option<Blob>>, ClientApiError>
        requires lawful { lawful self.old }
        ensures lawful { lawful self.new }
        ensures asks { Asks (client self.old) (client self.new) (read_call (client self.old).id keys.now consistency) (values_by keys.now) result };

    /// The same by a read under this policy, linearizable where there is none.
    fn get_multi_with_policy(
        &mut self,
        keys: &[Blob],
        consistency_policy: Option<ReadConsistencyPolicy>,
    ) -> Result<Rows<Option<Blob>>, ClientApiError>
        requires lawful { lawful self.old }
        ensures lawful { lawful self.new }
        ensures asks { Asks (client self.old) (client self.new) (read_call (client self.old).id keys.now (policy_or_linearizable consistency_policy)) (values_by keys.now) result };

    /// The pairs whose key begins with the prefix, in the order of their keys, and the index of the last entry.
    fn scan_prefix(&mut self, prefix: &[u8]) -> Result<ScanResult, ClientApiError>
        requires lawful { lawful self.old }
        ensures lawful { lawful self.new }
        ensures asks { Asks (client self.old) (client self.new) (scan_call (client self.old).id prefix.now) scan_by result };

    /// Watches a key. `Business` where as many watch as may.
    fn watch(&mut self, key: &[u8]) -> Result<WatcherHandle, ClientApiError>
        requires lawful { lawful self.old }
        ensures lawful { lawful self.new }
        ensures asks { Asks (client self.old) (client self.new) (watch_call (client self.old).id key.now false false) watcher_by result };

    /// Watches a key, and where it is asked for is told earlier values too.
    fn watch_with_options(
        &mut self,
        key: &[u8],
        prev_kv: bool,
    ) -> Result<WatcherHandle, ClientApiError>
        requires lawful { lawful self.old }
        ensures lawful { lawful self.new }
        ensures asks { Asks (client self.old) (client self.new) (watch_call (client self.old).id key.now false prev_kv) watcher_by result };

    /// Watches the keys under a prefix, which begins and ends with '/'; `Business` where it does not.
    fn watch_prefix(&mut self, prefix: &[u8]) -> Result<WatcherHandle, ClientApiError>
        requires lawful { lawful self.old }
        ensures lawful { lawful self.new }
        ensures asks { Asks (client self.old) (client self.new) (watch_call (client self.old).id prefix.now true false) watcher_by result };

    /// Watches the keys under a prefix, and where it is asked for is told earlier values too.
    fn watch_prefix_with_options(
        &mut self,
        prefix: &[u8],
        prev_kv: bool,
    ) -> Result<WatcherHandle, ClientApiError>
        requires lawful { lawful self.old }
        ensures lawful { lawful self.new }
        ensures asks { Asks (client self.old) (client self.new) (watch_call (client self.old).id prefix.now true prev_kv) watcher_by result };

    /// Takes what waits for a watcher. `Business` with the code WatchBufferOverflow where the watcher has ended, since an event found
    /// no room, and nothing waits; with the code General where nobody watches under this number.
    fn take(&mut self, watcher: &WatcherHandle) -> Result<Rows<WatchEvent>, ClientApiError>
        requires lawful { lawful self.old }
        ensures lawful { lawful self.new }
        ensures asks { Asks (client self.old) (client self.new) (Take watcher.now) events_by result };

    /// Ends a watch, with what waits for it. Whether it stood.
    fn unwatch(&mut self, watcher: WatcherHandle) -> Result<bool, ClientApiError>
        requires lawful { lawful self.old }
        ensures lawful { lawful self.new }
        ensures asks { Asks (client self.old) (client self.new) (Unregister watcher) stood_by result };

    /// The members of the cluster, in the order of their ids.
    fn list_members(&mut self) -> Result<Rows<NodeMeta>, ClientApiError>
        requires lawful { lawful self.old }
        ensures lawful { lawful self.new }
        ensures asks { Asks (client self.old) (client self.new) (members_call (client self.old).id) nodes_by result };

    /// The id of the node that leads, where one is known.
    fn get_leader_id(&mut self) -> Result<Option<u32>, ClientApiError>
        requires lawful { lawful self.old }
        ensures lawful { lawful self.new }
        ensures asks { Asks (client self.old) (client self.new) (members_call (client self.old).id) leader_by result };

    /// What is seen replays from the start.
    ghost replayed: { (c : Self) → lawful c → Replays (client c).caller.start (client c).caller.seen };
}
