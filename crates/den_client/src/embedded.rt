//! A client over a caller.
#![tactic(auto, using(crate::proofs::Asked::made))]

ghost use Rattle.std.specs.Prelude.{◌≡◌, [], ◌∷◌, true, false, Ok, option_copied};
ghost use Rattle.den_desk.specs.declared.history.Answer.{Answer};
ghost use Rattle.den_desk.specs.declared.history.Call.TheVariants.{Take, Unregister};
ghost use Rattle.den_client.specs.Asking.{Asks, Client, client_of};
ghost use Rattle.den_client.specs.Calling.{View, readings_of};
ghost use Rattle.den_client.specs.Mapped.{done_by, events_by, leader_by, nodes_by, scan_by, stood_by, swapped_by, value_by, values_by, watcher_by};
ghost use Rattle.den_client.specs.Requests.{delete_call, members_call, policy_or_linearizable, put_call, read_call, scan_call, swap_call, watch_call};

use crate::answers::{
    closed, done_by, events_by, leader_by, nodes_by, scan_by, stood_by, swapped_by, value_by,
    values_by, watcher_by,
};
use crate::requests::{
    delete_call, members_call, policy_or_linearizable, put_call, read_call, read_one_call,
    scan_call, swap_call, watch_call,
};
use crate::{Caller, ClientApi};
use den_codec::{Blob, NodeMeta, ReadConsistencyPolicy, Rows, ScanResult, WatchEvent};
use den_desk::{Answer, Call, CallError};
use den_disk::Clock;
use den_proto::ClientApiError;
use den_watch::WatcherHandle;
use std::alloc::Global;
use std::fmt;
use std::fmt::{Debug, Formatter, Write};

/// A client of the node with this id, which asks through its caller at the readings of its clock. The timeout, in milliseconds, is
/// what it was told to wait: no call waits.
#[derive(Drop)]
pub struct EmbeddedClient<N, C> {
    caller: N,
    clock: C,
    id: u32,
    timeout: u64,
    alloc: Global,
}

/// The parts of a client.
#[derive(Drop)]
pub struct ClientParts<N, C> {
    pub caller: N,
    pub clock: C,
}

impl<N, C> EmbeddedClient<N, C> {
    /// A client of the node with this id; the timeout is in milliseconds.
    pub fn new(alloc: Global, caller: N, clock: C, id: u32, timeout: u64) -> EmbeddedClient<N, C>
        ensures caller { result.caller ≡ caller }
        ensures clock { result.clock ≡ clock }
        ensures id { result.id ≡ id }
        ensures timeout { result.timeout ≡ timeout }
    {
        EmbeddedClient {
            caller,
            clock,
            id,
            timeout,
            alloc,
        }
    }

    /// The caller, lent.
    pub fn caller(&self) -> &N
        ensures { result.now ≡ self.now.caller }
    {
        &self.caller
    }

    /// The caller and the clock, given back.
    pub fn into_parts(self) -> ClientParts<N, C>
        ensures { result ≡ record { caller = self.caller; clock = self.clock } }
    {
        ClientParts {
            caller: self.caller,
            clock: self.clock,
        }
    }
}

impl<N: Caller, C: Clock> EmbeddedClient<N, C> {
    /// Makes one call of the caller, and gives its answer, or what is told where there is none: `Network` with the code
    /// ConnectionTimeout where the history has ended, or want of memory.
    pub fn ask(&mut self, call: Call) -> Result<Answer, ClientApiError>
        requires lawful { N.lawful self.old.caller }
        ensures lawful { N.lawful self.new.caller }
        ensures asks { Asks (client_of N.view C.tells C.readings self.old) (client_of N.view C.tells C.readings self.new) call Ok result }
    {
        match self.caller.call(&mut self.clock, call) {
            Ok(answered) => Ok(answered.answer),
            Err(CallError::Failed { .. }) => Err(closed(self.alloc)),
            Err(CallError::OutOfMemory { .. }) => Err(ClientApiError::OutOfMemory),
        }
    }

    fn get_by(
        &mut self,
        key: &[u8],
        policy: ReadConsistencyPolicy,
    ) -> Result<Option<Blob>, ClientApiError>
        requires lawful { N.lawful self.old.caller }
        ensures lawful { N.lawful self.new.caller }
        ensures asks { Asks (client_of N.view C.tells C.readings self.old) (client_of N.view C.tells C.readings self.new) (read_call self.old.id (key.now ∷ []) policy) (value_by key.now) result }
    {
        let call = read_one_call(self.alloc, self.id, key, policy)?;
        let answer = self.ask(call)?;
        value_by(self.alloc, key, answer)
    }

    fn get_all_by(
        &mut self,
        keys: &[Blob],
        policy: ReadConsistencyPolicy,
    ) -> Result<Rows<Option<Blob>>, ClientApiError>
        requires lawful { N.lawful self.old.caller }
        ensures lawful { N.lawful self.new.caller }
        ensures asks { Asks (client_of N.view C.tells C.readings self.old) (client_of N.view C.tells C.readings self.new) (read_call self.old.id keys.now policy) (values_by keys.now) result }
    {
        let call = read_call(self.alloc, self.id, keys, policy)?;
        let answer = self.ask(call)?;
        values_by(self.alloc, keys, answer)
    }

    fn watch_by(
        &mut self,
        key: &[u8],
        prefix: bool,
        prev_kv: bool,
    ) -> Result<WatcherHandle, ClientApiError>
        requires lawful { N.lawful self.old.caller }
        ensures lawful { N.lawful self.new.caller }
        ensures asks { Asks (client_of N.view C.tells C.readings self.old) (client_of N.view C.tells C.readings self.new) (watch_call self.old.id key.now prefix prev_kv) watcher_by result }
    {
        let call = watch_call(self.alloc, self.id, key, prefix, prev_kv)?;
        let answer = self.ask(call)?;
        watcher_by(self.alloc, answer)
    }

    fn put_by(
        &mut self,
        key: &[u8],
        value: &[u8],
        ttl_secs: Option<u64>,
    ) -> Result<(), ClientApiError>
        requires lawful { N.lawful self.old.caller }
        ensures lawful { N.lawful self.new.caller }
        ensures asks { Asks (client_of N.view C.tells C.readings self.old) (client_of N.view C.tells C.readings self.new) (put_call self.old.id key.now value.now ttl_secs) done_by result }
    {
        let call = put_call(self.alloc, self.id, key, value, ttl_secs)?;
        let answer = self.ask(call)?;
        done_by(self.alloc, answer)
    }
}

impl<N: Caller, C: Clock> ClientApi for EmbeddedClient<N, C> {
    ghost client = { client_of N.view C.tells C.readings };

    ghost lawful = { λ c. N.lawful c.caller };

    ghost replayed = { λ c. N.replayed c.caller };

    fn client_id(&self) -> u32 {
        self.id
    }

    fn timeout(&self) -> u64 {
        self.timeout
    }

    fn put(&mut self, key: &[u8], value: &[u8]) -> Result<(), ClientApiError> {
        self.put_by(key, value, None)
    }

    fn put_with_ttl(
        &mut self,
        key: &[u8],
        value: &[u8],
        ttl_secs: u64,
    ) -> Result<(), ClientApiError> {
        self.put_by(key, value, Some(ttl_secs))
    }

    fn delete(&mut self, key: &[u8]) -> Result<(), ClientApiError> {
        let call = delete_call(self.alloc, self.id, key)?;
        let answer = self.ask(call)?;
        done_by(self.alloc, answer)
    }

    fn compare_and_swap(
        &mut self,
        key: &[u8],
        expected_value: Option<&[u8]>,
        new_value: &[u8],
    ) -> Result<bool, ClientApiError> {
        let call = swap_call(self.alloc, self.id, key, expected_value, new_value)?;
        let answer = self.ask(call)?;
        swapped_by(self.alloc, answer)
    }

    fn get(&mut self, key: &[u8]) -> Result<Option<Blob>, ClientApiError> {
        self.get_by(key, ReadConsistencyPolicy::LinearizableRead)
    }

    fn get_linearizable(&mut self, key: &[u8]) -> Result<Option<Blob>, ClientApiError> {
        self.get_by(key, ReadConsistencyPolicy::LinearizableRead)
    }

    fn get_eventual(&mut self, key: &[u8]) -> Result<Option<Blob>, ClientApiError> {
        self.get_by(key, ReadConsistencyPolicy::EventualConsistency)
    }

    fn get_lease(&mut self, key: &[u8]) -> Result<Option<Blob>, ClientApiError> {
        self.get_by(key, ReadConsistencyPolicy::LeaseRead)
    }

    fn get_with_consistency(
        &mut self,
        key: &[u8],
        consistency: ReadConsistencyPolicy,
    ) -> Result<Option<Blob>, ClientApiError> {
        self.get_by(key, consistency)
    }

    fn get_multi(&mut self, keys: &[Blob]) -> Result<Rows<Option<Blob>>, ClientApiError> {
        self.get_all_by(keys, ReadConsistencyPolicy::LinearizableRead)
    }

    fn get_multi_linearizable(
        &mut self,
        keys: &[Blob],
    ) -> Result<Rows<Option<Blob>>, ClientApiError> {
        self.get_all_by(keys, ReadConsistencyPolicy::LinearizableRead)
    }

    fn get_multi_eventual(&mut self, keys: &[Blob]) -> Result<Rows<Option<Blob>>, ClientApiError> {
        self.get_all_by(keys, ReadConsistencyPolicy::EventualConsistency)
    }

    fn get_multi_with_consistency(
        &mut self,
        keys: &[Blob],
        consistency: ReadConsistencyPolicy,
    ) -> Result<Rows<Option<Blob>>, ClientApiError> {
        self.get_all_by(keys, consistency)
    }

    fn get_multi_with_policy(
        &mut self,
        keys: &[Blob],
        consistency_policy: Option<ReadConsistencyPolicy>,
    ) -> Result<Rows<Option<Blob>>, ClientApiError> {
        self.get_all_by(keys, policy_or_linearizable(consistency_policy))
    }

    fn scan_prefix(&mut self, prefix: &[u8]) -> Result<ScanResult, ClientApiError> {
        let call = scan_call(self.alloc, self.id, prefix)?;
        let answer = self.ask(call)?;
        scan_by(self.alloc, answer)
    }

    fn watch(&mut self, key: &[u8]) -> Result<WatcherHandle, ClientApiError> {
        self.watch_by(key, false, false)
    }

    fn watch_with_options(
        &mut self,
        key: &[u8],
        prev_kv: bool,
    ) -> Result<WatcherHandle, ClientApiError> {
        self.watch_by(key, false, prev_kv)
    }

    fn watch_prefix(&mut self, prefix: &[u8]) -> Result<WatcherHandle, ClientApiError> {
        self.watch_by(prefix, true, false)
    }

    fn watch_prefix_with_options(
        &mut self,
        prefix: &[u8],
        prev_kv: bool,
    ) -> Result<WatcherHandle, ClientApiError> {
        self.watch_by(prefix, true, prev_kv)
    }

    fn take(&mut self, watcher: &WatcherHandle) -> Result<Rows<WatchEvent>, ClientApiError> {
        let answer = self.ask(Call::Take(WatcherHandle { id: watcher.id }))?;
        events_by(self.alloc, answer)
    }

    fn unwatch(&mut self, watcher: WatcherHandle) -> Result<bool, ClientApiError> {
        let answer = self.ask(Call::Unregister(watcher))?;
        stood_by(self.alloc, answer)
    }

    fn list_members(&mut self) -> Result<Rows<NodeMeta>, ClientApiError> {
        let answer = self.ask(members_call(self.id))?;
        nodes_by(self.alloc, answer)
    }

    fn get_leader_id(&mut self) -> Result<Option<u32>, ClientApiError> {
        let answer = self.ask(members_call(self.id))?;
        leader_by(self.alloc, answer)
    }
}

impl<N, C> Debug for EmbeddedClient<N, C> {
    fn fmt<W: Write>(&self, f: &mut Formatter<W>) -> fmt::Result {
        write!(
            f,
            "EmbeddedClient {{ client_id: {}, timeout: {} }}",
            self.id, self.timeout
        )
    }
}
