//! Channels that are kept.
ghost use Rattle.std.specs.Prelude.{◌≡◌, ◌<◌, [], length, option_map, position, slice_get, Some, IfSome, IfOk, IfErr};
ghost use Rattle.den_member.specs.Cache.{Readies, is_for, is_for_address, is_same_kind, last_use, place_for, placed, reusable, without_node};
ghost use Rattle.den_member.specs.declared.error.MemberError.TheVariants.{OutOfMemory};

use crate::{ConnectionType, Connector, MemberError};
use den_model::Label;
use std::alloc::Global;

/// A channel to a node of a kind, the address at which it was made, and the moment of its last use.
#[derive(Drop)]
pub(crate) struct Cached<X> {
    node_id: u32,
    kind: ConnectionType,
    address: Label,
    channel: X,
    last_used: u64,
}

/// Channels to nodes, at most one to each node of each kind.
#[derive(Drop)]
pub struct ConnectionCache<X> {
    held: Vec<Cached<X>>,
}

/// Whether two kinds are the same.
fn is_same_kind(kind: ConnectionType, other: ConnectionType) -> bool
    ensures { result ≡ is_same_kind kind other }
{
    kind == other
}

impl<X> Cached<X> {
    /// Whether the channel is to the node, of the kind.
    fn is_for(&self, node_id: u32, kind: ConnectionType) -> bool
        ensures { result ≡ is_for node_id kind self.now }
    {
        self.node_id == node_id && is_same_kind(kind, self.kind)
    }

    /// Whether it was made at the address, too.
    fn is_for_address(&self, node_id: u32, kind: ConnectionType, address: &str) -> bool
        ensures { result ≡ is_for_address node_id kind address.now self.now }
    {
        self.is_for(node_id, kind) && self.address.as_str() == address
    }
}

impl<X: Drop> ConnectionCache<X> {
    ghost use Rattle.std.specs.Prelude.{⊤};
    ghost use Rattle.std.specs.Borrow.{follows_so, sem};
    ghost use mathlib.Core.Option.{none};
    ghost use Rattle.den_member.specs.Cache.{ServesChannel};
    ghost use Rattle.den_member.specs.contracts.connection_cache.ConnectionCache.{the_row};

    /// A cache without a channel.
    pub fn new(alloc: Global) -> ConnectionCache<X>
        ensures { result.held.items ≡ [] }
    {
        ConnectionCache {
            held: Vec::new(alloc),
        }
    }

    /// How many channels are kept.
    pub fn len(&self) -> usize
        ensures { result ≡ length self.now.held.items }
    {
        self.held.len()
    }

    /// The moment of the last use of the channel to a node of a kind, where one is kept.
    pub fn last_used(&self, node_id: u32, kind: ConnectionType) -> Option<u64>
        ensures { result ≡ last_use node_id kind self.now.held.items }
    {
        for cached in &self.held {
            if cached.is_for(node_id, kind) {
                return Some(cached.last_used);
            }
        }
        None
    }

    /// Drops the channels to a node.
    pub fn remove_node(&mut self, node_id: u32)
        ensures { self.new.held.items ≡ without_node node_id self.old.held.items }
    {
        self.held.retain(|cached| cached.node_id != node_id);
    }

    /// The place of the channel to a node of a kind, where one is kept.
    fn place(&self, node_id: u32, kind: ConnectionType) -> Option<usize>
        ensures is { result ≡ position (is_for node_id kind) self.now.held.items }
        ensures inside { IfSome result (λ p. p < length self.now.held.items) }
    {
        self.held
            .iter()
            .position(|cached| cached.is_for(node_id, kind))
    }

    /// The place of the channel to a node of a kind at an address, where one is kept.
    fn reusable(&self, node_id: u32, kind: ConnectionType, address: &str) -> Option<usize>
        ensures is { result ≡ reusable node_id kind address.now self.now.held.items }
        ensures inside { IfSome result (λ p. p < length self.now.held.items) }
    {
        self.held
            .iter()
            .position(|cached| cached.is_for_address(node_id, kind, address))
    }

    /// Keeps a channel in the place of the one to its node of its kind, or behind all where there is none. Answers its place.
    fn put(&mut self, cached: Cached<X>) -> Result<usize, MemberError>
        ensures put { IfOk result (λ p. (p ≡ place_for cached self.old.held.items) × (self.new.held.items ≡ placed cached self.old.held.items) × (p < length self.new.held.items)) }
        ensures refused { IfErr result (λ e. (e ≡ OutOfMemory) × (self.new.held.items ≡ self.old.held.items)) }
    {
        if let Some(place) = self.place(cached.node_id, cached.kind) {
            self.held[place] = cached;
            return Ok(place);
        }
        let place = self.held.len();
        self.held.push(cached)?;
        Ok(place)
    }

    /// Readies a channel to a node of a kind at an address: one that is kept is used at this moment, and else a new one takes
    /// its place. Answers its place. `ConnectFault` comes only where the connector's count rose. On a refusal nothing changes.
    pub(crate) fn ready<K: Connector<X>>(
        &mut self,
        connector: &mut K,
        node_id: u32,
        kind: ConnectionType,
        address: Label,
        now: u64,
    ) -> Result<usize, MemberError>
        ensures { Readies K.connects K.faults connector.old connector.new node_id kind address now self.old.held.items self.new.held.items result }
    {
        if let Some(place) = self.reusable(node_id, kind, address.as_str()) {
            self.held[place].last_used = now;
            return Ok(place);
        }
        let channel = connector.connect(address.as_str(), kind)?;
        self.put(Cached {
            node_id,
            kind,
            address,
            channel,
            last_used: now,
        })
    }

    /// The channel at a place.
    pub(crate) fn channel_at(&self, place: usize) -> &X
        requires { place < length self.now.held.items }
        ensures { Some result.now ≡ option_map (λ c. c.channel) (slice_get self.now.held.items place) }
    {
        &self.held[place].channel
    }

    /// The channel to a node of a kind at an address: the one that is kept, whose last use is this moment then, or a new one,
    /// which takes the place of what was kept for the node and the kind. `ConnectFault` comes only where the connector's count
    /// rose. On a refusal nothing changes.
    pub fn get_channel<K: Connector<X>>(
        &mut self,
        connector: &mut K,
        node_id: u32,
        kind: ConnectionType,
        address: Label,
        now: u64,
    ) -> Result<&X, MemberError>
        ensures* serves { sem 𝓛 (follows_so (the_row X.row) (the_row X.row) self.entry.ghost_name none (λ _ _. ⊤)
            (λ after. ServesChannel K.connects K.faults connector.old connector.new node_id kind address now self.old.held.items after.held.items result)) }
    {
        let place = self.ready(connector, node_id, kind, address, now)?;
        Ok(self.channel_at(place))
    }
}
