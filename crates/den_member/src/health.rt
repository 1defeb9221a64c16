//! Which peers fail, by how often each did.
ghost use Rattle.std.specs.Prelude.{◌≡◌, [], is_some, None, IfOk, IfErr};
ghost use Rattle.den_member.specs.Health.{Health, failed, signal_of, succeeded};
ghost use Rattle.den_member.specs.Numbered.{at, is_held};
ghost use Rattle.den_member.specs.declared.error.MemberError.TheVariants.{OutOfMemory};

use crate::MemberError;
use std::alloc::Global;
use std::collections::BTreeMap;
use std::marker::Model;

/// What is told of each call of a peer, and tells when a peer failed so often that it counts as a zombie.
pub trait HealthMonitor {
    /// The failures of each peer so far.
    ghost health: { Self → Health };

    /// Counts a failure of a peer. Its id is answered where the count came to the threshold; the count then begins anew.
    /// On a refusal, which is for want of memory alone, nothing changes.
    fn record_failure(&mut self, node_id: u32) -> Result<Option<u32>, MemberError>
        ensures signal { IfOk result (λ signal. signal ≡ signal_of (health self.old) node_id) }
        ensures counted { IfOk result (λ _. health self.new ≡ failed (health self.old) node_id) }
        ensures refused { IfErr result (λ e. (e ≡ OutOfMemory) × (health self.new ≡ health self.old)) };

    /// Forgets the failures of a peer.
    fn record_success(&mut self, node_id: u32)
        ensures forgotten { health self.new ≡ succeeded (health self.old) node_id }
        ensures none { at (health self.new).failures node_id ≡ None };
}

/// Counts the failures of each peer since its last success, or since its last signal.
#[derive(Drop)]
pub struct RaftHealthMonitor {
    threshold: u32,
    failures: BTreeMap<u32, u32>,
}

impl Model for RaftHealthMonitor {
    ghost use Rattle.den_member.specs.Health.{Health};

    ghost Value = { Health };

    ghost view = { λ m. record { threshold = m.threshold; failures = m.failures.entries } };
}

impl RaftHealthMonitor {
    /// No peer has failed. So many failures make a signal, and with 0 none does.
    pub fn new(alloc: Global, zombie_threshold: u32) -> RaftHealthMonitor
        ensures { result ≡ record { threshold = zombie_threshold; failures = [] } }
    {
        RaftHealthMonitor {
            threshold: zombie_threshold,
            failures: BTreeMap::new(alloc),
        }
    }

    /// Whether failures of the peer are counted, be it none since its last signal.
    pub fn is_zombie_valid(&self, node_id: u32) -> bool
        ensures { result ≡ is_held self.now.failures node_id }
    {
        self.failures.contains_key(&node_id)
    }

    /// The count of the peer's failures, where there is one.
    pub fn count(&self, node_id: u32) -> Option<u32>
        ensures { result ≡ at self.now.failures node_id }
    {
        self.failures.get(&node_id).copied()
    }
}

impl HealthMonitor for RaftHealthMonitor {
    ghost health = { λ m. m };

    fn record_failure(&mut self, node_id: u32) -> Result<Option<u32>, MemberError> {
        let next = self.count(node_id).unwrap_or(0).saturating_add(1);
        if next == self.threshold {
            self.failures.insert(node_id, 0)?;
            return Ok(Some(node_id));
        }
        self.failures.insert(node_id, next)?;
        Ok(None)
    }

    fn record_success(&mut self, node_id: u32) {
        self.failures.remove(&node_id);
    }
}
