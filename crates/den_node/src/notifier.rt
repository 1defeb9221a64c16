//! Who leads, for those who wait for it.
ghost use Rattle.std.specs.Prelude.{◌≡◌, IfErr};
ghost use Rattle.den_codec.specs.declared.error.Error.TheVariants.{OutOfMemory};
ghost use Rattle.den_node.specs.declared.error.NodeError.TheVariants.{Engine};

use crate::NodeError;
use den_codec::{Error, LeaderInfo};
use den_member::{Latest, LatestReceiver};
use std::alloc::Global;
use std::sync::Wait;

/// One cell that holds the node which leads, if one is known. Its calls but `new` may wait for one another.
#[derive(Drop)]
pub struct LeaderNotifier {
    latest: Latest<Option<LeaderInfo>>,
}

impl LeaderNotifier {
    /// A cell with this leader.
    pub(crate) fn of(alloc: Global, leader: Option<LeaderInfo>) -> Result<LeaderNotifier, Error>
        ensures { IfErr result (λ e. e ≡ OutOfMemory) }
    {
        match Latest::new(alloc, leader) {
            Ok(latest) => Ok(LeaderNotifier { latest }),
            Err(_) => Err(Error::OutOfMemory),
        }
    }

    /// A cell without a leader. It is refused for want of memory alone.
    pub fn new(alloc: Global) -> Result<LeaderNotifier, NodeError>
        ensures { IfErr result (λ e. e ≡ Engine OutOfMemory) }
    {
        match LeaderNotifier::of(alloc, None) {
            Ok(notifier) => Ok(notifier),
            Err(error) => Err(NodeError::Engine(error)),
        }
    }

    /// Puts a leader in the place of the one before, and wakes the receivers that wait for it.
    pub fn send<W: Wait>(&self, rt: &W, leader: Option<LeaderInfo>) {
        self.latest.send(rt, leader);
    }

    /// A receiver, which finds the present leader at once and has seen it. It is refused for want of memory alone.
    pub fn subscribe<W: Wait>(
        &self,
        rt: &W,
    ) -> Result<LatestReceiver<Option<LeaderInfo>>, NodeError>
        ensures { IfErr result (λ e. e ≡ Engine OutOfMemory) }
    {
        match self.latest.subscribe(rt) {
            Ok(receiver) => Ok(receiver),
            Err(_) => Err(NodeError::Engine(Error::OutOfMemory)),
        }
    }
}
