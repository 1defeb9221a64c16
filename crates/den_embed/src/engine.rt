//! An engine that is embedded.
ghost use Rattle.std.specs.Prelude.{◌≡◌, ◌||◌, IsTrue, true, false, Ok, OnOk, IfErr, is_ok};
ghost use Rattle.std.specs.Borrow.{sem, Lends};
ghost use Rattle.den_codec.specs.declared.error.Error.TheVariants.{OutOfMemory};
ghost use Rattle.den_node.specs.declared.error.NodeError.TheVariants.{Engine};
ghost use Rattle.den_client.specs.Asking.{client_of};
ghost use Rattle.den_client.specs.contracts.embedded.EmbeddedClient.{the_row as client_row};
ghost use Rattle.den_embed.specs.Answers.{leads_itself, ready_by};
ghost use Rattle.den_embed.specs.Stopping.{HasEnded, Stops, stopped_by};
ghost use Rattle.den_embed.specs.contracts.engine.EmbeddedEngine.{the_row};

use den_client::{Caller, EmbeddedClient};
use den_codec::{Error, LeaderInfo};
use den_desk::{Answer, Call};
use den_disk::Clock;
use den_member::{LatestReceiver, MembershipSnapshot};
use den_node::{NodeError, Told};
use den_proto::ClientApiError;
use std::sync::Wait;

/// A client over an engine of the program's own, and what was known of its leader and its members behind the opening.
#[derive(Drop)]
pub struct EmbeddedEngine<N, C> {
    pub(crate) client: EmbeddedClient<N, C>,
    pub(crate) leader: Option<LeaderInfo>,
    pub(crate) told: Told,
    pub(crate) node_id: u32,
    pub(crate) stopped: bool,
}

impl<N, C> EmbeddedEngine<N, C> {
    /// Who led behind the opening, in the term of then, where that was known. No later call changes it.
    pub fn leader_info(&self) -> Option<LeaderInfo>
        ensures { result ≡ self.now.leader }
    {
        self.leader
    }

    /// The same, looked for so many times: `Fatal` exactly where no look is allowed, or nobody is known to lead.
    pub fn wait_ready(&self, tries: u32) -> Result<LeaderInfo, NodeError>
        ensures { result ≡ ready_by tries self.now.leader }
    {
        if tries == 0 {
            return Err(NodeError::Fatal);
        }
        match self.leader {
            Some(leader) => Ok(leader),
            None => Err(NodeError::Fatal),
        }
    }

    /// Whether this node led behind the opening.
    pub fn is_leader(&self) -> bool
        ensures { result ≡ leads_itself self.now.leader self.now.node_id }
    {
        match self.leader {
            Some(leader) => leader.leader_id == self.node_id,
            None => false,
        }
    }

    /// This node's id.
    pub fn node_id(&self) -> u32
        ensures { result ≡ self.now.node_id }
    {
        self.node_id
    }

    /// Whether a stop was answered.
    pub fn is_stopped(&self) -> bool
        ensures { result ≡ self.now.stopped }
    {
        self.stopped
    }

    /// The client, lent. Nothing else of the engine moves.
    pub fn client(&mut self) -> &mut EmbeddedClient<N, C>
        ensures* writes_back { sem 𝓛 (Lends (the_row N.row C.row) (client_row N.row C.row) self.entry result (λ client. record self.old { client = client })) }
        ensures value { result.now ≡ self.old.client }
    {
        &mut self.client
    }

    /// The client, given away: its caller has the engine and the disk.
    pub fn into_client(self) -> EmbeddedClient<N, C>
        ensures { result ≡ self.client }
    {
        self.client
    }

    /// A receiver of who leads, which finds who led behind the opening. It may wait, and is refused for want of memory alone.
    pub fn leader_change_notifier<W: Wait>(
        &self,
        rt: &W,
    ) -> Result<LatestReceiver<Option<LeaderInfo>>, NodeError>
        ensures { IfErr result (λ e. e ≡ Engine OutOfMemory) }
    {
        self.told.leader_change_notifier(rt)
    }

    /// A receiver of the members, which finds those of the configuration. It may wait, and is refused for want of memory alone.
    pub fn watch_membership<W: Wait>(
        &self,
        rt: &W,
    ) -> Result<LatestReceiver<MembershipSnapshot>, NodeError>
        ensures { IfErr result (λ e. e ≡ Engine OutOfMemory) }
    {
        self.told.membership_change_notifier(rt)
    }
}

impl<N: Caller, C: Clock> EmbeddedEngine<N, C> {
    /// Ends the history of the engine's calls: each later call of a client is `Network` with the code ConnectionTimeout. An engine
    /// that was stopped is left alone. It is refused for want of memory alone, also behind a failed call.
    pub fn stop(&mut self) -> Result<(), NodeError>
        requires lawful { N.lawful self.old.client.caller }
        ensures lawful { N.lawful self.new.client.caller }

        // A second stop answers Ok and makes no call.
        ensures again { IsTrue self.old.stopped → (result ≡ Ok tt) × (self.new ≡ self.old) }

        // The first one makes one call, and at Ok the history has ended.
        ensures stops { self.old.stopped ≡ false → Stops (client_of N.view C.tells C.readings self.old.client) (client_of N.view C.tells C.readings self.new.client) result }
        ensures ended { self.old.stopped ≡ false → OnOk result (HasEnded (N.view self.new.client.caller)) }
        ensures stopped { self.new.stopped ≡ (self.old.stopped || is_ok result) }
        ensures refused { IfErr result (λ e. e ≡ Engine OutOfMemory) }

        // Nothing of the engine moves but its client, and whether it was stopped.
        ensures rest { self.new ≡ record self.old { client = self.new.client; stopped = self.new.stopped } }
    {
        if self.stopped {
            return Ok(());
        }
        stop_by(&mut self.client)?;
        self.stopped = true;
        Ok(())
    }
}

/// Makes the call that ends a history. Where it had ended before, that is as good.
fn stop_by<N: Caller, C: Clock>(client: &mut EmbeddedClient<N, C>) -> Result<(), NodeError>
    requires lawful { N.lawful client.old.caller }
    ensures lawful { N.lawful client.new.caller }
    ensures stops { Stops (client_of N.view C.tells C.readings client.old) (client_of N.view C.tells C.readings client.new) result }
    ensures ended { OnOk result (HasEnded (N.view client.new.caller)) }
    ensures refused { IfErr result (λ e. e ≡ Engine OutOfMemory) }
{
    let answered = client.ask(Call::Stop);
    stopped_by(answered)
}

/// What a stop answers.
fn stopped_by(answered: Result<Answer, ClientApiError>) -> Result<(), NodeError>
    ensures { result ≡ stopped_by answered }
{
    match answered {
        Err(ClientApiError::OutOfMemory) => Err(NodeError::Engine(Error::OutOfMemory)),
        Ok(_)
        | Err(
            ClientApiError::Network { .. }
            | ClientApiError::Protocol { .. }
            | ClientApiError::Business { .. },
        ) => Ok(()),
    }
}
