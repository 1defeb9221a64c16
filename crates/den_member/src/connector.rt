//! How a peer is reached.
ghost use Rattle.std.specs.Prelude.{◌≡◌, ◌≤◌, ℕ, [], List, Result, OnErr};
ghost use Rattle.den_disk.specs.Goes.{Rose};
ghost use Rattle.den_member.specs.Connecting.{IsNumberedCall};
ghost use Rattle.den_member.specs.declared.connector.ConnectFault.{ConnectFault};
ghost use Rattle.den_member.specs.declared.connector.ConnectionType.{ConnectionType};

/// What a connection is for.
#[derive(Clone, Copy, Debug, PartialEq, Eq)]
pub enum ConnectionType {
    Control,
    Data,
    Bulk,
}

/// A connection that could not be made.
#[derive(Clone, Copy, Debug, PartialEq, Eq)]
pub struct ConnectFault;

/// Makes connections to addresses, each of a kind, and counts those that it could not make.
pub trait Connector<X> {
    /// How many connections could not be made. At 2 ^ 64 - 1 it counts as risen.
    ghost faults: { Self → ℕ };

    /// Whether a connection of the kind to the address may be answered so, and leave the connector as the latter.
    ghost connects: { Self → List ℕ → ConnectionType → Result X ConnectFault → Self → Type 0 };

    /// A new connection.
    fn connect(&mut self, address: &str, kind: ConnectionType) -> Result<X, ConnectFault>
        ensures connects { connects self.old address.now kind result self.new }
        ensures later { faults self.old ≤ faults self.new }
        ensures cause { OnErr result (Rose (faults self.old) (faults self.new)) };
}

/// A connector in memory, whose connections are their numbers, from 1 on.
#[derive(Drop)]
pub struct ListConnector {
    fails: Vec<u64>,
    calls: u64,
    faults: u64,
}

impl ListConnector {
    /// A connector that makes no connection of these numbers.
    pub fn new(fails: Vec<u64>) -> ListConnector
        ensures fails { result.fails.items ≡ fails.items }
        ensures calls { result.calls ≡ 0 }
        ensures faults { result.faults ≡ 0 }
    {
        ListConnector {
            fails,
            calls: 0,
            faults: 0,
        }
    }
}

impl Connector<u64> for ListConnector {
    ghost faults = { λ c. c.faults };

    ghost connects = { λ old address kind result new. IsNumberedCall old result new };

    fn connect(&mut self, _: &str, _: ConnectionType) -> Result<u64, ConnectFault> {
        self.calls = self.calls.saturating_add(1);
        if self.fails.contains(&self.calls) {
            self.faults = self.faults.saturating_add(1);
            return Err(ConnectFault);
        }
        Ok(self.calls)
    }
}
