//! What a node may do.
ghost use Rattle.std.specs.Prelude.{◌≡◌};
ghost use Rattle.den_member.specs.Status.{status_number, status_of};

/// What a node may do: it waits to be promoted, it is read from alone, or it votes.
#[derive(Clone, Copy, Debug, PartialEq, Eq)]
pub enum NodeStatus {
    Promotable,
    ReadOnly,
    Active,
}

impl NodeStatus {
    /// The number of the status, from 0 on.
    pub fn number(self) -> i32
        ensures { result ≡ status_number self }
    {
        match self {
            NodeStatus::Promotable => 0,
            NodeStatus::ReadOnly => 1,
            NodeStatus::Active => 2,
        }
    }

    /// The status of a number, where it has one.
    pub fn of(number: i32) -> Option<NodeStatus>
        ensures { result ≡ status_of number }
    {
        match number {
            0 => Some(NodeStatus::Promotable),
            1 => Some(NodeStatus::ReadOnly),
            2 => Some(NodeStatus::Active),
            _ => None,
        }
    }
}
