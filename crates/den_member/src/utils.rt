//! Majorities, roles by their numbers, indices and addresses.
ghost use Rattle.std.specs.Prelude.{◌≡◌, ◌+◌, ◌/◌, ◌<◌, length, pos, map, nat_lt, IfOk, IfErr};
ghost use Rattle.std.specs.Ordering.{int_eq};
ghost use Rattle.den_member.specs.Addresses.{IsAddressOf, IsWithoutFront};
ghost use Rattle.den_member.specs.Numbers.{nearest};
ghost use Rattle.den_member.specs.declared.error.MemberError.TheVariants.{OutOfMemory};

use crate::MemberError;
use den_model::{Entry, Label, Rows};
use std::alloc::Global;
use std::collections::BTreeSet;

/// The number of a node that follows.
pub(crate) const FOLLOWER: i32 = 0;

/// The number of a node that asks for votes.
const CANDIDATE: i32 = 1;

/// The number of a node that leads.
const LEADER: i32 = 2;

/// The number of a node that does not vote.
pub(crate) const LEARNER: i32 = 3;

/// The indices of entries, in their order. It is refused for want of memory alone.
pub fn collect_ids(alloc: Global, entries: &[Entry]) -> Result<Rows<u64>, MemberError>
    ensures ids { IfOk result (λ ids. ids ≡ map (λ e. e.index) entries.now) }
    ensures refused { IfErr result (λ e. e ≡ OutOfMemory) }
{
    let ids: Vec<u64> = entries.iter().map(|entry| entry.index()).collect(alloc)?;
    Ok(Rows::of(ids))
}

/// Whether so many of a total are more than half of it.
pub fn is_majority(num: usize, total: usize) -> bool
    ensures { result ≡ nat_lt (total / 2) num }
{
    num > total / 2
}

/// The least number of nodes that are more than half of them.
pub fn majority_count(total_nodes: usize) -> usize
    ensures { result ≡ total_nodes / 2 + 1 }
{
    total_nodes / 2 + 1
}

/// The greatest index of a set that is at most the target.
pub fn find_nearest_lower_number(target_index: u64, set_of_index: &BTreeSet<u64>) -> Option<u64>
    ensures { result ≡ nearest target_index set_of_index.now.keys }
{
    set_of_index
        .iter()
        .copied()
        .filter(|index| *index <= target_index)
        .max()
}

/// Whether the role is the number of a node that follows.
pub fn is_follower(role: i32) -> bool
    ensures { result ≡ int_eq role (pos 0) }
{
    role == FOLLOWER
}

/// Whether the role is the number of a node that asks for votes.
pub fn is_candidate(role: i32) -> bool
    ensures { result ≡ int_eq role (pos 1) }
{
    role == CANDIDATE
}

/// Whether the role is the number of a node that leads.
pub fn is_leader(role: i32) -> bool
    ensures { result ≡ int_eq role (pos 2) }
{
    role == LEADER
}

/// Whether the role is the number of a node that does not vote.
pub fn is_learner(role: i32) -> bool
    ensures { result ≡ int_eq role (pos 3) }
{
    role == LEARNER
}

/// The text without the front, taken off as often as it stands there.
fn without_front<'a>(text: &'a str, front: &str) -> &'a str
    requires { 0 < length front.now }
    ensures { IsWithoutFront front.now text.now result.now }
{
    text.trim_start_matches(front)
}

/// The address with `http://` in front, in place of each `http://` and then each `https://` that it begins with. It is
/// refused for want of memory alone.
pub fn address_str(alloc: Global, addr: &str) -> Result<Label, MemberError>
    ensures address { IfOk result (λ address. IsAddressOf addr.now address) }
    ensures refused { IfErr result (λ e. e ≡ OutOfMemory) }
{
    let rest = without_front(without_front(addr, "http://"), "https://");
    let text = format!(in alloc; "http://{rest}")?;
    Ok(Label::of(alloc, text.as_str())?)
}
