//! Leases: the moments at which keys expire. `Expiries` finds them by key and by moment, so that what is due at a moment
//! is found without a walk over the rest; a `Lease` is what a state machine asks of them, and `DefaultLease` the one in
//! memory, whose word `LeaseSnapshot` reads and writes.
#![tactic(auto)]

mod default_lease;
mod expiries;
mod laws;
mod lease;
mod snapshot;

pub use default_lease::DefaultLease;
pub use expiries::Expiries;
pub use laws::lease_words_are_read;
pub use lease::Lease;
pub use snapshot::{LeaseRow, LeaseSnapshot};
