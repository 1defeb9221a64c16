//! Requests and answers as messages, the codes of errors, and what a client makes of an answer.
//!
//! `proto` has the messages: plain values in which a number stands for a policy or a code, and texts name a leader.
//! Each is turned into the value of `den_model` that it speaks of, and back where there is a way back. What a client
//! is told of an answer that is no success is a `ClientApiError`.
//!
//! Where to find what:
//!
//! - `proto`: the messages.
//! - `codes`: the two kinds of codes, and their numbers: specs/Codes.antt.
//! - `requests`: what a message asks for: specs/Requests.antt.
//! - `hints`: who leads, as texts: `id_of` in specs/Hints.antt says which texts are an id.
//! - `responses`: an answer as a message, and back: specs/Responses.antt.
//! - `client_error`, `mapping`: what a client is told: specs/ClientErrors.antt.
//! - `laws`: what holds of these definitions together: specs/Laws.antt.
//!
//! Each function is one definition that computes, and its contract names it: what moves takes no memory, and a call
//! that makes a text may be refused for want of memory alone. Of the texts of a message a leader's id and address
//! alone are read.
//!
//! Worked rows are computed from the definitions and compared, in proofs/WorkedConversions.antt.
//!
//!     let message = to_proto_response(alloc, response)?;
//!     let again = to_core_response(alloc, message)?;
#![tactic(auto)]

mod client_error;
mod codes;
mod hints;
pub mod laws;
mod mapping;
pub mod proto;
mod requests;
mod responses;

pub use client_error::ClientApiError;
pub use codes::{core_error_to_proto, error_from_i32, proto_error_to_core};
pub use hints::{build_error_metadata, parse_leader_hint};
pub use mapping::{extract_read_payload, map_error_response, not_leader_error};
pub use requests::{to_core_read_req, to_core_write_req, write_command_to_op};
pub use responses::{to_core_response, to_proto_response};
