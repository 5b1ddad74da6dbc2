//! A reader of IPFIX messages.
#![tactic(auto)]

pub mod laws;
mod message;

pub use message::decode_ipfix;
