//! The sets of NetFlow version 9 (RFC 3954) and IPFIX (RFC 7011) datagrams, which stand behind their headers up to the end.
#![tactic(auto)]

mod data;
mod fields;
pub mod laws;
mod layout;
mod record;
mod sets;
mod templates;

pub use sets::read_sets;
