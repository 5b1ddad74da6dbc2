//! Readers of NetFlow datagrams.
#![tactic(auto)]

pub mod laws;
mod version5;
mod version9;

pub use flow_templates::{Cause, Notice, NoticeCause, RawDecoded, RawRecord, Undecodable};
pub use version5::decode_v5;
pub use version9::decode_v9;
