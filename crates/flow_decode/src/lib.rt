//! From the datagrams of all exporters to their records, by what their earlier datagrams told.
#![tactic(auto)]

mod counting;
mod decoder;
pub mod laws;

pub use decoder::{Decoded, Decoder, FeedFault};
