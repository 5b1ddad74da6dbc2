//! The reader of sFlow datagrams of version 5.
#![tactic(auto)]

mod datagram;
mod flow_record;
pub mod laws;
mod sample;
mod sampled_header;
mod xdr;

pub use datagram::decode_sflow;
pub use flow_templates::{Cause, Notice, NoticeCause, RawDecoded, RawRecord, Undecodable};
pub use sampled_header::{HeaderFault, HeaderFields, read_sampled_header};
