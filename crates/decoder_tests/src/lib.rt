//! Tests of the decoders: NetFlow v5 and v9, IPFIX, sFlow, and all of them behind one call.

#![tactic(auto)]

#[cfg(test)]
mod decoder;
#[cfg(test)]
mod ipfix;
#[cfg(test)]
mod netflow;
#[cfg(test)]
mod sflow;
