use crate::{Addr, Octets};

/// A datagram that an exporter sent, at a moment in milliseconds.
#[derive(Debug, Drop)]
pub struct Datagram {
    pub moment: u64,
    pub exporter: Addr,
    pub port: u16,
    pub octets: Octets,
}
