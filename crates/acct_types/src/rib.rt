use crate::Addr;

/// A peer of a router that speaks BMP (RFC 7854, 4.2): its address, its distinguisher, and whether its routes are those behind the router's
/// policy. Peers order so.
#[derive(Clone, Copy, Debug, PartialEq, Eq, PartialOrd, Ord, Hash)]
pub struct PeerKey {
    pub address: Addr,
    pub distinguisher: u64,
    pub post: bool,
}

/// Where routes come from. The sessions of BGP come first.
#[derive(Clone, Copy, Debug, PartialEq, Eq, PartialOrd, Ord, Hash)]
pub enum RibSource {
    /// The BGP session with a router.
    Bgp(Addr),
    /// A peer of the router with that address, by BMP.
    Bmp(Addr, PeerKey),
}

/// Of whom a message speaks: of one source, or of all peers of a router that speaks BMP.
#[derive(Clone, Copy, Debug, PartialEq, Eq)]
pub enum RouteScope {
    Peer(RibSource),
    Router(Addr),
}

/// Whose routes are taken.
#[derive(Clone, Copy, Debug, PartialEq, Eq)]
pub enum Rib {
    /// Those of the BGP session with a router.
    Bgp(Addr),
    /// Those of a router's peers by BMP, or of the peers with that address alone.
    Bmp(Addr, Option<Addr>),
}
