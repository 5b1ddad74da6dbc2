use crate::{Addr, List, Prefix, RouteAttrs, RouteScope};

/// A prefix as a message names it (RFC 4271, 4.3), with its path identifier, 0 where it has none.
#[derive(Clone, Copy, Debug, PartialEq, Eq)]
pub struct Nlri {
    pub prefix: Prefix,
    pub path_id: u32,
}

/// A prefix that is announced, and its next hop.
#[derive(Clone, Copy, Debug, PartialEq, Eq)]
pub struct Announce {
    pub nlri: Nlri,
    pub next_hop: Addr,
}

/// What an UPDATE says (RFC 4271, 4.3, and RFC 4760). The withdrawals come first: a prefix that stands in both lists is announced.
#[derive(Debug, PartialEq, Eq, Drop)]
pub struct Update {
    pub withdrawn: List<Nlri>,
    pub announced: List<Announce>,
    pub attrs: RouteAttrs,
}

/// What a message changes: what an UPDATE says, or that nothing of its scope stands.
#[derive(Debug, PartialEq, Eq, Drop)]
pub enum Change {
    Update(Update),
    Reset,
}

/// A change of routes, at a moment in milliseconds.
#[derive(Debug, PartialEq, Eq, Drop)]
pub struct RouteMessage {
    pub scope: RouteScope,
    pub moment: u64,
    pub change: Change,
}
