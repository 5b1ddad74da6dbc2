ghost use Rattle.std.specs.Prelude.{◌≡◌, true};
ghost use Rattle.acct_types.specs.RouteEvents.{has_its_side};

use crate::{Addr, Octets};

/// What a router speaks on a session: BGP (RFC 4271), or BMP (RFC 7854).
#[derive(Clone, Copy, Debug, PartialEq, Eq)]
pub enum Side {
    Bgp,
    Bmp,
}

/// What happened to a session: it came up, gave octets, or went down. A tick says only that time has passed.
#[derive(Debug, Drop)]
pub enum Act {
    Up,
    Bytes(Octets),
    Down,
    Tick,
}

/// What happened to the session with a router, at a moment in milliseconds. A tick is of both sides, and has the side Bgp.
#[derive(Debug, Drop)]
pub struct RouteEvent {
    pub moment: u64,
    pub side: Side,
    pub address: Addr,
    pub port: u16,
    pub act: Act,
    pub ghost of_its_side: { has_its_side side act ≡ true },
}

/// Octets for a router, on its session.
#[derive(Debug, Drop)]
pub struct Reply {
    pub side: Side,
    pub to: Addr,
    pub octets: Octets,
}
