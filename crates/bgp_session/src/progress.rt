//! How far the two sides have come.

ghost use Rattle.std.specs.Prelude.{◌≡◌};
ghost use Rattle.bgp_session.specs.Lives.{fits, next};

use bgp_msg::Agreed;

/// What is awaited of the peer (RFC 4271, 8.2.2).
#[derive(Clone, Copy, Debug, PartialEq, Eq)]
pub(crate) enum Stage {
    AwaitsOpen,
    AwaitsKeepalive,
    /// KEEPALIVEs and UPDATEs.
    Established,
    /// Nothing more.
    Closed,
}

/// What this side says of itself in its OPEN.
#[derive(Clone, Copy, Debug, PartialEq, Eq)]
pub struct Local {
    /// Its BGP identifier.
    pub id: u32,
    /// Its hold time in seconds.
    pub hold: u16,
}

/// How far the two sides have come, and what they agreed on.
#[derive(Clone, Copy, Debug)]
pub(crate) struct Progress {
    pub(crate) stage: Stage,
    pub(crate) agreed: Agreed,
    /// The agreed hold time in seconds; 0 where there is none.
    pub(crate) hold: u16,
}

/// Before the peer's OPEN.
pub(crate) const NOTHING_AGREED: Agreed = Agreed {
    four_octets: false,
    path_ids_v4: false,
    path_ids_v6: false,
};

const OPEN: u8 = 1;

const UPDATE: u8 = 2;

const KEEPALIVE: u8 = 4;

impl Stage {
    /// Whether a message of this type is awaited. NOTIFICATION, which may always come, isn't among them.
    pub(crate) fn fits(self, kind: u8) -> bool
        ensures { result ≡ fits self kind }
    {
        match self {
            Stage::AwaitsOpen => kind == OPEN,
            Stage::AwaitsKeepalive => kind == KEEPALIVE,
            Stage::Established => kind == UPDATE || kind == KEEPALIVE,
            Stage::Closed => false,
        }
    }

    /// What is awaited behind a message that was.
    pub(crate) fn next(self) -> Stage
        ensures { result ≡ next self }
    {
        match self {
            Stage::AwaitsOpen => Stage::AwaitsKeepalive,
            _ => Stage::Established,
        }
    }
}
