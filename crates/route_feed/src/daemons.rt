ghost use Rattle.std.specs.Prelude.{◌≡◌};
ghost use Rattle.route_feed.specs.Events.{is_on};

use acct_types::{Act, Side};

/// Which daemons are on: the one for BGP, the one for BMP.
#[derive(Clone, Copy, Debug, PartialEq, Eq)]
pub struct Daemons {
    pub bgp: bool,
    pub bmp: bool,
}

impl Daemons {
    /// Whether an event is one of a daemon that is on. A tick is one of both.
    pub(crate) fn is_on(self, side: Side, act: &Act) -> bool
        ensures { result ≡ is_on self side act.now }
    {
        match (act, side) {
            (Act::Tick, _) => self.bgp || self.bmp,
            (_, Side::Bgp) => self.bgp,
            (_, Side::Bmp) => self.bmp,
        }
    }
}
