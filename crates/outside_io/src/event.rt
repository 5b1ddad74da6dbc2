ghost use Rattle.std.specs.Prelude.{◌≡◌, ℕ, List, length};
ghost use Rattle.outside_io.specs.CanCome.{can_come};
ghost use Rattle.acct_types.specs.RouteEvents.{act_octets};

use acct_types::{Act, Datagram, RouteEvent};

/// What an input hands out: it has a moment in milliseconds, and octets, none where it brings none.
pub trait InputEvent {
    ghost moment_of: { Self → ℕ };

    ghost octets_of: { Self → List ℕ };

    fn moment(&self) -> u64
        ensures { result ≡ moment_of self.now };

    fn octets(&self) -> &[u8]
        ensures { result.now ≡ octets_of self.now };
}

impl InputEvent for Datagram {
    ghost moment_of = { λ d. d.moment };

    ghost octets_of = { λ d. d.octets };

    fn moment(&self) -> u64 {
        self.moment
    }

    fn octets(&self) -> &[u8] {
        self.octets.as_slice()
    }
}

impl InputEvent for RouteEvent {
    ghost moment_of = { λ event. event.moment };

    ghost octets_of = { λ event. act_octets event.act };

    fn moment(&self) -> u64 {
        self.moment
    }

    fn octets(&self) -> &[u8] {
        match &self.act {
            Act::Bytes(octets) => octets.as_slice(),
            _ => &[],
        }
    }
}

/// Whether an input can hand out these events: their moments don't go back, and each has at most 65,535 octets.
pub fn can_come<T: InputEvent>(events: &[T]) -> bool
    ensures { result ≡ can_come T.moment_of T.octets_of 0 events.now }
{
    let mut since = 0;
    for event in events {
        if event.moment() < since || event.octets().len() > 65_535 {
            return false;
        }
        since = event.moment();
    }
    true
}
