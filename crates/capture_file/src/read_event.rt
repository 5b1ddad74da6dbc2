//! What a whole event is read as.

ghost use Rattle.std.specs.Prelude.{◌≡◌, ◌≤◌, ℕ, Bool, List, length, IfOk};
ghost use Rattle.capture_file.specs.Event.{datagram_at, header_width, kind_of, route_event_at};

use crate::event::{read_datagram, read_route_event};
use acct_types::{Datagram, NoMemory, RouteEvent};
use std::alloc::Global;

/// What the octets of a whole event are read as, behind a moment.
pub trait ReadEvent: Sized {
    /// What is read, in a capture of flows or of routes.
    ghost at: { Bool → ℕ → List ℕ → Self };

    fn read(alloc: Global, flows: bool, moment: u64, event: &[u8]) -> Result<Self, NoMemory>
        requires some { 1 ≤ length event.now }
        requires header { header_width (kind_of event.now) ≤ length event.now }
        ensures { IfOk result (λ read. read ≡ at flows moment event.now) };
}

impl ReadEvent for Datagram {
    ghost at = { λ _ moment event. datagram_at moment event };

    fn read(alloc: Global, _: bool, moment: u64, event: &[u8]) -> Result<Datagram, NoMemory> {
        read_datagram(alloc, moment, event)
    }
}

impl ReadEvent for RouteEvent {
    ghost at = { λ _ moment event. route_event_at moment event };

    fn read(alloc: Global, _: bool, moment: u64, event: &[u8]) -> Result<RouteEvent, NoMemory> {
        read_route_event(alloc, moment, event)
    }
}
