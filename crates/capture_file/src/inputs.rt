//! Captures as the inputs of a run.

ghost use Rattle.std.specs.Prelude.{◌≡◌, List, ℕ, Some, None, true, false, IsOk};
ghost use Rattle.std.specs.Option.{option_map};
ghost use Rattle.capture_file.specs.Capture.{datagrams_of, end_of, route_end_of, route_events_of};
ghost use Rattle.capture_file.specs.Event.{datagram_at, route_event_at};
ghost use Rattle.capture_file.specs.Inputs.{flows_call, flows_ended, flows_ending, flows_left, flows_reader, flows_state, routes_call, routes_ended, routes_ending, routes_left, routes_reader, routes_state};
ghost use Rattle.capture_file.specs.Reader.{source_of, standing_of, IsFresh};
ghost use Rattle.capture_file.specs.Reading.{fault_of};

use crate::CaptureReader;
use acct_types::{Addr, Datagram, NoMemory, Octets, RouteEvent, Side};
use outside_io::{Datagrams, Flag, InputFault, IoFault, Sessions, Source};

/// The datagrams of a capture of flows. Once the capture ended it answers that end again; where a read or memory failed it reads on.
#[derive(Debug, Drop)]
pub struct CaptureFlows<S> {
    reader: CaptureReader<S>,
}

impl<S: Source> CaptureFlows<S> {
    /// The datagrams of a reader of flows of which nothing was read. Takes no memory.
    pub fn new(reader: CaptureReader<S>) -> CaptureFlows<S>
        requires { IsFresh true reader }
        ensures reader { flows_reader result ≡ reader }
        ensures goes_on { flows_ended result ≡ false }
        ensures left { flows_left S.state result ≡ option_map (datagrams_of (standing_of reader).most) (S.state (source_of reader)).left }
        ensures ending { (octets : List ℕ) → (S.state (source_of reader)).left ≡ Some octets → flows_ending S.state result ≡ fault_of (end_of (standing_of reader).most octets) }
    {
        CaptureFlows { reader }
    }

    /// The source as it stands.
    pub fn into_source(self) -> S
        ensures { result ≡ source_of (flows_reader self) }
    {
        let CaptureFlows { reader } = self;
        reader.into_source()
    }
}

impl<S: Source> Datagrams for CaptureFlows<S> {
    ghost state = { flows_state S.state };

    ghost call = { flows_call S.state };

    fn next(&mut self) -> Result<Option<Datagram>, InputFault> {
        self.reader.hand_out::<Datagram>()
    }
}

/// The events of a capture of routes, likewise. It keeps no reply.
#[derive(Debug, Drop)]
pub struct CaptureRoutes<S> {
    reader: CaptureReader<S>,
}

impl<S: Source> CaptureRoutes<S> {
    /// The events of a reader of routes of which nothing was read. Takes no memory.
    pub fn new(reader: CaptureReader<S>) -> CaptureRoutes<S>
        requires { IsFresh false reader }
        ensures reader { routes_reader result ≡ reader }
        ensures goes_on { routes_ended result ≡ false }
        ensures left { routes_left S.state result ≡ option_map (route_events_of (standing_of reader).most) (S.state (source_of reader)).left }
        ensures ending { (octets : List ℕ) → (S.state (source_of reader)).left ≡ Some octets → routes_ending S.state result ≡ fault_of (route_end_of (standing_of reader).most octets) }
    {
        CaptureRoutes { reader }
    }

    /// The source as it stands.
    pub fn into_source(self) -> S
        ensures { result ≡ source_of (routes_reader self) }
    {
        let CaptureRoutes { reader } = self;
        reader.into_source()
    }
}

impl<S: Source + Drop> Sessions for CaptureRoutes<S> {
    ghost state = { routes_state S.state };

    ghost replies = { λ _. record { sent = None; faults = 0 } };

    ghost call = { routes_call S.state };

    fn next(&mut self) -> Result<Option<RouteEvent>, InputFault> {
        self.reader.hand_out::<RouteEvent>()
    }

    fn reply(&mut self, _: Side, _: &Addr, _: &Octets) -> Result<(), IoFault>
        ensures ok { IsOk result }
        ensures kept { self.new ≡ self.old }
    {
        Ok(())
    }

    fn stopper(&self) -> Result<Flag, NoMemory> {
        Flag::new(self.reader.alloc())
    }
}
