//! Laws of the definitions, which hold of every file.

ghost use Rattle.std.specs.Prelude.{◌≤◌, ◌+◌, All, ℕ, List, length, map, sum, true, false};
ghost use Rattle.acct_types.specs.declared.datagram.Datagram.{Datagram};
ghost use Rattle.acct_types.specs.declared.route_event.RouteEvent.{RouteEvent};
ghost use Rattle.capture_file.specs.Capture.{datagrams_of, route_events_of};
ghost use Rattle.capture_file.specs.Event.{datagram_at, route_event_at, route_spelling_of, spelling_of};
ghost use Rattle.capture_file.specs.Reading.{TakenIsUnique};
ghost use Rattle.capture_file.specs.Laws.{FitIn, FitsEvent, FitsRouteEvent, IsReadAgain, NeverFall, ReadsBack, ReadsRoutesBack, route_spellings_of, spellings_of};
ghost use Rattle.capture_file.specs.Taken.{FlowsHandOutTaken, RoutesHandOutTaken};

use crate::{CaptureFlows, CaptureRoutes};
use outside_io::{Datagrams, Sessions, Source};

/// The moments of a capture's datagrams never fall, whatever their stamps, nor those of its route events.
pub fn moments_never_fall()
    ensures flows { (most : ℕ) (octets : List ℕ) → NeverFall (λ (d : Datagram). d.moment) 0 (datagrams_of most octets) }
    ensures routes { (most : ℕ) (octets : List ℕ) → NeverFall (λ (e : RouteEvent). e.moment) 0 (route_events_of most octets) }
{}

/// A capture's datagrams have at most 65,535 octets each, and their events, as they are written, no more than the limit.
pub fn datagrams_fit_the_limit()
    ensures { (most : ℕ) (octets : List ℕ) → FitIn most (datagrams_of most octets) }
{}

/// The events that a capture's datagrams are written as have no more octets in all than the limit.
pub fn written_datagrams_fit_the_limit()
    ensures { (most : ℕ) (octets : List ℕ) → sum (map (λ (d : Datagram). length (spelling_of d)) (datagrams_of most octets)) ≤ most }
{}

/// The event that a datagram is written as is read as this datagram, whatever follows it.
pub fn a_written_flow_is_read()
    ensures { (moment most used : ℕ) (d : Datagram) (later : List ℕ) → moment ≤ d.moment → FitsEvent d → used + length (spelling_of d) ≤ most
        → IsReadAgain true datagram_at (spelling_of d) d moment most used later }
{}

/// The event that a route event is written as is read as this route event, whatever follows it.
pub fn a_written_route_is_read()
    ensures { (moment most used : ℕ) (e : RouteEvent) (later : List ℕ) → moment ≤ e.moment → FitsRouteEvent e → used + length (route_spelling_of e) ≤ most
        → IsReadAgain false route_event_at (route_spelling_of e) e moment most used later }
{}

/// Datagrams that are written as events behind the magic are read as the same datagrams.
pub fn what_is_written_is_read()
    ensures { (most : ℕ) (ds : List Datagram) → NeverFall (λ (d : Datagram). d.moment) 0 ds → All FitsEvent ds → length (spellings_of ds) ≤ most
        → ReadsBack most ds }
{}

/// Route events that are written behind the magic are read as the same route events.
pub fn what_is_written_of_routes_is_read()
    ensures { (most : ℕ) (es : List RouteEvent) → NeverFall (λ (e : RouteEvent). e.moment) 0 es → All FitsRouteEvent es → length (route_spellings_of es) ≤ most
        → ReadsRoutesBack most es }
{}

/// Where a source tells its octets, what a call of a reader took of them is one list.
pub fn what_a_call_takes_is_unique()
    ensures { TakenIsUnique }
{}

/// Any calls of an input over a fresh reader of flows hand out the first datagrams of the octets that they took of its source, and all of them
/// where the last answer is the end or a fault other than want of memory.
pub fn flows_hand_out_what_they_took<S: Source>()
    ensures { FlowsHandOutTaken S.state ⟦<CaptureFlows<S> as Datagrams>⟧.call }
{}

/// The same of an input over a fresh reader of routes.
pub fn routes_hand_out_what_they_took<S: Source + Drop>()
    ensures { RoutesHandOutTaken S.state ⟦<CaptureRoutes<S> as Sessions>⟧.call }
{}
