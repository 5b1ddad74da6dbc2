//! One event at the front of octets.

ghost use Rattle.std.specs.Prelude.{◌≡◌, ◌≤◌, ◌<◌, ◌+◌, ◌^◌, length, true, IfOk};
ghost use Rattle.capture_file.specs.Event.{act_of, address_of, address_width, datagram_at, header_width, is_kind, judged, kind_of, length_of, most_octets, octets_of, route_event_at, side_of, stamp_of};

use crate::flows::CaptureEnd;
use acct_types::numbers::{after, u16_at, u32_at, u64_at, u128_at};
use acct_types::{Act, Addr, Datagram, List, NoMemory, Octets, RouteEvent, Side};
use std::alloc::Global;

const LONGEST: usize = 65535;

fn is_kind(flows: bool, kind: u8) -> bool
    ensures { result ≡ is_kind flows kind }
{
    let (high, low) = (kind / 16, kind % 16);
    (low == 4 || low == 6)
        && if flows {
            high == 0
        } else {
            0 < high && high < 8
        }
}

fn address_width(kind: u8) -> usize
    ensures { result ≡ address_width kind }
{
    if kind % 16 == 4 { 4 } else { 16 }
}

fn header_width(kind: u8) -> usize
    ensures { result ≡ header_width kind }
{
    15 + address_width(kind)
}

fn most_octets(kind: u8) -> usize
    ensures { result ≡ most_octets kind }
{
    let high = kind / 16;
    if high == 0 || (high == 2 || high == 5) {
        LONGEST
    } else {
        0
    }
}

fn length_of(octets: &[u8]) -> usize
    requires some { 1 ≤ length octets.now }
    requires header { header_width (kind_of octets.now) ≤ length octets.now }
    ensures { result ≡ length_of octets.now }
{
    u32_at(octets, 11 + address_width(octets[0])) as usize
}

/// The octets of the event at the front, or why the list ends here.
#[tactic(auto, unfolding(crate::specs::Event::judged))]
pub fn judge(flows: bool, octets: &[u8], used: u64, most: u64) -> Result<usize, CaptureEnd>
    requires place { 8 + used < 2 ^ 64 }
    requires within { used ≤ most }
    ensures { result ≡ judged flows most used octets.now }
{
    let place = 8 + used;
    if octets.is_empty() {
        return Err(CaptureEnd::Ended);
    }
    let kind = octets[0];
    if !is_kind(flows, kind) {
        return Err(CaptureEnd::BadKind { place });
    }
    let header = header_width(kind);
    if octets.len() < header {
        return Err(CaptureEnd::Torn { place });
    }
    let length = length_of(octets);
    if length > most_octets(kind) {
        return Err(CaptureEnd::TooLong { place });
    }
    let width = header + length;
    if most - used < width as u64 {
        return Err(CaptureEnd::TooMany);
    }
    if octets.len() < width {
        return Err(CaptureEnd::Torn { place });
    }
    Ok(width)
}

fn address_of(event: &[u8]) -> Addr
    requires some { 1 ≤ length event.now }
    requires header { header_width (kind_of event.now) ≤ length event.now }
    ensures { result ≡ address_of event.now }
{
    if event[0] % 16 == 4 {
        Addr::V4(u32_at(event, 9))
    } else {
        Addr::V6(u128_at(event, 9))
    }
}

fn octets_of(alloc: Global, event: &[u8]) -> Result<Octets, NoMemory>
    requires some { 1 ≤ length event.now }
    requires header { header_width (kind_of event.now) ≤ length event.now }
    ensures { IfOk result (λ octets. octets ≡ octets_of event.now) }
{
    List::from_slice(alloc, after(event, header_width(event[0])))
}

/// The stamp of a whole event, in milliseconds.
pub fn stamp_of(event: &[u8]) -> u64
    requires some { 1 ≤ length event.now }
    requires header { header_width (kind_of event.now) ≤ length event.now }
    ensures { result ≡ stamp_of event.now }
{
    u64_at(event, 1)
}

/// The datagram of a whole event, behind a moment.
pub fn read_datagram(alloc: Global, moment: u64, event: &[u8]) -> Result<Datagram, NoMemory>
    requires some { 1 ≤ length event.now }
    requires header { header_width (kind_of event.now) ≤ length event.now }
    ensures { IfOk result (λ datagram. datagram ≡ datagram_at moment event.now) }
{
    Ok(Datagram {
        moment: moment.max(stamp_of(event)),
        exporter: address_of(event),
        port: u16_at(event, 9 + address_width(event[0])),
        octets: octets_of(alloc, event)?,
    })
}

fn side_of(event: &[u8]) -> Side
    requires { 1 ≤ length event.now }
    ensures { result ≡ side_of event.now }
{
    let high = event[0] / 16;
    if 3 < high && high < 7 {
        Side::Bmp
    } else {
        Side::Bgp
    }
}

fn act_of(alloc: Global, event: &[u8]) -> Result<Act, NoMemory>
    requires some { 1 ≤ length event.now }
    requires header { header_width (kind_of event.now) ≤ length event.now }
    ensures { IfOk result (λ act. act ≡ act_of event.now) }
{
    match event[0] / 16 {
        1 | 4 => Ok(Act::Up),
        2 | 5 => Ok(Act::Bytes(octets_of(alloc, event)?)),
        3 | 6 => Ok(Act::Down),
        _ => Ok(Act::Tick),
    }
}

/// The route event of a whole event, behind a moment.
pub fn read_route_event(alloc: Global, moment: u64, event: &[u8]) -> Result<RouteEvent, NoMemory>
    requires some { 1 ≤ length event.now }
    requires header { header_width (kind_of event.now) ≤ length event.now }
    ensures { IfOk result (λ read. read ≡ route_event_at moment event.now) }
{
    Ok(RouteEvent {
        moment: moment.max(stamp_of(event)),
        side: side_of(event),
        address: address_of(event),
        port: u16_at(event, 9 + address_width(event[0])),
        act: act_of(alloc, event)?,
    })
}
