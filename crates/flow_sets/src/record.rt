//! What a record says: its flow, and the sampling rates in it.

ghost use Rattle.std.specs.Prelude.{◌≡◌, ◌^◌, length, true};
ghost use Rattle.acct_types.specs.Counts.{IsBelow};
ghost use Rattle.flow_templates.specs.Elements.{addresses_v4, addresses_v6, is_among};
ghost use Rattle.flow_templates.specs.Known.{known_after, known_in};
ghost use Rattle.flow_sets.specs.Layout.{FitsWithin, is_short, numbers_by};
ghost use Rattle.flow_sets.specs.Rates.{clamped, own_rate, ratio, rate_for, sampler_of, told_rate};
ghost use Rattle.flow_sets.specs.Records.{address, count, flow_of};

use crate::layout::{Spans, listed};
use acct_types::numbers::{u32_at, u128_at, uint_at};
use acct_types::{Addr, Counts, FlowRecord};
use flow_templates::{Domain, Staged, Stores};

// The number of one to eight octets under an element.
#[tactic(auto, using(crate::proofs::RecordLemmas::short_width, crate::proofs::RecordLemmas::short_read))]
fn number(spans: &Spans, octets: &[u8], element: u16) -> Option<u64>
    requires layout { FitsWithin (length octets.now) spans.now }
    requires element { is_short element ≡ true }
    ensures { result ≡ numbers_by spans.now octets.now element }
{
    let Some(span) = listed(spans, element) else {
        return None;
    };
    Some(uint_at(octets, usize::from(span.place), usize::from(span.width)))
}

// The IPv4 address under an element.
#[tactic(auto, using(crate::proofs::RecordLemmas::width_v4, crate::proofs::RecordLemmas::read_v4))]
fn number_v4(spans: &Spans, octets: &[u8], element: u16) -> Option<u32>
    requires layout { FitsWithin (length octets.now) spans.now }
    requires element { is_among addresses_v4 element ≡ true }
    ensures { result ≡ numbers_by spans.now octets.now element }
{
    let Some(span) = listed(spans, element) else {
        return None;
    };
    Some(u32_at(octets, usize::from(span.place)))
}

// The IPv6 address under an element.
#[tactic(auto, using(crate::proofs::RecordLemmas::width_v6, crate::proofs::RecordLemmas::read_v6))]
fn number_v6(spans: &Spans, octets: &[u8], element: u16) -> Option<u128>
    requires layout { FitsWithin (length octets.now) spans.now }
    requires element { is_among addresses_v6 element ≡ true }
    ensures { result ≡ numbers_by spans.now octets.now element }
{
    let Some(span) = listed(spans, element) else {
        return None;
    };
    Some(u128_at(octets, usize::from(span.place)))
}

fn address(spans: &Spans, octets: &[u8], v4: u16, v6: u16) -> Option<Addr>
    requires layout { FitsWithin (length octets.now) spans.now }
    requires v4 { is_among addresses_v4 v4 ≡ true }
    requires v6 { is_among addresses_v6 v6 ≡ true }
    ensures { result ≡ address (numbers_by spans.now octets.now) v4 v6 }
{
    if let Some(number) = number_v4(spans, octets, v4) {
        return Some(Addr::V4(number));
    }
    if let Some(number) = number_v6(spans, octets, v6) {
        return Some(Addr::V6(number));
    }
    None
}

fn count(spans: &Spans, octets: &[u8], first: u16, second: u16, third: u16) -> u64
    requires layout { FitsWithin (length octets.now) spans.now }
    requires first { is_short first ≡ true }
    requires second { is_short second ≡ true }
    requires third { is_short third ≡ true }
    ensures { result ≡ count (numbers_by spans.now octets.now) first second third }
{
    if let Some(number) = number(spans, octets, first) {
        return number;
    }
    if let Some(number) = number(spans, octets, second) {
        return number;
    }
    if let Some(number) = number(spans, octets, third) {
        return number;
    }
    0
}

/// The flow of the record whose elements stand at these places.
pub(crate) fn flow_of(domain: &Domain, spans: &Spans, octets: &[u8]) -> FlowRecord
    requires { FitsWithin (length octets.now) spans.now }
    ensures flow { result ≡ flow_of domain.now (numbers_by spans.now octets.now) }
    ensures counts { IsBelow (2 ^ 64) result.counts }
{
    FlowRecord {
        exporter: domain.exporter,
        source_id: domain.id,
        src: address(spans, octets, 8, 27),
        dst: address(spans, octets, 12, 28),
        src_port: number(spans, octets, 7),
        dst_port: number(spans, octets, 11),
        proto: number(spans, octets, 4),
        tos: number(spans, octets, 5),
        in_iface: number(spans, octets, 10),
        out_iface: number(spans, octets, 14),
        src_as: number(spans, octets, 16),
        dst_as: number(spans, octets, 17),
        src_mask: number(spans, octets, 9).or(number(spans, octets, 29)),
        dst_mask: number(spans, octets, 13).or(number(spans, octets, 30)),
        vlan: number(spans, octets, 58),
        src_mac: number(spans, octets, 56),
        dst_mac: number(spans, octets, 80),
        bgp_next_hop: address(spans, octets, 18, 63),
        counts: Counts {
            bytes: u128::from(count(spans, octets, 1, 85, 23)),
            packets: u128::from(count(spans, octets, 2, 86, 24)),
            flows: 1,
        },
    }
}

fn clamped(rate: u128) -> u32
    ensures { result ≡ clamped rate }
{
    if rate == 0 {
        1
    } else if rate > 4294967295 {
        4294967295
    } else {
        rate as u32
    }
}

/// The sampling rate in a record.
pub(crate) fn own_rate(spans: &Spans, octets: &[u8]) -> Option<u32>
    requires { FitsWithin (length octets.now) spans.now }
    ensures { result ≡ own_rate (numbers_by spans.now octets.now) }
{
    let Some(rate) = number(spans, octets, 34) else {
        return None;
    };
    Some(clamped(u128::from(rate)))
}

/// The number of the sampler that a record names.
pub(crate) fn sampler_of(spans: &Spans, octets: &[u8]) -> Option<u64>
    requires { FitsWithin (length octets.now) spans.now }
    ensures { result ≡ sampler_of (numbers_by spans.now octets.now) }
{
    number(spans, octets, 302).or(number(spans, octets, 48))
}

fn ratio(interval: Option<u64>, space: Option<u64>) -> Option<u128>
    ensures { result ≡ ratio interval space }
{
    let Some(interval) = interval else {
        return None;
    };
    let Some(space) = space else {
        return None;
    };
    if interval == 0 {
        return None;
    }
    Some((u128::from(interval) + u128::from(space)) / u128::from(interval))
}

/// The sampling rate that an option record tells.
pub(crate) fn told_rate(spans: &Spans, octets: &[u8]) -> Option<u32>
    requires { FitsWithin (length octets.now) spans.now }
    ensures { result ≡ told_rate (numbers_by spans.now octets.now) }
{
    if let Some(rate) = number(spans, octets, 34) {
        return Some(clamped(u128::from(rate)));
    }
    if let Some(rate) = number(spans, octets, 50) {
        return Some(clamped(u128::from(rate)));
    }
    let interval = number(spans, octets, 305);
    let space = number(spans, octets, 306);
    let Some(rate) = ratio(interval, space) else {
        return None;
    };
    Some(clamped(rate))
}

/// The rate that is known for a sampler, or else without one.
pub(crate) fn rate_for(
    stores: &Stores,
    staged: &Staged,
    domain: &Domain,
    sampler: Option<u64>,
) -> Option<u32>
    ensures { result ≡ rate_for domain.now (known_after (known_in stores.now) staged.now) sampler }
{
    if sampler.is_some() {
        if let Some(rate) = staged.rate(stores, domain, sampler) {
            return Some(rate);
        }
    }
    staged.rate(stores, domain, None)
}
