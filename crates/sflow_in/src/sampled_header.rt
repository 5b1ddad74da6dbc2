//! The header of a sampled packet: Ethernet with its tags (IEEE 802.3, 802.1Q), IPv4 (RFC 791) and IPv6 (RFC 8200).

ghost use Rattle.std.specs.Prelude.{◌≡◌, ◌≤◌, ◌<◌, length, IfNone, IfSome};
ghost use Rattle.sflow_in.specs.SampledHeader.{ethernet_length, fields_v4, fields_v6, frame, has_ports, is_tag, link_of, packet_v4, packet_v6, ports_at, ports_v4, sampled_header, tags_of};

use acct_types::Addr;
use acct_types::numbers::{after, u16_at, u32_at, u128_at, uint_at};

/// What a sampled header says of its packet: the MAC addresses and the VLAN (of the first tag) where it begins with
/// Ethernet, and the addresses, protocol, type of service (in IPv6 the traffic class), ports (0 where there are none) and
/// length in octets of its IP packet.
#[derive(Clone, Copy, Debug, PartialEq, Eq)]
pub struct HeaderFields {
    pub src_mac: Option<u64>,
    pub dst_mac: Option<u64>,
    pub vlan: Option<u64>,
    pub src: Addr,
    pub dst: Addr,
    pub proto: u8,
    pub tos: u8,
    pub src_port: u16,
    pub dst_port: u16,
    pub length: u32,
}

/// Why a sampled header tells nothing.
#[derive(Clone, Copy, Debug, PartialEq, Eq)]
pub enum HeaderFault {
    /// The Ethernet part, or the fixed part of the IP header, isn't whole.
    HeaderCut,
    /// It has no IP packet.
    NotIp,
}

// What stands before the IP packet.
#[derive(Clone, Copy)]
struct Link {
    src_mac: Option<u64>,
    dst_mac: Option<u64>,
    vlan: Option<u64>,
}

#[derive(Clone, Copy)]
struct Ports {
    src: u16,
    dst: u16,
}

const NO_PORTS: Ports = Ports { src: 0, dst: 0 };

fn has_ports(proto: u8) -> bool
    ensures { result ≡ has_ports proto }
{
    proto == 6 || proto == 17 || proto == 132
}

#[tactic(auto, unfolding(crate::specs::SampledHeader::ports_at))]
fn ports_at(proto: u8, place: usize, octets: &[u8]) -> Ports
    requires { place ≤ 60 }
    ensures { result ≡ ports_at proto place octets.now }
{
    if has_ports(proto) && place + 4 <= octets.len() {
        Ports {
            src: u16_at(octets, place),
            dst: u16_at(octets, place + 2),
        }
    } else {
        NO_PORTS
    }
}

fn ports_v4(octets: &[u8]) -> Ports
    requires { 20 ≤ length octets.now }
    ensures { result ≡ ports_v4 octets.now }
{
    if u16_at(octets, 6) % (1 << 13) == 0 {
        ports_at(octets[9], 4 * usize::from(octets[0] % 16), octets)
    } else {
        NO_PORTS
    }
}

#[tactic(auto, unfolding(crate::specs::SampledHeader::fields_v4))]
fn fields_v4(link: Link, octets: &[u8]) -> HeaderFields
    requires { 20 ≤ length octets.now }
    ensures { result ≡ fields_v4 link octets.now }
{
    let ports = ports_v4(octets);
    HeaderFields {
        src_mac: link.src_mac,
        dst_mac: link.dst_mac,
        vlan: link.vlan,
        src: Addr::V4(u32_at(octets, 12)),
        dst: Addr::V4(u32_at(octets, 16)),
        proto: octets[9],
        tos: octets[1],
        src_port: ports.src,
        dst_port: ports.dst,
        length: u32::from(u16_at(octets, 2)),
    }
}

#[tactic(auto, unfolding(crate::specs::SampledHeader::packet_v4))]
fn packet_v4(link: Link, octets: &[u8]) -> Result<HeaderFields, HeaderFault>
    ensures { result ≡ packet_v4 link octets.now }
{
    if octets.len() < 20 {
        return Err(HeaderFault::HeaderCut);
    }
    if octets[0] / 16 != 4 || octets[0] % 16 < 5 {
        return Err(HeaderFault::NotIp);
    }
    Ok(fields_v4(link, octets))
}

#[tactic(auto, unfolding(crate::specs::SampledHeader::fields_v6))]
fn fields_v6(link: Link, octets: &[u8]) -> HeaderFields
    requires { 40 ≤ length octets.now }
    ensures { result ≡ fields_v6 link octets.now }
{
    let ports = ports_at(octets[6], 40, octets);
    HeaderFields {
        src_mac: link.src_mac,
        dst_mac: link.dst_mac,
        vlan: link.vlan,
        src: Addr::V6(u128_at(octets, 8)),
        dst: Addr::V6(u128_at(octets, 24)),
        proto: octets[6],
        tos: octets[0] % 16 * 16 + octets[1] / 16,
        src_port: ports.src,
        dst_port: ports.dst,
        length: u32::from(u16_at(octets, 4)) + 40,
    }
}

#[tactic(auto, unfolding(crate::specs::SampledHeader::packet_v6))]
fn packet_v6(link: Link, octets: &[u8]) -> Result<HeaderFields, HeaderFault>
    ensures { result ≡ packet_v6 link octets.now }
{
    if octets.len() < 40 {
        return Err(HeaderFault::HeaderCut);
    }
    if octets[0] / 16 != 6 {
        return Err(HeaderFault::NotIp);
    }
    Ok(fields_v6(link, octets))
}

fn is_tag(kind: u16) -> bool
    ensures { result ≡ is_tag kind }
{
    kind == 0x8100 || kind == 0x88a8
}

// How many tags stand before the type, or None where the Ethernet part isn't whole.
#[tactic(auto, unfolding(crate::specs::SampledHeader::tags_of))]
fn tags_of(octets: &[u8]) -> Option<usize>
    ensures cut { IfNone result (length octets.now < ethernet_length octets.now) }
    ensures tags { IfSome result (λ tags. tags ≡ tags_of octets.now) }
    ensures whole { IfSome result (λ tags. ethernet_length octets.now ≤ length octets.now) }
{
    if octets.len() < 14 {
        return None;
    }
    if !is_tag(u16_at(octets, 12)) {
        return Some(0);
    }
    if octets.len() < 18 {
        return None;
    }
    if !is_tag(u16_at(octets, 16)) {
        return Some(1);
    }
    if octets.len() < 22 {
        return None;
    }
    Some(2)
}

fn link_of(tags: usize, octets: &[u8]) -> Link
    requires tags { tags ≡ tags_of octets.now }
    requires whole { ethernet_length octets.now ≤ length octets.now }
    ensures { result ≡ link_of octets.now }
{
    let vlan = if tags == 0 {
        None
    } else {
        Some(u64::from(u16_at(octets, 14) % (1 << 12)))
    };
    Link {
        src_mac: Some(uint_at(octets, 6, 6)),
        dst_mac: Some(uint_at(octets, 0, 6)),
        vlan,
    }
}

#[tactic(auto, unfolding(crate::specs::SampledHeader::frame))]
fn frame(octets: &[u8]) -> Result<HeaderFields, HeaderFault>
    ensures { result ≡ frame octets.now }
{
    let Some(tags) = tags_of(octets) else {
        return Err(HeaderFault::HeaderCut);
    };
    let kind = u16_at(octets, 12 + 4 * tags);
    let packet = after(octets, 14 + 4 * tags);
    match kind {
        0x0800 => packet_v4(link_of(tags, octets), packet),
        0x86dd => packet_v6(link_of(tags, octets), packet),
        _ => Err(HeaderFault::NotIp),
    }
}

/// What a sampled header says of its packet, by its header protocol (sFlow version 5, sampled_header): 1 is Ethernet with up
/// to two tags (types 0x8100 and 0x88a8), 11 is IPv4, 12 is IPv6. It is HeaderCut where the Ethernet part isn't whole, or
/// the fixed part of the IP header (20 octets in IPv4, 40 in IPv6), and NotIp for any other protocol or Ethernet type, for
/// another IP version, and for an IPv4 header length below 5 words. It takes no memory.
#[tactic(auto, unfolding(crate::specs::SampledHeader::sampled_header))]
pub fn read_sampled_header(protocol: u32, octets: &[u8]) -> Result<HeaderFields, HeaderFault>
    ensures { result ≡ sampled_header protocol octets.now }
{
    let no_link = Link {
        src_mac: None,
        dst_mac: None,
        vlan: None,
    };
    match protocol {
        1 => frame(octets),
        11 => packet_v4(no_link, octets),
        12 => packet_v6(no_link, octets),
        _ => Err(HeaderFault::NotIp),
    }
}
