//! The records of a flow sample (sFlow version 5, flow_record).

ghost use Rattle.std.specs.Prelude.{◌≡◌, ◌≤◌, ◌+◌, ◌*◌, length};
ghost use Rattle.sflow_in.specs.FlowRecords.{also, header_record, ip_at, ip_record, ip_width, masks_of, packet_in_fields, packet_in_header, packet_of, record_of, records_of, router_record, sampled_packet, switch_record, told_in, vlan_of};

use crate::sampled_header::{HeaderFault, HeaderFields, read_sampled_header};
use crate::xdr::{address_width, body_of, format_of, is_cut, rest_of};
use acct_types::Addr;
use acct_types::numbers::{after, u32_at, u128_at};
use flow_templates::Cause;

/// What a record says of its packet. The VLAN is that of the packet's own header.
#[derive(Clone, Copy)]
pub(crate) struct Packet {
    pub(crate) src_mac: Option<u64>,
    pub(crate) dst_mac: Option<u64>,
    pub(crate) vlan: Option<u64>,
    pub(crate) src: Addr,
    pub(crate) dst: Addr,
    pub(crate) proto: u64,
    pub(crate) tos: u64,
    pub(crate) src_port: u64,
    pub(crate) dst_port: u64,
    pub(crate) length: u64,
}

/// The lengths of the masks that the router routed by.
#[derive(Clone, Copy)]
pub(crate) struct Masks {
    pub(crate) src: u64,
    pub(crate) dst: u64,
}

/// What is read of a record.
#[derive(Clone, Copy)]
pub(crate) enum RecordData {
    Sampled(Result<Packet, HeaderFault>),
    Switch(u64),
    Router(Masks),
    Other,
}

/// What the records of a sample tell: of each kind the first.
#[derive(Clone, Copy)]
pub(crate) struct Told {
    pub(crate) packet: Option<Result<Packet, HeaderFault>>,
    pub(crate) vlan: Option<u64>,
    pub(crate) masks: Option<Masks>,
}

fn packet_in_header(fields: &HeaderFields) -> Packet
    ensures { result ≡ packet_in_header fields.now }
{
    Packet {
        src_mac: fields.src_mac,
        dst_mac: fields.dst_mac,
        vlan: fields.vlan,
        src: fields.src,
        dst: fields.dst,
        proto: u64::from(fields.proto),
        tos: u64::from(fields.tos),
        src_port: u64::from(fields.src_port),
        dst_port: u64::from(fields.dst_port),
        length: u64::from(fields.length),
    }
}

fn sampled_packet(header: Result<HeaderFields, HeaderFault>) -> Result<Packet, HeaderFault>
    ensures { result ≡ sampled_packet header }
{
    match header {
        Ok(fields) => Ok(packet_in_header(&fields)),
        Err(fault) => Err(fault),
    }
}

#[tactic(auto, unfolding(crate::specs::FlowRecords::header_record))]
fn header_record(octets: &[u8]) -> Result<RecordData, Cause>
    ensures { result ≡ header_record octets.now }
{
    if octets.len() < 16 {
        return Err(Cause::RecordCut);
    }
    let length = u32_at(octets, 12) as usize;
    if octets.len() < 16 + length {
        return Err(Cause::RecordCut);
    }
    let header = &after(octets, 16)[..length];
    let fields = read_sampled_header(u32_at(octets, 0), header);
    Ok(RecordData::Sampled(sampled_packet(fields)))
}

fn ip_width(ipv6: bool) -> usize
    ensures { result ≡ ip_width ipv6 }
{
    if ipv6 { 16 } else { 4 }
}

fn ip_at(ipv6: bool, octets: &[u8], place: usize) -> Addr
    requires { place + ip_width ipv6 ≤ length octets.now }
    ensures { result ≡ ip_at ipv6 octets.now place }
{
    if ipv6 {
        Addr::V6(u128_at(octets, place))
    } else {
        Addr::V4(u32_at(octets, place))
    }
}

#[tactic(auto, unfolding(crate::specs::FlowRecords::packet_in_fields))]
fn packet_in_fields(ipv6: bool, octets: &[u8]) -> Packet
    requires { 24 + 2 * ip_width ipv6 ≤ length octets.now }
    ensures { result ≡ packet_in_fields ipv6 octets.now }
{
    let width = ip_width(ipv6);
    Packet {
        src_mac: None,
        dst_mac: None,
        vlan: None,
        src: ip_at(ipv6, octets, 8),
        dst: ip_at(ipv6, octets, 8 + width),
        proto: u64::from(u32_at(octets, 4)),
        tos: u64::from(u32_at(octets, 20 + 2 * width)),
        src_port: u64::from(u32_at(octets, 8 + 2 * width)),
        dst_port: u64::from(u32_at(octets, 12 + 2 * width)),
        length: u64::from(u32_at(octets, 0)),
    }
}

#[tactic(auto, unfolding(crate::specs::FlowRecords::ip_record))]
fn ip_record(ipv6: bool, octets: &[u8]) -> Result<RecordData, Cause>
    ensures { result ≡ ip_record ipv6 octets.now }
{
    if octets.len() < 24 + 2 * ip_width(ipv6) {
        return Err(Cause::RecordCut);
    }
    Ok(RecordData::Sampled(Ok(packet_in_fields(ipv6, octets))))
}

#[tactic(auto, unfolding(crate::specs::FlowRecords::switch_record))]
fn switch_record(octets: &[u8]) -> Result<RecordData, Cause>
    ensures { result ≡ switch_record octets.now }
{
    if octets.len() < 16 {
        return Err(Cause::RecordCut);
    }
    Ok(RecordData::Switch(u64::from(u32_at(octets, 0))))
}

#[tactic(auto, unfolding(crate::specs::FlowRecords::router_record))]
fn router_record(octets: &[u8]) -> Result<RecordData, Cause>
    ensures { result ≡ router_record octets.now }
{
    if octets.len() < 4 {
        return Err(Cause::RecordCut);
    }
    let kind = u32_at(octets, 0);
    if kind > 2 {
        return Err(Cause::SflowAddress);
    }
    let place = 4 + address_width(kind);
    if octets.len() < place + 8 {
        return Err(Cause::RecordCut);
    }
    Ok(RecordData::Router(Masks {
        src: u64::from(u32_at(octets, place)),
        dst: u64::from(u32_at(octets, place + 4)),
    }))
}

// What a record tells. Its next hop is the router's own, and is passed over.
#[tactic(auto, unfolding(crate::specs::FlowRecords::record_of))]
fn read_record(format: u32, octets: &[u8]) -> Result<RecordData, Cause>
    ensures { result ≡ record_of format octets.now }
{
    match format {
        1 => header_record(octets),
        3 => ip_record(false, octets),
        4 => ip_record(true, octets),
        1001 => switch_record(octets),
        1002 => router_record(octets),
        _ => Ok(RecordData::Other),
    }
}

fn packet_of(data: RecordData) -> Option<Result<Packet, HeaderFault>>
    ensures { result ≡ packet_of «data» }
{
    match data {
        RecordData::Sampled(packet) => Some(packet),
        _ => None,
    }
}

fn vlan_of(data: RecordData) -> Option<u64>
    ensures { result ≡ vlan_of «data» }
{
    match data {
        RecordData::Switch(vlan) => Some(vlan),
        _ => None,
    }
}

fn masks_of(data: RecordData) -> Option<Masks>
    ensures { result ≡ masks_of «data» }
{
    match data {
        RecordData::Router(masks) => Some(masks),
        _ => None,
    }
}

const NOTHING: Told = Told {
    packet: None,
    vlan: None,
    masks: None,
};

impl Told {
    // What the records so far and one more tell.
    fn and(self, one: RecordData) -> Told
        ensures { result ≡ also self one }
    {
        Told {
            packet: self.packet.or(packet_of(one)),
            vlan: self.vlan.or(vlan_of(one)),
            masks: self.masks.or(masks_of(one)),
        }
    }
}

/// What so many records tell. RecordCut refuses one that passes the end, or is shorter than its form, and SflowAddress one
/// with a next hop of an unknown type.
pub(crate) fn read_records(count: u32, octets: &[u8]) -> Result<Told, Cause>
    ensures { result ≡ told_in (records_of count octets.now) }
{
    let mut told = NOTHING;
    let mut rest = octets;
    for _ in 0..count {
        if is_cut(rest) {
            return Err(Cause::RecordCut);
        }
        told = told.and(read_record(format_of(rest), body_of(rest))?);
        rest = rest_of(rest);
    }
    Ok(told)
}
