//! The samples of a datagram (sFlow version 5, sample_record).

ghost use Rattle.std.specs.Prelude.{◌≡◌, ◌≤◌, ◌+◌, ◌^◌, length, IfOk};
ghost use Rattle.acct_types.specs.Counts.{IsBelow};
ghost use Rattle.sflow_in.specs.Samples.{flow_of, flow_sample, GivesSmall, head_length, interface_at, name_width, rate_of, row_of, sample_of};

use crate::flow_record::{Packet, Told, read_records};
use crate::sampled_header::HeaderFault;
use acct_types::numbers::{after, u32_at};
use acct_types::{Addr, Counts, FlowRecord};
use flow_templates::{Cause, NoticeCause, RawRecord};

/// What a sample gives.
#[derive(Clone, Copy)]
pub(crate) enum Sample {
    Row(RawRecord),
    Note(NoticeCause),
    Nothing,
}

// The octets of what names a data source or an interface.
fn name_width(expanded: bool) -> usize
    ensures { result ≡ name_width expanded }
{
    if expanded { 8 } else { 4 }
}

// The interface that is named at a place, or 0.
#[tactic(auto, unfolding(crate::specs::Samples::interface_at))]
fn interface_at(expanded: bool, octets: &[u8], place: usize) -> u32
    requires { place + name_width expanded ≤ length octets.now }
    ensures { result ≡ interface_at expanded octets.now place }
{
    let first = u32_at(octets, place);
    let (format, value) = if expanded {
        (first, u32_at(octets, place + 4))
    } else {
        (first / (1 << 30), first % (1 << 30))
    };
    if format == 0 { value } else { 0 }
}

#[tactic(auto, unfolding(crate::specs::Samples::rate_of))]
fn rate_of(expanded: bool, octets: &[u8]) -> u32
    requires { head_length expanded ≤ length octets.now }
    ensures { result ≡ rate_of expanded octets.now }
{
    let rate = u32_at(octets, 4 + name_width(expanded));
    if rate == 0 { 1 } else { rate }
}

#[tactic(auto, unfolding(crate::specs::Samples::flow_of))]
fn flow_of(
    exporter: Addr,
    source_id: u32,
    expanded: bool,
    octets: &[u8],
    told: Told,
    packet: Packet,
) -> FlowRecord
    requires { head_length expanded ≤ length octets.now }
    ensures { result ≡ flow_of exporter source_id expanded octets.now told packet }
{
    let width = name_width(expanded);
    FlowRecord {
        exporter,
        source_id,
        src: Some(packet.src),
        dst: Some(packet.dst),
        src_port: Some(packet.src_port),
        dst_port: Some(packet.dst_port),
        proto: Some(packet.proto),
        tos: Some(packet.tos),
        in_iface: Some(u64::from(interface_at(expanded, octets, 16 + width))),
        out_iface: Some(u64::from(interface_at(expanded, octets, 16 + 2 * width))),
        src_as: None,
        dst_as: None,
        src_mask: told.masks.map(|masks| masks.src),
        dst_mask: told.masks.map(|masks| masks.dst),
        vlan: packet.vlan.or(told.vlan),
        src_mac: packet.src_mac,
        dst_mac: packet.dst_mac,
        bgp_next_hop: None,
        counts: Counts {
            bytes: u128::from(packet.length),
            packets: 1,
            flows: 1,
        },
    }
}

#[tactic(auto, unfolding(crate::specs::Samples::flow_of))]
fn row_of(
    exporter: Addr,
    source_id: u32,
    expanded: bool,
    octets: &[u8],
    told: Told,
    packet: Packet,
) -> RawRecord
    requires { head_length expanded ≤ length octets.now }
    ensures row { result ≡ row_of exporter source_id expanded octets.now told packet }
    ensures counts { IsBelow (2 ^ 64) result.flow.counts }
{
    RawRecord {
        flow: flow_of(exporter, source_id, expanded, octets, told, packet),
        own_rate: Some(rate_of(expanded, octets)),
        learned_rate: None,
        header_rate: 1,
    }
}

#[tactic(auto, unfolding(crate::specs::Samples::flow_sample))]
fn flow_sample(
    exporter: Addr,
    source_id: u32,
    expanded: bool,
    octets: &[u8],
) -> Result<Sample, Cause>
    ensures sample { result ≡ flow_sample exporter source_id expanded octets.now }
    ensures small { IfOk result GivesSmall }
{
    let width = name_width(expanded);
    if octets.len() < 20 + 3 * width {
        return Err(Cause::RecordCut);
    }
    let count = u32_at(octets, 16 + 3 * width);
    let told = read_records(count, after(octets, 20 + 3 * width))?;
    Ok(match told.packet {
        Some(Ok(packet)) => {
            Sample::Row(row_of(exporter, source_id, expanded, octets, told, packet))
        }
        Some(Err(HeaderFault::HeaderCut)) => Sample::Note(NoticeCause::HeaderCut),
        Some(Err(HeaderFault::NotIp)) | None => Sample::Note(NoticeCause::NotIp),
    })
}

/// What a sample gives, by its format: a flow sample (1, or expanded 3) the row of its first packet, or a notice where it has
/// none. RecordCut refuses one that is shorter than its form. A counter sample (2, or expanded 4) gives nothing, and any
/// other the notice that it is skipped.
#[tactic(auto, unfolding(crate::specs::Samples::sample_of))]
pub(crate) fn read_sample(
    exporter: Addr,
    source_id: u32,
    format: u32,
    octets: &[u8],
) -> Result<Sample, Cause>
    ensures sample { result ≡ sample_of exporter source_id format octets.now }
    ensures small { IfOk result GivesSmall }
{
    match format {
        1 => flow_sample(exporter, source_id, false, octets),
        3 => flow_sample(exporter, source_id, true, octets),
        2 | 4 => Ok(Sample::Nothing),
        _ => Ok(Sample::Note(NoticeCause::Skipped(format))),
    }
}
