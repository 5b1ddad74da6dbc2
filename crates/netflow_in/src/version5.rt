//! NetFlow version 5, as Cisco's NetFlow export datagram format lays it out.

ghost use Rattle.std.specs.Prelude.{◌≡◌, ◌≤◌, ◌*◌, ◌^◌, All, Err, length, IfOk, IsOk};
ghost use Rattle.acct_types.specs.Counts.{IsBelow};
ghost use Rattle.flow_templates.specs.Changes.{nothing_staged};
ghost use Rattle.flow_templates.specs.declared.refusal.Undecodable.TheVariants as undecodable;
ghost use Rattle.flow_templates.specs.Decoding.{Gives, rows_alone};
ghost use Rattle.netflow_in.specs.Version5.{decoded_v5, flow_of, rate_of, records_of, source_of};

use acct_types::numbers::{after, u16_at, u32_at};
use acct_types::{Addr, Counts, FlowRecord, List, NoMemory};
use flow_templates::{Cause, RawDecoded, RawRecord, Undecodable};
use std::alloc::Global;

const HEADER: usize = 24;

const RECORD: usize = 48;

fn source_of(octets: &[u8]) -> u32
    requires { 24 ≤ length octets.now }
    ensures { result ≡ source_of octets.now }
{
    u32::from(octets[20]) * 256 + u32::from(octets[21])
}

fn rate_of(octets: &[u8]) -> u32
    requires { 24 ≤ length octets.now }
    ensures { result ≡ rate_of octets.now }
{
    let interval = u16_at(octets, 22) % (1 << 14);
    if interval == 0 {
        1
    } else {
        u32::from(interval)
    }
}

// The flow of the record at the front.
fn read_flow(exporter: Addr, source_id: u32, octets: &[u8]) -> FlowRecord
    requires { 48 ≤ length octets.now }
    ensures flow { result ≡ flow_of exporter source_id octets.now }
    ensures counts { IsBelow (2 ^ 64) result.counts }
{
    FlowRecord {
        exporter,
        source_id,
        src: Some(Addr::V4(u32_at(octets, 0))),
        dst: Some(Addr::V4(u32_at(octets, 4))),
        src_port: Some(u64::from(u16_at(octets, 32))),
        dst_port: Some(u64::from(u16_at(octets, 34))),
        proto: Some(u64::from(octets[38])),
        tos: Some(u64::from(octets[39])),
        in_iface: Some(u64::from(u16_at(octets, 12))),
        out_iface: Some(u64::from(u16_at(octets, 14))),
        src_as: Some(u64::from(u16_at(octets, 40))),
        dst_as: Some(u64::from(u16_at(octets, 42))),
        src_mask: Some(u64::from(octets[44])),
        dst_mask: Some(u64::from(octets[45])),
        vlan: None,
        src_mac: None,
        dst_mac: None,
        bgp_next_hop: None,
        counts: Counts {
            bytes: u128::from(u32_at(octets, 20)),
            packets: u128::from(u32_at(octets, 16)),
            flows: 1,
        },
    }
}

fn read_records(
    alloc: Global,
    exporter: Addr,
    source_id: u32,
    header_rate: u32,
    count: usize,
    octets: &[u8],
) -> Result<List<RawRecord>, NoMemory>
    requires { 48 * count ≤ length octets.now }
    ensures rows { IfOk result (λ rows. rows ≡ records_of exporter source_id header_rate count octets.now) }
    ensures count { IfOk result (λ rows. length rows ≡ count) }
    ensures counts { IfOk result (λ rows. All (λ row. IsBelow (2 ^ 64) row.flow.counts) rows) }
{
    let mut rows = Vec::with_capacity(alloc, count)?;
    let mut rest = octets;
    for _ in 0..count {
        rows.push(RawRecord {
            flow: read_flow(exporter, source_id, rest),
            own_rate: None,
            learned_rate: None,
            header_rate,
        })?;
        rest = after(rest, RECORD);
    }
    Ok(List::from_vec(rows))
}

/// The records of a datagram of version 5 (Cisco's NetFlow export datagram format). It is refused with Short below 2 octets, with Version for any other
/// version, with Short below the header's 24 octets, with V5Count for a count of 0 or above 30, and with V5Cut
/// where the records aren't whole, in this order. It gives no notices.
#[tactic(auto, unfolding(crate::specs::Version5::decoded_v5))]
pub fn decode_v5(alloc: Global, exporter: &Addr, octets: &[u8]) -> Result<RawDecoded, Undecodable>
    ensures answer { Gives result nothing_staged (rows_alone (decoded_v5 exporter.now octets.now)) }
    ensures memory { result ≡ Err undecodable.NoMemory → IsOk (decoded_v5 exporter.now octets.now) }
    ensures few { IfOk result (λ decoded. length decoded.rows ≤ 30) }
    ensures within { IfOk result (λ decoded. length decoded.rows ≤ length octets.now) }
    ensures counts { IfOk result (λ decoded. All (λ row. IsBelow (2 ^ 64) row.flow.counts) decoded.rows) }
{
    if octets.len() < 2 {
        return Err(Undecodable::Refused(Cause::Short));
    }
    let version = u16_at(octets, 0);
    if version != 5 {
        return Err(Undecodable::Refused(Cause::Version(u32::from(version))));
    }
    if octets.len() < HEADER {
        return Err(Undecodable::Refused(Cause::Short));
    }
    let count = u16_at(octets, 2);
    if count == 0 || count > 30 {
        return Err(Undecodable::Refused(Cause::V5Count));
    }
    let count = usize::from(count);
    if octets.len() < HEADER + RECORD * count {
        return Err(Undecodable::Refused(Cause::V5Cut));
    }
    let records = after(octets, HEADER);
    let rows = read_records(
        alloc,
        *exporter,
        source_of(octets),
        rate_of(octets),
        count,
        records,
    )?;
    Ok(RawDecoded {
        rows,
        notices: List::new(alloc),
    })
}
