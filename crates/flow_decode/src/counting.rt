//! What a record counts.

ghost use Rattle.std.specs.Prelude.{◌≡◌, ◌<◌, ◌≤◌, ◌*◌, ◌^◌, All, IfOk, length, map};
ghost use Rattle.acct_types.specs.Counts.{IsBelow};
ghost use Rattle.flow_decode.specs.Counting.{counted, rate_by, rate_of, times};

use acct_types::{Counts, FlowRecord, List, NoMemory};
use flow_templates::RawRecord;
use pretag_map::SamplingMap;
use std::alloc::Global;

fn rate_by(map: &SamplingMap, flow: &FlowRecord) -> Option<u32>
    ensures { result ≡ rate_by map.now flow.now }
{
    map.rate(
        &flow.exporter,
        flow.in_iface.unwrap_or(0),
        flow.out_iface.unwrap_or(0),
    )
}

fn rate_of(map: &SamplingMap, raw: &RawRecord) -> u32
    ensures { result ≡ rate_of map.now raw.now }
{
    if let Some(rate) = raw.own_rate {
        return rate;
    }
    if let Some(rate) = raw.learned_rate {
        return rate;
    }
    rate_by(map, &raw.flow).unwrap_or(raw.header_rate)
}

fn times(rate: u32, counts: Counts) -> Counts
    requires { IsBelow (2 ^ 64) counts }
    ensures times { result ≡ times rate counts }
    ensures below { IsBelow (2 ^ 96) result }
{
    Counts {
        bytes: counts.bytes * u128::from(rate),
        packets: counts.packets * u128::from(rate),
        flows: counts.flows,
    }
}

fn counted(renormalise: bool, map: &SamplingMap, raw: &RawRecord) -> FlowRecord
    requires { IsBelow (2 ^ 64) raw.now.flow.counts }
    ensures counted { result ≡ counted renormalise map.now raw.now }
    ensures below { IsBelow (2 ^ 96) result.counts }
{
    let mut flow = raw.flow;
    if renormalise {
        flow.counts = times(rate_of(map, raw), flow.counts);
    }
    flow
}

/// The flows of records, with what each counts.
pub fn counted_flows(
    alloc: Global,
    renormalise: bool,
    lines: &SamplingMap,
    rows: &[RawRecord],
) -> Result<List<FlowRecord>, NoMemory>
    requires { All (λ row. IsBelow (2 ^ 64) row.flow.counts) rows.now }
    ensures flows { IfOk result (λ flows. flows ≡ map (counted renormalise lines.now) rows.now) }
    ensures below { IfOk result (λ flows. All (λ flow. IsBelow (2 ^ 96) flow.counts) flows) }
{
    let mut flows = Vec::with_capacity(alloc, rows.len())?;
    for raw in rows {
        flows.push(counted(renormalise, lines, raw))?;
    }
    Ok(List::from_vec(flows))
}
