//! sFlow datagrams of version 5.

ghost use Rattle.std.specs.Prelude.{◌≡◌, ◌≤◌, ◌+◌, ◌*◌, ◌++◌, ◌^◌, All, Err, length, IfOk, IsOk, OnOk};
ghost use Rattle.acct_types.specs.Counts.{IsBelow};
ghost use Rattle.flow_templates.specs.Changes.{nothing_staged};
ghost use Rattle.flow_templates.specs.declared.refusal.Undecodable.TheVariants as undecodable;
ghost use Rattle.flow_templates.specs.Decoding.{FailsAs, Gives};
ghost use Rattle.sflow_in.specs.Datagram.{decoded_sflow};
ghost use Rattle.sflow_in.specs.Samples.{notices_in, rows_in, said_in, samples_of};

use crate::sample::{Sample, read_sample};
use crate::xdr::{address_width, body_of, format_of, is_cut, rest_of};
use acct_types::numbers::{after, u32_at};
use acct_types::{Addr, List, NoMemory};
use flow_templates::{Cause, Notice, RawDecoded, Undecodable};
use std::alloc::Global;

// Adds what the sample of this number gives behind what is decoded.
fn add(decoded: &mut RawDecoded, number: u32, sample: Sample) -> Result<(), NoMemory>
    ensures rows { OnOk result (decoded.new.rows ≡ decoded.old.rows ++ rows_in sample) }
    ensures notices { OnOk result (decoded.new.notices ≡ decoded.old.notices ++ notices_in number sample) }
{
    match sample {
        Sample::Row(row) => decoded.rows.push(row),
        Sample::Note(cause) => decoded.notices.push(Notice { set: number, cause }),
        Sample::Nothing => Ok(()),
    }
}

// Why samples aren't kept: the first that is refused, or where none is, that memory is wanted.
fn failure_of(exporter: Addr, source_id: u32, count: u32, octets: &[u8]) -> Undecodable
    ensures { FailsAs result (said_in (samples_of exporter source_id count octets.now)) }
{
    let mut rest = octets;
    for _ in 0..count {
        if is_cut(rest) {
            return Undecodable::Refused(Cause::SampleCut);
        }
        match read_sample(exporter, source_id, format_of(rest), body_of(rest)) {
            Ok(_) => {}
            Err(cause) => return Undecodable::Refused(cause),
        }
        rest = rest_of(rest);
    }
    Undecodable::NoMemory
}

fn read_samples(
    alloc: Global,
    exporter: Addr,
    source_id: u32,
    count: u32,
    octets: &[u8],
) -> Result<RawDecoded, Undecodable>
    ensures answer { Gives result nothing_staged (said_in (samples_of exporter source_id count octets.now)) }
    ensures memory { result ≡ Err undecodable.NoMemory → IsOk (said_in (samples_of exporter source_id count octets.now)) }
    ensures few { IfOk result (λ decoded. 8 * length decoded.rows ≤ length octets.now) }
    ensures counts { IfOk result (λ decoded. All (λ row. IsBelow (2 ^ 64) row.flow.counts) decoded.rows) }
{
    let mut decoded = RawDecoded {
        rows: List::new(alloc),
        notices: List::new(alloc),
    };
    let mut rest = octets;
    for index in 0..count {
        if is_cut(rest) {
            return Err(Undecodable::Refused(Cause::SampleCut));
        }
        let sample = match read_sample(exporter, source_id, format_of(rest), body_of(rest)) {
            Ok(sample) => sample,
            Err(cause) => return Err(Undecodable::Refused(cause)),
        };
        let Ok(()) = add(&mut decoded, index + 1, sample) else {
            return Err(failure_of(exporter, source_id, count, octets));
        };
        rest = rest_of(rest);
    }
    Ok(decoded)
}

/// The records and notices of a datagram (sFlow version 5, sample_datagram). Each flow sample gives the record of its first
/// packet, with the exporter that sent the datagram, which needn't be its agent, and the sub-agent as source id. The
/// datagram is refused for whichever comes first: Short below 4 octets, Version for any version but 5, Short where a part
/// of the header isn't there, SflowAddress where the type of an address is unknown, SampleCut where a sample passes the
/// end, and RecordCut where a record passes its sample or is shorter than its form.
#[tactic(auto, unfolding(crate::specs::Datagram::decoded_sflow))]
pub fn decode_sflow(
    alloc: Global,
    exporter: &Addr,
    octets: &[u8],
) -> Result<RawDecoded, Undecodable>
    ensures answer { Gives result nothing_staged (decoded_sflow exporter.now octets.now) }
    ensures memory { result ≡ Err undecodable.NoMemory → IsOk (decoded_sflow exporter.now octets.now) }
    ensures few { IfOk result (λ decoded. 8 * length decoded.rows ≤ length octets.now) }
    ensures counts { IfOk result (λ decoded. All (λ row. IsBelow (2 ^ 64) row.flow.counts) decoded.rows) }
{
    if octets.len() < 4 {
        return Err(Undecodable::Refused(Cause::Short));
    }
    let version = u32_at(octets, 0);
    if version != 5 {
        return Err(Undecodable::Refused(Cause::Version(version)));
    }
    if octets.len() < 8 {
        return Err(Undecodable::Refused(Cause::Short));
    }
    let kind = u32_at(octets, 4);
    if kind != 1 && kind != 2 {
        return Err(Undecodable::Refused(Cause::SflowAddress));
    }
    let place = 8 + address_width(kind);
    if octets.len() < place + 16 {
        return Err(Undecodable::Refused(Cause::Short));
    }
    let sub_agent = u32_at(octets, place);
    let count = u32_at(octets, place + 12);
    read_samples(
        alloc,
        *exporter,
        sub_agent,
        count,
        after(octets, place + 16),
    )
}
