ghost use Rattle.std.specs.Prelude.{◌≡◌, ◌≢◌, ◌≤◌, ◌^◌, ◌∷◌, [], All, Err, IfOk, IfErr, List as Sequence, OnErr, OnOk, length};
ghost use Rattle.acct_types.specs.Counts.{IsBelow};
ghost use Rattle.acct_types.specs.declared.datagram.Datagram.{Datagram};
ghost use Rattle.flow_templates.specs.Changes.{HasOneEach, nothing_staged};
ghost use Rattle.flow_templates.specs.Decoding.{Gives};
ghost use Rattle.flow_templates.specs.Known.{HasOneRateEach, known_in, nothing_known};
ghost use Rattle.flow_templates.specs.declared.refusal.Undecodable.TheVariants as undecodable;
ghost use Rattle.flow_decode.specs.Answers.{Answers, Learns};
ghost use Rattle.flow_decode.specs.Counting.{answer_of};
ghost use Rattle.flow_decode.specs.Datagrams.{MayWant, MayWantNetflow, decoded, decoded_netflow};
ghost use Rattle.flow_decode.specs.History.{Knows, decoded_behind};

use crate::counting::counted_flows;
use acct_types::numbers::u16_at;
use acct_types::{Datagram, FlowRecord, Hashing, List};
use config_keys::Tool;
use flow_templates::{Cause, Notice, RawDecoded, Staged, Stores, Undecodable};
use ipfix_in::decode_ipfix;
use netflow_in::{decode_v5, decode_v9};
use pretag_map::SamplingMap;
use sflow_in::decode_sflow;
use std::alloc::Global;
use std::marker::Model;

/// The records of a datagram and its notices, each in reading order.
#[derive(Debug, Drop)]
pub struct Decoded {
    pub rows: List<FlowRecord>,
    pub notices: List<Notice>,
}

/// Why a datagram isn't decoded.
pub type FeedFault = Undecodable;

/// Decodes the datagrams of all exporters, one after another, and keeps what they tell: their templates, and the sampling rates that
/// they teach. Contracts see what is kept.
#[derive(Drop)]
pub struct Decoder {
    alloc: Global,
    hashing: Hashing,
    tool: Tool,
    renormalise: bool,
    stores: Stores,
}

impl Model for Decoder {
    ghost use Rattle.flow_decode.specs.History.{DecoderState};

    ghost Value = { DecoderState };

    ghost view = { λ decoder. record { tool = decoder.tool; renormalise = decoder.renormalise; stores = decoder.stores } };
}

// What a datagram of NetFlow or IPFIX says, as its version has it.
#[tactic(auto, unfolding(crate::specs::Datagrams::decoded_netflow))]
fn decode_netflow(
    alloc: Global,
    stores: &Stores,
    staged: &mut Staged,
    datagram: &Datagram,
) -> Result<RawDecoded, Undecodable>
    requires unstaged { staged.old ≡ nothing_staged }
    requires fits { length datagram.now.octets ≤ 65535 }
    ensures answer { Gives result staged.new (decoded_netflow (known_in stores.now) datagram.now) }
    ensures memory { result ≡ Err undecodable.NoMemory → MayWantNetflow (known_in stores.now) datagram.now }
    ensures few { IfOk result (λ decoded. length decoded.rows ≤ length datagram.now.octets) }
    ensures counts { IfOk result (λ decoded. All (λ row. IsBelow (2 ^ 64) row.flow.counts) decoded.rows) }
{
    let octets = datagram.octets.as_slice();
    if octets.len() < 2 {
        return Err(Undecodable::Refused(Cause::Short));
    }
    match u16_at(octets, 0) {
        5 => decode_v5(alloc, &datagram.exporter, octets),
        9 => decode_v9(alloc, stores, staged, &datagram.exporter, octets),
        10 => decode_ipfix(alloc, stores, staged, &datagram.exporter, octets),
        version => Err(Undecodable::Refused(Cause::Version(u32::from(version)))),
    }
}

// What a datagram says, as the tool reads it.
fn decode(
    alloc: Global,
    tool: Tool,
    stores: &Stores,
    staged: &mut Staged,
    datagram: &Datagram,
) -> Result<RawDecoded, Undecodable>
    requires unstaged { staged.old ≡ nothing_staged }
    requires fits { length datagram.now.octets ≤ 65535 }
    ensures answer { Gives result staged.new (decoded tool (known_in stores.now) datagram.now) }
    ensures memory { result ≡ Err undecodable.NoMemory → MayWant tool (known_in stores.now) datagram.now }
    ensures few { IfOk result (λ decoded. length decoded.rows ≤ length datagram.now.octets) }
    ensures counts { IfOk result (λ decoded. All (λ row. IsBelow (2 ^ 64) row.flow.counts) decoded.rows) }
{
    match tool {
        Tool::Sfacctd => decode_sflow(alloc, &datagram.exporter, datagram.octets.as_slice()),
        Tool::Nfacctd | Tool::Pmbgpd => decode_netflow(alloc, stores, staged, datagram),
    }
}

impl Decoder {
    /// A decoder of a collector that knows nothing yet, which takes no memory. What it learns is looked up by `hashing`, which no
    /// answer depends on. Where `renormalise` is true, the bytes and packets of a record
    /// are multiplied by its sampling rate.
    pub fn new(alloc: Global, hashing: Hashing, tool: Tool, renormalise: bool) -> Decoder
        requires { tool ≢ Tool.Pmbgpd }
        ensures tool { result.tool ≡ tool }
        ensures renormalise { result.renormalise ≡ renormalise }
        ensures known { known_in result.stores ≡ nothing_known }
        ensures knows { Knows result [] }
    {
        Decoder {
            alloc,
            hashing,
            tool,
            renormalise,
            stores: Stores::new(alloc, hashing),
        }
    }

    /// A law: of each domain and id one template is kept, and of each domain and sampler one rate.
    pub fn has_one_each(&self)
        ensures templates { HasOneEach self.now.stores.templates }
        ensures rates { HasOneRateEach self.now.stores.options }
    {
        self.stores.has_one_each();
    }

    /// The records and notices of the next datagram, of at most 65,535 octets. It is refused exactly where its definition refuses it, with
    /// that cause. After a refusal, and after NoMemory, all templates and rates are as before, and the next datagram may be
    /// fed.
    pub fn feed(&mut self, datagram: &Datagram, map: &SamplingMap) -> Result<Decoded, FeedFault>
        requires fits { length datagram.now.octets ≤ 65535 }

        // By what is known, and what is known then.
        ensures answer { Answers result (answer_of self.old.renormalise map.now (decoded self.old.tool (known_in self.old.stores) datagram.now)) }
        ensures learns { OnOk result (Learns self.old self.new datagram.now) }
        ensures memory { result ≡ Err undecodable.NoMemory → MayWant self.old.tool (known_in self.old.stores) datagram.now }
        ensures unchanged { OnErr result (self.new ≡ self.old) }

        // Over any list of datagrams that were fed before, the newest first.
        ensures behind { (earlier : Sequence Datagram) → Knows self.old earlier
            → Answers result (answer_of self.old.renormalise map.now (decoded_behind self.old.tool earlier datagram.now)) }
        ensures knows { (earlier : Sequence Datagram) → Knows self.old earlier → result ≢ Err undecodable.NoMemory
            → Knows self.new (datagram.now ∷ earlier) }
        ensures tool { self.new.tool ≡ self.old.tool }
        ensures renormalises { self.new.renormalise ≡ self.old.renormalise }

        ensures few { IfOk result (λ decoded. length decoded.rows ≤ length datagram.now.octets) }
        ensures counts { IfOk result (λ decoded. All (λ flow. IsBelow (2 ^ 96) flow.counts) decoded.rows) }
    {
        let mut staged = Staged::new(self.alloc, self.hashing);
        let raw = decode(self.alloc, self.tool, &self.stores, &mut staged, datagram)?;
        let rows = counted_flows(self.alloc, self.renormalise, map, raw.rows.as_slice())?;
        staged.commit(&mut self.stores)?;
        Ok(Decoded {
            rows,
            notices: raw.notices,
        })
    }
}
