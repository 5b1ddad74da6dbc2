ghost use Rattle.std.specs.Prelude.{◌≡◌};
ghost use Rattle.acct_types.specs.Counts.{AddUp, CountsFit, nothing, plus};

use crate::Addr;

/// How much was counted.
#[derive(Clone, Copy, Debug, PartialEq, Eq)]
pub struct Counts {
    pub bytes: u128,
    pub packets: u128,
    pub flows: u128,
}

impl Counts {
    /// Nothing was counted.
    pub fn nothing() -> Counts
        ensures { result ≡ nothing }
    {
        Counts {
            bytes: 0,
            packets: 0,
            flows: 0,
        }
    }

    /// The sums of both.
    pub fn plus(self, other: Counts) -> Counts
        requires { CountsFit (plus self other) }
        ensures { result ≡ plus self other }
    {
        Counts {
            bytes: self.bytes + other.bytes,
            packets: self.packets + other.packets,
            flows: self.flows + other.flows,
        }
    }
}

/// A law: the order in which counts are added changes nothing.
pub fn counts_add_up()
    ensures { AddUp }
{}

/// A flow, with the parts that its record has.
#[derive(Clone, Copy, Debug, PartialEq, Eq)]
pub struct FlowRecord {
    pub exporter: Addr,
    pub source_id: u32,
    pub src: Option<Addr>,
    pub dst: Option<Addr>,
    pub src_port: Option<u64>,
    pub dst_port: Option<u64>,
    pub proto: Option<u64>,
    pub tos: Option<u64>,
    pub in_iface: Option<u64>,
    pub out_iface: Option<u64>,
    pub src_as: Option<u64>,
    pub dst_as: Option<u64>,
    pub src_mask: Option<u64>,
    pub dst_mask: Option<u64>,
    pub vlan: Option<u64>,
    pub src_mac: Option<u64>,
    pub dst_mac: Option<u64>,
    pub bgp_next_hop: Option<Addr>,
    pub counts: Counts,
}
