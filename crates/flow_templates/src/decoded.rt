use acct_types::{FlowRecord, List};

/// Why a part of a datagram that is decoded was passed over.
#[derive(Clone, Copy, Debug, PartialEq, Eq)]
pub enum NoticeCause {
    /// No template is in force for a data set of this id.
    NoTemplate(u16),
    /// The set's id is reserved.
    ReservedSet(u16),
    /// A sampled header isn't whole.
    HeaderCut,
    /// A sample has no IP packet.
    NotIp,
    /// The format of a sample is passed over.
    Skipped(u32),
}

/// A part of a datagram that was passed over: the number of its set or sample, from 1, and why.
#[derive(Clone, Copy, Debug, PartialEq, Eq)]
pub struct Notice {
    pub set: u32,
    pub cause: NoticeCause,
}

/// A flow as its datagram has it, with the sampling rates that are known there.
#[derive(Clone, Copy, Debug, PartialEq, Eq)]
pub struct RawRecord {
    pub flow: FlowRecord,
    /// The rate in the record itself.
    pub own_rate: Option<u32>,
    /// The rate that an option record taught.
    pub learned_rate: Option<u32>,
    /// The rate in the datagram's header, 1 where it has none.
    pub header_rate: u32,
}

/// The records and the notices of a datagram, each in reading order.
#[derive(Debug, Drop)]
pub struct RawDecoded {
    pub rows: List<RawRecord>,
    pub notices: List<Notice>,
}
