//! Maps that tag records, that say whose routes an exporter's are, and that give rates of sampling.
#![tactic(auto)]

mod agent_map;
mod condition;
mod facts;
mod fault;
mod judge;
mod keys;
mod label;
mod member;
mod rules;
mod sampling_map;
mod tag_map;
mod value;

pub use agent_map::{AgentMap, read_agent_map};
pub use facts::{TagFacts, Tags};
pub use fault::{MapCause, MapFault};
pub use label::{is_label, labels_are_plain};
pub use sampling_map::{SamplingMap, read_sampling_map};
pub use tag_map::{TagMap, read_map};
