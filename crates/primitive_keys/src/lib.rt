//! What records are counted apart by: keys, and the facts that rules of tags are asked of.
#![tactic(auto)]

mod key;
mod record_facts;
mod routing;
mod sources;
mod values;

pub use key::key_of;
pub use record_facts::facts;
