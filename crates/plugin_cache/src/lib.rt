//! What a plugin counts before it writes.
#![tactic(auto)]

mod aggregate;
mod cache;

pub use aggregate::{Aggregate, entries_add_up, one_purge, purges_conserve};
pub use cache::{Cache, few_items_fit, slices_are_purged, slices_conserve};
