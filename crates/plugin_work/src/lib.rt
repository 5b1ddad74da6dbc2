//! A plugin: what it counts of items, and what it writes of that to its sink.
#![tactic(auto)]

mod laws;
mod plugin;
mod writing;

pub use laws::{outputs_are_one, outputs_conserve};
pub use plugin::{Plugin, PluginEnd};
