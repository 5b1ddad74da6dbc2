//! The words and the configuration of the programs.
#![tactic(auto)]

mod build;
mod config;
mod fault;
mod find;
mod judge;
mod laws;
mod line;
mod names;
mod plugin;
mod read;
mod seen;
mod table;
mod tool;
mod value;
mod words;

pub use config::Config;
pub use fault::{ConfigCause, ConfigFault};
pub use laws::values_fit_their_keys;
pub use line::{is_passed_over, is_text, read_lines};
pub use names::has_output;
pub use plugin::PluginConfig;
pub use read::read_config;
pub use seen::are_apart;
pub use table::Range;
pub use tool::Tool;
pub use value::{PluginKind, read_number};
pub use words::{UsageFault, Words, read_words};
