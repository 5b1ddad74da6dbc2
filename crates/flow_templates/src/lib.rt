//! What flow datagrams give, or why they are refused, and the templates of NetFlow: how they are read, where they are kept, and how
//! a datagram's changes are staged.
#![tactic(auto)]

mod change;
mod decoded;
mod domain_templates;
mod elements;
pub mod laws;
mod noted;
mod rate;
mod reading;
mod refusal;
mod staged;
mod store;
mod template;

pub use change::{TemplateChange, changes_add_up};
pub use decoded::{Notice, NoticeCause, RawDecoded, RawRecord};
pub use rate::{LearnedRate, OptionStore, RateKey, rates_add_up};
pub use reading::{judge_template, read_options_template, read_template};
pub use refusal::{Cause, Undecodable};
pub use staged::{Staged, Stores};
pub use store::TemplateStore;
pub use template::{
    Domain, FieldSpec, Template, TemplateFault, TemplateKey, TemplateTurn, TemplateWhat,
};
