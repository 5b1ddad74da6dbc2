//! The collector's run, from the words of the command line to its outputs.
#![tactic(auto)]

mod answer;
mod close;
mod in_memory;
mod open;
mod read_job;
mod read_map;
mod read_text;
mod run;
mod say;
mod top;

pub use answer::{Answer, AnyCause, BadCause, status};
pub use in_memory::account_in_memory;
pub use say::say_answer;
pub use top::{account_alone, one_job, one_outcome};
