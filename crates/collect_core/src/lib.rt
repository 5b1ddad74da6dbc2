//! The core of a collector, and its run on one thread.
#![tactic(auto)]

mod collector;
mod give;
mod job;
mod laws;
mod limits;
mod loads;
mod log;
mod plugins;
mod run;
mod running;

pub use collector::{Core, CoreStep};
pub use job::{Job, collects};
pub use laws::{
    drops_conserve, loads_are_entries, loads_are_numbered, runs_without_routes_are_lawful,
};
pub use limits::Limits;
pub use run::{RunEnd, run_alone};
