//! Captures: datagrams or route events with their moments and peers, kept in a file.
#![tactic(auto)]

mod event;
mod flows;
mod inputs;
pub mod laws;
mod read_event;
mod reader;
mod reading;
mod window;
mod write;

pub use flows::CaptureEnd;
pub use inputs::{CaptureFlows, CaptureRoutes};
pub use reader::{CaptureReader, Step};
pub use write::{write_flow, write_magic, write_route};
