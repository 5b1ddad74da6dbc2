//! The texts that plugins write, and the lines of the audit.
#![tactic(auto)]

mod cell_text;
mod csv_lines;
mod event;
mod event_reading;
mod field;
mod formatted_lines;
mod json_lines;
mod purge;
mod row;

pub use event::{Event, Totals, event_text, lines_have_one_list, one_event};
pub use event_reading::{LineFault, read_event};
pub use json_lines::members_are_in_order;
pub use purge::purge_text;
