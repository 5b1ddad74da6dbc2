//! What the collector reads and writes, behind traits that say what a call did.
#![tactic(auto)]

mod call_plan;
mod ends;
mod event;
mod event_queue;
mod fault;
mod file_place;
mod flag;
mod input_fault;
mod inputs;
mod memory;
mod memory_inputs;
mod memory_place;
mod named;
mod no_routes;
mod shape;
mod spans;
mod traits;
mod whole;

pub use call_plan::CallPlan;
pub use ends::{OutEnd, SideEnd, Which};
pub use event::{InputEvent, can_come};
pub use fault::{Begin, IoFault};
pub use file_place::{FilePlace, FileSource, SayOut};
pub use flag::Flag;
pub use input_fault::InputFault;
pub use inputs::{Datagrams, Sessions};
pub use memory::{MemorySink, MemorySource};
pub use memory_inputs::{MemoryFlows, MemorySessions};
pub use memory_place::MemoryPlace;
pub use no_routes::NoRoutes;
pub use spans::{
    adjoining_spans_join, calls_of_datagrams_join, calls_of_sessions_join,
    nothing_is_handed_out_in_no_time, what_is_handed_out_is_unique,
};
pub use traits::{Place, Sink, Source};
pub use whole::{ReadOctets, read_all, read_name, write_all};
