//! The audit of a run, as it is written.

ghost use Rattle.std.specs.Prelude.{◌≡◌, ◌++◌, [], List as Sequence, ℕ, All, OnOk};
ghost use Rattle.out_text.specs.Events.{IsNamed, events_text};
ghost use Rattle.plugin_work.specs.Sinks.{IsWritten};
ghost use Rattle.outside_io.specs.States.{SinkState};

use acct_types::{NoMemory, Octets};
use out_text::{Event, event_text};
use outside_io::{IoFault, OutEnd, Sink, write_all};
use std::alloc::Global;

/// The lines that aren't written yet, and how the output stands.
#[derive(Drop)]
pub struct Log {
    pub text: Octets,
    pub end: OutEnd,
}

// Writes a text behind those that are written.
fn write_text<A: Sink>(audit: &mut A, text: &[u8]) -> OutEnd
    ensures { (start : SinkState) (before : Sequence ℕ) → IsWritten before OutEnd.Whole start (A.state audit.old)
        → IsWritten (before ++ text.now) result start (A.state audit.new) }
{
    match write_all(audit, text) {
        Ok(()) => OutEnd::Whole,
        Err(IoFault::Failed) => OutEnd::Failed,
        Err(IoFault::NoMemory) => OutEnd::Memory,
    }
}

/// Appends the lines of events.
pub fn append_events(text: &mut Octets, events: &[Event]) -> Result<(), NoMemory>
    requires { All IsNamed events.now }
    ensures { OnOk result (text.new ≡ text.old ++ events_text events.now) }
{
    for event in events {
        event_text(event, text)?;
    }
    Ok(())
}

impl Log {
    pub fn new(alloc: Global) -> Log
        ensures text { result.text ≡ [] }
        ensures end { result.end ≡ OutEnd.Whole }
    {
        Log {
            text: Octets::new(alloc),
            end: OutEnd::Whole,
        }
    }

    /// Writes the lines. Once a write failed, or memory ran out, no line is written any more.
    pub fn write<A: Sink>(&mut self, audit: &mut A)
        ensures written { (start : SinkState) (text : Sequence ℕ) → IsWritten text self.old.end start (A.state audit.old)
            → IsWritten (text ++ self.old.text) self.new.end start (A.state audit.new) }
        ensures text { self.new.text ≡ [] }
    {
        if let OutEnd::Whole = self.end {
            self.end = write_text(audit, self.text.as_slice());
        }
        self.text.truncate(0);
    }
}
