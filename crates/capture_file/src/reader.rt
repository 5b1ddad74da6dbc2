//! Captures read one event a call.

ghost use Rattle.std.specs.Prelude.{◌≡◌, ◌≤◌, ◌-◌, ◌^◌, ◌++◌, List, ℕ, Bool, [], length, true, false, IsTrue};
ghost use Rattle.outside_io.specs.Inputs.{append_told, given, prepend_told, EndsAs, EndsHere, HasInputCause, IfGiven};
ghost use Rattle.capture_file.specs.Standing.{at_start, is_open, past_magic};
ghost use Rattle.capture_file.specs.Reading.{event_of, fault_of, step_at, IsCall, Reads, ReadsOn};
ghost use Rattle.capture_file.specs.Reader.{end_answer, ending_of, io_answer, is_live, progress_after, progress_of, says_end, source_of, standing_of, told_of, is_live_after, IsFresh, IsInputCall, IsRead};
ghost use Rattle.capture_file.specs.declared.reader.Step.{Step};

use crate::flows::CaptureEnd;
use crate::read_event::ReadEvent;
use crate::reading::Reading;
use acct_types::{Datagram, NoMemory, RouteEvent};
use outside_io::{InputFault, IoFault, Source};
use std::alloc::Global;

/// What a reader hands out: the next event, or that the capture ends behind the one before.
#[derive(Debug, Drop)]
pub enum Step {
    Flow(Datagram),
    Route(RouteEvent),
    Ended,
}

impl ReadEvent for Step {
    ghost at = { step_at };

    fn read(alloc: Global, flows: bool, moment: u64, event: &[u8]) -> Result<Step, NoMemory> {
        if flows {
            Ok(Step::Flow(Datagram::read(alloc, flows, moment, event)?))
        } else {
            Ok(Step::Route(RouteEvent::read(alloc, flows, moment, event)?))
        }
    }
}

/// Whether a reader goes on: it does until it answered the capture's end, or that a read or memory failed.
#[derive(Clone, Copy, Debug, PartialEq, Eq)]
enum Progress {
    Live,
    Over(CaptureEnd),
    Failed,
}

/// Reads the capture that a source gives, of flows or of routes, one event a call. It keeps at most 65,566 octets ahead, the longest event.
#[derive(Debug, Drop)]
pub struct CaptureReader<S> {
    reading: Reading,
    source: S,
    progress: Progress,
}

fn fault_of(end: CaptureEnd) -> Option<InputFault>
    ensures { result ≡ fault_of end }
{
    match end {
        CaptureEnd::Ended => None,
        CaptureEnd::BadMagic => Some(InputFault::BadMagic),
        CaptureEnd::BadKind { place } => Some(InputFault::BadKind { place }),
        CaptureEnd::Torn { place } => Some(InputFault::Torn { place }),
        CaptureEnd::TooLong { place } => Some(InputFault::TooLong { place }),
        CaptureEnd::TooMany => Some(InputFault::TooMany),
    }
}

fn progress_after<E>(answer: &Result<Option<E>, InputFault>) -> Progress
    ensures { result ≡ progress_after answer.now }
{
    match answer {
        Ok(Some(_)) => Progress::Live,
        Ok(None) => Progress::Over(CaptureEnd::Ended),
        Err(InputFault::ReadFault) => Progress::Failed,
        Err(InputFault::BadMagic) => Progress::Over(CaptureEnd::BadMagic),
        Err(InputFault::BadKind { place }) => Progress::Over(CaptureEnd::BadKind { place: *place }),
        Err(InputFault::Torn { place }) => Progress::Over(CaptureEnd::Torn { place: *place }),
        Err(InputFault::TooLong { place }) => Progress::Over(CaptureEnd::TooLong { place: *place }),
        Err(InputFault::TooMany) => Progress::Over(CaptureEnd::TooMany),
        Err(InputFault::NoMemory) => Progress::Failed,
    }
}

// What a capture's end is to an input.
fn end_answer<E>(end: CaptureEnd) -> Result<Option<E>, InputFault>
    ensures { result ≡ end_answer end }
{
    match fault_of(end) {
        None => Ok(None),
        Some(fault) => Err(fault),
    }
}

fn io_answer<E>(fault: IoFault) -> Result<Option<E>, InputFault>
    ensures { result ≡ io_answer fault }
{
    match fault {
        IoFault::Failed => Err(InputFault::ReadFault),
        IoFault::NoMemory => Err(InputFault::NoMemory),
    }
}

fn read_event<E: ReadEvent, S: Source>(
    reading: &mut Reading,
    source: &mut S,
) -> Result<Option<E>, InputFault>
    ensures call { IsCall (E.at reading.old.flows) reading.old reading.new (S.state source.old).left (S.state source.new).left result }
    ensures few { length reading.new.ahead ≤ 65566 }
    ensures idle { is_open (past_magic reading.old) ≡ false → source.new ≡ source.old }
    ensures cause { HasInputCause (S.state source.old).faults (S.state source.new).faults result }
{
    match reading.look(source) {
        Err(fault) => io_answer(fault),
        Ok(Err(end)) => end_answer(end),
        Ok(Ok(width)) => match reading.take_event::<E>(width) {
            Ok(event) => Ok(Some(event)),
            Err(NoMemory) => Err(InputFault::NoMemory),
        },
    }
}

impl<S: Source> CaptureReader<S> {
    /// A reader of a capture of flows, or of routes, whose events may have at most `most` octets. Takes no memory, and no octet of the source.
    pub fn new(alloc: Global, source: S, flows: bool, most: u64) -> CaptureReader<S>
        requires { most ≤ 2 ^ 64 - 9 }
        ensures fresh { IsFresh flows result }
        ensures most { (standing_of result).most ≡ most }
        ensures source { source_of result ≡ source }
        ensures reads { Reads step_at (standing_of result) [] [] }
    {
        CaptureReader {
            reading: Reading::new(alloc, flows, most),
            source,
            progress: Progress::Live,
        }
    }

    /// Whether `next` may be called: no call answered the end or an error.
    pub fn live(&self) -> bool
        ensures { result ≡ is_live self.now }
    {
        self.progress == Progress::Live
    }

    fn next_event<E: ReadEvent>(&mut self) -> Result<Option<E>, InputFault>
        ensures call { IsCall (E.at (standing_of self.old).flows) (standing_of self.old) (standing_of self.new) (S.state (source_of self.old)).left (S.state (source_of self.new)).left result }
        ensures few { length (standing_of self.new).ahead ≤ 65566 }
        ensures progress { progress_of self.new ≡ progress_after result }
        ensures idle { is_open (past_magic (standing_of self.old)) ≡ false → source_of self.new ≡ source_of self.old }
        ensures cause { HasInputCause (S.state (source_of self.old)).faults (S.state (source_of self.new)).faults result }
    {
        let answer = read_event::<E, S>(&mut self.reading, &mut self.source);
        self.progress = progress_after(&answer);
        answer
    }

    /// The next event of the capture, or its end, or the fault that ends it. It reads from the source only while its octets don't decide that.
    /// After an error all octets that were taken are ahead still.
    pub fn next(&mut self) -> Result<Step, InputFault>
        requires { IsTrue (is_live self.old) }
        ensures call { IsCall (step_at (standing_of self.old).flows) (standing_of self.old) (standing_of self.new) (S.state (source_of self.old)).left (S.state (source_of self.new)).left (event_of result) }
        ensures live { is_live self.new ≡ is_live_after result }
        ensures idle { is_open (past_magic (standing_of self.old)) ≡ false → source_of self.new ≡ source_of self.old }
        ensures cause { HasInputCause (S.state (source_of self.old)).faults (S.state (source_of self.new)).faults result }
        ensures ahead { length (standing_of self.new).ahead ≤ 65566 }
        ensures reads { (octets : List ℕ) (steps : List Step) → Reads step_at (standing_of self.old) octets steps
            → ReadsOn step_at (standing_of self.new) (S.state (source_of self.old)).left (S.state (source_of self.new)).left octets steps (event_of result) }
    {
        match self.next_event::<Step>() {
            Ok(Some(step)) => Ok(step),
            Ok(None) => Ok(Step::Ended),
            Err(fault) => Err(fault),
        }
    }

    /// What it was made with.
    pub(crate) fn alloc(&self) -> Global {
        self.reading.alloc()
    }

    /// The source as it stands.
    pub fn into_source(self) -> S
        ensures { result ≡ source_of self }
    {
        let CaptureReader { source, .. } = self;
        source
    }

    /// The next event as an input gives it: once the capture ended, its end again; where a read or memory failed it reads on.
    pub(crate) fn hand_out<E: ReadEvent>(&mut self) -> Result<Option<E>, InputFault>
        ensures left { prepend_told (given result) (told_of (E.at (standing_of self.old).flows) (S.state (source_of self.new)).left self.new) ≡ told_of (E.at (standing_of self.old).flows) (S.state (source_of self.old)).left self.old }
        ensures ends { EndsAs (told_of (E.at (standing_of self.old).flows) (S.state (source_of self.old)).left self.old) (ending_of (S.state (source_of self.old)).left self.old) result }
        ensures ending { ending_of (S.state (source_of self.new)).left self.new ≡ ending_of (S.state (source_of self.old)).left self.old }
        ensures flows { (standing_of self.new).flows ≡ (standing_of self.old).flows }
        ensures call { IsInputCall (E.at (standing_of self.old).flows) S.state self.old self.new result }
        ensures ended { EndsHere (says_end (progress_of self.old)) (says_end (progress_of self.new)) result }
        ensures event { IsRead (E.at (standing_of self.old).flows) (standing_of self.old).moment (standing_of self.new).moment result }
        ensures cause { HasInputCause (S.state (source_of self.old)).faults (S.state (source_of self.new)).faults result }
    {
        match self.progress {
            Progress::Live => self.next_event::<E>(),
            Progress::Over(end) => end_answer(end),
            Progress::Failed => self.next_event::<E>(),
        }
    }
}
