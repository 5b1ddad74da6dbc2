//! A job, done over a place.

ghost use Rattle.std.specs.Prelude.{◌≡◌, ◌⊎◌, length, map, option_map, true, IsTrue, IsSome, IfOk};
ghost use Rattle.outside_io.specs.Causes.{Rose};
ghost use Rattle.collect_core.specs.Ends.{ending_of};
ghost use Rattle.acct_top.specs.Answers.{HoldsOfJob, JobReason};
ghost use Rattle.acct_top.specs.Conservation.{KeepsOthers};
ghost use Rattle.acct_top.specs.Job.{IsReplay};
ghost use Rattle.acct_top.specs.Run.{IsAnswer, RunsOver};
ghost use Rattle.outside_io.specs.States.{NoneFell};

use crate::Answer;
use crate::answer::side_answer;
use crate::close::close_all;
use crate::open::{Opened, open_all};
use acct_types::{Hashing, List, NoMemory, Text};
use capture_file::laws::{flows_hand_out_what_they_took, written_datagrams_fit_the_limit};
use capture_file::{CaptureFlows, CaptureReader};
use collect_core::{Job, Limits, RunEnd, run_alone, runs_without_routes_are_lawful};
use outside_io::{InputFault, NoRoutes, Place, SideEnd};
use std::alloc::Global;

/// The most octets that the events of a capture may have.
const MOST_EVENTS: u64 = 1 << 40;

// The answer where a name couldn't be written.
fn write_fault(name: &Text) -> Answer
    ensures { (result ≡ Answer.NoMemory) ⊎ (result ≡ Answer.WriteFault name.now) }
{
    match name.copy() {
        Ok(name) => Answer::WriteFault { name },
        Err(NoMemory) => Answer::NoMemory,
    }
}

// Runs over the capture, and closes it.
fn run_over<P: Place>(
    alloc: Global,
    hashing: Hashing,
    place: &mut P,
    job: &Job,
    capture: &Text,
    input: P::In,
    outs: List<P::Out>,
    audit: &mut P::Out,
) -> Result<RunEnd<P::Out>, NoMemory>
    requires replay { IsReplay job.now }
    requires one_each { length outs ≡ length job.now.config.plugins }
    requires left { IsTrue P.tells → IsSome ((P.state place.old).names capture.now) × ((P.In.state input).left ≡ (P.state place.old).names capture.now) }
    requires fresh { (P.In.state input).faults ≡ 0 }
    ensures run { IfOk result (λ end. RunsOver job.now P.tells ((P.state place.old).names capture.now)
        ((P.state place.old).taken capture.now) ((P.state place.new).taken capture.now)
        (map P.Out.state outs) (P.Out.state audit.old) (P.Out.state audit.new)
        end.flow (map (ending_of P.Out.state) end.plugins) end.audit) }
    ensures failed { IfOk result (λ end. end.flow ≡ SideEnd.Fault InputFault.ReadFault
        → Rose ((P.state place.old).reads capture.now) ((P.state place.new).reads capture.now)) }
    ensures names { IsTrue P.tells → (P.state place.new).names ≡ (P.state place.old).names }
    ensures none_fell { NoneFell (P.state place.old) (P.state place.new) }
{
    flows_hand_out_what_they_took::<P::In>();
    written_datagrams_fit_the_limit();
    let reader = CaptureReader::new(alloc, input, true, MOST_EVENTS);
    let mut flows = CaptureFlows::new(reader);
    let mut routes = NoRoutes::new(alloc);
    let end = run_alone(
        alloc,
        hashing,
        job,
        &mut flows,
        &mut routes,
        outs,
        audit,
        &Limits::FULL,
    );
    // A close that found no memory counts no failed read, so its answer goes first.
    place.close_in(capture, flows.into_source())?;
    if end.memory {
        return Err(NoMemory);
    }
    Ok(end)
}

// The answer of a run whose flow side ended so, and of whose outputs this is the first that isn't whole.
fn answer_of(flow: SideEnd, unwritten: Option<&Text>) -> Answer
    ensures { IsAnswer result flow (option_map (λ name. name.now) unwritten.entry) }
{
    match (side_answer(flow), unwritten) {
        (Answer::Done, Some(name)) => write_fault(name),
        (answer, _) => answer,
    }
}

/// Does the job.
pub fn run_job<P: Place>(alloc: Global, hashing: Hashing, place: &mut P, job: &Job) -> Answer
    requires replay { IsReplay job.now }
    ensures holds { IsTrue P.tells → HoldsOfJob result job.now (P.state place.old) (P.state place.new) }
    ensures others { IsTrue P.tells → KeepsOthers job.now (P.state place.old).names (P.state place.new).names }
    ensures reason { JobReason result job.now (P.state place.old) (P.state place.new) }
    ensures none_fell { NoneFell (P.state place.old) (P.state place.new) }
{
    runs_without_routes_are_lawful();
    let capture = job.config.acct_flow_capture.as_ref().unwrap();
    let Opened { input, outs, audit } = match open_all(alloc, place, job, capture) {
        Ok(opened) => opened,
        Err(answer) => return answer,
    };
    let mut audit = audit;
    let Ok(end) = run_over(alloc, hashing, place, job, capture, input, outs, &mut audit) else {
        return Answer::NoMemory;
    };
    let Ok(unwritten) = close_all(place, job, end.plugins, audit, end.audit) else {
        return Answer::NoMemory;
    };
    answer_of(end.flow, unwritten)
}
