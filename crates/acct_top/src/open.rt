//! The capture and the outputs of a run, opened.

ghost use Rattle.std.specs.Prelude.{◌≡◌, ◌≢◌, ◌⊎◌, ◌+◌, [], List as Sequence, ℕ, All, length, Some, IsTrue, IsSome, IfOk, OnOk, IfErr, OnErr};
ghost use Rattle.outside_io.specs.Names.{begun, Puts};
ghost use Rattle.acct_top.specs.Answers.{JobReason};
ghost use Rattle.acct_top.specs.Conservation.{KeepsOthers, begin_of};
ghost use Rattle.acct_top.specs.Job.{IsReplay, capture_of};
ghost use Rattle.acct_top.specs.Run.{AreApart, AreBegunAll, IsNewSink, IsOutputFault, IsOpenFault, KeepsAllBut};
ghost use Rattle.outside_io.specs.States.{NoneFell};

use crate::Answer;
use acct_types::{List, NoMemory, Text};
use collect_core::Job;
use config_keys::{PluginConfig, PluginKind};
use outside_io::{Begin, IoFault, Place};
use std::alloc::Global;

/// The capture, the outputs of the plugins in their order, and the audit.
pub struct Opened<I, O> {
    pub input: I,
    pub outs: List<O>,
    pub audit: O,
}

/// What the output of a plugin begins with: a print plugin appends.
pub fn begin_of(kind: PluginKind) -> Begin
    ensures { result ≡ begin_of kind }
{
    match kind {
        PluginKind::Print => Begin::Append,
        PluginKind::Memory => Begin::Anew,
    }
}

// The answer where a name couldn't be opened.
fn open_fault(fault: IoFault, name: &Text) -> Answer
    ensures { (result ≡ Answer.NoMemory) ⊎ ((fault ≡ IoFault.Failed) × (result ≡ Answer.OpenFault name.now)) }
{
    match (fault, name.copy()) {
        (IoFault::Failed, Ok(name)) => Answer::OpenFault { name },
        _ => Answer::NoMemory,
    }
}

fn open_output<P: Place>(place: &mut P, name: &Text, begin: Begin) -> Result<P::Out, Answer>
    ensures opened { IfOk result (λ out. IsNewSink P.tells (P.Out.state out)) }
    ensures begun { IsTrue P.tells → OnOk result (Puts (P.state place.old).names (P.state place.new).names name.now (Some (begun begin (P.state place.old).names name.now))) }
    ensures unopened { IsTrue P.tells → OnErr result ((P.state place.new).names ≡ (P.state place.old).names) }
    ensures fault { IfErr result (λ answer. (answer ≡ Answer.NoMemory) ⊎ (answer ≡ Answer.OpenFault name.now)) }
    ensures reason { (job : Job) → IfErr result (λ answer. JobReason answer job (P.state place.old) (P.state place.new)) }
    ensures taken { IsTrue P.tells → (P.state place.new).taken ≡ (P.state place.old).taken }
    ensures none_fell { NoneFell (P.state place.old) (P.state place.new) }
{
    match place.open_out(name, begin) {
        Ok(out) => Ok(out),
        Err(fault) => Err(open_fault(fault, name)),
    }
}

// Closes an output to which nothing was written: it has what it began with.
fn close_empty<P: Place>(
    place: &mut P,
    name: &Text,
    begin: Begin,
    out: P::Out,
) -> Result<(), NoMemory>
    ensures begun { IsTrue P.tells → (P.Out.state out).held ≡ Some [] → OnOk result (Puts (P.state place.old).names (P.state place.new).names name.now
        (Some (begun begin (P.state place.old).names name.now))) }
    ensures others { IsTrue P.tells → (other : Sequence ℕ) → other ≢ name.now → (P.state place.new).names other ≡ (P.state place.old).names other }
    ensures none_fell { NoneFell (P.state place.old) (P.state place.new) }
{
    match place.close_out(name, begin, out) {
        Ok(()) => Ok(()),
        Err(IoFault::Failed) => Ok(()),
        Err(IoFault::NoMemory) => Err(NoMemory),
    }
}

// Opens the outputs of plugins in their order, and then the audit. Where one can't be opened those before it are closed, the last
// first, and have what they began with.
fn open_outputs<P: Place>(
    place: &mut P,
    job: &Job,
    plugins: &[PluginConfig],
    outs: &mut List<P::Out>,
) -> Result<P::Out, Answer>
    requires apart { AreApart job.now.config.acct_audit_file plugins.now }
    ensures audit { IfOk result (λ audit. IsNewSink P.tells (P.Out.state audit)) }
    ensures one_each { OnOk result (length outs.new ≡ length outs.old + length plugins.now) }
    ensures opened { All (λ out. IsNewSink P.tells (P.Out.state out)) outs.old
        → OnOk result (All (λ out. IsNewSink P.tells (P.Out.state out)) outs.new) }
    ensures none_opened { OnErr result (outs.new ≡ outs.old) }
    ensures begun { IsTrue P.tells → OnOk result (AreBegunAll job.now plugins.now (P.state place.old).names (P.state place.new).names) }
    ensures unopened { IsTrue P.tells → IfErr result (λ answer. IsOutputFault job.now plugins.now answer (P.state place.old).names (P.state place.new).names) }
    ensures others { IsTrue P.tells → KeepsAllBut job.now plugins.now (P.state place.old).names (P.state place.new).names }
    ensures reason { IfErr result (λ answer. JobReason answer job.now (P.state place.old) (P.state place.new)) }
    ensures taken { IsTrue P.tells → OnOk result ((P.state place.new).taken ≡ (P.state place.old).taken) }
    ensures none_fell { NoneFell (P.state place.old) (P.state place.new) }
{
    let [plugin, plugins @ ..] = plugins else {
        return open_output(place, &job.config.acct_audit_file, Begin::Anew);
    };
    let begin = begin_of(plugin.kind);
    let out = match open_output(place, &plugin.file, begin) {
        Ok(out) => out,
        Err(answer) => return Err(answer),
    };
    if outs.push(out).is_err() {
        return Err(Answer::NoMemory);
    }
    let answer = match open_outputs(place, job, plugins, outs) {
        Ok(audit) => return Ok(audit),
        Err(answer) => answer,
    };
    let Some(out) = outs.pop() else {
        return Err(answer);
    };
    match close_empty(place, &plugin.file, begin, out) {
        Ok(()) => Err(answer),
        Err(NoMemory) => Err(Answer::NoMemory),
    }
}

/// Opens the capture, the outputs of the plugins and the audit, in this order.
pub fn open_all<P: Place>(
    alloc: Global,
    place: &mut P,
    job: &Job,
    capture: &Text,
) -> Result<Opened<P::In, P::Out>, Answer>
    requires replay { IsReplay job.now }
    requires capture { capture.now ≡ capture_of job.now }
    ensures input { IsTrue P.tells → IfOk result (λ opened. IsSome ((P.state place.old).names capture.now)
        × ((P.In.state opened.input).left ≡ (P.state place.old).names capture.now)) }
    ensures fresh { IfOk result (λ opened. (P.In.state opened.input).faults ≡ 0) }
    ensures one_each { IfOk result (λ opened. length opened.outs ≡ length job.now.config.plugins) }
    ensures outputs { IfOk result (λ opened. All (λ out. IsNewSink P.tells (P.Out.state out)) opened.outs) }
    ensures audit { IfOk result (λ opened. IsNewSink P.tells (P.Out.state opened.audit)) }
    ensures begun { IsTrue P.tells → OnOk result (AreBegunAll job.now job.now.config.plugins (P.state place.old).names (P.state place.new).names) }
    ensures unopened { IsTrue P.tells → IfErr result (λ answer. IsOpenFault job.now answer (P.state place.old).names (P.state place.new).names) }
    ensures others { IsTrue P.tells → KeepsOthers job.now (P.state place.old).names (P.state place.new).names }
    ensures reason { IfErr result (λ answer. JobReason answer job.now (P.state place.old) (P.state place.new)) }
    ensures taken { IsTrue P.tells → OnOk result ((P.state place.new).taken ≡ (P.state place.old).taken) }
    ensures none_fell { NoneFell (P.state place.old) (P.state place.new) }
{
    let input = match place.open_in(capture) {
        Ok(input) => input,
        Err(fault) => return Err(open_fault(fault, capture)),
    };
    let mut outs = List::new(alloc);
    let answer = match open_outputs(place, job, job.config.plugins.as_slice(), &mut outs) {
        Ok(audit) => {
            return Ok(Opened { input, outs, audit });
        }
        Err(answer) => answer,
    };
    match place.close_in(capture, input) {
        Ok(()) => Err(answer),
        Err(NoMemory) => Err(Answer::NoMemory),
    }
}
