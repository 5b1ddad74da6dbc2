//! A run between its start and its end.

ghost use Rattle.std.specs.Prelude.{◌≡◌, ◌≤◌, ◌<◌, ◌+◌, ◌^◌, ◌-◌, ◌++◌, ◌∷◌, ◌↔◌, [], List as Sequence, All, length, map, IfOk, IfSome, IsTrue, None, Err, Ok, OnErr, OnOk, true};
ghost use Rattle.acct_types.specs.declared.datagram.Datagram.{Datagram};
ghost use Rattle.outside_io.specs.Calls.{Calls, EndWith, handed_out};
ghost use Rattle.plugin_work.specs.Plugins.{PluginState};
ghost use Rattle.outside_io.specs.States.{SinkState};
ghost use Rattle.collect_core.specs.Due.{records_of};
ghost use Rattle.collect_core.specs.Ends.{Answer, EndsFlows};
ghost use Rattle.collect_core.specs.Flows.{AreWithin, event_octets};
ghost use Rattle.collect_core.specs.Job.{collects};
ghost use Rattle.collect_core.specs.Most.{most_in};
ghost use Rattle.collect_core.specs.Running.{GoesOn, HasRoom, HasRun, HasTakenAll, Stops};

use crate::give::give_loads;
use crate::log::{Log, append_events};
use crate::plugins::start_plugins;
use crate::{Core, CoreStep, Job, Limits};
use acct_types::{Addr, Datagram, Hashing, List, NoMemory};
use outside_io::{
    Datagrams, InputFault, SideEnd, Sink, Which, adjoining_spans_join, calls_of_datagrams_join,
    nothing_is_handed_out_in_no_time,
};
use plugin_work::Plugin;
use std::alloc::Global;

/// What is at work: the core, the plugins in their order, the audit's lines, and how many octets the events to come may have.
#[derive(Drop)]
pub struct Running<W: Sink> {
    pub collector: Core,
    pub plugins: Vec<Plugin<W>>,
    pub log: Log,
    pub left: u64,
}

/// What is at work before the first datagram, with a plugin over each sink. After NoMemory the sinks are gone.
pub fn begin<W: Sink>(
    alloc: Global,
    hashing: Hashing,
    job: &Job,
    outs: List<W>,
    limits: &Limits,
) -> Result<Running<W>, NoMemory>
    requires collects { collects job.now.config.tool ≡ true }
    requires one_each { length outs ≡ length job.now.config.plugins }
    ensures { (audit : SinkState) → IfOk result (λ running. GoesOn job.now (most_in limits.now) (map W.state outs) audit []
        running.collector running.plugins.items running.log audit running.left) }
{
    let plugins = start_plugins(alloc, hashing, job.config.plugins.as_slice(), outs)?;
    Ok(Running {
        collector: Core::new(alloc, hashing, job),
        plugins,
        log: Log::new(alloc),
        left: limits.octets,
    })
}

// The octets of the event that a datagram is in a capture.
fn event_octets(datagram: &Datagram) -> u64
    requires { length datagram.now.octets ≤ 65535 }
    ensures { result ≡ event_octets datagram.now }
{
    let header = match datagram.exporter {
        Addr::V4(_) => 19,
        Addr::V6(_) => 31,
    };
    header + datagram.octets.len() as u64
}

// Counts the next datagram, and says whether the records are more than the limit by it. Its lines are written before this returns.
fn take_datagram<W: Sink, A: Sink>(
    job: &Job,
    running: &mut Running<W>,
    audit: &mut A,
    limits: &Limits,
    datagram: &Datagram,
) -> Result<bool, NoMemory>
    requires fits { length datagram.now.octets ≤ 65535 }
    requires room { HasRoom (most_in limits.now) running.old.collector running.old.plugins.items }
    ensures run { (starts : Sequence SinkState) (start : SinkState) (flows : Sequence Datagram)
        → HasRun job.now (most_in limits.now) starts start flows running.old.collector running.old.plugins.items running.old.log (A.state audit.old)
        → OnOk result (HasRun job.now (most_in limits.now) starts start (flows ++ datagram.now ∷ []) running.new.collector running.new.plugins.items running.new.log
        (A.state audit.new)) }
    ensures passes { (starts : Sequence SinkState) (start : SinkState) (flows : Sequence Datagram)
        → HasRun job.now (most_in limits.now) starts start flows running.old.collector running.old.plugins.items running.old.log (A.state audit.old)
        → length (records_of job.now flows) ≤ limits.now.records
        → IfOk result (λ passes. IsTrue passes ↔ limits.now.records < length (records_of job.now (flows ++ datagram.now ∷ []))) }
    ensures left { running.new.left ≡ running.old.left }
{
    let room = limits.records - running.collector.totals.records;
    let CoreStep {
        events,
        loads,
        full,
    } = running.collector.datagram(job, datagram, room)?;
    append_events(&mut running.log.text, events.as_slice())?;
    running.log.write(audit);
    give_loads(&mut running.plugins, loads);
    Ok(full)
}

// Takes the next datagram where its event has room, and says which limit it passes.
fn take_next<W: Sink, A: Sink>(
    job: &Job,
    running: &mut Running<W>,
    audit: &mut A,
    limits: &Limits,
    datagram: &Datagram,
) -> Result<Option<Which>, NoMemory>
    requires fits { length datagram.now.octets ≤ 65535 }
    requires room { HasRoom (most_in limits.now) running.old.collector running.old.plugins.items }
    ensures next { (starts : Sequence SinkState) (start : SinkState) (handed : Sequence Datagram)
        → GoesOn job.now (most_in limits.now) starts start handed running.old.collector running.old.plugins.items running.old.log (A.state audit.old) running.old.left
        → result ≡ Ok None
        → GoesOn job.now (most_in limits.now) starts start (handed ++ datagram.now ∷ []) running.new.collector running.new.plugins.items running.new.log
        (A.state audit.new) running.new.left }
    ensures stops { (starts : Sequence SinkState) (start : SinkState) (handed : Sequence Datagram)
        → GoesOn job.now (most_in limits.now) starts start handed running.old.collector running.old.plugins.items running.old.log (A.state audit.old) running.old.left
        → IfOk result (λ passed. IfSome passed (λ which. Stops job.now (most_in limits.now) starts start (handed ++ datagram.now ∷ []) which
        running.new.collector running.new.plugins.items running.new.log (A.state audit.new))) }
    ensures left { result ≡ Ok None → running.new.left < running.old.left }
{
    let octets = event_octets(datagram);
    if octets > running.left {
        return Ok(Some(Which::Octets));
    }
    running.left -= octets;
    let passes = take_datagram(job, running, audit, limits, datagram)?;
    Ok(if passes { Some(Which::Records) } else { None })
}

// How the flow side ends where the input answers this fault.
fn ended_by(fault: InputFault) -> Result<SideEnd, NoMemory>
    ensures ends { (job : _) (most : _) (answers : Sequence Answer) → EndWith answers (Err fault) → AreWithin job most (handed_out answers) → IfOk result (EndsFlows job most answers) }
    ensures memory { OnErr result (fault ≡ InputFault.NoMemory) }
{
    match fault {
        InputFault::NoMemory => Err(NoMemory),
        InputFault::TooMany => Ok(SideEnd::TooMany(Which::Octets)),
        fault => Ok(SideEnd::Fault(fault)),
    }
}

/// Takes datagrams until the input ends or a limit is passed.
pub fn take_all<F: Datagrams, W: Sink, A: Sink>(
    job: &Job,
    flows: &mut F,
    running: &mut Running<W>,
    audit: &mut A,
    limits: &Limits,
) -> Result<SideEnd, NoMemory>
    requires begun { (starts : Sequence SinkState) × GoesOn job.now (most_in limits.now) starts (A.state audit.old) []
        running.old.collector running.old.plugins.items running.old.log (A.state audit.old) running.old.left }
    ensures calls { (answers : Sequence Answer) × Calls F.call flows.old flows.new answers }
    ensures run { (starts : Sequence SinkState) → GoesOn job.now (most_in limits.now) starts (A.state audit.old) []
        running.old.collector running.old.plugins.items running.old.log (A.state audit.old) running.old.left
        → IfOk result (HasTakenAll job.now (most_in limits.now) F.call flows.old flows.new
        (F.state flows.old) (F.state flows.new)
        starts (A.state audit.old) running.new.collector running.new.plugins.items running.new.log (A.state audit.new)) }
{
    nothing_is_handed_out_in_no_time::<Datagram>();
    adjoining_spans_join::<Datagram>();
    calls_of_datagrams_join::<F>();
    loop {
        let datagram = match flows.next() {
            Ok(Some(datagram)) => datagram,
            Ok(None) => return Ok(SideEnd::Ended),
            Err(fault) => return ended_by(fault),
        };
        if let Some(which) = take_next(job, running, audit, limits, &datagram)? {
            return Ok(SideEnd::TooMany(which));
        }
    }
}
