//! A run on one thread.

ghost use Rattle.std.specs.Prelude.{◌≡◌, ◌≢◌, ◌⊎◌, false, true, All, Any, IfOk, MatchBool, length, map, List as Sequence};
ghost use Rattle.acct_types.specs.declared.datagram.Datagram.{Datagram};
ghost use Rattle.outside_io.specs.Calls.{Calls};
ghost use Rattle.outside_io.specs.States.{SinkState};
ghost use Rattle.collect_core.specs.Course.{unrouted};
ghost use Rattle.collect_core.specs.Ends.{Answer, ending_of};
ghost use Rattle.collect_core.specs.Job.{collects};
ghost use Rattle.collect_core.specs.Most.{most_in};
ghost use Rattle.collect_core.specs.Run.{IsRun};
ghost use Rattle.collect_core.specs.Running.{HasEnded, HasRun};

use crate::plugins::finish_plugins;
use crate::running::{Running, begin, take_all};
use crate::{Job, Limits};
use acct_types::{Hashing, List, NoMemory};
use out_text::{Event, Totals, event_text};
use outside_io::{Datagrams, OutEnd, Sessions, SideEnd, Sink};
use plugin_work::PluginEnd;
use std::alloc::Global;

/// How a run ended: both sides, the plugins in the order of the configuration, the audit, and what was counted. Where memory ran out
/// nothing else is told.
#[derive(Drop)]
pub struct RunEnd<W: Sink> {
    pub flow: SideEnd,
    pub route: SideEnd,
    pub plugins: List<PluginEnd<W>>,
    pub audit: OutEnd,
    pub totals: Totals,
    pub memory: bool,
}

// What is told where memory ran out.
fn without_memory<W: Sink>(alloc: Global) -> RunEnd<W>
    ensures memory { result.memory ≡ true }
    ensures audit { result.audit ≡ OutEnd.Memory }
{
    RunEnd {
        flow: SideEnd::Ended,
        route: SideEnd::Ended,
        plugins: List::new(alloc),
        audit: OutEnd::Memory,
        totals: Totals {
            datagrams: 0,
            refused: 0,
            records: 0,
            dropped: 0,
            messages: 0,
            closed: 0,
        },
        memory: true,
    }
}

// Whether memory ran out for an output.
fn is_memory(end: OutEnd) -> bool
    ensures { MatchBool result (end ≡ OutEnd.Memory) (end ≢ OutEnd.Memory) }
{
    match end {
        OutEnd::Memory => true,
        OutEnd::Whole | OutEnd::Failed => false,
    }
}

// Whether memory ran out for a plugin.
fn wants_memory<W: Sink>(ends: &[PluginEnd<W>]) -> bool
    ensures { MatchBool result (Any (λ end. end.end ≡ OutEnd.Memory) ends.now) (All (λ end. end.end ≢ OutEnd.Memory) ends.now) }
{
    for end in ends {
        if is_memory(end.end) {
            return true;
        }
    }
    false
}

// Whether memory ran out for the audit or for a plugin.
fn ran_out<W: Sink>(audit: OutEnd, ends: &[PluginEnd<W>]) -> bool
    ensures { MatchBool result ((audit ≡ OutEnd.Memory) ⊎ Any (λ end. end.end ≡ OutEnd.Memory) ends.now)
        ((audit ≢ OutEnd.Memory) × All (λ end. end.end ≢ OutEnd.Memory) ends.now) }
{
    if is_memory(audit) {
        return true;
    }
    wants_memory(ends)
}

// Brings the outputs to their ends, the audit with what was counted.
fn finish<W: Sink, A: Sink>(
    alloc: Global,
    running: Running<W>,
    flow: SideEnd,
    audit: &mut A,
) -> Result<RunEnd<W>, NoMemory>
    ensures outputs { (job : _) (most : _) (starts : Sequence SinkState) (start : SinkState) (flows : Sequence Datagram)
        → HasRun job most starts start flows running.collector running.plugins.items running.log (A.state audit.old)
        → IfOk result (λ end. end.memory ≡ false → HasEnded job most starts start flows
        (map (ending_of W.state) end.plugins)
        end.audit (A.state audit.new) end.totals) }
    ensures memory { IfOk result (λ end. end.memory ≡ true → (end.audit ≡ OutEnd.Memory) ⊎ Any (λ plugin. plugin.end ≡ OutEnd.Memory) end.plugins) }
    ensures flow { IfOk result (λ end. end.flow ≡ flow) }
    ensures route { IfOk result (λ end. end.route ≡ SideEnd.Ended) }
{
    let Running {
        collector,
        plugins,
        mut log,
        left: _,
    } = running;
    event_text(&Event::End(collector.totals), &mut log.text)?;
    log.write(audit);
    let ends = finish_plugins(alloc, plugins)?;
    let memory = ran_out(log.end, ends.as_slice());
    Ok(RunEnd {
        flow,
        route: SideEnd::Ended,
        plugins: ends,
        audit: log.end,
        totals: collector.totals,
        memory,
    })
}

// The run, unless memory runs out before its outputs come to their ends.
fn run_flows<F: Datagrams, W: Sink, A: Sink>(
    alloc: Global,
    hashing: Hashing,
    job: &Job,
    flows: &mut F,
    outs: List<W>,
    audit: &mut A,
    limits: &Limits,
) -> Result<RunEnd<W>, NoMemory>
    requires collects { collects job.now.config.tool ≡ true }
    requires one_each { length outs ≡ length job.now.config.plugins }
    ensures run { IfOk result (λ end. end.memory ≡ false → IsRun job.now (most_in limits.now) unrouted F.call F.state flows.old flows.new
        (map W.state outs) (A.state audit.old) (A.state audit.new)
        (record {
          flow = end.flow;
          route = end.route;
          plugins = map (ending_of W.state) end.plugins;
          audit = end.audit;
          totals = end.totals;
        })) }
    ensures memory { IfOk result (λ end. end.memory ≡ true → (end.audit ≡ OutEnd.Memory) ⊎ Any (λ plugin. plugin.end ≡ OutEnd.Memory) end.plugins) }
    ensures calls { (answers : Sequence Answer) × Calls F.call flows.old flows.new answers }
{
    let mut running = begin(alloc, hashing, job, outs, limits)?;
    let flow = take_all(job, flows, &mut running, audit, limits)?;
    finish(alloc, running, flow, audit)
}

/// Reads the flow input to its end or a limit, and writes the outputs of the plugins and the audit, all on this thread. It waits for nobody
/// and always returns. No call is made on the routes: there are none so far.
pub fn run_alone<F: Datagrams, R: Sessions, W: Sink, A: Sink>(
    alloc: Global,
    hashing: Hashing,
    job: &Job,
    flows: &mut F,
    routes: &mut R,
    outs: List<W>,
    audit: &mut A,
    limits: &Limits,
) -> RunEnd<W>
    requires collects { collects job.now.config.tool ≡ true }
    requires no_bgp { job.now.config.bgp_daemon ≡ false }
    requires no_bmp { job.now.config.bmp_daemon ≡ false }
    requires one_each { length outs ≡ length job.now.config.plugins }
    ensures run { result.memory ≡ false → IsRun job.now (most_in limits.now) unrouted F.call F.state flows.old flows.new
        (map W.state outs) (A.state audit.old) (A.state audit.new)
        (record {
          flow = result.flow;
          route = result.route;
          plugins = map (ending_of W.state) result.plugins;
          audit = result.audit;
          totals = result.totals;
        }) }
    // Memory is said to have run out only where it did for an output.
    ensures memory { result.memory ≡ true → (result.audit ≡ OutEnd.Memory) ⊎ Any (λ plugin. plugin.end ≡ OutEnd.Memory) result.plugins }
    ensures calls { (answers : Sequence Answer) × Calls F.call flows.old flows.new answers }
    ensures routes { routes.new ≡ routes.old }
{
    match run_flows(alloc, hashing, job, flows, outs, audit, limits) {
        Ok(end) => end,
        Err(NoMemory) => without_memory(alloc),
    }
}
