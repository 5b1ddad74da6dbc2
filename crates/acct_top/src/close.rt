//! The outputs of a run, closed.

ghost use Rattle.std.specs.Prelude.{◌≡◌, ◌≢◌, ◌<◌, [], List as Sequence, ℕ, All, false, map, Some, option_map, IsTrue, IfOk, IfSome, OnErr};
ghost use Rattle.std.specs.Vec.Iter.{into_iter_items};
ghost use Rattle.acct_types.specs.declared.datagram.Datagram.{Datagram};
ghost use Rattle.collect_core.specs.declared.job.Job.{Job};
ghost use Rattle.outside_io.specs.Causes.{Rose};
ghost use Rattle.outside_io.specs.Names.{begun};
ghost use Rattle.plugin_work.specs.Sinks.{IsWritten};
ghost use Rattle.outside_io.specs.States.{SinkState};
ghost use Rattle.collect_core.specs.Course.{Course};
ghost use Rattle.collect_core.specs.Ends.{ending_of};
ghost use Rattle.acct_top.specs.Conservation.{KeepsOthers, begin_of};
ghost use Rattle.acct_top.specs.Run.{AreClosed, AreWritten, HaveOwnFiles, IsClosed, IsRunClosed, IsRunWritten};
ghost use Rattle.outside_io.specs.States.{NoneFell, PlaceState};

use crate::open::begin_of;
use acct_types::{List, NoMemory, Text};
use collect_core::{Job, drops_conserve};
use config_keys::PluginConfig;
use outside_io::{Begin, IoFault, OutEnd, Place};
use plugin_work::PluginEnd;
use std::alloc::Global;
use std::vec::IntoIter;

// An output that couldn't be closed isn't whole. Want of memory is the close's own alone.
fn unclosed(fault: IoFault) -> Result<bool, NoMemory>
    ensures ok { IfOk result (λ whole. (whole ≡ false) × (fault ≡ IoFault.Failed)) }
    ensures memory { OnErr result (fault ≡ IoFault.NoMemory) }
{
    match fault {
        IoFault::Failed => Ok(false),
        IoFault::NoMemory => Err(NoMemory),
    }
}

// Closes an output that stands so, and says whether it is whole.
fn close_output<P: Place>(
    place: &mut P,
    name: &Text,
    begin: Begin,
    out: P::Out,
    end: OutEnd,
) -> Result<bool, NoMemory>
    requires counted { end ≡ OutEnd.Failed → 0 < (P.Out.state out).faults }
    requires in_memory { end ≢ OutEnd.Memory }
    ensures closed { IsTrue P.tells → (text : Sequence ℕ) (start : SinkState) → start.held ≡ Some [] → IsWritten text end start (P.Out.state out)
        → IfOk result (λ whole. IsClosed (Rose ((P.state place.old).writes name.now) ((P.state place.new).writes name.now)) (begun begin (P.state place.old).names name.now) text whole ((P.state place.new).names name.now)) }
    ensures cause { IfOk result (λ whole. whole ≡ false → Rose ((P.state place.old).writes name.now) ((P.state place.new).writes name.now)) }
    ensures others { IsTrue P.tells → (other : Sequence ℕ) → other ≢ name.now → (P.state place.new).names other ≡ (P.state place.old).names other }
    ensures taken { IsTrue P.tells → (P.state place.new).taken ≡ (P.state place.old).taken }
    ensures none_fell { NoneFell (P.state place.old) (P.state place.new) }
{
    match place.close_out(name, begin, out) {
        Ok(()) => Ok(end == OutEnd::Whole),
        Err(fault) => unclosed(fault),
    }
}

// Closes the outputs of plugins in their order, whatever each answers, and says which is the first that isn't whole.
fn close_outputs<'a, P: Place>(
    place: &mut P,
    plugins: &'a [PluginConfig],
    ends: &mut IntoIter<PluginEnd<P::Out>, Global>,
) -> Result<Option<&'a Text>, NoMemory>
    requires apart { HaveOwnFiles plugins.now }
    requires counted { All (λ end. end.end ≡ OutEnd.Failed → 0 < (P.Out.state end.out).faults) (into_iter_items ends.old) }
    requires in_memory { All (λ end. end.end ≢ OutEnd.Memory) (into_iter_items ends.old) }
    ensures closed { IsTrue P.tells → (job : Job) (course : Course) (flows : Sequence Datagram) (before : PlaceState) (starts : Sequence SinkState)
        → AreWritten job course flows before (P.state place.old) plugins.now starts
        (map (ending_of P.Out.state) (into_iter_items ends.old))
        → IfOk result (λ unwritten. AreClosed job course flows before (P.state place.new)
        plugins.now (option_map (λ name. name.now) unwritten)) }
    ensures cause { IfOk result (λ unwritten. IfSome unwritten (λ name. Rose ((P.state place.old).writes name.now) ((P.state place.new).writes name.now))) }
    ensures others { IsTrue P.tells → (name : Sequence ℕ) → All (λ plugin. name ≢ plugin.file) plugins.now → (P.state place.new).names name ≡ (P.state place.old).names name }
    ensures taken { IsTrue P.tells → (P.state place.new).taken ≡ (P.state place.old).taken }
    ensures none_fell { NoneFell (P.state place.old) (P.state place.new) }
{
    drops_conserve();
    let [plugin, plugins @ ..] = plugins else {
        return Ok(None);
    };
    let Some(end) = ends.next() else {
        return Ok(None);
    };
    let first = close_output(place, &plugin.file, begin_of(plugin.kind), end.out, end.end);
    let others = close_outputs(place, plugins, ends);
    let whole = first?;
    let unwritten = others?;
    if whole {
        Ok(unwritten)
    } else {
        Ok(Some(&plugin.file))
    }
}

/// Closes the outputs of the plugins in their order and then the audit, whatever each answers, and says which is the first that isn't
/// whole. Want of memory goes before that.
pub fn close_all<'a, P: Place>(
    place: &mut P,
    job: &'a Job,
    plugins: List<PluginEnd<P::Out>>,
    audit: P::Out,
    audit_end: OutEnd,
) -> Result<Option<&'a Text>, NoMemory>
    requires apart { HaveOwnFiles job.now.config.plugins }
    requires audit_apart { All (λ plugin. plugin.file ≢ job.now.config.acct_audit_file) job.now.config.plugins }
    requires counted { All (λ end. end.end ≡ OutEnd.Failed → 0 < (P.Out.state end.out).faults) plugins }
    requires in_memory { All (λ end. end.end ≢ OutEnd.Memory) plugins }
    requires audit_counted { audit_end ≡ OutEnd.Failed → 0 < (P.Out.state audit).faults }
    requires audit_in_memory { audit_end ≢ OutEnd.Memory }
    ensures closed { IsTrue P.tells → (course : Course) (flows : Sequence Datagram) (before : PlaceState) (starts : Sequence SinkState) (audit_start : SinkState)
        → IsRunWritten job.now course flows before (P.state place.old) starts
        (map (ending_of P.Out.state) plugins)
        audit_end audit_start (P.Out.state audit)
        → IfOk result (λ unwritten. IsRunClosed job.now course flows before (P.state place.new)
        (option_map (λ name. name.now) unwritten)) }
    ensures cause { IfOk result (λ unwritten. IfSome unwritten (λ name. Rose ((P.state place.old).writes name.now) ((P.state place.new).writes name.now))) }
    ensures others { IsTrue P.tells → KeepsOthers job.now (P.state place.old).names (P.state place.new).names }
    ensures taken { IsTrue P.tells → (P.state place.new).taken ≡ (P.state place.old).taken }
    ensures none_fell { NoneFell (P.state place.old) (P.state place.new) }
{
    let mut ends = plugins.into_vec().into_iter();
    let first = close_outputs(place, job.config.plugins.as_slice(), &mut ends);
    let last = close_output(
        place,
        &job.config.acct_audit_file,
        Begin::Anew,
        audit,
        audit_end,
    );
    let unwritten = first?;
    let whole = last?;
    match unwritten {
        Some(name) => Ok(Some(name)),
        None => {
            if whole {
                Ok(None)
            } else {
                Ok(Some(&job.config.acct_audit_file))
            }
        }
    }
}
