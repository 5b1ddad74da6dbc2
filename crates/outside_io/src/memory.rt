ghost use Rattle.std.specs.Prelude.{◌≡◌, ◌≤◌, ◌<◌, ◌+◌, min, [], length, drop, Some, IfOk, IfErr, OnErr};
ghost use Rattle.std.specs.Io.{ReadsAtMost, WritesAtMost};
ghost use Rattle.outside_io.specs.Causes.{HasCause, IsStillUnlessFailed};
ghost use Rattle.outside_io.specs.Octets.{ReadTakes, EndsWhereDone, WriteAdds};
ghost use Rattle.outside_io.specs.Plan.{plan_of, after_call, FailsNext, FailsWhere};

use crate::{CallPlan, IoFault, Sink, Source};
use acct_types::{List, Octets};
use std::alloc::Global;

/// A source over octets in memory, of which some reads fail.
#[derive(Debug, Drop)]
pub struct MemorySource {
    octets: Octets,
    at: usize,
    most: u64,
    plan: CallPlan,
    faults: u64,
    ghost within: { at ≤ length octets },
    ghost moves: { 1 ≤ most },
}

impl MemorySource {
    ghost use Rattle.outside_io.specs.Memory.{source_left, source_most, source_plan, source_faults};

    /// Gives at most `most` octets a read. The reads that `failing` numbers, from 1, fail.
    pub fn new(octets: Octets, most: u64, failing: List<u64>) -> MemorySource
        requires { 1 ≤ most }
        ensures left { source_left result ≡ octets }
        ensures most { source_most result ≡ most }
        ensures plan { source_plan result ≡ plan_of failing }
        ensures fresh { source_faults result ≡ 0 }
    {
        MemorySource {
            octets,
            at: 0,
            most,
            plan: CallPlan::new(failing),
            faults: 0,
        }
    }

    /// How many octets are left.
    pub fn left_len(&self) -> usize
        ensures { result ≡ length (source_left self.now) }
    {
        self.octets.len() - self.at
    }

    /// How often a read failed.
    pub fn faults(&self) -> u64
        ensures { result ≡ source_faults self.now }
    {
        self.faults
    }
}

impl Source for MemorySource {
    ghost use Rattle.outside_io.specs.Memory.{source_left, source_most, source_plan, source_faults, source_state};

    ghost state = { source_state };

    /// Gives as many octets as `buf`, the source and `most` allow, or fails where its plan says so.
    fn read(&mut self, buf: &mut [u8]) -> Result<usize, IoFault>
        ensures bound { ReadsAtMost result buf.new }
        ensures octets { ReadTakes (Some (source_left self.old)) (Some (source_left self.new)) result buf.new }
        ensures end { EndsWhereDone (Some (source_left self.old)) result buf.new }
        ensures cause { HasCause (source_faults self.old) (source_faults self.new) result }
        ensures count { IfOk result (λ n.
            n ≡ min (min (length buf.new) (length (source_left self.old))) (source_most self.old)) }
        ensures fails { FailsWhere (FailsNext (source_plan self.old)) result }
        ensures failed { IfErr result (λ fault. fault ≡ IoFault.Failed) }
        ensures kept { IfOk result (λ _. source_faults self.new ≡ source_faults self.old) }
        ensures plan { source_plan self.new ≡ after_call (source_plan self.old) }
        ensures most { source_most self.new ≡ source_most self.old }
    {
        if self.plan.next_fails() {
            self.faults = self.faults.saturating_add(1);
            return Err(IoFault::Failed);
        }
        let (_, left) = self.octets.as_slice().split_at(self.at);
        let count = buf.len().min(left.len()).min(self.most as usize);
        buf[..count].copy_from_slice(&left[..count]);
        self.at += count;
        Ok(count)
    }
}

/// A sink in memory, of which some writes fail.
#[derive(Debug, Drop)]
pub struct MemorySink {
    held: Octets,
    most: u64,
    plan: CallPlan,
    faults: u64,
    ghost moves: { 1 ≤ most },
}

impl MemorySink {
    ghost use Rattle.outside_io.specs.Memory.{sink_held, sink_most, sink_plan, sink_faults};

    /// Takes at most `most` octets a write. The writes that `failing` numbers, from 1, fail.
    pub fn new(alloc: Global, most: u64, failing: List<u64>) -> MemorySink
        requires { 1 ≤ most }
        ensures held { sink_held result ≡ [] }
        ensures most { sink_most result ≡ most }
        ensures plan { sink_plan result ≡ plan_of failing }
        ensures fresh { sink_faults result ≡ 0 }
    {
        MemorySink {
            held: Octets::new(alloc),
            most,
            plan: CallPlan::new(failing),
            faults: 0,
        }
    }

    /// What it holds.
    pub fn held(&self) -> &Octets
        ensures { result.now ≡ sink_held self.now }
    {
        &self.held
    }

    /// How often a write failed.
    pub fn faults(&self) -> u64
        ensures { result ≡ sink_faults self.now }
    {
        self.faults
    }
}

impl Sink for MemorySink {
    ghost use Rattle.outside_io.specs.Memory.{sink_held, sink_most, sink_plan, sink_faults, sink_state};

    ghost state = { sink_state };

    /// Takes as many octets as `most` allows, or fails where its plan says so. After an error it holds what it held.
    fn write(&mut self, piece: &[u8]) -> Result<usize, IoFault>
        ensures bound { WritesAtMost result piece.now }
        ensures octets { WriteAdds (Some (sink_held self.old)) (Some (sink_held self.new)) result piece.now }
        ensures progress { IfOk result (λ n. 0 < length piece.now → 0 < n) }
        ensures cause { HasCause (sink_faults self.old) (sink_faults self.new) result }
        ensures still { IsStillUnlessFailed (sink_faults self.old) (sink_faults self.new) result }
        ensures count { IfOk result (λ n. n ≡ min (length piece.now) (sink_most self.old)) }
        ensures err { OnErr result (sink_held self.new ≡ sink_held self.old) }
        ensures fails { FailsWhere (FailsNext (sink_plan self.old)) result }
        ensures kept { IfOk result (λ _. sink_faults self.new ≡ sink_faults self.old) }
        ensures plan { sink_plan self.new ≡ after_call (sink_plan self.old) }
        ensures most { sink_most self.new ≡ sink_most self.old }
    {
        if self.plan.next_fails() {
            self.faults = self.faults.saturating_add(1);
            return Err(IoFault::Failed);
        }
        let count = piece.len().min(self.most as usize);
        self.held.extend(&piece[..count])?;
        Ok(count)
    }
}
