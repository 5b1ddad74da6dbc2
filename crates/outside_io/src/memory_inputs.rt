ghost use Rattle.std.specs.Prelude.{◌≡◌, ◌≤◌, ◌∷◌, [], length, true, false, Some, None, IfOk, MatchResult};
ghost use Rattle.outside_io.specs.CanCome.{flows_can_come, route_events_can_come};
ghost use Rattle.outside_io.specs.Causes.{HasCause};
ghost use Rattle.outside_io.specs.EventQueue.{queue_left, queue_moment, queue_plan, queue_faults};
ghost use Rattle.outside_io.specs.Inputs.{prepend_told, append_told, given, MovesOn, IfGiven, EndsAs, EndsHere, HasInputCause, OnlyOfCapture};
ghost use Rattle.outside_io.specs.Plan.{plan_of, after_call, FailsNext, FailsWhere, ReadFailsWhere};
ghost use Rattle.acct_types.specs.RouteEvents.{act_octets};

use crate::event_queue::EventQueue;
use crate::{CallPlan, Datagrams, Flag, InputFault, IoFault, Sessions};
use acct_types::{Addr, Datagram, List, NoMemory, Octets, Reply, RouteEvent, Side};
use std::alloc::Global;

/// Datagrams in memory, of which some calls fail. They end by themselves.
#[derive(Debug, Drop)]
pub struct MemoryFlows {
    datagrams: EventQueue<Datagram>,
    ghost can_come: { flows_can_come (queue_moment datagrams) (queue_left datagrams) ≡ true },
}

impl MemoryFlows {
    ghost use Rattle.outside_io.specs.MemoryInputs.{flows_left, flows_moment, flows_ended, flows_plan, flows_faults};

    /// Hands out the datagrams in order. The calls of `next` that `failing` numbers, from 1, fail. Takes no memory.
    pub fn new(datagrams: List<Datagram>, failing: List<u64>) -> MemoryFlows
        requires { flows_can_come 0 datagrams ≡ true }
        ensures left { flows_left result ≡ datagrams }
        ensures moment { flows_moment result ≡ 0 }
        ensures goes_on { flows_ended result ≡ false }
        ensures plan { flows_plan result ≡ plan_of failing }
        ensures fresh { flows_faults result ≡ 0 }
    {
        MemoryFlows {
            datagrams: EventQueue::new(datagrams, failing),
        }
    }
}

impl Datagrams for MemoryFlows {
    ghost use Rattle.outside_io.specs.MemoryInputs.{flows_left, flows_moment, flows_ended, flows_plan, flows_faults, flows_state};

    ghost state = { flows_state };

    /// Fails where its plan says so, and nowhere else.
    fn next(&mut self) -> Result<Option<Datagram>, InputFault>
        ensures left { prepend_told (given result) (Some (flows_left self.new)) ≡ Some (flows_left self.old) }
        ensures handed { None ≡ append_told None (given result) }
        ensures ends { EndsAs (Some (flows_left self.old)) None result }
        ensures ended { EndsHere (flows_ended self.old) (flows_ended self.new) result }
        ensures moment { MovesOn (λ d. d.moment) (flows_moment self.old) (flows_moment self.new) result }
        ensures fits { IfGiven result (λ d. length d.octets ≤ 65535) }
        ensures cause { HasInputCause (flows_faults self.old) (flows_faults self.new) result }
        ensures of_capture { OnlyOfCapture false result }
        ensures kept { IfOk result (λ _. flows_faults self.new ≡ flows_faults self.old) }
        ensures fails { ReadFailsWhere (FailsNext (flows_plan self.old)) result }
        ensures plan { flows_plan self.new ≡ after_call (flows_plan self.old) }
    {
        self.datagrams.next()
    }
}

/// Sessions in memory, of which some calls fail. They end by themselves, and keep the replies.
#[derive(Debug, Drop)]
pub struct MemorySessions {
    alloc: Global,
    events: EventQueue<RouteEvent>,
    sent: List<Reply>,
    reply_plan: CallPlan,
    reply_faults: u64,
    ghost can_come: { route_events_can_come (queue_moment events) (queue_left events) ≡ true },
}

impl MemorySessions {
    ghost use Rattle.outside_io.specs.MemoryInputs.{sessions_left, sessions_moment, sessions_ended, sessions_plan, sessions_faults};
    ghost use Rattle.outside_io.specs.MemoryInputs.{sessions_sent, sessions_reply_plan, sessions_reply_faults};

    /// Hands out the events in order. The calls of `next` that `failing_next` numbers, from 1, fail, and those of
    /// `reply` that `failing_replies` numbers. Takes no memory.
    pub fn new(
        alloc: Global,
        events: List<RouteEvent>,
        failing_next: List<u64>,
        failing_replies: List<u64>,
    ) -> MemorySessions
        requires { route_events_can_come 0 events ≡ true }
        ensures left { sessions_left result ≡ events }
        ensures moment { sessions_moment result ≡ 0 }
        ensures goes_on { sessions_ended result ≡ false }
        ensures plan { sessions_plan result ≡ plan_of failing_next }
        ensures fresh { sessions_faults result ≡ 0 }
        ensures sent { sessions_sent result ≡ [] }
        ensures reply_plan { sessions_reply_plan result ≡ plan_of failing_replies }
        ensures reply_fresh { sessions_reply_faults result ≡ 0 }
    {
        MemorySessions {
            alloc,
            events: EventQueue::new(events, failing_next),
            sent: List::new(alloc),
            reply_plan: CallPlan::new(failing_replies),
            reply_faults: 0,
        }
    }

    /// The replies sent so far.
    pub fn sent(&self) -> &List<Reply>
        ensures { result.now ≡ sessions_sent self.now }
    {
        &self.sent
    }
}

impl Sessions for MemorySessions {
    ghost use Rattle.outside_io.specs.MemoryInputs.{sessions_left, sessions_moment, sessions_ended, sessions_plan, sessions_faults};
    ghost use Rattle.outside_io.specs.MemoryInputs.{sessions_sent, sessions_reply_plan, sessions_reply_faults, sessions_state, sessions_replies};

    ghost state = { sessions_state };

    ghost replies = { sessions_replies };

    /// Fails where its plan says so, and nowhere else.
    fn next(&mut self) -> Result<Option<RouteEvent>, InputFault>
        ensures left { prepend_told (given result) (Some (sessions_left self.new)) ≡ Some (sessions_left self.old) }
        ensures handed { None ≡ append_told None (given result) }
        ensures ends { EndsAs (Some (sessions_left self.old)) None result }
        ensures ended { EndsHere (sessions_ended self.old) (sessions_ended self.new) result }
        ensures moment { MovesOn (λ e. e.moment) (sessions_moment self.old) (sessions_moment self.new) result }
        ensures fits { IfGiven result (λ e. length (act_octets e.act) ≤ 65535) }
        ensures cause { HasInputCause (sessions_faults self.old) (sessions_faults self.new) result }
        ensures of_capture { OnlyOfCapture false result }
        ensures replies { sessions_replies self.new ≡ sessions_replies self.old }
        ensures kept { IfOk result (λ _. sessions_faults self.new ≡ sessions_faults self.old) }
        ensures fails { ReadFailsWhere (FailsNext (sessions_plan self.old)) result }
        ensures plan { sessions_plan self.new ≡ after_call (sessions_plan self.old) }
        ensures reply_plan { sessions_reply_plan self.new ≡ sessions_reply_plan self.old }
    {
        self.events.next()
    }

    /// Keeps the reply, or fails where its plan says so.
    fn reply(&mut self, side: Side, to: &Addr, octets: &Octets) -> Result<(), IoFault>
        ensures sent { MatchResult result
            (λ _. Some (sessions_sent self.new) ≡
            append_told (Some (sessions_sent self.old)) (record { side = side; to = to.now; octets = octets.now } ∷ []))
            (λ _. Some (sessions_sent self.new) ≡ Some (sessions_sent self.old)) }
        ensures cause { HasCause (sessions_reply_faults self.old) (sessions_reply_faults self.new) result }
        ensures input { sessions_state self.new ≡ sessions_state self.old }
        ensures kept { IfOk result (λ _. sessions_reply_faults self.new ≡ sessions_reply_faults self.old) }
        ensures fails { FailsWhere (FailsNext (sessions_reply_plan self.old)) result }
        ensures plan { sessions_plan self.new ≡ sessions_plan self.old }
        ensures reply_plan { sessions_reply_plan self.new ≡ after_call (sessions_reply_plan self.old) }
    {
        if self.reply_plan.next_fails() {
            self.reply_faults = self.reply_faults.saturating_add(1);
            return Err(IoFault::Failed);
        }
        let octets = octets.copy()?;
        self.sent.push(Reply {
            side,
            to: *to,
            octets,
        })?;
        Ok(())
    }

    fn stopper(&self) -> Result<Flag, NoMemory> {
        Flag::new(self.alloc)
    }
}
