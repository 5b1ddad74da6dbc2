ghost use Rattle.std.specs.Prelude.{◌≡◌, ◌++◌, [], false, IfOk, IfNone};
ghost use Rattle.outside_io.specs.EventQueue.{queue_left, queue_moment, queue_ended, queue_plan, queue_faults};
ghost use Rattle.outside_io.specs.Inputs.{given, EndsHere, MatchGiven, HasInputCause};
ghost use Rattle.outside_io.specs.Plan.{plan_of, after_call, FailsNext, ReadFailsWhere};

use crate::{CallPlan, InputEvent, InputFault};
use acct_types::List;

/// Events in memory that are handed out one a call, of which some calls fail.
#[derive(Debug, Drop)]
pub struct EventQueue<T> {
    // The next one stands last.
    backwards: List<T>,
    moment: u64,
    ended: bool,
    plan: CallPlan,
    faults: u64,
}

impl<T> EventQueue<T> {
    /// The calls of `next` that `failing` numbers, from 1, fail. Takes no memory.
    pub fn new(events: List<T>, failing: List<u64>) -> EventQueue<T>
        ensures left { queue_left result ≡ events }
        ensures moment { queue_moment result ≡ 0 }
        ensures goes_on { queue_ended result ≡ false }
        ensures plan { queue_plan result ≡ plan_of failing }
        ensures fresh { queue_faults result ≡ 0 }
    {
        let mut items = events.into_vec();
        items.reverse();
        EventQueue {
            backwards: List::from_vec(items),
            moment: 0,
            ended: false,
            plan: CallPlan::new(failing),
            faults: 0,
        }
    }
}

impl<T: InputEvent> EventQueue<T> {
    /// The next event, None where none is left.
    pub fn next(&mut self) -> Result<Option<T>, InputFault>
        ensures left { given result ++ queue_left self.new ≡ queue_left self.old }
        ensures end { IfOk result (λ next. IfNone next (queue_left self.old ≡ [])) }
        ensures ended { EndsHere (queue_ended self.old) (queue_ended self.new) result }
        ensures moment { MatchGiven result (λ event. queue_moment self.new ≡ T.moment_of event) (queue_moment self.new ≡ queue_moment self.old) }
        ensures cause { HasInputCause (queue_faults self.old) (queue_faults self.new) result }
        ensures kept { IfOk result (λ _. queue_faults self.new ≡ queue_faults self.old) }
        ensures fails { ReadFailsWhere (FailsNext (queue_plan self.old)) result }
        ensures plan { queue_plan self.new ≡ after_call (queue_plan self.old) }
    {
        if self.plan.next_fails() {
            self.faults = self.faults.saturating_add(1);
            return Err(InputFault::ReadFault);
        }
        let Some(event) = self.backwards.pop() else {
            self.ended = true;
            return Ok(None);
        };
        self.moment = event.moment();
        Ok(Some(event))
    }
}
