ghost use Rattle.std.specs.Prelude.{◌≡◌, ◌↔◌, IsTrue};
ghost use Rattle.outside_io.specs.Plan.{plan_of, after_call, FailsNext};

use acct_types::List;

/// The calls of one kind, counted, and the numbers, from 1, of those that are to fail.
#[derive(Debug, Drop)]
pub struct CallPlan {
    failing: List<u64>,
    calls: u64,
}

impl CallPlan {
    /// No call was made yet.
    pub fn new(failing: List<u64>) -> CallPlan
        ensures { result ≡ plan_of failing }
    {
        CallPlan { failing, calls: 0 }
    }

    /// Counts a call. Whether it is to fail.
    pub fn next_fails(&mut self) -> bool
        ensures answer { IsTrue result ↔ FailsNext self.old }
        ensures counted { self.new ≡ after_call self.old }
    {
        self.calls = self.calls.saturating_add(1);
        self.failing.as_slice().contains(&self.calls)
    }
}
