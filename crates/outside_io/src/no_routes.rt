ghost use Rattle.std.specs.Prelude.{◌≡◌, None, Ok, true, false, IsOk};
ghost use Rattle.outside_io.specs.NoRoutes.{no_routes_ended, no_routes_state, no_replies};

use crate::{Flag, InputFault, IoFault, Sessions};
use acct_types::{Addr, NoMemory, Octets, RouteEvent, Side};
use std::alloc::Global;

/// Sessions of which nothing comes. What is replied is dropped.
#[derive(Debug, Drop)]
pub struct NoRoutes {
    alloc: Global,
    ended: bool,
}

impl NoRoutes {
    /// Takes no memory.
    pub fn new(alloc: Global) -> NoRoutes
        ensures { no_routes_ended result ≡ false }
    {
        NoRoutes {
            alloc,
            ended: false,
        }
    }
}

impl Sessions for NoRoutes {
    ghost state = { no_routes_state };

    ghost replies = { no_replies };

    fn next(&mut self) -> Result<Option<RouteEvent>, InputFault>
        ensures none { result ≡ Ok None }
        ensures ended { no_routes_ended self.new ≡ true }
    {
        self.ended = true;
        Ok(None)
    }

    fn reply(&mut self, _: Side, _: &Addr, _: &Octets) -> Result<(), IoFault>
        ensures ok { IsOk result }
        ensures kept { self.new ≡ self.old }
    {
        Ok(())
    }

    fn stopper(&self) -> Result<Flag, NoMemory> {
        Flag::new(self.alloc)
    }
}
