ghost use Rattle.std.specs.Prelude.{◌≡◌, ◌≤◌, ◌++◌, ◌∷◌, [], true, false, List as Sequence, map, length, IfOk, OnOk, OnErr};
ghost use Rattle.acct_types.specs.RouteEvents.{act_octets};
ghost use Rattle.acct_types.specs.Updates.{message_view};
ghost use Rattle.acct_types.specs.declared.route_event.RouteEvent.{RouteEvent};
ghost use Rattle.route_feed.specs.Routings.{HasHeard};
ghost use Rattle.route_feed.specs.Told.{closures_of, messages_of, replies_of};

use crate::sessions::hear;
use crate::{Daemons, RouteTurn};
use acct_types::{Addr, NoMemory, RouteEvent};
use bgp_session::{Local, Session};
use std::alloc::Global;
use std::collections::BTreeMap;
use std::marker::Model;

/// The sessions with routers that go on, of the daemons that are on.
#[derive(Drop)]
pub struct Routing {
    alloc: Global,
    daemons: Daemons,
    local: Local,
    live: bool,
    moment: u64,
    sessions: BTreeMap<Addr, Session>,
}

impl Model for Routing {
    ghost use Rattle.route_feed.specs.Routings.{AllGoOn, RoutingState};

    ghost Value = { RoutingState };

    ghost view = { λ routing. record {
      daemons = routing.daemons;
      local = routing.local;
      live = routing.live;
      moment = routing.moment;
      sessions = routing.sessions.entries;
    } };

    ghost invariant = { λ routing. AllGoOn routing.moment routing.sessions.entries };
}

impl Routing {
    /// No session. These daemons are on; in BGP this side has that identifier and that hold time in seconds, 0 for none. Takes no memory.
    pub fn new(alloc: Global, daemons: Daemons, local_id: u32, hold: u16) -> Routing
        ensures daemons { result.daemons ≡ daemons }
        ensures id { result.local.id ≡ local_id }
        ensures hold { result.local.hold ≡ hold }
        ensures live { result.live ≡ true }
        ensures moment { result.moment ≡ 0 }
        ensures hears { HasHeard result [] }
    {
        Routing {
            alloc,
            daemons,
            local: Local { id: local_id, hold },
            live: true,
            moment: 0,
            sessions: BTreeMap::new(alloc),
        }
    }

    /// Whether memory never ran out.
    pub fn live(&self) -> bool
        ensures { result ≡ self.now.live }
    {
        self.live
    }

    /// The moment of the last event in milliseconds, 0 before the first.
    pub fn moment(&self) -> u64
        ensures { result ≡ self.now.moment }
    {
        self.moment
    }

    /// Takes the next event, which brings at most 65,535 octets, at a moment in milliseconds that isn't below the last one. An event of a
    /// daemon that isn't on does nothing. After NoMemory it isn't live.
    pub fn on(&mut self, event: &RouteEvent) -> Result<RouteTurn, NoMemory>
        requires live { self.old.live ≡ true }
        requires later { self.old.moment ≤ event.now.moment }
        requires fits { length (act_octets event.now.act) ≤ 65535 }

        // Over any list of events that came before, the newest first.
        ensures hears { (earlier : Sequence RouteEvent) → HasHeard self.old earlier → OnOk result (HasHeard self.new (event.now ∷ earlier)) }
        ensures messages { (earlier : Sequence RouteEvent) → HasHeard self.old earlier
            → IfOk result (λ turn. messages_of self.old.daemons self.old.local earlier ++ map message_view turn.messages ≡ messages_of self.old.daemons self.old.local (event.now ∷ earlier)) }
        ensures replies { (earlier : Sequence RouteEvent) → HasHeard self.old earlier
            → IfOk result (λ turn. replies_of self.old.daemons self.old.local earlier ++ turn.replies ≡ replies_of self.old.daemons self.old.local (event.now ∷ earlier)) }
        ensures closures { (earlier : Sequence RouteEvent) → HasHeard self.old earlier
            → IfOk result (λ turn. closures_of self.old.daemons self.old.local earlier ++ turn.closures ≡ closures_of self.old.daemons self.old.local (event.now ∷ earlier)) }

        ensures live { OnOk result (self.new.live ≡ true) }
        ensures failed { OnErr result (self.new.live ≡ false) }
        ensures daemons { self.new.daemons ≡ self.old.daemons }
        ensures local { self.new.local ≡ self.old.local }
        ensures moment { self.new.moment ≡ event.now.moment }
    {
        let mut turn = RouteTurn::new(self.alloc);
        self.moment = event.moment;
        if !self.daemons.is_on(event.side, &event.act) {
            return Ok(turn);
        }
        match hear(self.alloc, self.local, &mut self.sessions, event, &mut turn) {
            Ok(()) => Ok(turn),
            Err(NoMemory) => {
                self.live = false;
                self.sessions.clear();
                Err(NoMemory)
            }
        }
    }
}
