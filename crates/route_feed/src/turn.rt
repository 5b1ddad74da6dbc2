ghost use Rattle.std.specs.Prelude.{◌≡◌, ◌++◌, ◌∷◌, [], map, OnOk};
ghost use Rattle.acct_types.specs.Updates.{message_view, update_view};
ghost use Rattle.route_feed.specs.Told.{closures_for, expiry_reply, reply_of, resets_by, update};

use crate::Closure;
use acct_types::{
    Addr, Change, List, NoMemory, Octets, Reply, RibSource, RouteMessage, RouteScope, Side, Update,
};
use bgp_msg::write_notification;
use bgp_session::{Turn, Why};
use std::alloc::Global;

// Hold Timer Expired (RFC 4271, 4.5).
const HOLD_TIMER_EXPIRED: u8 = 4;

/// What an event gives.
#[derive(Debug, Drop)]
pub struct RouteTurn {
    /// What it changes of routes.
    pub messages: List<RouteMessage>,
    /// What the routers are to be sent, one reply a session.
    pub replies: List<Reply>,
    /// The sessions that it ends.
    pub closures: List<Closure>,
}

fn message(address: Addr, moment: u64, change: Change) -> RouteMessage
    ensures scope { result.scope ≡ RouteScope.Peer (RibSource.Bgp address) }
    ensures moment { result.moment ≡ moment }
    ensures change { result.change ≡ change }
{
    RouteMessage {
        scope: RouteScope::Peer(RibSource::Bgp(address)),
        moment,
        change,
    }
}

impl RouteTurn {
    pub(crate) fn new(alloc: Global) -> RouteTurn
        ensures messages { result.messages ≡ [] }
        ensures replies { result.replies ≡ [] }
        ensures closures { result.closures ≡ [] }
    {
        RouteTurn {
            messages: List::new(alloc),
            replies: List::new(alloc),
            closures: List::new(alloc),
        }
    }

    // The session with an address has ended, if there is a reason.
    pub(crate) fn close(
        &mut self,
        address: Addr,
        moment: u64,
        reason: Option<Why>,
    ) -> Result<(), NoMemory>
        ensures messages { OnOk result (map message_view self.new.messages ≡ map message_view self.old.messages ++ resets_by moment address reason) }
        ensures replies { self.new.replies ≡ self.old.replies }
        ensures closures { OnOk result (self.new.closures ≡ self.old.closures ++ closures_for moment address reason) }
    {
        let Some(why) = reason else {
            return Ok(());
        };
        self.messages.push(message(address, moment, Change::Reset))?;
        self.closures.push(Closure {
            side: Side::Bgp,
            address,
            moment,
            why,
        })
    }

    fn answer(&mut self, to: Addr, octets: Octets) -> Result<(), NoMemory>
        ensures messages { self.new.messages ≡ self.old.messages }
        ensures replies { OnOk result (self.new.replies ≡ self.old.replies ++ reply_of to octets) }
        ensures closures { self.new.closures ≡ self.old.closures }
    {
        if octets.is_empty() {
            return Ok(());
        }
        self.replies.push(Reply {
            side: Side::Bgp,
            to,
            octets,
        })
    }

    fn learn(&mut self, address: Addr, moment: u64, updates: List<Update>) -> Result<(), NoMemory>
        ensures messages { OnOk result (map message_view self.new.messages ≡ map message_view self.old.messages ++ map (update moment address) (map update_view updates)) }
        ensures replies { self.new.replies ≡ self.old.replies }
        ensures closures { self.new.closures ≡ self.old.closures }
    {
        for update in updates.into_vec() {
            self.messages
                .push(message(address, moment, Change::Update(update)))?;
        }
        Ok(())
    }

    // The hold time of the session with an address has passed.
    pub(crate) fn expire(
        &mut self,
        alloc: Global,
        address: Addr,
        moment: u64,
    ) -> Result<(), NoMemory>
        ensures messages { OnOk result (map message_view self.new.messages ≡ map message_view self.old.messages ++ resets_by moment address (Some Why.HoldExpired)) }
        ensures replies { OnOk result (self.new.replies ≡ self.old.replies ++ expiry_reply address ∷ []) }
        ensures closures { OnOk result (self.new.closures ≡ self.old.closures ++ closures_for moment address (Some Why.HoldExpired)) }
    {
        let mut octets = List::new(alloc);
        write_notification(HOLD_TIMER_EXPIRED, 0, &mut octets)?;
        self.replies.push(Reply {
            side: Side::Bgp,
            to: address,
            octets,
        })?;
        self.close(address, moment, Some(Why::HoldExpired))
    }

    // What the octets of the session with an address gave.
    pub(crate) fn take(&mut self, address: Addr, moment: u64, given: Turn) -> Result<(), NoMemory>
        ensures messages { OnOk result (map message_view self.new.messages ≡ map message_view self.old.messages ++ map (update moment address) (map update_view given.updates)
            ++ resets_by moment address given.closed) }
        ensures replies { OnOk result (self.new.replies ≡ self.old.replies ++ reply_of address given.replies) }
        ensures closures { OnOk result (self.new.closures ≡ self.old.closures ++ closures_for moment address given.closed) }
    {
        let reason = given.closed;
        self.answer(address, given.replies)?;
        self.learn(address, moment, given.updates)?;
        self.close(address, moment, reason)
    }
}
