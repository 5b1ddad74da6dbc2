//! The sessions of BGP that go on, by address, and what each event does to them.

ghost use Rattle.std.specs.Prelude.{◌≡◌, ◌≤◌, ◌&&◌, ◌++◌, [], List as Sequence, Option, Some, None, map, length, OnOk, is_some, if◌then◌else◌};
ghost use Rattle.std.specs.BTreeMap.{is_at};
ghost use Rattle.std.specs.List.Sorted.{IsStrictlySortedBy};
ghost use Rattle.std.specs.Map.{keys_of};
ghost use Rattle.acct_types.specs.Order.{addr_cmp};
ghost use Rattle.acct_types.specs.RouteEvents.{act_octets};
ghost use Rattle.acct_types.specs.Updates.{message_view};
ghost use Rattle.acct_types.specs.declared.addr.Addr.{Addr};
ghost use Rattle.acct_types.specs.declared.route_event.RouteEvent.{RouteEvent};
ghost use Rattle.acct_types.specs.declared.route_event.Act.TheVariants.{Bytes, Down, Up};
ghost use Rattle.bgp_session.specs.Moments.{Piece};
ghost use Rattle.bgp_session.specs.declared.why.Why.TheVariants.{HoldExpired};
ghost use Rattle.route_feed.specs.Lives.{life_of};
ghost use Rattle.route_feed.specs.Routings.{AllGoOn, AreOf, session_at};
ghost use Rattle.route_feed.specs.Steps.{Acted, Heard, expired_of, unexpired_of};
ghost use Rattle.route_feed.specs.Told.{closure, expiry_reply, reset};

use crate::RouteTurn;
use acct_types::{Act, Addr, NoMemory, RouteEvent, Side, addresses_are_ordered};
use bgp_session::laws::expiry_is_by_pieces;
use bgp_session::{Local, Session, Why};
use std::alloc::Global;
use std::collections::BTreeMap;

// Tells of the sessions whose hold time has passed.
fn tell_expired(
    alloc: Global,
    sessions: &BTreeMap<Addr, Session>,
    moment: u64,
    turn: &mut RouteTurn,
) -> Result<(), NoMemory>
    ensures messages { OnOk result (map message_view turn.new.messages ≡ map message_view turn.old.messages ++ map (reset moment) (expired_of moment sessions.now.entries)) }
    ensures replies { OnOk result (turn.new.replies ≡ turn.old.replies ++ map expiry_reply (expired_of moment sessions.now.entries)) }
    ensures closures { OnOk result (turn.new.closures ≡ turn.old.closures ++ map (closure moment HoldExpired) (expired_of moment sessions.now.entries)) }
{
    let mut entries = sessions.iter();
    while let Some((address, session)) = entries.next() {
        if session.expired(moment) {
            turn.expire(alloc, *address, moment)?;
        }
    }
    Ok(())
}

// Drops the sessions whose hold time has passed.
fn drop_expired(sessions: &mut BTreeMap<Addr, Session>, moment: u64)
    ensures entries { sessions.new.entries ≡ unexpired_of moment sessions.old.entries }
    ensures ordered { IsStrictlySortedBy addr_cmp (keys_of sessions.old.entries) }
{
    addresses_are_ordered();
    sessions.retain(|_, session| !session.expired(moment));
}

// Why a session ends that an act ends where there is one.
fn reason_of(ended: Option<Session>, why: Why) -> Option<Why>
    ensures { result ≡ (if is_some ended then Some why else None) }
{
    match ended {
        Some(_) => Some(why),
        None => None,
    }
}

// A session comes up. One with the same address is replaced.
fn come_up(
    alloc: Global,
    local: Local,
    sessions: &mut BTreeMap<Addr, Session>,
    address: Addr,
    moment: u64,
    turn: &mut RouteTurn,
) -> Result<(), NoMemory>
    requires go_on { AllGoOn moment sessions.old.entries }
    ensures go_on { OnOk result (AllGoOn moment sessions.new.entries) }
    ensures acted { (lives : Addr → Option (Sequence Piece)) → AreOf local sessions.old.entries lives
        → OnOk result (Acted local moment address Up lives sessions.new.entries turn.old turn.new) }
{
    addresses_are_ordered();
    let session = Session::new(alloc, address, local.id, local.hold, moment);
    match sessions.insert(address, session) {
        Err(_) => Err(NoMemory),
        Ok(before) => turn.close(address, moment, reason_of(before, Why::Replaced)),
    }
}

// A session goes down, where there is one.
fn go_down(
    sessions: &mut BTreeMap<Addr, Session>,
    address: Addr,
    moment: u64,
    turn: &mut RouteTurn,
) -> Result<(), NoMemory>
    requires go_on { AllGoOn moment sessions.old.entries }
    ensures go_on { AllGoOn moment sessions.new.entries }
    ensures acted { (local : Local) (lives : Addr → Option (Sequence Piece)) → AreOf local sessions.old.entries lives
        → OnOk result (Acted local moment address Down lives sessions.new.entries turn.old turn.new) }
{
    addresses_are_ordered();
    let before = sessions.remove(&address);
    turn.close(address, moment, reason_of(before, Why::PeerClosed))
}

// Drops the session with an address where it is over.
fn settle(sessions: &mut BTreeMap<Addr, Session>, address: Addr, over: bool)
    ensures { (other : Addr) → session_at other sessions.new.entries ≡ (if over && is_at (addr_cmp address) other then None else session_at other sessions.old.entries) }
{
    addresses_are_ordered();
    if over {
        sessions.remove(&address);
    }
}

// A session takes octets, where there is one.
fn take_octets(
    sessions: &mut BTreeMap<Addr, Session>,
    address: Addr,
    moment: u64,
    octets: &[u8],
    turn: &mut RouteTurn,
) -> Result<(), NoMemory>
    requires go_on { AllGoOn moment sessions.old.entries }
    requires fits { length octets.now ≤ 65535 }
    ensures go_on { OnOk result (AllGoOn moment sessions.new.entries) }
    ensures acted { (local : Local) (lives : Addr → Option (Sequence Piece)) → AreOf local sessions.old.entries lives
        → OnOk result (Acted local moment address (Bytes octets.now) lives sessions.new.entries turn.old turn.new) }
{
    addresses_are_ordered();
    let Some(session) = sessions.get_mut(&address) else {
        return Ok(());
    };
    let given = match session.on(moment, octets) {
        Err(NoMemory) => return Err(NoMemory),
        Ok(given) => given,
    };
    settle(sessions, address, given.closed.is_some());
    turn.take(address, moment, given)
}

// An event acts on the session of its address.
fn act(
    alloc: Global,
    local: Local,
    sessions: &mut BTreeMap<Addr, Session>,
    event: &RouteEvent,
    turn: &mut RouteTurn,
) -> Result<(), NoMemory>
    requires go_on { AllGoOn event.now.moment sessions.old.entries }
    requires fits { length (act_octets event.now.act) ≤ 65535 }
    ensures go_on { OnOk result (AllGoOn event.now.moment sessions.new.entries) }
    ensures acted { (lives : Addr → Option (Sequence Piece)) → AreOf local sessions.old.entries lives
        → OnOk result (Acted local event.now.moment event.now.address event.now.act lives sessions.new.entries turn.old turn.new) }
{
    let address = event.address;
    let moment = event.moment;
    match &event.act {
        Act::Up => come_up(alloc, local, sessions, address, moment, turn),
        Act::Bytes(octets) => take_octets(sessions, address, moment, octets.as_slice(), turn),
        Act::Down => go_down(sessions, address, moment, turn),
        Act::Tick => Ok(()),
    }
}

/// Takes an event. After NoMemory nothing is said of the sessions.
pub fn hear(
    alloc: Global,
    local: Local,
    sessions: &mut BTreeMap<Addr, Session>,
    event: &RouteEvent,
    turn: &mut RouteTurn,
) -> Result<(), NoMemory>
    requires go_on { AllGoOn event.now.moment sessions.old.entries }
    requires fits { length (act_octets event.now.act) ≤ 65535 }
    ensures go_on { OnOk result (AllGoOn event.now.moment sessions.new.entries) }
    ensures heard { (earlier : Sequence RouteEvent) → AreOf local sessions.old.entries (life_of local earlier)
        → OnOk result (Heard local earlier event.now sessions.new.entries turn.old turn.new) }
{
    addresses_are_ordered();
    expiry_is_by_pieces();
    tell_expired(alloc, sessions, event.moment, turn)?;
    drop_expired(sessions, event.moment);
    match event.side {
        Side::Bgp => act(alloc, local, sessions, event, turn),
        Side::Bmp => Ok(()),
    }
}
