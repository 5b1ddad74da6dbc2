//! Laws of the definitions.

ghost use Rattle.std.specs.Prelude.{◌≡◌, ◌∷◌, [], true, false, List as Sequence, Some, None, filter, map};
ghost use Rattle.acct_types.specs.declared.addr.Addr.{Addr};
ghost use Rattle.acct_types.specs.declared.route_event.Act.TheVariants.{Down, Up};
ghost use Rattle.acct_types.specs.declared.route_event.RouteEvent.{RouteEvent};
ghost use Rattle.bgp_session.specs.declared.progress.Local.{Local};
ghost use Rattle.route_feed.specs.Events.{events_on, is_of, is_on};
ghost use Rattle.route_feed.specs.Laws.{AreInOrder, AreToOthers, NeverFall, is_reset, learned_behind, learned_by, reset_for};
ghost use Rattle.route_feed.specs.Lives.{life_of};
ghost use Rattle.route_feed.specs.Told.{closures_of, messages_of, replies_at, replies_of, unexpired};
ghost use Rattle.route_feed.specs.declared.daemons.Daemons.{Daemons};

use acct_types::addresses_are_ordered;
use bgp_session::laws::answers_grow;

/// An event of a daemon that isn't on gives nothing, and changes nothing of what later ones give.
pub fn daemons_that_are_off_are_not_heard()
    ensures messages { (daemons : Daemons) (local : Local) (event : RouteEvent) (earlier : Sequence RouteEvent) → is_on daemons event.side event.act ≡ false
        → messages_of daemons local (event ∷ earlier) ≡ messages_of daemons local earlier }
    ensures replies { (daemons : Daemons) (local : Local) (event : RouteEvent) (earlier : Sequence RouteEvent) → is_on daemons event.side event.act ≡ false
        → replies_of daemons local (event ∷ earlier) ≡ replies_of daemons local earlier }
    ensures closures { (daemons : Daemons) (local : Local) (event : RouteEvent) (earlier : Sequence RouteEvent) → is_on daemons event.side event.act ≡ false
        → closures_of daemons local (event ∷ earlier) ≡ closures_of daemons local earlier }
    ensures later { (daemons : Daemons) (event : RouteEvent) (earlier : Sequence RouteEvent) → is_on daemons event.side event.act ≡ false
        → events_on daemons (event ∷ earlier) ≡ events_on daemons earlier }
{}

/// The resets among the messages are those of the sessions that end, one each, at that moment and in that order.
pub fn ends_have_their_resets()
    ensures { (daemons : Daemons) (local : Local) (events : Sequence RouteEvent)
        → filter is_reset (messages_of daemons local events) ≡ map reset_for (closures_of daemons local events) }
{}

/// An event does nothing to the life of another session than to end it where its hold time has passed. An Up begins a life, whatever went before, and
/// a Down leaves none.
pub fn lives_are_their_own()
    ensures others { (local : Local) (address : Addr) (event : RouteEvent) (earlier : Sequence RouteEvent) → is_of address event ≡ false
        → life_of local (event ∷ earlier) address ≡ unexpired local event.moment (life_of local earlier address) }
    ensures up { (local : Local) (address : Addr) (event : RouteEvent) (earlier : Sequence RouteEvent) → is_of address event ≡ true → event.act ≡ Up
        → life_of local (event ∷ earlier) address ≡ Some [] }
    ensures down { (local : Local) (address : Addr) (event : RouteEvent) (earlier : Sequence RouteEvent) → is_of address event ≡ true → event.act ≡ Down
        → life_of local (event ∷ earlier) address ≡ None }
{}

/// What the messages say of a session behind its last reset is what the octets of its life say, joined; it is nothing where no life goes on.
pub fn messages_say_what_lives_say()
    ensures { (daemons : Daemons) (local : Local) (events : Sequence RouteEvent) (address : Addr)
        → learned_behind address [] (messages_of daemons local events) ≡ learned_by (life_of local (events_on daemons events) address) }
{
    addresses_are_ordered();
    answers_grow();
}

/// Where the moments of events never fall, those of messages don't.
pub fn moments_never_fall()
    ensures { (daemons : Daemons) (local : Local) (events : Sequence RouteEvent) → AreInOrder events
        → NeverFall 0 (map (λ message. message.moment) (messages_of daemons local events)) }
{}

/// No session is sent two replies at one event.
pub fn replies_are_one_each()
    ensures { (local : Local) (earlier : Sequence RouteEvent) (event : RouteEvent) → AreToOthers (replies_at local earlier event) }
{
    addresses_are_ordered();
}
