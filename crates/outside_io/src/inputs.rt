ghost use Rattle.std.specs.Prelude.{◌≡◌, ◌≤◌, ◌∷◌, [], length, Option, Result, MatchResult};
ghost use Rattle.acct_types.specs.declared.datagram.Datagram.{Datagram};
ghost use Rattle.acct_types.specs.declared.route_event.RouteEvent.{RouteEvent};
ghost use Rattle.acct_types.specs.RouteEvents.{act_octets};
ghost use Rattle.outside_io.specs.Causes.{HasCause};
ghost use Rattle.outside_io.specs.Inputs.{prepend_told, append_told, given, MovesOn, IfGiven, EndsAs, EndsHere, HasInputCause, OnlyOfCapture};
ghost use Rattle.outside_io.specs.States.{InputState, RepliesState};
ghost use Rattle.outside_io.specs.declared.input_fault.InputFault.{InputFault};

use crate::{Flag, InputFault, IoFault};
use acct_types::{Addr, Datagram, NoMemory, Octets, RouteEvent, Side};

/// Where datagrams come from, one a call.
pub trait Datagrams {
    /// What it has left and handed out, whether it has ended, and its faults. Moments never go back, numbers never fall.
    ghost state: { Self → InputState Datagram };

    /// What else an input tells of a call of `next`: of how it stood before the call, how it stands after it, and the answer. Nothing, unless it says so.
    ghost call: { Self → Self → Result (Option Datagram) InputFault → Type 0 } = { λ _ _ _. Unit {0} };

    /// The next datagram, of at most 65,535 octets, or None where none is left. After an error none is lost.
    fn next(&mut self) -> Result<Option<Datagram>, InputFault>
        ensures left { prepend_told (given result) (state self.new).left ≡ (state self.old).left }
        ensures handed { (state self.new).handed ≡ append_told (state self.old).handed (given result) }
        ensures ends { EndsAs (state self.old).left (state self.old).ending result }
        ensures ending { (state self.new).ending ≡ (state self.old).ending }
        ensures ended { EndsHere (state self.old).ended (state self.new).ended result }
        ensures moment { MovesOn (λ d. d.moment) (state self.old).moment (state self.new).moment result }
        ensures fits { IfGiven result (λ d. length d.octets ≤ 65535) }
        ensures cause { HasInputCause (state self.old).faults (state self.new).faults result }
        ensures of_capture { OnlyOfCapture (state self.old).captured result }
        ensures captured { (state self.new).captured ≡ (state self.old).captured }
        ensures call { call self.old self.new result };
}

/// Where what happens to the sessions with routers comes from, one event a call, and replies to the routers go to.
pub trait Sessions: Drop {
    /// What it has left and handed out, whether it has ended, and its faults. Moments never go back, numbers never fall.
    ghost state: { Self → InputState RouteEvent };

    /// The replies sent so far, where it tells them, and how often one failed, which never falls.
    ghost replies: { Self → RepliesState };

    /// What else an input tells of a call of `next`: of how it stood before the call, how it stands after it, and the answer. Nothing, unless it says so.
    ghost call: { Self → Self → Result (Option RouteEvent) InputFault → Type 0 } = { λ _ _ _. Unit {0} };

    /// The next event, of at most 65,535 octets, or None where none is left. After an error none is lost.
    fn next(&mut self) -> Result<Option<RouteEvent>, InputFault>
        ensures left { prepend_told (given result) (state self.new).left ≡ (state self.old).left }
        ensures handed { (state self.new).handed ≡ append_told (state self.old).handed (given result) }
        ensures ends { EndsAs (state self.old).left (state self.old).ending result }
        ensures ending { (state self.new).ending ≡ (state self.old).ending }
        ensures ended { EndsHere (state self.old).ended (state self.new).ended result }
        ensures moment { MovesOn (λ e. e.moment) (state self.old).moment (state self.new).moment result }
        ensures fits { IfGiven result (λ e. length (act_octets e.act) ≤ 65535) }
        ensures cause { HasInputCause (state self.old).faults (state self.new).faults result }
        ensures of_capture { OnlyOfCapture (state self.old).captured result }
        ensures captured { (state self.new).captured ≡ (state self.old).captured }
        ensures replies { replies self.new ≡ replies self.old }
        ensures call { call self.old self.new result };

    /// Sends octets to the router of that address. After an error none of them counts as sent.
    fn reply(&mut self, side: Side, to: &Addr, octets: &Octets) -> Result<(), IoFault>
        ensures sent { MatchResult result
            (λ _. (replies self.new).sent ≡ append_told (replies self.old).sent (record { side = side; to = to.now; octets = octets.now } ∷ []))
            (λ _. (replies self.new).sent ≡ (replies self.old).sent) }
        ensures cause { HasCause (replies self.old).faults (replies self.new).faults result }
        ensures input { state self.new ≡ state self.old };

    /// A flag that makes an input over sockets end its events once it is raised. Other inputs don't look at it.
    fn stopper(&self) -> Result<Flag, NoMemory>;
}
