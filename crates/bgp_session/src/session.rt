ghost use Rattle.std.specs.Prelude.{◌≡◌, ◌≤◌, ◌++◌, ◌∷◌, [], true, false, List as Sequence, map, length, is_none, is_some, if◌then◌else◌, OnOk, OnErr, IfOk};
ghost use Rattle.acct_types.specs.Updates.{update_view};
ghost use Rattle.bgp_session.specs.Lives.{closed_by, replies_to, updates_in};
ghost use Rattle.bgp_session.specs.Moments.{Piece, expired_at, is_expired, joined};
ghost use Rattle.bgp_session.specs.Sessions.{HasHeard, has_expired, is_live};

use crate::Turn;
use crate::framing::Headers;
use crate::hearing::Hearing;
use crate::progress::{Local, NOTHING_AGREED, Progress, Stage};
use acct_types::{Addr, List, NoMemory, Octets};
use framed_pieces::take_piece;
use std::alloc::Global;
use std::marker::Model;

/// A session with a peer, from its connection on. It keeps at most 4,095 octets of a message begun, in room that is used again.
#[derive(Drop)]
pub struct Session {
    alloc: Global,
    peer: Addr,
    local: Local,
    moment: u64,
    progress: Progress,
    last: u64,
    begun: Octets,
}

impl Model for Session {
    ghost use Rattle.std.specs.Prelude.{◌≡◌, ◌≤◌, length, Ok, None};
    ghost use Rattle.bgp_msg.specs.Frames.{framed};
    ghost use Rattle.bgp_session.specs.Sessions.{SessionState};

    ghost Value = { SessionState };

    ghost view = { λ session. record {
      peer = session.peer;
      local = session.local;
      moment = session.moment;
      progress = session.progress;
      last = session.last;
      begun = session.begun;
    } };

    ghost invariant = { λ session. (framed session.begun ≡ Ok None) × (length session.begun ≤ 4095) };
}

// The moment of the last message: this one, where one came at it.
fn last_moment(some: bool, moment: u64, last: u64) -> u64
    ensures { result ≡ (if some then moment else last) }
{
    if some { moment } else { last }
}

// Whether a hold time in seconds that isn't 0 has passed since a moment.
#[tactic(auto, unfolding(crate::specs::Moments::is_expired))]
fn has_passed(hold: u16, last: u64, moment: u64) -> bool
    ensures { result ≡ is_expired hold last moment }
{
    hold != 0 && moment >= last && moment - last >= 1000 * u64::from(hold)
}

impl Session {
    /// A session of a peer that has just connected, at a moment in milliseconds. This side has that BGP identifier and that hold time in
    /// seconds, 0 for none. Takes no memory.
    #[tactic(auto, unfolding(crate::specs::Sessions::is_live))]
    pub fn new(alloc: Global, peer: Addr, local_id: u32, hold: u16, moment: u64) -> Session
        ensures peer { result.peer ≡ peer }
        ensures id { result.local.id ≡ local_id }
        ensures hold { result.local.hold ≡ hold }
        ensures moment { result.moment ≡ moment }
        ensures live { is_live result ≡ true }
        ensures hears { HasHeard result [] }
    {
        Session {
            alloc,
            peer,
            local: Local { id: local_id, hold },
            moment,
            progress: Progress {
                stage: Stage::AwaitsOpen,
                agreed: NOTHING_AGREED,
                hold: 0,
            },
            last: 0,
            begun: List::new(alloc),
        }
    }

    /// The address of the peer.
    pub fn peer(&self) -> Addr
        ensures { result ≡ self.now.peer }
    {
        self.peer
    }

    /// The moment of the last piece, or of the connection where none came, in milliseconds.
    pub fn moment(&self) -> u64
        ensures { result ≡ self.now.moment }
    {
        self.moment
    }

    /// Whether the session goes on: nothing has ended it, and memory never ran out.
    #[tactic(auto, unfolding(crate::specs::Sessions::is_live))]
    pub fn live(&self) -> bool
        ensures state { result ≡ is_live self.now }
        ensures behind { (pieces : Sequence Piece) → HasHeard self.now pieces → result ≡ is_none (closed_by (joined pieces)) }
    {
        self.progress.stage != Stage::Closed
    }

    /// Takes the peer's next octets, at most 65,535, which came at a moment in milliseconds that isn't below the last one. They are judged
    /// with all that came before. After NoMemory the session isn't live.
    #[tactic(auto, unfolding(crate::specs::Sessions::is_live))]
    pub fn on(&mut self, moment: u64, piece: &[u8]) -> Result<Turn, NoMemory>
        requires live { is_live self.old ≡ true }
        requires later { self.old.moment ≤ moment }
        requires fits { length piece.now ≤ 65535 }

        // Over any list of pieces that came before, the newest first.
        ensures hears { (earlier : Sequence Piece) → HasHeard self.old earlier
            → OnOk result (HasHeard self.new (record { moment = moment; octets = piece.now } ∷ earlier)) }
        ensures replies { (earlier : Sequence Piece) → HasHeard self.old earlier
            → IfOk result (λ turn. replies_to self.old.local (joined earlier) ++ turn.replies ≡ replies_to self.old.local (joined earlier ++ piece.now)) }
        ensures updates { (earlier : Sequence Piece) → HasHeard self.old earlier
            → IfOk result (λ turn. updates_in (joined earlier) ++ map update_view turn.updates ≡ updates_in (joined earlier ++ piece.now)) }
        ensures closed { (earlier : Sequence Piece) → HasHeard self.old earlier
            → IfOk result (λ turn. turn.closed ≡ closed_by (joined earlier ++ piece.now)) }

        ensures ends { IfOk result (λ turn. is_live self.new ≡ is_none turn.closed) }
        ensures failed { OnErr result (is_live self.new ≡ false) }
        ensures peer { self.new.peer ≡ self.old.peer }
        ensures local { self.new.local ≡ self.old.local }
        ensures moment { self.new.moment ≡ moment }
    {
        let start = self.progress;
        self.moment = moment;
        self.progress.stage = Stage::Closed;
        let mut hearing = Hearing::new(self.alloc, self.local, start);
        match take_piece::<Headers, Hearing>(&mut hearing, &mut self.begun, piece) {
            Err(_) => {
                self.begun.truncate(0);
                Err(NoMemory)
            }
            Ok(()) => {
                self.progress = hearing.progress;
                self.last = last_moment(hearing.some, moment, self.last);
                Ok(hearing.into_turn())
            }
        }
    }

    /// Whether, at a moment in milliseconds, the agreed hold time has passed since the last OPEN, KEEPALIVE or UPDATE (RFC 4271, 6.5).
    /// Without an OPEN none is agreed. Takes no memory.
    #[tactic(auto, unfolding(crate::specs::Sessions::has_expired))]
    pub fn expired(&self, moment: u64) -> bool
        ensures state { result ≡ has_expired self.now moment }
        ensures behind { (pieces : Sequence Piece) → HasHeard self.now pieces → result ≡ expired_at self.now.local pieces moment }
    {
        has_passed(self.progress.hold, self.last, moment)
    }
}
