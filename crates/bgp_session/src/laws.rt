//! Laws of the definitions.

ghost use Rattle.std.specs.Prelude.{◌≡◌, ℕ, Some, None, List as Sequence};
ghost use Rattle.bgp_session.specs.Laws.{AreInOrder, ComeTogether, Grows, IsOver, StandAlike};
ghost use Rattle.bgp_session.specs.Lives.{closed_by, heard};
ghost use Rattle.bgp_session.specs.Moments.{Piece, expired_at, joined};
ghost use Rattle.bgp_session.specs.Sessions.{HasHeard, SessionState, has_expired};
ghost use Rattle.bgp_session.specs.declared.progress.Local.{Local};
ghost use Rattle.bgp_session.specs.declared.why.Why.{Why};

/// The messages that are heard are an OPEN, then a KEEPALIVE, then KEEPALIVEs and UPDATEs.
pub fn lives_are_in_order()
    ensures { (octets : Sequence ℕ) → AreInOrder (heard octets) }
{}

/// Octets that come behind others take nothing back.
pub fn answers_grow()
    ensures { (local : Local) (octets more : Sequence ℕ) → closed_by octets ≡ None → Grows local octets more }
{}

/// Behind its end a life gives nothing, whatever comes.
pub fn an_end_is_the_end()
    ensures { (local : Local) (octets more : Sequence ℕ) (reason : Why) → closed_by octets ≡ Some reason → IsOver local octets more reason }
{}

/// Sessions that took the same octets stand alike, in whatever pieces they came. Where the octets came at the same moments too, the
/// sessions expire at the same moments, and each has taken the pieces of the other.
pub fn pieces_join()
    ensures alike { (one other : SessionState) (pieces others : Sequence Piece) → HasHeard one pieces → HasHeard other others
        → one.local ≡ other.local → joined pieces ≡ joined others → StandAlike one other }
    ensures expire { (one other : SessionState) (pieces others : Sequence Piece) → HasHeard one pieces → HasHeard other others
        → one.local ≡ other.local → joined pieces ≡ joined others → ComeTogether pieces others → (moment : ℕ) → has_expired one moment ≡ has_expired other moment }
    ensures others { (session : SessionState) (pieces others : Sequence Piece) → HasHeard session pieces
        → joined pieces ≡ joined others → ComeTogether pieces others → HasHeard session others }
{}

/// Whether a session is expired at a moment is by the pieces that it took.
#[tactic(auto, using(crate::proofs::SessionLemmas::expired_by), unfolding(crate::specs::Sessions::HasHeard))]
pub fn expiry_is_by_pieces()
    ensures { (session : SessionState) (pieces : Sequence Piece) (moment : ℕ) → HasHeard session pieces → has_expired session moment ≡ expired_at session.local pieces moment }
{}
