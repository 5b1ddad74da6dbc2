//! A BGP session with a peer that announces routes (RFC 4271, 4 and 8): octets in whatever pieces they come, to what is answered and
//! what the peer's UPDATEs say. Nothing is announced to the peer.
#![tactic(auto)]

mod framing;
mod hearing;
pub mod laws;
mod message;
mod progress;
mod session;
mod turn;
mod why;

pub use progress::Local;
pub use session::Session;
pub use turn::Turn;
pub use why::Why;
