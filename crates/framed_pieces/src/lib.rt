//! Messages that stand one behind another, each of which tells its length at its front, taken from octets in whatever pieces they come.
#![tactic(auto)]

mod begun;
mod framing;
mod listener;
mod pieces;

pub use framing::Framing;
pub use listener::Listener;
pub use pieces::take_piece;
