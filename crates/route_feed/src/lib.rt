//! From what happens to sessions with routers to messages about routes, replies, and the ends of sessions. Of the two sides that of BGP is read (RFC 4271).
#![tactic(auto)]

mod closure;
mod daemons;
pub mod laws;
mod routing;
mod sessions;
mod turn;

pub use closure::Closure;
pub use daemons::Daemons;
pub use routing::Routing;
pub use turn::RouteTurn;
