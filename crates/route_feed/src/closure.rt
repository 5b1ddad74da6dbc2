use acct_types::{Addr, Side};
use bgp_session::Why;

/// The end of a session with a router: at which moment, in milliseconds, and why.
#[derive(Clone, Copy, Debug, PartialEq, Eq)]
pub struct Closure {
    pub side: Side,
    pub address: Addr,
    pub moment: u64,
    pub why: Why,
}
