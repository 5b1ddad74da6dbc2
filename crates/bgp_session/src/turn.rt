use crate::Why;
use acct_types::{List, Octets, Update};

/// What a piece of the peer's octets gives.
#[derive(Debug, PartialEq, Eq, Drop)]
pub struct Turn {
    /// What is to be sent to the peer, whole messages one behind another.
    pub replies: Octets,
    /// The UPDATEs that came, in their order.
    pub updates: List<Update>,
    /// Why the session is over now, where it is.
    pub closed: Option<Why>,
}
