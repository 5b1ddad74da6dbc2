use crate::BgpFault;

/// Why a stream of BMP messages is refused (RFC 7854, 4). The closing of a router's stream names it.
#[derive(Clone, Copy, Debug, PartialEq, Eq)]
pub enum BmpFault {
    /// The version isn't 3 (4.1).
    BadVersion,
    /// The length is below that of the common header, 6 octets, or above 65,536 (4.1).
    BadLength,
    /// The type is above 6 (4.1).
    BadType,
    /// A body is too short for what it has to hold, or has octets behind the UPDATE of route monitoring (4.2, 4.6, 4.9 and 4.10).
    Cut,
    /// The BGP message in a body is refused, or is of another type than is wanted there, which is code 1 and subcode 3 at place 18
    /// (4.6 and 4.10).
    Inner(BgpFault),
}
