use bgp_msg::{BgpFault, BmpFault};

/// Why a session, or a stream of BMP messages, is over.
#[derive(Clone, Copy, Debug, PartialEq, Eq)]
pub enum Why {
    /// The peer closed the connection.
    PeerClosed,
    /// The peer opened another connection.
    Replaced,
    /// The peer sent a NOTIFICATION (RFC 4271, 4.5).
    Notified { code: u8, subcode: u8 },
    /// The peer's octets have this fault.
    Fault(BgpFault),
    /// Nothing came for the agreed hold time (RFC 4271, 6.5).
    HoldExpired,
    /// The router ended its stream of BMP messages (RFC 7854, 4.5).
    Terminated,
    /// The router's octets have this fault.
    BmpFault(BmpFault),
}
