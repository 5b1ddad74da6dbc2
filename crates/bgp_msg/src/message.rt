ghost use Rattle.std.specs.Prelude.{◌≡◌};

use acct_types::{NoMemory, Update};

/// What the two sides of a session agreed on for its UPDATEs.
#[derive(Clone, Copy, Debug, PartialEq, Eq)]
pub struct Agreed {
    /// Numbers of autonomous systems have four octets in AS_PATH, and not two (RFC 6793).
    pub four_octets: bool,
    /// Prefixes of IPv4 have path identifiers (RFC 7911). They aren't read yet: the flag changes nothing.
    pub path_ids_v4: bool,
    /// Prefixes of IPv6 have path identifiers. They aren't read yet: the flag changes nothing.
    pub path_ids_v6: bool,
}

/// Why a message is refused: code and subcode of the NOTIFICATION that answers it (RFC 4271, 4.5), and where in the message the
/// fault is, in octets from 0.
#[derive(Clone, Copy, Debug, PartialEq, Eq)]
pub struct BgpFault {
    pub code: u8,
    pub subcode: u8,
    pub place: u32,
}

/// What a speaker does with several paths to a prefix of a family (RFC 7911, 4).
#[derive(Clone, Copy, Debug, PartialEq, Eq)]
pub enum AddPath {
    /// It takes them: the value is 1.
    Receive,
    /// It sends them: 2.
    Send,
    /// It does both: 3.
    Both,
}

/// What an OPEN says (RFC 4271, 4.2).
#[derive(Clone, Copy, Debug, PartialEq, Eq)]
pub struct Hello {
    /// The peer's autonomous system: that of its last capability of four-octet numbers, else that of the field.
    pub asn: u32,
    /// The proposed hold time in seconds, 0 or at least 3.
    pub hold: u16,
    /// The BGP identifier.
    pub id: u32,
    /// The peer has the capability of four-octet numbers (RFC 6793).
    pub four_octets: bool,
    /// The prefixes of IPv4 that the peer sends have path identifiers: it sends them, and this side announced that it takes them, which it
    /// doesn't yet, so this is false.
    pub path_ids_v4: bool,
    /// Likewise for IPv6.
    pub path_ids_v6: bool,
    /// The last tuple of unicast IPv4 in its ADD-PATH capabilities, but for those that are passed over (RFC 7911, 4).
    pub add_path_v4: Option<AddPath>,
    /// The last tuple of unicast IPv6.
    pub add_path_v6: Option<AddPath>,
}

/// A message (RFC 4271, 4).
#[derive(Debug, PartialEq, Eq, Drop)]
pub enum BgpMessage {
    /// OPEN.
    Hello(Hello),
    Update(Update),
    Notification { code: u8, subcode: u8 },
    Keepalive,
}

/// Why a message isn't read.
#[derive(Clone, Copy, Debug, PartialEq, Eq)]
pub enum BgpRefusal {
    Fault(BgpFault),
    NoMemory,
}

impl From<NoMemory> for BgpRefusal {
    ghost use Rattle.bgp_msg.specs.declared.message.BgpRefusal.TheVariants as refusal;

    ghost from_gives = { λ _ answer. answer ≡ refusal.NoMemory };

    fn from(_: NoMemory) -> BgpRefusal {
        BgpRefusal::NoMemory
    }
}
