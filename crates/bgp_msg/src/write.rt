//! The messages that a speaker writes that announces no route (RFC 4271, 4.2, 4.4 and 4.5).

ghost use Rattle.std.specs.Prelude.{◌≡◌, ◌++◌, IfOk, OnOk, OnErr};
ghost use Rattle.bgp_msg.specs.Written.{keepalive_spelling, notification_spelling, open_spelling, short_asn};

use acct_types::{List, NoMemory, Octets};
use std::alloc::Global;

const AS_TRANS: u16 = 23456;

// Before the fields of an OPEN: marker, length, type, version.
const OPEN_HEAD: [u8; 20] = [
    255, 255, 255, 255, 255, 255, 255, 255, 255, 255, 255, 255, 255, 255, 255, 255, 0, 49, 1, 4,
];

// The parameters of an OPEN, before the number of the autonomous system.
const PARAMETERS: [u8; 17] = [20, 2, 18, 1, 4, 0, 1, 0, 1, 1, 4, 0, 2, 0, 1, 65, 4];

const KEEPALIVE: [u8; 19] = [
    255, 255, 255, 255, 255, 255, 255, 255, 255, 255, 255, 255, 255, 255, 255, 255, 0, 19, 4,
];

fn short_asn(asn: u32) -> u16
    ensures { result ≡ short_asn asn }
{
    if asn < 65536 { asn as u16 } else { AS_TRANS }
}

#[tactic(auto, using(crate::proofs::WriteLemmas::opened))]
fn open_message(alloc: Global, asn: u32, hold: u16, id: u32) -> Result<Octets, NoMemory>
    ensures { IfOk result (λ message. message ≡ open_spelling asn hold id) }
{
    let mut message = List::from_slice(alloc, &OPEN_HEAD)?;
    message.extend(&short_asn(asn).to_be_bytes())?;
    message.extend(&hold.to_be_bytes())?;
    message.extend(&id.to_be_bytes())?;
    message.extend(&PARAMETERS)?;
    message.extend(&asn.to_be_bytes())?;
    Ok(message)
}

/// Appends an OPEN of 49 octets: version 4, this autonomous system (23456 in the field of two octets where it doesn't fit), hold time
/// in seconds and identifier, and one parameter with the capabilities of IPv4 and IPv6 unicast routes and of four-octet
/// numbers. After NoMemory `out` is unchanged.
pub fn write_open(
    alloc: Global,
    asn: u32,
    hold: u16,
    id: u32,
    out: &mut Octets,
) -> Result<(), NoMemory>
    ensures ok { OnOk result (out.new ≡ out.old ++ open_spelling asn hold id) }
    ensures err { OnErr result (out.new ≡ out.old) }
{
    let message = open_message(alloc, asn, hold, id)?;
    out.extend(message.as_slice())
}

/// Appends a KEEPALIVE. After NoMemory `out` is unchanged.
#[tactic(auto, unfolding(crate::specs::Written::keepalive_spelling))]
pub fn write_keepalive(out: &mut Octets) -> Result<(), NoMemory>
    ensures ok { OnOk result (out.new ≡ out.old ++ keepalive_spelling) }
    ensures err { OnErr result (out.new ≡ out.old) }
{
    out.extend(&KEEPALIVE)
}

/// Appends a NOTIFICATION without data. After NoMemory `out` is unchanged.
#[tactic(auto, unfolding(crate::specs::Written::notification_spelling))]
pub fn write_notification(code: u8, subcode: u8, out: &mut Octets) -> Result<(), NoMemory>
    ensures ok { OnOk result (out.new ≡ out.old ++ notification_spelling code subcode) }
    ensures err { OnErr result (out.new ≡ out.old) }
{
    let message = [
        255, 255, 255, 255, 255, 255, 255, 255, 255, 255, 255, 255, 255, 255, 255, 255, 0, 21, 3,
        code, subcode,
    ];
    out.extend(&message)
}
