//! Where a message ends (RFC 4271, 4.1 and 6.1).

ghost use Rattle.std.specs.Prelude.{◌≡◌, ◌≤◌, length};
ghost use Rattle.bgp_msg.specs.Frames.{fits_kind, framed, header_error, header_fault};

use crate::BgpFault;
use acct_types::numbers::{u16_at, u128_at};

const HEADER: usize = 19;

const LONGEST: u16 = 4096;

const MARKER: u128 = 0xffff_ffff_ffff_ffff_ffff_ffff_ffff_ffff;

pub(crate) const OPEN: u8 = 1;

pub(crate) const UPDATE: u8 = 2;

pub(crate) const NOTIFICATION: u8 = 3;

// Whether a message of this type may have this length.
fn fits_kind(kind: u8, length: u16) -> bool
    ensures { result ≡ fits_kind kind length }
{
    match kind {
        OPEN => length >= 29,
        UPDATE => length >= 23,
        NOTIFICATION => length >= 21,
        _ => length == 19,
    }
}

fn fault(subcode: u8, place: u32) -> BgpFault
    ensures { result ≡ header_error subcode place }
{
    BgpFault {
        code: 1,
        subcode,
        place,
    }
}

#[tactic(auto, unfolding(crate::specs::Frames::header_fault))]
fn header_fault(octets: &[u8]) -> Option<BgpFault>
    requires { 19 ≤ length octets.now }
    ensures { result ≡ header_fault octets.now }
{
    let length = u16_at(octets, 16);
    let kind = octets[18];
    if u128_at(octets, 0) != MARKER {
        return Some(fault(1, 0));
    }
    if length < 19 || length > LONGEST {
        return Some(fault(2, 16));
    }
    if kind < 1 || kind > 4 {
        return Some(fault(3, 18));
    }
    if !fits_kind(kind, length) {
        return Some(fault(2, 16));
    }
    None
}

/// The length of the message at the front, once it is whole, and None exactly where more octets are needed. Once the 19 octets of
/// the header are there it is refused with code 1: subcode 1 where the marker isn't all ones, 2 where its length isn't from
/// 19 to 4096, 3 where its type isn't from 1 to 4, and 2 where the type wants another length. Takes no memory.
#[tactic(auto, unfolding(crate::specs::Frames::framed))]
pub fn frame(octets: &[u8]) -> Result<Option<u32>, BgpFault>
    ensures { result ≡ framed octets.now }
{
    if octets.len() < HEADER {
        return Ok(None);
    }
    if let Some(fault) = header_fault(octets) {
        return Err(fault);
    }
    let length = u16_at(octets, 16);
    if octets.len() < usize::from(length) {
        return Ok(None);
    }
    Ok(Some(u32::from(length)))
}
