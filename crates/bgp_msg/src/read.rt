//! Whole messages.

ghost use Rattle.std.specs.Prelude.{◌≡◌, Ok, Some, length};
ghost use Rattle.bgp_msg.specs.Frames.{framed};
ghost use Rattle.bgp_msg.specs.Messages.{Gives};

use crate::header::{NOTIFICATION, OPEN, UPDATE};
use crate::open::{open_fault, read_open};
use crate::update::{parts_of, read_update};
use crate::{Agreed, BgpMessage, BgpRefusal};
use std::alloc::Global;

/// What a whole message says, read as was agreed. It is refused for what is wrong with its body first: code 2 for OPEN and code 3 for
/// UPDATE (RFC 4271, 6.2 and 6.3), as the section "BGP" of docs/PROFILE.md lists them. NOTIFICATION and KEEPALIVE have no fault.
#[tactic(auto, unfolding(crate::specs::Messages::body_fault, crate::specs::Frames::framed, crate::specs::Frames::header_fault))]
pub fn read_message(alloc: Global, octets: &[u8], agreed: &Agreed) -> Result<BgpMessage, BgpRefusal>
    requires { framed octets.now ≡ Ok (Some (length octets.now)) }
    ensures { Gives agreed.now octets.now result }
{
    match octets[18] {
        OPEN => {
            if let Some(fault) = open_fault(octets) {
                return Err(BgpRefusal::Fault(fault));
            }
            Ok(BgpMessage::Hello(read_open(octets)))
        }
        UPDATE => {
            let parts = match parts_of(*agreed, octets) {
                Ok(parts) => parts,
                Err(fault) => return Err(BgpRefusal::Fault(fault)),
            };
            Ok(BgpMessage::Update(read_update(alloc, *agreed, &parts)?))
        }
        NOTIFICATION => Ok(BgpMessage::Notification {
            code: octets[19],
            subcode: octets[20],
        }),
        _ => Ok(BgpMessage::Keepalive),
    }
}
