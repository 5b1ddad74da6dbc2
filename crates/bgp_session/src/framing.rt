//! How messages stand one behind another (RFC 4271, 4.1).

ghost use Rattle.std.specs.Prelude.{◌≡◌, ◌≤◌, ◌<◌, ◌+◌, length, Ok, None};
ghost use Rattle.bgp_msg.specs.Frames.{framed, length_of};

use acct_types::numbers::u16_at;
use bgp_msg::{BgpFault, frame};
use framed_pieces::Framing;

const HEADER: usize = 19;

/// By headers.
pub(crate) struct Headers;

// How many octets a message needs before it can be judged further.
#[tactic(auto, unfolding(bgp_msg::specs::Frames::framed))]
fn wanted(begun: &[u8]) -> usize
    requires { framed begun.now ≡ Ok None }
    ensures some { 1 ≤ result }
    ensures header { length begun.now < 19 → length begun.now + result ≡ 19 }
    ensures whole { 19 ≤ length begun.now → length begun.now + result ≡ length_of begun.now }
{
    if begun.len() < HEADER {
        HEADER - begun.len()
    } else {
        usize::from(u16_at(begun, 16)) - begun.len()
    }
}

impl Framing for Headers {
    ghost use Rattle.bgp_msg.specs.Frames.{framed as framed_by_header};

    type Fault = BgpFault;

    ghost framed = { framed_by_header };

    fn frame(octets: &[u8]) -> Result<Option<u32>, BgpFault> {
        frame(octets)
    }

    fn wanted(begun: &[u8]) -> usize {
        wanted(begun)
    }
}
