//! Pieces in XDR (RFC 4506), as sFlow version 5 has them: a format, a length, and as many octets, padded to a multiple of four.

ghost use Rattle.std.specs.Prelude.{◌≡◌, ◌≤◌, ◌+◌, length, false};
ghost use Rattle.sflow_in.specs.Xdr.{address_width, body_of, format_of, is_cut, padded, rest_of};

use acct_types::numbers::{after, u32_at};

const HEAD: usize = 8;

// The octets that so many opaque ones take.
fn padded(count: u32) -> usize
    ensures { result ≡ padded count }
{
    (count as usize).next_multiple_of(4)
}

/// The octets of an address of this type.
pub(crate) fn address_width(kind: u32) -> usize
    ensures { result ≡ address_width kind }
{
    match kind {
        0 => 0,
        1 => 4,
        _ => 16,
    }
}

/// Whether the piece at the front passes the end.
#[tactic(auto, unfolding(crate::specs::Xdr::is_cut))]
pub(crate) fn is_cut(octets: &[u8]) -> bool
    ensures { result ≡ is_cut octets.now }
{
    octets.len() < HEAD || octets.len() < HEAD + padded(u32_at(octets, 4))
}

/// The format of the piece at the front.
#[tactic(auto, unfolding(crate::specs::Xdr::is_cut))]
pub(crate) fn format_of(octets: &[u8]) -> u32
    requires { is_cut octets.now ≡ false }
    ensures { result ≡ format_of octets.now }
{
    u32_at(octets, 0)
}

/// The octets of the piece at the front, without its padding.
#[tactic(auto, unfolding(crate::specs::Xdr::is_cut, crate::specs::Xdr::body_of))]
pub(crate) fn body_of(octets: &[u8]) -> &[u8]
    requires { is_cut octets.now ≡ false }
    ensures { result.now ≡ body_of octets.now }
{
    &after(octets, HEAD)[..u32_at(octets, 4) as usize]
}

/// What follows the piece at the front.
#[tactic(auto, unfolding(crate::specs::Xdr::is_cut, crate::specs::Xdr::rest_of))]
pub(crate) fn rest_of(octets: &[u8]) -> &[u8]
    requires { is_cut octets.now ≡ false }
    ensures rest { result.now ≡ rest_of octets.now }
    ensures shorter { length result.now + 8 ≤ length octets.now }
{
    after(octets, HEAD + padded(u32_at(octets, 4)))
}
