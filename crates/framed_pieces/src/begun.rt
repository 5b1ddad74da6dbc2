//! A message of which not all octets have come.

ghost use Rattle.std.specs.Prelude.{◌≡◌, ◌++◌, ℕ, [], length, Ok, Some, None, OnOk, IfOk};
ghost use Rattle.framed_pieces.specs.Begun.{needs_more};

use crate::Framing;
use acct_types::{NoMemory, Octets};

// Whether more octets are needed.
fn needs_more<F: Framing>(begun: &[u8]) -> bool
    ensures { result ≡ needs_more F.framed begun.now }
{
    match F::frame(begun) {
        Ok(size) => size.is_none(),
        Err(_) => false,
    }
}

/// Moves octets of a piece behind a message begun, as many as it needs, and gives those that are left.
pub(crate) fn complete<'a, F: Framing>(
    begun: &mut Octets,
    piece: &'a [u8],
) -> Result<&'a [u8], NoMemory>
    requires { F.framed begun.old ≡ Ok None }
    ensures same { IfOk result (λ rest. begun.new ++ rest.now ≡ begun.old ++ piece.now) }
    ensures one { OnOk result ((size : ℕ) → F.framed begun.new ≡ Ok (Some size) → size ≡ length begun.new) }
    ensures all { IfOk result (λ rest. F.framed begun.new ≡ Ok None → rest.now ≡ []) }
{
    let mut rest = piece;
    while !rest.is_empty() && needs_more::<F>(begun.as_slice()) {
        let size = F::wanted(begun.as_slice()).min(rest.len());
        let (front, later) = rest.split_at(size);
        begun.extend(front)?;
        rest = later;
    }
    Ok(rest)
}
