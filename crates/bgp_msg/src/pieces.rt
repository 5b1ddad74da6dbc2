//! Octets that are made of pieces, one behind another, each of which tells its length at its front.

ghost use Rattle.std.specs.Prelude.{◌≡◌, ◌≤◌, ◌<◌, ◌+◌, length, take, drop, min};

/// The piece of this size at the front: fewer octets where it passes the end.
pub(crate) fn front(octets: &[u8], size: usize) -> &[u8]
    ensures piece { result.now ≡ take size octets.now }
    ensures length { length result.now ≡ min size (length octets.now) }
{
    if size < octets.len() {
        &octets[..size]
    } else {
        octets
    }
}

/// What stands behind a piece of this size.
pub(crate) fn behind(octets: &[u8], size: usize) -> &[u8]
    ensures rest { result.now ≡ drop size octets.now }
{
    if size < octets.len() {
        &octets[size..]
    } else {
        &[]
    }
}
