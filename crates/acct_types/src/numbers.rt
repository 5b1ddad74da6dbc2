//! Big-endian numbers at a place in octets.

ghost use Rattle.std.specs.Prelude.{◌≡◌, ◌≤◌, ◌+◌, length, drop};
ghost use Rattle.acct_types.specs.Numbers.{number_at};

use byteorder::{BigEndian, ByteOrder};

/// The number in the two octets from a place on.
#[tactic(auto, unfolding(crate::specs::Numbers::number_at))]
pub fn u16_at(octets: &[u8], place: usize) -> u16
    requires { place + 2 ≤ length octets.now }
    ensures { result ≡ number_at octets.now place 2 }
{
    BigEndian::read_u16(&octets[place..])
}

/// The number in the four octets from a place on.
#[tactic(auto, unfolding(crate::specs::Numbers::number_at))]
pub fn u32_at(octets: &[u8], place: usize) -> u32
    requires { place + 4 ≤ length octets.now }
    ensures { result ≡ number_at octets.now place 4 }
{
    BigEndian::read_u32(&octets[place..])
}

/// The number in the eight octets from a place on.
#[tactic(auto, unfolding(crate::specs::Numbers::number_at))]
pub fn u64_at(octets: &[u8], place: usize) -> u64
    requires { place + 8 ≤ length octets.now }
    ensures { result ≡ number_at octets.now place 8 }
{
    BigEndian::read_u64(&octets[place..])
}

/// The number in the sixteen octets from a place on.
#[tactic(auto, unfolding(crate::specs::Numbers::number_at))]
pub fn u128_at(octets: &[u8], place: usize) -> u128
    requires { place + 16 ≤ length octets.now }
    ensures { result ≡ number_at octets.now place 16 }
{
    BigEndian::read_u128(&octets[place..])
}

/// The number in one to eight octets from a place on.
#[tactic(auto, unfolding(crate::specs::Numbers::number_at))]
pub fn uint_at(octets: &[u8], place: usize, width: usize) -> u64
    requires some { 1 ≤ width }
    requires fits { width ≤ 8 }
    requires room { place + width ≤ length octets.now }
    ensures { result ≡ number_at octets.now place width }
{
    match width {
        1 => u64::from(octets[place]),
        2 => u64::from(u16_at(octets, place)),
        4 => u64::from(u32_at(octets, place)),
        _ => BigEndian::read_uint(&octets[place..], width),
    }
}

/// The octets from a place on.
pub fn after(octets: &[u8], place: usize) -> &[u8]
    requires { place ≤ length octets.now }
    ensures { result.now ≡ drop place octets.now }
{
    &octets[place..]
}
