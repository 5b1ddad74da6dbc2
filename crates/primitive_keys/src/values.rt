//! Parts of a record that may be absent.

ghost use Rattle.std.specs.Prelude.{◌≡◌};
ghost use Rattle.primitive_keys.specs.Values.{address_in, mac_in, net_of, number_in};

use acct_types::{Addr, Prefix};

/// The mask of bits that a MAC address has.
const MAC_BITS: u64 = 0xffff_ffff_ffff;

pub fn number_in(number: Option<u64>) -> u64
    ensures { result ≡ number_in number }
{
    number.unwrap_or(0)
}

pub fn address_in(address: Option<Addr>) -> Addr
    ensures { result ≡ address_in address }
{
    address.unwrap_or(Addr::V4(0))
}

pub fn mac_in(mac: Option<u64>) -> u64
    ensures { result ≡ mac_in mac }
{
    number_in(mac) & MAC_BITS
}

/// The address with the bits past the mask 0, whole where it has fewer bits.
pub fn net_of(mask: u64, address: Addr) -> Addr
    ensures { result ≡ net_of mask address }
{
    let width = match address {
        Addr::V4(_) => 32,
        Addr::V6(_) => 128,
    };
    match Prefix::new(address, mask.min(width) as u8) {
        Some(prefix) => prefix.addr,
        None => address,
    }
}
