ghost use Rattle.std.specs.Prelude.{◌≡◌, ◌↔◌, ◌<◌, ◌≤◌, IsNone, IfSome};
ghost use Rattle.acct_types.specs.Prefixes.{cleared_after, first_bits, last_bits, network_of, number_of, width_of};

use crate::Addr;

/// An address of which the bits past the first `len` are 0. Prefixes order by address, then length.
#[derive(Clone, Copy, Debug, PartialEq, Eq, PartialOrd, Ord, Hash)]
pub struct Prefix {
    pub addr: Addr,
    pub len: u8,
    pub ghost within: { len ≤ width_of addr },
    pub ghost cleared: { last_bits len (width_of addr) (number_of addr) ≡ 0 },
}

impl Prefix {
    ghost use Rattle.acct_types.specs.Cover.{covers};

    /// The first `len` bits of an address, or None where it has fewer. Takes no memory.
    #[tactic(auto, using(crate::proofs::PrefixLemmas::no_last_bits))]
    pub fn new(addr: Addr, len: u8) -> Option<Prefix>
        ensures none { IsNone result ↔ (width_of addr < len) }
        ensures addr { IfSome result (λ prefix. prefix.addr ≡ network_of len addr) }
        ensures len { IfSome result (λ prefix. prefix.len ≡ len) }
    {
        match addr {
            Addr::V4(number) if len <= 32 => {
                let addr = Addr::V4(clear_v4(number, len));
                Some(Prefix { addr, len })
            }
            Addr::V6(number) if len <= 128 => {
                let addr = Addr::V6(clear_v6(number, len));
                Some(Prefix { addr, len })
            }
            _ => None,
        }
    }

    /// Whether an address is of the prefix's family and begins with its bits. Takes no memory.
    pub fn covers(&self, address: &Addr) -> bool
        ensures { result ≡ covers self.now address.now }
    {
        match (self.addr, *address) {
            (Addr::V4(own), Addr::V4(other)) => start_v4(own, self.len)
                == start_v4(other, self.len),
            (Addr::V6(own), Addr::V6(other)) => start_v6(own, self.len)
                == start_v6(other, self.len),
            _ => false,
        }
    }
}

/// The first bits of an IPv4 address.
fn start_v4(number: u32, len: u8) -> u32
    requires { len ≤ 32 }
    ensures { result ≡ first_bits len 32 number }
{
    if len == 0 { 0 } else { number >> (32 - len) }
}

/// The first bits of an IPv6 address.
fn start_v6(number: u128, len: u8) -> u128
    requires { len ≤ 128 }
    ensures { result ≡ first_bits len 128 number }
{
    if len == 0 { 0 } else { number >> (128 - len) }
}

/// An IPv4 address with the bits past the first 0.
fn clear_v4(number: u32, len: u8) -> u32
    requires { len ≤ 32 }
    ensures { result ≡ cleared_after len 32 number }
{
    if len == 0 {
        0
    } else {
        start_v4(number, len) << (32 - len)
    }
}

/// An IPv6 address with the bits past the first 0.
fn clear_v6(number: u128, len: u8) -> u128
    requires { len ≤ 128 }
    ensures { result ≡ cleared_after len 128 number }
{
    if len == 0 {
        0
    } else {
        start_v6(number, len) << (128 - len)
    }
}
