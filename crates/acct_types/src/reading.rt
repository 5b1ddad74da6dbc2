//! Addresses from text.

ghost use Rattle.std.specs.Prelude.{◌≡◌};
ghost use Rattle.acct_types.specs.AddrText.{IsReadingOf, ReadsSpellings, ReadsTexts, address_of, has_dot, v4_of, v6_of};

use crate::Addr;
use std::net::{Ipv4Addr, Ipv6Addr};

/// The address that a text spells, or None. IPv6 digits are of either case, and no dotted tail is taken
/// (RFC 4291 section 2.2, without its third form). Takes no memory.
#[tactic(auto, using(crate::proofs::SpellLemmas::is_reading))]
pub fn read_address(text: &[u8]) -> Option<Addr>
    ensures exact { IsReadingOf text.now result }
    ensures value { result ≡ address_of text.now }
{
    read_either(text)
}

#[tactic(auto, unfolding(crate::specs::AddrText::address_of))]
fn read_either(text: &[u8]) -> Option<Addr>
    ensures { result ≡ address_of text.now }
{
    if contains_dot(text) {
        Some(Addr::V4(read_v4(text)?))
    } else {
        Some(Addr::V6(read_v6(text)?))
    }
}

fn contains_dot(text: &[u8]) -> bool
    ensures { result ≡ has_dot text.now }
{
    text.iter().any(|octet| *octet == b'.')
}

fn read_v4(text: &[u8]) -> Option<u32>
    ensures { result ≡ v4_of text.now }
{
    match Ipv4Addr::parse_ascii(text) {
        Ok(address) => Some(address.to_bits()),
        Err(_) => None,
    }
}

fn read_v6(text: &[u8]) -> Option<u128>
    ensures { result ≡ v6_of text.now }
{
    match Ipv6Addr::parse_ascii(text) {
        Ok(address) => Some(address.to_bits()),
        Err(_) => None,
    }
}

/// A law: a text is read as an address exactly where it spells it.
pub fn spellings_are_read()
    ensures { ReadsSpellings }
{}

/// A law: the text of an address is read as that address.
pub fn texts_are_read()
    ensures { ReadsTexts }
{}
