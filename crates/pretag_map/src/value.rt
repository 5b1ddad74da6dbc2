//! The values that the members of a line give.

ghost use Rattle.std.specs.Prelude.{◌≡◌, ◌≤◌, true, nat_le, IfOk, IfSome, map, option_map};
ghost use Rattle.acct_types.specs.Prefixes.{width_of};
ghost use Rattle.config_keys.specs.Table.{fits};
ghost use Rattle.pretag_map.specs.Labels.{is_label};
ghost use Rattle.pretag_map.specs.Networks.{length_in, network_around, network_in};
ghost use Rattle.pretag_map.specs.Values.{address_given, label_in, label_given, network_given, number_given, takes, value_of};
ghost use Rattle.pretag_map.specs.Views.{member_view, network_view};

use crate::is_label;
use crate::keys::{Kind, is_word};
use crate::member::{Member, place_of};
use acct_types::{Addr, NoMemory, Prefix, Text, read_address};
use config_keys::{Range, read_number};
use std::alloc::Global;

/// How many of an address's bits may count.
const LENGTHS: Range = Range {
    zero: false,
    least: 0,
    most: 128,
};

fn width_of(address: Addr) -> u8
    ensures { result ≡ width_of address }
{
    match address {
        Addr::V4(_) => 32,
        Addr::V6(_) => 128,
    }
}

#[tactic(auto, using(crate::proofs::NetworkLemmas::around))]
fn network_around(address: Addr, len: u8) -> Option<Prefix>
    ensures { option_map network_view result ≡ network_around address len }
{
    Prefix::new(address, len)
}

fn read_length(text: &[u8]) -> Option<u8>
    ensures { result ≡ length_in text.now }
{
    match read_number(LENGTHS, text) {
        Some(number) => Some(number as u8),
        None => None,
    }
}

/// The network that a text gives: an address, or an address, a slash and how many of its bits count.
pub fn read_network(text: &[u8]) -> Option<Prefix>
    ensures { option_map network_view result ≡ network_in text.now }
{
    match place_of(text, b'/') {
        None => {
            let address = read_address(text)?;
            network_around(address, width_of(address))
        }
        Some(place) => {
            let address = read_address(&text[..place])?;
            let len = read_length(&text[place + 1..])?;
            network_around(address, len)
        }
    }
}

/// Whether a key of this kind takes the value.
pub fn takes(kind: Kind, value: &[u8]) -> bool
    ensures { result ≡ takes kind value.now }
{
    match kind {
        Kind::Number(range) => read_number(range, value).is_some(),
        Kind::Network => read_network(value).is_some(),
        Kind::Address => read_address(value).is_some(),
        Kind::Label => is_label(value),
    }
}

/// The value of a key, where it is there.
pub fn value_of<'a>(members: &[Member<'a>], key: &[u8]) -> Option<&'a [u8]>
    ensures { option_map (λ v. v.now) result ≡ value_of (map member_view members.now) key.now }
{
    for member in members {
        if is_word(member.key, key) {
            return Some(member.value);
        }
    }
    None
}

/// The number that a key gives.
pub fn number_given(range: Range, members: &[Member<'_>], key: &[u8]) -> Option<u64>
    ensures value { result ≡ number_given range (map member_view members.now) key.now }
    ensures within { IfSome result (λ n. fits range n ≡ true) }
{
    read_number(range, value_of(members, key)?)
}

/// The network that a key gives.
pub fn network_given(members: &[Member<'_>], key: &[u8]) -> Option<Prefix>
    ensures { option_map network_view result ≡ network_given (map member_view members.now) key.now }
{
    read_network(value_of(members, key)?)
}

/// The address that a key gives.
pub fn address_given(members: &[Member<'_>], key: &[u8]) -> Option<Addr>
    ensures { result ≡ address_given (map member_view members.now) key.now }
{
    read_address(value_of(members, key)?)
}

/// The label that a key gives.
pub fn label_given(
    alloc: Global,
    members: &[Member<'_>],
    key: &[u8],
) -> Result<Option<Text>, NoMemory>
    ensures value { IfOk result (λ label. label ≡ label_given (map member_view members.now) key.now) }
    ensures good { IfOk result (λ label. IfSome label (λ words. is_label words ≡ true)) }
{
    match value_of(members, key) {
        Some(value) if is_label(value) => Ok(Some(Text::from_slice(alloc, value)?)),
        _ => Ok(None),
    }
}
