//! Addresses as text.

ghost use Rattle.std.specs.Prelude.{◌≡◌, ◌+◌, ◌*◌, ◌<◌, ◌≤◌, [], ◌∷◌, ◌++◌, Some, IfOk, OnErr, OnOk, decimal, length};
ghost use Rattle.std.specs.Char.{digit_char};
ghost use Rattle.std.specs.Net.Text.{groups_text, hex, hex_groups_text, ipv4_text, longest_zero_run};
ghost use Rattle.acct_types.specs.AddrText.{address_text, groups_in, octets_in, prefix_text};

use crate::{Addr, NoMemory, Octets, Prefix};
use std::marker::Model;
use std::net::Ipv6Addr;
use std::{fmt, str};

/// The most octets that the text of a prefix has: 39 of an address, and `/128`.
const LONGEST: usize = 43;

/// The text of an address or a prefix, on the stack. It is written from its end to its start.
#[derive(Drop)]
pub struct AddressText {
    octets: [u8; LONGEST],
    start: usize,
}

impl Model for AddressText {
    ghost use Rattle.std.specs.Prelude.{ℕ, ◌≤◌, List, drop};

    ghost Value = { List ℕ };

    ghost view = { λ text. drop text.start text.octets };

    ghost invariant = { λ text. text.start ≤ 43 };
}

impl AddressText {
    /// IPv4 as four decimals; IPv6 in lower case as RFC 5952 section 4 has it, never with a dotted tail.
    pub fn of(address: &Addr) -> AddressText
        ensures { result ≡ address_text address.now }
    {
        let mut text = AddressText::empty();
        text.prepend_address(address);
        text
    }

    /// The text of the address, a slash and the length.
    pub fn of_prefix(prefix: &Prefix) -> AddressText
        ensures { result ≡ prefix_text prefix.now }
    {
        let mut text = AddressText::empty();
        text.prepend_decimal(prefix.len);
        text.prepend(b'/');
        text.prepend_address(&prefix.addr);
        text
    }

    /// The octets of the text.
    pub fn as_slice(&self) -> &[u8]
        ensures { result.now ≡ self.now }
    {
        &self.octets[self.start..]
    }

    /// The text as UTF-8, which it always is.
    fn as_str(&self) -> Result<&str, fmt::Error>
        ensures { IfOk result (λ text. text.now ≡ self.now) }
    {
        match str::from_utf8(self.as_slice()) {
            Ok(text) => Ok(text),
            Err(_) => Err(fmt::Error),
        }
    }

    fn empty() -> AddressText
        ensures { result ≡ [] }
    {
        AddressText {
            octets: [0; LONGEST],
            start: LONGEST,
        }
    }

    fn prepend(&mut self, octet: u8)
        requires { length self.old < LONGEST }
        ensures { self.new ≡ octet ∷ self.old }
    {
        self.start -= 1;
        self.octets[self.start] = octet;
    }

    #[tactic(auto, using(crate::proofs::TextLemmas::short_decimal))]
    fn prepend_decimal(&mut self, number: u8)
        requires { length self.old + 3 ≤ LONGEST }
        ensures text { self.new ≡ decimal number ++ self.old }
        ensures short { length self.new ≤ length self.old + 3 }
    {
        self.start = itoa::write_digits(number as u64, &mut self.octets, self.start);
    }

    #[tactic(auto, unfolding(crate::specs::AddrText::address_text))]
    fn prepend_address(&mut self, address: &Addr)
        requires { length self.old ≤ 4 }
        ensures { self.new ≡ address_text address.now ++ self.old }
    {
        match *address {
            Addr::V4(number) => self.prepend_v4(number),
            Addr::V6(number) => self.prepend_v6(number),
        }
    }

    fn prepend_v4(&mut self, number: u32)
        requires { length self.old ≤ 4 }
        ensures { self.new ≡ ipv4_text (octets_in number) ++ self.old }
    {
        let [a, b, c, d] = number.to_be_bytes();
        self.prepend_decimal(d);
        self.prepend(b'.');
        self.prepend_decimal(c);
        self.prepend(b'.');
        self.prepend_decimal(b);
        self.prepend(b'.');
        self.prepend_decimal(a);
    }

    #[tactic(auto, unfolding(std::specs::Net::Text::hex_groups_text, std::specs::Net::Addr::IsIpv6OfBits))]
    fn prepend_v6(&mut self, number: u128)
        requires { length self.old ≤ 4 }
        ensures { self.new ≡ hex_groups_text (groups_in number) ++ self.old }
    {
        let all = Ipv6Addr::from_bits(number).segments();
        let groups = &all[..];
        let (start, count) = longest_zeros(groups);
        if count > 1 {
            self.prepend_groups(&groups[start + count..]);
            self.prepend(b':');
            self.prepend(b':');
            self.prepend_groups(&groups[..start]);
        } else {
            self.prepend_groups(groups);
        }
    }

    fn prepend_groups(&mut self, groups: &[u16])
        requires { length self.old + 5 * length groups.now ≤ 44 }
        ensures text { self.new ≡ groups_text groups.now ++ self.old }
        ensures short { length self.new ≤ length self.old + 5 * length groups.now }
    {
        let [first, rest @ ..] = groups else { return };
        for place in (0..rest.len()).rev() {
            self.prepend_group(rest[place]);
            self.prepend(b':');
        }
        self.prepend_group(*first);
    }

    #[tactic(auto, unfolding(std::specs::Net::Text::hex))]
    fn prepend_group(&mut self, group: u16)
        requires { length self.old + 4 ≤ LONGEST }
        ensures text { self.new ≡ hex group ++ self.old }
        ensures short { length self.new ≤ length self.old + 4 }
    {
        self.prepend(hex_digit(group % 16));
        if group >= 0x10 {
            self.prepend(hex_digit(group / 0x10 % 16));
        }
        if group >= 0x100 {
            self.prepend(hex_digit(group / 0x100 % 16));
        }
        if group >= 0x1000 {
            self.prepend(hex_digit(group / 0x1000));
        }
    }
}

impl Addr {
    /// Appends the text. After NoMemory `out` is unchanged.
    pub fn append_text(&self, out: &mut Octets) -> Result<(), NoMemory>
        ensures ok { OnOk result (out.new ≡ out.old ++ address_text self.now) }
        ensures err { OnErr result (out.new ≡ out.old) }
    {
        out.extend(AddressText::of(self).as_slice())
    }
}

impl Prefix {
    /// Appends the text of the address, a slash and the length. After NoMemory `out` is unchanged.
    pub fn append_text(&self, out: &mut Octets) -> Result<(), NoMemory>
        ensures ok { OnOk result (out.new ≡ out.old ++ prefix_text self.now) }
        ensures err { OnErr result (out.new ≡ out.old) }
    {
        out.extend(AddressText::of_prefix(self).as_slice())
    }
}

impl fmt::Display for Addr {
    ghost output = { λ address. Some (address_text address) };

    fn fmt<W: fmt::Write>(&self, f: &mut fmt::Formatter<W>) -> fmt::Result {
        f.pad(AddressText::of(self).as_str()?)
    }
}

impl fmt::Display for Prefix {
    ghost output = { λ prefix. Some (prefix_text prefix) };

    fn fmt<W: fmt::Write>(&self, f: &mut fmt::Formatter<W>) -> fmt::Result {
        f.pad(AddressText::of_prefix(self).as_str()?)
    }
}

fn hex_digit(value: u16) -> u8
    requires { value < 16 }
    ensures { result ≡ digit_char value }
{
    if value < 10 {
        b'0' + value as u8
    } else {
        b'a' + (value - 10) as u8
    }
}

/// Where the first of the longest runs of zero groups begins, and how many groups it has.
fn longest_zeros(groups: &[u16]) -> (usize, usize)
    ensures value { result ≡ longest_zero_run groups.now }
    ensures within { result.0 + result.1 ≤ length groups.now }
{
    let (mut first, mut longest) = (groups.len(), 0);
    let mut zeros = 0;
    for place in (0..groups.len()).rev() {
        zeros = if groups[place] == 0 { zeros + 1 } else { 0 };
        if zeros >= longest {
            (first, longest) = (place, zeros);
        }
    }
    (first, longest)
}
