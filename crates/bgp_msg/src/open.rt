//! OPEN (RFC 4271, 4.2 and 6.2, RFC 5492 and RFC 6793).

ghost use Rattle.std.specs.Prelude.{◌≡◌, ◌≤◌, ◌+◌, length, None, true};
ghost use Rattle.bgp_msg.specs.Frames.{fault};
ghost use Rattle.bgp_msg.specs.Items.{item_size, items};
ghost use Rattle.bgp_msg.specs.Opens.{are_capabilities, hello_of, is_capability, last_told, open_fault, parameter_fault, parameters_fault, tell_some, tells_some, told_by, told_in};

use crate::add_path::add_path_in;
use crate::families::Family;
use crate::pieces::{behind, front};
use crate::{BgpFault, Hello};
use acct_types::numbers::{after, u16_at, u32_at};

const CAPABILITIES: u8 = 2;

const FOUR_OCTET_NUMBERS: u8 = 65;

fn fault(subcode: u8, place: u32) -> BgpFault
    ensures { result ≡ fault 2 subcode place }
{
    BgpFault {
        code: 2,
        subcode,
        place,
    }
}

/// The size of the parameter or capability at the front.
#[tactic(auto, unfolding(crate::specs::Items::item_size))]
pub(crate) fn item_size(octets: &[u8]) -> usize
    ensures size { result ≡ item_size octets.now }
    ensures some { 2 ≤ result }
{
    if octets.len() < 2 {
        2
    } else {
        2 + usize::from(octets[1])
    }
}

#[tactic(auto, unfolding(crate::specs::Items::item_size, crate::specs::Opens::is_capability))]
fn is_capability(capability: &[u8]) -> bool
    ensures { result ≡ is_capability capability.now }
{
    capability.len() >= item_size(capability)
        && (capability[0] != FOUR_OCTET_NUMBERS || capability.len() == 6)
}

fn are_capabilities(octets: &[u8]) -> bool
    ensures { result ≡ are_capabilities (items octets.now) }
{
    let mut rest = octets;
    while !rest.is_empty() {
        let size = item_size(rest);
        if !is_capability(front(rest, size)) {
            return false;
        }
        rest = behind(rest, size);
    }
    true
}

// The autonomous system that a capability tells.
#[tactic(auto, unfolding(crate::specs::Items::item_size, crate::specs::Opens::is_capability))]
fn told_by(capability: &[u8]) -> Option<u32>
    requires { is_capability capability.now ≡ true }
    ensures { result ≡ told_by capability.now }
{
    if capability[0] == FOUR_OCTET_NUMBERS {
        Some(u32_at(capability, 2))
    } else {
        None
    }
}

#[tactic(auto, unfolding(crate::specs::Items::item_size, crate::specs::Opens::is_capability, crate::specs::Opens::tells_some))]
fn tells_some(capability: &[u8]) -> bool
    requires { is_capability capability.now ≡ true }
    ensures { result ≡ tells_some capability.now }
{
    capability[0] != FOUR_OCTET_NUMBERS || u32_at(capability, 2) != 0
}

// Whether no capability has the autonomous system 0.
fn tell_some(octets: &[u8]) -> bool
    requires { are_capabilities (items octets.now) ≡ true }
    ensures { result ≡ tell_some (items octets.now) }
{
    let mut rest = octets;
    while !rest.is_empty() {
        let size = item_size(rest);
        if !tells_some(front(rest, size)) {
            return false;
        }
        rest = behind(rest, size);
    }
    true
}

// What the last of the capabilities that tell it says.
fn last_told(octets: &[u8]) -> Option<u32>
    requires { are_capabilities (items octets.now) ≡ true }
    ensures { result ≡ last_told (items octets.now) }
{
    let mut told = None;
    let mut rest = octets;
    while !rest.is_empty() {
        let size = item_size(rest);
        told = told_by(front(rest, size)).or(told);
        rest = behind(rest, size);
    }
    told
}

#[tactic(auto, unfolding(crate::specs::Items::item_size, crate::specs::Opens::parameter_fault))]
fn parameter_fault(place: u32, parameter: &[u8]) -> Option<BgpFault>
    ensures { result ≡ parameter_fault place parameter.now }
{
    if parameter.len() < item_size(parameter) {
        return Some(fault(0, place));
    }
    if parameter[0] != CAPABILITIES {
        return Some(fault(4, place));
    }
    let capabilities = after(parameter, 2);
    if !are_capabilities(capabilities) {
        return Some(fault(0, place));
    }
    if !tell_some(capabilities) {
        return Some(fault(2, place));
    }
    None
}

fn parameters_fault(start: u32, octets: &[u8]) -> Option<BgpFault>
    requires { start + length octets.now ≤ 4096 }
    ensures { result ≡ parameters_fault start (items octets.now) }
{
    let mut place = start;
    let mut rest = octets;
    while !rest.is_empty() {
        let size = item_size(rest);
        let parameter = front(rest, size);
        let found = parameter_fault(place, parameter);
        if found.is_some() {
            return found;
        }
        place += parameter.len() as u32;
        rest = behind(rest, size);
    }
    None
}

/// What is wrong with an OPEN, first: subcode 1 of code 2 where the version isn't 4, 2 where the autonomous system is 0, 6 where the
/// hold time is 1 or 2, 3 where the identifier is 0, 0 where the parameters don't fill the message. Then for each parameter
/// in turn: 0 where it is cut, 4 where its type isn't 2, 0 where a capability is cut or one of four-octet numbers hasn't
/// four octets, 2 where such a one has the autonomous system 0.
#[tactic(auto, unfolding(crate::specs::Opens::open_fault))]
pub(crate) fn open_fault(octets: &[u8]) -> Option<BgpFault>
    requires whole { 29 ≤ length octets.now }
    requires short { length octets.now ≤ 4096 }
    ensures { result ≡ open_fault octets.now }
{
    if octets[19] != 4 {
        return Some(fault(1, 19));
    }
    if u16_at(octets, 20) == 0 {
        return Some(fault(2, 20));
    }
    let hold = u16_at(octets, 22);
    if hold == 1 || hold == 2 {
        return Some(fault(6, 22));
    }
    if u32_at(octets, 24) == 0 {
        return Some(fault(3, 24));
    }
    if octets.len() != 29 + usize::from(octets[28]) {
        return Some(fault(0, 28));
    }
    parameters_fault(29, after(octets, 29))
}

// What the last parameter that tells it says.
fn told_in(octets: &[u8]) -> Option<u32>
    requires { parameters_fault 29 (items octets.now) ≡ None }
    ensures { result ≡ told_in (items octets.now) }
{
    let mut told = None;
    let mut rest = octets;
    while !rest.is_empty() {
        let size = item_size(rest);
        told = last_told(after(front(rest, size), 2)).or(told);
        rest = behind(rest, size);
    }
    told
}

/// What an OPEN without a fault says.
#[tactic(auto, unfolding(crate::specs::Opens::hello_of, crate::specs::Opens::open_fault))]
pub(crate) fn read_open(octets: &[u8]) -> Hello
    requires whole { 29 ≤ length octets.now }
    requires good { open_fault octets.now ≡ None }
    ensures { result ≡ hello_of octets.now }
{
    let parameters = after(octets, 29);
    let told = told_in(parameters);
    Hello {
        asn: told.unwrap_or(u32::from(u16_at(octets, 20))),
        hold: u16_at(octets, 22),
        id: u32_at(octets, 24),
        four_octets: told.is_some(),
        path_ids_v4: false,
        path_ids_v6: false,
        add_path_v4: add_path_in(Family::V4, parameters),
        add_path_v6: add_path_in(Family::V6, parameters),
    }
}
