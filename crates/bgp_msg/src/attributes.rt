//! Path attributes (RFC 4271, 4.3 and 6.3).

ghost use Rattle.std.specs.Prelude.{◌≡◌, ◌≤◌, ◌+◌, ℕ, List, [], length, IfOk, IfErr, Some, None};
ghost use Rattle.bgp_msg.specs.Attributes.{attribute_fault, attribute_size, attribute_type, attributes_fault, form_fault, head_size, is_among, rule_fault, rule_of, value_of};
ghost use Rattle.bgp_msg.specs.Frames.{fault};
ghost use Rattle.bgp_msg.specs.Pieces.{pieces};
ghost use Rattle.bgp_msg.specs.Values.{HaveForms, Keeps};

use crate::families::{is_reach, is_unreach};
use crate::paths::is_path;
use crate::pieces::{behind, front};
use crate::values::Values;
use crate::{Agreed, BgpFault};
use acct_types::numbers::u16_at;

pub(crate) const ORIGIN: u8 = 1;

pub(crate) const AS_PATH: u8 = 2;

pub(crate) const NEXT_HOP: u8 = 3;

pub(crate) const MULTI_EXIT_DISC: u8 = 4;

pub(crate) const LOCAL_PREF: u8 = 5;

const ATOMIC_AGGREGATE: u8 = 6;

pub(crate) const COMMUNITIES: u8 = 8;

pub(crate) const MP_REACH_NLRI: u8 = 14;

pub(crate) const MP_UNREACH_NLRI: u8 = 15;

pub(crate) const AS4_PATH: u8 = 17;

// The two highest bits of the flags.
const WELL_KNOWN: u8 = 1;

const OPTIONAL: u8 = 2;

const OPTIONAL_TRANSITIVE: u8 = 3;

/// What the value of an attribute must be.
#[derive(Clone, Copy)]
pub(crate) enum Form {
    Origin,
    Path,
    /// So many octets.
    Exactly(u8),
    /// Numbers of four octets.
    Numbers,
    Reach,
    Unreach,
    /// Anything.
    Free,
}

/// What an attribute that is known must be.
#[derive(Clone, Copy)]
pub(crate) struct Rule {
    /// The two highest bits of its flags.
    pub(crate) class: u8,
    pub(crate) form: Form,
}

#[tactic(auto, unfolding(crate::specs::Attributes::rule_of))]
fn rule_of(kind: u8) -> Option<Rule>
    ensures { result ≡ rule_of kind }
{
    let (class, form) = match kind {
        ORIGIN => (WELL_KNOWN, Form::Origin),
        AS_PATH => (WELL_KNOWN, Form::Path),
        NEXT_HOP => (WELL_KNOWN, Form::Exactly(4)),
        MULTI_EXIT_DISC => (OPTIONAL, Form::Exactly(4)),
        LOCAL_PREF => (WELL_KNOWN, Form::Exactly(4)),
        ATOMIC_AGGREGATE => (WELL_KNOWN, Form::Exactly(0)),
        COMMUNITIES => (OPTIONAL_TRANSITIVE, Form::Numbers),
        MP_REACH_NLRI => (OPTIONAL, Form::Reach),
        MP_UNREACH_NLRI => (OPTIONAL, Form::Unreach),
        AS4_PATH => (OPTIONAL_TRANSITIVE, Form::Free),
        _ => return None,
    };
    Some(Rule { class, form })
}

#[tactic(auto, unfolding(crate::specs::Attributes::head_size))]
fn head_size(octets: &[u8]) -> usize
    requires { 1 ≤ length octets.now }
    ensures head { result ≡ head_size octets.now }
    ensures some { 3 ≤ result }
    ensures few { result ≤ 4 }
{
    if octets[0] % 32 >= 16 { 4 } else { 3 }
}

#[tactic(auto, unfolding(crate::specs::Attributes::head_size, crate::specs::Attributes::attribute_size))]
fn attribute_size(octets: &[u8]) -> usize
    requires { 1 ≤ length octets.now }
    ensures size { result ≡ attribute_size octets.now }
    ensures some { 3 ≤ result }
    ensures head { head_size octets.now ≤ result }
{
    let head = head_size(octets);
    if octets.len() < head {
        head
    } else if head == 4 {
        head + usize::from(u16_at(octets, 2))
    } else {
        head + usize::from(octets[2])
    }
}

/// The value of an attribute, as far as it is there.
#[tactic(auto, unfolding(crate::specs::Attributes::value_of))]
pub(crate) fn value_of(attribute: &[u8]) -> &[u8]
    requires { 1 ≤ length attribute.now }
    ensures value { result.now ≡ value_of attribute.now }
    ensures length { length result.now ≤ length attribute.now }
{
    let head = head_size(attribute);
    behind(attribute, head)
}

/// The type of an attribute, 0 where it isn't there.
pub(crate) fn type_of(attribute: &[u8]) -> u8
    ensures { result ≡ attribute_type attribute.now }
{
    if attribute.len() < 2 { 0 } else { attribute[1] }
}

#[tactic(auto, unfolding(crate::specs::Attributes::form_fault))]
fn form_fault(agreed: Agreed, form: Form, value: &[u8]) -> Option<u8>
    ensures { result ≡ form_fault agreed form value.now }
{
    let (good, subcode) = match form {
        Form::Origin if value.len() != 1 => (false, 5),
        Form::Origin => (value[0] <= 2, 6),
        Form::Path => (is_path(agreed.four_octets, value), 11),
        Form::Exactly(size) => (value.len() == usize::from(size), 5),
        Form::Numbers => (value.len() % 4 == 0, 5),
        Form::Reach => (is_reach(value), 9),
        Form::Unreach => (is_unreach(value), 9),
        Form::Free => (true, 0),
    };
    if good { None } else { Some(subcode) }
}

fn rule_fault(agreed: Agreed, attribute: &[u8]) -> Option<u8>
    requires { 1 ≤ length attribute.now }
    ensures { result ≡ rule_fault agreed attribute.now (rule_of (attribute_type attribute.now)) }
{
    let class = attribute[0] / 64;
    let Some(rule) = rule_of(type_of(attribute)) else {
        return if class >= OPTIONAL { None } else { Some(2) };
    };
    if class != rule.class {
        return Some(4);
    }
    form_fault(agreed, rule.form, value_of(attribute))
}

// What is wrong with an attribute, of which is said whether its type came before.
#[tactic(auto, unfolding(crate::specs::Attributes::attribute_fault))]
fn attribute_fault(agreed: Agreed, again: bool, attribute: &[u8]) -> Option<u8>
    requires { 1 ≤ length attribute.now }
    ensures { (before : List ℕ) → again ≡ is_among (attribute_type attribute.now) before → result ≡ attribute_fault agreed before attribute.now }
{
    if attribute.len() < attribute_size(attribute) || again {
        return Some(1);
    }
    rule_fault(agreed, attribute)
}

/// A fault of an UPDATE (RFC 4271, 6.3).
pub(crate) fn fault(subcode: u8, place: u32) -> BgpFault
    ensures { result ≡ fault 3 subcode place }
{
    BgpFault {
        code: 3,
        subcode,
        place,
    }
}

/// The values of attributes, of which the first stands at this place, in one pass; or what is wrong with them first: subcode 1 of
/// code 3 where one is cut or its type came before, 2 where its type isn't known and it isn't optional, 4 where its flags aren't those of
/// its type, and what its form says. An attribute is judged whole before the next one.
pub(crate) fn read_attributes(
    agreed: Agreed,
    start: u32,
    octets: &[u8],
) -> Result<Values<'_>, BgpFault>
    requires { start + length octets.now ≤ 4096 }
    ensures good { IfOk result (λ _. attributes_fault agreed [] start (pieces attribute_size octets.now) ≡ None) }
    ensures values { IfOk result (λ values. Keeps values (pieces attribute_size octets.now)) }
    ensures forms { IfOk result (λ values. HaveForms agreed values) }
    ensures fault { IfErr result (λ fault. attributes_fault agreed [] start (pieces attribute_size octets.now) ≡ Some fault) }
{
    let mut seen = [false; 256];
    let mut values = Values::none();
    let mut place = start;
    let mut rest = octets;
    while !rest.is_empty() {
        let size = attribute_size(rest);
        let attribute = front(rest, size);
        let kind = usize::from(type_of(attribute));
        if let Some(subcode) = attribute_fault(agreed, seen[kind], attribute) {
            return Err(fault(subcode, place));
        }
        seen[kind] = true;
        values.keep(attribute);
        place += attribute.len() as u32;
        rest = behind(rest, size);
    }
    Ok(values)
}
