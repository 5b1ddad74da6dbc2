//! MP_REACH_NLRI and MP_UNREACH_NLRI (RFC 4760, 3 and 4).

ghost use Rattle.std.specs.Prelude.{◌≡◌, ◌≤◌, ◌⊎◌, ◌+◌, ◌++◌, ◌==◌, length, map, not, OnOk, true};
ghost use Rattle.acct_types.specs.Updates.{nlri_view, route_view};
ghost use Rattle.bgp_msg.specs.Families.{are_prefixes, family_of, hop_length, is_reach, is_unreach, reach_hop, reached, reaches, takes_hop, unreached};
ghost use Rattle.bgp_msg.specs.Routes.{routes};

use crate::pieces::behind;
use crate::prefixes::{count_prefixes, read_prefixes, read_routes};
use acct_types::numbers::{after, u16_at, u32_at, u128_at};
use acct_types::{Addr, Announce, Nlri, NoMemory};

/// The address families whose unicast routes are kept.
#[derive(Clone, Copy)]
pub(crate) enum Family {
    V4,
    V6,
}

#[tactic(auto, unfolding(crate::specs::Families::family_of))]
fn family_of(value: &[u8]) -> Option<Family>
    requires { 3 ≤ length value.now }
    ensures { result ≡ family_of value.now }
{
    if value[2] != 1 {
        return None;
    }
    match u16_at(value, 0) {
        1 => Some(Family::V4),
        2 => Some(Family::V6),
        _ => None,
    }
}

fn takes_hop(family: Family, size: u8) -> bool
    ensures { result ≡ takes_hop family size }
{
    match family {
        Family::V4 => size == 4 || size == 16 || size == 32,
        Family::V6 => size == 16 || size == 32,
    }
}

fn are_prefixes(family: Family, octets: &[u8]) -> bool
    ensures { result ≡ are_prefixes family octets.now }
{
    count_prefixes(family, octets).is_ok()
}

#[tactic(auto, unfolding(crate::specs::Families::reaches))]
fn reaches(family: Family, value: &[u8]) -> bool
    ensures { result ≡ reaches family value.now }
{
    if value.len() < 4 || !takes_hop(family, value[3]) {
        return false;
    }
    let place = 5 + usize::from(value[3]);
    value.len() >= place && are_prefixes(family, after(value, place))
}

/// Whether a value is that of MP_REACH_NLRI: of a family that isn't kept, or whole.
#[tactic(auto, unfolding(crate::specs::Families::is_reach))]
pub(crate) fn is_reach(value: &[u8]) -> bool
    ensures { result ≡ is_reach value.now }
{
    if value.len() < 3 {
        return false;
    }
    match family_of(value) {
        Some(family) => reaches(family, value),
        None => true,
    }
}

/// Whether a value is that of MP_UNREACH_NLRI: of a family that isn't kept, or whole.
#[tactic(auto, unfolding(crate::specs::Families::is_unreach))]
pub(crate) fn is_unreach(value: &[u8]) -> bool
    ensures { result ≡ is_unreach value.now }
{
    if value.len() < 3 {
        return false;
    }
    match family_of(value) {
        Some(family) => are_prefixes(family, after(value, 3)),
        None => true,
    }
}

/// The next hop of MP_REACH_NLRI of a family that is kept.
#[tactic(auto, unfolding(crate::specs::Families::reach_hop))]
fn reach_hop(value: &[u8]) -> Addr
    requires some { 4 ≤ length value.now }
    requires whole { 4 + hop_length value.now ≤ length value.now }
    requires hop { (hop_length value.now ≡ 4) ⊎ (16 ≤ hop_length value.now) }
    ensures { result ≡ reach_hop value.now }
{
    if value[3] == 4 {
        Addr::V4(u32_at(value, 4))
    } else {
        Addr::V6(u128_at(value, 4))
    }
}

/// Appends the routes that MP_REACH_NLRI announces, with room made for all of them at once.
#[tactic(auto, unfolding(crate::specs::Families::reaches, crate::specs::Families::is_reach, crate::specs::Families::reached))]
pub(crate) fn read_reached(value: &[u8], announced: &mut Vec<Announce>) -> Result<(), NoMemory>
    requires { is_reach value.now ≡ true }
    ensures { OnOk result (map route_view announced.new.items ≡ map route_view announced.old.items ++ routes (reach_hop value.now) (reached value.now)) }
{
    let Some(family) = family_of(value) else {
        return Ok(());
    };
    let prefixes = after(value, 5 + usize::from(value[3]));
    // None of them is bad, so they are counted.
    announced.reserve(count_prefixes(family, prefixes).unwrap_or(0))?;
    read_routes(family, reach_hop(value), prefixes, announced)
}

/// Appends the prefixes that MP_UNREACH_NLRI withdraws, with room made for all of them at once.
#[tactic(auto, unfolding(crate::specs::Families::is_unreach, crate::specs::Families::unreached))]
pub(crate) fn read_unreached(value: &[u8], withdrawn: &mut Vec<Nlri>) -> Result<(), NoMemory>
    requires { is_unreach value.now ≡ true }
    ensures { OnOk result (map nlri_view withdrawn.new.items ≡ map nlri_view withdrawn.old.items ++ unreached value.now) }
{
    let Some(family) = family_of(value) else {
        return Ok(());
    };
    let prefixes = after(value, 3);
    withdrawn.reserve(count_prefixes(family, prefixes).unwrap_or(0))?;
    read_prefixes(family, prefixes, withdrawn)
}

/// Whether MP_REACH_NLRI announces a prefix.
#[tactic(auto, unfolding(crate::specs::Families::reaches, crate::specs::Families::is_reach, crate::specs::Families::reached))]
pub(crate) fn reaches_some(value: &[u8]) -> bool
    requires { is_reach value.now ≡ true }
    ensures { result ≡ not (length (reached value.now) == 0) }
{
    match family_of(value) {
        Some(_) => !behind(value, 5 + usize::from(value[3])).is_empty(),
        None => false,
    }
}
