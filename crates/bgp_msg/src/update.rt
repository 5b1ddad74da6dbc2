//! UPDATE (RFC 4271, 4.3 and 6.3, and RFC 4760). Its parts are judged first, and then read.

ghost use Rattle.std.specs.Prelude.{◌≡◌, ◌≤◌, ◌+◌, ◌++◌, ◌==◌, ℕ, List, length, map, not, option_copied, IfErr, IfOk, IfSome, OnOk, None, Some, true};
ghost use Rattle.acct_types.specs.Updates.{nlri_view, route_view, update_view};
ghost use Rattle.bgp_msg.specs.Prefixes.{bad_prefix, prefixes_in};
ghost use Rattle.bgp_msg.specs.Families.{is_reach, is_unreach};
ghost use Rattle.bgp_msg.specs.Paths.{is_path};
ghost use Rattle.bgp_msg.specs.Updates.{announced_octets, announced_place, attribute_octets, attributes_of, attributes_place, attrs_of, communities_in, lacks, lengths_fault, merged, names_unreached, number_in, origin_in, path_in, prefix_fault, reached_by, routes_behind, routes_reached, said, update_fault, whole_path, withdrawn_octets};
ghost use Rattle.bgp_msg.specs.Values.{HaveForms, Keeps};
ghost use Rattle.bgp_msg.specs.Parts.{AreParts, CanBeRead};
ghost use Rattle.bgp_msg.specs.declared.families.Family.TheVariants.{V4};

use crate::attributes::{fault, read_attributes};
use crate::families::{Family, reaches_some, read_reached, read_unreached};
use crate::paths::{append_path, hop_count, is_path, read_numbers, read_path};
use crate::prefixes::{count_prefixes, read_prefixes, read_routes};
use crate::values::Values;
use crate::{Agreed, BgpFault};
use acct_types::numbers::{after, u16_at, u32_at};
use acct_types::{Addr, Announce, Hop, List, Nlri, NoMemory, RouteAttrs, Update};
use std::alloc::Global;

/// The parts of an UPDATE: the octets of the withdrawn prefixes, the values of its attributes, and the octets of the announced prefixes;
/// with the numbers of both kinds of prefix.
#[derive(Clone, Copy)]
pub(crate) struct Parts<'a> {
    withdrawn: &'a [u8],
    withdrawn_count: usize,
    values: Values<'a>,
    announced: &'a [u8],
    announced_count: usize,
}

#[tactic(auto, unfolding(crate::specs::Updates::lengths_fault))]
fn lengths_fault(octets: &[u8]) -> Option<BgpFault>
    requires whole { 23 ≤ length octets.now }
    requires short { length octets.now ≤ 4096 }
    ensures { result ≡ lengths_fault octets.now }
{
    let place = 21 + usize::from(u16_at(octets, 19));
    if octets.len() < place {
        return Some(fault(1, 19));
    }
    if octets.len() < place + 2 || octets.len() < place + 2 + usize::from(u16_at(octets, place)) {
        return Some(fault(1, place as u32));
    }
    None
}

// The octets of the withdrawn prefixes.
#[tactic(auto, unfolding(crate::specs::Updates::lengths_fault))]
fn withdrawn(octets: &[u8]) -> &[u8]
    requires whole { 23 ≤ length octets.now }
    requires good { lengths_fault octets.now ≡ None }
    ensures octets { result.now ≡ withdrawn_octets octets.now }
    ensures length { 21 + length result.now ≤ length octets.now }
{
    &after(octets, 21)[..usize::from(u16_at(octets, 19))]
}

// The place of the attributes.
#[tactic(auto, unfolding(crate::specs::Updates::lengths_fault))]
fn attributes_place(octets: &[u8]) -> usize
    requires whole { 23 ≤ length octets.now }
    requires good { lengths_fault octets.now ≡ None }
    ensures place { result ≡ attributes_place octets.now }
    ensures within { result ≤ length octets.now }
    ensures end { announced_place octets.now ≤ length octets.now }
{
    23 + usize::from(u16_at(octets, 19))
}

// The octets of the attributes.
fn attributes(octets: &[u8]) -> &[u8]
    requires whole { 23 ≤ length octets.now }
    requires good { lengths_fault octets.now ≡ None }
    ensures octets { result.now ≡ attribute_octets octets.now }
    ensures length { attributes_place octets.now + length result.now ≤ length octets.now }
{
    let place = attributes_place(octets);
    &after(octets, place)[..usize::from(u16_at(octets, place - 2))]
}

// The place of the announced prefixes.
fn announced_place(octets: &[u8]) -> usize
    requires whole { 23 ≤ length octets.now }
    requires good { lengths_fault octets.now ≡ None }
    ensures place { result ≡ announced_place octets.now }
    ensures within { result ≤ length octets.now }
{
    let place = attributes_place(octets);
    place + usize::from(u16_at(octets, place - 2))
}

// How many prefixes a list of IPv4 has of which the first stands at this place, or the fault of the first that is too long or cut.
fn judge_prefixes(start: u32, octets: &[u8]) -> Result<usize, BgpFault>
    requires { start + length octets.now ≤ 4096 }
    ensures good { IfOk result (λ _. prefix_fault (bad_prefix V4 start octets.now) ≡ None) }
    ensures count { IfOk result (λ count. count ≡ length (prefixes_in V4 octets.now)) }
    ensures fault { IfErr result (λ fault. prefix_fault (bad_prefix V4 start octets.now) ≡ Some fault) }
{
    match count_prefixes(Family::V4, octets) {
        Ok(count) => Ok(count),
        Err(place) => Err(fault(10, start + place as u32)),
    }
}

// Whether MP_REACH_NLRI announces a prefix.
fn has_reached(mp_reach: Option<&[u8]>) -> bool
    requires { IfSome mp_reach (λ value. is_reach value.now ≡ true) }
    ensures { result ≡ not (length (reached_by (option_copied mp_reach.entry)) == 0) }
{
    match mp_reach {
        Some(value) => reaches_some(value),
        None => false,
    }
}

// Whether attributes of these values lack one that the announced prefixes need.
#[tactic(auto, unfolding(crate::specs::Updates::lacks))]
fn lacks(values: &Values<'_>, behind: bool) -> bool
    requires { IfSome values.now.mp_reach (λ value. is_reach value.now ≡ true) }
    ensures { (attributes : List (List ℕ)) → Keeps values.now attributes → result ≡ lacks attributes behind }
{
    (behind || has_reached(values.mp_reach))
        && (values.origin.is_none() || values.as_path.is_none())
        || behind && values.next_hop.is_none()
}

// The parts of an UPDATE whose lengths don't pass its end, or what is wrong with them first.
fn judge(agreed: Agreed, octets: &[u8]) -> Result<Parts<'_>, BgpFault>
    requires whole { 23 ≤ length octets.now }
    requires short { length octets.now ≤ 4096 }
    requires lengths { lengths_fault octets.now ≡ None }
    ensures good { IfOk result (λ _. update_fault agreed octets.now ≡ None) }
    ensures parts { IfOk result (λ parts. AreParts octets.now parts) }
    ensures readable { IfOk result (λ parts. CanBeRead agreed parts) }
    ensures fault { IfErr result (λ fault. update_fault agreed octets.now ≡ Some fault) }
{
    let withdrawn = withdrawn(octets);
    let withdrawn_count = judge_prefixes(21, withdrawn)?;
    let values = read_attributes(agreed, attributes_place(octets) as u32, attributes(octets))?;
    let place = announced_place(octets);
    let announced = after(octets, place);
    let announced_count = judge_prefixes(place as u32, announced)?;
    if lacks(&values, !announced.is_empty()) {
        return Err(fault(3, 19));
    }
    Ok(Parts {
        withdrawn,
        withdrawn_count,
        values,
        announced,
        announced_count,
    })
}

/// The parts of an UPDATE, or what is wrong with it first: subcode 1 of code 3 where a length passes the end, 10 where a withdrawn prefix is
/// too long or cut, what `read_attributes` says, 10 for an announced prefix, and 3 where announced prefixes lack ORIGIN, AS_PATH or
/// NEXT_HOP.
pub(crate) fn parts_of(agreed: Agreed, octets: &[u8]) -> Result<Parts<'_>, BgpFault>
    requires whole { 23 ≤ length octets.now }
    requires short { length octets.now ≤ 4096 }
    ensures good { IfOk result (λ _. update_fault agreed octets.now ≡ None) }
    ensures parts { IfOk result (λ parts. AreParts octets.now parts) }
    ensures readable { IfOk result (λ parts. CanBeRead agreed parts) }
    ensures fault { IfErr result (λ fault. update_fault agreed octets.now ≡ Some fault) }
{
    if let Some(fault) = lengths_fault(octets) {
        return Err(fault);
    }
    judge(agreed, octets)
}

fn origin_in(origin: Option<&[u8]>) -> u8
    requires { IfSome origin (λ value. length value.now ≡ 1) }
    ensures { result ≡ origin_in (option_copied origin.entry) }
{
    match origin {
        Some(value) => value[0],
        None => 0,
    }
}

fn number_in(number: Option<&[u8]>) -> Option<u32>
    requires { IfSome number (λ value. length value.now ≡ 4) }
    ensures { result ≡ number_in (option_copied number.entry) }
{
    match number {
        Some(value) => Some(u32_at(value, 0)),
        None => None,
    }
}

fn communities_in(alloc: Global, communities: Option<&[u8]>) -> Result<List<u32>, NoMemory>
    ensures { IfOk result (λ numbers. numbers ≡ communities_in (option_copied communities.entry)) }
{
    match communities {
        Some(value) => read_numbers(alloc, true, value.len() / 4, value),
        None => Ok(List::new(alloc)),
    }
}

fn path_in(alloc: Global, wide: bool, as_path: Option<&[u8]>) -> Result<List<Hop>, NoMemory>
    requires { IfSome as_path (λ value. is_path wide value.now ≡ true) }
    ensures { IfOk result (λ hops. hops ≡ path_in wide (option_copied as_path.entry)) }
{
    match as_path {
        Some(value) => read_path(alloc, wide, value),
        None => Ok(List::new(alloc)),
    }
}

// The path, with the last hops replaced by those of AS4_PATH, where that is well formed.
#[tactic(auto, unfolding(crate::specs::Paths::replaced))]
fn merged(alloc: Global, path: List<Hop>, as4_path: Option<&[u8]>) -> Result<List<Hop>, NoMemory>
    ensures { IfOk result (λ hops. hops ≡ merged path (option_copied as4_path.entry)) }
{
    let Some(value) = as4_path else {
        return Ok(path);
    };
    if !is_path(true, value) {
        return Ok(path);
    }
    let Some(kept) = path.len().checked_sub(hop_count(true, value)) else {
        return Ok(path);
    };
    let mut hops = path.into_vec();
    hops.truncate(kept);
    append_path(alloc, &mut hops, true, value)?;
    Ok(List::from_vec(hops))
}

fn whole_path(alloc: Global, agreed: Agreed, values: &Values<'_>) -> Result<List<Hop>, NoMemory>
    requires { IfSome values.now.as_path (λ value. is_path agreed.four_octets value.now ≡ true) }
    ensures { (attributes : List (List ℕ)) → Keeps values.now attributes → IfOk result (λ hops. hops ≡ whole_path agreed attributes) }
{
    let path = path_in(alloc, agreed.four_octets, values.as_path)?;
    if agreed.four_octets {
        return Ok(path);
    }
    merged(alloc, path, values.as4_path)
}

#[tactic(auto, unfolding(crate::specs::Updates::attrs_of))]
fn attrs_of(alloc: Global, agreed: Agreed, values: &Values<'_>) -> Result<RouteAttrs, NoMemory>
    requires { HaveForms agreed values.now }
    ensures { (attributes : List (List ℕ)) → Keeps values.now attributes → IfOk result (λ attrs. attrs ≡ attrs_of agreed attributes) }
{
    let path = whole_path(alloc, agreed, values)?;
    let communities = communities_in(alloc, values.communities)?;
    Ok(RouteAttrs {
        origin: origin_in(values.origin),
        path,
        med: number_in(values.med),
        local_pref: number_in(values.local_pref),
        communities,
    })
}

// The prefixes that are withdrawn in these octets, so many, and by MP_UNREACH_NLRI.
fn withdrawn_in(
    alloc: Global,
    octets: &[u8],
    count: usize,
    mp_unreach: Option<&[u8]>,
) -> Result<List<Nlri>, NoMemory>
    requires good { bad_prefix V4 0 octets.now ≡ None }
    requires mp_unreach { IfSome mp_unreach (λ value. is_unreach value.now ≡ true) }
    ensures { IfOk result (λ names. map nlri_view names ≡ prefixes_in V4 octets.now ++ names_unreached (option_copied mp_unreach.entry)) }
{
    let mut names = Vec::with_capacity(alloc, count)?;
    read_prefixes(Family::V4, octets, &mut names)?;
    if let Some(value) = mp_unreach {
        read_unreached(value, &mut names)?;
    }
    Ok(List::from_vec(names))
}

// Appends the routes to the prefixes behind the attributes.
fn read_behind(
    octets: &[u8],
    next_hop: Option<&[u8]>,
    announced: &mut Vec<Announce>,
) -> Result<(), NoMemory>
    requires good { bad_prefix V4 0 octets.now ≡ None }
    requires next_hop { IfSome next_hop (λ value. length value.now ≡ 4) }
    ensures { OnOk result (map route_view announced.new.items ≡ map route_view announced.old.items ++ routes_behind (option_copied next_hop.entry) octets.now) }
{
    let Some(hop) = number_in(next_hop) else {
        return Ok(());
    };
    read_routes(Family::V4, Addr::V4(hop), octets, announced)
}

// Appends the routes of MP_REACH_NLRI.
fn read_multiprotocol(
    mp_reach: Option<&[u8]>,
    announced: &mut Vec<Announce>,
) -> Result<(), NoMemory>
    requires { IfSome mp_reach (λ value. is_reach value.now ≡ true) }
    ensures { OnOk result (map route_view announced.new.items ≡ map route_view announced.old.items ++ routes_reached (option_copied mp_reach.entry)) }
{
    let Some(value) = mp_reach else {
        return Ok(());
    };
    read_reached(value, announced)
}

/// What an UPDATE of these parts says.
#[tactic(auto, unfolding(crate::specs::Updates::said))]
pub(crate) fn read_update(
    alloc: Global,
    agreed: Agreed,
    parts: &Parts<'_>,
) -> Result<Update, NoMemory>
    requires { CanBeRead agreed parts.now }
    ensures { (octets : List ℕ) → AreParts octets parts.now → IfOk result (λ update. update_view update ≡ said agreed octets) }
{
    let values = &parts.values;
    let attrs = attrs_of(alloc, agreed, values)?;
    let withdrawn = withdrawn_in(
        alloc,
        parts.withdrawn,
        parts.withdrawn_count,
        values.mp_unreach,
    )?;
    let mut announced = Vec::with_capacity(alloc, parts.announced_count)?;
    read_behind(parts.announced, values.next_hop, &mut announced)?;
    read_multiprotocol(values.mp_reach, &mut announced)?;
    Ok(Update {
        withdrawn,
        announced: List::from_vec(announced),
        attrs,
    })
}
