//! Lists of prefixes (RFC 4271, 4.3).

ghost use Rattle.std.specs.Prelude.{◌≡◌, ◌≤◌, ◌<◌, ◌+◌, ◌++◌, length, map, IfErr, IfOk, OnOk, None, Some, false};
ghost use Rattle.acct_types.specs.Updates.{nlri_view, route_view};
ghost use Rattle.bgp_msg.specs.Prefixes.{address_of, bad_prefix, bits_of, filled, is_bad, named, prefix_size, prefixes_in, width};
ghost use Rattle.bgp_msg.specs.Routes.{routes};

use crate::families::Family;
use crate::pieces::{behind, front};
use acct_types::numbers::{after, u32_at, u128_at};
use acct_types::{Addr, Announce, Nlri, NoMemory, Prefix};

fn width(family: Family) -> u8
    ensures { result ≡ width family }
{
    match family {
        Family::V4 => 32,
        Family::V6 => 128,
    }
}

#[tactic(auto, unfolding(crate::specs::Prefixes::prefix_size))]
pub(crate) fn prefix_size(octets: &[u8]) -> usize
    requires { 1 ≤ length octets.now }
    ensures size { result ≡ prefix_size octets.now }
    ensures some { 1 ≤ result }
{
    1 + (usize::from(octets[0]) + 7) / 8
}

#[tactic(auto, unfolding(crate::specs::Prefixes::is_bad))]
fn is_bad(family: Family, prefix: &[u8]) -> bool
    requires { 1 ≤ length prefix.now }
    ensures { result ≡ is_bad family prefix.now }
{
    prefix[0] > width(family) || prefix.len() < prefix_size(prefix)
}

/// How many prefixes a list has, or where the first stands in it that is longer than an address or cut.
pub(crate) fn count_prefixes(family: Family, octets: &[u8]) -> Result<usize, usize>
    ensures good { IfOk result (λ _. bad_prefix family 0 octets.now ≡ None) }
    ensures count { IfOk result (λ count. count ≡ length (prefixes_in family octets.now)) }
    ensures bad { IfErr result (λ place. bad_prefix family 0 octets.now ≡ Some place) }
    ensures within { IfErr result (λ place. place ≤ length octets.now) }
{
    let mut count = 0;
    let mut place = 0;
    let mut rest = octets;
    while !rest.is_empty() {
        let size = prefix_size(rest);
        let prefix = front(rest, size);
        if is_bad(family, prefix) {
            return Err(place);
        }
        count += 1;
        place += prefix.len();
        rest = behind(rest, size);
    }
    Ok(count)
}

// The first sixteen octets, and zeros behind them.
fn filled(octets: &[u8]) -> [u8; 16]
    ensures { result ≡ filled octets.now }
{
    let some = front(octets, 16);
    let mut all = [0u8; 16];
    all[..some.len()].copy_from_slice(some);
    all
}

#[tactic(auto, unfolding(crate::specs::Prefixes::address_of))]
fn address_of(family: Family, octets: &[u8]) -> Addr
    ensures { result ≡ address_of family octets.now }
{
    let all = filled(octets);
    match family {
        Family::V4 => Addr::V4(u32_at(&all, 0)),
        Family::V6 => Addr::V6(u128_at(&all, 0)),
    }
}

#[tactic(auto, unfolding(crate::specs::Prefixes::is_bad))]
fn read_prefix(family: Family, prefix: &[u8]) -> Nlri
    requires some { 1 ≤ length prefix.now }
    requires good { is_bad family prefix.now ≡ false }
    ensures { nlri_view result ≡ named family prefix.now }
{
    let address = address_of(family, after(prefix, 1));
    let prefix = Prefix::new(address, prefix[0]).unwrap();
    Nlri { prefix, path_id: 0 }
}

/// Appends the prefixes of a list of which none is bad.
pub(crate) fn read_prefixes(
    family: Family,
    octets: &[u8],
    names: &mut Vec<Nlri>,
) -> Result<(), NoMemory>
    requires { bad_prefix family 0 octets.now ≡ None }
    ensures { OnOk result (map nlri_view names.new.items ≡ map nlri_view names.old.items ++ prefixes_in family octets.now) }
{
    let mut rest = octets;
    while !rest.is_empty() {
        let size = prefix_size(rest);
        names.push(read_prefix(family, front(rest, size)))?;
        rest = behind(rest, size);
    }
    Ok(())
}

/// Appends a route to each prefix of a list of which none is bad, by this next hop.
pub(crate) fn read_routes(
    family: Family,
    next_hop: Addr,
    octets: &[u8],
    announced: &mut Vec<Announce>,
) -> Result<(), NoMemory>
    requires { bad_prefix family 0 octets.now ≡ None }
    ensures { OnOk result (map route_view announced.new.items ≡ map route_view announced.old.items ++ routes next_hop (prefixes_in family octets.now)) }
{
    let mut rest = octets;
    while !rest.is_empty() {
        let size = prefix_size(rest);
        let nlri = read_prefix(family, front(rest, size));
        announced.push(Announce { nlri, next_hop })?;
        rest = behind(rest, size);
    }
    Ok(())
}
