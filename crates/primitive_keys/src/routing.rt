//! The routing parts of a record, from what was exported or from routes.

ghost use Rattle.std.specs.Prelude.{◌≡◌, None};
ghost use Rattle.std.specs.Option.{option_copied, option_map};
ghost use Rattle.acct_types.specs.StandingRoutes.{route_ref_view};
ghost use Rattle.primitive_keys.specs.Routing.{chosen, first_system, last_system, local_pref_of, mask_of, med_of, next_hop_of, prefix_length, system_in, system_of};
ghost use Rattle.primitive_keys.specs.Values.{address_in};

use crate::values::{address_in, number_in};
use acct_types::{Addr, AsFrom, Hop, RouteRef};

/// The system of an address, by the route to it.
pub fn system_of(from: AsFrom, exported: Option<u64>, route: Option<&RouteRef<'_>>) -> u64
    ensures { result ≡ system_of from exported (option_map route_ref_view (option_copied route.entry)) }
{
    match from {
        AsFrom::Export => number_in(exported),
        AsFrom::Bgp | AsFrom::Bmp => last_system(route),
    }
}

/// The mask of an address, by the route to it.
pub fn mask_of(from: AsFrom, exported: Option<u64>, route: Option<&RouteRef<'_>>) -> u64
    ensures { result ≡ mask_of from exported (option_map route_ref_view (option_copied route.entry)) }
{
    match from {
        AsFrom::Export => number_in(exported),
        AsFrom::Bgp | AsFrom::Bmp => prefix_length(route),
    }
}

pub fn next_hop_in(from: AsFrom, exported: Option<Addr>, route: Option<&RouteRef<'_>>) -> Addr
    ensures { result ≡ chosen from (address_in exported) (next_hop_of (option_map route_ref_view (option_copied route.entry))) }
{
    match (from, route) {
        (AsFrom::Export, _) => address_in(exported),
        (AsFrom::Bgp | AsFrom::Bmp, Some(route)) => route.next_hop,
        (AsFrom::Bgp | AsFrom::Bmp, None) => Addr::V4(0),
    }
}

/// The route that a record's parts come from, none where what was exported counts.
pub fn route_in<'a>(from: AsFrom, route: Option<&'a RouteRef<'a>>) -> Option<&'a RouteRef<'a>>
    ensures { option_map route_ref_view (option_copied result) ≡ chosen from None (option_map route_ref_view (option_copied route.entry)) }
{
    match from {
        AsFrom::Export => None,
        AsFrom::Bgp | AsFrom::Bmp => route,
    }
}

pub fn first_system(route: Option<&RouteRef<'_>>) -> u64
    ensures { result ≡ first_system (option_map route_ref_view (option_copied route.entry)) }
{
    match route {
        Some(route) => system_in(route.attrs.path.as_slice().first()),
        None => 0,
    }
}

pub fn local_pref_of(route: Option<&RouteRef<'_>>) -> u64
    ensures { result ≡ local_pref_of (option_map route_ref_view (option_copied route.entry)) }
{
    match route {
        Some(route) => u64::from(route.attrs.local_pref.unwrap_or(0)),
        None => 0,
    }
}

pub fn med_of(route: Option<&RouteRef<'_>>) -> u64
    ensures { result ≡ med_of (option_map route_ref_view (option_copied route.entry)) }
{
    match route {
        Some(route) => u64::from(route.attrs.med.unwrap_or(0)),
        None => 0,
    }
}

fn last_system(route: Option<&RouteRef<'_>>) -> u64
    ensures { result ≡ last_system (option_map route_ref_view (option_copied route.entry)) }
{
    match route {
        Some(route) => system_in(route.attrs.path.as_slice().last()),
        None => 0,
    }
}

fn prefix_length(route: Option<&RouteRef<'_>>) -> u64
    ensures { result ≡ prefix_length (option_map route_ref_view (option_copied route.entry)) }
{
    match route {
        Some(route) => u64::from(route.prefix.len),
        None => 0,
    }
}

fn system_in(hop: Option<&Hop>) -> u64
    ensures { result ≡ system_in (option_copied hop.entry) }
{
    match hop {
        Some(Hop::One(number)) => u64::from(*number),
        Some(Hop::Set(_)) | None => 0,
    }
}
