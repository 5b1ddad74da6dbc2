//! The ADD-PATH capability (RFC 7911, 4).

ghost use Rattle.std.specs.Prelude.{◌≡◌};
ghost use Rattle.std.specs.List.{list_all};
ghost use Rattle.bgp_msg.specs.AddPaths.{add_path_in, family_number, is_tuple, said_of, said_by, tuple_size};
ghost use Rattle.bgp_msg.specs.Items.{items};
ghost use Rattle.bgp_msg.specs.Pieces.{last_of, pieces};

use crate::AddPath;
use crate::families::Family;
use crate::open::item_size;
use crate::pieces::{behind, front};
use acct_types::numbers::u16_at;

const ADD_PATH: u8 = 69;

const UNICAST: u8 = 1;

const TUPLE: usize = 4;

fn family_number(family: Family) -> u16
    ensures { result ≡ family_number family }
{
    match family {
        Family::V4 => 1,
        Family::V6 => 2,
    }
}

#[tactic(auto, unfolding(crate::specs::AddPaths::is_tuple))]
fn is_tuple(tuple: &[u8]) -> bool
    ensures { result ≡ is_tuple tuple.now }
{
    tuple.len() == TUPLE && tuple[3] >= 1 && tuple[3] <= 3
}

// What a tuple says of a family.
#[tactic(auto, unfolding(crate::specs::AddPaths::is_tuple, crate::specs::AddPaths::said_by))]
fn said_by(family: Family, tuple: &[u8]) -> Option<AddPath>
    ensures { result ≡ said_by family tuple.now }
{
    if !is_tuple(tuple) || u16_at(tuple, 0) != family_number(family) || tuple[2] != UNICAST {
        return None;
    }
    match tuple[3] {
        1 => Some(AddPath::Receive),
        2 => Some(AddPath::Send),
        _ => Some(AddPath::Both),
    }
}

fn are_tuples(octets: &[u8]) -> bool
    ensures { result ≡ list_all is_tuple (pieces tuple_size octets.now) }
{
    let mut rest = octets;
    while !rest.is_empty() {
        if !is_tuple(front(rest, TUPLE)) {
            return false;
        }
        rest = behind(rest, TUPLE);
    }
    true
}

fn last_tuple(family: Family, octets: &[u8]) -> Option<AddPath>
    ensures { result ≡ last_of (said_by family) (pieces tuple_size octets.now) }
{
    let mut said = None;
    let mut rest = octets;
    while !rest.is_empty() {
        said = said_by(family, front(rest, TUPLE)).or(said);
        rest = behind(rest, TUPLE);
    }
    said
}

// What a capability says of a family.
#[tactic(auto, unfolding(crate::specs::AddPaths::said_of))]
fn said_of(family: Family, capability: &[u8]) -> Option<AddPath>
    ensures { result ≡ said_of family capability.now }
{
    let tuples = behind(capability, 2);
    if capability.is_empty() || capability[0] != ADD_PATH || !are_tuples(tuples) {
        return None;
    }
    last_tuple(family, tuples)
}

fn last_capability(family: Family, octets: &[u8]) -> Option<AddPath>
    ensures { result ≡ last_of (said_of family) (items octets.now) }
{
    let mut said = None;
    let mut rest = octets;
    while !rest.is_empty() {
        let size = item_size(rest);
        said = said_of(family, front(rest, size)).or(said);
        rest = behind(rest, size);
    }
    said
}

/// What parameters say last of a family.
pub(crate) fn add_path_in(family: Family, octets: &[u8]) -> Option<AddPath>
    ensures { result ≡ add_path_in family (items octets.now) }
{
    let mut said = None;
    let mut rest = octets;
    while !rest.is_empty() {
        let size = item_size(rest);
        said = last_capability(family, behind(front(rest, size), 2)).or(said);
        rest = behind(rest, size);
    }
    said
}
