//! AS_PATH and AS4_PATH (RFC 4271, 4.3, and RFC 6793, 3).

ghost use Rattle.std.specs.Prelude.{◌≡◌, ◌≤◌, ◌+◌, ◌*◌, ◌++◌, drop, length, map, IfOk, OnOk, true};
ghost use Rattle.acct_types.specs.Numbers.{number_at};
ghost use Rattle.acct_types.specs.declared.route.Hop.TheVariants.{One};
ghost use Rattle.bgp_msg.specs.Paths.{hops_of, is_path, is_segment, number_width, numbers_of, path_of, segment_numbers, segment_size};

use crate::pieces::{behind, front};
use acct_types::numbers::{after, u16_at, u32_at};
use acct_types::{Hop, List, NoMemory};
use std::alloc::Global;

fn number_width(wide: bool) -> usize
    ensures { result ≡ number_width wide }
{
    if wide { 4 } else { 2 }
}

// The number at the front.
fn number_at(wide: bool, octets: &[u8]) -> u32
    requires { number_width wide ≤ length octets.now }
    ensures { result ≡ number_at octets.now 0 (number_width wide) }
{
    if wide {
        u32_at(octets, 0)
    } else {
        u32::from(u16_at(octets, 0))
    }
}

/// So many numbers, one behind another.
pub(crate) fn read_numbers(
    alloc: Global,
    wide: bool,
    count: usize,
    octets: &[u8],
) -> Result<List<u32>, NoMemory>
    requires { number_width wide * count ≤ length octets.now }
    ensures { IfOk result (λ numbers. numbers ≡ numbers_of (number_width wide) count octets.now) }
{
    let mut numbers = Vec::with_capacity(alloc, count)?;
    let mut rest = octets;
    for _ in 0..count {
        numbers.push(number_at(wide, rest))?;
        rest = after(rest, number_width(wide));
    }
    Ok(List::from_vec(numbers))
}

// Appends a hop for each of so many numbers.
fn push_ones(hops: &mut Vec<Hop>, wide: bool, count: usize, octets: &[u8]) -> Result<(), NoMemory>
    requires { number_width wide * count ≤ length octets.now }
    ensures { OnOk result (hops.new.items ≡ hops.old.items ++ map One (numbers_of (number_width wide) count octets.now)) }
{
    let mut rest = octets;
    for _ in 0..count {
        hops.push(Hop::One(number_at(wide, rest)))?;
        rest = after(rest, number_width(wide));
    }
    Ok(())
}

#[tactic(auto, unfolding(crate::specs::Paths::segment_size))]
fn segment_size(wide: bool, octets: &[u8]) -> usize
    ensures size { result ≡ segment_size wide octets.now }
    ensures some { 1 ≤ result }
{
    if octets.len() < 2 {
        2
    } else {
        2 + number_width(wide) * usize::from(octets[1])
    }
}

#[tactic(auto, unfolding(crate::specs::Paths::is_segment, crate::specs::Paths::segment_size))]
fn is_segment(wide: bool, segment: &[u8]) -> bool
    ensures { result ≡ is_segment wide segment.now }
{
    if segment.len() < 2 || segment.len() < segment_size(wide, segment) {
        return false;
    }
    segment[1] >= 1 && segment[0] >= 1 && segment[0] <= 4
}

/// Whether octets are the segments of a path.
pub(crate) fn is_path(wide: bool, octets: &[u8]) -> bool
    ensures { result ≡ is_path wide octets.now }
{
    let mut rest = octets;
    while !rest.is_empty() {
        let size = segment_size(wide, rest);
        if !is_segment(wide, front(rest, size)) {
            return false;
        }
        rest = behind(rest, size);
    }
    true
}

// Appends the hops of a segment.
#[tactic(auto, unfolding(crate::specs::Paths::hops_of, crate::specs::Paths::is_segment, crate::specs::Paths::segment_size))]
fn push_hops(alloc: Global, hops: &mut Vec<Hop>, wide: bool, segment: &[u8]) -> Result<(), NoMemory>
    requires { is_segment wide segment.now ≡ true }
    ensures { OnOk result (hops.new.items ≡ hops.old.items ++ hops_of wide segment.now) }
{
    let count = usize::from(segment[1]);
    let numbers = after(segment, 2);
    match segment[0] {
        1 => Ok(hops.push(Hop::Set(read_numbers(alloc, wide, count, numbers)?))?),
        2 => push_ones(hops, wide, count, numbers),
        _ => Ok(()),
    }
}

// How many hops a segment has.
#[tactic(auto, unfolding(crate::specs::Paths::hops_of, crate::specs::Paths::is_segment, crate::specs::Paths::segment_size))]
fn segment_hops(wide: bool, segment: &[u8]) -> usize
    requires { is_segment wide segment.now ≡ true }
    ensures count { result ≡ length (hops_of wide segment.now) }
    ensures few { result ≤ length segment.now }
{
    match segment[0] {
        1 => 1,
        2 => usize::from(segment[1]),
        _ => 0,
    }
}

/// How many hops a path has.
pub(crate) fn hop_count(wide: bool, octets: &[u8]) -> usize
    requires { is_path wide octets.now ≡ true }
    ensures { result ≡ length (path_of wide octets.now) }
{
    let mut count = 0;
    let mut rest = octets;
    while !rest.is_empty() {
        let size = segment_size(wide, rest);
        count += segment_hops(wide, front(rest, size));
        rest = behind(rest, size);
    }
    count
}

/// Appends the hops of a path. Those of confederations are left out.
pub(crate) fn append_path(
    alloc: Global,
    hops: &mut Vec<Hop>,
    wide: bool,
    octets: &[u8],
) -> Result<(), NoMemory>
    requires { is_path wide octets.now ≡ true }
    ensures { OnOk result (hops.new.items ≡ hops.old.items ++ path_of wide octets.now) }
{
    let mut rest = octets;
    while !rest.is_empty() {
        let size = segment_size(wide, rest);
        push_hops(alloc, hops, wide, front(rest, size))?;
        rest = behind(rest, size);
    }
    Ok(())
}

/// The hops of a path.
pub(crate) fn read_path(alloc: Global, wide: bool, octets: &[u8]) -> Result<List<Hop>, NoMemory>
    requires { is_path wide octets.now ≡ true }
    ensures { IfOk result (λ hops. hops ≡ path_of wide octets.now) }
{
    let mut hops = Vec::with_capacity(alloc, hop_count(wide, octets))?;
    append_path(alloc, &mut hops, wide, octets)?;
    Ok(List::from_vec(hops))
}
