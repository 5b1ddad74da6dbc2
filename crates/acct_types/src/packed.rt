//! Cells in packed octets.

ghost use Rattle.std.specs.Prelude.{◌≡◌, ◌≤◌, ◌<◌, ◌==◌, ◌∷◌, length, true};
ghost use Rattle.std.specs.List.{position_or_len};
ghost use Rattle.acct_types.specs.Cells.{cell_of, has_plain_words};
ghost use Rattle.acct_types.specs.Packed.{IsPacked, cells_in, ends_words, first_cell};

use crate::numbers::{after, u16_at, u32_at, u64_at, u128_at};
use crate::{Addr, CellRef};

// What packed cells begin with, in the order of cells. A number stands in the fewest bits that hold it.
pub const NUMBER_8: u8 = 0;

pub const NUMBER_16: u8 = 1;

pub const NUMBER_32: u8 = 2;

pub const NUMBER_64: u8 = 3;

pub const ADDRESS_V4: u8 = 4;

pub const ADDRESS_V6: u8 = 5;

pub const MAC: u8 = 6;

pub const WORDS: u8 = 7;

/// The first cell, and the octets after it.
pub fn read_first<'a>(octets: &'a [u8]) -> (CellRef<'a>, &'a [u8])
    requires packed { IsPacked octets.now }
    requires some { 0 < length octets.now }
    ensures cells { cells_in octets.now ≡ cell_of result.0 ∷ cells_in result.1.now }
    ensures plain { has_plain_words (cell_of result.0) ≡ true }
    ensures rest { IsPacked result.1.now }
{
    let tag = octets[0];
    let octets = after(octets, 1);
    let (first, size) = read_cell(tag, octets);
    (first, after(octets, size))
}

// The cell that a tag and the octets after it begin with, and how many octets after the tag it has.
#[tactic(auto, unfolding(crate::specs::Packed::first_cell))]
fn read_cell<'a>(tag: u8, octets: &'a [u8]) -> (CellRef<'a>, usize)
    requires { (first_cell tag octets.now).1 ≤ length octets.now }
    ensures cell { cell_of result.0 ≡ (first_cell tag octets.now).0 }
    ensures size { result.1 ≡ (first_cell tag octets.now).1 }
{
    match tag {
        NUMBER_8 => (CellRef::Number(octets[0] as u64), 1),
        NUMBER_16 => (CellRef::Number(u16_at(octets, 0) as u64), 2),
        NUMBER_32 => (CellRef::Number(u32_at(octets, 0) as u64), 4),
        NUMBER_64 => (CellRef::Number(u64_at(octets, 0)), 8),
        ADDRESS_V4 => (CellRef::Address(Addr::V4(u32_at(octets, 0))), 4),
        ADDRESS_V6 => (CellRef::Address(Addr::V6(u128_at(octets, 0))), 16),
        MAC => (CellRef::Mac(u64_at(octets, 0)), 8),
        _ => {
            let end = words_end(octets);
            (CellRef::Words(&octets[..end]), end + 1)
        }
    }
}

// Where the first 0 is, or the length.
fn words_end(octets: &[u8]) -> usize
    ensures { result ≡ position_or_len ends_words octets.now }
{
    for (place, octet) in octets.iter().enumerate() {
        if *octet == 0 {
            return place;
        }
    }
    octets.len()
}
