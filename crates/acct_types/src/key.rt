ghost use Rattle.std.specs.Prelude.{◌≡◌, ◌∷◌, ◌++◌, ◌<◌, [], length, true, IfOk, IfSome, OnOk, OnErr, MatchOption};
ghost use Rattle.acct_types.specs.Cells.{are_plain, cell_of, has_plain_words, have_plain_words};
ghost use Rattle.acct_types.specs.Packed.{IsPacked, cells_in};
ghost use Rattle.acct_types.specs.declared.addr.Addr.TheVariants.{V4, V6};
ghost use Rattle.acct_types.specs.declared.cell.Cell.TheVariants as cell;

use crate::packed::{
    ADDRESS_V4, ADDRESS_V6, MAC, NUMBER_8, NUMBER_16, NUMBER_32, NUMBER_64, WORDS, read_first,
};
use crate::{Addr, Cell, CellRef, NoMemory};
use smallvec::SmallVec;
use std::alloc::{AllocError, Global};
use std::cmp::Ordering;
use std::hash::{Hash, Hasher};
use std::marker::Model;

/// So many octets of a key need no allocation.
const ROOM: usize = 48;

/// So many octets are few: those of a number below 2^32, or of an IPv4 address, with what they begin with.
const FEW: usize = 5;

/// What records are counted apart by, which contracts see as the list of its cells. Words have only characters from 33 to
/// 126, without comma, quote and backslash. Keys order by their cells, from the first to the last.
#[derive(Debug, Drop)]
pub struct Key {
    octets: SmallVec<u8, ROOM>,
}

impl Model for Key {
    ghost use Rattle.std.specs.Prelude.{List as Sequence};
    ghost use Rattle.acct_types.specs.declared.cell.Cell.{Cell};
    ghost use Rattle.acct_types.specs.Packed.{IsPacked, cells_in};

    ghost Value = { Sequence Cell };

    ghost view = { λ key. cells_in key.octets.items };

    ghost invariant = { λ key. IsPacked key.octets.items };
}

// Adds octets at the end. Few are there sooner one by one than by a copy.
#[inline]
fn add_octets(held: &mut SmallVec<u8, ROOM>, octets: &[u8]) -> Result<(), AllocError>
    ensures ok { OnOk result (held.new.items ≡ held.old.items ++ octets.now) }
    ensures err { OnErr result (held.new ≡ held.old) }
{
    if octets.len() > FEW {
        return held.extend_from_slice(octets);
    }
    held.reserve(octets.len())?;
    for octet in octets {
        held.push_reserved(*octet);
    }
    Ok(())
}

impl Key {
    /// No cell, which takes no memory.
    pub fn new(alloc: Global) -> Key
        ensures { result ≡ [] }
    {
        Key {
            octets: SmallVec::new(alloc),
        }
    }

    /// Adds a number. After NoMemory the key is unchanged.
    pub fn push_number(&mut self, number: u64) -> Result<(), NoMemory>
        ensures ok { OnOk result (self.new ≡ self.old ++ cell.Number number ∷ []) }
        ensures err { OnErr result (self.new ≡ self.old) }
    {
        if number < 0x100 {
            return self.append(&[NUMBER_8, number as u8]);
        }
        if number < 0x1_0000 {
            let [a, b] = (number as u16).to_be_bytes();
            return self.append(&[NUMBER_16, a, b]);
        }
        if number < 0x1_0000_0000 {
            let [a, b, c, d] = (number as u32).to_be_bytes();
            return self.append(&[NUMBER_32, a, b, c, d]);
        }
        let mut octets = [NUMBER_64; 9];
        octets[1..].copy_from_slice(&number.to_be_bytes());
        self.append(&octets)
    }

    /// Adds an address. After NoMemory the key is unchanged.
    pub fn push_address(&mut self, address: Addr) -> Result<(), NoMemory>
        ensures ok { OnOk result (self.new ≡ self.old ++ cell.Address address ∷ []) }
        ensures err { OnErr result (self.new ≡ self.old) }
    {
        match address {
            Addr::V4(number) => self.push_v4(number),
            Addr::V6(number) => self.push_v6(number),
        }
    }

    fn push_v4(&mut self, number: u32) -> Result<(), NoMemory>
        ensures ok { OnOk result (self.new ≡ self.old ++ cell.Address (V4 number) ∷ []) }
        ensures err { OnErr result (self.new ≡ self.old) }
    {
        let [a, b, c, d] = number.to_be_bytes();
        self.append(&[ADDRESS_V4, a, b, c, d])
    }

    fn push_v6(&mut self, number: u128) -> Result<(), NoMemory>
        ensures ok { OnOk result (self.new ≡ self.old ++ cell.Address (V6 number) ∷ []) }
        ensures err { OnErr result (self.new ≡ self.old) }
    {
        let mut octets = [ADDRESS_V6; 17];
        octets[1..].copy_from_slice(&number.to_be_bytes());
        self.append(&octets)
    }

    /// Adds a MAC address. After NoMemory the key is unchanged.
    pub fn push_mac(&mut self, mac: u64) -> Result<(), NoMemory>
        ensures ok { OnOk result (self.new ≡ self.old ++ cell.Mac mac ∷ []) }
        ensures err { OnErr result (self.new ≡ self.old) }
    {
        let mut octets = [MAC; 9];
        octets[1..].copy_from_slice(&mac.to_be_bytes());
        self.append(&octets)
    }

    /// Adds words. After NoMemory the key is unchanged.
    pub fn push_words(&mut self, words: &[u8]) -> Result<(), NoMemory>
        requires { are_plain words.now ≡ true }
        ensures ok { OnOk result (self.new ≡ self.old ++ cell.Words words.now ∷ []) }
        ensures err { OnErr result (self.new ≡ self.old) }
    {
        self.octets.reserve(words.len() + 2)?;
        self.octets.push_reserved(WORDS);
        self.octets.extend_from_slice(words)?;
        self.octets.push_reserved(0);
        Ok(())
    }

    /// An equal key.
    pub fn copy(&self) -> Result<Key, NoMemory>
        ensures { IfOk result (λ copy. copy ≡ self.now) }
    {
        Ok(Key {
            octets: SmallVec::from_slice(*self.octets.allocator(), self.octets.as_slice())?,
        })
    }

    // Appends packed cells.
    #[inline]
    fn append(&mut self, octets: &[u8]) -> Result<(), NoMemory>
        requires { IsPacked octets.now }
        ensures ok { OnOk result (self.new ≡ self.old ++ cells_in octets.now) }
        ensures err { OnErr result (self.new ≡ self.old) }
    {
        add_octets(&mut self.octets, octets)?;
        Ok(())
    }

    /// The cells from the first on.
    pub fn cells(&self) -> Cells<'_>
        ensures cells { result ≡ self.now }
        ensures plain { have_plain_words self.now ≡ true }
    {
        Cells {
            rest: self.octets.as_slice(),
        }
    }
}

/// Cells that are still to be read, which contracts see as their list.
#[derive(Drop)]
pub struct Cells<'a> {
    rest: &'a [u8],
}

impl<'a> Model for Cells<'a> {
    ghost use Rattle.std.specs.Prelude.{List as Sequence};
    ghost use Rattle.acct_types.specs.declared.cell.Cell.{Cell};
    ghost use Rattle.acct_types.specs.Packed.{IsPacked, cells_in};

    ghost Value = { Sequence Cell };

    ghost view = { λ cells. cells_in cells.rest.now };

    ghost invariant = { λ cells. IsPacked cells.rest.now };
}

impl<'a> Cells<'a> {
    /// Takes the first cell.
    pub fn next(&mut self) -> Option<CellRef<'a>>
        ensures cells { MatchOption result ((self.old ≡ []) × (self.new ≡ []))
            (λ first. self.old ≡ cell_of first ∷ self.new) }
        ensures plain { IfSome result (λ first. has_plain_words (cell_of first) ≡ true) }
        ensures fewer { IfSome result (λ _. length self.new < length self.old) }
    {
        if self.rest.is_empty() {
            return None;
        }
        let (first, rest) = read_first(self.rest);
        self.rest = rest;
        Some(first)
    }
}

impl PartialEq for Key {
    ghost use Rattle.std.specs.Cmp.Lexicographic.{pointwise, lists_per};
    ghost use Rattle.acct_types.specs.contracts.cell.CellPartialEq.TheImpl.Laws as cell_laws;

    ghost eq = { λ a b. pointwise ⟦<Cell as PartialEq>⟧.eq a b };

    ghost laws = { lists_per cell_laws.laws-law };

    fn eq(&self, other: &Key) -> bool {
        self.octets.as_slice() == other.octets.as_slice()
    }
}

impl Eq for Key {
    ghost use Rattle.std.specs.Cmp.Lexicographic.{lists_equiv};
    ghost use Rattle.acct_types.specs.contracts.cell.CellEq.TheImpl.Laws as cell_laws;

    ghost laws = { lists_equiv cell_laws.laws-law };
}

impl PartialOrd for Key {
    ghost use Rattle.std.specs.Cmp.Lexicographic.{slice_partial_cmp, lists_po};
    ghost use Rattle.acct_types.specs.contracts.cell.CellPartialOrd.TheImpl.Laws as cell_laws;

    ghost partial_cmp = { λ a b. slice_partial_cmp ⟦<Cell as PartialOrd>⟧.partial_cmp a b };

    ghost laws = { lists_po cell_laws.laws-law };

    fn partial_cmp(&self, other: &Key) -> Option<Ordering> {
        Some(self.cmp(other))
    }
}

impl Ord for Key {
    ghost use Rattle.std.specs.Cmp.Lexicographic.{slice_cmp, lists_total, lists_agrees, lists_ties};
    ghost use Rattle.acct_types.specs.contracts.cell.CellOrd.TheImpl.Laws as cell_laws;

    ghost cmp = { λ a b. slice_cmp ⟦<Cell as Ord>⟧.cmp a b };

    ghost total = { lists_total cell_laws.total-law };

    ghost matches_partial_cmp = { λ a b. lists_agrees cell_laws.matches_partial_cmp-law a b };

    ghost matches_eq = { λ a b. lists_ties ⟦<Cell as Ord>⟧.cmp cell_laws.matches_eq-law a b };

    fn cmp(&self, other: &Key) -> Ordering {
        self.octets.as_slice().cmp(other.octets.as_slice())
    }
}

impl Hash for Key {
    ghost use Rattle.std.specs.Prelude.{[], ◌∷◌};
    ghost use Rattle.acct_types.specs.Packed.{packed};
    ghost use Rattle.acct_types.specs.KeyLaws.{same_cells_hash};

    ghost hash_input = { λ cells. packed cells ∷ [] };

    ghost respects_eq = { same_cells_hash };

    fn hash<H: Hasher>(&self, state: &mut H) {
        state.write(self.octets.as_slice());
    }
}
