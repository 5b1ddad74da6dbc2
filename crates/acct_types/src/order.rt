//! Laws of the order of addresses, prefixes, sources of routes, keys and columns.

ghost use Rattle.std.specs.Prelude.{◌≡◌, ◌↔◌};
ghost use Rattle.std.specs.Cmp.{IsTotalOrder};
ghost use Rattle.acct_types.specs.Cells.{key_cmp, key_eq};
ghost use Rattle.acct_types.specs.Columns.{in_order};
ghost use Rattle.acct_types.specs.Order.{addr_cmp, prefix_cmp, source_cmp};
ghost use Rattle.acct_types.specs.Primitives.{columns_of};

use crate::{Addr, Key, Prefix, Primitives, RibSource};
use std::cmp::Ordering;

/// A law: addresses are in order, V4 before V6 and then by number.
pub fn addresses_are_ordered()
    ensures derived { (a b : _) → ⟦<Addr as Ord>⟧.cmp a b ≡ addr_cmp a b }
    ensures total { IsTotalOrder addr_cmp }
    ensures equal { (a b : _) → (addr_cmp a b ≡ Ordering.Equal) ↔ (a ≡ b) }
{}

/// A law: prefixes are in order, by address and then by length.
pub fn prefixes_are_ordered()
    ensures derived { (p q : _) → ⟦<Prefix as Ord>⟧.cmp p q ≡ prefix_cmp p q }
    ensures total { IsTotalOrder prefix_cmp }
    ensures equal { (p q : _) → (prefix_cmp p q ≡ Ordering.Equal) ↔ (p ≡ q) }
{}

/// A law: sources are in order, the sessions of BGP before the peers of routers.
pub fn sources_are_ordered()
    ensures derived { (a b : _) → ⟦<RibSource as Ord>⟧.cmp a b ≡ source_cmp a b }
    ensures total { IsTotalOrder source_cmp }
    ensures equal { (a b : _) → (source_cmp a b ≡ Ordering.Equal) ↔ (a ≡ b) }
{}

/// A law: keys are in order, cell by cell, and those that tie are the same.
pub fn keys_are_ordered()
    ensures derived { (a b : _) → ⟦<Key as Ord>⟧.cmp a b ≡ key_cmp a b }
    ensures equality { (a b : _) → ⟦<Key as PartialEq>⟧.eq a b ≡ key_eq a b }
    ensures total { IsTotalOrder key_cmp }
    ensures equal { (a b : _) → (key_cmp a b ≡ Ordering.Equal) ↔ (a ≡ b) }
{}

/// A law: the columns of primitives are in their order, without repeats.
#[tactic(auto, using(crate::proofs::ColumnLemmas::kept_in_order))]
pub fn columns_are_in_order()
    ensures { (p : Primitives) → in_order (columns_of p) ≡ columns_of p }
{}
