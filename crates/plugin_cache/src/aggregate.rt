ghost use Rattle.std.specs.Prelude.{◌≡◌, ◌≤◌, [], ◌∷◌, OnOk, OnErr, IsOk, IfOk, IsPermutation, IsSorted, length, map, true};
ghost use Rattle.std.specs.List.Sorted.{IsStrictlySortedBy};
ghost use Rattle.std.specs.Map.{lookup};
ghost use Rattle.std.specs.Map.Iter.{deref_pair};
ghost use Rattle.acct_types.specs.Cells.{key_cmp, key_eq};
ghost use Rattle.acct_types.specs.Counts.{CountsFit, plus};
ghost use Rattle.indexmap.specs.IndexMap.{IsUnique, spare};
ghost use Rattle.plugin_cache.specs.Sums.{EntriesAddUp, HaveOnePurge, PurgesConserve, keys_in};

use acct_types::{Counts, Hashing, Key, List, NoMemory, keys_are_ordered};
use indexmap::IndexMap;
use std::alloc::Global;
use std::marker::Model;

/// Sums by key, in the order in which the keys came.
#[derive(Drop)]
pub struct Aggregate {
    sums: IndexMap<Key, Counts, Hashing>,
}

impl Model for Aggregate {
    ghost use Rattle.std.specs.Prelude.{List as Sequence};
    ghost use Rattle.acct_types.specs.declared.cell.Cell.{Cell};
    ghost use Rattle.acct_types.specs.declared.flow.Counts.{Counts};

    ghost Value = { Sequence (Sequence Cell × Counts) };

    ghost view = { λ a. a.sums.entries };
}

// Lends the entries in the order of their keys. What is sorted is small.
fn lend_in_order(
    sums: &IndexMap<Key, Counts, Hashing>,
    alloc: Global,
) -> Result<Vec<(&Key, &Counts)>, NoMemory>
    ensures order { IfOk result (λ lent. IsSorted ⟦<Key as Ord>⟧.cmp (keys_in (map deref_pair lent.items))) }
    ensures same { IfOk result (λ lent. IsPermutation sums.now.entries (map deref_pair lent.items)) }
    ensures unique { IsUnique ⟦<Key as PartialEq>⟧.eq sums.now }
{
    let mut lent = Vec::with_capacity(alloc, sums.len())?;
    let mut entries = sums.iter();
    while let Some(entry) = entries.next() {
        lent.push(entry).unwrap();
    }
    lent.sort_unstable_by(|a, b| a.0.cmp(b.0));
    Ok(lent)
}

fn copy_rows(lent: Vec<(&Key, &Counts)>, alloc: Global) -> Result<Vec<(Key, Counts)>, NoMemory>
    ensures { IfOk result (λ rows. rows.items ≡ map deref_pair lent.entry.items) }
{
    let mut rows = Vec::with_capacity(alloc, lent.len())?;
    let mut entries = lent.iter();
    while let Some(entry) = entries.next() {
        rows.push((entry.0.copy()?, *entry.1)).unwrap();
    }
    Ok(rows)
}

// Takes the rows out in the order of their keys. The map keeps its room.
fn take_rows(
    sums: &mut IndexMap<Key, Counts, Hashing>,
    alloc: Global,
) -> Result<List<(Key, Counts)>, NoMemory>
    ensures order { IfOk result (λ rows. IsStrictlySortedBy key_cmp (keys_in rows)) }
    ensures same { IfOk result (λ rows. (key : _) → lookup (key_eq key) rows ≡ lookup (key_eq key) sums.old.entries) }
    ensures none { OnOk result (sums.new.entries ≡ []) }
    ensures err { OnErr result (sums.new.entries ≡ sums.old.entries) }
    ensures room { spare sums.old ≤ spare sums.new }
{
    keys_are_ordered();
    let lent = lend_in_order(sums, alloc)?;
    let rows = copy_rows(lent, alloc)?;
    sums.clear();
    Ok(List::from_vec(rows))
}

impl Aggregate {
    ghost use Rattle.plugin_cache.specs.Sums.{added, count_in, has_key};

    pub fn new(alloc: Global, hashing: Hashing) -> Aggregate
        ensures { result ≡ [] }
    {
        Aggregate {
            sums: IndexMap::with_hasher(alloc, hashing),
        }
    }

    // No sum yet, and room for so many keys.
    pub(crate) fn with_room(
        alloc: Global,
        hashing: Hashing,
        keys: usize,
    ) -> Result<Aggregate, NoMemory>
        ensures { IfOk result (λ sums. sums ≡ []) }
    {
        Ok(Aggregate {
            sums: IndexMap::with_capacity_and_hasher(alloc, keys, hashing)?,
        })
    }

    pub(crate) fn len(&self) -> usize
        ensures { result ≡ length self.now }
    {
        self.sums.len()
    }

    pub(crate) fn has(&self, key: &Key) -> bool
        ensures { result ≡ has_key self.now key.now }
    {
        keys_are_ordered();
        self.sums.contains_key(key)
    }

    /// Adds to the sums of a key. After NoMemory nothing has changed.
    pub fn add(&mut self, key: Key, counts: Counts) -> Result<(), NoMemory>
        requires { CountsFit (plus (count_in self.old key) counts) }
        ensures ok { OnOk result (self.new ≡ added self.old key counts) }
        ensures err { OnErr result (self.new ≡ self.old) }
        ensures there { has_key self.old key ≡ true → IsOk result }
    {
        keys_are_ordered();
        let Some(place) = self.sums.get_index_of(&key) else {
            self.sums.insert(key, counts)?;
            return Ok(());
        };
        self.sums[place] = self.sums[place].plus(counts);
        Ok(())
    }

    /// The rows in the order of their keys.
    pub fn into_rows(self, alloc: Global) -> Result<List<(Key, Counts)>, NoMemory>
        ensures order { IfOk result (λ rows. IsStrictlySortedBy key_cmp (keys_in rows)) }
        ensures same { IfOk result (λ rows. (key : _) → lookup (key_eq key) rows ≡ lookup (key_eq key) self) }
    {
        let mut sums = self.sums;
        take_rows(&mut sums, alloc)
    }

    // The rows in the order of their keys, in whose place one key's sums come. After NoMemory nothing has changed.
    pub(crate) fn start_over(
        &mut self,
        alloc: Global,
        key: Key,
        counts: Counts,
    ) -> Result<List<(Key, Counts)>, NoMemory>
        ensures order { IfOk result (λ rows. IsStrictlySortedBy key_cmp (keys_in rows)) }
        ensures same { IfOk result (λ rows. (key : _) → lookup (key_eq key) rows ≡ lookup (key_eq key) self.old) }
        ensures ok { OnOk result (self.new ≡ (key, counts) ∷ []) }
        ensures err { OnErr result (self.new ≡ self.old) }
    {
        self.sums.reserve(1)?;
        let rows = take_rows(&mut self.sums, alloc)?;
        let _replaced = self.sums.insert(key, counts).unwrap();
        Ok(rows)
    }
}

/// A law: entries add up, each to the row of its key.
pub fn entries_add_up()
    ensures { EntriesAddUp }
{
    keys_are_ordered();
}

/// A law: entries have one list of rows.
pub fn one_purge()
    ensures { HaveOnePurge }
{
    keys_are_ordered();
}

/// A law: over the rows each key has the sums that it has over the entries.
pub fn purges_conserve()
    ensures { PurgesConserve }
{
    keys_are_ordered();
}
