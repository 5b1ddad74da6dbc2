ghost use Rattle.std.specs.Prelude.{◌≡◌, ◌<◌, ◌^◌, [], length};
ghost use Rattle.acct_types.specs.Counts.{IsBelow};

use acct_types::{Addr, Counts, Item, Key, List, NoMemory, Purge};
use fixtures::same_hashing;
use plugin_cache::{Aggregate, Cache, few_items_fit};
use std::alloc::Global;
use std::test::Fail;

fn key(alloc: Global, address: u32) -> Result<Key, NoMemory> {
    let mut key = Key::new(alloc);
    key.push_address(Addr::V4(address))?;
    key.push_number(80)?;
    Ok(key)
}

// A moment in milliseconds, the address in the key, and bytes.
type Given = (u64, u32, u64);

// An address, with the sums of its bytes and of its packets.
type Row = (u32, u128, u128);

// What a cache is given, and its purges: of each the window and the rows.
struct Case {
    name: &'static str,
    limit: Option<u32>,
    refresh: Option<u32>,
    items: &'static [Given],
    want: &'static [(u64, &'static [Row])],
}

static CASES: [Case; 12] = [
    Case {
        name: "without an item",
        limit: Some(16_384),
        refresh: Some(60),
        items: &[],
        want: &[],
    },
    Case {
        name: "one item",
        limit: Some(1),
        refresh: Some(60),
        items: &[(119_999, 9, 840)],
        want: &[(1, &[(9, 840, 1)])],
    },
    Case {
        name: "keys in another order, and one of them again",
        limit: Some(4),
        refresh: Some(60),
        items: &[(0, 9, 1), (0, 7, 2), (0, 8, 4), (0, 9, 8), (0, 300, 16)],
        want: &[(0, &[(7, 2, 1), (8, 4, 1), (9, 9, 2), (300, 16, 1)])],
    },
    Case {
        name: "a known key where the cache is full",
        limit: Some(2),
        refresh: None,
        items: &[(0, 1, 1), (0, 2, 2), (0, 1, 4), (0, 2, 8), (0, 2, 16)],
        want: &[(0, &[(1, 5, 2), (2, 26, 3)])],
    },
    Case {
        name: "a new key where the cache is full",
        limit: Some(2),
        refresh: None,
        items: &[(0, 1, 1), (0, 2, 2), (0, 3, 4), (0, 1, 8)],
        want: &[(0, &[(1, 1, 1), (2, 2, 1)]), (0, &[(1, 8, 1), (3, 4, 1)])],
    },
    Case {
        name: "a key of the slice before is a new one",
        limit: Some(2),
        refresh: None,
        items: &[(0, 1, 1), (0, 2, 2), (0, 3, 4), (0, 2, 8), (0, 1, 16)],
        want: &[
            (0, &[(1, 1, 1), (2, 2, 1)]),
            (0, &[(2, 8, 1), (3, 4, 1)]),
            (0, &[(1, 16, 1)]),
        ],
    },
    Case {
        name: "a limit of one key",
        limit: Some(1),
        refresh: None,
        items: &[(0, 5, 1), (0, 5, 2), (0, 6, 4), (0, 5, 8)],
        want: &[(0, &[(5, 3, 2)]), (0, &[(6, 4, 1)]), (0, &[(5, 8, 1)])],
    },
    Case {
        name: "the last moment of a window and the first of the next",
        limit: Some(16_384),
        refresh: Some(60),
        items: &[(59_999, 1, 1), (60_000, 1, 2), (119_999, 1, 4)],
        want: &[(0, &[(1, 1, 1)]), (1, &[(1, 6, 2)])],
    },
    Case {
        name: "a window and a limit at one item",
        limit: Some(1),
        refresh: Some(1),
        items: &[(999, 1, 1), (1_000, 2, 2), (1_001, 2, 4)],
        want: &[(0, &[(1, 1, 1)]), (1, &[(2, 6, 2)])],
    },
    Case {
        name: "a window begins anew the count of keys",
        limit: Some(2),
        refresh: Some(1),
        items: &[(0, 1, 1), (0, 2, 2), (1_000, 3, 4), (1_000, 4, 8)],
        want: &[(0, &[(1, 1, 1), (2, 2, 1)]), (1, &[(3, 4, 1), (4, 8, 1)])],
    },
    Case {
        name: "a moment that falls",
        limit: Some(2),
        refresh: Some(1),
        items: &[(5_000, 1, 1), (4_999, 1, 2), (5_000, 1, 4)],
        want: &[(5, &[(1, 1, 1)]), (4, &[(1, 2, 1)]), (5, &[(1, 4, 1)])],
    },
    Case {
        name: "neither limit nor windows",
        limit: None,
        refresh: None,
        items: &[
            (0, 3, 1),
            (60_000, 2, 2),
            (3_600_000, 1, 4),
            (18_446_744_073_709_551_615, 3, 18_446_744_073_709_551_615),
        ],
        want: &[(
            0,
            &[(1, 4, 1), (2, 2, 1), (3, 18_446_744_073_709_551_616, 2)],
        )],
    },
];

// What a packet of one flow counts.
fn counts(bytes: u64) -> Counts
    ensures { IsBelow (2 ^ 96) result }
{
    Counts {
        bytes: u128::from(bytes),
        packets: 1,
        flows: 1,
    }
}

fn item(alloc: Global, given: Given) -> Result<Item, NoMemory> {
    let (moment, address, bytes) = given;
    Ok(Item {
        datagram: 1,
        row: 1,
        moment,
        key: key(alloc, address)?,
        counts: counts(bytes),
    })
}

// Adds items to a cache that was given none, and keeps the purges that they complete.
fn add_all(
    alloc: Global,
    cache: &mut Cache,
    items: &[Given],
    purges: &mut List<Purge>,
) -> Result<(), NoMemory>
    requires empty { cache.old.rows ≡ [] }
    requires few { length items.now < 2 ^ 32 }
{
    few_items_fit();
    for given in items {
        if let Some(purge) = cache.add(item(alloc, *given)?)? {
            purges.push(purge)?;
        }
    }
    Ok(())
}

// All purges of a cache that is given these items.
fn purges_of(alloc: Global, cache: Cache, items: &[Given]) -> Result<List<Purge>, NoMemory>
    requires empty { cache.rows ≡ [] }
    requires few { length items.now < 2 ^ 32 }
{
    let mut cache = cache;
    let mut purges = List::new(alloc);
    add_all(alloc, &mut cache, items, &mut purges)?;
    if let Some(last) = cache.finish()? {
        purges.push(last)?;
    }
    Ok(purges)
}

fn is_row(alloc: Global, row: &(Key, Counts), want: Row) -> Result<bool, NoMemory> {
    let (address, bytes, packets) = want;
    let wanted = Counts {
        bytes,
        packets,
        flows: packets,
    };
    Ok(row.0 == key(alloc, address)? && row.1 == wanted)
}

fn are_rows(alloc: Global, rows: &[(Key, Counts)], want: &[Row]) -> Result<bool, NoMemory> {
    if rows.len() != want.len() {
        return Ok(false);
    }
    for (row, wanted) in rows.iter().zip(want) {
        if !is_row(alloc, row, *wanted)? {
            return Ok(false);
        }
    }
    Ok(true)
}

#[test]
fn one_key_has_one_row(rt: HostRuntime) -> Result<(), Fail> {
    let alloc = rt.alloc();
    let mut sums = Aggregate::new(alloc, same_hashing()?);
    let counts = Counts {
        bytes: 840,
        packets: 10,
        flows: 1,
    };
    sums.add(key(alloc, 9)?, counts)?;
    let rows = sums.into_rows(alloc)?;
    let [(found, summed)] = rows.as_slice() else {
        return Err("one row".into());
    };
    assert!(rt; *found == key(alloc, 9)?);
    assert_eq!(rt; *summed, counts);
    Ok(())
}

#[test]
fn items_are_purged_in_slices(rt: HostRuntime) -> Result<(), Fail> {
    let alloc = rt.alloc();
    for case in &CASES {
        assert!(rt; case.limit != Some(0) && case.refresh != Some(0));
        let cache = Cache::open(alloc, same_hashing()?, case.limit, case.refresh)?;
        assert!(rt; case.items.len() < 100);
        let purges = purges_of(alloc, cache, case.items)?;
        assert_eq!(rt; purges.len(), case.want.len(), "{}", case.name);
        for (purge, (window, rows)) in purges.as_slice().iter().zip(case.want) {
            assert_eq!(rt; purge.window, *window, "{}", case.name);
            let right = are_rows(alloc, purge.rows.as_slice(), rows)?;
            assert!(rt; right, "{}", case.name);
        }
    }
    Ok(())
}
