ghost use Rattle.std.specs.Prelude.{◌≡◌, ◌<◌, ◌^◌, length};
ghost use Rattle.acct_types.specs.Counts.{IsBelow};
ghost use Rattle.config_keys.specs.Ranges.{IsWithin};

use acct_types::{Column, Counts, Item, Key, Layout, List, NoMemory, Primitives, Text};
use config_keys::{PluginConfig, PluginKind};
use fixtures::same_hashing;
use outside_io::{MemorySink, OutEnd};
use plugin_work::{Plugin, PluginEnd};
use std::alloc::Global;
use std::test::Fail;

// A moment in milliseconds, the protocol in the key, packets and bytes.
type Given = (u64, u64, u64, u64);

// A plugin, the items that it is given, its text, and the sums of bytes, packets and flows.
struct Case {
    name: &'static str,
    kind: PluginKind,
    layout: Layout,
    cache: u32,
    refresh: u32,
    items: &'static [Given],
    want: &'static str,
    purged: (u128, u128, u128),
}

static CASES: [Case; 10] = [
    Case {
        name: "a print plugin without an item",
        kind: PluginKind::Print,
        layout: Layout::Csv,
        cache: 16_384,
        refresh: 60,
        items: &[],
        want: "",
        purged: (0, 0, 0),
    },
    Case {
        name: "a memory plugin without an item",
        kind: PluginKind::Memory,
        layout: Layout::Formatted,
        cache: 16_384,
        refresh: 60,
        items: &[],
        want: "",
        purged: (0, 0, 0),
    },
    Case {
        name: "columns of fixed widths",
        kind: PluginKind::Memory,
        layout: Layout::Formatted,
        cache: 16_384,
        refresh: 60,
        items: &[(1_000, 6, 10, 840)],
        want: "PROTOCOL  PACKETS               BYTES\n6         10                    840\n",
        purged: (840, 10, 1),
    },
    Case {
        name: "objects",
        kind: PluginKind::Print,
        layout: Layout::Json,
        cache: 16_384,
        refresh: 60,
        items: &[
            (1_000, 17, 1, 40),
            (2_000, 6, 10, 840),
            (60_000, 6, 10, 840),
        ],
        want: "{\"bytes\":840,\"ip_proto\":6,\"packets\":10}\n{\"bytes\":40,\"ip_proto\":17,\"packets\":1}\n{\"bytes\":840,\"ip_proto\":6,\"packets\":10}\n",
        purged: (1_720, 21, 3),
    },
    Case {
        name: "two windows",
        kind: PluginKind::Print,
        layout: Layout::Csv,
        cache: 16_384,
        refresh: 60,
        items: &[(59_999, 6, 10, 840), (60_000, 6, 10, 840)],
        want: "PROTOCOL,PACKETS,BYTES\n6,10,840\nPROTOCOL,PACKETS,BYTES\n6,10,840\n",
        purged: (1_680, 20, 2),
    },
    Case {
        name: "a limit of two keys",
        kind: PluginKind::Print,
        layout: Layout::Csv,
        cache: 2,
        refresh: 60,
        items: &[
            (0, 1, 10, 840),
            (0, 2, 10, 840),
            (0, 3, 10, 840),
            (0, 1, 10, 840),
        ],
        want: "PROTOCOL,PACKETS,BYTES\n1,10,840\n2,10,840\nPROTOCOL,PACKETS,BYTES\n1,10,840\n3,10,840\n",
        purged: (3_360, 40, 4),
    },
    Case {
        name: "a known key where the cache is full",
        kind: PluginKind::Print,
        layout: Layout::Csv,
        cache: 1,
        refresh: 60,
        items: &[(0, 6, 10, 840), (1, 6, 1, 60)],
        want: "PROTOCOL,PACKETS,BYTES\n6,11,900\n",
        purged: (900, 11, 2),
    },
    Case {
        name: "windows and a limit",
        kind: PluginKind::Print,
        layout: Layout::Csv,
        cache: 1,
        refresh: 1,
        items: &[
            (0, 6, 1, 1),
            (1_000, 17, 2, 2),
            (1_001, 6, 4, 4),
            (2_000, 6, 8, 8),
        ],
        want: "PROTOCOL,PACKETS,BYTES\n6,1,1\nPROTOCOL,PACKETS,BYTES\n17,2,2\nPROTOCOL,PACKETS,BYTES\n6,4,4\nPROTOCOL,PACKETS,BYTES\n6,8,8\n",
        purged: (15, 15, 4),
    },
    Case {
        name: "a memory plugin over many windows and keys",
        kind: PluginKind::Memory,
        layout: Layout::Csv,
        cache: 1,
        refresh: 1,
        items: &[
            (0, 17, 1, 1),
            (1_000, 6, 2, 2),
            (1_001, 17, 4, 4),
            (86_400_000, 1, 8, 8),
        ],
        want: "PROTOCOL,PACKETS,BYTES\n1,8,8\n6,2,2\n17,5,5\n",
        purged: (15, 15, 4),
    },
    Case {
        name: "sums past 64 bits",
        kind: PluginKind::Print,
        layout: Layout::Json,
        cache: 16_384,
        refresh: 60,
        items: &[
            (0, 6, 1, 18_446_744_073_709_551_615),
            (0, 6, 1, 18_446_744_073_709_551_615),
        ],
        want: "{\"bytes\":\"36893488147419103230\",\"ip_proto\":6,\"packets\":2}\n",
        purged: (36_893_488_147_419_103_230, 2, 2),
    },
];

fn config(alloc: Global, case: &Case) -> Result<PluginConfig, NoMemory>
    requires cache { IsWithin 1 65536 case.now.cache }
    requires refresh { IsWithin 1 86400 case.now.refresh }
{
    Ok(PluginConfig {
        name: Text::from_slice(alloc, b"p")?,
        kind: case.kind,
        primitives: Primitives::none().with(Column::Proto),
        layout: case.layout,
        file: Text::from_slice(alloc, b"p.csv")?,
        refresh: case.refresh,
        ring: 4_096,
        wait: false,
        cache: case.cache,
    })
}

fn counts(packets: u64, bytes: u64) -> Counts
    ensures { IsBelow (2 ^ 96) result }
{
    Counts {
        bytes: u128::from(bytes),
        packets: u128::from(packets),
        flows: 1,
    }
}

fn item(alloc: Global, given: Given) -> Result<Item, NoMemory> {
    let (moment, protocol, packets, bytes) = given;
    let mut key = Key::new(alloc);
    key.push_number(protocol)?;
    Ok(Item {
        datagram: 1,
        row: 1,
        moment,
        key,
        counts: counts(packets, bytes),
    })
}

fn take_all(alloc: Global, plugin: &mut Plugin<MemorySink>, items: &[Given]) -> Result<(), NoMemory>
    requires none { plugin.old.taken ≡ 0 }
    requires few { length items.now < 100 }
{
    for given in items {
        plugin.take_item(item(alloc, *given)?);
    }
    Ok(())
}

// What a case's plugin leaves, where its sink takes at most `most` octets a write, and its write with this number fails.
fn run(
    alloc: Global,
    case: &Case,
    most: u64,
    failing: Option<u64>,
) -> Result<Option<PluginEnd<MemorySink>>, NoMemory> {
    let mut writes = List::new(alloc);
    if let Some(number) = failing {
        writes.push(number)?;
    }
    let good = (1..=65_536).contains(&case.cache) && (1..=86_400).contains(&case.refresh);
    if !good || most == 0 || case.items.len() >= 100 {
        return Ok(None);
    }
    let config = config(alloc, case)?;
    let hashing = same_hashing().map_err(|_| NoMemory)?;
    let out = MemorySink::new(alloc, most, writes);
    let Ok(mut plugin) = Plugin::start(alloc, hashing, &config, out) else {
        return Err(NoMemory);
    };
    take_all(alloc, &mut plugin, case.items)?;
    Ok(Some(plugin.finish()))
}

#[test]
fn items_are_written_in_slices(rt: HostRuntime) -> Result<(), Fail> {
    let alloc = rt.alloc();
    for case in &CASES {
        for most in [u64::MAX, 8, 1] {
            let Some(left) = run(alloc, case, most, None)? else {
                return Err(case.name.into());
            };
            let (bytes, packets, flows) = case.purged;
            let purged = Counts {
                bytes,
                packets,
                flows,
            };
            assert_eq!(rt;
                left.out.held().as_slice(),
                case.want.as_bytes(),
                "{}",
                case.name
            );
            assert_eq!(rt; left.end, OutEnd::Whole, "{}", case.name);
            assert_eq!(rt; left.purged, purged, "{}", case.name);
        }
    }
    Ok(())
}

#[test]
fn a_failed_write_leaves_a_front(rt: HostRuntime) -> Result<(), Fail> {
    let alloc = rt.alloc();
    for case in &CASES {
        // Each text has fewer writes of 8 octets.
        for number in 1..30 {
            let Some(left) = run(alloc, case, 8, Some(number))? else {
                return Err(case.name.into());
            };
            let held = left.out.held().as_slice();
            assert!(rt; case.want.as_bytes().starts_with(held), "{}", case.name);
            let whole = left.out.faults() == 0;
            assert_eq!(rt;
                left.end,
                if whole { OutEnd::Whole } else { OutEnd::Failed },
                "{}",
                case.name
            );
            assert_eq!(rt; whole, held.len() == case.want.len(), "{}", case.name);
            assert!(rt;
                whole || held.len() as u64 <= 8 * (number - 1),
                "{}",
                case.name
            );
            assert!(rt; whole || left.purged == Counts::nothing(), "{}", case.name);
            assert!(rt;
                number > 1 || whole == case.items.is_empty(),
                "{}",
                case.name
            );
        }
        let Some(left) = run(alloc, case, 8, Some(30))? else {
            return Err(case.name.into());
        };
        assert_eq!(rt; left.end, OutEnd::Whole, "{}", case.name);
    }
    Ok(())
}
