//! Runs over memory, within their limits and past them.

ghost use Rattle.std.specs.Prelude.{◌≡◌, None, false, true, IsTrue};
ghost use Rattle.collect_core.specs.Job.{collects};

use acct_types::{Addr, Counts, Datagram, List, NoMemory, Octets};
use collect_core::{Core, Job, Limits, RunEnd, collects, run_alone};
use config_keys::{Config, Tool, read_config};
use fixtures::same_hashing;
use out_text::Totals;
use outside_io::{
    Datagrams, InputFault, IoFault, MemoryFlows, MemorySink, NoRoutes, OutEnd, SideEnd, Sink,
    Which, can_come,
};
use pretag_map::{AgentMap, SamplingMap, TagMap};
use std::alloc::Global;
use std::sync::Arc;
use std::sync::atomic::{AtomicU64, Ordering};
use std::test::Fail;

const ONE: &[u8] = b"plugins: print[p]\n\
print_output: csv\n\
print_output_file: p.csv\n\
print_output_file_append: true\n";

// Two keys in the cache of p, and all in that of q.
const THREE: &[u8] = b"plugins: print[p], print[q], memory[m]\n\
aggregate[m]: proto, flows\n\
print_output: csv\n\
print_output_file[p]: p.csv\n\
print_output_file[q]: q.csv\n\
print_output_file_append: true\n\
print_output[m]: formatted\n\
acct_memory_file: m.txt\n\
acct_cache_entries[p]: 2\n";

const FIRST: Addr = Addr::V4(0xc000_0201);

const SIXTH: Addr = Addr::V6(0x2001_0db8_0000_0000_0000_0000_0000_0001);

#[derive(Clone, Copy)]
enum Content {
    // Version 5, with a record of 10 packets and 840 octets from 10.0.0.N for each number.
    From(&'static [u8]),
    Alone(&'static [u8]),
}

// An exporter, a moment in milliseconds, and what comes.
type Flow = (Addr, u64, Content);

// The most octets of the records and of the events that a run takes.
type Most = (u64, u64);

const FULL: Most = (4_294_967_295, 1_099_511_627_776);

// What a run is given, and the numbers, from 1, of the calls of its input and of the writes of its sinks that fail: of those of the
// plugins in their order, and of the audit's. A sink takes at most 8 octets a write.
#[derive(Clone, Copy)]
struct Given {
    config: &'static [u8],
    flows: &'static [Flow],
    reads: &'static [u64],
    most: Most,
    writes: &'static [&'static [u64]],
    audit_writes: &'static [u64],
}

// A text of which a sink holds all, or a front.
#[derive(Clone, Copy)]
enum Text {
    Whole(&'static [u8]),
    Front(&'static [u8]),
}

// What the sink of a plugin holds, and the sums of bytes, packets and flows over its purges.
type Output = (Text, (u128, u128, u128));

// How the input ends, how many datagrams there were, how many of them were refused, and how many records were counted, and the outputs
// of the plugins and the audit's text.
#[derive(Clone, Copy)]
struct Wanted {
    flow: SideEnd,
    totals: (u64, u64, u64),
    plugins: &'static [Output],
    audit: Text,
}

type Case = (Given, Wanted);

// What a run leaves.
#[derive(Drop)]
struct Left {
    end: RunEnd<MemorySink>,
    audit: MemorySink,
}

fn datagram(alloc: Global, flow: Flow) -> Result<Datagram, NoMemory> {
    let (exporter, moment, content) = flow;
    let mut octets = Octets::new(alloc);
    match content {
        Content::Alone(alone) => octets.extend(alone)?,
        Content::From(sources) => {
            octets.extend(&[0, 5, 0, (sources.len() % 256) as u8])?;
            octets.extend(&[0; 20])?;
            for source in sources {
                octets.extend(&[10, 0, 0, *source, 10, 0, 0, 2])?;
                octets.extend(b"\0\0\0\0\0\0\0\0\0\0\0\x0a\0\0\x03\x48")?;
                octets.extend(b"\0\0\0\0\0\0\0\0\x04\0\0\x50\0\0\x06\0\0\0\0\0\0\0\0\0")?;
            }
        }
    }
    Ok(Datagram {
        moment,
        exporter,
        port: 50_000,
        octets,
    })
}

fn datagrams(alloc: Global, flows: &[Flow]) -> Result<List<Datagram>, NoMemory> {
    let mut all = List::new(alloc);
    for flow in flows {
        all.push(datagram(alloc, *flow)?)?;
    }
    Ok(all)
}

fn limits(most: Most) -> Limits {
    let (records, octets) = most;
    Limits {
        records: records.min(4_294_967_295),
        messages: 0,
        octets: octets.min(1_099_511_627_776),
    }
}

fn job(alloc: Global, config: &[u8]) -> Result<Job, Fail> {
    if config.len() > 1_048_576 {
        return Err("the configuration is too long".into());
    }
    Ok(Job {
        config: read_config(alloc, Tool::Nfacctd, config)?,
        tags: TagMap::empty(alloc),
        agents: AgentMap::empty(alloc),
        samplings: SamplingMap::empty(alloc),
    })
}

fn has_no_routes(config: &Config) -> bool
    ensures collects { IsTrue result → collects config.now.tool ≡ true }
    ensures no_bgp { IsTrue result → config.now.bgp_daemon ≡ false }
    ensures no_bmp { IsTrue result → config.now.bmp_daemon ≡ false }
{
    collects(config.tool) && !config.bgp_daemon && !config.bmp_daemon
}

fn sinks(alloc: Global, count: usize, writes: &[&[u64]]) -> Result<List<MemorySink>, NoMemory> {
    let mut sinks = List::new(alloc);
    for index in 0..count {
        let failing = match writes.get(index) {
            Some(numbers) => List::from_slice(alloc, numbers)?,
            None => List::new(alloc),
        };
        sinks.push(MemorySink::new(alloc, 8, failing))?;
    }
    Ok(sinks)
}

fn run(alloc: Global, given: &Given) -> Result<Left, Fail> {
    let job = job(alloc, given.config)?;
    let count = job.config.plugins.len();
    let outs = sinks(alloc, count, given.writes)?;
    let flows = datagrams(alloc, given.flows)?;
    if !has_no_routes(&job.config) || outs.len() != count || !can_come(flows.as_slice()) {
        return Err("there is no such run".into());
    }
    let mut flows = MemoryFlows::new(flows, List::from_slice(alloc, given.reads)?);
    let mut audit = MemorySink::new(alloc, 8, List::from_slice(alloc, given.audit_writes)?);
    let hashing = same_hashing()?;
    let most = limits(given.most);
    let end = run_alone(
        alloc,
        hashing,
        &job,
        &mut flows,
        &mut NoRoutes::new(alloc),
        outs,
        &mut audit,
        &most,
    );
    let Limits {
        records: _,
        messages: _,
        octets: _,
    } = most;
    Ok(Left { end, audit })
}

fn is_text(held: &[u8], end: OutEnd, text: Text) -> bool {
    match text {
        Text::Whole(whole) => end == OutEnd::Whole && held == whole,
        Text::Front(front) => end == OutEnd::Failed && held == front,
    }
}

fn counts(sums: (u128, u128, u128)) -> Counts {
    let (bytes, packets, flows) = sums;
    Counts {
        bytes,
        packets,
        flows,
    }
}

// The first thing in which a run differs from what is wanted.
fn difference(alloc: Global, given: &Given, wanted: &Wanted) -> Result<&'static str, Fail> {
    let left = run(alloc, given)?;
    let end = &left.end;
    if end.memory {
        return Ok("memory");
    }
    if end.flow != wanted.flow || end.route != SideEnd::Ended {
        return Ok("input");
    }
    let (datagrams, refused, records) = wanted.totals;
    let totals = Totals {
        datagrams,
        refused,
        records,
        dropped: 0,
        messages: 0,
        closed: 0,
    };
    if end.totals != totals {
        return Ok("totals");
    }
    if !is_text(left.audit.held().as_slice(), end.audit, wanted.audit) {
        return Ok("audit");
    }
    if end.plugins.len() != wanted.plugins.len() {
        return Ok("plugins");
    }
    for (plugin, (text, sums)) in end.plugins.as_slice().iter().zip(wanted.plugins) {
        if !is_text(plugin.out.held().as_slice(), plugin.end, *text) {
            return Ok("output");
        }
        if plugin.purged != counts(*sums) {
            return Ok("purged");
        }
    }
    Ok("none")
}

fn first_difference(alloc: Global, cases: &[Case]) -> Result<(usize, &'static str), Fail> {
    for (index, (given, wanted)) in cases.iter().enumerate() {
        let found = difference(alloc, given, wanted)?;
        if found != "none" {
            return Ok((index, found));
        }
    }
    Ok((cases.len(), "none"))
}

// Six times the same record in one datagram, and in six.
const SIX_AT_ONCE: &[Flow] = &[(FIRST, 1_000, Content::From(&[1, 1, 1, 1, 1, 1]))];

const SIX_ALONE: &[Flow] = &[
    (FIRST, 1_000, Content::From(&[1])),
    (FIRST, 1_000, Content::From(&[1])),
    (FIRST, 1_000, Content::From(&[1])),
    (FIRST, 1_000, Content::From(&[1])),
    (FIRST, 1_000, Content::From(&[1])),
    (FIRST, 1_000, Content::From(&[1])),
];

// Two sets with a reserved id, and between them the template 256 of a source address, packets and bytes, and two records of it.
const NOTICED: &[u8] = b"\0\x09\0\0\0\0\0\0\0\0\0\0\0\0\0\0\0\0\0\0\0\x05\0\x08\0\0\0\0\
\0\0\0\x14\x01\0\0\x03\0\x08\0\x04\0\x02\0\x04\0\x01\0\x04\
\x01\0\0\x1c\x0a\0\0\x01\0\0\0\x0a\0\0\x03\x48\x0a\0\0\x02\0\0\0\x0a\0\0\x03\x48\0\x06\0\x08\0\0\0\0";

fn within(flows: &'static [Flow], most: Most) -> Given {
    Given {
        config: ONE,
        flows,
        reads: &[],
        most,
        writes: &[],
        audit_writes: &[],
    }
}

// The end of a run of one plugin.
fn ends(
    flow: SideEnd,
    totals: (u64, u64, u64),
    plugins: &'static [Output],
    audit: &'static [u8],
) -> Wanted {
    Wanted {
        flow,
        totals,
        plugins,
        audit: Text::Whole(audit),
    }
}

const NOTHING: &[Output] = &[(Text::Whole(b""), (0, 0, 0))];

const ONE_FLOW: &[Output] = &[(
    Text::Whole(b"SRC_IP,PACKETS,BYTES\n10.0.0.1,10,840\n"),
    (840, 10, 1),
)];

const TWO_FLOWS: &[Output] = &[(
    Text::Whole(b"SRC_IP,PACKETS,BYTES\n10.0.0.1,20,1680\n"),
    (1_680, 20, 2),
)];

const THREE_FLOWS: &[Output] = &[(
    Text::Whole(b"SRC_IP,PACKETS,BYTES\n10.0.0.1,30,2520\n"),
    (2_520, 30, 3),
)];

const SIX_FLOWS: &[Output] = &[(
    Text::Whole(b"SRC_IP,PACKETS,BYTES\n10.0.0.1,60,5040\n"),
    (5_040, 60, 6),
)];

const TOO_MANY_RECORDS: SideEnd = SideEnd::TooMany(Which::Records);

const TOO_MANY_OCTETS: SideEnd = SideEnd::TooMany(Which::Octets);

const REFUSED: &[Flow] = &[(FIRST, 0, Content::Alone(b"\0"))];

const WITH_NOTICES: &[Flow] = &[(FIRST, 0, Content::Alone(NOTICED))];

const OTHERS_REFUSED: &[Flow] = &[
    (FIRST, 0, Content::From(&[1])),
    (FIRST, 0, Content::Alone(b"\0")),
    (FIRST, 0, Content::From(&[1])),
    (FIRST, 0, Content::Alone(b"\0")),
];

#[test]
fn records_are_counted_up_to_their_limit(rt: HostRuntime) -> Result<(), Fail> {
    let cases: [Case; 12] = [
        (
            within(SIX_AT_ONCE, (3, FULL.1)),
            ends(
                TOO_MANY_RECORDS,
                (1, 0, 3),
                THREE_FLOWS,
                b"end 1 0 3 0 0 0\n",
            ),
        ),
        (
            within(SIX_ALONE, (3, FULL.1)),
            ends(
                TOO_MANY_RECORDS,
                (4, 0, 3),
                THREE_FLOWS,
                b"end 4 0 3 0 0 0\n",
            ),
        ),
        (
            within(SIX_AT_ONCE, (6, FULL.1)),
            ends(SideEnd::Ended, (1, 0, 6), SIX_FLOWS, b"end 1 0 6 0 0 0\n"),
        ),
        (
            within(SIX_ALONE, (6, FULL.1)),
            ends(SideEnd::Ended, (6, 0, 6), SIX_FLOWS, b"end 6 0 6 0 0 0\n"),
        ),
        (
            within(SIX_AT_ONCE, FULL),
            ends(SideEnd::Ended, (1, 0, 6), SIX_FLOWS, b"end 1 0 6 0 0 0\n"),
        ),
        (
            within(SIX_AT_ONCE, (0, FULL.1)),
            ends(TOO_MANY_RECORDS, (1, 0, 0), NOTHING, b"end 1 0 0 0 0 0\n"),
        ),
        (
            within(&[], (0, 0)),
            ends(SideEnd::Ended, (0, 0, 0), NOTHING, b"end 0 0 0 0 0 0\n"),
        ),
        // What has no record passes no limit.
        (
            within(REFUSED, (0, FULL.1)),
            ends(
                SideEnd::Ended,
                (1, 1, 0),
                NOTHING,
                b"refused 1 short\nend 1 1 0 0 0 0\n",
            ),
        ),
        (
            within(OTHERS_REFUSED, (1, FULL.1)),
            ends(
                TOO_MANY_RECORDS,
                (3, 1, 1),
                ONE_FLOW,
                b"refused 2 short\nend 3 1 1 0 0 0\n",
            ),
        ),
        (
            within(OTHERS_REFUSED, (2, FULL.1)),
            ends(
                SideEnd::Ended,
                (4, 2, 2),
                TWO_FLOWS,
                b"refused 2 short\nrefused 4 short\nend 4 2 2 0 0 0\n",
            ),
        ),
        // All notices of the datagram that passes the limit are told.
        (
            within(WITH_NOTICES, (1, FULL.1)),
            ends(
                TOO_MANY_RECORDS,
                (1, 0, 1),
                ONE_FLOW,
                b"notice 1 1 reserved-set 5\nnotice 1 4 reserved-set 6\nend 1 0 1 0 0 0\n",
            ),
        ),
        // The limit of records goes before that of octets, which the next datagram would pass.
        (
            within(SIX_ALONE, (0, 91)),
            ends(TOO_MANY_RECORDS, (1, 0, 0), NOTHING, b"end 1 0 0 0 0 0\n"),
        ),
    ];
    let found = first_difference(rt.alloc(), &cases)?;
    assert_eq!(rt; found, (12, "none"));
    Ok(())
}

// An event has 19 octets before a datagram, or 31 where its exporter has an IPv6 address. These datagrams have 72, or none.
const TWO: &[Flow] = &[
    (FIRST, 0, Content::From(&[1])),
    (FIRST, 0, Content::From(&[1])),
];

const WIDE: &[Flow] = &[
    (SIXTH, 0, Content::From(&[1])),
    (FIRST, 0, Content::From(&[1])),
];

const EMPTY: &[Flow] = &[
    (FIRST, 0, Content::Alone(b"")),
    (SIXTH, 0, Content::Alone(b"")),
];

#[test]
fn events_have_octets_up_to_their_limit(rt: HostRuntime) -> Result<(), Fail> {
    let none = ends(TOO_MANY_OCTETS, (0, 0, 0), NOTHING, b"end 0 0 0 0 0 0\n");
    let one = ends(TOO_MANY_OCTETS, (1, 0, 1), ONE_FLOW, b"end 1 0 1 0 0 0\n");
    let all = ends(SideEnd::Ended, (2, 0, 2), TWO_FLOWS, b"end 2 0 2 0 0 0\n");
    let cases: [Case; 14] = [
        (within(TWO, (2, 182)), all),
        (within(TWO, (2, 181)), one),
        (within(TWO, (2, 92)), one),
        (within(TWO, (2, 91)), one),
        (within(TWO, (2, 90)), none),
        (within(TWO, (2, 0)), none),
        (within(WIDE, (2, 194)), all),
        (within(WIDE, (2, 193)), one),
        (within(WIDE, (2, 103)), one),
        (within(WIDE, (2, 102)), none),
        (
            within(EMPTY, (2, 50)),
            ends(
                SideEnd::Ended,
                (2, 2, 0),
                NOTHING,
                b"refused 1 short\nrefused 2 short\nend 2 2 0 0 0 0\n",
            ),
        ),
        (
            within(EMPTY, (2, 49)),
            ends(
                TOO_MANY_OCTETS,
                (1, 1, 0),
                NOTHING,
                b"refused 1 short\nend 1 1 0 0 0 0\n",
            ),
        ),
        (within(EMPTY, (2, 18)), none),
        // An event that would pass the limit isn't decoded, so that its records pass none.
        (within(TWO, (1, 181)), one),
    ];
    let found = first_difference(rt.alloc(), &cases)?;
    assert_eq!(rt; found, (14, "none"));
    Ok(())
}

const ONE_REFUSED: &[Flow] = &[
    (FIRST, 0, Content::From(&[1])),
    (FIRST, 0, Content::Alone(b"\0")),
    (FIRST, 60_000, Content::From(&[1])),
];

fn failing(reads: &'static [u64], audit_writes: &'static [u64]) -> Given {
    Given {
        reads,
        audit_writes,
        ..within(ONE_REFUSED, FULL)
    }
}

const LOST: SideEnd = SideEnd::Fault(InputFault::ReadFault);

const TWO_PURGES: &[Output] = &[(
    Text::Whole(b"SRC_IP,PACKETS,BYTES\n10.0.0.1,10,840\nSRC_IP,PACKETS,BYTES\n10.0.0.1,10,840\n"),
    (1_680, 20, 2),
)];

fn cut(whole: Wanted, front: &'static [u8]) -> Wanted {
    Wanted {
        audit: Text::Front(front),
        ..whole
    }
}

#[test]
fn each_call_of_an_input_or_an_audit_fails_in_turn(rt: HostRuntime) -> Result<(), Fail> {
    let refused: &'static [u8] = b"refused 2 short\nend 2 1 1 0 0 0\n";
    let whole = ends(
        SideEnd::Ended,
        (3, 1, 2),
        TWO_PURGES,
        b"refused 2 short\nend 3 1 2 0 0 0\n",
    );
    let cases: [Case; 11] = [
        (
            failing(&[1], &[]),
            ends(LOST, (0, 0, 0), NOTHING, b"end 0 0 0 0 0 0\n"),
        ),
        (
            failing(&[2], &[]),
            ends(LOST, (1, 0, 1), ONE_FLOW, b"end 1 0 1 0 0 0\n"),
        ),
        (failing(&[3], &[]), ends(LOST, (2, 1, 1), ONE_FLOW, refused)),
        (
            failing(&[4], &[]),
            ends(
                LOST,
                (3, 1, 2),
                TWO_PURGES,
                b"refused 2 short\nend 3 1 2 0 0 0\n",
            ),
        ),
        (failing(&[5], &[5]), whole),
        (failing(&[], &[1]), cut(whole, b"")),
        // Once a write of the audit failed, no other comes.
        (failing(&[], &[2]), cut(whole, b"refused ")),
        (failing(&[], &[3]), cut(whole, b"refused 2 short\n")),
        (failing(&[], &[4]), cut(whole, b"refused 2 short\nend 3 1 ")),
        (failing(&[], &[1, 2, 3, 4]), cut(whole, b"")),
        (
            failing(&[2], &[2]),
            Wanted {
                audit: Text::Front(b"end 1 0 "),
                ..ends(LOST, (1, 0, 1), ONE_FLOW, b"")
            },
        ),
    ];
    let found = first_difference(rt.alloc(), &cases)?;
    assert_eq!(rt; found, (11, "none"));
    Ok(())
}

const IN_TWO_WINDOWS: &[Flow] = &[
    (FIRST, 0, Content::From(&[1, 2, 3])),
    (FIRST, 60_000, Content::From(&[1])),
];

const IN_THREE: Given = Given {
    config: THREE,
    flows: IN_TWO_WINDOWS,
    reads: &[],
    most: FULL,
    writes: &[],
    audit_writes: &[],
};

const THREE_END: Wanted = Wanted {
    flow: SideEnd::Ended,
    totals: (2, 0, 4),
    plugins: &[],
    audit: Text::Whole(b"end 2 0 4 0 0 0\n"),
};

const FIRST_PURGE: &[u8] = b"SRC_IP,PACKETS,BYTES\n10.0.0.1,10,840\n10.0.0.2,10,840\n";

const CUT_TWICE: &[u8] = b"SRC_IP,PACKETS,BYTES\n10.0.0.1,10,840\n10.0.0.2,10,840\n\
SRC_IP,PACKETS,BYTES\n10.0.0.3,10,840\n\
SRC_IP,PACKETS,BYTES\n10.0.0.1,10,840\n";

const CUT_ONCE: &[u8] = b"SRC_IP,PACKETS,BYTES\n10.0.0.1,10,840\n10.0.0.2,10,840\n10.0.0.3,10,840\n\
SRC_IP,PACKETS,BYTES\n10.0.0.1,10,840\n";

const IN_MEMORY: &[u8] = b"PROTOCOL  PACKETS               FLOWS                 BYTES\n\
6         40                    4                     3360\n";

const ALL: (u128, u128, u128) = (3_360, 40, 4);

static OF_THREE: [Case; 6] = [
    (
        IN_THREE,
        Wanted {
            plugins: &[
                (Text::Whole(CUT_TWICE), ALL),
                (Text::Whole(CUT_ONCE), ALL),
                (Text::Whole(IN_MEMORY), ALL),
            ],
            ..THREE_END
        },
    ),
    (
        Given {
            writes: &[&[2]],
            ..IN_THREE
        },
        Wanted {
            plugins: &[
                (Text::Front(b"SRC_IP,P"), (0, 0, 0)),
                (Text::Whole(CUT_ONCE), ALL),
                (Text::Whole(IN_MEMORY), ALL),
            ],
            ..THREE_END
        },
    ),
    // The first purge of p has seven writes, of which the last has five octets.
    (
        Given {
            writes: &[&[8]],
            ..IN_THREE
        },
        Wanted {
            plugins: &[
                (Text::Front(FIRST_PURGE), (0, 0, 0)),
                (Text::Whole(CUT_ONCE), ALL),
                (Text::Whole(IN_MEMORY), ALL),
            ],
            ..THREE_END
        },
    ),
    (
        Given {
            writes: &[&[], &[1]],
            ..IN_THREE
        },
        Wanted {
            plugins: &[
                (Text::Whole(CUT_TWICE), ALL),
                (Text::Front(b""), (0, 0, 0)),
                (Text::Whole(IN_MEMORY), ALL),
            ],
            ..THREE_END
        },
    ),
    (
        Given {
            writes: &[&[], &[], &[2]],
            ..IN_THREE
        },
        Wanted {
            plugins: &[
                (Text::Whole(CUT_TWICE), ALL),
                (Text::Whole(CUT_ONCE), ALL),
                (Text::Front(b"PROTOCOL"), (0, 0, 0)),
            ],
            ..THREE_END
        },
    ),
    (
        Given {
            writes: &[&[1], &[1], &[1]],
            audit_writes: &[1],
            ..IN_THREE
        },
        Wanted {
            plugins: &[
                (Text::Front(b""), (0, 0, 0)),
                (Text::Front(b""), (0, 0, 0)),
                (Text::Front(b""), (0, 0, 0)),
            ],
            audit: Text::Front(b""),
            ..THREE_END
        },
    ),
];

#[test]
fn plugins_end_each_for_itself(rt: HostRuntime) -> Result<(), Fail> {
    let found = first_difference(rt.alloc(), &OF_THREE)?;
    assert_eq!(rt; found, (6, "none"));
    Ok(())
}

fn numbers(limits: &Limits) -> (u64, u64, u64) {
    (limits.records, limits.messages, limits.octets)
}

#[test]
fn the_full_limits_are_limits(rt: HostRuntime) {
    let wanted = (4_294_967_295, 4_294_967_295, 1_099_511_627_776);
    assert_eq!(rt; numbers(&Limits::FULL), wanted);
}

// How many octets a sink took.
#[derive(Drop)]
struct Counter {
    written: Arc<AtomicU64>,
}

impl Sink for Counter {
    ghost state = { λ _. record { held = None; faults = 0 } };

    fn write(&mut self, piece: &[u8]) -> Result<usize, IoFault> {
        self.written.fetch_add(piece.len() as u64, Ordering::SeqCst);
        Ok(piece.len())
    }
}

// Hands out three datagrams without octets, each where the lines of those before it, of 16 octets each, were written.
#[derive(Drop)]
struct Watcher {
    alloc: Global,
    written: Arc<AtomicU64>,
    calls: u64,
    ended: bool,
}

impl Datagrams for Watcher {
    ghost state = { λ watcher. record { left = None; ending = None; handed = None; ended = watcher.ended; moment = 0; faults = 0; captured = false } };

    fn next(&mut self) -> Result<Option<Datagram>, InputFault> {
        let calls = self.calls;
        if calls >= 3 || self.written.load(Ordering::SeqCst) != 16 * calls {
            self.ended = true;
            return Ok(None);
        }
        self.calls = calls + 1;
        Ok(Some(Datagram {
            moment: 0,
            exporter: FIRST,
            port: 50_000,
            octets: Octets::new(self.alloc),
        }))
    }
}

#[test]
fn lines_are_written_before_the_next_datagram_is_asked_for(rt: HostRuntime) -> Result<(), Fail> {
    let alloc = rt.alloc();
    let written = Arc::new(alloc, AtomicU64::new(0))?;
    let mut flows = Watcher {
        alloc,
        written: Arc::try_clone(&written)?,
        calls: 0,
        ended: false,
    };
    let mut audit = Counter {
        written: Arc::try_clone(&written)?,
    };
    let job = job(alloc, ONE)?;
    let outs = sinks(alloc, job.config.plugins.len(), &[])?;
    if !has_no_routes(&job.config) || outs.len() != job.config.plugins.len() {
        return Err("there is no such run".into());
    }
    let end = run_alone(
        alloc,
        same_hashing()?,
        &job,
        &mut flows,
        &mut NoRoutes::new(alloc),
        outs,
        &mut audit,
        &Limits::FULL,
    );
    assert_eq!(rt; end.totals.datagrams, 3);
    assert_eq!(rt; end.totals.refused, 3);
    // and behind them the last line
    assert_eq!(rt; written.load(Ordering::SeqCst), 64);
    Ok(())
}

// How many events are told of a datagram, the plugin and the row of each of its loads, and whether it has more records.
type Step = (usize, &'static [(u32, u32)], bool);

// Of which datagram so many records are asked for.
const STEPS: &[(Content, u64, Step)] = &[
    (
        Content::From(&[1, 2]),
        1,
        (0, &[(0, 1), (1, 1), (2, 1)], true),
    ),
    (
        Content::From(&[1, 2]),
        2,
        (0, &[(0, 1), (1, 1), (2, 1), (0, 2), (1, 2), (2, 2)], false),
    ),
    (Content::From(&[1, 2]), 0, (0, &[], true)),
    (
        Content::Alone(NOTICED),
        1,
        (2, &[(0, 1), (1, 1), (2, 1)], true),
    ),
    (Content::Alone(b""), 1, (1, &[], false)),
];

fn is_step(
    alloc: Global,
    job: &Job,
    content: Content,
    most: u64,
    wanted: Step,
) -> Result<bool, Fail> {
    let datagram = datagram(alloc, (FIRST, 1_000, content))?;
    if !collects(job.config.tool) || datagram.octets.len() > 65_535 {
        return Err("there is no such step".into());
    }
    let step = Core::new(alloc, same_hashing()?, job).datagram(job, &datagram, most)?;
    let (events, loads, full) = wanted;
    if step.events.len() != events || step.loads.len() != loads.len() || step.full != full {
        return Ok(false);
    }
    for ((number, item), (plugin, row)) in step.loads.as_slice().iter().zip(loads) {
        if number != plugin || item.row != *row {
            return Ok(false);
        }
    }
    Ok(true)
}

#[test]
fn a_datagram_gives_its_events_and_loads(rt: HostRuntime) -> Result<(), Fail> {
    let alloc = rt.alloc();
    let job = job(alloc, THREE)?;
    for (content, most, wanted) in STEPS {
        assert!(rt; is_step(alloc, &job, *content, *most, *wanted)?);
    }
    Ok(())
}
