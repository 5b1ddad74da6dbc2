//! Runs with several plugins, and what windows and caches cut.

use crate::test_runs::{
    Case, DONE, EMPTY, File, Given, Part, Wanted, difference, first_difference,
};
use config_keys::Tool;
use std::test::Fail;

const INPUTS: &[u8] = b"acct_flow_capture: flows.cap\n\
acct_threads: false\n";

const TWO_PRINTS: &[u8] = b"plugins: print[p], print[q]\n\
aggregate: src_host\n\
print_output: csv\n\
print_output_file[p]: p.csv\n\
print_output_file[q]: q.csv\n\
print_output_file_append: true\n";

const PRINT_AND_MEMORY: &[u8] = b"plugins: print[p], memory[m]\n\
aggregate[p]: src_host\n\
aggregate[m]: proto\n\
print_output[p]: csv\n\
print_output_file: p.csv\n\
print_output_file_append: true\n\
acct_memory_file: m.txt\n";

const ONE_PRINT: &[u8] = b"plugins: print[p]\n\
print_output: csv\n\
print_output_file: p.csv\n\
print_output_file_append: true\n";

const ONE_KEY: &[u8] = b"acct_cache_entries: 1\n";

const TWO_KEYS: &[u8] = b"acct_cache_entries: 2\n";

const P: &[u8] = b"p.csv";

const Q: &[u8] = b"q.csv";

const M: &[u8] = b"m.txt";

const AUDIT: &[u8] = b"audit.txt";

// What the outputs hold before.
const OLD: &[File] = &[
    (P, b"old\n"),
    (Q, b"old\n"),
    (M, b"old\n"),
    (AUDIT, b"old\n"),
];

const FOUR: &[Part] = &[Part::From(1_000, &[1, 2, 3, 1])];

// The four records in a cache of two keys.
const TWO_PURGES: &[u8] = b"SRC_IP,PACKETS,BYTES\n10.0.0.1,10,840\n10.0.0.2,10,840\n\
SRC_IP,PACKETS,BYTES\n10.0.0.1,10,840\n10.0.0.3,10,840\n";

const OLD_AND_TWO_PURGES: &[u8] = b"old\nSRC_IP,PACKETS,BYTES\n10.0.0.1,10,840\n10.0.0.2,10,840\n\
SRC_IP,PACKETS,BYTES\n10.0.0.1,10,840\n10.0.0.3,10,840\n";

// The four records in one purge.
const ONE_PURGE: &[u8] =
    b"SRC_IP,PACKETS,BYTES\n10.0.0.1,20,1680\n10.0.0.2,10,840\n10.0.0.3,10,840\n";

const OLD_AND_ONE_PURGE: &[u8] =
    b"old\nSRC_IP,PACKETS,BYTES\n10.0.0.1,20,1680\n10.0.0.2,10,840\n10.0.0.3,10,840\n";

const IN_MEMORY: &[u8] = b"PROTOCOL  PACKETS               BYTES\n\
6         40                    3360\n";

// Two purges of one record each, of the same key and of two, and one purge of both.
const TWICE: &[u8] = b"SRC_IP,PACKETS,BYTES\n10.0.0.1,10,840\n\
SRC_IP,PACKETS,BYTES\n10.0.0.1,10,840\n";

const TWO_HOSTS: &[u8] = b"SRC_IP,PACKETS,BYTES\n10.0.0.1,10,840\n\
SRC_IP,PACKETS,BYTES\n10.0.0.2,10,840\n";

const ONCE: &[u8] = b"SRC_IP,PACKETS,BYTES\n10.0.0.1,20,1680\n";

const OF_FOUR: &[u8] = b"end 1 0 4 0 0 0\n";

const OF_TWO: &[u8] = b"end 2 0 2 0 0 0\n";

const OF_ONE: &[u8] = b"end 1 0 1 0 0 0\n";

const OF_NONE: &[u8] = b"end 0 0 0 0 0 0\n";

static FULL_CACHES: [Case; 5] = [
    (
        Given {
            config: &[TWO_PRINTS, INPUTS, TWO_KEYS],
            capture: FOUR,
            ..EMPTY
        },
        Wanted {
            files: &[
                (P, Some(TWO_PURGES)),
                (Q, Some(TWO_PURGES)),
                (AUDIT, Some(OF_FOUR)),
            ],
            ..DONE
        },
    ),
    (
        Given {
            config: &[TWO_PRINTS, INPUTS, b"acct_cache_entries[p]: 2\n"],
            capture: FOUR,
            ..EMPTY
        },
        Wanted {
            files: &[
                (P, Some(TWO_PURGES)),
                (Q, Some(ONE_PURGE)),
                (AUDIT, Some(OF_FOUR)),
            ],
            ..DONE
        },
    ),
    (
        Given {
            config: &[TWO_PRINTS, INPUTS, b"acct_cache_entries[q]: 2\n"],
            capture: FOUR,
            ..EMPTY
        },
        Wanted {
            files: &[
                (P, Some(ONE_PURGE)),
                (Q, Some(TWO_PURGES)),
                (AUDIT, Some(OF_FOUR)),
            ],
            ..DONE
        },
    ),
    // A known key is added where the cache is full.
    (
        Given {
            config: &[ONE_PRINT, INPUTS, ONE_KEY],
            capture: &[Part::From(0, &[1]), Part::From(0, &[1])],
            ..EMPTY
        },
        Wanted {
            files: &[(P, Some(ONCE)), (AUDIT, Some(OF_TWO))],
            ..DONE
        },
    ),
    (
        Given {
            config: &[ONE_PRINT, INPUTS, ONE_KEY],
            capture: &[Part::From(0, &[1, 1, 2]), Part::From(0, &[2, 1])],
            ..EMPTY
        },
        Wanted {
            files: &[(
                P,
                Some(
                    b"SRC_IP,PACKETS,BYTES\n10.0.0.1,20,1680\n\
SRC_IP,PACKETS,BYTES\n10.0.0.2,20,1680\n\
SRC_IP,PACKETS,BYTES\n10.0.0.1,10,840\n",
                ),
            )],
            ..DONE
        },
    ),
];

// The proof of a test needn't read its table: a function hands it out.
fn full_caches() -> &'static [Case] {
    &FULL_CACHES
}

#[test]
fn a_full_cache_is_purged_by_each_plugin_for_itself(rt: HostRuntime) -> Result<(), Fail> {
    let found = first_difference(rt.alloc(), full_caches())?;
    assert_eq!(rt; found, (5, b"none".as_slice()));
    Ok(())
}

const ONE: Given = Given {
    config: &[ONE_PRINT, INPUTS],
    ..EMPTY
};

const IN_SECONDS: Given = Given {
    config: &[ONE_PRINT, INPUTS, b"print_refresh_time: 1\n"],
    ..EMPTY
};

const IN_DAYS: Given = Given {
    config: &[ONE_PRINT, INPUTS, b"print_refresh_time: 86400\n"],
    ..EMPTY
};

const CUT: Wanted = Wanted {
    files: &[(P, Some(TWICE)), (AUDIT, Some(OF_TWO))],
    ..DONE
};

const UNCUT: Wanted = Wanted {
    files: &[(P, Some(ONCE)), (AUDIT, Some(OF_TWO))],
    ..DONE
};

const FIVE: &[u8] = b"aggregate[p]: src_host, dst_host, src_port, dst_port, proto\n";

static WINDOWS: [Case; 11] = [
    (
        Given {
            config: &[ONE_PRINT, INPUTS, FIVE],
            capture: &[Part::From(59_999, &[1]), Part::From(60_000, &[1])],
            ..EMPTY
        },
        Wanted {
            files: &[
                (
                    P,
                    Some(
                        b"SRC_IP,DST_IP,SRC_PORT,DST_PORT,PROTOCOL,PACKETS,BYTES\n10.0.0.1,10.0.0.2,1024,80,6,10,840\n\
SRC_IP,DST_IP,SRC_PORT,DST_PORT,PROTOCOL,PACKETS,BYTES\n10.0.0.1,10.0.0.2,1024,80,6,10,840\n",
                    ),
                ),
                (AUDIT, Some(OF_TWO)),
            ],
            ..DONE
        },
    ),
    (
        Given {
            capture: &[Part::From(59_999, &[1]), Part::From(60_000, &[1])],
            ..ONE
        },
        CUT,
    ),
    (
        Given {
            capture: &[Part::From(0, &[1]), Part::From(59_999, &[1])],
            ..ONE
        },
        UNCUT,
    ),
    // A moment never goes back.
    (
        Given {
            capture: &[Part::From(60_000, &[1]), Part::From(59_999, &[1])],
            ..ONE
        },
        UNCUT,
    ),
    // A window without a record has no purge.
    (
        Given {
            capture: &[Part::From(0, &[1]), Part::From(600_000, &[1])],
            ..ONE
        },
        CUT,
    ),
    (
        Given {
            capture: &[Part::From(999, &[1]), Part::From(1_000, &[1])],
            ..IN_SECONDS
        },
        CUT,
    ),
    (
        Given {
            capture: &[Part::From(60_000, &[1]), Part::From(86_399_999, &[1])],
            ..IN_DAYS
        },
        UNCUT,
    ),
    (
        Given {
            capture: &[Part::From(86_399_999, &[1]), Part::From(86_400_000, &[1])],
            ..IN_DAYS
        },
        CUT,
    ),
    (
        Given {
            config: &[ONE_PRINT, INPUTS, b"aggregate: acct_window\n"],
            capture: &[
                Part::From(119_999, &[1]),
                Part::From(3, &[1]),
                Part::From(120_000, &[1]),
            ],
            ..EMPTY
        },
        Wanted {
            files: &[
                (
                    P,
                    Some(
                        b"WINDOW,PACKETS,BYTES\n60000,20,1680\n\
WINDOW,PACKETS,BYTES\n120000,10,840\n",
                    ),
                ),
                (AUDIT, Some(b"end 3 0 3 0 0 0\n")),
            ],
            ..DONE
        },
    ),
    // An entry of the next window for which the full cache has no room cuts once.
    (
        Given {
            config: &[ONE_PRINT, INPUTS, ONE_KEY],
            capture: &[Part::From(59_999, &[1]), Part::From(60_000, &[2])],
            ..EMPTY
        },
        Wanted {
            files: &[(P, Some(TWO_HOSTS)), (AUDIT, Some(OF_TWO))],
            ..DONE
        },
    ),
    // A datagram that is refused has a moment, too.
    (
        Given {
            capture: &[
                Part::From(0, &[1]),
                Part::Alone(60_000, b"\0\x07"),
                Part::From(0, &[1]),
            ],
            ..ONE
        },
        Wanted {
            files: &[
                (P, Some(TWICE)),
                (AUDIT, Some(b"refused 2 version 7\nend 3 1 2 0 0 0\n")),
            ],
            ..DONE
        },
    ),
];

fn windows() -> &'static [Case] {
    &WINDOWS
}

#[test]
fn windows_cut_by_moments_that_never_go_back(rt: HostRuntime) -> Result<(), Fail> {
    let found = first_difference(rt.alloc(), windows())?;
    assert_eq!(rt; found, (11, b"none".as_slice()));
    Ok(())
}

// A print and a memory plugin over the four records. All outputs hold something before.
const UNALIKE: Given = Given {
    config: &[PRINT_AND_MEMORY, INPUTS],
    capture: FOUR,
    files: OLD,
    ..EMPTY
};

static MEMORY: [Case; 6] = [
    (
        Given {
            config: &[
                b"plugins: print[p], memory[m]\n\
aggregate[m]: proto\n\
print_output[p]: csv\n\
print_output_file[p]: p.csv\n\
print_output_file_append: true\n\
acct_memory_file[m]: m.txt\n",
                FIVE,
                INPUTS,
            ],
            capture: &[Part::From(1_000, &[1])],
            files: &[(M, b"old")],
            ..EMPTY
        },
        Wanted {
            files: &[
                (
                    P,
                    Some(
                        b"SRC_IP,DST_IP,SRC_PORT,DST_PORT,PROTOCOL,PACKETS,BYTES\n10.0.0.1,10.0.0.2,1024,80,6,10,840\n",
                    ),
                ),
                (
                    M,
                    Some(
                        b"PROTOCOL  PACKETS               BYTES\n6         10                    840\n",
                    ),
                ),
                (AUDIT, Some(b"end 1 0 1 0 0 0\n")),
            ],
            ..DONE
        },
    ),
    (
        UNALIKE,
        Wanted {
            files: &[
                (P, Some(OLD_AND_ONE_PURGE)),
                (M, Some(IN_MEMORY)),
                (Q, Some(b"old\n")),
                (AUDIT, Some(OF_FOUR)),
            ],
            ..DONE
        },
    ),
    (
        Given {
            capture: &[],
            ..UNALIKE
        },
        Wanted {
            files: &[(P, Some(b"old\n")), (M, Some(b"")), (AUDIT, Some(OF_NONE))],
            ..DONE
        },
    ),
    (
        Given {
            capture: &[Part::Alone(0, b"\0\x07")],
            ..UNALIKE
        },
        Wanted {
            files: &[
                (P, Some(b"old\n")),
                (M, Some(b"")),
                (AUDIT, Some(b"refused 1 version 7\nend 1 1 0 0 0 0\n")),
            ],
            ..DONE
        },
    ),
    // Neither windows nor the number of keys cut what a memory plugin writes.
    (
        Given {
            config: &[PRINT_AND_MEMORY, INPUTS, ONE_KEY],
            capture: &[Part::From(59_999, &[1]), Part::From(60_000, &[1])],
            files: &[],
            ..UNALIKE
        },
        Wanted {
            files: &[
                (P, Some(TWICE)),
                (
                    M,
                    Some(
                        b"PROTOCOL  PACKETS               BYTES\n\
6         20                    1680\n",
                    ),
                ),
            ],
            ..DONE
        },
    ),
    (
        Given {
            config: &[
                b"plugins: memory\n",
                b"aggregate: acct_window, src_host\n",
                b"print_output: csv\n",
                b"acct_memory_file: m.txt\n",
                INPUTS,
                ONE_KEY,
            ],
            capture: &[Part::From(59_999, &[2, 1]), Part::From(60_000, &[2])],
            ..UNALIKE
        },
        Wanted {
            files: &[
                (
                    M,
                    Some(
                        b"WINDOW,SRC_IP,PACKETS,BYTES\n0,10.0.0.1,10,840\n\
0,10.0.0.2,10,840\n60000,10.0.0.2,10,840\n",
                    ),
                ),
                (P, Some(b"old\n")),
            ],
            ..DONE
        },
    ),
];

fn memory() -> &'static [Case] {
    &MEMORY
}

#[test]
fn a_memory_plugin_writes_one_purge_anew(rt: HostRuntime) -> Result<(), Fail> {
    let found = first_difference(rt.alloc(), memory())?;
    assert_eq!(rt; found, (6, b"none".as_slice()));
    Ok(())
}

// Two print plugins with a cache of two keys over the four records. All outputs hold something before.
const ALIKE: Given = Given {
    config: &[TWO_PRINTS, INPUTS, TWO_KEYS],
    capture: FOUR,
    files: OLD,
    ..EMPTY
};

const P_WHOLE: (&[u8], Option<&[u8]>) = (P, Some(OLD_AND_TWO_PURGES));

const Q_WHOLE: (&[u8], Option<&[u8]>) = (Q, Some(OLD_AND_TWO_PURGES));

const AUDIT_WHOLE: (&[u8], Option<&[u8]>) = (AUDIT, Some(OF_FOUR));

const ALL_WHOLE: Wanted = Wanted {
    files: &[P_WHOLE, Q_WHOLE, AUDIT_WHOLE],
    ..DONE
};

const P_UNWRITTEN: Wanted = Wanted {
    status: 6,
    line: b"nfacctd: cannot write p.csv\n",
    ..DONE
};

const Q_UNWRITTEN: Wanted = Wanted {
    status: 6,
    line: b"nfacctd: cannot write q.csv\n",
    ..DONE
};

const AUDIT_UNWRITTEN: Wanted = Wanted {
    status: 6,
    line: b"nfacctd: cannot write audit.txt\n",
    ..DONE
};

const M_UNWRITTEN: Wanted = Wanted {
    status: 6,
    line: b"nfacctd: cannot write m.txt\n",
    files: &[
        (P, Some(OLD_AND_ONE_PURGE)),
        (M, Some(b"")),
        (AUDIT, Some(OF_FOUR)),
    ],
    ..DONE
};

const P_FAILS: Wanted = Wanted {
    files: &[Q_WHOLE, AUDIT_WHOLE],
    ..P_UNWRITTEN
};

const Q_FAILS: Wanted = Wanted {
    files: &[P_WHOLE, AUDIT_WHOLE],
    ..Q_UNWRITTEN
};

// An output has 106 octets behind the old ones, in two purges of 53, and so 14 writes of at most 8 octets.
#[test]
fn each_write_of_each_output_fails_in_turn(rt: HostRuntime) -> Result<(), Fail> {
    let outputs = [(P, P_FAILS), (Q, Q_FAILS)];
    for number in 1..=14u8 {
        for (name, wanted) in &outputs {
            let given = Given {
                failing: Some((*name, u64::from(number))),
                ..ALIKE
            };
            let most = 8 * usize::from(number) - 4;
            let wanted = Wanted {
                front: Some((*name, OLD_AND_TWO_PURGES, most)),
                ..*wanted
            };
            let found = difference(rt.alloc(), &given, &wanted)?;
            assert_eq!(rt; found, b"none".as_slice(), "write {number}");
        }
    }
    Ok(())
}

// Of two writes of at most 8 octets the second failed.
const P_CUT: (&[u8], Option<&[u8]>) = (P, Some(b"old\nSRC_IP,P"));

const P_OLD: (&[u8], Option<&[u8]>) = (P, Some(b"old\n"));

const Q_OLD: (&[u8], Option<&[u8]>) = (Q, Some(b"old\n"));

const M_OLD: (&[u8], Option<&[u8]>) = (M, Some(b"old\n"));

const AUDIT_OLD: (&[u8], Option<&[u8]>) = (AUDIT, Some(b"old\n"));

const NO_AUDIT: (&[u8], Option<&[u8]>) = (AUDIT, Some(b""));

static UNWRITTEN: [Case; 9] = [
    (
        Given {
            shapes: &[(P, 8, &[2])],
            ..ALIKE
        },
        Wanted {
            files: &[P_CUT, Q_WHOLE, AUDIT_WHOLE],
            ..P_UNWRITTEN
        },
    ),
    // Once a write failed, no other comes.
    (
        Given {
            shapes: &[(P, 8, &[2, 4, 6])],
            ..ALIKE
        },
        Wanted {
            files: &[P_CUT, Q_WHOLE, AUDIT_WHOLE],
            ..P_UNWRITTEN
        },
    ),
    (
        Given {
            shapes: &[(P, 8, &[15]), (Q, 1, &[107])],
            ..ALIKE
        },
        ALL_WHOLE,
    ),
    (
        Given {
            shapes: &[(AUDIT, 8, &[1])],
            ..ALIKE
        },
        Wanted {
            files: &[P_WHOLE, Q_WHOLE, NO_AUDIT],
            ..AUDIT_UNWRITTEN
        },
    ),
    (
        Given {
            shapes: &[(AUDIT, 8, &[2])],
            ..ALIKE
        },
        Wanted {
            files: &[P_WHOLE, Q_WHOLE, (AUDIT, Some(b"end 1 0 "))],
            ..AUDIT_UNWRITTEN
        },
    ),
    (
        Given {
            shapes: &[(AUDIT, 8, &[3])],
            ..ALIKE
        },
        ALL_WHOLE,
    ),
    // Of several that fail the first is named: p, then q, then the audit.
    (
        Given {
            shapes: &[(P, 8, &[1]), (Q, 8, &[1]), (AUDIT, 8, &[1])],
            ..ALIKE
        },
        Wanted {
            files: &[P_OLD, Q_OLD, NO_AUDIT],
            ..P_UNWRITTEN
        },
    ),
    (
        Given {
            shapes: &[(Q, 8, &[1]), (AUDIT, 8, &[1])],
            ..ALIKE
        },
        Wanted {
            files: &[P_WHOLE, Q_OLD, NO_AUDIT],
            ..Q_UNWRITTEN
        },
    ),
    (
        Given {
            shapes: &[(M, 8, &[1])],
            ..UNALIKE
        },
        M_UNWRITTEN,
    ),
];

fn unwritten() -> &'static [Case] {
    &UNWRITTEN
}

static UNCLOSED: [Case; 10] = [
    // An output without text, too, is closed, and that may fail.
    (
        Given {
            capture: &[],
            closes: &[1],
            ..ALIKE
        },
        Wanted {
            files: &[P_OLD, Q_OLD, (AUDIT, Some(OF_NONE))],
            ..P_UNWRITTEN
        },
    ),
    // A close that fails leaves the old octets.
    (
        Given {
            closes: &[1],
            ..ALIKE
        },
        Wanted {
            files: &[P_OLD, Q_WHOLE, AUDIT_WHOLE],
            ..P_UNWRITTEN
        },
    ),
    (
        Given {
            closes: &[2],
            ..ALIKE
        },
        Wanted {
            files: &[P_WHOLE, Q_OLD, AUDIT_WHOLE],
            ..Q_UNWRITTEN
        },
    ),
    (
        Given {
            closes: &[3],
            ..ALIKE
        },
        Wanted {
            files: &[P_WHOLE, Q_WHOLE, NO_AUDIT],
            ..AUDIT_UNWRITTEN
        },
    ),
    (
        Given {
            closes: &[1, 2, 3],
            ..ALIKE
        },
        Wanted {
            files: &[P_OLD, Q_OLD, NO_AUDIT],
            ..P_UNWRITTEN
        },
    ),
    (
        Given {
            closes: &[2, 3],
            ..ALIKE
        },
        Wanted {
            files: &[P_WHOLE, Q_OLD, NO_AUDIT],
            ..Q_UNWRITTEN
        },
    ),
    (
        Given {
            closes: &[4],
            ..ALIKE
        },
        ALL_WHOLE,
    ),
    (
        Given {
            closes: &[2],
            shapes: &[(P, 8, &[2])],
            ..ALIKE
        },
        Wanted {
            files: &[P_CUT, Q_OLD, AUDIT_WHOLE],
            ..P_UNWRITTEN
        },
    ),
    (
        Given {
            closes: &[1],
            shapes: &[(Q, 8, &[1])],
            ..ALIKE
        },
        Wanted {
            files: &[P_OLD, Q_OLD, AUDIT_WHOLE],
            ..P_UNWRITTEN
        },
    ),
    (
        Given {
            closes: &[2],
            ..UNALIKE
        },
        M_UNWRITTEN,
    ),
];

fn unclosed() -> &'static [Case] {
    &UNCLOSED
}

#[test]
fn the_first_output_that_failed_is_named(rt: HostRuntime) -> Result<(), Fail> {
    let found = first_difference(rt.alloc(), unwritten())?;
    assert_eq!(rt; found, (9, b"none".as_slice()));
    let found = first_difference(rt.alloc(), unclosed())?;
    assert_eq!(rt; found, (10, b"none".as_slice()));
    Ok(())
}

static UNOPENED: [Case; 7] = [
    (
        Given {
            opens: &[2],
            ..UNALIKE
        },
        Wanted {
            status: 3,
            line: b"nfacctd: cannot open flows.cap\n",
            files: &[P_OLD, M_OLD, AUDIT_OLD],
            ..DONE
        },
    ),
    (
        Given {
            opens: &[3],
            ..UNALIKE
        },
        Wanted {
            status: 3,
            line: b"nfacctd: cannot open p.csv\n",
            files: &[P_OLD, M_OLD, AUDIT_OLD],
            ..DONE
        },
    ),
    (
        Given {
            opens: &[4],
            ..UNALIKE
        },
        Wanted {
            status: 3,
            line: b"nfacctd: cannot open m.txt\n",
            files: &[P_OLD, M_OLD, AUDIT_OLD],
            ..DONE
        },
    ),
    (
        Given {
            opens: &[5],
            ..UNALIKE
        },
        Wanted {
            status: 3,
            line: b"nfacctd: cannot open audit.txt\n",
            files: &[P_OLD, (M, Some(b"")), AUDIT_OLD],
            ..DONE
        },
    ),
    // What was opened is closed, whatever comes of that.
    (
        Given {
            opens: &[5],
            closes: &[1, 2],
            ..UNALIKE
        },
        Wanted {
            status: 3,
            line: b"nfacctd: cannot open audit.txt\n",
            files: &[P_OLD, (M, Some(b"")), AUDIT_OLD],
            ..DONE
        },
    ),
    (
        Given {
            files: &[],
            opens: &[5],
            ..UNALIKE
        },
        Wanted {
            status: 3,
            line: b"nfacctd: cannot open audit.txt\n",
            files: &[(P, Some(b"")), (M, Some(b"")), (AUDIT, None)],
            ..DONE
        },
    ),
    (
        Given {
            files: &[],
            opens: &[4],
            ..UNALIKE
        },
        Wanted {
            status: 3,
            line: b"nfacctd: cannot open m.txt\n",
            files: &[(P, Some(b"")), (M, None), (AUDIT, None)],
            ..DONE
        },
    ),
];

fn unopened() -> &'static [Case] {
    &UNOPENED
}

#[test]
fn an_output_that_is_not_opened_leaves_those_before_it_begun(rt: HostRuntime) -> Result<(), Fail> {
    let found = first_difference(rt.alloc(), unopened())?;
    assert_eq!(rt; found, (7, b"none".as_slice()));
    Ok(())
}

// Two plugins over two datagrams, whose events have 91 octets each, behind eight of the magic.
const READ: Given = Given {
    config: &[TWO_PRINTS, INPUTS],
    capture: &[Part::From(0, &[1]), Part::From(0, &[1])],
    ..EMPTY
};

const LOST: Wanted = Wanted {
    status: 4,
    line: b"nfacctd: flow input failed\n",
    ..DONE
};

const ONE_ROW: &[u8] = b"SRC_IP,PACKETS,BYTES\n10.0.0.1,10,840\n";

const ONE_READ: Wanted = Wanted {
    files: &[
        (P, Some(ONE_ROW)),
        (Q, Some(ONE_ROW)),
        (AUDIT, Some(OF_ONE)),
    ],
    ..LOST
};

const NONE_READ: Wanted = Wanted {
    files: &[(P, Some(b"")), (Q, Some(b"")), (AUDIT, Some(OF_NONE))],
    ..LOST
};

const BOTH_FILES: &[(&[u8], Option<&[u8]>)] = &[
    (P, Some(ONCE)),
    (Q, Some(ONCE)),
    (AUDIT, Some(OF_TWO)),
];

static READS: [Case; 7] = [
    (
        Given {
            shapes: &[(b"flows.cap", 1, &[1])],
            ..READ
        },
        NONE_READ,
    ),
    (
        Given {
            shapes: &[(b"flows.cap", 1, &[99])],
            ..READ
        },
        NONE_READ,
    ),
    // The first datagram is there.
    (
        Given {
            shapes: &[(b"flows.cap", 1, &[100])],
            ..READ
        },
        ONE_READ,
    ),
    (
        Given {
            shapes: &[(b"flows.cap", 1, &[190])],
            ..READ
        },
        ONE_READ,
    ),
    // Both are there, and the end is looked for.
    (
        Given {
            shapes: &[(b"flows.cap", 1, &[191])],
            ..READ
        },
        Wanted {
            files: BOTH_FILES,
            ..LOST
        },
    ),
    (
        Given {
            shapes: &[(b"flows.cap", 1, &[192])],
            ..READ
        },
        Wanted {
            files: BOTH_FILES,
            ..DONE
        },
    ),
    // The input's fault goes before those of the outputs.
    (
        Given {
            shapes: &[(b"flows.cap", 1, &[100])],
            closes: &[1, 3],
            ..READ
        },
        Wanted {
            files: &[(P, Some(b"")), (Q, Some(ONE_ROW)), (AUDIT, Some(b""))],
            ..LOST
        },
    ),
];

fn reads() -> &'static [Case] {
    &READS
}

#[test]
fn a_read_that_fails_leaves_what_was_read(rt: HostRuntime) -> Result<(), Fail> {
    let found = first_difference(rt.alloc(), reads())?;
    assert_eq!(rt; found, (7, b"none".as_slice()));
    Ok(())
}

const EIGHT: &[u8] =
    b"plugins: print[a], memory[b], print[c], memory[d], print[e], memory[f], print[g], memory[h]\n\
aggregate[a]: src_host\n\
aggregate[b]: dst_host\n\
aggregate[c]: src_port\n\
aggregate[d]: dst_port\n\
aggregate[e]: proto\n\
aggregate[f]: tos\n\
aggregate[g]: flows\n\
aggregate[h]: peer_src_ip\n\
print_output: csv\n\
print_output_file[a]: a\n\
acct_memory_file[b]: b\n\
print_output_file[c]: c\n\
acct_memory_file[d]: d\n\
print_output_file[e]: e\n\
acct_memory_file[f]: f\n\
print_output_file[g]: g\n\
acct_memory_file[h]: h\n\
print_output_file_append: true\n";

const NINE: &[u8] =
    b"plugins: print[a], memory[b], print[c], memory[d], print[e], memory[f], print[g], memory[h], print[i]\n\
print_output_file: p.csv\n\
print_output_file_append: true\n";

const UNTOUCHED: &[(&[u8], Option<&[u8]>)] = &[(P, None), (M, None), (AUDIT, None)];

// sFlow: a sample at a rate of 512, whose header has 100 octets from 2001:db8::1 to 2001:db8::2 by UDP in VLAN 100.
const SAMPLE: &[u8] = b"\0\0\0\x05\0\0\0\x01\xc0\0\x02\x01\0\0\0\0\0\0\0\0\0\0\0\0\0\0\0\x01\
\0\0\0\x01\0\0\0\x7c\0\0\0\0\0\0\0\0\0\0\x02\0\0\0\0\0\0\0\0\0\0\0\0\0\0\0\0\0\0\0\0\x01\
\0\0\0\x01\0\0\0\x54\0\0\0\x01\0\0\0\x7a\0\0\0\x04\0\0\0\x42\
\0\0\0\0\0\0\0\0\0\0\0\0\x81\0\0\x64\x86\xdd\x60\0\0\0\0\x3c\x11\x40\
\x20\x01\x0d\xb8\0\0\0\0\0\0\0\0\0\0\0\x01\x20\x01\x0d\xb8\0\0\0\0\0\0\0\0\0\0\0\x02\0\0\0\0\0\0\0\0\0\0";

static PLUGINS: [Case; 6] = [
    (
        Given {
            config: &[EIGHT, INPUTS],
            capture: &[Part::FromV6(0, &[2]), Part::From(0, &[1, 2])],
            ..EMPTY
        },
        Wanted {
            files: &[
                (
                    b"a",
                    Some(b"SRC_IP,PACKETS,BYTES\n10.0.0.1,10,840\n10.0.0.2,20,1680\n"),
                ),
                (b"b", Some(b"DST_IP,PACKETS,BYTES\n10.0.0.2,30,2520\n")),
                (b"c", Some(b"SRC_PORT,PACKETS,BYTES\n1024,30,2520\n")),
                (b"d", Some(b"DST_PORT,PACKETS,BYTES\n80,30,2520\n")),
                (b"e", Some(b"PROTOCOL,PACKETS,BYTES\n6,30,2520\n")),
                (b"f", Some(b"TOS,PACKETS,BYTES\n0,30,2520\n")),
                (b"g", Some(b"PACKETS,FLOWS,BYTES\n30,3,2520\n")),
                (
                    b"h",
                    Some(b"PEER_SRC_IP,PACKETS,BYTES\n192.0.2.1,20,1680\n2001:db8::1,10,840\n"),
                ),
                (AUDIT, Some(b"end 2 0 3 0 0 0\n")),
            ],
            ..DONE
        },
    ),
    (
        Given {
            config: &[NINE, INPUTS],
            capture: FOUR,
            ..EMPTY
        },
        Wanted {
            status: 2,
            line: b"nfacctd: c.conf:1: too-many-plugins\n",
            files: UNTOUCHED,
            ..DONE
        },
    ),
    // All plugins have the tool and the maps of the run.
    (
        Given {
            tool: Tool::Sfacctd,
            config: &[PRINT_AND_MEMORY, INPUTS, b"sfacctd_renormalize: true\n"],
            capture: &[Part::Alone(0, SAMPLE), Part::Alone(59_999, SAMPLE)],
            ..EMPTY
        },
        Wanted {
            line: b"sfacctd: done\n",
            files: &[
                (P, Some(b"SRC_IP,PACKETS,BYTES\n2001:db8::1,1024,102400\n")),
                (
                    M,
                    Some(
                        b"PROTOCOL  PACKETS               BYTES\n\
17        1024                  102400\n",
                    ),
                ),
                (AUDIT, Some(OF_TWO)),
            ],
            ..DONE
        },
    ),
    (
        Given {
            config: &[
                b"plugins: print[p], print[q]\n",
                b"aggregate[p]: tag, src_host\n",
                b"aggregate[q]: label, tag\n",
                b"print_output: csv\n",
                b"print_output_file[p]: p.csv\n",
                b"print_output_file[q]: q.csv\n",
                b"print_output_file_append: true\n",
                b"pre_tag_map: pretag.map\n",
                INPUTS,
            ],
            capture: &[Part::From(0, &[1])],
            files: &[(
                b"pretag.map",
                b"set_tag=5 ip=192.0.2.9\nset_tag=7 set_label=one\n",
            )],
            ..EMPTY
        },
        Wanted {
            files: &[
                (P, Some(b"TAG,SRC_IP,PACKETS,BYTES\n7,10.0.0.1,10,840\n")),
                (Q, Some(b"TAG,LABEL,PACKETS,BYTES\n7,one,10,840\n")),
                (AUDIT, Some(OF_ONE)),
            ],
            ..DONE
        },
    ),
    (
        Given {
            config: &[
                b"plugins: print[p], memory[m]\n",
                b"print_output_file: p.csv\n",
                b"print_output_file_append: true\n",
                b"acct_memory_file: c.conf\n",
                INPUTS,
            ],
            capture: FOUR,
            ..EMPTY
        },
        Wanted {
            status: 2,
            line: b"nfacctd: c.conf:0: same-name\n",
            files: UNTOUCHED,
            ..DONE
        },
    ),
    (
        Given {
            tool: Tool::Pmbgpd,
            config: &[PRINT_AND_MEMORY, INPUTS],
            capture: FOUR,
            ..EMPTY
        },
        Wanted {
            status: 2,
            line: b"pmbgpd: c.conf:0: not-in-profile\n",
            files: UNTOUCHED,
            ..DONE
        },
    ),
];

fn plugins() -> &'static [Case] {
    &PLUGINS
}

#[test]
fn up_to_eight_plugins_count_each_for_itself(rt: HostRuntime) -> Result<(), Fail> {
    let found = first_difference(rt.alloc(), plugins())?;
    assert_eq!(rt; found, (6, b"none".as_slice()));
    Ok(())
}
