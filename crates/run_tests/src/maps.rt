//! Runs with maps, from their texts to the outputs.

use crate::test_runs::{Case, DONE, EMPTY, Given, Part, Wanted, first_difference};
use std::test::Fail;

const HEAD: &[u8] = b"plugins: print[p]\n\
print_output[p]: csv\n\
print_output_file_append: true\n\
acct_audit_file: audit.txt\n\
acct_threads: false\n";

const FILE: &[u8] = b"print_output_file[p]: p.csv\n";

const CAPTURE: &[u8] = b"acct_flow_capture: flows.cap\n";

const TAG_KEYS: &[u8] = b"aggregate[p]: tag, src_host\n\
pre_tag_map: pretag.map\n";

const RATE_KEYS: &[u8] = b"aggregate[p]: in_iface\n\
nfacctd_renormalize: true\n\
sampling_map: s.map\n";

const BOTH_MAPS: &[u8] = b"pre_tag_map: pretag.map\n\
sampling_map: s.map\n";

const P: &[u8] = b"p.csv";

const TAGS: &[u8] = b"pretag.map";

const RATES: &[u8] = b"s.map";

// Two records of NetFlow version 5 that differ by the number of the input alone: 3 and 4. Each has 10 packets and 840 octets from
// 10.0.0.1.
const FLOWS: &[Part] = &[Part::Alone(
    1_000,
    b"\0\x05\0\x02\0\0\0\0\0\0\0\0\0\0\0\0\0\0\0\0\0\0\0\0\
\x0a\0\0\x01\x0a\0\0\x02\0\0\0\0\0\x03\0\0\0\0\0\x0a\0\0\x03\x48\0\0\0\0\0\0\0\0\x04\0\0\x50\0\0\x06\0\0\0\0\0\0\0\0\0\
\x0a\0\0\x01\x0a\0\0\x02\0\0\0\0\0\x04\0\0\0\0\0\x0a\0\0\x03\x48\0\0\0\0\0\0\0\0\x04\0\0\x50\0\0\x06\0\0\0\0\0\0\0\0\0",
)];

// The first of the two alone.
const ONE_FLOW: &[Part] = &[Part::Alone(
    1_000,
    b"\0\x05\0\x01\0\0\0\0\0\0\0\0\0\0\0\0\0\0\0\0\0\0\0\0\
\x0a\0\0\x01\x0a\0\0\x02\0\0\0\0\0\x03\0\0\0\0\0\x0a\0\0\x03\x48\0\0\0\0\0\0\0\0\x04\0\0\x50\0\0\x06\0\0\0\0\0\0\0\0\0",
)];

const TAG_LINES: &[u8] = b"set_tag=5 ip=192.0.2.9\nset_tag=7 ip=192.0.2.1\nset_tag=9\n";

const RATE_LINES: &[u8] = b"sampling_rate=1024 ip=192.0.2.1 in=3\n";

// A line that says nothing to do.
const NO_ACTION: &[u8] = b"ip=192.0.2.1\n";

// Sixteen octets of a comment.
const SIXTEEN: &[u8] = b"! a comment here";

const TAGGED: Given = Given {
    config: &[HEAD, FILE, CAPTURE, TAG_KEYS],
    capture: ONE_FLOW,
    files: &[(TAGS, TAG_LINES)],
    ..EMPTY
};

const SAMPLED: Given = Given {
    config: &[HEAD, FILE, CAPTURE, RATE_KEYS],
    capture: FLOWS,
    files: &[(RATES, RATE_LINES)],
    ..EMPTY
};

const WITH_BOTH: Given = Given {
    config: &[HEAD, FILE, CAPTURE, BOTH_MAPS],
    capture: ONE_FLOW,
    files: &[(TAGS, TAG_LINES), (RATES, RATE_LINES)],
    ..EMPTY
};

const UNTAGGED: Wanted = Wanted {
    files: &[(P, Some(b"TAG,SRC_IP,PACKETS,BYTES\n0,10.0.0.1,10,840\n"))],
    ..DONE
};

// No output was opened.
const REFUSED: Wanted = Wanted {
    status: 2,
    files: &[(P, None)],
    ..DONE
};

const UNOPENED: Wanted = Wanted {
    status: 3,
    ..REFUSED
};

const NO_TAGS: Wanted = Wanted {
    line: b"nfacctd: cannot open pretag.map\n",
    ..UNOPENED
};

const NO_RATES: Wanted = Wanted {
    line: b"nfacctd: cannot open s.map\n",
    ..UNOPENED
};

const WITHOUT_ACTION: Wanted = Wanted {
    line: b"nfacctd: pretag.map:1: no-action\n",
    ..REFUSED
};

static ACCEPTED: [Case; 4] = [
    (
        TAGGED,
        Wanted {
            files: &[(P, Some(b"TAG,SRC_IP,PACKETS,BYTES\n7,10.0.0.1,10,840\n"))],
            ..DONE
        },
    ),
    (
        SAMPLED,
        Wanted {
            files: &[(
                P,
                Some(b"IN_IFACE,PACKETS,BYTES\n3,10240,860160\n4,10,840\n"),
            )],
            ..DONE
        },
    ),
    // The tags are those of no rule.
    (
        Given {
            files: &[(TAGS, b"set_tag=5 ip=192.0.2.9\n")],
            ..TAGGED
        },
        UNTAGGED,
    ),
    // Rates are used where the configuration asks for it alone.
    (
        WITH_BOTH,
        Wanted {
            files: &[(P, Some(b"SRC_IP,PACKETS,BYTES\n10.0.0.1,10,840\n"))],
            ..DONE
        },
    ),
];

// The proof of a test needn't read its table: a function hands it out.
fn accepted() -> &'static [Case] {
    &ACCEPTED
}

#[test]
fn records_have_the_tags_and_rates_of_the_first_line(rt: HostRuntime) -> Result<(), Fail> {
    let found = first_difference(rt.alloc(), accepted())?;
    assert_eq!(rt; found, (4, b"none".as_slice()));
    Ok(())
}

static LINES: [Case; 5] = [
    (
        Given {
            files: &[(TAGS, NO_ACTION)],
            ..TAGGED
        },
        WITHOUT_ACTION,
    ),
    (
        Given {
            files: &[(
                RATES,
                b"sampling_rate=1024 ip=192.0.2.1 in=3\nip=192.0.2.1\n",
            )],
            ..SAMPLED
        },
        Wanted {
            line: b"nfacctd: s.map:2: missing-key\n",
            ..REFUSED
        },
    ),
    // 1,048,576 octets, and one more.
    (
        Given {
            files: &[],
            long: Some((TAGS, 65_536, SIXTEEN, b"")),
            ..TAGGED
        },
        UNTAGGED,
    ),
    (
        Given {
            files: &[],
            long: Some((TAGS, 65_536, SIXTEEN, b"!")),
            ..TAGGED
        },
        Wanted {
            line: b"nfacctd: pretag.map:0: too-long\n",
            ..REFUSED
        },
    ),
    // A map may have the configuration's name.
    (
        Given {
            config: &[HEAD, FILE, CAPTURE, b"sampling_map: c.conf\n"],
            ..TAGGED
        },
        Wanted {
            line: b"nfacctd: c.conf:1: no-equals\n",
            ..REFUSED
        },
    ),
];

fn lines() -> &'static [Case] {
    &LINES
}

#[test]
fn a_map_is_refused_by_its_name_and_line(rt: HostRuntime) -> Result<(), Fail> {
    let found = first_difference(rt.alloc(), lines())?;
    assert_eq!(rt; found, (5, b"none".as_slice()));
    Ok(())
}

static UNREAD: [Case; 6] = [
    (
        Given {
            files: &[],
            ..TAGGED
        },
        NO_TAGS,
    ),
    (
        Given {
            files: &[(TAGS, TAG_LINES)],
            ..WITH_BOTH
        },
        NO_RATES,
    ),
    (
        Given {
            opens: &[2],
            ..WITH_BOTH
        },
        NO_TAGS,
    ),
    (
        Given {
            opens: &[3],
            ..WITH_BOTH
        },
        NO_RATES,
    ),
    (
        Given {
            shapes: &[(RATES, 64, &[1])],
            ..WITH_BOTH
        },
        NO_RATES,
    ),
    (
        Given {
            opens: &[4],
            ..WITH_BOTH
        },
        Wanted {
            line: b"nfacctd: cannot open flows.cap\n",
            ..UNOPENED
        },
    ),
];

fn unread() -> &'static [Case] {
    &UNREAD
}

#[test]
fn a_map_that_is_not_read_is_named(rt: HostRuntime) -> Result<(), Fail> {
    let found = first_difference(rt.alloc(), unread())?;
    assert_eq!(rt; found, (6, b"none".as_slice()));
    Ok(())
}

static ORDER: [Case; 7] = [
    // The map of tags comes first.
    (
        Given {
            files: &[(TAGS, NO_ACTION)],
            ..WITH_BOTH
        },
        WITHOUT_ACTION,
    ),
    (
        Given {
            files: &[(RATES, NO_ACTION)],
            ..WITH_BOTH
        },
        NO_TAGS,
    ),
    // Before them come what isn't built and the configuration's own name.
    (
        Given {
            config: &[
                HEAD,
                FILE,
                CAPTURE,
                TAG_KEYS,
                b"bgp_agent_map: agents.map\n",
            ],
            files: &[(TAGS, NO_ACTION)],
            ..TAGGED
        },
        Wanted {
            line: b"nfacctd: c.conf:0: not-in-profile\n",
            ..REFUSED
        },
    ),
    (
        Given {
            config: &[HEAD, b"print_output_file[p]: c.conf\n", CAPTURE, TAG_KEYS],
            files: &[(TAGS, NO_ACTION)],
            ..TAGGED
        },
        Wanted {
            line: b"nfacctd: c.conf:0: same-name\n",
            ..REFUSED
        },
    ),
    // Behind them comes a capture that isn't named,
    (
        Given {
            config: &[HEAD, FILE, TAG_KEYS],
            files: &[(TAGS, NO_ACTION)],
            ..TAGGED
        },
        WITHOUT_ACTION,
    ),
    (
        Given {
            config: &[HEAD, FILE, TAG_KEYS],
            ..TAGGED
        },
        Wanted {
            line: b"nfacctd: c.conf:0: missing-key\n",
            ..REFUSED
        },
    ),
    // or that is missing.
    (
        Given {
            files: &[(TAGS, NO_ACTION)],
            uncaptured: true,
            ..TAGGED
        },
        WITHOUT_ACTION,
    ),
];

fn order() -> &'static [Case] {
    &ORDER
}

#[test]
fn maps_are_read_behind_the_configuration_and_before_the_capture(
    rt: HostRuntime,
) -> Result<(), Fail> {
    let found = first_difference(rt.alloc(), order())?;
    assert_eq!(rt; found, (7, b"none".as_slice()));
    Ok(())
}
