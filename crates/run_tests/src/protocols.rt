//! Captures of each protocol, from their octets to the outputs.

use crate::test_runs::{Case, DONE, EMPTY, Given, Part, Wanted, first_difference};
use config_keys::Tool;
use std::test::Fail;

const HEAD: &[u8] = b"plugins: print[p]\n\
print_output[p]: csv\n\
print_output_file[p]: p.csv\n\
print_output_file_append: true\n\
acct_flow_capture: flows.cap\n\
acct_audit_file: audit.txt\n\
acct_threads: false\n";

const FIVE: &[u8] = b"aggregate[p]: src_host, dst_host, src_port, dst_port, proto\n";

const P: &[u8] = b"p.csv";

const AUDIT: &[u8] = b"audit.txt";

const COUNTED: Given = Given {
    config: &[HEAD, FIVE],
    ..EMPTY
};

const RENORMALISED: Given = Given {
    config: &[HEAD, FIVE, b"nfacctd_renormalize: true\n"],
    ..EMPTY
};

// NetFlow version 9, source id 0
const NINE: &[u8] = b"\0\x09\0\0\0\0\0\0\0\0\0\0\0\0\0\0\0\0\0\0";

// template 256: two IPv4 addresses, two ports, protocol, packets and bytes
const TEMPLATE: &[u8] = b"\0\0\0\x24\x01\0\0\x07\0\x08\0\x04\0\x0c\0\x04\0\x07\0\x02\0\x0b\0\x02\
\0\x04\0\x01\0\x02\0\x04\0\x01\0\x04";

// the same with the destination first
const TURNED: &[u8] = b"\0\0\0\x24\x01\0\0\x07\0\x0c\0\x04\0\x08\0\x04\0\x07\0\x02\0\x0b\0\x02\
\0\x04\0\x01\0\x02\0\x04\0\x01\0\x04";

// the same with a count of 9
const OVERRUN: &[u8] = b"\0\0\0\x24\x01\0\0\x09\0\x08\0\x04\0\x0c\0\x04\0\x07\0\x02\0\x0b\0\x02\
\0\x04\0\x01\0\x02\0\x04\0\x01\0\x04";

// one record of template 256, and three octets of padding
const DATA: &[u8] =
    b"\x01\0\0\x1c\x0a\0\0\x01\x0a\0\0\x02\x04\0\0\x50\x06\0\0\0\x0a\0\0\x03\x48\0\0\0";

const CUT_SET: &[u8] = b"\x01\0\0\x03";

const RESERVED: &[u8] = b"\0\x05\0\x08\0\0\0\0";

const ROW: &[u8] = b"SRC_IP,DST_IP,SRC_PORT,DST_PORT,PROTOCOL,PACKETS,BYTES\n\
10.0.0.1,10.0.0.2,1024,80,6,10,840\n";

const BOTH_WAYS: &[u8] = b"SRC_IP,DST_IP,SRC_PORT,DST_PORT,PROTOCOL,PACKETS,BYTES\n\
10.0.0.1,10.0.0.2,1024,80,6,10,840\n\
10.0.0.2,10.0.0.1,1024,80,6,10,840\n";

// IPFIX: template 300 with an interface name of variable length, two IPv4 addresses, packets and bytes of eight octets; and a record whose
// name has 255 octets in the long form
const NAMED: &[u8] =
    b"\0\x0a\x01\x4d\0\0\0\0\0\0\0\0\0\0\0\0\0\x02\0\x1c\x01\x2c\0\x05\0\x52\xff\xff\
\0\x08\0\x04\0\x0c\0\x04\0\x02\0\x08\0\x01\0\x08\x01\x2c\x01\x21\xff\0\xff";

const NAME: &[u8] = &[b'a'; 255];

const BEHIND_THE_NAME: &[u8] =
    b"\x0a\0\0\x01\x0a\0\0\x02\0\0\0\0\0\0\0\x0a\0\0\0\0\0\0\x03\x48\0\0\0";

static TEMPLATES: [Case; 7] = [
    // Data before its template, and behind it.
    (
        Given {
            capture: &[
                Part::Of(1, &[NINE, DATA]),
                Part::Of(1, &[NINE, TEMPLATE]),
                Part::Of(1, &[NINE, DATA]),
            ],
            ..COUNTED
        },
        Wanted {
            files: &[
                (P, Some(ROW)),
                (
                    AUDIT,
                    Some(b"notice 1 1 no-template 256\nend 3 0 1 0 0 0\n"),
                ),
            ],
            ..DONE
        },
    ),
    // One id of two exporters.
    (
        Given {
            capture: &[
                Part::Of(1, &[NINE, TEMPLATE]),
                Part::Of(2, &[NINE, TURNED]),
                Part::Of(1, &[NINE, DATA]),
                Part::Of(2, &[NINE, DATA]),
            ],
            ..COUNTED
        },
        Wanted {
            files: &[(P, Some(BOTH_WAYS)), (AUDIT, Some(b"end 4 0 2 0 0 0\n"))],
            ..DONE
        },
    ),
    // A template replaced between two sets.
    (
        Given {
            capture: &[Part::Of(1, &[NINE, TEMPLATE, DATA, TURNED, DATA])],
            ..COUNTED
        },
        Wanted {
            files: &[(P, Some(BOTH_WAYS)), (AUDIT, Some(b"end 1 0 2 0 0 0\n"))],
            ..DONE
        },
    ),
    // A refused datagram leaves no trace.
    (
        Given {
            capture: &[
                Part::Of(1, &[NINE, TEMPLATE, DATA, CUT_SET]),
                Part::Of(1, &[NINE, DATA]),
            ],
            ..COUNTED
        },
        Wanted {
            files: &[
                (P, Some(b"")),
                (
                    AUDIT,
                    Some(b"refused 1 set-length\nnotice 2 1 no-template 256\nend 2 1 0 0 0 0\n"),
                ),
            ],
            ..DONE
        },
    ),
    (
        Given {
            capture: &[Part::Of(1, &[NINE, OVERRUN])],
            ..COUNTED
        },
        Wanted {
            files: &[
                (P, Some(b"")),
                (AUDIT, Some(b"refused 1 template-cut\nend 1 1 0 0 0 0\n")),
            ],
            ..DONE
        },
    ),
    (
        Given {
            capture: &[Part::Of(1, &[NINE, RESERVED, TEMPLATE])],
            ..COUNTED
        },
        Wanted {
            files: &[
                (P, Some(b"")),
                (AUDIT, Some(b"notice 1 1 reserved-set 5\nend 1 0 0 0 0 0\n")),
            ],
            ..DONE
        },
    ),
    // A field in the long form.
    (
        Given {
            capture: &[Part::Of(1, &[NAMED, NAME, BEHIND_THE_NAME])],
            ..COUNTED
        },
        Wanted {
            files: &[
                (
                    P,
                    Some(
                        b"SRC_IP,DST_IP,SRC_PORT,DST_PORT,PROTOCOL,PACKETS,BYTES\n10.0.0.1,10.0.0.2,0,0,0,10,840\n",
                    ),
                ),
                (AUDIT, Some(b"end 1 0 1 0 0 0\n")),
            ],
            ..DONE
        },
    ),
];

// The proof of a test needn't read its table: a function hands it out.
fn templates() -> &'static [Case] {
    &TEMPLATES
}

#[test]
fn templates_hold_from_their_place_on(rt: HostRuntime) -> Result<(), Fail> {
    let found = first_difference(rt.alloc(), templates())?;
    assert_eq!(rt; found, (7, b"none".as_slice()));
    Ok(())
}

// IPFIX: template 256 with two IPv4 addresses, selector, packets and bytes, and options template 257 with the selector as its scope,
// packet interval and packet space
const SELECTED: &[u8] =
    b"\x00\x0a\x00\x42\x00\x00\x00\x00\x00\x00\x00\x00\x00\x00\x00\x00\x00\x02\x00\x1c\x01\x00\x00\x05\
\x00\x08\x00\x04\x00\x0c\x00\x04\x01\x2e\x00\x01\x00\x02\x00\x04\x00\x01\x00\x04\x00\x03\x00\x16\
\x01\x01\x00\x03\x00\x01\x01\x2e\x00\x01\x01\x31\x00\x04\x01\x32\x00\x04";

// selector 7: a flow, one of 100 packets, and the flow again
const TAUGHT: &[u8] =
    b"\x00\x0a\x00\x47\x00\x00\x00\x00\x00\x00\x00\x00\x00\x00\x00\x00\x01\x00\x00\x15\x0a\x00\x00\x01\
\x0a\x00\x00\x02\x07\x00\x00\x00\x0a\x00\x00\x03\x48\x01\x01\x00\x0d\x07\x00\x00\x00\x01\x00\x00\
\x00\x63\x01\x00\x00\x15\x0a\x00\x00\x01\x0a\x00\x00\x02\x07\x00\x00\x00\x0a\x00\x00\x03\x48";

// version 9: template 256 with two IPv4 addresses, sampling interval, packets and bytes of eight octets, and two records
const OWN_RATE: &[u8] =
    b"\0\0\0\x1c\x01\0\0\x05\0\x08\0\x04\0\x0c\0\x04\0\x22\0\x04\0\x02\0\x04\0\x01\0\x08\
\x01\0\0\x34\x0a\0\0\x01\x0a\0\0\x02\xff\xff\xff\xff\0\0\0\x01\xff\xff\xff\xff\xff\xff\xff\xff\
\x0a\0\0\x01\x0a\0\0\x02\xff\xff\xff\xff\0\0\0\x01\xff\xff\xff\xff\xff\xff\xff\xff";

// version 5 with an interval of 100 packets
const SAMPLED: &[u8] = b"\0\x05\0\x01\0\0\0\0\0\0\0\0\0\0\0\0\0\0\0\0\0\0\x40\x64\
\x0a\0\0\x01\x0a\0\0\x02\0\0\0\0\0\0\0\0\0\0\0\x0a\0\0\x03\x48\
\0\0\0\0\0\0\0\0\x04\0\0\x50\0\0\x06\0\0\0\0\0\0\0\0\0";

// IPFIX: template 256 with two IPv4 addresses, packets and bytes; its withdrawal; a record
const DEFINED: &[u8] =
    b"\0\x0a\0\x28\0\0\0\0\0\0\0\0\0\0\0\0\0\x02\0\x18\x01\0\0\x04\0\x08\0\x04\0\x0c\0\x04\
\0\x02\0\x04\0\x01\0\x04";

const WITHDRAWN: &[u8] = b"\0\x0a\0\x18\0\0\0\0\0\0\0\0\0\0\0\0\0\x02\0\x08\x01\0\0\0";

const ALL_WITHDRAWN: &[u8] = b"\0\x0a\0\x18\0\0\0\0\0\0\0\0\0\0\0\0\0\x02\0\x08\0\x02\0\0";

const LEFT: &[u8] =
    b"\0\x0a\0\x24\0\0\0\0\0\0\0\0\0\0\0\0\x01\0\0\x14\x0a\0\0\x01\x0a\0\0\x02\0\0\0\x0a\0\0\x03\x48";

static RATES_AND_WITHDRAWALS: [Case; 6] = [
    (
        Given {
            capture: &[Part::Of(1, &[SELECTED]), Part::Of(1, &[TAUGHT])],
            ..RENORMALISED
        },
        Wanted {
            files: &[
                (
                    P,
                    Some(
                        b"SRC_IP,DST_IP,SRC_PORT,DST_PORT,PROTOCOL,PACKETS,BYTES\n10.0.0.1,10.0.0.2,0,0,0,1010,84840\n",
                    ),
                ),
                (AUDIT, Some(b"end 2 0 2 0 0 0\n")),
            ],
            ..DONE
        },
    ),
    (
        Given {
            capture: &[Part::Of(1, &[SELECTED]), Part::Of(1, &[TAUGHT])],
            ..COUNTED
        },
        Wanted {
            files: &[
                (
                    P,
                    Some(
                        b"SRC_IP,DST_IP,SRC_PORT,DST_PORT,PROTOCOL,PACKETS,BYTES\n10.0.0.1,10.0.0.2,0,0,0,20,1680\n",
                    ),
                ),
                (AUDIT, Some(b"end 2 0 2 0 0 0\n")),
            ],
            ..DONE
        },
    ),
    // Sums beyond 64 bits.
    (
        Given {
            capture: &[Part::Of(1, &[NINE, OWN_RATE])],
            ..RENORMALISED
        },
        Wanted {
            files: &[
                (
                    P,
                    Some(
                        b"SRC_IP,DST_IP,SRC_PORT,DST_PORT,PROTOCOL,PACKETS,BYTES\n\
10.0.0.1,10.0.0.2,0,0,0,8589934590,158456324991635187031078862850\n",
                    ),
                ),
                (AUDIT, Some(b"end 1 0 2 0 0 0\n")),
            ],
            ..DONE
        },
    ),
    (
        Given {
            capture: &[Part::Of(1, &[SAMPLED])],
            ..RENORMALISED
        },
        Wanted {
            files: &[
                (
                    P,
                    Some(
                        b"SRC_IP,DST_IP,SRC_PORT,DST_PORT,PROTOCOL,PACKETS,BYTES\n10.0.0.1,10.0.0.2,1024,80,6,1000,84000\n",
                    ),
                ),
                (AUDIT, Some(b"end 1 0 1 0 0 0\n")),
            ],
            ..DONE
        },
    ),
    (
        Given {
            capture: &[
                Part::Of(1, &[DEFINED]),
                Part::Of(1, &[WITHDRAWN]),
                Part::Of(1, &[LEFT]),
            ],
            ..COUNTED
        },
        Wanted {
            files: &[
                (P, Some(b"")),
                (
                    AUDIT,
                    Some(b"notice 3 1 no-template 256\nend 3 0 0 0 0 0\n"),
                ),
            ],
            ..DONE
        },
    ),
    (
        Given {
            capture: &[
                Part::Of(1, &[DEFINED]),
                Part::Of(1, &[ALL_WITHDRAWN]),
                Part::Of(1, &[LEFT]),
            ],
            ..COUNTED
        },
        Wanted {
            files: &[
                (P, Some(b"")),
                (
                    AUDIT,
                    Some(b"notice 3 1 no-template 256\nend 3 0 0 0 0 0\n"),
                ),
            ],
            ..DONE
        },
    ),
];

fn rates_and_withdrawals() -> &'static [Case] {
    &RATES_AND_WITHDRAWALS
}

#[test]
fn rates_hold_from_their_place_on_and_templates_until_withdrawn(
    rt: HostRuntime,
) -> Result<(), Fail> {
    let found = first_difference(rt.alloc(), rates_and_withdrawals())?;
    assert_eq!(rt; found, (6, b"none".as_slice()));
    Ok(())
}

// sFlow: a datagram of agent 192.0.2.1 with a counter sample and a flow sample, whose header is Ethernet with VLAN 100 and IPv6
const TWO_SAMPLES: &[u8] = b"\0\0\0\x05\0\0\0\x01\xc0\0\x02\x01\0\0\0\0\0\0\0\0\0\0\0\0\0\0\0\x02\
\0\0\0\x02\0\0\0\x0c\0\0\0\0\0\0\0\0\0\0\0\0\
\0\0\0\x01\0\0\0\x7c\0\0\0\0\0\0\0\0\0\0\x02\0\0\0\0\0\0\0\0\0\0\0\0\0\0\0\0\0\0\0\0\x01\
\0\0\0\x01\0\0\0\x54\0\0\0\x01\0\0\0\x7a\0\0\0\x04\0\0\0\x42\
\0\0\0\0\0\0\0\0\0\0\0\0\x81\0\0\x64\x86\xdd\x60\0\0\0\0\x3c\x11\x40\
\x20\x01\x0d\xb8\0\0\0\0\0\0\0\0\0\0\0\x01\x20\x01\x0d\xb8\0\0\0\0\0\0\0\0\0\0\0\x02\0\0\0\0\0\0\0\0\0\0";

// an expanded flow sample, one of 100 packets, with a record of a sampled IPv4 packet
const SAMPLED_IPV4: &[u8] = b"\0\0\0\x05\0\0\0\x01\xc0\0\x02\x01\0\0\0\0\0\0\0\0\0\0\0\0\0\0\0\x01\
\0\0\0\x03\0\0\0\x54\0\0\0\0\0\0\0\0\0\0\0\0\0\0\0\x64\0\0\0\0\0\0\0\0\0\0\0\0\0\0\0\0\0\0\0\0\0\0\0\0\0\0\0\x01\
\0\0\0\x03\0\0\0\x20\0\0\x05\xdc\0\0\0\x11\x0a\0\0\x01\x0a\0\0\x02\0\0\0\0\0\0\0\0\0\0\0\0\0\0\0\0";

// a flow sample of an ARP packet
const SAMPLED_ARP: &[u8] = b"\0\0\0\x05\0\0\0\x01\xc0\0\x02\x01\0\0\0\0\0\0\0\0\0\0\0\0\0\0\0\x01\
\0\0\0\x01\0\0\0\x48\0\0\0\0\0\0\0\0\0\0\0\x64\0\0\0\0\0\0\0\0\0\0\0\0\0\0\0\0\0\0\0\x01\
\0\0\0\x01\0\0\0\x20\0\0\0\x01\0\0\0\x40\0\0\0\x04\0\0\0\x10\
\0\0\0\0\0\0\0\0\0\0\0\0\x08\x06\0\0";

static TOOLS: [Case; 6] = [
    (
        Given {
            tool: Tool::Sfacctd,
            config: &[
                HEAD,
                b"aggregate[p]: src_host, dst_host, proto\n",
                b"sfacctd_renormalize: true\n",
            ],
            capture: &[Part::Of(1, &[SAMPLED_IPV4])],
            ..EMPTY
        },
        Wanted {
            line: b"sfacctd: done\n",
            files: &[
                (
                    P,
                    Some(
                        b"SRC_IP,DST_IP,PROTOCOL,PACKETS,BYTES\n10.0.0.1,10.0.0.2,17,100,150000\n",
                    ),
                ),
                (AUDIT, Some(b"end 1 0 1 0 0 0\n")),
            ],
            ..DONE
        },
    ),
    (
        Given {
            tool: Tool::Sfacctd,
            config: &[HEAD, b"aggregate[p]: vlan, src_host, dst_host, proto\n"],
            capture: &[Part::Of(1, &[SAMPLED_ARP])],
            ..EMPTY
        },
        Wanted {
            line: b"sfacctd: done\n",
            files: &[
                (P, Some(b"")),
                (AUDIT, Some(b"notice 1 1 not-ip\nend 1 0 0 0 0 0\n")),
            ],
            ..DONE
        },
    ),
    (
        Given {
            tool: Tool::Sfacctd,
            config: &[
                HEAD,
                b"aggregate[p]: vlan, src_host, dst_host, proto\n",
                b"sfacctd_renormalize: true\n",
            ],
            capture: &[Part::Of(1, &[TWO_SAMPLES])],
            ..EMPTY
        },
        Wanted {
            line: b"sfacctd: done\n",
            files: &[
                (
                    P,
                    Some(
                        b"VLAN,SRC_IP,DST_IP,PROTOCOL,PACKETS,BYTES\n100,2001:db8::1,2001:db8::2,17,512,51200\n",
                    ),
                ),
                (AUDIT, Some(b"end 1 0 1 0 0 0\n")),
            ],
            ..DONE
        },
    ),
    // The key of the other tool means nothing.
    (
        Given {
            tool: Tool::Sfacctd,
            config: &[
                HEAD,
                b"aggregate[p]: proto\n",
                b"nfacctd_renormalize: true\n",
            ],
            capture: &[Part::Of(1, &[TWO_SAMPLES])],
            ..EMPTY
        },
        Wanted {
            line: b"sfacctd: done\n",
            files: &[
                (P, Some(b"PROTOCOL,PACKETS,BYTES\n17,1,100\n")),
                (AUDIT, Some(b"end 1 0 1 0 0 0\n")),
            ],
            ..DONE
        },
    ),
    (
        Given {
            tool: Tool::Sfacctd,
            config: &[HEAD, FIVE],
            capture: &[Part::Of(1, &[SAMPLED])],
            ..EMPTY
        },
        Wanted {
            line: b"sfacctd: done\n",
            files: &[
                (P, Some(b"")),
                (AUDIT, Some(b"refused 1 version 327681\nend 1 1 0 0 0 0\n")),
            ],
            ..DONE
        },
    ),
    (
        Given {
            capture: &[Part::Of(1, &[TWO_SAMPLES])],
            ..COUNTED
        },
        Wanted {
            files: &[
                (P, Some(b"")),
                (AUDIT, Some(b"refused 1 version 0\nend 1 1 0 0 0 0\n")),
            ],
            ..DONE
        },
    ),
];

fn tools() -> &'static [Case] {
    &TOOLS
}

#[test]
fn each_tool_reads_its_own_protocols(rt: HostRuntime) -> Result<(), Fail> {
    let found = first_difference(rt.alloc(), tools())?;
    assert_eq!(rt; found, (6, b"none".as_slice()));
    Ok(())
}
