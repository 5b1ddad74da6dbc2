use crate::test_runs::{is_held, words_of};
use acct_top::{Answer, AnyCause, BadCause, account_alone, account_in_memory, status};
use acct_types::{List, NoMemory, Octets, Text};
use config_keys::{ConfigCause, Tool};
use fixtures::same_hashing;
use outside_io::{MemoryPlace, MemorySink};
use std::alloc::Global;
use std::test::Fail;

pub(crate) const CONFIG: &[u8] = b"plugins: print[p]\n\
aggregate[p]: src_host, dst_host, src_port, dst_port, proto\n\
print_output[p]: csv\n\
print_output_file[p]: p.csv\n\
print_output_file_append: true\n\
acct_flow_capture: flows.cap\n\
acct_audit_file: audit.txt\n\
acct_threads: false\n";

// Its first two lines, and those from the fourth on.
const FIRST_LINES: &[u8] = b"plugins: print[p]\n\
aggregate[p]: src_host, dst_host, src_port, dst_port, proto\n";

const FOURTH_LINE: &[u8] = b"print_output_file[p]: p.csv\n";

const LAST_LINES: &[u8] = b"print_output_file_append: true\n\
acct_flow_capture: flows.cap\n\
acct_audit_file: audit.txt\n\
acct_threads: false\n";

const MAGIC: &[u8] = b"PMACAP01";

// A datagram of 72 octets from 192.0.2.1, port 50000, at 1000 ms, and one from 2001:db8::1.
const FROM_V4: &[u8] = b"\x04\0\0\0\0\0\0\x03\xe8\xc0\0\x02\x01\xc3\x50\0\0\0\x48";

const FROM_V6: &[u8] =
    b"\x06\0\0\0\0\0\0\x03\xe8\x20\x01\x0d\xb8\0\0\0\0\0\0\0\0\0\0\0\x01\xc3\x50\0\0\0\x48";

// Datagrams of 20, of 1,464 and of 1,512 octets.
const OF_20: &[u8] = b"\x04\0\0\0\0\0\0\x03\xe8\xc0\0\x02\x01\xc3\x50\0\0\0\x14";

const OF_1464: &[u8] = b"\x04\0\0\0\0\0\0\x03\xe8\xc0\0\x02\x01\xc3\x50\0\0\x05\xb8";

const OF_1512: &[u8] = b"\x04\0\0\0\0\0\0\x03\xe8\xc0\0\x02\x01\xc3\x50\0\0\x05\xe8";

// The start of a header, up to its count, and the rest.
const ONE: &[u8] = b"\0\x05\0\x01";

const TWO: &[u8] = b"\0\x05\0\x02";

const THIRTY: &[u8] = b"\0\x05\0\x1e";

const THIRTY_ONE: &[u8] = b"\0\x05\0\x1f";

const VERSION_7: &[u8] = b"\0\x07\0\0\0\0\0\0\0\0\0\0\0\0\0\0\0\0\0\0";

const REST: &[u8] = b"\0\0\0\0\0\0\0\0\0\0\0\0\0\0\0\0\0\0\0\0";

// 10.0.0.1 to 10.0.0.2, ports 1024 and 80, protocol 6, 10 packets, 840 octets
const RECORD: &[u8] = b"\x0a\0\0\x01\x0a\0\0\x02\0\0\0\0\0\0\0\0\0\0\0\x0a\0\0\x03\x48\
\0\0\0\0\0\0\0\0\x04\0\0\x50\0\0\x06\0\0\0\0\0\0\0\0\0";

// the same from port 99, with 1 packet and 4,294,967,295 octets
const LOW_PORT: &[u8] = b"\x0a\0\0\x01\x0a\0\0\x02\0\0\0\0\0\0\0\0\0\0\0\x01\xff\xff\xff\xff\
\0\0\0\0\0\0\0\0\0\x63\0\x50\0\0\x06\0\0\0\0\0\0\0\0\0";

// the same from 9.0.0.1, port 1024, with 2 packets and 100 octets
const LOW_SOURCE: &[u8] = b"\x09\0\0\x01\x0a\0\0\x02\0\0\0\0\0\0\0\0\0\0\0\x02\0\0\0\x64\
\0\0\0\0\0\0\0\0\x04\0\0\x50\0\0\x06\0\0\0\0\0\0\0\0\0";

pub(crate) const ROWS: &[u8] = b"SRC_IP,DST_IP,SRC_PORT,DST_PORT,PROTOCOL,PACKETS,BYTES\n\
10.0.0.1,10.0.0.2,1024,80,6,10,840\n";

const AUDIT: &[u8] = b"end 1 0 1 0 0 0\n";

const NO_DATAGRAM: &[u8] = b"end 0 0 0 0 0 0\n";

const USAGE: &[u8] = b"usage: nfacctd -f FILE | --generate NUMBER\n";

const DONE: &[u8] = b"nfacctd: done\n";

const BAD: &[u8] = b"nfacctd: flow capture bad at 0: magic\n";

const TORN_AT_8: &[u8] = b"nfacctd: flow capture torn at 8\n";

// Octets, so many times.
type Part = (usize, &'static [u8]);

// What a run begins with, and the numbers, from 1, of its calls that fail.
#[derive(Clone, Copy)]
struct Before {
    words: &'static [&'static str],
    config: Option<&'static [Part]>,
    capture: Option<&'static [Part]>,
    // what the outputs hold
    old: Option<&'static [u8]>,
    opens: &'static [u64],
    closes: &'static [u64],
    // a name, how many octets its calls move at most, and which of them fail
    shape: (&'static [u8], u64, &'static [u64]),
    says: &'static [u64],
}

const ONE_RECORD: Before = Before {
    words: &["-f", "nfacctd.conf"],
    config: Some(&[(1, CONFIG)]),
    capture: Some(&[(1, MAGIC), (1, FROM_V4), (1, ONE), (1, REST), (1, RECORD)]),
    old: None,
    opens: &[],
    closes: &[],
    shape: (b"", 1, &[]),
    says: &[],
};

#[derive(Clone, Copy)]
enum Kind {
    Done,
    Usage,
    Refused(u32, ConfigCause),
    TooLong,
    Unopened(&'static [u8]),
    FlowFault,
    Torn(u64),
    Bad(u64, BadCause),
    Unwritten(&'static [u8]),
    SayFault,
}

// What a run ends with: its answer, the status of that, the line, and what the outputs hold.
#[derive(Clone, Copy)]
struct After {
    answer: Kind,
    status: u8,
    line: &'static [u8],
    output: Option<&'static [u8]>,
    audit: Option<&'static [u8]>,
}

const ONE_ROW: After = After {
    answer: Kind::Done,
    status: 0,
    line: DONE,
    output: Some(ROWS),
    audit: Some(AUDIT),
};

fn repeated(alloc: Global, parts: &[Part]) -> Result<Octets, NoMemory> {
    let mut octets = Octets::new(alloc);
    for (times, part) in parts {
        for _ in 0..*times {
            octets.extend(part)?;
        }
    }
    Ok(octets)
}

fn put(
    alloc: Global,
    place: &mut MemoryPlace,
    name: &[u8],
    octets: &Option<Octets>,
) -> Result<(), NoMemory> {
    match octets {
        Some(octets) => place.put(Text::from_slice(alloc, name)?, octets.copy()?),
        None => Ok(()),
    }
}

fn octets_of(alloc: Global, parts: Option<&[Part]>) -> Result<Option<Octets>, NoMemory> {
    match parts {
        Some(parts) => Ok(Some(repeated(alloc, parts)?)),
        None => Ok(None),
    }
}

fn old_of(alloc: Global, old: Option<&[u8]>) -> Result<Option<Octets>, NoMemory> {
    match old {
        Some(old) => Ok(Some(Octets::from_slice(alloc, old)?)),
        None => Ok(None),
    }
}

fn place_of(alloc: Global, before: &Before) -> Result<MemoryPlace, NoMemory> {
    let opens = List::from_slice(alloc, before.opens)?;
    let closes = List::from_slice(alloc, before.closes)?;
    let mut place = MemoryPlace::new(alloc, opens, closes);
    put(
        alloc,
        &mut place,
        b"nfacctd.conf",
        &octets_of(alloc, before.config)?,
    )?;
    put(
        alloc,
        &mut place,
        b"flows.cap",
        &octets_of(alloc, before.capture)?,
    )?;
    let old = old_of(alloc, before.old)?;
    put(alloc, &mut place, b"p.csv", &old)?;
    put(alloc, &mut place, b"audit.txt", &old)?;
    let (name, most, failing) = before.shape;
    let name = Text::from_slice(alloc, name)?;
    place.shape(name, most.max(1), List::from_slice(alloc, failing)?)?;
    Ok(place)
}

fn holds(
    alloc: Global,
    place: &MemoryPlace,
    name: &[u8],
    wanted: Option<&[u8]>,
) -> Result<bool, NoMemory> {
    let name = Text::from_slice(alloc, name)?;
    Ok(is_held(place.get(&name), wanted))
}

fn holds_parts(
    alloc: Global,
    place: &MemoryPlace,
    name: &[u8],
    parts: Option<&[Part]>,
) -> Result<bool, NoMemory> {
    match octets_of(alloc, parts)? {
        Some(octets) => holds(alloc, place, name, Some(octets.as_slice())),
        None => holds(alloc, place, name, None),
    }
}

fn is_refused(file: &Text, line: u32, cause: AnyCause, wanted: Kind) -> bool {
    let right = match (cause, wanted) {
        (AnyCause::Config(cause), Kind::Refused(number, wanted)) => line == number
            && cause == wanted,
        (AnyCause::TooLong, Kind::TooLong) => line == 0,
        _ => false,
    };
    right && file.as_slice() == b"nfacctd.conf".as_slice()
}

fn is_answer(answer: &Answer, wanted: Kind) -> bool {
    match (answer, wanted) {
        (Answer::Done, Kind::Done) => true,
        (Answer::Usage, Kind::Usage) => true,
        (Answer::ConfigRefused { file, line, cause }, _) => {
            is_refused(file, *line, *cause, wanted)
        }
        (Answer::OpenFault { name }, Kind::Unopened(wanted)) => name.as_slice() == wanted,
        (Answer::FlowFault, Kind::FlowFault) => true,
        (Answer::CaptureTorn { flows, place }, Kind::Torn(wanted)) => *flows && *place == wanted,
        (
            Answer::CaptureBad {
                flows,
                place,
                cause,
            },
            Kind::Bad(wanted, why),
        ) => *flows && *place == wanted && *cause == why,
        (Answer::WriteFault { name }, Kind::Unwritten(wanted)) => name.as_slice() == wanted,
        (Answer::SayFault, Kind::SayFault) => true,
        _ => false,
    }
}

// The first thing in which a run differs from what is wanted.
fn difference(alloc: Global, before: &Before, after: &After) -> Result<&'static str, Fail> {
    let words = words_of(alloc, before.words)?;
    let mut place = place_of(alloc, before)?;
    let mut say = MemorySink::new(alloc, 5, List::from_slice(alloc, before.says)?);
    let answer = account_alone(
        alloc,
        same_hashing()?,
        Tool::Nfacctd,
        &words,
        &mut place,
        &mut say,
    );
    Ok(if !is_answer(&answer, after.answer) {
        "answer"
    } else if status(&answer) != after.status {
        "status"
    } else if say.held().as_slice() != after.line {
        "line"
    } else if !holds(alloc, &place, b"p.csv", after.output)? {
        "output"
    } else if !holds(alloc, &place, b"audit.txt", after.audit)? {
        "audit"
    } else if !holds_parts(alloc, &place, b"nfacctd.conf", before.config)? {
        "configuration"
    } else if !holds_parts(alloc, &place, b"flows.cap", before.capture)? {
        "capture"
    } else {
        "none"
    })
}

#[test]
fn each_record_is_counted_once(rt: HostRuntime) -> Result<(), Fail> {
    let one = ONE_RECORD;
    let twice: &'static [u8] = b"SRC_IP,DST_IP,SRC_PORT,DST_PORT,PROTOCOL,PACKETS,BYTES\n\
10.0.0.1,10.0.0.2,1024,80,6,20,1680\n";
    let thirty: &'static [u8] = b"SRC_IP,DST_IP,SRC_PORT,DST_PORT,PROTOCOL,PACKETS,BYTES\n\
10.0.0.1,10.0.0.2,1024,80,6,300,25200\n";
    let behind: &'static [u8] = b"old\nSRC_IP,DST_IP,SRC_PORT,DST_PORT,PROTOCOL,PACKETS,BYTES\n\
10.0.0.1,10.0.0.2,1024,80,6,10,840\n";
    let cases: [(Before, Option<&'static [u8]>, &'static [u8]); 8] = [
        (one, Some(ROWS), AUDIT),
        (
            Before {
                old: Some(b"old\n"),
                ..one
            },
            Some(behind),
            AUDIT,
        ),
        (
            Before {
                capture: Some(&[(1, MAGIC)]),
                ..one
            },
            Some(b""),
            NO_DATAGRAM,
        ),
        (
            Before {
                capture: Some(&[
                    (1, MAGIC),
                    (1, FROM_V4),
                    (1, ONE),
                    (1, REST),
                    (1, RECORD),
                    (1, FROM_V6),
                    (1, ONE),
                    (1, REST),
                    (1, RECORD),
                ]),
                ..one
            },
            Some(twice),
            b"end 2 0 2 0 0 0\n",
        ),
        (
            Before {
                capture: Some(&[(1, MAGIC), (1, FROM_V4), (1, TWO), (1, REST), (1, RECORD)]),
                ..one
            },
            Some(b""),
            b"refused 1 v5-cut\nend 1 1 0 0 0 0\n",
        ),
        (
            Before {
                capture: Some(&[
                    (1, MAGIC),
                    (1, OF_1512),
                    (1, THIRTY_ONE),
                    (1, REST),
                    (31, RECORD),
                    (1, OF_1464),
                    (1, THIRTY),
                    (1, REST),
                    (30, RECORD),
                ]),
                ..one
            },
            Some(thirty),
            b"refused 1 v5-count\nend 2 1 30 0 0 0\n",
        ),
        (
            Before {
                capture: Some(&[(1, MAGIC), (1, OF_20), (1, VERSION_7)]),
                ..one
            },
            Some(b""),
            b"refused 1 version 7\nend 1 1 0 0 0 0\n",
        ),
        (
            Before {
                capture: Some(&[
                    (1, MAGIC),
                    (1, FROM_V4),
                    (1, ONE),
                    (1, REST),
                    (1, RECORD),
                    (1, FROM_V4),
                    (1, TWO),
                    (1, REST),
                    (1, LOW_SOURCE),
                ]),
                ..one
            },
            Some(ROWS),
            b"refused 2 v5-cut\nend 2 1 1 0 0 0\n",
        ),
    ];
    for (index, (before, output, audit)) in cases.iter().enumerate() {
        let after = After {
            output: *output,
            audit: Some(*audit),
            ..ONE_ROW
        };
        let found = difference(rt.alloc(), before, &after)?;
        assert_eq!(rt; found, "none", "case {index}");
    }
    Ok(())
}

// Old outputs, and these calls that fail.
fn failing(
    opens: &'static [u64],
    closes: &'static [u64],
    shape: (&'static [u8], u64, &'static [u64]),
) -> Before {
    Before {
        old: Some(b"old\n"),
        opens,
        closes,
        shape,
        ..ONE_RECORD
    }
}

fn unopened(name: &'static [u8], line: &'static [u8]) -> After {
    After {
        answer: Kind::Unopened(name),
        status: 3,
        line,
        output: Some(b"old\n"),
        audit: Some(b"old\n"),
    }
}

fn flow_fault(output: &'static [u8], audit: &'static [u8]) -> After {
    After {
        answer: Kind::FlowFault,
        status: 4,
        line: b"nfacctd: flow input failed\n",
        output: Some(output),
        audit: Some(audit),
    }
}

fn unwritten(
    name: &'static [u8],
    line: &'static [u8],
    output: &'static [u8],
    audit: &'static [u8],
) -> After {
    After {
        answer: Kind::Unwritten(name),
        status: 6,
        line,
        output: Some(output),
        audit: Some(audit),
    }
}

const OLD_AND_ROWS: &[u8] = b"old\nSRC_IP,DST_IP,SRC_PORT,DST_PORT,PROTOCOL,PACKETS,BYTES\n\
10.0.0.1,10.0.0.2,1024,80,6,10,840\n";

const NO_CONFIG: &[u8] = b"nfacctd: cannot open nfacctd.conf\n";

const NO_CAPTURE: &[u8] = b"nfacctd: cannot open flows.cap\n";

const NO_OUTPUT: &[u8] = b"nfacctd: cannot open p.csv\n";

const NO_AUDIT: &[u8] = b"nfacctd: cannot open audit.txt\n";

const OUTPUT_UNWRITTEN: &[u8] = b"nfacctd: cannot write p.csv\n";

const AUDIT_UNWRITTEN: &[u8] = b"nfacctd: cannot write audit.txt\n";

#[test]
fn each_opening_or_closing_fails_in_turn(rt: HostRuntime) -> Result<(), Fail> {
    let all: (&'static [u8], u64, &'static [u64]) = (b"", 1, &[]);
    let done = After {
        output: Some(OLD_AND_ROWS),
        ..ONE_ROW
    };
    let unaudited = After {
        audit: Some(b"old\n"),
        ..unopened(b"audit.txt", NO_AUDIT)
    };
    let cases: [(Before, After); 10] = [
        (
            failing(&[1], &[], all),
            unopened(b"nfacctd.conf", NO_CONFIG),
        ),
        (failing(&[2], &[], all), unopened(b"flows.cap", NO_CAPTURE)),
        (failing(&[3], &[], all), unopened(b"p.csv", NO_OUTPUT)),
        (failing(&[4], &[], all), unaudited),
        (failing(&[4], &[1], all), unaudited),
        (failing(&[5], &[3], all), done),
        (
            failing(&[], &[1], all),
            unwritten(b"p.csv", OUTPUT_UNWRITTEN, b"old\n", AUDIT),
        ),
        (
            failing(&[], &[2], all),
            unwritten(b"audit.txt", AUDIT_UNWRITTEN, OLD_AND_ROWS, b""),
        ),
        (
            failing(&[], &[1, 2], all),
            unwritten(b"p.csv", OUTPUT_UNWRITTEN, b"old\n", b""),
        ),
        (
            Before {
                old: None,
                opens: &[4],
                ..ONE_RECORD
            },
            After {
                output: Some(b""),
                audit: None,
                ..unopened(b"audit.txt", NO_AUDIT)
            },
        ),
    ];
    for (index, (before, after)) in cases.iter().enumerate() {
        let found = difference(rt.alloc(), before, after)?;
        assert_eq!(rt; found, "none", "case {index}");
    }
    Ok(())
}

#[test]
fn each_read_or_write_fails_in_turn(rt: HostRuntime) -> Result<(), Fail> {
    let done = After {
        output: Some(OLD_AND_ROWS),
        ..ONE_ROW
    };
    // The configuration has 234 octets, the capture 99, the output 90 and the audit 16.
    let cases: [(&'static [u8], u64, &'static [u64], After); 15] = [
        (
            b"nfacctd.conf",
            200,
            &[1],
            unopened(b"nfacctd.conf", NO_CONFIG),
        ),
        (
            b"nfacctd.conf",
            200,
            &[2],
            unopened(b"nfacctd.conf", NO_CONFIG),
        ),
        (
            b"nfacctd.conf",
            200,
            &[3],
            unopened(b"nfacctd.conf", NO_CONFIG),
        ),
        (b"nfacctd.conf", 200, &[4], done),
        (b"flows.cap", 50, &[1], flow_fault(b"old\n", NO_DATAGRAM)),
        (b"flows.cap", 50, &[2], flow_fault(b"old\n", NO_DATAGRAM)),
        (b"flows.cap", 50, &[3], flow_fault(OLD_AND_ROWS, AUDIT)),
        (b"flows.cap", 50, &[4], done),
        (
            b"p.csv",
            50,
            &[1],
            unwritten(b"p.csv", OUTPUT_UNWRITTEN, b"old\n", AUDIT),
        ),
        (
            b"p.csv",
            50,
            &[2],
            unwritten(
                b"p.csv",
                OUTPUT_UNWRITTEN,
                b"old\nSRC_IP,DST_IP,SRC_PORT,DST_PORT,PROTOCOL,PACKETS,B",
                AUDIT,
            ),
        ),
        (b"p.csv", 50, &[3], done),
        (
            b"audit.txt",
            8,
            &[1],
            unwritten(b"audit.txt", AUDIT_UNWRITTEN, OLD_AND_ROWS, b""),
        ),
        (
            b"audit.txt",
            8,
            &[2],
            unwritten(b"audit.txt", AUDIT_UNWRITTEN, OLD_AND_ROWS, b"end 1 0 "),
        ),
        (b"audit.txt", 8, &[3], done),
        (b"audit.txt", 1, &[], done),
    ];
    for (index, (name, most, calls, after)) in cases.iter().enumerate() {
        let before = failing(&[], &[], (*name, *most, *calls));
        let found = difference(rt.alloc(), &before, after)?;
        assert_eq!(rt; found, "none", "case {index}");
    }
    Ok(())
}

// the record but for its last octet
const CUT: &[u8] = b"\x0a\0\0\x01\x0a\0\0\x02\0\0\0\0\0\0\0\0\0\0\0\x0a\0\0\x03\x48\
\0\0\0\0\0\0\0\0\x04\0\0\x50\0\0\x06\0\0\0\0\0\0\0\0";

const TORN: &[Part] = &[(1, MAGIC), (1, FROM_V4), (1, ONE), (1, REST), (1, CUT)];

const TWO_DATAGRAMS: &[Part] = &[
    (1, MAGIC),
    (1, FROM_V4),
    (1, ONE),
    (1, REST),
    (1, RECORD),
    (1, FROM_V4),
    (1, ONE),
    (1, REST),
    (1, RECORD),
];

const NOTHING: After = After {
    answer: Kind::Usage,
    status: 1,
    line: USAGE,
    output: None,
    audit: None,
};

#[test]
fn other_words_are_answered_by_the_usage(rt: HostRuntime) -> Result<(), Fail> {
    let cases: [&'static [&'static str]; 9] = [
        &[],
        &["-f"],
        &["nfacctd.conf"],
        &["-x", "nfacctd.conf"],
        &["nfacctd.conf", "-f"],
        &["-f", "nfacctd.conf", "-f"],
        &["-f", "a", "--generate", "3"],
        &["--generate", "3"],
        &["-f", "-x"],
    ];
    for (index, words) in cases.iter().enumerate() {
        let before = Before {
            words: *words,
            ..ONE_RECORD
        };
        let found = difference(rt.alloc(), &before, &NOTHING)?;
        assert_eq!(rt; found, "none", "case {index}");
    }
    Ok(())
}

// Sixteen octets of a comment.
const SIXTEEN: &[u8] = b"! a comment line";

const TOO_LONG: &[u8] = b"nfacctd: nfacctd.conf:0: too-long\n";

const NOT_IN_PROFILE: &[u8] = b"nfacctd: nfacctd.conf:0: not-in-profile\n";

const SAME_NAME: &[u8] = b"nfacctd: nfacctd.conf:0: same-name\n";

const MISSING_KEY: &[u8] = b"nfacctd: nfacctd.conf:0: missing-key\n";

// The configuration but for the names of its files.
const NO_NAMES: &[u8] = b"plugins: print[p]\n\
aggregate[p]: src_host, dst_host, src_port, dst_port, proto\n\
print_output[p]: csv\n\
print_output_file_append: true\n\
acct_threads: false\n";

const NOTHING_BUILT: Kind = Kind::Refused(0, ConfigCause::NotInProfile);

const SHARED: Kind = Kind::Refused(0, ConfigCause::SameName);

const LACKING: Kind = Kind::Refused(0, ConfigCause::MissingKey);

// A configuration, its answer and the line.
type Refused = (&'static [Part], Kind, &'static [u8]);

// The first of these configurations that isn't refused so, and in what.
fn first_difference(alloc: Global, cases: &[Refused]) -> Result<(usize, &'static str), Fail> {
    for (index, (config, answer, line)) in cases.iter().enumerate() {
        let before = Before {
            config: Some(*config),
            ..ONE_RECORD
        };
        let after = After {
            answer: *answer,
            status: 2,
            line: *line,
            ..NOTHING
        };
        let found = difference(alloc, &before, &after)?;
        if found != "none" {
            return Ok((index, found));
        }
    }
    Ok((cases.len(), "none"))
}

static CAUSES: [Refused; 8] = [
    (&[], LACKING, MISSING_KEY),
    (&[(65_536, SIXTEEN)], LACKING, MISSING_KEY),
    (&[(65_536, SIXTEEN), (1, b"!")], Kind::TooLong, TOO_LONG),
    (
        &[
            (1, FIRST_LINES),
            (1, b"print_output[q]: csv\n"),
            (1, FOURTH_LINE),
            (1, LAST_LINES),
        ],
        Kind::Refused(3, ConfigCause::UnknownPlugin),
        b"nfacctd: nfacctd.conf:3: unknown-plugin\n",
    ),
    (
        &[(1, CONFIG), (1, b"print_outputs: csv\n")],
        Kind::Refused(9, ConfigCause::UnknownKey),
        b"nfacctd: nfacctd.conf:9: unknown-key\n",
    ),
    (
        &[(1, CONFIG), (1, b"\nnfacctd_port: 65536")],
        Kind::Refused(10, ConfigCause::BadValue),
        b"nfacctd: nfacctd.conf:10: bad-value\n",
    ),
    (
        &[(1, CONFIG), (1, b"acct_threads: true\n")],
        Kind::Refused(9, ConfigCause::Repeated),
        b"nfacctd: nfacctd.conf:9: repeated\n",
    ),
    (
        &[
            (1, NO_NAMES),
            (1, b"print_output_file: p.csv\nacct_flow_capture: p.csv\n"),
        ],
        SHARED,
        SAME_NAME,
    ),
];

// The proof of a test needn't read its table: a function hands it out.
fn causes() -> &'static [Refused] {
    &CAUSES
}

#[test]
fn each_cause_is_told_with_its_line(rt: HostRuntime) -> Result<(), Fail> {
    let found = first_difference(rt.alloc(), causes())?;
    assert_eq!(rt; found, (8, "none"));
    Ok(())
}

static UNBUILT: [Refused; 8] = [
    (
        &[(1, CONFIG), (1, b"bgp_agent_map: agents.map\n")],
        NOTHING_BUILT,
        NOT_IN_PROFILE,
    ),
    (
        &[
            (1, CONFIG),
            (1, b"bgp_daemon: true\nacct_route_capture: routes.cap\n"),
        ],
        NOTHING_BUILT,
        NOT_IN_PROFILE,
    ),
    (
        &[
            (1, CONFIG),
            (1, b"bmp_daemon: true\nacct_route_capture: routes.cap\n"),
        ],
        NOTHING_BUILT,
        NOT_IN_PROFILE,
    ),
    // With other plugins likewise.
    (
        &[(
            1,
            b"plugins: print[p], memory\nprint_output_file[p]: p.csv\nacct_memory_file: m.txt\n\
print_output_file_append: true\nacct_flow_capture: flows.cap\nbgp_agent_map: agents.map\n",
        )],
        NOTHING_BUILT,
        NOT_IN_PROFILE,
    ),
    // Plugins have outputs of their own.
    (
        &[(
            1,
            b"plugins: print[p], memory\nprint_output_file[p]: p.csv\nacct_memory_file: p.csv\n\
print_output_file_append: true\nacct_flow_capture: flows.cap\n",
        )],
        SHARED,
        SAME_NAME,
    ),
    // What isn't built goes before the configuration's own name and before a capture that is missing.
    (
        &[
            (1, NO_NAMES),
            (
                1,
                b"print_output_file: nfacctd.conf\nbgp_agent_map: agents.map\n",
            ),
        ],
        NOTHING_BUILT,
        NOT_IN_PROFILE,
    ),
    (
        &[(1, NO_NAMES), (1, b"print_output_file: nfacctd.conf\n")],
        SHARED,
        SAME_NAME,
    ),
    (
        &[(1, NO_NAMES), (1, b"print_output_file: p.csv\n")],
        LACKING,
        MISSING_KEY,
    ),
];

fn unbuilt() -> &'static [Refused] {
    &UNBUILT
}

static OWN_AUDIT: [Refused; 1] = [(
    &[
        (1, NO_NAMES),
        (
            1,
            b"print_output_file: p.csv\nacct_flow_capture: flows.cap\nacct_audit_file: nfacctd.conf\n",
        ),
    ],
    SHARED,
    SAME_NAME,
)];

fn own_audit() -> &'static [Refused] {
    &OWN_AUDIT
}

#[test]
fn what_is_not_built_yet_is_refused_at_no_line(rt: HostRuntime) -> Result<(), Fail> {
    let found = first_difference(rt.alloc(), unbuilt())?;
    assert_eq!(rt; found, (8, "none"));
    let found = first_difference(rt.alloc(), own_audit())?;
    assert_eq!(rt; found, (1, "none"));
    Ok(())
}

// The first lines, with these keys.
const FILES: &[u8] = b"print_output_file: p.csv\n\
print_output_file_append: true\n\
acct_flow_capture: flows.cap\n";

// The same datagram at 61000 ms.
const AT_61000: &[u8] = b"\x04\0\0\0\0\0\0\xee\x48\xc0\0\x02\x01\xc3\x50\0\0\0\x48";

#[test]
fn each_layout_has_the_columns_that_are_asked_for(rt: HostRuntime) -> Result<(), Fail> {
    let cases: [(&'static [Part], &'static [u8]); 7] = [
        (
            &[(1, b"plugins: print\naggregate: proto\n"), (1, FILES)],
            b"PROTOCOL  PACKETS               BYTES\n6         10                    840\n",
        ),
        (
            &[
                (
                    1,
                    b"plugins: print[p]\naggregate[p]: proto, tos\nprint_output[p]: json\n",
                ),
                (1, FILES),
            ],
            b"{\"bytes\":840,\"ip_proto\":6,\"packets\":10,\"tos\":0}\n",
        ),
        (
            &[
                (
                    1,
                    b"plugins: print[p]\naggregate[p]: acct_window, flows\nprint_output: csv\n",
                ),
                (1, FILES),
            ],
            b"WINDOW,PACKETS,FLOWS,BYTES\n60000,10,1,840\n",
        ),
        (
            &[
                (
                    1,
                    b"plugins: print[p]\naggregate[p]: acct_window\nprint_output: csv\nprint_refresh_time: 7\n",
                ),
                (1, FILES),
            ],
            b"WINDOW,PACKETS,BYTES\n56000,10,840\n",
        ),
        (
            &[
                (1, b"plugins: print\naggregate: flows\nprint_output: csv\n"),
                (1, FILES),
            ],
            b"PACKETS,FLOWS,BYTES\n10,1,840\n",
        ),
        (
            &[
                (
                    1,
                    b"plugins: print\naggregate: dst_port, src_net, peer_src_ip, label, src_mac, as_path\n\
print_output: csv\n",
                ),
                (1, FILES),
            ],
            b"LABEL,SRC_MAC,AS_PATH,PEER_SRC_IP,SRC_NET,DST_PORT,PACKETS,BYTES\n\
,00:00:00:00:00:00,,192.0.2.1,0.0.0.0,80,10,840\n",
        ),
        (
            &[(1, b"plugins: print\nprint_output: csv\n"), (1, FILES)],
            b"SRC_IP,PACKETS,BYTES\n10.0.0.1,10,840\n",
        ),
    ];
    for (index, (config, output)) in cases.iter().enumerate() {
        let before = Before {
            config: Some(*config),
            capture: Some(&[(1, MAGIC), (1, AT_61000), (1, ONE), (1, REST), (1, RECORD)]),
            ..ONE_RECORD
        };
        let after = After {
            output: Some(*output),
            ..ONE_ROW
        };
        let found = difference(rt.alloc(), &before, &after)?;
        assert_eq!(rt; found, "none", "case {index}");
    }
    Ok(())
}

#[test]
fn inputs_that_are_missing_torn_or_lost(rt: HostRuntime) -> Result<(), Fail> {
    let torn = After {
        answer: Kind::Torn(8),
        status: 5,
        line: TORN_AT_8,
        output: Some(b""),
        audit: Some(NO_DATAGRAM),
    };
    let cases: [(Before, After); 10] = [
        (
            Before {
                config: None,
                ..ONE_RECORD
            },
            After {
                output: None,
                audit: None,
                ..unopened(b"nfacctd.conf", NO_CONFIG)
            },
        ),
        (
            Before {
                words: &["-f", "other.conf"],
                ..ONE_RECORD
            },
            After {
                output: None,
                audit: None,
                ..unopened(b"other.conf", b"nfacctd: cannot open other.conf\n")
            },
        ),
        (
            Before {
                capture: None,
                ..ONE_RECORD
            },
            After {
                output: None,
                audit: None,
                ..unopened(b"flows.cap", NO_CAPTURE)
            },
        ),
        (
            Before {
                capture: Some(TORN),
                ..ONE_RECORD
            },
            torn,
        ),
        // The capture's fault goes before those of the outputs.
        (
            Before {
                capture: Some(TORN),
                closes: &[1, 2],
                ..ONE_RECORD
            },
            After {
                audit: Some(b""),
                ..torn
            },
        ),
        (
            Before {
                capture: Some(&[]),
                ..ONE_RECORD
            },
            After {
                answer: Kind::Bad(0, BadCause::Magic),
                line: BAD,
                ..torn
            },
        ),
        // One octet a read: the 100th fails behind the first datagram.
        (
            Before {
                capture: Some(TWO_DATAGRAMS),
                shape: (b"flows.cap", 1, &[100]),
                ..ONE_RECORD
            },
            flow_fault(ROWS, AUDIT),
        ),
        (
            Before {
                capture: Some(TWO_DATAGRAMS),
                shape: (b"flows.cap", 1, &[100]),
                closes: &[1, 2],
                ..ONE_RECORD
            },
            flow_fault(b"", b""),
        ),
        (
            Before {
                says: &[2],
                ..ONE_RECORD
            },
            After {
                answer: Kind::SayFault,
                status: 6,
                line: b"nfacc",
                ..ONE_ROW
            },
        ),
        (
            Before {
                words: &[],
                says: &[2],
                ..ONE_RECORD
            },
            After {
                line: b"usage",
                ..NOTHING
            },
        ),
    ];
    for (index, (before, after)) in cases.iter().enumerate() {
        let found = difference(rt.alloc(), before, after)?;
        assert_eq!(rt; found, "none", "case {index}");
    }
    Ok(())
}

// So many datagrams of thirty records under three keys.
fn many_datagrams(alloc: Global, count: usize) -> Result<Octets, NoMemory> {
    let datagram = repeated(
        alloc,
        &[
            (1, OF_1464),
            (1, THIRTY),
            (1, REST),
            (10, RECORD),
            (10, LOW_SOURCE),
            (10, LOW_PORT),
        ],
    )?;
    let mut capture = Octets::from_slice(alloc, MAGIC)?;
    for _ in 0..count {
        capture.extend(datagram.as_slice())?;
    }
    Ok(capture)
}

const MANY_ROWS: &[u8] = b"SRC_IP,DST_IP,SRC_PORT,DST_PORT,PROTOCOL,PACKETS,BYTES\n\
9.0.0.1,10.0.0.2,1024,80,6,6800,340000\n\
10.0.0.1,10.0.0.2,99,80,6,3400,14602888803000\n\
10.0.0.1,10.0.0.2,1024,80,6,34000,2856000\n";

#[test]
fn rows_of_many_records_order_by_number(rt: HostRuntime) -> Result<(), Fail> {
    let alloc = rt.alloc();
    let words = words_of(alloc, ONE_RECORD.words)?;
    let mut place = place_of(alloc, &ONE_RECORD)?;
    let name = Text::from_slice(alloc, b"flows.cap")?;
    place.put(name, many_datagrams(alloc, 340)?)?;
    let mut say = MemorySink::new(alloc, 5, List::new(alloc));
    let answer = account_in_memory(
        alloc,
        same_hashing()?,
        Tool::Nfacctd,
        &words,
        &mut place,
        &mut say,
    );
    assert!(rt; is_answer(&answer, Kind::Done));
    assert_eq!(rt; say.held().as_slice(), DONE);
    assert!(rt; holds(alloc, &place, b"p.csv", Some(MANY_ROWS))?);
    assert!(rt;
        holds(
            alloc,
            &place,
            b"audit.txt",
            Some(b"end 340 0 10200 0 0 0\n")
        )?
    );
    Ok(())
}
