//! Captures that aren't whole, up to the place of their fault.

use crate::test_runs::{Case, DONE, EMPTY, Given, Part, Wanted, difference, first_difference};
use std::test::Fail;

const CONFIG: &[u8] = b"plugins: print[p]\n\
print_output: csv\n\
print_output_file: p.csv\n\
print_output_file_append: true\n\
acct_flow_capture: flows.cap\n\
acct_threads: false\n";

const P: &[u8] = b"p.csv";

const AUDIT: &[u8] = b"audit.txt";

const OF_ONE: &[u8] = b"end 1 0 1 0 0 0\n";

const NO_DATAGRAM: Wanted = Wanted {
    files: &[(P, Some(b"")), (AUDIT, Some(b"end 0 0 0 0 0 0\n"))],
    ..DONE
};

const ONE_DATAGRAM: Wanted = Wanted {
    files: &[
        (P, Some(b"SRC_IP,PACKETS,BYTES\n10.0.0.1,10,840\n")),
        (AUDIT, Some(OF_ONE)),
    ],
    ..DONE
};

// A capture without an event, and one with an event of 91 octets.
const NO_EVENT: Given = Given {
    config: &[CONFIG],
    ..EMPTY
};

const ONE_EVENT: Given = Given {
    config: &[CONFIG],
    capture: &[Part::From(1_000, &[1])],
    ..EMPTY
};

#[test]
fn a_capture_is_cut_behind_each_of_its_octets(rt: HostRuntime) -> Result<(), Fail> {
    for cut in 0..=100usize {
        let given = Given { cut, ..ONE_EVENT };
        let wanted = match cut {
            0..=7 => Wanted {
                status: 5,
                line: b"nfacctd: flow capture bad at 0: magic\n",
                ..NO_DATAGRAM
            },
            8 => NO_DATAGRAM,
            9..=98 => Wanted {
                status: 5,
                line: b"nfacctd: flow capture torn at 8\n",
                ..NO_DATAGRAM
            },
            _ => ONE_DATAGRAM,
        };
        let found = difference(rt.alloc(), &given, &wanted)?;
        assert_eq!(rt; found, b"none".as_slice(), "cut at {cut}");
    }
    Ok(())
}

#[derive(Clone, Copy)]
enum Fault {
    Kind,
    Length,
    Torn,
}

// The lines of a fault of the first event, at 8, and of the second, at 99.
fn lines(fault: Fault) -> (&'static [u8], &'static [u8]) {
    match fault {
        Fault::Kind => (
            b"nfacctd: flow capture bad at 8: kind\n",
            b"nfacctd: flow capture bad at 99: kind\n",
        ),
        Fault::Length => (
            b"nfacctd: flow capture bad at 8: length\n",
            b"nfacctd: flow capture bad at 99: length\n",
        ),
        Fault::Torn => (
            b"nfacctd: flow capture torn at 8\n",
            b"nfacctd: flow capture torn at 99\n",
        ),
    }
}

// What is no event, and why.
static FAULTS: [(&[u8], Fault); 18] = [
    // The kind is judged before all else.
    (b"\0", Fault::Kind),
    (b"\x01", Fault::Kind),
    (b"\x05", Fault::Kind),
    (b"\x07", Fault::Kind),
    (b"P", Fault::Kind),
    (b"\xff", Fault::Kind),
    // Events of sessions with routers have other captures.
    (b"\x14", Fault::Kind),
    (b"\x26", Fault::Kind),
    (
        b"\x74\0\0\0\0\0\0\0\0\xc0\0\x02\x01\0\0\0\0\0\0",
        Fault::Kind,
    ),
    (b"\x84", Fault::Kind),
    // The length is judged once the header is there.
    (
        b"\x04\0\0\0\0\0\0\0\0\xc0\0\x02\x01\0\0\0\x01\0\0",
        Fault::Length,
    ),
    (
        b"\x04\0\0\0\0\0\0\0\0\xc0\0\x02\x01\0\0\xff\xff\xff\xff",
        Fault::Length,
    ),
    (
        b"\x06\0\0\0\0\0\0\0\0\0\0\0\0\0\0\0\0\0\0\0\0\0\0\0\0\0\0\0\x01\0\0",
        Fault::Length,
    ),
    (b"\x04", Fault::Torn),
    (b"\x06", Fault::Torn),
    (
        b"\x04\0\0\0\0\0\0\0\0\xc0\0\x02\x01\0\0\0\x01\0",
        Fault::Torn,
    ),
    (
        b"\x06\0\0\0\0\0\0\0\0\0\0\0\0\0\0\0\0\0\0\0\0\0\0\0\0\0\0\0\x01\0",
        Fault::Torn,
    ),
    (
        b"\x04\0\0\0\0\0\0\0\0\xc0\0\x02\x01\0\0\0\0\xff\xff",
        Fault::Torn,
    ),
];

#[test]
fn an_event_that_is_not_good_is_told_with_its_place(rt: HostRuntime) -> Result<(), Fail> {
    for (index, (octets, fault)) in FAULTS.iter().enumerate() {
        let (first, second) = lines(*fault);
        let events = [
            (NO_EVENT, NO_DATAGRAM, first),
            (ONE_EVENT, ONE_DATAGRAM, second),
        ];
        for (given, wanted, line) in &events {
            let given = Given {
                tail: *octets,
                ..*given
            };
            let wanted = Wanted {
                status: 5,
                line: *line,
                ..*wanted
            };
            let found = difference(rt.alloc(), &given, &wanted)?;
            assert_eq!(rt; found, b"none".as_slice(), "case {index}");
        }
    }
    Ok(())
}

// An event of 103 octets, a bad kind at 111, and an event.
const BAD_KIND: Given = Given {
    capture: &[Part::FromV6(0, &[1])],
    tail: b"\x05\x04\0\0\0\0\0\0\0\0\xc0\0\x02\x01\0\0\0\0\0\0",
    ..NO_EVENT
};

// An event, a bad length at 99, of which the last octet stands at 117, and an event.
const BAD_LENGTH: Given = Given {
    tail: b"\x04\0\0\0\0\0\0\0\0\xc0\0\x02\x01\0\0\0\x01\0\0\x04\0\0\0\0\0\0\0\0\xc0\0\x02\x01\0\0\0\0\0\0",
    ..ONE_EVENT
};

const KIND_IS_BAD: Wanted = Wanted {
    status: 5,
    line: b"nfacctd: flow capture bad at 111: kind\n",
    ..ONE_DATAGRAM
};

const LENGTH_IS_BAD: Wanted = Wanted {
    status: 5,
    line: b"nfacctd: flow capture bad at 99: length\n",
    ..ONE_DATAGRAM
};

const LOST: Wanted = Wanted {
    status: 4,
    line: b"nfacctd: flow input failed\n",
    ..ONE_DATAGRAM
};

static BEHIND: [Case; 8] = [
    (BAD_KIND, KIND_IS_BAD),
    (BAD_LENGTH, LENGTH_IS_BAD),
    // With one octet a read, nothing is read behind the octet that is bad.
    (
        Given {
            shapes: &[(b"flows.cap", 1, &[113])],
            ..BAD_KIND
        },
        KIND_IS_BAD,
    ),
    (
        Given {
            shapes: &[(b"flows.cap", 1, &[112])],
            ..BAD_KIND
        },
        LOST,
    ),
    (
        Given {
            shapes: &[(b"flows.cap", 1, &[119])],
            ..BAD_LENGTH
        },
        LENGTH_IS_BAD,
    ),
    (
        Given {
            shapes: &[(b"flows.cap", 1, &[118])],
            ..BAD_LENGTH
        },
        LOST,
    ),
    // The capture's fault goes before those of the outputs.
    (
        Given {
            closes: &[1, 2],
            ..BAD_KIND
        },
        Wanted {
            files: &[(P, Some(b"")), (AUDIT, Some(b""))],
            ..KIND_IS_BAD
        },
    ),
    (
        Given {
            shapes: &[(P, 8, &[2])],
            ..BAD_KIND
        },
        Wanted {
            files: &[(P, Some(b"SRC_IP,P")), (AUDIT, Some(OF_ONE))],
            ..KIND_IS_BAD
        },
    ),
];

// The proof of a test needn't read its table: a function hands it out.
fn behind() -> &'static [Case] {
    &BEHIND
}

#[test]
fn what_stands_behind_a_fault_is_not_read(rt: HostRuntime) -> Result<(), Fail> {
    let found = first_difference(rt.alloc(), behind())?;
    assert_eq!(rt; found, (8, b"none".as_slice()));
    Ok(())
}
