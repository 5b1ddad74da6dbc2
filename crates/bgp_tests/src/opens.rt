use crate::messages::{NARROW, Wrong, fault_of, message, read};
use bgp_msg::{AddPath, BgpMessage, Hello};
use fixtures::joined;
use std::test::Fail;

const OPEN: u8 = 1;

// Version 4, system 64512, a hold time of 180 seconds, identifier 192.0.2.1.
const HEAD: &[u8] = b"\x04\xfc\0\0\xb4\xc0\0\x02\x01";

// Capabilities of four-octet numbers: 64512, 70000, the system 0, and ones of two, of five and of no octets.
const SYSTEM_64512: &[u8] = b"\x41\x04\0\0\xfc\0";

const SYSTEM_70000: &[u8] = b"\x41\x04\0\x01\x11\x70";

const SYSTEM_0: &[u8] = b"\x41\x04\0\0\0\0";

const TWO_OCTETS: &[u8] = b"\x41\x02\0\x01";

const FIVE_OCTETS: &[u8] = b"\x41\x05\0\x01\x11\x70\0";

const NO_OCTETS: &[u8] = b"\x41\0";

// Others: routes of IPv4, route refresh, and path identifiers.
const OTHERS: &[u8] = b"\x01\x04\0\x01\0\x01\x02\0\x45\x04\0\x01\x01\x03";

static FIELD_FAULTS: [(&'static [u8], Wrong); 15] = [
    (b"\x03\0\0\0\x01\0\0\0\0\x01", (2, 1, 19)),
    (b"\x05\xfc\0\0\xb4\xc0\0\x02\x01\0", (2, 1, 19)),
    (b"\0\xfc\0\0\xb4\xc0\0\x02\x01\0", (2, 1, 19)),
    (b"\x04\0\0\0\x01\0\0\0\0\x01", (2, 2, 20)),
    (b"\x04\xfc\0\0\x01\0\0\0\0\x01", (2, 6, 22)),
    (b"\x04\xfc\0\0\x02\0\0\0\0\x01", (2, 6, 22)),
    (b"\x04\xfc\0\0\x02\xc0\0\x02\x01\0", (2, 6, 22)),
    (b"\x04\xfc\0\0\x03\0\0\0\0\x01", (2, 3, 24)),
    (b"\x04\xfc\0\0\0\0\0\0\0\0", (2, 3, 24)),
    (b"\x04\xfc\0\0\xb4\xc0\0\x02\x01\x01", (2, 0, 28)),
    (b"\x04\xfc\0\0\xb4\xc0\0\x02\x01\0\x02", (2, 0, 28)),
    (b"\x04\xfc\0\0\xb4\xc0\0\x02\x01\x02\x02\0\x02", (2, 0, 28)),
    (b"\x04\xfc\0\0\xb4\xc0\0\x02\x01\x03\x02\0", (2, 0, 28)),
    (b"\x04\xfc\0\0\xb4\xc0\0\x02\x01\x01\x03", (2, 0, 29)),
    (b"\x04\xfc\0\0\xb4\xc0\0\x02\x01\xff", (2, 0, 28)),
];

fn field_faults() -> &'static [(&'static [u8], Wrong)] {
    &FIELD_FAULTS
}

#[test]
fn the_fields_of_an_open_are_judged_in_order(rt: HostRuntime) -> Result<(), Fail> {
    for (body, wanted) in field_faults() {
        assert_eq!(rt; fault_of(rt.alloc(), OPEN, &[body])?, Some(*wanted));
    }
    Ok(())
}

// The parameters behind the fields, with their length in front.
type Parameters = &'static [&'static [u8]];

static PARAMETER_FAULTS: [(Parameters, u8, u32); 20] = [
    (&[b"\x03\x02\x02\0"], 0, 29),
    (&[b"\x02\x01\x02"], 0, 29),
    (&[b"\x02\x03\0"], 4, 29),
    (&[b"\x04\x02\0\x01\0"], 4, 31),
    (&[b"\x05\x02\0\x02\x05\0"], 0, 31),
    (&[b"\x03\x02\0\x02"], 0, 31),
    (&[b"\x03\x02\x01\x41"], 0, 29),
    (&[b"\x05\x02\x03\x01\x02\0"], 0, 29),
    (&[b"\x04\x02\x02", NO_OCTETS], 0, 29),
    (&[b"\x06\x02\x04", TWO_OCTETS], 0, 29),
    (&[b"\x09\x02\x07", FIVE_OCTETS], 0, 29),
    (&[b"\x08\x02\x06", SYSTEM_0], 2, 29),
    (&[b"\x0e\x02\x0c", SYSTEM_64512, SYSTEM_0], 2, 29),
    (&[b"\x0e\x02\x0c", SYSTEM_0, SYSTEM_64512], 2, 29),
    (&[b"\x0c\x02\x0a", SYSTEM_0, TWO_OCTETS], 0, 29),
    (&[b"\x0e\x02\x06", SYSTEM_0, b"\x02\x04", TWO_OCTETS], 2, 29),
    (&[b"\x0e\x02\x04", TWO_OCTETS, b"\x02\x06", SYSTEM_0], 0, 29),
    (
        &[b"\x0e\x02\x06", SYSTEM_64512, b"\x02\x04", TWO_OCTETS],
        0,
        37,
    ),
    (
        &[b"\x10\x02\x06", SYSTEM_64512, b"\x02\x06", SYSTEM_0],
        2,
        37,
    ),
    (&[b"\x0a\x02\x06", SYSTEM_64512, b"\x01\0"], 4, 37),
];

fn parameter_faults() -> &'static [(Parameters, u8, u32)] {
    &PARAMETER_FAULTS
}

#[test]
fn parameters_are_judged_in_turn(rt: HostRuntime) -> Result<(), Fail> {
    for (parameters, subcode, place) in parameter_faults() {
        let parameters = joined(rt.alloc(), parameters)?;
        let fault = fault_of(rt.alloc(), OPEN, &[HEAD, parameters.as_slice()])?;
        assert_eq!(rt; fault, Some((2, *subcode, *place)));
    }
    Ok(())
}

// What is done with several paths to a prefix of IPv4 and of IPv6.
static ADD_PATHS: [(Parameters, Option<AddPath>, Option<AddPath>); 9] = [
    (
        &[b"\x08\x02\x06\x45\x04\0\x01\x01\x01"],
        Some(AddPath::Receive),
        None,
    ),
    (
        &[b"\x08\x02\x06\x45\x04\0\x02\x01\x02"],
        None,
        Some(AddPath::Send),
    ),
    (
        &[b"\x0c\x02\x0a\x45\x08\0\x02\x01\x02\0\x01\x01\x03"],
        Some(AddPath::Both),
        Some(AddPath::Send),
    ),
    // another subfamily, and another family
    (
        &[b"\x0c\x02\x0a\x45\x08\0\x01\x02\x03\0\x03\x01\x03"],
        None,
        None,
    ),
    // the last tuple counts
    (
        &[b"\x0c\x02\x0a\x45\x08\0\x01\x01\x03\0\x01\x01\x01"],
        Some(AddPath::Receive),
        None,
    ),
    (
        &[b"\x10\x02\x06\x45\x04\0\x01\x01\x02\x02\x06\x45\x04\0\x01\x01\x03"],
        Some(AddPath::Both),
        None,
    ),
    // a value that isn't known, and a tuple that is cut: the capability is passed over whole
    (
        &[b"\x12\x02\x10\x45\x04\0\x01\x01\x02\x45\x08\0\x01\x01\x01\0\x02\x01\x04"],
        Some(AddPath::Send),
        None,
    ),
    (&[b"\x08\x02\x06\x45\x04\0\x01\x01\0"], None, None),
    (&[b"\x09\x02\x07\x45\x05\0\x01\x01\x01\0"], None, None),
];

fn add_paths() -> &'static [(Parameters, Option<AddPath>, Option<AddPath>)] {
    &ADD_PATHS
}

#[test]
fn the_last_tuple_of_a_family_counts(rt: HostRuntime) -> Result<(), Fail> {
    for (parameters, v4, v6) in add_paths() {
        let parameters = joined(rt.alloc(), parameters)?;
        let octets = message(rt.alloc(), OPEN, &[HEAD, parameters.as_slice()])?;
        let hello = Hello {
            asn: 64512,
            hold: 180,
            id: 0xc000_0201,
            four_octets: false,
            path_ids_v4: false,
            path_ids_v6: false,
            add_path_v4: *v4,
            add_path_v6: *v6,
        };
        let said = read(rt.alloc(), octets.as_slice(), &NARROW)?;
        assert!(rt; said == Ok(BgpMessage::Hello(hello)));
    }
    Ok(())
}

// System, whether its numbers have four octets, and what is done with several paths of IPv4.
static HELLOS: [(Parameters, u32, bool, Option<AddPath>); 9] = [
    (&[b"\0"], 64512, false, None),
    (&[b"\x02\x02\0"], 64512, false, None),
    (
        &[b"\x10\x02\x0e", OTHERS],
        64512,
        false,
        Some(AddPath::Both),
    ),
    (&[b"\x08\x02\x06", SYSTEM_70000], 70000, true, None),
    (
        &[b"\x0e\x02\x0c", SYSTEM_70000, SYSTEM_64512],
        64512,
        true,
        None,
    ),
    (
        &[b"\x0e\x02\x0c", SYSTEM_64512, SYSTEM_70000],
        70000,
        true,
        None,
    ),
    (
        &[b"\x16\x02\x14", SYSTEM_70000, OTHERS],
        70000,
        true,
        Some(AddPath::Both),
    ),
    (
        &[
            b"\x12\x02\x06",
            SYSTEM_64512,
            b"\x02\0\x02\x06",
            SYSTEM_70000,
        ],
        70000,
        true,
        None,
    ),
    (
        &[b"\x18\x02\x06", SYSTEM_70000, b"\x02\x0e", OTHERS],
        70000,
        true,
        Some(AddPath::Both),
    ),
];

fn hellos() -> &'static [(Parameters, u32, bool, Option<AddPath>)] {
    &HELLOS
}

#[test]
fn the_last_system_counts(rt: HostRuntime) -> Result<(), Fail> {
    for (parameters, asn, four_octets, add_path) in hellos() {
        let parameters = joined(rt.alloc(), parameters)?;
        let octets = message(rt.alloc(), OPEN, &[HEAD, parameters.as_slice()])?;
        let hello = Hello {
            asn: *asn,
            hold: 180,
            id: 0xc000_0201,
            four_octets: *four_octets,
            path_ids_v4: false,
            path_ids_v6: false,
            add_path_v4: *add_path,
            add_path_v6: None,
        };
        let said = read(rt.alloc(), octets.as_slice(), &NARROW)?;
        assert!(rt; said == Ok(BgpMessage::Hello(hello)));
    }
    Ok(())
}

#[test]
fn a_hold_time_is_none_or_three_seconds_at_least(rt: HostRuntime) -> Result<(), Fail> {
    for (field, hold) in [(b"\0\0", 0), (b"\0\x03", 3), (b"\xff\xff", 65535)] {
        let body = [b"\x04\xfc\x01".as_slice(), field, b"\0\0\0\x01\0"];
        let octets = message(rt.alloc(), OPEN, &body)?;
        let hello = Hello {
            asn: 64513,
            hold,
            id: 1,
            four_octets: false,
            path_ids_v4: false,
            path_ids_v6: false,
            add_path_v4: None,
            add_path_v6: None,
        };
        let said = read(rt.alloc(), octets.as_slice(), &NARROW)?;
        assert!(rt; said == Ok(BgpMessage::Hello(hello)));
    }
    Ok(())
}
