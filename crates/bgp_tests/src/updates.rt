use crate::messages::{NARROW, WIDE, Wrong, fault_of, message, read};
use acct_types::{AddressText, NoMemory, Octets, Update, append_decimal};
use bgp_msg::{Agreed, BgpMessage};
use fixtures::joined;
use std::alloc::Global;
use std::test::Fail;

const UPDATE: u8 = 2;

const ORIGIN: &[u8] = b"\x40\x01\x01\0";

// 64512 and 64513, with numbers of four octets.
const PATH: &[u8] = b"\x40\x02\x0a\x02\x02\0\0\xfc\0\0\0\xfc\x01";

// 192.0.2.9.
const NEXT_HOP: &[u8] = b"\x40\x03\x04\xc0\0\x02\x09";

const UNKNOWN: &[u8] = b"\xc0\x63\0";

// The body of an UPDATE of these parts.
fn body_of(
    alloc: Global,
    withdrawn: &[u8],
    attributes: &[&[u8]],
    announced: &[u8],
) -> Result<Octets, NoMemory> {
    let attributes = joined(alloc, attributes)?;
    joined(
        alloc,
        &[
            &u16::try_from(withdrawn.len()).unwrap_or(0).to_be_bytes(),
            withdrawn,
            &u16::try_from(attributes.len()).unwrap_or(0).to_be_bytes(),
            attributes.as_slice(),
            announced,
        ],
    )
}

// What is wrong with an UPDATE of these parts: subcode and place.
fn update_fault(
    alloc: Global,
    withdrawn: &[u8],
    attributes: &[&[u8]],
    announced: &[u8],
) -> Result<Option<Wrong>, Fail> {
    let body = body_of(alloc, withdrawn, attributes, announced)?;
    fault_of(alloc, UPDATE, &[body.as_slice()])
}

static LENGTH_FAULTS: [(&'static [u8], u8, u32); 10] = [
    (b"\0\x01\0\0", 1, 22),
    (b"\0\x02\0\0", 1, 23),
    (b"\0\x03\0\0", 1, 19),
    (b"\xff\xff\0\0", 1, 19),
    (b"\0\0\0\x01", 1, 21),
    (b"\0\0\xff\xff", 1, 21),
    (b"\0\0\0\x04\x40\x63\0", 1, 21),
    (b"\0\x02\x08\x0a\0\x01", 1, 23),
    (b"\0\x01\x21\0\x01", 1, 22),
    (b"\0\0\0\x03\x40\x63\0", 2, 23),
];

fn length_faults() -> &'static [(&'static [u8], u8, u32)] {
    &LENGTH_FAULTS
}

#[test]
fn lengths_are_judged_before_what_they_measure(rt: HostRuntime) -> Result<(), Fail> {
    for (body, subcode, place) in length_faults() {
        let fault = fault_of(rt.alloc(), UPDATE, &[body])?;
        assert_eq!(rt; fault, Some((3, *subcode, *place)));
    }
    Ok(())
}

// Prefixes, and the place of the first that is bad, from that of all.
static BAD_PREFIXES: [(&'static [u8], u8); 8] = [
    (b"\x21\0\0\0\0\0", 0),
    (b"\xff", 0),
    (b"\x08", 0),
    (b"\x09\x0a", 0),
    (b"\x20\x0a\0\0", 0),
    (b"\x08\x0a\x20\0", 2),
    (b"\0\x10\x0a\x01\x11\x0a\x01", 4),
    (b"\x20\x0a\0\0\x01\x21\0\0\0\0\0", 5),
];

fn bad_prefixes() -> &'static [(&'static [u8], u8)] {
    &BAD_PREFIXES
}

#[test]
fn a_prefix_is_refused_where_it_stands(rt: HostRuntime) -> Result<(), Fail> {
    let alloc = rt.alloc();
    for (prefixes, place) in bad_prefixes() {
        let place = u32::from(*place);
        let withdrawn = update_fault(alloc, prefixes, &[b"\x40\x63\0"], b"\x21")?;
        assert_eq!(rt; withdrawn, Some((3, 10, 21 + place)));
        let announced = update_fault(alloc, b"\x08\x0a", &[UNKNOWN], prefixes)?;
        assert_eq!(rt; announced, Some((3, 10, 28 + place)));
        let behind_a_fault = update_fault(alloc, b"\x08\x0a", &[b"\x40\x63\0"], prefixes)?;
        assert_eq!(rt; behind_a_fault, Some((3, 2, 25)));
    }
    Ok(())
}

// Attributes that pass the end.
static CUT_ATTRIBUTES: [&'static [u8]; 7] = [
    b"\x40",
    b"\x40\x01",
    b"\x50\x01\0",
    b"\x40\x01\x02\0",
    b"\x50\x01\0\x02\0",
    b"\x50\x01\x01\0\0",
    b"\x40\x63\xff",
];

fn cut_attributes() -> &'static [&'static [u8]] {
    &CUT_ATTRIBUTES
}

#[test]
fn a_cut_attribute_is_refused(rt: HostRuntime) -> Result<(), Fail> {
    for cut in cut_attributes() {
        let alone = update_fault(rt.alloc(), b"", &[cut], b"\x21")?;
        assert_eq!(rt; alone, Some((3, 1, 23)));
        let behind = update_fault(rt.alloc(), b"", &[UNKNOWN, cut], b"")?;
        assert_eq!(rt; behind, Some((3, 1, 26)));
    }
    Ok(())
}

static BAD_ATTRIBUTES: [(&'static [u8], u8); 57] = [
    // not known, and not optional
    (b"\x40\x62\0", 2),
    (b"\0\x62\0", 2),
    (b"\x40\0\0", 2),
    (b"\x7f\x07\0\0", 2),
    // ORIGIN, NEXT_HOP, MULTI_EXIT_DISC, LOCAL_PREF, ATOMIC_AGGREGATE and COMMUNITIES of other lengths
    (b"\x40\x01\0", 5),
    (b"\x40\x01\x02\0\0", 5),
    (b"\x40\x03\0", 5),
    (b"\x40\x03\x03\0\0\0", 5),
    (b"\x40\x03\x05\0\0\0\0\0", 5),
    (b"\x80\x04\x03\0\0\0", 5),
    (b"\x80\x04\x05\0\0\0\0\0", 5),
    (b"\x40\x05\x03\0\0\0", 5),
    (b"\x40\x05\x05\0\0\0\0\0", 5),
    (b"\x40\x06\x01\0", 5),
    (b"\xc0\x08\x01\0", 5),
    (b"\xc0\x08\x02\0\0", 5),
    (b"\xc0\x08\x07\0\0\0\0\0\0\0", 5),
    // another origin
    (b"\x40\x01\x01\x03", 6),
    (b"\x40\x01\x01\xff", 6),
    // a segment that is cut, empty, or of another type
    (b"\x40\x02\x01\x02", 11),
    (b"\x40\x02\x02\x02\0", 11),
    (b"\x40\x02\x02\x02\x01", 11),
    (b"\x40\x02\x04\x02\x01\0\0", 11),
    (b"\x40\x02\x05\x02\x01\0\0\xfc", 11),
    (b"\x40\x02\x06\0\x01\0\0\xfc\0", 11),
    (b"\x40\x02\x06\x05\x01\0\0\xfc\0", 11),
    (b"\x40\x02\x07\x02\x01\0\0\xfc\0\x01", 11),
    (b"\x40\x02\x08\x02\x01\0\0\xfc\0\x01\0", 11),
    (b"\x40\x02\x0c\x02\x01\0\0\xfc\0\x06\x01\0\0\xfc\0", 11),
    // MP_REACH_NLRI without its family, cut, and with next hops of other lengths
    (b"\x80\x0e\0", 9),
    (b"\x80\x0e\x02\0\x03", 9),
    (b"\x80\x0e\x03\0\x01\x01", 9),
    (b"\x80\x0e\x05\0\x01\x01\0\0", 9),
    (b"\x80\x0e\x08\0\x01\x01\x03\0\0\0\0", 9),
    (b"\x80\x0e\x0a\0\x01\x01\x05\0\0\0\0\0\0", 9),
    (b"\x80\x0e\x0d\0\x01\x01\x08\0\0\0\0\0\0\0\0\0", 9),
    (
        b"\x80\x0e\x14\0\x01\x01\x0f\0\0\0\0\0\0\0\0\0\0\0\0\0\0\0\0",
        9,
    ),
    (
        b"\x80\x0e\x16\0\x01\x01\x11\0\0\0\0\0\0\0\0\0\0\0\0\0\0\0\0\0\0",
        9,
    ),
    (b"\x80\x0e\x09\0\x02\x01\x04\0\0\0\0\0", 9),
    (b"\x80\x0e\x05\0\x02\x01\0\0", 9),
    (
        b"\x80\x0e\x1d\0\x02\x01\x18\0\0\0\0\0\0\0\0\0\0\0\0\0\0\0\0\0\0\0\0\0\0\0\0\0",
        9,
    ),
    (b"\x80\x0e\x04\0\x01\x01\x04", 9),
    (b"\x80\x0e\x07\0\x01\x01\x04\0\0\0", 9),
    (b"\x80\x0e\x08\0\x01\x01\x04\0\0\0\0", 9),
    (
        b"\x80\x0e\x14\0\x02\x01\x10\0\0\0\0\0\0\0\0\0\0\0\0\0\0\0\0",
        9,
    ),
    // its prefixes
    (b"\x80\x0e\x0f\0\x01\x01\x04\0\0\0\0\0\x21\0\0\0\0\0", 9),
    (b"\x80\x0e\x0c\0\x01\x01\x04\0\0\0\0\0\x08\x0a\x09", 9),
    (
        b"\x80\x0e\x16\0\x02\x01\x10\0\0\0\0\0\0\0\0\0\0\0\0\0\0\0\0\0\x81",
        9,
    ),
    (
        b"\x80\x0e\x16\0\x02\x01\x10\0\0\0\0\0\0\0\0\0\0\0\0\0\0\0\0\0\x01",
        9,
    ),
    // MP_UNREACH_NLRI
    (b"\x80\x0f\0", 9),
    (b"\x80\x0f\x02\0\x03", 9),
    (b"\x80\x0f\x04\0\x01\x01\x08", 9),
    (b"\x80\x0f\x09\0\x01\x01\x21\0\0\0\0\0", 9),
    (b"\x80\x0f\x07\0\x01\x01\x08\x0a\x09\x0a", 9),
    (b"\x80\x0f\x04\0\x02\x01\x81", 9),
    (b"\x80\x0f\x05\0\x02\x01\x11\x20", 9),
    (b"\x90\x0f\0\x04\0\x02\x01\x01", 9),
];

fn bad_attributes() -> &'static [(&'static [u8], u8)] {
    &BAD_ATTRIBUTES
}

#[test]
fn a_bad_attribute_is_refused_where_it_stands(rt: HostRuntime) -> Result<(), Fail> {
    for (bad, subcode) in bad_attributes() {
        let alone = update_fault(rt.alloc(), b"", &[bad], b"\x21")?;
        assert_eq!(rt; alone, Some((3, *subcode, 23)));
        let behind = update_fault(rt.alloc(), b"\0", &[UNKNOWN, bad], b"")?;
        assert_eq!(rt; behind, Some((3, *subcode, 27)));
    }
    Ok(())
}

#[test]
fn the_first_bad_attribute_counts(rt: HostRuntime) -> Result<(), Fail> {
    for (bad, subcode) in bad_attributes() {
        let before = update_fault(rt.alloc(), b"", &[bad, b"\x40\x61\0"], b"")?;
        assert_eq!(rt; before, Some((3, *subcode, 23)));
        let behind = update_fault(rt.alloc(), b"", &[b"\x40\x61\0", bad], b"")?;
        assert_eq!(rt; behind, Some((3, 2, 23)));
    }
    Ok(())
}

// Types and the two highest bits of their flags.
static CLASSES: [(u8, u8); 10] = [
    (1, 1),
    (2, 1),
    (3, 1),
    (4, 2),
    (5, 1),
    (6, 1),
    (8, 3),
    (14, 2),
    (15, 2),
    (17, 3),
];

fn classes() -> &'static [(u8, u8)] {
    &CLASSES
}

#[test]
fn a_known_attribute_has_the_flags_of_its_type(rt: HostRuntime) -> Result<(), Fail> {
    for (kind, class) in classes() {
        for flags in [0x0fu8, 0x40, 0xa0, 0xc0] {
            let attribute = [flags, *kind, 1, 0xff];
            let fault = update_fault(rt.alloc(), b"", &[UNKNOWN, &attribute], b"")?;
            assert_eq!(rt; fault == Some((3, 4, 26)), flags / 64 != *class);
        }
    }
    Ok(())
}

// Attributes of which the last has the type of one before, and its place.
static REPEATS: [(&'static [&'static [u8]], u32); 8] = [
    (&[ORIGIN, ORIGIN], 27),
    (&[ORIGIN, UNKNOWN, b"\x40\x01\x01\x03"], 30),
    (&[ORIGIN, b"\xc0\x01\x01\0"], 27),
    (&[UNKNOWN, UNKNOWN], 26),
    (&[UNKNOWN, ORIGIN, b"\x80\x63\x01\0"], 30),
    (&[UNKNOWN, b"\x40\x63\0"], 26),
    (&[b"\xc0\x11\0", PATH, b"\xc0\x11\0"], 39),
    (&[b"\x80\x0f\x03\0\x07\x01", b"\x80\x0f\x03\0\x01\x01"], 29),
];

fn repeats() -> &'static [(&'static [&'static [u8]], u32)] {
    &REPEATS
}

#[test]
fn an_attribute_comes_once(rt: HostRuntime) -> Result<(), Fail> {
    for (attributes, place) in repeats() {
        let fault = update_fault(rt.alloc(), b"", attributes, b"")?;
        assert_eq!(rt; fault, Some((3, 1, *place)));
    }
    Ok(())
}

// Routes of IPv4 and IPv6, and of a family that isn't kept.
const REACH_V4: &[u8] = b"\x80\x0e\x0b\0\x01\x01\x04\xc0\0\x02\x07\0\x08\x0b";

const REACH_V6: &[u8] =
    b"\x80\x0e\x1a\0\x02\x01\x10\x20\x01\x0d\xb8\0\0\0\0\0\0\0\0\0\0\0\x07\0\x20\x20\x01\x0d\xb8";

const REACH_NONE: &[u8] = b"\x80\x0e\x15\0\x02\x01\x10\x20\x01\x0d\xb8\0\0\0\0\0\0\0\0\0\0\0\x07\0";

const REACH_OTHER: &[u8] = b"\x80\x0e\x07\0\x01\x02\xff\xff\xff\xff";

const UNREACH: &[u8] = b"\x80\x0f\x08\0\x02\x01\x20\x20\x01\x0d\xb8";

// Attributes, announced prefixes, and whether an attribute lacks.
static LACKING: [(&'static [&'static [u8]], &'static [u8], bool); 21] = [
    (&[], b"", false),
    (&[], b"\0", true),
    (&[ORIGIN, PATH, NEXT_HOP], b"\x08\x0a", false),
    (&[NEXT_HOP, PATH, ORIGIN], b"\x08\x0a", false),
    (&[PATH, NEXT_HOP], b"\x08\x0a", true),
    (&[ORIGIN, NEXT_HOP], b"\x08\x0a", true),
    (&[ORIGIN, PATH], b"\x08\x0a", true),
    (&[ORIGIN], b"", false),
    (&[REACH_V6], b"", true),
    (&[REACH_V6, ORIGIN], b"", true),
    (&[REACH_V6, PATH], b"", true),
    (&[REACH_V6, PATH, ORIGIN], b"", false),
    (&[REACH_V4], b"", true),
    (&[REACH_V4, PATH, ORIGIN], b"", false),
    (&[REACH_V4, PATH, ORIGIN], b"\x08\x0a", true),
    (&[REACH_NONE], b"", false),
    (&[REACH_NONE], b"\x08\x0a", true),
    (&[REACH_OTHER], b"", false),
    (&[REACH_OTHER, NEXT_HOP, PATH], b"\x08\x0a", true),
    (&[UNREACH], b"", false),
    (&[UNREACH, b"\xc0\x11\x06\x02\x01\0\0\xfc\0"], b"", false),
];

fn lacking() -> &'static [(&'static [&'static [u8]], &'static [u8], bool)] {
    &LACKING
}

#[test]
fn announced_prefixes_need_their_attributes(rt: HostRuntime) -> Result<(), Fail> {
    for (attributes, announced, lacks) in lacking() {
        let fault = update_fault(rt.alloc(), b"\x08\x0a", attributes, announced)?;
        let wanted = if *lacks { Some((3, 3, 19)) } else { None };
        assert_eq!(rt; fault, wanted);
    }
    let cut = update_fault(rt.alloc(), b"", &[], b"\x08")?;
    assert_eq!(rt; cut, Some((3, 10, 23)));
    Ok(())
}

fn append_number(number: Option<u32>, out: &mut Octets) -> Result<(), NoMemory> {
    out.push(b' ')?;
    match number {
        Some(number) => append_decimal(number, out),
        None => out.push(b'-'),
    }
}

// The prefixes: -PREFIX of each that is withdrawn, and +PREFIX>NEXT_HOP of each that is announced.
fn prefixes_line(alloc: Global, update: &Update) -> Result<Octets, NoMemory> {
    let mut line = Octets::new(alloc);
    for nlri in update.withdrawn.as_slice() {
        line.push(b'-')?;
        line.extend(AddressText::of_prefix(&nlri.prefix).as_slice())?;
        line.push(b' ')?;
    }
    for announce in update.announced.as_slice() {
        line.push(b'+')?;
        line.extend(AddressText::of_prefix(&announce.nlri.prefix).as_slice())?;
        line.push(b'>')?;
        line.extend(AddressText::of(&announce.next_hop).as_slice())?;
        line.push(b' ')?;
    }
    Ok(line)
}

// The attributes: origin, path, exit discriminator, preference and communities.
fn attributes_line(alloc: Global, update: &Update) -> Result<Octets, NoMemory> {
    let mut line = Octets::new(alloc);
    append_decimal(update.attrs.origin, &mut line)?;
    line.push(b' ')?;
    update.attrs.append_path_text(&mut line)?;
    append_number(update.attrs.med, &mut line)?;
    append_number(update.attrs.local_pref, &mut line)?;
    line.push(b' ')?;
    update.attrs.append_communities_text(&mut line)?;
    Ok(line)
}

// What a whole UPDATE says.
fn update_in(alloc: Global, octets: &[u8], agreed: &Agreed) -> Result<Update, Fail> {
    match read(alloc, octets, agreed)? {
        Ok(BgpMessage::Update(update)) => Ok(update),
        Ok(_) => Err("not an UPDATE".into()),
        Err(_) => Err("refused".into()),
    }
}

// What an UPDATE of these parts says.
fn update_of(
    alloc: Global,
    agreed: &Agreed,
    withdrawn: &[u8],
    attributes: &[&[u8]],
    announced: &[u8],
) -> Result<Update, Fail> {
    let body = body_of(alloc, withdrawn, attributes, announced)?;
    let octets = message(alloc, UPDATE, &[body.as_slice()])?;
    update_in(alloc, octets.as_slice(), agreed)
}

// Withdrawn prefixes, attributes, announced prefixes, and what they say of prefixes.
type Said = (
    &'static [u8],
    &'static [&'static [u8]],
    &'static [u8],
    &'static [u8],
);

static PREFIXES: [Said; 9] = [
    (b"", &[], b"", b""),
    (b"\x10\x0a\x01\0", &[], b"", b"-10.1.0.0/16 -0.0.0.0/0 "),
    (
        b"",
        &[ORIGIN, PATH, NEXT_HOP],
        b"\0\x07\x0b\x20\xc0\0\x02\x01\x19\xc0\0\x02\xff",
        b"+0.0.0.0/0>192.0.2.9 +10.0.0.0/7>192.0.2.9 +192.0.2.1/32>192.0.2.9 +192.0.2.128/25>192.0.2.9 ",
    ),
    (
        b"\x08\x0a",
        &[ORIGIN, PATH, NEXT_HOP],
        b"\x08\x0a",
        b"-10.0.0.0/8 +10.0.0.0/8>192.0.2.9 ",
    ),
    (
        b"",
        &[REACH_V4, NEXT_HOP, PATH, ORIGIN],
        b"\x08\x0a",
        b"+10.0.0.0/8>192.0.2.9 +11.0.0.0/8>192.0.2.7 ",
    ),
    (
        b"\x08\x0a",
        &[ORIGIN, REACH_V6, PATH, UNREACH],
        b"",
        b"-10.0.0.0/8 -2001:db8::/32 +2001:db8::/32>2001:db8::7 ",
    ),
    (
        b"",
        &[b"\x80\x0f\x05\0\x01\x01\x07\x0b"],
        b"",
        b"-10.0.0.0/7 ",
    ),
    (b"", &[b"\x80\x0f\x04\0\x02\x02\xff", REACH_OTHER], b"", b""),
    (b"", &[NEXT_HOP, REACH_NONE], b"", b""),
];

fn prefixes() -> &'static [Said] {
    &PREFIXES
}

#[test]
fn prefixes_in_their_order(rt: HostRuntime) -> Result<(), Fail> {
    for (withdrawn, attributes, announced, wanted) in prefixes() {
        let update = update_of(rt.alloc(), &WIDE, withdrawn, attributes, announced)?;
        let line = prefixes_line(rt.alloc(), &update)?;
        assert_eq!(rt; line.as_slice(), *wanted);
    }
    Ok(())
}

const HOP_V6: &[u8] = b"\x20\x01\x0d\xb8\0\0\0\0\0\0\0\0\0\0\0\x07";

const LINK_LOCAL: &[u8] = b"\xfe\x80\0\0\0\0\0\0\0\0\0\0\0\0\0\x09";

// The parts of MP_REACH_NLRI, and its routes.
static REACHES: [(&'static [&'static [u8]], &'static [u8]); 7] = [
    (
        &[b"\x80\x0e\x0c\0\x01\x01\x04\xc0\0\x02\x07\xff\x09\x0b\xff"],
        b"+11.128.0.0/9>192.0.2.7 ",
    ),
    (
        &[b"\x80\x0e\x17\0\x01\x01\x10", HOP_V6, b"\0\x08\x0b"],
        b"+11.0.0.0/8>2001:db8::7 ",
    ),
    (
        &[
            b"\x80\x0e\x27\0\x01\x01\x20",
            HOP_V6,
            LINK_LOCAL,
            b"\0\x08\x0b",
        ],
        b"+11.0.0.0/8>2001:db8::7 ",
    ),
    (
        &[
            b"\x90\x0e\0\x1b\0\x02\x01\x10",
            HOP_V6,
            b"\0\x21\x20\x01\x0d\xb8\xff",
        ],
        b"+2001:db8:8000::/33>2001:db8::7 ",
    ),
    (
        &[b"\x80\x0e\x26\0\x02\x01\x20", LINK_LOCAL, HOP_V6, b"\0\0"],
        b"+::/0>fe80::9 ",
    ),
    (
        &[
            b"\x80\x0e\x28\0\x02\x01\x10",
            HOP_V6,
            b"\0\x80",
            HOP_V6,
            b"\x01\x80",
        ],
        b"+2001:db8::7/128>2001:db8::7 +8000::/1>2001:db8::7 ",
    ),
    (&[b"\x80\x0e\x16\0\x02\x02\x10", HOP_V6, b"\0\0"], b""),
];

fn reaches() -> &'static [(&'static [&'static [u8]], &'static [u8])] {
    &REACHES
}

#[test]
fn a_next_hop_s_length_decides_its_family(rt: HostRuntime) -> Result<(), Fail> {
    for (parts, wanted) in reaches() {
        let reach = joined(rt.alloc(), parts)?;
        let attributes = [ORIGIN, PATH, reach.as_slice()];
        let update = update_of(rt.alloc(), &WIDE, b"", &attributes, b"")?;
        let line = prefixes_line(rt.alloc(), &update)?;
        assert_eq!(rt; line.as_slice(), *wanted);
    }
    Ok(())
}

static ATTRIBUTES: [(&'static [&'static [u8]], &'static [u8]); 11] = [
    (&[], b"0  - - "),
    (&[b"\x40\x01\x01\x01"], b"1  - - "),
    (&[b"\x7f\x01\0\x01\x02"], b"2  - - "),
    (&[b"\x80\x04\x04\0\0\0\x05"], b"0  5 - "),
    (&[b"\x40\x05\x04\xff\xff\xff\xff"], b"0  - 4294967295 "),
    (&[b"\xc0\x08\0"], b"0  - - "),
    (
        &[b"\xe0\x08\x08\xff\xff\xff\x01\xfc\0\0\x01"],
        b"0  - - 65535:65281_64512:1",
    ),
    (
        &[b"\xc0\x07\x08\0\0\xfc\0\xc0\0\x02\x01", UNKNOWN],
        b"0  - - ",
    ),
    (
        &[b"\x80\0\x02\x01\x02", b"\xc0\xff\x01\x01", ORIGIN],
        b"0  - - ",
    ),
    (&[ORIGIN, PATH, NEXT_HOP], b"0 64512_64513 - - "),
    (
        &[ORIGIN, PATH, NEXT_HOP, b"\x40\x06\0"],
        b"0 64512_64513 - - ",
    ),
];

fn attributes() -> &'static [(&'static [&'static [u8]], &'static [u8])] {
    &ATTRIBUTES
}

#[test]
fn what_attributes_say(rt: HostRuntime) -> Result<(), Fail> {
    for (attributes, wanted) in attributes() {
        let update = update_of(rt.alloc(), &WIDE, b"", attributes, b"")?;
        let line = attributes_line(rt.alloc(), &update)?;
        assert_eq!(rt; line.as_slice(), *wanted);
    }
    Ok(())
}

// AS_PATH with numbers of two octets: 64512 and twice the number that stands for a longer one; and one of segments of a confederation,
// a sequence and a set.
const SHORT: &[u8] = b"\x40\x02\x08\x02\x03\xfc\0\x5b\xa0\x5b\xa0";

const SEGMENTS: &[u8] =
    b"\x40\x02\x12\x03\x01\xfd\xe8\x02\x01\xfc\0\x01\x02\x5b\xa0\xfc\x01\x04\x01\xfd\xe9";

// AS4_PATH of one hop to four, of none, and of a set.
const ONE: &[u8] = b"\xc0\x11\x06\x02\x01\0\x01\0\0";

const TWO: &[u8] = b"\xc0\x11\x0c\x02\x01\0\x01\0\0\x02\x01\0\x01\0\x01";

const THREE: &[u8] = b"\xc0\x11\x0e\x02\x03\0\x01\0\0\0\x01\0\x01\0\x01\0\x02";

const FOUR: &[u8] = b"\xc0\x11\x12\x02\x04\0\x01\0\0\0\x01\0\x01\0\x01\0\x02\0\x01\0\x03";

const NONE: &[u8] = b"\xc0\x11\x06\x03\x01\0\x01\0\0";

const SET: &[u8] = b"\xc0\x11\x0a\x01\x02\0\x01\0\x01\0\x01\0\0";

const BOTH: &[u8] = b"\xc0\x11\x0c\x02\x01\0\x01\0\0\x04\x01\0\x01\0\x01";

static SHORT_PATHS: [(&'static [&'static [u8]], &'static [u8]); 19] = [
    (&[SHORT], b"64512_23456_23456"),
    (&[SHORT, ONE], b"64512_23456_65536"),
    (&[TWO, SHORT], b"64512_65536_65537"),
    (&[SHORT, THREE], b"65536_65537_65538"),
    (&[SHORT, FOUR], b"64512_23456_23456"),
    (&[SHORT, b"\xc0\x11\0"], b"64512_23456_23456"),
    (&[SHORT, NONE], b"64512_23456_23456"),
    (&[SHORT, SET], b"64512_23456_{65537_65536}"),
    (&[SHORT, BOTH], b"64512_23456_65536"),
    (
        &[SHORT, b"\xc0\x11\x05\x02\x01\0\x01\0"],
        b"64512_23456_23456",
    ),
    (&[SHORT, b"\xc0\x11\x02\x02\0"], b"64512_23456_23456"),
    (
        &[SHORT, b"\xc0\x11\x06\x05\x01\0\x01\0\0"],
        b"64512_23456_23456",
    ),
    (
        &[SHORT, b"\xc0\x11\x07\x02\x01\0\x01\0\0\0"],
        b"64512_23456_23456",
    ),
    (&[SEGMENTS], b"64512_{23456_64513}"),
    (&[SEGMENTS, SET], b"64512_{65537_65536}"),
    (&[SEGMENTS, TWO], b"65536_65537"),
    (&[SEGMENTS, THREE], b"64512_{23456_64513}"),
    (&[ONE], b""),
    (&[b"\x40\x02\0", ONE], b""),
];

fn short_paths() -> &'static [(&'static [&'static [u8]], &'static [u8])] {
    &SHORT_PATHS
}

#[test]
fn the_later_path_replaces_the_last_hops(rt: HostRuntime) -> Result<(), Fail> {
    for (attributes, wanted) in short_paths() {
        let update = update_of(rt.alloc(), &NARROW, b"", attributes, b"")?;
        let mut path = Octets::new(rt.alloc());
        update.attrs.append_path_text(&mut path)?;
        assert_eq!(rt; path.as_slice(), *wanted);
    }
    Ok(())
}

static LONG_PATHS: [(&'static [&'static [u8]], &'static [u8]); 7] = [
    (&[PATH], b"64512_64513"),
    (&[PATH, ONE], b"64512_64513"),
    (&[TWO, PATH], b"64512_64513"),
    (&[PATH, b"\xc0\x11\x01\0"], b"64512_64513"),
    (&[ONE], b""),
    (&[b"\x40\x02\0"], b""),
    (
        &[
            b"\x40\x02\x1a\x01\x02\0\x01\0\x01\0\x01\0\0\x04\x01\0\0\0\x07\x02\x02\xff\xff\xff\xff\0\0\0\0",
        ],
        b"{65537_65536}_4294967295_0",
    ),
];

fn long_paths() -> &'static [(&'static [&'static [u8]], &'static [u8])] {
    &LONG_PATHS
}

#[test]
fn a_path_of_long_numbers_stands(rt: HostRuntime) -> Result<(), Fail> {
    for (attributes, wanted) in long_paths() {
        let update = update_of(rt.alloc(), &WIDE, b"", attributes, b"")?;
        let mut path = Octets::new(rt.alloc());
        update.attrs.append_path_text(&mut path)?;
        assert_eq!(rt; path.as_slice(), *wanted);
    }
    Ok(())
}

// Whole messages but for their marker: 10.0.0.0/8 by 192.0.2.9, with the path 64512 23456 and AS4_PATH 131072; with the path 64512 64513;
// and with ATOMIC_AGGREGATE besides.
const MERGED: &[u8] = b"\0\x36\x02\0\0\0\x1d\x40\x01\x01\0\x40\x02\x06\x02\x02\xfc\0\x5b\xa0\
\x40\x03\x04\xc0\0\x02\x09\xc0\x11\x06\x02\x01\0\x02\0\0\x08\x0a";

const PLAIN: &[u8] = b"\0\x31\x02\0\0\0\x18\x40\x01\x01\0\x40\x02\x0a\x02\x02\0\0\xfc\0\0\0\xfc\x01\
\x40\x03\x04\xc0\0\x02\x09\x08\x0a";

const AGGREGATED: &[u8] =
    b"\0\x34\x02\0\0\0\x1b\x40\x01\x01\0\x40\x02\x0a\x02\x02\0\0\xfc\0\0\0\xfc\x01\
\x40\x03\x04\xc0\0\x02\x09\x40\x06\0\x08\x0a";

static WHOLE: [(&'static [u8], Agreed, &'static [u8]); 3] = [
    (MERGED, NARROW, b"0 64512_131072 - - "),
    (PLAIN, WIDE, b"0 64512_64513 - - "),
    (AGGREGATED, WIDE, b"0 64512_64513 - - "),
];

fn whole() -> &'static [(&'static [u8], Agreed, &'static [u8])] {
    &WHOLE
}

#[test]
fn what_whole_messages_say(rt: HostRuntime) -> Result<(), Fail> {
    for (octets, agreed, wanted) in whole() {
        let octets = joined(rt.alloc(), &[&[255; 16], octets])?;
        let update = update_in(rt.alloc(), octets.as_slice(), agreed)?;
        let attributes = attributes_line(rt.alloc(), &update)?;
        assert_eq!(rt; attributes.as_slice(), *wanted);
        let prefixes = prefixes_line(rt.alloc(), &update)?;
        assert_eq!(rt; prefixes.as_slice(), b"+10.0.0.0/8>192.0.2.9 ".as_slice());
    }
    Ok(())
}

#[test]
fn a_message_has_4096_octets_at_most(rt: HostRuntime) -> Result<(), Fail> {
    let mut announced = Octets::new(rt.alloc());
    for _ in 0..4049u32 {
        announced.push(0)?;
    }
    let attributes = [ORIGIN, PATH, NEXT_HOP];
    let longest = update_of(rt.alloc(), &WIDE, b"", &attributes, announced.as_slice())?;
    assert_eq!(rt; longest.announced.len(), 4049);
    announced.push(0)?;
    let fault = update_fault(rt.alloc(), b"", &attributes, announced.as_slice())?;
    assert_eq!(rt; fault, Some((1, 2, 16)));
    Ok(())
}
