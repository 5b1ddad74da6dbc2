use acct_types::{Addr, NoMemory, Octets, Rib, Side};
use pretag_map::{
    AgentMap, MapCause, MapFault, SamplingMap, TagFacts, TagMap, Tags, is_label, read_agent_map,
    read_map, read_sampling_map,
};
use std::alloc::Global;
use std::test::Fail;

const MOST: usize = 1_048_576;

#[derive(Clone, Copy)]
enum Kind {
    Tags,
    Agents,
    Rates,
}

/// A text with a fault: the line of the fault and its cause.
type Fault = (&'static [u8], u32, MapCause);

/// A text, what its rules are asked of, and the tags: `set_tag`, `set_tag2`, and the rule whose label it is.
type Query = (&'static [u8], TagFacts, (u64, u64, Option<u32>));

/// A text, an exporter, and its routes.
type Routed = (&'static [u8], Addr, Side, Rib);

/// A text, an exporter with both interfaces, and its rate.
type Rated = (&'static [u8], Addr, u64, u64, Option<u32>);

const EXPORTER: Addr = Addr::V4(0xc0000201);

const ROUTER: Addr = Addr::V4(0xc0000207);

const FACTS: TagFacts = TagFacts {
    exporter: EXPORTER,
    source_id: 1,
    in_iface: 3,
    out_iface: 4,
    src_as: 64500,
    dst_as: 64501,
    src: Addr::V4(0x0a000001),
    dst: Addr::V4(0x0b000001),
};

static TAG_FAULTS: [Fault; 53] = [
    (b"set_tag=1\nset_tag=2 \x80\n", 2, MapCause::NotText),
    (b"set_tag=1\x01", 1, MapCause::NotText),
    (b"set_label=\x7f", 1, MapCause::NotText),
    (b"set_tag=1\r", 1, MapCause::NotText),
    (b"set_tag=1\rip=192.0.2.1\n", 1, MapCause::NotText),
    (b"word \x1f nope=1\n", 1, MapCause::NotText),
    (b"x=1 word\n", 1, MapCause::NoEquals),
    (b"set_tag=1\n\n# 3\nset_tag = 1\n", 4, MapCause::NoEquals),
    (b"set_tag=1 set_tag=2 word", 1, MapCause::NoEquals),
    (b"what=1 ip=bad\n", 1, MapCause::UnknownKey),
    (b"=5 set_tag=1\n", 1, MapCause::UnknownKey),
    (b"set_tag=1 IP=192.0.2.1\n", 1, MapCause::UnknownKey),
    (b"set_tag=1 set_tag=2 nope=3\n", 1, MapCause::UnknownKey),
    (b"set_tag=1 bgp_ip=192.0.2.1\n", 1, MapCause::UnknownKey),
    (b"set_tag=1 sampling_rate=2\n", 1, MapCause::UnknownKey),
    (b"set_tag=1 set_tag=x\n", 1, MapCause::Repeated),
    (b"ip=bad set_tag=1 ip=192.0.2.1\n", 1, MapCause::Repeated),
    (b"set_tag=1\nset_tag=1 in=1 in=1\n", 2, MapCause::Repeated),
    (b"set_tag=1 ip=192.0.2\n", 1, MapCause::BadValue),
    (b"set_tag=1 ip=192.0.2.01\n", 1, MapCause::BadValue),
    (b"set_tag=1 ip=192.0.2.256\n", 1, MapCause::BadValue),
    (b"set_tag=1 ip=192.0.2.1/33\n", 1, MapCause::BadValue),
    (b"set_tag=1 ip=192.0.2.1/032\n", 1, MapCause::BadValue),
    (b"set_tag=1 ip=192.0.2.1/\n", 1, MapCause::BadValue),
    (b"set_tag=1 ip=/24\n", 1, MapCause::BadValue),
    (b"set_tag=1 ip=192.0.2.1/24/8\n", 1, MapCause::BadValue),
    (b"set_tag=1 ip=192.0.2.1/-1\n", 1, MapCause::BadValue),
    (b"set_tag=1 ip=::/129\n", 1, MapCause::BadValue),
    (b"set_tag=1 ip=::ffff:192.0.2.1\n", 1, MapCause::BadValue),
    (b"set_tag=1 ip=\n", 1, MapCause::BadValue),
    (b"set_tag=1 in=-1\n", 1, MapCause::BadValue),
    (b"set_tag=1 in=+1\n", 1, MapCause::BadValue),
    (b"set_tag=1 in=01\n", 1, MapCause::BadValue),
    (b"set_tag=1 in=\n", 1, MapCause::BadValue),
    (b"set_tag=1 in=0x1\n", 1, MapCause::BadValue),
    (
        b"set_tag=1 out=18446744073709551616\n",
        1,
        MapCause::BadValue,
    ),
    (b"set_tag=1 source_id=1.5\n", 1, MapCause::BadValue),
    (b"set_tag=1 src_as=a\n", 1, MapCause::BadValue),
    (b"set_tag=1 dst_as=1,2\n", 1, MapCause::BadValue),
    (b"set_tag=1 src_net=10/8\n", 1, MapCause::BadValue),
    (b"set_tag=1 dst_net=10.0.0.0/8/\n", 1, MapCause::BadValue),
    (b"set_tag=18446744073709551616", 1, MapCause::BadValue),
    (b"set_tag==1", 1, MapCause::BadValue),
    (b"set_tag2=x", 1, MapCause::BadValue),
    (b"set_label=", 1, MapCause::BadValue),
    (b"set_label=a,b", 1, MapCause::BadValue),
    (b"set_label=a\"b", 1, MapCause::BadValue),
    (b"set_label=a=b", 1, MapCause::BadValue),
    (b"set_label=a\\b", 1, MapCause::BadValue),
    (b"ip=bad\n", 1, MapCause::BadValue),
    (b"ip=192.0.2.1", 1, MapCause::NoAction),
    (
        b"# 1\nset_tag=1\nin=3 out=4 src_net=10.0.0.0/8\nset_tag=\n",
        3,
        MapCause::NoAction,
    ),
    (b"set_tag=1\nip=bad\nword\n", 2, MapCause::BadValue),
];

static AGENT_FAULTS: [Fault; 9] = [
    (b"ip=192.0.2.1\n", 1, MapCause::MissingKey),
    (b"bgp_ip=192.0.2.1\n", 1, MapCause::MissingKey),
    (b"acct_peer=192.0.2.1\n", 1, MapCause::MissingKey),
    (b"ip=192.0.2.1 bgp_ip=192.0.2.0/24", 1, MapCause::BadValue),
    (
        b"ip=192.0.2.1 acct_peer=192.0.2.1/32",
        1,
        MapCause::BadValue,
    ),
    (
        b"ip=192.0.2.1 bgp_ip=192.0.2.7 ip=192.0.2.2",
        1,
        MapCause::Repeated,
    ),
    (b"ip=192.0.2.1 set_tag=1", 1, MapCause::UnknownKey),
    (b"ip=192.0.2.1 bgp_ip", 1, MapCause::NoEquals),
    (b"ip=192.0.2.1 bgp_ip=192.0.2.7\n\x00", 2, MapCause::NotText),
];

static RATE_FAULTS: [Fault; 10] = [
    (b"ip=192.0.2.1 in=3", 1, MapCause::MissingKey),
    (b"sampling_rate=1024", 1, MapCause::MissingKey),
    (
        b"sampling_rate=1 ip=192.0.2.1\nin=3",
        2,
        MapCause::MissingKey,
    ),
    (b"sampling_rate=0 ip=192.0.2.1", 1, MapCause::BadValue),
    (
        b"sampling_rate=4294967296 ip=192.0.2.1",
        1,
        MapCause::BadValue,
    ),
    (b"sampling_rate=x", 1, MapCause::BadValue),
    (
        b"sampling_rate=1 sampling_rate=1 ip=192.0.2.1",
        1,
        MapCause::Repeated,
    ),
    (
        b"sampling_rate=1 ip=192.0.2.1 src_as=1",
        1,
        MapCause::UnknownKey,
    ),
    (b"sampling_rate=1 ip=192.0.2.1 in", 1, MapCause::NoEquals),
    (
        b"sampling_rate=1 ip=192.0.2.1 in=\x80",
        1,
        MapCause::NotText,
    ),
];

static QUERIES: [Query; 59] = [
    (b"", FACTS, (0, 0, None)),
    (
        b"set_tag=5 ip=192.0.2.9\nset_tag=7 ip=192.0.2.1\nset_tag=9",
        FACTS,
        (7, 0, None),
    ),
    (
        b"set_tag=5 ip=192.0.2.9\nset_tag=7 ip=192.0.2.1\nset_tag=9",
        TagFacts {
            exporter: Addr::V4(0xc0000209),
            ..FACTS
        },
        (5, 0, None),
    ),
    (
        b"set_tag=5 ip=192.0.2.9\nset_tag=7 ip=192.0.2.1\nset_tag=9",
        TagFacts {
            exporter: Addr::V4(0xc0000202),
            ..FACTS
        },
        (9, 0, None),
    ),
    (
        b"set_tag=5 ip=192.0.2.9\nset_tag=7 ip=192.0.2.1\nset_tag=9",
        TagFacts {
            exporter: Addr::V6(0xc0000201),
            ..FACTS
        },
        (9, 0, None),
    ),
    (
        b"set_tag=1 ip=192.0.2.9\nset_tag=2 ip=192.0.2.9",
        FACTS,
        (0, 0, None),
    ),
    (b"set_tag=1 set_tag2=2 set_label=a", FACTS, (1, 2, Some(1))),
    (
        b"# 1\nset_tag=1 in=9\n\nset_label=a\n",
        FACTS,
        (0, 0, Some(2)),
    ),
    (b"set_label=a in=9\nset_tag=4", FACTS, (4, 0, None)),
    (b"set_tag2=6", FACTS, (0, 6, None)),
    (
        b"set_tag=18446744073709551615",
        FACTS,
        (18446744073709551615, 0, None),
    ),
    (b"set_tag=1 ip=0.0.0.0/0", FACTS, (1, 0, None)),
    (
        b"set_tag=1 ip=0.0.0.0/0",
        TagFacts {
            exporter: Addr::V6(0),
            ..FACTS
        },
        (0, 0, None),
    ),
    (b"set_tag=1 ip=::/0", FACTS, (0, 0, None)),
    (
        b"set_tag=1 ip=::/0",
        TagFacts {
            exporter: Addr::V6(0xffffffffffffffffffffffffffffffff),
            ..FACTS
        },
        (1, 0, None),
    ),
    (b"set_tag=1 ip=192.0.2.1/32", FACTS, (1, 0, None)),
    (
        b"set_tag=1 ip=192.0.2.1/32",
        TagFacts {
            exporter: Addr::V4(0xc0000200),
            ..FACTS
        },
        (0, 0, None),
    ),
    (b"set_tag=1 ip=192.0.2.0/31", FACTS, (1, 0, None)),
    (
        b"set_tag=1 ip=192.0.2.0/31",
        TagFacts {
            exporter: Addr::V4(0xc0000202),
            ..FACTS
        },
        (0, 0, None),
    ),
    (b"set_tag=1 ip=192.0.3.77/23", FACTS, (1, 0, None)),
    (b"set_tag=1 ip=192.0.4.0/23", FACTS, (0, 0, None)),
    (b"set_tag=1 ip=128.0.0.0/1", FACTS, (1, 0, None)),
    (b"set_tag=1 ip=0.0.0.0/1", FACTS, (0, 0, None)),
    (
        b"set_tag=1 src_net=2001:db8::1/128",
        TagFacts {
            src: Addr::V6(0x20010db8000000000000000000000001),
            ..FACTS
        },
        (1, 0, None),
    ),
    (
        b"set_tag=1 src_net=2001:db8::1/128",
        TagFacts {
            src: Addr::V6(0x20010db8000000000000000000000000),
            ..FACTS
        },
        (0, 0, None),
    ),
    (
        b"set_tag=1 src_net=2001:db8::/127",
        TagFacts {
            src: Addr::V6(0x20010db8000000000000000000000001),
            ..FACTS
        },
        (1, 0, None),
    ),
    (
        b"set_tag=1 src_net=2001:db8::/32",
        TagFacts {
            src: Addr::V6(0x20010db8800000000000000000000000),
            ..FACTS
        },
        (1, 0, None),
    ),
    (
        b"set_tag=1 src_net=2001:db8::/32",
        TagFacts {
            src: Addr::V6(0x20010db9000000000000000000000000),
            ..FACTS
        },
        (0, 0, None),
    ),
    (b"set_tag=1 src_net=::/0", FACTS, (0, 0, None)),
    (b"set_tag=1 in=3", FACTS, (1, 0, None)),
    (b"set_tag=1 in=4", FACTS, (0, 0, None)),
    (b"set_tag=1 out=4", FACTS, (1, 0, None)),
    (b"set_tag=1 out=3", FACTS, (0, 0, None)),
    (b"set_tag=1 source_id=1", FACTS, (1, 0, None)),
    (b"set_tag=1 source_id=0", FACTS, (0, 0, None)),
    (
        b"set_tag=1 source_id=4294967296",
        TagFacts {
            source_id: 0,
            ..FACTS
        },
        (0, 0, None),
    ),
    (b"set_tag=1 src_as=64500", FACTS, (1, 0, None)),
    (b"set_tag=1 src_as=64501", FACTS, (0, 0, None)),
    (b"set_tag=1 dst_as=64501", FACTS, (1, 0, None)),
    (b"set_tag=1 dst_as=64500", FACTS, (0, 0, None)),
    (b"set_tag=1 src_net=10.0.0.0/8", FACTS, (1, 0, None)),
    (b"set_tag=1 src_net=11.0.0.0/8", FACTS, (0, 0, None)),
    (b"set_tag=1 dst_net=11.0.0.0/8", FACTS, (1, 0, None)),
    (b"set_tag=1 dst_net=10.0.0.0/8", FACTS, (0, 0, None)),
    (b"set_tag=1 in=3 out=5", FACTS, (0, 0, None)),
    (
        b"set_tag=1 in=3 out=4 src_net=10.0.0.1 dst_net=11.0.0.2",
        FACTS,
        (0, 0, None),
    ),
    (
        b"set_tag=1 in=3 out=4 source_id=1 src_as=64500 dst_as=64501 ip=192.0.2.1 src_net=10.0.0.1 dst_net=11.0.0.1",
        FACTS,
        (1, 0, None),
    ),
    (
        b"set_tag=1 in=0 out=0 src_as=0 dst_as=0 src_net=0.0.0.0 dst_net=0.0.0.0",
        TagFacts {
            in_iface: 0,
            out_iface: 0,
            src_as: 0,
            dst_as: 0,
            src: Addr::V4(0),
            dst: Addr::V4(0),
            ..FACTS
        },
        (1, 0, None),
    ),
    (b"set_tag=1 in=0", FACTS, (0, 0, None)),
    (b"\n \t \n! \x80 set_tag\n# x\n \t!x\n", FACTS, (0, 0, None)),
    (b"set_tag=1\r\nset_tag=2\r\n", FACTS, (1, 0, None)),
    (b" \t set_tag=1 \t ip=192.0.2.1\t", FACTS, (1, 0, None)),
    (
        b"set_tag=1 in=0 out=18446744073709551615 source_id=1 src_as=2 dst_as=3 src_net=10.0.0.0/8 dst_net=2001:db8::/32 ip=192.0.2.0/24 set_tag2=4 set_label=x\n",
        TagFacts {
            in_iface: 0,
            out_iface: u64::MAX,
            src_as: 2,
            dst_as: 3,
            dst: Addr::V6(0x2001_0db8 << 96),
            ..FACTS
        },
        (1, 4, Some(1)),
    ),
    (b"set_label=it's\n", FACTS, (0, 0, Some(1))),
    (b"set_tag2=18446744073709551615", FACTS, (0, u64::MAX, None)),
    (
        b"ip=::/0 set_tag=1\nip=::1/128 set_tag=2\nip=192.0.2.9/32 set_tag=3\nip=192.0.2.77/24 set_tag=4\nip=0.0.0.0/0 set_tag=5\n",
        FACTS,
        (4, 0, None),
    ),
    (
        b"ip=::/0 set_tag=1\nip=::1/128 set_tag=2\nip=192.0.2.9/32 set_tag=3\nip=192.0.2.77/24 set_tag=4\nip=0.0.0.0/0 set_tag=5\n",
        TagFacts {
            exporter: Addr::V4(1),
            ..FACTS
        },
        (5, 0, None),
    ),
    (
        b"ip=::/0 set_tag=1\nip=::1/128 set_tag=2\nip=192.0.2.9/32 set_tag=3\nip=192.0.2.77/24 set_tag=4\nip=0.0.0.0/0 set_tag=5\n",
        TagFacts {
            exporter: Addr::V6(1),
            ..FACTS
        },
        (1, 0, None),
    ),
    (
        b"ip=::/0 set_tag=1\nip=::1/128 set_tag=2\nip=192.0.2.9/32 set_tag=3\nip=192.0.2.77/24 set_tag=4\nip=0.0.0.0/0 set_tag=5\n",
        TagFacts {
            exporter: Addr::V4(0xc0000209),
            ..FACTS
        },
        (3, 0, None),
    ),
];

static ROUTES: [Routed; 10] = [
    (
        b"bgp_ip=192.0.2.7 ip=192.0.2.1\nip=192.0.2.0/24 bgp_ip=::1 acct_peer=198.51.100.2\n",
        EXPORTER,
        Side::Bgp,
        Rib::Bgp(ROUTER),
    ),
    (
        b"bgp_ip=192.0.2.7 ip=192.0.2.1\nip=192.0.2.0/24 bgp_ip=::1 acct_peer=198.51.100.2\n",
        EXPORTER,
        Side::Bmp,
        Rib::Bmp(ROUTER, None),
    ),
    (
        b"bgp_ip=192.0.2.7 ip=192.0.2.1\nip=192.0.2.0/24 bgp_ip=::1 acct_peer=198.51.100.2\n",
        Addr::V4(0xc0000202),
        Side::Bgp,
        Rib::Bgp(Addr::V6(1)),
    ),
    (
        b"bgp_ip=192.0.2.7 ip=192.0.2.1\nip=192.0.2.0/24 bgp_ip=::1 acct_peer=198.51.100.2\n",
        Addr::V4(0xc0000202),
        Side::Bmp,
        Rib::Bmp(Addr::V6(1), Some(Addr::V4(0xc6336402))),
    ),
    (
        b"bgp_ip=192.0.2.7 ip=192.0.2.1\nip=192.0.2.0/24 bgp_ip=::1 acct_peer=198.51.100.2\n",
        Addr::V6(0xc0000201),
        Side::Bgp,
        Rib::Bgp(Addr::V6(0xc0000201)),
    ),
    (
        b"bgp_ip=192.0.2.7 ip=192.0.2.1\nip=192.0.2.0/24 bgp_ip=::1 acct_peer=198.51.100.2\n",
        Addr::V6(0xc0000201),
        Side::Bmp,
        Rib::Bmp(Addr::V6(0xc0000201), None),
    ),
    (
        b"bgp_ip=192.0.2.7 ip=192.0.2.0/24 acct_peer=2001:db8::1\n! x\nip=::/0 bgp_ip=::1",
        EXPORTER,
        Side::Bgp,
        Rib::Bgp(ROUTER),
    ),
    (
        b"bgp_ip=192.0.2.7 ip=192.0.2.0/24 acct_peer=2001:db8::1\n! x\nip=::/0 bgp_ip=::1",
        EXPORTER,
        Side::Bmp,
        Rib::Bmp(ROUTER, Some(Addr::V6((0x2001_0db8 << 96) + 1))),
    ),
    (
        b"bgp_ip=192.0.2.7 ip=192.0.2.0/24 acct_peer=2001:db8::1\n! x\nip=::/0 bgp_ip=::1",
        Addr::V6(0xc0000201),
        Side::Bmp,
        Rib::Bmp(Addr::V6(1), None),
    ),
    (b"", EXPORTER, Side::Bgp, Rib::Bgp(EXPORTER)),
];

static RATES: [Rated; 10] = [
    (
        b"sampling_rate=1024 ip=192.0.2.1 in=3\nsampling_rate=7 ip=192.0.2.0/24 out=4\nsampling_rate=8 ip=::/0\nsampling_rate=9 ip=192.0.2.1 in=0 out=0\n",
        EXPORTER,
        3,
        4,
        Some(1024),
    ),
    (
        b"sampling_rate=1024 ip=192.0.2.1 in=3\nsampling_rate=7 ip=192.0.2.0/24 out=4\nsampling_rate=8 ip=::/0\nsampling_rate=9 ip=192.0.2.1 in=0 out=0\n",
        EXPORTER,
        4,
        4,
        Some(7),
    ),
    (
        b"sampling_rate=1024 ip=192.0.2.1 in=3\nsampling_rate=7 ip=192.0.2.0/24 out=4\nsampling_rate=8 ip=::/0\nsampling_rate=9 ip=192.0.2.1 in=0 out=0\n",
        Addr::V4(0xc0000209),
        3,
        4,
        Some(7),
    ),
    (
        b"sampling_rate=1024 ip=192.0.2.1 in=3\nsampling_rate=7 ip=192.0.2.0/24 out=4\nsampling_rate=8 ip=::/0\nsampling_rate=9 ip=192.0.2.1 in=0 out=0\n",
        EXPORTER,
        4,
        3,
        None,
    ),
    (
        b"sampling_rate=1024 ip=192.0.2.1 in=3\nsampling_rate=7 ip=192.0.2.0/24 out=4\nsampling_rate=8 ip=::/0\nsampling_rate=9 ip=192.0.2.1 in=0 out=0\n",
        EXPORTER,
        0,
        0,
        Some(9),
    ),
    (
        b"sampling_rate=1024 ip=192.0.2.1 in=3\nsampling_rate=7 ip=192.0.2.0/24 out=4\nsampling_rate=8 ip=::/0\nsampling_rate=9 ip=192.0.2.1 in=0 out=0\n",
        Addr::V6(0xc0000201),
        3,
        4,
        Some(8),
    ),
    (
        b"sampling_rate=1 ip=192.0.2.1\nsampling_rate=4294967295 ip=::/0 out=4\n",
        EXPORTER,
        3,
        4,
        Some(1),
    ),
    (
        b"sampling_rate=1 ip=192.0.2.1\nsampling_rate=4294967295 ip=::/0 out=4\n",
        Addr::V6(0xc0000201),
        3,
        4,
        Some(u32::MAX),
    ),
    (
        b"sampling_rate=1 ip=192.0.2.1\nsampling_rate=4294967295 ip=::/0 out=4\n",
        Addr::V6(0xc0000201),
        3,
        5,
        None,
    ),
    (b"", EXPORTER, 0, 0, None),
];

// The proof of a test needn't read the tables.
fn faults(kind: Kind) -> &'static [Fault] {
    match kind {
        Kind::Tags => &TAG_FAULTS,
        Kind::Agents => &AGENT_FAULTS,
        Kind::Rates => &RATE_FAULTS,
    }
}

fn queries() -> &'static [Query] {
    &QUERIES
}

fn routes() -> &'static [Routed] {
    &ROUTES
}

fn rates() -> &'static [Rated] {
    &RATES
}

fn tag_map(alloc: Global, text: &[u8]) -> Result<TagMap, Fail> {
    if text.len() > MOST {
        return Err(Fail::from("too long"));
    }
    Ok(read_map(alloc, text)?)
}

fn agent_map(alloc: Global, text: &[u8]) -> Result<AgentMap, Fail> {
    if text.len() > MOST {
        return Err(Fail::from("too long"));
    }
    Ok(read_agent_map(alloc, text)?)
}

fn sampling_map(alloc: Global, text: &[u8]) -> Result<SamplingMap, Fail> {
    if text.len() > MOST {
        return Err(Fail::from("too long"));
    }
    Ok(read_sampling_map(alloc, text)?)
}

fn fault_of(alloc: Global, kind: Kind, text: &[u8]) -> Result<Option<MapFault>, Fail> {
    if text.len() > MOST {
        return Err(Fail::from("too long"));
    }
    Ok(match kind {
        Kind::Tags => read_map(alloc, text).err(),
        Kind::Agents => read_agent_map(alloc, text).err(),
        Kind::Rates => read_sampling_map(alloc, text).err(),
    })
}

#[test]
fn maps_have_their_causes(rt: HostRuntime) -> Result<(), Fail> {
    for kind in [Kind::Tags, Kind::Agents, Kind::Rates] {
        for (index, (text, line, cause)) in faults(kind).iter().enumerate() {
            let wanted = MapFault::At {
                line: *line,
                cause: *cause,
            };
            let found = fault_of(rt.alloc(), kind, text)?;
            assert_eq!(rt; found, Some(wanted), "map {index}");
        }
    }
    Ok(())
}

#[test]
fn records_are_tagged_by_the_first_rule_that_holds(rt: HostRuntime) -> Result<(), Fail> {
    for (index, (text, facts, (tag, tag2, label))) in queries().iter().enumerate() {
        let map = tag_map(rt.alloc(), text)?;
        let wanted = Tags {
            tag: *tag,
            tag2: *tag2,
            label: *label,
        };
        assert_eq!(rt; map.tag(facts), wanted, "query {index}");
    }
    Ok(())
}

// So many rules among empty lines and comments, and a last line.
fn many_rules(alloc: Global, count: u32, last: &[u8]) -> Result<Octets, NoMemory> {
    let mut text = Octets::new(alloc);
    for _ in 0..count {
        text.extend(b"! set_tag=1\n\nset_tag=1 in=9\n")?;
    }
    text.extend(last)?;
    Ok(text)
}

#[test]
fn a_map_has_at_most_4096_rules(rt: HostRuntime) -> Result<(), Fail> {
    let at = |cause| Some(MapFault::At { line: 12289, cause });
    for (last, wanted) in [
        (b"".as_slice(), None),
        (b"! set_tag=1".as_slice(), None),
        (b"set_tag=1".as_slice(), at(MapCause::TooManyRules)),
        (b"in=1".as_slice(), at(MapCause::NoAction)),
        (b"set_tag=1 in".as_slice(), at(MapCause::NoEquals)),
    ] {
        let text = many_rules(rt.alloc(), 4096, last)?;
        assert_eq!(rt; fault_of(rt.alloc(), Kind::Tags, text.as_slice())?, wanted);
    }
    Ok(())
}

#[test]
fn rule_4096_has_its_number(rt: HostRuntime) -> Result<(), Fail> {
    let text = many_rules(rt.alloc(), 4095, b"set_label=last")?;
    let map = tag_map(rt.alloc(), text.as_slice())?;
    assert_eq!(rt; map.tag(&FACTS).label, Some(4096));
    assert!(rt; has_label(&map, 4096, b"last"));
    Ok(())
}

fn has_label(map: &TagMap, rule: u32, words: &[u8]) -> bool {
    match map.label(rule) {
        Some(label) => label.as_slice() == words,
        None => false,
    }
}

#[test]
fn labels_are_those_of_their_rules(rt: HostRuntime) -> Result<(), Fail> {
    let map = tag_map(
        rt.alloc(),
        b"set_label=a\n# x\nset_tag=1\nset_tag=2 set_label=it's\n",
    )?;
    assert!(rt; map.label(0).is_none());
    assert!(rt; has_label(&map, 1, b"a"));
    assert!(rt; map.label(2).is_none());
    assert!(rt; has_label(&map, 3, b"it's"));
    assert!(rt; map.label(4).is_none());
    assert!(rt; map.label(u32::MAX).is_none());
    Ok(())
}

#[test]
fn a_label_has_at_most_64_characters(rt: HostRuntime) -> Result<(), Fail> {
    let mut text = Octets::new(rt.alloc());
    text.extend(b"set_label=")?;
    text.extend(&[b'a'; 64])?;
    let map = tag_map(rt.alloc(), text.as_slice())?;
    assert!(rt; has_label(&map, 1, &[b'a'; 64]));
    text.push(b'a')?;
    let fault = MapFault::At {
        line: 1,
        cause: MapCause::BadValue,
    };
    assert_eq!(rt;
        fault_of(rt.alloc(), Kind::Tags, text.as_slice())?,
        Some(fault)
    );
    Ok(())
}

#[test]
fn rates_are_those_of_the_first_line_that_holds(rt: HostRuntime) -> Result<(), Fail> {
    for (index, (text, exporter, in_iface, out_iface, wanted)) in rates().iter().enumerate() {
        let map = sampling_map(rt.alloc(), text)?;
        assert_eq!(rt;
            map.rate(exporter, *in_iface, *out_iface),
            *wanted,
            "rate {index}"
        );
    }
    Ok(())
}

#[test]
fn routes_are_those_that_the_first_line_says(rt: HostRuntime) -> Result<(), Fail> {
    for (index, (text, exporter, side, wanted)) in routes().iter().enumerate() {
        let map = agent_map(rt.alloc(), text)?;
        assert_eq!(rt; map.rib(exporter, *side), *wanted, "route {index}");
    }
    Ok(())
}

#[test]
fn empty_maps_say_nothing(rt: HostRuntime) {
    let none = Tags {
        tag: 0,
        tag2: 0,
        label: None,
    };
    assert_eq!(rt; TagMap::empty(rt.alloc()).tag(&FACTS), none);
    assert_eq!(rt; SamplingMap::empty(rt.alloc()).rate(&EXPORTER, 0, 0), None);
    assert_eq!(rt;
        AgentMap::empty(rt.alloc()).rib(&EXPORTER, Side::Bgp),
        Rib::Bgp(EXPORTER)
    );
}

#[test]
fn faults_are_printed(rt: HostRuntime) -> Result<(), Fail> {
    let fault = MapFault::At {
        line: 7,
        cause: MapCause::TooManyRules,
    };
    let text = fault.to_string(rt.alloc())?;
    assert!(rt; text.as_str() == "line 7: too-many-rules");
    Ok(())
}

#[test]
fn knows_labels(rt: HostRuntime) {
    let long = [b'a'; 65];
    for (words, want) in [
        (b"x".as_slice(), true),
        (b"!#$%&'()*+-./:;<>?@[]^_`{|}~".as_slice(), true),
        (&long[..64], true),
        (&long[..], false),
        (b"".as_slice(), false),
        (b"a b".as_slice(), false),
        (b"a,b".as_slice(), false),
        (b"a\"b".as_slice(), false),
        (b"a=b".as_slice(), false),
        (b"a\\b".as_slice(), false),
        (b"a\tb".as_slice(), false),
        (b"a\x7fb".as_slice(), false),
        (b"\xc3\xa4".as_slice(), false),
    ] {
        assert_eq!(rt; is_label(words), want);
    }
}
