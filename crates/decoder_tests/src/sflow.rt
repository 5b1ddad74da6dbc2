use acct_types::{Addr, Counts, FlowRecord, List, NoMemory};
use fixtures::joined;
use sflow_in::{
    Cause, HeaderFault, HeaderFields, NoticeCause, RawDecoded, RawRecord, Undecodable,
    decode_sflow, read_sampled_header,
};
use std::alloc::Global;
use std::test::Fail;

const EXPORTER: Addr = Addr::V4(0xc633_6401);

const FIRST: Addr = Addr::V6(0x2001_0db8_0000_0000_0000_0000_0000_0001);

const SECOND: Addr = Addr::V6(0x2001_0db8_0000_0000_0000_0000_0000_0002);

// Ethernet with a tag of VLAN 100, IPv6 with a payload of 60 octets, and the first 8 of UDP
const TAGGED: [u8; 66] = [
    2, 0, 0, 0, 0, 2, // destination
    2, 0, 0, 0, 0, 1, // source
    0x81, 0, 0x20, 100, // tag, of priority 1
    0x86, 0xdd, // type
    0x6b, 0x80, 0, 0, // version, traffic class 0xb8, flow label
    0, 60, 17, 64, // payload length, next header, hop limit
    0x20, 1, 0x0d, 0xb8, 0, 0, 0, 0, 0, 0, 0, 0, 0, 0, 0, 1, // source
    0x20, 1, 0x0d, 0xb8, 0, 0, 0, 0, 0, 0, 0, 0, 0, 0, 0, 2, // destination
    0x10, 0, 0, 53, 0, 60, 0, 0, // UDP from 4096 to 53
];

// IPv4 from 10.0.0.1 to 10.0.0.2 with a total length of 84, and the first 8 octets of TCP
const IPV4: [u8; 28] = [
    0x45, 32, 0, 84, 0, 1, 0x40, 0, 64, 6, 0, 0, 10, 0, 0, 1, 10, 0, 0, 2, // IPv4
    0x12, 0x34, 0, 80, 0, 0, 0, 9, // ports, sequence
];

// an ARP request
const ARP: [u8; 42] = [
    255, 255, 255, 255, 255, 255, 2, 0, 0, 0, 0, 1, 8, 6, 0, 1, 8, 0, 6, 4, 0, 1, 2, 0, 0, 0, 0, 1,
    10, 0, 0, 1, 0, 0, 0, 0, 0, 0, 10, 0, 0, 2,
];

// 10.0.0.1 to 10.0.0.2, 1,500 octets of UDP
const ADDRESSES: &[u8] =
    b"\0\0\x05\xdc\0\0\0\x11\x0a\0\0\x01\x0a\0\0\x02\0\0\x04\0\0\0\0\x35\0\0\0\0\0\0\0\x08";

// the record of those, but for its body
const ADDRESSES_HEAD: &[u8] = b"\0\0\0\x03\0\0\0\x20";

// the record of a sampled header of 66 octets, but for it and its padding
const TAGGED_HEAD: &[u8] = b"\0\0\0\x01\0\0\0\x52\0\0\0\x01\0\0\0\x7a\0\0\0\x04\0\0\0\x42";

// the same of one of 28 octets, which begins with IPv4
const IPV4_HEAD: &[u8] = b"\0\0\0\x01\0\0\0\x2c\0\0\0\x0b\0\0\x05\xdc\0\0\0\x12\0\0\0\x1c";

// records of headers of no octet, of IPv4 and of another protocol
const CUT: &[u8] = b"\0\0\0\x01\0\0\0\x10\0\0\0\x0b\0\0\0\0\0\0\0\0\0\0\0\0";

const NOT_IP: &[u8] = b"\0\0\0\x01\0\0\0\x10\0\0\0\x02\0\0\0\0\0\0\0\0\0\0\0\0";

// records of VLANs and of masks
const VLAN: &[u8] = b"\0\0\x03\xe9\0\0\0\x10\0\0\x10\x05\0\0\0\0\0\0\0\x07\0\0\0\0";

const OTHER_VLAN: &[u8] = b"\0\0\x03\xe9\0\0\0\x10\0\0\0\x06\0\0\0\0\0\0\0\x08\0\0\0\0";

const MASKS: &[u8] = b"\0\0\x03\xea\0\0\0\x0c\0\0\0\0\0\0\0\x18\0\0\0\x10";

const OTHER_MASKS: &[u8] = b"\0\0\x03\xea\0\0\0\x10\0\0\0\x01\xc0\0\x02\x63\0\0\0\x08\0\0\0\x09";

// a record of another format, and its padding
const ODD: &[u8] = b"\0\0\x10\x01\0\0\0\x03odd\0";

// a sample of counters
const COUNTERS: &[u8] = b"\0\0\0\x02\0\0\0\x0c\0\0\0\0\0\0\0\0\0\0\0\0";

const ZEROS: [u8; 44] = [0; 44];

fn length_of(octets: &List<u8>) -> u32 {
    u32::try_from(octets.len()).unwrap_or(0)
}

// a sample or a record of one: its format, its length and its body, padded
fn piece(alloc: Global, format: u32, parts: &[&[u8]]) -> Result<List<u8>, NoMemory> {
    let body = joined(alloc, parts)?;
    let length = length_of(&body);
    let padding = (4 - length % 4) % 4;
    joined(
        alloc,
        &[
            &format.to_be_bytes(),
            &length.to_be_bytes(),
            body.as_slice(),
            &ZEROS[..padding as usize],
        ],
    )
}

// a flow sample from interface 3 to several
fn flow_sample(
    alloc: Global,
    rate: u32,
    count: u32,
    records: &[&[u8]],
) -> Result<List<u8>, NoMemory> {
    let records = joined(alloc, records)?;
    let parts: [&[u8]; 7] = [
        &[0, 0, 0, 1, 0, 0, 0, 3],
        &rate.to_be_bytes(),
        &[0, 0, 2, 0, 0, 0, 0, 0],
        &[0, 0, 0, 3],
        &[0x80, 0, 0, 2],
        &count.to_be_bytes(),
        records.as_slice(),
    ];
    piece(alloc, 1, &parts)
}

// an expanded flow sample from interface 2^30 + 5 to an interface of another format
fn expanded_sample(
    alloc: Global,
    rate: u32,
    count: u32,
    records: &[&[u8]],
) -> Result<List<u8>, NoMemory> {
    let records = joined(alloc, records)?;
    let parts: [&[u8]; 7] = [
        &[0, 0, 0, 1, 0, 0, 0, 0, 0, 0, 0, 3],
        &rate.to_be_bytes(),
        &[0, 0, 2, 0, 0, 0, 0, 0],
        &[0, 0, 0, 0, 0x40, 0, 0, 5],
        &[0, 0, 0, 1, 0, 0, 0, 7],
        &count.to_be_bytes(),
        records.as_slice(),
    ];
    piece(alloc, 3, &parts)
}

// a datagram of agent 192.0.2.1 and sub-agent 7
fn datagram(alloc: Global, count: u32, samples: &[&[u8]]) -> Result<List<u8>, NoMemory> {
    let samples = joined(alloc, samples)?;
    joined(
        alloc,
        &[
            &[0, 0, 0, 5, 0, 0, 0, 1, 192, 0, 2, 1],
            &[0, 0, 0, 7, 0, 0, 0, 1, 0, 0, 0, 9],
            &count.to_be_bytes(),
            samples.as_slice(),
        ],
    )
}

fn decode(alloc: Global, octets: &List<u8>) -> Result<RawDecoded, Undecodable> {
    decode_sflow(alloc, &EXPORTER, octets.as_slice())
}

// a sample of flows or of another format
fn sample(
    alloc: Global,
    format: u32,
    rate: u32,
    count: u32,
    records: &[&[u8]],
) -> Result<List<u8>, NoMemory> {
    match format {
        1 => flow_sample(alloc, rate, count, records),
        3 => expanded_sample(alloc, rate, count, records),
        _ => piece(alloc, format, records),
    }
}

// the one row of a datagram that gives no more
fn only_row(alloc: Global, octets: &List<u8>) -> Result<RawRecord, Fail> {
    let decoded = decode(alloc, octets).map_err(|_| "refused")?;
    match (decoded.rows.as_slice(), decoded.notices.as_slice()) {
        ([row], []) => Ok(*row),
        _ => Err("not one row alone".into()),
    }
}

// that of a datagram with one sample
fn row_of(alloc: Global, sample: &List<u8>) -> Result<RawRecord, Fail> {
    only_row(alloc, &datagram(alloc, 1, &[sample.as_slice()])?)
}

fn refusal(answer: Result<RawDecoded, Undecodable>) -> Option<Cause> {
    match answer {
        Err(Undecodable::Refused(cause)) => Some(cause),
        _ => None,
    }
}

// the cause that refuses a datagram that has one sample
fn cause_of(alloc: Global, sample: &List<u8>) -> Result<Option<Cause>, NoMemory> {
    let octets = datagram(alloc, 1, &[sample.as_slice()])?;
    Ok(refusal(decode(alloc, &octets)))
}

// a flow of which no more is known than its exporter, its source and its length
fn of_one_packet(bytes: u128) -> FlowRecord {
    FlowRecord {
        exporter: EXPORTER,
        source_id: 7,
        src: None,
        dst: None,
        src_port: None,
        dst_port: None,
        proto: None,
        tos: None,
        in_iface: None,
        out_iface: None,
        src_as: None,
        dst_as: None,
        src_mask: None,
        dst_mask: None,
        vlan: None,
        src_mac: None,
        dst_mac: None,
        bgp_next_hop: None,
        counts: Counts {
            bytes,
            packets: 1,
            flows: 1,
        },
    }
}

#[test]
fn a_sampled_header_behind_a_tag(rt: HostRuntime) -> Result<(), Fail> {
    let flow = flow_sample(rt.alloc(), 512, 1, &[TAGGED_HEAD, &TAGGED, b"\0\0"])?;
    let mut octets = datagram(rt.alloc(), 2, &[COUNTERS])?;
    octets.extend(flow.as_slice())?;
    let row = only_row(rt.alloc(), &octets)?;
    let wanted = FlowRecord {
        src: Some(FIRST),
        dst: Some(SECOND),
        src_port: Some(4096),
        dst_port: Some(53),
        proto: Some(17),
        tos: Some(0xb8),
        in_iface: Some(3),
        out_iface: Some(0),
        vlan: Some(100),
        src_mac: Some(0x0200_0000_0001),
        dst_mac: Some(0x0200_0000_0002),
        ..of_one_packet(100)
    };
    assert!(rt; row.flow == wanted);
    assert_eq!(rt; row.own_rate, Some(512));
    assert_eq!(rt; row.learned_rate, None);
    assert_eq!(rt; row.header_rate, 1);
    Ok(())
}

#[test]
fn addresses_in_an_expanded_sample(rt: HostRuntime) -> Result<(), Fail> {
    let sample = expanded_sample(rt.alloc(), 100, 1, &[ADDRESSES_HEAD, ADDRESSES])?;
    let row = row_of(rt.alloc(), &sample)?;
    let wanted = FlowRecord {
        src: Some(Addr::V4(0x0a00_0001)),
        dst: Some(Addr::V4(0x0a00_0002)),
        src_port: Some(1024),
        dst_port: Some(53),
        proto: Some(17),
        tos: Some(8),
        in_iface: Some(0x4000_0005),
        out_iface: Some(0),
        ..of_one_packet(1500)
    };
    assert!(rt; row.flow == wanted);
    assert_eq!(rt; row.own_rate, Some(100));
    Ok(())
}

#[test]
fn numbers_are_whole_and_a_rate_of_zero_is_one(rt: HostRuntime) -> Result<(), Fail> {
    let wide: [&[u8]; 4] = [
        b"\0\0\0\x04\0\0\0\x38\xff\xff\xff\xff\0\0\x01\x2c",
        b"\x20\x01\x0d\xb8\0\0\0\0\0\0\0\0\0\0\0\x01",
        b"\x20\x01\x0d\xb8\0\0\0\0\0\0\0\0\0\0\0\x02",
        b"\0\x01\x11\x70\0\x01\x11\x71\0\0\0\0\0\0\x01\x01",
    ];
    let sample = flow_sample(rt.alloc(), 0, 1, &wide)?;
    let row = row_of(rt.alloc(), &sample)?;
    let wanted = FlowRecord {
        src: Some(FIRST),
        dst: Some(SECOND),
        src_port: Some(70000),
        dst_port: Some(70001),
        proto: Some(300),
        tos: Some(257),
        in_iface: Some(3),
        out_iface: Some(0),
        ..of_one_packet(0xffff_ffff)
    };
    assert!(rt; row.flow == wanted);
    assert_eq!(rt; row.own_rate, Some(1));
    Ok(())
}

#[test]
fn the_first_record_of_a_kind_tells(rt: HostRuntime) -> Result<(), Fail> {
    // records, and the bytes, the VLAN and the mask of the source that they tell
    let cases: [(u32, &[&[u8]], u128, Option<u64>, Option<u64>); 5] = [
        (1, &[ADDRESSES_HEAD, ADDRESSES], 1500, None, None),
        (
            4,
            &[ODD, MASKS, ADDRESSES_HEAD, ADDRESSES, VLAN],
            1500,
            Some(4101),
            Some(24),
        ),
        (
            4,
            &[VLAN, TAGGED_HEAD, &TAGGED, b"\0\0", OTHER_MASKS, MASKS],
            100,
            Some(100),
            Some(8),
        ),
        (3, &[OTHER_VLAN, VLAN, IPV4_HEAD, &IPV4], 84, Some(6), None),
        (
            2,
            &[ADDRESSES_HEAD, ADDRESSES, IPV4_HEAD, &IPV4],
            1500,
            None,
            None,
        ),
    ];
    for (index, (count, records, bytes, vlan, mask)) in cases.iter().enumerate() {
        let sample = flow_sample(rt.alloc(), 1, *count, records)?;
        let flow = row_of(rt.alloc(), &sample)?.flow;
        assert_eq!(rt; flow.counts.bytes, *bytes, "at {index}");
        assert_eq!(rt; flow.vlan, *vlan, "at {index}");
        assert_eq!(rt; flow.src_mask, *mask, "at {index}");
        assert_eq!(rt; flow.bgp_next_hop, None, "at {index}");
    }
    Ok(())
}

#[test]
fn every_sample_is_numbered(rt: HostRuntime) -> Result<(), Fail> {
    // format, number of records, records
    let samples: [(u32, u32, &[&[u8]]); 10] = [
        (1, 1, &[NOT_IP]),
        (2, 0, &[]),
        (1, 1, &[CUT]),
        (1, 1, &[ADDRESSES_HEAD, ADDRESSES]),
        (4, 0, &[]),
        (5, 0, &[b"odd"]),
        (1, 1, &[VLAN]),
        (3, 2, &[ADDRESSES_HEAD, ADDRESSES, NOT_IP]),
        (0x0001_2001, 0, &[]),
        (3, 2, &[CUT, ADDRESSES_HEAD, ADDRESSES]),
    ];
    let mut octets = datagram(rt.alloc(), 10, &[])?;
    for (rate, (format, count, records)) in (1..11).zip(samples.iter()) {
        octets.extend(sample(rt.alloc(), *format, rate, *count, records)?.as_slice())?;
    }
    let decoded = decode(rt.alloc(), &octets).map_err(|_| "refused")?;
    let wanted = [
        (1, NoticeCause::NotIp),
        (3, NoticeCause::HeaderCut),
        (6, NoticeCause::Skipped(5)),
        (7, NoticeCause::NotIp),
        (9, NoticeCause::Skipped(0x0001_2001)),
        (10, NoticeCause::HeaderCut),
    ];
    assert_eq!(rt; decoded.notices.len(), wanted.len());
    for ((set, cause), notice) in wanted.iter().zip(decoded.notices.as_slice()) {
        assert_eq!(rt; notice.set, *set);
        assert_eq!(rt; notice.cause, *cause);
    }
    let [first, second] = decoded.rows.as_slice() else {
        return Err("not two rows".into());
    };
    assert_eq!(rt; first.own_rate, Some(4));
    assert_eq!(rt; second.own_rate, Some(8));
    Ok(())
}

#[test]
fn a_cut_header_has_its_place(rt: HostRuntime) {
    for size in 0..67 {
        let read = read_sampled_header(1, &TAGGED[..size]);
        if size < 58 {
            assert_eq!(rt; read, Err(HeaderFault::HeaderCut), "at {size}");
        } else {
            let port = read.map(|fields| fields.dst_port);
            let wanted = if size < 62 { 0 } else { 53 };
            assert_eq!(rt; port, Ok(wanted), "at {size}");
        }
    }
    for size in 0..29 {
        let read = read_sampled_header(11, &IPV4[..size]);
        if size < 20 {
            assert_eq!(rt; read, Err(HeaderFault::HeaderCut), "at {size}");
        } else {
            let port = read.map(|fields| fields.src_port);
            let wanted = if size < 24 { 0 } else { 0x1234 };
            assert_eq!(rt; port, Ok(wanted), "at {size}");
        }
    }
}

#[test]
fn headers_of_ip_alone(rt: HostRuntime) -> Result<(), Fail> {
    let fields = read_sampled_header(11, &IPV4).map_err(|_| "refused")?;
    let wanted = HeaderFields {
        src_mac: None,
        dst_mac: None,
        vlan: None,
        src: Addr::V4(0x0a00_0001),
        dst: Addr::V4(0x0a00_0002),
        proto: 6,
        tos: 32,
        src_port: 0x1234,
        dst_port: 80,
        length: 84,
    };
    assert!(rt; fields == wanted);
    let fields = read_sampled_header(12, &TAGGED[18..]).map_err(|_| "refused")?;
    assert_eq!(rt; fields.length, 100);
    assert_eq!(rt; fields.dst, SECOND);
    for protocol in [0, 2, 10, 13, u32::MAX] {
        let read = read_sampled_header(protocol, &IPV4);
        assert_eq!(rt; read, Err(HeaderFault::NotIp), "at {protocol}");
    }
    // each other version, and a header length below five words
    for (first, fault) in [
        (0x44, Some(HeaderFault::NotIp)),
        (0x40, Some(HeaderFault::NotIp)),
        (0x55, Some(HeaderFault::NotIp)),
        (0x65, Some(HeaderFault::NotIp)),
        (0x45, None),
        (0x4f, None),
    ] {
        let mut header = IPV4;
        header[0] = first;
        assert_eq!(rt; read_sampled_header(11, &header).err(), fault, "at {first}");
    }
    assert_eq!(rt;
        read_sampled_header(12, &[0x45; 40]),
        Err(HeaderFault::NotIp)
    );
    assert_eq!(rt;
        read_sampled_header(12, &[0x45; 39]),
        Err(HeaderFault::HeaderCut)
    );
    assert_eq!(rt;
        read_sampled_header(11, &[0x65; 19]),
        Err(HeaderFault::HeaderCut)
    );
    Ok(())
}

#[test]
fn ports_stand_where_the_packet_has_them(rt: HostRuntime) -> Result<(), Fail> {
    // first octet, fragment field, protocol, and the two ports
    for (first, high, low, proto, src, dst) in [
        (0x45u8, 0u8, 0u8, 6u8, 0x1234u16, 80u16),
        (0x45, 0x40, 0, 17, 0x1234, 80),
        (0x45, 0x20, 0, 132, 0x1234, 80),
        (0x45, 0, 0, 1, 0, 0),
        (0x45, 0, 0, 47, 0, 0),
        (0x45, 0, 1, 6, 0, 0),
        (0x45, 0x3f, 0, 17, 0, 0),
        (0x46, 0, 0, 6, 0, 9),
        (0x47, 0, 0, 6, 0, 0),
        (0x4f, 0, 0, 6, 0, 0),
    ] {
        let mut header = IPV4;
        header[0] = first;
        header[6] = high;
        header[7] = low;
        header[9] = proto;
        let fields = read_sampled_header(11, &header).map_err(|_| "refused")?;
        assert_eq!(rt; fields.src_port, src, "at {first} {high} {low} {proto}");
        assert_eq!(rt; fields.dst_port, dst, "at {first} {high} {low} {proto}");
    }
    Ok(())
}

#[test]
fn at_most_two_tags(rt: HostRuntime) -> Result<(), Fail> {
    let link: &[u8] = &[2, 0, 0, 0, 0, 2, 2, 0, 0, 0, 0, 1];
    let customer: &[u8] = &[0x81, 0, 0xf0, 200];
    let service: &[u8] = &[0x88, 0xa8, 0xff, 0xff];
    let priority: &[u8] = &[0x81, 0, 0xe0, 0];
    let kind: &[u8] = &[8, 0];
    let not_ip = Err(HeaderFault::NotIp);
    let cut = Err(HeaderFault::HeaderCut);
    let cases: [(&[&[u8]], Result<Option<u64>, HeaderFault>); 9] = [
        (&[link, kind, &IPV4], Ok(None)),
        (&[link, customer, kind, &IPV4], Ok(Some(200))),
        (&[link, service, customer, kind, &IPV4], Ok(Some(4095))),
        (&[link, priority, service, kind, &IPV4], Ok(Some(0))),
        (&[link, customer, customer, customer, kind, &IPV4], not_ip),
        (&[link, &[0x86, 0xdd], &IPV4], cut),
        (&[&ARP], not_ip),
        (&[link, customer, &[0x91, 0]], not_ip),
        (&[link, customer, service], cut),
    ];
    for (index, (parts, wanted)) in cases.iter().enumerate() {
        let header = joined(rt.alloc(), parts)?;
        let read = read_sampled_header(1, header.as_slice());
        assert_eq!(rt; read.map(|fields| fields.vlan), *wanted, "at {index}");
    }
    Ok(())
}

#[test]
fn a_header_is_refused_for_its_first_cause(rt: HostRuntime) {
    let head = b"\0\0\0\x05\0\0\0\x01\xc0\0\x02\x01\0\0\0\x07\0\0\0\x01\0\0\0\x09\0\0\0\0";
    // the version, the type of the address, the size, and the cause
    for (version, kind, size, cause) in [
        (5, 1, 0, Some(Cause::Short)),
        (4, 1, 3, Some(Cause::Short)),
        (4, 9, 4, Some(Cause::Version(4))),
        (6, 1, 28, Some(Cause::Version(6))),
        (5, 9, 7, Some(Cause::Short)),
        (5, 0, 8, Some(Cause::SflowAddress)),
        (5, 3, 28, Some(Cause::SflowAddress)),
        (5, 1, 8, Some(Cause::Short)),
        (5, 1, 27, Some(Cause::Short)),
        (5, 1, 28, None),
        (5, 2, 28, Some(Cause::Short)),
    ] {
        let mut octets = *head;
        octets[3] = version;
        octets[7] = kind;
        let refused = refusal(decode_sflow(rt.alloc(), &EXPORTER, &octets[..size.min(28)]));
        assert_eq!(rt; refused, cause, "at {version} {kind} {size}");
    }
}

#[test]
fn an_agent_of_ipv6(rt: HostRuntime) {
    let mut octets = [0; 48];
    octets[3] = 5;
    octets[7] = 2;
    for (size, count, cause) in [
        (39, 0, Some(Cause::Short)),
        (40, 0, None),
        (48, 1, None),
        (47, 1, Some(Cause::SampleCut)),
    ] {
        octets[39] = count;
        let refused = refusal(decode_sflow(rt.alloc(), &EXPORTER, &octets[..size]));
        assert_eq!(rt; refused, cause, "at {size}");
    }
}

#[test]
fn samples_are_refused_for_their_first_cause(rt: HostRuntime) -> Result<(), Fail> {
    let cases: [(u32, &[u8], Option<Cause>); 11] = [
        (0, b"later", None),
        (1, b"", Some(Cause::SampleCut)),
        (1, b"\0\0\0\x02\0\0\0", Some(Cause::SampleCut)),
        (1, b"\0\0\0\x02\0\0\0\0later", None),
        (1, b"\0\0\0\x02\0\0\0\x0512345678", None),
        (1, b"\0\0\0\x02\0\0\0\x051234567", Some(Cause::SampleCut)),
        (
            1,
            b"\0\0\0\x02\xff\xff\xff\xff1234567",
            Some(Cause::SampleCut),
        ),
        (u32::MAX, b"\0\0\0\x02\0\0\0\0", Some(Cause::SampleCut)),
        (u32::MAX, b"\0\0\0\x01\0\0\0\0", Some(Cause::RecordCut)),
        (2, b"\0\0\0\x01\0\0\0\x05later", Some(Cause::SampleCut)),
        (2, b"\0\0\0\x03\0\0\0\x05later123", Some(Cause::RecordCut)),
    ];
    for (index, (count, samples, cause)) in cases.iter().enumerate() {
        let octets = datagram(rt.alloc(), *count, &[samples])?;
        let refused = refusal(decode(rt.alloc(), &octets));
        assert_eq!(rt; refused, *cause, "at {index}");
    }
    Ok(())
}

#[test]
fn records_are_refused_for_their_first_cause(rt: HostRuntime) -> Result<(), Fail> {
    let cut = Some(Cause::RecordCut);
    let address = Some(Cause::SflowAddress);
    let cases: [(u32, &[&[u8]], Option<Cause>); 17] = [
        (0, &[b"odd"], None),
        (1, &[], cut),
        (1, &[b"\0\0\0\x09\0\0\0"], cut),
        (1, &[b"\0\0\0\x09\0\0\0\0"], None),
        (1, &[b"\0\0\0\x09\0\0\0\x05", b"12345678"], None),
        (1, &[b"\0\0\0\x09\0\0\0\x05", b"1234567"], cut),
        (1, &[b"\0\0\0\x01\0\0\0\x0f", b"0123456789abcdef"], cut),
        (
            1,
            &[b"\0\0\0\x01\0\0\0\x10", b"0123456789ab", b"\0\0\0\x01"],
            cut,
        ),
        (
            1,
            &[
                b"\0\0\0\x01\0\0\0\x11",
                b"0123456789ab",
                b"\0\0\0\x01",
                b"1234",
            ],
            None,
        ),
        (1, &[b"\0\0\0\x03\0\0\0\x1f", ADDRESSES], cut),
        (1, &[b"\0\0\x03\xe9\0\0\0\x0f", b"0123456789abcdef"], cut),
        (1, &[b"\0\0\x03\xea\0\0\0\x0c\0\0\0\0", b"01234567"], None),
        (
            1,
            &[b"\0\0\x03\xea\0\0\0\x10\0\0\0\x01", b"0123456789ab"],
            None,
        ),
        (
            1,
            &[b"\0\0\x03\xea\0\0\0\x10\0\0\0\x02", b"0123456789ab"],
            cut,
        ),
        (1, &[b"\0\0\x03\xea\0\0\0\x04\0\0\0\x03"], address),
        (1, &[b"\0\0\x03\xea\0\0\0\x03\0\0\0\x03"], cut),
        (
            2,
            &[
                b"\0\0\0\x03\0\0\0\x20",
                ADDRESSES,
                b"\0\0\x03\xea\0\0\0\x04\0\0\0\x09",
            ],
            address,
        ),
    ];
    for (index, (count, records, cause)) in cases.iter().enumerate() {
        let sample = flow_sample(rt.alloc(), 1, *count, records)?;
        assert_eq!(rt; cause_of(rt.alloc(), &sample)?, *cause, "at {index}");
        let sample = expanded_sample(rt.alloc(), 1, *count, records)?;
        assert_eq!(rt; cause_of(rt.alloc(), &sample)?, *cause, "at {index}");
    }
    for (format, size, cause) in [(1, 31, cut), (1, 32, None), (3, 43, cut), (3, 44, None)] {
        let sample = piece(rt.alloc(), format, &[&ZEROS[..size]])?;
        assert_eq!(rt; cause_of(rt.alloc(), &sample)?, cause, "at {size}");
    }
    Ok(())
}
