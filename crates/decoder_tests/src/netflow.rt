use acct_types::{Addr, Counts, FlowRecord};
use fixtures::{joined, same_hashing};
use flow_templates::{Domain, Staged, Stores};
use netflow_in::{
    Cause, Notice, NoticeCause, RawDecoded, RawRecord, Undecodable, decode_v5, decode_v9,
};
use std::alloc::Global;
use std::test::Fail;

const EXPORTER: Addr = Addr::V4(0xc000_0201);

// engine type 3, engine id 4, sampling mode 1, interval 100
const HEADER: [u8; 24] = [
    0, 5, 0, 1, 0, 0, 0, 9, 0x65, 0, 0, 0, 0, 0, 0, 8, 0, 0, 0, 7, 3, 4, 0x40, 100,
];

// every field with a number of its own
const RECORD: [u8; 48] = [
    10, 0, 0, 1, // srcaddr
    10, 0, 0, 2, // dstaddr
    10, 0, 0, 3, // nexthop
    1, 11, // input
    1, 12, // output
    0, 0, 1, 13, // dPkts
    0, 1, 0, 14, // dOctets
    0, 0, 0, 15, // First
    0, 0, 0, 16, // Last
    4, 17, // srcport
    0, 80, // dstport
    18, // pad
    19, // tcp_flags
    6, // prot
    20, // tos
    0xfc, 0, // src_as
    0xfc, 1, // dst_as
    24, // src_mask
    16, // dst_mask
    21, 22, // pad
];

fn datagram(version: u8, count: u8, records: usize) -> [u8; 1512] {
    let mut octets = [0u8; 1512];
    octets[..24].copy_from_slice(&HEADER);
    octets[1] = version;
    octets[3] = count;
    for index in 0..records.min(31) {
        octets[24 + 48 * index..72 + 48 * index].copy_from_slice(&RECORD);
    }
    octets
}

// the first `size` octets, decoded
fn decode(alloc: Global, octets: &[u8], size: usize) -> Result<RawDecoded, Undecodable> {
    decode_v5(alloc, &EXPORTER, &octets[..size.min(octets.len())])
}

#[test]
fn a_record_field_by_field(rt: HostRuntime) -> Result<(), Fail> {
    let octets = datagram(5, 1, 1);
    let decoded = decode(rt.alloc(), &octets, 72).map_err(|_| "refused")?;
    let [row] = decoded.rows.as_slice() else {
        return Err("not one record".into());
    };
    let flow = FlowRecord {
        exporter: EXPORTER,
        source_id: 772,
        src: Some(Addr::V4(0x0a00_0001)),
        dst: Some(Addr::V4(0x0a00_0002)),
        src_port: Some(1041),
        dst_port: Some(80),
        proto: Some(6),
        tos: Some(20),
        in_iface: Some(267),
        out_iface: Some(268),
        src_as: Some(64512),
        dst_as: Some(64513),
        src_mask: Some(24),
        dst_mask: Some(16),
        vlan: None,
        src_mac: None,
        dst_mac: None,
        bgp_next_hop: None,
        counts: Counts {
            bytes: 65550,
            packets: 269,
            flows: 1,
        },
    };
    let wanted = RawRecord {
        flow,
        own_rate: None,
        learned_rate: None,
        header_rate: 100,
    };
    assert!(rt; *row == wanted);
    assert!(rt; decoded.notices.is_empty());
    Ok(())
}

#[test]
fn as_many_records_as_the_header_counts(rt: HostRuntime) -> Result<(), Fail> {
    for (count, size) in [(1u8, 72usize), (1, 120), (2, 120), (30, 1464), (30, 1512)] {
        let octets = datagram(5, count, 31);
        let decoded = decode(rt.alloc(), &octets, size).map_err(|_| "refused")?;
        assert_eq!(rt; decoded.rows.len(), usize::from(count));
        let last = decoded.rows.as_slice().last().ok_or("none")?;
        assert_eq!(rt; last.flow.dst_mask, Some(16));
    }
    Ok(())
}

#[test]
fn an_interval_of_zero_is_a_rate_of_one(rt: HostRuntime) -> Result<(), Fail> {
    for (high, low, rate) in [
        (0u8, 0u8, 1u32),
        (0x40, 0, 1),
        (0x80, 1, 1),
        (0xff, 0xff, 16383),
    ] {
        let mut octets = datagram(5, 1, 1);
        octets[22] = high;
        octets[23] = low;
        let decoded = decode(rt.alloc(), &octets, 72).map_err(|_| "refused")?;
        let [row] = decoded.rows.as_slice() else {
            return Err("not one record".into());
        };
        assert_eq!(rt; row.header_rate, rate);
    }
    Ok(())
}

#[test]
fn a_refusal_has_its_cause(rt: HostRuntime) {
    let cases = [
        (5u8, 1u8, 0usize, Cause::Short),
        (9, 1, 1, Cause::Short),
        (9, 1, 20, Cause::Version(9)),
        (1, 1, 2, Cause::Version(1)),
        (5, 1, 23, Cause::Short),
        (5, 0, 24, Cause::V5Count),
        (5, 31, 1512, Cause::V5Count),
        (5, 31, 24, Cause::V5Count),
        (5, 1, 71, Cause::V5Cut),
        (5, 30, 1463, Cause::V5Cut),
    ];
    for (version, count, size, cause) in cases {
        let octets = datagram(version, count, 31);
        let refused = decode(rt.alloc(), &octets, size).err();
        assert_eq!(rt; refused, Some(Undecodable::Refused(cause)));
    }
}

// Version 9 from source 0x01020304, with a count of 9.
const HEADER_9: &[u8] = &[
    0, 9, 0, 9, 0, 0, 0, 9, 0x65, 0, 0, 0, 0, 0, 0, 8, 1, 2, 3, 4,
];

// template 256: each element that is read of a packet, IPv4, and no other
const TEMPLATE: &[u8] = &[
    0, 0, 0, 80, 1, 0, 0, 18, // set, id and count
    0, 8, 0, 4, 0, 12, 0, 4, // addresses
    0, 7, 0, 2, 0, 11, 0, 2, // ports
    0, 4, 0, 1, 0, 5, 0, 1, // protocol, TOS
    0, 10, 0, 2, 0, 14, 0, 2, // interfaces
    0, 16, 0, 4, 0, 17, 0, 4, // AS
    0, 9, 0, 1, 0, 13, 0, 1, // masks
    0, 58, 0, 2, 0, 56, 0, 6, 0, 80, 0, 6, // VLAN, MAC
    0, 18, 0, 4, 0, 1, 0, 8, 0, 2, 0, 3, // next hop, bytes, packets
];

// a record for it, and three octets of padding
const DATA: &[u8] = &[
    1, 0, 0, 64, // set
    10, 0, 0, 1, 10, 0, 0, 2, 4, 17, 0, 80, 6, 20, 1, 11, 1, 12, // to the interfaces
    0, 0, 0xfc, 0, 0, 0, 0xfc, 1, 24, 16, 0, 100, // to the VLAN
    2, 0, 0, 0, 0, 1, 2, 0, 0, 0, 0, 2, 192, 0, 2, 9, // to the next hop
    0, 0, 0, 1, 0, 0, 0, 14, 1, 0, 13, // bytes and packets
    0, 0, 0,
];

// options template 257: a scope, the sampler and the interval; and the interval 50 of sampler 7
const OPTIONS: &[u8] = &[
    0, 1, 0, 22, 1, 1, 0, 4, 0, 8, 0, 1, 0, 1, 0, 48, 0, 1, 0, 34, 0, 4,
];

const OPTION_DATA: &[u8] = &[1, 1, 0, 10, 0, 7, 0, 0, 0, 50];

// What a datagram of these parts says behind what the stores know, and what it teaches.
fn said(
    alloc: Global,
    stores: &Stores,
    parts: &[&[u8]],
) -> Result<(Result<RawDecoded, Undecodable>, Staged), Fail> {
    let octets = joined(alloc, parts)?;
    if octets.len() > 65535 {
        return Err("too long".into());
    }
    let mut staged = Staged::new(alloc, same_hashing()?);
    let decoded = decode_v9(alloc, stores, &mut staged, &EXPORTER, octets.as_slice());
    Ok((decoded, staged))
}

fn refusal(alloc: Global, parts: &[&[u8]]) -> Result<Option<Undecodable>, Fail> {
    let (decoded, _) = said(alloc, &Stores::new(alloc, same_hashing()?), parts)?;
    Ok(decoded.err())
}

fn domain(id: u32) -> Domain {
    Domain {
        exporter: EXPORTER,
        version: 9,
        id,
    }
}

#[test]
fn a_record_of_version_9_field_by_field(rt: HostRuntime) -> Result<(), Fail> {
    let stores = Stores::new(rt.alloc(), same_hashing()?);
    let (decoded, _) = said(rt.alloc(), &stores, &[HEADER_9, TEMPLATE, DATA])?;
    let decoded = decoded.map_err(|_| "refused")?;
    let [row] = decoded.rows.as_slice() else {
        return Err("not one record".into());
    };
    let flow = FlowRecord {
        exporter: EXPORTER,
        source_id: 0x0102_0304,
        src: Some(Addr::V4(0x0a00_0001)),
        dst: Some(Addr::V4(0x0a00_0002)),
        src_port: Some(1041),
        dst_port: Some(80),
        proto: Some(6),
        tos: Some(20),
        in_iface: Some(267),
        out_iface: Some(268),
        src_as: Some(64512),
        dst_as: Some(64513),
        src_mask: Some(24),
        dst_mask: Some(16),
        vlan: Some(100),
        src_mac: Some(0x0200_0000_0001),
        dst_mac: Some(0x0200_0000_0002),
        bgp_next_hop: Some(Addr::V4(0xc000_0209)),
        counts: Counts {
            bytes: 4_294_967_310,
            packets: 65549,
            flows: 1,
        },
    };
    let wanted = RawRecord {
        flow,
        own_rate: None,
        learned_rate: None,
        header_rate: 1,
    };
    assert!(rt; *row == wanted);
    assert!(rt; decoded.notices.is_empty());
    Ok(())
}

#[test]
fn the_count_of_version_9_is_not_judged(rt: HostRuntime) -> Result<(), Fail> {
    let stores = Stores::new(rt.alloc(), same_hashing()?);
    for count in [
        b"\0\0".as_slice(),
        b"\0\x02".as_slice(),
        b"\xff\xff".as_slice(),
    ] {
        let parts: [&[u8]; 5] = [&HEADER_9[..2], count, &HEADER_9[4..], TEMPLATE, DATA];
        let (decoded, _) = said(rt.alloc(), &stores, &parts)?;
        let decoded = decoded.map_err(|_| "refused")?;
        assert_eq!(rt; decoded.rows.len(), 1);
    }
    Ok(())
}

#[test]
fn what_version_9_teaches_is_staged(rt: HostRuntime) -> Result<(), Fail> {
    let mut stores = Stores::new(rt.alloc(), same_hashing()?);
    let (decoded, staged) = said(
        rt.alloc(),
        &stores,
        &[HEADER_9, TEMPLATE, OPTIONS, OPTION_DATA],
    )?;
    let decoded = decoded.map_err(|_| "refused")?;
    assert!(rt; decoded.rows.is_empty() && decoded.notices.is_empty());
    let here = domain(0x0102_0304);
    assert!(rt;
        staged
            .find(&stores, &here, 256)
            .is_some_and(|it| !it.options)
    );
    assert!(rt;
        staged
            .find(&stores, &here, 257)
            .is_some_and(|it| it.options)
    );
    assert!(rt; staged.find(&stores, &domain(8), 256).is_none());
    assert_eq!(rt; staged.rate(&stores, &here, Some(7)), Some(50));
    assert_eq!(rt; staged.rate(&stores, &here, None), None);
    assert!(rt; stores.templates.find(&here, 256).is_none());
    staged.commit(&mut stores)?;
    let (decoded, staged) = said(rt.alloc(), &stores, &[HEADER_9, DATA])?;
    let decoded = decoded.map_err(|_| "refused")?;
    assert_eq!(rt; decoded.rows.len(), 1);
    assert!(rt; staged.is_empty());
    Ok(())
}

#[test]
fn data_of_another_source_have_no_template(rt: HostRuntime) -> Result<(), Fail> {
    let mut stores = Stores::new(rt.alloc(), same_hashing()?);
    let (_, staged) = said(rt.alloc(), &stores, &[HEADER_9, TEMPLATE])?;
    staged.commit(&mut stores)?;
    let (decoded, _) = said(rt.alloc(), &stores, &[&HEADER_9[..19], &[5], OPTIONS, DATA])?;
    let decoded = decoded.map_err(|_| "refused")?;
    let notice = Notice {
        set: 2,
        cause: NoticeCause::NoTemplate(256),
    };
    assert_eq!(rt; decoded.notices.as_slice(), [notice].as_slice());
    assert!(rt; decoded.rows.is_empty());
    Ok(())
}

#[test]
fn a_header_of_version_9_is_judged(rt: HostRuntime) -> Result<(), Fail> {
    let cases: [(&[u8], Option<Cause>); 8] = [
        (&[], Some(Cause::Short)),
        (&[0], Some(Cause::Short)),
        (&[0, 5], Some(Cause::Version(5))),
        (&[0, 10], Some(Cause::Version(10))),
        (&[9, 9], Some(Cause::Version(2313))),
        (&[0, 9], Some(Cause::Short)),
        (&HEADER_9[..19], Some(Cause::Short)),
        (HEADER_9, None),
    ];
    for (octets, cause) in cases {
        let refused = refusal(rt.alloc(), &[octets])?;
        assert_eq!(rt; refused, cause.map(Undecodable::Refused));
    }
    Ok(())
}

#[test]
fn sets_go_to_the_end(rt: HostRuntime) -> Result<(), Fail> {
    let cases: [(&[u8], Option<Cause>); 9] = [
        (&[0], Some(Cause::SetLength)),
        (&[0, 0, 0], Some(Cause::SetLength)),
        (&[0, 0, 0, 3], Some(Cause::SetLength)),
        (&[0, 0, 0, 5], Some(Cause::SetLength)),
        (&[0, 0, 0, 4], None),
        // in a set of templates three octets are padding, and four begin a template
        (&[0, 0, 0, 7, 0, 0, 0], None),
        (&[0, 0, 0, 8, 0, 0, 0, 0], Some(Cause::TemplateId)),
        // the first cause counts
        (&[0, 0, 0, 8, 1, 0, 0, 0, 0], Some(Cause::TemplateEmpty)),
        (&[0, 9, 0, 6, 0, 0, 1, 0, 0, 4], None),
    ];
    for (octets, cause) in cases {
        let refused = refusal(rt.alloc(), &[HEADER_9, octets])?;
        assert_eq!(rt; refused, cause.map(Undecodable::Refused));
    }
    Ok(())
}
