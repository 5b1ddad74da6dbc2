use acct_types::{Addr, Counts, FlowRecord};
use fixtures::{joined, same_hashing};
use flow_templates::{
    Cause, Domain, Notice, NoticeCause, RawDecoded, RawRecord, Staged, Stores, Undecodable,
};
use ipfix_in::decode_ipfix;
use std::alloc::Global;
use std::test::Fail;

const EXPORTER: Addr = Addr::V6(0x2001_0db8_0000_0000_0000_0000_0000_0001);

// the export time, the sequence number, and the domain 0x01020304
const HEADER: &[u8] = &[0x65, 0, 0, 0, 0, 0, 0, 8, 1, 2, 3, 4];

// template 256: IPv6 addresses, masks and next hop, a selector, total bytes and total packets
const TEMPLATE: &[u8] = &[
    0, 2, 0, 40, 1, 0, 0, 8, // set, id and count
    0, 27, 0, 16, 0, 28, 0, 16, 0, 29, 0, 1, 0, 30, 0, 1, // addresses, masks
    0, 63, 0, 16, 1, 46, 0, 1, 0, 85, 0, 8, 0, 86, 0, 4, // next hop to packets
];

// a record for it, of selector 7
const DATA: &[u8] = &[
    1, 0, 0, 67, // set
    0x20, 1, 0x0d, 0xb8, 0, 0, 0, 0, 0, 0, 0, 0, 0, 0, 0, 2, // source
    0x20, 1, 0x0d, 0xb8, 0, 0, 0, 0, 0, 0, 0, 0, 0, 0, 0, 3, // destination
    64, 48, // masks
    0x20, 1, 0x0d, 0xb8, 0, 0, 0, 0, 0, 0, 0, 0, 0, 0, 0, 4, // next hop
    7, // selector
    0, 0, 0, 1, 0, 0, 0, 14, 0, 1, 0, 13, // bytes and packets
];

// options template 257: a selector as its scope, the packet interval and the packet space; and 1 of 100 of selector 7
const OPTIONS: &[u8] = &[
    0, 3, 0, 22, 1, 1, 0, 3, 0, 1, 1, 46, 0, 1, 1, 49, 0, 4, 1, 50, 0, 4,
];

const OPTION_DATA: &[u8] = &[1, 1, 0, 13, 7, 0, 0, 0, 1, 0, 0, 0, 99];

// template 258: an enterprise's element of variable length, and bytes
const VARIABLE: &[u8] = &[
    0, 2, 0, 20, 1, 2, 0, 2, 0x80, 1, 255, 255, 0, 0, 0, 9, 0, 1, 0, 1,
];

// What octets say behind what the stores know, and what they teach.
fn said_alone(
    alloc: Global,
    stores: &Stores,
    octets: &[u8],
) -> Result<(Result<RawDecoded, Undecodable>, Staged), Fail> {
    if octets.len() > 65535 {
        return Err("too long".into());
    }
    let mut staged = Staged::new(alloc, same_hashing()?);
    let decoded = decode_ipfix(alloc, stores, &mut staged, &EXPORTER, octets);
    Ok((decoded, staged))
}

// The same of a message of these parts, behind its version and length.
fn said(
    alloc: Global,
    stores: &Stores,
    parts: &[&[u8]],
) -> Result<(Result<RawDecoded, Undecodable>, Staged), Fail> {
    let parts = joined(alloc, parts)?;
    let length = u16::try_from(parts.len()).unwrap_or(0).saturating_add(4);
    let octets = joined(alloc, &[&[0, 10], &length.to_be_bytes(), parts.as_slice()])?;
    said_alone(alloc, stores, octets.as_slice())
}

fn domain(id: u32) -> Domain {
    Domain {
        exporter: EXPORTER,
        version: 10,
        id,
    }
}

#[test]
fn a_record_field_by_field(rt: HostRuntime) -> Result<(), Fail> {
    let stores = Stores::new(rt.alloc(), same_hashing()?);
    let (decoded, _) = said(
        rt.alloc(),
        &stores,
        &[HEADER, TEMPLATE, OPTIONS, OPTION_DATA, DATA],
    )?;
    let decoded = decoded.map_err(|_| "refused")?;
    let [row] = decoded.rows.as_slice() else {
        return Err("not one record".into());
    };
    let flow = FlowRecord {
        exporter: EXPORTER,
        source_id: 0x0102_0304,
        src: Some(Addr::V6(0x2001_0db8_0000_0000_0000_0000_0000_0002)),
        dst: Some(Addr::V6(0x2001_0db8_0000_0000_0000_0000_0000_0003)),
        src_port: None,
        dst_port: None,
        proto: None,
        tos: None,
        in_iface: None,
        out_iface: None,
        src_as: None,
        dst_as: None,
        src_mask: Some(64),
        dst_mask: Some(48),
        vlan: None,
        src_mac: None,
        dst_mac: None,
        bgp_next_hop: Some(Addr::V6(0x2001_0db8_0000_0000_0000_0000_0000_0004)),
        counts: Counts {
            bytes: 4_294_967_310,
            packets: 65549,
            flows: 1,
        },
    };
    let wanted = RawRecord {
        flow,
        own_rate: None,
        learned_rate: Some(100),
        header_rate: 1,
    };
    assert!(rt; *row == wanted);
    assert!(rt; decoded.notices.is_empty());
    Ok(())
}

#[test]
fn what_a_message_teaches_is_staged(rt: HostRuntime) -> Result<(), Fail> {
    let mut stores = Stores::new(rt.alloc(), same_hashing()?);
    let (decoded, staged) = said(
        rt.alloc(),
        &stores,
        &[HEADER, TEMPLATE, OPTIONS, OPTION_DATA],
    )?;
    let decoded = decoded.map_err(|_| "refused")?;
    assert!(rt; decoded.rows.is_empty() && decoded.notices.is_empty());
    let here = domain(0x0102_0304);
    assert!(rt;
        staged
            .find(&stores, &here, 256)
            .is_some_and(|it| !it.options)
    );
    assert!(rt;
        staged
            .find(&stores, &here, 257)
            .is_some_and(|it| it.options)
    );
    assert!(rt; staged.find(&stores, &domain(8), 256).is_none());
    assert_eq!(rt; staged.rate(&stores, &here, Some(7)), Some(100));
    assert_eq!(rt; staged.rate(&stores, &here, None), None);
    assert!(rt; stores.templates.find(&here, 256).is_none());
    staged.commit(&mut stores)?;
    assert!(rt; stores.templates.find(&here, 256).is_some());
    Ok(())
}

#[test]
fn a_withdrawal_is_staged(rt: HostRuntime) -> Result<(), Fail> {
    let here = domain(0x0102_0304);
    // which sets withdraw the template, and which the options template
    let cases: [(&[u8], bool, bool); 5] = [
        (&[0, 2, 0, 8, 1, 0, 0, 0], true, false),
        (&[0, 2, 0, 8, 0, 2, 0, 0], true, false),
        (&[0, 3, 0, 8, 1, 1, 0, 0], false, true),
        (&[0, 3, 0, 8, 0, 3, 0, 0], false, true),
        (&[0, 3, 0, 8, 1, 0, 0, 0], true, false),
    ];
    for (withdrawal, template, options) in cases {
        let mut stores = Stores::new(rt.alloc(), same_hashing()?);
        let (_, staged) = said(rt.alloc(), &stores, &[HEADER, TEMPLATE, OPTIONS])?;
        staged.commit(&mut stores)?;
        let (decoded, staged) = said(rt.alloc(), &stores, &[HEADER, withdrawal])?;
        assert!(rt; decoded.is_ok());
        assert_eq!(rt; staged.find(&stores, &here, 256).is_none(), template);
        assert_eq!(rt; staged.find(&stores, &here, 257).is_none(), options);
        assert!(rt; stores.templates.find(&here, 256).is_some());
    }
    Ok(())
}

#[test]
fn data_of_another_domain_have_no_template(rt: HostRuntime) -> Result<(), Fail> {
    let mut stores = Stores::new(rt.alloc(), same_hashing()?);
    let (_, staged) = said(rt.alloc(), &stores, &[HEADER, TEMPLATE])?;
    staged.commit(&mut stores)?;
    let (decoded, _) = said(rt.alloc(), &stores, &[&HEADER[..11], &[5], DATA])?;
    let decoded = decoded.map_err(|_| "refused")?;
    let notice = Notice {
        set: 1,
        cause: NoticeCause::NoTemplate(256),
    };
    assert_eq!(rt; decoded.notices.as_slice(), [notice].as_slice());
    assert!(rt; decoded.rows.is_empty());
    Ok(())
}

#[test]
fn a_header_is_judged(rt: HostRuntime) -> Result<(), Fail> {
    let cases: [(&[u8], &[u8], Option<Cause>); 12] = [
        (&[], &[], Some(Cause::Short)),
        (&[0], &[], Some(Cause::Short)),
        (&[0, 9], &[], Some(Cause::Version(9))),
        (&[0, 5, 0, 16], HEADER, Some(Cause::Version(5))),
        (&[10, 10, 0, 16], HEADER, Some(Cause::Version(2570))),
        (&[0, 10], &[], Some(Cause::Short)),
        (&[0, 10, 0, 15], &HEADER[..11], Some(Cause::Short)),
        (&[0, 10, 0, 15], HEADER, Some(Cause::IpfixLength)),
        (&[0, 10, 0, 0], HEADER, Some(Cause::IpfixLength)),
        (&[0, 10, 0, 17], HEADER, Some(Cause::IpfixLength)),
        (&[0, 10, 255, 255], HEADER, Some(Cause::IpfixLength)),
        (&[0, 10, 0, 16], HEADER, None),
    ];
    for (front, header, cause) in cases {
        let octets = joined(rt.alloc(), &[front, header])?;
        let stores = Stores::new(rt.alloc(), same_hashing()?);
        let (decoded, _) = said_alone(rt.alloc(), &stores, octets.as_slice())?;
        assert_eq!(rt; decoded.err(), cause.map(Undecodable::Refused));
    }
    Ok(())
}

#[test]
fn octets_past_the_length_are_ignored(rt: HostRuntime) -> Result<(), Fail> {
    // a length that ends before, in and behind a set of eight octets
    let cases: [(&[u8], Option<Cause>, usize); 5] = [
        (&[0, 10, 0, 16], None, 0),
        (&[0, 10, 0, 19], Some(Cause::SetLength), 0),
        (&[0, 10, 0, 23], Some(Cause::SetLength), 0),
        (&[0, 10, 0, 24], None, 1),
        (&[0, 10, 0, 25], Some(Cause::SetLength), 0),
    ];
    for (front, cause, notices) in cases {
        let octets = joined(
            rt.alloc(),
            &[front, HEADER, &[1, 0, 0, 8, 1, 2, 3, 4], &[1, 0, 0]],
        )?;
        let stores = Stores::new(rt.alloc(), same_hashing()?);
        let (decoded, _) = said_alone(rt.alloc(), &stores, octets.as_slice())?;
        match decoded {
            Ok(decoded) => {
                assert_eq!(rt; decoded.notices.len(), notices);
                assert_eq!(rt; None, cause);
            }
            Err(refused) => assert_eq!(rt; Some(refused), cause.map(Undecodable::Refused)),
        }
    }
    Ok(())
}

#[test]
fn fields_of_variable_length_are_walked(rt: HostRuntime) -> Result<(), Fail> {
    let cases: [(&[u8], Option<Cause>, &[u128]); 6] = [
        // lengths of 0 and 2, a length in three octets, and a record that isn't begun
        (&[1, 2, 0, 6, 0, 40], None, &[40]),
        (&[1, 2, 0, 10, 2, 9, 9, 40, 0, 41], None, &[40, 41]),
        (&[1, 2, 0, 9, 255, 0, 1, 9, 40], None, &[40]),
        (&[1, 2, 0, 5, 1], None, &[]),
        // a field that passes the end, and a length that does
        (&[1, 2, 0, 6, 1, 9], Some(Cause::VarCut), &[]),
        (&[1, 2, 0, 6, 255, 0], Some(Cause::VarCut), &[]),
    ];
    for (data, cause, bytes) in cases {
        let stores = Stores::new(rt.alloc(), same_hashing()?);
        let (decoded, _) = said(rt.alloc(), &stores, &[HEADER, VARIABLE, data])?;
        match decoded {
            Ok(decoded) => {
                assert_eq!(rt; decoded.rows.len(), bytes.len());
                for (row, bytes) in decoded.rows.as_slice().iter().zip(bytes) {
                    assert_eq!(rt; row.flow.counts.bytes, *bytes);
                }
                assert_eq!(rt; None, cause);
            }
            Err(refused) => assert_eq!(rt; Some(refused), cause.map(Undecodable::Refused)),
        }
    }
    Ok(())
}
