use acct_types::{Addr, Counts, FlowRecord, NoMemory};
use fixtures::same_hashing;
use flow_sets::read_sets;
use flow_templates::{
    Cause, Domain, Notice, NoticeCause, RawDecoded, RawRecord, Staged, Stores, Undecodable,
};
use std::alloc::Global;
use std::test::Fail;

const EXPORTER: Addr = Addr::V4(0xc000_0201);

// template 256 of version 9: addresses, ports, protocol, packets, bytes
const TEMPLATE: [u8; 36] = [
    0, 0, 0, 36, 1, 0, 0, 7, 0, 8, 0, 4, 0, 12, 0, 4, 0, 7, 0, 2, 0, 11, 0, 2, 0, 4, 0, 1, 0, 2, 0,
    4, 0, 1, 0, 4,
];

// one record of 21 octets, and three of padding
const DATA: [u8; 28] = [
    1, 0, 0, 28, 10, 0, 0, 1, 20, 0, 0, 2, 4, 0, 0, 80, 6, 0, 0, 0, 5, 0, 0, 1, 244, 0, 0, 0,
];

// template 256 of version 9: bytes in one octet
const ONE_OCTET: [u8; 12] = [0, 0, 0, 12, 1, 0, 0, 1, 0, 1, 0, 1];

// what the sets give, one behind another
fn decode(alloc: Global, ipfix: bool, sets: &[&[u8]]) -> Result<RawDecoded, Undecodable> {
    let mut octets = Vec::new(alloc);
    for set in sets {
        octets.extend_from_slice(set).map_err(|_| NoMemory)?;
    }
    decode_octets(alloc, ipfix, &octets)
}

fn decode_octets(alloc: Global, ipfix: bool, octets: &[u8]) -> Result<RawDecoded, Undecodable> {
    let version = if ipfix { 10 } else { 9 };
    let domain = Domain {
        exporter: EXPORTER,
        version,
        id: 77,
    };
    let hashing = same_hashing().map_err(|_| NoMemory)?;
    let stores = Stores::new(alloc, hashing);
    let mut staged = Staged::new(alloc, hashing);
    let size = octets.len().min(65535);
    read_sets(alloc, &stores, &mut staged, &domain, &octets[..size])
}

// what the second set gives behind the first
fn decode_two(
    alloc: Global,
    ipfix: bool,
    first: &[u8],
    second: &[u8],
) -> Result<RawDecoded, Undecodable> {
    let mut octets = Vec::from_slice(alloc, first).map_err(|_| NoMemory)?;
    octets.extend_from_slice(second).map_err(|_| NoMemory)?;
    decode_octets(alloc, ipfix, &octets)
}

// the one record of the sets
fn only_row(alloc: Global, ipfix: bool, sets: &[&[u8]]) -> Result<RawRecord, Fail> {
    let decoded = decode(alloc, ipfix, sets).map_err(|_| "refused")?;
    match decoded.rows.as_slice() {
        [row] => Ok(*row),
        _ => Err("not one record".into()),
    }
}

// how many bytes each record has, the last one in the low eight bits
fn bytes_in_turn(alloc: Global, ipfix: bool, sets: &[&[u8]]) -> Result<u128, Fail> {
    let decoded = decode(alloc, ipfix, sets).map_err(|_| "refused")?;
    let mut turn = 0u128;
    for row in decoded.rows.as_slice() {
        turn = turn.wrapping_mul(256).wrapping_add(row.flow.counts.bytes);
    }
    Ok(turn)
}

// why the second set is refused behind the first
fn refused(alloc: Global, ipfix: bool, first: &[u8], second: &[u8]) -> Option<Undecodable> {
    decode_two(alloc, ipfix, first, second).err()
}

#[test]
fn a_record_field_by_field(rt: HostRuntime) -> Result<(), Fail> {
    let row = only_row(rt.alloc(), false, &[&TEMPLATE, &DATA])?;
    let flow = FlowRecord {
        exporter: EXPORTER,
        source_id: 77,
        src: Some(Addr::V4(0x0a00_0001)),
        dst: Some(Addr::V4(0x1400_0002)),
        src_port: Some(1024),
        dst_port: Some(80),
        proto: Some(6),
        tos: None,
        in_iface: None,
        out_iface: None,
        src_as: None,
        dst_as: None,
        src_mask: None,
        dst_mask: None,
        vlan: None,
        src_mac: None,
        dst_mac: None,
        bgp_next_hop: None,
        counts: Counts {
            bytes: 500,
            packets: 5,
            flows: 1,
        },
    };
    let wanted = RawRecord {
        flow,
        own_rate: None,
        learned_rate: None,
        header_rate: 1,
    };
    assert!(rt; row == wanted);
    Ok(())
}

#[test]
fn a_template_holds_for_what_follows(rt: HostRuntime) -> Result<(), Fail> {
    let decoded = decode(rt.alloc(), false, &[&DATA, &TEMPLATE, &DATA]).map_err(|_| "refused")?;
    assert_eq!(rt; decoded.rows.len(), 1);
    let [notice] = decoded.notices.as_slice() else {
        return Err("not one notice".into());
    };
    let wanted = Notice {
        set: 1,
        cause: NoticeCause::NoTemplate(256),
    };
    assert!(rt; *notice == wanted);
    Ok(())
}

#[test]
fn a_template_is_replaced_between_two_sets(rt: HostRuntime) -> Result<(), Fail> {
    // the record of the first, and then each octet is one
    let last = [1, 0, 0, 8, 9, 8, 7, 6];
    let sets: [&[u8]; 4] = [&TEMPLATE, &DATA, &ONE_OCTET, &last];
    let turn = bytes_in_turn(rt.alloc(), false, &sets)?;
    assert_eq!(rt; turn, 500 * 256 * 256 * 256 * 256 + 0x0908_0706);
    Ok(())
}

#[test]
fn what_is_shorter_than_a_record_is_padding(rt: HostRuntime) -> Result<(), Fail> {
    // two octets of bytes and two that aren't read
    let template = [0, 0, 0, 16, 1, 0, 0, 2, 0, 1, 0, 2, 3, 231, 0, 2];
    let octets = [0, 1, 9, 9, 9, 9, 9, 9];
    for (padding, records) in [(0u8, 1usize), (1, 1), (2, 1), (3, 1), (4, 2)] {
        let mut set = [0u8; 12];
        set[..4].copy_from_slice(&[1, 0, 0, 8 + padding]);
        set[4..].copy_from_slice(&octets);
        let size = usize::from(8 + padding).min(12);
        let decoded = decode_two(rt.alloc(), false, &template, &set[..size]);
        assert_eq!(rt; decoded.map_err(|_| "refused")?.rows.len(), records);
    }
    let decoded = decode_two(rt.alloc(), false, &template, &[1, 0, 0, 7, 0, 5, 9]);
    assert!(rt; decoded.map_err(|_| "refused")?.rows.is_empty());
    Ok(())
}

#[test]
fn a_refusal_has_its_cause(rt: HostRuntime) {
    let set_length = Some(Undecodable::Refused(Cause::SetLength));
    let sets: [&[u8]; 6] = [
        &[1],
        &[1, 0, 0],
        &[1, 0, 0, 3],
        &[1, 0, 0, 0, 0],
        &[1, 0, 0, 5],
        &[0, 9, 255, 255, 0],
    ];
    for set in sets {
        assert_eq!(rt; refused(rt.alloc(), false, &TEMPLATE, set), set_length);
    }
    // the cause that stands first, also where a later set has another
    let first: [(&[u8], Cause); 4] = [
        (&[0, 0, 0, 12, 1, 0, 0, 9, 0, 1, 0, 1], Cause::TemplateCut),
        (&[0, 0, 0, 12, 0, 9, 0, 1, 0, 1, 0, 1], Cause::TemplateId),
        (&[0, 0, 0, 12, 1, 0, 0, 1, 0, 1, 0, 9], Cause::FieldWidth),
        (&[0, 0, 0, 8, 1, 0, 0, 0], Cause::TemplateEmpty),
    ];
    for (set, cause) in first {
        let wanted = Some(Undecodable::Refused(cause));
        assert_eq!(rt; refused(rt.alloc(), false, set, &[1, 0, 0, 3]), wanted);
        assert_eq!(rt; refused(rt.alloc(), false, &[1, 0, 0, 3], set), set_length);
    }
    // four octets of zeros are a record, three are padding
    let zeros = [0, 0, 0, 16, 1, 0, 0, 1, 0, 1, 0, 1, 0, 0, 0, 0];
    let wanted = Some(Undecodable::Refused(Cause::TemplateId));
    assert_eq!(rt; refused(rt.alloc(), false, &TEMPLATE, &zeros), wanted);
    let zeros = [0, 0, 0, 15, 1, 0, 0, 1, 0, 1, 0, 1, 0, 0, 0];
    assert_eq!(rt; refused(rt.alloc(), false, &TEMPLATE, &zeros), None);
}

#[test]
fn a_notice_has_the_number_of_its_set(rt: HostRuntime) -> Result<(), Fail> {
    let sets: [&[u8]; 6] = [
        &TEMPLATE,
        &[0, 2, 0, 4],
        &DATA,
        &[0, 255, 0, 6, 1, 2],
        &[1, 1, 0, 4],
        &[0, 0, 0, 4],
    ];
    let decoded = decode(rt.alloc(), false, &sets).map_err(|_| "refused")?;
    let [two, four, five] = decoded.notices.as_slice() else {
        return Err("not three notices".into());
    };
    assert!(rt; two.set == 2 && two.cause == NoticeCause::ReservedSet(2));
    assert!(rt; four.set == 4 && four.cause == NoticeCause::ReservedSet(255));
    assert!(rt; five.set == 5 && five.cause == NoticeCause::NoTemplate(257));
    Ok(())
}

#[test]
fn ids_of_version_nine_are_reserved_in_ipfix(rt: HostRuntime) -> Result<(), Fail> {
    for id in [0u8, 1, 4, 255] {
        let decoded = decode(rt.alloc(), true, &[&[0, id, 0, 4]]).map_err(|_| "refused")?;
        let [notice] = decoded.notices.as_slice() else {
            return Err("not one notice".into());
        };
        assert_eq!(rt; notice.cause, NoticeCause::ReservedSet(u16::from(id)));
    }
    Ok(())
}

#[test]
fn a_number_has_one_to_eight_octets(rt: HostRuntime) -> Result<(), Fail> {
    let mut wanted = 0u64;
    for width in 1u8..9 {
        let template = [0, 0, 0, 16, 1, 0, 0, 2, 0, 7, 0, width, 0, 1, 0, 8];
        let data = [
            1,
            0,
            0,
            12 + width,
            1,
            2,
            3,
            4,
            5,
            6,
            7,
            8,
            9,
            9,
            9,
            9,
            9,
            9,
            9,
            9,
        ];
        let size = usize::from(12 + width).min(20);
        let row = only_row(rt.alloc(), false, &[&template, &data[..size]])?;
        wanted = wanted.wrapping_mul(256).wrapping_add(u64::from(width));
        assert_eq!(rt; row.flow.src_port, Some(wanted));
    }
    Ok(())
}

#[test]
fn of_an_element_the_first_field_counts(rt: HostRuntime) -> Result<(), Fail> {
    let template = [0, 0, 0, 16, 1, 0, 0, 2, 0, 7, 0, 1, 0, 7, 0, 1];
    let row = only_row(rt.alloc(), false, &[&template, &[1, 0, 0, 6, 3, 4]])?;
    assert_eq!(rt; row.flow.src_port, Some(3));
    Ok(())
}

#[test]
fn bytes_are_those_of_the_first_element_there(rt: HostRuntime) -> Result<(), Fail> {
    // elements 23 and 85, the latter in IPFIX alone, and then 1
    let nine = [0, 0, 0, 16, 1, 0, 0, 2, 0, 23, 0, 1, 0, 85, 0, 1];
    let ipfix = [0, 2, 0, 16, 1, 0, 0, 2, 0, 23, 0, 1, 0, 85, 0, 1];
    let all = [
        0, 2, 0, 20, 1, 0, 0, 3, 0, 23, 0, 1, 0, 85, 0, 1, 0, 1, 0, 1,
    ];
    let data = [1, 0, 0, 6, 3, 4];
    assert_eq!(rt; bytes_in_turn(rt.alloc(), false, &[&nine, &data])?, 3);
    assert_eq!(rt; bytes_in_turn(rt.alloc(), true, &[&ipfix, &data])?, 4);
    assert_eq!(rt;
        bytes_in_turn(rt.alloc(), true, &[&all, &[1, 0, 0, 7, 3, 4, 5]])?,
        5
    );
    Ok(())
}

#[test]
fn an_ipv4_address_wins_wherever_it_stands(rt: HostRuntime) -> Result<(), Fail> {
    let before = [0, 0, 0, 16, 1, 0, 0, 2, 0, 8, 0, 4, 0, 27, 0, 16];
    let behind = [0, 0, 0, 16, 1, 0, 0, 2, 0, 27, 0, 16, 0, 8, 0, 4];
    let alone = [0, 0, 0, 12, 1, 0, 0, 1, 0, 27, 0, 16];
    let data = [
        1, 0, 0, 24, 1, 1, 1, 1, 1, 1, 1, 1, 1, 1, 1, 1, 1, 1, 1, 1, 1, 1, 1, 1,
    ];
    let wanted = Some(Addr::V4(0x0101_0101));
    let row = only_row(rt.alloc(), false, &[&before, &data])?;
    assert_eq!(rt; row.flow.src, wanted);
    let row = only_row(rt.alloc(), false, &[&behind, &data])?;
    assert_eq!(rt; row.flow.src, wanted);
    let row = only_row(rt.alloc(), false, &[&alone, &data])?;
    let wanted = Addr::V6(0x0101_0101_0101_0101_0101_0101_0101_0101);
    assert_eq!(rt; row.flow.src, Some(wanted));
    Ok(())
}

#[test]
fn an_own_rate_is_from_1_to_4294967295(rt: HostRuntime) -> Result<(), Fail> {
    let template = [0, 0, 0, 12, 1, 0, 0, 1, 0, 34, 0, 5];
    for (high, low, wanted) in [
        (0u8, 0u8, 1u32),
        (0, 7, 7),
        (1, 0, 4_294_967_295),
        (1, 1, 4_294_967_295),
    ] {
        let data = [1, 0, 0, 9, high, 0, 0, 0, low];
        let row = only_row(rt.alloc(), false, &[&template, &data])?;
        assert_eq!(rt; row.own_rate, Some(wanted));
    }
    Ok(())
}

// options template 257 of version 9: a scope of elements 8 and 34 in two octets and one, then 48 and 34
const SAMPLERS: [u8; 26] = [
    0, 1, 0, 26, 1, 1, 0, 8, 0, 8, 0, 8, 0, 2, 0, 34, 0, 1, 0, 48, 0, 1, 0, 34, 0, 2,
];

// sampler 5 has the rate 100
const SAMPLER: [u8; 10] = [1, 1, 0, 10, 9, 9, 9, 5, 0, 100];

// template 258 of version 9: sampler and bytes
const SAMPLED: [u8; 16] = [0, 0, 0, 16, 1, 2, 0, 2, 0, 48, 0, 1, 0, 1, 0, 1];

#[test]
fn an_option_record_teaches_those_behind_it(rt: HostRuntime) -> Result<(), Fail> {
    let five = [1, 2, 0, 6, 5, 1];
    let six = [1, 2, 0, 6, 6, 1];
    let sets: [&[u8]; 6] = [&SAMPLERS, &SAMPLED, &five, &SAMPLER, &five, &six];
    let decoded = decode(rt.alloc(), false, &sets).map_err(|_| "refused")?;
    let [before, behind, other] = decoded.rows.as_slice() else {
        return Err("not three records".into());
    };
    assert_eq!(rt; before.learned_rate, None);
    assert_eq!(rt; behind.learned_rate, Some(100));
    assert_eq!(rt; other.learned_rate, None);
    Ok(())
}

#[test]
fn the_rate_without_a_sampler_serves_unknown_samplers(rt: HostRuntime) -> Result<(), Fail> {
    // options template 259: element 50 alone
    let options = [0, 1, 0, 14, 1, 3, 0, 0, 0, 4, 0, 50, 0, 1];
    let zero = [1, 3, 0, 5, 0];
    let five = [1, 2, 0, 6, 5, 1];
    let six = [1, 2, 0, 6, 6, 1];
    let sets: [&[u8]; 7] = [&SAMPLERS, &SAMPLED, &options, &SAMPLER, &zero, &five, &six];
    let decoded = decode(rt.alloc(), false, &sets).map_err(|_| "refused")?;
    let [known, unknown] = decoded.rows.as_slice() else {
        return Err("not two records".into());
    };
    assert_eq!(rt; known.learned_rate, Some(100));
    assert_eq!(rt; unknown.learned_rate, Some(1));
    Ok(())
}

// options template 257 of IPFIX: a scope of element 302, then 305 and 306
const SELECTORS: [u8; 22] = [
    0, 3, 0, 22, 1, 1, 0, 3, 0, 1, 1, 46, 0, 1, 1, 49, 0, 1, 1, 50, 0, 1,
];

#[test]
fn an_interval_and_a_space_are_a_rate(rt: HostRuntime) -> Result<(), Fail> {
    // template 258 of IPFIX: selector, sampler, bytes
    let sampled = [
        0, 2, 0, 20, 1, 2, 0, 3, 1, 46, 0, 1, 0, 48, 0, 1, 0, 1, 0, 1,
    ];
    let data = [1, 2, 0, 7, 7, 8, 1];
    for (interval, space, wanted) in [(2u8, 17u8, Some(9u32)), (1, 0, Some(1)), (0, 9, None)] {
        let taught = [1, 1, 0, 7, 7, interval, space];
        let row = only_row(rt.alloc(), true, &[&SELECTORS, &sampled, &taught, &data])?;
        assert_eq!(rt; row.learned_rate, wanted);
    }
    Ok(())
}

// template 256 of IPFIX: bytes, a field of variable width, packets
const VARIABLE: [u8; 20] = [
    0, 2, 0, 20, 1, 0, 0, 3, 0, 1, 0, 1, 0, 82, 255, 255, 0, 2, 0, 1,
];

#[test]
fn a_field_of_variable_width_tells_its_length(rt: HostRuntime) -> Result<(), Fail> {
    // no octet, two, and one in the long form; then padding of two
    let short = [
        1, 0, 0, 20, 1, 0, 6, 2, 2, 9, 9, 7, 3, 255, 0, 1, 9, 8, 0, 0,
    ];
    let decoded = decode(rt.alloc(), true, &[&VARIABLE, &short]).map_err(|_| "refused")?;
    let [one, two, three] = decoded.rows.as_slice() else {
        return Err("not three records".into());
    };
    assert_eq!(rt; (one.flow.counts.bytes, one.flow.counts.packets), (1, 6));
    assert_eq!(rt; (two.flow.counts.bytes, two.flow.counts.packets), (2, 7));
    assert_eq!(rt;
        (three.flow.counts.bytes, three.flow.counts.packets),
        (3, 8)
    );
    Ok(())
}

#[test]
fn a_length_of_255_octets_takes_the_long_form(rt: HostRuntime) -> Result<(), Fail> {
    let mut long = [9u8; 264];
    long[..8].copy_from_slice(&[1, 0, 1, 8, 4, 255, 0, 255]);
    long[263] = 5;
    let row = only_row(rt.alloc(), true, &[&VARIABLE, &long])?;
    assert_eq!(rt; (row.flow.counts.bytes, row.flow.counts.packets), (4, 5));
    let mut short = [9u8; 261];
    short[..6].copy_from_slice(&[1, 0, 1, 5, 4, 254]);
    short[260] = 6;
    let row = only_row(rt.alloc(), true, &[&VARIABLE, &short])?;
    assert_eq!(rt; (row.flow.counts.bytes, row.flow.counts.packets), (4, 6));
    Ok(())
}

#[test]
fn a_record_may_pass_the_end_of_its_set(rt: HostRuntime) {
    let wanted = Some(Undecodable::Refused(Cause::VarCut));
    let sets: [&[u8]; 5] = [
        &[1, 0, 0, 7, 1, 1, 6],
        &[1, 0, 0, 7, 1, 9, 6],
        &[1, 0, 0, 7, 1, 255, 0],
        &[1, 0, 0, 8, 1, 255, 0, 9],
        &[1, 0, 0, 10, 1, 0, 6, 2, 3, 9],
    ];
    for set in sets {
        assert_eq!(rt; refused(rt.alloc(), true, &VARIABLE, set), wanted);
    }
}

#[test]
fn the_element_of_an_enterprise_is_skipped(rt: HostRuntime) -> Result<(), Fail> {
    // element 1 of enterprise 9, and then bytes
    let template = [
        0, 2, 0, 20, 1, 0, 0, 2, 128, 1, 0, 1, 0, 0, 0, 9, 0, 1, 0, 1,
    ];
    let turn = bytes_in_turn(rt.alloc(), true, &[&template, &[1, 0, 0, 6, 3, 4]])?;
    assert_eq!(rt; turn, 4);
    Ok(())
}
