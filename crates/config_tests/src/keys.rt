use acct_types::{
    Addr, AsFrom, CellRef, Column, Counts, FlowRecord, Hop, List, NoMemory, Prefix, Primitives,
    RouteAttrs, RouteRef, Text,
};
use pretag_map::{TagFacts, Tags, is_label};
use primitive_keys::{facts, key_of};
use std::alloc::Global;
use std::test::Fail;

const EXPORTER: Addr = Addr::V4(0xc000_0201);

const SRC: Addr = Addr::V6(0x2001_0db8_0001_0002_0003_0004_0005_0006);

const DST: Addr = Addr::V4(0x0a01_0203);

const NO_TAGS: Tags = Tags {
    tag: 0,
    tag2: 0,
    label: None,
};

/// A record that has no part.
const EMPTY: FlowRecord = FlowRecord {
    exporter: EXPORTER,
    source_id: 5,
    src: None,
    dst: None,
    src_port: None,
    dst_port: None,
    proto: None,
    tos: None,
    in_iface: None,
    out_iface: None,
    src_as: None,
    dst_as: None,
    src_mask: None,
    dst_mask: None,
    vlan: None,
    src_mac: None,
    dst_mac: None,
    bgp_next_hop: None,
    counts: Counts {
        bytes: 1,
        packets: 1,
        flows: 1,
    },
};

/// A record that has all parts.
const FULL: FlowRecord = FlowRecord {
    exporter: EXPORTER,
    source_id: 5,
    src: Some(SRC),
    dst: Some(DST),
    src_port: Some(1024),
    dst_port: Some(80),
    proto: Some(6),
    tos: Some(7),
    in_iface: Some(8),
    out_iface: Some(9),
    src_as: Some(4_200_000_000),
    dst_as: Some(11),
    src_mask: Some(48),
    dst_mask: Some(9),
    vlan: Some(100),
    src_mac: Some(0xffff_0102_0304_0506),
    dst_mac: Some(0x0a0b_0c0d_0e0f),
    bgp_next_hop: Some(Addr::V4(0x0a09_0909)),
    counts: Counts {
        bytes: 1,
        packets: 1,
        flows: 1,
    },
};

/// What keys are made of, besides the record.
#[derive(Clone, Copy)]
struct Given<'a, 'l> {
    from: AsFrom,
    src: Option<&'a RouteRef<'a>>,
    dst: Option<&'a RouteRef<'a>>,
    tags: Tags,
    label: Option<&'l Text>,
    window: u64,
}

const NOTHING: Given<'static, 'static> = Given {
    from: AsFrom::Export,
    src: None,
    dst: None,
    tags: NO_TAGS,
    label: None,
    window: 0,
};

/// A path of single systems, and then a set where one is given.
fn attrs_of(alloc: Global, systems: &[u32], set: &[u32]) -> Result<RouteAttrs, NoMemory> {
    let mut path = List::new(alloc);
    for system in systems {
        path.push(Hop::One(*system))?;
    }
    if !set.is_empty() {
        path.push(Hop::Set(List::from_slice(alloc, set)?))?;
    }
    Ok(RouteAttrs {
        origin: 0,
        path,
        med: Some(20),
        local_pref: Some(100),
        communities: List::from_slice(alloc, &[0xfc00_0064, 0x0001_0002])?,
    })
}

fn first_cell_is(
    alloc: Global,
    column: Column,
    r: &FlowRecord,
    given: &Given<'_, '_>,
    want: CellRef<'_>,
) -> Result<bool, NoMemory> {
    let p = Primitives::none().with(column);
    let Given {
        from,
        src,
        dst,
        tags,
        label,
        window,
    } = given;
    if let Some(label) = label
        && !is_label(label.as_slice())
    {
        return Ok(false);
    }
    let key = key_of(alloc, &p, r, *from, *src, *dst, tags, *label, *window)?;
    let mut cells = key.cells();
    Ok(cells.next() == Some(want) && cells.next() == None)
}

#[test]
fn takes_what_was_exported(rt: HostRuntime) -> Result<(), Fail> {
    let alloc = rt.alloc();
    let attrs = attrs_of(alloc, &[1], &[])?;
    let route = RouteRef {
        prefix: Prefix::new(SRC, 16).ok_or("no prefix")?,
        path_id: 0,
        next_hop: Addr::V4(1),
        attrs: &attrs,
    };
    let label = Text::from_slice(alloc, b"x:1")?;
    let given = Given {
        from: AsFrom::Export,
        src: Some(&route),
        dst: Some(&route),
        tags: Tags {
            tag: 70,
            tag2: 71,
            label: Some(3),
        },
        label: Some(&label),
        window: 60_000,
    };
    for (column, want) in [
        (Column::Tag, CellRef::Number(70)),
        (Column::Tag2, CellRef::Number(71)),
        (Column::Label, CellRef::Words(b"x:1")),
        (Column::AcctWindow, CellRef::Number(60_000)),
        (Column::SrcMac, CellRef::Mac(0x0102_0304_0506)),
        (Column::DstMac, CellRef::Mac(0x0a0b_0c0d_0e0f)),
        (Column::Vlan, CellRef::Number(100)),
        (Column::SrcAs, CellRef::Number(4_200_000_000)),
        (Column::DstAs, CellRef::Number(11)),
        (Column::StdComm, CellRef::Words(b"")),
        (Column::AsPath, CellRef::Words(b"")),
        (Column::LocalPref, CellRef::Number(0)),
        (Column::Med, CellRef::Number(0)),
        (Column::PeerDstAs, CellRef::Number(0)),
        (Column::PeerSrcIp, CellRef::Address(EXPORTER)),
        (Column::PeerDstIp, CellRef::Address(Addr::V4(0x0a09_0909))),
        (Column::InIface, CellRef::Number(8)),
        (Column::OutIface, CellRef::Number(9)),
        (Column::SrcHost, CellRef::Address(SRC)),
        (Column::DstHost, CellRef::Address(DST)),
        (
            Column::SrcNet,
            CellRef::Address(Addr::V6(0x2001_0db8_0001_0000_0000_0000_0000_0000)),
        ),
        (Column::DstNet, CellRef::Address(Addr::V4(0x0a00_0000))),
        (Column::SrcMask, CellRef::Number(48)),
        (Column::DstMask, CellRef::Number(9)),
        (Column::SrcPort, CellRef::Number(1024)),
        (Column::DstPort, CellRef::Number(80)),
        (Column::Proto, CellRef::Number(6)),
        (Column::Tos, CellRef::Number(7)),
    ] {
        assert!(rt;
            first_cell_is(alloc, column, &FULL, &given, want)?,
            "{column:?}"
        );
    }
    Ok(())
}

#[test]
fn has_a_cell_for_what_is_absent(rt: HostRuntime) -> Result<(), Fail> {
    for column in Column::all() {
        let want = match column {
            Column::Label | Column::StdComm | Column::AsPath => CellRef::Words(b""),
            Column::SrcMac | Column::DstMac => CellRef::Mac(0),
            Column::PeerSrcIp => CellRef::Address(EXPORTER),
            Column::PeerDstIp
            | Column::SrcHost
            | Column::DstHost
            | Column::SrcNet
            | Column::DstNet => CellRef::Address(Addr::V4(0)),
            _ => CellRef::Number(0),
        };
        assert!(rt;
            first_cell_is(rt.alloc(), *column, &EMPTY, &NOTHING, want)?,
            "{column:?}"
        );
    }
    Ok(())
}

#[test]
fn takes_the_parts_of_routes(rt: HostRuntime) -> Result<(), Fail> {
    let alloc = rt.alloc();
    let to_src = attrs_of(alloc, &[64512, 64513], &[])?;
    let to_dst = attrs_of(alloc, &[64600, 64700], &[3, 1])?;
    let src = RouteRef {
        prefix: Prefix::new(SRC, 33).ok_or("no prefix")?,
        path_id: 0,
        next_hop: Addr::V4(1),
        attrs: &to_src,
    };
    let dst = RouteRef {
        prefix: Prefix::new(DST, 8).ok_or("no prefix")?,
        path_id: 0,
        next_hop: Addr::V6(2),
        attrs: &to_dst,
    };
    let given = Given {
        from: AsFrom::Bgp,
        src: Some(&src),
        dst: Some(&dst),
        tags: NO_TAGS,
        label: None,
        window: 0,
    };
    for (column, want) in [
        (Column::SrcAs, CellRef::Number(64513)),
        (Column::DstAs, CellRef::Number(0)),
        (Column::StdComm, CellRef::Words(b"64512:100_1:2")),
        (Column::AsPath, CellRef::Words(b"64600_64700_{3_1}")),
        (Column::LocalPref, CellRef::Number(100)),
        (Column::Med, CellRef::Number(20)),
        (Column::PeerDstAs, CellRef::Number(64600)),
        (Column::PeerSrcIp, CellRef::Address(EXPORTER)),
        (Column::PeerDstIp, CellRef::Address(Addr::V6(2))),
        (Column::SrcHost, CellRef::Address(SRC)),
        (
            Column::SrcNet,
            CellRef::Address(Addr::V6(0x2001_0db8_0000_0000_0000_0000_0000_0000)),
        ),
        (Column::DstNet, CellRef::Address(Addr::V4(0x0a00_0000))),
        (Column::SrcMask, CellRef::Number(33)),
        (Column::DstMask, CellRef::Number(8)),
        (Column::Proto, CellRef::Number(6)),
    ] {
        assert!(rt;
            first_cell_is(alloc, column, &FULL, &given, want)?,
            "{column:?}"
        );
    }
    let want = TagFacts {
        exporter: EXPORTER,
        source_id: 5,
        in_iface: 8,
        out_iface: 9,
        src_as: 64513,
        dst_as: 0,
        src: SRC,
        dst: DST,
    };
    assert_eq!(rt; facts(&FULL, AsFrom::Bmp, Some(&src), Some(&dst)), want);
    let want = TagFacts {
        src_as: 4_200_000_000,
        dst_as: 11,
        ..want
    };
    assert_eq!(rt; facts(&FULL, AsFrom::Export, Some(&src), Some(&dst)), want);
    let want = TagFacts {
        in_iface: 0,
        out_iface: 0,
        src_as: 0,
        dst_as: 0,
        src: Addr::V4(0),
        dst: Addr::V4(0),
        ..want
    };
    assert_eq!(rt; facts(&EMPTY, AsFrom::Bgp, None, None), want);
    Ok(())
}

#[test]
fn knows_paths_without_a_single_system_at_an_end(rt: HostRuntime) -> Result<(), Fail> {
    let alloc = rt.alloc();
    for (set, path) in [([].as_slice(), b"".as_slice()), (&[7, 6], b"{7_6}")] {
        let attrs = attrs_of(alloc, &[], set)?;
        let route = RouteRef {
            prefix: Prefix::new(DST, 0).ok_or("no prefix")?,
            path_id: 0,
            next_hop: Addr::V4(1),
            attrs: &attrs,
        };
        let given = Given {
            from: AsFrom::Bmp,
            src: None,
            dst: Some(&route),
            tags: NO_TAGS,
            label: None,
            window: 0,
        };
        for (column, want) in [
            (Column::SrcAs, CellRef::Number(0)),
            (Column::DstAs, CellRef::Number(0)),
            (Column::PeerDstAs, CellRef::Number(0)),
            (Column::AsPath, CellRef::Words(path)),
            // Without a route the net is zero, in the family of the address.
            (Column::SrcNet, CellRef::Address(Addr::V6(0))),
            (Column::DstNet, CellRef::Address(Addr::V4(0))),
        ] {
            assert!(rt;
                first_cell_is(alloc, column, &FULL, &given, want)?,
                "{column:?}"
            );
        }
    }
    Ok(())
}

#[test]
fn clears_the_bits_past_a_mask(rt: HostRuntime) -> Result<(), Fail> {
    let all = Addr::V6(u128::MAX);
    for (address, mask, want) in [
        (DST, 0, Addr::V4(0)),
        (DST, 31, Addr::V4(0x0a01_0202)),
        (DST, 32, DST),
        (DST, 33, DST),
        (DST, u64::MAX, DST),
        (all, 0, Addr::V6(0)),
        (all, 33, Addr::V6(0xffff_ffff_8000_0000_0000_0000_0000_0000)),
        (all, 128, all),
        (all, 300, all),
    ] {
        let r = FlowRecord {
            dst: Some(address),
            dst_mask: Some(mask),
            ..EMPTY
        };
        let want = CellRef::Address(want);
        assert!(rt;
            first_cell_is(rt.alloc(), Column::DstNet, &r, &NOTHING, want)?,
            "{address}/{mask}"
        );
    }
    Ok(())
}

#[test]
fn keeps_the_columns_in_order(rt: HostRuntime) -> Result<(), Fail> {
    let p = Primitives::none()
        .with(Column::Tos)
        .with(Column::DstHost)
        .with(Column::Tag)
        .with_flows();
    let key = key_of(
        rt.alloc(),
        &p,
        &FULL,
        AsFrom::Export,
        None,
        None,
        &NO_TAGS,
        None,
        0,
    )?;
    let mut cells = key.cells();
    assert_eq!(rt; cells.next(), Some(CellRef::Number(0)));
    assert_eq!(rt; cells.next(), Some(CellRef::Address(DST)));
    assert_eq!(rt; cells.next(), Some(CellRef::Number(7)));
    assert_eq!(rt; cells.next(), None);
    Ok(())
}
