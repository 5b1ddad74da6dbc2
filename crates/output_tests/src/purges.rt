use acct_types::{Addr, Column, Counts, Key, Layout, List, NoMemory, Octets, Primitives, Purge};
use out_text::purge_text;
use std::alloc::Global;
use std::test::Fail;

// A cell of a key.
#[derive(Clone, Copy)]
enum Value {
    Number(u64),
    Address(Addr),
    Mac(u64),
    Label,
    LongLabel,
    Communities,
    Path,
    Empty,
}

// A purge and its text.
struct Case {
    name: &'static str,
    columns: &'static [Column],
    flows: bool,
    rows: &'static [&'static [Value]],
    counts: Counts,
    layout: Layout,
    want: &'static str,
}

const COUNTED: Counts = Counts {
    bytes: 840,
    packets: 10,
    flows: 1,
};

// One row without a cell, which is counted with its flows.
const ONE: Case = Case {
    name: "",
    columns: &[],
    flows: true,
    rows: &[&[]],
    counts: COUNTED,
    layout: Layout::Csv,
    want: "",
};

static VALUES: [Value; 28] = [
    Value::Number(u64::MAX),
    Value::Number(2),
    Value::Label,
    Value::Number(60000),
    Value::Mac(0x0a0b_0c0d_0e0f),
    Value::Mac(0xffff_0123_4567_89ab),
    Value::Number(4095),
    Value::Number(64513),
    Value::Number(4294967295),
    Value::Communities,
    Value::Path,
    Value::Number(100),
    Value::Number(50),
    Value::Number(64512),
    Value::Address(Addr::V4(0xc000_0201)),
    Value::Address(Addr::V6(1)),
    Value::Number(3),
    Value::Number(4),
    Value::Address(Addr::V4(0x0a00_0001)),
    Value::Address(Addr::V6(u128::MAX)),
    Value::Address(Addr::V4(0x0a00_0000)),
    Value::Address(Addr::V6(0x2001_0db8 << 96)),
    Value::Number(8),
    Value::Number(32),
    Value::Number(1024),
    Value::Number(80),
    Value::Number(6),
    Value::Number(224),
];

static ABSENT: [Value; 28] = [
    Value::Number(0),
    Value::Number(0),
    Value::Empty,
    Value::Number(0),
    Value::Mac(0),
    Value::Mac(0),
    Value::Number(0),
    Value::Number(0),
    Value::Number(0),
    Value::Empty,
    Value::Empty,
    Value::Number(0),
    Value::Number(0),
    Value::Number(0),
    Value::Address(Addr::V4(0)),
    Value::Address(Addr::V4(0)),
    Value::Number(0),
    Value::Number(0),
    Value::Address(Addr::V4(0)),
    Value::Address(Addr::V4(0)),
    Value::Address(Addr::V4(0)),
    Value::Address(Addr::V4(0)),
    Value::Number(0),
    Value::Number(0),
    Value::Number(0),
    Value::Number(0),
    Value::Number(0),
    Value::Number(0),
];

const FORMATTED: &str =
    "TAG                   TAG2                  LABEL                     WINDOW                SRC_MAC            DST_MAC            VLAN   SRC_AS      DST_AS      COMMS                     AS_PATH                   LOCAL_PREF  MED         PEER_DST_AS  PEER_SRC_IP                              PEER_DST_IP                              IN_IFACE    OUT_IFACE   SRC_IP                                   DST_IP                                   SRC_NET                                  DST_NET                                  SRC_MASK  DST_MASK  SRC_PORT  DST_PORT  PROTOCOL  TOS  PACKETS               FLOWS                 BYTES\n18446744073709551615  2                     gold-customer             60000                 0a:0b:0c:0d:0e:0f  01:23:45:67:89:ab  4095   64513       4294967295  64512:100_64512:200       64512_{64513_64514}       100         50          64512        192.0.2.1                                ::1                                      3           4           10.0.0.1                                 ffff:ffff:ffff:ffff:ffff:ffff:ffff:ffff  10.0.0.0                                 2001:db8::                               8         32        1024      80        6         224  10                    1                     840\n0                     0                                               0                     00:00:00:00:00:00  00:00:00:00:00:00  0      0           0                                                               0           0           0            0.0.0.0                                  0.0.0.0                                  0           0           0.0.0.0                                  0.0.0.0                                  0.0.0.0                                  0.0.0.0                                  0         0         0         0         0         0    0                     0                     0\n";

const CSV: &str =
    "TAG,TAG2,LABEL,WINDOW,SRC_MAC,DST_MAC,VLAN,SRC_AS,DST_AS,COMMS,AS_PATH,LOCAL_PREF,MED,PEER_DST_AS,PEER_SRC_IP,PEER_DST_IP,IN_IFACE,OUT_IFACE,SRC_IP,DST_IP,SRC_NET,DST_NET,SRC_MASK,DST_MASK,SRC_PORT,DST_PORT,PROTOCOL,TOS,PACKETS,FLOWS,BYTES\n18446744073709551615,2,gold-customer,60000,0a:0b:0c:0d:0e:0f,01:23:45:67:89:ab,4095,64513,4294967295,64512:100_64512:200,64512_{64513_64514},100,50,64512,192.0.2.1,::1,3,4,10.0.0.1,ffff:ffff:ffff:ffff:ffff:ffff:ffff:ffff,10.0.0.0,2001:db8::,8,32,1024,80,6,224,10,1,840\n0,0,,0,00:00:00:00:00:00,00:00:00:00:00:00,0,0,0,,,0,0,0,0.0.0.0,0.0.0.0,0,0,0.0.0.0,0.0.0.0,0.0.0.0,0.0.0.0,0,0,0,0,0,0,0,0,0\n";

const JSON: &str =
    "{\"as_dst\":4294967295,\"as_path\":\"64512_{64513_64514}\",\"as_src\":64513,\"bytes\":840,\"comms\":\"64512:100_64512:200\",\"flows\":1,\"iface_in\":3,\"iface_out\":4,\"ip_dst\":\"ffff:ffff:ffff:ffff:ffff:ffff:ffff:ffff\",\"ip_proto\":6,\"ip_src\":\"10.0.0.1\",\"label\":\"gold-customer\",\"local_pref\":100,\"mac_dst\":\"01:23:45:67:89:ab\",\"mac_src\":\"0a:0b:0c:0d:0e:0f\",\"mask_dst\":32,\"mask_src\":8,\"med\":50,\"net_dst\":\"2001:db8::\",\"net_src\":\"10.0.0.0\",\"packets\":10,\"peer_as_dst\":64512,\"peer_ip_dst\":\"::1\",\"peer_ip_src\":\"192.0.2.1\",\"port_dst\":80,\"port_src\":1024,\"tag\":18446744073709551615,\"tag2\":2,\"tos\":224,\"vlan\":4095,\"window\":60000}\n{\"as_dst\":0,\"as_path\":\"\",\"as_src\":0,\"bytes\":0,\"comms\":\"\",\"flows\":0,\"iface_in\":0,\"iface_out\":0,\"ip_dst\":\"0.0.0.0\",\"ip_proto\":0,\"ip_src\":\"0.0.0.0\",\"label\":\"\",\"local_pref\":0,\"mac_dst\":\"00:00:00:00:00:00\",\"mac_src\":\"00:00:00:00:00:00\",\"mask_dst\":0,\"mask_src\":0,\"med\":0,\"net_dst\":\"0.0.0.0\",\"net_src\":\"0.0.0.0\",\"packets\":0,\"peer_as_dst\":0,\"peer_ip_dst\":\"0.0.0.0\",\"peer_ip_src\":\"0.0.0.0\",\"port_dst\":0,\"port_src\":0,\"tag\":0,\"tag2\":0,\"tos\":0,\"vlan\":0,\"window\":0}\n";

static LAYOUTS: [(Layout, &str); 3] = [
    (Layout::Formatted, FORMATTED),
    (Layout::Csv, CSV),
    (Layout::Json, JSON),
];

static CASES: [Case; 16] = [
    Case {
        name: "a number in formatted text",
        columns: &[Column::Proto],
        flows: false,
        rows: &[&[Value::Number(6)]],
        layout: Layout::Formatted,
        want: "PROTOCOL  PACKETS               BYTES\n6         10                    840\n",
        ..ONE
    },
    Case {
        name: "two numbers in JSON",
        columns: &[Column::Proto, Column::Tos],
        flows: false,
        rows: &[&[Value::Number(6), Value::Number(0)]],
        layout: Layout::Json,
        want: "{\"bytes\":840,\"ip_proto\":6,\"packets\":10,\"tos\":0}\n",
        ..ONE
    },
    Case {
        name: "a window and flows in csv",
        columns: &[Column::AcctWindow],
        rows: &[&[Value::Number(60000)]],
        want: "WINDOW,PACKETS,FLOWS,BYTES\n60000,10,1,840\n",
        ..ONE
    },
    Case {
        name: "flows alone in formatted text",
        layout: Layout::Formatted,
        want: "PACKETS               FLOWS                 BYTES\n10                    1                     840\n",
        ..ONE
    },
    Case {
        name: "flows alone in csv",
        want: "PACKETS,FLOWS,BYTES\n10,1,840\n",
        ..ONE
    },
    Case {
        name: "flows alone in JSON",
        layout: Layout::Json,
        want: "{\"bytes\":840,\"flows\":1,\"packets\":10}\n",
        ..ONE
    },
    Case {
        name: "nothing but packets and bytes",
        flows: false,
        want: "PACKETS,BYTES\n10,840\n",
        ..ONE
    },
    Case {
        name: "no row in formatted text",
        columns: &[Column::Proto],
        rows: &[],
        layout: Layout::Formatted,
        ..ONE
    },
    Case {
        name: "no row in csv",
        columns: &[Column::Proto],
        rows: &[],
        ..ONE
    },
    Case {
        name: "no row in JSON",
        columns: &[Column::Proto],
        rows: &[],
        layout: Layout::Json,
        ..ONE
    },
    Case {
        name: "cells wider than their columns",
        columns: &[Column::Label, Column::Vlan, Column::Tos],
        flows: false,
        rows: &[&[Value::LongLabel, Value::Number(123456), Value::Number(255)]],
        layout: Layout::Formatted,
        want: "LABEL                     VLAN   TOS  PACKETS               BYTES\nabcdefghijklmnopqrstuvwxyz  123456  255  10                    840\n",
        ..ONE
    },
    Case {
        name: "counts past 64 bits in JSON",
        counts: Counts {
            bytes: 18446744073709551615,
            packets: 18446744073709551616,
            flows: 340282366920938463463374607431768211455,
        },
        layout: Layout::Json,
        want: "{\"bytes\":18446744073709551615,\"flows\":\"340282366920938463463374607431768211455\",\"packets\":\"18446744073709551616\"}\n",
        ..ONE
    },
    Case {
        name: "counts past 64 bits in csv",
        flows: false,
        counts: Counts {
            bytes: 18446744073709551616,
            packets: 18446744073709551615,
            flows: 1,
        },
        want: "PACKETS,BYTES\n18446744073709551615,18446744073709551616\n",
        ..ONE
    },
    Case {
        name: "cells too few and too many in csv",
        columns: &[Column::SrcPort, Column::DstPort],
        flows: false,
        rows: &[
            &[Value::Number(1)],
            &[Value::Number(1), Value::Number(2), Value::Number(3)],
        ],
        want: "SRC_PORT,DST_PORT,PACKETS,BYTES\n1,,10,840\n1,2,10,840\n",
        ..ONE
    },
    Case {
        name: "cells too few and too many in JSON",
        columns: &[Column::SrcPort, Column::DstPort],
        flows: false,
        rows: &[
            &[Value::Number(1)],
            &[Value::Number(1), Value::Number(2), Value::Number(3)],
        ],
        layout: Layout::Json,
        want: "{\"bytes\":840,\"packets\":10,\"port_dst\":\"\",\"port_src\":1}\n{\"bytes\":840,\"packets\":10,\"port_dst\":2,\"port_src\":1}\n",
        ..ONE
    },
    Case {
        name: "spellings of IPv6 addresses",
        columns: &[Column::SrcHost, Column::DstHost],
        flows: false,
        rows: &[
            &[
                Value::Address(Addr::V6(0)),
                Value::Address(Addr::V6(0x2001_0db8_0000_0001_0001_0001_0001_0001)),
            ],
            &[
                Value::Address(Addr::V6(0x2001_0db8_0000_0000_0001_0000_0000_0001)),
                Value::Address(Addr::V6(0xffff_c000_0280)),
            ],
        ],
        want: "SRC_IP,DST_IP,PACKETS,BYTES\n::,2001:db8:0:1:1:1:1:1,10,840\n2001:db8::1:0:0:1,::ffff:c000:280,10,840\n",
        ..ONE
    },
];

// The proof of a test needn't read the tables.
fn cases() -> &'static [Case] {
    &CASES
}

fn values() -> &'static [Value] {
    &VALUES
}

fn absent() -> &'static [Value] {
    &ABSENT
}

fn layouts() -> &'static [(Layout, &'static str)] {
    &LAYOUTS
}

fn push_value(key: &mut Key, value: Value) -> Result<(), NoMemory> {
    match value {
        Value::Number(number) => key.push_number(number),
        Value::Address(address) => key.push_address(address),
        Value::Mac(mac) => key.push_mac(mac),
        Value::Label => key.push_words(b"gold-customer"),
        Value::LongLabel => key.push_words(b"abcdefghijklmnopqrstuvwxyz"),
        Value::Communities => key.push_words(b"64512:100_64512:200"),
        Value::Path => key.push_words(b"64512_{64513_64514}"),
        Value::Empty => key.push_words(b""),
    }
}

fn key_of(alloc: Global, values: &[Value]) -> Result<Key, NoMemory> {
    let mut key = Key::new(alloc);
    for value in values {
        push_value(&mut key, *value)?;
    }
    Ok(key)
}

// The columns are asked for from the last to the first.
fn primitives_of(columns: &[Column], flows: bool) -> Primitives {
    let mut primitives = Primitives::none();
    for place in (0..columns.len()).rev() {
        primitives = primitives.with(columns[place]);
    }
    if flows {
        primitives.with_flows()
    } else {
        primitives
    }
}

fn purge_of(alloc: Global, rows: &[&[Value]], counts: Counts) -> Result<Purge, NoMemory> {
    let mut keyed = List::new(alloc);
    for values in rows {
        keyed.push((key_of(alloc, values)?, counts))?;
    }
    Ok(Purge {
        window: 0,
        rows: keyed,
    })
}

#[test]
fn prints_purges(rt: HostRuntime) -> Result<(), Fail> {
    for case in cases() {
        let primitives = primitives_of(case.columns, case.flows);
        let purge = purge_of(rt.alloc(), case.rows, case.counts)?;
        let mut out = Octets::new(rt.alloc());
        purge_text(rt.alloc(), &primitives, case.layout, &purge, &mut out)?;
        assert_eq!(rt; out.as_slice(), case.want.as_bytes(), "{}", case.name);
    }
    Ok(())
}

#[test]
fn prints_each_column(rt: HostRuntime) -> Result<(), Fail> {
    let primitives = primitives_of(Column::all(), true);
    let mut rows = List::new(rt.alloc());
    rows.push((key_of(rt.alloc(), values())?, COUNTED))?;
    rows.push((key_of(rt.alloc(), absent())?, Counts::nothing()))?;
    let purge = Purge { window: 0, rows };
    for (layout, want) in layouts() {
        let mut out = Octets::from_slice(rt.alloc(), b"before\n")?;
        purge_text(rt.alloc(), &primitives, *layout, &purge, &mut out)?;
        let Some(text) = out.as_slice().strip_prefix(b"before\n") else {
            return Err("overwritten".into());
        };
        assert_eq!(rt; text, want.as_bytes());
    }
    Ok(())
}
