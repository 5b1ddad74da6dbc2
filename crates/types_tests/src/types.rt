use acct_types::{
    Addr, CellRef, Counts, Hashing, Hop, Key, List, NoMemory, Octets, Prefix, RouteAttrs, Text,
    append_decimal, numbers, read_address,
};
use std::hash::{BuildHasher, FoldHasher, Hash, Hasher};
use std::test::Fail;

#[test]
fn prints_addresses_and_reads_them_back(rt: HostRuntime) -> Result<(), Fail> {
    for (address, want) in [
        (Addr::V4(0), "0.0.0.0"),
        (Addr::V4(0xffff_ffff), "255.255.255.255"),
        (Addr::V4(0x0a00_c809), "10.0.200.9"),
        (Addr::V4(0xc000_0263), "192.0.2.99"),
        (Addr::V6(0), "::"),
        (Addr::V6(1), "::1"),
        (Addr::V6(0x0001_0000_0000_0000_0000_0000_0000_0000), "1::"),
        (
            Addr::V6(0x2001_0db8_0000_0000_0000_0000_0000_0001),
            "2001:db8::1",
        ),
        (
            Addr::V6(0xffff_ffff_ffff_ffff_ffff_ffff_ffff_ffff),
            "ffff:ffff:ffff:ffff:ffff:ffff:ffff:ffff",
        ),
        // One zero group alone is no gap.
        (
            Addr::V6(0x2001_0db8_0000_0001_0001_0001_0001_0001),
            "2001:db8:0:1:1:1:1:1",
        ),
        (
            Addr::V6(0x0000_0001_0002_0003_0004_0005_0006_0007),
            "0:1:2:3:4:5:6:7",
        ),
        (
            Addr::V6(0x0001_0002_0003_0004_0005_0006_0007_0000),
            "1:2:3:4:5:6:7:0",
        ),
        // Of two runs of one length the first is the gap.
        (
            Addr::V6(0x2001_0db8_0000_0000_0001_0000_0000_0001),
            "2001:db8::1:0:0:1",
        ),
        (
            Addr::V6(0x0001_0000_0000_0002_0000_0000_0003_0004),
            "1::2:0:0:3:4",
        ),
        // A longer run that comes later is the gap.
        (
            Addr::V6(0x0001_0000_0000_0002_0000_0000_0000_0003),
            "1:0:0:2::3",
        ),
        (
            Addr::V6(0x0001_0000_0000_0002_0000_0000_0000_0000),
            "1:0:0:2::",
        ),
        (
            Addr::V6(0x0000_0000_0001_0000_0000_0000_0000_0002),
            "0:0:1::2",
        ),
        (
            Addr::V6(0x0000_0000_0000_0001_0000_0000_0000_0001),
            "::1:0:0:0:1",
        ),
        // An IPv4-mapped address has no dots.
        (
            Addr::V6(0x0000_0000_0000_0000_0000_ffff_c000_0280),
            "::ffff:c000:280",
        ),
        (
            Addr::V6(0x0000_0000_0000_0000_0000_ffff_0000_0000),
            "::ffff:0:0",
        ),
        (
            Addr::V6(0x0000_0000_0000_0000_0000_0000_0102_0304),
            "::102:304",
        ),
        (
            Addr::V6(0x0064_ff9b_0000_0000_0000_0000_00c0_00ab),
            "64:ff9b::c0:ab",
        ),
    ] {
        let mut out = Octets::new(rt.alloc());
        address.append_text(&mut out)?;
        assert_eq!(rt; out.as_slice(), want.as_bytes());
        let shown = format!(in rt.alloc(); "{address}")?;
        assert_eq!(rt; shown.as_str(), want);
        assert_eq!(rt; read_address(want.as_bytes()), Some(address));
    }
    Ok(())
}

#[test]
fn reads_other_spellings(rt: HostRuntime) {
    for (text, want) in [
        ("1::1", 0x0001_0000_0000_0000_0000_0000_0000_0001),
        ("::ffff", 0xffff),
        ("2001:DB8::AbC", 0x2001_0db8_0000_0000_0000_0000_0000_0abc),
        ("1:2:3:4:5:6:7:8", 0x0001_0002_0003_0004_0005_0006_0007_0008),
        ("1:2:3:4:5:6:7::", 0x0001_0002_0003_0004_0005_0006_0007_0000),
        ("::2:3:4:5:6:7:8", 0x0000_0002_0003_0004_0005_0006_0007_0008),
        ("0001:0::00:000f", 0x0001_0000_0000_0000_0000_0000_0000_000f),
        ("0:0:0:0:0:0:0:0", 0),
    ] {
        assert_eq!(rt;
            read_address(text.as_bytes()),
            Some(Addr::V6(want)),
            "{text}"
        );
    }
}

#[test]
fn refuses_what_is_no_address(rt: HostRuntime) {
    for text in [
        "",
        "1:2:3:4:5:6:7:8:9",
        "::1:2:3:4:5:6:7:8",
        "1:2:3:4::5:6:7:8",
        "1:2:3:4:5:6:7",
        ":::",
        "1::2::3",
        ":1:2:3:4:5:6:7",
        "1:2:3:4:5:6:7:",
        "12345::",
        "g::",
        "::1 ",
        "::1/64",
        "::ffff:192.0.2.1",
        "1:2:3:4:5:6:192.0.2.1",
        "01.2.3.4",
        "1.2.3.00",
        "256.0.0.0",
        "1.2.3",
        "1.2.3.4.5",
        "1.2.3.",
        ".1.2.3",
        "1..2.3",
        "1.2.3.4 ",
        "+1.2.3.4",
        "0x1.2.3.4",
        "16909060",
    ] {
        assert_eq!(rt; read_address(text.as_bytes()), None, "{text}");
    }
}

#[test]
fn makes_prefixes(rt: HostRuntime) -> Result<(), Fail> {
    let v4 = Addr::V4(0xcbff_ffff);
    let v6 = Addr::V6(0x2001_0db8_ffff_ffff_ffff_ffff_ffff_ffff);
    for (address, len, want) in [
        (v4, 0, Some("0.0.0.0/0")),
        (v4, 7, Some("202.0.0.0/7")),
        (v4, 8, Some("203.0.0.0/8")),
        (v4, 31, Some("203.255.255.254/31")),
        (v4, 32, Some("203.255.255.255/32")),
        (v4, 33, None),
        (v4, 255, None),
        (v6, 0, Some("::/0")),
        (v6, 3, Some("2000::/3")),
        (v6, 32, Some("2001:db8::/32")),
        (v6, 64, Some("2001:db8:ffff:ffff::/64")),
        (v6, 127, Some("2001:db8:ffff:ffff:ffff:ffff:ffff:fffe/127")),
        (v6, 128, Some("2001:db8:ffff:ffff:ffff:ffff:ffff:ffff/128")),
        (v6, 129, None),
    ] {
        let Some(prefix) = Prefix::new(address, len) else {
            assert_eq!(rt; want, None, "{address}/{len}");
            continue;
        };
        let mut out = Text::new(rt.alloc());
        prefix.append_text(&mut out)?;
        let shown = format!(in rt.alloc(); "{prefix}")?;
        assert_eq!(rt; Some(shown.as_str()), want);
        assert_eq!(rt; out.as_slice(), shown.as_bytes());
    }
    Ok(())
}

#[test]
fn covers_what_begins_alike(rt: HostRuntime) -> Result<(), Fail> {
    for (network, len, address, want) in [
        ("10.1.0.0", 16, "10.1.255.255", true),
        ("10.1.0.0", 16, "10.2.0.0", false),
        ("10.1.0.0", 15, "10.0.0.1", true),
        ("10.1.0.0", 32, "10.1.0.0", true),
        ("10.1.0.0", 32, "10.1.0.1", false),
        ("0.0.0.0", 0, "255.255.255.255", true),
        ("0.0.0.0", 0, "::", false),
        ("::", 0, "0.0.0.0", false),
        ("::", 0, "ffff::1", true),
        ("::a01:0", 112, "10.1.0.0", false),
        ("2001:db8::", 33, "2001:db8:7fff::1", true),
        ("2001:db8::", 33, "2001:db8:8000::", false),
        ("2001:db8::1", 128, "2001:db8::1", true),
        ("2001:db8::1", 128, "2001:db8::", false),
    ] {
        let network = read_address(network.as_bytes()).ok_or("no network")?;
        let address = read_address(address.as_bytes()).ok_or("no address")?;
        let prefix = Prefix::new(network, len).ok_or("no prefix")?;
        assert_eq!(rt; prefix.covers(&address), want, "{prefix} {address}");
    }
    Ok(())
}

#[test]
fn orders_by_number(rt: HostRuntime) -> Result<(), Fail> {
    let mut last = None;
    for (text, len) in [
        ("0.0.0.0", 0),
        ("9.0.0.0", 8),
        ("10.0.0.0", 8),
        ("10.0.0.0", 9),
        ("255.255.255.255", 32),
        ("::", 0),
        ("::", 128),
        ("9::", 16),
        ("10::", 16),
    ] {
        let address = read_address(text.as_bytes()).ok_or("no address")?;
        let prefix = Prefix::new(address, len).ok_or("no prefix")?;
        assert!(rt; last < Some(prefix), "{prefix}");
        last = Some(prefix);
    }
    Ok(())
}

#[test]
fn keeps_items(rt: HostRuntime) -> Result<(), NoMemory> {
    let mut list = List::new(rt.alloc());
    assert!(rt; list.is_empty());
    list.push(7u16)?;
    list.push(8)?;
    list.extend(&[9, 10])?;
    assert_eq!(rt; list.as_slice(), [7, 8, 9, 10].as_slice());
    let copy = list.copy()?;
    assert!(rt; copy == list);
    assert_eq!(rt; list.pop(), Some(10));
    list.truncate(2);
    assert_eq!(rt; list.len(), 2);
    assert!(rt; list < copy);
    let again = List::from_slice(rt.alloc(), &[7u16, 8])?;
    assert!(rt; again == list);
    let whole = List::from_vec(again.into_vec());
    assert_eq!(rt; whole.as_slice(), [7, 8].as_slice());
    Ok(())
}

#[test]
fn sums_counts(rt: HostRuntime) {
    let one = Counts {
        bytes: 1500,
        packets: 2,
        flows: 1,
    };
    let two = Counts {
        bytes: 1 << 100,
        packets: 3,
        flows: 1,
    };
    let sums = Counts {
        bytes: (1 << 100) + 1500,
        packets: 5,
        flows: 2,
    };
    assert_eq!(rt; one.plus(two), sums);
    assert_eq!(rt; one.plus(Counts::nothing()), one);
}

#[test]
fn reads_big_endian(rt: HostRuntime) {
    let octets = [0xff, 1, 2, 3, 4, 5, 6, 7, 8, 9, 10, 11, 12, 13, 14, 15, 16];
    assert_eq!(rt; numbers::u16_at(&octets, 1), 0x0102);
    assert_eq!(rt; numbers::u32_at(&octets, 1), 0x0102_0304);
    assert_eq!(rt; numbers::u64_at(&octets, 1), 0x0102_0304_0506_0708);
    assert_eq!(rt;
        numbers::u128_at(&octets, 1),
        0x0102_0304_0506_0708_090a_0b0c_0d0e_0f10
    );
    for (width, number) in [
        (1usize, 1u64),
        (2, 0x0102),
        (3, 0x01_0203),
        (4, 0x0102_0304),
        (5, 0x01_0203_0405),
        (6, 0x0102_0304_0506),
        (7, 0x01_0203_0405_0607),
        (8, 0x0102_0304_0506_0708),
    ] {
        assert_eq!(rt; numbers::uint_at(&octets, 1, width), number);
    }
    assert_eq!(rt; numbers::after(&octets, 15), [15, 16].as_slice());
}

#[test]
fn prints_decimals(rt: HostRuntime) -> Result<(), Fail> {
    let mut out = Octets::new(rt.alloc());
    append_decimal(0u8, &mut out)?;
    append_decimal(u128::MAX, &mut out)?;
    let wanted = "0340282366920938463463374607431768211455";
    assert_eq!(rt; out.as_slice(), wanted.as_bytes());
    Ok(())
}

#[test]
fn prints_paths_and_communities(rt: HostRuntime) -> Result<(), Fail> {
    let mut attrs = RouteAttrs {
        origin: 0,
        path: List::new(rt.alloc()),
        med: None,
        local_pref: None,
        communities: List::new(rt.alloc()),
    };
    let mut out = Octets::new(rt.alloc());
    attrs.append_path_text(&mut out)?;
    attrs.append_communities_text(&mut out)?;
    assert!(rt; out.is_empty());
    attrs.path.push(Hop::One(64512))?;
    let set = List::from_slice(rt.alloc(), &[3, 1, 4_200_000_000])?;
    attrs.path.push(Hop::Set(set))?;
    attrs.path.push(Hop::One(0))?;
    attrs.communities.extend(&[0xfc00_0064, 0xffff_ff01])?;
    attrs.append_path_text(&mut out)?;
    out.push(b' ')?;
    attrs.append_communities_text(&mut out)?;
    assert_eq!(rt;
        out.as_slice(),
        b"64512_{3_1_4200000000}_0 64512:100_65535:65281".as_slice()
    );
    Ok(())
}

#[test]
fn orders_keys_by_numbers(rt: HostRuntime) -> Result<(), NoMemory> {
    let mut last = Key::new(rt.alloc());
    for number in [
        0,
        9,
        10,
        0xff,
        0x100,
        0xffff,
        0x1_0000,
        0xffff_ffff,
        0x1_0000_0000,
        0xffff_ffff_ffff_ffff,
    ] {
        let mut key = Key::new(rt.alloc());
        key.push_number(number)?;
        assert!(rt; last < key, "{number}");
        assert_eq!(rt; key.cells().next(), Some(CellRef::Number(number)));
        last = key;
    }
    Ok(())
}

#[test]
fn orders_keys_by_cells(rt: HostRuntime) -> Result<(), NoMemory> {
    let mut keys = List::new(rt.alloc());
    let mut key = Key::new(rt.alloc());
    keys.push(key.copy()?)?;
    key.push_number(0xffff_ffff_ffff_ffff)?;
    keys.push(key.copy()?)?;
    key.push_number(0)?;
    keys.push(key)?;
    for address in [
        Addr::V4(9),
        Addr::V4(0x100),
        Addr::V4(0xffff_ffff),
        Addr::V6(0),
        Addr::V6(0x0100_0000_0000_0000_0000_0000_0000_0000),
    ] {
        let mut key = Key::new(rt.alloc());
        key.push_address(address)?;
        assert_eq!(rt; key.cells().next(), Some(CellRef::Address(address)));
        keys.push(key)?;
    }
    let mut key = Key::new(rt.alloc());
    key.push_mac(0x0100_5e00_00fb)?;
    keys.push(key)?;
    for count in 0..4 {
        let mut key = Key::new(rt.alloc());
        match count {
            0 => key.push_words(b"")?,
            1 => key.push_words(b"65000")?,
            2 => key.push_words(b"65000_9")?,
            _ => key.push_words(b"9")?,
        }
        keys.push(key)?;
    }
    for pair in keys.as_slice().windows(2) {
        assert!(rt; pair[0] < pair[1], "{pair:?}");
    }
    Ok(())
}

#[test]
fn keeps_long_keys(rt: HostRuntime) -> Result<(), NoMemory> {
    let mut key = Key::new(rt.alloc());
    for number in [0, 1, 2, 3] {
        key.push_address(Addr::V6(number << 120))?;
    }
    key.push_mac(0x0100_5e00_00fb)?;
    key.push_words(b"100_200_{300_400}")?;
    let copy = key.copy()?;
    assert!(rt; key == copy);
    assert_eq!(rt; fold_of(&key), fold_of(&copy));
    let mut cells = copy.cells();
    for number in [0, 1, 2, 3] {
        assert_eq!(rt;
            cells.next(),
            Some(CellRef::Address(Addr::V6(number << 120)))
        );
    }
    assert_eq!(rt; cells.next(), Some(CellRef::Mac(0x0100_5e00_00fb)));
    assert_eq!(rt; cells.next(), Some(CellRef::Words(b"100_200_{300_400}")));
    assert_eq!(rt; cells.next(), None);
    key.push_number(7)?;
    assert!(rt; key != copy);
    assert_ne!(rt; fold_of(&key), fold_of(&copy));
    Ok(())
}

fn fold_of(key: &Key) -> u64 {
    let mut state = FoldHasher::default();
    key.hash(&mut state);
    state.finish()
}

#[test]
fn hashes_depend_on_keys(rt: HostRuntime) -> Result<(), Fail> {
    let some = Hashing::new(&rt).ok().ok_or("no keys")?;
    let others = Hashing::new(&rt).ok().ok_or("no keys")?;
    assert_eq!(rt; some.hash_one(7u64), some.hash_one(7u64));
    assert!(rt; some.hash_one(7u64) != others.hash_one(7u64));
    Ok(())
}
