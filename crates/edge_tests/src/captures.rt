ghost use Rattle.std.specs.Prelude.{◌≤◌, length, IfOk};
ghost use Rattle.acct_types.specs.RouteEvents.{act_octets};

use acct_types::{Act, Addr, Datagram, List, NoMemory, Octets, RouteEvent, Side};
use capture_file::{
    CaptureFlows, CaptureReader, CaptureRoutes, Step, write_flow, write_magic, write_route,
};
use fixtures::joined;
use outside_io::{Datagrams, InputFault, MemorySource, Sessions};
use std::alloc::Global;
use std::test::Fail;

const MAGIC: &[u8] = b"PMACAP01";

// one octet from 192.0.2.1, port 50000, at 1000 ms
const SMALL: &[u8] = b"\x04\0\0\0\0\0\0\x03\xe8\xc0\0\x02\x01\xc3\x50\0\0\0\x01\x07";

// two octets from 2001:db8::1, port 2055, at 500 ms
const WIDE: &[u8] =
    b"\x06\0\0\0\0\0\0\x01\xf4\x20\x01\x0d\xb8\0\0\0\0\0\0\0\0\0\0\0\x01\x08\x07\0\0\0\x02\x08\x09";

// the header of a datagram of 65,535 octets, and of one more
const LONGEST: &[u8] = b"\x04\0\0\0\0\0\0\x03\xe8\xc0\0\x02\x01\xc3\x50\0\0\xff\xff";

const LONGER: &[u8] = b"\x04\0\0\0\0\0\0\x03\xe8\xc0\0\x02\x01\xc3\x50\0\x01\0\0";

fn is_datagram(d: &Datagram, moment: u64, exporter: Addr, port: u16, octets: &[u8]) -> bool {
    d.moment == moment && d.exporter == exporter && d.port == port && d.octets.as_slice() == octets
}

// What an input of flows hands out, and the fault that ends it.
fn read_flows(
    alloc: Global,
    octets: &Octets,
    each: u64,
    most: u64,
) -> Result<(List<Datagram>, Option<InputFault>), NoMemory> {
    let source = MemorySource::new(octets.copy()?, each.max(1), List::new(alloc));
    let most = most.min(u64::MAX - 8);
    let mut flows = CaptureFlows::new(CaptureReader::new(alloc, source, true, most));
    let mut datagrams = List::new(alloc);
    let mut end = Some(InputFault::NoMemory);
    for _ in 0..1000u16 {
        match flows.next() {
            Ok(Some(datagram)) => datagrams.push(datagram)?,
            Ok(None) => {
                end = None;
                break;
            }
            Err(fault) => {
                end = Some(fault);
                break;
            }
        }
    }
    Ok((datagrams, end))
}

#[test]
fn a_capture_ends_where_its_format_says(rt: HostRuntime) -> Result<(), Fail> {
    let ample = u64::MAX;
    let cases: [(&[&[u8]], u64, usize, Option<InputFault>); 19] = [
        (&[], ample, 0, Some(InputFault::BadMagic)),
        (&[b"PMACAP0"], ample, 0, Some(InputFault::BadMagic)),
        (&[b"PMACAP02", SMALL], ample, 0, Some(InputFault::BadMagic)),
        (&[MAGIC], 0, 0, None),
        (&[MAGIC, SMALL], ample, 1, None),
        (&[MAGIC, SMALL, WIDE, SMALL], ample, 3, None),
        (
            &[MAGIC, SMALL, b"\x05"],
            ample,
            1,
            Some(InputFault::BadKind { place: 28 }),
        ),
        (
            &[MAGIC, b"\x74", SMALL],
            ample,
            0,
            Some(InputFault::BadKind { place: 8 }),
        ),
        (
            &[MAGIC, SMALL, &SMALL[..18]],
            ample,
            1,
            Some(InputFault::Torn { place: 28 }),
        ),
        (
            &[MAGIC, SMALL, &SMALL[..19]],
            ample,
            1,
            Some(InputFault::Torn { place: 28 }),
        ),
        (
            &[MAGIC, WIDE, &WIDE[..30]],
            ample,
            1,
            Some(InputFault::Torn { place: 41 }),
        ),
        (
            &[MAGIC, WIDE, &WIDE[..32]],
            ample,
            1,
            Some(InputFault::Torn { place: 41 }),
        ),
        (
            &[MAGIC, LONGEST],
            ample,
            0,
            Some(InputFault::Torn { place: 8 }),
        ),
        (
            &[MAGIC, LONGER],
            0,
            0,
            Some(InputFault::TooLong { place: 8 }),
        ),
        (
            &[MAGIC, SMALL, LONGER],
            ample,
            1,
            Some(InputFault::TooLong { place: 28 }),
        ),
        (&[MAGIC, SMALL, WIDE], 53, 2, None),
        (&[MAGIC, SMALL, WIDE], 52, 1, Some(InputFault::TooMany)),
        (
            &[MAGIC, SMALL, &WIDE[..31]],
            52,
            1,
            Some(InputFault::TooMany),
        ),
        (
            &[MAGIC, SMALL, &WIDE[..30]],
            52,
            1,
            Some(InputFault::Torn { place: 28 }),
        ),
    ];
    for (index, (parts, most, count, end)) in cases.iter().enumerate() {
        let octets = joined(rt.alloc(), parts)?;
        for each in [1, 7, 1000] {
            let (datagrams, fault) = read_flows(rt.alloc(), &octets, each, *most)?;
            assert!(rt;
                datagrams.len() == *count && fault == *end,
                "case {index}, {each} octets a read"
            );
        }
    }
    Ok(())
}

#[test]
fn exporters_of_both_families_and_a_stamp_that_goes_back(rt: HostRuntime) -> Result<(), Fail> {
    let octets = joined(rt.alloc(), &[MAGIC, SMALL, WIDE])?;
    let (datagrams, _) = read_flows(rt.alloc(), &octets, 1000, 53)?;
    let [first, second] = datagrams.as_slice() else {
        return Err("not two datagrams".into());
    };
    assert!(rt; is_datagram(first, 1000, Addr::V4(0xc000_0201), 50000, b"\x07"));
    let exporter = Addr::V6(0x2001_0db8_0000_0000_0000_0000_0000_0001);
    assert!(rt; is_datagram(second, 1000, exporter, 2055, b"\x08\x09"));
    Ok(())
}

// one datagram of 72 octets from 192.0.2.1, port 50000, at 1000 ms
const ONE_EXPORT: &[u8] = b"PMACAP01\x04\0\0\0\0\0\0\x03\xe8\xc0\0\x02\x01\xc3\x50\0\0\0\x48\
\0\x05\0\x01\0\0\0\0\0\0\0\0\0\0\0\0\0\0\0\0\0\0\0\0\
\x0a\0\0\x01\x0a\0\0\x02\0\0\0\0\0\0\0\0\0\0\0\x0a\0\0\x03\x48\
\0\0\0\0\0\0\0\0\x04\0\0\x50\0\0\x06\0\0\0\0\0\0\0\0\0";

#[test]
fn a_capture_of_one_export(rt: HostRuntime) -> Result<(), Fail> {
    assert_eq!(rt; ONE_EXPORT.len(), 99);
    let octets = List::from_slice(rt.alloc(), ONE_EXPORT)?;
    let (datagrams, fault) = read_flows(rt.alloc(), &octets, 1000, 91)?;
    let [datagram] = datagrams.as_slice() else {
        return Err("not one datagram".into());
    };
    assert!(rt;
        is_datagram(
            datagram,
            1000,
            Addr::V4(0xc000_0201),
            50000,
            &ONE_EXPORT[27..]
        )
    );
    assert!(rt; fault.is_none());
    let (_, fault) = read_flows(rt.alloc(), &octets, 1000, 90)?;
    assert!(rt; fault == Some(InputFault::TooMany));
    Ok(())
}

#[test]
fn a_capture_of_one_export_is_torn_at_each_octet(rt: HostRuntime) -> Result<(), Fail> {
    for cut in 0..99 {
        if cut > ONE_EXPORT.len() {
            break;
        }
        let octets = List::from_slice(rt.alloc(), &ONE_EXPORT[..cut])?;
        let wanted = match cut {
            0..=7 => Some(InputFault::BadMagic),
            8 => None,
            _ => Some(InputFault::Torn { place: 8 }),
        };
        for each in [1, 1000] {
            let (datagrams, fault) = read_flows(rt.alloc(), &octets, each, 91)?;
            assert!(rt; datagrams.is_empty() && fault == wanted, "cut at {cut}");
        }
    }
    Ok(())
}

// How many events a reader hands out, and the fault that ends them.
fn count_steps(alloc: Global, octets: Octets, most: u64) -> (u64, Option<InputFault>) {
    let source = MemorySource::new(octets, 64, List::new(alloc));
    let mut reader = CaptureReader::new(alloc, source, true, most.min(1000));
    let mut end = None;
    let mut count = 0u64;
    for _ in 0..1000u64 {
        if !reader.live() {
            break;
        }
        match reader.next() {
            Ok(Step::Flow(_)) | Ok(Step::Route(_)) => count = count.saturating_add(1),
            Ok(Step::Ended) => {}
            Err(fault) => end = Some(fault),
        }
    }
    (count, end)
}

#[test]
fn an_event_above_the_limit_is_too_many(rt: HostRuntime) -> Result<(), Fail> {
    for (most, wanted) in [(181, (1, Some(InputFault::TooMany))), (182, (2, None))] {
        let octets = joined(rt.alloc(), &[ONE_EXPORT, &ONE_EXPORT[8..]])?;
        assert!(rt; count_steps(rt.alloc(), octets, most) == wanted);
    }
    Ok(())
}

#[test]
fn a_failed_read_loses_no_octet(rt: HostRuntime) -> Result<(), Fail> {
    let alloc = rt.alloc();
    // The capture has 61 octets, so each read but the last gives 7.
    for failing in 1..10u64 {
        let octets = joined(alloc, &[MAGIC, SMALL, WIDE])?;
        let source = MemorySource::new(octets, 7, List::from_slice(alloc, &[failing])?);
        let mut flows = CaptureFlows::new(CaptureReader::new(alloc, source, true, 1000));
        let mut got = Octets::new(alloc);
        for _ in 0..4u8 {
            got.push(match flows.next() {
                Ok(Some(_)) => b'd',
                Ok(None) => b'.',
                Err(InputFault::ReadFault) => b'!',
                Err(_) => b'?',
            })?;
        }
        let wanted: &[u8] = if failing < 5 { b"!dd." } else { b"d!d." };
        assert!(rt; got.as_slice() == wanted, "read {failing}");
        assert!(rt; flows.into_source().left_len() == 0);
    }
    Ok(())
}

// What of a route event stands behind its kind, with no octets: 1000 ms, 192.0.2.1 or 2001:db8::1, port 50000.
const FROM_V4: &[u8] = b"\0\0\0\0\0\0\x03\xe8\xc0\0\x02\x01\xc3\x50\0\0\0";

const FROM_V6: &[u8] =
    b"\0\0\0\0\0\0\x03\xe8\x20\x01\x0d\xb8\0\0\0\0\0\0\0\0\0\0\0\x01\xc3\x50\0\0\0";

fn route_event(alloc: Global, high: u8, address: Addr) -> Result<RouteEvent, NoMemory>
    ensures { IfOk result (λ event. length (act_octets event.act) ≤ 65535) }
{
    let (side, act) = match high {
        1 => (Side::Bgp, Act::Up),
        2 => (Side::Bgp, Act::Bytes(List::from_slice(alloc, &[7, 8])?)),
        3 => (Side::Bgp, Act::Down),
        4 => (Side::Bmp, Act::Up),
        5 => (Side::Bmp, Act::Bytes(List::from_slice(alloc, &[7, 8])?)),
        6 => (Side::Bmp, Act::Down),
        _ => (Side::Bgp, Act::Tick),
    };
    Ok(RouteEvent {
        moment: 1000,
        side,
        address,
        port: 50000,
        act,
    })
}

fn is_same_act(one: &Act, other: &Act) -> bool {
    match (one, other) {
        (Act::Bytes(a), Act::Bytes(b)) => a == b,
        (Act::Up, Act::Up) | (Act::Down, Act::Down) | (Act::Tick, Act::Tick) => true,
        _ => false,
    }
}

fn is_same_event(a: &RouteEvent, b: &RouteEvent) -> bool {
    a.moment == b.moment
        && a.side == b.side
        && a.address == b.address
        && a.port == b.port
        && is_same_act(&a.act, &b.act)
}

// Whether the event is written as these octets, and these are read as the event, to their end.
fn is_written_and_read(alloc: Global, event: &RouteEvent, wanted: &Octets) -> Result<bool, NoMemory>
    requires { length (act_octets event.now.act) ≤ 65535 }
{
    let mut octets = List::new(alloc);
    write_magic(&mut octets)?;
    write_route(event, &mut octets)?;
    let written = octets == *wanted;
    let source = MemorySource::new(octets, 7, List::new(alloc));
    let mut routes = CaptureRoutes::new(CaptureReader::new(alloc, source, false, 1000));
    let read = match routes.next() {
        Ok(Some(read)) => is_same_event(&read, event),
        _ => false,
    };
    let ended = matches!(routes.next(), Ok(None));
    let again = matches!(routes.next(), Ok(None));
    Ok(written && read && ended && again)
}

// A capture of one event: its kind, what stands behind that, and its octets, 7 and 8 or none.
fn spelled(alloc: Global, kind: u8, behind: &[u8], carries: bool) -> Result<Octets, NoMemory> {
    let mut octets = List::from_slice(alloc, MAGIC)?;
    octets.push(kind)?;
    octets.extend(behind)?;
    if carries {
        octets.extend(b"\x02\x07\x08")?;
    } else {
        octets.push(0)?;
    }
    Ok(octets)
}

#[test]
fn route_events_of_every_kind_are_written_and_read(rt: HostRuntime) -> Result<(), Fail> {
    let alloc = rt.alloc();
    for high in 1..8u8 {
        let v4 = route_event(alloc, high, Addr::V4(0xc000_0201))?;
        let v6 = Addr::V6(0x2001_0db8_0000_0000_0000_0000_0000_0001);
        let v6 = route_event(alloc, high, v6)?;
        let carries = high == 2 || high == 5;
        let wanted = spelled(alloc, 16 * high + 4, FROM_V4, carries)?;
        assert!(rt; is_written_and_read(alloc, &v4, &wanted)?, "kind {high}");
        let wanted = spelled(alloc, 16 * high + 6, FROM_V6, carries)?;
        assert!(rt; is_written_and_read(alloc, &v6, &wanted)?, "kind {high}");
    }
    Ok(())
}

#[test]
fn route_captures_end_where_their_format_says(rt: HostRuntime) -> Result<(), Fail> {
    let alloc = rt.alloc();
    let cases: [(&[u8], &[u8], InputFault); 6] = [
        (b"\x04", b"\0", InputFault::BadKind { place: 8 }),
        (b"\x84", b"\0", InputFault::BadKind { place: 8 }),
        (b"\x15", b"\0", InputFault::BadKind { place: 8 }),
        (b"\x14", b"\x01\x07", InputFault::TooLong { place: 8 }),
        (b"\x74", b"\x01\x07", InputFault::TooLong { place: 8 }),
        (b"\x76", b"\0", InputFault::Torn { place: 8 }),
    ];
    for (kind, own, wanted) in cases {
        let octets = joined(alloc, &[MAGIC, kind, FROM_V4, own])?;
        let source = MemorySource::new(octets, 1, List::new(alloc));
        let mut routes = CaptureRoutes::new(CaptureReader::new(alloc, source, false, 1000));
        for _ in 0..2u8 {
            assert!(rt; matches!(routes.next(), Err(fault) if fault == wanted));
        }
    }
    Ok(())
}

#[test]
fn datagrams_are_written_and_read(rt: HostRuntime) -> Result<(), Fail> {
    let alloc = rt.alloc();
    let small = Datagram {
        moment: 1000,
        exporter: Addr::V4(0xc000_0201),
        port: 50000,
        octets: List::from_slice(alloc, &[7])?,
    };
    let wide = Datagram {
        moment: 1000,
        exporter: Addr::V6(0x2001_0db8_0000_0000_0000_0000_0000_0001),
        port: 2055,
        octets: List::from_slice(alloc, &[8, 9])?,
    };
    let mut octets = List::new(alloc);
    write_magic(&mut octets)?;
    write_flow(&small, &mut octets)?;
    write_flow(&wide, &mut octets)?;
    let stamp = b"\x06\0\0\0\0\0\0\x03\xe8";
    assert!(rt; octets == joined(alloc, &[MAGIC, SMALL, stamp, &WIDE[9..]])?);
    let (datagrams, end) = read_flows(alloc, &octets, 1000, 1000)?;
    assert!(rt; datagrams.len() == 2 && end.is_none());
    Ok(())
}
