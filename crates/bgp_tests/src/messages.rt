use acct_types::{NoMemory, Octets};
use bgp_msg::{
    Agreed, BgpFault, BgpMessage, BgpRefusal, frame, read_message, write_keepalive,
    write_notification, write_open,
};
use fixtures::joined;
use std::alloc::Global;
use std::test::Fail;

pub(crate) const WIDE: Agreed = Agreed {
    four_octets: true,
    path_ids_v4: false,
    path_ids_v6: false,
};

pub(crate) const NARROW: Agreed = Agreed {
    four_octets: false,
    path_ids_v4: false,
    path_ids_v6: false,
};

const MARKER: &[u8] = &[255; 16];

// What is wrong with a message: code, subcode and place.
pub(crate) type Wrong = (u8, u8, u32);

// A whole message of a type, whose body is these parts.
pub(crate) fn message(alloc: Global, kind: u8, parts: &[&[u8]]) -> Result<Octets, NoMemory> {
    let body = joined(alloc, parts)?;
    let length = u16::try_from(body.len()).unwrap_or(0).saturating_add(19);
    joined(
        alloc,
        &[MARKER, &length.to_be_bytes(), &[kind], body.as_slice()],
    )
}

// What a whole message says, or what is wrong with it, in its header too.
pub(crate) fn read(
    alloc: Global,
    octets: &[u8],
    agreed: &Agreed,
) -> Result<Result<BgpMessage, Wrong>, Fail> {
    match frame(octets) {
        Ok(Some(size)) if size as usize == octets.len() => {}
        Ok(_) => return Err("not a whole message".into()),
        Err(fault) => return Ok(Err((fault.code, fault.subcode, fault.place))),
    }
    match read_message(alloc, octets, agreed) {
        Ok(message) => Ok(Ok(message)),
        Err(BgpRefusal::Fault(fault)) => Ok(Err((fault.code, fault.subcode, fault.place))),
        Err(BgpRefusal::NoMemory) => Err("memory".into()),
    }
}

// What is wrong with a message of this type and body, in a session with numbers of four octets.
pub(crate) fn fault_of(alloc: Global, kind: u8, parts: &[&[u8]]) -> Result<Option<Wrong>, Fail> {
    let octets = message(alloc, kind, parts)?;
    Ok(read(alloc, octets.as_slice(), &WIDE)?.err())
}

// Length and type of a header, and what the header alone says.
static HEADERS: [(&'static [u8], Result<Option<u32>, (u8, u32)>); 21] = [
    (b"\0\0\x04", Err((2, 16))),
    (b"\0\x12\x04", Err((2, 16))),
    (b"\0\x13\x04", Ok(Some(19))),
    (b"\0\x14\x04", Err((2, 16))),
    (b"\x10\0\x04", Err((2, 16))),
    (b"\0\x13\x01", Err((2, 16))),
    (b"\0\x1c\x01", Err((2, 16))),
    (b"\0\x1d\x01", Ok(None)),
    (b"\x10\0\x01", Ok(None)),
    (b"\x10\x01\x01", Err((2, 16))),
    (b"\0\x16\x02", Err((2, 16))),
    (b"\0\x17\x02", Ok(None)),
    (b"\x10\0\x02", Ok(None)),
    (b"\x10\x01\x02", Err((2, 16))),
    (b"\xff\xff\x02", Err((2, 16))),
    (b"\0\x14\x03", Err((2, 16))),
    (b"\0\x15\x03", Ok(None)),
    (b"\0\x13\0", Err((3, 18))),
    (b"\0\x13\x05", Err((3, 18))),
    (b"\0\x12\0", Err((2, 16))),
    (b"\x10\x01\xff", Err((2, 16))),
];

fn headers() -> &'static [(&'static [u8], Result<Option<u32>, (u8, u32)>)] {
    &HEADERS
}

fn header_fault((subcode, place): (u8, u32)) -> BgpFault {
    BgpFault {
        code: 1,
        subcode,
        place,
    }
}

#[test]
fn what_a_header_says(rt: HostRuntime) -> Result<(), Fail> {
    for (rest, wanted) in headers() {
        let octets = joined(rt.alloc(), &[MARKER, rest])?;
        let wanted = match *wanted {
            Ok(size) => Ok(size),
            Err(place) => Err(header_fault(place)),
        };
        assert_eq!(rt; frame(octets.as_slice()), wanted);
    }
    Ok(())
}

#[test]
fn a_header_is_judged_once_it_is_there(rt: HostRuntime) -> Result<(), Fail> {
    let octets = joined(rt.alloc(), &[MARKER, b"\0\x13\x04more"])?;
    for size in 0..19usize {
        assert_eq!(rt;
            frame(&octets.as_slice()[..size.min(octets.len())]),
            Ok(None)
        );
    }
    assert_eq!(rt; frame(octets.as_slice()), Ok(Some(19)));
    for wrong in [0usize, 7, 15] {
        let mut marker = [255u8; 16];
        marker[wrong] = 254;
        let octets = joined(rt.alloc(), &[&marker, b"\0\x12\x04"])?;
        let fault = Err(header_fault((1, 0)));
        assert_eq!(rt; frame(octets.as_slice()), fault);
        let cut = joined(rt.alloc(), &[&marker, b"\0\x12"])?;
        assert_eq!(rt; frame(cut.as_slice()), Ok(None));
    }
    Ok(())
}

#[test]
fn a_message_is_waited_for(rt: HostRuntime) -> Result<(), Fail> {
    let octets = message(rt.alloc(), 3, &[b"\x06\x02in words"])?;
    for size in 19..29usize {
        assert_eq!(rt;
            frame(&octets.as_slice()[..size.min(octets.len())]),
            Ok(None)
        );
    }
    assert_eq!(rt; frame(octets.as_slice()), Ok(Some(29)));
    let said = BgpMessage::Notification {
        code: 6,
        subcode: 2,
    };
    assert!(rt; read(rt.alloc(), octets.as_slice(), &NARROW)? == Ok(said));
    Ok(())
}

#[test]
fn what_is_written(rt: HostRuntime) -> Result<(), Fail> {
    let mut out = Octets::new(rt.alloc());
    write_open(rt.alloc(), 64512, 180, 0x7f00_0001, &mut out)?;
    write_open(rt.alloc(), 65536, 0, 0xc000_0201, &mut out)?;
    write_keepalive(&mut out)?;
    write_notification(1, 1, &mut out)?;
    let wanted = joined(
        rt.alloc(),
        &[
            MARKER,
            b"\0\x31\x01\x04\xfc\0\0\xb4\x7f\0\0\x01\x14\x02\x12\x01\x04\0\x01\0\x01\x01\x04\0\x02\0\x01\x41\x04\0\0\xfc\0",
            MARKER,
            b"\0\x31\x01\x04\x5b\xa0\0\0\xc0\0\x02\x01\x14\x02\x12\x01\x04\0\x01\0\x01\x01\x04\0\x02\0\x01\x41\x04\0\x01\0\0",
            MARKER,
            b"\0\x13\x04",
            MARKER,
            b"\0\x15\x03\x01\x01",
        ],
    )?;
    assert!(rt; out == wanted);
    Ok(())
}
