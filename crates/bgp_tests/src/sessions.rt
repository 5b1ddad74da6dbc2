use crate::bird::{FIRST, LATER, SENT};
use acct_types::{Addr, Hop, List, NoMemory, Octets, Update};
use bgp_msg::BgpFault;
use bgp_session::{Session, Turn, Why};
use std::alloc::Global;
use std::test::Fail;

const PEER: Addr = Addr::V4(0xc000_0201);

pub(crate) const LOCAL_ID: u32 = 0x7f00_0001;

// Messages but for their marker: an OPEN of 64512 from 192.0.2.1 with a hold time of 180,
pub(crate) const OPEN: &[u8] =
    b"\0\x25\x01\x04\xfc\0\0\xb4\xc0\0\x02\x01\x08\x02\x06\x41\x04\0\0\xfc\0";

pub(crate) const KEEPALIVE: &[u8] = b"\0\x13\x04";

// an UPDATE of 10.0.0.0/8 by 192.0.2.9, with the path 64512 64513,
pub(crate) const UPDATE: &[u8] =
    b"\0\x31\x02\0\0\0\x18\x40\x01\x01\0\x40\x02\x0a\x02\x02\0\0\xfc\0\0\0\xfc\x01\x40\x03\x04\xc0\0\x02\x09\x08\x0a";

// an UPDATE that says nothing,
pub(crate) const EMPTY: &[u8] = b"\0\x17\x02\0\0\0\0";

// one whose ORIGIN is cut,
pub(crate) const BAD_UPDATE: &[u8] = b"\0\x1a\x02\0\0\0\x03\x40\x63\0";

// an OPEN of version 3,
const BAD_OPEN: &[u8] = b"\0\x1d\x01\x03\xfc\0\0\xb4\xc0\0\x02\x01\0";

// Cease,
pub(crate) const CEASE: &[u8] = b"\0\x15\x03\x06\x04";

// and what this side answers to the OPEN.
pub(crate) const ANSWER: &[u8] =
    b"\0\x31\x01\x04\xfc\0\0\xb4\x7f\0\0\x01\x14\x02\x12\x01\x04\0\x01\0\x01\x01\x04\0\x02\0\x01\x41\x04\0\0\xfc\0";

// the NOTIFICATION of a marker that isn't all ones
pub(crate) const BAD_MARKER: &[u8] = b"\0\x15\x03\x01\x01";

// What a session of pieces gave, all together.
#[derive(Drop)]
struct Taken {
    replies: Octets,
    updates: List<Update>,
    closed: Option<Why>,
    live: bool,
}

// messages, each behind a marker of ones
fn messages(alloc: Global, bodies: &[&[u8]]) -> Result<Octets, NoMemory> {
    let mut octets = List::new(alloc);
    for body in bodies {
        octets.extend(&[255u8; 16])?;
        octets.extend(body)?;
    }
    Ok(octets)
}

fn fault(code: u8, subcode: u8, place: u32) -> Option<Why> {
    Some(Why::Fault(BgpFault {
        code,
        subcode,
        place,
    }))
}

// one more piece
fn take(session: &mut Session, moment: u64, piece: &[u8]) -> Result<Turn, Fail> {
    if !session.live() {
        return Err("it is over".into());
    }
    if moment < session.moment() {
        return Err("it is too late".into());
    }
    if piece.len() > 65535 {
        return Err("it is too long".into());
    }
    match session.on(moment, piece) {
        Ok(turn) => Ok(turn),
        Err(NoMemory) => Err("memory".into()),
    }
}

// octets, in a piece of one size and then in pieces of another, as far as the session goes
fn heard(alloc: Global, octets: &[u8], first: usize, next: usize) -> Result<Taken, Fail> {
    let mut session = Session::new(alloc, PEER, LOCAL_ID, 180, 1000);
    let mut replies = List::new(alloc);
    let mut updates = List::new(alloc);
    let mut closed = None;
    let mut rest = octets;
    let mut size = first;
    for _ in 0..octets.len() {
        if rest.is_empty() || !session.live() {
            break;
        }
        let (piece, later) = rest.split_at(size.min(rest.len()));
        rest = later;
        size = next;
        let turn = take(&mut session, 1000, piece)?;
        replies
            .extend(turn.replies.as_slice())
            .map_err(|_| "memory")?;
        for update in turn.updates.into_vec() {
            updates.push(update).map_err(|_| "memory")?;
        }
        closed = turn.closed;
    }
    Ok(Taken {
        replies,
        updates,
        closed,
        live: session.live(),
    })
}

#[test]
fn a_session_is_the_same_in_any_pieces(rt: HostRuntime) -> Result<(), Fail> {
    let alloc = rt.alloc();
    let octets = messages(alloc, &[OPEN, KEEPALIVE, UPDATE]).map_err(|_| "memory")?;
    let replies = messages(alloc, &[ANSWER, KEEPALIVE, KEEPALIVE]).map_err(|_| "memory")?;
    let whole = heard(alloc, octets.as_slice(), octets.len(), 1)?;
    assert_eq!(rt; whole.updates.len(), 1);
    let update = &whole.updates.as_slice()[0];
    assert_eq!(rt; update.withdrawn.len(), 0);
    assert_eq!(rt; update.announced.len(), 1);
    let announced = update.announced.as_slice()[0];
    assert_eq!(rt; announced.nlri.prefix.addr, Addr::V4(0x0a00_0000));
    assert_eq!(rt; announced.nlri.prefix.len, 8);
    assert_eq!(rt; announced.next_hop, Addr::V4(0xc000_0209));
    assert_eq!(rt;
        update.attrs.path.as_slice(),
        [Hop::One(64512), Hop::One(64513)].as_slice()
    );
    for first in 0..octets.len() {
        let split = heard(alloc, octets.as_slice(), first, octets.len())?;
        assert_eq!(rt; split.replies, replies);
        assert_eq!(rt; split.updates, whole.updates);
        assert_eq!(rt; split.closed, None);
        assert!(rt; split.live);
    }
    for next in 1..20usize {
        let split = heard(alloc, octets.as_slice(), next, next)?;
        assert_eq!(rt; split.replies, replies);
        assert_eq!(rt; split.updates, whole.updates);
        assert_eq!(rt; split.closed, None);
    }
    Ok(())
}

#[test]
fn what_ends_a_session(rt: HostRuntime) -> Result<(), Fail> {
    let alloc = rt.alloc();
    let ends: [(&[&[u8]], Option<Why>, &[&[u8]], usize); 16] = [
        // What isn't awaited, though its body is faulty too.
        (&[KEEPALIVE], fault(5, 0, 18), &[b"\0\x15\x03\x05\0"], 0),
        (&[UPDATE], fault(5, 0, 18), &[b"\0\x15\x03\x05\0"], 0),
        (&[BAD_UPDATE], fault(5, 0, 18), &[b"\0\x15\x03\x05\0"], 0),
        (
            &[OPEN, UPDATE],
            fault(5, 0, 18),
            &[ANSWER, KEEPALIVE, b"\0\x15\x03\x05\0"],
            0,
        ),
        (
            &[OPEN, OPEN],
            fault(5, 0, 18),
            &[ANSWER, KEEPALIVE, b"\0\x15\x03\x05\0"],
            0,
        ),
        (
            &[OPEN, KEEPALIVE, BAD_OPEN],
            fault(5, 0, 18),
            &[ANSWER, KEEPALIVE, KEEPALIVE, b"\0\x15\x03\x05\0"],
            0,
        ),
        // a header that is bad, behind that
        (
            &[KEEPALIVE, b"\0\x12\x04"],
            fault(5, 0, 18),
            &[b"\0\x15\x03\x05\0"],
            0,
        ),
        // What is refused, and UPDATEs before it and behind it.
        (&[BAD_OPEN], fault(2, 1, 19), &[b"\0\x15\x03\x02\x01"], 0),
        (
            &[OPEN, KEEPALIVE, UPDATE, EMPTY, BAD_UPDATE, UPDATE],
            fault(3, 2, 23),
            &[ANSWER, KEEPALIVE, KEEPALIVE, b"\0\x15\x03\x03\x02"],
            2,
        ),
        (
            &[b"\0\x12\x04"],
            fault(1, 2, 16),
            &[b"\0\x15\x03\x01\x02"],
            0,
        ),
        (
            &[b"\0\x13\x05"],
            fault(1, 3, 18),
            &[b"\0\x15\x03\x01\x03"],
            0,
        ),
        // a NOTIFICATION, wherever it comes, which is never answered
        (
            &[CEASE, OPEN],
            Some(Why::Notified {
                code: 6,
                subcode: 4,
            }),
            &[],
            0,
        ),
        (
            &[OPEN, CEASE, KEEPALIVE],
            Some(Why::Notified {
                code: 6,
                subcode: 4,
            }),
            &[ANSWER, KEEPALIVE],
            0,
        ),
        (
            &[OPEN, KEEPALIVE, EMPTY, CEASE, BAD_UPDATE],
            Some(Why::Notified {
                code: 6,
                subcode: 4,
            }),
            &[ANSWER, KEEPALIVE, KEEPALIVE],
            1,
        ),
        // but for one that is too short
        (
            &[b"\0\x14\x03\x06"],
            fault(1, 2, 16),
            &[b"\0\x15\x03\x01\x02"],
            0,
        ),
        // nothing
        (
            &[OPEN, KEEPALIVE, KEEPALIVE],
            None,
            &[ANSWER, KEEPALIVE, KEEPALIVE, KEEPALIVE],
            0,
        ),
    ];
    for (sent, closed, replies, updates) in ends {
        let octets = messages(alloc, sent).map_err(|_| "memory")?;
        let replies = messages(alloc, replies).map_err(|_| "memory")?;
        for next in [1, 7, 23, octets.len()] {
            let all = heard(alloc, octets.as_slice(), next, next)?;
            assert_eq!(rt; all.closed, closed);
            assert_eq!(rt; all.live, closed.is_none());
            assert_eq!(rt; all.replies, replies);
            assert_eq!(rt; all.updates.len(), updates);
        }
    }
    Ok(())
}

#[test]
fn a_marker_is_judged_with_its_header(rt: HostRuntime) -> Result<(), Fail> {
    let alloc = rt.alloc();
    let mut octets = messages(alloc, &[OPEN, KEEPALIVE]).map_err(|_| "memory")?;
    let before = octets.len();
    octets.push(0).map_err(|_| "memory")?;
    octets.extend(&[255u8; 15]).map_err(|_| "memory")?;
    octets.extend(UPDATE).map_err(|_| "memory")?;
    let answers: [(usize, Option<Why>, &[&[u8]]); 4] = [
        (1, None, &[ANSWER, KEEPALIVE, KEEPALIVE]),
        (18, None, &[ANSWER, KEEPALIVE, KEEPALIVE]),
        (
            19,
            fault(1, 1, 0),
            &[ANSWER, KEEPALIVE, KEEPALIVE, BAD_MARKER],
        ),
        (
            49,
            fault(1, 1, 0),
            &[ANSWER, KEEPALIVE, KEEPALIVE, BAD_MARKER],
        ),
    ];
    for (count, closed, replies) in answers {
        let end = before.saturating_add(count).min(octets.len());
        let replies = messages(alloc, replies).map_err(|_| "memory")?;
        let all = heard(alloc, &octets.as_slice()[..end], before, 1)?;
        assert_eq!(rt; all.closed, closed);
        assert_eq!(rt; all.live, closed.is_none());
        assert_eq!(rt; all.replies, replies);
        let at_once = heard(alloc, &octets.as_slice()[..end], end, 1)?;
        assert_eq!(rt; at_once.closed, closed);
    }
    Ok(())
}

// an OPEN of this autonomous system with this hold time
fn open_of(alloc: Global, asn: u32, hold: u16) -> Result<Octets, NoMemory> {
    let mut octets = List::from_slice(alloc, &[255u8; 16])?;
    octets.extend(b"\0\x25\x01\x04\xfc\0")?;
    octets.extend(&hold.to_be_bytes())?;
    octets.extend(b"\xc0\0\x02\x01\x08\x02\x06\x41\x04")?;
    octets.extend(&asn.to_be_bytes())?;
    Ok(octets)
}

#[test]
fn the_lesser_hold_time_expires(rt: HostRuntime) -> Result<(), Fail> {
    let alloc = rt.alloc();
    for (local, peer, agreed) in [
        (180u16, 180u16, 180u16),
        (180, 3, 3),
        (3, 180, 3),
        (65535, 65535, 65535),
        (0, 180, 0),
        (180, 0, 0),
    ] {
        let mut session = Session::new(alloc, PEER, LOCAL_ID, local, 1000);
        assert!(rt; !session.expired(u64::MAX));
        let open = open_of(alloc, 64512, peer).map_err(|_| "memory")?;
        let keepalive = messages(alloc, &[KEEPALIVE]).map_err(|_| "memory")?;
        let update = messages(alloc, &[EMPTY]).map_err(|_| "memory")?;
        for (message, moment) in [
            (&open, 2000u32),
            (&keepalive, 2500),
            (&update, 3000),
            (&keepalive, 3500),
        ] {
            // Its first octets don't count, its last one does.
            let first = u64::from(moment);
            let (front, behind) = message.as_slice().split_at(message.len().min(18));
            take(&mut session, first, front)?;
            take(&mut session, first + 500, behind)?;
            let end = first + 500 + 1000 * u64::from(agreed);
            assert!(rt; !session.expired(0));
            assert!(rt; !session.expired(end - 1));
            assert_eq!(rt; session.expired(end), agreed != 0);
            assert_eq!(rt; session.expired(end + 1), agreed != 0);
        }
    }
    Ok(())
}

#[test]
fn the_answer_has_the_autonomous_system_of_the_peer(rt: HostRuntime) -> Result<(), Fail> {
    let alloc = rt.alloc();
    for (asn, field) in [
        (1u32, b"\0\x01"),
        (65535, b"\xff\xff"),
        (65536, b"\x5b\xa0"),
        (u32::MAX, b"\x5b\xa0"),
    ] {
        let mut session = Session::new(alloc, PEER, 7, 90, 0);
        assert_eq!(rt; session.peer(), PEER);
        let open = open_of(alloc, asn, 180).map_err(|_| "memory")?;
        let turn = take(&mut session, 0, open.as_slice())?;
        let mut answer = List::from_slice(alloc, &[255u8; 16]).map_err(|_| "memory")?;
        answer.extend(b"\0\x31\x01\x04").map_err(|_| "memory")?;
        answer.extend(field).map_err(|_| "memory")?;
        answer
            .extend(b"\0\x5a\0\0\0\x07\x14\x02\x12\x01\x04\0\x01\0\x01\x01\x04\0\x02\0\x01\x41\x04")
            .map_err(|_| "memory")?;
        answer.extend(&asn.to_be_bytes()).map_err(|_| "memory")?;
        answer.extend(&[255u8; 16]).map_err(|_| "memory")?;
        answer.extend(KEEPALIVE).map_err(|_| "memory")?;
        assert_eq!(rt; turn.replies, answer);
        assert_eq!(rt; turn.closed, None);
    }
    Ok(())
}

// whether an UPDATE announces these prefixes of 24 bits, with the path 64681 and the next hop 127.0.0.2
fn announces(update: &Update, prefixes: &[u8]) -> bool {
    let mut rest = prefixes;
    for announced in update.announced.as_slice() {
        if rest.len() < 3 {
            return false;
        }
        let number = u32::from(rest[0]) * 65536 + u32::from(rest[1]) * 256 + u32::from(rest[2]);
        if announced.nlri.prefix.addr != Addr::V4(number * 256)
            || announced.nlri.prefix.len != 24
            || announced.next_hop != Addr::V4(0x7f00_0002)
        {
            return false;
        }
        rest = &rest[3..];
    }
    rest.is_empty()
        && update.withdrawn.is_empty()
        && update.attrs.path.as_slice() == [Hop::One(64681)].as_slice()
        && update.attrs.med == Some(50)
        && update.attrs.local_pref == Some(120)
        && update.attrs.communities.as_slice() == [64512 * 65536 + 100].as_slice()
}

// 2001:db8:1::, 3, 2, 5 and 4
const OF_IPV6: [u128; 5] = [
    0x2001_0db8_0001_0000_0000_0000_0000_0000,
    0x2001_0db8_0003_0000_0000_0000_0000_0000,
    0x2001_0db8_0002_0000_0000_0000_0000_0000,
    0x2001_0db8_0005_0000_0000_0000_0000_0000,
    0x2001_0db8_0004_0000_0000_0000_0000_0000,
];

// whether an UPDATE announces those prefixes of 48 bits by 2001:db8::9, with an empty path
fn announces_of_ipv6(update: &Update) -> bool {
    let mut rest = OF_IPV6.as_slice();
    for announced in update.announced.as_slice() {
        let [number, later @ ..] = rest else {
            return false;
        };
        if announced.nlri.prefix.addr != Addr::V6(*number)
            || announced.nlri.prefix.len != 48
            || announced.next_hop != Addr::V6(0x2001_0db8_0000_0000_0000_0000_0000_0009)
        {
            return false;
        }
        rest = later;
    }
    rest.is_empty() && update.attrs.path.is_empty() && update.attrs.local_pref == Some(100)
}

#[test]
fn what_bird_sends_is_read_as_tshark_reads_it(rt: HostRuntime) -> Result<(), Fail> {
    let alloc = rt.alloc();
    let mut octets = List::new(alloc);
    for sent in SENT {
        octets.extend(sent).map_err(|_| "memory")?;
    }
    for next in [19, 512, octets.len()] {
        let all = heard(alloc, octets.as_slice(), next, next)?;
        assert_eq!(rt; all.closed, None);
        assert_eq!(rt; all.updates.len(), 5);
        let [first, second, third, fourth, fifth] = all.updates.as_slice() else {
            return Err("not five".into());
        };
        assert!(rt; announces(first, FIRST));
        assert!(rt; announces_of_ipv6(second));
        assert!(rt; third.announced.is_empty() && third.withdrawn.is_empty());
        assert!(rt; announces(fourth, LATER));
        assert!(rt; fifth.announced.is_empty() && fifth.withdrawn.is_empty());
    }
    Ok(())
}
