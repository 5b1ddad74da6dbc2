use crate::sessions::{
    ANSWER, BAD_MARKER, BAD_UPDATE, CEASE, EMPTY, KEEPALIVE, LOCAL_ID, OPEN, UPDATE,
};
use acct_types::{
    Act, Addr, Change, List, NoMemory, Octets, Reply, RibSource, RouteEvent, RouteMessage,
    RouteScope, Side,
};
use bgp_msg::BgpFault;
use bgp_session::Why;
use fixtures::joined;
use route_feed::{Closure, Daemons, RouteTurn, Routing};
use std::alloc::Global;
use std::test::Fail;

const A: Addr = Addr::V4(0xc000_0201);

const B: Addr = Addr::V4(0xc000_0202);

// 2001:db8::1
const C: Addr = Addr::V6(0x2001_0db8_0000_0000_0000_0000_0000_0001);

const M: &[u8] = &[255u8; 16];

const BGP: Daemons = Daemons {
    bgp: true,
    bmp: false,
};

// Messages but for their marker: an UPDATE of 10.1.0.0/16, a withdrawal of it, and Hold Timer Expired.
const LATER_UPDATE: &[u8] =
    b"\0\x32\x02\0\0\0\x18\x40\x01\x01\0\x40\x02\x0a\x02\x02\0\0\xfc\0\0\0\xfc\x02\x40\x03\x04\xc0\0\x02\x09\x10\x0a\x01";

const WITHDRAWAL: &[u8] = b"\0\x1a\x02\0\x03\x10\x0a\x01\0\0";

const EXPIRED: &[u8] = b"\0\x15\x03\x04\0";

const NOT_KNOWN: &[u8] = b"\0\x15\x03\x03\x02";

// What an event is.
#[derive(Clone, Copy)]
enum Sent {
    Up,
    Octets(&'static [&'static [u8]]),
    Down,
    Tick,
}

// What a message says: a reset, or an UPDATE with so many withdrawn and announced prefixes.
#[derive(Clone, Copy)]
enum Says {
    Reset,
    Update(usize, usize),
}

// An event, and what it gives: messages, replies, and the ends of sessions, all at its moment.
#[derive(Clone, Copy)]
struct Row {
    moment: u64,
    address: Addr,
    sent: Sent,
    messages: &'static [(Addr, Says)],
    replies: &'static [(Addr, &'static [&'static [u8]])],
    closures: &'static [(Addr, Why)],
}

const NOTHING: Row = Row {
    moment: 0,
    address: A,
    sent: Sent::Tick,
    messages: &[],
    replies: &[],
    closures: &[],
};

const UP: Row = Row {
    sent: Sent::Up,
    ..NOTHING
};

// OPEN and KEEPALIVE in one event, and what they are answered.
const GREETED: Row = Row {
    sent: Sent::Octets(&[M, OPEN, M, KEEPALIVE]),
    replies: &[(A, &[M, ANSWER, M, KEEPALIVE, M, KEEPALIVE])],
    ..NOTHING
};

const ANNOUNCED: Row = Row {
    moment: 100,
    sent: Sent::Octets(&[M, UPDATE]),
    messages: &[(A, Says::Update(0, 1))],
    ..NOTHING
};

// The hold time of 180 seconds has passed.
const EXPIRES: Row = Row {
    moment: 180_000,
    messages: &[(A, Says::Reset)],
    replies: &[(A, &[M, EXPIRED])],
    closures: &[(A, Why::HoldExpired)],
    ..NOTHING
};

// a session that announces, withdraws and goes down
const ROUTES: &[Row] = &[
    UP,
    GREETED,
    ANNOUNCED,
    Row {
        moment: 200,
        sent: Sent::Octets(&[M, LATER_UPDATE]),
        messages: &[(A, Says::Update(0, 1))],
        ..NOTHING
    },
    Row {
        moment: 1500,
        sent: Sent::Octets(&[M, WITHDRAWAL]),
        messages: &[(A, Says::Update(1, 0))],
        ..NOTHING
    },
    Row {
        moment: 1500,
        sent: Sent::Octets(&[M, LATER_UPDATE, M, WITHDRAWAL, M, KEEPALIVE, M, EMPTY]),
        messages: &[
            (A, Says::Update(0, 1)),
            (A, Says::Update(1, 0)),
            (A, Says::Update(0, 0)),
        ],
        replies: &[(A, &[M, KEEPALIVE])],
        ..NOTHING
    },
    Row {
        moment: 1600,
        sent: Sent::Down,
        messages: &[(A, Says::Reset)],
        closures: &[(A, Why::PeerClosed)],
        ..NOTHING
    },
    Row {
        moment: 1600,
        sent: Sent::Down,
        ..NOTHING
    },
    Row {
        moment: 1600,
        sent: Sent::Octets(&[M, OPEN]),
        ..NOTHING
    },
    Row { moment: 1600, ..UP },
    Row {
        moment: 1600,
        ..GREETED
    },
];

// what comes to no session
const UNKNOWN: &[Row] = &[
    NOTHING,
    Row {
        sent: Sent::Down,
        ..NOTHING
    },
    Row {
        sent: Sent::Octets(&[M, OPEN]),
        ..NOTHING
    },
    UP,
    Row {
        address: B,
        sent: Sent::Down,
        ..NOTHING
    },
    Row {
        address: B,
        sent: Sent::Octets(&[M, OPEN]),
        ..NOTHING
    },
    GREETED,
];

// a marker that isn't all ones
const FAULTY: &[Row] = &[
    UP,
    GREETED,
    ANNOUNCED,
    Row {
        moment: 1500,
        sent: Sent::Octets(&[
            b"\0\xff\xff\xff\xff\xff\xff\xff\xff\xff\xff\xff\xff\xff\xff\xff",
            UPDATE,
        ]),
        messages: &[(A, Says::Reset)],
        replies: &[(A, &[M, BAD_MARKER])],
        closures: &[(
            A,
            Why::Fault(BgpFault {
                code: 1,
                subcode: 1,
                place: 0,
            }),
        )],
        ..NOTHING
    },
    Row {
        moment: 1500,
        sent: Sent::Octets(&[M, UPDATE]),
        ..NOTHING
    },
    Row {
        moment: 1500,
        sent: Sent::Down,
        ..NOTHING
    },
];

// UPDATEs before a fault and before a NOTIFICATION count, those behind don't
const ENDED: &[Row] = &[
    UP,
    GREETED,
    Row {
        moment: 7,
        sent: Sent::Octets(&[M, UPDATE, M, KEEPALIVE, M, BAD_UPDATE, M, UPDATE]),
        messages: &[(A, Says::Update(0, 1)), (A, Says::Reset)],
        replies: &[(A, &[M, KEEPALIVE, M, NOT_KNOWN])],
        closures: &[(
            A,
            Why::Fault(BgpFault {
                code: 3,
                subcode: 2,
                place: 23,
            }),
        )],
        ..NOTHING
    },
    Row { moment: 7, ..UP },
    Row {
        moment: 8,
        ..GREETED
    },
    Row {
        moment: 9,
        sent: Sent::Octets(&[M, UPDATE, M, CEASE, M, UPDATE]),
        messages: &[(A, Says::Update(0, 1)), (A, Says::Reset)],
        closures: &[(
            A,
            Why::Notified {
                code: 6,
                subcode: 4,
            },
        )],
        ..NOTHING
    },
];

// another Up, with a message begun before it
const REPLACED: &[Row] = &[
    UP,
    GREETED,
    ANNOUNCED,
    Row {
        moment: 100,
        sent: Sent::Octets(&[M]),
        ..NOTHING
    },
    Row {
        moment: 101,
        sent: Sent::Up,
        messages: &[(A, Says::Reset)],
        closures: &[(A, Why::Replaced)],
        ..NOTHING
    },
    Row {
        moment: 102,
        ..GREETED
    },
];

// the last message counts, and not octets of one that isn't whole; then the session's own octets come too late
const EXPIRED_OCTETS: &[Row] = &[
    UP,
    Row {
        moment: 1_000_000,
        ..GREETED
    },
    Row {
        moment: 1_100_000,
        sent: Sent::Octets(&[M, KEEPALIVE, M]),
        replies: &[(A, &[M, KEEPALIVE])],
        ..NOTHING
    },
    Row {
        moment: 1_200_000,
        sent: Sent::Octets(&[b"\0\x13"]),
        ..NOTHING
    },
    Row {
        moment: 1_279_999,
        ..NOTHING
    },
    Row {
        moment: 1_280_000,
        sent: Sent::Octets(&[b"\x04", M, UPDATE]),
        ..EXPIRES
    },
    Row {
        moment: 1_280_000,
        sent: Sent::Octets(&[M, UPDATE]),
        ..NOTHING
    },
];

// its own Up and its own Down
const EXPIRED_UP: &[Row] = &[
    UP,
    GREETED,
    Row {
        sent: Sent::Up,
        ..EXPIRES
    },
    Row {
        moment: 180_000,
        ..GREETED
    },
    Row {
        moment: 360_000,
        sent: Sent::Down,
        ..EXPIRES
    },
    Row {
        moment: 360_000,
        sent: Sent::Down,
        ..NOTHING
    },
];

// those of several sessions, by address, at an event of an unknown one, and before what the event's own session says
const EXPIRED_MANY: &[Row] = &[
    Row { address: C, ..UP },
    Row {
        address: C,
        replies: &[(C, &[M, ANSWER, M, KEEPALIVE, M, KEEPALIVE])],
        ..GREETED
    },
    Row { address: B, ..UP },
    Row {
        address: B,
        replies: &[(B, &[M, ANSWER, M, KEEPALIVE, M, KEEPALIVE])],
        ..GREETED
    },
    UP,
    Row {
        moment: 1,
        ..GREETED
    },
    Row {
        moment: 180_000,
        address: Addr::V4(0),
        sent: Sent::Down,
        messages: &[(B, Says::Reset), (C, Says::Reset)],
        replies: &[(B, &[M, EXPIRED]), (C, &[M, EXPIRED])],
        closures: &[(B, Why::HoldExpired), (C, Why::HoldExpired)],
    },
    Row {
        moment: 180_000,
        address: C,
        ..UP
    },
    Row {
        moment: 180_000,
        address: C,
        replies: &[(C, &[M, ANSWER, M, KEEPALIVE, M, KEEPALIVE])],
        ..GREETED
    },
    Row {
        moment: 180_001,
        address: C,
        sent: Sent::Octets(&[M, UPDATE, M, KEEPALIVE]),
        messages: &[(A, Says::Reset), (C, Says::Update(0, 1))],
        replies: &[(A, &[M, EXPIRED]), (C, &[M, KEEPALIVE])],
        closures: &[(A, Why::HoldExpired)],
    },
];

// without an OPEN none expires
const SILENT: &[Row] = &[
    UP,
    Row {
        moment: u64::MAX,
        ..NOTHING
    },
    Row {
        moment: u64::MAX,
        ..GREETED
    },
];

fn runs() -> [&'static [Row]; 9] {
    [
        ROUTES,
        UNKNOWN,
        FAULTY,
        ENDED,
        REPLACED,
        EXPIRED_OCTETS,
        EXPIRED_UP,
        EXPIRED_MANY,
        SILENT,
    ]
}

fn act_of(alloc: Global, sent: Sent) -> Result<Act, NoMemory> {
    Ok(match sent {
        Sent::Up => Act::Up,
        Sent::Octets(parts) => Act::Bytes(joined(alloc, parts)?),
        Sent::Down => Act::Down,
        Sent::Tick => Act::Tick,
    })
}

fn bgp_event(moment: u64, address: Addr, act: Act) -> RouteEvent {
    RouteEvent {
        moment,
        side: Side::Bgp,
        address,
        port: 179,
        act,
    }
}

// one more event
fn hear(routing: &mut Routing, event: &RouteEvent) -> Result<RouteTurn, Fail> {
    if !routing.live() || event.moment < routing.moment() {
        return Err("it is too late".into());
    }
    if let Act::Bytes(octets) = &event.act {
        if octets.len() > 65535 {
            return Err("it is too long".into());
        }
    }
    match routing.on(event) {
        Ok(turn) => Ok(turn),
        Err(NoMemory) => Err("memory".into()),
    }
}

fn is_said(message: &RouteMessage, moment: u64, address: Addr, says: Says) -> bool {
    message.scope == RouteScope::Peer(RibSource::Bgp(address))
        && message.moment == moment
        && match (&message.change, says) {
            (Change::Reset, Says::Reset) => true,
            (Change::Update(update), Says::Update(withdrawn, announced)) => {
                update.withdrawn.len() == withdrawn && update.announced.len() == announced
            }
            _ => false,
        }
}

fn are_said(messages: &[RouteMessage], moment: u64, wanted: &[(Addr, Says)]) -> bool {
    let mut rest = wanted;
    for message in messages {
        let [(address, says), later @ ..] = rest else {
            return false;
        };
        if !is_said(message, moment, *address, *says) {
            return false;
        }
        rest = later;
    }
    rest.is_empty()
}

fn are_sent(
    alloc: Global,
    replies: &[Reply],
    wanted: &[(Addr, &[&[u8]])],
) -> Result<bool, NoMemory> {
    let mut rest = wanted;
    for reply in replies {
        let [(address, parts), later @ ..] = rest else {
            return Ok(false);
        };
        if reply.side != Side::Bgp
            || reply.to != *address
            || reply.octets != joined(alloc, parts)?
        {
            return Ok(false);
        }
        rest = later;
    }
    Ok(rest.is_empty())
}

fn are_ended(closures: &[Closure], moment: u64, wanted: &[(Addr, Why)]) -> bool {
    let mut rest = wanted;
    for closure in closures {
        let [(address, why), later @ ..] = rest else {
            return false;
        };
        if *closure
            != (Closure {
                side: Side::Bgp,
                address: *address,
                moment,
                why: *why,
            })
        {
            return false;
        }
        rest = later;
    }
    rest.is_empty()
}

// Whether each event gives what its row says.
fn goes_as_told(alloc: Global, rows: &[Row]) -> Result<bool, Fail> {
    let mut routing = Routing::new(alloc, BGP, LOCAL_ID, 180);
    for row in rows {
        let act = act_of(alloc, row.sent).map_err(|_| "memory")?;
        let turn = hear(&mut routing, &bgp_event(row.moment, row.address, act))?;
        let sent = are_sent(alloc, turn.replies.as_slice(), row.replies).map_err(|_| "memory")?;
        if !sent
            || !are_said(turn.messages.as_slice(), row.moment, row.messages)
            || !are_ended(turn.closures.as_slice(), row.moment, row.closures)
            || routing.moment() != row.moment
        {
            return Ok(false);
        }
    }
    Ok(true)
}

#[test]
fn sessions_come_and_go(rt: HostRuntime) -> Result<(), Fail> {
    let alloc = rt.alloc();
    for rows in runs() {
        assert!(rt; goes_as_told(alloc, rows)?);
    }
    Ok(())
}

#[test]
fn octets_come_in_any_pieces(rt: HostRuntime) -> Result<(), Fail> {
    let alloc = rt.alloc();
    let octets = joined(alloc, &[M, OPEN, M, KEEPALIVE, M, UPDATE]).map_err(|_| "memory")?;
    let answer = joined(alloc, &[M, ANSWER, M, KEEPALIVE, M, KEEPALIVE]).map_err(|_| "memory")?;
    for size in [1usize, 18, 19, 50, 105] {
        let mut routing = Routing::new(alloc, BGP, LOCAL_ID, 180);
        hear(&mut routing, &bgp_event(0, A, Act::Up))?;
        let mut replies = Octets::new(alloc);
        let mut messages = 0usize;
        for piece in octets.as_slice().chunks(size) {
            let piece = List::from_slice(alloc, piece).map_err(|_| "memory")?;
            let turn = hear(&mut routing, &bgp_event(0, A, Act::Bytes(piece)))?;
            for reply in turn.replies.as_slice() {
                assert!(rt; !reply.octets.is_empty());
                replies
                    .extend(reply.octets.as_slice())
                    .map_err(|_| "memory")?;
            }
            messages = messages.saturating_add(turn.messages.len());
            assert!(rt; turn.closures.is_empty());
        }
        assert_eq!(rt; replies, answer);
        assert_eq!(rt; messages, 1);
    }
    Ok(())
}

// An event of BMP.
fn bmp_up(moment: u64) -> RouteEvent {
    RouteEvent {
        moment,
        side: Side::Bmp,
        address: A,
        port: 1790,
        act: Act::Up,
    }
}

#[test]
fn events_of_daemons_that_are_off_do_nothing(rt: HostRuntime) -> Result<(), Fail> {
    let alloc = rt.alloc();
    // Which daemons are on, and whether sessions live and whether an event of BMP expires them.
    for (bgp, bmp, lives, expires) in [
        (true, true, true, true),
        (true, false, true, false),
        (false, true, false, false),
        (false, false, false, false),
    ] {
        let mut routing = Routing::new(alloc, Daemons { bgp, bmp }, LOCAL_ID, 180);
        hear(&mut routing, &bgp_event(0, A, Act::Up))?;
        let act = act_of(alloc, GREETED.sent).map_err(|_| "memory")?;
        let turn = hear(&mut routing, &bgp_event(0, A, act))?;
        assert_eq!(rt; turn.replies.len(), usize::from(lives));
        let turn = hear(&mut routing, &bmp_up(180_000))?;
        assert_eq!(rt; turn.closures.len(), usize::from(expires));
        assert_eq!(rt; turn.messages.len(), usize::from(expires));
        // A moment counts even so, and a tick is of both.
        assert_eq!(rt; routing.moment(), 180_000);
        let turn = hear(&mut routing, &bgp_event(180_000, A, Act::Tick))?;
        assert_eq!(rt; turn.closures.len(), usize::from(lives && !expires));
    }
    Ok(())
}
