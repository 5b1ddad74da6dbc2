use acct_types::{
    Addr, Announce, Change, Hop, List, Nlri, NoMemory, Octets, PeerKey, Prefix, Rib, RibSource,
    RouteAttrs, RouteMessage, RouteScope, Update,
};
use rib_table::Table;
use std::alloc::Global;
use std::test::Fail;

// A prefix by its address and length, and the path identifier.
type Net = (Addr, u8, u32);

const ROUTER: Addr = Addr::V4(0xc000_0201);

const OTHER_ROUTER: Addr = Addr::V4(0xc000_0202);

const PEER: Addr = Addr::V4(0xc633_6401);

const SESSION: RibSource = RibSource::Bgp(ROUTER);

const OTHER_SESSION: RibSource = RibSource::Bgp(OTHER_ROUTER);

const BEFORE: RibSource = RibSource::Bmp(ROUTER, KEY);

const BEHIND: RibSource = RibSource::Bmp(ROUTER, PeerKey { post: true, ..KEY });

const KEY: PeerKey = PeerKey {
    address: PEER,
    distinguisher: 1,
    post: false,
};

// The same peer with another distinguisher, and peers whose addresses are less and greater.
const OTHER_KEY: RibSource = RibSource::Bmp(
    ROUTER,
    PeerKey {
        distinguisher: 2,
        ..KEY
    },
);

const LESSER: RibSource = RibSource::Bmp(
    ROUTER,
    PeerKey {
        address: Addr::V4(0xc633_6400),
        ..KEY
    },
);

const GREATER: RibSource = RibSource::Bmp(
    ROUTER,
    PeerKey {
        address: Addr::V4(0xc633_6402),
        ..KEY
    },
);

const BGP: Rib = Rib::Bgp(ROUTER);

const OTHER_BGP: Rib = Rib::Bgp(OTHER_ROUTER);

const ALL_PEERS: Rib = Rib::Bmp(ROUTER, None);

const ONE_PEER: Rib = Rib::Bmp(ROUTER, Some(PEER));

const ALL: Net = (Addr::V4(0), 0, 0);

const TEN: Net = (Addr::V4(0x0a00_0000), 8, 0);

// Paths to 10.0.0.0/8.
const PATH_THREE: Net = (Addr::V4(0x0a00_0000), 8, 3);

const PATH_FIVE: Net = (Addr::V4(0x0a00_0000), 8, 5);

const PATH_SEVEN: Net = (Addr::V4(0x0a00_0000), 8, 7);

const TEN_LEFT: Net = (Addr::V4(0x0a00_0000), 9, 0);

const TEN_RIGHT: Net = (Addr::V4(0x0a80_0000), 9, 0);

const TEN_ONE: Net = (Addr::V4(0x0a01_0000), 16, 0);

const HOST: Net = (Addr::V4(0x0a01_0203), 32, 0);

const ELEVEN: Net = (Addr::V4(0x0b00_0000), 8, 0);

const IN_TEN_ONE: Addr = Addr::V4(0x0a01_0203);

const IN_LEFT: Addr = Addr::V4(0x0a02_0001);

const IN_RIGHT: Addr = Addr::V4(0x0ac8_0001);

const IN_ELEVEN: Addr = Addr::V4(0x0b00_0001);

const WIDE: Net = (Addr::V6(0x2001_0db8_0000_0000_0000_0000_0000_0000), 32, 0);

const IN_WIDE: Addr = Addr::V6(0x2001_0db8_0000_0000_0000_0000_0000_0001);

// What a message does: an UPDATE of a source withdraws prefixes and announces others by next hops; a reset.
#[derive(Clone, Copy)]
enum Step {
    Tell(RibSource, &'static [Net], &'static [(Net, u32)]),
    Reset(RouteScope),
}

// What is asked of a table behind messages: whose routes, and the address; and the next hop and the length of the route.
type Asked = (Rib, Addr, Option<(u32, u8)>);

struct Case {
    what: &'static str,
    steps: &'static [Step],
    asked: &'static [Asked],
}

const NESTED: Step = Step::Tell(
    SESSION,
    &[],
    &[
        (ALL, 1),
        (TEN, 2),
        (TEN_LEFT, 3),
        (TEN_RIGHT, 4),
        (TEN_ONE, 5),
    ],
);

static CASES: [Case; 12] = [
    Case {
        what: "no message",
        steps: &[],
        asked: &[(BGP, IN_TEN_ONE, None), (ALL_PEERS, IN_TEN_ONE, None)],
    },
    Case {
        what: "the longest prefix",
        steps: &[NESTED],
        asked: &[
            (BGP, IN_TEN_ONE, Some((5, 16))),
            (BGP, IN_LEFT, Some((3, 9))),
            (BGP, IN_RIGHT, Some((4, 9))),
            (BGP, IN_ELEVEN, Some((1, 0))),
            (OTHER_BGP, IN_TEN_ONE, None),
            (ALL_PEERS, IN_TEN_ONE, None),
        ],
    },
    Case {
        what: "a longer one that is withdrawn, and a host's own",
        steps: &[
            NESTED,
            Step::Tell(SESSION, &[TEN_LEFT, ELEVEN], &[(HOST, 6)]),
            Step::Tell(OTHER_SESSION, &[TEN], &[]),
        ],
        asked: &[
            (BGP, IN_LEFT, Some((2, 8))),
            (BGP, IN_RIGHT, Some((4, 9))),
            (BGP, IN_TEN_ONE, Some((6, 32))),
        ],
    },
    Case {
        what: "families apart",
        steps: &[Step::Tell(SESSION, &[], &[(ALL, 1), (WIDE, 2)])],
        asked: &[
            (BGP, IN_WIDE, Some((2, 32))),
            (BGP, Addr::V6(0x0a01_0203), None),
            (BGP, Addr::V4(0x2001_0db8), Some((1, 0))),
        ],
    },
    Case {
        what: "announced beside its withdrawal, and twice",
        steps: &[
            Step::Tell(SESSION, &[], &[(TEN, 1), (ELEVEN, 1)]),
            Step::Tell(SESSION, &[TEN, ELEVEN], &[(TEN, 2), (TEN, 3)]),
        ],
        asked: &[(BGP, IN_LEFT, Some((3, 8))), (BGP, IN_ELEVEN, None)],
    },
    Case {
        what: "a session's reset is its own",
        steps: &[
            Step::Tell(SESSION, &[], &[(TEN, 1)]),
            Step::Tell(OTHER_SESSION, &[], &[(TEN, 2)]),
            Step::Tell(BEFORE, &[], &[(TEN, 3)]),
            Step::Reset(RouteScope::Peer(SESSION)),
        ],
        asked: &[
            (BGP, IN_LEFT, None),
            (OTHER_BGP, IN_LEFT, Some((2, 8))),
            (ALL_PEERS, IN_LEFT, Some((3, 8))),
        ],
    },
    Case {
        what: "a router's reset is of its peers",
        steps: &[
            Step::Tell(SESSION, &[], &[(TEN, 1)]),
            Step::Tell(BEFORE, &[], &[(TEN, 2)]),
            Step::Tell(GREATER, &[], &[(TEN, 3)]),
            Step::Reset(RouteScope::Router(ROUTER)),
        ],
        asked: &[(BGP, IN_LEFT, Some((1, 8))), (ALL_PEERS, IN_LEFT, None)],
    },
    Case {
        what: "another router's reset",
        steps: &[
            Step::Tell(BEFORE, &[], &[(TEN, 2)]),
            Step::Reset(RouteScope::Router(OTHER_ROUTER)),
        ],
        asked: &[(ALL_PEERS, IN_LEFT, Some((2, 8)))],
    },
    Case {
        what: "a peer's reset is of its routes before and behind the policy",
        steps: &[
            Step::Tell(BEFORE, &[], &[(TEN, 1)]),
            Step::Tell(BEHIND, &[], &[(TEN, 2)]),
            Step::Tell(OTHER_KEY, &[], &[(TEN, 3)]),
            Step::Reset(RouteScope::Peer(BEHIND)),
        ],
        asked: &[(ALL_PEERS, IN_LEFT, Some((3, 8)))],
    },
    Case {
        what: "the least peer of one length",
        steps: &[
            Step::Tell(GREATER, &[], &[(TEN, 1)]),
            Step::Tell(BEHIND, &[], &[(TEN, 2)]),
            Step::Tell(BEFORE, &[], &[(TEN, 3)]),
            Step::Tell(LESSER, &[], &[(TEN, 4)]),
        ],
        asked: &[
            (ALL_PEERS, IN_LEFT, Some((4, 8))),
            (ONE_PEER, IN_LEFT, Some((3, 8))),
            (BGP, IN_LEFT, None),
        ],
    },
    Case {
        what: "a greater peer with a longer prefix",
        steps: &[
            Step::Tell(LESSER, &[], &[(TEN, 1)]),
            Step::Tell(GREATER, &[], &[(TEN_LEFT, 2)]),
        ],
        asked: &[
            (ALL_PEERS, IN_LEFT, Some((2, 9))),
            (ALL_PEERS, IN_RIGHT, Some((1, 8))),
            (ONE_PEER, IN_LEFT, None),
        ],
    },
    Case {
        what: "the least path to one prefix",
        steps: &[
            Step::Tell(
                SESSION,
                &[],
                &[(PATH_SEVEN, 1), (PATH_THREE, 2), (PATH_FIVE, 3)],
            ),
            Step::Tell(SESSION, &[PATH_THREE], &[]),
        ],
        asked: &[(BGP, IN_LEFT, Some((3, 8)))],
    },
];

// The proof of a test needn't read the tables.
fn cases() -> &'static [Case] {
    &CASES
}

fn nlri(net: Net) -> Result<Nlri, Fail> {
    let prefix = Prefix::new(net.0, net.1).ok_or("no prefix")?;
    Ok(Nlri {
        prefix,
        path_id: net.2,
    })
}

fn names(alloc: Global, nets: &[Net]) -> Result<List<Nlri>, Fail> {
    let mut names = List::new(alloc);
    for net in nets {
        names.push(nlri(*net)?)?;
    }
    Ok(names)
}

fn routes(alloc: Global, announced: &[(Net, u32)]) -> Result<List<Announce>, Fail> {
    let mut routes = List::new(alloc);
    for (net, next_hop) in announced {
        let nlri = nlri(*net)?;
        let next_hop = Addr::V4(*next_hop);
        routes.push(Announce { nlri, next_hop })?;
    }
    Ok(routes)
}

fn attrs(alloc: Global, med: Option<u32>) -> Result<RouteAttrs, NoMemory> {
    let mut path = List::new(alloc);
    path.push(Hop::One(64512))?;
    path.push(Hop::One(64513))?;
    Ok(RouteAttrs {
        origin: 0,
        path,
        med,
        local_pref: None,
        communities: List::new(alloc),
    })
}

fn change_of(alloc: Global, step: Step, med: Option<u32>) -> Result<Change, Fail> {
    let Step::Tell(_, withdrawn, announced) = step else {
        return Ok(Change::Reset);
    };
    Ok(Change::Update(Update {
        withdrawn: names(alloc, withdrawn)?,
        announced: routes(alloc, announced)?,
        attrs: attrs(alloc, med)?,
    }))
}

fn scope_of(step: Step) -> RouteScope {
    match step {
        Step::Tell(source, ..) => RouteScope::Peer(source),
        Step::Reset(scope) => scope,
    }
}

// One message more, at a moment behind that which was reached.
fn apply(table: &mut Table, alloc: Global, step: Step, med: Option<u32>) -> Result<(), Fail> {
    if table.count() >= 1000 || table.reached() >= 1000 {
        return Err("too many messages".into());
    }
    let message = RouteMessage {
        scope: scope_of(step),
        moment: table.reached() + 1,
        change: change_of(alloc, step, med)?,
    };
    table.apply(&message)?;
    Ok(())
}

fn table_of(alloc: Global, steps: &[Step]) -> Result<Table, Fail> {
    let mut table = Table::new(alloc);
    for step in steps {
        apply(&mut table, alloc, *step, None)?;
    }
    Ok(table)
}

// The next hop of the route to an address, as its number, and the length of its prefix.
fn route_at(table: &Table, rib: &Rib, address: &Addr) -> Option<(u32, u8)> {
    let route = table.route(rib, address)?;
    match route.next_hop {
        Addr::V4(number) => Some((number, route.prefix.len)),
        Addr::V6(_) => None,
    }
}

#[test]
fn the_routes_behind_messages(rt: HostRuntime) -> Result<(), Fail> {
    for case in cases() {
        let what = case.what;
        let table = table_of(rt.alloc(), case.steps)?;
        assert_eq!(rt; table.count(), case.steps.len() as u64, "{what}");
        for (rib, address, wanted) in case.asked {
            assert_eq!(rt; route_at(&table, rib, address), *wanted, "{what}");
        }
    }
    Ok(())
}

const LINES: &str = "before
route bgp 192.0.2.1 10.0.0.0/8 0 192.0.2.9 - - 0 64512_64513 -
route bgp 192.0.2.1 10.0.0.0/9 0 192.0.2.9 - - 0 64512_64513 -
route bgp 192.0.2.1 2001:db8::/32 0 192.0.2.9 - - 0 64512_64513 -
route bmp 192.0.2.1 198.51.100.1 1 pre 10.0.0.0/8 3 192.0.2.9 - 50 0 64512_64513 -
route bmp 192.0.2.1 198.51.100.1 1 post 0.0.0.0/0 0 192.0.2.9 - 0 0 64512_64513 -
";

#[test]
fn a_line_for_each_route_in_order(rt: HostRuntime) -> Result<(), Fail> {
    let alloc = rt.alloc();
    let mut table = Table::new(alloc);
    let told = [
        (Step::Tell(BEHIND, &[], &[(ALL, 0xc000_0209)]), Some(0)),
        (
            Step::Tell(BEFORE, &[], &[(PATH_THREE, 0xc000_0209)]),
            Some(50),
        ),
        (
            Step::Tell(
                SESSION,
                &[],
                &[
                    (WIDE, 0xc000_0209),
                    (TEN_LEFT, 0xc000_0209),
                    (TEN, 0xc000_0209),
                ],
            ),
            None,
        ),
    ];
    for (step, med) in told {
        apply(&mut table, alloc, step, med)?;
    }
    let mut text = Octets::new(alloc);
    text.extend(b"before\n")?;
    table.lines(&mut text)?;
    assert_eq!(rt; text.as_slice(), LINES.as_bytes());
    Ok(())
}

#[test]
fn what_was_reached_never_goes_back(rt: HostRuntime) {
    let mut table = Table::new(rt.alloc());
    assert_eq!(rt; table.reached(), 0);
    for (moment, wanted) in [(7, 7), (5, 7), (8, 8)] {
        table.reach(moment);
        assert_eq!(rt; table.reached(), wanted);
    }
    assert_eq!(rt; table.count(), 0);
    assert!(rt; !table.ended());
    table.end();
    assert!(rt; table.ended());
}
