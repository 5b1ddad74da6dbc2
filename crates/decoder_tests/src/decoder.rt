use acct_types::{Addr, Datagram, FlowRecord, NoMemory, Octets};
use config_keys::Tool;
use fixtures::{joined, same_hashing};
use flow_decode::{Decoded, Decoder, FeedFault};
use flow_templates::{Cause, Notice, NoticeCause, Undecodable};
use pretag_map::{SamplingMap, read_sampling_map};
use std::alloc::Global;
use std::test::Fail;

const FIRST: Addr = Addr::V4(0xc000_0201);

const SECOND: Addr = Addr::V4(0xc000_0202);

// Version 9, template 256: addresses, ports, protocol, packets and bytes.
const TEMPLATE: &[u8] = &[
    0, 0, 0, 36, 1, 0, 0, 7, 0, 8, 0, 4, 0, 12, 0, 4, 0, 7, 0, 2, 0, 11, 0, 2, 0, 4, 0, 1, 0, 2, 0,
    4, 0, 1, 0, 4,
];

// The same, but bytes before packets.
const SWAPPED: &[u8] = &[
    0, 0, 0, 36, 1, 0, 0, 7, 0, 8, 0, 4, 0, 12, 0, 4, 0, 7, 0, 2, 0, 11, 0, 2, 0, 4, 0, 1, 0, 1, 0,
    4, 0, 2, 0, 4,
];

// A record for it: 10.0.0.1:1024 to 10.0.0.2:80 by TCP, 10 and 840, and three octets of padding.
const DATA: &[u8] = &[
    1, 0, 0, 28, 10, 0, 0, 1, 10, 0, 0, 2, 4, 0, 0, 80, 6, 0, 0, 0, 10, 0, 0, 3, 72, 0, 0, 0,
];

// A set that is shorter than its own header.
const FAULT: &[u8] = &[1, 0, 0, 3];

const RESERVED: &[u8] = &[0, 5, 0, 8, 1, 2, 3, 4];

// Version 9, options template 259: a scope of four octets and the interval of sampling; and its records.
const RATES: &[u8] = &[0, 1, 0, 18, 1, 3, 0, 4, 0, 4, 0, 1, 0, 4, 0, 34, 0, 4];

const RATE_50: &[u8] = &[1, 3, 0, 12, 0, 0, 0, 0, 0, 0, 0, 50];

const RATE_70: &[u8] = &[1, 3, 0, 12, 0, 0, 0, 0, 0, 0, 0, 70];

const RATE_0: &[u8] = &[1, 3, 0, 12, 0, 0, 0, 0, 0, 0, 0, 0];

// IPFIX, template 256 as in version 9, and its withdrawal, and that of all templates.
const IPFIX_TEMPLATE: &[u8] = &[
    0, 2, 0, 36, 1, 0, 0, 7, 0, 8, 0, 4, 0, 12, 0, 4, 0, 7, 0, 2, 0, 11, 0, 2, 0, 4, 0, 1, 0, 2, 0,
    4, 0, 1, 0, 4,
];

const WITHDRAWN: &[u8] = &[0, 2, 0, 8, 1, 0, 0, 0];

const ALL_WITHDRAWN: &[u8] = &[0, 2, 0, 8, 0, 2, 0, 0];

// IPFIX, template 258: selector, bytes and packets; and a record of 840 and 10 of selector 7.
const SELECTED: &[u8] = &[0, 2, 0, 20, 1, 2, 0, 3, 1, 46, 0, 1, 0, 1, 0, 4, 0, 2, 0, 4];

const SELECTED_DATA: &[u8] = &[1, 2, 0, 13, 7, 0, 0, 3, 72, 0, 0, 0, 10];

// IPFIX, options template 257: selector, packet interval and packet space; and records.
const SELECTORS: &[u8] = &[
    0, 3, 0, 22, 1, 1, 0, 3, 0, 1, 1, 46, 0, 1, 1, 49, 0, 4, 1, 50, 0, 4,
];

const SELECTOR_7: &[u8] = &[1, 1, 0, 13, 7, 0, 0, 0, 1, 0, 0, 0, 99];

const SELECTOR_8: &[u8] = &[1, 1, 0, 13, 8, 0, 0, 0, 2, 0, 0, 0, 4];

// Version 9, template 260: interval of sampling and bytes, both of eight octets, and packets of four; and records, in parts.
const OWN: &[u8] = &[0, 0, 0, 20, 1, 4, 0, 3, 0, 34, 0, 8, 0, 1, 0, 8, 0, 2, 0, 4];

const OWN_SET: &[u8] = &[1, 4, 0, 24];

const BYTES_840: &[u8] = &[0, 0, 0, 0, 0, 0, 3, 72, 0, 0, 0, 10];

const MOST_BYTES: &[u8] = &[255, 255, 255, 255, 255, 255, 255, 255, 0, 0, 0, 10];

// Version 5 with a record of 10 packets and 840 octets from interface 3, without and with an interval of 100.
const V5: &[u8] = &[
    0, 5, 0, 1, 0, 0, 0, 9, 0x65, 0, 0, 0, 0, 0, 0, 8, 0, 0, 0, 7, 3, 4,
];

const NO_INTERVAL: &[u8] = &[0, 0];

const INTERVAL_100: &[u8] = &[0x40, 100];

const V5_RECORD: &[u8] = &[
    10, 0, 0, 1, 10, 0, 0, 2, 10, 0, 0, 3, 0, 3, 0, 4, 0, 0, 0, 10, 0, 0, 3, 72, 0, 0, 0, 15, 0, 0,
    0, 16, 4, 0, 0, 80, 0, 16, 6, 0, 0, 0, 0, 0, 24, 16, 0, 0,
];

// sFlow without a sample, and with one of rate 400 that has 1,500 octets of UDP from 10.0.0.1:1024 to 10.0.0.2:53.
const SFLOW: &[u8] = b"\0\0\0\x05\0\0\0\x01\xc0\0\x02\x01\0\0\0\x03\0\0\0\x09\0\0\0\x08";

const NO_SAMPLE: &[u8] = b"\0\0\0\0";

const SAMPLE: &[u8] =
    b"\0\0\0\x01\0\0\0\x01\0\0\0\x48\0\0\0\x01\0\0\0\x03\0\0\x01\x90\0\0\0\0\0\0\0\0\
\0\0\0\x03\0\0\0\x04\0\0\0\x01\0\0\0\x03\0\0\0\x20\0\0\x05\xdc\0\0\0\x11\x0a\0\0\x01\x0a\0\0\x02\
\0\0\x04\0\0\0\0\x35\0\0\0\0\0\0\0\0";

#[derive(Clone, Copy)]
enum Header {
    /// The parts are the datagram.
    Alone,
    /// Version 9 from this source.
    Netflow(u8),
    /// IPFIX from this domain.
    Ipfix(u8),
}

#[derive(Clone, Copy)]
enum Wanted<'a> {
    /// The bytes and packets of each record, and no notice.
    Flows(&'a [(u128, u128)]),
    /// The number of each set and its cause, and no record.
    Notices(&'a [(u32, NoticeCause)]),
    Refused(Cause),
}

// A datagram that is fed, and what comes of it.
#[derive(Clone, Copy)]
struct Step<'a> {
    exporter: Addr,
    header: Header,
    parts: &'a [&'a [u8]],
    wanted: Wanted<'a>,
}

fn alone<'a>(parts: &'a [&'a [u8]], wanted: Wanted<'a>) -> Step<'a> {
    Step {
        exporter: FIRST,
        header: Header::Alone,
        parts,
        wanted,
    }
}

fn netflow<'a>(source: u8, parts: &'a [&'a [u8]], wanted: Wanted<'a>) -> Step<'a> {
    Step {
        exporter: FIRST,
        header: Header::Netflow(source),
        parts,
        wanted,
    }
}

fn ipfix<'a>(domain: u8, parts: &'a [&'a [u8]], wanted: Wanted<'a>) -> Step<'a> {
    Step {
        exporter: FIRST,
        header: Header::Ipfix(domain),
        parts,
        wanted,
    }
}

fn from_second(step: Step<'_>) -> Step<'_> {
    Step {
        exporter: SECOND,
        header: step.header,
        parts: step.parts,
        wanted: step.wanted,
    }
}

fn octets_of(alloc: Global, header: Header, parts: &[&[u8]]) -> Result<Octets, NoMemory> {
    let sets = joined(alloc, parts)?;
    match header {
        Header::Alone => Ok(sets),
        Header::Netflow(source) => joined(
            alloc,
            &[
                &[
                    0, 9, 0, 1, 0, 0, 0, 9, 0x65, 0, 0, 0, 0, 0, 0, 7, 0, 0, 0, source,
                ],
                sets.as_slice(),
            ],
        ),
        Header::Ipfix(domain) => {
            let length = u16::try_from(sets.len()).unwrap_or(0).saturating_add(16);
            joined(
                alloc,
                &[
                    &[0, 10],
                    &length.to_be_bytes(),
                    &[0x65, 0, 0, 0, 0, 0, 0, 7, 0, 0, 0, domain],
                    sets.as_slice(),
                ],
            )
        }
    }
}

fn fed(
    alloc: Global,
    decoder: &mut Decoder,
    map: &SamplingMap,
    step: &Step,
) -> Result<Result<Decoded, FeedFault>, Fail> {
    let datagram = Datagram {
        moment: 0,
        exporter: step.exporter,
        port: 2055,
        octets: octets_of(alloc, step.header, step.parts)?,
    };
    if datagram.octets.len() > 65535 {
        return Err("too long".into());
    }
    Ok(decoder.feed(&datagram, map))
}

fn are_counts(flows: &[FlowRecord], wanted: &[(u128, u128)]) -> bool {
    for (flow, wanted) in flows.iter().zip(wanted) {
        if (flow.counts.bytes, flow.counts.packets) != *wanted || flow.counts.flows != 1 {
            return false;
        }
    }
    flows.len() == wanted.len()
}

fn are_notices(notices: &[Notice], wanted: &[(u32, NoticeCause)]) -> bool {
    for (notice, wanted) in notices.iter().zip(wanted) {
        if (notice.set, notice.cause) != *wanted {
            return false;
        }
    }
    notices.len() == wanted.len()
}

fn is_wanted(fed: &Result<Decoded, FeedFault>, wanted: Wanted) -> bool {
    match (fed, wanted) {
        (Ok(decoded), Wanted::Flows(flows)) => {
            are_counts(decoded.rows.as_slice(), flows) && decoded.notices.is_empty()
        }
        (Ok(decoded), Wanted::Notices(notices)) => {
            are_notices(decoded.notices.as_slice(), notices) && decoded.rows.is_empty()
        }
        (Err(Undecodable::Refused(cause)), Wanted::Refused(wanted)) => *cause == wanted,
        _ => false,
    }
}

// The number of the first step that has another answer.
fn first_wrong(
    alloc: Global,
    decoder: &mut Decoder,
    map: &SamplingMap,
    steps: &[Step],
) -> Result<Option<usize>, Fail> {
    for (index, step) in steps.iter().enumerate() {
        let answer = fed(alloc, decoder, map, step)?;
        if !is_wanted(&answer, step.wanted) {
            return Ok(Some(index));
        }
    }
    Ok(None)
}

// What nfacctd decodes, as it stands.
fn plain(alloc: Global, steps: &[Step]) -> Result<Option<usize>, Fail> {
    let mut decoder = Decoder::new(alloc, same_hashing()?, Tool::Nfacctd, false);
    first_wrong(alloc, &mut decoder, &SamplingMap::empty(alloc), steps)
}

// The same, multiplied by the rates of sampling.
fn renormalised(alloc: Global, map: &[u8], steps: &[Step]) -> Result<Option<usize>, Fail> {
    if map.len() > 1000 {
        return Err("too long".into());
    }
    let map = read_sampling_map(alloc, map).map_err(|_| "no map")?;
    let mut decoder = Decoder::new(alloc, same_hashing()?, Tool::Nfacctd, true);
    first_wrong(alloc, &mut decoder, &map, steps)
}

const NONE: Wanted<'static> = Wanted::Flows(&[]);

const ONE: Wanted<'static> = Wanted::Flows(&[(840, 10)]);

const OTHER: Wanted<'static> = Wanted::Flows(&[(10, 840)]);

const UNKNOWN: Wanted<'static> = Wanted::Notices(&[(1, NoticeCause::NoTemplate(256))]);

#[test]
fn data_wait_for_their_template(rt: HostRuntime) -> Result<(), Fail> {
    let wrong = plain(
        rt.alloc(),
        &[
            netflow(1, &[DATA], UNKNOWN),
            netflow(1, &[TEMPLATE], NONE),
            netflow(1, &[DATA], ONE),
            netflow(1, &[DATA, DATA], Wanted::Flows(&[(840, 10), (840, 10)])),
        ],
    )?;
    assert_eq!(rt; wrong, None);
    Ok(())
}

#[test]
fn a_template_is_one_of_its_exporter_version_and_domain(rt: HostRuntime) -> Result<(), Fail> {
    let wrong = plain(
        rt.alloc(),
        &[
            netflow(1, &[TEMPLATE], NONE),
            from_second(netflow(1, &[SWAPPED], NONE)),
            netflow(1, &[DATA], ONE),
            from_second(netflow(1, &[DATA], OTHER)),
            netflow(2, &[DATA], UNKNOWN),
            ipfix(1, &[DATA], UNKNOWN),
            ipfix(1, &[IPFIX_TEMPLATE], NONE),
            netflow(1, &[SWAPPED], NONE),
            ipfix(1, &[DATA], ONE),
            ipfix(2, &[DATA], UNKNOWN),
            netflow(1, &[DATA], OTHER),
        ],
    )?;
    assert_eq!(rt; wrong, None);
    Ok(())
}

#[test]
fn a_later_template_holds_from_its_place_on(rt: HostRuntime) -> Result<(), Fail> {
    let wrong = plain(
        rt.alloc(),
        &[
            netflow(
                1,
                &[TEMPLATE, DATA, SWAPPED, DATA],
                Wanted::Flows(&[(840, 10), (10, 840)]),
            ),
            netflow(1, &[DATA], OTHER),
        ],
    )?;
    assert_eq!(rt; wrong, None);
    Ok(())
}

#[test]
fn notices_count_every_set(rt: HostRuntime) -> Result<(), Fail> {
    let wrong = plain(
        rt.alloc(),
        &[netflow(
            1,
            &[RESERVED, SELECTED, TEMPLATE, RESERVED, SELECTED_DATA],
            Wanted::Notices(&[
                (1, NoticeCause::ReservedSet(5)),
                (2, NoticeCause::ReservedSet(2)),
                (4, NoticeCause::ReservedSet(5)),
                (5, NoticeCause::NoTemplate(258)),
            ]),
        )],
    )?;
    assert_eq!(rt; wrong, None);
    Ok(())
}

#[test]
fn nothing_is_left_of_a_refused_datagram(rt: HostRuntime) -> Result<(), Fail> {
    let refused = Wanted::Refused(Cause::SetLength);
    let wrong = plain(
        rt.alloc(),
        &[
            netflow(1, &[TEMPLATE, DATA, FAULT], refused),
            netflow(1, &[DATA], UNKNOWN),
            netflow(1, &[TEMPLATE], NONE),
            netflow(1, &[SWAPPED, DATA, FAULT], refused),
            netflow(1, &[DATA], ONE),
        ],
    )?;
    assert_eq!(rt; wrong, None);
    Ok(())
}

#[test]
fn a_refused_withdrawal_withdraws_nothing(rt: HostRuntime) -> Result<(), Fail> {
    let refused = Wanted::Refused(Cause::SetLength);
    let wrong = plain(
        rt.alloc(),
        &[
            ipfix(1, &[IPFIX_TEMPLATE], NONE),
            ipfix(1, &[WITHDRAWN, FAULT], refused),
            ipfix(1, &[DATA], ONE),
            ipfix(1, &[ALL_WITHDRAWN, FAULT], refused),
            ipfix(1, &[DATA], ONE),
        ],
    )?;
    assert_eq!(rt; wrong, None);
    Ok(())
}

#[test]
fn a_refused_datagram_teaches_no_rate(rt: HostRuntime) -> Result<(), Fail> {
    let wrong = renormalised(
        rt.alloc(),
        b"",
        &[
            netflow(1, &[TEMPLATE, RATES, RATE_50], NONE),
            netflow(1, &[RATE_70, FAULT], Wanted::Refused(Cause::SetLength)),
            netflow(1, &[DATA], Wanted::Flows(&[(42_000, 500)])),
        ],
    )?;
    assert_eq!(rt; wrong, None);
    Ok(())
}

#[test]
fn a_withdrawal_holds_in_its_domain(rt: HostRuntime) -> Result<(), Fail> {
    for withdrawal in [WITHDRAWN, ALL_WITHDRAWN] {
        let wrong = plain(
            rt.alloc(),
            &[
                ipfix(1, &[IPFIX_TEMPLATE], NONE),
                ipfix(2, &[IPFIX_TEMPLATE], NONE),
                ipfix(1, &[withdrawal], NONE),
                ipfix(1, &[DATA], UNKNOWN),
                ipfix(2, &[DATA], ONE),
            ],
        )?;
        assert_eq!(rt; wrong, None);
    }
    Ok(())
}

#[test]
fn the_interval_of_version_5_is_the_last_rate(rt: HostRuntime) -> Result<(), Fail> {
    for (map, interval, wanted) in [
        (b"".as_slice(), NO_INTERVAL, (840, 10)),
        (b"".as_slice(), INTERVAL_100, (84_000, 1000)),
        (
            b"sampling_rate=1000 ip=192.0.2.1 in=3 out=4".as_slice(),
            INTERVAL_100,
            (840_000, 10_000),
        ),
        (
            b"sampling_rate=1000 ip=192.0.2.2".as_slice(),
            INTERVAL_100,
            (84_000, 1000),
        ),
    ] {
        let wrong = renormalised(
            rt.alloc(),
            map,
            &[alone(&[V5, interval, V5_RECORD], Wanted::Flows(&[wanted]))],
        )?;
        assert_eq!(rt; wrong, None);
    }
    Ok(())
}

#[test]
fn a_learned_rate_goes_before_that_of_the_map(rt: HostRuntime) -> Result<(), Fail> {
    let wrong = renormalised(
        rt.alloc(),
        b"sampling_rate=1000 ip=192.0.2.1",
        &[
            netflow(1, &[TEMPLATE, DATA], Wanted::Flows(&[(840_000, 10_000)])),
            netflow(1, &[RATES, RATE_50], NONE),
            netflow(1, &[DATA], Wanted::Flows(&[(42_000, 500)])),
            netflow(1, &[RATE_0, DATA], ONE),
            netflow(2, &[TEMPLATE, DATA], Wanted::Flows(&[(840_000, 10_000)])),
            from_second(netflow(1, &[TEMPLATE, DATA], ONE)),
        ],
    )?;
    assert_eq!(rt; wrong, None);
    Ok(())
}

#[test]
fn a_rate_holds_from_its_place_on(rt: HostRuntime) -> Result<(), Fail> {
    let wrong = renormalised(
        rt.alloc(),
        b"",
        &[
            ipfix(
                1,
                &[
                    SELECTED,
                    SELECTORS,
                    SELECTED_DATA,
                    SELECTOR_7,
                    SELECTED_DATA,
                ],
                Wanted::Flows(&[(840, 10), (84_000, 1000)]),
            ),
            // what is learned of another sampler changes nothing
            ipfix(
                1,
                &[SELECTOR_8, SELECTED_DATA],
                Wanted::Flows(&[(84_000, 1000)]),
            ),
        ],
    )?;
    assert_eq!(rt; wrong, None);
    Ok(())
}

#[test]
fn a_record_has_its_own_rate(rt: HostRuntime) -> Result<(), Fail> {
    for (own, wanted) in [
        (b"\0\0\0\0\0\0\0\0".as_slice(), (840, 10)),
        (b"\0\0\0\0\0\0\0\x07".as_slice(), (5880, 70)),
        (
            b"\0\0\0\0\xff\xff\xff\xff".as_slice(),
            (3_607_772_527_800, 42_949_672_950),
        ),
        (
            b"\0\0\0\x01\0\0\0\0".as_slice(),
            (3_607_772_527_800, 42_949_672_950),
        ),
        (
            b"\xff\xff\xff\xff\xff\xff\xff\xff".as_slice(),
            (3_607_772_527_800, 42_949_672_950),
        ),
    ] {
        let wrong = renormalised(
            rt.alloc(),
            b"sampling_rate=1000 ip=192.0.2.1",
            &[
                netflow(1, &[RATES, RATE_50, OWN], NONE),
                netflow(1, &[OWN_SET, own, BYTES_840], Wanted::Flows(&[wanted])),
            ],
        )?;
        assert_eq!(rt; wrong, None);
    }
    Ok(())
}

#[test]
fn the_greatest_product_is_exact(rt: HostRuntime) -> Result<(), Fail> {
    let most = (79_228_162_495_817_593_515_539_431_425, 42_949_672_950);
    let wrong = renormalised(
        rt.alloc(),
        b"",
        &[netflow(
            1,
            &[OWN, OWN_SET, &[0, 0, 0, 0, 255, 255, 255, 255], MOST_BYTES],
            Wanted::Flows(&[most]),
        )],
    )?;
    assert_eq!(rt; wrong, None);
    Ok(())
}

#[test]
fn rates_count_only_where_they_are_wanted(rt: HostRuntime) -> Result<(), Fail> {
    let wrong = plain(
        rt.alloc(),
        &[
            alone(&[V5, INTERVAL_100, V5_RECORD], ONE),
            netflow(1, &[TEMPLATE, RATES, RATE_50, DATA], ONE),
            netflow(
                1,
                &[OWN, OWN_SET, &[0, 0, 0, 0, 0, 0, 0, 7], BYTES_840],
                ONE,
            ),
        ],
    )?;
    assert_eq!(rt; wrong, None);
    Ok(())
}

#[test]
fn a_header_is_judged_by_its_version(rt: HostRuntime) -> Result<(), Fail> {
    let short = Wanted::Refused(Cause::Short);
    let length = Wanted::Refused(Cause::IpfixLength);
    let wrong = plain(
        rt.alloc(),
        &[
            alone(&[], short),
            alone(&[&[5]], short),
            alone(&[&[0, 1]], Wanted::Refused(Cause::Version(1))),
            alone(&[&[0, 8]], Wanted::Refused(Cause::Version(8))),
            alone(&[&[9, 0]], Wanted::Refused(Cause::Version(2304))),
            alone(&[V5, &[0]], short),
            alone(&[&[0, 9], &[0; 17]], short),
            alone(&[&[0, 9], &[0; 18]], NONE),
            alone(&[&[0, 10, 0, 15], &[0; 11]], short),
            alone(&[&[0, 10, 0, 15], &[0; 12]], length),
            alone(&[&[0, 10, 0, 17], &[0; 12]], length),
            alone(&[&[0, 10, 0, 16], &[0; 12]], NONE),
            alone(&[&[0, 10, 0, 16], &[0; 12], FAULT], NONE),
            alone(&[SFLOW, NO_SAMPLE], Wanted::Refused(Cause::Version(0))),
        ],
    )?;
    assert_eq!(rt; wrong, None);
    Ok(())
}

#[test]
fn sfacctd_reads_sflow_alone(rt: HostRuntime) -> Result<(), Fail> {
    let alloc = rt.alloc();
    let map = SamplingMap::empty(alloc);
    for (renormalise, wanted) in [(false, (1500, 1)), (true, (600_000, 400))] {
        let mut decoder = Decoder::new(alloc, same_hashing()?, Tool::Sfacctd, renormalise);
        let wrong = first_wrong(
            alloc,
            &mut decoder,
            &map,
            &[
                alone(&[&[0, 0, 0]], Wanted::Refused(Cause::Short)),
                alone(
                    &[V5, NO_INTERVAL, V5_RECORD],
                    Wanted::Refused(Cause::Version(327_681)),
                ),
                alone(&[SFLOW, NO_SAMPLE], NONE),
                alone(&[SFLOW, SAMPLE], Wanted::Flows(&[wanted])),
            ],
        )?;
        assert_eq!(rt; wrong, None);
    }
    Ok(())
}
