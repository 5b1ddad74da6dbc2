use acct_types::{Act, Addr, Datagram, List, Octets, RouteEvent, Side, Text};
use outside_io::{
    Begin, Datagrams, FilePlace, FileSource, Flag, InputFault, IoFault, MemoryFlows, MemoryPlace,
    MemorySessions, MemorySink, MemorySource, NoRoutes, Place, SayOut, Sessions, Sink, Source,
    can_come, read_all, read_name, write_all,
};
use std::alloc::Global;
use std::fs::remove_file;
use std::io::{Error, ErrorKind, Read, Write};
use std::test::Fail;

fn same(got: &[u8], wanted: &[u8]) -> bool {
    got == wanted
}

// What came of a call, as a word.
fn answer_of<T: Drop>(answer: Result<T, IoFault>) -> &'static [u8] {
    match answer {
        Ok(_) => b"ok",
        Err(IoFault::Failed) => b"failed",
        Err(IoFault::NoMemory) => b"no memory",
    }
}

// What is read of a source by one call, or how it failed.
fn one_read<S: Source>(alloc: Global, source: &mut S) -> Result<Octets, Fail> {
    let mut buf = [0u8; 3];
    match source.read(&mut buf) {
        Ok(count) => Ok(Octets::from_slice(alloc, &buf[..count])?),
        Err(_) => Ok(Octets::from_slice(alloc, b"failed")?),
    }
}

fn write_name<P: Place>(
    place: &mut P,
    name: &Text,
    begin: Begin,
    octets: &[u8],
) -> Result<(), IoFault> {
    let mut out = place.open_out(name, begin)?;
    let written = write_all(&mut out, octets);
    place.close_out(name, begin, out)?;
    written
}

#[test]
fn a_source_gives_a_little_a_read_and_fails_where_it_is_to(rt: HostRuntime) -> Result<(), Fail> {
    let alloc = rt.alloc();
    let failing = List::from_slice(alloc, &[2])?;
    let mut source = MemorySource::new(Octets::from_slice(alloc, b"abcde")?, 2, failing);
    let mut got = Octets::new(alloc);
    for _ in 0..6u8 {
        got.extend(one_read(alloc, &mut source)?.as_slice())?;
        got.push(b'|')?;
    }
    assert!(rt; same(got.as_slice(), b"ab|failed|cd|e|||"));
    Ok(())
}

#[test]
fn what_was_read_before_a_failed_read_is_kept(rt: HostRuntime) -> Result<(), Fail> {
    let alloc = rt.alloc();
    let failing = List::from_slice(alloc, &[3])?;
    let mut source = MemorySource::new(Octets::from_slice(alloc, b"abcde")?, 1, failing);
    let mut got = Octets::new(alloc);
    for _ in 0..4u8 {
        let read = read_all(alloc, &mut source, 2)?;
        got.extend(read.octets.as_slice())?;
        got.extend(if read.failed { b"!" } else { b"|" })?;
    }
    assert!(rt; same(got.as_slice(), b"ab|!cd|e|"));
    Ok(())
}

#[test]
fn a_sink_takes_a_little_a_write_and_fails_where_it_is_to(rt: HostRuntime) -> Result<(), Fail> {
    let alloc = rt.alloc();
    let mut sink = MemorySink::new(alloc, 2, List::from_slice(alloc, &[2])?);
    assert!(rt; same(answer_of(write_all(&mut sink, b"abcde")), b"failed"));
    assert!(rt; same(answer_of(write_all(&mut sink, b"xyz")), b"ok"));
    assert!(rt; same(sink.held().as_slice(), b"abxyz"));
    Ok(())
}

// What the name holds after a write, behind what the write answered.
fn after_write(
    alloc: Global,
    place: &mut MemoryPlace,
    name: &Text,
    begin: Begin,
    octets: &[u8],
) -> Result<Octets, Fail> {
    let mut got = Octets::from_slice(alloc, answer_of(write_name(place, name, begin, octets)))?;
    got.push(b' ')?;
    if let Some(held) = place.get(name) {
        got.extend(held.as_slice())?;
    }
    Ok(got)
}

#[test]
fn outputs_follow_the_old_octets_or_begin_anew(rt: HostRuntime) -> Result<(), Fail> {
    let alloc = rt.alloc();
    // The third opening fails, and the second closing.
    let opens = List::from_slice(alloc, &[3])?;
    let closes = List::from_slice(alloc, &[2])?;
    let mut place = MemoryPlace::new(alloc, opens, closes);
    let name = Text::from_slice(alloc, b"out")?;
    place.put(name.copy()?, Octets::from_slice(alloc, b"old")?)?;
    // Each write moves one octet, and the third of each sink fails.
    place.shape(name.copy()?, 1, List::from_slice(alloc, &[3])?)?;
    let begins = [
        Begin::Append,
        Begin::Append,
        Begin::Anew,
        Begin::Anew,
        Begin::Append,
    ];
    let octets: [&[u8]; 5] = [b"12", b"34", b"56", b"78", b"90a"];
    let wanted: [&[u8]; 5] = [
        b"ok old12",
        b"failed old12",
        b"failed old12",
        b"ok 78",
        b"failed 7890",
    ];
    for i in 0..5 {
        let got = after_write(alloc, &mut place, &name, begins[i], octets[i])?;
        assert!(rt; same(got.as_slice(), wanted[i]));
    }
    Ok(())
}

#[test]
fn inputs_are_read_to_their_ends(rt: HostRuntime) -> Result<(), Fail> {
    let alloc = rt.alloc();
    // The third opening fails.
    let opens = List::from_slice(alloc, &[3])?;
    let mut place = MemoryPlace::new(alloc, opens, List::new(alloc));
    let name = Text::from_slice(alloc, b"in")?;
    place.put(name.copy()?, Octets::from_slice(alloc, b"octets")?)?;
    place.shape(name.copy()?, 2, List::from_slice(alloc, &[3])?)?;
    let missing = Text::from_slice(alloc, b"missing")?;
    assert!(rt;
        same(
            answer_of(read_name(alloc, &mut place, &missing, 9)),
            b"failed"
        )
    );
    assert!(rt; same(answer_of(read_name(alloc, &mut place, &name, 9)), b"failed"));
    assert!(rt; same(answer_of(read_name(alloc, &mut place, &name, 4)), b"failed"));
    let read = read_name(alloc, &mut place, &name, 4).map_err(|_| "it isn't read")?;
    assert!(rt; same(read.as_slice(), b"octe"));
    Ok(())
}

#[test]
fn files_are_written_and_read(rt: HostRuntime) -> Result<(), Fail> {
    let alloc = rt.alloc();
    let mut place = FilePlace::new(alloc, &rt);
    let name = Text::from_slice(alloc, b"outside_io_files_are_written_and_read")?;
    // Longer octets are lost where an output begins anew, and nothing may be written.
    let rows: [(Begin, &[u8], &[u8]); 5] = [
        (Begin::Anew, b"much longer", b"much longer"),
        (Begin::Anew, b"some", b"some"),
        (Begin::Append, b"thing", b"something"),
        (Begin::Append, b"", b"something"),
        (Begin::Anew, b"", b""),
    ];
    for (begin, octets, wanted) in rows {
        let answer = answer_of(write_name(&mut place, &name, begin, octets));
        assert!(rt; same(answer, b"ok"));
        let read = read_name(alloc, &mut place, &name, 99).map_err(|_| "it isn't read")?;
        assert!(rt; same(read.as_slice(), wanted));
    }
    remove_file(&rt, "outside_io_files_are_written_and_read")?;
    let not_utf8: &[u8] = b"\xff";
    for name in [name.as_slice(), not_utf8] {
        let name = Text::from_slice(alloc, name)?;
        let answer = answer_of(read_name(alloc, &mut place, &name, 99));
        assert!(rt; same(answer, b"failed"));
    }
    Ok(())
}

#[test]
fn a_failed_read_of_a_file_is_not_its_end(rt: HostRuntime) -> Result<(), Fail> {
    let alloc = rt.alloc();
    let mut place = FilePlace::new(alloc, &rt);
    // A folder is opened, and then each read of it fails.
    let folder = Text::from_slice(alloc, b".")?;
    let mut source = place.open_in(&folder).map_err(|_| "it isn't opened")?;
    assert!(rt; same(one_read(alloc, &mut source)?.as_slice(), b"failed"));
    let answer = answer_of(read_name(alloc, &mut place, &folder, 99));
    assert!(rt; same(answer, b"failed"));
    Ok(())
}

// A reader and a writer of std. Each call moves at most as many octets as its step says, the last step first, or fails
// where that is 9.
#[derive(Drop)]
struct Stepwise {
    octets: Octets,
    steps: Octets,
}

impl Stepwise {
    fn next_step(&mut self) -> Result<usize, Error> {
        match self.steps.pop() {
            Some(9) => Err(Error::from(ErrorKind::Other)),
            Some(step) => Ok(step as usize),
            None => Ok(0),
        }
    }
}

impl Write for Stepwise {
    fn write(&mut self, buf: &[u8]) -> Result<usize, Error> {
        let count = self.next_step()?.min(buf.len());
        match self.octets.extend(&buf[..count]) {
            Ok(()) => Ok(count),
            Err(_) => Err(Error::from(ErrorKind::OutOfMemory)),
        }
    }

    fn flush(&mut self) -> Result<(), Error> {
        Ok(())
    }
}

impl Read for Stepwise {
    fn read(&mut self, buf: &mut [u8]) -> Result<usize, Error> {
        let count = self.next_step()?.min(buf.len());
        buf[..count].fill(b'r');
        Ok(count)
    }
}

#[test]
fn a_short_write_is_not_whole(rt: HostRuntime) -> Result<(), Fail> {
    let alloc = rt.alloc();
    let rows: [(&[u8], &[u8], &[u8]); 5] = [
        (&[2, 2, 2], b"ok", b"abcde"),
        (&[7, 1], b"ok", b"abcde"),
        (&[9, 2], b"failed", b"ab"),
        (&[0, 2, 2], b"failed", b"abcd"),
        (&[9], b"failed", b""),
    ];
    for (steps, answer, held) in rows {
        let mut writer = Stepwise {
            octets: Octets::new(alloc),
            steps: Octets::from_slice(alloc, steps)?,
        };
        let mut out = SayOut::new(&mut writer);
        assert!(rt; same(answer_of(write_all(&mut out, b"abcde")), answer));
        assert!(rt; same(writer.octets.as_slice(), held));
    }
    Ok(())
}

#[test]
fn a_short_read_is_not_the_end(rt: HostRuntime) -> Result<(), Fail> {
    let alloc = rt.alloc();
    let rows: [(&[u8], &[u8], bool); 3] = [
        (&[2, 2], b"rrrr", false),
        (&[9, 1, 2], b"rrr", true),
        (&[9], b"", true),
    ];
    for (steps, octets, failed) in rows {
        let mut reader = FileSource::new(Stepwise {
            octets: Octets::new(alloc),
            steps: Octets::from_slice(alloc, steps)?,
        });
        let read = read_all(alloc, &mut reader, 99)?;
        assert!(rt; same(read.octets.as_slice(), octets) && read.failed == failed);
    }
    Ok(())
}

// A datagram of one octet, which is the last digit of its moment.
fn datagram_at(alloc: Global, moment: u64) -> Result<Datagram, Fail> {
    Ok(Datagram {
        moment,
        exporter: Addr::V4(1),
        port: 2055,
        octets: Octets::from_slice(alloc, &[b'0' + (moment % 10) as u8])?,
    })
}

// What comes of some calls of an input: the octets of each event, or a mark.
fn handed_out<D: Datagrams>(alloc: Global, input: &mut D, calls: u8) -> Result<Octets, Fail> {
    let mut got = Octets::new(alloc);
    for _ in 0..calls {
        match input.next() {
            Ok(Some(datagram)) => got.extend(datagram.octets.as_slice())?,
            Ok(None) => got.push(b'.')?,
            Err(InputFault::ReadFault) => got.push(b'!')?,
            Err(_) => got.push(b'?')?,
        }
    }
    Ok(got)
}

#[test]
fn datagrams_come_in_order_and_some_calls_fail(rt: HostRuntime) -> Result<(), Fail> {
    let alloc = rt.alloc();
    let failing: [&[u64]; 3] = [&[], &[2, 5], &[1, 2, 6]];
    let wanted: [&[u8]; 3] = [b"1223...", b"1!22!3.", b"!!122!3"];
    for i in 0..3 {
        let mut datagrams = List::new(alloc);
        for moment in [1, 2, 2, 3] {
            datagrams.push(datagram_at(alloc, moment)?)?;
        }
        if !can_come(datagrams.as_slice()) {
            return Err("these can come".into());
        }
        let mut flows = MemoryFlows::new(datagrams, List::from_slice(alloc, failing[i])?);
        let got = handed_out(alloc, &mut flows, 7)?;
        assert!(rt; same(got.as_slice(), wanted[i]));
    }
    Ok(())
}

#[test]
fn events_that_go_back_or_are_too_long_cannot_come(rt: HostRuntime) -> Result<(), Fail> {
    let alloc = rt.alloc();
    let lengths = [65_535, 65_536, 0, 0];
    let moments = [7, 7, 6, 7];
    let wanted = [true, false, false, true];
    for i in 0..4 {
        let octets = Octets::from_vec(Vec::from_elem(alloc, 0, lengths[i])?);
        let mut events = List::new(alloc);
        events.push(event_of(7, Act::Tick))?;
        events.push(event_of(moments[i], Act::Bytes(octets)))?;
        assert!(rt; can_come(events.as_slice()) == wanted[i]);
    }
    Ok(())
}

fn event_of(moment: u64, act: Act) -> RouteEvent {
    RouteEvent {
        moment,
        side: Side::Bgp,
        address: Addr::V6(9),
        port: 179,
        act,
    }
}

// What comes of some calls of an input: the first letter of each event, or a mark.
fn acts<S: Sessions>(alloc: Global, input: &mut S, calls: u8) -> Result<Octets, Fail> {
    let mut got = Octets::new(alloc);
    for _ in 0..calls {
        match input.next() {
            Ok(Some(event)) => match &event.act {
                Act::Up => got.push(b'u')?,
                Act::Bytes(octets) => got.extend(octets.as_slice())?,
                Act::Down => got.push(b'd')?,
                Act::Tick => got.push(b't')?,
            },
            Ok(None) => got.push(b'.')?,
            Err(InputFault::ReadFault) => got.push(b'!')?,
            Err(_) => got.push(b'?')?,
        }
    }
    Ok(got)
}

#[test]
fn sessions_give_their_events_and_keep_the_replies(rt: HostRuntime) -> Result<(), Fail> {
    let alloc = rt.alloc();
    let mut events = List::new(alloc);
    events.push(event_of(5, Act::Up))?;
    events.push(event_of(6, Act::Bytes(Octets::from_slice(alloc, b"xy")?)))?;
    events.push(event_of(6, Act::Tick))?;
    events.push(event_of(9, Act::Down))?;
    if !can_come(events.as_slice()) {
        return Err("these can come".into());
    }
    let failing_next = List::from_slice(alloc, &[3])?;
    let failing_replies = List::from_slice(alloc, &[1, 3])?;
    let mut sessions = MemorySessions::new(alloc, events, failing_next, failing_replies);
    let got = acts(alloc, &mut sessions, 3)?;
    assert!(rt; same(got.as_slice(), b"uxy!"));
    let replies: [&[u8]; 4] = [b"a", b"b", b"c", b"d"];
    for i in 0..4 {
        let octets = Octets::from_slice(alloc, replies[i])?;
        let answer = answer_of(sessions.reply(Side::Bgp, &Addr::V4(3), &octets));
        assert!(rt; same(answer, if i == 0 || i == 2 { b"failed" } else { b"ok" }));
    }
    let got = acts(alloc, &mut sessions, 4)?;
    assert!(rt; same(got.as_slice(), b"td.."));
    let sent = sessions.sent().as_slice();
    assert!(rt; sent.len() == 2);
    for (reply, octets) in sent.iter().zip([b"b", b"d"]) {
        assert!(rt; reply.side == Side::Bgp && reply.to == Addr::V4(3));
        assert!(rt; same(reply.octets.as_slice(), octets));
    }
    Ok(())
}

#[test]
fn no_routes_end_at_once(rt: HostRuntime) -> Result<(), Fail> {
    let alloc = rt.alloc();
    let mut routes = NoRoutes::new(alloc);
    let got = acts(alloc, &mut routes, 2)?;
    assert!(rt; same(got.as_slice(), b".."));
    let answer = answer_of(routes.reply(Side::Bgp, &Addr::V4(3), &Octets::new(alloc)));
    assert!(rt; same(answer, b"ok"));
    let stopper = routes.stopper()?;
    assert!(rt; !stopper.raised());
    Ok(())
}

#[test]
fn copies_of_a_flag_are_one_truth_value(rt: HostRuntime) -> Result<(), Fail> {
    let flag = Flag::new(rt.alloc())?;
    let copy = flag.copy()?;
    assert!(rt; !flag.raised() && !copy.raised());
    copy.raise();
    assert!(rt; flag.raised() && copy.raised());
    Ok(())
}
