//! Runs over a place in memory, for tests: what is given, and in what the outcome differs from what is wanted.

use acct_top::{account_alone, status};
use acct_types::{List, NoMemory, Octets, Text};
use config_keys::Tool;
use fixtures::{joined, same_hashing};
use outside_io::{MemoryPlace, MemorySink};
use std::alloc::Global;
use std::test::Fail;

/// What stands in a capture.
#[derive(Clone, Copy)]
pub enum Part {
    /// At a moment in milliseconds a datagram of version 5 from 192.0.2.1, with a record of 10 packets and 840 octets from 10.0.0.N for
    /// each number.
    From(u64, &'static [u8]),
    /// The same from 2001:db8::1.
    FromV6(u64, &'static [u8]),
    /// At a moment a datagram of these octets from 192.0.2.1.
    Alone(u64, &'static [u8]),
    /// At 1,000 ms a datagram of these parts from 192.0.2.N.
    Of(u8, &'static [&'static [u8]]),
}

/// A file's name, and what it holds.
pub type File = (&'static [u8], &'static [u8]);

/// A file's name, so many times which octets it holds, and what stands behind them.
pub type LongFile = (&'static [u8], usize, &'static [u8], &'static [u8]);

/// What a run is given.
#[derive(Clone, Copy)]
pub struct Given {
    pub tool: Tool,
    /// The parts of the configuration, which is the file `c.conf`.
    pub config: &'static [&'static [u8]],
    /// The parts of the capture `flows.cap` behind its magic.
    pub capture: &'static [Part],
    /// What octets stand behind them.
    pub tail: &'static [u8],
    /// How many octets of the capture are there.
    pub cut: usize,
    /// There is no capture.
    pub uncaptured: bool,
    /// What else there is.
    pub files: &'static [File],
    pub long: Option<LongFile>,
    /// The openings and the closings, by their numbers from 1, that fail.
    pub opens: &'static [u64],
    pub closes: &'static [u64],
    /// Names, how many octets a call moves of them at most, and which of these calls fail.
    pub shapes: &'static [(&'static [u8], u64, &'static [u64])],
    /// A name of which a call moves at most 8 octets, and the one of this number fails.
    pub failing: Option<(&'static [u8], u64)>,
}

/// What is wanted of a run.
#[derive(Clone, Copy)]
pub struct Wanted {
    pub status: u8,
    pub line: &'static [u8],
    /// Names, and what they hold, None of one that isn't there.
    pub files: &'static [(&'static [u8], Option<&'static [u8]>)],
    /// A name that holds a front of these octets, of so many of them at most.
    pub front: Option<(&'static [u8], &'static [u8], usize)>,
}

pub type Case = (Given, Wanted);

fn push_event(
    out: &mut Octets,
    head: &[u8],
    moment: u64,
    exporter: &[u8],
    datagram: &[u8],
) -> Result<(), NoMemory> {
    out.extend(head)?;
    out.extend(&moment.to_be_bytes())?;
    out.extend(exporter)?;
    out.extend(b"\xc3\x50\0\0")?;
    out.extend(&((datagram.len() % 65_536) as u16).to_be_bytes())?;
    out.extend(datagram)
}

fn version_5(alloc: Global, sources: &[u8]) -> Result<Octets, NoMemory> {
    let mut octets = Octets::from_slice(alloc, &[0, 5, 0, (sources.len() % 256) as u8])?;
    octets.extend(&[0; 20])?;
    for source in sources {
        octets.extend(&[10, 0, 0, *source, 10, 0, 0, 2])?;
        octets.extend(b"\0\0\0\0\0\0\0\0\0\0\0\x0a\0\0\x03\x48")?;
        octets.extend(b"\0\0\0\0\0\0\0\0\x04\0\0\x50\0\0\x06\0\0\0\0\0\0\0\0\0")?;
    }
    Ok(octets)
}

fn repeated(alloc: Global, times: usize, octets: &[u8], end: &[u8]) -> Result<Octets, NoMemory> {
    let mut all = Octets::new(alloc);
    for _ in 0..times {
        all.extend(octets)?;
    }
    all.extend(end)?;
    Ok(all)
}

const V4: &[u8] = b"\xc0\0\x02\x01";

const V6: &[u8] = b"\x20\x01\x0d\xb8\0\0\0\0\0\0\0\0\0\0\0\x01";

fn push_part(alloc: Global, out: &mut Octets, part: Part) -> Result<(), NoMemory> {
    match part {
        Part::From(moment, sources) => {
            let datagram = version_5(alloc, sources)?;
            push_event(out, b"\x04", moment, V4, datagram.as_slice())
        }
        Part::FromV6(moment, sources) => {
            let datagram = version_5(alloc, sources)?;
            push_event(out, b"\x06", moment, V6, datagram.as_slice())
        }
        Part::Alone(moment, datagram) => push_event(out, b"\x04", moment, V4, datagram),
        Part::Of(exporter, parts) => {
            let datagram = joined(alloc, parts)?;
            push_event(
                out,
                b"\x04",
                1_000,
                &[192, 0, 2, exporter],
                datagram.as_slice(),
            )
        }
    }
}

fn capture(alloc: Global, given: &Given) -> Result<Option<Octets>, NoMemory> {
    if given.uncaptured {
        return Ok(None);
    }
    let mut octets = Octets::from_slice(alloc, b"PMACAP01")?;
    for part in given.capture {
        push_part(alloc, &mut octets, *part)?;
    }
    octets.extend(given.tail)?;
    octets.truncate(given.cut);
    Ok(Some(octets))
}

fn place(alloc: Global, given: &Given) -> Result<MemoryPlace, NoMemory> {
    let opens = List::from_slice(alloc, given.opens)?;
    let closes = List::from_slice(alloc, given.closes)?;
    let mut place = MemoryPlace::new(alloc, opens, closes);
    place.put(
        Text::from_slice(alloc, b"c.conf")?,
        joined(alloc, given.config)?,
    )?;
    if let Some(octets) = capture(alloc, given)? {
        place.put(Text::from_slice(alloc, b"flows.cap")?, octets)?;
    }
    for (name, octets) in given.files {
        place.put(
            Text::from_slice(alloc, name)?,
            Octets::from_slice(alloc, octets)?,
        )?;
    }
    if let Some((name, times, octets, end)) = given.long {
        place.put(
            Text::from_slice(alloc, name)?,
            repeated(alloc, times, octets, end)?,
        )?;
    }
    for (name, most, failing) in given.shapes {
        place.shape(
            Text::from_slice(alloc, name)?,
            (*most).max(1),
            List::from_slice(alloc, failing)?,
        )?;
    }
    if let Some((name, number)) = given.failing {
        place.shape(
            Text::from_slice(alloc, name)?,
            8,
            List::from_slice(alloc, &[number])?,
        )?;
    }
    Ok(place)
}

pub(crate) fn words_of(alloc: Global, words: &[&str]) -> Result<Vec<String>, Fail> {
    let mut all = Vec::new(alloc);
    for word in words {
        all.push(String::from_str(alloc, word)?)?;
    }
    Ok(all)
}

pub(crate) fn is_held(held: Option<&Octets>, wanted: Option<&[u8]>) -> bool {
    match (held, wanted) {
        (Some(held), Some(wanted)) => held.as_slice() == wanted,
        (None, None) => true,
        _ => false,
    }
}

fn is_front(held: Option<&Octets>, octets: &[u8], most: usize) -> bool {
    held.is_some_and(|held| held.len() <= most && octets.starts_with(held.as_slice()))
}

/// The first thing in which a run differs from what is wanted: the status, the line, a file, or what was read.
pub(crate) fn difference(
    alloc: Global,
    given: &Given,
    wanted: &Wanted,
) -> Result<&'static [u8], Fail> {
    let mut place = place(alloc, given)?;
    let words = words_of(alloc, &["-f", "c.conf"])?;
    let mut say = MemorySink::new(alloc, 64, List::new(alloc));
    let answer = account_alone(
        alloc,
        same_hashing()?,
        given.tool,
        &words,
        &mut place,
        &mut say,
    );
    if status(&answer) != wanted.status {
        return Ok(b"status");
    }
    if say.held().as_slice() != wanted.line {
        return Ok(b"line");
    }
    for (name, held) in wanted.files {
        if !is_held(place.get(&Text::from_slice(alloc, name)?), *held) {
            return Ok(*name);
        }
    }
    if let Some((name, octets, most)) = wanted.front {
        if !is_front(place.get(&Text::from_slice(alloc, name)?), octets, most) {
            return Ok(name);
        }
    }
    let text = joined(alloc, given.config)?;
    if !is_held(
        place.get(&Text::from_slice(alloc, b"c.conf")?),
        Some(text.as_slice()),
    ) {
        return Ok(b"configuration");
    }
    let captured = capture(alloc, given)?;
    let octets = captured.as_ref().map(|octets| octets.as_slice());
    if !is_held(place.get(&Text::from_slice(alloc, b"flows.cap")?), octets) {
        return Ok(b"capture");
    }
    Ok(b"none")
}

/// The number, from 0, of the first case that differs, and in what.
pub(crate) fn first_difference(
    alloc: Global,
    cases: &[Case],
) -> Result<(usize, &'static [u8]), Fail> {
    for (index, (given, wanted)) in cases.iter().enumerate() {
        let found = difference(alloc, given, wanted)?;
        if found != b"none".as_slice() {
            return Ok((index, found));
        }
    }
    Ok((cases.len(), b"none"))
}

/// A run of nfacctd over an empty capture.
pub const EMPTY: Given = Given {
    tool: Tool::Nfacctd,
    config: &[],
    capture: &[],
    tail: b"",
    cut: usize::MAX,
    uncaptured: false,
    files: &[],
    long: None,
    opens: &[],
    closes: &[],
    shapes: &[],
    failing: None,
};

/// A run of nfacctd that is done.
pub const DONE: Wanted = Wanted {
    status: 0,
    line: b"nfacctd: done\n",
    files: &[],
    front: None,
};
