use crate::faults::{CONFIG, ROWS};
use crate::test_runs::{is_held, words_of};
use acct_types::{List, NoMemory, Octets, Text};
use config_keys::Tool;
use fixtures::same_hashing;
use outside_io::{MemoryPlace, MemorySink};
use program::run_words;
use std::alloc::Global;
use std::test::Fail;

// A datagram of 72 octets from 192.0.2.1, port 50000, at 1000 ms: 10.0.0.1 to 10.0.0.2, ports 1024 and 80, protocol 6, 10 packets,
// 840 octets.
const CAPTURE: &[u8] = b"PMACAP01\x04\0\0\0\0\0\0\x03\xe8\xc0\0\x02\x01\xc3\x50\0\0\0\x48\
\0\x05\0\x01\0\0\0\0\0\0\0\0\0\0\0\0\0\0\0\0\0\0\0\0\
\x0a\0\0\x01\x0a\0\0\x02\0\0\0\0\0\0\0\0\0\0\0\x0a\0\0\x03\x48\
\0\0\0\0\0\0\0\0\x04\0\0\x50\0\0\x06\0\0\0\0\0\0\0\0\0";

const NAMED: &[&str] = &["-f", "nfacctd.conf"];

const AT: Option<&[u8]> = Some(CONFIG);

// Words, the configuration, and then the status, the line and the output.
type Case = (
    &'static [&'static str],
    Option<&'static [u8]>,
    u8,
    &'static [u8],
    Option<&'static [u8]>,
);

fn put(alloc: Global, place: &mut MemoryPlace, name: &[u8], octets: &[u8]) -> Result<(), NoMemory> {
    place.put(
        Text::from_slice(alloc, name)?,
        Octets::from_slice(alloc, octets)?,
    )
}

// The first thing in which a run differs from what is wanted.
fn difference(alloc: Global, case: &Case) -> Result<&'static str, Fail> {
    let (words, config, wanted, line, output) = *case;
    let mut place = MemoryPlace::new(alloc, List::new(alloc), List::new(alloc));
    if let Some(config) = config {
        put(alloc, &mut place, b"nfacctd.conf", config)?;
    }
    put(alloc, &mut place, b"flows.cap", CAPTURE)?;
    let mut say = MemorySink::new(alloc, 5, List::new(alloc));
    let words = words_of(alloc, words)?;
    let status = run_words(
        alloc,
        same_hashing()?,
        Tool::Nfacctd,
        &words,
        &mut place,
        &mut say,
    );
    let name = Text::from_slice(alloc, b"p.csv")?;
    let wrote = is_held(place.get(&name), output);
    Ok(if status != wanted {
        "status"
    } else if say.held().as_slice() != line {
        "line"
    } else if !wrote {
        "output"
    } else {
        "none"
    })
}

#[test]
fn each_answer_has_its_status_and_its_line(rt: HostRuntime) -> Result<(), Fail> {
    let cases: [Case; 4] = [
        (NAMED, AT, 0, b"nfacctd: done\n", Some(ROWS)),
        (
            &[],
            AT,
            1,
            b"usage: nfacctd -f FILE | --generate NUMBER\n",
            None,
        ),
        (
            NAMED,
            Some(b"plugins: print[p]\n"),
            2,
            b"nfacctd: nfacctd.conf:0: missing-key\n",
            None,
        ),
        (NAMED, None, 3, b"nfacctd: cannot open nfacctd.conf\n", None),
    ];
    for (index, case) in cases.iter().enumerate() {
        let found = difference(rt.alloc(), case)?;
        assert_eq!(rt; found, "none", "case {index}");
    }
    Ok(())
}
