ghost use Rattle.out_text.specs.Events.{IsNamed};

use acct_types::{Octets, Text};
use flow_templates::{Cause, Notice, NoticeCause};
use out_text::{Event, LineFault, Totals, event_text, read_event};
use std::alloc::Global;
use std::test::Fail;

// Whether the event is written as this line behind what is there, and the line read as the event.
fn is_line(alloc: Global, event: &Event, line: &[u8]) -> Result<bool, Fail>
    requires { IsNamed event.now }
{
    let mut out = Octets::new(alloc);
    out.push(b'#').ok().ok_or("memory")?;
    event_text(event, &mut out).ok().ok_or("memory")?;
    let Some((first, text)) = out.as_slice().split_first() else {
        return Ok(false);
    };
    if *first != b'#' || text != line {
        return Ok(false);
    }
    match read_event(alloc, line) {
        Ok(read) => Ok(read == *event),
        Err(_) => Ok(false),
    }
}

static CAUSES: [(Cause, &'static str); 16] = [
    (Cause::Short, "refused 7 short\n"),
    (Cause::Version(0), "refused 7 version 0\n"),
    (Cause::Version(u32::MAX), "refused 7 version 4294967295\n"),
    (Cause::V5Count, "refused 7 v5-count\n"),
    (Cause::V5Cut, "refused 7 v5-cut\n"),
    (Cause::SetLength, "refused 7 set-length\n"),
    (Cause::TemplateId, "refused 7 template-id\n"),
    (Cause::TemplateCut, "refused 7 template-cut\n"),
    (Cause::TemplateEmpty, "refused 7 template-empty\n"),
    (Cause::FieldWidth, "refused 7 field-width\n"),
    (Cause::ScopeCount, "refused 7 scope-count\n"),
    (Cause::IpfixLength, "refused 7 ipfix-length\n"),
    (Cause::VarCut, "refused 7 var-cut\n"),
    (Cause::SflowAddress, "refused 7 sflow-address\n"),
    (Cause::SampleCut, "refused 7 sample-cut\n"),
    (Cause::RecordCut, "refused 7 record-cut\n"),
];

static NOTICES: [(u32, NoticeCause, &str); 5] = [
    (
        1,
        NoticeCause::NoTemplate(256),
        "notice 9 1 no-template 256\n",
    ),
    (
        2,
        NoticeCause::ReservedSet(65535),
        "notice 9 2 reserved-set 65535\n",
    ),
    (0, NoticeCause::HeaderCut, "notice 9 0 header-cut\n"),
    (u32::MAX, NoticeCause::NotIp, "notice 9 4294967295 not-ip\n"),
    (
        5,
        NoticeCause::Skipped(u32::MAX),
        "notice 9 5 skipped 4294967295\n",
    ),
];

// Other numbers, other words, and other spaces and line ends.
static NO_LINES: [&str; 42] = [
    "cut 01 2\n",
    "cut 1 +2\n",
    "cut 1 -2\n",
    "cut 1 \n",
    "cut 1 18446744073709551616\n",
    "cut 0x1 2\n",
    "refused 1 version 4294967296\n",
    "refused 1 version 09\n",
    "notice 1 4294967296 not-ip\n",
    "notice 1 2 no-template 65536\n",
    "notice 1 2 reserved-set 65536\n",
    "notice 1 2 skipped 4294967296\n",
    "drop p 1 4294967296\n",
    "end 1 2 3 4 5 18446744073709551616\n",
    "Cut 1 2\n",
    "refused 1 long\n",
    "refused 1 Short\n",
    "refused 1 short 5\n",
    "refused 1 version\n",
    "refused 1 version 9 9\n",
    "notice 1 2 short\n",
    "notice 1 not-ip\n",
    "notice 1 2 no-template\n",
    "drop p 1\n",
    "drop  1 2\n",
    "drop p q 1 2\n",
    "drop p: 1 2\n",
    "drop abcdefghijklmnopqrstuvwxyz0123456 1 2\n",
    "end 1 2 3 4 5\n",
    "end 1 2 3 4 5 6 7\n",
    "",
    "\n",
    " \n",
    "cut 1 2",
    "cut 1 2\n\n",
    "cut 1 2\r\n",
    "cut 1 2 \n",
    " cut 1 2\n",
    "cut  1 2\n",
    "cut\t1\t2\n",
    "cut 1 2\ncut 1 2\n",
    "cut 1 2 ",
];

// The proof of a test needn't read the tables.
fn causes() -> &'static [(Cause, &'static str)] {
    &CAUSES
}

fn notices() -> &'static [(u32, NoticeCause, &'static str)] {
    &NOTICES
}

fn no_lines() -> &'static [&'static str] {
    &NO_LINES
}

#[test]
fn each_cause_has_its_line(rt: HostRuntime) -> Result<(), Fail> {
    for (cause, line) in causes() {
        let event = Event::Refused {
            datagram: 7,
            cause: *cause,
        };
        assert!(rt; is_line(rt.alloc(), &event, line.as_bytes())?);
    }
    Ok(())
}

#[test]
fn each_notice_has_its_line(rt: HostRuntime) -> Result<(), Fail> {
    for (set, cause, line) in notices() {
        let event = Event::Notice {
            datagram: 9,
            notice: Notice {
                set: *set,
                cause: *cause,
            },
        };
        assert!(rt; is_line(rt.alloc(), &event, line.as_bytes())?);
    }
    Ok(())
}

#[test]
fn cuts_and_ends_have_their_lines(rt: HostRuntime) -> Result<(), Fail> {
    let cut = Event::Cut {
        datagram: 1,
        messages: u64::MAX,
    };
    assert!(rt; is_line(rt.alloc(), &cut, b"cut 1 18446744073709551615\n")?);
    let end = Event::End(Totals {
        datagrams: 12,
        refused: 3,
        records: 40,
        dropped: 5,
        messages: 60,
        closed: 0,
    });
    assert!(rt; is_line(rt.alloc(), &end, b"end 12 3 40 5 60 0\n")?);
    Ok(())
}

#[test]
fn a_drop_has_the_plugin_s_name(rt: HostRuntime) -> Result<(), Fail> {
    let plugin = Text::from_slice(rt.alloc(), b"in-2_Z")
        .ok()
        .ok_or("memory")?;
    let drop = Event::Drop {
        plugin,
        datagram: 8,
        row: u32::MAX,
    };
    assert!(rt; is_line(rt.alloc(), &drop, b"drop in-2_Z 8 4294967295\n")?);
    Ok(())
}

#[test]
fn other_texts_have_no_event(rt: HostRuntime) -> Result<(), Fail> {
    for text in no_lines() {
        let read = read_event(rt.alloc(), text.as_bytes());
        assert!(rt; read == Err(LineFault::NotALine), "{text}");
    }
    Ok(())
}
