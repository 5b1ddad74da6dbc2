//! What the audit tells, as lines.

ghost use Rattle.std.specs.Prelude.{◌≡◌, ◌++◌, ◌∷◌, OnErr, OnOk, map};
ghost use Rattle.acct_types.specs.Routes.{BeginsWith};
ghost use Rattle.out_text.specs.declared.event.Event.TheVariants as event;
ghost use Rattle.out_text.specs.Events.{HasOneEvent, HasOneList, IsNamed, cause_number, cause_word, event_line, line_of, notice_number, notice_word};

use acct_types::{NoMemory, Octets, Text};
use flow_templates::{Cause, Notice, NoticeCause};
use itoa::Buffer;

/// What was counted in a run.
#[derive(Clone, Copy, Debug, PartialEq, Eq)]
pub struct Totals {
    pub datagrams: u64,
    /// Datagrams that were refused.
    pub refused: u64,
    pub records: u64,
    /// Records that a plugin didn't get.
    pub dropped: u64,
    /// Routing messages.
    pub messages: u64,
    /// Routing sessions that were closed.
    pub closed: u64,
}

/// What the audit tells. Datagrams and rows count from 1.
#[derive(Debug, PartialEq, Eq, Drop)]
pub enum Event {
    /// From this datagram on, routes are those after so many messages.
    Cut {
        datagram: u64,
        messages: u64,
    },
    /// The datagram is refused, and contributes nothing.
    Refused {
        datagram: u64,
        cause: Cause,
    },
    /// A part of the datagram is passed over.
    Notice {
        datagram: u64,
        notice: Notice,
    },
    /// The plugin didn't get this record of the datagram.
    Drop {
        plugin: Text,
        datagram: u64,
        row: u32,
    },
    /// The run is over.
    End(Totals),
}

/// Appends the line of an event: its kind and what it has as words with a space between them, numbers in decimal, and a
/// line feed. The plugin of a drop has 1 to 32 letters, digits, `_` or `-`. After NoMemory `out` is unchanged.
#[tactic(auto, unfolding(crate::specs::Events::event_line))]
pub fn event_text(e: &Event, out: &mut Octets) -> Result<(), NoMemory>
    requires named { IsNamed e.now }
    ensures ok { OnOk result (out.new ≡ out.old ++ event_line e.now) }
    ensures err { OnErr result (out.new ≡ out.old) }
{
    match e {
        Event::Cut { datagram, messages } => append_cut(*datagram, *messages, out),
        Event::Refused { datagram, cause } => append_refused(*datagram, *cause, out),
        Event::Notice { datagram, notice } => append_notice(*datagram, *notice, out),
        Event::Drop {
            plugin,
            datagram,
            row,
        } => append_drop(plugin.as_slice(), *datagram, *row, out),
        Event::End(totals) => append_totals(totals, out),
    }
}

#[tactic(auto, unfolding(crate::specs::Events::event_line))]
fn append_cut(datagram: u64, messages: u64, out: &mut Octets) -> Result<(), NoMemory>
    ensures ok { OnOk result (out.new ≡ out.old ++ event_line (event.Cut datagram messages)) }
    ensures err { OnErr result (out.new ≡ out.old) }
{
    let mut first = Buffer::new();
    let mut second = Buffer::new();
    let datagram = first.format(datagram).as_bytes();
    let messages = second.format(messages).as_bytes();
    append_line(b"cut", &[datagram, messages], out)
}

#[tactic(auto, unfolding(crate::specs::Events::event_line))]
fn append_refused(datagram: u64, cause: Cause, out: &mut Octets) -> Result<(), NoMemory>
    ensures ok { OnOk result (out.new ≡ out.old ++ event_line (event.Refused datagram cause)) }
    ensures err { OnErr result (out.new ≡ out.old) }
{
    let mut first = Buffer::new();
    let mut second = Buffer::new();
    let datagram = first.format(datagram).as_bytes();
    let word = cause_word(cause);
    match cause_number(cause) {
        None => append_line(b"refused", &[datagram, word], out),
        Some(number) => {
            let number = second.format(number).as_bytes();
            append_line(b"refused", &[datagram, word, number], out)
        }
    }
}

#[tactic(auto, unfolding(crate::specs::Events::event_line))]
fn append_notice(datagram: u64, notice: Notice, out: &mut Octets) -> Result<(), NoMemory>
    ensures ok { OnOk result (out.new ≡ out.old ++ event_line (event.Notice datagram notice)) }
    ensures err { OnErr result (out.new ≡ out.old) }
{
    let mut first = Buffer::new();
    let mut second = Buffer::new();
    let mut third = Buffer::new();
    let datagram = first.format(datagram).as_bytes();
    let set = second.format(notice.set).as_bytes();
    let word = notice_word(notice.cause);
    match notice_number(notice.cause) {
        None => append_line(b"notice", &[datagram, set, word], out),
        Some(number) => {
            let number = third.format(number).as_bytes();
            append_line(b"notice", &[datagram, set, word, number], out)
        }
    }
}

#[tactic(auto, unfolding(crate::specs::Events::event_line))]
fn append_drop(plugin: &[u8], datagram: u64, row: u32, out: &mut Octets) -> Result<(), NoMemory>
    ensures ok { OnOk result (out.new ≡ out.old ++ event_line (event.Drop plugin.now datagram row)) }
    ensures err { OnErr result (out.new ≡ out.old) }
{
    let mut first = Buffer::new();
    let mut second = Buffer::new();
    let datagram = first.format(datagram).as_bytes();
    let row = second.format(row).as_bytes();
    append_line(b"drop", &[plugin, datagram, row], out)
}

#[tactic(auto, unfolding(crate::specs::Events::event_line))]
fn append_totals(totals: &Totals, out: &mut Octets) -> Result<(), NoMemory>
    ensures ok { OnOk result (out.new ≡ out.old ++ event_line (event.End totals.now)) }
    ensures err { OnErr result (out.new ≡ out.old) }
{
    let mut first = Buffer::new();
    let mut second = Buffer::new();
    let mut third = Buffer::new();
    let mut fourth = Buffer::new();
    let mut fifth = Buffer::new();
    let mut sixth = Buffer::new();
    let datagrams = first.format(totals.datagrams).as_bytes();
    let refused = second.format(totals.refused).as_bytes();
    let records = third.format(totals.records).as_bytes();
    let dropped = fourth.format(totals.dropped).as_bytes();
    let messages = fifth.format(totals.messages).as_bytes();
    let closed = sixth.format(totals.closed).as_bytes();
    append_line(
        b"end",
        &[datagrams, refused, records, dropped, messages, closed],
        out,
    )
}

/// The word of a cause.
#[tactic(auto, unfolding(crate::specs::Events::cause_word))]
pub(crate) fn cause_word<'a>(cause: Cause) -> &'a [u8]
    ensures { result.now ≡ cause_word cause }
{
    match cause {
        Cause::Short => b"short",
        Cause::Version(_) => b"version",
        Cause::V5Count => b"v5-count",
        Cause::V5Cut => b"v5-cut",
        Cause::SetLength => b"set-length",
        Cause::TemplateId => b"template-id",
        Cause::TemplateCut => b"template-cut",
        Cause::TemplateEmpty => b"template-empty",
        Cause::FieldWidth => b"field-width",
        Cause::ScopeCount => b"scope-count",
        Cause::IpfixLength => b"ipfix-length",
        Cause::VarCut => b"var-cut",
        Cause::SflowAddress => b"sflow-address",
        Cause::SampleCut => b"sample-cut",
        Cause::RecordCut => b"record-cut",
    }
}

fn cause_number(cause: Cause) -> Option<u32>
    ensures { result ≡ cause_number cause }
{
    match cause {
        Cause::Version(number) => Some(number),
        _ => None,
    }
}

/// The word of a notice.
#[tactic(auto, unfolding(crate::specs::Events::notice_word))]
pub(crate) fn notice_word<'a>(notice: NoticeCause) -> &'a [u8]
    ensures { result.now ≡ notice_word notice }
{
    match notice {
        NoticeCause::NoTemplate(_) => b"no-template",
        NoticeCause::ReservedSet(_) => b"reserved-set",
        NoticeCause::HeaderCut => b"header-cut",
        NoticeCause::NotIp => b"not-ip",
        NoticeCause::Skipped(_) => b"skipped",
    }
}

fn notice_number(notice: NoticeCause) -> Option<u32>
    ensures { result ≡ notice_number notice }
{
    match notice {
        NoticeCause::NoTemplate(id) | NoticeCause::ReservedSet(id) => Some(u32::from(id)),
        NoticeCause::Skipped(format) => Some(format),
        _ => None,
    }
}

// Appends words with a space between them, and a line feed.
fn append_line(first: &[u8], others: &[&[u8]], out: &mut Octets) -> Result<(), NoMemory>
    ensures ok { OnOk result (out.new ≡ out.old ++ line_of (first.now ∷ map (λ word. word.now) others.now)) }
    ensures err { OnErr result (out.new ≡ out.old) }
{
    let before = out.len();
    let Ok(()) = append_words(first, others, out) else {
        out.truncate(before);
        return Err(NoMemory);
    };
    Ok(())
}

fn append_words(first: &[u8], others: &[&[u8]], out: &mut Octets) -> Result<(), NoMemory>
    ensures ok { OnOk result (out.new ≡ out.old ++ line_of (first.now ∷ map (λ word. word.now) others.now)) }
    ensures kept { BeginsWith out.old out.new }
{
    out.extend(first)?;
    for word in others {
        out.push(b' ')?;
        out.extend(word)?;
    }
    out.push(b'\n')
}

/// A law: events that have lines are equal where their lines are.
pub fn one_event()
    ensures { HasOneEvent }
{}

/// A law: lists of events that have lines are equal where the texts of all their lines are.
pub fn lines_have_one_list()
    ensures { HasOneList }
{}
