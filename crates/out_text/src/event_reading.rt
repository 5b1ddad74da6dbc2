//! Lines of the audit, read back.

ghost use Rattle.std.specs.Prelude.{◌≡◌, ◌==◌, ◌<◌, ◌^◌, [], ◌∷◌, true, ℕ, Err, IfOk, List, Ok, Option, decimal, map};
ghost use Rattle.std.specs.List.{AllByRecursion, find, list_all, slice_split};
ghost use Rattle.std.specs.Str.{bytes_eq};
ghost use Rattle.flow_templates.specs.declared.decoded.Notice.{Notice};
ghost use Rattle.flow_templates.specs.declared.decoded.NoticeCause.{NoticeCause};
ghost use Rattle.flow_templates.specs.declared.refusal.Cause.{Cause};
ghost use Rattle.out_text.specs.declared.event.Event.TheVariants as event;
ghost use Rattle.out_text.specs.declared.event.Totals.{Totals};
ghost use Rattle.out_text.specs.Events.{CauseFits, EventFits, IsBelow, NoticeFits, cause_number, cause_word, counts_of, event_line, is_name, is_name_octet, notice_number, notice_word, with_number};
ghost use Rattle.out_text.specs.Guesses.{Guesses, IsAnswer, Reads, causes_with, notices_with, or_zero};

use crate::event::{Event, Totals, cause_word, event_text, notice_word};
use acct_types::{NoMemory, Octets, Text};
use flow_templates::{Cause, Notice, NoticeCause};
use std::alloc::Global;
use std::str;

/// Why a line isn't read.
#[derive(Clone, Copy, Debug, PartialEq, Eq)]
pub enum LineFault {
    /// No event has this line.
    NotALine,
    NoMemory,
}

impl From<NoMemory> for LineFault {
    ghost use Rattle.out_text.specs.declared.event_reading.LineFault.TheVariants as fault;

    ghost from_gives = { λ _ e. e ≡ fault.NoMemory };

    fn from(_: NoMemory) -> Self {
        LineFault::NoMemory
    }
}

/// The event that has this line, line feed included. NotALine comes exactly where none has it whose numbers fit their types
/// and whose plugin, where it is a drop, has 1 to 32 letters, digits, `_` or `-`.
pub fn read_event(alloc: Global, line: &[u8]) -> Result<Event, LineFault>
    ensures found { IfOk result (λ event. EventFits event × (line.now ≡ event_line event)) }
    ensures none { result ≡ Err LineFault.NotALine → (event : _) → EventFits event → line.now ≡ event_line event → ⊥ }
{
    let Some((_, text)) = line.split_last() else {
        return Err(LineFault::NotALine);
    };
    let words = words_in(alloc, text)?;
    let event = likely_event(alloc, words.as_slice())?;
    let mut printed = Octets::new(alloc);
    event_text(&event, &mut printed)?;
    if printed.as_slice() != line {
        return Err(LineFault::NotALine);
    }
    Ok(event)
}

// The words of a text, which stand between spaces.
fn words_in(alloc: Global, text: &[u8]) -> Result<Vec<&[u8]>, NoMemory>
    ensures { IfOk result (λ words. map (λ word. word.now) words.items ≡ slice_split (λ octet. octet == 32) text.now) }
{
    Ok(text.split(|octet| *octet == b' ').collect(alloc)?)
}

// The event of these words, if they are an event's: other words may give any event.
fn likely_event(alloc: Global, words: &[&[u8]]) -> Result<Event, LineFault>
    ensures reads { Reads (map (λ word. word.now) words.now) result }
    ensures fits { IfOk result EventFits }
{
    let [kind, rest @ ..] = words else {
        return Err(LineFault::NotALine);
    };
    let kind = *kind;
    if kind == b"cut".as_slice() {
        likely_cut(rest)
    } else if kind == b"refused".as_slice() {
        likely_refusal(rest)
    } else if kind == b"notice".as_slice() {
        likely_notice(rest)
    } else if kind == b"drop".as_slice() {
        likely_drop(alloc, rest)
    } else if kind == b"end".as_slice() {
        likely_end(rest)
    } else {
        Err(LineFault::NotALine)
    }
}

fn likely_cut(words: &[&[u8]]) -> Result<Event, LineFault>
    ensures reads { (datagram messages : ℕ) → datagram < 2 ^ 64 → messages < 2 ^ 64 → map (λ word. word.now) words.now ≡ decimal datagram ∷ decimal messages ∷ [] → result ≡ Ok (event.Cut datagram messages) }
    ensures fits { IfOk result EventFits }
{
    let [datagram, messages] = words else {
        return Err(LineFault::NotALine);
    };
    Ok(Event::Cut {
        datagram: number_in(datagram)?,
        messages: number_in(messages)?,
    })
}

fn likely_refusal(words: &[&[u8]]) -> Result<Event, LineFault>
    ensures reads { (datagram : ℕ) → (cause : Cause) → datagram < 2 ^ 64 → CauseFits cause → map (λ word. word.now) words.now ≡ decimal datagram ∷ with_number (cause_word cause) (cause_number cause) → result ≡ Ok (event.Refused datagram cause) }
    ensures fits { IfOk result EventFits }
{
    let [datagram, cause @ ..] = words else {
        return Err(LineFault::NotALine);
    };
    Ok(Event::Refused {
        datagram: number_in(datagram)?,
        cause: likely_cause(cause)?,
    })
}

fn likely_notice(words: &[&[u8]]) -> Result<Event, LineFault>
    ensures reads { (datagram : ℕ) → (notice : Notice) → datagram < 2 ^ 64 → notice.set < 2 ^ 32 → NoticeFits notice.cause → map (λ word. word.now) words.now ≡ decimal datagram ∷ decimal notice.set ∷ with_number (notice_word notice.cause) (notice_number notice.cause) → result ≡ Ok (event.Notice datagram notice) }
    ensures fits { IfOk result EventFits }
{
    let [datagram, set, cause @ ..] = words else {
        return Err(LineFault::NotALine);
    };
    Ok(Event::Notice {
        datagram: number_in(datagram)?,
        notice: Notice {
            set: short_number_in(set)?,
            cause: likely_notice_cause(cause)?,
        },
    })
}

fn likely_drop(alloc: Global, words: &[&[u8]]) -> Result<Event, LineFault>
    ensures reads { (plugin : List ℕ) → (datagram row : ℕ) → is_name plugin ≡ true → datagram < 2 ^ 64 → row < 2 ^ 32 → map (λ word. word.now) words.now ≡ plugin ∷ decimal datagram ∷ decimal row ∷ [] → Guesses result (event.Drop plugin datagram row) }
    ensures fits { IfOk result EventFits }
{
    let [plugin, datagram, row] = words else {
        return Err(LineFault::NotALine);
    };
    if !is_name(plugin) {
        return Err(LineFault::NotALine);
    }
    let datagram = number_in(datagram)?;
    let row = short_number_in(row)?;
    Ok(Event::Drop {
        plugin: Text::from_slice(alloc, plugin)?,
        datagram,
        row,
    })
}

fn likely_end(words: &[&[u8]]) -> Result<Event, LineFault>
    ensures reads { (totals : Totals) → AllByRecursion (λ count. count < 2 ^ 64) (counts_of totals) → map (λ word. word.now) words.now ≡ map decimal (counts_of totals) → result ≡ Ok (event.End totals) }
    ensures fits { IfOk result EventFits }
{
    let [datagrams, refused, records, dropped, messages, closed] = words else {
        return Err(LineFault::NotALine);
    };
    Ok(Event::End(Totals {
        datagrams: number_in(datagrams)?,
        refused: number_in(refused)?,
        records: number_in(records)?,
        dropped: number_in(dropped)?,
        messages: number_in(messages)?,
        closed: number_in(closed)?,
    }))
}

fn likely_cause(words: &[&[u8]]) -> Result<Cause, LineFault>
    ensures { (cause : Cause) → CauseFits cause → map (λ word. word.now) words.now ≡ with_number (cause_word cause) (cause_number cause) → result ≡ Ok cause }
{
    let (word, number) = word_and_number(words)?;
    first_cause(&causes_with(number), word).ok_or(LineFault::NotALine)
}

fn likely_notice_cause(words: &[&[u8]]) -> Result<NoticeCause, LineFault>
    ensures { (notice : NoticeCause) → NoticeFits notice → map (λ word. word.now) words.now ≡ with_number (notice_word notice) (notice_number notice) → result ≡ Ok notice }
{
    let (word, number) = word_and_number(words)?;
    first_notice(&notices_with(number), word).ok_or(LineFault::NotALine)
}

// A word, and the number behind it, or 0 where there is none.
fn word_and_number<'a>(words: &[&'a [u8]]) -> Result<(&'a [u8], u32), LineFault>
    ensures { (word : List ℕ) → (number : Option ℕ) → IsBelow (2 ^ 32) number → map (λ word. word.now) words.now ≡ with_number word number → IsAnswer result (word, or_zero number) }
{
    match words {
        [word] => Ok((*word, 0)),
        [word, number] => Ok((*word, short_number_in(number)?)),
        _ => Err(LineFault::NotALine),
    }
}

#[tactic(auto, unfolding(crate::specs::Guesses::causes_with))]
fn causes_with(number: u32) -> [Cause; 15]
    ensures { result ≡ causes_with number }
{
    [
        Cause::Short,
        Cause::Version(number),
        Cause::V5Count,
        Cause::V5Cut,
        Cause::SetLength,
        Cause::TemplateId,
        Cause::TemplateCut,
        Cause::TemplateEmpty,
        Cause::FieldWidth,
        Cause::ScopeCount,
        Cause::IpfixLength,
        Cause::VarCut,
        Cause::SflowAddress,
        Cause::SampleCut,
        Cause::RecordCut,
    ]
}

// An id has the number's low 16 bits.
#[tactic(auto, unfolding(crate::specs::Guesses::notices_with))]
fn notices_with(number: u32) -> [NoticeCause; 5]
    ensures { result ≡ notices_with number }
{
    let id = (number % 65536) as u16;
    [
        NoticeCause::NoTemplate(id),
        NoticeCause::ReservedSet(id),
        NoticeCause::HeaderCut,
        NoticeCause::NotIp,
        NoticeCause::Skipped(number),
    ]
}

fn first_cause(causes: &[Cause], word: &[u8]) -> Option<Cause>
    ensures { result ≡ find (λ cause. bytes_eq (cause_word cause) word.now) causes.now }
{
    causes
        .iter()
        .copied()
        .find(|cause| cause_word(*cause) == word)
}

fn first_notice(notices: &[NoticeCause], word: &[u8]) -> Option<NoticeCause>
    ensures { result ≡ find (λ notice. bytes_eq (notice_word notice) word.now) notices.now }
{
    notices
        .iter()
        .copied()
        .find(|notice| notice_word(*notice) == word)
}

// A number in decimal.
fn number_in(word: &[u8]) -> Result<u64, LineFault>
    ensures { (number : ℕ) → number < 2 ^ 64 → word.now ≡ decimal number → result ≡ Ok number }
{
    let Ok(text) = str::from_utf8(word) else {
        return Err(LineFault::NotALine);
    };
    match text.parse::<u64>() {
        Ok(number) => Ok(number),
        Err(_) => Err(LineFault::NotALine),
    }
}

fn short_number_in(word: &[u8]) -> Result<u32, LineFault>
    ensures { (number : ℕ) → number < 2 ^ 32 → word.now ≡ decimal number → result ≡ Ok number }
{
    match u32::try_from(number_in(word)?) {
        Ok(number) => Ok(number),
        Err(_) => Err(LineFault::NotALine),
    }
}

fn is_name_octet(octet: u8) -> bool
    ensures { result ≡ is_name_octet octet }
{
    (octet >= b'a' && octet <= b'z')
        || (octet >= b'A' && octet <= b'Z')
        || (octet >= b'0' && octet <= b'9')
        || octet == b'_'
        || octet == b'-'
}

fn are_name_octets(text: &[u8]) -> bool
    ensures { result ≡ list_all is_name_octet text.now }
{
    text.iter().all(|octet| is_name_octet(*octet))
}

fn is_name(text: &[u8]) -> bool
    ensures { result ≡ is_name text.now }
{
    !text.is_empty() && text.len() <= 32 && are_name_octets(text)
}
