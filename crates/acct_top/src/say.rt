ghost use Rattle.std.specs.Prelude.{◌≡◌, ◌++◌, ◌⊎◌, IfOk, OnOk, decimal};
ghost use Rattle.outside_io.specs.Causes.{Rose};
ghost use Rattle.acct_top.specs.Say.{answer_line, answer_text, bad_text, cause_text, side_text, tool_name, usage_line, which_text, SaysAnswer};
ghost use Rattle.acct_top.specs.Said.{IsSaidAs};

use crate::{Answer, AnyCause, BadCause};
use acct_types::{NoMemory, Octets, Text, append_decimal};
use config_keys::Tool;
use outside_io::{IoFault, Sink, Which, write_all};
use std::alloc::Global;

fn tool_name(tool: Tool) -> &'static [u8]
    ensures { result.now ≡ tool_name tool }
{
    match tool {
        Tool::Nfacctd => b"nfacctd",
        Tool::Sfacctd => b"sfacctd",
        Tool::Pmbgpd => b"pmbgpd",
    }
}

#[tactic(auto, unfolding(crate::specs::Say::usage_line))]
fn usage_line(tool: Tool) -> &'static [u8]
    ensures { result.now ≡ usage_line tool }
{
    match tool {
        Tool::Nfacctd => b"usage: nfacctd -f FILE | --generate NUMBER\n",
        Tool::Sfacctd => b"usage: sfacctd -f FILE\n",
        Tool::Pmbgpd => b"usage: pmbgpd -f FILE\n",
    }
}

fn cause_text<'a>(cause: AnyCause) -> &'a [u8]
    ensures { result.now ≡ cause_text cause }
{
    match cause {
        AnyCause::Config(cause) => cause.text().as_bytes(),
        AnyCause::Map(cause) => cause.text().as_bytes(),
        AnyCause::TooLong => b"too-long",
    }
}

fn side_text<'a>(flows: bool) -> &'a [u8]
    ensures { result.now ≡ side_text flows }
{
    if flows { b"flow" } else { b"route" }
}

fn bad_text<'a>(cause: BadCause) -> &'a [u8]
    ensures { result.now ≡ bad_text cause }
{
    match cause {
        BadCause::Magic => b"magic",
        BadCause::Kind => b"kind",
        BadCause::Length => b"length",
    }
}

fn which_text<'a>(which: Which) -> &'a [u8]
    ensures { result.now ≡ which_text which }
{
    match which {
        Which::Records => b"records",
        Which::Messages => b"messages",
        Which::Octets => b"octets",
    }
}

fn push_name(out: &mut Octets, head: &[u8], name: &Text) -> Result<(), NoMemory>
    ensures { OnOk result (out.new ≡ out.old ++ (head.now ++ name.now)) }
{
    out.extend(head)?;
    out.extend(name.as_slice())
}

// Appends what is said behind the program's name.
fn push_answer(out: &mut Octets, answer: &Answer) -> Result<(), NoMemory>
    ensures { OnOk result (out.new ≡ out.old ++ answer_text answer.now) }
{
    match answer {
        Answer::Done | Answer::SayFault => out.extend(b"done"),
        Answer::Usage => Ok(()),
        Answer::ConfigRefused { file, line, cause } => {
            out.extend(file.as_slice())?;
            out.extend(b":")?;
            append_decimal(*line, out)?;
            out.extend(b": ")?;
            out.extend(cause_text(*cause))
        }
        Answer::OpenFault { name } => push_name(out, b"cannot open ", name),
        Answer::FlowFault => out.extend(b"flow input failed"),
        Answer::CaptureTorn { flows, place } => {
            out.extend(side_text(*flows))?;
            out.extend(b" capture torn at ")?;
            append_decimal(*place, out)
        }
        Answer::CaptureBad {
            flows,
            place,
            cause,
        } => {
            out.extend(side_text(*flows))?;
            out.extend(b" capture bad at ")?;
            append_decimal(*place, out)?;
            out.extend(b": ")?;
            out.extend(bad_text(*cause))
        }
        Answer::WriteFault { name } => push_name(out, b"cannot write ", name),
        Answer::TooMany { which } => {
            out.extend(b"too many ")?;
            out.extend(which_text(*which))
        }
        Answer::NoMemory => out.extend(b"no memory"),
    }
}

// The line of an answer.
fn answer_line(alloc: Global, tool: Tool, answer: &Answer) -> Result<Octets, NoMemory>
    ensures { IfOk result (λ line. line ≡ answer_line tool answer.now) }
{
    let mut line = Octets::new(alloc);
    if let Answer::Usage = answer {
        line.extend(usage_line(tool))?;
        return Ok(line);
    }
    line.extend(tool_name(tool))?;
    line.extend(b": ")?;
    push_answer(&mut line, answer)?;
    line.push(b'\n')?;
    Ok(line)
}

/// Says the line of an answer. Where that fails, no answer but Done changes.
pub fn say_answer<S: Sink>(alloc: Global, tool: Tool, answer: Answer, say: &mut S) -> Answer
    ensures answer { IsSaidAs answer result (S.state say.old).faults (S.state say.new).faults }
    ensures said { SaysAnswer tool result (S.state say.old).faults (S.state say.new).faults (S.state say.old).held (S.state say.new).held }
{
    let Ok(line) = answer_line(alloc, tool, &answer) else {
        return Answer::NoMemory;
    };
    match write_all(say, line.as_slice()) {
        Ok(()) => answer,
        Err(IoFault::NoMemory) => Answer::NoMemory,
        Err(IoFault::Failed) => match answer {
            Answer::Done => Answer::SayFault,
            answer => answer,
        },
    }
}
