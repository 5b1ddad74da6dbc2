//! What the programs of the collectors share: the words, the files and the status.
#![tactic(auto)]

ghost use Rattle.std.specs.Prelude.{map, string_bytes, IsTrue};
ghost use Rattle.acct_top.specs.Answers.{LeavesOthers};
ghost use Rattle.program.specs.Status.{IsStatus, IsStatusOf, ZeroIsDone};

use acct_top::{Answer, account_alone, say_answer, status};
use acct_types::Hashing;
use config_keys::Tool;
use outside_io::{FilePlace, Place, SayOut, Sink};
use std::alloc::Global;
use std::env;
use std::io::{self, ErrorKind, Write};
use std::random::RandomSource;
use std::rt::{Env, Files};

fn words<R: Env + AllocGlobal>(rt: &R) -> io::Result<Vec<String>> {
    let mut words = Vec::new(rt.alloc());
    for word in env::args(rt)?.skip(1) {
        words.push(word)?;
    }
    Ok(words)
}

/// Does what the words ask of a tool, over a place, and says the one line of the answer. The result is the status of the answer: 0 where
/// all is done, and else 1 to 8, as `status` says.
pub fn run_words<P: Place, S: Sink>(
    alloc: Global,
    hashing: Hashing,
    tool: Tool,
    words: &[String],
    place: &mut P,
    say: &mut S,
) -> u8
    // There is an answer that has this status, and of it holds what a run claims of its answer.
    ensures status { IsStatusOf result P.tells tool (map string_bytes words.now) (P.state place.old) (P.state place.new)
        (S.state say.old).faults (S.state say.new).faults (S.state say.old).held (S.state say.new).held }

    // Whatever the status, a name that is no output of the words' configuration has the octets that it had.
    ensures others { IsTrue P.tells → LeavesOthers tool (map string_bytes words.now) (P.state place.old).names (P.state place.new).names }
{
    let answer = account_alone(alloc, hashing, tool, words, place, say);
    status(&answer)
}

/// Over a place that tells its octets, a status of 0 says that all is done.
pub fn zero_is_done()
    ensures { ZeroIsDone }
{}

/// Does what the words of the command line ask of a tool, over the system's files, and says the one line of the answer on `out`. The
/// result is the status of the answer. Words that can't be had, as those that aren't UTF-8, are answered as wrong ones, but for want of
/// memory. Where the system gives no keys for hashing, which is before any file is opened, the answer is that of a failed input.
pub fn run<R: Env + Files + AllocGlobal + RandomSource + Drop, W: Write + Drop>(
    rt: R,
    tool: Tool,
    out: W,
) -> u8
where
    R::File: Send,
    ensures { IsStatus result }
{
    let alloc = rt.alloc();
    let mut say = SayOut::new(out);
    let words = match words(&rt) {
        Ok(words) => words,
        Err(error) => match error.kind() {
            ErrorKind::OutOfMemory => {
                return status(&say_answer(alloc, tool, Answer::NoMemory, &mut say));
            }
            _ => Vec::new(alloc),
        },
    };
    let Ok(hashing) = Hashing::new(&rt) else {
        return status(&say_answer(alloc, tool, Answer::FlowFault, &mut say));
    };
    let mut place = FilePlace::new(alloc, rt);
    run_words(alloc, hashing, tool, &words, &mut place, &mut say)
}
