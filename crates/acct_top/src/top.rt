ghost use Rattle.std.specs.Prelude.{◌≡◌, List, ℕ, map, string_bytes, IsTrue, IfOk, IfErr, IfSome, IfNone, None, ◌≢◌, OnErr};
ghost use Rattle.acct_top.specs.Answers.{HasReason, HaveOneJob, HaveOneOutcome, Holds, LeavesOthers, NamesFile, RunReason};
ghost use Rattle.acct_top.specs.Complete.{IsOwed};
ghost use Rattle.acct_top.specs.Job.{IsReplay};
ghost use Rattle.acct_top.specs.Reading.{IsJob, IsNoJob, ReadReason, TakesEach, read_before};
ghost use Rattle.acct_top.specs.Say.{SaysAnswer};
ghost use Rattle.outside_io.specs.States.{OnlyRead};

use crate::read_job::{job_of, read_built};
use crate::read_map::map_of;
use crate::read_text::{read_text, refused};
use crate::run::run_job;
use crate::say::say_answer;
use crate::{Answer, AnyCause};
use acct_types::{Hashing, NoMemory, Text};
use collect_core::Job;
use config_keys::{ConfigCause, ConfigFault, Tool, UsageFault, Words, read_words};
use outside_io::{Place, Sink};
use plugin_work::outputs_are_one;
use pretag_map::{AgentMap, SamplingMap, TagMap};
use std::alloc::Global;

// Words that name no file: want of memory is the reader's own alone.
fn no_file(fault: UsageFault) -> Result<Option<Text>, NoMemory>
    ensures memory { OnErr result (fault ≡ UsageFault.NoMemory) }
    ensures none { IfOk result (λ found. (found ≡ None) × (fault ≢ UsageFault.NoMemory)) }
{
    match fault {
        UsageFault::NoMemory => Err(NoMemory),
        UsageFault::Refused | UsageFault::Neither | UsageFault::Both => Ok(None),
    }
}

// The file that the words name.
fn named_file(alloc: Global, tool: Tool, words: &[String]) -> Result<Option<Text>, NoMemory>
    ensures named { IfOk result (λ found. IfSome found (λ file. NamesFile tool (map string_bytes words.now) file)) }
    ensures none { IfOk result (λ found. IfNone found ((file : List ℕ) → NamesFile tool (map string_bytes words.now) file → ⊥)) }
{
    match read_words(alloc, tool, words) {
        Ok(Words::Config(file)) => Ok(Some(file)),
        Ok(Words::Generate(_)) => Ok(None),
        Err(fault) => no_file(fault),
    }
}

// Reads the configuration in a file and its maps, the map of tags first.
fn read_job<P: Place>(alloc: Global, tool: Tool, place: &mut P, file: &Text) -> Result<Job, Answer>
    ensures job { IsTrue P.tells → IfOk result (λ job. IsJob job tool file.now (P.state place.old).names) }
    ensures replay { IfOk result (λ job. IsReplay job) }
    ensures refused { IsTrue P.tells → IfErr result (λ answer. IsNoJob answer tool file.now (P.state place.old).names) }
    ensures reason { IfErr result (λ answer. ReadReason answer (P.state place.old) (P.state place.new)) }
    ensures names { IsTrue P.tells → (P.state place.new).names ≡ (P.state place.old).names }
    ensures only_read { OnlyRead (P.state place.old) (P.state place.new) }
    ensures taken { IsTrue P.tells → IfOk result (λ job. TakesEach (P.state place.old).names (read_before file.now job) (P.state place.old).taken (P.state place.new).taken) }
{
    let text = match read_text(alloc, place, file) {
        Ok(text) => text,
        Err(answer) => return Err(answer),
    };
    let config = match read_built(alloc, tool, file, text.as_slice()) {
        Ok(config) => config,
        Err(ConfigFault::At { line, cause }) => {
            return Err(refused(file, line, AnyCause::Config(cause)));
        }
        Err(ConfigFault::NoMemory) => return Err(Answer::NoMemory),
    };
    let tags = match map_of::<P, TagMap>(alloc, place, &config.pre_tag_map) {
        Ok(tags) => tags,
        Err(answer) => return Err(answer),
    };
    let samplings = match map_of::<P, SamplingMap>(alloc, place, &config.sampling_map) {
        Ok(samplings) => samplings,
        Err(answer) => return Err(answer),
    };
    match job_of(config, tags, AgentMap::empty(alloc), samplings) {
        Some(job) => Ok(job),
        None => Err(refused(file, 0, AnyCause::Config(ConfigCause::MissingKey))),
    }
}

// Reads the words, the configuration and its maps, and does the job.
fn run<P: Place>(
    alloc: Global,
    hashing: Hashing,
    tool: Tool,
    words: &[String],
    place: &mut P,
) -> Answer
    ensures holds { IsTrue P.tells → Holds result tool (map string_bytes words.now) (P.state place.old) (P.state place.new) }
    ensures others { IsTrue P.tells → LeavesOthers tool (map string_bytes words.now) (P.state place.old).names (P.state place.new).names }
    ensures reason { RunReason result P.tells tool (map string_bytes words.now) (P.state place.old) (P.state place.new) }
{
    let file = match named_file(alloc, tool, words) {
        Ok(Some(file)) => file,
        Ok(None) => return Answer::Usage,
        Err(NoMemory) => return Answer::NoMemory,
    };
    match read_job(alloc, tool, place, &file) {
        Ok(job) => run_job(alloc, hashing, place, &job),
        Err(answer) => answer,
    }
}

/// Reads the words, the configuration, its maps and the capture, writes the outputs and the audit, and says one line. Maps whose keys come
/// from outside are hashed by `hashing`, which no output shows.
/// It waits for nobody and always returns.
pub fn account_alone<P: Place, S: Sink>(
    alloc: Global,
    hashing: Hashing,
    tool: Tool,
    words: &[String],
    place: &mut P,
    say: &mut S,
) -> Answer
    // Over a place that tells its octets, what holds after each answer; at Done the conservation theorem.
    ensures holds { IsTrue P.tells → Holds result tool (map string_bytes words.now) (P.state place.old) (P.state place.new) }

    // Which answer is owed to the words and the files.
    ensures owed { IsTrue P.tells → IsOwed result tool (map string_bytes words.now) (P.state place.old) (P.state place.new)
        (S.state say.old).faults (S.state say.new).faults }

    // Whatever the answer, a name that is no output of the words' configuration has the octets that it had.
    ensures others { IsTrue P.tells → LeavesOthers tool (map string_bytes words.now) (P.state place.old).names (P.state place.new).names }

    // A fault is answered only where its number rose.
    ensures reason { HasReason result P.tells tool (map string_bytes words.now) (P.state place.old) (P.state place.new)
        (S.state say.old).faults (S.state say.new).faults }

    // The line of the answer was said.
    ensures said { SaysAnswer tool result (S.state say.old).faults (S.state say.new).faults (S.state say.old).held (S.state say.new).held }
{
    let answer = run(alloc, hashing, tool, words, place);
    say_answer(alloc, tool, answer, say)
}

/// Words and files have one job.
pub fn one_job()
    ensures { HaveOneJob }
{}

/// Words and files have one outcome: two runs that are done leave the same in every file.
pub fn one_outcome()
    ensures { HaveOneOutcome }
{
    outputs_are_one();
}
