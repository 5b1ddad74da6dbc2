//! The words of a command line.

ghost use Rattle.std.specs.Prelude.{◌≡◌, ◌≢◌, List, ℕ, [], false, pos, IfOk, IfSome, IfErr, map, string_bytes, option_map, Err};
ghost use Rattle.clap.specs.Words.{IsSignedIn, app_of, rule_of};
ghost use Rattle.config_keys.specs.Usage.{IsAnswer, IsReadFault, causes, file_app, file_in, generate_rule, number_in, number_in_text, name_of, usage};

use crate::Tool;
use acct_types::{List, Text};
use clap::error::ErrorKind;
use clap::{Arg, ArgAction, Command, value_parser};
use std::alloc::{AllocError, Global};
use thiserror::Error;

/// Why a command line is not taken.
#[derive(Clone, Copy, Debug, PartialEq, Eq, Error)]
pub enum UsageFault {
    #[error("the words are refused")]
    Refused,
    #[error("no option is given")]
    Neither,
    #[error("both options are given")]
    Both,
    #[error("out of memory")]
    NoMemory,
}

/// What the words ask for: to run by the configuration in a file, or to generate so many datagrams, from 1 to
/// 100,000.
#[derive(Drop)]
pub enum Words {
    Config(Text),
    Generate(u32),
}

/// The values of the two options.
#[derive(Clone, Copy)]
pub struct Given<'a> {
    pub file: Option<&'a str>,
    pub number: Option<&'a str>,
}

fn name<'a>(tool: Tool) -> &'a str
    ensures { result.now ≡ name_of tool }
{
    match tool {
        Tool::Nfacctd => "nfacctd",
        Tool::Sfacctd => "sfacctd",
        Tool::Pmbgpd => "pmbgpd",
    }
}

// A command with `-f FILE` alone.
fn file_command<'a>(alloc: Global, name: &'a str) -> Result<Command<'a>, AllocError>
    ensures { IfOk result (λ c. app_of c ≡ file_app name.entry.now) }
{
    let file = Arg::new(alloc, "file").short('f').action(ArgAction::Set);
    Command::new(alloc, name)
        .no_binary_name(true)
        .disable_help_flag(true)
        .disable_version_flag(true)
        .arg(file)
}

// `--generate NUMBER`.
fn generate_argument<'a>(alloc: Global) -> Arg<'a>
    ensures rule { rule_of result ≡ generate_rule }
    ensures local { result.global ≡ false }
{
    Arg::new(alloc, "generate")
        .long("generate")
        .action(ArgAction::Set)
        .value_parser(value_parser!(u32).range(1..=100000))
}

fn command<'a>(alloc: Global, tool: Tool) -> Result<Command<'a>, AllocError>
    ensures { IfOk result (λ c. app_of c ≡ usage tool) }
{
    let command = file_command(alloc, name(tool))?;
    match tool {
        Tool::Nfacctd => command.arg(generate_argument(alloc)),
        Tool::Sfacctd => Ok(command),
        Tool::Pmbgpd => Ok(command),
    }
}

// The values of the options in the words.
fn read_options<'a>(alloc: Global, tool: Tool, words: &'a [String]) -> Result<Given<'a>, UsageFault>
    ensures taken { IfOk result (λ g. causes tool (map string_bytes words.entry.now) ≡ []) }
    ensures file { IfOk result (λ g. option_map (λ s. s.now) g.file ≡ file_in tool (map string_bytes words.entry.now)) }
    ensures number { IfOk result (λ g. option_map (λ s. s.now) g.number ≡ number_in tool (map string_bytes words.entry.now)) }
    ensures range { IfOk result (λ g. IfSome g.number (λ s. IsSignedIn (pos 1) (pos 100000) s.now)) }
    ensures faults { IfErr result IsReadFault }
    ensures refused { result ≡ Err UsageFault.Refused → causes tool (map string_bytes words.entry.now) ≢ [] }
{
    let Ok(mut command) = command(alloc, tool) else {
        return Err(UsageFault::NoMemory);
    };
    match command.try_get_matches_from_mut(words) {
        Ok(matches) => Ok(Given {
            file: matches.get_str("file"),
            number: matches.get_str("generate"),
        }),
        Err(e) => match e.kind() {
            ErrorKind::OutOfMemory => Err(UsageFault::NoMemory),
            _ => Err(UsageFault::Refused),
        },
    }
}

/// What the words ask for, which stand without the program's name: `-f FILE`, or for nfacctd `--generate NUMBER`.
/// Refused where clap takes them for another cause than memory, Neither where no option is there, Both where both
/// are.
pub fn read_words(alloc: Global, tool: Tool, words: &[String]) -> Result<Words, UsageFault>
    ensures exact { IsAnswer tool (map string_bytes words.now) result }
{
    let given = read_options(alloc, tool, words)?;
    match (given.file, given.number) {
        (Some(_), Some(_)) => Err(UsageFault::Both),
        (Some(file), None) => Ok(Words::Config(owned(alloc, file)?)),
        (None, Some(number)) => Ok(Words::Generate(number_of(number))),
        (None, None) => Err(UsageFault::Neither),
    }
}

fn owned(alloc: Global, text: &str) -> Result<Text, UsageFault>
    ensures ok { IfOk result (λ octets. octets ≡ text.now) }
    ensures err { IfErr result (λ fault. fault ≡ UsageFault.NoMemory) }
{
    List::from_slice(alloc, text.as_bytes()).map_err(|_| UsageFault::NoMemory)
}

// The number in a text that is one from 1 to 100,000.
fn number_of(text: &str) -> u32
    requires { IsSignedIn (pos 1) (pos 100000) text.now }
    ensures { result ≡ number_in_text text.now }
{
    match text.parse::<u32>() {
        Ok(n) => n,
        Err(_) => unreachable!(),
    }
}
