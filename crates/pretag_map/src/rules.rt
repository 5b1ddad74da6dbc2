//! The rules of a map, a line each.

ghost use Rattle.std.specs.Prelude.{◌≡◌, ◌≤◌, ◌<◌, ◌^◌, ℕ, List as Sequence, [], Result, IfOk, length, map};
ghost use Rattle.pretag_map.specs.Rules.{RulesAre, rules_from, rules_of, with_room};
ghost use Rattle.pretag_map.specs.declared.fault.MapCause.{MapCause};

use crate::fault::{MapCause, MapFault};
use acct_types::{List, NoMemory};
use config_keys::{is_passed_over, read_lines};
use std::alloc::Global;

/// The most rules that a map has.
pub const MOST_RULES: usize = 4096;

/// A rule of a map, which one line says.
pub trait Rule: Drop {
    /// The rule that a line says, or the line's first cause.
    ghost said: { Sequence ℕ → Result Self MapCause };

    /// Reads a line that is neither empty nor a comment.
    fn read(alloc: Global, line: &[u8]) -> Result<Result<Self, MapCause>, NoMemory>
        ensures { IfOk result (λ rule. rule ≡ said line.now) };
}

// A rule behind so many others.
fn read_rule<R: Rule>(
    alloc: Global,
    count: usize,
    line: &[u8],
) -> Result<Result<R, MapCause>, NoMemory>
    ensures { IfOk result (λ rule. rule ≡ with_room count (R.said line.now)) }
{
    match R::read(alloc, line)? {
        Ok(rule) => {
            if count < MOST_RULES {
                Ok(Ok(rule))
            } else {
                Ok(Err(MapCause::TooManyRules))
            }
        }
        Err(cause) => Ok(Err(cause)),
    }
}

fn rules_in<R: Rule>(alloc: Global, lines: &[&[u8]]) -> Result<List<R>, MapFault>
    requires { length lines.now < 2 ^ 32 }
    ensures rules { RulesAre result (rules_from R.said 1 [] (map (λ l. l.now) lines.now)) }
    ensures few { IfOk result (λ rules. length rules ≤ 4096) }
{
    let mut rules = List::new(alloc);
    for (index, line) in lines.iter().enumerate() {
        if is_passed_over(line) {
            continue;
        }
        match read_rule(alloc, rules.len(), line)? {
            Ok(rule) => rules.push(rule)?,
            Err(cause) => {
                return Err(MapFault::At {
                    line: index as u32 + 1,
                    cause,
                });
            }
        }
    }
    Ok(rules)
}

/// The rules of a text, or its first line with a cause.
pub fn read_rules<R: Rule>(alloc: Global, text: &[u8]) -> Result<List<R>, MapFault>
    requires { length text.now ≤ 1048576 }
    ensures rules { RulesAre result (rules_of R.said text.now) }
    ensures few { IfOk result (λ rules. length rules ≤ 4096) }
{
    let lines = read_lines(alloc, text)?;
    rules_in(alloc, &lines)
}
