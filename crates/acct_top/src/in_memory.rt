ghost use Rattle.std.specs.Prelude.{true, map, string_bytes, Some};
ghost use Rattle.outside_io.specs.Memory.{sink_faults, sink_held};
ghost use Rattle.outside_io.specs.MemoryPlace.{place_names, place_state};
ghost use Rattle.acct_top.specs.Answers.{HasReason, Holds, LeavesOthers};
ghost use Rattle.acct_top.specs.Complete.{IsOwed};
ghost use Rattle.acct_top.specs.Say.{SaysAnswer};

use crate::{Answer, account_alone};
use acct_types::Hashing;
use config_keys::Tool;
use outside_io::{MemoryPlace, MemorySink};
use std::alloc::Global;

/// A run over memory. A place in memory tells its octets, so each clause holds without a premise.
pub fn account_in_memory(
    alloc: Global,
    hashing: Hashing,
    tool: Tool,
    words: &[String],
    place: &mut MemoryPlace,
    say: &mut MemorySink,
) -> Answer
    // What holds after each answer; at Done the conservation theorem.
    ensures holds { Holds result tool (map string_bytes words.now)
        (place_state place.old) (place_state place.new) }

    // Which answer is owed to the words and the files.
    ensures owed { IsOwed result tool (map string_bytes words.now)
        (place_state place.old) (place_state place.new)
        (sink_faults say.old) (sink_faults say.new) }

    // Whatever the answer, a name that is no output of the words' configuration has the octets that it had.
    ensures others { LeavesOthers tool (map string_bytes words.now) (place_names place.old) (place_names place.new) }

    // A fault is answered only where its number rose.
    ensures reason { HasReason result true tool (map string_bytes words.now)
        (place_state place.old) (place_state place.new)
        (sink_faults say.old) (sink_faults say.new) }

    // The line of the answer was said.
    ensures said { SaysAnswer tool result (sink_faults say.old) (sink_faults say.new)
        (Some (sink_held say.old)) (Some (sink_held say.new)) }
{
    account_alone(alloc, hashing, tool, words, place, say)
}
