//! Texts that stood before.

ghost use Rattle.std.specs.Prelude.{◌≡◌, ℕ, List as Sequence, not, ◌||◌, IfOk, OnOk, map};
ghost use Rattle.std.specs.Str.{bytes_eq};
ghost use Rattle.config_keys.specs.Seen.{has_text};
ghost use Rattle.config_keys.specs.Values.{are_apart};

use acct_types::NoMemory;
use std::alloc::Global;
use std::collections::HashSet;

/// Adds a text to a set. Whether it is new there.
pub fn see<'a>(seen: &mut HashSet<&'a [u8]>, text: &'a [u8]) -> Result<bool, NoMemory>
    ensures new { IfOk result (λ new. new ≡ not (has_text seen.old text.entry.now)) }
    ensures more { OnOk result ((other : Sequence ℕ) → has_text seen.new other ≡ (bytes_eq text.entry.now other || has_text seen.old other)) }
{
    Ok(seen.insert(text)?)
}

/// Whether no text stands twice.
pub fn are_apart(alloc: Global, texts: &[&[u8]]) -> Result<bool, NoMemory>
    ensures { IfOk result (λ apart. apart ≡ are_apart (map (λ t. t.now) texts.now)) }
{
    let mut seen = HashSet::new(alloc);
    for text in texts {
        if !see(&mut seen, text)? {
            return Ok(false);
        }
    }
    Ok(true)
}
