//! The layout of columns at fixed widths.

ghost use Rattle.std.specs.Prelude.{◌≡◌, ◌++◌, ◌≤◌, IfOk, OnOk, codes, flat_map, map, replicate};
ghost use Rattle.out_text.specs.Headings.{width_of};
ghost use Rattle.out_text.specs.Lines.{formatted_line, formatted_text, joined};
ghost use Rattle.out_text.specs.Purges.{row_lines};
ghost use Rattle.out_text.specs.Rows.{entries_of, entry_of, header_entries};

use crate::cell_text::append_text;
use crate::field::WIDEST;
use crate::row::{Entry, header_entries, row_entries};
use acct_types::{Counts, Key, List, NoMemory, Octets, Primitives};
use std::alloc::Global;

static SPACES: [u8; WIDEST] = [b' '; WIDEST];

/// A header line, and a line for each row.
pub fn formatted_table(
    alloc: Global,
    primitives: &Primitives,
    rows: &[(Key, Counts)],
) -> Result<Octets, NoMemory>
    ensures { IfOk result (λ text. text ≡ formatted_line (header_entries primitives.now) ++ row_lines formatted_line primitives.now rows.now) }
{
    let mut text = Octets::new(alloc);
    let mut entries = List::new(alloc);
    header_entries(primitives, &mut entries)?;
    append_line(entries.as_slice(), &mut text)?;
    for row in rows {
        row_entries(primitives, row, &mut entries)?;
        append_line(entries.as_slice(), &mut text)?;
    }
    Ok(text)
}

#[tactic(auto, unfolding(crate::specs::Lines::formatted_line))]
fn append_line(entries: &[Entry<'_>], out: &mut Octets) -> Result<(), NoMemory>
    ensures { OnOk result (out.new ≡ out.old ++ formatted_line (entries_of entries.now)) }
{
    append_entries(entries, out)?;
    out.push(b'\n')
}

fn append_entries(entries: &[Entry<'_>], out: &mut Octets) -> Result<(), NoMemory>
    ensures { OnOk result (out.new ≡ out.old ++ joined (codes "  ") (map formatted_text (entries_of entries.now))) }
{
    let [first, others @ ..] = entries else {
        return Ok(());
    };
    append_padded(first, out)?;
    append_others(others, out)
}

// Entries with two spaces before each.
fn append_others(entries: &[Entry<'_>], out: &mut Octets) -> Result<(), NoMemory>
    ensures { OnOk result (out.new ≡ out.old ++ flat_map (λ other. codes "  " ++ other) (map formatted_text (entries_of entries.now))) }
{
    for entry in entries {
        out.extend(b"  ")?;
        append_padded(entry, out)?;
    }
    Ok(())
}

fn append_padded(entry: &Entry<'_>, out: &mut Octets) -> Result<(), NoMemory>
    ensures { OnOk result (out.new ≡ out.old ++ formatted_text (entry_of entry.now)) }
{
    let start = out.len();
    append_text(&entry.shown, out)?;
    let room = entry
        .field
        .heading()
        .width
        .saturating_sub(out.len() - start);
    append_spaces(room, out)
}

fn append_spaces(count: usize, out: &mut Octets) -> Result<(), NoMemory>
    requires { count ≤ WIDEST }
    ensures { OnOk result (out.new ≡ out.old ++ replicate count 32) }
{
    out.extend(&SPACES[..count])
}
