//! The layout of objects.

ghost use Rattle.std.specs.Prelude.{◌≡◌, ◌++◌, true, IfOk, OnOk};
ghost use Rattle.serde_json.specs.View.{members_view, view};
ghost use Rattle.out_text.specs.Members.{data_of, members_in, number_in};
ghost use Rattle.out_text.specs.Objects.{MembersAreEntries, NamesAscend, by_name, json_line};
ghost use Rattle.out_text.specs.Plain.{are_plain_entries, is_plain_cell};
ghost use Rattle.out_text.specs.Purges.{row_lines};
ghost use Rattle.out_text.specs.Rows.{entries_of, shown_cell};

use crate::cell_text::append_text;
use crate::row::{Entry, Shown, row_entries};
use acct_types::{CellRef, Counts, Key, List, NoMemory, Octets, Primitives};
use serde_json::{Map, Value};
use std::alloc::Global;
use std::str;

/// A law: the members of each row are its entries, and their names ascend.
pub fn members_are_in_order()
    ensures ascend { NamesAscend }
    ensures entries { MembersAreEntries }
{}

/// An object on a line for each row.
pub fn json_objects(
    alloc: Global,
    primitives: &Primitives,
    rows: &[(Key, Counts)],
) -> Result<Octets, NoMemory>
    ensures { IfOk result (λ text. text ≡ row_lines json_line primitives.now rows.now) }
{
    let mut text = Octets::new(alloc);
    let mut cell = Octets::new(alloc);
    let mut entries = List::new(alloc);
    for row in rows {
        row_entries(primitives, row, &mut entries)?;
        append_object(alloc, entries.as_slice(), &mut cell, &mut text)?;
    }
    Ok(text)
}

// The text of an object is made by way of `cell`, which holds one cell at a time.
fn append_object(
    alloc: Global,
    entries: &[Entry<'_>],
    cell: &mut Octets,
    out: &mut Octets,
) -> Result<(), NoMemory>
    requires { are_plain_entries (entries_of entries.now) ≡ true }
    ensures { OnOk result (out.new ≡ out.old ++ json_line (entries_of entries.now)) }
{
    let members = members_of(alloc, entries, cell)?;
    let text = Value::Object(members).to_string(alloc)?;
    out.extend(text.as_bytes())?;
    out.push(b'\n')
}

fn members_of(
    alloc: Global,
    entries: &[Entry<'_>],
    cell: &mut Octets,
) -> Result<Map<String, Value>, NoMemory>
    requires { are_plain_entries (entries_of entries.now) ≡ true }
    ensures { IfOk result (λ map. members_view map.entries ≡ members_in (by_name (entries_of entries.now))) }
{
    let mut members = Map::new(alloc);
    for place in (0..entries.len()).rev() {
        let entry = &entries[place];
        let value = value_of(alloc, &entry.shown, cell)?;
        serde_json::put(&mut members, alloc, entry.field.heading().json_name, value)?;
    }
    Ok(members)
}

fn value_of(alloc: Global, shown: &Shown<'_>, cell: &mut Octets) -> Result<Value, NoMemory>
    requires { is_plain_cell (shown_cell shown.now) ≡ true }
    ensures { IfOk result (λ value. view value ≡ data_of (shown_cell shown.now)) }
{
    if let Some(number) = number_in(shown) {
        return Ok(Value::from(number));
    }
    cell.truncate(0);
    append_text(shown, cell)?;
    let Ok(text) = str::from_utf8(cell.as_slice()) else {
        unreachable!()
    };
    Ok(Value::try_from_str(alloc, text)?)
}

// The number that is shown, where it has 64 bits at most.
fn number_in(shown: &Shown<'_>) -> Option<u64>
    ensures { result ≡ number_in (shown_cell shown.now) }
{
    match shown {
        Shown::Count(number) => u64::try_from(*number).ok(),
        Shown::Cell(CellRef::Number(number)) => Some(*number),
        Shown::Cell(_) => None,
    }
}
