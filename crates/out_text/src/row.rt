ghost use Rattle.std.specs.Prelude.{◌≡◌, ◌++◌, ◌∷◌, [], true, drop, map, OnOk};
ghost use Rattle.acct_types.specs.Cells.{have_plain_words};
ghost use Rattle.acct_types.specs.Primitives.{columns_of};
ghost use Rattle.out_text.specs.Rows.{count_entries, count_fields, entries_of, first_cell, header_entries, name_entry, row_entries, shown_cell, under_columns};
ghost use Rattle.out_text.specs.declared.field.Field.TheVariants as field;

use crate::field::Field;
use acct_types::{CellRef, Cells, Counts, Key, List, NoMemory, Primitives};

/// What a row shows in a field.
#[derive(Clone, Copy)]
pub enum Shown<'a> {
    Cell(CellRef<'a>),
    Count(u128),
}

/// A field of a row, and what the row shows there.
#[derive(Clone, Copy, Drop)]
pub struct Entry<'a> {
    pub field: Field,
    pub shown: Shown<'a>,
}

/// Puts the entries of the header in place of those that were there.
#[tactic(auto, unfolding(crate::specs::Rows::header_entries))]
pub fn header_entries<'a>(
    primitives: &Primitives,
    entries: &mut List<Entry<'a>>,
) -> Result<(), NoMemory>
    ensures { OnOk result (entries_of entries.new ≡ header_entries primitives.now) }
{
    entries.truncate(0);
    push_column_names(primitives, entries)?;
    push_count_names(primitives.flows, entries)
}

/// Puts the entries of a row in place of those that were there.
#[tactic(auto, unfolding(crate::specs::Rows::row_entries))]
pub fn row_entries<'a>(
    primitives: &Primitives,
    row: &'a (Key, Counts),
    entries: &mut List<Entry<'a>>,
) -> Result<(), NoMemory>
    ensures entries { OnOk result (entries_of entries.new ≡ row_entries primitives.now row.now) }
    ensures plain { have_plain_words row.now.0 ≡ true }
{
    let (key, counts) = row;
    entries.truncate(0);
    push_cells(primitives, key, entries)?;
    push_counts(primitives.flows, counts, entries)
}

fn push_name<'a>(field: Field, entries: &mut List<Entry<'a>>) -> Result<(), NoMemory>
    ensures { OnOk result (entries_of entries.new ≡ entries_of entries.old ++ name_entry field ∷ []) }
{
    let name = field.heading().name.as_bytes();
    entries.push(Entry {
        field,
        shown: Shown::Cell(CellRef::Words(name)),
    })
}

fn push_column_names<'a>(
    primitives: &Primitives,
    entries: &mut List<Entry<'a>>,
) -> Result<(), NoMemory>
    ensures { OnOk result (entries_of entries.new ≡ entries_of entries.old ++ map name_entry (map field.Column (columns_of primitives.now))) }
{
    let mut columns = *primitives;
    while let Some((column, others)) = columns.split_first() {
        push_name(Field::Column(column), entries)?;
        columns = others;
    }
    Ok(())
}

fn push_count_names<'a>(flows: bool, entries: &mut List<Entry<'a>>) -> Result<(), NoMemory>
    ensures { OnOk result (entries_of entries.new ≡ entries_of entries.old ++ map name_entry (count_fields flows)) }
{
    push_name(Field::Packets, entries)?;
    if flows {
        push_name(Field::Flows, entries)?;
    }
    push_name(Field::Bytes, entries)
}

// The cells of a key under the columns.
fn push_cells<'a>(
    primitives: &Primitives,
    key: &'a Key,
    entries: &mut List<Entry<'a>>,
) -> Result<(), NoMemory>
    ensures entries { OnOk result (entries_of entries.new ≡ entries_of entries.old ++ under_columns (columns_of primitives.now) key.now) }
    ensures plain { have_plain_words key.now ≡ true }
{
    let mut cells = key.cells();
    let mut columns = *primitives;
    while let Some((column, others)) = columns.split_first() {
        entries.push(Entry {
            field: Field::Column(column),
            shown: next_shown(&mut cells),
        })?;
        columns = others;
    }
    Ok(())
}

// The next cell, or empty words after the last.
fn next_shown<'a>(cells: &mut Cells<'a>) -> Shown<'a>
    ensures cell { shown_cell result ≡ first_cell cells.old }
    ensures others { cells.new ≡ drop 1 cells.old }
{
    match cells.next() {
        Some(cell) => Shown::Cell(cell),
        None => Shown::Cell(CellRef::Words(b"")),
    }
}

fn push_counts<'a>(
    flows: bool,
    counts: &Counts,
    entries: &mut List<Entry<'a>>,
) -> Result<(), NoMemory>
    ensures { OnOk result (entries_of entries.new ≡ entries_of entries.old ++ count_entries flows counts.now) }
{
    entries.push(Entry {
        field: Field::Packets,
        shown: Shown::Count(counts.packets),
    })?;
    if flows {
        entries.push(Entry {
            field: Field::Flows,
            shown: Shown::Count(counts.flows),
        })?;
    }
    entries.push(Entry {
        field: Field::Bytes,
        shown: Shown::Count(counts.bytes),
    })
}
