//! The layout of comma-separated values.

ghost use Rattle.std.specs.Prelude.{◌≡◌, ◌++◌, ◌≤◌, true, length, IfOk, OnOk};
ghost use Rattle.std.specs.Io.KnownBytes.{Appends};
ghost use Rattle.csv.specs.Writing.{default_writer, fields_written, text_written, with_flexible, writer_pending, writer_setup, writer_under};
ghost use Rattle.out_text.specs.Lines.{csv_line};
ghost use Rattle.out_text.specs.Plain.{are_plain_entries};
ghost use Rattle.out_text.specs.Purges.{row_lines};
ghost use Rattle.out_text.specs.Rows.{entries_of, header_entries};

use crate::cell_text::append_text;
use crate::row::{Entry, header_entries, row_entries};
use acct_types::{Counts, Key, List, NoMemory, Octets, Primitives};
use csv::{Writer, WriterBuilder};
use std::alloc::Global;
use std::io::Write;

/// A header line, and a line for each row.
pub fn csv_table(
    alloc: Global,
    primitives: &Primitives,
    rows: &[(Key, Counts)],
) -> Result<Octets, NoMemory>
    ensures { IfOk result (λ text. text ≡ csv_line (header_entries primitives.now) ++ row_lines csv_line primitives.now rows.now) }
{
    let mut writer = WriterBuilder::new()
        .flexible(true)
        .from_writer(Vec::new(alloc));
    let mut cell = Octets::new(alloc);
    let mut entries = List::new(alloc);
    header_entries(primitives, &mut entries)?;
    write_line(&mut writer, entries.as_slice(), &mut cell)?;
    for row in rows {
        row_entries(primitives, row, &mut entries)?;
        write_line(&mut writer, entries.as_slice(), &mut cell)?;
    }
    match writer.into_inner() {
        Ok(text) => Ok(Octets::from_vec(text)),
        Err(_) => Err(NoMemory),
    }
}

// Lines are written by way of `cell`, which holds one cell at a time.
fn write_line<W: Write + Drop>(
    writer: &mut Writer<W>,
    entries: &[Entry<'_>],
    cell: &mut Octets,
) -> Result<(), NoMemory>
    requires setup { writer_setup writer.old ≡ with_flexible default_writer true }
    requires fresh { fields_written writer.old ≡ 0 }
    requires plain { are_plain_entries (entries_of entries.now) ≡ true }
    requires many { 2 ≤ length entries.now }
    ensures text { OnOk result (Appends (text_written W.contents writer.old) (text_written W.contents writer.new) (csv_line (entries_of entries.now))) }
    ensures setup { OnOk result (writer_setup writer.new ≡ writer_setup writer.old) }
    ensures fresh { OnOk result (fields_written writer.new ≡ 0) }
{
    for entry in entries {
        cell.truncate(0);
        append_text(&entry.shown, cell)?;
        let Ok(()) = writer.write_field(cell.as_slice()) else {
            return Err(NoMemory);
        };
    }
    match writer.end_record() {
        Ok(()) => Ok(()),
        Err(_) => Err(NoMemory),
    }
}
