ghost use Rattle.std.specs.Prelude.{◌≡◌, ◌++◌, OnErr, OnOk};
ghost use Rattle.out_text.specs.Purges.{purge_text};

use crate::csv_lines::csv_table;
use crate::formatted_lines::formatted_table;
use crate::json_lines::json_objects;
use acct_types::{Layout, NoMemory, Octets, Primitives, Purge};
use std::alloc::Global;

/// Appends a purge in a layout: a header line and a line for each row, or an object on a line for each row. A purge
/// without a row has no text. After NoMemory `out` is unchanged.
#[tactic(auto, unfolding(crate::specs::Purges::purge_text))]
pub fn purge_text(
    alloc: Global,
    primitives: &Primitives,
    layout: Layout,
    purge: &Purge,
    out: &mut Octets,
) -> Result<(), NoMemory>
    ensures ok { OnOk result (out.new ≡ out.old ++ purge_text primitives.now layout purge.now) }
    ensures err { OnErr result (out.new ≡ out.old) }
{
    let rows = purge.rows.as_slice();
    if rows.is_empty() {
        return Ok(());
    }
    let text = match layout {
        Layout::Formatted => formatted_table(alloc, primitives, rows)?,
        Layout::Csv => csv_table(alloc, primitives, rows)?,
        Layout::Json => json_objects(alloc, primitives, rows)?,
    };
    out.extend(text.as_slice())
}
