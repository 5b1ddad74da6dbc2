ghost use Rattle.std.specs.Prelude.{◌≡◌, ◌≢◌};
ghost use Rattle.out_text.specs.Purges.{purge_text};
ghost use Rattle.plugin_work.specs.Sinks.{IsWritten};
ghost use Rattle.plugin_work.specs.Plugins.{IsLastWritten};

use acct_types::{Layout, NoMemory, Octets, Primitives, Purge};
use out_text::purge_text;
use outside_io::{IoFault, OutEnd, Sink, write_all};
use plugin_cache::Cache;
use std::alloc::Global;

/// How purges are printed. The text of each is made in the same room.
#[derive(Drop)]
pub struct Printer {
    pub alloc: Global,
    pub primitives: Primitives,
    pub layout: Layout,
    pub text: Octets,
}

// Writes the text of a purge.
pub fn write_purge<W: Sink>(printer: &mut Printer, purge: &Purge, out: &mut W) -> OutEnd
    ensures written { IsWritten (purge_text printer.old.primitives printer.old.layout purge.now) result
        (W.state out.old) (W.state out.new) }
    ensures primitives { printer.new.primitives ≡ printer.old.primitives }
    ensures layout { printer.new.layout ≡ printer.old.layout }
{
    printer.text.truncate(0);
    let Ok(()) = purge_text(
        printer.alloc,
        &printer.primitives,
        printer.layout,
        purge,
        &mut printer.text,
    ) else {
        return OutEnd::Memory;
    };
    match write_all(out, printer.text.as_slice()) {
        Ok(()) => OutEnd::Whole,
        Err(IoFault::Failed) => OutEnd::Failed,
        Err(IoFault::NoMemory) => OutEnd::Memory,
    }
}

// Where the output is whole so far, purges what the cache has left, and writes the purge's text.
pub fn write_last<W: Sink>(end: OutEnd, printer: &mut Printer, cache: Cache, out: &mut W) -> OutEnd
    ensures written { end ≡ OutEnd.Whole → (config : _) → printer.old.primitives ≡ config.primitives → printer.old.layout ≡ config.layout
        → IsLastWritten config cache result (W.state out.old) (W.state out.new) }
    ensures end { end ≢ OutEnd.Whole → result ≡ end }
    ensures out { end ≢ OutEnd.Whole → out.new ≡ out.old }
{
    let OutEnd::Whole = end else {
        return end;
    };
    let Ok(left) = cache.finish() else {
        return OutEnd::Memory;
    };
    let Some(purge) = left else {
        return OutEnd::Whole;
    };
    write_purge(printer, &purge, out)
}
