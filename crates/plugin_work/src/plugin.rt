ghost use Rattle.std.specs.Prelude.{◌≡◌, ◌≢◌, ◌<◌, ◌+◌, ◌-◌, ◌^◌, List as Sequence, [], ◌∷◌, ◌++◌, IfOk, IfErr};
ghost use Rattle.acct_types.specs.declared.item.Item.{Item as ItemValue};
ghost use Rattle.plugin_work.specs.Output.{of_print};
ghost use Rattle.plugin_work.specs.Plugins.{Ends, HasTaken, if_whole, passed_over};
ghost use Rattle.outside_io.specs.States.{SinkState};

use crate::outputs_conserve;
use crate::writing::{Printer, write_last, write_purge};
use acct_types::{Counts, Hashing, Item, NoMemory, Octets, keys_are_ordered};
use config_keys::{PluginConfig, PluginKind};
use outside_io::{OutEnd, Sink};
use plugin_cache::{Cache, few_items_fit, slices_are_purged};
use std::alloc::Global;
use std::marker::Model;

/// A plugin at work: it takes items, and writes the purge of each slice to its sink before it takes the next item.
#[derive(Drop)]
pub struct Plugin<W: Sink> {
    printer: Printer,
    cache: Cache,
    out: W,
    end: OutEnd,
    taken: u32,
    counted: Counts,
}

impl<W: Sink> Model for Plugin<W> {
    ghost use Rattle.plugin_work.specs.Plugins.{IsFew, PluginState};

    ghost Value = { PluginState };

    ghost view = { λ plugin. record {
      primitives = plugin.printer.primitives;
      layout = plugin.printer.layout;
      cache = plugin.cache;
      sink = W.state plugin.out;
      end = plugin.end;
      taken = plugin.taken;
      counted = plugin.counted;
    } };

    ghost invariant = { λ plugin. IsFew plugin.taken plugin.cache.rows plugin.counted };
}

/// A plugin that took all its items.
#[derive(Drop)]
pub struct PluginEnd<W: Sink> {
    /// The sink that the plugin was given.
    pub out: W,
    pub end: OutEnd,
    /// The sums over the rows of all purges, and nothing where the output isn't whole.
    pub purged: Counts,
}

// A number of a print plugin.
fn of_print(kind: PluginKind, number: u32) -> Option<u32>
    ensures { result ≡ of_print kind number }
{
    match kind {
        PluginKind::Print => Some(number),
        PluginKind::Memory => None,
    }
}

// The sums over all rows are those over all items.
fn if_whole(end: OutEnd, counted: Counts) -> Counts
    ensures { result ≡ if_whole end counted }
{
    match end {
        OutEnd::Whole => counted,
        OutEnd::Failed | OutEnd::Memory => Counts::nothing(),
    }
}

impl<W: Sink> Plugin<W> {
    /// A plugin that took no item. After NoMemory `out` is given back as it was.
    pub fn start(
        alloc: Global,
        hashing: Hashing,
        config: &PluginConfig,
        out: W,
    ) -> Result<Plugin<W>, (W, NoMemory)>
        ensures started { IfOk result (λ plugin. HasTaken config.now (W.state out) [] plugin) }
        ensures none { IfOk result (λ plugin. plugin.taken ≡ 0) }
        ensures err { IfErr result (λ back. back.0 ≡ out) }
    {
        few_items_fit();
        let limit = of_print(config.kind, config.cache);
        let refresh = of_print(config.kind, config.refresh);
        let Ok(cache) = Cache::open(alloc, hashing, limit, refresh) else {
            return Err((out, NoMemory));
        };
        let printer = Printer {
            alloc,
            primitives: config.primitives,
            layout: config.layout,
            text: Octets::new(alloc),
        };
        Ok(Plugin {
            printer,
            cache,
            out,
            end: OutEnd::Whole,
            taken: 0,
            counted: Counts::nothing(),
        })
    }

    /// Takes an item. A slice that it completes is purged, and the purge's text is written, before this returns. Once a write
    /// failed or memory ran out, nothing is done with items.
    pub fn take_item(&mut self, item: Item)
        requires { self.old.taken < 2 ^ 32 - 1 }
        ensures taken { self.new.taken ≡ self.old.taken + 1 }
        ensures takes { (config : _) (start : SinkState) (items : Sequence ItemValue) → HasTaken config start items self.old
            → HasTaken config start (items ++ item ∷ []) self.new }
        ensures passes_over { self.old.end ≢ OutEnd.Whole → self.new ≡ passed_over self.old }
    {
        few_items_fit();
        self.taken += 1;
        let OutEnd::Whole = self.end else {
            return;
        };
        self.counted = self.counted.plus(item.counts);
        let Ok(completed) = self.cache.add(item) else {
            self.end = OutEnd::Memory;
            return;
        };
        let Some(purge) = completed else {
            return;
        };
        self.end = write_purge(&mut self.printer, &purge, &mut self.out);
    }

    /// Purges the last slice, and gives the sink back.
    pub fn finish(self) -> PluginEnd<W>
        ensures ends { (config : _) (start : SinkState) (items : Sequence ItemValue) → HasTaken config start items self
            → Ends config start items (W.state result.out) result.end result.purged }
        ensures kept { self.end ≢ OutEnd.Whole → result.end ≡ self.end }
    {
        keys_are_ordered();
        slices_are_purged();
        outputs_conserve();
        let Plugin {
            mut printer,
            cache,
            mut out,
            end,
            taken: _,
            counted,
        } = self;
        let end = write_last(end, &mut printer, cache, &mut out);
        PluginEnd {
            out,
            end,
            purged: if_whole(end, counted),
        }
    }
}
