//! The loads of a datagram, given to the plugins.

ghost use Rattle.std.specs.Prelude.{◌≡◌, ◌≤◌, ◌<◌, ◌+◌, ◌-◌, ◌^◌, ◌++◌, ◌∷◌, [], ℕ, List as Sequence, if◌then◌else◌, ◌==◌, slice_index_or, length};
ghost use Rattle.acct_types.specs.declared.item.Item.{Item as ItemValue};
ghost use Rattle.config_keys.specs.declared.plugin.PluginConfig.{PluginConfig};
ghost use Rattle.outside_io.specs.States.{SinkState};
ghost use Rattle.plugin_work.specs.Plugins.{HasTaken, PluginState};
ghost use Rattle.collect_core.specs.Given.{Take};
ghost use Rattle.collect_core.specs.Loads.{given_to};

use acct_types::{Item, List};
use outside_io::Sink;
use plugin_work::Plugin;

// Gives an item to the plugin with this number, if there is one.
fn give_load<W: Sink>(plugins: &mut [Plugin<W>], number: u32, item: Item)
    requires room { (d : PluginState) → number < length plugins.old → (slice_index_or plugins.old number d).taken < 2 ^ 32 - 1 }
    ensures { Take plugins.old plugins.new (λ place. if number == place then item ∷ [] else []) }
{
    let index = number as usize;
    if index < plugins.len() {
        plugins[index].take_item(item);
    }
}

/// Gives each plugin the items with its number, in their order.
#[tactic(auto, using(crate::proofs::GivenLemmas::take_none))]
pub fn give_loads<W: Sink>(plugins: &mut [Plugin<W>], loads: List<(u32, Item)>)
    requires room { (place : ℕ) (d : PluginState) → place < length plugins.old
        → (slice_index_or plugins.old place d).taken + length (given_to place loads) ≤ 2 ^ 32 - 1 }
    ensures { Take plugins.old plugins.new (λ place. given_to place loads) }
{
    for (number, item) in loads.into_vec() {
        give_load(plugins, number, item);
    }
}
