//! The plugins of a run, at its start and at its end.

ghost use Rattle.std.specs.Prelude.{◌≡◌, [], List as Sequence, length, map, IfOk};
ghost use Rattle.config_keys.specs.declared.plugin.PluginConfig.{PluginConfig};
ghost use Rattle.outside_io.specs.States.{SinkState};
ghost use Rattle.collect_core.specs.Due.{Entry};
ghost use Rattle.collect_core.specs.Ends.{EndsPlugin, ForEachPlugin, ending_of};
ghost use Rattle.collect_core.specs.Given.{AreGiven};

use acct_types::{Hashing, List, NoMemory};
use config_keys::PluginConfig;
use outside_io::Sink;
use plugin_work::{Plugin, PluginEnd, outputs_conserve};
use std::alloc::Global;

/// A plugin for each configuration, over the sink in the same place. After NoMemory the sinks are gone.
pub fn start_plugins<W: Sink>(
    alloc: Global,
    hashing: Hashing,
    configs: &[PluginConfig],
    outs: List<W>,
) -> Result<Vec<Plugin<W>>, NoMemory>
    requires one_each { length outs ≡ length configs.now }
    ensures { IfOk result (λ plugins. AreGiven configs.now (map W.state outs) (λ _. []) plugins.items) }
{
    let mut plugins = Vec::new(alloc);
    for (config, out) in configs.iter().zip(outs.into_vec()) {
        match Plugin::start(alloc, hashing, config, out) {
            Ok(plugin) => plugins.push(plugin)?,
            Err((_, NoMemory)) => return Err(NoMemory),
        }
    }
    Ok(plugins)
}

/// The ends of all plugins, in their order. After NoMemory the sinks are gone.
pub fn finish_plugins<W: Sink>(
    alloc: Global,
    plugins: Vec<Plugin<W>>,
) -> Result<List<PluginEnd<W>>, NoMemory>
    ensures { (configs : Sequence PluginConfig) (starts : Sequence SinkState) (entries : PluginConfig → Sequence Entry) → AreGiven configs starts entries plugins.items
        → IfOk result (λ ends. ForEachPlugin (λ plugin start ending. EndsPlugin plugin (entries plugin) start ending) configs starts
        (map (ending_of W.state) ends)) }
{
    outputs_conserve();
    let mut ends = List::new(alloc);
    for plugin in plugins {
        ends.push(plugin.finish())?;
    }
    Ok(ends)
}
