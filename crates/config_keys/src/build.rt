//! Configurations from their settings.

ghost use Rattle.std.specs.Prelude.{◌≡◌, ◌≤◌, true, IfOk, IfSome, codes, map, option_map, length};
ghost use Rattle.config_keys.specs.ConfigViews.{plugin_says, says};
ghost use Rattle.config_keys.specs.JudgingViews.{plugins_view};
ghost use Rattle.config_keys.specs.Lines.{is_name};
ghost use Rattle.config_keys.specs.Reading.{collector_plugins, config_with, file_key, has_bgp_daemon, is_replay, lacks_append, named_plugins, plugin_of, plugins_for, plugins_from, value_for};
ghost use Rattle.config_keys.specs.ValueViews.{named_view};
ghost use Rattle.config_keys.specs.Values.{are_apart, names_of};
ghost use Rattle.config_keys.specs.Views.{setting_of};
ghost use Rattle.std.specs.List.{list_all};

use crate::find::{
    as_from_of, asked_in, identifier_of, layout_in, name_of, name_or, number_of, short_number_or,
    truth_of, truth_or, value_for, value_of,
};
use crate::judge::Known;
use crate::line::Entry;
use crate::table::{ENTRIES, HOLD, LAG, PORT, REFRESH, STOP};
use crate::value::{NamedPlugin, read_plugins};
use crate::{Config, PluginConfig, PluginKind, Tool};
use acct_types::{List, NoMemory};
use std::alloc::Global;

fn file_key<'a>(kind: PluginKind) -> &'a [u8]
    ensures { result.now ≡ file_key kind }
{
    match kind {
        PluginKind::Print => b"print_output_file",
        PluginKind::Memory => b"acct_memory_file",
    }
}

fn lacks_append(entries: &[Entry<'_>], plugin: NamedPlugin<'_>) -> bool
    ensures { result ≡ lacks_append (named_view plugin.entry).kind (value_for (map setting_of entries.now) (codes "print_output_file_append") (named_view plugin.entry).name) }
{
    match plugin.kind {
        PluginKind::Print => {
            value_for(entries, b"print_output_file_append", plugin.name).is_none()
        }
        PluginKind::Memory => false,
    }
}

#[tactic(auto, using(crate::proofs::NumberLemmas::is_within))]
// What is said of a plugin, where no key of it is missing.
fn read_plugin(
    alloc: Global,
    entries: &[Entry<'_>],
    replay: bool,
    plugin: NamedPlugin<'_>,
) -> Result<Option<PluginConfig>, NoMemory>
    requires { is_name (named_view plugin).name ≡ true }
    ensures { IfOk result (λ config. option_map plugin_says config ≡ plugin_of (map setting_of entries.now) replay (named_view plugin.entry)) }
{
    if lacks_append(entries, plugin) {
        return Ok(None);
    }
    let Some(file) = value_for(entries, file_key(plugin.kind), plugin.name) else {
        return Ok(None);
    };
    let name = plugin.name;
    let primitives = asked_in(alloc, value_for(entries, b"aggregate", name))?;
    let refresh = value_for(entries, b"print_refresh_time", name);
    let ring = value_for(entries, b"acct_ring_records", name);
    let cache = value_for(entries, b"acct_cache_entries", name);
    Ok(Some(PluginConfig {
        name: List::from_slice(alloc, name)?,
        kind: plugin.kind,
        primitives,
        layout: layout_in(value_for(entries, b"print_output", name)),
        file: List::from_slice(alloc, file)?,
        refresh: short_number_or(REFRESH, refresh, 60),
        ring: short_number_or(ENTRIES, ring, 4096),
        wait: truth_or(value_for(entries, b"acct_ring_wait", name), replay),
        cache: short_number_or(ENTRIES, cache, 16384),
    }))
}

#[tactic(auto, using(crate::proofs::NumberLemmas::both))]
fn plugins_from(
    alloc: Global,
    entries: &[Entry<'_>],
    replay: bool,
    plugins: &[NamedPlugin<'_>],
) -> Result<Option<List<PluginConfig>>, NoMemory>
    requires { list_all (λ p. is_name p.name) (map named_view plugins.now) ≡ true }
    ensures { IfOk result (λ configs. option_map (λ l. map plugin_says l) configs ≡ plugins_from (map setting_of entries.now) replay (map named_view plugins.now)) }
{
    let mut configs = List::new(alloc);
    for plugin in plugins {
        match read_plugin(alloc, entries, replay, *plugin)? {
            None => return Ok(None),
            Some(config) => configs.push(config)?,
        }
    }
    Ok(Some(configs))
}

fn named_plugins<'a>(alloc: Global, entries: &[Entry<'a>]) -> Result<Known<'a>, NoMemory>
    ensures { IfOk result (λ plugins. plugins_view plugins ≡ named_plugins (map setting_of entries.now)) }
{
    let Some(value) = value_of(entries, b"plugins") else {
        return Ok(None);
    };
    match read_plugins(alloc, value)? {
        Ok(plugins) => Ok(Some(plugins)),
        Err(_) => Ok(None),
    }
}

fn is_replay(entries: &[Entry<'_>]) -> bool
    ensures { result ≡ is_replay (map setting_of entries.now) }
{
    value_of(entries, b"acct_flow_capture").is_some()
}

fn collector_plugins(
    alloc: Global,
    entries: &[Entry<'_>],
) -> Result<Option<List<PluginConfig>>, NoMemory>
    ensures value { IfOk result (λ configs. option_map (λ l. map plugin_says l) configs ≡ collector_plugins (map setting_of entries.now)) }
    ensures few { IfOk result (λ configs. IfSome configs (λ l. length l ≤ 8)) }
    ensures apart { IfOk result (λ configs. IfSome configs (λ l. are_apart (map (λ p. p.name) l) ≡ true)) }
{
    let Some(plugins) = named_plugins(alloc, entries)? else {
        return Ok(None);
    };
    plugins_from(alloc, entries, is_replay(entries), &plugins)
}

/// The plugins of a tool, or None where a key is missing.
pub fn plugins_for(
    alloc: Global,
    tool: Tool,
    entries: &[Entry<'_>],
) -> Result<Option<List<PluginConfig>>, NoMemory>
    ensures value { IfOk result (λ configs. option_map (λ l. map plugin_says l) configs ≡ plugins_for tool (map setting_of entries.now)) }
    ensures few { IfOk result (λ configs. IfSome configs (λ l. length l ≤ 8)) }
    ensures apart { IfOk result (λ configs. IfSome configs (λ l. are_apart (map (λ p. p.name) l) ≡ true)) }
{
    match tool {
        Tool::Nfacctd => collector_plugins(alloc, entries),
        Tool::Sfacctd => collector_plugins(alloc, entries),
        Tool::Pmbgpd => Ok(Some(List::new(alloc))),
    }
}

fn has_bgp_daemon(tool: Tool) -> bool
    ensures { result ≡ has_bgp_daemon tool }
{
    match tool {
        Tool::Nfacctd => false,
        Tool::Sfacctd => false,
        Tool::Pmbgpd => true,
    }
}

#[tactic(auto, using(crate::proofs::NumberLemmas::is_within, crate::proofs::NumberLemmas::is_hold, crate::proofs::NumberLemmas::at_most))]
/// The configuration of the settings with these plugins.
pub fn config_with(
    alloc: Global,
    tool: Tool,
    entries: &[Entry<'_>],
    plugins: List<PluginConfig>,
) -> Result<Config, NoMemory>
    requires few { length plugins ≤ 8 }
    requires apart { are_apart (map (λ p. p.name) plugins) ≡ true }
    ensures { IfOk result (λ config. says config ≡ config_with tool (map setting_of entries.now) (map plugin_says plugins)) }
{
    let pre_tag_map = name_of(alloc, entries, b"pre_tag_map")?;
    let bgp_agent_map = name_of(alloc, entries, b"bgp_agent_map")?;
    let sampling_map = name_of(alloc, entries, b"sampling_map")?;
    let acct_flow_capture = name_of(alloc, entries, b"acct_flow_capture")?;
    let acct_route_capture = name_of(alloc, entries, b"acct_route_capture")?;
    let acct_audit_file = name_or(alloc, entries, b"acct_audit_file", b"audit.txt")?;
    let acct_dump_file = name_or(alloc, entries, b"acct_dump_file", b"dump.txt")?;
    Ok(Config {
        tool,
        plugins,
        nfacctd_port: number_of(entries, b"nfacctd_port", PORT, 2100),
        sfacctd_port: number_of(entries, b"sfacctd_port", PORT, 6343),
        nfacctd_renormalize: truth_of(entries, b"nfacctd_renormalize", false),
        sfacctd_renormalize: truth_of(entries, b"sfacctd_renormalize", false),
        nfacctd_as: as_from_of(entries, b"nfacctd_as"),
        sfacctd_as: as_from_of(entries, b"sfacctd_as"),
        pre_tag_map,
        bgp_agent_map,
        sampling_map,
        bgp_daemon: truth_of(entries, b"bgp_daemon", has_bgp_daemon(tool)),
        bmp_daemon: truth_of(entries, b"bmp_daemon", false),
        bgp_daemon_port: number_of(entries, b"bgp_daemon_port", PORT, 179),
        bmp_daemon_port: number_of(entries, b"bmp_daemon_port", PORT, 1790),
        acct_flow_capture,
        acct_route_capture,
        acct_audit_file,
        acct_dump_file,
        acct_threads: truth_of(entries, b"acct_threads", true),
        acct_replay_lag: number_of(entries, b"acct_replay_lag", LAG, 0),
        acct_bgp_hold: number_of(entries, b"acct_bgp_hold", HOLD, 180),
        acct_bgp_id: identifier_of(entries, b"acct_bgp_id"),
        acct_stop_after: number_of(entries, b"acct_stop_after", STOP, 4294967295),
    })
}
