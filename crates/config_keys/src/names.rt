//! Names of files that a configuration gives twice.

ghost use Rattle.std.specs.Prelude.{◌≡◌, ◌∷◌, ◌++◌, IfOk, map, option_map};
ghost use Rattle.std.specs.List.{list_any};
ghost use Rattle.std.specs.Option.{option_to_list};
ghost use Rattle.config_keys.specs.ConfigViews.{says};
ghost use Rattle.config_keys.specs.Lines.{is_among};
ghost use Rattle.config_keys.specs.Reading.{collector_inputs, input_names, lacks_capture, lacks_daemon, lacks_key, output_names, same_captures, same_texts, shares_name};

use crate::seen::are_apart;
use crate::value::is_among;
use crate::{Config, Tool};
use acct_types::{AsFrom, NoMemory, Text};
use std::alloc::Global;

fn audit_and_files(alloc: Global, config: &Config) -> Result<Vec<&[u8]>, NoMemory>
    ensures { IfOk result (λ names. map (λ n. n.now) names.items ≡ config.now.acct_audit_file ∷ map (λ p. p.file) (says config.now).plugins) }
{
    let mut names = Vec::new(alloc);
    names.push(config.acct_audit_file.as_slice())?;
    for plugin in config.plugins.as_slice() {
        names.push(plugin.file.as_slice())?;
    }
    Ok(names)
}

/// The names of the outputs: a collector's audit and its plugins' files, or a dump.
fn output_names(alloc: Global, config: &Config) -> Result<Vec<&[u8]>, NoMemory>
    ensures { IfOk result (λ names. map (λ n. n.now) names.items ≡ output_names (says config.now)) }
{
    match config.tool {
        Tool::Pmbgpd => {
            let mut names = Vec::new(alloc);
            names.push(config.acct_dump_file.as_slice())?;
            Ok(names)
        }
        Tool::Nfacctd => audit_and_files(alloc, config),
        Tool::Sfacctd => audit_and_files(alloc, config),
    }
}

fn is_text(name: &Option<Text>, text: &[u8]) -> bool
    ensures { result ≡ is_among (option_to_list name.now) text.now }
{
    match name {
        None => false,
        Some(name) => name.as_slice() == text,
    }
}

fn is_collector_input(config: &Config, name: &[u8]) -> bool
    ensures { result ≡ is_among (collector_inputs (says config.now)) name.now }
{
    is_text(&config.acct_flow_capture, name)
        || is_text(&config.acct_route_capture, name)
        || is_text(&config.pre_tag_map, name)
        || is_text(&config.bgp_agent_map, name)
        || is_text(&config.sampling_map, name)
}

fn is_input(config: &Config, name: &[u8]) -> bool
    ensures { result ≡ is_among (input_names (says config.now)) name.now }
{
    match config.tool {
        Tool::Nfacctd => is_collector_input(config, name),
        Tool::Sfacctd => is_collector_input(config, name),
        Tool::Pmbgpd => is_text(&config.acct_route_capture, name),
    }
}

fn has_input(config: &Config, names: &[&[u8]]) -> bool
    ensures { result ≡ list_any (λ name. is_among (input_names (says config.now)) name) (map (λ n. n.now) names.now) }
{
    for name in names {
        if is_input(config, name) {
            return true;
        }
    }
    false
}

fn same_texts(one: &Option<Text>, other: &Option<Text>) -> bool
    ensures { result ≡ same_texts one.now other.now }
{
    match (one, other) {
        (Some(one), Some(other)) => one.as_slice() == other.as_slice(),
        _ => false,
    }
}

fn same_captures(config: &Config) -> bool
    ensures { result ≡ same_captures config.now.tool (says config.now) }
{
    match config.tool {
        Tool::Nfacctd => same_texts(&config.acct_flow_capture, &config.acct_route_capture),
        Tool::Sfacctd => same_texts(&config.acct_flow_capture, &config.acct_route_capture),
        Tool::Pmbgpd => false,
    }
}

/// Whether two outputs have one name, or a collector's two captures, or an output has that of an input or a map.
pub fn shares_name(alloc: Global, config: &Config) -> Result<bool, NoMemory>
    ensures { IfOk result (λ shares. shares ≡ shares_name (says config.now)) }
{
    let outputs = output_names(alloc, config)?;
    let apart = are_apart(alloc, &outputs)?;
    Ok(!apart || same_captures(config) || has_input(config, &outputs))
}

/// Whether an output has that name. Takes no memory.
pub fn has_output(config: &Config, name: &[u8]) -> bool
    ensures { result ≡ is_among (output_names (says config.now)) name.now }
{
    match config.tool {
        Tool::Pmbgpd => config.acct_dump_file.as_slice() == name,
        Tool::Nfacctd => is_audit_or_file(config, name),
        Tool::Sfacctd => is_audit_or_file(config, name),
    }
}

fn is_audit_or_file(config: &Config, name: &[u8]) -> bool
    ensures { result ≡ is_among (config.now.acct_audit_file ∷ map (λ p. p.file) (says config.now).plugins) name.now }
{
    if config.acct_audit_file.as_slice() == name {
        return true;
    }
    for plugin in config.plugins.as_slice() {
        if plugin.file.as_slice() == name {
            return true;
        }
    }
    false
}

fn lacks_daemon(config: &Config, source: AsFrom) -> bool
    ensures { result ≡ lacks_daemon (says config.now) source }
{
    match source {
        AsFrom::Export => false,
        AsFrom::Bgp => !config.bgp_daemon,
        AsFrom::Bmp => !config.bmp_daemon,
    }
}

fn lacks_capture(config: &Config) -> bool
    ensures { result ≡ lacks_capture (says config.now) }
{
    if config.acct_flow_capture.is_some() {
        (config.bgp_daemon || config.bmp_daemon) && config.acct_route_capture.is_none()
    } else {
        config.acct_route_capture.is_some()
    }
}

/// Whether a key that the others ask for is missing.
pub fn lacks_key(config: &Config) -> bool
    ensures { result ≡ lacks_key config.now.tool (says config.now) }
{
    match config.tool {
        Tool::Nfacctd => lacks_daemon(config, config.nfacctd_as) || lacks_capture(config),
        Tool::Sfacctd => lacks_daemon(config, config.sfacctd_as) || lacks_capture(config),
        Tool::Pmbgpd => false,
    }
}
