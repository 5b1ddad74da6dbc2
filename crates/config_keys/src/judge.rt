//! What is wrong with the lines of a configuration.

ghost use Rattle.std.specs.Prelude.{◌≡◌, ◌<◌, ◌^◌, ◌||◌, ◌++◌, [], ℕ, List as Sequence, IfOk, OnOk, option_map, map, length};
ghost use Rattle.config_keys.specs.JudgingViews.{SettingsAre, has_label, plugins_view};
ghost use Rattle.config_keys.specs.Judging.{is_of_plugins, is_repeated, is_unknown_name, key_cause, line_cause, may_not_be_named, naming, plugins_at, plugins_named, said_by, setting_cause, settings_from, stands_before};
ghost use Rattle.config_keys.specs.Lines.{is_among};
ghost use Rattle.config_keys.specs.Seen.{has_text};
ghost use Rattle.config_keys.specs.Table.{row_of, row_view};
ghost use Rattle.config_keys.specs.ValueViews.{named_view};
ghost use Rattle.config_keys.specs.Values.{names_of};
ghost use Rattle.config_keys.specs.Views.{line_view, setting_of};

use crate::fault::{ConfigCause, ConfigFault};
use crate::line::{Entry, Line, is_text, read_line};
use crate::seen::see;
use crate::table::{Row, Scope, find_row};
use crate::value::{NamedPlugin, is_left_out, is_word, read_plugins, value_cause};
use acct_types::NoMemory;
use std::alloc::Global;
use std::collections::HashSet;

/// The plugins of the first line with the key `plugins`, where it is there and has no cause.
pub type Known<'a> = Option<Vec<NamedPlugin<'a>>>;

fn naming(said: Line<'_>) -> Option<Entry<'_>>
    ensures { option_map setting_of result ≡ naming (line_view said.entry) }
{
    match said {
        Line::Says(entry) if is_word(entry.key, b"plugins") => Some(entry),
        _ => None,
    }
}

fn plugins_at<'a>(alloc: Global, line: &[u8], entry: Entry<'a>) -> Result<Known<'a>, NoMemory>
    ensures { IfOk result (λ plugins. plugins_view plugins ≡ plugins_at line.now (setting_of entry.entry)) }
{
    if !is_text(line) || entry.name.is_some() {
        return Ok(None);
    }
    match read_plugins(alloc, entry.value)? {
        Ok(plugins) => Ok(Some(plugins)),
        Err(_) => Ok(None),
    }
}

/// The plugins that the lines name.
pub fn find_plugins<'a>(alloc: Global, lines: &[&'a [u8]]) -> Result<Known<'a>, NoMemory>
    ensures { IfOk result (λ plugins. plugins_view plugins ≡ plugins_named (map (λ l. l.now) lines.now)) }
{
    for line in lines {
        if let Some(entry) = naming(read_line(line)) {
            return plugins_at(alloc, line, entry);
        }
    }
    Ok(None)
}

fn may_not_be_named(scope: Scope) -> bool
    ensures { result ≡ may_not_be_named scope }
{
    match scope {
        Scope::Global => true,
        Scope::Plugin => false,
        Scope::PassedOver => false,
    }
}

fn is_of_plugins(scope: Scope) -> bool
    ensures { result ≡ is_of_plugins scope }
{
    match scope {
        Scope::Global => false,
        Scope::Plugin => true,
        Scope::PassedOver => false,
    }
}

fn is_name_of(plugins: &[NamedPlugin<'_>], name: &[u8]) -> bool
    ensures { result ≡ is_among (names_of (map named_view plugins.now)) name.now }
{
    for plugin in plugins {
        if is_word(plugin.name, name) {
            return true;
        }
    }
    false
}

fn is_unknown_name(plugins: &Known<'_>, name: Option<&[u8]>) -> bool
    ensures { result ≡ is_unknown_name (plugins_view plugins.now) (option_map (λ n. n.now) name.entry) }
{
    match (plugins, name) {
        (Some(plugins), Some(name)) => !is_name_of(plugins, name),
        _ => false,
    }
}

fn setting_cause(
    alloc: Global,
    plugins: &Known<'_>,
    repeated: bool,
    entry: Entry<'_>,
    row: Row,
) -> Result<Option<ConfigCause>, NoMemory>
    ensures { IfOk result (λ cause. cause ≡ setting_cause (plugins_view plugins.now) repeated (setting_of entry.entry) (row_view row)) }
{
    if may_not_be_named(row.scope) && entry.name.is_some() {
        return Ok(Some(ConfigCause::NotInProfile));
    }
    if is_left_out(alloc, row.kind, entry.value)? {
        return Ok(Some(ConfigCause::NotInProfile));
    }
    if repeated {
        return Ok(Some(ConfigCause::Repeated));
    }
    if is_of_plugins(row.scope) && is_unknown_name(plugins, entry.name) {
        return Ok(Some(ConfigCause::UnknownPlugin));
    }
    value_cause(alloc, row.kind, entry.value)
}

fn key_cause(
    alloc: Global,
    plugins: &Known<'_>,
    repeated: bool,
    entry: Entry<'_>,
) -> Result<Option<ConfigCause>, NoMemory>
    ensures { IfOk result (λ cause. cause ≡ key_cause (plugins_view plugins.now) repeated (setting_of entry.entry) (row_of (setting_of entry.entry).key)) }
{
    match find_row(entry.key) {
        None => Ok(Some(ConfigCause::UnknownKey)),
        Some(row) => setting_cause(alloc, plugins, repeated, entry, row),
    }
}

fn line_cause(
    alloc: Global,
    plugins: &Known<'_>,
    repeated: bool,
    line: &[u8],
    said: Line<'_>,
) -> Result<Option<ConfigCause>, NoMemory>
    ensures { IfOk result (λ cause. cause ≡ line_cause (plugins_view plugins.now) repeated line.now (line_view said.entry)) }
{
    if let Line::Nothing = said {
        return Ok(None);
    }
    if !is_text(line) {
        return Ok(Some(ConfigCause::NotText));
    }
    match said {
        Line::Nothing => Ok(None),
        Line::NoColon => Ok(Some(ConfigCause::NoColon)),
        Line::NoLabel => Ok(Some(ConfigCause::UnknownKey)),
        Line::Says(entry) => key_cause(alloc, plugins, repeated, entry),
    }
}

// Whether the label of a line was seen before. From then on it is.
fn see_label<'a>(seen: &mut HashSet<&'a [u8]>, said: Line<'a>) -> Result<bool, NoMemory>
    ensures repeated { IfOk result (λ repeated. repeated ≡ has_label seen.old (line_view said.entry)) }
    ensures more { OnOk result ((other : Sequence ℕ) → has_text seen.new other ≡ (stands_before (said_by (line_view said.entry)) other || has_text seen.old other)) }
{
    match said {
        Line::Says(entry) => Ok(!see(seen, entry.left)?),
        _ => Ok(false),
    }
}

// Adds the setting of a line.
fn add_setting<'a>(entries: &mut Vec<Entry<'a>>, said: Line<'a>) -> Result<(), NoMemory>
    ensures { OnOk result (map setting_of entries.new.items ≡ map setting_of entries.old.items ++ said_by (line_view said.entry)) }
{
    if let Line::Says(entry) = said {
        entries.push(entry)?;
    }
    Ok(())
}

/// The settings of the lines, or the first line with a cause.
pub fn read_settings<'a>(
    alloc: Global,
    plugins: &Known<'_>,
    lines: &[&'a [u8]],
) -> Result<Vec<Entry<'a>>, ConfigFault>
    requires { length lines.now < 2 ^ 32 }
    ensures { SettingsAre result (settings_from (plugins_view plugins.now) 1 [] (map (λ l. l.now) lines.now)) }
{
    let mut seen = HashSet::new(alloc);
    let mut entries = Vec::new(alloc);
    for (index, line) in lines.iter().enumerate() {
        let said = read_line(line);
        let repeated = see_label(&mut seen, said)?;
        if let Some(cause) = line_cause(alloc, plugins, repeated, line, said)? {
            return Err(ConfigFault::At {
                line: index as u32 + 1,
                cause,
            });
        }
        add_setting(&mut entries, said)?;
    }
    Ok(entries)
}
