//! The configuration of a text.

ghost use Rattle.std.specs.Prelude.{◌≡◌, ◌≤◌, ◌<◌, ◌^◌, length, map};
ghost use Rattle.config_keys.specs.ConfigViews.{IsReading};
ghost use Rattle.config_keys.specs.JudgingViews.{SettingsAre};
ghost use Rattle.config_keys.specs.Judging.{settings_of};
ghost use Rattle.config_keys.specs.Lines.{lines_of};
ghost use Rattle.config_keys.specs.Reading.{completed, config_of, plugins_for};
ghost use Rattle.config_keys.specs.Views.{setting_of};

use crate::build::{config_with, plugins_for};
use crate::judge::{find_plugins, read_settings};
use crate::line::{Entry, read_lines};
use crate::names::{lacks_key, shares_name};
use crate::{Config, ConfigCause, ConfigFault, Tool};
use std::alloc::Global;

/// The configuration of a tool in a text of at most 1,048,576 octets: lines of a key, `:` and a value. The fault is
/// that of the first line with a cause, or of line 0 where no line has one and a key is missing or a name stands twice.
pub fn read_config(alloc: Global, tool: Tool, text: &[u8]) -> Result<Config, ConfigFault>
    requires { length text.now ≤ 1048576 }
    ensures { IsReading result (config_of tool text.now) }
{
    let lines = read_lines(alloc, text)?;
    let entries = read_entries(alloc, &lines)?;
    complete(alloc, tool, &entries)
}

fn read_entries<'a>(alloc: Global, lines: &[&'a [u8]]) -> Result<Vec<Entry<'a>>, ConfigFault>
    requires { length lines.now < 2 ^ 32 }
    ensures { SettingsAre result (settings_of (map (λ l. l.now) lines.now)) }
{
    let plugins = find_plugins(alloc, lines)?;
    read_settings(alloc, &plugins, lines)
}

fn missing() -> ConfigFault
    ensures { result ≡ ConfigFault.At 0 ConfigCause.MissingKey }
{
    ConfigFault::At {
        line: 0,
        cause: ConfigCause::MissingKey,
    }
}

fn complete(alloc: Global, tool: Tool, entries: &[Entry<'_>]) -> Result<Config, ConfigFault>
    ensures { IsReading result (completed tool (map setting_of entries.now) (plugins_for tool (map setting_of entries.now))) }
{
    let Some(plugins) = plugins_for(alloc, tool, entries)? else {
        return Err(missing());
    };
    let config = config_with(alloc, tool, entries, plugins)?;
    if lacks_key(&config) {
        return Err(missing());
    }
    if shares_name(alloc, &config)? {
        return Err(ConfigFault::At {
            line: 0,
            cause: ConfigCause::SameName,
        });
    }
    Ok(config)
}
